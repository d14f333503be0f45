//! Heads of files in tar archives, against another program's.

use crate::stores::{MEMORY, digest_of};
use crate::told::{is, is_at};
use pst_tar::{Entry, end, head, padding};
use std::process::Abort;

// Names, sizes and times, and the SHA-256 of the header that GNU tar 1.34 writes of such a file, asked for the format ustar.
const SHORT: [(&[u8], u64, u64, &str); 7] = [
    (
        b"store.json",
        66,
        0,
        "644b83850dd78df1da052bec7229e5362a7aafc73e5e5227da2605e5f4cc00d9",
    ),
    (
        b"messages.jsonl",
        0,
        0,
        "8e85c8fe780f05a43c8428d361a340f4ff6e7de8af5d01ac04a2c2b72aa96f0a",
    ),
    (
        b"folders/0x8022/props.json",
        511,
        0,
        "1de3fe892dda3ea81470ce9786ca8f09d9399bfa4ec266c2e972cf590aefd235",
    ),
    (
        b"messages/0x200024/body.txt",
        512,
        1_300_000_000,
        "05a81201c180d00ddda049d126e02dc568d6a4d7f978687173bca24bdc906262",
    ),
    (
        b"messages/0x200024/0x8045/data",
        8_589_934_591,
        8_589_934_591,
        "47d746589d66aecbb219fc444de630ad4f3d8edb732e8a3db5a14a5c805cc367",
    ),
    (
        b"a",
        1,
        1,
        "9f406d16de08f3f368ac1e87b79f094a356e30a56719b19fd05c75e2b8280960",
    ),
    (
        b"nnnnnnnnnnnnnnnnnnnnnnnnnnnnnnnnnnnnnnnnnnnnnnnnnnnnnnnnnnnnnnnnnnnnnnnnnnnnnnnnnnnnnnnnnnnnnnnnnnnn",
        513,
        1_234_567_890,
        "5a301638583ae11fbb6e1d749bb32e4d4ffbb79024b545d56edec302b3b84f5d",
    ),
];

// Numbers, lengths of names, sizes and times, and the SHA-256 of a head that a program in Python makes and of which its module
// tarfile reads name, size and time. Of these names some give a record of 99 to 101, 999 to 1,001 and 9,999 to 10,001 bytes.
const LONG: [(u64, usize, u64, u64, &str); 17] = [
    (
        0,
        101,
        5,
        0,
        "1e4afadcb312dd27aa8fe82bf721fc419ab8965e5842f8f611397ea325c9d41c",
    ),
    (
        7,
        102,
        100,
        1_300_000_000,
        "e5ee271ae719f3c8b95a2b0e6b86627f1e1dacb3d91df91a0c0a3c667ebe53ba",
    ),
    (
        12_345,
        255,
        0,
        3,
        "3f7110ec589fcf1032dba68155fec1da7f5f46010c28e92ee9117cc7c9088ddd",
    ),
    (
        0,
        986,
        3,
        0,
        "0e450444df8bb8f45ef9aa04f7f4326fc404d38d37637949fea793b48791bde3",
    ),
    (
        1,
        987,
        3,
        1,
        "b0e42ac7a9a0bbe9b281f70b9062972ba1c6a2aa791da283597dd1386d71e506",
    ),
    (
        2,
        988,
        3,
        2,
        "0110fac7c3e891007bbf8e3d97fcf47eaad32b780fe0f377ad56aad41d2ff40d",
    ),
    (
        3,
        989,
        3,
        3,
        "1224865cbde308df67c4e718a1e4c8ada4b5f69a62cd9f5a86810cafae77f9a2",
    ),
    (
        4,
        990,
        3,
        4,
        "52799e9e05f3ae5a23d56a5fba3a2c368974602e40baf7ac83193ada33da81a1",
    ),
    (
        5,
        991,
        3,
        5,
        "e84785bac774105259c009332bd407d6ec1e66d35201a4dd7499508fc143bf87",
    ),
    (
        6,
        992,
        3,
        6,
        "a437325d83e1255c0abe22578654645710192b9fc30b84c1530b5582f778fbca",
    ),
    (
        7,
        993,
        3,
        7,
        "b4a4eebd22db5567eea412a04e86f5dc51e62a1f4793bf7b661262b32eef4e9f",
    ),
    (
        8,
        9984,
        3,
        8,
        "a4d5f4f20827632f7581bdb7b683e26f0eb4c86925494835cd573a6efd0b295f",
    ),
    (
        9,
        9985,
        3,
        9,
        "9302bc7bd12e11e5934e452b57cb30cd0ff8ba78576fe53600c30b257738a9e8",
    ),
    (
        10,
        9986,
        3,
        10,
        "82405c69e7a1afe77c8e7d0881e883c1ce98d5b4d250859d27cac0b03fc606a7",
    ),
    (
        3,
        14,
        8_589_934_592,
        0,
        "71dd1caf167ac2cc5c20ccb1764053a99f5f52fda62d8eb68a76333745d76da4",
    ),
    (
        18_446_744_073_709_551_615,
        14,
        18_446_744_073_709_551_615,
        5,
        "4b0187bf454c7d522abc88bd4fe3fb7634f493cab0b6380a466142660a21d059",
    ),
    (
        9,
        200,
        10_000_000_000,
        8_589_934_591,
        "3f5e9921144e7969fb40a0dd43db9c75619600befc2e6c7441b47f4424fc10f3",
    ),
];

// Compares the SHA-256 of what stands before the bytes of a file.
fn is_headed<R: Abort + AllocGlobal>(rt: &R, entry: Entry<'_>, want: &str) {
    let head = head(rt.alloc(), entry).expect(rt, MEMORY);
    let told = digest_of(rt, rt.alloc(), head.as_slice());
    is_at(rt, (entry.number, entry.size), told.as_str(), want);
}

// With a name of so many letters n.
fn is_long<R: Abort + AllocGlobal>(rt: &R, row: (u64, usize, u64, u64, &str)) {
    let (number, length, size, time, want) = row;
    let name = (vec![in rt.alloc(); b'n'; length]).expect(rt, MEMORY);
    let entry = Entry {
        number,
        name: &name,
        size,
        time,
    };
    is_headed(rt, entry, want);
}

#[test]
fn headers_are_those_of_gnu_tar(rt: HostRuntime) {
    for (name, size, time, want) in &SHORT {
        let entry = Entry {
            number: 0,
            name,
            size: *size,
            time: *time,
        };
        is_headed(&rt, entry, want);
    }
}

#[test]
fn what_is_too_long_stands_before_it(rt: HostRuntime) {
    for row in &LONG {
        is_long(&rt, *row);
    }
}

// How long files are, and how many zeros fill their last blocks.
const FILLED: [(u64, usize); 6] = [
    (0, 0),
    (1, 511),
    (511, 1),
    (512, 0),
    (513, 511),
    (u64::MAX, 1),
];

fn are_zeros<R: Abort>(rt: &R, bytes: &[u8]) {
    for byte in bytes {
        is(rt, *byte, 0);
    }
}

#[test]
fn blocks_are_filled_with_zeros(rt: HostRuntime) {
    for (size, zeros) in &FILLED {
        let told = padding(*size);
        is_at(&rt, *size, told.len(), *zeros);
        are_zeros(&rt, told);
    }
    is(&rt, end().len(), 1024);
    are_zeros(&rt, end());
}
