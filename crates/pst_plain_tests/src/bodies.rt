//! Bodies, encoded and decoded, beside what another program made of them.

use crate::told::{MEMORY, holds_at, is, is_at};
use pst_plain::{Codec, Method, Pairs};
use sha2::{Digest, Sha256};
use std::alloc::Global;
use std::process::Abort;

/// All bytes in order, again and again.
pub(crate) fn rising<R: Abort>(rt: &R, alloc: Global, len: usize) -> Vec<u8> {
    let mut bytes = Vec::new(alloc);
    let mut byte = 0u8;
    for _ in 0..len {
        bytes.push(byte).expect(rt, MEMORY);
        byte = byte.wrapping_add(1);
    }
    bytes
}

#[test]
fn methods_of_numbers(rt: HostRuntime) {
    is(&rt, Method::of(0), None);
    is(&rt, Method::of(1), Some(Method::Permute));
    is(&rt, Method::of(2), Some(Method::Cyclic));
    is(&rt, Method::of(3), None);
    is(&rt, Method::of(255), None);
    is(&rt, Method::Permute.number(), 1);
    is(&rt, Method::Cyclic.number(), 2);
}

// All 256 bytes, encoded by another program: the SHA-256 of what it gave. The upper half of the low 32 bits of an identifier
// counts, and what stands above them does not.
#[test]
fn bytes_of_another_program(rt: HostRuntime) {
    let alloc = rt.alloc();
    for (method, bid, want) in [
        (
            Method::Permute,
            4,
            "9ba99036454c100f42d8c59b7a94fa1af0539f270d92ff49181c310839bf99bd",
        ),
        (
            Method::Permute,
            0x1234_5678,
            "9ba99036454c100f42d8c59b7a94fa1af0539f270d92ff49181c310839bf99bd",
        ),
        (
            Method::Cyclic,
            4,
            "bec97f957e76746c4fcd76251706c44c9b3dbde7f47c524b124fe65e5a26f99a",
        ),
        (
            Method::Cyclic,
            0x1234_5678,
            "393811e8af71a631296ae83e944b5b92f229fb617039851219247eeaa0d9b4de",
        ),
        (
            Method::Cyclic,
            0x1_0000_0004,
            "bec97f957e76746c4fcd76251706c44c9b3dbde7f47c524b124fe65e5a26f99a",
        ),
    ] {
        let mut body = rising(&rt, alloc, 256);
        Codec::new(alloc, method, 0)
            .expect(&rt, MEMORY)
            .encode(bid, &mut body);
        let digest: [u8; 32] = Sha256::digest(&body);
        let told = hex::encode(alloc, digest.as_slice()).expect(&rt, MEMORY);
        is_at(&rt, bid, told.as_str(), want);
    }
}

#[test]
fn a_text_of_another_program(rt: HostRuntime) {
    let alloc = rt.alloc();
    for (method, bid, want) in [
        (
            Method::Permute,
            4,
            *b"\x07\xea\xfd\xfd\x86\xd8\x4c\xc7\x86\x06\xfd\xfa",
        ),
        (
            Method::Cyclic,
            4,
            *b"\xf1\x2f\xab\x7e\xd5\xc7\xfd\xf2\xa7\x64\x7b\x76",
        ),
        (
            Method::Cyclic,
            0x1234_5678,
            *b"\xfb\xea\xdc\x70\x6b\xc5\x23\x89\xd1\x53\xf0\x68",
        ),
    ] {
        let mut body = *b"Hello, world";
        let codec = Codec::new(alloc, method, 0).expect(&rt, MEMORY);
        codec.encode(bid, &mut body);
        holds_at(&rt, bid, body == want);
        codec.decode(bid, &mut body);
        holds_at(&rt, bid, body == *b"Hello, world");
    }
}

// From no byte up to a full body; the key of a body that begins with 0xFFFF goes on with 0.
#[test]
fn what_is_encoded_is_decoded(rt: HostRuntime) {
    let alloc = rt.alloc();
    for len in [0, 1, 2, 255, 256, 257, 511, 8175, 8176] {
        let body = rising(&rt, alloc, len);
        for method in [Method::Permute, Method::Cyclic] {
            let codec = Codec::new(alloc, method, 0).expect(&rt, MEMORY);
            for bid in [0, 4, 0xffff, 0xffff_0000, 0x1234_5678_9abc_def0] {
                let mut changed = rising(&rt, alloc, len);
                codec.encode(bid, &mut changed);
                holds_at(&rt, len, len == 0 || changed.as_slice() != body.as_slice());
                codec.decode(bid, &mut changed);
                holds_at(&rt, len, changed.as_slice() == body.as_slice());
            }
        }
    }
}

// By permutation all pairs are put together for 16 MiB and more; what is decoded is the same.
#[test]
fn a_text_by_each_codec(rt: HostRuntime) {
    let alloc = rt.alloc();
    for (method, text) in [
        (
            Method::Permute,
            *b"\x07\xea\xfd\xfd\x86\xd8\x4c\xc7\x86\x06\xfd\xfa",
        ),
        (
            Method::Cyclic,
            *b"\xf1\x2f\xab\x7e\xd5\xc7\xfd\xf2\xa7\x64\x7b\x76",
        ),
    ] {
        for (len, many) in [
            (0, false),
            (16_777_215, false),
            (16_777_216, true),
            (1 << 40, true),
        ] {
            let mut body = text;
            let codec = Codec::new(alloc, method, len).expect(&rt, MEMORY);
            codec.decode(4, &mut body);
            holds_at(&rt, len, body == *b"Hello, world");
            let by_pairs = matches!(codec, Codec::Permute(Some(_)));
            holds_at(&rt, len, by_pairs == (many && method == Method::Permute));
        }
    }
}

// Each pair of bytes, and bodies of some lengths, as one byte after another is decoded.
#[test]
fn pairs_as_single_bytes(rt: HostRuntime) {
    let alloc = rt.alloc();
    let pairs = Pairs::new(alloc).expect(&rt, MEMORY);
    let mut body = Vec::new(alloc);
    let mut other = Vec::new(alloc);
    for first in 0..=255u8 {
        for second in 0..=255u8 {
            body.extend_from_slice(&[first, second]).expect(&rt, MEMORY);
            other
                .extend_from_slice(&[first, second])
                .expect(&rt, MEMORY);
        }
    }
    pairs.decode(&mut body);
    Codec::Permute(None).decode(4, &mut other);
    holds_at(&rt, body.len(), body.as_slice() == other.as_slice());
    for len in [0, 1, 2, 3, 4, 5, 255, 8175, 8176] {
        let mut body = rising(&rt, alloc, len);
        let mut other = rising(&rt, alloc, len);
        pairs.decode(&mut body);
        Codec::Permute(None).decode(4, &mut other);
        holds_at(&rt, len, body.as_slice() == other.as_slice());
    }
}
