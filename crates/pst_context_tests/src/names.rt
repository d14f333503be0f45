//! Name maps of small stores, with bytes changed, and what their check and their look-ups answer.

use crate::made::{MEMORY, changed, store_of};
use crate::opened::{line_of_fault, node_in};
use crate::told::is;
use pst_make::Change;
use pst_make::Change::Set;
use pst_names::{Name, NameKind, NameMap, check_names, known_names};
use pst_pc::{Pc, check_pc};
use pst_value::bytes_from;
use std::alloc::Global;
use std::process::Abort;

// A property context with the streams of a name map: the header of a heap, of a BTH, three records, a GUID, two entries, a
// string, and the page map.
const MAP: [u8; 100] = [
    0x54, 0, 0xec, 0xbc, 0x20, 0, 0, 0, 0, 0, 0, 0, //
    0xb5, 2, 6, 0, 0x40, 0, 0, 0, //
    2, 0, 2, 1, 0x60, 0, 0, 0, //
    3, 0, 2, 1, 0x80, 0, 0, 0, //
    4, 0, 2, 1, 0xa0, 0, 0, 0, //
    0, 0x11, 0x22, 0x33, 0x44, 0x55, 0x66, 0x77, 0x88, 0x99, 0xaa, 0xbb, 0xcc, 0xdd, 0xee, 0xff, //
    0, 0, 0, 0, 7, 0, 0, 0, //
    1, 0x85, 0, 0, 4, 0, 1, 0, //
    4, 0, 0, 0, 0x48, 0, 0x69, 0, //
    5, 0, 0, 0, 12, 0, 20, 0, 0x2c, 0, 0x3c, 0, 0x4c, 0, 0x54, 0,
];

// A name: the GUID of its set, and the number or the bytes of the string.
fn put_name<R: Abort>(rt: &R, alloc: Global, line: &mut String, name: Name) {
    if let Some(set) = name.set {
        line.push_str(" ").expect(rt, MEMORY);
        for byte in set.as_bytes() {
            let digits = format!(in alloc; "{byte:02x}").expect(rt, MEMORY);
            line.push_str(&digits).expect(rt, MEMORY);
        }
    }
    match name.kind {
        NameKind::Num(number) => {
            let text = format!(in alloc; " {number}").expect(rt, MEMORY);
            line.push_str(&text).expect(rt, MEMORY);
        }
        NameKind::Text(value) => {
            line.push_str(" text ").expect(rt, MEMORY);
            for byte in bytes_from(value) {
                let digits = format!(in alloc; "{byte:02x}").expect(rt, MEMORY);
                line.push_str(&digits).expect(rt, MEMORY);
            }
        }
    }
}

// What is answered of the names of three properties.
fn told<R: Abort>(rt: &R, alloc: Global, names: NameMap) -> String {
    let mut line = format!(in alloc; "yes").expect(rt, MEMORY);
    for id in [0x8000, 0x8001, 0x8002] {
        let text = format!(in alloc; ", {id:x}").expect(rt, MEMORY);
        line.push_str(&text).expect(rt, MEMORY);
        if let Some(name) = names.name(id) {
            put_name(rt, alloc, &mut line, name);
        }
    }
    line
}

// What is answered of them, with and without an index, or the line of the first fault.
fn line_of<R: Abort>(rt: &R, alloc: Global, pc: &Pc) -> String {
    if let Err(fault) = check_names(alloc, pc) {
        return line_of_fault(rt, alloc, fault);
    }
    let names = known_names(pc);
    let line = told(rt, alloc, names);
    let index = names.index(alloc).expect(rt, MEMORY);
    is(
        rt,
        told(rt, alloc, names.indexed(&index)).as_str(),
        line.as_str(),
    );
    line
}

// Whether the name map of node 0x21 of a store is answered with a line.
fn is_answered<R: Abort>(rt: &R, alloc: Global, image: &[u8], line: &str) {
    let Ok(pc) = check_pc(node_in(rt, alloc, image, 0x21)) else {
        rt.panic("no properties");
    };
    let answer = line_of(rt, alloc, &pc);
    is(rt, answer.as_str(), line);
}

// Changes to that property context, and what is answered of it.
const ROWS: [(&[Change<'static>], &str); 15] = [
    (
        &[],
        "yes, 8000 33221100554477668899aabbccddeeff text 48006900, 8001 0002032900000000c000000000000046 34049, 8002",
    ),
    // The word of an entry: PS_MAPI, no set, a set that is not there.
    (
        &[Set(0x48, &[2])],
        "yes, 8000 33221100554477668899aabbccddeeff text 48006900, 8001 0002032800000000c000000000000046 34049, 8002",
    ),
    (
        &[Set(0x48, &[0])],
        "yes, 8000 33221100554477668899aabbccddeeff text 48006900, 8001 34049, 8002",
    ),
    (
        &[Set(0x40, &[9])],
        "no: 24 Property at 0x4c3c bid 0x4 nid 0x21",
    ),
    (
        &[Set(0x48, &[8])],
        "no: 24 Property at 0x4c44 bid 0x4 nid 0x21",
    ),
    // Both entries for one property, and one for none.
    (
        &[Set(0x4a, &[0])],
        "yes, 8000 33221100554477668899aabbccddeeff text 48006900, 8001, 8002",
    ),
    (
        &[Set(0x4a, &[1, 0x80])],
        "yes, 8000 33221100554477668899aabbccddeeff text 48006900, 8001, 8002",
    ),
    // The string is longer than the stream, and begins behind it.
    (
        &[Set(0x4c, &[5])],
        "no: 24 Property at 0x4c3c bid 0x4 nid 0x21",
    ),
    (
        &[Set(0x3c, &[5])],
        "no: 24 Property at 0x4c3c bid 0x4 nid 0x21",
    ),
    // The types of the streams, then their lengths, then the entries.
    (
        &[Set(0x16, &[0x1f, 0]), Set(0x1e, &[0x1f, 0])],
        "no: 24 Property at 0x4c2c bid 0x4 nid 0x21",
    ),
    (
        &[Set(0x1e, &[0x1f, 0]), Set(0x26, &[0x1f, 0])],
        "no: 24 Property at 0x4c3c bid 0x4 nid 0x21",
    ),
    (
        &[Set(0x26, &[0x1f, 0]), Set(0x5e, &[0x38])],
        "no: 24 Property at 0x4c4c bid 0x4 nid 0x21",
    ),
    (
        &[Set(0x5e, &[0x38]), Set(0x60, &[0x48])],
        "no: 24 Property at 0x4c2c bid 0x4 nid 0x21",
    ),
    (
        &[Set(0x60, &[0x48]), Set(0x40, &[9])],
        "no: 24 Property at 0x4c3c bid 0x4 nid 0x21",
    ),
    // No GUID stream, so no GUID of it.
    (
        &[Set(0x14, &[1])],
        "no: 24 Property at 0x4c3c bid 0x4 nid 0x21",
    ),
];

#[test]
fn small_maps(rt: HostRuntime) {
    let alloc = rt.alloc();
    for (changes, line) in ROWS {
        let map = changed(&rt, alloc, &MAP, changes);
        let image = store_of(&rt, alloc, &[(4, &map)], 4, 0);
        is_answered(&rt, alloc, &image, line);
    }
}

// A property context with the entry stream alone, which is the data of a subnode: an XBLOCK that names two blocks twice, of 12
// and of 4 bytes.
const STREAM: [u8; 38] = [
    28, 0, 0xec, 0xbc, 0x20, 0, 0, 0, 0, 0, 0, 0, //
    0xb5, 2, 6, 0, 0x40, 0, 0, 0, //
    3, 0, 2, 1, 0x41, 0, 0, 0, //
    2, 0, 0, 0, 12, 0, 20, 0, 28, 0,
];

const XBLOCK: [u8; 40] = [
    1, 1, 4, 0, 32, 0, 0, 0, 8, 0, 0, 0, 0, 0, 0, 0, 12, 0, 0, 0, 0, 0, 0, 0, 8, 0, 0, 0, 0, 0, 0,
    0, 12, 0, 0, 0, 0, 0, 0, 0,
];

const SUBNODES: [u8; 32] = [
    2, 0, 1, 0, 0, 0, 0, 0, 0x41, 0, 0, 0, 0, 0, 0, 0, //
    18, 0, 0, 0, 0, 0, 0, 0, 0, 0, 0, 0, 0, 0, 0, 0,
];

// The two blocks, and what is answered: an entry that begins in the one and ends in the other is told where it begins.
const PIECES: [([u8; 12], [u8; 4], &str); 3] = [
    (
        [17, 0, 0, 0, 2, 0, 0, 0, 34, 0, 0, 0],
        [4, 0, 1, 0],
        "yes, 8000 0002032800000000c000000000000046 17, 8001 0002032900000000c000000000000046 34, 8002",
    ),
    (
        [17, 0, 0, 0, 2, 0, 0, 0, 34, 0, 0, 0],
        [6, 0, 1, 0],
        "no: 24 Property at 0x4c48 bid 0x4 nid 0x21",
    ),
    (
        [17, 0, 0, 0, 1, 0, 0, 0, 34, 0, 0, 0],
        [6, 0, 1, 0],
        "no: 24 Property at 0x4c40 bid 0x4 nid 0x21",
    ),
];

#[test]
fn entries_in_pieces(rt: HostRuntime) {
    let alloc = rt.alloc();
    for (first, second, line) in PIECES {
        let blocks: [(u64, &[u8]); 5] = [
            (4, &STREAM),
            (8, &first),
            (12, &second),
            (18, &XBLOCK),
            (22, &SUBNODES),
        ];
        let image = store_of(&rt, alloc, &blocks, 4, 22);
        is_answered(&rt, alloc, &image, line);
    }
}
