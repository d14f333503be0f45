//! Values of a small store: what `resolve` answers for types and raw spans.

ghost use Rattle.std.specs.Prelude.{◌+◌, ◌≤◌, length};
ghost use Rattle.pst_heap.specs.View.{data_of};

mod readers;

use crate::made::{MEMORY, put, store_of};
use crate::opened::heap_in;
use crate::told::{holds, is, is_at};
use pst_bytes::Span;
use pst_datatree::Value;
use pst_fault::{Fault, Place};
use pst_heap::{Heap, Items};
use pst_value::*;
use std::alloc::Global;
use std::process::Abort;

// HNIDs, 4 bytes each: of nothing; of items of 0, 1, 7, 8, 9, 15, 16 and 17 bytes, and of no item; of a subnode of 16 bytes
// in pieces, of one without data, and of none; and of the subnode with texts.
const RAW: [u8; 56] = [
    0, 0, 0, 0, 0x40, 0, 0, 0, 0x60, 0, 0, 0, 0x80, 0, 0, 0, 0xa0, 0, 0, 0, 0xc0, 0, 0, 0, 0xe0, 0,
    0, 0, 0, 1, 0, 0, 0x20, 1, 0, 0, 0x40, 1, 0, 0, 0x41, 0, 0, 0, 0x61, 0, 0, 0, 0x81, 0, 0, 0,
    0xa1, 0, 0, 0,
];

// What each of these but the last is under types of a class: its length, as a digit to the base 36, or P for Property, H for HeapId, S for
// Subnode.
const ROWS: [(&[u16], Class, &[u8]); 9] = [
    (&[0x0002], Class::Inline, b"2222222222222"),
    (&[0x0003, 0x0004, 0x000A], Class::Inline, b"4444444444444"),
    (&[0x000B], Class::Inline, b"1111111111111"),
    (
        &[0x0005, 0x0006, 0x0007, 0x0014, 0x0040],
        Class::Eight,
        b"00PP8PPPPHP0S",
    ),
    (&[0x0048], Class::Guid, b"00PPPPPgPHg0S"),
    (&[0x000D], Class::Object, b"00PP89fghHg0S"),
    (
        &[0x001E, 0x001F, 0x00FB, 0x00FD, 0x00FE, 0x0102],
        Class::Open,
        b"001789fghHg0S",
    ),
    (
        &[
            0x1002, 0x1003, 0x1004, 0x1005, 0x1006, 0x1007, 0x1014, 0x101E, 0x101F, 0x1040, 0x1048,
            0x1102,
        ],
        Class::Multi,
        b"001789fghHg0S",
    ),
    (
        &[
            0x0000, 0x0001, 0x0008, 0x000C, 0x0049, 0x1001, 0x1008, 0xFFFF,
        ],
        Class::Opaque,
        b"4444444444444",
    ),
];

// The 16 bytes of a GUID, in blocks of 3, 0 and 13, and the XBLOCK that joins them.
const FRONT: [u8; 3] = [0x28, 3, 2];

const REST: [u8; 13] = [0, 0, 0, 0, 0, 0xc0, 0, 0, 0, 0, 0, 0, 0x46];

const GUID: [u8; 32] = [
    1, 1, 3, 0, 16, 0, 0, 0, 8, 0, 0, 0, 0, 0, 0, 0, 12, 0, 0, 0, 0, 0, 0, 0, 16, 0, 0, 0, 0, 0, 0,
    0,
];

// Two texts as a value of several, in blocks of 6 and 12 bytes.
const TEXTS_FRONT: [u8; 6] = [2, 0, 0, 0, 12, 0];

const TEXTS_REST: [u8; 12] = [0, 0, 14, 0, 0, 0, b'A', 0, b'B', 0, b'C', 0];

const TEXTS: [u8; 24] = [
    1, 1, 2, 0, 18, 0, 0, 0, 20, 0, 0, 0, 0, 0, 0, 0, 24, 0, 0, 0, 0, 0, 0, 0,
];

// The subnodes: 0x41, the GUID; 0x61, without data; 0xa1, the texts.
const SUBNODES: [u8; 80] = [
    2, 0, 3, 0, 0, 0, 0, 0, 0x41, 0, 0, 0, 0, 0, 0, 0, 30, 0, 0, 0, 0, 0, 0, 0, 0, 0, 0, 0, 0, 0,
    0, 0, 0x61, 0, 0, 0, 0, 0, 0, 0, 0, 0, 0, 0, 0, 0, 0, 0, 0, 0, 0, 0, 0, 0, 0, 0, 0xa1, 0, 0, 0,
    0, 0, 0, 0, 34, 0, 0, 0, 0, 0, 0, 0, 0, 0, 0, 0, 0, 0, 0, 0,
];

// Items of all lengths behind RAW.
const LENGTHS: [u8; 8] = [0, 1, 7, 8, 9, 15, 16, 17];

// Adds an item, its bytes counted from 0 on.
fn add_item<R: Abort>(rt: &R, items: &mut Vec<u8>, len: u8) {
    for byte in 0..len {
        items.push(byte).expect(rt, MEMORY);
    }
}

// The body of a heap: its header, RAW as its first item, the other items, and the page map.
fn heap_body<R: Abort>(rt: &R, alloc: Global) -> Vec<u8> {
    let mut items = Vec::from_slice(alloc, &RAW).expect(rt, MEMORY);
    let mut map = Vec::from_slice(alloc, &[9, 0, 0, 0, 12, 0, 68, 0]).expect(rt, MEMORY);
    for len in LENGTHS {
        add_item(rt, &mut items, len);
        put(rt, &mut map, items.len().saturating_add(12) as u64, 2);
    }
    let mut body = Vec::new(alloc);
    put(rt, &mut body, items.len().saturating_add(12) as u64, 2);
    body.extend_from_slice(&[0xec, 0xbc, 0x20, 0, 0, 0, 0, 0, 0, 0])
        .expect(rt, MEMORY);
    body.extend_from_slice(&items).expect(rt, MEMORY);
    body.extend_from_slice(&map).expect(rt, MEMORY);
    body
}

// A store of one node, 0x21, with that heap and these subnodes.
fn store<R: Abort>(rt: &R, alloc: Global) -> Vec<u8> {
    let heap = heap_body(rt, alloc);
    let blocks: [(u64, &[u8]); 9] = [
        (4, &heap),
        (8, &FRONT),
        (12, &[]),
        (16, &REST),
        (20, &TEXTS_FRONT),
        (24, &TEXTS_REST),
        (30, &GUID),
        (34, &TEXTS),
        (38, &SUBNODES),
    ];
    store_of(rt, alloc, &blocks, 4, 38)
}

// What the four bytes at an offset have under a type.
fn resolved<'a>(heap: &Heap<'a>, kind: u16, at: u64) -> Result<Value<'a>, Fault>
    requires { at + 4 ≤ length (data_of heap.now).image }
{
    resolve(heap.node(), heap, PropType(kind), Span { at, len: 4 })
}

// What a check says of the same.
fn checked(heap: &Heap, kind: u16, at: u64) -> Result<(), Fault>
    requires { at + 4 ≤ length (data_of heap.now).image }
{
    let raw = Span { at, len: 4 };
    let mut items = Items::of(*heap);
    check_value(&mut items, PropType(kind), at, raw)
}

// What the HNID of RAW with a number names, as bytes of any length.
fn named<'a, R: Abort>(rt: &R, heap: &Heap<'a>, number: u64) -> Value<'a> {
    if heap.image().len() < 100_000 || number > 13 {
        rt.panic("no such HNID");
    }
    match resolved(heap, 0x0102, 0x4c0c + 4 * number) {
        Ok(value) => value,
        Err(_) => rt.panic("nothing is named"),
    }
}

// A length as a byte of ROWS.
fn digit(len: u64) -> Option<u8> {
    b"0123456789abcdefgh".get(len as usize).copied()
}

// A fault as a byte of ROWS.
fn letter(fault: Fault) -> Option<u8> {
    match fault.kind.number() {
        17 => Some(b'S'),
        22 => Some(b'H'),
        24 => Some(b'P'),
        _ => None,
    }
}

// What a type has in the four bytes at an offset, as a byte of ROWS. A check says the same.
fn told<R: Abort>(rt: &R, heap: &Heap, kind: u16, at: u64) -> Option<u8> {
    if heap.image().len() < 100_000 || at > 50_000 {
        return None;
    }
    let checked = checked(heap, kind, at);
    match resolved(heap, kind, at) {
        Ok(value) => {
            holds(rt, checked.is_ok());
            digit(value.len())
        }
        Err(fault) => {
            let (bid, nid) = (4, 0x21);
            is(rt, checked, Err(fault));
            is(rt, fault.place, Place { at, bid, nid });
            letter(fault)
        }
    }
}

// What a type has in each of the HNIDs of RAW, as a row of ROWS.
fn row_of<R: Abort>(rt: &R, alloc: Global, heap: &Heap, kind: u16) -> Vec<u8> {
    let mut row = Vec::new(alloc);
    for i in 0..13u64 {
        let Some(byte) = told(rt, heap, kind, 0x4c0c + 4 * i) else {
            rt.panic("no byte of a row");
        };
        row.push(byte).expect(rt, MEMORY);
    }
    row
}

// The item of 8 bytes is the file's own memory, behind those of 0, 1 and 7.
fn item_is_lent<R: Abort>(rt: &R, heap: &Heap) {
    let value = named(rt, heap, 4);
    is(rt, value.at(), 0x4c4c);
    let Value::Whole(_, bytes) = value else {
        rt.panic("in pieces");
    };
    is(rt, bytes, [0u8, 1, 2, 3, 4, 5, 6, 7].as_slice());
}

#[test]
fn types_have_lengths(rt: HostRuntime) {
    let alloc = rt.alloc();
    let image = store(&rt, alloc);
    let heap = heap_in(&rt, alloc, &image, 0x21);
    for (kinds, class, row) in ROWS {
        for kind in kinds {
            is_at(&rt, kind, PropType(*kind).class(), class);
            let told = row_of(&rt, alloc, &heap, *kind);
            is_at(&rt, kind, told.as_slice(), row);
        }
    }
    item_is_lent(&rt, &heap);
}
