//! What an attachment embeds.

use super::are_answered;
use crate::makers::Body::{Bytes, List, Properties, Table};
use crate::makers::Record;
use std::process::Abort;

// Whether a store of a message, 0x200024, with one attachment, 0x8025, is answered as a row says. The attachment's subnodes are
// 0x41, with this data, and 0x200024, a message.
fn is_answered<R: Abort + AllocGlobal>(rt: &R, row: &Row) {
    let (records, value, data, line) = *row;
    let blocks = [
        (12, Properties(&[], &[])),
        (16, Bytes(data)),
        (20, Table(&[0x8025])),
        (24, Properties(records, value)),
        (30, List(&[(0x41, 16, 0), (0x20_0024, 12, 0)])),
        (34, List(&[(0x671, 20, 0), (0x8025, 24, 30)])),
    ];
    are_answered(rt, &blocks, &[(0x20_0024, 12, 34)], line);
}

// An object that names the message, one that names no subnode, one that names a subnode of another type, and one that names a node
// which is no subnode.
const MESSAGE: [u8; 8] = [0x24, 0, 0x20, 0, 8, 0, 0, 0];

const NOTHING: [u8; 8] = [0x44, 0, 0x20, 0, 8, 0, 0, 0];

const OTHER: [u8; 8] = [0x41, 0, 0, 0, 8, 0, 0, 0];

const ROOT: [u8; 8] = [0x22, 1, 0, 0, 8, 0, 0, 0];

// The properties of the attachment, its value, the data of subnode 0x41, and what is answered. With two properties the value
// lies at 0x4da4, with three at 0x4dac; the data at 0x4cc0.
type Row<'a> = (&'a [Record], &'a [u8], &'a [u8], &'a str);

const ROWS: [Row<'static>; 19] = [
    (
        &[(0x3701, 0xd, 0x60), (0x3705, 3, 5)],
        &MESSAGE,
        &[],
        "yes 6",
    ),
    (
        &[(0x3701, 0xd, 0x60), (0x3705, 3, 5)],
        &NOTHING,
        &[],
        "no: 26 NodeMissing at 0x4da4 bid 0x18 nid 0x200044",
    ),
    (
        &[(0x3701, 0xd, 0x60), (0x3703, 3, 5), (0x3705, 3, 5)],
        &ROOT,
        &[],
        "no: 26 NodeMissing at 0x4dac bid 0x18 nid 0x122",
    ),
    // It is a message whatever its type.
    (
        &[(0x3701, 0xd, 0x60), (0x3705, 3, 5)],
        &OTHER,
        &MESSAGE,
        "no: 21 Heap at 0x4cc0 bid 0x10 nid 0x200024",
    ),
    // The value in a subnode.
    (
        &[(0x3701, 0xd, 0x41), (0x3705, 3, 5)],
        &[],
        &MESSAGE,
        "yes 6",
    ),
    (
        &[(0x3701, 0xd, 0x41), (0x3705, 3, 5)],
        &[],
        &NOTHING,
        "no: 26 NodeMissing at 0x4cc0 bid 0x18 nid 0x200044",
    ),
    // Other methods.
    (
        &[(0x3701, 0xd, 0x60), (0x3705, 3, 0)],
        &NOTHING,
        &[],
        "yes 5",
    ),
    (
        &[(0x3701, 0xd, 0x60), (0x3705, 3, 1)],
        &NOTHING,
        &[],
        "yes 5",
    ),
    (
        &[(0x3701, 0xd, 0x60), (0x3705, 3, 2)],
        &NOTHING,
        &[],
        "yes 5",
    ),
    (
        &[(0x3701, 0xd, 0x60), (0x3705, 3, 4)],
        &NOTHING,
        &[],
        "yes 5",
    ),
    (
        &[(0x3701, 0xd, 0x60), (0x3705, 3, 6)],
        &NOTHING,
        &[],
        "yes 5",
    ),
    (
        &[(0x3701, 0xd, 0x60), (0x3705, 3, 7)],
        &NOTHING,
        &[],
        "yes 5",
    ),
    (
        &[(0x3701, 0xd, 0x60), (0x3705, 3, 0x105)],
        &NOTHING,
        &[],
        "yes 5",
    ),
    (&[(0x3701, 0xd, 0x60)], &NOTHING, &[], "yes 5"),
    // A method of another type; a value of another type, an empty one, none.
    (
        &[(0x3701, 0xd, 0x60), (0x3705, 2, 5)],
        &NOTHING,
        &[],
        "yes 5",
    ),
    (
        &[(0x3701, 0x102, 0x60), (0x3705, 3, 5)],
        &NOTHING,
        &[],
        "yes 5",
    ),
    (&[(0x3701, 0xd, 0), (0x3705, 3, 5)], &NOTHING, &[], "yes 5"),
    (&[(0x3701, 0xd, 0x41), (0x3705, 3, 5)], &[], &[], "yes 5"),
    (&[(0x3705, 3, 5)], &NOTHING, &[], "yes 5"),
];

#[test]
fn attachments(rt: HostRuntime) {
    for row in &ROWS {
        is_answered(&rt, row);
    }
}
