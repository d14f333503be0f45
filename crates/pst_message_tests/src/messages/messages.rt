//! The tables of messages, and messages that share what they hold.

use super::are_answered;
use crate::makers::Body::{Bytes, List, Properties, Table};
use crate::makers::Entry;
use std::process::Abort;

// Whether a store of messages is answered with a line. Blocks: 12 properties, none; 16 four bytes; 20 a table of rows with these
// identifiers, the record of the first at 0x4d37; 24 other properties; 30 and 34 two lists.
fn is_answered<'x, R: Abort + AllocGlobal>(
    rt: &R,
    ids: &'x [u32],
    lists: [&'x [Entry]; 2],
    messages: &[Entry],
    line: &str,
) {
    let [first, other] = lists;
    let blocks = [
        (12, Properties(&[], &[])),
        (16, Bytes(&[1, 2, 3, 4])),
        (20, Table(ids)),
        (24, Properties(&[(0x0e07, 3, 1)], &[])),
        (30, List(first)),
        (34, List(other)),
    ];
    are_answered(rt, &blocks, messages, line);
}

// The rows of the table, the entries of the first list, and what is answered of a message with that.
type Row<'a> = (&'a [u32], &'a [Entry], &'a str);

const ROWS: [Row<'static>; 11] = [
    (&[], &[(0x41, 16, 0)], "yes 3"),
    (&[], &[(0x671, 20, 0)], "yes 4"),
    (&[], &[(0x671, 20, 0), (0x692, 20, 0)], "yes 5"),
    (
        &[0x8025],
        &[(0x671, 20, 0), (0x692, 20, 0), (0x8025, 24, 0)],
        "yes 6",
    ),
    // The recipient table comes first.
    (
        &[0x8025],
        &[(0x671, 20, 0), (0x692, 16, 0)],
        "no: 21 Heap at 0x4cc0 bid 0x10 nid 0x200024",
    ),
    (
        &[],
        &[(0x671, 16, 0), (0x692, 12, 0)],
        "no: 21 Heap at 0x4c80 bid 0xc nid 0x200024",
    ),
    // A row of the attachment table names no subnode, or one of another type; what it names is no attachment.
    (
        &[0x8025],
        &[(0x671, 20, 0)],
        "no: 26 NodeMissing at 0x4d37 bid 0x14 nid 0x8025",
    ),
    (
        &[0x8024],
        &[(0x671, 20, 0)],
        "no: 26 NodeMissing at 0x4d37 bid 0x14 nid 0x8024",
    ),
    (
        &[0x8024],
        &[(0x671, 20, 0), (0x8024, 16, 0)],
        "no: 27 NodeKind at 0x4d37 bid 0x14 nid 0x8024",
    ),
    (
        &[0x8025],
        &[(0x671, 20, 0), (0x8025, 16, 0)],
        "no: 21 Heap at 0x4cc0 bid 0x10 nid 0x200024",
    ),
    // The rows of a recipient table name nothing; an attachment is checked whole before the next row.
    (&[1, 2], &[(0x692, 20, 0)], "yes 4"),
];

const BAD: [Entry; 1] = [(0x671, 16, 0)];

#[test]
fn messages(rt: HostRuntime) {
    for (ids, entries, line) in &ROWS {
        let lists: [&[Entry]; 2] = [entries, &[(0x41, 16, 0)]];
        is_answered(&rt, ids, lists, &[(0x20_0024, 12, 30)], line);
    }
    // An associated message is one, and a node of another type is none.
    let line = "no: 21 Heap at 0x4cc0 bid 0x10 nid 0x200028";
    is_answered(&rt, &[], [&BAD, &BAD], &[(0x20_0028, 12, 30)], line);
    is_answered(&rt, &[], [&BAD, &BAD], &[(0x20_0025, 12, 30)], "yes 2");
}

// The second of two messages, whose first has the data 12 and the list 30: that they share their data, their list, or both. The other
// list has no attachment.
const SHARED: [(Entry, &str); 5] = [
    // Both, but for bit 0; another list, whose row names nothing; other data; data that is no property context.
    ((0x20_0044, 13, 31), "yes 5"),
    (
        (0x20_0044, 12, 34),
        "no: 26 NodeMissing at 0x4d37 bid 0x14 nid 0x8025",
    ),
    ((0x20_0044, 24, 31), "yes 6"),
    (
        (0x20_0044, 16, 30),
        "no: 21 Heap at 0x4cc0 bid 0x10 nid 0x200044",
    ),
    // A folder's and a message's properties are one context.
    ((0x20_0044, 8, 0), "yes 5"),
];

const FIRST: [Entry; 2] = [(0x671, 20, 0), (0x8025, 24, 0)];

const OTHER: [Entry; 2] = [(0x671, 20, 0), (0x8045, 24, 0)];

#[test]
fn shared(rt: HostRuntime) {
    for (message, line) in &SHARED {
        let both = [(0x20_0024, 12, 30), *message];
        is_answered(&rt, &[0x8025], [&FIRST, &OTHER], &both, line);
    }
}
