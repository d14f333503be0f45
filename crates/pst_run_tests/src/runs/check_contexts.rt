//! `check` over stores whose property contexts and table contexts are good or bad.

use super::check_cases::Answer::{No, Yes};
use super::check_cases::{Body, Case, LIST_OF_ONE, Store, are_answered};
use super::check_good::{M0_YES, M1_YES};
use pst_make::Change::{Block, Set};
use std::test::Fail;

/// Bad property contexts. The store's stands at 0x4c00: the header of its BTH at 12, its one record at 20, its value at 28, its page
/// map at 32. The root folder's stands at 0x4c40.
pub(super) const PROPERTIES: [Case<'static>; 6] = [
    Case {
        what: "another signature of the client",
        store: Store::M0,
        changes: &[Set(0x4c00, &[0x20, 0, 0xec, 0xbb]), Block(0x4c00, 44)],
        answer: No("no: 21 Heap at 0x4c00 bid 0x4 nid 0x21\n"),
    },
    Case {
        what: "no root",
        store: Store::M0,
        changes: &[Set(0x4c04, &[0]), Block(0x4c00, 44)],
        answer: No("no: 22 HeapId at 0x4c04 bid 0x4 nid 0x21\n"),
    },
    Case {
        what: "records in an item that is not there",
        store: Store::M0,
        changes: &[Set(0x4c50, &[0x60]), Block(0x4c40, 38)],
        answer: No("no: 22 HeapId at 0x4c50 bid 0x8 nid 0x122\n"),
    },
    Case {
        what: "another type of a BTH",
        store: Store::M0,
        changes: &[Set(0x4c0c, &[0xb4]), Block(0x4c00, 44)],
        answer: No("no: 23 Bth at 0x4c0c bid 0x4 nid 0x21\n"),
    },
    Case {
        what: "no records below too many levels",
        store: Store::M0,
        changes: &[Set(0x4c4f, &[16, 0]), Block(0x4c40, 38)],
        answer: No("no: 23 Bth at 0x4c4c bid 0x8 nid 0x122\n"),
    },
    Case {
        what: "a time of 7 bytes",
        store: Store::M0,
        changes: &[Set(0x4c16, &[0x40]), Set(0x4c2a, &[35]), Block(0x4c00, 44)],
        answer: No("no: 24 Property at 0x4c14 bid 0x4 nid 0x21\n"),
    },
];

/// Bad cells. The hierarchy table of M1 stands at 0x4c80: its second column at 42, the record of its one row at 58, the row at 66,
/// which column is there at 74.
pub(super) const CELLS: [Case<'static>; 3] = [
    Case {
        what: "a text in a subnode that is not there",
        store: Store::M1,
        changes: &[Set(0x4caa, &[0x1f]), Block(0x4c80, 90)],
        answer: No("no: 17 Subnode at 0x4cc6 bid 0xc nid 0x12d\n"),
    },
    Case {
        what: "a text in an item that is not there",
        store: Store::M1,
        changes: &[
            Set(0x4caa, &[0x1f]),
            Set(0x4cc6, &[0x00, 0x10]),
            Block(0x4c80, 90),
        ],
        answer: No("no: 22 HeapId at 0x4cc6 bid 0xc nid 0x12d\n"),
    },
    Case {
        what: "a row that begins with another identifier",
        store: Store::M1,
        changes: &[Set(0x4cc2, &[0x43]), Block(0x4c80, 90)],
        answer: No("no: 25 Table at 0x4cba bid 0xc nid 0x12d\n"),
    },
];

// A hierarchy table of three rows of 4,000 bytes, which stand in subnode 0x41.
const HIERARCHY: [u8; 86] = [
    // The header of the heap, whose page map is at 74 and whose root is item 0x20.
    74, 0, 0xec, 0x7c, 0x20, 0, 0, 0, 0, 0, 0, 0, //
    // Item 0x20, TCINFO: one column, of 4 bytes; the bytes that say which column is there begin at 3,999.
    0x7c, 1, 4, 0, 4, 0, 0x9f, 0x0f, 0xa0, 0x0f, //
    0x40, 0, 0, 0, 0x41, 0, 0, 0, 0, 0, 0, 0, //
    3, 0, 0xf2, 0x67, 0, 0, 4, 0, //
    // Item 0x40, the row index, and item 0x60, its records at 50, 58 and 66.
    0xb5, 4, 4, 0, 0x60, 0, 0, 0, //
    0x22, 1, 0, 0, 0, 0, 0, 0, //
    0x42, 1, 0, 0, 1, 0, 0, 0, //
    0x62, 1, 0, 0, 2, 0, 0, 0, //
    // The page map.
    3, 0, 0, 0, 12, 0, 42, 0, 50, 0, 74, 0,
];

// The table at 0x4c80; its rows in block 16 at 0x4d00, which has two of them, and block 20 at 0x6d00, which has the third.
const ROWS_IN_SUBNODE: Store<'static> = Store::Wider(
    &[
        (12, Body::Bytes(&HIERARCHY)),
        (16, Body::Zeros(8176)),
        (20, Body::Zeros(4000)),
        (26, Body::Names([1, 1, 2, 0, 0x90, 0x2f, 0, 0], &[16, 20])),
        (30, Body::Names(LIST_OF_ONE, &[0x41, 26, 0])),
    ],
    &[(0x12d, 12, 30), (0x142, 8, 0), (0x162, 8, 0)],
);

const MATRICES: [Case<'static>; 2] = [
    Case {
        what: "the third row begins the second block",
        store: ROWS_IN_SUBNODE,
        changes: &[
            Set(0x4d00, &[0x22, 1]),
            Set(0x5c9f, &[0x80]),
            Set(0x5ca0, &[0x42, 1]),
            Block(0x4d00, 8176),
            Set(0x6d00, &[0x62, 1]),
            Block(0x6d00, 4000),
        ],
        answer: Yes(
            "{\"blocks\":7,\"folders\":3,\"lost\":[],\"messages\":0,\"nodes\":5,\"order\":\"high\",\"pages\":2,\"verdict\":\"yes\"}\n",
        ),
    },
    Case {
        what: "the third row goes on in the first block",
        store: ROWS_IN_SUBNODE,
        changes: &[
            Set(0x4d00, &[0x22, 1]),
            Set(0x5ca0, &[0x42, 1]),
            Set(0x6c40, &[0x62, 1]),
            Block(0x4d00, 8176),
        ],
        answer: No("no: 25 Table at 0x4cc2 bid 0xc nid 0x12d\n"),
    },
];

const GOOD: [Case<'static>; 4] = [
    Case {
        what: "no records",
        store: Store::M0,
        changes: &[Set(0x4c50, &[0]), Block(0x4c40, 38)],
        answer: Yes(M0_YES),
    },
    Case {
        what: "a time that is empty",
        store: Store::M0,
        changes: &[Set(0x4c16, &[0x40]), Set(0x4c18, &[0]), Block(0x4c00, 44)],
        answer: Yes(M0_YES),
    },
    Case {
        what: "a row without its second cell",
        store: Store::M1,
        changes: &[Set(0x4cca, &[0x80]), Block(0x4c80, 90)],
        answer: Yes(M1_YES),
    },
    Case {
        what: "a cell that names nothing and is not there",
        store: Store::M1,
        changes: &[
            Set(0x4caa, &[0x1f]),
            Set(0x4cc6, &[0x00, 0x10]),
            Set(0x4cca, &[0x80]),
            Block(0x4c80, 90),
        ],
        answer: Yes(M1_YES),
    },
];

#[test]
fn bad_properties_and_cells_are_refused(rt: HostRuntime) -> Result<(), Fail> {
    are_answered(&rt, &PROPERTIES)?;
    are_answered(&rt, &CELLS)
}

#[test]
fn rows_lie_in_blocks(rt: HostRuntime) -> Result<(), Fail> {
    are_answered(&rt, &MATRICES)
}

#[test]
fn what_is_not_there_is_not_looked_at(rt: HostRuntime) -> Result<(), Fail> {
    are_answered(&rt, &GOOD)
}
