//! Tables whose row matrix is an item of the heap.

use super::is_answered;
use crate::made::m1_with;
use pst_make::Change;
use pst_make::Change::Set;

const AT_INFO: &str = "no: 25 Table at 0x4c8c bid 0xc nid 0x12d";

const AT_FIRST: &str = "no: 25 Table at 0x4ca2 bid 0xc nid 0x12d";

const AT_NEXT: &str = "no: 25 Table at 0x4caa bid 0xc nid 0x12d";

const AT_ROW: &str = "no: 25 Table at 0x4cba bid 0xc nid 0x12d";

const AT_ROWS: &str = "no: 22 HeapId at 0x4c9a bid 0xc nid 0x12d";

// Changes to the block of the hierarchy table, and what is answered of it: TCINFO is at 12, its columns at 34 and 42, the header
// of the row index at 50, its record at 58, the row of 9 bytes at 66.
const TABLE_ROWS: [(&[Change<'static>], &str); 42] = [
    (&[], "yes, 142 4cba 67f20003 4 4cc2 42 36020003 4 4cc6 7"),
    (
        &[Set(3, &[0xbc])],
        "no: 21 Heap at 0x4c80 bid 0xc nid 0x12d",
    ),
    (&[Set(4, &[0])], "no: 22 HeapId at 0x4c84 bid 0xc nid 0x12d"),
    // TCINFO: its type, room for its columns, end offsets that fall, too long rows.
    (&[Set(12, &[0x7b])], AT_INFO),
    (&[Set(13, &[3])], AT_INFO),
    (&[Set(82, &[49])], AT_INFO),
    (&[Set(14, &[3])], AT_INFO),
    (&[Set(14, &[9])], AT_INFO),
    (&[Set(16, &[7])], AT_INFO),
    (&[Set(16, &[9])], AT_INFO),
    (&[Set(18, &[10])], AT_INFO),
    (&[Set(20, &[0xf1, 0x1f])], AT_INFO),
    (&[Set(20, &[0xf0, 0x1f])], AT_ROW),
    // Columns: cells that end behind the row, and bits that lie behind it.
    (&[Set(18, &[9])], AT_FIRST),
    (&[Set(20, &[8])], AT_FIRST),
    (&[Set(38, &[6])], AT_FIRST),
    (
        &[Set(38, &[5])],
        "yes, 142 4cba 67f20003 4 4cc7 0 36020003 4 4cc6 7",
    ),
    (&[Set(46, &[6])], AT_NEXT),
    (&[Set(49, &[8])], AT_NEXT),
    // No column at all.
    (&[Set(13, &[0])], "yes, 142 4cba"),
    // The row index.
    (
        &[Set(22, &[0])],
        "no: 22 HeapId at 0x4c96 bid 0xc nid 0x12d",
    ),
    (
        &[Set(50, &[0xb4])],
        "no: 23 Bth at 0x4cb2 bid 0xc nid 0x12d",
    ),
    // The matrix: no item, no subnode, none; with a row, and without one.
    (&[Set(26, &[0xa0])], AT_ROWS),
    (
        &[Set(26, &[0x81])],
        "no: 17 Subnode at 0x4c9a bid 0xc nid 0x12d",
    ),
    (&[Set(26, &[0])], AT_ROW),
    (&[Set(26, &[0]), Set(54, &[0])], "yes"),
    (&[Set(26, &[0xa0]), Set(54, &[0])], AT_ROWS),
    // A row that is not there, and one that begins with another identifier.
    (&[Set(62, &[1])], AT_ROW),
    (&[Set(66, &[0x43])], AT_ROW),
    // A cell that is not there; what it names is not looked at.
    (&[Set(74, &[0x80])], "yes, 142 4cba 67f20003 4 4cc2 42"),
    (
        &[Set(42, &[0x1f]), Set(70, &[0, 0x10]), Set(74, &[0x80])],
        "yes, 142 4cba 67f20003 4 4cc2 42",
    ),
    // An HNID: no subnode, no item, the empty value, a value of another length.
    (
        &[Set(42, &[0x1f])],
        "no: 17 Subnode at 0x4cc6 bid 0xc nid 0x12d",
    ),
    (
        &[Set(42, &[0x1f]), Set(70, &[0, 0x10])],
        "no: 22 HeapId at 0x4cc6 bid 0xc nid 0x12d",
    ),
    (
        &[Set(42, &[0x1f]), Set(70, &[0])],
        "yes, 142 4cba 67f20003 4 4cc2 42 3602001f 0 0 0",
    ),
    (
        &[Set(42, &[0x1f]), Set(70, &[0x40])],
        "yes, 142 4cba 67f20003 4 4cc2 42 3602001f 8 4cb2 b5",
    ),
    (
        &[Set(42, &[0x48]), Set(70, &[0x40])],
        "no: 24 Property at 0x4cc6 bid 0xc nid 0x12d",
    ),
    // Opaque cells: of another width than their type has, and of a type that is not listed.
    (
        &[Set(42, &[0x40])],
        "yes, 142 4cba 67f20003 4 4cc2 42 36020040 4 4cc6 7",
    ),
    (
        &[Set(42, &[0x1f]), Set(48, &[3])],
        "yes, 142 4cba 67f20003 4 4cc2 42 3602001f 3 4cc6 7",
    ),
    (
        &[Set(42, &[0x34, 0x12])],
        "yes, 142 4cba 67f20003 4 4cc2 42 36021234 4 4cc6 7",
    ),
    (
        &[Set(42, &[0x0b]), Set(48, &[1])],
        "yes, 142 4cba 67f20003 4 4cc2 42 3602000b 1 4cc6 7",
    ),
    // Two columns with one tag, the first absent: there is no such cell, and yet that of the second is checked.
    (
        &[Set(42, &[3, 0, 0xf2, 0x67]), Set(74, &[0x40])],
        "yes, 142 4cba",
    ),
    (
        &[
            Set(34, &[0x1f, 0, 2, 0x36]),
            Set(42, &[0x1f]),
            Set(74, &[0x40]),
        ],
        "no: 17 Subnode at 0x4cc6 bid 0xc nid 0x12d",
    ),
];

#[test]
fn tables_in_a_heap(rt: HostRuntime) {
    let alloc = rt.alloc();
    for (changes, line) in TABLE_ROWS {
        let image = m1_with(&rt, alloc, 2, changes);
        is_answered(&rt, alloc, &image, 0x12d, line);
    }
}
