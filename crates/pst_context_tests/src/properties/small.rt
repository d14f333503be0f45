//! Changes to the small store, and what is answered of its properties.

use pst_make::Change;
use pst_make::Change::Set;

// Changes to the block of the message store, 0x21, and what is answered of it.
pub(super) const STORE_ROWS: [(Change<'static>, &str); 13] = [
    (Set(0, &[]), "yes, 3001 1f 4c1c:4d003000"),
    (
        Set(0, &[0x20, 0, 0xec, 0xbb]),
        "no: 21 Heap at 0x4c00 bid 0x4 nid 0x21",
    ),
    (Set(3, &[0x7c]), "no: 21 Heap at 0x4c00 bid 0x4 nid 0x21"),
    (Set(4, &[0]), "no: 22 HeapId at 0x4c04 bid 0x4 nid 0x21"),
    (Set(12, &[0xb4]), "no: 23 Bth at 0x4c0c bid 0x4 nid 0x21"),
    (Set(24, &[0x80]), "no: 22 HeapId at 0x4c18 bid 0x4 nid 0x21"),
    (Set(24, &[7]), "no: 17 Subnode at 0x4c18 bid 0x4 nid 0x21"),
    (Set(24, &[0]), "yes, 3001 1f 0:"),
    (
        Set(22, &[0x40]),
        "no: 24 Property at 0x4c14 bid 0x4 nid 0x21",
    ),
    (Set(22, &[0x40, 0, 0]), "yes, 3001 40 0:"),
    (
        Set(22, &[0x48]),
        "no: 24 Property at 0x4c14 bid 0x4 nid 0x21",
    ),
    (Set(22, &[0x1e]), "yes, 3001 1e 4c1c:4d003000"),
    (Set(22, &[0x34, 0x12]), "yes, 3001 1234 4c18:60000000"),
];

// Changes to the block of the root folder, 0x122.
pub(super) const FOLDER_ROWS: [(Change<'static>, &str); 5] = [
    (Set(0, &[]), "yes, 3602 3 4c58:05000000"),
    (
        Set(16, &[0x60]),
        "no: 22 HeapId at 0x4c50 bid 0x8 nid 0x122",
    ),
    (Set(16, &[0]), "yes"),
    (Set(22, &[0x0b]), "yes, 3602 b 4c58:05"),
    (Set(22, &[2]), "yes, 3602 2 4c58:0500"),
];
