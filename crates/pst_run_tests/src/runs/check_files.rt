//! `check` over files whose header, trees, blocks or maps are bad, step by step.

use super::check_cases::Answer::No;
use super::check_cases::{Case, Store, are_answered};
use pst_make::Change::{Cut, Flip, Header, Page, Set};
use std::test::Fail;

/// Bad headers.
pub(super) const HEADERS: [Case<'static>; 10] = [
    Case {
        what: "a file of no bytes",
        store: Store::M0,
        changes: &[Cut(0)],
        answer: No("no: 1 Short at 0x0 bid 0x0 nid 0x0\n"),
    },
    Case {
        what: "one byte less than a header",
        store: Store::M0,
        changes: &[Cut(563)],
        answer: No("no: 1 Short at 0x0 bid 0x0 nid 0x0\n"),
    },
    Case {
        what: "another magic number",
        store: Store::M0,
        changes: &[Set(0, &[0]), Header],
        answer: No("no: 2 Magic at 0x0 bid 0x0 nid 0x0\n"),
    },
    Case {
        what: "an ANSI file",
        store: Store::M0,
        changes: &[Set(10, &[15]), Header],
        answer: No("no: 3 Version(15) at 0xa bid 0x0 nid 0x0\n"),
    },
    Case {
        what: "an encoded file",
        store: Store::M0,
        changes: &[Set(513, &[1]), Header],
        answer: No("no: 4 Encoded(1) at 0x201 bid 0x0 nid 0x0\n"),
    },
    Case {
        what: "a bit flipped in the part of both check values",
        store: Store::M0,
        changes: &[Flip(300)],
        answer: No("no: 5 HeaderCheck at 0x4 bid 0x0 nid 0x0\n"),
    },
    Case {
        what: "a bit flipped in the part of the second check value",
        store: Store::M0,
        changes: &[Flip(520)],
        answer: No("no: 5 HeaderCheck at 0x20c bid 0x0 nid 0x0\n"),
    },
    Case {
        what: "a file without its last byte",
        store: Store::M0,
        changes: &[Cut(271_359)],
        answer: No("no: 6 Root at 0xb8 bid 0x0 nid 0x0\n"),
    },
    Case {
        what: "a last allocation map where none can be",
        store: Store::M0,
        changes: &[Set(192, &[1]), Header],
        answer: No("no: 6 Root at 0xc0 bid 0x0 nid 0x0\n"),
    },
    Case {
        what: "maps that are not valid",
        store: Store::M0,
        changes: &[Set(248, &[0]), Header],
        answer: No("no: 7 MapsInvalid at 0xf8 bid 0x0 nid 0x0\n"),
    },
];

/// Bad pages of the block B-tree. The last one is that of a branch over three leaves, and the last key of the second leaf is as
/// high as the third leaf's.
pub(super) const BLOCK_TREES: [Case<'static>; 3] = [
    Case {
        what: "two keys that differ in bit 0",
        store: Store::M0,
        changes: &[Set(0x4a18, &[5]), Page(0x4a00)],
        answer: No("no: 11 KeyOrder at 0x4a18 bid 0x8 nid 0x0\n"),
    },
    Case {
        what: "a root page on the first allocation map",
        store: Store::M0,
        changes: &[Set(240, &[0x00, 0x44]), Header],
        answer: No("no: 12 Overlap at 0x4400 bid 0x8 nid 0x0\n"),
    },
    Case {
        what: "a key of the next leaf",
        store: Store::Nested(40),
        changes: &[Set(0x4dc8, &[0xa6]), Page(0x4c00)],
        answer: No("no: 11 KeyOrder at 0x4dc8 bid 0xc nid 0x0\n"),
    },
];

/// Bad pages of the node B-tree.
pub(super) const NODE_TREES: [Case<'static>; 4] = [
    Case {
        what: "a root page on no multiple of 64",
        store: Store::M0,
        changes: &[Set(224, &[0x01]), Header],
        answer: No("no: 8 PagePlace at 0x4801 bid 0x4 nid 0x0\n"),
    },
    Case {
        what: "a leaf that is read as a branch",
        store: Store::M0,
        changes: &[Set(0x49eb, &[1]), Page(0x4800)],
        answer: No("no: 8 PagePlace at 0x0 bid 0x4 nid 0x0\n"),
    },
    Case {
        what: "a page of the other tree's type",
        store: Store::M0,
        changes: &[Set(0x49f0, &[0x80, 0x80]), Page(0x4800)],
        answer: No("no: 9 PageTrailer at 0x4800 bid 0x4 nid 0x0\n"),
    },
    Case {
        what: "a page of a level that is too high",
        store: Store::M0,
        changes: &[Set(0x49eb, &[16]), Page(0x4800)],
        answer: No("no: 10 PageShape at 0x4800 bid 0x4 nid 0x0\n"),
    },
];

/// Bad blocks.
pub(super) const BLOCKS: [Case<'static>; 5] = [
    Case {
        what: "a block on another",
        store: Store::M0,
        changes: &[Set(0x4a20, &[0x00, 0x4c]), Page(0x4a00)],
        answer: No("no: 12 Overlap at 0x4c00 bid 0x8 nid 0x0\n"),
    },
    Case {
        what: "a block on a page map",
        store: Store::M0,
        changes: &[Set(0x4a20, &[0x00, 0x46]), Page(0x4a00)],
        answer: No("no: 12 Overlap at 0x4600 bid 0x8 nid 0x0\n"),
    },
    Case {
        what: "a block of 8,177 bytes",
        store: Store::M0,
        changes: &[Set(0x4a28, &[0xf1, 0x1f]), Page(0x4a00)],
        answer: No("no: 13 BlockPlace at 0x4c40 bid 0x8 nid 0x0\n"),
    },
    Case {
        what: "another check value",
        store: Store::M0,
        changes: &[Flip(0x4c74)],
        answer: No("no: 14 BlockTrailer at 0x4c40 bid 0x8 nid 0x0\n"),
    },
    Case {
        what: "other check values of both blocks",
        store: Store::M0,
        changes: &[Flip(0x4c74), Flip(0x4c34)],
        answer: No("no: 14 BlockTrailer at 0x4c00 bid 0x4 nid 0x0\n"),
    },
];

/// Bad allocation maps.
pub(super) const MAPS: [Case<'static>; 2] = [
    Case {
        what: "another check value of the map",
        store: Store::M0,
        changes: &[Flip(0x45f4)],
        answer: No("no: 19 MapPage at 0x4400 bid 0x0 nid 0x0\n"),
    },
    Case {
        what: "a block that is not marked",
        store: Store::M0,
        changes: &[Set(0x4404, &[0x80]), Page(0x4400)],
        answer: No("no: 20 MapMissing at 0x4c40 bid 0x0 nid 0x0\n"),
    },
];

#[test]
fn bad_headers_are_refused(rt: HostRuntime) -> Result<(), Fail> {
    are_answered(&rt, &HEADERS)
}

#[test]
fn bad_trees_are_refused(rt: HostRuntime) -> Result<(), Fail> {
    are_answered(&rt, &BLOCK_TREES)?;
    are_answered(&rt, &NODE_TREES)
}

#[test]
fn bad_blocks_and_maps_are_refused(rt: HostRuntime) -> Result<(), Fail> {
    are_answered(&rt, &BLOCKS)?;
    are_answered(&rt, &MAPS)
}
