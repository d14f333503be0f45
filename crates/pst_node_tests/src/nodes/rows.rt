//! Faults of each kind, and files that have none.

use super::*;
use pst_make::Change::{Block, Flip, Header, Page, Set};
use pst_make::m1;

#[test]
fn small_stores_are_good(rt: HostRuntime) {
    let small = small(&rt, rt.alloc());
    is_answered(&rt, rt.alloc(), &small, GOOD);
    let larger = m1(rt.alloc()).expect(&rt, MEMORY);
    let line = "yes: 2 pages 3 blocks 4 nodes High 0 lost 0 old";
    is_answered(&rt, rt.alloc(), &larger, line);
}

// Each kind of fault up to the nodes, once and more.
#[test]
fn every_fault_is_told(rt: HostRuntime) {
    let small = small(&rt, rt.alloc());
    for (len, line) in FRONTS {
        let front = small.get(..len).expect(&rt, "too short");
        is_answered(&rt, rt.alloc(), front, line);
    }
    for rows in FAULTS {
        are_answered(&rt, rt.alloc(), rows);
    }
}

const FRONTS: [(usize, &str); 3] = [
    (0, "no: 1 Short at 0x0 bid 0x0 nid 0x0"),
    (563, "no: 1 Short at 0x0 bid 0x0 nid 0x0"),
    (271_359, "no: 6 Root at 0xb8 bid 0x0 nid 0x0"),
];

const FAULTS: [&[Row<'static>]; 5] = [&HEADERS, &PAGES, &BLOCKS, &MAPS, &NODES];

const HEADERS: [Row<'static>; 9] = [
    (&[Set(0, &[0])], "no: 2 Magic at 0x0 bid 0x0 nid 0x0"),
    (
        &[Set(8, &[0]), Header],
        "no: 2 Magic at 0x8 bid 0x0 nid 0x0",
    ),
    (
        &[Set(10, &[15]), Header],
        "no: 3 Version(15) at 0xa bid 0x0 nid 0x0",
    ),
    (
        &[Set(513, &[1]), Header],
        "no: 4 Encoded(1) at 0x201 bid 0x0 nid 0x0",
    ),
    (&[Flip(300)], "no: 5 HeaderCheck at 0x4 bid 0x0 nid 0x0"),
    (&[Flip(520)], "no: 5 HeaderCheck at 0x20c bid 0x0 nid 0x0"),
    (
        &[Set(184, &[1]), Header],
        "no: 6 Root at 0xb8 bid 0x0 nid 0x0",
    ),
    (
        &[Set(192, &[1]), Header],
        "no: 6 Root at 0xc0 bid 0x0 nid 0x0",
    ),
    (
        &[Set(248, &[0]), Header],
        "no: 7 MapsInvalid at 0xf8 bid 0x0 nid 0x0",
    ),
];

const PAGES: [Row<'static>; 9] = [
    // A root that lies on no multiple of 64; a leaf that is read as a branch.
    (
        &[Set(224, &[0x01]), Header],
        "no: 8 PagePlace at 0x4801 bid 0x4 nid 0x0",
    ),
    (
        &[Set(0x49eb, &[1]), Page(0x4800)],
        "no: 8 PagePlace at 0x0 bid 0x4 nid 0x0",
    ),
    // Pages of another type, or with another check value.
    (
        &[Set(0x49f0, &[0x80, 0x80]), Page(0x4800)],
        "no: 9 PageTrailer at 0x4800 bid 0x4 nid 0x0",
    ),
    (
        &[Flip(0x4bf4)],
        "no: 9 PageTrailer at 0x4a00 bid 0x8 nid 0x0",
    ),
    // A level over 15.
    (
        &[Set(0x49eb, &[16]), Page(0x4800)],
        "no: 10 PageShape at 0x4800 bid 0x4 nid 0x0",
    ),
    // Keys that do not rise: bit 0 of a block's says nothing.
    (
        &[Set(0x4a18, &[5]), Page(0x4a00)],
        "no: 11 KeyOrder at 0x4a18 bid 0x8 nid 0x0",
    ),
    (
        &[Set(0x4820, &[0x21, 0]), Page(0x4800)],
        "no: 11 KeyOrder at 0x4820 bid 0x4 nid 0x0",
    ),
    // Both trees have one root; a root lies on a map page.
    (
        &[Set(240, &[0x00, 0x48]), Header],
        "no: 9 PageTrailer at 0x4800 bid 0x8 nid 0x0",
    ),
    (
        &[Set(240, &[0x00, 0x44]), Header],
        "no: 12 Overlap at 0x4400 bid 0x8 nid 0x0",
    ),
];

const BLOCKS: [Row<'static>; 6] = [
    // On another block, on a map page, on a page of a tree.
    (
        &[Set(0x4a20, &[0x00, 0x4c]), Page(0x4a00)],
        "no: 12 Overlap at 0x4c00 bid 0x8 nid 0x0",
    ),
    (
        &[Set(0x4a20, &[0x00, 0x46]), Page(0x4a00)],
        "no: 12 Overlap at 0x4600 bid 0x8 nid 0x0",
    ),
    (
        &[Set(0x4a20, &[0xc0, 0x49]), Page(0x4a00)],
        "no: 12 Overlap at 0x49c0 bid 0x8 nid 0x0",
    ),
    (
        &[Set(0x4a28, &[0xf1, 0x1f]), Page(0x4a00)],
        "no: 13 BlockPlace at 0x4c40 bid 0x8 nid 0x0",
    ),
    (
        &[Flip(0x4c74)],
        "no: 14 BlockTrailer at 0x4c40 bid 0x8 nid 0x0",
    ),
    // The first of two bad blocks.
    (
        &[Flip(0x4c74), Flip(0x4c34)],
        "no: 14 BlockTrailer at 0x4c00 bid 0x4 nid 0x0",
    ),
];

const MAPS: [Row<'static>; 2] = [
    (&[Flip(0x45f4)], "no: 19 MapPage at 0x4400 bid 0x0 nid 0x0"),
    (
        &[Set(0x4404, &[0x80]), Page(0x4400)],
        "no: 20 MapMissing at 0x4c40 bid 0x0 nid 0x0",
    ),
];

const NODES: [Row<'static>; 4] = [
    (
        &[Set(0x4808, &[0x0c]), Page(0x4800)],
        "no: 15 BlockMissing at 0x0 bid 0xc nid 0x21",
    ),
    // The second block is an internal one, by its identifier; its body is none.
    (
        &[
            Set(0x4a18, &[0x0a]),
            Page(0x4a00),
            Set(0x4c78, &[0x0a]),
            Block(0x4c40, 38),
            Set(0x4828, &[0x0a]),
            Page(0x4800),
        ],
        "no: 16 DataTree at 0x4c40 bid 0xa nid 0x122",
    ),
    // A data block as the list of subnodes; a list that is below itself.
    (
        &[Set(0x4830, &[4]), Page(0x4800)],
        "no: 17 Subnode at 0x4c00 bid 0x4 nid 0x122",
    ),
    (
        &[
            Set(0x4a18, &[0x0a]),
            Page(0x4a00),
            Set(0x4c40, &LIST_OF_ITSELF),
            Set(0x4c78, &[0x0a]),
            Block(0x4c40, 38),
            Set(0x4828, &[0]),
            Set(0x4830, &[0x0a]),
            Page(0x4800),
        ],
        "no: 18 Nesting at 0x0 bid 0xa nid 0x122",
    ),
];

// A list of one subnode without data, whose own subnodes are this list.
const LIST_OF_ITSELF: [u8; 32] = [
    2, 0, 1, 0, 0, 0, 0, 0, 0x41, 0, 0, 0, 0, 0, 0, 0, 0, 0, 0, 0, 0, 0, 0, 0, 0x0a, 0, 0, 0, 0, 0,
    0, 0,
];

const WHOLE: &str = "yes: 2 pages 3 blocks 4 nodes High 0 lost 0 old";

// Pages and trailers of blocks, and the line of each where a field of its trailer is changed.
const PAGE_TRAILERS: [(usize, &str); 4] = [
    (0x4800, "no: 9 PageTrailer at 0x4800 bid 0x4 nid 0x0"),
    (0x4a00, "no: 9 PageTrailer at 0x4a00 bid 0x8 nid 0x0"),
    (0x4400, "no: 19 MapPage at 0x4400 bid 0x0 nid 0x0"),
    (0x4600, WHOLE),
];

const BLOCK_TRAILERS: [(usize, &str); 3] = [
    (0x4c30, "no: 14 BlockTrailer at 0x4c00 bid 0x4 nid 0x0"),
    (0x4c70, "no: 14 BlockTrailer at 0x4c40 bid 0x8 nid 0x0"),
    (0x4cf0, "no: 14 BlockTrailer at 0x4c80 bid 0xc nid 0x0"),
];

// Whether a store is answered with a line, where the lowest bit of one of these bytes behind a place is flipped.
fn are_flipped<R: Abort>(rt: &R, alloc: Global, at: usize, fields: &[usize], line: &str) {
    for field in fields {
        is_answered_whole(rt, alloc, &[Flip(at.saturating_add(*field))], line);
    }
}

// Whether the larger store with changes is answered with a line.
fn is_answered_whole<R: Abort>(rt: &R, alloc: Global, changes: &[Change], line: &str) {
    let mut image = m1(alloc).expect(rt, MEMORY);
    change(rt, &mut image, changes);
    is_answered(rt, alloc, &image, line);
}

// Each field of each trailer of a store, with its lowest bit flipped.
#[test]
fn each_field_of_each_trailer_counts(rt: HostRuntime) {
    for (at, line) in PAGE_TRAILERS {
        are_flipped(&rt, rt.alloc(), at, &[496, 497, 498, 500, 504], line);
    }
    for (at, line) in BLOCK_TRAILERS {
        are_flipped(&rt, rt.alloc(), at, &[0, 2, 4, 8], line);
    }
    is_answered_whole(&rt, rt.alloc(), &[Flip(0x4cf8), Block(0x4c80, 90)], WHOLE);
}

// A block B-tree of a branch over three leaves.
fn three_leaves<R: Abort>(rt: &R, alloc: Global) -> Vec<u8> {
    let mut plan = no_plan(alloc);
    for n in 1..=41_u64 {
        add_block(rt, &mut plan, 4 * n, Vec::new(alloc));
    }
    image_of(rt, alloc, &plan)
}

// The last key of the second leaf, and what is answered: it is as high as the third leaf's, and it is not.
const HIGH_KEYS: [(&[Change<'static>], &str); 2] = [
    (
        &[Set(0x4dc8, &[164]), Page(0x4c00)],
        "no: 11 KeyOrder at 0x4dc8 bid 0xc nid 0x0",
    ),
    (
        &[Set(0x4dc8, &[160]), Page(0x4c00)],
        "yes: 5 pages 41 blocks 0 nodes High 0 lost 0 old",
    ),
];

#[test]
fn keys_keep_the_bounds_of_the_branch(rt: HostRuntime) {
    let mut image = three_leaves(&rt, rt.alloc());
    for (changes, line) in HIGH_KEYS {
        change(&rt, &mut image, changes);
        is_answered(&rt, rt.alloc(), &image, line);
    }
}
