//! Pages, blocks and maps of a store whose trees have a page each.

use super::*;
use pst_make::Change::{Flip, Page, Set};

// The page of the block B-tree, at 0x4A00. With a wrong check value it is followed; with a wrong type, or another fault beside
// a wrong check value, it is not; nor where its check value is right.
const BLOCK_PAGES: [Row<'static>; 6] = [
    (
        &[Flip(0x4bf4)],
        "page PageTrailer 0x4a00 0x8, left 2 blocks 2 nodes",
    ),
    (
        &[Flip(0x4a40)],
        "page PageTrailer 0x4a00 0x8, left 2 blocks 2 nodes",
    ),
    (
        &[Set(0x4bf0, &[0x81])],
        "page PageTrailer 0x4a00 0x8, left 0 blocks 2 nodes",
    ),
    (
        &[Set(0x4be8, &[21])],
        "page PageTrailer 0x4a00 0x8, left 0 blocks 2 nodes",
    ),
    (
        &[Set(0x4be8, &[21]), Page(0x4a00)],
        "page PageShape 0x4a00 0x8, left 0 blocks 2 nodes",
    ),
    (
        &[Set(0x4a18, &[5]), Page(0x4a00)],
        "page KeyOrder 0x4a18 0x8, left 0 blocks 2 nodes",
    ),
];

#[test]
fn the_page_of_the_blocks(rt: HostRuntime) {
    are_told(&rt, rt.alloc(), &BLOCK_PAGES);
}

// The page of the node B-tree, at 0x4800: a leaf of it is never followed. On the page of the block B-tree it is Overlap, and
// where that one has a fault, and so claims nothing, PageTrailer.
const NODE_PAGES: [Row<'static>; 4] = [
    (
        &[Flip(0x49f4)],
        "page PageTrailer 0x4800 0x4, left 2 blocks 0 nodes",
    ),
    (
        &[Set(0x4820, &[0x21, 0x00]), Page(0x4800)],
        "page KeyOrder 0x4820 0x4, left 2 blocks 0 nodes",
    ),
    (
        &[Set(225, &[0x4a]), Change::Header],
        "page Overlap 0x4a00 0x4, left 2 blocks 0 nodes",
    ),
    (
        &[Set(225, &[0x4a]), Change::Header, Flip(0x4bf4)],
        "page PageTrailer 0x4a00 0x8, page PageTrailer 0x4a00 0x4, left 2 blocks 0 nodes",
    ),
];

#[test]
fn the_page_of_the_nodes(rt: HostRuntime) {
    are_told(&rt, rt.alloc(), &NODE_PAGES);
}

// The two blocks, at 0x4C00 and 0x4C40: a byte of a body, and one of the bytes between body and trailer, which say nothing; a
// wrong length, by which the first lies on the second; a place where none may lie; the second on the first, which has no
// fault, and which has one.
const BLOCKS: [Row<'static>; 7] = [
    (
        &[Flip(0x4c00)],
        "block BlockTrailer 0x4c00 0x4, left 1 blocks 2 nodes",
    ),
    (&[Flip(0x4c2f)], "left 2 blocks 2 nodes"),
    (
        &[Set(0x4a10, &[100]), Page(0x4a00)],
        "block BlockTrailer 0x4c00 0x4, left 1 blocks 2 nodes",
    ),
    (
        &[Set(0x4a10, &[0xf1, 0x1f]), Page(0x4a00)],
        "block BlockPlace 0x4c00 0x4, left 1 blocks 2 nodes",
    ),
    (
        &[Set(0x4a20, &[0x00, 0x24, 0x04]), Page(0x4a00)],
        "block BlockPlace 0x42400 0x8, left 1 blocks 2 nodes",
    ),
    (
        &[Set(0x4a20, &[0x00]), Page(0x4a00)],
        "block Overlap 0x4c00 0x8, left 1 blocks 2 nodes",
    ),
    (
        &[Set(0x4a20, &[0x00]), Page(0x4a00), Flip(0x4c34)],
        "block BlockTrailer 0x4c00 0x4, block BlockTrailer 0x4c00 0x8, left 0 blocks 2 nodes",
    ),
];

#[test]
fn blocks_one_by_one(rt: HostRuntime) {
    are_told(&rt, rt.alloc(), &BLOCKS);
}

// The map, at 0x4400: a wrong check value; the second block not marked, by a right one, and the same where that block has a
// fault, and so claims nothing.
const MAPS: [Row<'static>; 3] = [
    (
        &[Set(0x4400, &[0])],
        "maps MapPage 0x4400 0x0, left 2 blocks 2 nodes",
    ),
    (
        &[Set(0x4404, &[0x80]), Page(0x4400)],
        "maps MapMissing 0x4c40 0x0, left 2 blocks 2 nodes",
    ),
    (
        &[Set(0x4404, &[0x80]), Page(0x4400), Flip(0x4c40)],
        "block BlockTrailer 0x4c40 0x8, left 1 blocks 2 nodes",
    ),
];

#[test]
fn maps_beside_what_is_left(rt: HostRuntime) {
    are_told(&rt, rt.alloc(), &MAPS);
}
