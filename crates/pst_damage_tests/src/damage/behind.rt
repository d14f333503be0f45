//! Nodes behind broken pages.

use super::*;
use pst_damage::BrokenPages;
use pst_fault::Kind;
use pst_make::Change::Flip;
use pst_remains::{Broken, page_before};

// Nodes for two leaves of the node B-tree, at 0x4800 and 0x4A00: the first 15 of them lie in the first leaf. The root of the tree is
// at 0x4C00, the page of the block B-tree at 0x4E00, and the blocks at 0x5000, 0x5040 and 0x5080. The record of the row index of the
// table is at 0x50BA.
const NODES: [Node; 17] = [
    STORE,
    (0x3f, 4),
    (0x41, 4),
    (0x5f, 4),
    (0x7f, 4),
    (0x81, 4),
    (0x9f, 4),
    (0xa1, 4),
    (0xbf, 4),
    (0xc1, 4),
    (0xdf, 4),
    (0xe1, 4),
    (0x101, 4),
    ROOT,
    SUBFOLDERS,
    (0x142, 8),
    (0x144, 8),
];

// The low byte of the row's identifier, what is changed, and what is told.
type Row<'a> = (u8, &'a [Change<'a>], &'a str);

// The second leaf has a wrong check value: what the root folder lists lies behind it, also what would be of a wrong type, and what no
// leaf has; before it, what the first leaf lacks is missing. The first leaf has one: the nodes that every store has lie behind it.
// The root has one: it is followed.
const BEHIND: [Row<'static>; 8] = [
    (0x42, &[], "whole 17 2 1"),
    (
        0x42,
        &[Flip(0x4bf4)],
        "page PageTrailer 0x4a00 0x8 0x0, whole 15 1 0",
    ),
    (
        0x44,
        &[Flip(0x4bf4)],
        "page PageTrailer 0x4a00 0x8 0x0, whole 15 1 0",
    ),
    (
        0xe2,
        &[Flip(0x4bf4)],
        "page PageTrailer 0x4a00 0x8 0x0, whole 15 1 0",
    ),
    (
        0x02,
        &[Flip(0x4bf4)],
        "page PageTrailer 0x4a00 0x8 0x0, 0x122 NodeMissing 0x50ba 0xc 0x102, whole 14 0 0",
    ),
    (
        0x42,
        &[Flip(0x49f4)],
        "page PageTrailer 0x4800 0x4 0x0, whole 2 1 1",
    ),
    (
        0x42,
        &[Flip(0x4df4)],
        "page PageTrailer 0x4c00 0xc 0x0, whole 17 2 1",
    ),
    (
        0xe2,
        &[Flip(0x4df4)],
        "page PageTrailer 0x4c00 0xc 0x0, whole 17 2 1",
    ),
];

#[test]
fn what_lies_behind_a_page(rt: HostRuntime) -> Result<(), Fail> {
    for (case, (row, changes, line)) in BEHIND.iter().enumerate() {
        let plan = with_row(rt.alloc(), *row, &NODES)?;
        let image = changed(rt.alloc(), &plan, changes)?;
        is_told(&rt, rt.alloc(), case, &image, line)?;
    }
    Ok(())
}

// A page by way of which these keys are sought. Its place says which one it is.
fn page(from: u64, high: Option<u64>) -> Broken {
    Broken {
        fault: Fault::at(Kind::PageTrailer, from),
        from,
        high,
    }
}

// Whether the same page is found by halving and one after another, for each of these nodes.
fn are_found<R: Abort>(rt: &R, alloc: Global, pages: &[Broken]) -> Result<(), Fail> {
    let found = BrokenPages::of(alloc, pages)?;
    for nid in 0..32_u32 {
        is_at(
            rt,
            nid,
            found.before(nid),
            page_before(pages, u64::from(nid)),
        );
    }
    Ok(())
}

#[test]
fn pages_are_found(rt: HostRuntime) -> Result<(), Fail> {
    are_found(&rt, rt.alloc(), &[])?;
    // Beside each other and within one another, as a walk tells them.
    are_found(
        &rt,
        rt.alloc(),
        &[
            page(0, Some(8)),
            page(2, Some(4)),
            page(4, Some(8)),
            page(8, Some(9)),
            page(12, Some(12)),
            page(20, None),
            page(24, Some(28)),
        ],
    )?;
    // In no such order.
    are_found(
        &rt,
        rt.alloc(),
        &[page(10, Some(20)), page(0, Some(5)), page(15, None)],
    )
}
