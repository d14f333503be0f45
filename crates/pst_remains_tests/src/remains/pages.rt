//! Trees of several pages, and what lies behind those with a fault.

use super::*;
use crate::told::is;
use pst_fault::Kind;
use pst_make::Change::{Flip, Page, Set};
use pst_make::{BlockPlan, NodePlan, Plan, build};
use pst_remains::{Broken, page_before};

// A store of 30 empty blocks and of 40 nodes, whose identifiers are 0x21, 0x41 and on. The leaves of the node B-tree are at
// 0x4800, 0x4A00 and 0x4C00, and begin with 0x21, 0x201 and 0x3E1; its root is at 0x4E00. The leaves of the block B-tree are
// at 0x5000 and 0x5200; its root is at 0x5400. The identifiers of these pages are 4, 8 and on.
fn store<R: Abort>(rt: &R, alloc: Global) -> Vec<u8> {
    let mut plan = Plan {
        blocks: Vec::new(alloc),
        nodes: Vec::new(alloc),
    };
    for n in 0..30_u64 {
        let body = Vec::new(alloc);
        let bid = n.saturating_mul(4).saturating_add(4);
        plan.blocks.push(BlockPlan { bid, body }).expect(rt, MEMORY);
    }
    for n in 0..40_u32 {
        plan.nodes
            .push(NodePlan {
                nid: n.saturating_mul(0x20).saturating_add(0x21),
                bid_data: 4,
                bid_sub: 0,
                parent: 0,
            })
            .expect(rt, MEMORY);
    }
    match build(alloc, &plan) {
        Ok(image) => image,
        Err(_) => rt.panic("not made"),
    }
}

// That store with changes.
fn changed_store<R: Abort>(rt: &R, alloc: Global, changes: &[Change]) -> Vec<u8> {
    let mut image = store(rt, alloc);
    change_all(&mut image, changes).expect(rt, "past the end");
    image
}

// Whether each row is told its line, done to that store.
fn are_told_of_store<R: Abort>(rt: &R, alloc: Global, rows: &[Row]) {
    for (case, (changes, line)) in rows.iter().enumerate() {
        is_told(rt, alloc, case, &changed_store(rt, alloc, changes), line);
    }
}

// The node B-tree: a leaf with a wrong check value, which is not followed; the root, which is; both; the root with a wrong
// type, which is not; the second leaf named twice, at a place where no page may lie, and below a key that is above its first.
const NODE_PAGES: [Row<'static>; 8] = [
    (&[], "left 30 blocks 40 nodes"),
    (
        &[Flip(0x4bf4)],
        "page PageTrailer 0x4a00 0x8, left 30 blocks 25 nodes",
    ),
    (
        &[Flip(0x4ff4)],
        "page PageTrailer 0x4e00 0x10, left 30 blocks 40 nodes",
    ),
    (
        &[Flip(0x4ff4), Flip(0x4bf4)],
        "page PageTrailer 0x4e00 0x10, page PageTrailer 0x4a00 0x8, left 30 blocks 25 nodes",
    ),
    (
        &[Set(0x4ff0, &[0x80])],
        "page PageTrailer 0x4e00 0x10, left 30 blocks 0 nodes",
    ),
    (
        &[Set(0x4e38, &[8]), Set(0x4e41, &[0x4a]), Page(0x4e00)],
        "page Overlap 0x4a00 0x8, left 30 blocks 30 nodes",
    ),
    (
        &[Set(0x4e28, &[0x20]), Page(0x4e00)],
        "page PagePlace 0x4a20 0x8, left 30 blocks 25 nodes",
    ),
    (
        &[Set(0x4e18, &[0x02]), Page(0x4e00)],
        "page KeyOrder 0x4a00 0x8, left 30 blocks 25 nodes",
    ),
];

#[test]
fn the_pages_of_the_nodes(rt: HostRuntime) {
    are_told_of_store(&rt, rt.alloc(), &NODE_PAGES);
}

// The block B-tree: a leaf with a wrong check value, which is followed, and with a wrong type, which is not; root and leaf with
// wrong check values.
const BLOCK_PAGES: [Row<'static>; 3] = [
    (
        &[Flip(0x53f4)],
        "page PageTrailer 0x5200 0x18, left 30 blocks 40 nodes",
    ),
    (
        &[Set(0x53f1, &[0x81])],
        "page PageTrailer 0x5200 0x18, left 20 blocks 40 nodes",
    ),
    (
        &[Flip(0x55f4), Flip(0x51f4)],
        "page PageTrailer 0x5400 0x1c, page PageTrailer 0x5000 0x14, left 30 blocks 40 nodes",
    ),
];

#[test]
fn the_pages_of_the_blocks(rt: HostRuntime) {
    are_told_of_store(&rt, rt.alloc(), &BLOCK_PAGES);
}

// The place of the first page of the node B-tree with a fault behind which a key lies.
fn place_before(broken: &[Broken], key: u64) -> Option<u64> {
    let page = page_before(broken, key)?;
    Some(page.fault.place.at)
}

// Changes, and of keys the place of the page behind which each lies.
type Behind<'a> = (&'a [Change<'a>], [(u64, Option<u64>); 6]);

// A key below the first one is sought by way of the first leaf.
const BEHIND: [Behind<'static>; 5] = [
    (
        &[],
        [
            (0, None),
            (0x20, None),
            (0x21, None),
            (0x201, None),
            (0x501, None),
            (u64::MAX, None),
        ],
    ),
    (
        &[Flip(0x49f4)],
        [
            (0, Some(0x4800)),
            (0x21, Some(0x4800)),
            (0x200, Some(0x4800)),
            (0x201, None),
            (0x3e1, None),
            (u64::MAX, None),
        ],
    ),
    (
        &[Flip(0x4bf4)],
        [
            (0, None),
            (0x200, None),
            (0x201, Some(0x4a00)),
            (0x3e0, Some(0x4a00)),
            (0x3e1, None),
            (u64::MAX, None),
        ],
    ),
    (
        &[Flip(0x49f4), Flip(0x4df4)],
        [
            (0, Some(0x4800)),
            (0x200, Some(0x4800)),
            (0x201, None),
            (0x3e0, None),
            (0x3e1, Some(0x4c00)),
            (u64::MAX, Some(0x4c00)),
        ],
    ),
    (
        &[Flip(0x4ff4), Flip(0x4bf4)],
        [
            (0, Some(0x4e00)),
            (0x21, Some(0x4e00)),
            (0x200, Some(0x4e00)),
            (0x201, Some(0x4e00)),
            (0x3e1, Some(0x4e00)),
            (u64::MAX, Some(0x4e00)),
        ],
    ),
];

#[test]
fn what_lies_behind_a_page(rt: HostRuntime) {
    for (changes, keys) in BEHIND {
        let image = changed_store(&rt, rt.alloc(), changes);
        let remains = remains_of(&rt, rt.alloc(), &image);
        for (key, place) in keys {
            is_at(&rt, key, place_before(&remains.broken, key), place);
        }
    }
}

// The pages of the node B-tree that have a fault, with the keys that are sought by way of each.
#[test]
fn the_keys_of_a_page_with_a_fault(rt: HostRuntime) {
    let image = changed_store(&rt, rt.alloc(), &[Flip(0x49f4), Flip(0x4df4)]);
    let remains = remains_of(&rt, rt.alloc(), &image);
    let first = Broken {
        fault: Fault::within(Kind::PageTrailer, 0x4800, 4),
        from: 0,
        high: Some(0x201),
    };
    let last = Broken {
        fault: Fault::within(Kind::PageTrailer, 0x4c00, 12),
        from: 0x3e1,
        high: None,
    };
    is(&rt, remains.broken.first().copied(), Some(first));
    is(&rt, remains.broken.get(1).copied(), Some(last));
    is(&rt, remains.broken.len(), 2);
}
