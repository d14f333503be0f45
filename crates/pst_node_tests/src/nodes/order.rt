//! Two faults in one file: the one of the earlier step is told.

use super::*;
use pst_make::Change::{Flip, Header, Page, Set};

// A fault of each step, in the order of the steps: the header, the block B-tree, the node B-tree, the blocks, the maps, the
// nodes.
const STEPS: [Row<'static>; 6] = [
    (
        &[Set(248, &[0]), Header],
        "no: 7 MapsInvalid at 0xf8 bid 0x0 nid 0x0",
    ),
    (
        &[Flip(0x4bf4)],
        "no: 9 PageTrailer at 0x4a00 bid 0x8 nid 0x0",
    ),
    (
        &[Flip(0x49f4)],
        "no: 9 PageTrailer at 0x4800 bid 0x4 nid 0x0",
    ),
    (
        &[Flip(0x4c74)],
        "no: 14 BlockTrailer at 0x4c40 bid 0x8 nid 0x0",
    ),
    (&[Flip(0x45f4)], "no: 19 MapPage at 0x4400 bid 0x0 nid 0x0"),
    (
        &[Set(0x4808, &[0x0c]), Page(0x4800)],
        "no: 15 BlockMissing at 0x0 bid 0xc nid 0x21",
    ),
];

// The small store with the changes of a step, and then those of an earlier one.
fn with_both<R: Abort>(rt: &R, alloc: Global, later: &[Change], earlier: &[Change]) -> Vec<u8> {
    let mut image = changed(rt, alloc, later);
    change(rt, &mut image, earlier);
    image
}

// Whether the fault of the step with a number is told, whichever of the later ones comes with it.
fn is_first<R: Abort>(rt: &R, alloc: Global, first: usize, row: &Row) {
    let (earlier, line) = *row;
    is_answered_with(rt, alloc, earlier, line);
    for (later, _) in STEPS.iter().skip(first).skip(1) {
        let image = with_both(rt, alloc, later, earlier);
        is_answered(rt, alloc, &image, line);
    }
}

#[test]
fn the_fault_of_the_earlier_step_is_told(rt: HostRuntime) {
    for (first, row) in STEPS.iter().enumerate() {
        is_first(&rt, rt.alloc(), first, row);
    }
}
