//! Small stores, and what another program tells of them.

use super::*;
use pst_make::Change::{Cut, Flip, Set};
use pst_make::{m0_plan, m2_plan};

// The small store as it is, and with a byte of the header changed; then with a byte of its first block, and of both.
const FIRST: [(&[Change<'static>], &str); 6] = [
    (&[], "whole 2 1 0"),
    (
        &[Set(248, &[0])],
        "header HeaderCheck 0x4 0x0 0x0, whole 2 1 0",
    ),
    (
        &[Set(4, &[5])],
        "header HeaderCheck 0x4 0x0 0x0, whole 2 1 0",
    ),
    (
        &[Set(524, &[0xbb])],
        "header HeaderCheck 0x20c 0x0 0x0, whole 2 1 0",
    ),
    (
        &[Flip(0x4c00)],
        "block BlockTrailer 0x4c00 0x4 0x0, 0x21 BlockMissing 0x0 0x4 0x21, whole 1 1 0",
    ),
    (
        &[Flip(0x4c00), Flip(0x4c40)],
        "block BlockTrailer 0x4c00 0x4 0x0, block BlockTrailer 0x4c40 0x8 0x0, 0x21 BlockMissing 0x0 0x4 0x21, 0x122 BlockMissing 0x0 0x8 0x122, whole 0 0 0",
    ),
];

#[test]
fn the_first_store(rt: HostRuntime) -> Result<(), Fail> {
    let plan = m0_plan(rt.alloc())?;
    for (case, (changes, line)) in FIRST.iter().enumerate() {
        let image = changed(rt.alloc(), &plan, changes)?;
        is_told(&rt, rt.alloc(), case, &image, line)?;
    }
    Ok(())
}

// The second one as it is, and cut off before its first allocation map ends: both node 0x21 and node 0x122 lie behind the root of
// the node B-tree. A byte of its third block: it is a table of the root folder, which is passed over.
const SECOND: [(&[Change<'static>], &str); 3] = [
    (&[], "whole 4 2 0"),
    (
        &[Cut(17_920)],
        "header Root 0xb8 0x0 0x0, page PagePlace 0x4a00 0x8 0x0, page PagePlace 0x4800 0x4 0x0, whole 0 0 0",
    ),
    (
        &[Flip(0x4c80)],
        "block BlockTrailer 0x4c80 0xc 0x0, 0x12d BlockMissing 0x0 0xc 0x12d, whole 3 2 0",
    ),
];

#[test]
fn the_second_store(rt: HostRuntime) -> Result<(), Fail> {
    let plan = m1_plan(rt.alloc())?;
    for (case, (changes, line)) in SECOND.iter().enumerate() {
        let image = changed(rt.alloc(), &plan, changes)?;
        is_told(&rt, rt.alloc(), case, &image, line)?;
    }
    let third = changed(rt.alloc(), &m2_plan(rt.alloc())?, &[])?;
    is_told(&rt, rt.alloc(), 3, &third, "whole 3 1 0")
}
