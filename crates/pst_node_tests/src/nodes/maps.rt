//! What the allocation maps may say.

use super::*;
use crate::told::is;
use pst_bytes::Span;
use pst_make::Change::{Flip, Grow, Header, Page, Set};

#[test]
fn page_maps_are_claimed_and_no_more(rt: HostRuntime) {
    are_answered(
        &rt,
        rt.alloc(),
        &[(&[Flip(0x47f0), Flip(0x47f4), Flip(0x4600)], GOOD)],
    );
}

const LOST_RUNS: [Row<'static>; 3] = [
    (
        &[Set(0x4404, &[0xe0]), Page(0x4400)],
        "yes: 2 pages 2 blocks 2 nodes High 1 lost 0 old",
    ),
    (
        &[Set(0x4404, &[0x03]), Page(0x4400)],
        "yes: 2 pages 2 blocks 2 nodes Low 0 lost 0 old",
    ),
    (
        &[Set(0x4404, &[0xc1]), Page(0x4400)],
        "yes: 2 pages 2 blocks 2 nodes High 1 lost 0 old",
    ),
];

#[test]
fn lost_runs_are_no_fault(rt: HostRuntime) {
    are_answered(&rt, rt.alloc(), &LOST_RUNS);
    let [(changes, _), _, _] = LOST_RUNS;
    let image = changed(&rt, rt.alloc(), changes);
    let checked = good(&rt, rt.alloc(), &image);
    let lost = Span { at: 19584, len: 64 };
    is(&rt, checked.map.lost.first().copied(), Some(lost));
    is(&rt, checked.work.contexts, 0);
}

const OLD_MAP: [Change<'static>; 7] = [
    Set(184, &[0x00, 0x04, 0x08]),
    Set(192, &[0x00, 0x24, 0x04]),
    Header,
    Set(271_856, &[0x84, 0x84, 0, 0, 0, 0, 0, 0, 0x00, 0x24, 0x04]),
    Page(271_360),
    Set(272_880, &[0x82, 0x82, 0, 0, 0, 0, 0, 0, 0x00, 0x28, 0x04]),
    Page(272_384),
];

// The small store, and a region more, with an old map page behind its allocation map, whose units are marked or not.
fn with_old_map<R: Abort>(rt: &R, alloc: Global, marks: u8) -> Vec<u8> {
    let added = [Grow(253_952), Set(271_360, &[0xff, 0x00, marks])];
    let mut image = changed(rt, alloc, &added);
    change(rt, &mut image, &OLD_MAP);
    image
}

#[test]
fn an_old_map_page_is_claimed(rt: HostRuntime) {
    for (marks, line) in [
        (0xff, "yes: 2 pages 2 blocks 2 nodes High 0 lost 1 old"),
        (0x00, "yes: 2 pages 2 blocks 2 nodes High 0 lost 0 old"),
        (0x7f, "yes: 2 pages 2 blocks 2 nodes High 1 lost 0 old"),
    ] {
        let image = with_old_map(&rt, rt.alloc(), marks);
        is_answered(&rt, rt.alloc(), &image, line);
    }
}
