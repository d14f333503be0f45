//! Look-ups by an index of a list.

ghost use Rattle.pst_block.specs.Blocks.{table_of};
ghost use Rattle.pst_subnode.specs.Index.{IsIndexOf};
ghost use Rattle.pst_subnode.specs.List.{subs_of};

use super::*;
use crate::told::{holds, is};

// An SIBLOCK of two SLBLOCKs, whose identifiers fall in and across them.
const LISTS_THAT_FALL: [(u64, Body); 5] = [
    (4, Bytes(b"data")),
    (6, List(1, 2, &[0x8025, 10, 0x671, 14])),
    (10, List(0, 2, &[0x8045, 4, 0, 0x8025, 5, 18])),
    (14, List(0, 2, &[0x692, 0, 0, 0x671, 0, 19])),
    (18, List(0, 0, &[])),
];

#[test]
fn a_list_that_falls_by_its_index(rt: HostRuntime) {
    let alloc = rt.alloc();
    let bytes = store(&rt, alloc, &LISTS_THAT_FALL);
    let tree = Tree::read(&rt, alloc, Image::new(&bytes), 7);
    are_found(&rt, &tree.indexed(&rt, alloc));
    are_found(&rt, &tree.without_index());
    is(&rt, tree.indexed(&rt, alloc).held(), 4);
    is(&rt, tree.without_index().held(), 0);
    holds(&rt, tree.may_be_long());
}

fn are_found<R: Abort>(rt: &R, list: &Indexed)
    requires { IsIndexOf list.now.index (subs_of (table_of list.now.blocks) list.now.bid) }
{
    for (nid, bid_data, bid_sub) in [
        (0x8045, 4, 0),
        (0x8025, 5, 18),
        (0x692, 0, 0),
        (0x671, 0, 19),
    ] {
        is(rt, list.find(nid), sub_of(nid, bid_data, bid_sub));
    }
    for nid in [0, 0x670, 0x693, 0x8046, 0xffff_ffff] {
        is(rt, list.find(nid), None);
    }
}
