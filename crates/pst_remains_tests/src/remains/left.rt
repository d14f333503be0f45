//! What is left of a damaged file, by its look-ups.

use super::*;
use crate::told::is;
use pst_make::Change::Flip;

// The body of a block that is left, by its identifier, with bit 0 of it or without.
fn body_in<'a>(remains: &'a Remains, bid: u64) -> Option<&'a [u8]> {
    remains.good_blocks().body(bid)
}

// The identifiers of the blocks of a node that is left: its data and its subnodes.
fn node_in(remains: &Remains, nid: u32) -> Option<(u64, u64)> {
    let node = remains.node_list().find(nid)?;
    Some((node.bid_data, node.bid_sub))
}

// A byte of the body of the second block is changed: the first one is left, and both nodes are.
#[test]
fn what_is_left_is_looked_up(rt: HostRuntime) {
    let image = changed(&rt, rt.alloc(), &[Flip(0x4c40)]);
    let remains = remains_of(&rt, rt.alloc(), &image);
    for bid in [4, 5] {
        is(&rt, body_in(&remains, bid), image.get(0x4c00..0x4c2c));
    }
    for bid in [0, 8, 12] {
        is(&rt, body_in(&remains, bid), None);
    }
    is(&rt, node_in(&remains, 0x21), Some((4, 0)));
    is(&rt, node_in(&remains, 0x122), Some((8, 0)));
    is(&rt, node_in(&remains, 0x61), None);
    is(&rt, remains.node_list().entries().len(), 2);
}
