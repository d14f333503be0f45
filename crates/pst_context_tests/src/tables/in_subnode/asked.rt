//! What a table context asks of the list of its node's subnodes, and which lists meet it.

use super::{TABLE, slblock};
use crate::made::{add_blocks, add_node, changed, image_of, plan_of};
use crate::opened::node_in;
use crate::told::{holds_at, is};
use pst_make::Change::Set;
use pst_tc::check_tc;
use std::alloc::Global;
use std::process::Abort;

// Nodes that have the same table of three rows, whose matrix is subnode 0x41, and lists of their own; and which of the lists meet
// what the first one's table asks: that of 0x41 has another block as the matrix, with the same bytes, that of 0x61 has none, and that
// of 0x81 names the same block with bit 0 set.
const NODES: [(u32, u64, bool); 4] = [
    (0x21, 22, true),
    (0x41, 26, false),
    (0x61, 30, false),
    (0x81, 34, true),
];

fn store<R: Abort>(rt: &R, alloc: Global) -> Vec<u8> {
    let table = changed(rt, alloc, &TABLE, &[Set(20, &[5])]);
    let rows = [1, 0, 0, 0, 0, 2, 0, 0, 0, 0, 3, 0, 0, 0, 0];
    let (same, other) = (slblock(0x41, 8), slblock(0x41, 12));
    let (none, odd) = (slblock(0x61, 8), slblock(0x41, 9));
    let blocks: [(u64, &[u8]); 7] = [
        (4, &table),
        (8, &rows),
        (12, &rows),
        (22, &same),
        (26, &other),
        (30, &none),
        (34, &odd),
    ];
    let mut plan = plan_of(rt, alloc, &[]);
    add_blocks(rt, alloc, &mut plan, &blocks);
    for (nid, bid_sub, _) in NODES {
        add_node(rt, &mut plan, nid, 4, bid_sub);
    }
    image_of(rt, alloc, &plan)
}

pub(super) fn lists<R: Abort>(rt: &R, alloc: Global) {
    let image = store(rt, alloc);
    let Ok(tc) = check_tc(node_in(rt, alloc, &image, 0x21)) else {
        rt.panic("no table");
    };
    let Ok(asks) = tc.asks(alloc) else {
        rt.panic("no memory");
    };
    is(rt, asks.len(), 0);
    is(rt, asks.matrix(), Some((0x41, 8)));
    for (nid, _, are_met) in NODES {
        holds_at(
            rt,
            nid,
            asks.are_met(node_in(rt, alloc, &image, nid)) == are_met,
        );
    }
}
