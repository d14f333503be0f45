//! What a property context asks of the list of its node's subnodes, and which lists meet it.

use super::{IN_SUBNODES, list};
use crate::made::{add_blocks, add_node, changed, image_of, plan_of};
use crate::opened::node_in;
use crate::told::{holds_at, is};
use pst_make::Change::Set;
use pst_pc::check_pc;
use std::alloc::Global;
use std::process::Abort;

// Nodes that have the same property context, a GUID and two binaries in subnodes, and lists of their own; and which of the lists
// meet what the first one's context asks: that of 0x41 lacks a subnode, in that of 0x61 the GUID has two bytes, and that of 0x81
// has more, in another order, and other bytes.
const NODES: [(u32, u64, bool); 4] = [
    (0x21, 22, true),
    (0x41, 26, false),
    (0x61, 30, false),
    (0x81, 34, true),
];

fn store<R: Abort>(rt: &R, alloc: Global) -> Vec<u8> {
    let properties = changed(rt, alloc, &IN_SUBNODES, &[Set(22, &[0x48, 0])]);
    let whole = list(rt, alloc, 0, 3, &[0x41, 12, 0, 0x61, 12, 0, 0x81, 8, 0]);
    let lacking = list(rt, alloc, 0, 2, &[0x41, 12, 0, 0x81, 8, 0]);
    let short = list(rt, alloc, 0, 3, &[0x41, 12, 0, 0x61, 12, 0, 0x81, 12, 0]);
    let more = list(
        rt,
        alloc,
        0,
        4,
        &[0x81, 8, 0, 0x61, 0, 0, 0x41, 8, 0, 0xa1, 8, 0],
    );
    let blocks: [(u64, &[u8]); 7] = [
        (4, &properties),
        (8, &[7; 16]),
        (12, b"61"),
        (22, &whole),
        (26, &lacking),
        (30, &short),
        (34, &more),
    ];
    let mut plan = plan_of(rt, alloc, &[]);
    add_blocks(rt, alloc, &mut plan, &blocks);
    for (nid, bid_sub, _) in NODES {
        add_node(rt, &mut plan, nid, 4, bid_sub);
    }
    image_of(rt, alloc, &plan)
}

pub(super) fn lists<R: Abort>(rt: &R, alloc: Global) {
    let image = store(rt, alloc);
    let Ok(pc) = check_pc(node_in(rt, alloc, &image, 0x21)) else {
        rt.panic("no properties");
    };
    let Ok(asks) = pc.asks(alloc) else {
        rt.panic("no memory");
    };
    is(rt, asks.len(), 3);
    is(rt, asks.matrix(), None);
    for (nid, _, are_met) in NODES {
        holds_at(
            rt,
            nid,
            asks.are_met(node_in(rt, alloc, &image, nid)) == are_met,
        );
    }
}
