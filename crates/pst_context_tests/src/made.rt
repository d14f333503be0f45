//! Stores that the tests are run on.

use pst_make::{BlockPlan, Change, NodePlan, Plan, build, change_all, m0_plan, m1_plan};
use std::alloc::Global;
use std::process::Abort;

/// What a test ends with where memory was refused.
pub(crate) const MEMORY: &str = "no memory";

/// The image of a plan.
pub(crate) fn image_of<R: Abort>(rt: &R, alloc: Global, plan: &Plan) -> Vec<u8> {
    build(alloc, plan).expect(rt, "not made")
}

/// Bytes, changed.
pub(crate) fn changed<R: Abort>(
    rt: &R,
    alloc: Global,
    bytes: &[u8],
    changes: &[Change],
) -> Vec<u8> {
    let mut body = Vec::from_slice(alloc, bytes).expect(rt, MEMORY);
    change_all(&mut body, changes).expect(rt, MEMORY);
    body
}

// Changes one of a plan's blocks.
fn change_block<R: Abort>(rt: &R, plan: &mut Plan, block: usize, changes: &[Change]) {
    let Some(found) = plan.blocks.get_mut(block) else {
        rt.panic("no block");
    };
    change_all(&mut found.body, changes).expect(rt, MEMORY);
}

/// The small store with bytes of one of its blocks changed.
pub(crate) fn m0_with<R: Abort>(
    rt: &R,
    alloc: Global,
    block: usize,
    changes: &[Change],
) -> Vec<u8> {
    let mut plan = m0_plan(alloc).expect(rt, MEMORY);
    change_block(rt, &mut plan, block, changes);
    image_of(rt, alloc, &plan)
}

/// The same of the store with a hierarchy table.
pub(crate) fn m1_with<R: Abort>(
    rt: &R,
    alloc: Global,
    block: usize,
    changes: &[Change],
) -> Vec<u8> {
    let mut plan = m1_plan(alloc).expect(rt, MEMORY);
    change_block(rt, &mut plan, block, changes);
    image_of(rt, alloc, &plan)
}

/// Adds a block to a plan, with its identifier.
pub(crate) fn add_block<R: Abort>(rt: &R, plan: &mut Plan, bid: u64, body: Vec<u8>) {
    plan.blocks.push(BlockPlan { bid, body }).expect(rt, MEMORY);
}

/// Adds a node to a plan, with the block identifiers of its data and of its subnodes.
pub(crate) fn add_node<R: Abort>(rt: &R, plan: &mut Plan, nid: u32, bid_data: u64, bid_sub: u64) {
    plan.nodes
        .push(NodePlan {
            nid,
            bid_data,
            bid_sub,
            parent: 0,
        })
        .expect(rt, MEMORY);
}

/// Adds blocks to a plan, each with its identifier.
pub(crate) fn add_blocks<R: Abort>(
    rt: &R,
    alloc: Global,
    plan: &mut Plan,
    blocks: &[(u64, &[u8])],
) {
    for (bid, bytes) in blocks {
        let body = Vec::from_slice(alloc, bytes).expect(rt, MEMORY);
        add_block(rt, plan, *bid, body);
    }
}

/// A plan of these blocks, and of no node.
pub(crate) fn plan_of<R: Abort>(rt: &R, alloc: Global, blocks: &[(u64, &[u8])]) -> Plan {
    let mut plan = Plan {
        blocks: Vec::new(alloc),
        nodes: Vec::new(alloc),
    };
    add_blocks(rt, alloc, &mut plan, blocks);
    plan
}

/// A store of these blocks, and of one node, 0x21, with these identifiers of its data and of its subnodes.
pub(crate) fn store_of<R: Abort>(
    rt: &R,
    alloc: Global,
    blocks: &[(u64, &[u8])],
    bid_data: u64,
    bid_sub: u64,
) -> Vec<u8> {
    let mut plan = plan_of(rt, alloc, blocks);
    add_node(rt, &mut plan, 0x21, bid_data, bid_sub);
    image_of(rt, alloc, &plan)
}

/// Writes a number of so many bytes, the low byte first.
pub(crate) fn put<R: Abort>(rt: &R, bytes: &mut Vec<u8>, number: u64, count: usize) {
    for byte in number.to_le_bytes().iter().take(count) {
        bytes.push(*byte).expect(rt, MEMORY);
    }
}
