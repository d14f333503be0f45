//! A message with many subnodes in no order, which are found by an index that is kept.

ghost use Rattle.pst_ndb.specs.NodeIndexes.{AreNodeIndexes};
ghost use Rattle.pst_ndb.specs.Views.{table_of_node};

use super::bodies::PLAIN;
use super::{image_of, store_of};
use crate::makers::Body::{Bytes, List};
use crate::makers::{Entry, add_blocks, add_nodes};
use crate::told::{MEMORY, holds, is};
use pst_make::m1_plan;
use pst_ndb::{Node, NodeIndexes, SubIndexes, most_values};
use std::alloc::Global;
use std::process::Abort;

const FALLING: [Entry; 18] = [
    (0x63f, 16, 0),
    (0x61f, 16, 0),
    (0x5ff, 16, 0),
    (0x5df, 16, 0),
    (0x5bf, 16, 0),
    (0x59f, 16, 0),
    (0x57f, 16, 0),
    (0x55f, 16, 0),
    (0x53f, 16, 0),
    (0x51f, 16, 0),
    (0x4ff, 16, 0),
    (0x4df, 16, 0),
    (0x4bf, 16, 0),
    (0x49f, 16, 0),
    (0x47f, 16, 0),
    (0x45f, 16, 0),
    (0x43f, 16, 0),
    (0x41f, 16, 0),
];

// A store with a message that has these subnodes.
fn image<R: Abort>(rt: &R, alloc: Global) -> Vec<u8> {
    let blocks = [(16, Bytes(&PLAIN)), (34, List(&FALLING))];
    let mut plan = m1_plan(alloc).expect(rt, MEMORY);
    add_blocks(rt, alloc, &mut plan, &blocks);
    add_nodes(rt, &mut plan, &[(0x20_0024, 16, 34)]);
    image_of(rt, alloc, &plan)
}

fn data_of(node: Node, nid: u32) -> u64 {
    match node.sub(nid) {
        Some(sub) => sub.bid_data(),
        None => 0,
    }
}

// Whether the first, the last and one between are found, and no others.
fn are_found<R: Abort>(rt: &R, node: Node) {
    for nid in [0x63f, 0x4bf, 0x41f] {
        is(rt, data_of(node, nid), 16);
    }
    for nid in [0x65f, 0x4be, 0x3ff] {
        is(rt, data_of(node, nid), 0);
    }
}

// The list is asked once without an index, and then by one.
#[test]
fn subnodes_by_an_index_that_is_kept(rt: HostRuntime) {
    let image = image(&rt, rt.alloc());
    let store = store_of(&rt, rt.alloc(), &image);
    let node = store.message(0x20_0024).expect(&rt, "no message").node();
    let mut indexes = SubIndexes::new(rt.alloc(), 1);
    holds(&rt, indexes.turn(rt.alloc(), node, 1).is_ok());
    are_found(&rt, indexes.lend(node));
    holds(&rt, indexes.turn(rt.alloc(), node, 1).is_ok());
    are_found(&rt, indexes.lend(node));
    holds(&rt, indexes.turn(rt.alloc(), node, 1).is_ok());
    are_found(&rt, indexes.lend(node));
}

fn data_by(indexes: &NodeIndexes, node: Node, nid: u32) -> u64
    requires { AreNodeIndexes (table_of_node node) indexes.now }
{
    match indexes.subnode(node, nid) {
        Some(sub) => sub.bid_data(),
        None => 0,
    }
}

// The same by the indexes of nodes: of the node that is lent both, that of its list alone, or none.
fn are_found_by<R: Abort>(rt: &R, indexes: &NodeIndexes, node: Node)
    requires { AreNodeIndexes (table_of_node node) indexes.now }
{
    are_found(rt, indexes.lend(node));
    are_found(rt, indexes.lend_list(node));
    is(rt, data_by(indexes, node, 0x4bf), 16);
    is(rt, data_by(indexes, node, 0x4be), 0);
}

// Its list is asked once without an index, then by one, which is made at once where that is asked for.
#[test]
fn subnodes_by_the_indexes_of_nodes(rt: HostRuntime) {
    let image = image(&rt, rt.alloc());
    let store = store_of(&rt, rt.alloc(), &image);
    let node = store.message(0x20_0024).expect(&rt, "no message").node();
    is(&rt, most_values(node), PLAIN.len() as u64 / 8);
    let mut indexes = NodeIndexes::new(rt.alloc(), 1);
    holds(&rt, indexes.turn(rt.alloc(), node, 1).is_ok());
    are_found_by(&rt, &indexes, node);
    holds(&rt, indexes.turn_to_list(rt.alloc(), node, 1).is_ok());
    are_found_by(&rt, &indexes, node);
    let mut indexes = NodeIndexes::new(rt.alloc(), 1);
    holds(&rt, indexes.turn_at_once(rt.alloc(), node).is_ok());
    are_found_by(&rt, &indexes, node);
    let indexes = NodeIndexes::of(rt.alloc(), node).expect(&rt, MEMORY);
    are_found_by(&rt, &indexes, node);
}
