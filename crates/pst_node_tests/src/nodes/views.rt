//! What a node database shows.

use super::*;
use crate::told::{holds, is};
use pst_block::Blocks;
use pst_btree::{BlockList, NodeList};
use pst_bytes::Span;
use pst_datatree::Value;
use pst_header::{Header, read_header};
use pst_ndb::{NodeTable, Nodes};

#[test]
fn nodes_are_found(rt: HostRuntime) {
    let bytes = small(&rt, rt.alloc());
    let checked = good(&rt, rt.alloc(), &bytes);
    is(&rt, Some(checked.ndb.header()), header_in(&bytes));
    is(&rt, checked.ndb.image().len(), 271_360);
    holds(&rt, !has_node(&checked, 0x999));
    holds(&rt, !has_node(&checked, 0));
    is_folder(&rt, &node_in(&rt, &checked, 0x122));
}

fn is_folder<R: Abort>(rt: &R, node: &Node) {
    is(rt, identifiers(node), (0x122, 0x122, 8, 0));
    is(rt, node.image().len(), 271_360);
    is(rt, node.leaf_count(), 1);
    is(rt, node.leaf(0), FOLDER);
    is(rt, node.leaf(1), None);
}

fn has_node(checked: &Checked, nid: u32) -> bool {
    checked.ndb.node(nid).is_some()
}

const FOLDER: Option<Span> = Some(Span {
    at: 0x4c40,
    len: 38,
});

fn header_in(bytes: &[u8]) -> Option<Header> {
    read_header(Image::new(bytes)).ok()
}

#[test]
fn nodes_come_in_order(rt: HostRuntime) {
    let bytes = small(&rt, rt.alloc());
    let mut nodes = nodes_in(&good(&rt, rt.alloc(), &bytes));
    are_two(&rt, &mut nodes);
    is(&rt, next_in(&mut nodes), None);
}

// Stops the test where these are not the two nodes of the small store, and no more.
fn are_two<R: Abort>(rt: &R, nodes: &mut Nodes) {
    for (nid, bid_data) in [(0x21, 4), (0x122, 8)] {
        is(rt, next_in(nodes), Some((nid, nid, bid_data, 0)));
    }
    is(rt, next_in(nodes), None);
}

fn nodes_in<'a>(checked: &Checked<'a>) -> Nodes<'a> {
    checked.ndb.nodes()
}

// The identifiers of the next node.
fn next_in(nodes: &mut Nodes) -> Option<Identifiers> {
    let node = nodes.next()?;
    Some(identifiers(&node))
}

// The bytes of a node, which stay when its database is gone.
fn bytes_of<'a>(alloc: Global, image: Image<'a>, nid: u32) -> Option<Value<'a>> {
    let checked = check_ndb(alloc, image).ok()?;
    let node: Node<'a> = checked.ndb.node(nid)?;
    Some(node.bytes())
}

#[test]
fn bytes_outlive_the_database(rt: HostRuntime) {
    let bytes = small(&rt, rt.alloc());
    let value = bytes_of(rt.alloc(), Image::new(&bytes), 0x21).expect(&rt, "no bytes");
    is(&rt, (value.len(), value.at()), (44, 0x4c00));
    let Value::Whole(_, slice) = value else {
        rt.panic("in pieces");
    };
    is(&rt, Some(slice), bytes.get(0x4c00..0x4c2c));
}

// A node in a table.
fn listed_in(table: &NodeTable, nid: u32) -> Option<Identifiers> {
    let node = table.node(nid)?;
    Some(identifiers(&node))
}

// Of a whole file the same nodes are found, in the same order.
#[test]
fn a_database_is_a_table_of_nodes(rt: HostRuntime) {
    let bytes = small(&rt, rt.alloc());
    let table = table_in(&good(&rt, rt.alloc(), &bytes));
    is(&rt, listed_in(&table, 0x122), Some((0x122, 0x122, 8, 0)));
    is(&rt, listed_in(&table, 0x999), None);
    is(&rt, table.image().len(), 271_360);
    are_two(&rt, &mut table.nodes());
}

fn table_in<'a>(checked: &Checked<'a>) -> NodeTable<'a> {
    checked.ndb.table()
}

// Nodes of no entries, over no blocks.
#[tactic(auto, unfolding(pst_block::specs::Walk::blocks_fault, pst_fault::specs::Each::first_of))]
fn no_nodes<'a>(image: &'a [u8]) -> NodeTable<'a> {
    let blocks = Blocks::known(Image::new(image), 0, BlockList::of(&[]));
    NodeTable::known(blocks, NodeList::of(&[]))
}

#[test]
fn no_nodes_were_gathered(rt: HostRuntime) {
    let bytes = small(&rt, rt.alloc());
    let table = no_nodes(&bytes);
    is(&rt, listed_in(&table, 0x21), None);
    is(&rt, table.image().len(), 271_360);
    is(&rt, next_in(&mut table.nodes()), None);
}
