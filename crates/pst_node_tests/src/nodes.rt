//! Whole files: small stores with bytes changed, and what their check answers.

mod fronts;
mod listing;
mod maps;
mod order;
mod rows;
mod sharing;
mod trees;
mod views;

use crate::told::is;
use pst_bytes::Image;
use pst_fault::Fault;
use pst_make::{BlockPlan, Change, NodePlan, Plan, build, change_all, m0};
use pst_ndb::{Checked, Node, check_ndb, counts_agree};
use std::alloc::Global;
use std::process::Abort;

// What a test ends with where memory was refused. What goes wrong in a helper ends the test, so that no caller has a way out to prove.
const MEMORY: &str = "no memory";

// Changes, and the line that is answered for them.
type Row<'a> = (&'a [Change<'a>], &'a str);

const GOOD: &str = "yes: 2 pages 2 blocks 2 nodes High 0 lost 0 old";

// What the check answers of a file, in a line.
fn answer<R: Abort>(rt: &R, alloc: Global, image: &[u8]) -> String {
    match check_ndb(alloc, Image::new(image)) {
        Ok(checked) => line_of(rt, alloc, &checked),
        Err(fault) => refusal_of(rt, alloc, fault),
    }
}

fn refusal_of<R: Abort>(rt: &R, alloc: Global, fault: Fault) -> String {
    format!(in alloc; "{fault}").expect(rt, MEMORY)
}

// How many nodes a file has.
fn count_of(checked: &Checked) -> u32 {
    let mut nodes = 0_u32;
    for _ in checked.ndb.nodes() {
        nodes = nodes.saturating_add(1);
    }
    nodes
}

fn line_of<R: Abort>(rt: &R, alloc: Global, checked: &Checked) -> String {
    let nodes = count_of(checked);
    let pages = checked.work.pages;
    let blocks = checked.work.sums;
    let order = checked.map.order;
    let lost = checked.map.lost.len();
    let old = checked.map.old_maps;
    let line = format!(in alloc;
        "yes: {pages} pages {blocks} blocks {nodes} nodes {order:?} {lost} lost {old} old"
    );
    line.expect(rt, MEMORY)
}

// Whether a file is answered with a line.
fn is_answered<R: Abort>(rt: &R, alloc: Global, image: &[u8], line: &str) {
    let told = answer(rt, alloc, image);
    is(rt, told.as_str(), line);
}

// The small store.
fn small<R: Abort>(rt: &R, alloc: Global) -> Vec<u8> {
    m0(alloc).expect(rt, MEMORY)
}

// Changes an image.
fn change<R: Abort>(rt: &R, image: &mut Vec<u8>, changes: &[Change]) {
    change_all(image, changes).expect(rt, "past the end");
}

// The small store with changes.
fn changed<R: Abort>(rt: &R, alloc: Global, changes: &[Change]) -> Vec<u8> {
    let mut image = small(rt, alloc);
    change(rt, &mut image, changes);
    image
}

// Whether the small store with changes is answered with a line.
fn is_answered_with<R: Abort>(rt: &R, alloc: Global, changes: &[Change], line: &str) {
    is_answered(rt, alloc, &changed(rt, alloc, changes), line);
}

// Whether each row is answered with its line, done to the small store.
fn are_answered<R: Abort>(rt: &R, alloc: Global, rows: &[Row]) {
    for (changes, line) in rows {
        is_answered_with(rt, alloc, changes, line);
    }
}

// A file that is good; a test's proof needs to know no more of it.
fn good<'a, R: Abort>(rt: &R, alloc: Global, image: &'a [u8]) -> Checked<'a> {
    check_ndb(alloc, Image::new(image)).expect(rt, "refused")
}

fn node_in<'a, R: Abort>(rt: &R, checked: &Checked<'a>, nid: u32) -> Node<'a> {
    checked.ndb.node(nid).expect(rt, "no node")
}

// The fault that the check answers.
fn fault_in(alloc: Global, image: &[u8]) -> Option<Fault> {
    check_ndb(alloc, Image::new(image)).err()
}

// The identifiers of a node: its own, the top one's, its data's and its subnodes'.
type Identifiers = (u32, u32, u64, u64);

fn identifiers(node: &Node) -> Identifiers {
    (node.nid(), node.top(), node.bid_data(), node.bid_sub())
}

// Blocks by their identifiers: the first bytes of each, and the numbers of 8 bytes behind them.
type Blocks<'a> = &'a [(u64, &'a [u8], &'a [u64])];

// Nodes by their identifiers: the data of each, and its subnodes.
type Listed<'a> = &'a [(u32, u64, u64)];

// The body of a block.
fn naming<R: Abort>(rt: &R, alloc: Global, front: &[u8], numbers: &[u64]) -> Vec<u8> {
    let mut body = Vec::from_slice(alloc, front).expect(rt, MEMORY);
    for number in numbers {
        body.extend_from_slice(&number.to_le_bytes())
            .expect(rt, MEMORY);
    }
    body
}

fn add_block<R: Abort>(rt: &R, plan: &mut Plan, bid: u64, body: Vec<u8>) {
    plan.blocks.push(BlockPlan { bid, body }).expect(rt, MEMORY);
}

fn add_node<R: Abort>(rt: &R, plan: &mut Plan, nid: u32, bid_data: u64, bid_sub: u64) {
    let node = NodePlan {
        nid,
        bid_data,
        bid_sub,
        parent: 0,
    };
    plan.nodes.push(node).expect(rt, MEMORY);
}

fn image_of<R: Abort>(rt: &R, alloc: Global, plan: &Plan) -> Vec<u8> {
    build(alloc, plan).expect(rt, "not made")
}

// A store of blocks and nodes.
fn store<R: Abort>(rt: &R, alloc: Global, blocks: Blocks, nodes: Listed) -> Vec<u8> {
    let mut plan = no_plan(alloc);
    for (bid, front, numbers) in blocks {
        add_block(rt, &mut plan, *bid, naming(rt, alloc, front, numbers));
    }
    for (nid, bid_data, bid_sub) in nodes {
        add_node(rt, &mut plan, *nid, *bid_data, *bid_sub);
    }
    image_of(rt, alloc, &plan)
}

// A plan of nothing.
fn no_plan(alloc: Global) -> Plan {
    Plan {
        blocks: Vec::new(alloc),
        nodes: Vec::new(alloc),
    }
}
