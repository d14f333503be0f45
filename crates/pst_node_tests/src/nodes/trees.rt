//! The trees of nodes' blocks.

mod indexed;
mod spans;

use self::indexed::{SAME_SUBNODES, has_subnodes};
use self::spans::{BY_TURNS, has_spans};
use super::*;
use crate::told::{holds, is};
use pst_bytes::Span;
use pst_datatree::Value;

const XBLOCK_OF_ONE: &[u8] = &[1, 1, 1, 0, 1, 0, 0, 0];

const XBLOCK_OF_TWO: &[u8] = &[1, 1, 2, 0, 0xf1, 0x1f, 0, 0];

const LIST_OF_ONE: &[u8] = &[2, 0, 1, 0, 0, 0, 0, 0];

const LIST_OF_TWO: &[u8] = &[2, 0, 2, 0, 0, 0, 0, 0];

// A node of 8,177 bytes: an XBLOCK of two blocks, which says how many bytes they have in all.
fn two_blocks<R: Abort>(rt: &R, alloc: Global, front: &[u8], bids: &[u64]) -> Vec<u8> {
    let mut plan = no_plan(alloc);
    add_block(rt, &mut plan, 4, naming(rt, alloc, &[7; 8176], &[]));
    add_block(rt, &mut plan, 8, naming(rt, alloc, &[9], &[]));
    add_block(rt, &mut plan, 10, naming(rt, alloc, front, bids));
    add_block(rt, &mut plan, 12, Vec::new(alloc));
    add_node(rt, &mut plan, 0x21, 10, 0);
    image_of(rt, alloc, &plan)
}

// Stops the test where the spans of a node are not these, by number and in any order.
fn has_leaves<R: Abort>(rt: &R, node: &Node, wanted: &[(u64, Option<Span>)]) {
    let mut leaves = node.leaves();
    for (n, span) in wanted {
        is(rt, node.leaf(*n), *span);
        is(rt, leaves.leaf(*n), *span);
    }
}

const FIRST: Option<Span> = Some(Span {
    at: 0x4c00,
    len: 8176,
});

const SECOND: Option<Span> = Some(Span { at: 0x6c00, len: 1 });

// A node of 33 XBLOCKs, more than are passed without an index.
#[test]
fn spans_by_an_index(rt: HostRuntime) {
    let image = store(&rt, rt.alloc(), BY_TURNS, &[(0x21, 0x1e, 0)]);
    let checked = good(&rt, rt.alloc(), &image);
    has_spans(&rt, rt.alloc(), node_in(&rt, &checked, 0x21));
}

#[test]
fn a_node_of_two_blocks(rt: HostRuntime) {
    let image = two_blocks(&rt, rt.alloc(), XBLOCK_OF_TWO, &[4, 8]);
    let checked = good(&rt, rt.alloc(), &image);
    is(&rt, checked.work.expansions, 1);
    let node = node_in(&rt, &checked, 0x21);
    is(&rt, node.leaf_count(), 2);
    has_leaves(&rt, &node, &[(2, None), (1, SECOND), (0, FIRST)]);
    has_two_pieces(&rt, &node, &image);
}

fn has_two_pieces<'a, R: Abort>(rt: &R, node: &Node<'a>, image: &'a [u8]) {
    let Value::Pieces(pieces) = node.bytes() else {
        rt.panic("one slice");
    };
    let mut pieces = pieces;
    is(rt, pieces.next(), image.get(0x4c00..0x6bf0));
    is(rt, pieces.next(), image.get(0x6c00..0x6c01));
    is(rt, pieces.next(), None);
}

const WRONG_TOTAL: &[u8] = &[1, 1, 2, 0, 0xf0, 0x1f, 0, 0];

const NO_TREES: [(&[u8], &[u64], &str); 4] = [
    (
        XBLOCK_OF_TWO,
        &[4, 12],
        "no: 16 DataTree at 0x6c40 bid 0xa nid 0x21",
    ),
    (
        WRONG_TOTAL,
        &[4, 8],
        "no: 16 DataTree at 0x6c40 bid 0xa nid 0x21",
    ),
    (
        XBLOCK_OF_TWO,
        &[4, 0x10],
        "no: 15 BlockMissing at 0x0 bid 0x10 nid 0x21",
    ),
    (
        WRONG_TOTAL,
        &[4, 12],
        "yes: 2 pages 4 blocks 1 nodes High 0 lost 0 old",
    ),
];

#[test]
fn data_trees_that_are_none(rt: HostRuntime) {
    for (front, bids, line) in NO_TREES {
        let image = two_blocks(&rt, rt.alloc(), front, bids);
        is_answered(&rt, rt.alloc(), &image, line);
    }
}

// Where one of two blocks is empty, the bytes are one slice.
#[test]
fn an_empty_block_is_no_piece(rt: HostRuntime) {
    let image = two_blocks(&rt, rt.alloc(), WRONG_TOTAL, &[4, 12]);
    let node = node_in(&rt, &good(&rt, rt.alloc(), &image), 0x21);
    let Value::Whole(at, slice) = node.bytes() else {
        rt.panic("in pieces");
    };
    is(&rt, (at, node.leaf_count()), (0x4c00, 2));
    is(&rt, Some(slice), image.get(0x4c00..0x6bf0));
}

// An XXBLOCK that names one XBLOCK 1,021 times, which names one block of one byte.
const NAMED_OFTEN: Blocks<'static> = &[
    (4, &[5], &[]),
    (6, XBLOCK_OF_ONE, &[4]),
    (10, XXBLOCK_OF_ALL, &[6; 1021]),
];

const XXBLOCK_OF_ALL: &[u8] = &[1, 2, 0xfd, 3, 0xfd, 3, 0, 0];

const ONE: Option<Span> = Some(Span { at: 0x4c00, len: 1 });

#[test]
fn a_block_may_be_named_often(rt: HostRuntime) {
    let image = store(&rt, rt.alloc(), NAMED_OFTEN, &[(0x21, 10, 0)]);
    let node = node_in(&rt, &good(&rt, rt.alloc(), &image), 0x21);
    is(&rt, node.leaf_count(), 1021);
    has_parts(&rt, &node);
    is(&rt, len_of(&node), 1021);
    has_leaves(&rt, &node, &[(1020, ONE), (0, ONE), (1021, None)]);
}

fn has_parts<R: Abort>(rt: &R, node: &Node) {
    let parts = node.parts();
    holds(rt, parts.count() == 1021);
    is(rt, (parts.bid(0), parts.bid(1020)), (6, 6));
    is(rt, parts.spans(1020).next_span(), ONE);
}

fn len_of(node: &Node) -> u64 {
    node.bytes().len()
}

// A node with so many subnode lists, each below the one before.
fn nested<R: Abort>(rt: &R, alloc: Global, lists: u64) -> Vec<u8> {
    let mut plan = no_plan(alloc);
    for i in 0..lists.min(1000) {
        let below = if i + 1 < lists { 4 * i + 6 } else { 0 };
        let body = naming(rt, alloc, LIST_OF_ONE, &[0x41, 0, below]);
        add_block(rt, &mut plan, 4 * i + 2, body);
    }
    add_node(rt, &mut plan, 0x21, 0, 2);
    image_of(rt, alloc, &plan)
}

#[test]
fn lists_nest_256_deep(rt: HostRuntime) {
    let image = nested(&rt, rt.alloc(), 256);
    let line = "yes: 15 pages 256 blocks 1 nodes High 0 lost 0 old";
    is_answered(&rt, rt.alloc(), &image, line);
    let image = nested(&rt, rt.alloc(), 257);
    let line = "no: 18 Nesting at 0x0 bid 0x2 nid 0x21";
    is_answered(&rt, rt.alloc(), &image, line);
}

// A list of two entries, each with a nid, data and subnodes, as the subnodes of a node with a block of data.
fn listed<R: Abort>(
    rt: &R,
    alloc: Global,
    entries: &[u64],
    bid_data: u64,
    bid_sub: u64,
) -> Vec<u8> {
    let blocks: [(u64, &[u8], &[u64]); 2] = [(2, LIST_OF_TWO, entries), (4, &[1, 2, 3], &[])];
    store(
        rt,
        alloc,
        &blocks,
        &[(0x21, bid_data, bid_sub), (0x41, 0x14, 0)],
    )
}

const NESTING: &str = "no: 18 Nesting at 0x0 bid 0x2 nid 0x21";

const MISSING: &str = "no: 15 BlockMissing at 0x0 bid 0xc nid 0x21";

const FIRST_FAULTS: [(&[u64], u64, u64, &str); 7] = [
    // A list below itself; and with a missing block before that, and after.
    (&[0x61, 0, 2, 0x81, 0, 0], 4, 2, NESTING),
    (&[0x61, 0xc, 0, 0x81, 0, 2], 4, 2, MISSING),
    (&[0x61, 0, 2, 0x81, 0xc, 0], 4, 2, NESTING),
    // The node's own data comes first.
    (&[0x61, 0, 2, 0x81, 0, 0], 0xc, 2, MISSING),
    // No list; a subnode twice.
    (
        &[0x61, 0, 0, 0x81, 0, 0],
        4,
        5,
        "no: 17 Subnode at 0x4c80 bid 0x4 nid 0x21",
    ),
    (
        &[0x61, 0, 0, 0x61, 4, 0],
        4,
        2,
        "no: 17 Subnode at 0x4c00 bid 0x2 nid 0x21",
    ),
    // The next node, whose data is missing.
    (
        &[0x61, 0, 0, 0x81, 4, 0],
        4,
        2,
        "no: 15 BlockMissing at 0x0 bid 0x14 nid 0x41",
    ),
];

#[test]
fn the_first_fault_of_subnodes_is_told(rt: HostRuntime) {
    for (entries, bid_data, bid_sub, line) in FIRST_FAULTS {
        let image = listed(&rt, rt.alloc(), entries, bid_data, bid_sub);
        is_answered(&rt, rt.alloc(), &image, line);
    }
}

// A node with two subnodes, the second of which has one.
const TWO_SUBNODES: Blocks<'static> = &[
    (2, LIST_OF_TWO, &[0x61, 4, 0, 0x81, 0, 6]),
    (4, &[1, 2, 3], &[]),
    (6, LIST_OF_ONE, &[0xa1, 4, 0]),
];

// A subnode's identifiers, by its own.
fn sub_of(node: &Node, nid: u32) -> Option<Identifiers> {
    let sub = node.sub(nid)?;
    Some(identifiers(&sub))
}

#[test]
fn subnodes_are_found(rt: HostRuntime) {
    let image = store(&rt, rt.alloc(), TWO_SUBNODES, &[(0x21, 0, 2)]);
    let node = node_in(&rt, &good(&rt, rt.alloc(), &image), 0x21);
    is(&rt, sub_of(&node, 0xa1), None);
    has_two_subnodes(&rt, &node);
    let deep = below(&node).expect(&rt, "none");
    is(&rt, (deep.nid(), deep.top()), (0xa1, 0x21));
    is(&rt, third_of(&deep), Some(3));
    is(&rt, sub_of(&deep, 0xa1), None);
}

fn has_two_subnodes<R: Abort>(rt: &R, node: &Node) {
    let mut subs = node.subs();
    for (nid, bid_data, bid_sub) in [(0x61, 4, 0), (0x81, 0, 6)] {
        let sub = subs.next().expect(rt, "no subnode");
        is(
            rt,
            (sub.nid, sub.bid_data, sub.bid_sub),
            (nid, bid_data, bid_sub),
        );
        is(rt, sub_of(node, nid), Some((nid, 0x21, bid_data, bid_sub)));
    }
    holds(rt, subs.next().is_none());
}

// The subnode of the second subnode.
fn below<'a>(node: &Node<'a>) -> Option<Node<'a>> {
    let Some(sub) = node.sub(0x81) else {
        return None;
    };
    sub.sub(0xa1)
}

fn third_of(node: &Node) -> Option<u8> {
    node.bytes().byte(2)
}

#[test]
fn subnodes_by_an_index(rt: HostRuntime) {
    let image = store(
        &rt,
        rt.alloc(),
        SAME_SUBNODES,
        &[(0x21, 0, 18), (0x41, 0, 22)],
    );
    let checked = good(&rt, rt.alloc(), &image);
    for top in [0x21, 0x41] {
        let node = node_in(&rt, &checked, top);
        is(&rt, node.nid(), top);
        let Ok(index) = node.index(rt.alloc()) else {
            rt.panic("no memory");
        };
        has_subnodes(&rt, node, &index);
    }
}
