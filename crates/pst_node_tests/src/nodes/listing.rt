//! The nodes that a file lists, by its header and both trees alone.

use super::*;
use crate::told::is;
use pst_make::Change::{Flip, Header, Set};
use pst_ndb::read_nodes;

// The identifiers of the nodes that a file lists: of each its own, its parent's, its data's and its subnodes'.
fn listed<R: Abort>(rt: &R, alloc: Global, image: &[u8]) -> Vec<Identifiers> {
    let tree = read_nodes(alloc, Image::new(image)).expect(rt, "refused");
    let mut all = Vec::new(alloc);
    for node in tree.nodes() {
        all.push((node.nid, node.parent, node.bid_data, node.bid_sub))
            .expect(rt, MEMORY);
    }
    all
}

// A block is damaged, which is not looked at.
#[test]
fn nodes_are_listed(rt: HostRuntime) {
    let bytes = changed(&rt, rt.alloc(), &[Flip(0x4c00)]);
    let nodes = listed(&rt, rt.alloc(), &bytes);
    is(
        &rt,
        nodes.as_slice(),
        &[(0x21, 0, 4, 0), (0x122, 0x122, 8, 0)],
    );
}

// The header comes first, then the block B-tree, then the node B-tree.
const FIRST_FAULTS: [Row<'static>; 3] = [
    (
        &[Set(0, &[0]), Flip(0x4a00)],
        "no: 2 Magic at 0x0 bid 0x0 nid 0x0",
    ),
    (
        &[Flip(0x4800), Flip(0x4a00), Header],
        "no: 9 PageTrailer at 0x4a00 bid 0x8 nid 0x0",
    ),
    (
        &[Flip(0x4800), Header],
        "no: 9 PageTrailer at 0x4800 bid 0x4 nid 0x0",
    ),
];

// The fault of the list, in a line.
fn refusal<R: Abort>(rt: &R, alloc: Global, image: &[u8]) -> String {
    let Err(fault) = read_nodes(alloc, Image::new(image)) else {
        rt.panic("listed");
    };
    refusal_of(rt, alloc, fault)
}

fn is_refused<R: Abort>(rt: &R, alloc: Global, changes: &[Change], line: &str) {
    let told = refusal(rt, alloc, &changed(rt, alloc, changes));
    is(rt, told.as_str(), line);
}

#[test]
fn the_first_fault_is_told(rt: HostRuntime) {
    for (changes, line) in FIRST_FAULTS {
        is_refused(&rt, rt.alloc(), changes, line);
    }
}
