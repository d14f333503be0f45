//! Subnodes by an index of them.

ghost use Rattle.pst_ndb.specs.Views.{IsIndexedBy};

use super::*;
use crate::told::is;
use pst_ndb::SubIndex;

const SIBLOCK_OF_TWO: &[u8] = &[2, 1, 2, 0, 0, 0, 0, 0];

/// Two nodes with the same subnodes, identifiers falling: in two SLBLOCKs, and in one.
pub(super) const SAME_SUBNODES: Blocks<'static> = &[
    (4, &[1, 2, 3], &[]),
    (6, LIST_OF_ONE, &[0xa1, 4, 0]),
    (10, LIST_OF_ONE, &[0x81, 0, 6]),
    (14, LIST_OF_ONE, &[0x61, 4, 0]),
    (18, SIBLOCK_OF_TWO, &[0x81, 10, 0x61, 14]),
    (22, LIST_OF_TWO, &[0x81, 0, 6, 0x61, 4, 0]),
];

// A subnode's identifiers, by its node, which is lent an index: of its list's entry, and its own.
fn sub_of_indexed<'a>(node: Node<'a>, index: &'a SubIndex, nid: u32) -> Option<Identifiers>
    requires { IsIndexedBy node index.now }
{
    sub_of(&node.indexed(index), nid)
}

fn child_of_indexed<'a>(node: Node<'a>, index: &'a SubIndex, nid: u32) -> Option<Identifiers>
    requires { IsIndexedBy node index.now }
{
    let entry = node.indexed(index).sub_entry(nid)?;
    Some(identifiers(&node.child(entry)))
}

/// Stops the test where a node has not these subnodes, by its index.
pub(super) fn has_subnodes<R: Abort>(rt: &R, node: Node, index: &SubIndex)
    requires { IsIndexedBy node index.now }
{
    let top = node.nid();
    for (nid, bid_data, bid_sub) in [(0x61, 4, 0), (0x81, 0, 6)] {
        let wanted = Some((nid, top, bid_data, bid_sub));
        is(rt, child_of_indexed(node, index, nid), wanted);
        is(rt, sub_of_indexed(node, index, nid), wanted);
    }
    for nid in [0, 0x62, 0xa1] {
        is(rt, child_of_indexed(node, index, nid), None);
        is(rt, sub_of_indexed(node, index, nid), None);
    }
}
