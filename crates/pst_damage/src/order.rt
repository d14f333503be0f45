//! Broken nodes in the order of their identifiers.

ghost use Rattle.std.specs.Prelude.{◌≡◌, OnOk, nat_lt, position};
ghost use Rattle.pst_damage.specs.declared.broken.BrokenNode.{BrokenNode as SpecNode};
ghost use Rattle.pst_damage.specs.Order.{put_in as with_node};

use crate::broken::BrokenNode;
use std::alloc::AllocError;

// Where the first node with a greater identifier stands.
fn first_above(nodes: &[BrokenNode], nid: u32) -> Option<usize>
    ensures { result ≡ position (λ (x : SpecNode). nat_lt nid x.nid) nodes.now }
{
    nodes.iter().position(|other| nid < other.nid)
}

/// Puts one more broken node at its place. AllocError where memory is refused.
#[tactic(auto, using(crate::proofs::OrderLemmas::put_before, crate::proofs::OrderLemmas::put_last))]
pub(crate) fn put_in(nodes: &mut Vec<BrokenNode>, node: BrokenNode) -> Result<(), AllocError>
    ensures { OnOk result (nodes.new.items ≡ with_node node nodes.old.items) }
{
    match first_above(nodes, node.nid) {
        Some(place) => nodes.insert(place, node)?,
        None => nodes.push(node)?,
    }
    Ok(())
}
