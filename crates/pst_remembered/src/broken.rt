//! What is broken, as parts that any node may lead to.

ghost use Rattle.std.specs.Prelude.{◌≡◌, true, IfErr};
ghost use Rattle.pst_ndb.specs.Views.{roots_of};
ghost use Rattle.pst_remembered.specs.Broken.{roots_at, list_part, is_of_data as of_data, is_of_a_context as of_a_context, retold, IsAlike};

use crate::faults::Part;
use pst_fault::{Fault, Kind};
use pst_ndb::Node;

/// A node as a part, with a number.
pub fn part_of(number: u64, node: Node) -> Part
    ensures roots { roots_at result (roots_of node.entry).top ≡ roots_of node.entry }
    ensures number { result.1 ≡ number }
{
    ((node.bid_data(), node.bid_sub()), number)
}

/// The data of a node as a part, whatever the node's list of subnodes, with a number.
pub fn part_of_data(number: u64, node: Node) -> Part
    ensures data { result.0.0 ≡ (roots_of node.entry).bid_data }
    ensures number { result.1 ≡ number }
{
    ((node.bid_data(), 0), number)
}

/// Whether a fault of a context is that of each one with its data: of a heap, or of a BTH.
pub fn is_of_data(fault: Fault) -> bool
    ensures { result ≡ of_data fault.kind }
{
    match fault.kind {
        Kind::Heap | Kind::Bth => true,
        _ => false,
    }
}

/// Whether a check of a context has told such a fault.
pub fn has_broken_data(answer: &Result<(), Fault>) -> bool
    ensures { result ≡ true → IfErr answer.now (λ f. of_data f.kind ≡ true) }
{
    match answer {
        Ok(()) => false,
        Err(fault) => is_of_data(*fault),
    }
}

/// The list of subnodes of a node as a part, whatever the node's data.
pub fn part_of_list(node: Node) -> Part
    ensures { result ≡ list_part (roots_of node.entry) }
{
    ((0, node.bid_sub()), 0)
}

// Whether a fault is that of a context: what names none, or another node than it should, is told of what it names.
fn is_of_a_context(fault: Fault) -> bool
    ensures { result ≡ of_a_context fault.kind }
{
    match fault.kind {
        Kind::Subnode | Kind::Heap | Kind::HeapId | Kind::Bth | Kind::Property | Kind::Table =>
            true,
        _ => false,
    }
}

/// Whether a fault of what a message holds, which was told of this node, is the same in each message that has its list of subnodes:
/// that of a context is, told of its own node, and so is one that names another node, which is what is missing there.
pub fn is_alike(fault: Fault, nid: u32) -> bool
    ensures { result ≡ true → IsAlike nid fault }
{
    is_of_a_context(fault) || fault.place.nid != nid
}

/// A fault of what a message holds, told of another node that has its list of subnodes.
pub fn retold(fault: Fault, nid: u32) -> Fault
    ensures { result ≡ retold nid fault }
{
    if is_of_a_context(fault) {
        return fault.at_node(nid);
    }
    fault
}
