//! Of which context a fault is told.

ghost use Rattle.std.specs.Prelude.{◌≡◌};
ghost use Rattle.pst_heap.specs.Fault.{told_of as told};

use pst_fault::{Fault, Place};
use pst_ndb::Node;

/// The fault, told of a node's data: with the block identifier of the data, as it is written, and with the node of the node
/// B-tree from which the node was reached.
pub fn told_of(node: &Node, fault: Fault) -> Fault
    ensures { result ≡ told node.now fault }
{
    Fault {
        kind: fault.kind,
        place: Place {
            at: fault.place.at,
            bid: node.bid_data(),
            nid: node.top(),
        },
    }
}
