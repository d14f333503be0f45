//! What a value asks of the list of subnodes.

ghost use Rattle.std.specs.Prelude.{◌≡◌, ℕ, ◌≤◌, None, OnOk, IfErr};
ghost use Rattle.pst_bytes.specs.Image.{IsInside};
ghost use Rattle.pst_fault.specs.Fault.{no_memory};
ghost use Rattle.pst_ndb.specs.Views.{table_of_node, roots_of};
ghost use Rattle.pst_heap.specs.View.{node_of, data_of};
ghost use Rattle.pst_value.specs.Fault.{value_fault};
ghost use Rattle.pst_value.specs.Met.{AsksMore, HoldsWith};
ghost use Rattle.pst_value.specs.Values.{held_of};

use crate::asks::Asks;
use crate::check::held;
use crate::hnid::{Hnid, hnid_of};
use crate::prop_type::PropType;
use pst_bytes::Span;
use pst_fault::Fault;
use pst_heap::Heap;

/// Asks for the subnode in which the value of a type in a raw span lies, where it lies in one. The value has no fault; so it has none
/// by any other list of subnodes that meets what is asked then. NoMemory where memory is refused for that.
#[inline(always)]
#[tactic(auto, using(crate::proofs::AskLemmas::held_holds, crate::proofs::AskLemmas::nothing_holds, crate::proofs::AskLemmas::item_holds, crate::proofs::AskLemmas::subnode_holds))]
pub fn ask_value(heap: &Heap, kind: PropType, raw: Span, asks: &mut Asks) -> Result<(), Fault>
    requires inside { IsInside (data_of heap.now).image raw }
    requires hnid { held_of kind.0 raw.len ≡ None → 4 ≤ raw.len }
    requires sound { let node = node_of heap.now in
        value_fault (table_of_node node) (roots_of node) kind.0 0 raw ≡ None }
    ensures holds { let t = table_of_node (node_of heap.now) in (place : ℕ) →
        OnOk result (HoldsWith t (roots_of (node_of heap.now)) asks.new
        (λ s. value_fault t s kind.0 place raw)) }
    ensures more { AsksMore asks.old asks.new }
    ensures memory { IfErr result (λ f. f ≡ no_memory) }
{
    if held(kind, raw.len).is_some() {
        return Ok(());
    }
    match hnid_of(heap.image().number32(raw.at)) {
        Hnid::Nothing => Ok(()),
        Hnid::Item(_) => Ok(()),
        Hnid::Subnode(nid) => asks.put(nid, kind.0),
    }
}
