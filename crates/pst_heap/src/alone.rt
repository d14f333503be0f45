//! The check of a heap whose data is one span, as that of most contexts is: where that is a data block, it is looked up once.

ghost use Rattle.std.specs.Prelude.{◌≡◌, [], ◌∷◌, IfOk, IfSome, option_map};
ghost use Rattle.pst_bytes.specs.Image.{IsInside};
ghost use Rattle.pst_fault.specs.First.{answer, Checks};
ghost use Rattle.pst_datatree.specs.Spans.{first_span};
ghost use Rattle.pst_heap.specs.Values.{data_of_node};
ghost use Rattle.pst_heap.specs.Fault.{heap_fault, told_of as told};
ghost use Rattle.pst_heap.specs.View.{node_of};

use crate::check::{bad_span, check_map, has_front};
use crate::heap::Heap;
use crate::told::told_of;
use pst_bytes::Span;
use pst_datatree::is_internal;
use pst_fault::Fault;
use pst_ndb::Node;

// The span of a node's data below an XBLOCK, where there is one and no other. Few heaps have an XBLOCK, so this stands apart.
#[inline(never)]
fn only_below(node: &Node) -> Option<Span>
    ensures only { IfSome result (λ s. (data_of_node node.now).spans ≡ s ∷ []) }
    ensures inside { IfSome result (IsInside (data_of_node node.now).image) }
{
    let mut rest = node.spans();
    let first = rest.next_span()?;
    if rest.next_span().is_some() {
        return None;
    }
    Some(first)
}

// The span of a node's data, where there is one and no other: of most heaps that is a data block.
#[tactic(auto, using(crate::proofs::AloneLemmas::block_alone))]
pub(crate) fn only_span(node: &Node) -> Option<Span>
    ensures only { IfSome result (λ s. (data_of_node node.now).spans ≡ s ∷ []) }
    ensures inside { IfSome result (IsInside (data_of_node node.now).image) }
{
    if is_internal(node.bid_data()) {
        return only_below(node);
    }
    node.leaf(0)
}

// All of a heap of one span, with no context told; that span.
pub(crate) fn check_alone(node: &Node, only: Span) -> Result<Span, Fault>
    requires only { (data_of_node node.now).spans ≡ only ∷ [] }
    requires inside { IsInside (data_of_node node.now).image only }
    ensures exact { let h = data_of_node node.now in
        result ≡ answer (heap_fault h) (first_span h.spans) }
    ensures inside { IfOk result (IsInside (data_of_node node.now).image) }
{
    if !has_front(node.image(), only) {
        return Err(bad_span(only));
    }
    check_map(node.image(), only)?;
    Ok(only)
}

// The heap of a node whose data is one span.
pub(crate) fn heap_alone<'a>(node: Node<'a>, only: Span) -> Result<Heap<'a>, Fault>
    requires only { (data_of_node node).spans ≡ only ∷ [] }
    requires inside { IsInside (data_of_node node).image only }
    ensures exact { let first = heap_fault (data_of_node node.entry) in
        Checks result (option_map (told node.entry) first) }
    ensures node { IfOk result (λ h. node_of h ≡ node.entry) }
{
    match check_alone(&node, only) {
        Ok(first) => Ok(Heap::with_first(node, first)),
        Err(fault) => Err(told_of(&node, fault)),
    }
}
