//! The check of a heap.

ghost use Rattle.std.specs.Prelude.{◌≡◌, IfOk, OnOk, IsOk, None, option_map, slice_get};
ghost use Rattle.pst_bytes.specs.Image.{bytes_of, IsInside};
ghost use Rattle.pst_fault.specs.First.{answer, Checks};
ghost use Rattle.pst_fault.specs.Each.{first_of};
ghost use Rattle.pst_datatree.specs.Spans.{first_span};
ghost use Rattle.pst_datatree.specs.Left.{spans_left, file_of};
ghost use Rattle.pst_heap.specs.PageMap.{has_front as front};
ghost use Rattle.pst_heap.specs.Values.{data_of_node};
ghost use Rattle.pst_heap.specs.Grammar.{IsHeap};
ghost use Rattle.pst_heap.specs.Fault.{bad_span as bad, extra_fault, front_fault, page_map_fault, heap_fault, client_fault, told_of as told};
ghost use Rattle.pst_heap.specs.View.{node_of, data_of};

use crate::alone::{check_alone, only_span};
use crate::heap::Heap;
use crate::page_map::has_page_map;
use crate::told::told_of;
use pst_bytes::{Image, Span};
use pst_datatree::Pieces;
use pst_fault::{Fault, Kind};
use pst_ndb::Node;

/// How many spans a heap may have: as many as an identifier can tell apart.
pub const SPANS: u64 = 65_536;

// The fault of a span.
pub(crate) fn bad_span(span: Span) -> Fault
    ensures { result ≡ bad span }
{
    Fault::at(Kind::Heap, span.at)
}

// Whether a span begins with the header of a heap.
#[tactic(auto, unfolding(crate::specs::PageMap::has_front))]
pub(crate) fn has_front(image: Image, span: Span) -> bool
    requires { IsInside (bytes_of image) span }
    ensures { result ≡ front (bytes_of image.entry) span }
{
    span.len >= 12 && image.number8(span.at + 2) == 0xEC
}

// How many spans there are at most.
pub(crate) fn check_few(node: &Node) -> Result<(), Fault>
    ensures exact { let h = data_of_node node.now in
        result ≡ answer (extra_fault (slice_get h.spans SPANS)) tt }
{
    match node.leaf(SPANS) {
        Some(extra) => Err(bad_span(extra)),
        None => Ok(()),
    }
}

// The first span, by its header.
#[tactic(auto, using(crate::proofs::HeapLemmas::front_none, crate::proofs::HeapLemmas::front_good, crate::proofs::HeapLemmas::front_bad, crate::proofs::HeapLemmas::first_got))]
pub(crate) fn check_front(node: &Node) -> Result<Span, Fault>
    ensures exact { let h = data_of_node node.now in
        result ≡ answer (front_fault h.image h.spans) (first_span h.spans) }
    ensures inside { IfOk result (IsInside (data_of_node node.now).image) }
{
    let Some(first) = node.leaf(0) else {
        return Err(Fault::at(Kind::Heap, 0));
    };
    if !has_front(node.image(), first) {
        return Err(bad_span(first));
    }
    Ok(first)
}

// The page map of a span.
#[tactic(auto, unfolding(crate::specs::Fault::page_map_fault))]
pub(crate) fn check_map(image: Image, span: Span) -> Result<(), Fault>
    requires { IsInside (bytes_of image) span }
    ensures exact { result ≡ answer (page_map_fault (bytes_of image.entry) span) tt }
{
    if !has_page_map(image, span) {
        return Err(bad_span(span));
    }
    Ok(())
}

// The page map of each span that is left, in order.
#[tactic(auto, using(pst_fault::proofs::EachLemmas::each_next, pst_fault::proofs::EachLemmas::each_fails, pst_fault::proofs::EachLemmas::each_done))]
pub(crate) fn check_spans(image: Image, spans: Pieces) -> Result<(), Fault>
    requires { file_of spans ≡ image }
    ensures exact { let I = bytes_of image.entry in
        result ≡ answer (first_of (page_map_fault I) (spans_left spans.entry)) tt }
{
    let mut rest = spans;
    while let Some(span) = rest.next_span() {
        check_map(image, span)?;
    }
    Ok(())
}

// All of a heap, with no context told; its first span.
#[tactic(auto, unfolding(crate::specs::Fault::heap_fault))]
fn check_all(node: &Node) -> Result<Span, Fault>
    ensures exact { let h = data_of_node node.now in
        result ≡ answer (heap_fault h) (first_span h.spans) }
    ensures inside { IfOk result (IsInside (data_of_node node.now).image) }
{
    if let Some(only) = only_span(node) {
        return check_alone(node, only);
    }
    check_few(node)?;
    let first = check_front(node)?;
    check_spans(node.image(), node.spans())?;
    Ok(first)
}

/// The heap that the data of a node is, where it is known to have no fault.
pub fn known_heap(node: Node<'_>) -> Heap<'_>
    requires { heap_fault (data_of_node node) ≡ None }
    ensures { node_of result ≡ node.entry }
{
    Heap::known(node)
}

/// Checks that the data of a node is a heap ([MS-PST] 2.3.1). Heap, in this order, with the node's bidData and the node from
/// which it was reached:
///
/// - at 0 where there is no span, and at the 65,537th where there are more than 65,536;
/// - at the first span, where it has less than 12 bytes or bSig is not 0xEC;
/// - at a span, the first one too, where its page map does not lie in it, or the offsets there fall or pass its end.
///
/// It goes through the spans once, takes no memory, and looks at each offset of the page maps.
#[tactic(auto, using(crate::proofs::HeapLaws::none_heap, crate::proofs::HeapLaws::heap_none))]
pub fn check_heap(node: Node<'_>) -> Result<Heap<'_>, Fault>
    // A heap, or the first fault.
    ensures exact { let first = heap_fault (data_of_node node.entry) in
        Checks result (option_map (told node.entry) first) }
    ensures node { IfOk result (λ h. node_of h ≡ node.entry) }

    // What is found is a heap, and a heap is found.
    ensures found { OnOk result (IsHeap (data_of_node node.entry)) }
    ensures only { IsHeap (data_of_node node.entry) → IsOk result }
{
    match check_all(&node) {
        Ok(first) => Ok(Heap::with_first(node, first)),
        Err(fault) => Err(told_of(&node, fault)),
    }
}

/// Checks the client signature of a heap (bClientSig, [MS-PST] 2.3.1.2). Heap at the first span, with the node's bidData and the
/// node from which it was reached, where it is another one.
#[tactic(auto, unfolding(crate::specs::Fault::client_fault))]
pub fn check_client(heap: &Heap, client: u8) -> Result<(), Fault>
    ensures exact { let first = client_fault client (data_of heap.now) in
        Checks result (option_map (told (node_of heap.now)) first) }
{
    if heap.client() == client {
        return Ok(());
    }
    let first = heap.user_root_place() - 4;
    Err(told_of(&heap.node(), Fault::at(Kind::Heap, first)))
}
