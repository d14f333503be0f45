//! The check of a heap by one who remembers page maps.

ghost use Rattle.std.specs.Prelude.{◌≡◌, ◌<◌, IfOk, None, option_map};
ghost use Rattle.pst_bytes.specs.Image.{IsInside};
ghost use Rattle.pst_fault.specs.First.{answer, Tells, TellsFirst};
ghost use Rattle.pst_fault.specs.Each.{first_of};
ghost use Rattle.pst_datatree.specs.Parts.{part_count, part_in};
ghost use Rattle.pst_datatree.specs.PartsView.{table_of_parts, tree_of_parts, image_of_parts};
ghost use Rattle.pst_datatree.specs.Spans.{first_span};
ghost use Rattle.pst_ndb.specs.Views.{table_of_node, image_of_node, data_bid_of};
ghost use Rattle.pst_heap.specs.Values.{data_of_node};
ghost use Rattle.pst_heap.specs.Fault.{page_map_fault, heap_fault, told_of as told};
ghost use Rattle.pst_heap.specs.PageMaps.{page_maps_fault, start_fault, AreMapsTrue};
ghost use Rattle.pst_heap.specs.View.{node_of};

use crate::alone::{heap_alone, only_span};
use crate::check::{check_few, check_front, check_spans};
use crate::heap::Heap;
use crate::maps::PageMaps;
use crate::told::told_of;
use pst_bytes::Span;
use pst_datatree::Parts;
use pst_fault::Fault;
use pst_ndb::Node;

// The page maps of so few spans are looked at wherever they are met, and not remembered.
const FEW: u64 = 16;

// What is looked at before the page maps; the first span.
fn check_start(node: &Node) -> Result<Span, Fault>
    ensures exact { let h = data_of_node node.now in
        result ≡ answer (start_fault h) (first_span h.spans) }
    ensures inside { IfOk result (IsInside (data_of_node node.now).image) }
{
    check_few(node)?;
    check_front(node)
}

// The page maps of all spans of a node's data.
fn check_all_maps(node: &Node) -> Result<(), Fault>
    ensures { let t = table_of_node node.now in
        Tells result (option_map (told node.now) (page_maps_fault t (data_bid_of node.now))) tt }
{
    match check_spans(node.image(), node.spans()) {
        Ok(()) => Ok(()),
        Err(fault) => Err(told_of(node, fault)),
    }
}

// The page maps of a part of a node's data, unless they are known, or their fault is.
fn check_part(node: &Node, parts: Parts, i: u16, maps: &mut PageMaps) -> Result<(), Fault>
    requires below { i < part_count (table_of_parts parts) (tree_of_parts parts) }
    requires table { table_of_parts parts ≡ table_of_node node.now }
    requires image { image_of_parts parts ≡ image_of_node node.now }
    requires known { AreMapsTrue (table_of_node node.now) maps.old }
    ensures known { AreMapsTrue (table_of_node node.now) maps.new }
    ensures exact { let t = table_of_node node.now in
        let first = page_maps_fault t (part_in t (tree_of_parts parts.entry) i) in
        Tells result (option_map (told node.now) first) tt }
{
    let bid = parts.bid(i);
    if maps.knows(bid) {
        return Ok(());
    }
    if let Some(fault) = maps.fault(bid) {
        return Err(told_of(node, fault));
    }
    if let Err(fault) = check_spans(node.image(), parts.spans(i)) {
        maps.put_fault(bid, fault);
        return Err(told_of(node, fault));
    }
    maps.put(bid)
}

// The page maps of all parts, in order.
fn check_parts(node: &Node, maps: &mut PageMaps) -> Result<(), Fault>
    requires known { AreMapsTrue (table_of_node node.now) maps.old }
    ensures known { AreMapsTrue (table_of_node node.now) maps.new }
    ensures exact { let t = table_of_node node.now in
        Tells result (option_map (told node.now) (page_maps_fault t (data_bid_of node.now))) tt }
{
    let parts = node.parts();
    let count = parts.count();
    for i in 0..count {
        check_part(node, parts, i, maps)?;
    }
    Ok(())
}

// The page maps, of more than a few spans by their parts.
fn check_maps_with(node: &Node, maps: &mut PageMaps) -> Result<(), Fault>
    requires known { AreMapsTrue (table_of_node node.now) maps.old }
    ensures known { AreMapsTrue (table_of_node node.now) maps.new }
    ensures exact { let t = table_of_node node.now in
        Tells result (option_map (told node.now) (page_maps_fault t (data_bid_of node.now))) tt }
{
    if node.leaf(FEW).is_none() {
        return check_all_maps(node);
    }
    check_parts(node, maps)
}

/// Checks that the data of a node is a heap, as `check_heap` does, by what is known of page maps. Of a heap of more than 16 spans
/// the XBLOCKs that an XXBLOCK names, or else the whole data, are remembered once their page maps were gone through; where they are
/// met again, each costs a look-up or two. NoMemory where memory is refused to one whose page maps are good.
pub fn check_heap_with<'a>(node: Node<'a>, maps: &mut PageMaps) -> Result<Heap<'a>, Fault>
    // What is known is true, and stays so.
    requires known { AreMapsTrue (table_of_node node) maps.old }
    ensures known { AreMapsTrue (table_of_node node.entry) maps.new }

    // A heap, or the first fault; or that memory ran out.
    ensures exact { let first = heap_fault (data_of_node node.entry) in
        TellsFirst result (option_map (told node.entry) first) }
    ensures node { IfOk result (λ h. node_of h ≡ node.entry) }
{
    if let Some(only) = only_span(&node) {
        return heap_alone(node, only);
    }
    match check_start(&node) {
        Ok(first) => {
            check_maps_with(&node, maps)?;
            Ok(Heap::with_first(node, first))
        }
        Err(fault) => Err(told_of(&node, fault)),
    }
}
