//! The check of a property context.

ghost use Rattle.std.specs.Prelude.{◌≡◌, ◌≤◌, IfOk, IsOk, OnOk, None, option_map};
ghost use Rattle.pst_bytes.specs.Image.{IsInside};
ghost use Rattle.pst_fault.specs.Each.{first_of};
ghost use Rattle.pst_fault.specs.First.{Checks, TellsFirst};
ghost use Rattle.pst_ndb.specs.Views.{table_of_node, roots_of};
ghost use Rattle.pst_heap.specs.Fault.{told_under};
ghost use Rattle.pst_heap.specs.PageMaps.{AreMapsTrue};
ghost use Rattle.pst_heap.specs.View.{node_of, data_of};
ghost use Rattle.pst_heap.specs.Items.{heap_of_items, node_of_items, data_of_items};
ghost use Rattle.pst_bth.specs.View.{heap_of, sizes_in, records_of};
ghost use Rattle.pst_pc.specs.Fault.{property_fault, pc_fault};
ghost use Rattle.pst_pc.specs.Grammar.{IsPc};
ghost use Rattle.pst_pc.specs.Values.{pc_sizes};
ghost use Rattle.pst_pc.specs.View.{node_of_pc};

use crate::pc::Pc;
use pst_bth::{Bth, check_bth_at};
use pst_bytes::Span;
use pst_fault::Fault;
use pst_heap::{Heap, Items, PageMaps, check_client, check_heap, check_heap_with, known_heap};
use pst_ndb::Node;
use pst_value::{PropType, check_value};

// The value of a record.
#[tactic(auto, unfolding(crate::specs::Fault::property_fault))]
fn check_property(items: &mut Items, id: u32, content: Span) -> Result<(), Fault>
    requires inside { IsInside (data_of_items items.old).image content }
    requires behind { 2 ≤ content.at }
    requires size { content.len ≡ 6 }
    ensures exact { let node = node_of_items items.old in let r = roots_of node in
        Checks result
        (option_map (told_under r) (property_fault (table_of_node node) r (id, content))) }
    ensures heap { heap_of_items items.new ≡ heap_of_items items.old }
{
    let kind = PropType(items.heap().image().number16(content.at));
    let raw = Span {
        at: content.at + 2,
        len: 4,
    };
    check_value(items, kind, content.at - 2, raw)
}

// The values of all records, in order.
#[tactic(auto, using(pst_bth::proofs::RecordLemmas::record_next, pst_bth::proofs::RecordLemmas::record_fails, pst_bth::proofs::RecordLemmas::records_done))]
fn check_properties(heap: &Heap, bth: &Bth) -> Result<(), Fault>
    requires heap { node_of (heap_of bth.now) ≡ node_of heap.now }
    requires sizes { sizes_in bth.now ≡ pc_sizes }
    ensures exact { let node = node_of heap.now in let r = roots_of node in
        let first = first_of (property_fault (table_of_node node) r) (records_of bth.now) in
        Checks result (option_map (told_under r) first) }
{
    let mut items = Items::of(*heap);
    let mut rest = bth.records();
    while let Some(taken) = rest.next() {
        check_property(&mut items, taken.0, taken.1)?;
    }
    Ok(())
}

// What a heap has to have to be a property context.
#[tactic(auto, using(crate::proofs::PcLemmas::client_fails, crate::proofs::PcLemmas::bth_fails, crate::proofs::PcLemmas::all_left))]
fn check_content(heap: &Heap) -> Result<(), Fault>
    ensures exact { let node = node_of heap.now in
        Checks result (pc_fault (table_of_node node) (roots_of node)) }
{
    heap.is_sound();
    check_client(heap, 0xBC)?;
    let bth = check_bth_at(heap, heap.user_root_place(), heap.user_root(), 2, 6)?;
    check_properties(heap, &bth)
}

// All of a property context.
#[tactic(auto, using(crate::proofs::PcLemmas::heap_fails))]
fn check_all(node: Node<'_>) -> Result<Heap<'_>, Fault>
    ensures exact { Checks result (pc_fault (table_of_node node.entry) (roots_of node.entry)) }
    ensures node { IfOk result (λ h. node_of h ≡ node.entry) }
{
    let heap = check_heap(node)?;
    check_content(&heap)?;
    Ok(heap)
}

/// The property context of a node that has one. Its heap is looked up.
#[tactic(auto, using(crate::proofs::PcLemmas::has_heap))]
pub fn known_pc(node: Node<'_>) -> Pc<'_>
    requires { pc_fault (table_of_node node) (roots_of node) ≡ None }
    ensures { node_of_pc result ≡ node.entry }
{
    Pc::of(known_heap(node))
}

/// Checks the property context of a node ([MS-PST] 2.3.3), in this order, with the node's bidData and the node of the tree from
/// which it was reached:
///
/// - the heap, as `check_heap` does, and Heap at its first span, where the client signature is not 0xBC;
/// - the BTH that the user root names, as `check_bth_at` does, with keys of 2 and data of 6 bytes;
/// - the value of each record in order: HeapId or Subnode at its HNID, where that names no item or no subnode; Property at the
///   record, where the value has a length that its type does not allow.
///
/// It takes no memory. Of n properties each is looked at once, and its value looked up, as an item of the heap or as a subnode.
/// Of a node that was lent an index of its subnodes (`Node::indexed`) each is found in about log n steps, in whatever order their
/// list has them.
#[tactic(auto, using(crate::proofs::PcLaws::none_pc, crate::proofs::PcLaws::pc_none))]
pub fn check_pc(node: Node<'_>) -> Result<Pc<'_>, Fault>
    // A property context, or the first fault.
    ensures exact { Checks result (pc_fault (table_of_node node.entry) (roots_of node.entry)) }
    ensures node { IfOk result (λ p. node_of_pc p ≡ node.entry) }

    // What is found is one, and one is found.
    ensures found { OnOk result (IsPc (table_of_node node.entry) (roots_of node.entry)) }
    ensures only { IsPc (table_of_node node.entry) (roots_of node.entry) → IsOk result }
{
    let heap = check_all(node)?;
    Ok(Pc::of(heap))
}

/// Checks the property context of a node as `check_pc` does, its heap by what is known of page maps, as `check_heap_with` does.
/// NoMemory where memory is refused for that.
pub fn check_pc_with<'a>(node: Node<'a>, maps: &mut PageMaps) -> Result<Pc<'a>, Fault>
    // What is known is true, and stays so.
    requires known { AreMapsTrue (table_of_node node) maps.old }
    ensures known { AreMapsTrue (table_of_node node.entry) maps.new }

    // A property context, or the first fault; or that memory ran out.
    ensures exact { TellsFirst result (pc_fault (table_of_node node.entry) (roots_of node.entry)) }
    ensures node { IfOk result (λ p. node_of_pc p ≡ node.entry) }
{
    let heap = check_heap_with(node, maps)?;
    match check_content(&heap) {
        Ok(()) => Ok(Pc::of(heap)),
        Err(fault) => Err(fault),
    }
}
