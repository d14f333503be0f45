//! The value of a property or of a cell, checked.

ghost use Rattle.std.specs.Prelude.{◌≡◌, ℕ, ◌+◌, ◌≤◌, length, true, IfOk, IfSome, Some, None, option_map};
ghost use Rattle.pst_bytes.specs.Image.{num, IsInside};
ghost use Rattle.pst_fault.specs.First.{Checks};
ghost use Rattle.pst_ndb.specs.Views.{table_of_node, roots_of};
ghost use Rattle.pst_heap.specs.Fault.{told_of as told};
ghost use Rattle.pst_heap.specs.View.{node_of, data_of, file_of_heap};
ghost use Rattle.pst_heap.specs.Items.{heap_of_items, node_of_items, data_of_items};
ghost use Rattle.pst_value.specs.Fault.{is_length, hnid_fault, value_fault};
ghost use Rattle.pst_value.specs.Values.{held_of, hnid_spans, value_spans};
ghost use Rattle.pst_value.specs.View.{IsValue, IsValueOf};

use crate::class::Class;
use crate::hnid::{Hnid, hnid_of, missing_at};
use crate::named::{named_len, value_named};
use crate::prop_type::PropType;
use pst_bytes::Span;
use pst_datatree::{Value, value_at};
use pst_fault::{Fault, Kind};
use pst_heap::{Heap, Items, told_of};
use pst_ndb::Node;

// How many bytes of a raw span with so many are the value; None where an HNID stands there.
#[inline]
#[tactic(auto, unfolding(crate::specs::Values::held_of))]
pub(crate) fn held(kind: PropType, len: u64) -> Option<u64>
    ensures value { result ≡ held_of kind.0 len }
    ensures fits { IfSome result (λ width. width ≤ len) }
{
    let row = kind.row();
    let width = match row.class {
        Class::Opaque => len,
        Class::Inline | Class::Eight => u64::from(row.cell?),
        Class::Guid | Class::Object | Class::Open | Class::Multi => return None,
    };
    if width <= len { Some(width) } else { None }
}

// Whether the value that an HNID names has a length that its type allows.
#[inline]
#[tactic(auto, unfolding(crate::specs::Fault::is_length))]
pub(crate) fn has_length(kind: PropType, len: u64) -> bool
    ensures { result ≡ is_length kind.0 len }
{
    if len == 0 {
        return true;
    }
    match kind.class() {
        Class::Eight => len == 8,
        Class::Guid => len == 16,
        Class::Object => len >= 8,
        _ => true,
    }
}

// The value that the HNID at `named` names, told of no node.
#[tactic(auto, unfolding(crate::specs::Fault::hnid_fault))]
fn hnid_value<'a>(items: &mut Items<'a>, kind: PropType, named: u64) -> Result<Value<'a>, Fault>
    requires { named + 4 ≤ length (data_of_items items.old).image }
    ensures exact { let node = node_of_items items.old in
        Checks result (hnid_fault (table_of_node node) (roots_of node) kind.0 named named) }
    ensures value { let heap = heap_of_items items.old in let t = table_of_node (node_of heap) in
        let spans = hnid_spans t (roots_of (node_of heap)) (num t.image named 4) in
        IfOk result (λ v. IsValueOf (file_of_heap heap) spans (Some v)) }
    ensures heap { heap_of_items items.new ≡ heap_of_items items.old }
{
    let hnid = items.heap().image().number32(named);
    let Some(value) = value_named(items, hnid) else {
        return Err(missing_at(named, hnid));
    };
    if !has_length(kind, value.len()) {
        return Err(Fault::at(Kind::Property, named));
    }
    Ok(value)
}

// Checks the value that the HNID at `named` names, told of no node.
#[tactic(auto, unfolding(crate::specs::Fault::hnid_fault))]
fn check_hnid(items: &mut Items, kind: PropType, place: u64, named: u64) -> Result<(), Fault>
    requires { named + 4 ≤ length (data_of_items items.old).image }
    ensures exact { let node = node_of_items items.old in
        Checks result (hnid_fault (table_of_node node) (roots_of node) kind.0 place named) }
    ensures heap { heap_of_items items.new ≡ heap_of_items items.old }
{
    let hnid = items.heap().image().number32(named);
    match named_len(items, hnid) {
        None => Err(missing_at(named, hnid)),
        Some(len) if has_length(kind, len) => Ok(()),
        Some(_) => Err(Fault::at(Kind::Property, place)),
    }
}

// Checks the value that the HNID at `named` names. It may be looked up in the node's subnodes, so this stands apart.
#[inline(never)]
fn check_named(items: &mut Items, kind: PropType, place: u64, named: u64) -> Result<(), Fault>
    requires { named + 4 ≤ length (data_of_items items.old).image }
    ensures exact { let node = node_of_items items.old in
        let first = hnid_fault (table_of_node node) (roots_of node) kind.0 place named in
        Checks result (option_map (told node) first) }
    ensures heap { heap_of_items items.new ≡ heap_of_items items.old }
{
    match check_hnid(items, kind, place, named) {
        Ok(()) => Ok(()),
        Err(fault) => Err(told_of(&items.heap().node(), fault)),
    }
}

// Whether the HNID at `named` names nothing, or an item of a length that the type allows: then the value has no fault, and no
// subnode is looked up to find that.
#[inline(always)]
#[tactic(auto, unfolding(crate::specs::Fault::hnid_fault, crate::specs::Values::hnid_spans, crate::specs::Fault::is_length))]
fn is_sound_item(items: &mut Items, kind: PropType, named: u64) -> bool
    requires { named + 4 ≤ length (data_of_items items.old).image }
    ensures sound { let node = node_of_items items.old in (place : ℕ) → result ≡ true →
        hnid_fault (table_of_node node) (roots_of node) kind.0 place named ≡ None }
    ensures heap { heap_of_items items.new ≡ heap_of_items items.old }
{
    let hnid = items.heap().image().number32(named);
    match hnid_of(hnid) {
        Hnid::Nothing => true,
        Hnid::Item(hid) => match items.item_span(hid) {
            Some(span) => has_length(kind, span.len),
            None => false,
        },
        Hnid::Subnode(_) => false,
    }
}

// The value of a type in a raw span, told of no node.
#[tactic(auto, unfolding(crate::specs::Fault::value_fault, crate::specs::Values::value_spans))]
fn raw_value<'a>(heap: &Heap<'a>, kind: PropType, raw: Span) -> Result<Value<'a>, Fault>
    requires inside { IsInside (data_of heap.now).image raw }
    requires hnid { held_of kind.0 raw.len ≡ None → 4 ≤ raw.len }
    ensures exact { let node = node_of heap.now in
        Checks result (value_fault (table_of_node node) (roots_of node) kind.0 raw.at raw) }
    ensures value { let node = node_of heap.now in
        let spans = value_spans (table_of_node node) (roots_of node) kind.0 raw in
        IfOk result (IsValue (file_of_heap heap.now) spans) }
{
    match held(kind, raw.len) {
        Some(width) => {
            let front = Span {
                at: raw.at,
                len: width,
            };
            Ok(value_at(heap.image(), front))
        }
        None => {
            let mut items = Items::of(*heap);
            hnid_value(&mut items, kind, raw.at)
        }
    }
}

/// Checks the value of a type in a raw span as `resolve` does, of items of a heap that are kept, and gives none: a value that
/// stands in the raw span itself costs no look-up, nor does one in the span of the heap in which an item was found last. Property
/// is told at `place`, where the record or the cell begins that has the raw span.
#[inline(always)]
#[tactic(auto, unfolding(crate::specs::Fault::value_fault))]
pub fn check_value(items: &mut Items, kind: PropType, place: u64, raw: Span) -> Result<(), Fault>
    requires inside { IsInside (data_of_items items.old).image raw }
    requires hnid { held_of kind.0 raw.len ≡ None → 4 ≤ raw.len }
    ensures exact { let node = node_of_items items.old in
        let first = value_fault (table_of_node node) (roots_of node) kind.0 place raw in
        Checks result (option_map (told node) first) }
    ensures heap { heap_of_items items.new ≡ heap_of_items items.old }
{
    if held(kind, raw.len).is_some() {
        return Ok(());
    }
    if is_sound_item(items, kind, raw.at) {
        return Ok(());
    }
    check_named(items, kind, place, raw.at)
}

/// The value of a property or of a cell ([MS-PST] 2.3.3.3, 2.3.4.4.1), whose type and raw span are these, in the node whose heap
/// this is. A type that is not listed has the raw span itself; a type that is kept inline, and fits, its first bytes; any other
/// the value that the HNID in the first four bytes names. With the node's bidData and the node of the tree from which it was
/// reached, in this order:
///
/// - HeapId or Subnode at the raw span, where the HNID names no item or no subnode;
/// - Property at the raw span, where the value has a length that its type does not allow.
///
/// It takes no memory. The item or the subnode is looked up, and the pieces of the value are not gone through.
pub fn resolve<'a>(
    node: Node<'a>,
    heap: &Heap<'a>,
    kind: PropType,
    raw: Span,
) -> Result<Value<'a>, Fault>
    requires node { node_of heap.now ≡ node }
    requires inside { IsInside (data_of heap.now).image raw }
    requires hnid { held_of kind.0 raw.len ≡ None → 4 ≤ raw.len }

    // The value, or the first fault.
    ensures exact { let t = table_of_node node.entry in
        let first = value_fault t (roots_of node.entry) kind.0 raw.at raw in
        Checks result (option_map (told node.entry) first) }
    ensures value { let t = table_of_node node.entry in
        let spans = value_spans t (roots_of node.entry) kind.0 raw in
        IfOk result (IsValue (file_of_heap heap.now) spans) }
{
    match raw_value(heap, kind, raw) {
        Ok(value) => Ok(value),
        Err(fault) => Err(told_of(&node, fault)),
    }
}

/// The value of a type in a raw span that is known to have one.
#[tactic(auto, using(crate::proofs::ValueLaws::place_law))]
pub fn known_value<'a>(heap: &Heap<'a>, kind: PropType, raw: Span) -> Value<'a>
    requires inside { IsInside (data_of heap.now).image raw }
    requires hnid { held_of kind.0 raw.len ≡ None → 4 ≤ raw.len }
    requires sound { let node = node_of heap.now in
        value_fault (table_of_node node) (roots_of node) kind.0 0 raw ≡ None }
    ensures { let node = node_of heap.now in
        let spans = value_spans (table_of_node node) (roots_of node) kind.0 raw in
        IsValue (file_of_heap heap.now) spans result }
{
    match raw_value(heap, kind, raw) {
        Ok(value) => value,
        Err(_) => unreachable!(),
    }
}
