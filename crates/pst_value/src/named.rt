//! What an HNID names, looked up ([MS-PST] 2.3.3.2).

ghost use Rattle.std.specs.Prelude.{◌≡◌, option_map};
ghost use Rattle.pst_datatree.specs.Data.{size_of};
ghost use Rattle.pst_ndb.specs.Views.{table_of_node, roots_of};
ghost use Rattle.pst_heap.specs.View.{node_of, file_of_heap};
ghost use Rattle.pst_heap.specs.Items.{heap_of_items, node_of_items};
ghost use Rattle.pst_value.specs.Values.{hnid_spans};
ghost use Rattle.pst_value.specs.View.{IsValueOf};

use crate::hnid::{Hnid, hnid_of};
use pst_datatree::{Value, empty_value, value_at};
use pst_heap::Items;

/// What an HNID names in the node of a heap whose items are kept: nothing, the empty value; an item; or the data of a subnode.
/// None exactly where there is no such item or subnode.
#[tactic(auto, unfolding(crate::specs::Values::hnid_spans))]
pub(crate) fn value_named<'a>(items: &mut Items<'a>, hnid: u32) -> Option<Value<'a>>
    ensures value { let heap = heap_of_items items.old in let node = node_of heap in
        IsValueOf (file_of_heap heap)
        (hnid_spans (table_of_node node) (roots_of node) hnid) result }
    ensures heap { heap_of_items items.new ≡ heap_of_items items.old }
{
    let heap = items.heap();
    match hnid_of(hnid) {
        Hnid::Nothing => Some(empty_value(heap.image())),
        Hnid::Item(hid) => match items.item_span(hid) {
            Some(span) => Some(value_at(heap.image(), span)),
            None => None,
        },
        Hnid::Subnode(nid) => match heap.node().sub(nid) {
            Some(sub) => Some(sub.bytes()),
            None => None,
        },
    }
}

/// How many bytes what an HNID names has; None exactly where it names nothing. No value is made of it.
#[tactic(auto, unfolding(crate::specs::Values::hnid_spans))]
pub(crate) fn named_len(items: &mut Items, hnid: u32) -> Option<u64>
    ensures value { let node = node_of_items items.old in
        result ≡ option_map size_of (hnid_spans (table_of_node node) (roots_of node) hnid) }
    ensures heap { heap_of_items items.new ≡ heap_of_items items.old }
{
    match hnid_of(hnid) {
        Hnid::Nothing => Some(0),
        Hnid::Item(hid) => match items.item_span(hid) {
            Some(span) => Some(span.len),
            None => None,
        },
        Hnid::Subnode(nid) => match items.heap().node().sub(nid) {
            Some(sub) => Some(sub.spans().size()),
            None => None,
        },
    }
}
