//! The item that an identifier at a place names.

ghost use Rattle.std.specs.Prelude.{◌≡◌, ◌≢◌, ◌+◌, ◌≤◌, length, Some, None};
ghost use Rattle.pst_bytes.specs.Image.{IsInside};
ghost use Rattle.pst_heap.specs.View.{data_of};
ghost use Rattle.pst_bth.specs.Values.{item_at};

use pst_bytes::Span;
use pst_heap::Heap;

/// Where the item lies whose identifier stands at a place, which names one.
#[inline]
#[tactic(auto, unfolding(crate::specs::Values::item_at))]
pub(crate) fn item_named(heap: &Heap, named: u64) -> Span
    requires place { named + 4 ≤ length (data_of heap.now).image }
    requires there { item_at (data_of heap.now) named ≢ None }
    ensures value { item_at (data_of heap.now) named ≡ Some result }
    ensures inside { IsInside (data_of heap.now).image result }
{
    match heap.item_span(heap.image().number32(named)) {
        Some(item) => item,
        None => unreachable!(),
    }
}
