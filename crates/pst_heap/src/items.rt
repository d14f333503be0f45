//! The items of a heap, of which many are asked for.

ghost use Rattle.std.specs.Prelude.{◌≡◌, Some, slice_get};
ghost use Rattle.pst_bytes.specs.Image.{IsInside};
ghost use Rattle.pst_heap.specs.View.{data_of};

use crate::heap::Heap;
use pst_bytes::Span;

/// The items of a heap, and the span of its data in which one was found last: items of one span that are asked for one after
/// another cost one look-up of it. No memory is taken.
#[derive(Clone, Copy)]
pub struct Items<'a> {
    heap: Heap<'a>,
    // The number of that span, and where it lies.
    number: u32,
    span: Span,
    ghost found: { slice_get (data_of heap).spans number ≡ Some span },
    ghost inside: { IsInside (data_of heap).image span },
}

impl<'a> Items<'a> {
    ghost use Rattle.std.specs.Prelude.{◌≡◌, IfSome};
    ghost use Rattle.pst_bytes.specs.Image.{IsInside};
    ghost use Rattle.pst_heap.specs.Values.{item_of};
    ghost use Rattle.pst_heap.specs.Items.{heap_of_items, data_of_items};

    /// Those of a heap.
    #[tactic(auto, using(crate::proofs::HeapLemmas::first_there))]
    pub fn of(heap: Heap<'a>) -> Items<'a>
        ensures { heap_of_items result ≡ heap.entry }
    {
        heap.is_sound();
        Items {
            heap,
            number: 0,
            span: heap.first(),
        }
    }

    /// The heap.
    pub fn heap(&self) -> Heap<'a>
        ensures { result ≡ heap_of_items self.now }
    {
        self.heap
    }

    /// Where the item with an identifier lies, as `Heap::item_span` says; None exactly where no item has it.
    #[inline]
    #[tactic(auto, using(crate::proofs::HeapLemmas::item_none))]
    pub fn item_span(&mut self, hid: u32) -> Option<Span>
        ensures value { result ≡ item_of (data_of_items self.old) hid }
        ensures inside { IfSome result (IsInside (data_of_items self.old).image) }
        ensures heap { heap_of_items self.new ≡ heap_of_items self.old }
    {
        let number = hid / 65_536;
        if number != self.number {
            let span = self.heap.span(number)?;
            self.number = number;
            self.span = span;
        }
        self.heap.item_in(self.span, hid)
    }
}
