//! Laws of heaps, each the contract of a function that does nothing.

ghost use Rattle.pst_heap.specs.Laws.{HeapLaw, HeapItemLaw};

/// The data of a node is a heap exactly where it has no first fault.
pub fn heap_decides()
    ensures { HeapLaw }
{}

/// In a heap each item lies in one span of the node's data.
pub fn items_lie_in_spans()
    ensures { HeapItemLaw }
{}
