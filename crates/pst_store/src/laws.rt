//! The law of stores, the contract of a function that does nothing.

ghost use Rattle.pst_store.specs.Laws.{StoreLaw};

/// A file is a store exactly where it has no first fault; and it is one store at most.
pub fn store_decides()
    ensures { StoreLaw }
{}
