//! Laws of what a store's messaging names, each the contract of a function that does nothing.

ghost use Rattle.pst_msg.specs.Laws.{CountLaw, NamesLaw};

/// A store names one number of contexts.
pub fn counts_agree()
    ensures { CountLaw }
{}

/// What a store's messaging names are contexts without fault.
pub fn named_are_contexts()
    ensures { NamesLaw }
{}
