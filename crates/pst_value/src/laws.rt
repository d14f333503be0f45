//! Laws of values, each the contract of a function that does nothing.

ghost use Rattle.pst_value.specs.Laws.{ValueLaw, PlaceLaw, AlikeValueLaw};

/// There is a value exactly where there is no first fault, and then it has these spans.
pub fn value_decides()
    ensures { ValueLaw }
{}

/// That there is a value does not depend on where a fault would be told.
pub fn value_is_of_no_place()
    ensures { PlaceLaw }
{}

/// Bit 0 of the block identifiers of a node says nothing of its values, nor of their faults.
pub fn values_are_of_keys()
    ensures { AlikeValueLaw }
{}
