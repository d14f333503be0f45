//! Laws of the name map, each the contract of a function that does nothing.

ghost use Rattle.pst_names.specs.Laws.{NameMapLaw};
ghost use Rattle.pst_names.specs.LookUps.{NameMapLookUpsLaw};

/// There is a name map exactly where it has no first fault.
pub fn names_decide()
    ensures { NameMapLaw }
{}

/// What a name map is asked it answers by the grammar, in the words and the memory of the file that it is of.
pub fn names_look_ups()
    ensures { NameMapLookUpsLaw }
{}
