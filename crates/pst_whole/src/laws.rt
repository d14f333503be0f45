//! Laws of what is whole of a damaged file, each the contract of a function that does nothing.

ghost use Rattle.pst_whole.specs.Laws.{StoreWholeLaw, DecodedStoreLaw, SortedLaw};

/// Of a store all is whole, and nothing is told: so what is read of what is whole of it is read of its blocks and its nodes, as
/// without the option.
pub fn stores_are_whole()
    ensures stored { StoreWholeLaw }
    ensures decoded { DecodedStoreLaw }
{}

/// Of any file the whole nodes are those that are left and have no fault; the fault of each other one is told, and of what lies
/// behind a broken page that of the page.
pub fn whole_or_told()
    ensures { SortedLaw }
{}
