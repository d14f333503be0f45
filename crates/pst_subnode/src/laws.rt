//! Laws of subnodes, each the contract of a function that does nothing.

ghost use Rattle.pst_subnode.specs.Laws.{SubLaw, OneLaw, MoreLaw, EntryLaw, FoundLaw, MapLaw, BelowLaw, LowerLaw, HeightLaw, DepthLaw, HeightLimitLaw, NoHeightLaw, SameSubLaw};

/// A block identifier has a list of a height within the limit exactly where it has no first fault, and then these are they.
pub fn sub_decides()
    ensures { SubLaw }
{}

/// A block identifier has at most one list, of one height.
pub fn sub_is_one()
    ensures { OneLaw }
{}

/// What may nest so deep may nest deeper.
pub fn deeper_has_none()
    ensures { MoreLaw }
{}

/// Below a list without fault each entry has none, neither its data nor its own subnodes.
pub fn entries_have_none()
    ensures { EntryLaw }
{}

/// What is found in a list without fault has none under the same limit.
pub fn found_has_none()
    ensures { FoundLaw }
{}

/// In a list without fault an entry is found under a nid exactly where it is there and has that nid.
pub fn subs_are_a_map()
    ensures { MapLaw }
{}

/// What is found in a list without fault may nest one fewer.
pub fn found_nests_fewer()
    ensures { BelowLaw }
{}

/// An entry's own list is less high than the list that it stands in.
pub fn entries_are_lower()
    ensures { LowerLaw }
{}

/// A list without fault has none under any limit that is not below its height.
pub fn height_is_enough()
    ensures { HeightLaw }
{}

/// A list without fault under one limit has none under another, but for nesting where its height is over that.
pub fn height_tells()
    ensures { DepthLaw }
{}

/// The limit says nothing of the height, where there is no fault under either.
pub fn limit_says_nothing()
    ensures { HeightLimitLaw }
{}

/// A list without fault and of no height has no entries.
pub fn no_height_no_entries()
    ensures { NoHeightLaw }
{}

/// Block identifiers that differ in bit 0 alone have the same entries and height, and the one has a fault exactly where the other has.
pub fn subs_are_of_key()
    ensures { SameSubLaw }
{}
