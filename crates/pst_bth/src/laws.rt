//! Laws of BTHs, each the contract of a function that does nothing.

ghost use Rattle.pst_bth.specs.Laws.{BthLaw, BthNameLaw, BthRiseLaw, BthMapLaw};

/// A heap has a BTH with an identifier exactly where it has no first fault, and then its records are these.
pub fn bth_decides()
    ensures { BthLaw }
{}

/// A BTH that is named at one place without fault has none named at another.
pub fn bth_at_any_name()
    ensures { BthNameLaw }
{}

/// The keys of a BTH without fault rise, so that it is a finite map.
pub fn bth_keys_rise()
    ensures { BthRiseLaw }
{}

/// In a BTH without fault a record is found under a key exactly where it is there and has that key.
pub fn bth_is_a_map()
    ensures { BthMapLaw }
{}
