//! Laws of claims, each the contract of a function that does nothing.

ghost use Rattle.pst_space.specs.Apart.{ApartLaw, ClaimsLaw, FlagsLaw};
ghost use Rattle.pst_space.specs.Claimed.{MapPagesLaw};

/// Spans of whole units of the mapped part can be claimed one after another exactly where none has a byte in common with
/// what is claimed, and no two of them have one; and then their flags are set.
pub fn claims_decide()
    ensures { ClaimsLaw }
{}

/// Where nothing is claimed yet, spans of whole units can be claimed one after another exactly where no two of them have
/// a byte in common; and the flags are then those of the units in which one of them lies.
pub fn claims_are_apart()
    ensures apart { ApartLaw }
    ensures flags { FlagsLaw }
{}

/// The map pages of a file have no byte in common.
pub fn map_pages_are_apart()
    ensures { MapPagesLaw }
{}
