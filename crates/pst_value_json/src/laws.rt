//! Laws of places, each the contract of a function that does nothing.

ghost use Rattle.pst_value_json.specs.Laws.{PropPlacesLaw, CellPlacesLaw};

/// The bytes of the file at the places that are told of a property, one after another, are its value; each of them lies in the file,
/// and has bytes.
pub fn prop_places_hold()
    ensures { PropPlacesLaw }
{}

/// So are those of a cell.
#[tactic(auto, using(crate::proofs::PlaceLemmas::cell_places))]
pub fn cell_places_hold()
    ensures { CellPlacesLaw }
{}
