//! The word that names a property.

ghost use Rattle.std.specs.Prelude.{◌≡◌};
ghost use Rattle.pst_ask.specs.Property.{property_of_word};

use crate::nid::number_of;

/// The identifier of a property that a word writes: four hexadecimal digits of either case. None for any other word.
#[tactic(auto, unfolding(crate::specs::Property::property_of_word))]
pub fn read_property_id(word: &str) -> Option<u16>
    ensures { result ≡ property_of_word word.now }
{
    let digits = word.as_bytes();
    if digits.len() != 4 {
        return None;
    }
    let number = number_of(digits)?;
    Some(number as u16)
}
