//! The values that a value of several has, one after another.

ghost use Rattle.std.specs.Prelude.{◌≡◌, option_map, IfSome};
ghost use Rattle.pst_datatree.specs.Shown.{bytes_in};
ghost use Rattle.pst_value.specs.Elements.{elements_left, elements_value, elements_type, element_next, IsElement};
ghost use Rattle.pst_value.specs.Multi.{elements_of, element_of};

use crate::elements_view::Elements;
use crate::prop_type::PropType;
use crate::several::{element_width, multi_count};
use pst_datatree::Value;

/// The values of a value of several; None exactly where it has none such.
#[tactic(auto, unfolding(crate::specs::Multi::elements_of))]
pub fn elements_from<'a>(value: &Value<'a>, kind: PropType) -> Option<Elements<'a>>
    ensures left { option_map elements_left result ≡ elements_of kind.0 (bytes_in value.now) }
    ensures value { IfSome result (λ e. elements_value e ≡ value.now) }
    ensures kind { IfSome result (λ e. elements_type e ≡ kind.0) }
    ensures next { IfSome result (λ e. element_next e ≡ 0) }
{
    let count = multi_count(value, kind)?;
    match element_width(kind) {
        Some(_) => Some(Elements::fixed(*value, kind, count)),
        None => Some(Elements::listed(*value, kind, count)),
    }
}

/// The value with a number, from 0 on, of a value of several; None exactly where there is none. It goes through the values
/// before it: to see all of them take `elements_from`.
#[tactic(auto, using(crate::proofs::NextLemmas::none_of, crate::proofs::NextLemmas::next_is, crate::proofs::NextLemmas::next_element))]
pub fn multi<'a>(value: Value<'a>, kind: PropType, n: u32) -> Option<Value<'a>>
    ensures bytes { option_map bytes_in result ≡ element_of kind.0 (bytes_in value.entry) n }
    ensures own { IfSome result (IsElement kind.0 value.entry n) }
{
    let mut rest = elements_from(&value, kind)?;
    for i in 0..n {
        rest.next()?;
    }
    rest.next()
}
