//! Values of properties and of cells ([MS-PST] 2.3.3.3, 2.3.4.4): where they lie, and what their bytes say under their types.
//!
//! Begin with `PropType` and its `class`; `check_value` tells the first fault of the value that a type and a raw span name, and
//! where it has none `known_value` gives it. The readers (`as_i32`, `as_guid`, `units16`, `elements_from`, ..) say what the bytes
//! of a value are. All of them are total in the bytes, in one slice or in pieces, and none takes memory:
//!
//! ```text
//! check_value(&mut items, PropType(0x0003), place, raw)?;
//! let value = known_value(&heap, PropType(0x0003), raw);
//! let count = as_i32(&value);
//! ```
//!
//! `resolve` does both for a single value.
#![tactic(auto)]

mod ask;
mod asks;
mod check;
mod class;
mod cursor;
mod elements;
mod elements_view;
mod form;
mod gather;
mod hnid;
mod laws;
mod named;
mod prop_type;
mod read;
mod several;
mod type_row;
mod units;

pub use ask::ask_value;
pub use asks::Asks;
pub use check::{check_value, known_value, resolve};
pub use class::Class;
pub use elements::{elements_from, multi};
pub use elements_view::Elements;
pub use form::Form;
pub use hnid::{Hnid, hnid_of, missing_at};
pub use laws::{value_decides, value_is_of_no_place, values_are_of_keys};
pub use prop_type::PropType;
pub use read::{as_bool, as_guid, as_i16, as_i32, as_i64, as_object, as_u32, as_u64};
pub use several::multi_count;
pub use units::{Bytes, Units, bytes_from, units16};
