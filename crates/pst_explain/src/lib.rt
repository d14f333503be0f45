//! The kinds of fault, in plain words.
//!
//! Begin with `explanation`; `kind_named` gives the kind that a word names, by its number or its name:
//!
//! ```text
//! let text = explanation(kind_named("14"));
//! ```
//!
//! table.rt has a row for each kind, and all texts are made of that.
#![tactic(auto)]

mod named;
mod table;

pub use named::{explanation, kind_named};
pub use pst_fault::Kind;
pub use table::{all_kinds, text_of};
