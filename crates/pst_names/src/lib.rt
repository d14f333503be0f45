//! The name map ([MS-PST] 2.4.7): what the properties of a store from 0x8000 on are called.
//!
//! Begin with `check_names`, which tells the first fault of the map in the property context of node 0x61. Of a map without fault
//! `known_names` is the view, which finds the name of a property, without fault and without memory:
//!
//! ```text
//! let context = check_pc(node)?;
//! check_names(alloc, &context)?;
//! let names = known_names(&context);
//! let name = names.name(0x8001);
//! ```
//!
//! Whoever asks for many names makes an index once, and lends it to the view: `names.indexed(&names.index(alloc)?)`.
#![tactic(auto)]

mod check;
mod fields;
mod index;
mod laws;
mod name;
mod name_map;
mod rest;
mod rules;
mod runs;
mod streams;
mod stretch;
mod string_index;
mod strings;

pub use check::{check_names, known_names};
pub use index::NameIndex;
pub use laws::{names_decide, names_look_ups};
pub use name::{Name, NameKind};
pub use name_map::{NAME_MAP, NameMap};
