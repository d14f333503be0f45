//! Property contexts ([MS-PST] 2.3.3): the properties of a node, found by their identifiers.
//!
//! Begin with `check_pc`, which answers a `Pc` or the first fault of a node's data as one. What a `Pc` is asked cannot fail any
//! more, takes no memory, and lends the file's own bytes:
//!
//! ```text
//! let properties = check_pc(node)?;
//! let name = properties.get(0x3001);
//! for property in properties.props() { .. }
//! ```
#![tactic(auto)]

mod ask;
mod check;
mod laws;
mod pc;
mod prop;
mod props;

pub use check::{check_pc, check_pc_with, known_pc};
pub use laws::{pc_decides, pc_has_records, pc_is_of_keys, pc_keys_rise, pc_look_ups};
pub use pc::Pc;
pub use prop::Prop;
pub use props::Props;
pub use pst_heap::PageMaps;
