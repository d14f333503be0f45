//! All that is broken of a file, as JSON.
//!
//! Begin with `damage_line`, which gives the line of the document: the compact text of a JSON object, and a line feed.
//!
//! ```text
//! let damage = find_damage(alloc, image)?;
//! let line = damage_line(alloc, &damage, None)?;
//! ```
#![tactic(auto)]

mod damage;
mod faults;
mod lists;

pub use damage::damage_line;
pub use faults::write_fault;
