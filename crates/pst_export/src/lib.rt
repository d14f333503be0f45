//! All that a store has, or what is whole of a damaged one, as a tar archive of files.
//!
//! Begin with `export_of`, which gathers what an archive is made from, or says that there would be too many files; `emit_export`
//! writes it. The bytes of values go from the file's own memory to the output, piece by piece:
//!
//! ```text
//! let export = export_of(alloc, size, intact, lost, reached, None)?;
//! emit_export(alloc, &export, &mut out)?;
//! ```
#![tactic(auto)]

mod count;
mod emit;
mod export;
mod fault;
mod files;
mod folders;
mod front;
mod held;
mod index;
mod laws;
mod messages;
mod text;
mod time;
mod utf8;
mod walk;

pub use emit::{emit_export, export_of};
pub use export::Export;
pub use fault::ExportFault;
pub use laws::{files_are_read_back, names_are_distinct, names_are_safe, values_are_whole};
