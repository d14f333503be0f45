//! Properties as documents: of a node, a message, an attachment, or of what a path leads to through these.
//!
//! Begin with `props_line`, the line of what a path leads to, with its attachments and recipients, each property under the name that
//! the store's name map gives it; `props_doc` gives its tree. `property_at` lends one property, from the file's own memory:
//!
//! ```text
//! let index = names_index(alloc, &intact)?;
//! let line = props_line(alloc, &intact, &index, &path, false)?;
//! ```
//!
//! `message_line`, `attachment_line` and `node_line` show what is at hand already, and keep `DocumentIndexes`. Whoever goes through
//! nodes that share a list of subnodes keeps `NodeIndexes`.
#![tactic(auto)]

mod attachment;
mod document_indexes;
mod fault;
mod found;
mod lent;
mod lines;
mod lost;
mod names;
mod node;
mod property;
mod texts;

pub use document_indexes::DocumentIndexes;
pub use fault::DocFault;
pub use lent::{lend_message, lend_pc, lend_tc, new_indexes};
pub use lines::{attachment_line, message_line, node_line};
pub use lost::lost_at;
pub use names::{NamesIndex, names_in, names_index};
pub use node::{props_doc, props_line};
pub use property::property_at;
pub use texts::{CLASS, NAME, SENDER, SUBJECT, TEXT, write_text_property};
