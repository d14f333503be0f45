//! The command line of the program: what the words after its name ask for.
//!
//! Begin with `parse`: it gives what is to be shown and of which file, or which kind of fault is to be explained, or why there
//! is nothing to be done. The text of help, of the version and of a refusal is that of the error:
//!
//! ```text
//! match parse(alloc, &words) {
//!     Ok(Order::Show(request)) => show(request.ask, request.file),
//!     Ok(Order::Explain(kind)) => say(explanation(kind)),
//!     Err(NoOrder::Words(error)) => say(error),
//!     Err(NoOrder::Lacks(lack)) => say_lack(lack),
//! }
//! ```
//!
//! Which word it was that names nothing tells `lacking_word`.
//!
//! verb.rt lists the commands, a line each: its name, what it is for, and what stands behind its name. The command line and help
//! are made of that list, and so is the law `commands_are_asked`: the words of each command ask for what it shows.
#![tactic(auto)]

mod ask;
mod lacking;
mod laws;
mod nid;
mod path;
mod property;
mod verb;
mod words;

pub use ask::{Ask, Lack, Order, Request};
pub use clap::Error;
pub use clap::error::ErrorKind;
pub use lacking::lacking_word;
pub use laws::commands_are_asked;
pub use nid::read_nid;
pub use path::{Path, read_path};
pub use property::read_property_id;
pub use pst_explain::Kind;
pub use words::{NoOrder, parse};
