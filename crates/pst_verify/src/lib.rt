//! The check of a whole file: whether it is a store.
//!
//! Begin with `verify`, and with pst_store's `specs/Grammar.antt`, the page that says what a store is. `verify` gives
//! the store that bytes are, with what is reported of it, or their first fault; `look_ups_are_of_the_store` says what each later
//! look-up answers then:
//!
//! ```text
//! let verified = verify(alloc, bytes)?;
//! let messages = verified.report.messages;
//! for folder in verified.store.folders() { .. }
//! ```
#![tactic(auto)]

mod check;
mod counts;
mod laws;
mod report;
mod verified;

pub use check::verify;
pub use laws::look_ups_are_of_the_store;
pub use pst_reach::{
    Attachment, Attachments, FOLDER, Folder, Folders, MESSAGE, Message, Name, NameKind, NameMap,
    Reach, Store, find_reach, is_message, is_type, path_from_root, reach_among,
};
pub use report::Report;
pub use verified::Verified;
