//! Messaging ([MS-PST] 2.4): the name map, folders, messages and attachments of a store.
//!
//! Begin with `check_messaging`, which answers the first fault of a node database as a store's, and counts the contexts
//! that it names. Where there is no fault, `Store` of pst_store gives each `Folder` and each `Message`, and what they
//! are asked cannot fail any more:
//!
//! ```text
//! let checked = check_ndb(alloc, Image::new(bytes))?;
//! let ndb = checked.ndb;
//! let mut work = checked.work;
//! check_messaging(alloc, &ndb, &mut work)?;
//! let store = Store::known(ndb);
//! for message in store.messages() {
//!     for attachment in message.attachments() { .. }
//! }
//! ```
//!
//! `Checker` checks nodes one by one, for whoever goes on after a fault.
#![tactic(auto)]

mod check;
mod checker;
mod context;
mod folder;
mod frame;
mod indexes;
mod known;
mod laws;
mod message;
mod open;
mod recipients;
mod remember;
mod rest;

pub use check::check_messaging;
pub use checker::Checker;
pub use laws::{counts_agree, named_are_contexts};
pub use pst_mail::{
    ASSOCIATED, Attachment, Attachments, FOLDER, Folder, Items, MESSAGE, Message, NAME_MAP, Name,
    NameKind, NameMap, Object, Pc, ROOT, SEARCH_FOLDER, STORE, Tc, attachment_gives, column_gives,
    contents_decide, folder_gives, is_folder, is_message, is_type, known_folder, known_message,
    known_names, known_pc, limits_agree, listing_nid, may_list, message_gives, message_look_ups,
    messages_are_of_keys, messages_decide, named, names_gives, node_gives, nodes_decide, pc_gives,
    row_gives, tc_gives,
};
pub use pst_remembered::{Faults, Part, Role};
