//! Folders, messages and attachments ([MS-PST] 2.4): what they are, and their views.
//!
//! Begin with specs/Grammar.antt, which says what a store's messaging is, and specs/Fault.antt, its first fault. Where a node has no
//! fault as a message, `known_message` gives its view, and `known_folder` that of a folder; what they are asked cannot fail:
//!
//! ```text
//! let message = known_message(node);
//! for attachment in message.attachments() {
//!     let embedded = attachment.embedded();
//!     ..
//! }
//! ```
//!
//! pst_msg checks the nodes of a store.
#![tactic(auto)]

mod attachment_view;
mod attachments;
mod folder_view;
mod given;
mod items;
mod kinds;
mod laws;
mod message_view;
mod nid;
mod object;
mod views;

pub use attachment_view::Attachment;
pub use attachments::Attachments;
pub use folder_view::Folder;
pub use given::{
    attachment_gives, column_gives, folder_gives, message_gives, names_gives, node_gives, pc_gives,
    row_gives, tc_gives,
};
pub use items::{Items, listing_nid, may_list};
pub use kinds::{is_folder, is_message};
pub use laws::{
    contents_decide, limits_agree, message_look_ups, messages_are_of_keys, messages_decide,
};
pub use message_view::Message;
pub use nid::{
    ASSOCIATED, ATTACHMENT, ATTACHMENTS, FOLDER, MESSAGE, RECIPIENTS, ROOT, SEARCH_FOLDER, STORE,
    is_type, named,
};
pub use object::{Object, embedded};
pub use pst_names::{NAME_MAP, Name, NameKind, NameMap, known_names};
pub use pst_pc::{Pc, known_pc};
pub use pst_tc::Tc;
pub use views::{known_folder, known_message, nodes_decide};
