//! A store: a file without fault, whose folders and messages are looked up without fault.
//!
//! Begin with `specs/Grammar.antt`, the page that says what a store is. `Store::known` gives the store of a node database whose
//! messaging was checked; what a `Store` is asked cannot fail any more, takes no memory, and lends the file's own bytes:
//!
//! ```text
//! let store = Store::known(checked.ndb);
//! let name = store.root().pc().get(0x3001);
//! for folder in store.folders() { .. }
//! ```
#![tactic(auto)]

mod folders;
mod given;
mod laws;
mod messages;
mod sort;
mod store;

pub use folders::Folders;
pub use given::{store_gives, store_gives_folders, store_gives_messages, store_gives_names};
pub use laws::store_decides;
pub use messages::Messages;
pub use pst_msg::{
    Attachment, Attachments, FOLDER, Folder, MESSAGE, Message, Name, NameKind, NameMap, ROOT,
    check_messaging, is_folder, is_message, is_type,
};
pub use store::Store;
