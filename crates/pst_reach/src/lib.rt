//! The folders of a store that its root folder reaches, by rows of hierarchy tables ([MS-PST] 2.4.4.4).
//!
//! Begin with `specs/Reach.antt`, which says what a way is, and the depth and the parent of a folder. `reach` gives all folders that
//! a way leads to (`reach_among` those among the intact nodes of a damaged file); `unreached` gives what is left of the store's
//! folders, which is lost: it is there, and no program that starts at the root folder shows it. `path_from_root` follows the
//! parents of a folder up to the root folder:
//!
//! ```text
//! let reached = reach(alloc, &ndb, &mut work)?;
//! for folder in &reached { .. path_from_root(alloc, &reached, folder.nid)? .. }
//! for nid in unreached(alloc, &ndb, &reached)? { .. }
//! ```
#![tactic(auto)]

mod laws;
mod lost;
mod paths;
mod reached;
mod rows;
mod search;

pub use laws::ways_are_found;
pub use lost::unreached;
pub use paths::{find_reach, path_from_root};
pub use pst_store::{
    Attachment, Attachments, FOLDER, Folder, Folders, MESSAGE, Message, Name, NameKind, NameMap,
    Store, check_messaging, is_folder, is_message, is_type,
};
pub use reached::Reach;
pub use search::{reach, reach_among};
