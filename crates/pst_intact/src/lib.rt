//! Intact nodes: of a store all of its nodes, of a damaged file those that have no fault, over the blocks without fault. So what is
//! read of a store and what is left of a damaged one are the same calls.
//!
//! Begin with `Intact`. What it is asked cannot fail any more, takes no memory, and lends the file's own bytes:
//!
//! ```text
//! let intact = Intact::of(&store);
//! for message in intact.messages() { .. }
//! ```
#![tactic(auto)]

mod folder;
mod folders;
mod intact;
mod messages;
mod sought;

pub use folder::IntactFolder;
pub use folders::IntactFolders;
pub use intact::Intact;
pub use messages::IntactMessages;
