//! What is whole of a damaged file: its nodes without fault, over the blocks without fault, and what is told of the others.
//!
//! Begin with `find_whole`, which judges the nodes that are left of a file. What it gives lends the whole ones as `Intact`, which
//! answers as a store does, and says of each other identifier why nothing is read under it:
//!
//! ```text
//! let whole = find_whole(alloc, find_remains(alloc, image)?)?;
//! let pages = whole.pages(alloc)?;
//! let (intact, lost) = (whole.intact(), whole.lost(&pages));
//! ```
#![tactic(auto)]

mod find;
mod laws;
mod lost;
mod told;
mod whole;

pub use find::find_whole;
pub use laws::{stores_are_whole, whole_or_told};
pub use lost::{LeftNodes, Lost};
pub use pst_damage::BrokenPages;
pub use pst_intact::{Intact, IntactFolder, IntactFolders, IntactMessages};
pub use whole::WholeNodes;
