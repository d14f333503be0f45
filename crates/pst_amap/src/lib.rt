//! Allocation maps ([MS-PST] 2.2.2.7.2): whether they mark what is claimed, and what they mark besides.
//!
//! Begin with `compare`, which answers the `MapReport` of a file, or the first fault of its maps. The claims have to
//! hold all pages of the two B-trees and all blocks, and so the walks and the check of the blocks come first:
//!
//! ```text
//! let mut claims = Claims::new(alloc, &header)?;
//! let (tree, entries) = walk_blocks(alloc, image, &header, &mut claims)?;
//! let nodes = walk_node_tree(alloc, image, &header, &mut claims)?;
//! let blocks = check_blocks(tree, &header, &entries, &mut claims)?;
//! let report = compare(alloc, image, &header, &mut claims)?;
//! for span in &report.lost { .. }
//! ```
#![tactic(auto)]

mod comparison;
mod laws;
mod lost;
mod map;
mod marks;
mod old;
mod report;

pub use comparison::compare;
pub use laws::{maps_decide, marks_are_exact, runs_are_whole};
pub use report::{BitOrder, MapReport};
