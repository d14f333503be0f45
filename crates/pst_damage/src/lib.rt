//! All that is broken of a file, part by part: its header, the pages of its two B-trees, its blocks, its allocation maps, and
//! its nodes with what messaging asks of them.
//!
//! Begin with `find_damage`:
//!
//! ```text
//! let damage = find_damage(alloc, image)?;
//! for node in &damage.nodes {
//!     let (nid, fault) = (node.nid, node.fault);
//!     ..
//! }
//! ```
#![tactic(auto)]

mod apart;
mod asked;
mod broken;
mod broken_pages;
mod damage;
mod find;
mod folder;
mod judge;
mod known;
mod laws;
mod left;
mod listings;
mod order;
mod trees;
mod whole;

pub use broken::{BrokenNode, find_told, take_told};
pub use broken_pages::BrokenPages;
pub use damage::Damage;
pub use find::{damage_beside, find_damage};
pub use judge::{JudgedNodes, judge_nodes};
pub use laws::{
    decoded_damage_decides, decoded_nothing_decides, first_damage_decides, nothing_broken_decides,
};
pub use whole::Whole;
