//! What remains of a damaged file up to its nodes: all that is broken of its header, of the pages of its two B-trees, of its
//! blocks and of its allocation maps, part by part; and the blocks and the nodes that are left.
//!
//! Begin with `find_remains`. Its `Remains` tell the faults, and give the blocks and the nodes that are left as pst_block and
//! pst_btree give those of a whole file:
//!
//! ```text
//! let remains = find_remains(alloc, image)?;
//! let blocks = remains.good_blocks();
//! let nodes = remains.node_list();
//! ```
//!
//! Of a file that is encoded `find_decoded_remains` gives the same, and decodes the blocks that are left.
#![tactic(auto)]

mod behind;
mod blocks;
mod decoded;
mod find;
mod found;
mod header;
mod judged;
mod laws;
mod pages;
mod remains;
mod trees;
mod walk_page;

pub use behind::page_before;
pub use decoded::{find_decoded, find_decoded_remains};
pub use find::find_remains;
pub use found::Found;
pub use laws::{decoded_is_the_twin, each_is_decoded_once, first_told_decides, untold_is_whole};
pub use pages::Broken;
pub use remains::Remains;
