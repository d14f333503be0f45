//! The two B-trees of a file ([MS-PST] 2.2.2.7.7): the block B-tree says where each block lies, the node B-tree which
//! blocks each node has. A tree is walked once, page by page, and refused with its first fault; then it can be looked
//! into without fault.
//!
//! Begin with `walk_blocks`, which gives the block B-tree and the list of its entries, and with `walk_node_tree`, which
//! gives the node B-tree (`walk_nodes` gives it with the list of its entries). Both claim the pages of their tree.
//! Look-ups in a tree take no memory:
//!
//! ```text
//! let header = read_header(image)?;
//! let mut claims = Claims::new(alloc, &header)?;
//! let (blocks, entries) = walk_blocks(alloc, image, &header, &mut claims)?;
//! let nodes = walk_node_tree(alloc, image, &header, &mut claims)?;
//! let block = blocks.find(4);
//! let node = nodes.find(0x122);
//! for node in nodes.nodes() { .. }
//! ```
#![tactic(auto)]

mod block_tree;
mod descend;
mod laws;
mod lists;
mod node_tree;
mod nodes;
mod order;
mod tree;
mod walk;
mod walk_page;
mod walks;

pub use block_tree::BlockTree;
pub use laws::{block_keys_rise, entries_are_maps, node_keys_rise, walk_decides};
pub use lists::{BlockList, NodeList};
pub use node_tree::NodeTree;
pub use nodes::Nodes;
pub use order::{bound_of, check_order};
pub use pst_page::{BlockEntry, NodeEntry};
pub use walks::{walk_blocks, walk_node_tree, walk_nodes};
