//! The node database of a file ([MS-PST] 2.2): one check of all that the header, the two B-trees, the blocks, the
//! allocation maps and the trees of each node's blocks have to be, and the nodes as views that cannot fail.
//!
//! Begin with `check_ndb`, which gives the node database of a file as an `Ndb`, with what its maps say; or its first
//! fault. An `Ndb` finds a node by its identifier, and goes through all of them. A `Node` lends its data, the file's
//! own bytes, and finds its subnodes. `read_nodes` reads no more than the header and the two B-trees:
//!
//! ```text
//! let checked = check_ndb(alloc, Image::new(bytes))?;
//! let root = checked.ndb.node(0x122);
//! for node in checked.ndb.nodes() {
//!     let data = node.bytes();
//!     ..
//! }
//! ```
#![tactic(auto)]

mod check;
mod check_nodes;
mod laws;
mod ndb;
mod node;
mod node_indexes;
mod node_table;
mod nodes;
mod source;
mod space;
mod span_index;
mod span_indexes;
mod sub_indexes;
mod trees;

pub use check::{Checked, Work, check_ndb};
pub use laws::{counts_agree, database_decides, listing_decides};
pub use ndb::Ndb;
pub use node::Node;
pub use node_indexes::{NodeIndexes, most_values};
pub use node_table::NodeTable;
pub use nodes::Nodes;
pub use pst_subnode::SubIndex;
pub use span_index::SpanIndex;
pub use span_indexes::SpanIndexes;
pub use sub_indexes::SubIndexes;
pub use trees::read_nodes;
