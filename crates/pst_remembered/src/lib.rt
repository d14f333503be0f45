//! What a check of a store's messaging remembers of the nodes that it went through, so that a part that several of them share is
//! gone through once ([MS-PST] 2.2.2.8.3.3: data and lists of subnodes are blocks, which any node may name).
//!
//! Begin with specs/Keys.antt: a node is known by the identifiers of the blocks of its data and of its subnodes. `NodeSet` is a set of
//! such nodes, `Faults` the faults of those that are broken, `KnownAsks` what sound contexts asked of their lists, `RowNames` what
//! the rows of tables name, `RowCounts` how many they are. Of each a clause says that what is remembered is true:
//!
//! ```text
//! let mut keys = NodeSet::new(alloc);
//! let taken = key_of(role_number(Role::Recipients), node);
//! if !keys.has(taken) {
//!     check_context(Role::Recipients, node, &mut maps)?;
//!     keys.insert(taken)?;
//! }
//! ```
//!
//! pst_msg checks messaging with it.
#![tactic(auto)]

mod asked;
mod broken;
mod faults;
mod keys;
mod list_index;
mod rising;
mod role;
mod row_counts;
mod row_names;

pub use asked::KnownAsks;
pub use broken::{
    has_broken_data, is_alike, is_of_data, part_of, part_of_data, part_of_list, retold,
};
pub use faults::{Faults, Part};
pub use keys::{Key, NodeSet, cleared, key_of, key_of_data, key_of_list};
pub use list_index::ListIndex;
pub use role::{Role, check_context, role_number};
pub use row_counts::RowCounts;
pub use row_names::{RowName, RowNames};
