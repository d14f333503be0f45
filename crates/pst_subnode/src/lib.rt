//! Subnodes ([MS-PST] 2.2.2.8.3.3): the list of the subnodes of a node, and of the subnodes of each of them, checked
//! once and then looked up.
//!
//! Begin with `check_sub`, which answers how many lists nest, or the first fault of the subnodes of a node. A `Seen` of
//! pst_datatree and a `Heights` remember what was found without fault; whoever goes on behind a fault takes `check_sub_with`, which
//! remembers faults as well (`SubFaults`). In a list without fault `find_sub` finds a
//! subnode, and `subs` goes through all of them, and neither takes memory. A `SubIndex` is for many look-ups:
//!
//! ```text
//! let mut seen = Seen::new(alloc);
//! let mut heights = Heights::new(alloc);
//! let height = check_sub(alloc, &blocks, node.bid_sub, node.nid, &mut seen, &mut heights)?;
//! let sub = find_sub(&blocks, node.bid_sub, 0x671);
//! for sub in subs(&blocks, node.bid_sub) { .. }
//! ```
#![tactic(auto)]

mod apart;
mod body;
mod check;
mod check_list;
mod enter;
mod entries;
mod faults;
mod find;
mod frame;
mod guess;
mod heights;
mod index;
mod laws;
mod list_block;
mod numbers;
mod ranges;
mod rise;
mod scan;
mod stamps;
mod states;
mod steps;
mod sub;
mod walk;

pub use check::{LISTS, check_sub, check_sub_with};
pub use entries::Subs;
pub use faults::SubFaults;
pub use find::{find_sub, subs};
pub use heights::Heights;
pub use index::{SubIndex, find_sub_by, may_be_long};
pub use laws::{
    deeper_has_none, entries_are_lower, entries_have_none, found_has_none, found_nests_fewer,
    height_is_enough, height_tells, limit_says_nothing, no_height_no_entries, sub_decides,
    sub_is_one, subs_are_a_map, subs_are_of_key,
};
pub use sub::Sub;
