//! All that is broken of a file.

use crate::broken::BrokenNode;
use crate::whole::Whole;
use pst_fault::Fault;

/// All that is broken of a file, part by part.
#[derive(Drop)]
pub struct Damage {
    /// The first fault of the header.
    pub header: Option<Fault>,
    /// The faults of the pages of the block B-tree, then of the node B-tree, in the order in which they are looked at.
    pub pages: Vec<Fault>,
    /// The faults of blocks, in the order of their entries.
    pub blocks: Vec<Fault>,
    /// The first fault of the allocation maps.
    pub maps: Option<Fault>,
    /// The broken nodes, their identifiers rising, each with its first fault.
    pub nodes: Vec<BrokenNode>,
    /// What is whole.
    pub whole: Whole,
}
