//! What is reported of a store.

use pst_amap::BitOrder;
use pst_bytes::Span;
use pst_ndb::Work;
use pst_reach::Reach;

/// What is reported of a file that is a store.
#[derive(Debug, Drop)]
pub struct Report {
    /// How many pages both B-trees have.
    pub pages: u64,
    /// How many blocks there are.
    pub blocks: u64,
    /// How many nodes the node B-tree has.
    pub nodes: u64,
    /// How many of them are folders or search folders.
    pub folders: u64,
    /// How many of them are messages, also those that belong to a folder itself.
    pub messages: u64,
    /// Which bit of a byte of the allocation maps comes first.
    pub order: BitOrder,
    /// The runs of units that the maps mark and nothing uses, in order.
    pub lost: Vec<Span>,
    /// The folders and search folders that the root folder reaches, by rows of hierarchy tables ([MS-PST] 2.4.4.4), their
    /// identifiers rising.
    pub reached: Vec<Reach>,
    /// Those that it does not reach, their identifiers rising. They are in the store, and break none of its rules, but no program
    /// that starts at the root folder comes to them.
    pub unreached: Vec<u32>,
    /// How much work the check was.
    pub work: Work,
}
