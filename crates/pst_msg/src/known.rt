//! What is known of the parts of messages.

use crate::indexes::Indexes;
use pst_ndb::NodeIndexes;
use pst_pc::PageMaps;
use pst_remembered::{Faults, KnownAsks, NodeSet, RowCounts, RowNames};
use std::alloc::Global;

// Lists are asked for so many values of contexts, as 512 bytes may have, before one gets an index.
const OFTEN: u64 = 64;

/// The contexts, messages and attachments that have no fault; and the faults of contexts and of lists that have one.
#[derive(Drop)]
pub(crate) struct KnownParts {
    pub(crate) alloc: Global,
    /// The contexts, each with the number of its role.
    pub(crate) contexts: NodeSet,
    /// Whole messages and attachments, each with the number 0.
    pub(crate) messages: NodeSet,
    pub(crate) attachments: NodeSet,
    /// Lists of subnodes: what a message holds in one is without fault.
    pub(crate) lists: NodeSet,
    /// Indexes of the lists of subnodes that contexts ask, and of the spans of their data.
    pub(crate) index: NodeIndexes,
    /// Indexes of the lists of messages whose rows are being gone through.
    pub(crate) indexes: Indexes,
    /// The page maps of the data that contexts share.
    pub(crate) maps: PageMaps,
    /// What contexts asked of their lists of subnodes.
    pub(crate) asked: KnownAsks,
    /// What the rows of attachment tables name, of tables that messages may share.
    pub(crate) row_names: RowNames,
    /// How many rows those have for whose names there is no room.
    pub(crate) row_counts: RowCounts,
    /// The faults of contexts, each by the number of its role.
    pub(crate) broken: Faults,
    /// The faults of what messages hold in their lists of subnodes, by the list: those of contexts, and those that name what is
    /// missing there.
    pub(crate) broken_lists: Faults,
    /// How many contexts were checked, from the first on. It stays at its greatest value once it is there.
    pub(crate) count: u64,
}

impl KnownParts {
    ghost use Rattle.std.specs.Prelude.{◌≡◌, List};
    ghost use Rattle.pst_page.specs.declared.entry.NodeEntry.{NodeEntry};
    ghost use Rattle.pst_block.specs.Table.{Table};
    ghost use Rattle.pst_msg.specs.Growth.{AreNamed, AreContextsCounted};
    ghost use Rattle.pst_msg.specs.Known.{IsTrueOf};

    /// Nothing yet, where so many contexts were checked before.
    pub(crate) fn new(alloc: Global, count: u64) -> KnownParts
        ensures known { (t : Table) → IsTrueOf t result }
        ensures named { (t : Table) (nodes : List NodeEntry) → AreNamed t nodes result.contexts }
        ensures counted { AreContextsCounted count result }
        ensures count { result.count ≡ count }
    {
        KnownParts {
            alloc,
            contexts: NodeSet::new(alloc),
            messages: NodeSet::new(alloc),
            attachments: NodeSet::new(alloc),
            lists: NodeSet::new(alloc),
            index: NodeIndexes::new(alloc, OFTEN),
            indexes: Indexes::new(alloc),
            maps: PageMaps::new(alloc),
            asked: KnownAsks::new(alloc),
            row_names: RowNames::new(alloc),
            row_counts: RowCounts::new(alloc),
            broken: Faults::new(alloc),
            broken_lists: Faults::new(alloc),
            count,
        }
    }
}
