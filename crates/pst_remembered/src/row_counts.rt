//! How many rows tables have whose data lies in several blocks.

ghost use Rattle.std.specs.Prelude.{◌≡◌, None, IfOk, IfErr, IfSome, length};
ghost use Rattle.pst_block.specs.Table.{Table};
ghost use Rattle.pst_fault.specs.Fault.{no_memory};
ghost use Rattle.pst_ndb.specs.Views.{table_of_node, roots_of};
ghost use Rattle.pst_tc.specs.Fault.{tc_fault};
ghost use Rattle.pst_tc.specs.Values.{tc_rows};
ghost use Rattle.pst_remembered.specs.RowCounts.{AreRowCounts, IsCountOf};

use crate::keys::cleared;
use pst_datatree::is_internal;
use pst_fault::Fault;
use pst_ndb::Node;
use pst_tc::known_tc;
use std::alloc::{AllocError, Global};
use std::collections::BTreeMap;

/// How many rows tables have whose data lies in several blocks, as far as they were counted: behind the last row there may be many
/// leaves of the row index without rows, which are passed once, however many messages have the table.
#[derive(Drop)]
pub struct RowCounts {
    // By the block of a table's data, with bit 0 of its identifier cleared.
    tables: BTreeMap<u64, u64>,
}

impl RowCounts {
    /// None yet. No memory is taken.
    #[tactic(auto, using(crate::proofs::RowCountLemmas::nothing_counted))]
    pub fn new(alloc: Global) -> RowCounts
        ensures { (t : Table) → AreRowCounts t result }
    {
        RowCounts {
            tables: BTreeMap::new(alloc),
        }
    }

    // Tables with this data are known to have so many rows from now on; or memory is refused.
    fn insert(&mut self, block: u64, count: u64) -> Result<(), AllocError>
        ensures { (t : Table) → IsCountOf t block count → AreRowCounts t self.old
            → AreRowCounts t self.new }
    {
        let _before = self.tables.insert(block, count)?;
        Ok(())
    }

    /// How many rows a table has that has no fault, where its data lies in several blocks; None of another one, whose rows are gone
    /// through in less time. NoMemory where memory is refused.
    #[tactic(auto, using(crate::proofs::RowCountLemmas::table_known, crate::proofs::RowCountLemmas::is_count))]
    pub fn of(&mut self, table: Node) -> Result<Option<u64>, Fault>
        requires sound { tc_fault (table_of_node table) (roots_of table) ≡ None }
        requires known { AreRowCounts (table_of_node table) self.old }
        ensures known { AreRowCounts (table_of_node table.entry) self.new }
        ensures count { let t = table_of_node table.entry in
            IfOk result (λ o. IfSome o (λ n. n ≡ length (tc_rows t (roots_of table.entry)))) }
        ensures memory { IfErr result (λ f. f ≡ no_memory) }
    {
        if !is_internal(table.bid_data()) {
            return Ok(None);
        }
        let block = cleared(table.bid_data());
        if let Some(count) = self.tables.get(&block).copied() {
            return Ok(Some(count));
        }
        let count = known_tc(table).row_count();
        self.insert(block, count)?;
        Ok(Some(count))
    }
}
