//! What the rows of tables name, by the data of the tables.

ghost use Rattle.std.specs.Prelude.{◌≡◌, None, IfOk, IfErr, IfSome, length, slice_get};
ghost use Rattle.pst_block.specs.Block.{bid_key};
ghost use Rattle.pst_block.specs.Table.{Table};
ghost use Rattle.pst_fault.specs.Fault.{no_memory};
ghost use Rattle.pst_ndb.specs.Views.{table_of_node, roots_of};
ghost use Rattle.pst_tc.specs.Fault.{tc_fault};
ghost use Rattle.pst_remembered.specs.RowNames.{AreRowNames, row_names};

use crate::keys::cleared;
use pst_datatree::is_internal;
use pst_fault::Fault;
use pst_ndb::Node;
use pst_tc::known_tc;
use std::alloc::{AllocError, Global};
use std::collections::{BTreeMap, BTreeSet};

// So many rows are kept together, 16 bytes each.
const MOST: u64 = 400_000;

// So many rows of a table are kept in any case: 256 bytes for a block of the file.
const SHORT: u64 = 16;

/// What a row of a table names: an identifier, and where its record in the row index begins, in bytes from the start of the file
/// ([MS-PST] 2.3.4.3.1).
#[derive(Clone, Copy)]
pub struct RowName {
    /// Its identifier (dwRowID).
    pub id: u32,
    /// Where its record begins.
    pub at: u64,
}

/// What the rows of tables name, by the data of the tables: of a table that several nodes have, each under a list of subnodes of its
/// own, the row index is counted and gone through once, with all leaves in it without rows. At most 400,000 rows are kept, and those of
/// tables of at most 16 rows: what is kept stays, and a table for which there is no room is left out for good.
#[derive(Drop)]
pub struct RowNames {
    alloc: Global,
    // By the block of a table's data, with bit 0 of its identifier cleared.
    tables: BTreeMap<u64, Vec<RowName>>,
    // The same of the tables that are left out.
    left_out: BTreeSet<u64>,
    // How many rows are kept.
    rows: u64,
}

// The block of a table's data, by which what its rows name is kept.
fn block_of(table: Node) -> u64
    ensures { result ≡ bid_key (roots_of table.entry).bid_data }
{
    cleared(table.bid_data())
}

// What all rows of a table name.
#[tactic(auto, unfolding(crate::specs::RowNames::row_names))]
fn names_of(alloc: Global, table: Node) -> Result<Vec<RowName>, AllocError>
    requires { tc_fault (table_of_node table) (roots_of table) ≡ None }
    ensures { let t = table_of_node table.entry in
        IfOk result (λ v. v.items ≡ row_names t (roots_of table.entry)) }
{
    let mut names = Vec::new(alloc);
    for row in known_tc(table).rows() {
        names.push(RowName {
            id: row.id(),
            at: row.at(),
        })?;
    }
    Ok(names)
}

impl RowNames {
    /// None yet. No memory is taken.
    #[tactic(auto, using(crate::proofs::RowNameLemmas::nothing_named))]
    pub fn new(alloc: Global) -> RowNames
        ensures { (t : Table) → AreRowNames t result }
    {
        RowNames {
            alloc,
            tables: BTreeMap::new(alloc),
            left_out: BTreeSet::new(alloc),
            rows: 0,
        }
    }

    // Whether there is room for so many rows of one more table.
    fn has_room(&self, rows: u64) -> bool {
        rows <= SHORT || self.rows.saturating_add(rows) <= MOST
    }

    // A table is left out from now on; or memory is refused.
    #[tactic(auto, using(crate::proofs::RowNameLemmas::same_tables))]
    fn leave_out(&mut self, table: Node) -> Result<(), AllocError>
        ensures { (t : Table) → AreRowNames t self.old → AreRowNames t self.new }
    {
        self.left_out.insert(block_of(table))?;
        Ok(())
    }

    // What the rows of a table name, where that is kept.
    #[tactic(auto, using(crate::proofs::RowNameLemmas::names_known))]
    fn kept(&self, table: Node) -> Option<&[RowName]>
        requires { AreRowNames (table_of_node table) self.now }
        ensures { let t = table_of_node table.entry in
            IfSome result (λ names. names.now ≡ row_names t (roots_of table.entry)) }
    {
        let names = self.tables.get(&block_of(table))?;
        Some(names)
    }

    // What the rows of a table name is kept from now on; or memory is refused.
    #[tactic(auto, using(crate::proofs::RowNameLemmas::same_tables, crate::proofs::RowNameLemmas::are_names))]
    fn insert(&mut self, table: Node, names: Vec<RowName>) -> Result<(), AllocError>
        requires names { names.items ≡ row_names (table_of_node table) (roots_of table) }
        requires known { AreRowNames (table_of_node table) self.old }
        ensures { AreRowNames (table_of_node table.entry) self.new }
    {
        self.rows = self.rows.saturating_add(names.len() as u64);
        let _before = self.tables.insert(block_of(table), names)?;
        Ok(())
    }

    /// How many rows a table has that has no fault, where its data lies in several blocks, or it has subnodes, one of which may have
    /// its rows; None of another one, whose rows are gone through in less time, and of one that is left out. They are counted, and then
    /// gone through, where it is asked about first, and no more behind that. NoMemory where memory is refused.
    pub fn count(&mut self, table: Node) -> Result<Option<usize>, Fault>
        requires sound { tc_fault (table_of_node table) (roots_of table) ≡ None }
        requires known { AreRowNames (table_of_node table) self.old }
        ensures known { AreRowNames (table_of_node table.entry) self.new }
        ensures count { let t = table_of_node table.entry in
            IfOk result (λ o. IfSome o (λ n. n ≡ length (row_names t (roots_of table.entry)))) }
        ensures memory { IfErr result (λ f. f ≡ no_memory) }
    {
        if !is_internal(table.bid_data()) && table.bid_sub() == 0 {
            return Ok(None);
        }
        if let Some(names) = self.kept(table) {
            return Ok(Some(names.len()));
        }
        if self.left_out.contains(&block_of(table)) {
            return Ok(None);
        }
        if !self.has_room(known_tc(table).row_count()) {
            self.leave_out(table)?;
            return Ok(None);
        }
        let names = names_of(self.alloc, table)?;
        let count = names.len();
        self.insert(table, names)?;
        Ok(Some(count))
    }

    /// What the row with a number names, of a table that has no fault; None behind the last one. Where it is not kept the rows are
    /// gone through, and it is kept from then on, where there is room. NoMemory where memory is refused.
    pub fn get(&mut self, table: Node, number: usize) -> Result<Option<RowName>, Fault>
        requires sound { tc_fault (table_of_node table) (roots_of table) ≡ None }
        requires known { AreRowNames (table_of_node table) self.old }
        ensures known { AreRowNames (table_of_node table.entry) self.new }
        ensures name { let names = row_names (table_of_node table.entry) (roots_of table.entry) in
            IfOk result (λ o. o ≡ slice_get names number) }
        ensures memory { IfErr result (λ f. f ≡ no_memory) }
    {
        if let Some(names) = self.kept(table) {
            return Ok(names.get(number).copied());
        }
        let names = names_of(self.alloc, table)?;
        let name = names.get(number).copied();
        if self.has_room(names.len() as u64) {
            self.insert(table, names)?;
        }
        Ok(name)
    }
}
