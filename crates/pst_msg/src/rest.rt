//! The rows of an attachment table that are left.

ghost use Rattle.std.specs.Option.{ForSome};
ghost use Rattle.std.specs.Prelude.{◌≡◌, ◌≤◌, None, length};
ghost use Rattle.pst_ndb.specs.Views.{table_of_node, roots_of};
ghost use Rattle.pst_tc.specs.Fault.{tc_fault};
ghost use Rattle.pst_tc.specs.Left.{tc_rows_left};
ghost use Rattle.pst_remembered.specs.RowNames.{row_names};

use pst_fault::Fault;
use pst_ndb::{Node, NodeIndexes};
use pst_remembered::{RowName, RowNames};
use pst_tc::{Row, Rows};

/// The rows of a table that are left, and how many they are at most, where that is known: so nothing is looked at behind the last one.
#[derive(Clone, Copy)]
pub(crate) struct CountedRows<'a> {
    rows: Rows<'a>,
    most: Option<u64>,
    ghost within: { ForSome most (λ n. length (tc_rows_left rows) ≤ n) },
}

/// The rows of a table from a number on, as what they name is kept by its data.
#[derive(Clone, Copy)]
pub(crate) struct NumberedRows<'a> {
    table: Node<'a>,
    next: usize,
    count: usize,
    ghost sound: { tc_fault (table_of_node table) (roots_of table) ≡ None },
    ghost all: { count ≡ length (row_names (table_of_node table) (roots_of table)) },
}

/// The rows of an attachment table that are left.
#[derive(Clone, Copy)]
pub(crate) enum Rest<'a> {
    /// Of a table whose data is one block, and which has no subnodes, or of one for which there is no room: they are gone through.
    Rows(CountedRows<'a>),
    /// Of another one, which many messages may have: they are told by their numbers, so the row index is gone through once.
    Numbered(NumberedRows<'a>),
}

impl<'a> CountedRows<'a> {
    ghost use Rattle.std.specs.Prelude.{◌≡◌, ◌≤◌, [], ◌∷◌, IfSome, IfNone, length};
    ghost use Rattle.pst_tc.specs.Left.{tc_rows_left, tc_left};
    ghost use Rattle.pst_tc.specs.View.{row_parts};
    ghost use Rattle.pst_msg.specs.Rest.{counted_left, counted_table};
    ghost use Rattle.pst_ndb.specs.Views.{table_of_node};
    ghost use Rattle.pst_tc.specs.Tc.{node_of_tc};

    /// These rows, which are so many at most, where that is known.
    pub(crate) fn of(rows: Rows<'a>, most: Option<u64>) -> CountedRows<'a>
        requires { IfSome most (λ n. length (tc_rows_left rows) ≤ n) }
        ensures left { counted_left result ≡ tc_rows_left rows.entry }
        ensures table { counted_table result ≡ table_of_node (node_of_tc (tc_left rows.entry)) }
    {
        CountedRows { rows, most }
    }

    // How many are left at most, where that is known; else they are looked at. No more than these are told.
    fn count(&self, most: u32) -> u32 {
        if let Some(known) = self.most {
            return known.min(u64::from(most)) as u32;
        }
        let mut rest = self.rows;
        for count in 0..most {
            if rest.next().is_none() {
                return count;
            }
        }
        most
    }

    // The next row.
    fn next(&mut self) -> Option<Row<'a>>
        ensures some { IfSome result (λ row.
            counted_left self.old ≡ row_parts row ∷ counted_left self.new) }
        ensures none { IfNone result
            ((counted_left self.old ≡ []) × (counted_left self.new ≡ [])) }
        ensures table { counted_table self.new ≡ counted_table self.old }
    {
        if self.most == Some(0) {
            return None;
        }
        let row = self.rows.next()?;
        if let Some(most) = self.most {
            self.most = Some(most - 1);
        }
        Some(row)
    }
}

impl<'a> NumberedRows<'a> {
    ghost use Rattle.std.specs.Prelude.{◌≡◌, None, IfOk, IfErr, IfSome, IfNone, length};
    ghost use Rattle.pst_fault.specs.Fault.{no_memory};
    ghost use Rattle.pst_ndb.specs.NodeIndexes.{AreNodeIndexes};
    ghost use Rattle.pst_ndb.specs.Views.{table_of_node, roots_of};
    ghost use Rattle.pst_tc.specs.Fault.{tc_fault};
    ghost use Rattle.pst_tc.specs.Values.{tc_rows};
    ghost use Rattle.pst_remembered.specs.RowNames.{AreRowNames, row_names};
    ghost use Rattle.pst_msg.specs.Rest.{IsNextRow, AreNoRows, numbered_left, numbered_table};

    /// All rows of a table that has no fault, and so many rows.
    pub(crate) fn of(table: Node<'a>, count: usize) -> NumberedRows<'a>
        requires sound { tc_fault (table_of_node table) (roots_of table) ≡ None }
        requires all { count ≡ length (row_names (table_of_node table) (roots_of table)) }
        ensures left { let t = table_of_node table.entry in
            numbered_left result ≡ tc_rows t (roots_of table.entry) }
        ensures table { numbered_table result ≡ table_of_node table.entry }
    {
        NumberedRows {
            table,
            next: 0,
            count,
        }
    }

    // How many are left.
    fn left(&self) -> usize {
        self.count.saturating_sub(self.next)
    }

    // What the next row names.
    fn next(&mut self, index: &NodeIndexes, names: &mut RowNames) -> Result<Option<RowName>, Fault>
        requires index { AreNodeIndexes (numbered_table self.old) index.now }
        requires names { AreRowNames (numbered_table self.old) names.old }
        ensures names { AreRowNames (numbered_table self.old) names.new }
        ensures some { IfOk result (λ o. IfSome o (λ name.
            IsNextRow (numbered_left self.old) name (numbered_left self.new))) }
        ensures none { IfOk result (λ o. IfNone o
            (AreNoRows (numbered_left self.old) (numbered_left self.new))) }
        ensures table { numbered_table self.new ≡ numbered_table self.old }
        ensures memory { IfErr result (λ f. f ≡ no_memory) }
    {
        if self.next >= self.count {
            return Ok(None);
        }
        let name = names.get(index.lend(self.table), self.next)?;
        self.next += 1;
        Ok(name)
    }
}

impl<'a> Rest<'a> {
    ghost use Rattle.std.specs.Prelude.{◌≡◌, IfOk, IfErr, IfSome, IfNone};
    ghost use Rattle.pst_fault.specs.Fault.{no_memory};
    ghost use Rattle.pst_ndb.specs.NodeIndexes.{AreNodeIndexes};
    ghost use Rattle.pst_remembered.specs.RowNames.{AreRowNames};
    ghost use Rattle.pst_msg.specs.Rest.{IsNextRow, AreNoRows, rows_of_table_left, table_of_rest};

    /// How many rows are left, where that is known; else they are looked at. No more than these are told.
    pub(crate) fn count(&self, most: u32) -> u32 {
        match self {
            Rest::Numbered(rows) => rows.left().min(most as usize) as u32,
            Rest::Rows(rows) => rows.count(most),
        }
    }

    /// What the next row names, of a table that is lent its indexes, should its rows have to be gone through once more; or memory is
    /// refused.
    #[tactic(auto, using(crate::proofs::RestLemmas::next_of_rows))]
    pub(crate) fn next(
        &mut self,
        index: &NodeIndexes,
        names: &mut RowNames,
    ) -> Result<Option<RowName>, Fault>
        requires index { AreNodeIndexes (table_of_rest self.old) index.now }
        requires names { AreRowNames (table_of_rest self.old) names.old }
        ensures names { AreRowNames (table_of_rest self.old) names.new }
        ensures some { IfOk result (λ o. IfSome o (λ name.
            IsNextRow (rows_of_table_left self.old) name (rows_of_table_left self.new))) }
        ensures none { IfOk result (λ o. IfNone o
            (AreNoRows (rows_of_table_left self.old) (rows_of_table_left self.new))) }
        ensures table { table_of_rest self.new ≡ table_of_rest self.old }
        ensures memory { IfErr result (λ f. f ≡ no_memory) }
    {
        match self {
            Rest::Numbered(rows) => rows.next(index, names),
            Rest::Rows(rows) => match rows.next() {
                Some(row) => Ok(Some(RowName {
                    id: row.id(),
                    at: row.at(),
                })),
                None => Ok(None),
            },
        }
    }
}
