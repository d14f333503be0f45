//! Rows of tables that nodes share: they are gone through twice, and then known by the table's data.

ghost use Rattle.std.specs.Prelude.{◌≡◌, ℕ, Bool, IfOk, IfSome};
ghost use Rattle.pst_block.specs.Table.{Table};
ghost use Rattle.pst_ndb.specs.Views.{table_of_node, roots_of};
ghost use Rattle.pst_value_json.specs.pst_tc.Tc.{node_of_tc};
ghost use Rattle.pst_json.specs.RowIds.{AreIdsOf, AreRowIdsTrue, all_asked, ids_asked};

use pst_value_json::Tc;
use std::alloc::{AllocError, Global};
use std::collections::{BTreeMap, BTreeSet};

/// The identifiers of the rows of a table.
pub(crate) fn row_ids(alloc: Global, table: &Tc) -> Result<Vec<u32>, AllocError>
    ensures { let node = node_of_tc table.now in
        IfOk result (λ nids. nids.items ≡ ids_asked all_asked (table_of_node node) (roots_of node)) }
{
    let mut nids = Vec::new(alloc);
    for row in table.rows() {
        nids.push(row.id())?;
    }
    Ok(nids)
}

/// Of tables that were met more than once, those of their rows' identifiers that somebody asks for; by the table's data.
#[derive(Drop)]
pub(crate) struct RowIds {
    // The blocks of the data of tables that were met, with bit 0 of their identifiers cleared.
    met: BTreeSet<u64>,
    // By such a block, the identifiers.
    tables: BTreeMap<u64, Vec<u32>>,
}

impl RowIds {
    /// Nothing yet. No memory is taken.
    #[tactic(auto, using(crate::proofs::RowIdsLemmas::nothing_kept))]
    pub(crate) fn new(alloc: Global) -> RowIds
        ensures { (asked : ℕ → Bool) (t : Table) → AreRowIdsTrue asked t result }
    {
        RowIds {
            met: BTreeSet::new(alloc),
            tables: BTreeMap::new(alloc),
        }
    }

    /// Whether a table with this data was met before; from now on it was.
    #[tactic(auto, unfolding(crate::specs::RowIds::AreRowIdsTrue))]
    pub(crate) fn meet(&mut self, block: u64) -> Result<bool, AllocError>
        ensures { (asked : ℕ → Bool) (t : Table) → AreRowIdsTrue asked t self.old
            → AreRowIdsTrue asked t self.new }
    {
        Ok(!self.met.insert(block)?)
    }

    /// Tables with this data are known to have these from now on; or memory is refused.
    pub(crate) fn insert(&mut self, block: u64, nids: Vec<u32>) -> Result<(), AllocError>
        ensures { (asked : ℕ → Bool) (t : Table) → AreIdsOf asked t block nids.items
            → AreRowIdsTrue asked t self.old → AreRowIdsTrue asked t self.new }
    {
        let _before = self.tables.insert(block, nids)?;
        Ok(())
    }

    /// Those of the tables with this data, where they are known.
    #[tactic(auto, using(crate::proofs::RowIdsLemmas::ids_known))]
    pub(crate) fn get(&self, block: u64) -> Option<&[u32]>
        ensures { IfSome result (λ nids. (asked : ℕ → Bool) (t : Table)
            → AreRowIdsTrue asked t self.now → AreIdsOf asked t block nids.now) }
    {
        match self.tables.get(&block) {
            Some(nids) => Some(nids),
            None => None,
        }
    }
}
