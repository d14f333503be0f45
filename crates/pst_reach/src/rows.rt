//! The rows of a hierarchy table, each of which names a folder, where that is among the nodes.

ghost use Rattle.std.specs.Prelude.{◌≡◌, ℕ, OnOk, true, is_some, [], ◌∷◌};
ghost use Rattle.std.specs.List.{filter};
ghost use Rattle.pst_ndb.specs.Views.{table_of_node, roots_of};
ghost use Rattle.pst_tc.specs.Tc.{node_of_tc};
ghost use Rattle.pst_tc.specs.Values.{tc_rows};
ghost use Rattle.pst_intact.specs.View.{nodes_of_intact};
ghost use Rattle.pst_reach.specs.Levels.{steps_named};
ghost use Rattle.pst_reach.specs.Reach.{folders_named, is_folder_among};
ghost use Rattle.pst_reach.specs.Search.{reach_so_far, Takes};

use crate::reached::Reach;
use pst_intact::Intact;
use pst_tc::Tc;
use std::alloc::AllocError;
use std::collections::{BTreeMap, BTreeSet};

// Whether a folder or search folder is among the nodes.
fn is_there(intact: &Intact, nid: u32) -> bool
    ensures { result ≡ is_folder_among (nodes_of_intact intact.now) nid }
{
    intact.folder(nid).is_some()
}

// One row: the folder that it names is found by it, unless that was found before, or is not among the nodes.
fn take_row(
    intact: &Intact,
    found: &mut BTreeMap<u32, Reach>,
    next: &mut BTreeSet<u32>,
    row: Reach,
) -> Result<(), AllocError>
    ensures takes { let nodes = nodes_of_intact intact.now in
        let named = filter (is_folder_among nodes) (row.nid ∷ []) in
        OnOk result (Takes row.depth (steps_named row.parent named) found.old next.old found.new
        next.new) }
    ensures keeps { (nid : ℕ) → is_some (reach_so_far found.old nid) ≡ true →
        is_some (reach_so_far found.new nid) ≡ true }
{
    if found.contains_key(&row.nid) {
        return Ok(());
    }
    if !is_there(intact, row.nid) {
        return Ok(());
    }
    let _none = found.insert(row.nid, row)?;
    let _new = next.insert(row.nid)?;
    Ok(())
}

/// All rows of the table of a folder, in order.
pub(crate) fn take_rows(
    intact: &Intact,
    found: &mut BTreeMap<u32, Reach>,
    next: &mut BTreeSet<u32>,
    depth: u32,
    parent: u32,
    table: Tc,
) -> Result<(), AllocError>
    ensures takes { let node = node_of_tc table.entry in
        let rows = tc_rows (table_of_node node) (roots_of node) in
        let ids = folders_named (nodes_of_intact intact.now) rows in
        OnOk result (Takes depth (steps_named parent ids) found.old next.old found.new next.new) }
    ensures keeps { (nid : ℕ) → is_some (reach_so_far found.old nid) ≡ true →
        is_some (reach_so_far found.new nid) ≡ true }
{
    for row in table.rows() {
        let nid = row.id();
        take_row(intact, found, next, Reach { nid, parent, depth })?;
    }
    Ok(())
}
