//! Folders row by row: first those that the root folder reaches, then the others.

ghost use Rattle.std.specs.Prelude.{◌≡◌, [], ◌∷◌, None, IfSome, MatchOption, map};
ghost use Rattle.std.specs.List.{filter};
ghost use Rattle.pst_btree.specs.Order.{Rises};
ghost use Rattle.pst_btree.specs.TreeProps.{Rises-prop};
ghost use Rattle.pst_ndb.specs.NodeTable.{table_of_nodes, entries_of_nodes};
ghost use Rattle.pst_ndb.specs.Roots.{Roots};
ghost use Rattle.pst_intact.specs.View.{table_of_intact, nodes_of_intact, folders_beside, intact_beside, intact_folders_left, intact_roots};
ghost use Rattle.pst_verify.specs.pst_reach.Levels.{reaches_of};
ghost use Rattle.pst_verify.specs.pst_reach.Path.{reach_nid};
ghost use Rattle.pst_json.specs.Folders.{is_shown};
ghost use Rattle.pst_ndb.specs.NodeIndexes.{AreNodeIndexes, AreNodeIndexes-prop};
ghost use Rattle.pst_json.specs.RowCounts.{AreCountsTrue, AreCountsTrue-prop};
ghost use Rattle.pst_json.specs.RowIds.{AreRowIdsTrue, AreRowIdsTrue-prop, all_asked};

use crate::folder::write_folder;
use crate::row_counts::RowCounts;
use crate::row_ids::RowIds;
use pst_intact::{Intact, IntactFolder, IntactFolders};
use pst_ndb::NodeIndexes;
use pst_props::new_indexes;
use pst_value_json::Pen;
use pst_verify::{Reach, find_reach};
use pst_whole::Lost;
use std::alloc::{AllocError, Global};

// Whether a folder is among those that are reached, or among the others.
fn is_wanted(reached: &[Reach], lone: bool, nid: u32) -> bool
    requires rise { Rises 0 None (map reach_nid reached.now) }
    ensures { (r : Roots) → r.top ≡ nid → result ≡ is_shown lone reached.now r }
{
    let found = find_reach(reached, nid);
    if lone {
        found.is_none()
    } else {
        found.is_some()
    }
}

// The next folder that the root folder reaches, or does not.
#[tactic(auto, using(crate::proofs::RowsLemmas::shown_here, crate::proofs::RowsLemmas::not_shown, crate::proofs::RowsLemmas::none_shown))]
fn next_of<'a>(
    rest: &mut IntactFolders<'a>,
    reached: &[Reach],
    lone: bool,
) -> Option<IntactFolder<'a>>
    requires rise { Rises 0 None (map reach_nid reached.now) }
    ensures takes { let test = is_shown lone reached.now in
        MatchOption result (filter test (intact_folders_left rest.old) ≡ [])
        (λ x. filter test (intact_folders_left rest.old)
        ≡ intact_roots x ∷ filter test (intact_folders_left rest.new)) }
    ensures beside { folders_beside rest.new ≡ folders_beside rest.old }
    ensures of { IfSome result (λ x. intact_beside x ≡ folders_beside rest.old) }
{
    while let Some(folder) = rest.next() {
        if is_wanted(reached, lone, folder.nid()) {
            return Some(folder);
        }
    }
    None
}

/// The folders that are left.
#[derive(Drop)]
pub(crate) struct FolderRows<'a> {
    intact: Intact<'a>,
    lost: Lost<'a>,
    reached: &'a [Reach],
    rest: IntactFolders<'a>,
    // Whether those that the root folder reaches are behind.
    lone: bool,
    // How many rows their tables have, as far as they were counted.
    counts: RowCounts,
    // The rows of tables that several folders have.
    rows: RowIds,
    // The indexes of the lists and the data that they ask.
    index: NodeIndexes,
    ghost table: { table_of_nodes (folders_beside rest) ≡ table_of_intact intact },
    ghost nodes: { entries_of_nodes (folders_beside rest) ≡ nodes_of_intact intact },
    ghost known: { AreCountsTrue (table_of_intact intact) counts } by { AreCountsTrue-prop
        (table_of_intact intact) counts },
    ghost listed: { AreRowIdsTrue all_asked (table_of_intact intact) rows } by { AreRowIdsTrue-prop
        all_asked (table_of_intact intact) rows },
    ghost indexed: { AreNodeIndexes (table_of_intact intact) index } by { AreNodeIndexes-prop
        (table_of_intact intact) index },
    ghost all: { reached.now ≡ reaches_of (table_of_intact intact) (nodes_of_intact intact) },
    ghost rise: { Rises 0 None (map reach_nid reached.now) } by { Rises-prop 0 None
        (map reach_nid reached.now) },
}

impl<'a> FolderRows<'a> {
    ghost use Rattle.std.specs.Prelude.{◌≡◌, [], ◌∷◌, None, IfSome, OnOk, MatchOption, map};
    ghost use Rattle.serde_json.specs.Data.{array};
    ghost use Rattle.serde_json.specs.View.{items_of};
    ghost use Rattle.pst_btree.specs.Order.{Rises};
    ghost use Rattle.pst_ndb.specs.NodeTable.{table_of_nodes, entries_of_nodes};
    ghost use Rattle.pst_intact.specs.View.{table_of_intact, nodes_of_intact, intact_beside, intact_roots};
    ghost use Rattle.pst_verify.specs.pst_reach.Levels.{reaches_of};
    ghost use Rattle.pst_verify.specs.pst_reach.Path.{reach_nid};
    ghost use Rattle.pst_whole.specs.View.{lost_in};
    ghost use Rattle.pst_json.specs.Folders.{folder_data};
    ghost use Rattle.pst_json.specs.FolderRows.{all_rows, folder_rows, intact_of, lost_of_rows, reached_of, folder_rows_left};

    /// All folders among intact nodes, of which the root folder reaches these.
    #[tactic(auto, using(crate::proofs::RowsLemmas::rows_of_all))]
    pub(crate) fn of(
        alloc: Global,
        intact: &Intact<'a>,
        lost: &Lost<'a>,
        reached: &'a [Reach],
    ) -> FolderRows<'a>
        requires reached { let t = table_of_intact intact.now in
            reached.now ≡ reaches_of t (nodes_of_intact intact.now) }
        requires rise { Rises 0 None (map reach_nid reached.now) }
        ensures { let t = table_of_intact intact.now in
            folder_rows result ≡ all_rows t (nodes_of_intact intact.now) (lost_in lost.now) }
    {
        FolderRows {
            intact: *intact,
            lost: *lost,
            reached,
            rest: intact.folders(),
            lone: false,
            counts: RowCounts::new(alloc),
            rows: RowIds::new(alloc),
            index: new_indexes(alloc),
        }
    }

    // The next folder.
    #[tactic(auto, using(crate::proofs::RowsLemmas::front_more, crate::proofs::RowsLemmas::front_none))]
    fn next_folder(&mut self) -> Option<IntactFolder<'a>>
        ensures intact { intact_of self.new ≡ intact_of self.old }
        ensures lost { lost_of_rows self.new ≡ lost_of_rows self.old }
        ensures reached { reached_of self.new ≡ reached_of self.old }
        ensures takes { MatchOption result (folder_rows_left self.old ≡ [])
            (λ x. folder_rows_left self.old ≡ intact_roots x ∷ folder_rows_left self.new) }
        ensures table { IfSome result (λ x.
            table_of_nodes (intact_beside x) ≡ table_of_intact (intact_of self.old)) }
        ensures nodes { IfSome result (λ x.
            entries_of_nodes (intact_beside x) ≡ nodes_of_intact (intact_of self.old)) }
    {
        if !self.lone {
            if let Some(folder) = next_of(&mut self.rest, self.reached, false) {
                return Some(folder);
            }
            self.rest = self.intact.folders();
            self.lone = true;
        }
        next_of(&mut self.rest, self.reached, true)
    }

    // Writes a folder of these, as an object.
    #[tactic(auto, using(crate::proofs::RowCountLemmas::counts_of, crate::proofs::RowIdsLemmas::ids_of_table, pst_ndb::proofs::NodeIndexesLemmas::last_of))]
    fn write<P: Pen>(
        &mut self,
        alloc: Global,
        folder: IntactFolder<'a>,
        pen: &mut P,
    ) -> Result<(), AllocError>
        requires table { table_of_nodes (intact_beside folder)
            ≡ table_of_intact (intact_of self.old) }
        requires nodes { entries_of_nodes (intact_beside folder)
            ≡ nodes_of_intact (intact_of self.old) }
        ensures rows { folder_rows self.new ≡ folder_rows self.old }
        ensures left { folder_rows_left self.new ≡ folder_rows_left self.old }
        ensures put { let intact = intact_of self.old in
            let shown = folder_data (table_of_intact intact) (nodes_of_intact intact)
            (lost_of_rows self.old) (reached_of self.old) (intact_roots folder.entry) in
            OnOk result (P.Puts pen.old pen.new shown) }
        ensures kept { (base : P) → P.Keeps base pen.old → P.Keeps base pen.new }
    {
        write_folder(
            alloc,
            folder,
            &self.lost,
            self.reached,
            &mut self.counts,
            &mut self.rows,
            &mut self.index,
            pen,
        )
    }

    /// Writes those that are left, as a list.
    pub(crate) fn write_all<P: Pen>(&mut self, alloc: Global, pen: &mut P) -> Result<(), AllocError>
        ensures put { OnOk result
            (P.Puts pen.old pen.new (array (items_of (folder_rows self.old)))) }
        ensures kept { (base : P) → P.Keeps base pen.old → P.Keeps base pen.new }
    {
        pen.open_list(alloc)?;
        let mut later = false;
        while let Some(folder) = self.next_folder() {
            pen.comma(later)?;
            self.write(alloc, folder, pen)?;
            pen.item(alloc)?;
            later = true;
        }
        pen.close_list(later)
    }
}
