//! Folders, each as an object.

ghost use Rattle.std.specs.Prelude.{◌≡◌, None, IfOk, OnOk, map};
ghost use Rattle.pst_block.specs.Block.{bid_key};
ghost use Rattle.pst_btree.specs.Order.{Rises};
ghost use Rattle.pst_ndb.specs.NodeTable.{table_of_nodes, entries_of_nodes};
ghost use Rattle.pst_ndb.specs.Views.{table_of_node, roots_of, top_of};
ghost use Rattle.pst_value_json.specs.pst_tc.Tc.{node_of_tc};
ghost use Rattle.pst_value_json.specs.pst_tc.Values.{tc_rows};
ghost use Rattle.pst_verify.specs.pst_msg.Shown.{folder_table, rows_there};
ghost use Rattle.pst_intact.specs.View.{intact_beside, intact_roots, intact_node};
ghost use Rattle.pst_whole.specs.View.{lost_in};
ghost use Rattle.pst_verify.specs.pst_reach.Path.{reach_nid, path_in};
ghost use Rattle.pst_json.specs.Folders.{row_nid, row_total, path_data, count_data, nids_data, table_told, folder_data};
ghost use Rattle.pst_props.specs.Texts.{text_property};
ghost use Rattle.pst_ndb.specs.NodeIndexes.{AreNodeIndexes};
ghost use Rattle.pst_json.specs.RowCounts.{AreCountsTrue};
ghost use Rattle.pst_json.specs.RowIds.{AreRowIdsTrue, all_asked};
ghost use Rattle.pst_value_json.specs.pst_text.Parts.{list_data};

use crate::nid_lists::{write_nids, write_row_nids};
use crate::row_counts::{RowCounts, is_small};
use crate::row_ids::{RowIds, row_ids};
use pst_fault::Fault;
use pst_intact::IntactFolder;
use pst_msg::{FOLDER, Items, is_type, listing_nid};
use pst_ndb::NodeIndexes;
use pst_page::PageKind;
use pst_props::{NAME, lend_pc, lend_tc, write_text_property};
use pst_value_json::{Leaf, Pen, Tc, tc_is_of_keys, write_nothing};
use pst_verify::{Reach, path_from_root};
use pst_whole::Lost;
use std::alloc::{AllocError, Global};

// Writes the name of a folder; null where it has none. The index turns to the list of its subnodes.
fn write_name<P: Pen>(
    alloc: Global,
    folder: &IntactFolder,
    index: &mut NodeIndexes,
    pen: &mut P,
) -> Result<(), AllocError>
    requires { AreNodeIndexes (table_of_nodes (intact_beside folder.now)) index.old }
    ensures known { AreNodeIndexes (table_of_nodes (intact_beside folder.now)) index.new }
    ensures put { let t = table_of_nodes (intact_beside folder.now) in
        OnOk result (P.Puts pen.old pen.new (text_property t (intact_roots folder.now) NAME)) }
    ensures kept { (base : P) → P.Keeps base pen.old → P.Keeps base pen.new }
{
    folder.is_sound();
    let pc = folder.pc();
    index.turn(alloc, pc.node(), 1)?;
    write_text_property(alloc, &lend_pc(index, pc), NAME, pen)
}

// Writes the path of a folder, as a list, from the root folder down; null where that does not reach it.
fn write_path<P: Pen>(
    alloc: Global,
    reached: &[Reach],
    nid: u32,
    pen: &mut P,
) -> Result<(), AllocError>
    requires rise { Rises 0 None (map reach_nid reached.now) }
    ensures put { OnOk result (P.Puts pen.old pen.new (path_data (path_in reached.now nid))) }
    ensures kept { (base : P) → P.Keeps base pen.old → P.Keeps base pen.new }
{
    match path_from_root(alloc, reached, nid)? {
        Some(path) => write_nids(alloc, &path, pen),
        None => pen.leaf(alloc, &Leaf::Null),
    }
}

// How many rows a table of a folder has, 0 where it is not there; or memory is refused.
fn count_of(folder: &IntactFolder, items: Items, counts: &mut RowCounts) -> Result<u64, AllocError>
    requires { AreCountsTrue (table_of_nodes (intact_beside folder.now)) counts.old }
    ensures known { AreCountsTrue (table_of_nodes (intact_beside folder.now)) counts.new }
    ensures count { let nodes = intact_beside folder.now in
        let nid = top_of (intact_node folder.now) in
        IfOk result (λ n. n ≡ row_total (table_of_nodes nodes)
        (folder_table (entries_of_nodes nodes) items nid)) }
{
    match folder.table(items) {
        Some(table) => counts.rows_in(table),
        None => Ok(0),
    }
}

// What is told of a table of a folder.
fn told_of_table(lost: &Lost, items: Items, nid: u32) -> Option<Fault>
    ensures { result ≡ table_told (lost_in lost.now) items nid }
{
    if !is_type(FOLDER, nid) {
        return None;
    }
    lost.told(listing_nid(nid, items))
}

// Writes how many rows a table of a folder has, 0 where it is not there; null where something is told of it.
fn write_count<P: Pen>(
    alloc: Global,
    folder: &IntactFolder,
    lost: &Lost,
    items: Items,
    counts: &mut RowCounts,
    pen: &mut P,
) -> Result<(), AllocError>
    requires { AreCountsTrue (table_of_nodes (intact_beside folder.now)) counts.old }
    ensures known { AreCountsTrue (table_of_nodes (intact_beside folder.now)) counts.new }
    ensures put { let nodes = intact_beside folder.now in
        let nid = top_of (intact_node folder.now) in
        let shown = count_data (table_told (lost_in lost.now) items nid) (table_of_nodes nodes)
        (folder_table (entries_of_nodes nodes) items nid) in
        OnOk result (P.Puts pen.old pen.new shown) }
    ensures kept { (base : P) → P.Keeps base pen.old → P.Keeps base pen.new }
{
    match told_of_table(lost, items, folder.nid()) {
        Some(_) => pen.leaf(alloc, &Leaf::Null),
        None => pen.leaf(alloc, &Leaf::Natural(count_of(folder, items, counts)?)),
    }
}

// The rows of a table with this data are known from now on, where it is long and was met before.
fn note_rows(alloc: Global, table: &Tc, block: u64, rows: &mut RowIds) -> Result<(), AllocError>
    requires same { block ≡ bid_key (roots_of (node_of_tc table.now)).bid_data }
    requires known { AreRowIdsTrue all_asked (table_of_node (node_of_tc table.now)) rows.old }
    ensures { AreRowIdsTrue all_asked (table_of_node (node_of_tc table.now)) rows.new }
{
    if is_small(table.node()) {
        return Ok(());
    }
    if !rows.meet(block)? {
        return Ok(());
    }
    tc_is_of_keys();
    let nids = row_ids(alloc, table)?;
    rows.insert(block, nids)
}

// Writes the identifiers of the rows of a table, as a list. A long table that several folders have is gone through for the first two.
// The index turns to it.
#[tactic(auto, using(crate::proofs::RowIdsLemmas::ids_of_table))]
fn write_table_nids<P: Pen>(
    alloc: Global,
    table: Tc,
    rows: &mut RowIds,
    index: &mut NodeIndexes,
    pen: &mut P,
) -> Result<(), AllocError>
    requires index { AreNodeIndexes (table_of_node (node_of_tc table)) index.old }
    requires rows { AreRowIdsTrue all_asked (table_of_node (node_of_tc table)) rows.old }
    ensures index { AreNodeIndexes (table_of_node (node_of_tc table.entry)) index.new }
    ensures rows { AreRowIdsTrue all_asked (table_of_node (node_of_tc table.entry)) rows.new }
    ensures put { let node = node_of_tc table.entry in
        let shown = list_data row_nid (tc_rows (table_of_node node) (roots_of node)) in
        OnOk result (P.Puts pen.old pen.new shown) }
    ensures kept { (base : P) → P.Keeps base pen.old → P.Keeps base pen.new }
{
    let block = PageKind::Bbt.key_of(table.node().bid_data());
    if let Some(nids) = rows.get(block) {
        return write_nids(alloc, nids, pen);
    }
    index.turn(alloc, table.node(), 1)?;
    let table = lend_tc(index, table);
    note_rows(alloc, &table, block, rows)?;
    write_row_nids(alloc, &table, pen)
}

// Writes those of a table of a folder, of no rows where it is not there.
fn write_listed_nids<P: Pen>(
    alloc: Global,
    folder: &IntactFolder,
    items: Items,
    rows: &mut RowIds,
    index: &mut NodeIndexes,
    pen: &mut P,
) -> Result<(), AllocError>
    requires index { AreNodeIndexes (table_of_nodes (intact_beside folder.now)) index.old }
    requires rows { AreRowIdsTrue all_asked (table_of_nodes (intact_beside folder.now)) rows.old }
    ensures index { AreNodeIndexes (table_of_nodes (intact_beside folder.now)) index.new }
    ensures rows { AreRowIdsTrue all_asked (table_of_nodes (intact_beside folder.now)) rows.new }
    ensures put { let nodes = intact_beside folder.now in
        let nid = top_of (intact_node folder.now) in
        let table = folder_table (entries_of_nodes nodes) items nid in
        let shown = list_data row_nid (rows_there (table_of_nodes nodes) table) in
        OnOk result (P.Puts pen.old pen.new shown) }
    ensures kept { (base : P) → P.Keeps base pen.old → P.Keeps base pen.new }
{
    match folder.table(items) {
        Some(table) => write_table_nids(alloc, table, rows, index, pen),
        None => write_nothing(alloc, pen),
    }
}

// Writes them; null where something is told of the table.
fn write_told_nids<P: Pen>(
    alloc: Global,
    folder: &IntactFolder,
    lost: &Lost,
    items: Items,
    rows: &mut RowIds,
    index: &mut NodeIndexes,
    pen: &mut P,
) -> Result<(), AllocError>
    requires index { AreNodeIndexes (table_of_nodes (intact_beside folder.now)) index.old }
    requires rows { AreRowIdsTrue all_asked (table_of_nodes (intact_beside folder.now)) rows.old }
    ensures index { AreNodeIndexes (table_of_nodes (intact_beside folder.now)) index.new }
    ensures rows { AreRowIdsTrue all_asked (table_of_nodes (intact_beside folder.now)) rows.new }
    ensures put { let nodes = intact_beside folder.now in
        let nid = top_of (intact_node folder.now) in
        let shown = nids_data (table_told (lost_in lost.now) items nid) (table_of_nodes nodes)
        (folder_table (entries_of_nodes nodes) items nid) in
        OnOk result (P.Puts pen.old pen.new shown) }
    ensures kept { (base : P) → P.Keeps base pen.old → P.Keeps base pen.new }
{
    match told_of_table(lost, items, folder.nid()) {
        Some(_) => pen.leaf(alloc, &Leaf::Null),
        None => write_listed_nids(alloc, folder, items, rows, index, pen),
    }
}

/// Writes a folder, as an object.
#[tactic(auto, unfolding(crate::specs::Folders::folder_data))]
pub(crate) fn write_folder<P: Pen>(
    alloc: Global,
    folder: IntactFolder,
    lost: &Lost,
    reached: &[Reach],
    counts: &mut RowCounts,
    rows: &mut RowIds,
    index: &mut NodeIndexes,
    pen: &mut P,
) -> Result<(), AllocError>
    requires rise { Rises 0 None (map reach_nid reached.now) }
    requires known { AreCountsTrue (table_of_nodes (intact_beside folder)) counts.old }
    requires rows { AreRowIdsTrue all_asked (table_of_nodes (intact_beside folder)) rows.old }
    requires index { AreNodeIndexes (table_of_nodes (intact_beside folder)) index.old }
    ensures known { AreCountsTrue (table_of_nodes (intact_beside folder.entry)) counts.new }
    ensures rows { AreRowIdsTrue all_asked (table_of_nodes (intact_beside folder.entry)) rows.new }
    ensures index { AreNodeIndexes (table_of_nodes (intact_beside folder.entry)) index.new }
    ensures put { let nodes = intact_beside folder.entry in let t = table_of_nodes nodes in
        let shown = folder_data t (entries_of_nodes nodes) (lost_in lost.now) reached.now
        (intact_roots folder.entry) in
        OnOk result (P.Puts pen.old pen.new shown) }
    ensures kept { (base : P) → P.Keeps base pen.old → P.Keeps base pen.new }
{
    pen.first(alloc, "associated", b"{\"associated\":")?;
    write_count(alloc, &folder, lost, Items::Associated, counts, pen)?;
    pen.next(alloc, "messages", b",\"messages\":")?;
    write_count(alloc, &folder, lost, Items::Messages, counts, pen)?;
    pen.next(alloc, "name", b",\"name\":")?;
    write_name(alloc, &folder, index, pen)?;
    pen.next(alloc, "nid", b",\"nid\":")?;
    pen.leaf(alloc, &Leaf::Nid(Some(folder.nid())))?;
    pen.next(alloc, "path", b",\"path\":")?;
    write_path(alloc, reached, folder.nid(), pen)?;
    pen.next(alloc, "subfolders", b",\"subfolders\":")?;
    write_told_nids(alloc, &folder, lost, Items::Subfolders, rows, index, pen)?;
    pen.close(alloc)
}
