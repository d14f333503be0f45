//! What messaging asks of a folder of a damaged file.

ghost use Rattle.std.specs.Prelude.{◌≡◌, None};
ghost use Rattle.pst_fault.specs.Each.{first_of};
ghost use Rattle.pst_fault.specs.First.{Tells};
ghost use Rattle.pst_ndb.specs.Fault.{node_fault};
ghost use Rattle.pst_ndb.specs.Roots.{entry_roots};
ghost use Rattle.pst_ndb.specs.Views.{table_of_node, roots_of};
ghost use Rattle.pst_tc.specs.Fault.{tc_fault};
ghost use Rattle.pst_tc.specs.Tc.{node_of_tc};
ghost use Rattle.pst_tc.specs.Values.{tc_rows};
ghost use Rattle.pst_tc.specs.View.{row_parts};
ghost use Rattle.pst_damage.specs.Folder.{row_damage, items_damage, table_damage, folder_damage};
ghost use Rattle.pst_damage.specs.Known.{IsKnownOf};
ghost use Rattle.pst_damage.specs.Left.{left_table, left_nodes, left_pages};
ghost use Rattle.pst_damage.specs.Listings.{AreListingsTrue, items_number};
ghost use Rattle.pst_damage.specs.Rows.{as_it_is, rows_part};
ghost use Rattle.pst_msg.specs.Checker.{IsCheckerOf};
ghost use Rattle.pst_msg.specs.Faults.{AreFaultsOf};

use crate::known::JudgedParts;
use crate::left::{Left, node_of};
use crate::listings::{Listings, number_of};
use pst_btree::NodeEntry;
use pst_datatree::is_internal;
use pst_fault::{Fault, Kind};
use pst_msg::{Checker, Faults, Items, Part, Tc, listing_nid, may_list, named};
use pst_ndb::Node;
use pst_tc::{Row, known_tc};

// A row of a folder's table: what lies behind a broken page is passed over.
#[tactic(auto, unfolding(crate::specs::Folder::row_damage, pst_mail::specs::Fault::listed_item_fault, pst_ndb::specs::Roots::node_in))]
fn check_row(left: &Left, items: Items, bid: u64, row: Row) -> Result<(), Fault>
    ensures exact { let x = row_parts row.entry in
        Tells result (row_damage (left_nodes left.now) (left_pages left.now) items bid x) tt }
{
    let id = row.id();
    match left.nodes.find(id) {
        Some(_) => {
            if !may_list(items, id) {
                return Err(named(Kind::NodeKind, row.at(), bid, id));
            }
            Ok(())
        }
        None => match left.pages.before(id) {
            Some(_) => Ok(()),
            None => Err(named(Kind::NodeMissing, row.at(), bid, id)),
        },
    }
}

// All its rows.
fn check_each(left: &Left, items: Items, bid: u64, table: Tc) -> Result<(), Fault>
    ensures exact { let node = node_of_tc table.entry in
        let rows = tc_rows (table_of_node node) (roots_of node) in
        Tells result (first_of (row_damage (left_nodes left.now) (left_pages left.now) items bid)
        rows) tt }
{
    for row in table.rows() {
        check_row(left, items, bid, row)?;
    }
    Ok(())
}

// A table of at most so many rows whose data has at most so many bytes, in one block, and which has no list of subnodes, is looked at
// wherever it is named; only another one is remembered. (Of few rows may be many leaves, which have none; and in a list the row
// matrix may have to be sought.)
const FEW: u64 = 16;

const SMALL: u64 = 2048;

// Whether it pays to remember the rows of a table.
fn is_worth(table: Node, rows: &Tc) -> bool {
    table.bid_sub() != 0
        || is_internal(table.bid_data())
        || table.spans().size() > SMALL
        || rows.row_count() > FEW
}

// All rows of a table, unless they are remembered: by its data, whatever its list, since no row is named there.
fn check_rows(left: &Left, items: Items, table: Node, listings: &mut Listings) -> Result<(), Fault>
    requires table { table_of_node table ≡ left_table left.now }
    requires sound { tc_fault (table_of_node table) (roots_of table) ≡ None }
    requires listings { let nodes = left_nodes left.now in
        AreListingsTrue (left_table left.now) nodes (left_pages left.now) listings.old }
    ensures listings { let nodes = left_nodes left.now in
        AreListingsTrue (left_table left.now) nodes (left_pages left.now) listings.new }
    ensures exact { let r = roots_of table.entry in
        let rows = tc_rows (table_of_node table.entry) r in
        Tells result (first_of (row_damage (left_nodes left.now) (left_pages left.now) items
        r.bid_data) rows) tt }
{
    if listings.has(items, table) {
        return Ok(());
    }
    let rows = known_tc(table);
    check_each(left, items, table.bid_data(), rows)?;
    if is_worth(table, &rows) {
        listings.put(items, table)?;
    }
    Ok(())
}

// The rows of a table that lists these, as a part: all that they name stands in its data.
fn rows_of(items: Items, table: Node) -> Part
    ensures content { result.0.0 ≡ (roots_of table.entry).bid_data }
    ensures items { result.1 ≡ items_number items }
{
    ((table.bid_data(), 0), number_of(items))
}

// All rows of a table, whose fault is remembered.
fn check_all(
    left: &Left,
    items: Items,
    table: Node,
    listings: &mut Listings,
    rows: &mut Faults,
) -> Result<(), Fault>
    requires table { table_of_node table ≡ left_table left.now }
    requires sound { tc_fault (table_of_node table) (roots_of table) ≡ None }
    requires listings { let nodes = left_nodes left.now in
        AreListingsTrue (left_table left.now) nodes (left_pages left.now) listings.old }
    requires rows { let t = left_table left.now in let nodes = left_nodes left.now in
        AreFaultsOf as_it_is (rows_part t nodes (left_pages left.now)) rows.old }
    ensures listings { let nodes = left_nodes left.now in
        AreListingsTrue (left_table left.now) nodes (left_pages left.now) listings.new }
    ensures rows { let t = left_table left.now in let nodes = left_nodes left.now in
        AreFaultsOf as_it_is (rows_part t nodes (left_pages left.now)) rows.new }
    ensures exact { let r = roots_of table.entry in
        let rows = tc_rows (table_of_node table.entry) r in
        Tells result (first_of (row_damage (left_nodes left.now) (left_pages left.now) items
        r.bid_data) rows) tt }
{
    let part = rows_of(items, table);
    if let Some(fault) = rows.get(part) {
        return Err(fault);
    }
    let answer = check_rows(left, items, table, listings);
    rows.keep(part, answer)
}

// All rows of a table, whose matrix is found by what its context was found by.
fn check_lent(
    left: &Left,
    items: Items,
    table: Node,
    contexts: &Checker,
    listings: &mut Listings,
    rows: &mut Faults,
) -> Result<(), Fault>
    requires table { table_of_node table ≡ left_table left.now }
    requires sound { tc_fault (table_of_node table) (roots_of table) ≡ None }
    requires contexts { IsCheckerOf (table_of_node table) contexts.now }
    requires listings { let nodes = left_nodes left.now in
        AreListingsTrue (left_table left.now) nodes (left_pages left.now) listings.old }
    requires rows { let t = left_table left.now in let nodes = left_nodes left.now in
        AreFaultsOf as_it_is (rows_part t nodes (left_pages left.now)) rows.old }
    ensures listings { let nodes = left_nodes left.now in
        AreListingsTrue (left_table left.now) nodes (left_pages left.now) listings.new }
    ensures rows { let t = left_table left.now in let nodes = left_nodes left.now in
        AreFaultsOf as_it_is (rows_part t nodes (left_pages left.now)) rows.new }
    ensures exact { let r = roots_of table.entry in
        let rows = tc_rows (table_of_node table.entry) r in
        Tells result (first_of (row_damage (left_nodes left.now) (left_pages left.now) items
        r.bid_data) rows) tt }
{
    check_all(left, items, contexts.lend(table), listings, rows)
}

// The table of an entry: its context, then its rows.
#[tactic(auto, unfolding(crate::specs::Folder::items_damage))]
fn check_items(
    left: &Left,
    items: Items,
    entry: NodeEntry,
    known: &mut JudgedParts,
) -> Result<(), Fault>
    requires sound { node_fault (left_table left.now) entry ≡ None }
    requires known { let nodes = left_nodes left.now in
        IsKnownOf (left_table left.now) nodes (left_pages left.now) known.old }
    ensures known { let nodes = left_nodes left.now in
        IsKnownOf (left_table left.now) nodes (left_pages left.now) known.new }
    ensures exact { let t = left_table left.now in
        Tells result (items_damage t (left_nodes left.now) (left_pages left.now) items
        (entry_roots entry)) tt }
{
    let list = [entry];
    let table = node_of(left.blocks, entry, &list);
    known.contexts.check_listing(items, table)?;
    check_lent(
        left,
        items,
        table,
        &known.contexts,
        &mut known.listings,
        &mut known.rows,
    )
}

// A table of a folder, where its node is sound.
#[tactic(auto, unfolding(crate::specs::Folder::table_damage, pst_ndb::specs::Roots::node_in), using(crate::proofs::SoundLemmas::found_none))]
fn check_table(left: &Left, items: Items, nid: u32, known: &mut JudgedParts) -> Result<(), Fault>
    requires known { let nodes = left_nodes left.now in
        IsKnownOf (left_table left.now) nodes (left_pages left.now) known.old }
    ensures known { let nodes = left_nodes left.now in
        IsKnownOf (left_table left.now) nodes (left_pages left.now) known.new }
    ensures exact { let nodes = left_nodes left.now in
        Tells result (table_damage (left_table left.now) nodes (left_pages left.now) items nid) tt }
{
    match left.sound(listing_nid(nid, items)) {
        Some(entry) => check_items(left, items, entry, known),
        None => Ok(()),
    }
}

/// A folder: its properties, then its three tables, each with its rows.
#[tactic(auto, unfolding(crate::specs::Folder::folder_damage))]
pub(crate) fn check_folder(left: &Left, node: Node, known: &mut JudgedParts) -> Result<(), Fault>
    requires table { table_of_node node ≡ left_table left.now }
    requires known { let nodes = left_nodes left.now in
        IsKnownOf (left_table left.now) nodes (left_pages left.now) known.old }
    ensures known { let nodes = left_nodes left.now in
        IsKnownOf (left_table left.now) nodes (left_pages left.now) known.new }
    ensures exact { let t = left_table left.now in
        Tells result (folder_damage t (left_nodes left.now) (left_pages left.now)
        (roots_of node.entry)) tt }
{
    known.contexts.check_properties(node)?;
    check_table(left, Items::Subfolders, node.top(), known)?;
    check_table(left, Items::Messages, node.top(), known)?;
    check_table(left, Items::Associated, node.top(), known)
}
