//! The check of a folder.

ghost use Rattle.std.specs.Prelude.{◌≡◌, Some, None, OnOk};
ghost use Rattle.pst_fault.specs.Each.{first_of};
ghost use Rattle.pst_fault.specs.First.{Tells};
ghost use Rattle.pst_ndb.specs.Roots.{Roots};
ghost use Rattle.pst_ndb.specs.Views.{table_of_node, table_of_ndb, nodes_of, roots_of};
ghost use Rattle.pst_tc.specs.Fault.{tc_fault};
ghost use Rattle.pst_tc.specs.Tc.{node_of_tc};
ghost use Rattle.pst_tc.specs.Values.{tc_rows};
ghost use Rattle.pst_tc.specs.View.{row_parts};
ghost use Rattle.pst_mail.specs.declared.nid.TheConstants.{FOLDER};
ghost use Rattle.pst_remembered.specs.declared.role.Role.TheVariants.{Listed};
ghost use Rattle.pst_msg.specs.Counts.{IsNode};
ghost use Rattle.pst_mail.specs.Fault.{listed_item_fault, items_fault, table_fault, folder_fault};
ghost use Rattle.pst_msg.specs.Growth.{FolderIn, Grows};
ghost use Rattle.pst_msg.specs.Known.{ContextIn, ListingsAreTrue, IsTrueOf};
ghost use Rattle.pst_mail.specs.Values.{listing_of};

use crate::context::once;
use crate::known::KnownParts;
use pst_fault::{Fault, Kind};
use pst_mail::{Items, listing_nid, may_list, named};
use pst_ndb::{Ndb, Node};
use pst_remembered::{NodeSet, Role, key_of_data, role_number};
use pst_tc::{Row, Tc, known_tc};

// A row of a folder's table.
#[tactic(auto, unfolding(pst_mail::specs::Fault::listed_item_fault))]
fn check_item(ndb: &Ndb, items: Items, bid: u64, row: Row) -> Result<(), Fault>
    ensures exact { let x = row_parts row.entry in
        Tells result (listed_item_fault (nodes_of ndb.now) items bid x) tt }
{
    let id = row.id();
    match ndb.node(id) {
        Some(_) => {
            if !may_list(items, id) {
                return Err(named(Kind::NodeKind, row.at(), bid, id));
            }
            Ok(())
        }
        None => Err(named(Kind::NodeMissing, row.at(), bid, id)),
    }
}

// All its rows.
fn check_items(ndb: &Ndb, items: Items, bid: u64, table: Tc) -> Result<(), Fault>
    ensures exact { let node = node_of_tc table.entry in
        let rows = tc_rows (table_of_node node) (roots_of node) in
        Tells result (first_of (listed_item_fault (nodes_of ndb.now) items bid) rows) tt }
{
    for row in table.rows() {
        check_item(ndb, items, bid, row)?;
    }
    Ok(())
}

// All rows of a table, unless they are remembered: by its data, whatever its list, since no row is named there.
fn check_rows(ndb: &Ndb, items: Items, table: Node, listings: &mut NodeSet) -> Result<(), Fault>
    requires table { table_of_node table ≡ table_of_ndb ndb.now }
    requires sound { tc_fault (table_of_node table) (roots_of table) ≡ None }
    requires listings { ListingsAreTrue (table_of_ndb ndb.now) (nodes_of ndb.now) listings.old }
    ensures listings { ListingsAreTrue (table_of_ndb ndb.now) (nodes_of ndb.now) listings.new }
    ensures exact { let r = roots_of table.entry in
        let rows = tc_rows (table_of_node table.entry) r in
        Tells result (first_of (listed_item_fault (nodes_of ndb.now) items r.bid_data) rows) tt }
{
    let taken = key_of_data(role_number(Role::Listed(items)), table);
    if listings.has(taken) {
        return Ok(());
    }
    let rows = known_tc(table);
    check_items(ndb, items, table.bid_data(), rows)?;
    listings.insert(taken)
}

// A table of a folder, where it is there.
#[tactic(auto, unfolding(pst_mail::specs::Fault::table_fault, pst_mail::specs::Fault::items_fault))]
fn check_table(
    ndb: &Ndb,
    items: Items,
    nid: u32,
    known: &mut KnownParts,
    listings: &mut NodeSet,
) -> Result<(), Fault>
    requires known { IsTrueOf (table_of_ndb ndb.now) known.old }
    requires listings { ListingsAreTrue (table_of_ndb ndb.now) (nodes_of ndb.now) listings.old }
    ensures known { IsTrueOf (table_of_ndb ndb.now) known.new }
    ensures listings { ListingsAreTrue (table_of_ndb ndb.now) (nodes_of ndb.now) listings.new }
    ensures grows { let N = nodes_of ndb.now in
        Grows (table_of_ndb ndb.now)
        (λ nodes. (nodes ≡ N) × ((r : Roots) × IsNode nodes FOLDER r × (r.top ≡ nid)))
        known.old known.new }
    ensures there { let N = nodes_of ndb.now in
        OnOk result ((s : Roots) → listing_of N items nid ≡ Some s →
        ContextIn known.new (Listed items) s) }
    ensures exact { let t = table_of_ndb ndb.now in
        Tells result (table_fault t (nodes_of ndb.now) items nid) tt }
{
    match ndb.node(listing_nid(nid, items)) {
        Some(table) => {
            once(known, Role::Listed(items), table)?;
            check_rows(ndb, items, known.index.lend(table), listings)
        }
        None => Ok(()),
    }
}

/// Checks a folder of a node database: its properties, then its three tables, each with its rows. What is found without fault
/// is remembered, and passed over where it is met again.
#[tactic(auto, unfolding(pst_mail::specs::Fault::folder_fault))]
pub(crate) fn check_folder(
    ndb: &Ndb,
    node: Node,
    known: &mut KnownParts,
    listings: &mut NodeSet,
) -> Result<(), Fault>
    requires table { table_of_node node ≡ table_of_ndb ndb.now }
    requires known { IsTrueOf (table_of_ndb ndb.now) known.old }
    requires listings { ListingsAreTrue (table_of_ndb ndb.now) (nodes_of ndb.now) listings.old }
    ensures known { IsTrueOf (table_of_ndb ndb.now) known.new }
    ensures listings { ListingsAreTrue (table_of_ndb ndb.now) (nodes_of ndb.now) listings.new }
    ensures grows { let N = nodes_of ndb.now in let r = roots_of node.entry in
        Grows (table_of_ndb ndb.now) (λ nodes. (nodes ≡ N) × IsNode nodes FOLDER r)
        known.old known.new }
    ensures there { OnOk result (FolderIn (nodes_of ndb.now) known.new (roots_of node.entry)) }
    ensures exact { let t = table_of_ndb ndb.now in
        Tells result (folder_fault t (nodes_of ndb.now) (roots_of node.entry)) tt }
{
    once(known, Role::Properties, node)?;
    check_table(ndb, Items::Subfolders, node.top(), known, listings)?;
    check_table(ndb, Items::Messages, node.top(), known, listings)?;
    check_table(ndb, Items::Associated, node.top(), known, listings)
}
