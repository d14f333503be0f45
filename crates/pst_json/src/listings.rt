//! Which folders list each message.

ghost use Rattle.std.specs.Prelude.{◌≡◌, ℕ, true, IfOk};
ghost use Rattle.pst_ndb.specs.Views.{table_of_node, roots_of};
ghost use Rattle.pst_value_json.specs.pst_tc.Tc.{node_of_tc};
ghost use Rattle.pst_intact.specs.View.{table_of_intact, nodes_of_intact};
ghost use Rattle.pst_json.specs.Listings.{folders_listing, has_message};
ghost use Rattle.pst_json.specs.Messages.{listed_in};
ghost use Rattle.pst_json.specs.RowIds.{ids_asked};

use crate::row_ids::RowIds;
use pst_intact::{Intact, IntactFolder};
use pst_ndb::NodeIndexes;
use pst_page::PageKind;
use pst_props::{lend_tc, new_indexes};
use pst_value_json::{Tc, tc_ids_rise, tc_is_of_keys};
use std::alloc::{AllocError, Global};
use std::collections::BTreeMap;

/// Which folders list each message that is there: they are noted folder by folder.
#[derive(Drop)]
pub(crate) struct Listings {
    alloc: Global,
    // By the identifier of a message, those of the folders that list it, rising.
    folders: BTreeMap<u32, Vec<u32>>,
}

// The messages that are there among those that the rows of a table name.
fn messages_in(alloc: Global, intact: &Intact, table: Tc) -> Result<Vec<u32>, AllocError>
    ensures { let node = node_of_tc table.entry in
        let asked = has_message (nodes_of_intact intact.now) in
        IfOk result (λ nids. nids.items ≡ ids_asked asked (table_of_node node) (roots_of node)) }
{
    let mut messages = Vec::new(alloc);
    for row in table.rows() {
        if intact.message(row.id()).is_some() {
            messages.push(row.id())?;
        }
    }
    Ok(messages)
}

impl Listings {
    ghost use Rattle.std.specs.Prelude.{◌≡◌, ◌++◌, ℕ, [], true, None, OnOk, nat_eq};
    ghost use Rattle.std.specs.List.{list_any};
    ghost use Rattle.pst_ndb.specs.NodeTable.{table_of_nodes, entries_of_nodes};
    ghost use Rattle.pst_ndb.specs.Views.{table_of_node, roots_of};
    ghost use Rattle.pst_value_json.specs.pst_tc.Tc.{node_of_tc};
    ghost use Rattle.pst_value_json.specs.pst_tc.Values.{tc_rows};
    ghost use Rattle.pst_intact.specs.View.{intact_beside, intact_roots};
    ghost use Rattle.pst_btree.specs.Order.{Rises};
    ghost use Rattle.pst_ndb.specs.NodeIndexes.{AreNodeIndexes};
    ghost use Rattle.pst_intact.specs.View.{nodes_of_intact};
    ghost use Rattle.pst_json.specs.Listings.{folders_listing, if_listed, has_message};
    ghost use Rattle.pst_json.specs.Messages.{lists, names};
    ghost use Rattle.pst_json.specs.RowIds.{AreRowIdsTrue};

    // Nothing is noted.
    fn new(alloc: Global) -> Listings
        ensures { (nid : ℕ) → folders_listing result nid ≡ [] }
    {
        Listings {
            alloc,
            folders: BTreeMap::new(alloc),
        }
    }

    // A folder lists this message, too.
    fn note(&mut self, message: u32, folder: u32) -> Result<(), AllocError>
        ensures { OnOk result ((nid : ℕ) → folders_listing self.new nid
            ≡ folders_listing self.old nid ++ if_listed (nat_eq nid message) folder) }
    {
        let folders = self.folders.entry(message)?.or_insert(Vec::new(self.alloc));
        folders.push(folder)?;
        Ok(())
    }

    // A folder with this table lists each message that a row names: no two rows name the same.
    #[tactic(auto, using(crate::proofs::ListingLemmas::row_noted, crate::proofs::ListingLemmas::row_rises_on, crate::proofs::ListingLemmas::rows_noted))]
    fn note_rows(&mut self, table: Tc, folder: u32) -> Result<(), AllocError>
        ensures { let node = node_of_tc table.entry in
            let rows = tc_rows (table_of_node node) (roots_of node) in
            OnOk result ((nid : ℕ) → folders_listing self.new nid
            ≡ folders_listing self.old nid ++ if_listed (list_any (names nid) rows) folder) }
    {
        table.is_sound();
        tc_ids_rise();
        for row in table.rows() {
            self.note(row.id(), folder)?;
        }
        Ok(())
    }

    // A folder lists each of these messages: their identifiers rise.
    fn note_all(&mut self, messages: &[u32], folder: u32) -> Result<(), AllocError>
        requires { Rises 0 None messages.now }
        ensures { OnOk result ((nid : ℕ) → folders_listing self.new nid
            ≡ folders_listing self.old nid ++ if_listed (list_any (nat_eq nid) messages.now) folder) }
    {
        for message in messages {
            self.note(*message, folder)?;
        }
        Ok(())
    }

    // A folder with this table lists each message that is there and that a row names. What one table after another has is kept by
    // its data where a second folder has it, so that no more is gone through than the text has names of folders. The index turns to it.
    #[tactic(auto, using(crate::proofs::ListingLemmas::ids_rise, crate::proofs::ListingLemmas::named_there, crate::proofs::RowIdsLemmas::are_ids))]
    fn note_table(
        &mut self,
        table: Tc,
        folder: u32,
        intact: &Intact,
        rows: &mut RowIds,
        index: &mut NodeIndexes,
    ) -> Result<(), AllocError>
        requires index { AreNodeIndexes (table_of_node (node_of_tc table)) index.old }
        requires rows { AreRowIdsTrue (has_message (nodes_of_intact intact.now))
            (table_of_node (node_of_tc table)) rows.old }
        ensures index { AreNodeIndexes (table_of_node (node_of_tc table.entry)) index.new }
        ensures rows { AreRowIdsTrue (has_message (nodes_of_intact intact.now))
            (table_of_node (node_of_tc table.entry)) rows.new }
        ensures noted { let node = node_of_tc table.entry in
            let rows = tc_rows (table_of_node node) (roots_of node) in
            OnOk result ((nid : ℕ) → has_message (nodes_of_intact intact.now) nid ≡ true
            → folders_listing self.new nid
            ≡ folders_listing self.old nid ++ if_listed (list_any (names nid) rows) folder) }
    {
        table.is_sound();
        tc_ids_rise();
        tc_is_of_keys();
        let block = PageKind::Bbt.key_of(table.node().bid_data());
        if let Some(messages) = rows.get(block) {
            return self.note_all(messages, folder);
        }
        index.turn(self.alloc, table.node(), 1)?;
        let table = lend_tc(index, table);
        if !rows.meet(block)? {
            return self.note_rows(table, folder);
        }
        let messages = messages_in(self.alloc, intact, table)?;
        self.note_all(&messages, folder)?;
        rows.insert(block, messages)
    }

    // A folder lists what its contents table has.
    fn note_folder(
        &mut self,
        folder: IntactFolder,
        intact: &Intact,
        rows: &mut RowIds,
        index: &mut NodeIndexes,
    ) -> Result<(), AllocError>
        requires index { AreNodeIndexes (table_of_nodes (intact_beside folder)) index.old }
        requires rows { AreRowIdsTrue (has_message (nodes_of_intact intact.now))
            (table_of_nodes (intact_beside folder)) rows.old }
        ensures index { AreNodeIndexes (table_of_nodes (intact_beside folder.entry)) index.new }
        ensures rows { AreRowIdsTrue (has_message (nodes_of_intact intact.now))
            (table_of_nodes (intact_beside folder.entry)) rows.new }
        ensures noted { let all = intact_beside folder.entry in let t = table_of_nodes all in
            let r = intact_roots folder.entry in
            OnOk result ((nid : ℕ) → has_message (nodes_of_intact intact.now) nid ≡ true
            → folders_listing self.new nid
            ≡ folders_listing self.old nid ++ if_listed (lists t (entries_of_nodes all) nid r) r.top) }
    {
        folder.is_sound();
        match folder.contents() {
            Some(table) => self.note_table(table, folder.nid(), intact, rows, index),
            None => Ok(()),
        }
    }

    /// The folders that list a message, their identifiers rising.
    pub(crate) fn of(&self, message: u32) -> &[u32]
        ensures { result.now ≡ folders_listing self.now message }
    {
        match self.folders.get(&message) {
            Some(folders) => folders,
            None => &[],
        }
    }
}

/// Which folders list each message that is there, among intact nodes. A contents table is gone through for the first two folders
/// that have it; for each further one only the messages are that are there.
#[tactic(auto, unfolding(crate::specs::Messages::listed_in), using(crate::proofs::ListingLemmas::folder_noted, crate::proofs::ListingLemmas::folders_noted))]
pub(crate) fn listings_of(alloc: Global, intact: &Intact) -> Result<Listings, AllocError>
    ensures { let i = intact.now in
        IfOk result (λ l. (nid : ℕ) → has_message (nodes_of_intact i) nid ≡ true
        → folders_listing l nid ≡ listed_in (table_of_intact i) (nodes_of_intact i) nid) }
{
    let mut listings = Listings::new(alloc);
    let mut rows = RowIds::new(alloc);
    let mut index = new_indexes(alloc);
    for folder in intact.folders() {
        listings.note_folder(folder, intact, &mut rows, &mut index)?;
    }
    Ok(listings)
}
