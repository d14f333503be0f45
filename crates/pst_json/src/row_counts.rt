//! How many rows tables have, and how many attachments and recipients messages: what nodes share is gone through once.

ghost use Rattle.std.specs.Prelude.{◌≡◌, IfOk, length};
ghost use Rattle.pst_block.specs.Table.{Table};
ghost use Rattle.pst_ndb.specs.Roots.{subnode_of};
ghost use Rattle.pst_ndb.specs.Views.{table_of_node, roots_of};
ghost use Rattle.pst_value_json.specs.pst_tc.Tc.{node_of_tc};
ghost use Rattle.pst_value_json.specs.pst_tc.Values.{tc_rows};
ghost use Rattle.pst_verify.specs.pst_msg.Shown.{attachment_rows};
ghost use Rattle.pst_verify.specs.pst_msg.View.{node_of_message, message_roots};
ghost use Rattle.pst_json.specs.Folders.{row_total};
ghost use Rattle.pst_props.specs.Node.{recipient_nid};
ghost use Rattle.pst_msg.specs.RowCounts.{IsCountOf};
ghost use Rattle.pst_json.specs.RowCounts.{AreCountsTrue, IsHeld, IsHeldBy};

use pst_datatree::is_internal;
use pst_ndb::{Node, NodeIndexes};
use pst_page::PageKind;
use pst_props::lend_tc;
use pst_value_json::{Tc, tc_is_of_keys};
use pst_verify::Message;
use std::alloc::{AllocError, Global};
use std::collections::BTreeMap;

/// How many attachments and recipients a message has.
#[derive(Clone, Copy)]
pub(crate) struct Held {
    pub(crate) attachments: u64,
    pub(crate) recipients: u64,
}

// The rows of a table whose data has no more bytes, in one block, are gone through again in less time than it takes to remember them.
const SMALL: u64 = 2048;

/// Whether what the table of a node has is not worth remembering.
pub(crate) fn is_small(node: Node) -> bool {
    !is_internal(node.bid_data()) && node.spans().size() <= SMALL
}

// How many rows a table has, whose data is lent the index of its spans, and no index of a list, since none is asked; or memory is
// refused.
fn counted(alloc: Global, table: Tc) -> Result<u64, AllocError>
    ensures { let node = node_of_tc table.entry in
        IfOk result (λ n. n ≡ length (tc_rows (table_of_node node) (roots_of node))) }
{
    let mut index = NodeIndexes::new(alloc, u64::MAX);
    index.turn(alloc, table.node(), 0)?;
    Ok(lend_tc(&index, table).row_count())
}

/// How many rows tables have, as far as they were counted. A number is that of each table with the same data, and what is known of
/// a message is so of each that has the same list of subnodes.
#[derive(Drop)]
pub(crate) struct RowCounts {
    alloc: Global,
    // By the block of a list of subnodes, with bit 0 of its identifier cleared.
    lists: BTreeMap<u64, Held>,
    // By the block of a table's data, likewise.
    tables: BTreeMap<u64, u64>,
}

impl RowCounts {
    /// Nothing yet. No memory is taken.
    #[tactic(auto, using(crate::proofs::RowCountLemmas::nothing_counted))]
    pub(crate) fn new(alloc: Global) -> RowCounts
        ensures { (t : Table) → AreCountsTrue t result }
    {
        RowCounts {
            alloc,
            lists: BTreeMap::new(alloc),
            tables: BTreeMap::new(alloc),
        }
    }

    // Tables with this data are known to have so many rows from now on; or memory is refused.
    fn put_table(&mut self, block: u64, count: u64) -> Result<(), AllocError>
        ensures { (t : Table) → IsCountOf t block count → AreCountsTrue t self.old
            → AreCountsTrue t self.new }
    {
        let _before = self.tables.insert(block, count)?;
        Ok(())
    }

    // Messages with this list are known to have so many attachments and recipients from now on; or memory is refused.
    fn put_list(&mut self, list: u64, held: Held) -> Result<(), AllocError>
        ensures { (t : Table) → IsHeldBy t list held → AreCountsTrue t self.old
            → AreCountsTrue t self.new }
    {
        let _before = self.lists.insert(list, held)?;
        Ok(())
    }

    /// How many rows a table has; or memory is refused.
    #[tactic(auto, using(crate::proofs::RowCountLemmas::table_known, crate::proofs::RowCountLemmas::is_count))]
    pub(crate) fn rows_in(&mut self, table: Tc) -> Result<u64, AllocError>
        requires { AreCountsTrue (table_of_node (node_of_tc table)) self.old }
        ensures known { AreCountsTrue (table_of_node (node_of_tc table.entry)) self.new }
        ensures count { let node = node_of_tc table.entry in
            IfOk result (λ n. n ≡ length (tc_rows (table_of_node node) (roots_of node))) }
    {
        let node = table.node();
        if is_small(node) {
            return Ok(table.row_count());
        }
        let block = PageKind::Bbt.key_of(node.bid_data());
        if let Some(count) = self.tables.get(&block).copied() {
            return Ok(count);
        }
        tc_is_of_keys();
        let count = counted(self.alloc, table)?;
        self.put_table(block, count)?;
        Ok(count)
    }

    // How many attachments a message has.
    fn attachments_of(&mut self, message: Message) -> Result<u64, AllocError>
        requires { AreCountsTrue (table_of_node (node_of_message message)) self.old }
        ensures known { AreCountsTrue (table_of_node (node_of_message message.entry)) self.new }
        ensures count { let t = table_of_node (node_of_message message.entry) in
            IfOk result (λ n. n ≡ length (attachment_rows t (message_roots message.entry))) }
    {
        match message.attachment_table() {
            Some(table) => self.rows_in(table),
            None => Ok(0),
        }
    }

    // How many recipients a message has.
    fn recipients_of(&mut self, message: Message) -> Result<u64, AllocError>
        requires { AreCountsTrue (table_of_node (node_of_message message)) self.old }
        ensures known { AreCountsTrue (table_of_node (node_of_message message.entry)) self.new }
        ensures count { let t = table_of_node (node_of_message message.entry) in
            IfOk result (λ n. n
            ≡ row_total t (subnode_of t (message_roots message.entry) recipient_nid)) }
    {
        match message.recipients() {
            Some(table) => self.rows_in(table),
            None => Ok(0),
        }
    }

    /// How many attachments and recipients a message has; or memory is refused.
    pub(crate) fn held_by(&mut self, message: Message) -> Result<Held, AllocError>
        requires { AreCountsTrue (table_of_node (node_of_message message)) self.old }
        ensures known { AreCountsTrue (table_of_node (node_of_message message.entry)) self.new }
        ensures held { let t = table_of_node (node_of_message message.entry) in
            IfOk result (IsHeld t (message_roots message.entry)) }
    {
        let list = PageKind::Bbt.key_of(message.node().bid_sub());
        if let Some(held) = self.lists.get(&list).copied() {
            return Ok(held);
        }
        tc_is_of_keys();
        let attachments = self.attachments_of(message)?;
        let recipients = self.recipients_of(message)?;
        let held = Held {
            attachments,
            recipients,
        };
        self.put_list(list, held)?;
        Ok(held)
    }
}
