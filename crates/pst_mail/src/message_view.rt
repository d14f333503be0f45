//! A message, and what it has.

ghost use Rattle.std.specs.Prelude.{◌≡◌, None};
ghost use Rattle.pst_ndb.specs.Views.{table_of_node, roots_of};
ghost use Rattle.pst_mail.specs.Fault.{message_fault};

use crate::attachment_view::Attachment;
use crate::attachments::Attachments;
use crate::nid::{ATTACHMENTS, RECIPIENTS};
use pst_ndb::{Node, NodeIndexes, SubIndex};
use pst_pc::{Pc, known_pc};
use pst_tc::{Row, Rows, Tc, known_tc};

/// A message without fault ([MS-PST] 2.4.5): a node of the node B-tree, or one that an attachment embeds.
#[derive(Clone, Copy)]
pub struct Message<'a> {
    node: Node<'a>,
    ghost sound: { message_fault (table_of_node node) (roots_of node) ≡ None },
}

impl<'a> Message<'a> {
    ghost use Rattle.std.specs.Prelude.{◌≡◌, None, IfSome, option_map, map};
    ghost use Rattle.pst_btree.specs.Entries.{first_with};
    ghost use Rattle.pst_ndb.specs.NodeIndexes.{AreNodeIndexes};
    ghost use Rattle.pst_ndb.specs.Roots.{subnode_of};
    ghost use Rattle.pst_ndb.specs.Views.{image_of_node, table_of_node, nid_of, roots_of, IsIndexedBy};
    ghost use Rattle.pst_pc.specs.View.{node_of_pc};
    ghost use Rattle.pst_tc.specs.Tc.{node_of_tc};
    ghost use Rattle.pst_tc.specs.Values.{row_id_of};
    ghost use Rattle.pst_tc.specs.View.{row_parts};
    ghost use Rattle.pst_mail.specs.Fault.{message_fault};
    ghost use Rattle.pst_mail.specs.Grammar.{IsMessage};
    ghost use Rattle.pst_mail.specs.Left.{rows_of_rest};
    ghost use Rattle.pst_mail.specs.Shown.{attachment_rows, row_shown};
    ghost use Rattle.pst_mail.specs.View.{tc_roots, node_of_message, node_of_attachment, attachment_shown, attachments_left, holder_left};

    // The message of a node that is one.
    pub(crate) fn of(node: Node<'a>) -> Message<'a>
        requires { message_fault (table_of_node node) (roots_of node) ≡ None }
        ensures { node_of_message result ≡ node.entry }
    {
        Message { node }
    }

    /// What is known of every message: it has no first fault, so it is one by the grammar.
    #[tactic(auto, using(crate::proofs::ViewLemmas::is_message))]
    pub fn is_sound(&self)
        ensures sound { let node = node_of_message self.now in
            message_fault (table_of_node node) (roots_of node) ≡ None }
        ensures message { let node = node_of_message self.now in
            IsMessage (table_of_node node) (roots_of node) }
    {}

    /// Its node.
    pub fn node(&self) -> Node<'a>
        ensures { result ≡ node_of_message self.now }
    {
        self.node
    }

    /// The identifier of its node.
    pub fn nid(&self) -> u32
        ensures { result ≡ nid_of (node_of_message self.now) }
    {
        self.node.nid()
    }

    /// The same, whose node is lent an index of its subnodes: its tables, its attachments, and values in subnodes are found by it
    /// from then on, each of n in about log n steps, in whatever order their list has them.
    pub fn indexed(self, index: &'a SubIndex) -> Message<'a>
        requires { IsIndexedBy (node_of_message self) index.now }
        ensures nid { nid_of (node_of_message result) ≡ nid_of (node_of_message self.entry) }
        ensures roots { roots_of (node_of_message result)
            ≡ roots_of (node_of_message self.entry) }
        ensures image { image_of_node (node_of_message result)
            ≡ image_of_node (node_of_message self.entry) }
        ensures table { table_of_node (node_of_message result)
            ≡ table_of_node (node_of_message self.entry) }
    {
        Message::of(self.node.indexed(index))
    }

    /// Its properties.
    #[tactic(auto, using(crate::proofs::ViewLemmas::message_properties))]
    pub fn pc(&self) -> Pc<'a>
        ensures { node_of_pc result ≡ node_of_message self.now }
    {
        known_pc(self.node)
    }

    /// Its recipient table ([MS-PST] 2.4.5.3); None exactly where it has none.
    #[tactic(auto, using(crate::proofs::ViewLemmas::message_recipients))]
    pub fn recipients(&self) -> Option<Tc<'a>>
        ensures roots { let node = node_of_message self.now in
            option_map tc_roots result
            ≡ subnode_of (table_of_node node) (roots_of node) RECIPIENTS }
        ensures table { IfSome result (λ x.
            table_of_node (node_of_tc x) ≡ table_of_node (node_of_message self.now)) }
        ensures image { IfSome result (λ x.
            image_of_node (node_of_tc x) ≡ image_of_node (node_of_message self.now)) }
    {
        match self.node.sub(RECIPIENTS) {
            Some(table) => Some(known_tc(table)),
            None => None,
        }
    }

    /// Its attachment table ([MS-PST] 2.4.6.1); None exactly where it has none.
    #[tactic(auto, using(crate::proofs::ViewLemmas::message_attachments))]
    pub fn attachment_table(&self) -> Option<Tc<'a>>
        ensures roots { let node = node_of_message self.now in
            option_map tc_roots result
            ≡ subnode_of (table_of_node node) (roots_of node) ATTACHMENTS }
        ensures table { IfSome result (λ x.
            table_of_node (node_of_tc x) ≡ table_of_node (node_of_message self.now)) }
        ensures image { IfSome result (λ x.
            image_of_node (node_of_tc x) ≡ image_of_node (node_of_message self.now)) }
    {
        match self.node.sub(ATTACHMENTS) {
            Some(table) => Some(known_tc(table)),
            None => None,
        }
    }

    // The rows of its attachment table, where it has one.
    #[tactic(auto, using(crate::proofs::ViewLemmas::rows_are, crate::proofs::ViewLemmas::rows_none))]
    fn rows(&self) -> Option<Rows<'a>>
        ensures { let node = node_of_message self.now in
            rows_of_rest result ≡ attachment_rows (table_of_node node) (roots_of node) }
    {
        match self.attachment_table() {
            Some(table) => Some(table.rows()),
            None => None,
        }
    }

    // The row of its attachment table with an identifier.
    #[tactic(auto, using(crate::proofs::ViewLemmas::rows_are, crate::proofs::ViewLemmas::row_none))]
    fn row(&self, nid: u32) -> Option<Row<'a>>
        ensures { let node = node_of_message self.now in
            let rows = attachment_rows (table_of_node node) (roots_of node) in
            option_map row_parts result ≡ first_with row_id_of nid rows }
    {
        match self.attachment_table() {
            Some(table) => table.row(nid),
            None => None,
        }
    }

    /// Its attachments, in the order of the rows of its attachment table.
    #[tactic(auto, using(crate::proofs::ViewLemmas::rows_sound))]
    pub fn attachments(&self) -> Attachments<'a>
        ensures left { let node = node_of_message self.now in
            let t = table_of_node node in let r = roots_of node in
            attachments_left result ≡ map (row_shown t r) (attachment_rows t r) }
        ensures holder { holder_left result ≡ node_of_message self.now }
    {
        Attachments::of(self.node, self.rows())
    }

    /// Its attachment table, found by the index of its list, where there is one among these.
    #[tactic(auto, using(crate::proofs::ViewLemmas::message_attachments))]
    pub fn attachment_table_by(&self, indexes: &NodeIndexes) -> Option<Tc<'a>>
        requires { AreNodeIndexes (table_of_node (node_of_message self.now)) indexes.now }
        ensures roots { let node = node_of_message self.now in
            option_map tc_roots result
            ≡ subnode_of (table_of_node node) (roots_of node) ATTACHMENTS }
        ensures table { IfSome result (λ x.
            table_of_node (node_of_tc x) ≡ table_of_node (node_of_message self.now)) }
    {
        match indexes.subnode(self.node, ATTACHMENTS) {
            Some(table) => Some(known_tc(table)),
            None => None,
        }
    }

    // Its rows, where it has one.
    #[tactic(auto, using(crate::proofs::ViewLemmas::rows_are, crate::proofs::ViewLemmas::rows_none))]
    fn rows_by(&self, indexes: &NodeIndexes) -> Option<Rows<'a>>
        requires { AreNodeIndexes (table_of_node (node_of_message self.now)) indexes.now }
        ensures { let node = node_of_message self.now in
            rows_of_rest result ≡ attachment_rows (table_of_node node) (roots_of node) }
    {
        match self.attachment_table_by(indexes) {
            Some(table) => Some(table.rows()),
            None => None,
        }
    }

    /// Its attachments, whose table is found by these indexes; `Attachments::next_by` finds them, too.
    #[tactic(auto, using(crate::proofs::ViewLemmas::rows_sound))]
    pub fn attachments_by(&self, indexes: &NodeIndexes) -> Attachments<'a>
        requires { AreNodeIndexes (table_of_node (node_of_message self.now)) indexes.now }
        ensures left { let node = node_of_message self.now in
            let t = table_of_node node in let r = roots_of node in
            attachments_left result ≡ map (row_shown t r) (attachment_rows t r) }
        ensures holder { holder_left result ≡ node_of_message self.now }
    {
        Attachments::of(self.node, self.rows_by(indexes))
    }

    /// The attachment that the row with this identifier of its attachment table names; None exactly where no row has it.
    #[tactic(auto, using(crate::proofs::ViewLemmas::found_there, crate::proofs::ViewLemmas::found_attachment))]
    pub fn attachment(&self, nid: u32) -> Option<Attachment<'a>>
        ensures shown { let node = node_of_message self.now in
            let t = table_of_node node in let r = roots_of node in
            let row = first_with row_id_of nid (attachment_rows t r) in
            option_map attachment_shown result ≡ option_map (row_shown t r) row }
        ensures table { IfSome result (λ a.
            table_of_node (node_of_attachment a) ≡ table_of_node (node_of_message self.now)) }
        ensures image { IfSome result (λ a.
            image_of_node (node_of_attachment a) ≡ image_of_node (node_of_message self.now)) }
    {
        let row = self.row(nid)?;
        match self.node.sub(row.id()) {
            Some(sub) => Some(Attachment::of(sub)),
            None => unreachable!(),
        }
    }
}
