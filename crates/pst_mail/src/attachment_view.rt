//! An attachment, and what it has.

ghost use Rattle.std.specs.Prelude.{◌≡◌, None};
ghost use Rattle.pst_ndb.specs.Views.{table_of_node, roots_of};
ghost use Rattle.pst_mail.specs.Fault.{attachment_fault};

use crate::message_view::Message;
use crate::object::embedded;
use pst_ndb::{Node, NodeIndexes};
use pst_pc::{Pc, known_pc};

/// An attachment without fault ([MS-PST] 2.4.6): a subnode of a message.
#[derive(Clone, Copy)]
pub struct Attachment<'a> {
    node: Node<'a>,
    ghost sound: { attachment_fault (table_of_node node) (roots_of node) ≡ None },
}

impl<'a> Attachment<'a> {
    ghost use Rattle.std.specs.Prelude.{◌≡◌, None, IfSome, option_map};
    ghost use Rattle.pst_ndb.specs.NodeIndexes.{AreNodeIndexes};
    ghost use Rattle.pst_ndb.specs.Views.{image_of_node, table_of_node, nid_of, roots_of};
    ghost use Rattle.pst_pc.specs.View.{node_of_pc};
    ghost use Rattle.pst_mail.specs.Fault.{attachment_fault};
    ghost use Rattle.pst_mail.specs.Grammar.{IsAttachment};
    ghost use Rattle.pst_mail.specs.Shown.{object_shown};
    ghost use Rattle.pst_mail.specs.Values.{embedded_of};
    ghost use Rattle.pst_mail.specs.View.{node_of_attachment, node_of_message, message_shown};

    // The attachment of a node that is one.
    pub(crate) fn of(node: Node<'a>) -> Attachment<'a>
        requires { attachment_fault (table_of_node node) (roots_of node) ≡ None }
        ensures { node_of_attachment result ≡ node.entry }
    {
        Attachment { node }
    }

    /// What is known of every attachment: it has no first fault, so it is one by the grammar.
    #[tactic(auto, using(crate::proofs::ViewLemmas::is_attachment))]
    pub fn is_sound(&self)
        ensures sound { let node = node_of_attachment self.now in
            attachment_fault (table_of_node node) (roots_of node) ≡ None }
        ensures attachment { let node = node_of_attachment self.now in
            IsAttachment (table_of_node node) (roots_of node) }
    {}

    /// Its node, a subnode.
    pub fn node(&self) -> Node<'a>
        ensures { result ≡ node_of_attachment self.now }
    {
        self.node
    }

    /// The identifier of its node.
    pub fn nid(&self) -> u32
        ensures { result ≡ nid_of (node_of_attachment self.now) }
    {
        self.node.nid()
    }

    /// Its properties.
    #[tactic(auto, using(crate::proofs::ViewLemmas::attachment_properties))]
    pub fn pc(&self) -> Pc<'a>
        ensures { node_of_pc result ≡ node_of_attachment self.now }
    {
        known_pc(self.node)
    }

    /// The message that it embeds; None exactly where it embeds none.
    #[tactic(auto, using(crate::proofs::ViewLemmas::object_there, crate::proofs::ViewLemmas::object_sound))]
    pub fn embedded(&self) -> Option<Message<'a>>
        ensures shown { let node = node_of_attachment self.now in
            let t = table_of_node node in let r = roots_of node in
            option_map message_shown result ≡ option_map (object_shown t r) (embedded_of t r) }
        ensures table { IfSome result (λ m.
            table_of_node (node_of_message m) ≡ table_of_node (node_of_attachment self.now)) }
        ensures image { IfSome result (λ m.
            image_of_node (node_of_message m) ≡ image_of_node (node_of_attachment self.now)) }
    {
        let object = embedded(&self.pc())?;
        match self.node.sub(object.nid) {
            Some(sub) => Some(Message::of(sub)),
            None => unreachable!(),
        }
    }
    /// The same, found by indexes of lists and data, where they have those of the attachment.
    #[tactic(auto, using(crate::proofs::ViewLemmas::attachment_properties, crate::proofs::ViewLemmas::object_there, crate::proofs::ViewLemmas::object_sound))]
    pub fn embedded_by(&self, indexes: &NodeIndexes) -> Option<Message<'a>>
        requires { AreNodeIndexes (table_of_node (node_of_attachment self.now)) indexes.now }
        ensures shown { let node = node_of_attachment self.now in
            let t = table_of_node node in let r = roots_of node in
            option_map message_shown result ≡ option_map (object_shown t r) (embedded_of t r) }
        ensures table { IfSome result (λ m.
            table_of_node (node_of_message m) ≡ table_of_node (node_of_attachment self.now)) }
        ensures image { IfSome result (λ m.
            image_of_node (node_of_message m) ≡ image_of_node (node_of_attachment self.now)) }
    {
        let object = embedded(&known_pc(indexes.lend(self.node)))?;
        match indexes.subnode(self.node, object.nid) {
            Some(sub) => Some(Message::of(sub)),
            None => unreachable!(),
        }
    }
}
