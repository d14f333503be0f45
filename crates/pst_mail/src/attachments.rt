//! The attachments of a message, one after another.

ghost use Rattle.std.specs.Prelude.{◌≡◌, None};
ghost use Rattle.pst_ndb.specs.Views.{table_of_node, roots_of};
ghost use Rattle.pst_mail.specs.Left.{rows_of_rest, NameAttachments};

use crate::attachment_view::Attachment;
use pst_ndb::{Node, NodeIndexes};
use pst_tc::Rows;

/// The attachments that are left, in the order of their rows: an `Attachment` each. No memory is taken.
#[derive(Clone, Copy)]
pub struct Attachments<'a> {
    node: Node<'a>,
    rest: Option<Rows<'a>>,
    ghost sound: { NameAttachments (table_of_node node) (roots_of node) (rows_of_rest rest) },
}

impl<'a> Iterator for Attachments<'a> {
    ghost use Rattle.std.specs.Iterator.{item_count};
    ghost use Rattle.pst_mail.specs.View.{attachments_left, TakesAttachment};

    type Item = Attachment<'a>;

    ghost next_gives = { TakesAttachment };

    ghost remaining = { item_count attachments_left };

    fn next(&mut self) -> Option<Attachment<'a>> {
        let Some(mut rest) = self.rest else {
            return None;
        };
        let row = rest.next()?;
        self.rest = Some(rest);
        match self.node.sub(row.id()) {
            Some(sub) => Some(Attachment::of(sub)),
            None => unreachable!(),
        }
    }
}

impl<'a> Attachments<'a> {
    ghost use Rattle.std.specs.Prelude.{◌≡◌, None, map};
    ghost use Rattle.pst_ndb.specs.Views.{table_of_node, roots_of};
    ghost use Rattle.pst_ndb.specs.NodeIndexes.{AreNodeIndexes};
    ghost use Rattle.pst_mail.specs.Left.{rows_of_rest, NameAttachments};
    ghost use Rattle.pst_mail.specs.Shown.{row_shown};
    ghost use Rattle.pst_mail.specs.View.{attachments_left, holder_left, TakesAttachment};

    // Those that these rows of a message name.
    pub(crate) fn of(node: Node<'a>, rest: Option<Rows<'a>>) -> Attachments<'a>
        requires { NameAttachments (table_of_node node) (roots_of node) (rows_of_rest rest) }
        ensures left { let t = table_of_node node.entry in let r = roots_of node.entry in
            attachments_left result ≡ map (row_shown t r) (rows_of_rest rest.entry) }
        ensures holder { holder_left result ≡ node.entry }
    {
        Attachments { node, rest }
    }
    /// The next one, found by the index of the message's list, where there is one among these.
    pub fn next_by(&mut self, indexes: &NodeIndexes) -> Option<Attachment<'a>>
        requires { AreNodeIndexes (table_of_node (holder_left self.old)) indexes.now }
        ensures steps { TakesAttachment self.old result self.new }
    {
        let Some(mut rest) = self.rest else {
            return None;
        };
        let row = rest.next()?;
        self.rest = Some(rest);
        match indexes.subnode(self.node, row.id()) {
            Some(sub) => Some(Attachment::of(sub)),
            None => unreachable!(),
        }
    }
}
