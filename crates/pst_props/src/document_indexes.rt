//! The indexes that the documents of one file keep.

use crate::lent::{lend_pc, new_indexes};
use pst_ndb::NodeIndexes;
use pst_value_json::Pc;
use pst_verify::{Attachment, Message};
use std::alloc::Global;

/// The indexes that the documents of one file keep: of the lists of subnodes and the data of messages and folders, of those of their
/// recipients, and of those of attachments. So documents that share a list or data make one index of it.
#[derive(Drop)]
pub struct DocumentIndexes {
    pub(crate) shown: NodeIndexes,
    pub(crate) recipients: NodeIndexes,
    pub(crate) attachments: NodeIndexes,
}

impl DocumentIndexes {
    ghost use Rattle.pst_block.specs.Table.{Table};
    ghost use Rattle.std.specs.Prelude.{◌≡◌};
    ghost use Rattle.pst_ndb.specs.Views.{roots_of, table_of_node};
    ghost use Rattle.pst_value_json.specs.pst_pc.View.{node_of_pc};
    ghost use Rattle.pst_verify.specs.pst_msg.View.{node_of_attachment, node_of_message};
    ghost use Rattle.pst_props.specs.DocumentIndexes.{AreDocumentIndexes};

    /// Nothing was shown yet. No memory is taken.
    pub fn new(alloc: Global) -> DocumentIndexes
        ensures { (t : Table) → AreDocumentIndexes t result }
    {
        DocumentIndexes {
            shown: new_indexes(alloc),
            recipients: new_indexes(alloc),
            attachments: new_indexes(alloc),
        }
    }

    /// The properties of a message, which are lent the indexes of its list and its data, where there are such.
    pub fn message_pc<'a>(&'a self, message: Message<'a>) -> Pc<'a>
        requires { AreDocumentIndexes (table_of_node (node_of_message message)) self.now }
        ensures roots { roots_of (node_of_pc result) ≡ roots_of (node_of_message message.entry) }
        ensures table { table_of_node (node_of_pc result)
            ≡ table_of_node (node_of_message message.entry) }
    {
        lend_pc(&self.shown, message.pc())
    }

    /// The properties of an attachment, likewise.
    pub fn attachment_pc<'a>(&'a self, attachment: Attachment<'a>) -> Pc<'a>
        requires { AreDocumentIndexes (table_of_node (node_of_attachment attachment)) self.now }
        ensures roots { roots_of (node_of_pc result)
            ≡ roots_of (node_of_attachment attachment.entry) }
        ensures table { table_of_node (node_of_pc result)
            ≡ table_of_node (node_of_attachment attachment.entry) }
    {
        lend_pc(&self.attachments, attachment.pc())
    }
}
