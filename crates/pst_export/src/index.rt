//! An index of the subnodes of a message, by which its attachments are found.

ghost use Rattle.pst_ndb.specs.Views.{table_of_node};
ghost use Rattle.pst_verify.specs.pst_msg.View.{node_of_message};
ghost use Rattle.pst_ndb.specs.NodeIndexes.{AreNodeIndexes};

use pst_json::lend_message;
use pst_msg::Message;
use pst_ndb::{NodeIndexes, most_values};
use std::alloc::{AllocError, Global};

/// Turns to the list of a message, which asks it for its table of attachments, and then for as many of them as that may have rows:
/// 8 bytes of its data are one at least. Or memory is refused.
pub(crate) fn turn_to_attachments(
    alloc: Global,
    message: Message,
    index: &mut NodeIndexes,
) -> Result<(), AllocError>
    requires { AreNodeIndexes (table_of_node (node_of_message message)) index.old }
    ensures { AreNodeIndexes (table_of_node (node_of_message message.entry)) index.new }
{
    index.turn(alloc, message.node(), 1)?;
    let rows = match lend_message(index, message).attachment_table() {
        Some(table) => most_values(table.node()),
        None => 0,
    };
    index.turn(alloc, message.node(), rows)
}
