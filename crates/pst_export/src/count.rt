//! How many messages and attachments an archive has, each counted once for each path that leads to it.

ghost use Rattle.std.specs.Prelude.{◌≡◌, ℕ, true, IfOk, length};
ghost use Rattle.pst_ndb.specs.Views.{table_of_node, nid_of, top_of};
ghost use Rattle.pst_intact.specs.View.{table_of_intact, nodes_of_intact};
ghost use Rattle.pst_verify.specs.pst_msg.Nid.{is_type as is_of_type};
ghost use Rattle.pst_verify.specs.pst_msg.Values.{is_message};
ghost use Rattle.pst_verify.specs.pst_msg.View.{node_of_message, message_roots};
ghost use Rattle.pst_ndb.specs.NodeIndexes.{AreNodeIndexes};
ghost use Rattle.pst_export.specs.Export.{CountsDown};
ghost use Rattle.pst_export.specs.Held.{held_in_folder};
ghost use Rattle.pst_export.specs.Store.{all_held, of_type};

use crate::walk::Walk;
use pst_json::{Intact, new_indexes};
use pst_msg::{Message, is_type};
use pst_ndb::NodeIndexes;
use std::alloc::{AllocError, Global};

// Counts a message and what it holds down from so many: how many are left, or None where there are more. No more of them are gone
// through. The index turns to their lists.
fn count_message(
    alloc: Global,
    name: &str,
    message: Message,
    most: u64,
    index: &mut NodeIndexes,
) -> Result<Option<u64>, AllocError>
    requires top { nid_of (node_of_message message) ≡ top_of (node_of_message message) }
    requires index { AreNodeIndexes (table_of_node (node_of_message message)) index.old }
    ensures index { AreNodeIndexes (table_of_node (node_of_message message.entry)) index.new }
    ensures counted { let t = table_of_node (node_of_message message.entry) in
        let held = held_in_folder t name.now (message_roots message.entry) in
        IfOk result (CountsDown most (length held)) }
{
    let mut left = most;
    let mut walk = Walk::of(alloc, name, message)?;
    while let Some(_item) = walk.next(index)? {
        if left == 0 {
            return Ok(None);
        }
        left -= 1;
    }
    Ok(Some(left))
}

/// Counts the messages of a type, and what they hold, down from so many: how many are left, or None where there are more.
pub(crate) fn count_down(
    alloc: Global,
    intact: &Intact,
    kind: u32,
    name: &str,
    most: u64,
) -> Result<Option<u64>, AllocError>
    requires { (nid : ℕ) → is_of_type kind nid ≡ true → is_message nid ≡ true }
    ensures { let i = intact.now in
        let held = all_held (table_of_intact i) name.now (of_type kind (nodes_of_intact i)) in
        IfOk result (CountsDown most (length held)) }
{
    let mut left = most;
    let mut index = new_indexes(alloc);
    for message in intact.messages() {
        if is_type(kind, message.nid()) {
            match count_message(alloc, name, message, left, &mut index)? {
                Some(rest) => left = rest,
                None => return Ok(None),
            }
        }
    }
    Ok(Some(left))
}
