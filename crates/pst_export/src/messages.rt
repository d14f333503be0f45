//! The files of messages.

ghost use Rattle.std.specs.Prelude.{◌≡◌, ℕ, true, OnOk};
ghost use Rattle.pst_ndb.specs.Views.{table_of_node, nid_of, top_of};
ghost use Rattle.pst_intact.specs.View.{table_of_intact, nodes_of_intact};
ghost use Rattle.pst_json.specs.DocumentIndexes.{AreDocumentIndexes};
ghost use Rattle.pst_ndb.specs.NodeIndexes.{AreNodeIndexes};
ghost use Rattle.pst_value_json.specs.Props.{names_told};
ghost use Rattle.pst_verify.specs.pst_msg.Nid.{is_type as is_of_type};
ghost use Rattle.pst_verify.specs.pst_msg.Values.{is_message};
ghost use Rattle.pst_verify.specs.pst_msg.View.{node_of_message, message_roots};
ghost use Rattle.pst_export.specs.Store.{message_files, messages_files, of_type};
ghost use Rattle.pst_export.specs.Time.{time_of};
ghost use Rattle.pst_export.specs.Written.{AddsFiles, AddsFront};

use crate::fault::ExportFault;
use crate::held::write_item;
use crate::time::received;
use crate::walk::Walk;
use pst_json::{DocumentIndexes, Intact, lend_message, new_indexes};
use pst_msg::{Message, NameMap, is_type};
use pst_ndb::NodeIndexes;
use std::alloc::Global;
use std::io::Write;

// When a message was received, which is found by the index of its list, where there is one.
fn received_by(message: Message, index: &NodeIndexes) -> u64
    requires { AreNodeIndexes (table_of_node (node_of_message message)) index.now }
    ensures { let t = table_of_node (node_of_message message.entry) in
        result ≡ time_of t (message_roots message.entry) }
{
    received(&lend_message(index, message).pc())
}

// Writes the files of a message of a store, in a folder of this name, and of what it holds. The index turns to their lists.
#[tactic(auto, using(crate::proofs::WriteLemmas::front_none))]
fn write_message<W: Write>(
    alloc: Global,
    number: &mut u64,
    names: Option<NameMap>,
    name: &str,
    message: Message,
    index: &mut NodeIndexes,
    indexes: &mut DocumentIndexes,
    out: &mut W,
) -> Result<(), ExportFault>
    requires top { nid_of (node_of_message message) ≡ top_of (node_of_message message) }
    requires index { AreNodeIndexes (table_of_node (node_of_message message)) index.old }
    requires known { AreDocumentIndexes (table_of_node (node_of_message message)) indexes.old }
    ensures index { AreNodeIndexes (table_of_node (node_of_message message.entry)) index.new }
    ensures known { AreDocumentIndexes (table_of_node (node_of_message message.entry)) indexes.new }
    ensures all { let told = names_told names.entry in
        let t = table_of_node (node_of_message message.entry) in
        let files = message_files told t name.now (message_roots message.entry) in
        OnOk result (AddsFiles (W.contents out.old) (W.contents out.new) number.old number.new files) }
    ensures front { let told = names_told names.entry in
        let t = table_of_node (node_of_message message.entry) in
        let files = message_files told t name.now (message_roots message.entry) in
        AddsFront (W.contents out.old) (W.contents out.new) number.old files }
{
    index.turn(alloc, message.node(), 1)?;
    let time = received_by(message, index);
    let mut walk = Walk::of(alloc, name, message)?;
    while let Some(item) = walk.next(index)? {
        write_item(alloc, number, names, time, &item, indexes, out)?;
    }
    Ok(())
}

/// Writes the files of the messages of a type, in a folder of this name, and of what they hold.
pub(crate) fn write_messages<W: Write>(
    alloc: Global,
    number: &mut u64,
    names: Option<NameMap>,
    intact: &Intact,
    kind: u32,
    name: &str,
    indexes: &mut DocumentIndexes,
    out: &mut W,
) -> Result<(), ExportFault>
    requires kind { (nid : ℕ) → is_of_type kind nid ≡ true → is_message nid ≡ true }
    requires known { AreDocumentIndexes (table_of_intact intact.now) indexes.old }
    ensures known { AreDocumentIndexes (table_of_intact intact.now) indexes.new }
    ensures all { let told = names_told names.entry in let i = intact.now in
        let files = messages_files told (table_of_intact i) name.now (of_type kind (nodes_of_intact i)) in
        OnOk result (AddsFiles (W.contents out.old) (W.contents out.new) number.old number.new files) }
    ensures front { let told = names_told names.entry in let i = intact.now in
        let files = messages_files told (table_of_intact i) name.now (of_type kind (nodes_of_intact i)) in
        AddsFront (W.contents out.old) (W.contents out.new) number.old files }
{
    let mut index = new_indexes(alloc);
    for message in intact.messages() {
        if is_type(kind, message.nid()) {
            write_message(
                alloc, number, names, name, message, &mut index, indexes, out,
            )?;
        }
    }
    Ok(())
}
