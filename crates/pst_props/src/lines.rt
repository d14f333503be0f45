//! The lines of single places, as an archive has them.

ghost use Rattle.std.specs.Prelude.{◌≡◌, Some, None, true, false, IfOk};
ghost use Rattle.pst_ndb.specs.Views.{table_of_node, nid_of, roots_of};
ghost use Rattle.pst_value_json.specs.declared.filed.Filed.TheVariants.{Attachment as InAttachment};
ghost use Rattle.pst_value_json.specs.pst_text.Line.{data_line};
ghost use Rattle.pst_value_json.specs.Props.{names_told};
ghost use Rattle.pst_value_json.specs.pst_pc.View.{node_of_pc};
ghost use Rattle.pst_verify.specs.pst_msg.View.{attachment_shown, node_of_attachment, node_of_message};
ghost use Rattle.pst_props.specs.DocumentIndexes.{AreDocumentIndexes};
ghost use Rattle.pst_props.specs.Node.{attachment_data, message_data, node_props_data};

use crate::attachment::write_attachment;
use crate::document_indexes::DocumentIndexes;
use crate::lent::lend_pc;
use crate::node::{write_message, write_node};
use pst_value_json::{Filed, NameMap, Pc, end_line};
use pst_verify::{Attachment, Message};
use std::alloc::{AllocError, Global};

/// The line that shows a message, whose headers, bodies and contents of attachments are told by the names of files. The indexes turn
/// to what it has.
#[tactic(auto, unfolding(pst_text::specs::Line::data_line))]
pub fn message_line(
    alloc: Global,
    message: Message,
    names: Option<NameMap>,
    indexes: &mut DocumentIndexes,
) -> Result<Vec<u8>, AllocError>
    requires { AreDocumentIndexes (table_of_node (node_of_message message)) indexes.old }
    ensures known { AreDocumentIndexes (table_of_node (node_of_message message.entry)) indexes.new }
    ensures line { let node = node_of_message message.entry in let told = names_told names.entry in
        let shown = message_data told true false (table_of_node node) (roots_of node) (nid_of node) in
        IfOk result (λ text. text.items ≡ data_line shown) }
{
    let mut text = Vec::new(alloc);
    write_message(alloc, message, names, true, false, indexes, &mut text)?;
    end_line(text)
}

/// The line that shows an attachment, whose content is told by the name of a file. The indexes turn to what it has.
#[tactic(auto, unfolding(pst_text::specs::Line::data_line))]
pub fn attachment_line(
    alloc: Global,
    attachment: Attachment,
    names: Option<NameMap>,
    indexes: &mut DocumentIndexes,
) -> Result<Vec<u8>, AllocError>
    requires { AreDocumentIndexes (table_of_node (node_of_attachment attachment)) indexes.old }
    ensures known { let t = table_of_node (node_of_attachment attachment.entry) in
        AreDocumentIndexes t indexes.new }
    ensures line { let t = table_of_node (node_of_attachment attachment.entry) in
        let shown = attachment_shown attachment.entry in let told = names_told names.entry in
        IfOk result (λ text.
        text.items ≡ data_line (attachment_data told (InAttachment None) false t shown)) }
{
    let filed = Filed::Attachment(None);
    let mut text = Vec::new(alloc);
    write_attachment(
        alloc,
        attachment,
        names,
        filed,
        false,
        &mut indexes.attachments,
        &mut text,
    )?;
    end_line(text)
}

/// The line that shows the properties of a node that is no message. The indexes turn to what it has.
#[tactic(auto, unfolding(pst_text::specs::Line::data_line))]
pub fn node_line(
    alloc: Global,
    pc: Pc,
    names: Option<NameMap>,
    indexes: &mut DocumentIndexes,
) -> Result<Vec<u8>, AllocError>
    requires { AreDocumentIndexes (table_of_node (node_of_pc pc)) indexes.old }
    ensures known { AreDocumentIndexes (table_of_node (node_of_pc pc.entry)) indexes.new }
    ensures line { let node = node_of_pc pc.entry in let told = names_told names.entry in
        let shown = node_props_data told false (table_of_node node) (roots_of node) (nid_of node) in
        IfOk result (λ text. text.items ≡ data_line shown) }
{
    indexes.shown.turn_at_once(alloc, pc.node())?;
    let lent = lend_pc(&indexes.shown, pc);
    let mut text = Vec::new(alloc);
    write_node(alloc, &lent, names, false, &mut text)?;
    end_line(text)
}
