//! The attachments of a message, each as an object.

ghost use Rattle.std.specs.Prelude.{◌≡◌, Some, OnOk};
ghost use Rattle.pst_ndb.specs.Views.{table_of_node, roots_of};
ghost use Rattle.pst_verify.specs.pst_msg.View.{node_of_attachment, node_of_message, attachment_shown};
ghost use Rattle.pst_value_json.specs.Props.{names_told};
ghost use Rattle.pst_props.specs.Node.{embedded_there, attachment_data, attachments_data, filed_in_list as filed_below, listed_data};
ghost use Rattle.pst_ndb.specs.NodeIndexes.{AreNodeIndexes};

use crate::lent::{lend_pc, new_indexes};
use pst_ndb::{NodeIndexes, most_values};
use pst_value_json::{Filed, Leaf, NameMap, Pen, write_props};
use pst_verify::{Attachment, Message};
use std::alloc::{AllocError, Global};

// The identifier of the message that an attachment embeds, found by these indexes.
#[tactic(auto, using(crate::proofs::AttachmentLemmas::embedded_there_is, crate::proofs::AttachmentLemmas::embedded_none))]
fn embedded_nid(attachment: Attachment, index: &NodeIndexes) -> Option<u32>
    requires { AreNodeIndexes (table_of_node (node_of_attachment attachment)) index.now }
    ensures { let node = node_of_attachment attachment.entry in
        result ≡ embedded_there (table_of_node node) (Some (roots_of node)) }
{
    match attachment.embedded_by(index) {
        Some(message) => Some(message.nid()),
        None => None,
    }
}

// Writes an attachment, as an object. It is lent what the first indexes lend, and what the second do besides.
#[tactic(auto, unfolding(crate::specs::Node::attachment_data))]
fn write_lent_attachment<P: Pen>(
    alloc: Global,
    attachment: Attachment,
    names: Option<NameMap>,
    filed: Filed,
    places: bool,
    lists: &NodeIndexes,
    spans: &NodeIndexes,
    pen: &mut P,
) -> Result<(), AllocError>
    requires lists { AreNodeIndexes (table_of_node (node_of_attachment attachment)) lists.now }
    requires spans { AreNodeIndexes (table_of_node (node_of_attachment attachment)) spans.now }
    ensures put { let t = table_of_node (node_of_attachment attachment.entry) in
        let shown = attachment_shown attachment.entry in let told = names_told names.entry in
        OnOk result (P.Puts pen.old pen.new (attachment_data told filed places t shown)) }
    ensures kept { (base : P) → P.Keeps base pen.old → P.Keeps base pen.new }
{
    let lent = lend_pc(spans, lend_pc(lists, attachment.pc()));
    pen.first(alloc, "embedded", b"{\"embedded\":")?;
    pen.leaf(alloc, &Leaf::Nid(embedded_nid(attachment, lists)))?;
    pen.next(alloc, "nid", b",\"nid\":")?;
    pen.leaf(alloc, &Leaf::Nid(Some(attachment.nid())))?;
    pen.next(alloc, "props", b",\"props\":")?;
    write_props(alloc, &lent, names, filed, places, pen)?;
    pen.close(alloc)
}

/// Writes an attachment, as an object: the identifier of the message that it embeds, or null, its own, and its properties. The index
/// turns to its list.
pub(crate) fn write_attachment<P: Pen>(
    alloc: Global,
    attachment: Attachment,
    names: Option<NameMap>,
    filed: Filed,
    places: bool,
    index: &mut NodeIndexes,
    pen: &mut P,
) -> Result<(), AllocError>
    requires { AreNodeIndexes (table_of_node (node_of_attachment attachment)) index.old }
    ensures known { AreNodeIndexes (table_of_node (node_of_attachment attachment.entry)) index.new }
    ensures put { let t = table_of_node (node_of_attachment attachment.entry) in
        let shown = attachment_shown attachment.entry in let told = names_told names.entry in
        OnOk result (P.Puts pen.old pen.new (attachment_data told filed places t shown)) }
    ensures kept { (base : P) → P.Keeps base pen.old → P.Keeps base pen.new }
{
    let node = attachment.node();
    index.turn(alloc, node, most_values(node))?;
    write_lent_attachment(alloc, attachment, names, filed, places, index, index, pen)
}

// Of which values of an attachment in the list of a message files are told, where they are told.
fn filed_in_list(files: bool, nid: u32) -> Filed
    ensures { result ≡ filed_below files nid }
{
    if files {
        Filed::Attachment(Some(nid))
    } else {
        Filed::Nothing
    }
}

// Writes an attachment in the list of a message. The index turns to it, but not to its list, where those that are kept have an index
// of it already.
fn write_listed<P: Pen>(
    alloc: Global,
    attachment: Attachment,
    names: Option<NameMap>,
    files: bool,
    places: bool,
    kept: &NodeIndexes,
    index: &mut NodeIndexes,
    pen: &mut P,
) -> Result<(), AllocError>
    requires kept { AreNodeIndexes (table_of_node (node_of_attachment attachment)) kept.now }
    requires index { AreNodeIndexes (table_of_node (node_of_attachment attachment)) index.old }
    ensures known { AreNodeIndexes (table_of_node (node_of_attachment attachment.entry)) index.new }
    ensures put { let t = table_of_node (node_of_attachment attachment.entry) in
        let shown = attachment_shown attachment.entry in let told = names_told names.entry in
        OnOk result (P.Puts pen.old pen.new (listed_data told files places t shown)) }
    ensures kept { (base : P) → P.Keeps base pen.old → P.Keeps base pen.new }
{
    let filed = filed_in_list(files, attachment.nid());
    let node = attachment.node();
    if kept.has_list(node) {
        index.turn_to_data(alloc, node)?;
        return write_lent_attachment(alloc, attachment, names, filed, places, kept, index, pen);
    }
    write_attachment(alloc, attachment, names, filed, places, index, pen)
}

/// Writes the attachments of a message, as a list, in the order of the rows that name them. They are lent the indexes that earlier
/// documents keep, and of lists that have none there one that goes with this list.
pub(crate) fn write_attachments<P: Pen>(
    alloc: Global,
    message: Message,
    names: Option<NameMap>,
    files: bool,
    places: bool,
    kept: &NodeIndexes,
    pen: &mut P,
) -> Result<(), AllocError>
    requires { AreNodeIndexes (table_of_node (node_of_message message)) kept.now }
    ensures put { let node = node_of_message message.entry in let told = names_told names.entry in
        OnOk result (P.Puts pen.old pen.new
        (attachments_data told files places (table_of_node node) (roots_of node))) }
    ensures kept { (base : P) → P.Keeps base pen.old → P.Keeps base pen.new }
{
    let mut index = new_indexes(alloc);
    pen.open_list(alloc)?;
    let mut later = false;
    for attachment in message.attachments() {
        pen.comma(later)?;
        write_listed(
            alloc, attachment, names, files, places, kept, &mut index, pen,
        )?;
        pen.item(alloc)?;
        later = true;
    }
    pen.close_list(later)
}
