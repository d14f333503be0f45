//! The properties of a node as a document, and of a message also its attachments and recipients.

ghost use Rattle.std.specs.Prelude.{◌≡◌, IfOk, OnOk};
ghost use Rattle.serde_json.specs.View.{view};
ghost use Rattle.pst_ndb.specs.Roots.{subnode_of};
ghost use Rattle.pst_ndb.specs.Views.{table_of_node, nid_of, roots_of};
ghost use Rattle.pst_intact.specs.View.{table_of_intact, nodes_of_intact};
ghost use Rattle.pst_value_json.specs.Props.{names_told};
ghost use Rattle.pst_value_json.specs.pst_pc.View.{node_of_pc};
ghost use Rattle.pst_value_json.specs.pst_text.Line.{data_line};
ghost use Rattle.pst_verify.specs.pst_msg.View.{node_of_message};
ghost use Rattle.pst_props.specs.DocumentIndexes.{AreDocumentIndexes};
ghost use Rattle.pst_props.specs.Found.{node_of_found, place_of_found};
ghost use Rattle.pst_ndb.specs.NodeIndexes.{AreNodeIndexes};
ghost use Rattle.pst_props.specs.NamesIndex.{IsNamesIndex};
ghost use Rattle.pst_props.specs.Node.{recipient_nid, recipients_there, filed_of_message, message_data, node_props_data, place_data, props_told, props_line as line_of_props};
ghost use Rattle.pst_props.specs.Told.{TellsDoc};

use crate::attachment::{write_attachment, write_attachments};
use crate::document_indexes::DocumentIndexes;
use crate::fault::DocFault;
use crate::found::{Found, found_in, index_at};
use crate::lent::{lend_message, lend_tc, new_indexes};
use crate::names::{NamesIndex, names_in};
use pst_intact::Intact;
use pst_ndb::NodeIndexes;
use pst_value_json::{
    Filed, Leaf, NameMap, Pc, Pen, end_line, only, write_nothing, write_props, write_table,
};
use pst_verify::Message;
use serde_json::Value as Doc;
use std::alloc::{AllocError, Global};

// Of which values of a message files are told, where they are told.
fn filed_of(files: bool) -> Filed
    ensures { result ≡ filed_of_message files }
{
    if files {
        Filed::Message
    } else {
        Filed::Nothing
    }
}

// Writes the recipients of a message: the rows of their table, of none where it has no such table. The index turns to that.
fn write_recipients<P: Pen>(
    alloc: Global,
    message: Message,
    places: bool,
    index: &mut NodeIndexes,
    pen: &mut P,
) -> Result<(), AllocError>
    requires { AreNodeIndexes (table_of_node (node_of_message message)) index.old }
    ensures known { AreNodeIndexes (table_of_node (node_of_message message.entry)) index.new }
    ensures put { let node = node_of_message message.entry in let t = table_of_node node in
        let shown = recipients_there places t (subnode_of t (roots_of node) recipient_nid) in
        OnOk result (P.Puts pen.old pen.new shown) }
    ensures kept { (base : P) → P.Keeps base pen.old → P.Keeps base pen.new }
{
    match message.recipients() {
        Some(table) => {
            index.turn_at_once(alloc, table.node())?;
            write_table(alloc, &lend_tc(index, table), places, pen)
        }
        None => write_nothing(alloc, pen),
    }
}

// Writes a message, as an object. The index turns to its recipients; those that are kept of attachments are lent to its own.
#[tactic(auto, unfolding(crate::specs::Node::message_data))]
fn write_lent_message<P: Pen>(
    alloc: Global,
    message: Message,
    names: Option<NameMap>,
    files: bool,
    places: bool,
    kept: &NodeIndexes,
    index: &mut NodeIndexes,
    pen: &mut P,
) -> Result<(), AllocError>
    requires kept { AreNodeIndexes (table_of_node (node_of_message message)) kept.now }
    requires index { AreNodeIndexes (table_of_node (node_of_message message)) index.old }
    ensures known { AreNodeIndexes (table_of_node (node_of_message message.entry)) index.new }
    ensures put { let node = node_of_message message.entry in let told = names_told names.entry in
        OnOk result (P.Puts pen.old pen.new
        (message_data told files places (table_of_node node) (roots_of node) (nid_of node))) }
    ensures kept { (base : P) → P.Keeps base pen.old → P.Keeps base pen.new }
{
    pen.first(alloc, "attachments", b"{\"attachments\":")?;
    write_attachments(alloc, message, names, files, places, kept, pen)?;
    pen.next(alloc, "nid", b",\"nid\":")?;
    pen.leaf(alloc, &Leaf::Nid(Some(message.nid())))?;
    pen.next(alloc, "props", b",\"props\":")?;
    write_props(alloc, &message.pc(), names, filed_of(files), places, pen)?;
    pen.next(alloc, "recipients", b",\"recipients\":")?;
    write_recipients(alloc, message, places, index, pen)?;
    pen.close(alloc)
}

/// Writes a message, which has been lent no index yet, as an object: its attachments, its identifier, its properties, and its
/// recipients. The indexes turn to what it has.
pub(crate) fn write_message<P: Pen>(
    alloc: Global,
    message: Message,
    names: Option<NameMap>,
    files: bool,
    places: bool,
    indexes: &mut DocumentIndexes,
    pen: &mut P,
) -> Result<(), AllocError>
    requires { AreDocumentIndexes (table_of_node (node_of_message message)) indexes.old }
    ensures known { AreDocumentIndexes (table_of_node (node_of_message message.entry)) indexes.new }
    ensures put { let node = node_of_message message.entry in let told = names_told names.entry in
        OnOk result (P.Puts pen.old pen.new
        (message_data told files places (table_of_node node) (roots_of node) (nid_of node))) }
    ensures kept { (base : P) → P.Keeps base pen.old → P.Keeps base pen.new }
{
    indexes.shown.turn_at_once(alloc, message.node())?;
    let lent = lend_message(&indexes.shown, message);
    write_lent_message(
        alloc,
        lent,
        names,
        files,
        places,
        &indexes.attachments,
        &mut indexes.recipients,
        pen,
    )
}

/// Writes a node that is no message, as an object: its identifier and its properties.
#[tactic(auto, unfolding(crate::specs::Node::node_props_data))]
pub(crate) fn write_node<P: Pen>(
    alloc: Global,
    pc: &Pc,
    names: Option<NameMap>,
    places: bool,
    pen: &mut P,
) -> Result<(), AllocError>
    ensures put { let node = node_of_pc pc.now in let told = names_told names.entry in
        OnOk result (P.Puts pen.old pen.new
        (node_props_data told places (table_of_node node) (roots_of node) (nid_of node))) }
    ensures kept { (base : P) → P.Keeps base pen.old → P.Keeps base pen.new }
{
    pen.first(alloc, "nid", b"{\"nid\":")?;
    pen.leaf(alloc, &Leaf::Nid(Some(pc.node().nid())))?;
    pen.next(alloc, "props", b",\"props\":")?;
    write_props(alloc, pc, names, Filed::Nothing, places, pen)?;
    pen.close(alloc)
}

// Writes what has properties.
fn write_found<P: Pen>(
    alloc: Global,
    found: Found,
    names: Option<NameMap>,
    places: bool,
    pen: &mut P,
) -> Result<(), AllocError>
    ensures put { let t = table_of_node (node_of_found found.entry) in
        let told = names_told names.entry in
        OnOk result (P.Puts pen.old pen.new (place_data told places t (place_of_found found.entry))) }
    ensures kept { (base : P) → P.Keeps base pen.old → P.Keeps base pen.new }
{
    match found {
        Found::Message(message) => {
            let mut indexes = DocumentIndexes::new(alloc);
            write_message(alloc, message, names, false, places, &mut indexes, pen)
        }
        Found::Attachment(attachment) => {
            let mut index = new_indexes(alloc);
            write_attachment(
                alloc,
                attachment,
                names,
                Filed::Nothing,
                places,
                &mut index,
                pen,
            )
        }
        Found::Pc(pc) => write_node(alloc, &pc, names, places, pen),
    }
}

// Its tree.
fn found_doc(
    alloc: Global,
    found: Found,
    names: Option<NameMap>,
    places: bool,
) -> Result<Doc, AllocError>
    ensures { let t = table_of_node (node_of_found found.entry) in
        let told = names_told names.entry in
        IfOk result (λ d. view d ≡ place_data told places t (place_of_found found.entry)) }
{
    let mut docs = Vec::new(alloc);
    write_found(alloc, found, names, places, &mut docs)?;
    Ok(only(docs))
}

// Its line.
#[tactic(auto, unfolding(pst_text::specs::Line::data_line))]
fn found_line(
    alloc: Global,
    found: Found,
    names: Option<NameMap>,
    places: bool,
) -> Result<Vec<u8>, AllocError>
    ensures { let t = table_of_node (node_of_found found.entry) in
        let told = names_told names.entry in
        IfOk result (λ line.
        line.items ≡ data_line (place_data told places t (place_of_found found.entry))) }
{
    let mut text = Vec::new(alloc);
    write_found(alloc, found, names, places, &mut text)?;
    end_line(text)
}

/// The properties of what a path leads to as a JSON object: the last identifier of the path, and the properties as `pc_doc` gives
/// them, called as the store's name map says; of a message also its attachments, an array that has an object for each, with the
/// identifier of the message that it embeds or null, its own, and its properties; and its recipients, as `table_doc` gives them; of
/// an attachment that same object. A path is a node, and behind a message an attachment of it, behind an attachment the message that
/// it embeds: NoNode where a step leads nowhere; Bad with the fault of `check_pc` where the node is neither a message nor a property
/// context. With places, each property and each cell has also a list of `[place,length]`: the pieces of its value in the file. The
/// index of names is that of `names_index`, made once however many paths are shown.
#[tactic(auto, using(crate::proofs::FoundLemmas::told_found, crate::proofs::FoundLemmas::told_refused), unfolding(crate::specs::Node::props_told))]
pub fn props_doc<'a>(
    alloc: Global,
    intact: &Intact<'a>,
    index: &'a NamesIndex,
    path: &[u32],
    places: bool,
) -> Result<Doc, DocFault>
    requires { let i = intact.now in
        IsNamesIndex (table_of_intact i) (nodes_of_intact i) index.now }
    ensures { let i = intact.now in
        TellsDoc view result (props_told places (table_of_intact i) (nodes_of_intact i) path.now) }
{
    let last = index_at(alloc, intact, path)?;
    let found = found_in(intact, path, Some(&last))?;
    Ok(found_doc(alloc, found, names_in(intact, index), places)?)
}

/// The line that shows the properties of what a path leads to: the compact text of their document, and a line feed; or why there is
/// none. It is made property by property, and row by row: beside the text, memory is taken for one at a time, and for indexes of lists.
#[tactic(auto, using(crate::proofs::FoundLemmas::line_found, crate::proofs::FoundLemmas::line_refused), unfolding(crate::specs::Node::props_line, crate::specs::Node::props_told))]
pub fn props_line<'a>(
    alloc: Global,
    intact: &Intact<'a>,
    index: &'a NamesIndex,
    path: &[u32],
    places: bool,
) -> Result<Vec<u8>, DocFault>
    requires { let i = intact.now in
        IsNamesIndex (table_of_intact i) (nodes_of_intact i) index.now }
    ensures { let i = intact.now in
        let line = line_of_props places (table_of_intact i) (nodes_of_intact i) path.now in
        TellsDoc (λ t. t.items) result line }
{
    let last = index_at(alloc, intact, path)?;
    let found = found_in(intact, path, Some(&last))?;
    Ok(found_line(alloc, found, names_in(intact, index), places)?)
}
