//! The files of a message and of an attachment.

ghost use Rattle.std.specs.Prelude.{◌≡◌, IfOk, OnOk, [], ◌∷◌, codes, option_map, string_bytes};
ghost use Rattle.pst_ndb.specs.Views.{table_of_node, roots_of};
ghost use Rattle.pst_json.specs.DocumentIndexes.{AreDocumentIndexes};
ghost use Rattle.pst_value_json.specs.Filed.{attachment_file as file_of_attachment, message_file as file_of_message};
ghost use Rattle.pst_value_json.specs.Props.{names_told};
ghost use Rattle.pst_value_json.specs.pst_pc.View.{node_of_pc, property_of};
ghost use Rattle.pst_export.specs.Files.{file_at, files_at, held_files, member_in, named_file, path_of as path_text, place_files};
ghost use Rattle.pst_verify.specs.pst_msg.View.{node_of_attachment, node_of_message};
ghost use Rattle.pst_export.specs.Walk.{item_held, node_of_holder, of_attachment, of_message};
ghost use Rattle.pst_export.specs.Written.{AddsFiles, AddsFront};

use crate::fault::ExportFault;
use crate::files::{write_bytes, write_property};
use crate::walk::{Holder, Item};
use pst_json::{DocumentIndexes, attachment_line, message_line};
use pst_msg::{Attachment, Message, NameMap, Pc};
use pst_value_json::{BODY, CONTENT, HEADERS, HTML, Prop, RTF, attachment_file, message_file};
use std::alloc::{AllocError, Global};
use std::io::Write;

// The name of a file in a folder.
fn path_of(alloc: Global, folder: &str, name: &str) -> Result<String, AllocError>
    ensures { IfOk result (λ s. string_bytes s ≡ path_text folder.now name.now) }
{
    let mut path = String::from_str(alloc, folder)?;
    path.push_str("/")?;
    path.push_str(name)?;
    Ok(path)
}

// Writes the file that has the value of a property, where one has.
#[tactic(auto, using(crate::proofs::WriteLemmas::adds_none, crate::proofs::WriteLemmas::front_none))]
fn write_named<W: Write>(
    alloc: Global,
    number: &mut u64,
    folder: &str,
    name: Option<&'static str>,
    time: u64,
    prop: Prop,
    out: &mut W,
) -> Result<(), ExportFault>
    ensures all { let name = option_map (λ n. n.now) name.entry in
        let files = named_file folder.now time (property_of prop.entry) name in
        OnOk result (AddsFiles (W.contents out.old) (W.contents out.new) number.old number.new files) }
    ensures front { let name = option_map (λ n. n.now) name.entry in
        let files = named_file folder.now time (property_of prop.entry) name in
        AddsFront (W.contents out.old) (W.contents out.new) number.old files }
{
    match name {
        Some(name) => {
            let path = path_of(alloc, folder, name)?;
            write_property(alloc, number, path.as_bytes(), time, prop, out)?;
            Ok(())
        }
        None => Ok(()),
    }
}

// Writes the file of a message that has the value of the property with an identifier, where it has one.
#[tactic(auto, using(crate::proofs::FileLemmas::none_there, crate::proofs::WriteLemmas::front_none))]
fn write_body<W: Write>(
    alloc: Global,
    number: &mut u64,
    folder: &str,
    time: u64,
    pc: &Pc,
    id: u16,
    out: &mut W,
) -> Result<(), ExportFault>
    ensures all { let node = node_of_pc pc.now in
        let files = file_at file_of_message (table_of_node node) (roots_of node) folder.now time id in
        OnOk result (AddsFiles (W.contents out.old) (W.contents out.new) number.old number.new files) }
    ensures front { let node = node_of_pc pc.now in
        let files = file_at file_of_message (table_of_node node) (roots_of node) folder.now time id in
        AddsFront (W.contents out.old) (W.contents out.new) number.old files }
{
    match pc.get(id) {
        Some(prop) => {
            let name = message_file(prop.id, prop.kind);
            write_named(alloc, number, folder, name, time, prop, out)
        }
        None => Ok(()),
    }
}

// Writes the file of an attachment that has its content, where it has one.
#[tactic(auto, using(crate::proofs::FileLemmas::none_there, crate::proofs::WriteLemmas::front_none))]
fn write_content<W: Write>(
    alloc: Global,
    number: &mut u64,
    folder: &str,
    time: u64,
    pc: &Pc,
    out: &mut W,
) -> Result<(), ExportFault>
    ensures all { let node = node_of_pc pc.now in let t = table_of_node node in
        let files = file_at file_of_attachment t (roots_of node) folder.now time CONTENT in
        OnOk result (AddsFiles (W.contents out.old) (W.contents out.new) number.old number.new files) }
    ensures front { let node = node_of_pc pc.now in let t = table_of_node node in
        let files = file_at file_of_attachment t (roots_of node) folder.now time CONTENT in
        AddsFront (W.contents out.old) (W.contents out.new) number.old files }
{
    match pc.get(CONTENT) {
        Some(prop) => {
            let name = attachment_file(prop.id, prop.kind);
            write_named(alloc, number, folder, name, time, prop, out)
        }
        None => Ok(()),
    }
}

// Writes a document.
#[tactic(auto, using(crate::proofs::WriteLemmas::front_none))]
fn write_document<W: Write>(
    alloc: Global,
    number: &mut u64,
    folder: &str,
    time: u64,
    line: Vec<u8>,
    out: &mut W,
) -> Result<(), ExportFault>
    ensures all { OnOk result (AddsFiles (W.contents out.old) (W.contents out.new)
        number.old number.new (member_in folder.now time (codes "props.json") line.items ∷ [])) }
    ensures front { AddsFront (W.contents out.old) (W.contents out.new) number.old
        (member_in folder.now time (codes "props.json") line.items ∷ []) }
{
    let path = path_of(alloc, folder, "props.json")?;
    write_bytes(alloc, number, path.as_bytes(), time, &line, out)?;
    Ok(())
}

// Writes the headers and the bodies of a message.
fn write_bodies<W: Write>(
    alloc: Global,
    number: &mut u64,
    folder: &str,
    time: u64,
    pc: &Pc,
    out: &mut W,
) -> Result<(), ExportFault>
    ensures all { let node = node_of_pc pc.now in let t = table_of_node node in
        let r = roots_of node in OnOk result (AddsFiles (W.contents out.old) (W.contents out.new)
        number.old number.new (files_at file_of_message t r folder.now time
        (HEADERS ∷ BODY ∷ HTML ∷ RTF ∷ []))) }
    ensures front { let node = node_of_pc pc.now in let t = table_of_node node in
        let r = roots_of node in AddsFront (W.contents out.old) (W.contents out.new) number.old
        (files_at file_of_message t r folder.now time
        (HEADERS ∷ BODY ∷ HTML ∷ RTF ∷ [])) }
{
    write_body(alloc, number, folder, time, pc, HEADERS, out)?;
    write_body(alloc, number, folder, time, pc, BODY, out)?;
    write_body(alloc, number, folder, time, pc, HTML, out)?;
    write_body(alloc, number, folder, time, pc, RTF, out)?;
    Ok(())
}

// Writes the files of a message in this folder, of which properties are called so.
#[tactic(auto, unfolding(crate::specs::Files::place_files), using(crate::proofs::WriteLemmas::front_none))]
fn write_message<W: Write>(
    alloc: Global,
    number: &mut u64,
    names: Option<NameMap>,
    folder: &str,
    time: u64,
    message: Message,
    indexes: &mut DocumentIndexes,
    out: &mut W,
) -> Result<(), ExportFault>
    requires { AreDocumentIndexes (table_of_node (node_of_message message)) indexes.old }
    ensures known { AreDocumentIndexes (table_of_node (node_of_message message.entry)) indexes.new }
    ensures all { let told = names_told names.entry in
        let t = table_of_node (node_of_message message.entry) in OnOk result (AddsFiles (W.contents out.old) (W.contents out.new)
        number.old number.new (place_files told t time folder.now (of_message message.entry))) }
    ensures front { let told = names_told names.entry in
        let t = table_of_node (node_of_message message.entry) in AddsFront (W.contents out.old) (W.contents out.new) number.old
        (place_files told t time folder.now (of_message message.entry)) }
{
    let line = message_line(alloc, message, names, indexes)?;
    write_document(alloc, number, folder, time, line, out)?;
    let pc = indexes.message_pc(message);
    write_bodies(alloc, number, folder, time, &pc, out)?;
    Ok(())
}

// Writes the files of an attachment in this folder, of which properties are called so.
#[tactic(auto, unfolding(crate::specs::Files::place_files), using(crate::proofs::WriteLemmas::front_none))]
fn write_attachment<W: Write>(
    alloc: Global,
    number: &mut u64,
    names: Option<NameMap>,
    folder: &str,
    time: u64,
    attachment: Attachment,
    indexes: &mut DocumentIndexes,
    out: &mut W,
) -> Result<(), ExportFault>
    requires { AreDocumentIndexes (table_of_node (node_of_attachment attachment)) indexes.old }
    ensures known { AreDocumentIndexes (table_of_node
        (node_of_attachment attachment.entry)) indexes.new }
    ensures all { let told = names_told names.entry in
        let t = table_of_node (node_of_attachment attachment.entry) in OnOk result (AddsFiles (W.contents out.old) (W.contents out.new)
        number.old number.new (place_files told t time folder.now (of_attachment attachment.entry))) }
    ensures front { let told = names_told names.entry in
        let t = table_of_node (node_of_attachment attachment.entry) in AddsFront (W.contents out.old) (W.contents out.new) number.old
        (place_files told t time folder.now (of_attachment attachment.entry)) }
{
    let line = attachment_line(alloc, attachment, names, indexes)?;
    write_document(alloc, number, folder, time, line, out)?;
    let pc = indexes.attachment_pc(attachment);
    write_content(alloc, number, folder, time, &pc, out)?;
    Ok(())
}

/// Writes the files of a message or an attachment, of which properties are called so.
pub(crate) fn write_item<W: Write>(
    alloc: Global,
    number: &mut u64,
    names: Option<NameMap>,
    time: u64,
    item: &Item,
    indexes: &mut DocumentIndexes,
    out: &mut W,
) -> Result<(), ExportFault>
    requires { AreDocumentIndexes (table_of_node (node_of_holder item.now.holder)) indexes.old }
    ensures known { AreDocumentIndexes (table_of_node
        (node_of_holder item.now.holder)) indexes.new }
    ensures all { let told = names_told names.entry in
        let t = table_of_node (node_of_holder item.now.holder) in OnOk result (AddsFiles (W.contents out.old) (W.contents out.new)
        number.old number.new (held_files told t time (item_held item.now))) }
    ensures front { let told = names_told names.entry in
        let t = table_of_node (node_of_holder item.now.holder) in AddsFront (W.contents out.old) (W.contents out.new) number.old
        (held_files told t time (item_held item.now)) }
{
    let folder = item.folder.as_str();
    match item.holder {
        Holder::Message(message) => {
            write_message(alloc, number, names, folder, time, message, indexes, out)
        }
        Holder::Attachment(attachment) => {
            write_attachment(alloc, number, names, folder, time, attachment, indexes, out)
        }
    }
}
