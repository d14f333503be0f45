//! The files of what is asked for as one: what is broken, the properties of the store, its folders, and its messages in short.

ghost use Rattle.std.specs.Prelude.{◌≡◌, ◌≢◌, false, OnOk, [], ◌∷◌, codes};
ghost use Rattle.pst_intact.specs.View.{table_of_intact, nodes_of_intact};
ghost use Rattle.pst_json.specs.pst_whole.View.{lost_in};
ghost use Rattle.pst_json.specs.Folders.{folders_line as line_of_folders};
ghost use Rattle.pst_json.specs.Node.{props_line as line_of_props};
ghost use Rattle.pst_json.specs.Messages.{messages_text as text_of_messages};
ghost use Rattle.pst_export.specs.Store.{damage_file, member_named, front_files, store_file};
ghost use Rattle.pst_export.specs.Export.{text_of_damage};
ghost use Rattle.pst_export.specs.Written.{AddsFiles, AddsFront};

use crate::export::Export;
use crate::fault::ExportFault;
use crate::files::write_bytes;
use pst_json::{DocFault, folders_line, messages_text, props_line};
use pst_msg::STORE;
use std::alloc::{AllocError, Global};
use std::io::Write;

// Whether there is no document for another reason than that memory was refused.
fn unless_memory(fault: DocFault) -> Result<(), AllocError>
    ensures { OnOk result (fault ≢ DocFault.Memory) }
{
    if fault == DocFault::Memory {
        return Err(AllocError);
    }
    Ok(())
}

/// Writes what is told of all that is broken, where something is.
#[tactic(auto, using(crate::proofs::WriteLemmas::adds_none, crate::proofs::WriteLemmas::front_none))]
pub(crate) fn write_damage<W: Write>(
    alloc: Global,
    number: &mut u64,
    export: &Export,
    out: &mut W,
) -> Result<(), ExportFault>
    ensures all { let files = damage_file (text_of_damage export.now) in
        OnOk result (AddsFiles (W.contents out.old) (W.contents out.new) number.old number.new files) }
    ensures front { let files = damage_file (text_of_damage export.now) in
        AddsFront (W.contents out.old) (W.contents out.new) number.old files }
{
    match &export.damage {
        Some(text) => {
            write_bytes(alloc, number, b"damage.json", 0, text, out)?;
            Ok(())
        }
        None => Ok(()),
    }
}

// Writes the properties of the store.
#[tactic(auto, using(crate::proofs::FileLemmas::store_there, crate::proofs::FileLemmas::store_none, crate::proofs::WriteLemmas::front_none))]
fn write_store<W: Write>(
    alloc: Global,
    number: &mut u64,
    export: &Export,
    out: &mut W,
) -> Result<(), ExportFault>
    ensures all { let i = export.now.intact in
        let line = line_of_props false (table_of_intact i) (nodes_of_intact i) (STORE ∷ []) in
        OnOk result (AddsFiles (W.contents out.old) (W.contents out.new) number.old number.new
        (store_file line)) }
    ensures front { let i = export.now.intact in
        let line = line_of_props false (table_of_intact i) (nodes_of_intact i) (STORE ∷ []) in
        AddsFront (W.contents out.old) (W.contents out.new) number.old (store_file line) }
{
    let intact = export.intact;
    match props_line(alloc, &intact, &export.index, &[STORE], false) {
        Ok(line) => {
            write_bytes(alloc, number, b"store.json", 0, &line, out)?;
            Ok(())
        }
        Err(fault) => {
            unless_memory(fault)?;
            Ok(())
        }
    }
}

// Writes the folders of the store as a document.
fn write_list<W: Write>(
    alloc: Global,
    number: &mut u64,
    export: &Export,
    out: &mut W,
) -> Result<(), ExportFault>
    ensures all { let i = export.now.intact in
        let text = line_of_folders (table_of_intact i) (nodes_of_intact i) (lost_in export.now.lost) in
        let files = member_named (codes "folders.json") text ∷ [] in
        OnOk result (AddsFiles (W.contents out.old) (W.contents out.new) number.old number.new files) }
    ensures front { let i = export.now.intact in
        let text = line_of_folders (table_of_intact i) (nodes_of_intact i) (lost_in export.now.lost) in
        let files = member_named (codes "folders.json") text ∷ [] in
        AddsFront (W.contents out.old) (W.contents out.new) number.old files }
{
    let (intact, lost) = (export.intact, export.lost);
    let line = folders_line(alloc, &intact, &lost, &export.reached)?;
    write_bytes(alloc, number, b"folders.json", 0, &line, out)?;
    Ok(())
}

// Writes the messages of the store in short.
fn write_summaries<W: Write>(
    alloc: Global,
    number: &mut u64,
    export: &Export,
    out: &mut W,
) -> Result<(), ExportFault>
    ensures all { let i = export.now.intact in
        let text = text_of_messages (table_of_intact i) (nodes_of_intact i) in
        let files = member_named (codes "messages.jsonl") text ∷ [] in
        OnOk result (AddsFiles (W.contents out.old) (W.contents out.new) number.old number.new files) }
    ensures front { let i = export.now.intact in
        let text = text_of_messages (table_of_intact i) (nodes_of_intact i) in
        let files = member_named (codes "messages.jsonl") text ∷ [] in
        AddsFront (W.contents out.old) (W.contents out.new) number.old files }
{
    let text = messages_text(alloc, &export.intact)?;
    write_bytes(alloc, number, b"messages.jsonl", 0, &text, out)?;
    Ok(())
}

/// Writes the files of a store itself: its properties, where these are intact, its folders, and its messages in short.
pub(crate) fn write_front<W: Write>(
    alloc: Global,
    number: &mut u64,
    export: &Export,
    out: &mut W,
) -> Result<(), ExportFault>
    ensures all { let i = export.now.intact in
        let files = front_files (table_of_intact i) (nodes_of_intact i) (lost_in export.now.lost) in
        OnOk result (AddsFiles (W.contents out.old) (W.contents out.new) number.old number.new files) }
    ensures front { let i = export.now.intact in
        let files = front_files (table_of_intact i) (nodes_of_intact i) (lost_in export.now.lost) in
        AddsFront (W.contents out.old) (W.contents out.new) number.old files }
{
    write_store(alloc, number, export, out)?;
    write_list(alloc, number, export, out)?;
    write_summaries(alloc, number, export, out)?;
    Ok(())
}
