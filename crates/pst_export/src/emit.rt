//! An archive, from what it is made to its last byte.

ghost use Rattle.std.specs.Prelude.{◌≡◌, ◌<◌, ◌^◌, ℕ, not, map, Some, None, IfOk, OnOk, nat_lt, option_map};
ghost use Rattle.std.specs.Io.KnownBytes.{Appends};
ghost use Rattle.pst_btree.specs.Order.{Rises};
ghost use Rattle.pst_intact.specs.View.{table_of_intact, nodes_of_intact};
ghost use Rattle.pst_json.specs.pst_whole.View.{lost_in};
ghost use Rattle.pst_json.specs.Output.{AppendsFront};
ghost use Rattle.pst_json.specs.Told.{TellsDoc};
ghost use Rattle.pst_verify.specs.pst_reach.Levels.{reaches_of};
ghost use Rattle.pst_verify.specs.pst_reach.Path.{reach_nid};
ghost use Rattle.pst_tar.specs.Read.{read_archive};
ghost use Rattle.pst_export.specs.Export.{archive_in, text_of_damage, files_in};
ghost use Rattle.pst_value_json.specs.pst_names.Name.{store_name};
ghost use Rattle.pst_export.specs.Store.{all_files, export_told, files_with, path_count};
ghost use Rattle.pst_export.specs.Written.{AddsFiles, AddsFront};

use crate::count::count_down;
use crate::export::Export;
use crate::fault::ExportFault;
use crate::folders::write_folders;
use crate::front::{write_damage, write_front};
use crate::messages::write_messages;
use pst_json::{DocFault, DocumentIndexes, Intact, Lost, Reach, emit, names_in, names_index};
use pst_msg::{ASSOCIATED, MESSAGE};
use pst_tar::end;
use std::alloc::{AllocError, Global};
use std::io::Write;

// A file that shares no blocks has for each message and each attachment a block of its own, of so many bytes at least.
const BLOCK: u64 = 64;

// Whether so many paths at most lead to messages and attachments.
#[tactic(auto, unfolding(crate::specs::Store::path_count), using(crate::proofs::StoreLemmas::message_kind, crate::proofs::StoreLemmas::associated_kind, crate::proofs::StoreLemmas::few_none, crate::proofs::StoreLemmas::few_counted))]
fn are_few(alloc: Global, intact: &Intact, most: u64) -> Result<bool, AllocError>
    ensures { let i = intact.now in
        let count = path_count (table_of_intact i) (nodes_of_intact i) in
        IfOk result (λ few. few ≡ not (nat_lt most count)) }
{
    match count_down(alloc, intact, MESSAGE, "messages", most)? {
        Some(left) => {
            let rest = count_down(alloc, intact, ASSOCIATED, "associated", left)?;
            Ok(rest.is_some())
        }
        None => Ok(false),
    }
}

/// What an archive is made from: intact nodes of a file of so many bytes, what is told of others, the folders among these nodes that
/// the root folder reaches (`reach_among`), and what is told of all that is broken, where something is. TooManyPaths where more paths
/// lead to the messages and attachments than the file has blocks of 64 bytes.
#[tactic(auto, using(crate::proofs::StoreLemmas::told_few, crate::proofs::StoreLemmas::told_many))]
pub fn export_of<'a>(
    alloc: Global,
    size: u64,
    intact: Intact<'a>,
    lost: Lost<'a>,
    reached: Vec<Reach>,
    damage: Option<Vec<u8>>,
) -> Result<Export<'a>, DocFault>
    requires reached { reached.items
        ≡ reaches_of (table_of_intact intact) (nodes_of_intact intact) }
    requires rise { Rises 0 None (map reach_nid reached.items) }
    ensures { let i = intact.entry in let broken = option_map (λ t. t.items) damage in
        TellsDoc archive_in result
        (export_told size broken (table_of_intact i) (nodes_of_intact i) (lost_in lost.entry)) }
{
    if !are_few(alloc, &intact, size / BLOCK)? {
        return Err(DocFault::TooManyPaths);
    }
    let index = names_index(alloc, &intact)?;
    Ok(Export {
        intact,
        lost,
        damage,
        reached,
        index,
    })
}

// Writes the files of the nodes, and those that stand before them.
#[tactic(auto, using(crate::proofs::StoreLemmas::message_kind, crate::proofs::StoreLemmas::associated_kind))]
fn write_nodes<W: Write>(
    alloc: Global,
    number: &mut u64,
    export: &Export,
    out: &mut W,
) -> Result<(), ExportFault>
    ensures all { let e = export.now in
        let t = table_of_intact e.intact in let nodes = nodes_of_intact e.intact in
        let files = files_with (store_name t nodes) t nodes (lost_in e.lost) in
        OnOk result (AddsFiles (W.contents out.old) (W.contents out.new) number.old number.new files) }
    ensures front { let e = export.now in
        let t = table_of_intact e.intact in let nodes = nodes_of_intact e.intact in
        let files = files_with (store_name t nodes) t nodes (lost_in e.lost) in
        AddsFront (W.contents out.old) (W.contents out.new) number.old files }
{
    let intact = export.intact;
    let names = names_in(&intact, &export.index);
    write_front(alloc, number, export, out)?;
    let mut indexes = DocumentIndexes::new(alloc);
    let kept = &mut indexes;
    write_folders(alloc, number, names, &intact, kept, out)?;
    write_messages(
        alloc, number, names, &intact, MESSAGE, "messages", kept, out,
    )?;
    write_messages(
        alloc,
        number,
        names,
        &intact,
        ASSOCIATED,
        "associated",
        kept,
        out,
    )?;
    Ok(())
}

// Writes all files.
fn write_files<W: Write>(
    alloc: Global,
    number: &mut u64,
    export: &Export,
    out: &mut W,
) -> Result<(), ExportFault>
    ensures all { let e = export.now in
        let files = all_files (text_of_damage e) (table_of_intact e.intact) (nodes_of_intact e.intact)
        (lost_in e.lost) in
        OnOk result (AddsFiles (W.contents out.old) (W.contents out.new) number.old number.new files) }
    ensures front { let e = export.now in
        let files = all_files (text_of_damage e) (table_of_intact e.intact) (nodes_of_intact e.intact)
        (lost_in e.lost) in
        AddsFront (W.contents out.old) (W.contents out.new) number.old files }
{
    write_damage(alloc, number, export, out)?;
    write_nodes(alloc, number, export, out)?;
    Ok(())
}

// A number of 64 bits is less than 2^64.
fn fits(number: u64)
    ensures { number < 2 ^ 64 }
{}

/// Writes the archive. Memory is taken for one document at a time, for indexes of lists, and none for values. After a fault the writer
/// holds a front of it. One that is written to its end gives, read by the rules of tar, exactly its files, in order.
pub fn emit_export<W: Write>(alloc: Global, export: &Export, out: &mut W) -> Result<(), ExportFault>
    ensures all { OnOk result (Appends (W.contents out.old) (W.contents out.new)
        (archive_in export.now)) }
    ensures front { AppendsFront (W.contents out.old) (W.contents out.new) (archive_in export.now) }
    ensures read { OnOk result (read_archive (archive_in export.now) ≡ Some (files_in export.now)) }
{
    let mut number = 0;
    write_files(alloc, &mut number, export, out)?;
    fits(number);
    emit(end(), out)?;
    Ok(())
}
