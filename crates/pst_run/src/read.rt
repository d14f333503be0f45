//! What commands read of intact nodes: of a store, or of what is whole of a damaged file.

ghost use Rattle.std.specs.Prelude.{◌≡◌, ◌++◌, None, true, map, option_map, IfOk};
ghost use Rattle.pst_btree.specs.Order.{Rises};
ghost use Rattle.pst_ask.specs.Ask.{nids_of, wanted_of};
ghost use Rattle.pst_export.specs.Store.{export_told};
ghost use Rattle.pst_json.specs.NamesIndex.{IsNamesIndex};
ghost use Rattle.pst_json.specs.pst_intact.View.{table_of_intact, nodes_of_intact};
ghost use Rattle.pst_json.specs.pst_verify.pst_reach.Levels.{reaches_of};
ghost use Rattle.pst_json.specs.pst_verify.pst_reach.Path.{reach_nid};
ghost use Rattle.pst_json.specs.pst_pc.View.{property_of};
ghost use Rattle.pst_json.specs.pst_whole.View.{lost_in};
ghost use Rattle.pst_json.specs.Folders.{folders_line as line_of_folders};
ghost use Rattle.pst_json.specs.Property.{written_of};
ghost use Rattle.pst_json.specs.Told.{TellsDoc};
ghost use Rattle.pst_run.specs.Answer.{Gives, archive_told, contents_read, lines_of_paths, path_read, plain, props_read, read_with, reads, told_in, value_read};

use crate::refusal::Refusal;
use crate::shown::{Shown, Text};
use pst_ask::{Ask, Path};
use pst_export::export_of;
use pst_json::{
    DocFault, Intact, Lost, NamesIndex, Prop, Reach, TEXT, contents_line, folders_line, lost_at,
    messages_text, names_index, property_at, props_line, reach_among, text_of,
};
use std::alloc::{AllocError, Global};
use std::slice;

// The folders.
fn folders_shown(alloc: Global, intact: &Intact, lost: &Lost) -> Result<Shown<'static>, AllocError>
    ensures { let t = table_of_intact intact.now in let nodes = nodes_of_intact intact.now in
        IfOk result (λ s. told_in s ≡ plain (line_of_folders t nodes (lost_in lost.now))) }
{
    let (here, told) = (*intact, *lost);
    let reached = reach_among(alloc, &here)?;
    let text = folders_line(alloc, &here, &told, &reached)?;
    Ok(Shown::made(text))
}

/// The messages of a folder.
pub(crate) fn contents_shown<'p, 'a>(
    alloc: Global,
    nid: &'p u32,
    intact: &Intact<'a>,
    lost: &Lost<'a>,
) -> Result<Shown<'static>, Refusal<'p>>
    ensures { let t = table_of_intact intact.now in let nodes = nodes_of_intact intact.now in
        Gives result (contents_read t nodes (lost_in lost.now) nid.now) }
{
    match contents_line(alloc, intact, lost, *nid) {
        Ok(text) => Ok(Shown::made(text)),
        Err(fault) => Err(Refusal::of_document(slice::from_ref(nid), fault)),
    }
}

// A line behind a text.
fn joined(mut text: Vec<u8>, line: Vec<u8>) -> Result<Vec<u8>, AllocError>
    ensures { IfOk result (λ v. v.items ≡ text.items ++ line.items) }
{
    if text.is_empty() {
        return Ok(line);
    }
    text.extend_from_slice(&line)?;
    Ok(text)
}

// The properties of what a path leads to, unless something is told of the node with which it begins.
fn path_line<'a>(
    alloc: Global,
    places: bool,
    path: &[u32],
    intact: &Intact<'a>,
    lost: &Lost,
    index: &'a NamesIndex,
) -> Result<Vec<u8>, DocFault>
    requires { IsNamesIndex (table_of_intact intact.now) (nodes_of_intact intact.now) index.now }
    ensures { let t = table_of_intact intact.now in let nodes = nodes_of_intact intact.now in
        TellsDoc (λ v. v.items) result (path_read places t nodes (lost_in lost.now) path.now) }
{
    match lost_at(lost, path) {
        Some(fault) => Err(DocFault::Bad(fault)),
        None => props_line(alloc, intact, index, path, places),
    }
}

// The properties of what paths lead to, a line for each. The index of their names is made once for all.
#[tactic(auto, using(crate::proofs::AnswerLemmas::line_first, crate::proofs::AnswerLemmas::line_more))]
fn props_lines<'p, 'a>(
    alloc: Global,
    places: bool,
    paths: &'p [Path],
    intact: &Intact<'a>,
    lost: &Lost,
    index: &'a NamesIndex,
) -> Result<Shown<'static>, Refusal<'p>>
    requires { IsNamesIndex (table_of_intact intact.now) (nodes_of_intact intact.now) index.now }
    ensures { let t = table_of_intact intact.now in let nodes = nodes_of_intact intact.now in
        let line = path_read places t nodes (lost_in lost.now) in
        Gives result (lines_of_paths line (map nids_of paths.now)) }
{
    let mut text = Vec::new(alloc);
    for path in paths {
        match path_line(alloc, places, &path.nids, intact, lost, index) {
            Ok(line) => text = joined(text, line)?,
            Err(fault) => return Err(Refusal::of_document(&path.nids, fault)),
        }
    }
    Ok(Shown::made(text))
}

/// The properties of what paths lead to, one after another.
pub(crate) fn props_shown<'p>(
    alloc: Global,
    places: bool,
    paths: &'p [Path],
    intact: &Intact,
    lost: &Lost,
) -> Result<Shown<'static>, Refusal<'p>>
    ensures { let t = table_of_intact intact.now in let nodes = nodes_of_intact intact.now in
        Gives result (props_read places t nodes (lost_in lost.now) (map nids_of paths.now)) }
{
    let here = *intact;
    let index = names_index(alloc, &here)?;
    props_lines(alloc, places, paths, &here, lost, &index)
}

// What is written of a property: its value where it lies; or its text in UTF-8, where that is asked for and it is one.
fn shown_value<'a>(alloc: Global, text: bool, prop: Prop<'a>) -> Result<Shown<'a>, AllocError>
    ensures { IfOk result (λ s. told_in s ≡ plain (written_of text (property_of prop.entry))) }
{
    if text && prop.kind == TEXT {
        return Ok(Shown::made(text_of(alloc, prop.value)?.into_bytes()));
    }
    Ok(Shown {
        text: Text::Lent(prop.value),
        fails: false,
    })
}

/// The value of one property of what a path leads to.
pub(crate) fn value_shown<'p, 'a>(
    alloc: Global,
    text: bool,
    path: &'p Path,
    id: u16,
    intact: &Intact<'a>,
    lost: &Lost<'a>,
) -> Result<Shown<'a>, Refusal<'p>>
    ensures { let t = table_of_intact intact.now in let nodes = nodes_of_intact intact.now in
        Gives result (value_read text t nodes (lost_in lost.now) (nids_of path.now) id) }
{
    if let Some(fault) = lost_at(lost, &path.nids) {
        return Err(Refusal::of_document(&path.nids, DocFault::Bad(fault)));
    }
    match property_at(intact, &path.nids, id) {
        Ok(prop) => Ok(shown_value(alloc, text, prop)?),
        Err(fault) => Err(Refusal::of_document(&path.nids, fault)),
    }
}

/// All of intact nodes of a file of so many bytes as an archive, where these folders among them are reached, and this is told of all that
/// is broken.
pub(crate) fn archive_shown<'a>(
    alloc: Global,
    size: u64,
    damage: Option<Vec<u8>>,
    intact: &Intact<'a>,
    lost: &Lost<'a>,
    reached: Vec<Reach>,
) -> Result<Shown<'a>, Refusal<'static>>
    requires reached { let i = intact.now in
        reached.items ≡ reaches_of (table_of_intact i) (nodes_of_intact i) }
    requires rise { Rises 0 None (map reach_nid reached.items) }
    ensures { let t = table_of_intact intact.now in let nodes = nodes_of_intact intact.now in
        let broken = option_map (λ v. v.items) damage in
        Gives result (archive_told (export_told size broken t nodes (lost_in lost.now))) }
{
    match export_of(alloc, size, *intact, *lost, reached, damage) {
        Ok(export) => Ok(Shown {
            text: Text::Archive(export),
            fails: false,
        }),
        Err(fault) => Err(Refusal::of_document(&[], fault)),
    }
}

/// Whether a command reads nodes, so that it may be asked of what is whole of a damaged file.
pub fn reads_nodes(ask: &Ask) -> bool
    ensures { result ≡ reads (wanted_of ask.now) }
{
    matches!(
        ask,
        Ask::Folders
            | Ask::Contents(_)
            | Ask::Messages
            | Ask::Props { .. }
            | Ask::Value { .. }
            | Ask::Export
    )
}

/// What such a command shows of intact nodes of a file of so many bytes, where this is told of others, and of all that is broken.
#[tactic(auto, unfolding(crate::specs::Answer::read_with))]
pub(crate) fn read_answer<'p, 'a>(
    alloc: Global,
    ask: &'p Ask,
    size: u64,
    damage: Option<Vec<u8>>,
    intact: &Intact<'a>,
    lost: &Lost<'a>,
) -> Result<Shown<'a>, Refusal<'p>>
    requires { reads (wanted_of ask.now) ≡ true }
    ensures { let t = table_of_intact intact.now in let nodes = nodes_of_intact intact.now in
        let broken = option_map (λ v. v.items) damage in
        Gives result (read_with (wanted_of ask.now) size broken t nodes (lost_in lost.now)) }
{
    if let Ask::Export = ask {
        let reached = reach_among(alloc, intact)?;
        return archive_shown(alloc, size, damage, intact, lost, reached);
    }
    match ask {
        Ask::Folders => Ok(folders_shown(alloc, intact, lost)?),
        Ask::Contents(nid) => contents_shown(alloc, nid, intact, lost),
        Ask::Messages => Ok(Shown::made(messages_text(alloc, intact)?)),
        Ask::Props { places, paths } => props_shown(alloc, *places, paths, intact, lost),
        Ask::Value { text, path, id } => value_shown(alloc, *text, path, *id, intact, lost),
        _ => unreachable!(),
    }
}
