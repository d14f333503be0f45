//! The documents of a store: each as a tree, whose text is then its line.

use crate::refused::{Refused, holds};
use crate::remains::{damaged, remains_of};
use pst_bytes::Image;
use pst_damage::damage_beside;
use pst_damage_json::damage_line;
use pst_export::{Export, emit_export, export_of};
use pst_header::read_header;
use pst_json::{
    Intact, Lost, check_doc, check_line, contents_doc, contents_line, find_whole, folders_doc,
    folders_line, head_doc, head_line, hex_doc, messages_text, names_index, nodes_doc, nodes_line,
    pc_doc, props_doc, props_line, reach_among, read_nodes, table_doc, text, text_of, value_doc,
    verify,
};
use pst_value_json::{Filed, NameMap, Pc, Tc, write_props, write_table};
use pst_verify::Verified;
use serde_json::Value as Doc;
use std::alloc::Global;

// What stands for the digest of a file.
const DIGEST: [u8; 32] = [0x5a; 32];

// The text of a tree is the line.
fn is_line(alloc: Global, doc: &Doc, line: &[u8]) -> Result<(), Refused> {
    holds(text(alloc, doc)?.as_slice() == line)
}

/// `verify`, and the documents of the header and of the report.
pub(crate) fn report(alloc: Global, bytes: &[u8]) -> Result<(), Refused> {
    let header = read_header(Image::new(bytes))?;
    is_line(
        alloc,
        &head_doc(alloc, &header)?,
        &head_line(alloc, &header)?,
    )?;
    let Verified { report, .. } = verify(alloc, bytes)?;
    is_line(
        alloc,
        &check_doc(alloc, &report, Some(DIGEST))?,
        &check_line(alloc, &report, Some(DIGEST))?,
    )
}

/// The documents of the nodes and of the folders.
pub(crate) fn lists(alloc: Global, bytes: &[u8]) -> Result<(), Refused> {
    let tree = read_nodes(alloc, Image::new(bytes))?;
    is_line(alloc, &nodes_doc(alloc, &tree)?, &nodes_line(alloc, &tree)?)?;
    let verified = verify(alloc, bytes)?;
    verified.is_sound();
    let intact = Intact::of(&verified.store);
    let reached = &verified.report.reached;
    is_line(
        alloc,
        &folders_doc(alloc, &intact, &Lost::Nothing, reached)?,
        &folders_line(alloc, &intact, &Lost::Nothing, reached)?,
    )
}

// The contents of each folder of type 02 among intact nodes.
fn contents(alloc: Global, intact: &Intact, lost: &Lost) -> Result<(), Refused> {
    for folder in intact.folders() {
        let nid = folder.nid();
        if nid % 32 == 2 {
            let doc = contents_doc(alloc, intact, lost, nid)?;
            is_line(alloc, &doc, &contents_line(alloc, intact, lost, nid)?)?;
        }
    }
    Ok(())
}

/// The contents of each folder, and the properties of each message, of its attachments and of the store.
pub(crate) fn nodes(alloc: Global, bytes: &[u8]) -> Result<(), Refused> {
    let store = verify(alloc, bytes)?.store;
    let intact = Intact::of(&store);
    let index = names_index(alloc, &intact)?;
    contents(alloc, &intact, &Lost::Nothing)?;
    for message in store.messages() {
        let nid = message.node().nid();
        let doc = props_doc(alloc, &intact, &index, &[nid], true)?;
        is_line(
            alloc,
            &doc,
            &props_line(alloc, &intact, &index, &[nid], true)?,
        )?;
        for attachment in message.attachments() {
            let path = [nid, attachment.node().nid()];
            let doc = props_doc(alloc, &intact, &index, &path, false)?;
            is_line(
                alloc,
                &doc,
                &props_line(alloc, &intact, &index, &path, false)?,
            )?;
        }
    }
    let _lines = messages_text(alloc, &intact)?;
    let doc = props_doc(alloc, &intact, &index, &[0x21], false)?;
    is_line(
        alloc,
        &doc,
        &props_line(alloc, &intact, &index, &[0x21], false)?,
    )
}

/// What is whole of a damaged file, and the documents of that.
pub(crate) fn whole(alloc: Global, bytes: &[u8]) -> Result<(), Refused> {
    let damaged = damaged(alloc, bytes)?;
    let whole = find_whole(alloc, remains_of(alloc, &damaged)?)?;
    let pages = whole.pages(alloc)?;
    let (intact, lost) = (whole.intact(), whole.lost(&pages));
    let reached = reach_among(alloc, &intact)?;
    is_line(
        alloc,
        &folders_doc(alloc, &intact, &lost, &reached)?,
        &folders_line(alloc, &intact, &lost, &reached)?,
    )?;
    contents(alloc, &intact, &lost)?;
    let _lines = messages_text(alloc, &intact)?;
    Ok(())
}

// An archive, in memory: of whole blocks.
fn is_archive(alloc: Global, export: &Export) -> Result<(), Refused> {
    let mut out = Vec::new(alloc);
    match emit_export(alloc, export, &mut out) {
        Ok(()) => holds(out.len() > 1024 && out.len() % 512 == 0),
        Err(_) => Err(Refused::Memory),
    }
}

/// The archive of the store.
pub(crate) fn archive(alloc: Global, bytes: &[u8]) -> Result<(), Refused> {
    let verified = verify(alloc, bytes)?;
    let intact = Intact::of(&verified.store);
    let reached = reach_among(alloc, &intact)?;
    let size = bytes.len() as u64;
    let export = export_of(alloc, size, intact, Lost::Nothing, reached, None)?;
    is_archive(alloc, &export)
}

/// The archive of what is whole of a damaged file, before which it is told what is broken.
pub(crate) fn archive_of_whole(alloc: Global, bytes: &[u8]) -> Result<(), Refused> {
    let damaged = damaged(alloc, bytes)?;
    let line = damage_line(
        alloc,
        &damage_beside(alloc, remains_of(alloc, &damaged)?)?,
        None,
    )?;
    let whole = find_whole(alloc, remains_of(alloc, &damaged)?)?;
    let pages = whole.pages(alloc)?;
    let (intact, lost) = (whole.intact(), whole.lost(&pages));
    let reached = reach_among(alloc, &intact)?;
    let size = damaged.len() as u64;
    let export = export_of(alloc, size, intact, lost, reached, Some(line))?;
    is_archive(alloc, &export)
}

// What stood before a text that more was written behind stands there still, also where memory was refused.
fn stands(text: &[u8]) -> Result<(), Refused> {
    holds(text.starts_with(b"behind "))
}

// Writes properties behind a text.
fn write_behind(alloc: Global, pc: &Pc, names: Option<NameMap>) -> Result<(), Refused> {
    let mut text = Vec::from_slice(alloc, b"behind ")?;
    let written = write_props(alloc, pc, names, Filed::Nothing, true, &mut text);
    stands(&text)?;
    Ok(written?)
}

// Writes rows behind a text.
fn write_rows_behind(alloc: Global, table: &Tc) -> Result<(), Refused> {
    let mut text = Vec::from_slice(alloc, b"behind ")?;
    let written = write_table(alloc, table, true, &mut text);
    stands(&text)?;
    Ok(written?)
}

/// The values of the store's own properties, as documents and as text, and the rows of the root folder's table.
pub(crate) fn values(alloc: Global, bytes: &[u8]) -> Result<(), Refused> {
    let store = verify(alloc, bytes)?.store;
    let pc = store.props();
    let _all = pc_doc(alloc, &pc, store.names(), false)?;
    write_behind(alloc, &pc, store.names())?;
    for prop in pc.props() {
        let _shown = value_doc(alloc, prop.kind, prop.value)?;
        let _bytes = hex_doc(alloc, prop.value)?;
        let _text = text_of(alloc, prop.value)?;
    }
    if let Some(table) = store.root().hierarchy() {
        let _rows = table_doc(alloc, &table, false)?;
        write_rows_behind(alloc, &table)?;
    }
    Ok(())
}
