//! The files of folders.

ghost use Rattle.std.specs.Prelude.{◌≡◌, IfOk, OnOk, [], ◌∷◌, codes, string_bytes};
ghost use Rattle.pst_ndb.specs.NodeTable.{table_of_nodes};
ghost use Rattle.pst_ndb.specs.Roots.{all_roots};
ghost use Rattle.pst_json.specs.DocumentIndexes.{AreDocumentIndexes};
ghost use Rattle.pst_value_json.specs.Props.{names_told};
ghost use Rattle.pst_intact.specs.View.{intact_beside, intact_roots, table_of_intact, nodes_of_intact};
ghost use Rattle.pst_verify.specs.pst_msg.Values.{is_folder};
ghost use Rattle.pst_verify.specs.pst_store.Kind.{of_kind};
ghost use Rattle.pst_export.specs.Files.{path_of};
ghost use Rattle.pst_export.specs.Held.{folder_in as folder_called};
ghost use Rattle.pst_export.specs.Store.{folder_file, folder_files};
ghost use Rattle.pst_export.specs.Written.{AddsFiles, AddsFront};

use crate::fault::ExportFault;
use crate::files::write_bytes;
use crate::walk::folder_in;
use pst_intact::{Intact, IntactFolder};
use pst_json::{DocumentIndexes, node_line};
use pst_msg::NameMap;
use std::alloc::{AllocError, Global};
use std::io::Write;

// The name of the file of a folder.
fn folder_path(alloc: Global, nid: u32) -> Result<String, AllocError>
    ensures { IfOk result (λ s.
        string_bytes s ≡ path_of (folder_called (codes "folders") nid) (codes "props.json")) }
{
    let mut path = folder_in(alloc, "folders", nid)?;
    path.push_str("/")?;
    path.push_str("props.json")?;
    Ok(path)
}

// Writes the file of a folder.
#[tactic(auto, unfolding(crate::specs::Store::folder_file))]
fn write_folder<W: Write>(
    alloc: Global,
    number: &mut u64,
    names: Option<NameMap>,
    folder: IntactFolder,
    indexes: &mut DocumentIndexes,
    out: &mut W,
) -> Result<(), ExportFault>
    requires { AreDocumentIndexes (table_of_nodes (intact_beside folder)) indexes.old }
    ensures known { AreDocumentIndexes (table_of_nodes (intact_beside folder.entry)) indexes.new }
    ensures all { let told = names_told names.entry in
        let t = table_of_nodes (intact_beside folder.entry) in
        let file = folder_file told t (intact_roots folder.entry) in
        OnOk result (AddsFiles (W.contents out.old) (W.contents out.new) number.old number.new
        (file ∷ [])) }
    ensures front { let told = names_told names.entry in
        let t = table_of_nodes (intact_beside folder.entry) in
        let file = folder_file told t (intact_roots folder.entry) in
        AddsFront (W.contents out.old) (W.contents out.new) number.old (file ∷ []) }
{
    folder.is_sound();
    let line = node_line(alloc, folder.pc(), names, indexes)?;
    let path = folder_path(alloc, folder.nid())?;
    write_bytes(alloc, number, path.as_bytes(), 0, &line, out)?;
    Ok(())
}

/// Writes the files of all folders and search folders.
pub(crate) fn write_folders<W: Write>(
    alloc: Global,
    number: &mut u64,
    names: Option<NameMap>,
    intact: &Intact,
    indexes: &mut DocumentIndexes,
    out: &mut W,
) -> Result<(), ExportFault>
    requires { AreDocumentIndexes (table_of_intact intact.now) indexes.old }
    ensures known { AreDocumentIndexes (table_of_intact intact.now) indexes.new }
    ensures all { let told = names_told names.entry in let i = intact.now in
        let files = folder_files told (table_of_intact i) (of_kind is_folder (all_roots (nodes_of_intact i))) in
        OnOk result (AddsFiles (W.contents out.old) (W.contents out.new) number.old number.new files) }
    ensures front { let told = names_told names.entry in let i = intact.now in
        let files = folder_files told (table_of_intact i) (of_kind is_folder (all_roots (nodes_of_intact i))) in
        AddsFront (W.contents out.old) (W.contents out.new) number.old files }
{
    for folder in intact.folders() {
        write_folder(alloc, number, names, folder, indexes, out)?;
    }
    Ok(())
}
