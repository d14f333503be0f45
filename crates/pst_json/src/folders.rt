//! The folders of a store as a document.

ghost use Rattle.std.specs.Prelude.{◌≡◌, None, IfOk, OnOk, map};
ghost use Rattle.serde_json.specs.View.{view};
ghost use Rattle.pst_btree.specs.Order.{Rises};
ghost use Rattle.pst_intact.specs.View.{table_of_intact, nodes_of_intact};
ghost use Rattle.pst_whole.specs.View.{lost_in};
ghost use Rattle.pst_verify.specs.pst_reach.Levels.{reaches_of};
ghost use Rattle.pst_verify.specs.pst_reach.Path.{reach_nid};
ghost use Rattle.pst_json.specs.Folders.{folders_data, folders_line as line_of_folders};

use crate::folder_rows::FolderRows;
use pst_intact::Intact;
use pst_value_json::{Pen, end_line, only};
use pst_verify::Reach;
use pst_whole::Lost;
use serde_json::Value as Doc;
use std::alloc::{AllocError, Global};

// How many bytes the row of a folder takes, where its name and its path are short and it has no subfolders.
const ROOM: usize = 128;

// Writes the document.
#[tactic(auto, unfolding(crate::specs::Folders::folders_data))]
fn write_folders<'a, P: Pen>(
    alloc: Global,
    intact: &Intact<'a>,
    lost: &Lost<'a>,
    reached: &'a [Reach],
    pen: &mut P,
) -> Result<(), AllocError>
    requires reached { let t = table_of_intact intact.now in
        reached.now ≡ reaches_of t (nodes_of_intact intact.now) }
    requires rise { Rises 0 None (map reach_nid reached.now) }
    ensures put { let t = table_of_intact intact.now in let nodes = nodes_of_intact intact.now in
        OnOk result (P.Puts pen.old pen.new (folders_data t nodes (lost_in lost.now))) }
    ensures kept { (base : P) → P.Keeps base pen.old → P.Keeps base pen.new }
{
    let mut rows = FolderRows::of(alloc, intact, lost, reached);
    pen.first(alloc, "folders", b"{\"folders\":")?;
    rows.write_all(alloc, pen)?;
    pen.close(alloc)
}

/// The folders and search folders among intact nodes as a JSON object with one member, an array that has an object for each: first
/// those that the root folder reaches, then the others, both in order of their identifiers. A folder has the numbers of the
/// messages that belong to it and that are in it, its name or null, its identifier, the identifiers from the root folder down
/// the parents to it or null where that does not reach it, and those of its subfolders. In place of a table of which something is
/// told stands null. Those that are reached are what `reach` or `reach_among` gives of these nodes.
pub fn folders_doc<'a>(
    alloc: Global,
    intact: &Intact<'a>,
    lost: &Lost<'a>,
    reached: &'a [Reach],
) -> Result<Doc, AllocError>
    requires reached { let t = table_of_intact intact.now in
        reached.now ≡ reaches_of t (nodes_of_intact intact.now) }
    requires rise { Rises 0 None (map reach_nid reached.now) }
    ensures { let t = table_of_intact intact.now in let nodes = nodes_of_intact intact.now in
        IfOk result (λ d. view d ≡ folders_data t nodes (lost_in lost.now)) }
{
    let mut docs = Vec::new(alloc);
    write_folders(alloc, intact, lost, reached, &mut docs)?;
    Ok(only(docs))
}

/// The line that shows the folders: the compact text of their document, and a line feed. It is made folder by folder: beside the
/// text, memory is taken for one folder at a time; some 40 bytes for each table of more than 2,048 bytes, and up to 8 for each row of
/// such a table of subfolders that several have; and for indexes of lists. Room for those that are reached is taken at the start, so
/// that a text whose names and paths are short need not be moved while it grows.
#[tactic(auto, unfolding(crate::specs::Folders::folders_line, pst_text::specs::Line::data_line))]
pub fn folders_line<'a>(
    alloc: Global,
    intact: &Intact<'a>,
    lost: &Lost<'a>,
    reached: &'a [Reach],
) -> Result<Vec<u8>, AllocError>
    requires reached { let t = table_of_intact intact.now in
        reached.now ≡ reaches_of t (nodes_of_intact intact.now) }
    requires rise { Rises 0 None (map reach_nid reached.now) }
    ensures { let t = table_of_intact intact.now in let nodes = nodes_of_intact intact.now in
        IfOk result (λ t2. t2.items ≡ line_of_folders t nodes (lost_in lost.now)) }
{
    let mut text = Vec::new(alloc);
    text.reserve(ROOM.saturating_mul(reached.len()))?;
    write_folders(alloc, intact, lost, reached, &mut text)?;
    end_line(text)
}
