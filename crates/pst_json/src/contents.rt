//! The messages of a folder as a document.

ghost use Rattle.std.specs.Prelude.{◌≡◌, true, Ok, Err, IfOk, IfErr, IfSome, OnOk, option_map};
ghost use Rattle.serde_json.specs.View.{view};
ghost use Rattle.pst_ndb.specs.Views.{table_of_node, roots_of};
ghost use Rattle.pst_intact.specs.View.{table_of_intact, nodes_of_intact};
ghost use Rattle.pst_whole.specs.View.{lost_in};
ghost use Rattle.pst_value_json.specs.pst_tc.Tc.{node_of_tc};
ghost use Rattle.pst_value_json.specs.pst_tc.Values.{tc_rows};
ghost use Rattle.pst_value_json.specs.pst_text.Line.{data_line};
ghost use Rattle.pst_value_json.specs.pst_text.Parts.{list_data};
ghost use Rattle.pst_verify.specs.pst_msg.pst_mail.declared.items.Items.TheVariants.{Messages};
ghost use Rattle.pst_verify.specs.pst_msg.Nid.{is_type as is_type_of};
ghost use Rattle.pst_verify.specs.pst_msg.pst_mail.declared.nid.TheConstants.{FOLDER as FOLDER_KIND};
ghost use Rattle.pst_ndb.specs.Roots.{node_in};
ghost use Rattle.pst_verify.specs.pst_msg.Shown.{rows_there, folder_table};
ghost use Rattle.pst_verify.specs.pst_msg.View.{tc_roots};
ghost use Rattle.pst_json.specs.Contents.{listed_row_data, contents_data, contents_there, contents_of, contents_line as line_of_contents};
ghost use Rattle.pst_props.specs.Told.{TellsDoc};

use crate::listed::write_listed_row;
use pst_intact::Intact;
use pst_msg::{Items, listing_nid};
use pst_props::{DocFault, lend_tc, new_indexes};
use pst_value_json::{Leaf, Pen, Tc, end_line, only, write_nothing};
use pst_verify::{FOLDER, is_type};
use pst_whole::Lost;
use serde_json::Value as Doc;
use std::alloc::{AllocError, Global};

// The contents table of a folder, where it is there and nothing is told of it, or that there is no such folder.
#[tactic(auto, unfolding(crate::specs::Contents::node_of_kind))]
fn table_in<'a>(intact: &Intact<'a>, lost: &Lost, nid: u32) -> Result<Option<Tc<'a>>, DocFault>
    requires kind { is_type_of FOLDER_KIND nid ≡ true }
    ensures found { let t = table_of_intact intact.now in let nodes = nodes_of_intact intact.now in
        let all = lost_in lost.now in
        IfOk result (λ table. contents_there t nodes all nid (node_in nodes nid)
        ≡ Ok (contents_data t nodes all nid)) }
    ensures none { let t = table_of_intact intact.now in let nodes = nodes_of_intact intact.now in
        IfErr result (λ f. contents_there t nodes (lost_in lost.now) nid (node_in nodes nid) ≡ Err f) }
    ensures roots { let nodes = nodes_of_intact intact.now in
        IfOk result (λ table. option_map tc_roots table ≡ folder_table nodes Messages nid) }
    ensures table { let t = table_of_intact intact.now in
        IfOk result (λ table. IfSome table (λ x. table_of_node (node_of_tc x) ≡ t)) }
{
    let Some(folder) = intact.folder(nid) else {
        return Err(DocFault::NoFolder);
    };
    let _nid = folder.nid();
    match lost.told(listing_nid(nid, Items::Messages)) {
        Some(fault) => Err(DocFault::Bad(fault)),
        None => Ok(folder.contents()),
    }
}

// The same of any identifier, or why there is none.
#[tactic(auto, unfolding(crate::specs::Contents::contents_of))]
fn contents_table<'a>(
    intact: &Intact<'a>,
    lost: &Lost,
    nid: u32,
) -> Result<Option<Tc<'a>>, DocFault>
    ensures found { let t = table_of_intact intact.now in let nodes = nodes_of_intact intact.now in
        let all = lost_in lost.now in
        IfOk result (λ table. contents_of t nodes all nid ≡ Ok (contents_data t nodes all nid)) }
    ensures none { let t = table_of_intact intact.now in let nodes = nodes_of_intact intact.now in
        IfErr result (λ f. contents_of t nodes (lost_in lost.now) nid ≡ Err f) }
    ensures roots { let nodes = nodes_of_intact intact.now in
        IfOk result (λ table. option_map tc_roots table ≡ folder_table nodes Messages nid) }
    ensures table { let t = table_of_intact intact.now in
        IfOk result (λ table. IfSome table (λ x. table_of_node (node_of_tc x) ≡ t)) }
{
    if let Some(fault) = lost.behind(nid) {
        return Err(DocFault::Bad(fault));
    }
    if !is_type(FOLDER, nid) {
        return Err(DocFault::NoFolder);
    }
    match lost.own(nid) {
        Some(fault) => Err(DocFault::Bad(fault)),
        None => table_in(intact, lost, nid),
    }
}

// Writes what the rows of a table name, as a list. The table is lent the indexes of its list and its data, where they are long.
fn write_rows<P: Pen>(
    alloc: Global,
    intact: &Intact,
    lost: &Lost,
    table: Tc,
    pen: &mut P,
) -> Result<(), AllocError>
    ensures put { let i = intact.now in let node = node_of_tc table.entry in
        let rows = tc_rows (table_of_node node) (roots_of node) in
        let shown = listed_row_data (table_of_intact i) (nodes_of_intact i) (lost_in lost.now) in
        OnOk result (P.Puts pen.old pen.new (list_data shown rows)) }
    ensures kept { (base : P) → P.Keeps base pen.old → P.Keeps base pen.new }
{
    let mut own = new_indexes(alloc);
    own.turn(alloc, table.node(), 1)?;
    let lent = lend_tc(&own, table);
    let mut index = new_indexes(alloc);
    pen.open_list(alloc)?;
    let mut later = false;
    for row in lent.rows() {
        pen.comma(later)?;
        write_listed_row(alloc, intact, lost, row, &mut index, pen)?;
        pen.item(alloc)?;
        later = true;
    }
    pen.close_list(later)
}

// Writes those of a table, of no rows where it is not there.
fn write_listing<P: Pen>(
    alloc: Global,
    intact: &Intact,
    lost: &Lost,
    table: Option<Tc>,
    pen: &mut P,
) -> Result<(), AllocError>
    requires { let t = table_of_intact intact.now in
        IfSome table (λ x. table_of_node (node_of_tc x) ≡ t) }
    ensures put { let t = table_of_intact intact.now in
        let shown = listed_row_data t (nodes_of_intact intact.now) (lost_in lost.now) in
        OnOk result (P.Puts pen.old pen.new
        (list_data shown (rows_there t (option_map tc_roots table.entry)))) }
    ensures kept { (base : P) → P.Keeps base pen.old → P.Keeps base pen.new }
{
    match table {
        Some(table) => write_rows(alloc, intact, lost, table, pen),
        None => write_nothing(alloc, pen),
    }
}

// Writes the document of a folder, whose contents table this is.
#[tactic(auto, unfolding(crate::specs::Contents::contents_data))]
fn write_contents<P: Pen>(
    alloc: Global,
    intact: &Intact,
    lost: &Lost,
    nid: u32,
    table: Option<Tc>,
    pen: &mut P,
) -> Result<(), AllocError>
    requires table { let t = table_of_intact intact.now in
        IfSome table (λ x. table_of_node (node_of_tc x) ≡ t) }
    requires roots { let nodes = nodes_of_intact intact.now in
        option_map tc_roots table ≡ folder_table nodes Messages nid }
    ensures put { let t = table_of_intact intact.now in let nodes = nodes_of_intact intact.now in
        OnOk result (P.Puts pen.old pen.new (contents_data t nodes (lost_in lost.now) nid)) }
    ensures kept { (base : P) → P.Keeps base pen.old → P.Keeps base pen.new }
{
    pen.first(alloc, "folder", b"{\"folder\":")?;
    pen.leaf(alloc, &Leaf::Nid(Some(nid)))?;
    pen.next(alloc, "messages", b",\"messages\":")?;
    write_listing(alloc, intact, lost, table, pen)?;
    pen.close(alloc)
}

// Its tree.
fn table_doc(
    alloc: Global,
    intact: &Intact,
    lost: &Lost,
    nid: u32,
    table: Option<Tc>,
) -> Result<Doc, AllocError>
    requires table { let t = table_of_intact intact.now in
        IfSome table (λ x. table_of_node (node_of_tc x) ≡ t) }
    requires roots { let nodes = nodes_of_intact intact.now in
        option_map tc_roots table ≡ folder_table nodes Messages nid }
    ensures { let t = table_of_intact intact.now in let nodes = nodes_of_intact intact.now in
        IfOk result (λ d. view d ≡ contents_data t nodes (lost_in lost.now) nid) }
{
    let mut docs = Vec::new(alloc);
    write_contents(alloc, intact, lost, nid, table, &mut docs)?;
    Ok(only(docs))
}

// Its line.
#[tactic(auto, unfolding(pst_text::specs::Line::data_line))]
fn table_line(
    alloc: Global,
    intact: &Intact,
    lost: &Lost,
    nid: u32,
    table: Option<Tc>,
) -> Result<Vec<u8>, AllocError>
    requires table { let t = table_of_intact intact.now in
        IfSome table (λ x. table_of_node (node_of_tc x) ≡ t) }
    requires roots { let nodes = nodes_of_intact intact.now in
        option_map tc_roots table ≡ folder_table nodes Messages nid }
    ensures { let t = table_of_intact intact.now in let nodes = nodes_of_intact intact.now in
        IfOk result (λ line.
        line.items ≡ data_line (contents_data t nodes (lost_in lost.now) nid)) }
{
    let mut text = Vec::new(alloc);
    write_contents(alloc, intact, lost, nid, table, &mut text)?;
    end_line(text)
}

/// The messages of a folder among intact nodes as a JSON object: the identifier of the folder, and an array that has an object for
/// each row of its contents table, in order of their identifiers, with the class of the message, its identifier, who sent it, and
/// its subject, each a text or null; or, of a message of which something is told, with that fault and its identifier. Bad with what
/// is told of the folder or of that table; NoFolder where there is no node of type 02 with the identifier.
#[tactic(auto, using(pst_props::proofs::FoundLemmas::tells_fault))]
pub fn contents_doc<'a>(
    alloc: Global,
    intact: &Intact<'a>,
    lost: &Lost<'a>,
    nid: u32,
) -> Result<Doc, DocFault>
    ensures { let t = table_of_intact intact.now in let nodes = nodes_of_intact intact.now in
        TellsDoc view result (contents_of t nodes (lost_in lost.now) nid) }
{
    let table = contents_table(intact, lost, nid)?;
    Ok(table_doc(alloc, intact, lost, nid, table)?)
}

/// The line that shows the messages of a folder: the compact text of their document, and a line feed; or why there is none. It is
/// made message by message: beside the text, memory is taken for one at a time, and for indexes of lists.
#[tactic(auto, using(pst_props::proofs::FoundLemmas::lined_fault), unfolding(crate::specs::Contents::contents_line))]
pub fn contents_line<'a>(
    alloc: Global,
    intact: &Intact<'a>,
    lost: &Lost<'a>,
    nid: u32,
) -> Result<Vec<u8>, DocFault>
    ensures { let t = table_of_intact intact.now in let nodes = nodes_of_intact intact.now in
        TellsDoc (λ t2. t2.items) result (line_of_contents t nodes (lost_in lost.now) nid) }
{
    let table = contents_table(intact, lost, nid)?;
    Ok(table_line(alloc, intact, lost, nid, table)?)
}
