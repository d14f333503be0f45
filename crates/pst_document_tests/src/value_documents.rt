//! What is written with each pen, of small stores, against texts written by hand.

use crate::told::{MEMORY, is};
use pst_bytes::Image;
use pst_make::{m0, m1};
use pst_ndb::{Node, check_ndb};
use pst_pc::check_pc;
use pst_tc::check_tc;
use pst_value_json::*;
use std::alloc::{AllocError, Global};
use std::process::Abort;

// A node of an image.
fn node_of<'a, R: Abort>(rt: &R, alloc: Global, image: &'a [u8], nid: u32) -> Node<'a> {
    let checked = check_ndb(alloc, Image::new(image)).expect(rt, "refused");
    checked.ndb.node(nid).expect(rt, "no node")
}

const PROPERTIES: &str =
    "{\"nid\":\"0x21\",\"props\":[{\"id\":\"3001\",\"type\":\"001F\",\"value\":\"M0\"}]}";

const ROWS: &str =
    "{\"cells\":[{\"tag\":\"67F20003\",\"value\":322},{\"tag\":\"36020003\",\"value\":7}],\"row\":\"0x142\"}]";

// An object of properties.
fn write_node<P: Pen>(alloc: Global, pc: &Pc, pen: &mut P) -> Result<(), AllocError> {
    pen.first(alloc, "nid", b"{\"nid\":")?;
    pen.leaf(alloc, &Leaf::Nid(Some(0x21)))?;
    pen.next(alloc, "props", b",\"props\":")?;
    write_props(alloc, pc, None, Filed::Nothing, false, pen)?;
    pen.close(alloc)
}

// An object of the rows of a table.
fn write_rows<P: Pen>(alloc: Global, tc: &Tc, pen: &mut P) -> Result<(), AllocError> {
    pen.first(alloc, "kind", b"{\"kind\":")?;
    pen.leaf(alloc, &Leaf::Word("table"))?;
    pen.next(alloc, "rows", b",\"rows\":")?;
    write_table(alloc, tc, false, pen)?;
    pen.next(alloc, "shown", b",\"shown\":")?;
    pen.leaf(alloc, &Leaf::Natural(1))?;
    pen.next(alloc, "store", b",\"store\":")?;
    pen.leaf(alloc, &Leaf::Nid(None))?;
    pen.close(alloc)
}

// An object of a list without items, and a digest.
fn write_digest<P: Pen>(alloc: Global, pen: &mut P) -> Result<(), AllocError> {
    pen.first(alloc, "lost", b"{\"lost\":")?;
    write_nothing(alloc, pen)?;
    write_digest_member(alloc, Some([0x4d; 32]), pen)?;
    pen.close(alloc)
}

// Two objects of properties, as a list.
fn write_two<P: Pen>(alloc: Global, pc: &Pc, pen: &mut P) -> Result<(), AllocError> {
    pen.open_list(alloc)?;
    pen.comma(false)?;
    write_node(alloc, pc, pen)?;
    pen.item(alloc)?;
    pen.comma(true)?;
    write_node(alloc, pc, pen)?;
    pen.item(alloc)?;
    pen.close_list(true)
}

fn is_made_a_tree<R: Abort>(rt: &R, alloc: Global, pc: &Pc, wanted: &[u8]) {
    let mut docs = Vec::new(alloc);
    write_node(alloc, pc, &mut docs).expect(rt, MEMORY);
    let told = text(alloc, &only(docs)).expect(rt, MEMORY);
    is(rt, told.as_slice(), wanted);
}

fn is_made_a_line<R: Abort>(rt: &R, alloc: Global, pc: &Pc, wanted: &[u8]) {
    let mut text = Vec::new(alloc);
    write_node(alloc, pc, &mut text).expect(rt, MEMORY);
    let line = end_line(text).expect(rt, MEMORY);
    is(rt, line.as_slice(), wanted);
}

fn are_listed<R: Abort>(rt: &R, alloc: Global, pc: &Pc) {
    let mut list = Vec::new(alloc);
    write_two(alloc, pc, &mut list).expect(rt, MEMORY);
    let wanted = format!(in alloc; "[{PROPERTIES},{PROPERTIES}]").expect(rt, MEMORY);
    is(rt, list.as_slice(), wanted.as_bytes());
}

#[test]
fn properties_become_a_tree_and_a_line(rt: HostRuntime) {
    let alloc = rt.alloc();
    let image = m0(alloc).expect(&rt, MEMORY);
    let Ok(pc) = check_pc(node_of(&rt, alloc, &image, 0x21)) else {
        rt.panic("no properties");
    };
    let wanted = format!(in alloc; "{PROPERTIES}\n").expect(&rt, MEMORY);
    is_made_a_tree(&rt, alloc, &pc, wanted.as_bytes());
    is_made_a_line(&rt, alloc, &pc, wanted.as_bytes());
    are_listed(&rt, alloc, &pc);
}

#[test]
fn rows_become_a_line(rt: HostRuntime) {
    let alloc = rt.alloc();
    let image = m1(alloc).expect(&rt, MEMORY);
    let Ok(tc) = check_tc(node_of(&rt, alloc, &image, 0x12d)) else {
        rt.panic("no table");
    };
    let mut text = Vec::new(alloc);
    write_rows(alloc, &tc, &mut text).expect(&rt, MEMORY);
    let line = end_line(text).expect(&rt, MEMORY);
    let wanted = format!(in alloc;
        "{{\"kind\":\"table\",\"rows\":[{ROWS},\"shown\":1,\"store\":null}}\n"
    ).expect(&rt, MEMORY);
    is(&rt, line.as_slice(), wanted.as_bytes());
}

#[test]
fn a_digest_stands_behind_others(rt: HostRuntime) {
    let alloc = rt.alloc();
    let mut text = Vec::new(alloc);
    write_digest(alloc, &mut text).expect(&rt, MEMORY);
    let digits = "4d4d4d4d4d4d4d4d4d4d4d4d4d4d4d4d4d4d4d4d4d4d4d4d4d4d4d4d4d4d4d4d";
    let wanted = format!(in alloc; "{{\"lost\":[],\"sha256\":\"{digits}\"}}").expect(&rt, MEMORY);
    is(&rt, text.as_slice(), wanted.as_bytes());
}

#[test]
fn a_document_has_its_line(rt: HostRuntime) {
    let alloc = rt.alloc();
    let image = m1(alloc).expect(&rt, MEMORY);
    let Ok(tc) = check_tc(node_of(&rt, alloc, &image, 0x12d)) else {
        rt.panic("no table");
    };
    let doc = table_doc(alloc, &tc, false).expect(&rt, MEMORY);
    let line = text(alloc, &doc).expect(&rt, MEMORY);
    let wanted = format!(in alloc; "[{ROWS}\n").expect(&rt, MEMORY);
    is(&rt, line.as_slice(), wanted.as_bytes());
}
