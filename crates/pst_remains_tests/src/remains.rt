//! Damaged files: small stores with bytes changed, and what is told of them and left.

mod decoded;
mod headers;
mod left;
mod pages;
mod parts;

use crate::told::{MEMORY, is_at};
use pst_bytes::Image;
use pst_fault::Fault;
use pst_make::{Change, change_all, m0};
use pst_remains::{Remains, find_remains};
use std::alloc::Global;
use std::process::Abort;

// Changes, and the line that is told of what they make of the small store.
type Row<'a> = (&'a [Change<'a>], &'a str);

// What remains of a file that has all bytes of a header.
fn remains_of<'a, R: Abort>(rt: &R, alloc: Global, image: &'a [u8]) -> Remains<'a> {
    let image = Image::new(image);
    if image.len() < 564 {
        rt.panic("no header");
    }
    match find_remains(alloc, image) {
        Ok(remains) => remains,
        Err(_) => rt.panic("refused"),
    }
}

// Puts a fault behind a line: its kind, its place, and the identifier of the page or block.
fn put_fault<R: Abort>(rt: &R, alloc: Global, line: &mut String, part: &str, fault: Fault) {
    let (kind, at, bid) = (fault.kind, fault.place.at, fault.place.bid);
    line.push_str(&(format!(in alloc; "{part} {kind} 0x{at:x} 0x{bid:x}, ")).expect(rt, MEMORY))
        .expect(rt, MEMORY);
}

fn put_faults<R: Abort>(rt: &R, alloc: Global, line: &mut String, part: &str, faults: &[Fault]) {
    for fault in faults {
        put_fault(rt, alloc, line, part, *fault);
    }
}

fn put_some<R: Abort>(rt: &R, alloc: Global, line: &mut String, part: &str, fault: Option<Fault>) {
    match fault {
        Some(fault) => put_fault(rt, alloc, line, part, fault),
        None => (),
    }
}

// All that is told, in a line: each fault, part by part, and how many blocks and nodes are left.
fn line_of<R: Abort>(rt: &R, alloc: Global, remains: &Remains) -> String {
    let mut line = String::new(alloc);
    put_some(rt, alloc, &mut line, "header", remains.header);
    put_faults(rt, alloc, &mut line, "page", &remains.pages);
    put_faults(rt, alloc, &mut line, "block", &remains.blocks);
    put_some(rt, alloc, &mut line, "maps", remains.maps);
    let (blocks, nodes) = (remains.good.len(), remains.nodes.len());
    line.push_str(&(format!(in alloc; "left {blocks} blocks {nodes} nodes")).expect(rt, MEMORY))
        .expect(rt, MEMORY);
    line
}

// Whether this line is told of a file; the case is named where another is.
fn is_told<R: Abort>(rt: &R, alloc: Global, case: usize, image: &[u8], wanted: &str) {
    let remains = remains_of(rt, alloc, image);
    let line = line_of(rt, alloc, &remains);
    is_at(rt, case, line.as_str(), wanted);
}

// The small store with changes.
fn changed<R: Abort>(rt: &R, alloc: Global, changes: &[Change]) -> Vec<u8> {
    let mut image = m0(alloc).expect(rt, MEMORY);
    change_all(&mut image, changes).expect(rt, "past the end");
    image
}

// Whether each row is told its line.
fn are_told<R: Abort>(rt: &R, alloc: Global, rows: &[Row]) {
    for (case, (changes, line)) in rows.iter().enumerate() {
        is_told(rt, alloc, case, &changed(rt, alloc, changes), line);
    }
}
