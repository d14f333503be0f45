//! The folders that the root folder reaches.

use super::bodies::PLAIN;
use super::image_of;
use crate::makers::Body::{Bytes, Table};
use crate::makers::{Blocks, Entry, add_blocks, add_nodes};
use crate::told::{MEMORY, is};
use pst_bytes::Image;
use pst_make::m1_plan;
use pst_msg::check_messaging;
use pst_ndb::check_ndb;
use pst_reach::{Reach, path_from_root, reach, unreached, ways_are_found};
use std::alloc::Global;
use std::process::Abort;

// Folders beside those of the small store, whose root folder 0x122 names 0x142: that names 0x162 and 0x182, and these two have one
// table, which names the search folder 0x163 and 0x1a2. That has the root folder's table, so that ways go in a circle. The folder
// 0x1c2 has it too, and none names it.
const NODES: [Entry; 10] = [
    (0x14d, 20, 0),
    (0x162, 16, 0),
    (0x163, 16, 0),
    (0x16d, 24, 0),
    (0x182, 16, 0),
    (0x18d, 24, 0),
    (0x1a2, 16, 0),
    (0x1ad, 12, 0),
    (0x1c2, 16, 0),
    (0x1cd, 12, 0),
];

const BLOCKS: Blocks<'static> = &[
    (16, Bytes(&PLAIN)),
    (20, Table(&[0x162, 0x182])),
    (24, Table(&[0x163, 0x1a2])),
];

fn image<R: Abort>(rt: &R, alloc: Global) -> Vec<u8> {
    let mut plan = m1_plan(alloc).expect(rt, MEMORY);
    add_blocks(rt, alloc, &mut plan, BLOCKS);
    add_nodes(rt, &mut plan, &NODES);
    image_of(rt, alloc, &plan)
}

// A folder that is reached, with its parent and its depth.
fn put_folder<R: Abort>(rt: &R, alloc: Global, line: &mut String, folder: &Reach) {
    let (nid, parent, depth) = (folder.nid, folder.parent, folder.depth);
    let text = format!(in alloc; "{nid:x} {parent:x} {depth}, ").expect(rt, MEMORY);
    line.push_str(&text).expect(rt, MEMORY);
}

fn put_unreached<R: Abort>(rt: &R, alloc: Global, line: &mut String, nid: u32) {
    let text = format!(in alloc; "not {nid:x}, ").expect(rt, MEMORY);
    line.push_str(&text).expect(rt, MEMORY);
}

// Those that are reached and those that are not.
fn put_all<R: Abort>(rt: &R, alloc: Global, line: &mut String, reached: &[Reach], others: &[u32]) {
    for folder in reached {
        put_folder(rt, alloc, line, folder);
    }
    for nid in others {
        put_unreached(rt, alloc, line, *nid);
    }
}

// The same, and how many were walked from.
fn line_of_all<R: Abort>(
    rt: &R,
    alloc: Global,
    reached: &[Reach],
    others: &[u32],
    walked: u64,
) -> String {
    let mut line = String::new(alloc);
    put_all(rt, alloc, &mut line, reached, others);
    let text = format!(in alloc; "{walked}").expect(rt, MEMORY);
    line.push_str(&text).expect(rt, MEMORY);
    line
}

// That of a file, where 7 are counted before.
fn reached_line<R: Abort>(rt: &R, alloc: Global, image: &[u8]) -> String {
    let Ok(checked) = check_ndb(alloc, Image::new(image)) else {
        rt.panic("no node database");
    };
    let ndb = checked.ndb;
    let mut work = checked.work;
    work.walked = 7;
    match check_messaging(alloc, &ndb, &mut work) {
        Ok(()) => {
            let reached = reach(alloc, &ndb, &mut work).expect(rt, MEMORY);
            let others = unreached(alloc, &ndb, &reached).expect(rt, MEMORY);
            line_of_all(rt, alloc, &reached, &others, work.walked)
        }
        Err(_) => rt.panic("refused"),
    }
}

fn line_of_path<R: Abort>(rt: &R, alloc: Global, path: &[u32]) -> String {
    let mut line = String::new(alloc);
    for above in path {
        let text = format!(in alloc; "{above:x} ").expect(rt, MEMORY);
        line.push_str(&text).expect(rt, MEMORY);
    }
    line
}

// The path of a folder from the root folder, where that reaches it.
fn path_line<R: Abort>(rt: &R, alloc: Global, image: &[u8], nid: u32) -> String {
    let Ok(checked) = check_ndb(alloc, Image::new(image)) else {
        rt.panic("no node database");
    };
    let ndb = checked.ndb;
    let mut work = checked.work;
    match check_messaging(alloc, &ndb, &mut work) {
        Ok(()) => {
            let reached = reach(alloc, &ndb, &mut work).expect(rt, MEMORY);
            match path_from_root(alloc, &reached, nid).expect(rt, MEMORY) {
                Some(path) => line_of_path(rt, alloc, &path),
                None => String::new(alloc),
            }
        }
        Err(_) => rt.panic("refused"),
    }
}

#[test]
fn folders_are_reached(rt: HostRuntime) {
    let alloc = rt.alloc();
    let image = image(&rt, alloc);
    let line = reached_line(&rt, alloc, &image);
    let wanted = "122 0 0, 142 122 1, 162 142 2, 163 162 3, 182 142 2, 1a2 162 3, not 1c2, 12";
    is(&rt, line.as_str(), wanted);
    let path = path_line(&rt, alloc, &image, 0x1a2);
    is(&rt, path.as_str(), "122 142 162 1a2 ");
    let lost = path_line(&rt, alloc, &image, 0x1c2);
    is(&rt, lost.as_str(), "");
    ways_are_found();
}
