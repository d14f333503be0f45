//! The nodes, folders and messages of a store.

use super::bodies::EMBEDS;
use super::{Store, image, store_of};
use crate::told::{MEMORY, is};
use pst_msg::{Folder, Tc};
use std::alloc::Global;
use std::process::Abort;

fn put_nid<R: Abort>(rt: &R, alloc: Global, line: &mut String, nid: u32) {
    let text = format!(in alloc; " {nid:x}").expect(rt, MEMORY);
    line.push_str(&text).expect(rt, MEMORY);
}

// The identifiers of the rows of a table, or that there is none.
fn put_ids<R: Abort>(rt: &R, alloc: Global, line: &mut String, table: Option<Tc>) {
    let Some(tc) = table else {
        line.push_str(" none").expect(rt, MEMORY);
        return;
    };
    for row in tc.rows() {
        put_nid(rt, alloc, line, row.id());
    }
}

fn put_tables<R: Abort>(rt: &R, alloc: Global, line: &mut String, tables: [Option<Tc>; 3]) {
    let [hierarchy, contents, associated] = tables;
    put_ids(rt, alloc, line, hierarchy);
    line.push_str(",").expect(rt, MEMORY);
    put_ids(rt, alloc, line, contents);
    line.push_str(",").expect(rt, MEMORY);
    put_ids(rt, alloc, line, associated);
}

// A folder: whether it has a count of messages, and its tables.
fn put_folder<R: Abort>(rt: &R, alloc: Global, line: &mut String, folder: &Folder) {
    let found = folder.nid();
    let is_counted = folder.pc().get(0x3602).is_some();
    let text = format!(in alloc; "{found:x} {is_counted}:").expect(rt, MEMORY);
    line.push_str(&text).expect(rt, MEMORY);
    put_tables(
        rt,
        alloc,
        line,
        [folder.hierarchy(), folder.contents(), folder.associated()],
    );
}

fn folder_line<R: Abort>(rt: &R, alloc: Global, store: &Store, nid: u32) -> String {
    let mut line = String::new(alloc);
    match store.folder(nid) {
        Some(folder) => put_folder(rt, alloc, &mut line, &folder),
        None => line.push_str("none").expect(rt, MEMORY),
    }
    line
}

const FOLDERS: [(u32, &str); 6] = [
    (0x122, "122 true: 142, 200024 200044, none"),
    (0x142, "142 true: none, none, none"),
    (0x163, "163 true: none, none, none"),
    (0x21, "none"),
    (0x182, "none"),
    (0x20_0024, "none"),
];

#[test]
fn folders_are_found(rt: HostRuntime) {
    let image = image(&rt, rt.alloc(), &EMBEDS);
    let store = store_of(&rt, rt.alloc(), &image);
    for (nid, line) in &FOLDERS {
        let told = folder_line(&rt, rt.alloc(), &store, *nid);
        is(&rt, told.as_str(), *line);
    }
    let root = store.root();
    is(&rt, root.nid(), 0x122);
    let name = store.props().get(0x3001).expect(&rt, "no name");
    is(&rt, (name.value.len(), name.value.byte(0)), (4, Some(b'M')));
}

// The identifiers of all folders, and of all messages.
fn put_all<R: Abort>(rt: &R, nids: &mut Vec<u32>, store: &Store) {
    for folder in store.folders() {
        nids.push(folder.nid()).expect(rt, MEMORY);
    }
    for message in store.messages() {
        nids.push(message.nid()).expect(rt, MEMORY);
    }
}

const ALL: [u32; 6] = [0x122, 0x142, 0x163, 0x20_0024, 0x20_0028, 0x20_0044];

fn nid_of_node(store: &Store, nid: u32) -> Option<u32> {
    let node = store.node(nid)?;
    Some(node.nid())
}

fn nid_of_message(store: &Store, nid: u32) -> Option<u32> {
    let message = store.message(nid)?;
    Some(message.nid())
}

#[test]
fn nodes_are_found(rt: HostRuntime) {
    let image = image(&rt, rt.alloc(), &EMBEDS);
    let store = store_of(&rt, rt.alloc(), &image);
    let mut nids = Vec::new(rt.alloc());
    put_all(&rt, &mut nids, &store);
    is(&rt, nids.as_slice(), ALL.as_slice());
    for nid in [0x21, 0x122, 0x12d, 0x20_0044] {
        is(&rt, nid_of_node(&store, nid), Some(nid));
    }
    is(&rt, nid_of_node(&store, 0x999), None);
    for nid in [0x20_0024, 0x20_0028] {
        is(&rt, nid_of_message(&store, nid), Some(nid));
    }
    for nid in [0x122, 0x21, 0x20_0064] {
        is(&rt, (nid, nid_of_message(&store, nid)), (nid, None));
    }
}
