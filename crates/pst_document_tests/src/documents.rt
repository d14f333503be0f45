//! Documents of small stores and of single values, against texts written by hand.

mod tables;
mod texts;
mod values;

use crate::told::{MEMORY, is};
use pst_btree::walk_nodes;
use pst_bytes::Image;
use pst_header::read_header;
use pst_json::*;
use pst_make::m0;
use pst_ndb::{Ndb, Node, check_ndb};
use pst_space::Claims;
use pst_value_json::check_pc;
use std::alloc::Global;
use std::process::Abort;

// The nodes of an image.
fn ndb_of<'a, R: Abort>(rt: &R, alloc: Global, image: &'a [u8]) -> Ndb<'a> {
    check_ndb(alloc, Image::new(image))
        .expect(rt, "refused")
        .ndb
}

// One of them.
fn node_of<'a, R: Abort>(rt: &R, alloc: Global, image: &'a [u8], nid: u32) -> Node<'a> {
    ndb_of(rt, alloc, image).node(nid).expect(rt, "no node")
}

// Whether a document has a text.
fn is_shown<R: Abort>(rt: &R, alloc: Global, doc: &serde_json::Value, shown: &str) {
    let text = text(alloc, doc).expect(rt, MEMORY);
    let line = format!(in alloc; "{shown}\n").expect(rt, MEMORY);
    is(rt, text.as_slice(), line.as_bytes());
}

#[test]
fn properties_are_shown(rt: HostRuntime) {
    let alloc = rt.alloc();
    let image = m0(alloc).expect(&rt, MEMORY);
    let Ok(pc) = check_pc(node_of(&rt, alloc, &image, 0x21)) else {
        rt.panic("no properties");
    };
    let shown = "[{\"id\":\"3001\",\"type\":\"001F\",\"value\":\"M0\"}]";
    let doc = pc_doc(alloc, &pc, None, false).expect(&rt, MEMORY);
    is_shown(&rt, alloc, &doc, shown);
}

const HEAD: &str =
    "{\"bbt\":{\"bid\":8,\"ib\":18944},\"eof\":271360,\"free\":251776,\"last_amap\":17408,\"maps_valid\":2,\"nbt\":{\"bid\":4,\"ib\":18432},\"next_block\":12,\"next_page\":12,\"version\":23}";

const NODES: &str =
    "{\"nodes\":[{\"data_bid\":4,\"nid\":\"0x21\",\"parent\":\"0x0\",\"sub_bid\":0},{\"data_bid\":8,\"nid\":\"0x122\",\"parent\":\"0x122\",\"sub_bid\":0}]}";

#[test]
fn documents_have_their_texts(rt: HostRuntime) {
    let alloc = rt.alloc();
    let image = m0(alloc).expect(&rt, MEMORY);
    let Ok(header) = read_header(Image::new(&image)) else {
        rt.panic("no header");
    };
    let head = head_doc(alloc, &header).expect(&rt, MEMORY);
    is_shown(&rt, alloc, &head, HEAD);
    let Ok(mut claims) = Claims::new(alloc, &header) else {
        rt.panic("no memory");
    };
    let Ok((tree, _)) = walk_nodes(alloc, Image::new(&image), &header, &mut claims) else {
        rt.panic("no nodes");
    };
    let nodes = nodes_doc(alloc, &tree).expect(&rt, MEMORY);
    is_shown(&rt, alloc, &nodes, NODES);
}
