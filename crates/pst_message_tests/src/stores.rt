//! Stores, and what is looked up in them.

mod attached;
mod bodies;
mod folders;
mod indexed;
mod names;
mod reached;

use crate::makers::Body::{Bytes, List, Table};
use crate::makers::{Entry, add_blocks, add_nodes, node_of};
use crate::told::MEMORY;
use bodies::{EMBEDS, PLAIN};
use pst_bytes::Image;
use pst_make::{Plan, build, m1_plan};
use pst_msg::check_messaging;
use pst_ndb::check_ndb;
use pst_store::*;
use std::alloc::Global;
use std::process::Abort;

// The nodes that are added: a search folder, and messages.
const NODES: [Entry; 4] = [
    (0x163, 8, 0),
    (0x20_0024, 16, 34),
    (0x20_0028, 16, 0),
    (0x20_0044, 16, 0),
];

fn image_of<R: Abort>(rt: &R, alloc: Global, plan: &Plan) -> Vec<u8> {
    build(alloc, plan).expect(rt, "not made")
}

// Adds the contents table of the root folder, behind its hierarchy table.
fn insert_contents<R: Abort>(rt: &R, plan: &mut Plan) {
    if plan.nodes.len() < 3 {
        rt.panic("too few nodes");
    }
    plan.nodes
        .insert(3, node_of(0x12e, 20, 0))
        .expect(rt, MEMORY);
}

// A store with a root folder, a folder below it, a search folder, two messages in the root folder and one that belongs to it. The
// first message has two recipients and two attachments, the second of which has these properties, and a message below it.
fn image<R: Abort>(rt: &R, alloc: Global, attachment: &[u8]) -> Vec<u8> {
    let blocks = [
        (16, Bytes(&PLAIN)),
        (20, Table(&[0x20_0024, 0x20_0044])),
        (24, Table(&[0x8025, 0x8045])),
        (28, Bytes(attachment)),
        (30, List(&[(0x20_0024, 16, 0)])),
        (
            34,
            List(&[
                (0x671, 24, 0),
                (0x692, 20, 0),
                (0x8025, 16, 0),
                (0x8045, 28, 30),
            ]),
        ),
    ];
    let mut plan = m1_plan(alloc).expect(rt, MEMORY);
    add_blocks(rt, alloc, &mut plan, &blocks);
    insert_contents(rt, &mut plan);
    add_nodes(rt, &mut plan, &NODES);
    image_of(rt, alloc, &plan)
}

// The store that a file is.
fn store_of<'a, R: Abort>(rt: &R, alloc: Global, image: &'a [u8]) -> Store<'a> {
    let Ok(checked) = check_ndb(alloc, Image::new(image)) else {
        rt.panic("no node database");
    };
    let ndb = checked.ndb;
    let mut work = checked.work;
    match check_messaging(alloc, &ndb, &mut work) {
        Ok(()) => Store::known(ndb),
        Err(_) => rt.panic("refused"),
    }
}
