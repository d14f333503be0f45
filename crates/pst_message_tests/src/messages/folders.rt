//! The nodes that every store has, and the tables of folders.

use super::is_answered;
use crate::makers::node_of;
use crate::told::MEMORY;
use pst_make::{Plan, m0_plan, m1_plan, m2_plan, set};
use std::alloc::Global;
use std::process::Abort;

// Gives the row of a table in block 12 this identifier, in the row index and in the row matrix.
fn set_row<R: Abort>(rt: &R, plan: &mut Plan, row: u8) {
    let Some(table) = plan.blocks.get_mut(2) else {
        rt.panic("no block");
    };
    set(&mut table.body, 58, &[row]).expect(rt, MEMORY);
    set(&mut table.body, 66, &[row]).expect(rt, MEMORY);
}

fn set_nodes<R: Abort>(rt: &R, alloc: Global, plan: &mut Plan, nodes: &[(u32, u64)]) {
    plan.nodes = Vec::new(alloc);
    for (nid, bid_data) in nodes {
        plan.nodes
            .push(node_of(*nid, *bid_data, 0))
            .expect(rt, MEMORY);
    }
}

// Whether the small store with a table of one row, in block 12, whose record of the row index is at 0x4cba, and with these nodes is
// answered as a row says.
fn with_row<R: Abort + AllocGlobal>(rt: &R, case: &Row) {
    let (row, nodes, line) = *case;
    let mut plan = m1_plan(rt.alloc()).expect(rt, MEMORY);
    set_row(rt, &mut plan, row);
    set_nodes(rt, rt.alloc(), &mut plan, nodes);
    is_answered(rt, &plan, line);
}

fn with_rows<R: Abort + AllocGlobal>(rt: &R, cases: &[Row]) {
    for case in cases {
        with_row(rt, case);
    }
}

// The low byte of the row's identifier, whose high one is 1; the nodes, each with the block of its data; and what is answered.
type Row<'a> = (u8, &'a [(u32, u64)], &'a str);

const STORE: (u32, u64) = (0x21, 4);

const ROOT: (u32, u64) = (0x122, 8);

const REQUIRED_ROWS: [Row<'static>; 5] = [
    (0x42, &[ROOT], "no: 26 NodeMissing at 0x0 bid 0x0 nid 0x21"),
    (
        0x42,
        &[STORE],
        "no: 26 NodeMissing at 0x0 bid 0x0 nid 0x122",
    ),
    (
        0x42,
        &[(0x21, 12), ROOT],
        "no: 21 Heap at 0x4c80 bid 0xc nid 0x21",
    ),
    (
        0x42,
        &[(0x21, 12)],
        "no: 21 Heap at 0x4c80 bid 0xc nid 0x21",
    ),
    (
        0x42,
        &[STORE, (0x122, 12)],
        "no: 21 Heap at 0x4c80 bid 0xc nid 0x122",
    ),
];

const TABLE_ROWS: [Row<'static>; 15] = [
    // Subfolders: a folder, none, a search folder, a message.
    (0x42, &[STORE, ROOT, (0x12d, 12), (0x142, 8)], "yes 3"),
    (
        0x42,
        &[STORE, ROOT, (0x12d, 12)],
        "no: 26 NodeMissing at 0x4cba bid 0xc nid 0x142",
    ),
    (0x43, &[STORE, ROOT, (0x12d, 12), (0x143, 8)], "yes 3"),
    (
        0x44,
        &[STORE, ROOT, (0x12d, 12), (0x144, 8)],
        "no: 27 NodeKind at 0x4cba bid 0xc nid 0x144",
    ),
    // Messages: a message, none, an associated one.
    (0x44, &[STORE, ROOT, (0x12e, 12), (0x144, 8)], "yes 3"),
    (
        0x44,
        &[STORE, ROOT, (0x12e, 12)],
        "no: 26 NodeMissing at 0x4cba bid 0xc nid 0x144",
    ),
    (
        0x48,
        &[STORE, ROOT, (0x12e, 12), (0x148, 8)],
        "no: 27 NodeKind at 0x4cba bid 0xc nid 0x148",
    ),
    // Associated messages: one, none, a message.
    (0x48, &[STORE, ROOT, (0x12f, 12), (0x148, 8)], "yes 3"),
    (
        0x48,
        &[STORE, ROOT, (0x12f, 12)],
        "no: 26 NodeMissing at 0x4cba bid 0xc nid 0x148",
    ),
    (
        0x44,
        &[STORE, ROOT, (0x12f, 12), (0x144, 8)],
        "no: 27 NodeKind at 0x4cba bid 0xc nid 0x144",
    ),
    // A folder that lists itself; one table of two folders, and in two roles.
    (0x22, &[STORE, ROOT, (0x12d, 12)], "yes 3"),
    (
        0x42,
        &[STORE, ROOT, (0x12d, 12), (0x142, 8), (0x14d, 13)],
        "yes 3",
    ),
    (
        0x42,
        &[STORE, ROOT, (0x12d, 12), (0x12e, 12), (0x142, 8)],
        "no: 27 NodeKind at 0x4cba bid 0xc nid 0x142",
    ),
    // Tables of a search folder, and of no folder at all, are nobody's: their rows name nothing.
    (
        0x42,
        &[STORE, ROOT, (0x143, 8), (0x14d, 12), (0x16d, 4)],
        "yes 2",
    ),
    // A table that is none.
    (
        0x42,
        &[STORE, ROOT, (0x12f, 8)],
        "no: 21 Heap at 0x4c40 bid 0x8 nid 0x12f",
    ),
];

fn plan_is_answered<R: Abort + AllocGlobal>(rt: &R, plan: Plan, line: &str) {
    is_answered(rt, &plan, line);
}

#[test]
fn folders(rt: HostRuntime) {
    plan_is_answered(&rt, m0_plan(rt.alloc()).expect(&rt, MEMORY), "yes 2");
    plan_is_answered(&rt, m1_plan(rt.alloc()).expect(&rt, MEMORY), "yes 3");
    plan_is_answered(&rt, m2_plan(rt.alloc()).expect(&rt, MEMORY), "yes 3");
    with_rows(&rt, &REQUIRED_ROWS);
    with_rows(&rt, &TABLE_ROWS);
}
