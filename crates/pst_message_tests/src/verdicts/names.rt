//! Whole files with a name map: what is reported of them, and their first faults.

use super::{change_block, is_answered};
use crate::makers::Body::Bytes;
use crate::makers::{add_blocks, add_nodes};
use crate::told::MEMORY;
use pst_make::Change::Set;
use pst_make::{Change, Plan, m2_plan};
use std::alloc::Global;
use std::process::Abort;

// The store with a name map, whose block lies at 0x4c80, with bytes of it and of the root folder's block changed.
fn changed<R: Abort>(rt: &R, alloc: Global, folder: &[Change], map: &[Change]) -> Plan {
    let mut plan = m2_plan(alloc).expect(rt, MEMORY);
    change_block(rt, &mut plan, 1, folder);
    change_block(rt, &mut plan, 2, map);
    plan
}

// Changes to the root folder and to the map, and what is answered. The map has its GUID at 0x4cac, two entries at 0x4cbc and a
// string at 0x4ccc.
type Row<'a> = (&'a [Change<'a>], &'a [Change<'a>], &'a str);

const ROWS: [Row<'static>; 12] = [
    (&[], &[], "yes: 2 3 3 1 0 high, 0 3 1"),
    // The types of the three streams.
    (
        &[],
        &[Set(0x16, &[0x1f, 0])],
        "no: 24 Property at 0x4cac bid 0xc nid 0x61",
    ),
    (
        &[],
        &[Set(0x1e, &[0x1f, 0])],
        "no: 24 Property at 0x4cbc bid 0xc nid 0x61",
    ),
    (
        &[],
        &[Set(0x26, &[0x1f, 0])],
        "no: 24 Property at 0x4ccc bid 0xc nid 0x61",
    ),
    // 12 bytes of GUIDs, and of entries.
    (
        &[],
        &[Set(0x5e, &[0x38])],
        "no: 24 Property at 0x4cac bid 0xc nid 0x61",
    ),
    (
        &[],
        &[Set(0x60, &[0x48])],
        "no: 24 Property at 0x4cbc bid 0xc nid 0x61",
    ),
    // A set that is not there, of a string and of a number.
    (
        &[],
        &[Set(0x40, &[9, 0])],
        "no: 24 Property at 0x4cbc bid 0xc nid 0x61",
    ),
    (
        &[],
        &[Set(0x48, &[8, 0])],
        "no: 24 Property at 0x4cc4 bid 0xc nid 0x61",
    ),
    // A string that is longer than the stream, and one that begins behind it.
    (
        &[],
        &[Set(0x4c, &[5, 0, 0, 0])],
        "no: 24 Property at 0x4cbc bid 0xc nid 0x61",
    ),
    (
        &[],
        &[Set(0x3c, &[5])],
        "no: 24 Property at 0x4cbc bid 0xc nid 0x61",
    ),
    // No properties, of which it is told first; and before it of the root folder.
    (
        &[],
        &[Set(0x10, &[0xe0]), Set(0x40, &[9, 0])],
        "no: 22 HeapId at 0x4c90 bid 0xc nid 0x61",
    ),
    (
        &[Set(0x10, &[0x60])],
        &[Set(0x40, &[9, 0])],
        "no: 22 HeapId at 0x4c50 bid 0x8 nid 0x122",
    ),
];

fn is_row<R: Abort + AllocGlobal>(rt: &R, row: &Row) {
    let (folder, map, line) = *row;
    let plan = changed(rt, rt.alloc(), folder, map);
    is_answered(rt, &plan, line);
}

#[test]
fn small_maps(rt: HostRuntime) {
    for row in &ROWS {
        is_row(&rt, row);
    }
}

// The same with a hierarchy table, whose data is that of the map and no table.
const BEFORE_THE_NODES: [Row<'static>; 2] = [
    (&[], &[], "no: 21 Heap at 0x4c80 bid 0xc nid 0x12d"),
    (
        &[],
        &[Set(0x40, &[9, 0])],
        "no: 24 Property at 0x4cbc bid 0xc nid 0x61",
    ),
];

fn is_row_with_a_table<R: Abort + AllocGlobal>(rt: &R, row: &Row) {
    let (folder, map, line) = *row;
    let mut plan = changed(rt, rt.alloc(), folder, map);
    add_nodes(rt, &mut plan, &[(0x12d, 12, 0)]);
    is_answered(rt, &plan, line);
}

#[test]
fn a_map_comes_before_the_nodes(rt: HostRuntime) {
    for row in &BEFORE_THE_NODES {
        is_row_with_a_table(&rt, row);
    }
}

// Gives the node of the map these blocks of data and of subnodes.
fn set_map<R: Abort>(rt: &R, plan: &mut Plan, bid_data: u64, bid_sub: u64) {
    let Some(node) = plan.nodes.get_mut(1) else {
        rt.panic("no node");
    };
    node.bid_data = bid_data;
    node.bid_sub = bid_sub;
}

// A map without streams, which has the same data as the root folder: one context.
#[test]
fn a_map_without_streams(rt: HostRuntime) {
    let mut plan = m2_plan(rt.alloc()).expect(&rt, MEMORY);
    set_map(&rt, &mut plan, 8, 0);
    is_answered(&rt, &plan, "yes: 2 3 3 1 0 high, 0 2 1");
}

// A property context with the entry stream alone, which is the data of a subnode: an XBLOCK that names two blocks twice, of 12
// and of 4 bytes.
const STREAM: [u8; 38] = [
    28, 0, 0xec, 0xbc, 0x20, 0, 0, 0, 0, 0, 0, 0, //
    0xb5, 2, 6, 0, 0x40, 0, 0, 0, //
    3, 0, 2, 1, 0x41, 0, 0, 0, //
    2, 0, 0, 0, 12, 0, 20, 0, 28, 0,
];

const XBLOCK: [u8; 40] = [
    1, 1, 4, 0, 32, 0, 0, 0, 16, 0, 0, 0, 0, 0, 0, 0, 20, 0, 0, 0, 0, 0, 0, 0, 16, 0, 0, 0, 0, 0,
    0, 0, 20, 0, 0, 0, 0, 0, 0, 0,
];

const SUBNODES: [u8; 32] = [
    2, 0, 1, 0, 0, 0, 0, 0, 0x41, 0, 0, 0, 0, 0, 0, 0, //
    26, 0, 0, 0, 0, 0, 0, 0, 0, 0, 0, 0, 0, 0, 0, 0,
];

// The two blocks, and what is answered: an entry that begins in the one, at 0x4cc8, and ends in the other is told where it begins.
const PIECES: [([u8; 12], [u8; 4], &str); 2] = [
    (
        [17, 0, 0, 0, 2, 0, 0, 0, 34, 0, 0, 0],
        [4, 0, 1, 0],
        "yes: 2 7 3 1 0 high, 2 3 1",
    ),
    (
        [17, 0, 0, 0, 2, 0, 0, 0, 34, 0, 0, 0],
        [6, 0, 1, 0],
        "no: 24 Property at 0x4cc8 bid 0xc nid 0x61",
    ),
];

// The block of the map is another one.
fn set_body<R: Abort>(rt: &R, alloc: Global, plan: &mut Plan, bytes: &[u8]) {
    let Some(block) = plan.blocks.get_mut(2) else {
        rt.panic("no block");
    };
    block.body = Vec::from_slice(alloc, bytes).expect(rt, MEMORY);
}

fn in_pieces<'x, R: Abort + AllocGlobal>(rt: &R, first: &'x [u8], second: &'x [u8], line: &str) {
    let blocks = [
        (16, Bytes(first)),
        (20, Bytes(second)),
        (26, Bytes(&XBLOCK)),
        (30, Bytes(&SUBNODES)),
    ];
    let mut plan = m2_plan(rt.alloc()).expect(rt, MEMORY);
    set_map(rt, &mut plan, 12, 30);
    set_body(rt, rt.alloc(), &mut plan, &STREAM);
    add_blocks(rt, rt.alloc(), &mut plan, &blocks);
    is_answered(rt, &plan, line);
}

#[test]
fn entries_in_pieces(rt: HostRuntime) {
    for (first, second, line) in &PIECES {
        in_pieces(&rt, first, second, line);
    }
}
