//! The JSON values of single values, in one slice and in pieces.

use super::*;
use crate::told::is;
use pst_datatree::Value;
use pst_make::{BlockPlan, NodePlan, Plan, build};
use pst_value_json::PropType;

/// A type, the bytes of a value, and the JSON value.
pub(super) type Row = (u16, &'static [u8], &'static str);

const ROWS: [Row; 36] = [
    (0x001F, &[0x41, 0, 0, 0xd8], "\"A\u{FFFD}\""),
    (0x001F, &[0x3d, 0xd8, 0, 0xde], "\"\u{1F600}\""),
    (0x001F, b"M\x000\0", "\"M0\""),
    (0x001F, &[0x22, 0, 0x0a, 0, 0x41], "\"\\\"\\n\""),
    (0x001F, &[], "\"\""),
    (0x001E, b"M0", "\"4d30\""),
    (0x0002, &[0xfe, 0xff], "-2"),
    (0x0003, &[5, 0, 0, 0], "5"),
    (0x0003, &[0xff, 0xff, 0xff, 0xff], "-1"),
    (0x0003, &[], "null"),
    (0x0004, &[0, 0, 0x80, 0x3f], "\"0000803f\""),
    (0x0005, &[], "null"),
    (
        0x0006,
        &[0xff, 0xff, 0xff, 0xff, 0xff, 0xff, 0xff, 0xff],
        "-1",
    ),
    (0x0014, &[0, 0, 0, 0, 0, 0, 0, 0x80], "-9223372036854775808"),
    (0x000A, &[0xff, 0xff, 0xff, 0xff], "4294967295"),
    (
        0x0040,
        &[0xff, 0xff, 0xff, 0xff, 0xff, 0xff, 0xff, 0xff],
        "18446744073709551615",
    ),
    (0x0040, &[], "null"),
    (0x000B, &[2], "true"),
    (0x000B, &[0], "false"),
    (
        0x0048,
        &[0x28, 3, 2, 0, 0, 0, 0, 0, 0xc0, 0, 0, 0, 0, 0, 0, 0x46],
        "\"00020328-0000-0000-c000-000000000046\"",
    ),
    (0x0048, &[], "null"),
    (
        0x000D,
        &[0x24, 0, 0x20, 0, 7, 0, 0, 0, 9],
        "{\"nid\":\"0x200024\",\"size\":7}",
    ),
    (0x000D, &[], "null"),
    (
        0x0005,
        &[0, 0, 0, 0, 0, 0, 0xf0, 0x3f],
        "\"000000000000f03f\"",
    ),
    (0x0102, &[0xab, 0xcd], "\"abcd\""),
    (0x0102, &[], "\"\""),
    (0x0000, &[1, 2, 3, 4], "\"01020304\""),
    (0x1002, &[1, 0, 0xfe, 0xff], "[1,-2]"),
    (0x1003, &[1, 0, 0, 0, 0xfe, 0xff, 0xff, 0xff], "[1,-2]"),
    (0x1003, &[], "[]"),
    (0x1003, &[1, 0, 0, 0, 2], "\"0100000002\""),
    (
        0x1040,
        &[1, 0, 0, 0, 0, 0, 0, 0x80],
        "[9223372036854775809]",
    ),
    (
        0x101F,
        &[
            2, 0, 0, 0, 12, 0, 0, 0, 14, 0, 0, 0, 0x41, 0, 0x42, 0, 0x43, 0,
        ],
        "[\"A\",\"BC\"]",
    ),
    (0x1102, &[1, 0, 0, 0, 8, 0, 0, 0, 0xab], "[\"ab\"]"),
    (0x101F, &[], "[]"),
    (0x101F, &[1, 0, 0, 0, 99, 0, 0, 0], "\"0100000063000000\""),
];

// The list block of a data tree of two blocks, the first of which has this identifier.
fn list_of<R: Abort>(rt: &R, alloc: Global, total: usize, bid: u64) -> Vec<u8> {
    let total = u32::try_from(total).expect(rt, "too long");
    let next = bid.saturating_add(4);
    let mut body = Vec::from_slice(alloc, &[1, 1, 2, 0]).expect(rt, MEMORY);
    body.extend_from_slice(&total.to_le_bytes())
        .expect(rt, MEMORY);
    body.extend_from_slice(&bid.to_le_bytes())
        .expect(rt, MEMORY);
    body.extend_from_slice(&next.to_le_bytes())
        .expect(rt, MEMORY);
    body
}

fn add_block<R: Abort>(rt: &R, plan: &mut Plan, bid: u64, body: Vec<u8>) {
    plan.blocks.push(BlockPlan { bid, body }).expect(rt, MEMORY);
}

// The bytes of a row, cut in the middle.
fn add_halves<R: Abort>(rt: &R, alloc: Global, plan: &mut Plan, bid: u64, bytes: &[u8]) {
    let (front, rest) = bytes.split_at(bytes.len() / 2);
    let first = Vec::from_slice(alloc, front).expect(rt, MEMORY);
    add_block(rt, plan, bid, first);
    let second = Vec::from_slice(alloc, rest).expect(rt, MEMORY);
    add_block(rt, plan, bid.saturating_add(4), second);
}

fn add_node<R: Abort>(rt: &R, plan: &mut Plan, nid: u32, bid_data: u64) {
    plan.nodes
        .push(NodePlan {
            nid,
            bid_data,
            bid_sub: 0,
            parent: 0,
        })
        .expect(rt, MEMORY);
}

// The blocks of all rows.
fn add_pieces<R: Abort>(rt: &R, alloc: Global, plan: &mut Plan, rows: &[Row]) {
    let mut bid: u64 = 4;
    for (_, bytes, _) in rows {
        add_halves(rt, alloc, plan, bid, bytes);
        bid = bid.saturating_add(8);
    }
}

// Their lists, and their nodes.
fn add_lists<R: Abort>(rt: &R, alloc: Global, plan: &mut Plan, rows: &[Row]) {
    let mut bid: u64 = 4;
    let mut list: u64 = 0x1002;
    let mut nid: u32 = 0x21;
    for (_, bytes, _) in rows {
        let body = list_of(rt, alloc, bytes.len(), bid);
        add_block(rt, plan, list, body);
        add_node(rt, plan, nid, list);
        bid = bid.saturating_add(8);
        list = list.saturating_add(4);
        nid = nid.saturating_add(0x20);
    }
}

/// A store with a node for each of the rows, whose data is the row's bytes in two blocks, cut in the middle.
pub(super) fn store_of<R: Abort>(rt: &R, alloc: Global, rows: &[Row]) -> Vec<u8> {
    let mut plan = Plan {
        blocks: Vec::new(alloc),
        nodes: Vec::new(alloc),
    };
    add_pieces(rt, alloc, &mut plan, rows);
    add_lists(rt, alloc, &mut plan, rows);
    build(alloc, &plan).expect(rt, "not made")
}

fn is_shown_as<R: Abort>(rt: &R, alloc: Global, kind: u16, value: Value, shown: &str) {
    let doc = value_doc(alloc, PropType(kind), value).expect(rt, MEMORY);
    is_shown(rt, alloc, &doc, shown);
}

// Whether the value of a row is shown so, in one slice and in pieces.
fn is_shown_twice<R: Abort>(rt: &R, alloc: Global, ndb: &Ndb, nid: u32, row: &Row) {
    let (kind, bytes, shown) = *row;
    is_shown_as(rt, alloc, kind, Value::Whole(0, bytes), shown);
    let value = ndb.node(nid).expect(rt, "no node").bytes();
    is_shown_as(rt, alloc, kind, value, shown);
    is(rt, matches!(value, Value::Pieces(_)), bytes.len() > 1);
}

// The rows are handed over: the proof of a function writes out, at each of its steps, the constants that it names.
fn are_shown<R: Abort>(rt: &R, alloc: Global, rows: &[Row]) {
    let image = store_of(rt, alloc, rows);
    let ndb = ndb_of(rt, alloc, &image);
    let mut nid: u32 = 0x21;
    for row in rows {
        is_shown_twice(rt, alloc, &ndb, nid, row);
        nid = nid.saturating_add(0x20);
    }
}

#[test]
fn values_are_shown(rt: HostRuntime) {
    let alloc = rt.alloc();
    are_shown(&rt, alloc, &ROWS);
    let opaque = hex_doc(alloc, Value::Whole(0, &[])).expect(&rt, MEMORY);
    is_shown(&rt, alloc, &opaque, "\"\"");
}
