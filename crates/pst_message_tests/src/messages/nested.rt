//! Messages nested as deep as may be, which share what they embed, and a message with many attachments.

use super::is_answered;
use crate::makers::Body::{Bytes, List, Properties, Table};
use crate::makers::{Blocks, Entry, Record, add_blocks, add_nodes, plan_of};
use crate::told::{MEMORY, is};
use pst_bytes::Image;
use pst_make::{Plan, build};
use pst_ndb::check_ndb;
use std::alloc::Global;
use std::process::Abort;

// An identifier of an internal block.
fn list_bid(number: u64) -> u64 {
    number.saturating_mul(4).saturating_add(0x1002)
}

// An attachment that embeds a message, 0x200024: its records, and the object that names that.
const EMBEDS: [Record; 2] = [(0x3701, 0xd, 0x60), (0x3705, 3, 5)];

const OBJECT: [u8; 8] = [0x24, 0, 0x20, 0, 8, 0, 0, 0];

const NESTED: Blocks<'static> = &[
    (12, Properties(&[], &[])),
    (16, Properties(&EMBEDS, &OBJECT)),
    (20, Table(&[0x8025, 0x8045])),
    (24, Bytes(&[1, 2, 3, 4])),
];

// Two lists: that of an attachment, whose message has this data and this list, and that of a message with two such attachments.
fn add_level<R: Abort>(rt: &R, alloc: Global, plan: &mut Plan, number: u64, data: u64, below: u64) {
    let held = list_bid(number);
    let blocks = [
        (held, List(&[(0x20_0024, data, below)])),
        (
            list_bid(number.saturating_add(1)),
            List(&[(0x671, 20, 0), (0x8025, 16, held), (0x8045, 16, held)]),
        ),
    ];
    add_blocks(rt, alloc, plan, &blocks);
}

// Adds a message below which so many others nest, each embedded by both attachments of the one before. Its list of subnodes is the
// last block; the innermost message has this data. Its own data and list are given back.
fn add_levels<R: Abort>(
    rt: &R,
    alloc: Global,
    plan: &mut Plan,
    depth: u64,
    innermost: u64,
) -> (u64, u64) {
    let (mut data, mut below) = (innermost, 0_u64);
    for i in 0..depth {
        let number = i.saturating_mul(2);
        add_level(rt, alloc, plan, number, data, below);
        below = list_bid(number.saturating_add(1));
        data = 12;
    }
    (data, below)
}

// A message, 0x200024, below which so many others nest. The innermost message has this data: block 12, a property context, or 24,
// none.
fn nested<R: Abort>(rt: &R, alloc: Global, depth: u64, innermost: u64) -> Plan {
    let mut plan = plan_of(rt, alloc, NESTED, &[]);
    let (data, below) = add_levels(rt, alloc, &mut plan, depth, innermost);
    add_nodes(rt, &mut plan, &[(0x20_0024, data, below)]);
    plan
}

fn nested_is_answered<R: Abort + AllocGlobal>(rt: &R, depth: u64, innermost: u64, line: &str) {
    let plan = nested(rt, rt.alloc(), depth, innermost);
    is_answered(rt, &plan, line);
}

// How many lists the check of a plan's node database expands.
fn expansions_of<R: Abort>(rt: &R, alloc: Global, plan: &Plan) -> u64 {
    let Ok(image) = build(alloc, plan) else {
        rt.panic("not made");
    };
    match check_ndb(alloc, Image::new(&image)) {
        Ok(checked) => checked.work.expansions,
        Err(_) => rt.panic("refused"),
    }
}

// Walked afresh, 31 of them are 2 ^ 31 messages.
#[test]
fn shared_as_deep_as_may_be(rt: HostRuntime) {
    nested_is_answered(&rt, 31, 12, "yes 66");
    let plan = nested(&rt, rt.alloc(), 31, 12);
    is(&rt, expansions_of(&rt, rt.alloc(), &plan), 62);
    // 256 lists may nest, two for each message that is embedded; with one message more there are 258, and it is the node's own list
    // of which that is told.
    nested_is_answered(&rt, 128, 12, "yes 260");
    let line = "no: 18 Nesting at 0x0 bid 0x1406 nid 0x200024";
    nested_is_answered(&rt, 129, 12, line);
    // A fault in the innermost one is told of the node.
    let line = "no: 21 Heap at 0x4dc0 bid 0x18 nid 0x200024";
    nested_is_answered(&rt, 3, 24, line);
}

// A message with two rows and one attachment, which embeds one below which 127 others nest.
fn with_a_row_behind<R: Abort>(rt: &R, alloc: Global) -> Plan {
    let mut plan = nested(rt, alloc, 127, 12);
    let _inner = plan.nodes.pop();
    let blocks = [
        (list_bid(254), List(&[(0x20_0024, 12, list_bid(253))])),
        (
            list_bid(255),
            List(&[(0x671, 20, 0), (0x8025, 16, list_bid(254))]),
        ),
    ];
    add_blocks(rt, alloc, &mut plan, &blocks);
    add_nodes(rt, &mut plan, &[(0x20_0024, 12, list_bid(255))]);
    plan
}

// When an embedded message is done, the rows behind it are gone through: here the node's message lacks what its second one names.
#[test]
fn rows_behind_an_embedded_message(rt: HostRuntime) {
    let plan = with_a_row_behind(&rt, rt.alloc());
    // The second record of the table, behind 16 pages and three blocks.
    let line = "no: 26 NodeMissing at 0x6984 bid 0x14 nid 0x8045";
    is_answered(&rt, &plan, line);
}

// Adds entries of attachments, whose identifiers fall: from the one with a number on, up to another. One may be missing.
fn put_falling<R: Abort>(rt: &R, entries: &mut Vec<Entry>, from: u32, to: u32, missing: u32) {
    for i in from..to {
        let named = 0xbe65_u32.saturating_sub(i.saturating_mul(32));
        if named != missing {
            entries.push((named, 12, 0)).expect(rt, MEMORY);
        }
    }
}

// These entries, and behind them such ones.
fn falling<R: Abort>(
    rt: &R,
    alloc: Global,
    front: &[Entry],
    from: u32,
    to: u32,
    missing: u32,
) -> Vec<Entry> {
    let mut entries = Vec::from_slice(alloc, front).expect(rt, MEMORY);
    put_falling(rt, &mut entries, from, to, missing);
    entries
}

// A list of two blocks, the second of which is this ([MS-PST] 2.2.2.8.3.3.2).
fn list_of_two(lower: u8) -> [u8; 40] {
    [
        2, 1, 2, 0, 0, 0, 0, 0, 0x65, 0xbe, 0, 0, 0, 0, 0, 0, 22, 0, 0, 0, 0, 0, 0, 0, 0x71, 6, 0,
        0, 0, 0, 0, 0, lower, 0, 0, 0, 0, 0, 0, 0,
    ]
}

// The identifiers of 500 rows, which rise.
fn rising<R: Abort>(rt: &R, alloc: Global) -> Vec<u32> {
    let mut ids = Vec::new(alloc);
    let mut id = 0x8005_u32;
    for _i in 0..500_u32 {
        ids.push(id).expect(rt, MEMORY);
        id = id.saturating_add(32);
    }
    ids
}

// A message with 500 attachments, whose identifiers fall in a list of two blocks, and with as many rows; one may be missing.
fn many<R: Abort>(rt: &R, alloc: Global, missing: u32) -> Plan {
    let ids = rising(rt, alloc);
    let upper = falling(rt, alloc, &[], 0, 300, missing);
    let lower = falling(rt, alloc, &[(0x671, 16, 0)], 300, 500, missing);
    let blocks = [
        (12, Properties(&[], &[])),
        (16, Table(&ids)),
        (22, List(&upper)),
        (26, List(&lower)),
        (30, Bytes(&list_of_two(26))),
    ];
    plan_of(rt, alloc, &blocks, &[(0x20_0024, 12, 30)])
}

#[test]
fn many_attachments(rt: HostRuntime) {
    let plan = many(&rt, rt.alloc(), 0);
    is_answered(&rt, &plan, "yes 5");
    // The record of the last row but one of 500.
    let line = "no: 26 NodeMissing at 0x6646 bid 0x10 nid 0xbe45";
    let plan = many(&rt, rt.alloc(), 0xbe45);
    is_answered(&rt, &plan, line);
}

// The same in a message that has a list as long, and whose first attachment embeds it; of the others one may be missing.
fn many_twice<R: Abort>(rt: &R, alloc: Global, missing: u32) -> Plan {
    let lower = falling(
        rt,
        alloc,
        &[(0x671, 16, 0), (0x8005, 36, 38)],
        300,
        499,
        missing,
    );
    let mut plan = many(rt, alloc, 0);
    let _inner = plan.nodes.pop();
    let blocks = [
        (36, Properties(&EMBEDS, &OBJECT)),
        (38, List(&[(0x20_0024, 12, 30)])),
        (42, List(&lower)),
        (46, Bytes(&list_of_two(42))),
    ];
    add_blocks(rt, alloc, &mut plan, &blocks);
    add_nodes(rt, &mut plan, &[(0x20_0024, 12, 46)]);
    plan
}

#[test]
fn long_lists_in_one_another(rt: HostRuntime) {
    let plan = many_twice(&rt, rt.alloc(), 0);
    is_answered(&rt, &plan, "yes 7");
    // The record of the second row of 500.
    let line = "no: 26 NodeMissing at 0x56be bid 0x10 nid 0x8025";
    let plan = many_twice(&rt, rt.alloc(), 0x8025);
    is_answered(&rt, &plan, line);
}
