//! Whole files: what is reported of them, and their first faults.

mod names;

use crate::makers::add_nodes;
use crate::told::{MEMORY, is};
use pst_amap::BitOrder;
use pst_fault::Fault;
use pst_make::Change::{Page, Set};
use pst_make::{Change, Plan, build, change_all, m0, m0_plan, m1, m1_plan, set};
use pst_verify::*;
use std::alloc::Global;
use std::process::Abort;

fn put_unreached<R: Abort>(rt: &R, alloc: Global, line: &mut String, nid: u32) {
    let text = format!(in alloc; ", unreached {nid:x}").expect(rt, MEMORY);
    line.push_str(&text).expect(rt, MEMORY);
}

fn put_lost<R: Abort>(rt: &R, alloc: Global, line: &mut String, at: u64, len: u64) {
    let text = format!(in alloc; ", lost {at} {len}").expect(rt, MEMORY);
    line.push_str(&text).expect(rt, MEMORY);
}

// What is reported of a good file.
fn line_of_report<R: Abort>(rt: &R, alloc: Global, report: &Report) -> String {
    let (pages, blocks, nodes) = (report.pages, report.blocks, report.nodes);
    let (folders, messages) = (report.folders, report.messages);
    let order = match report.order {
        BitOrder::High => "high",
        BitOrder::Low => "low",
    };
    let work = report.work;
    let (expansions, contexts, walked) = (work.expansions, work.contexts, work.walked);
    let mut line = format!(in alloc;
        "yes: {pages} {blocks} {nodes} {folders} {messages} {order}, {expansions} {contexts} {walked}"
    ).expect(rt, MEMORY);
    for nid in &report.unreached {
        put_unreached(rt, alloc, &mut line, *nid);
    }
    for span in &report.lost {
        put_lost(rt, alloc, &mut line, span.at, span.len);
    }
    line
}

fn line_of_fault<R: Abort>(rt: &R, alloc: Global, fault: Fault) -> String {
    format!(in alloc; "{fault}").expect(rt, MEMORY)
}

// What is reported of a file, or the line of its first fault.
fn line_of<R: Abort>(rt: &R, alloc: Global, image: &[u8]) -> String {
    match verify(alloc, image) {
        Ok(found) => line_of_report(rt, alloc, &found.report),
        Err(fault) => line_of_fault(rt, alloc, fault),
    }
}

// Whether a file is answered with a line.
fn is_told<R: Abort + AllocGlobal>(rt: &R, image: &[u8], line: &str) {
    let told = line_of(rt, rt.alloc(), image);
    is(rt, told.as_str(), line);
}

// Whether a plan's file is.
fn is_answered<R: Abort + AllocGlobal>(rt: &R, plan: &Plan, line: &str) {
    let image = build(rt.alloc(), plan).expect(rt, "not made");
    is_told(rt, &image, line);
}

// Changes one of a plan's blocks.
fn change_block<R: Abort>(rt: &R, plan: &mut Plan, block: usize, changes: &[Change]) {
    let Some(found) = plan.blocks.get_mut(block) else {
        rt.panic("no block");
    };
    change_all(&mut found.body, changes).expect(rt, MEMORY);
}

// Whether the small store with one node more is answered with a line.
fn with_node<R: Abort + AllocGlobal>(rt: &R, nid: u32, bid_data: u64, line: &str) {
    let mut plan = m1_plan(rt.alloc()).expect(rt, MEMORY);
    add_nodes(rt, &mut plan, &[(nid, bid_data, 0)]);
    is_answered(rt, &plan, line);
}

#[test]
fn stores_are_reported(rt: HostRuntime) {
    let image = m0(rt.alloc()).expect(&rt, MEMORY);
    is_told(&rt, &image, "yes: 2 2 2 1 0 high, 0 2 1");
    let image = m1(rt.alloc()).expect(&rt, MEMORY);
    is_told(&rt, &image, "yes: 2 3 4 2 0 high, 0 3 2");
    let line = "yes: 2 3 5 3 0 high, 0 3 2, unreached 162";
    with_node(&rt, 0x162, 8, line);
    with_node(&rt, 0x14d, 12, "yes: 2 3 5 2 0 high, 0 3 2");
}

// The first byte of the allocation map that is set, and what is answered: its units 32 to 39 are those of the two blocks.
const MAPS: [(u8, &str); 3] = [
    (0xe0, "yes: 2 2 2 1 0 high, 0 2 1, lost 19584 64"),
    (0x80, "no: 20 MapMissing at 0x4c40 bid 0x0 nid 0x0"),
    (0x03, "yes: 2 2 2 1 0 low, 0 2 1"),
];

fn with_map<R: Abort + AllocGlobal>(rt: &R, byte: u8, line: &str) {
    let mut image = m0(rt.alloc()).expect(rt, MEMORY);
    change_all(&mut image, &[Set(0x4404, &[byte]), Page(0x4400)]).expect(rt, MEMORY);
    is_told(rt, &image, line);
}

#[test]
fn maps_are_compared(rt: HostRuntime) {
    for (byte, line) in &MAPS {
        with_map(&rt, *byte, line);
    }
}

// Bytes that are set one after another, from the front of the file on at last, and what is answered once each is: in the map, in a
// block, in the two trees, in the header.
const PHASES: [(usize, u8, &str); 6] = [
    (0x4404, 0xff, "no: 19 MapPage at 0x4400 bid 0x0 nid 0x0"),
    (
        0x4c00,
        0xee,
        "no: 14 BlockTrailer at 0x4c00 bid 0x4 nid 0x0",
    ),
    (0x4800, 0xee, "no: 9 PageTrailer at 0x4800 bid 0x4 nid 0x0"),
    (0x4a00, 0xee, "no: 9 PageTrailer at 0x4a00 bid 0x8 nid 0x0"),
    (300, 0xee, "no: 5 HeaderCheck at 0x4 bid 0x0 nid 0x0"),
    (0, 0xee, "no: 2 Magic at 0x0 bid 0x0 nid 0x0"),
];

// The small store with a root folder whose properties are at fault.
fn at_fault<R: Abort>(rt: &R, alloc: Global) -> Vec<u8> {
    let mut plan = m0_plan(alloc).expect(rt, MEMORY);
    change_block(rt, &mut plan, 1, &[Set(16, &[0x60])]);
    build(alloc, &plan).expect(rt, MEMORY)
}

fn is_told_after<R: Abort + AllocGlobal>(rt: &R, image: &mut [u8], phase: &(usize, u8, &str)) {
    let (at, byte, line) = *phase;
    set(image, at, &[byte]).expect(rt, MEMORY);
    is_told(rt, image, line);
}

#[test]
fn the_first_fault_is_told(rt: HostRuntime) {
    is_told(&rt, &[], "no: 1 Short at 0x0 bid 0x0 nid 0x0");
    let mut image = at_fault(&rt, rt.alloc());
    let line = "no: 22 HeapId at 0x4c50 bid 0x8 nid 0x122";
    is_told(&rt, &image, line);
    for phase in &PHASES {
        is_told_after(&rt, &mut image, phase);
    }
}

#[test]
fn rows_are_looked_up(rt: HostRuntime) {
    let mut plan = m1_plan(rt.alloc()).expect(&rt, MEMORY);
    let dropped = plan.nodes.pop().expect(&rt, "no node");
    is(&rt, dropped.nid, 0x142);
    let line = "no: 26 NodeMissing at 0x4cba bid 0xc nid 0x142";
    is_answered(&rt, &plan, line);
}
