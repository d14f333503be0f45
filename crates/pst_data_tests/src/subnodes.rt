//! Lists of subnodes of made stores: what their check answers, and look-ups.

mod breaches;
mod index;
mod numbers;
mod sharing;
mod tree;

use self::Body::{Bytes, List};
use self::tree::{Indexed, Known, Met, Tree};
use crate::made::{MEMORY, add, add_numbers, blocks_in, image_of};
use crate::told::is;
use pst_block::Blocks;
use pst_bytes::Image;
use pst_datatree::Seen;
use pst_fault::{Fault, Kind, Place};
use pst_make::BlockPlan;
use pst_subnode::*;
use std::alloc::Global;
use std::process::Abort;

// The node under which all is checked.
const NODE: u32 = 0x21;

// Where the first block lies, and the second where the first has at most 48 bytes.
const FIRST: u64 = 0x4c00;

const SECOND: u64 = 0x4c40;

// A body of a list: btype, cLevel, cEnt, padding, then numbers of 8 bytes.
fn list<R: Abort>(rt: &R, alloc: Global, level: u8, count: u8, numbers: &[u64]) -> Vec<u8> {
    let front = [2, level, count, 0, 0, 0, 0, 0];
    let mut body = Vec::from_slice(alloc, &front).expect(rt, MEMORY);
    add_numbers(rt, &mut body, numbers);
    body
}

// The body of a block: a list of a level, with so many entries, and the numbers that they are; or any bytes.
#[derive(Clone, Copy)]
enum Body<'a> {
    List(u8, u8, &'a [u64]),
    Bytes(&'a [u8]),
}

// Blocks by their identifiers.
type Bodies<'a> = &'a [(u64, Body<'a>)];

fn body_of<R: Abort>(rt: &R, alloc: Global, body: Body) -> Vec<u8> {
    match body {
        List(level, count, numbers) => list(rt, alloc, level, count, numbers),
        Bytes(bytes) => Vec::from_slice(alloc, bytes).expect(rt, MEMORY),
    }
}

fn plan_of<R: Abort>(rt: &R, alloc: Global, bodies: Bodies) -> Vec<BlockPlan> {
    let mut plan = Vec::new(alloc);
    for (bid, body) in bodies {
        add(rt, &mut plan, *bid, body_of(rt, alloc, *body));
    }
    plan
}

// A store of these blocks.
fn store<R: Abort>(rt: &R, alloc: Global, bodies: Bodies) -> Vec<u8> {
    image_of(rt, alloc, plan_of(rt, alloc, bodies))
}

// What the check answers of these blocks, and how many it expanded.
fn answer_of<R: Abort>(
    rt: &R,
    alloc: Global,
    plan: Vec<BlockPlan>,
    bid: u64,
) -> (Result<u32, Fault>, u64) {
    let bytes = image_of(rt, alloc, plan);
    let mut known = Known::read(rt, alloc, Image::new(&bytes));
    let answer = known.check(alloc, bid);
    (answer, known.expansions())
}

fn fault_of(kind: Kind, at: u64, bid: u64) -> Fault {
    let place = Place { at, bid, nid: NODE };
    Fault { kind, place }
}

// Stops the test where the check answers something else.
fn answers<R: Abort>(
    rt: &R,
    alloc: Global,
    plan: Vec<BlockPlan>,
    bid: u64,
    wanted: (Result<u32, Fault>, u64),
) {
    is(rt, answer_of(rt, alloc, plan, bid), wanted);
}

fn is_refused<R: Abort>(rt: &R, alloc: Global, bodies: Bodies, bid: u64, fault: Fault) {
    let (answer, _) = answer_of(rt, alloc, plan_of(rt, alloc, bodies), bid);
    is(rt, answer, Err(fault));
}

// Lists that nest, each but the last with the next one below its only entry.
fn chain<R: Abort>(rt: &R, alloc: Global, lists: u64) -> Vec<BlockPlan> {
    let mut plan = Vec::new(alloc);
    for k in 1..=lists {
        let bid = k.saturating_mul(4).saturating_add(2);
        let below = if k == lists { 0 } else { bid.saturating_add(4) };
        add(
            rt,
            &mut plan,
            bid,
            list(rt, alloc, 0, 1, &[0x671, 0, below]),
        );
    }
    plan
}

#[test]
fn lists_nest_256_deep(rt: HostRuntime) {
    let alloc = rt.alloc();
    answers(&rt, alloc, chain(&rt, alloc, 256), 6, (Ok(256), 256));
    is(&rt, LISTS, 256);
    let (answer, _) = answer_of(&rt, alloc, chain(&rt, alloc, 257), 6);
    is(&rt, answer, Err(fault_of(Kind::Nesting, 0, 6)));
}

// The identifier is told as the node has it, with its bit 0.
#[test]
fn a_list_below_itself(rt: HostRuntime) {
    let bodies = [(6, List(0, 1, &[0x671, 0, 6]))];
    for bid in [6, 7] {
        let fault = fault_of(Kind::Nesting, 0, bid);
        is_refused(&rt, rt.alloc(), &bodies, bid, fault);
    }
}

// The data of an entry comes before its subnodes, and an entry before the next one.
#[test]
fn two_faults_of_one_list(rt: HostRuntime) {
    let missing = fault_of(Kind::BlockMissing, 0, 0x100);
    let nesting = fault_of(Kind::Nesting, 0, 6);
    for (numbers, fault) in [
        ([0x671, 0x100, 0, 0x692, 0, 6], missing),
        ([0x692, 0, 6, 0x671, 0x100, 0], nesting),
        ([0x671, 0x100, 6, 0x692, 0, 6], missing),
    ] {
        is_refused(&rt, rt.alloc(), &[(6, List(0, 2, &numbers))], 6, fault);
    }
}

// All below an entry comes before the next entry.
#[test]
fn depth_comes_first(rt: HostRuntime) {
    let fault = fault_of(Kind::BlockMissing, 0, 0x200);
    is_refused(&rt, rt.alloc(), &DEEP, 6, fault);
}

const DEEP: [(u64, Body); 3] = [
    (6, List(0, 2, &[0x671, 0, 10, 0x692, 0x100, 0])),
    (10, List(0, 1, &[0x8025, 0, 14])),
    (14, List(0, 1, &[0x8045, 0x200, 0])),
];

// An SIBLOCK of two SLBLOCKs, the first of two entries and the second of one, below which a list nests.
const TWO_LEAVES: [(u64, Body); 5] = [
    (4, Bytes(b"data")),
    (6, List(1, 2, &[0x671, 10, 0x8025, 14])),
    (10, List(0, 2, &[0x671, 4, 0, 0x692, 5, 0])),
    (14, List(0, 1, &[0xffff_ffff_0000_8025, 4, 18])),
    (18, List(0, 0, &[])),
];

#[test]
fn a_list_of_two_leaves(rt: HostRuntime) {
    let alloc = rt.alloc();
    answers(&rt, alloc, plan_of(&rt, alloc, &TWO_LEAVES), 6, (Ok(2), 4));
    let bytes = store(&rt, alloc, &TWO_LEAVES);
    let tree = Tree::read(&rt, alloc, Image::new(&bytes), 7);
    has_entries(&rt, &tree);
    // One that is behind all, one that is before all, and one between two.
    for nid in [0x8045, 0x670, 0x672] {
        is(&rt, tree.find(nid), None);
    }
}

const ENTRIES: [(u32, u64, u64); 3] = [(0x671, 4, 0), (0x692, 5, 0), (0x8025, 4, 18)];

fn has_entries<R: Abort>(rt: &R, tree: &Tree) {
    let mut list = tree.subs(6);
    for (nid, bid_data, bid_sub) in ENTRIES {
        let sub = sub_of(nid, bid_data, bid_sub);
        is(rt, list.next(), sub);
        is(rt, tree.find(nid), sub);
    }
    is(rt, list.next(), None);
}

fn sub_of(nid: u32, bid_data: u64, bid_sub: u64) -> Option<Sub> {
    Some(Sub {
        nid,
        bid_data,
        bid_sub,
    })
}

// Identifiers that fall, in and across the SLBLOCKs: each is found all the same.
#[test]
fn a_list_that_falls(rt: HostRuntime) {
    let alloc = rt.alloc();
    let bytes = store(&rt, alloc, &FALLING);
    let tree = Tree::read(&rt, alloc, Image::new(&bytes), 6);
    for nid in [0x8045, 0x8025, 0x692, 0x671] {
        is(&rt, tree.find(nid), sub_of(nid, 0, 0));
    }
    is(&rt, tree.find(0x673), None);
}

const FALLING: [(u64, Body); 3] = [
    (6, List(1, 2, &[0x8025, 10, 0x671, 14])),
    (10, List(0, 2, &[0x8045, 0, 0, 0x8025, 0, 0])),
    (14, List(0, 2, &[0x692, 0, 0, 0x671, 0, 0])),
];

#[test]
fn no_block_has_no_subnodes(rt: HostRuntime) {
    let alloc = rt.alloc();
    let bytes = store(&rt, alloc, &TWO_LEAVES);
    for bid in [0, 1] {
        answers(
            &rt,
            alloc,
            plan_of(&rt, alloc, &TWO_LEAVES),
            bid,
            (Ok(0), 0),
        );
        let tree = Tree::read(&rt, alloc, Image::new(&bytes), bid);
        has_none(&rt, &tree, bid);
    }
}

fn has_none<R: Abort>(rt: &R, tree: &Tree, bid: u64) {
    is(rt, tree.subs(bid).next(), None);
    is(rt, tree.find(0x671), None);
}

#[test]
fn a_list_without_entries(rt: HostRuntime) {
    let alloc = rt.alloc();
    for level in [0, 1] {
        let plan = plan_of(&rt, alloc, &[(6, List(level, 0, &[]))]);
        answers(&rt, alloc, plan, 6, (Ok(1), 1));
    }
}

#[test]
fn laws_are_there(rt: HostRuntime) {
    sub_decides();
    sub_is_one();
    deeper_has_none();
    entries_have_none();
    found_has_none();
    subs_are_a_map();
    is(&rt, Heights::new(rt.alloc()).expansions(), 0);
}
