//! Lists that are named more than once, or lie below themselves.

use super::*;
use crate::told::is;

// 256 lists of 340 entries, each of which names the next list.
fn wide_chain<R: Abort>(rt: &R, alloc: Global) -> Vec<BlockPlan> {
    let mut plan = Vec::new(alloc);
    for k in 1..=256u64 {
        let below = if k == 256 { 0 } else { 4 * k + 6 };
        add(rt, &mut plan, 4 * k + 2, wide_list(rt, alloc, below));
    }
    plan
}

fn wide_list<R: Abort>(rt: &R, alloc: Global, below: u64) -> Vec<u8> {
    let mut body = Vec::from_slice(alloc, &[2, 0, 84, 1, 0, 0, 0, 0]).expect(rt, MEMORY);
    for nid in 1..=340u64 {
        add_numbers(rt, &mut body, &[nid, 0, below]);
    }
    body
}

#[test]
fn shared_lists_are_expanded_once(rt: HostRuntime) {
    let alloc = rt.alloc();
    answers(&rt, alloc, wide_chain(&rt, alloc), 6, (Ok(256), 256));
}

// The last list of a chain stands at the top too, and comes first there: below the chain it passes the limit, or just does
// not.
#[test]
fn a_known_list_too_deep(rt: HostRuntime) {
    let alloc = rt.alloc();
    let deep = Err(fault_of(Kind::Nesting, 0, 0x1000_0002));
    for (lists, wanted) in [(255, (Ok(256), 256)), (256, (deep, 257))] {
        answers(
            &rt,
            alloc,
            below_a_list(&rt, alloc, lists),
            0x1000_0002,
            wanted,
        );
    }
}

// A chain below a list of two entries, the first of which is the last list of the chain.
fn below_a_list<R: Abort>(rt: &R, alloc: Global, lists: u64) -> Vec<BlockPlan> {
    let mut plan = chain(rt, alloc, lists);
    let last = lists.saturating_mul(4).saturating_add(2);
    let body = list(rt, alloc, 0, 2, &[0x31, 0, last, 0x51, 0, 6]);
    add(rt, &mut plan, 0x1000_0002, body);
    plan
}

// A circle of an SLBLOCK and an SIBLOCK, one of two SLBLOCKs below an SIBLOCK that names the second of them, and a list below
// itself.
const CIRCLES: [Bodies; 3] = [
    &[
        (6, List(0, 1, &[0x21, 0, 10])),
        (10, List(1, 1, &[0x21, 6])),
    ],
    &[
        (6, List(0, 1, &[0x21, 0, 10])),
        (10, List(0, 1, &[0x41, 0, 7])),
        (14, List(1, 1, &[0x41, 10])),
    ],
    &[(6, List(0, 1, &[0x671, 0, 6]))],
];

// The first from either block. Each block of a circle is met once before it is told.
#[test]
fn circles_are_told(rt: HostRuntime) {
    let alloc = rt.alloc();
    let [two, three, one] = CIRCLES;
    for (bodies, bid, expansions) in [
        (two, 6, 2),
        (two, 7, 2),
        (two, 10, 2),
        (two, 11, 2),
        (three, 14, 3),
        (one, 6, 1),
    ] {
        let nesting = Err(fault_of(Kind::Nesting, 0, bid));
        answers(
            &rt,
            alloc,
            plan_of(&rt, alloc, bodies),
            bid,
            (nesting, expansions),
        );
    }
}

// An SLBLOCK that two SIBLOCKs name and an entry, and an SIBLOCK above them.
const SHARED: [(u64, Body); 6] = [
    (6, List(0, 1, &[0x21, 0, 0])),
    (10, List(1, 1, &[0x21, 6])),
    (14, List(1, 1, &[0x21, 7])),
    (18, List(0, 3, &[0x21, 0, 10, 0x41, 0, 14, 0x61, 0, 6])),
    (22, List(1, 2, &[0x21, 18, 0x81, 26])),
    (26, List(0, 1, &[0x81, 0, 0x100])),
];

const MISSING: Result<u32, Fault> = Err(Fault {
    kind: Kind::BlockMissing,
    place: Place {
        at: 0,
        bid: 0x100,
        nid: NODE,
    },
});

// Which lists are asked for, what is answered, and how many were expanded then.
const ASKED: [(u64, Result<u32, Fault>, u64); 6] = [
    (22, MISSING, 6),
    (18, Ok(2), 6),
    (19, Ok(2), 6),
    (10, Ok(1), 6),
    (6, Ok(1), 6),
    (22, MISSING, 8),
];

// After a refusal nothing is left marked, and what is known is told again.
#[test]
fn slblocks_are_shared(rt: HostRuntime) {
    let alloc = rt.alloc();
    let bytes = store(&rt, alloc, &SHARED);
    let mut known = Known::read(&rt, alloc, Image::new(&bytes));
    for (bid, answer, expansions) in ASKED {
        is(&rt, known.check(alloc, bid), answer);
        is(&rt, known.expansions(), expansions);
    }
    known.keys_rise();
}

fn told_at(kind: Kind, bid: u64, nid: u32) -> Result<u32, Fault> {
    let place = Place { at: 0, bid, nid };
    Err(Fault { kind, place })
}

// Block 0x100 is missing below a node's list.
fn missing_below(nid: u32) -> Result<u32, Fault> {
    told_at(Kind::BlockMissing, 0x100, nid)
}

// List 0x10000002 nests too deep, as the list of a node.
fn too_deep(nid: u32) -> Result<u32, Fault> {
    told_at(Kind::Nesting, 0x1000_0002, nid)
}

// Two lists above a third, below which data is missing; and one with the same data.
const BROKEN: [(u64, Body); 5] = [
    (6, List(0, 1, &[0x21, 0, 14])),
    (10, List(0, 2, &[0x21, 0, 0, 0x41, 0, 15])),
    (14, List(0, 2, &[0x21, 0, 0, 0x41, 0, 18])),
    (18, List(0, 1, &[0x21, 0x100, 0])),
    (22, List(0, 1, &[0x21, 0x100, 0])),
];

// What is broken is told of each node, and expanded for the first: the third list by each of its two identifiers.
#[test]
fn broken_lists_are_shared(rt: HostRuntime) {
    let alloc = rt.alloc();
    let bytes = store(&rt, alloc, &BROKEN);
    let mut met = Met::read(&rt, alloc, Image::new(&bytes));
    is(&rt, met.check(alloc, 6, 0x41), missing_below(0x41));
    is(&rt, met.expansions(), 3);
    is(&rt, met.check(alloc, 6, 0x61), missing_below(0x61));
    is(&rt, met.check(alloc, 14, 0x81), missing_below(0x81));
    is(&rt, met.expansions(), 3);
    is(&rt, met.check(alloc, 10, 0xa1), missing_below(0xa1));
    is(&rt, met.check(alloc, 10, 0xc1), missing_below(0xc1));
    is(&rt, met.expansions(), 5);
    is(&rt, met.check(alloc, 22, 0xe1), missing_below(0xe1));
    is(&rt, met.expansions(), 6);
}

// 256 lists may nest, but not below another list, though that was asked first.
#[test]
fn nesting_is_told_where_it_is(rt: HostRuntime) {
    let alloc = rt.alloc();
    let mut plan = chain(&rt, alloc, 256);
    add_top(&rt, alloc, &mut plan);
    let bytes = image_of(&rt, alloc, plan);
    let mut met = Met::read(&rt, alloc, Image::new(&bytes));
    is(&rt, met.check(alloc, 0x1000_0002, 0x41), too_deep(0x41));
    is(&rt, met.check(alloc, 0x1000_0002, 0x61), too_deep(0x61));
    is(&rt, met.check(alloc, 6, 0x81), Ok(256));
    is(&rt, met.check(alloc, 0x1000_0002, 0xa1), too_deep(0xa1));
}

// A list above the first of a chain.
fn add_top<R: Abort>(rt: &R, alloc: Global, plan: &mut Vec<BlockPlan>) {
    add(rt, plan, 0x1000_0002, list(rt, alloc, 0, 1, &[0x31, 0, 6]));
}

// 256 lists that nest, below the last of which data is missing, and a list above them.
fn broken_chain<R: Abort>(rt: &R, alloc: Global) -> Vec<BlockPlan> {
    let mut plan = chain(rt, alloc, 255);
    let below = 4 * 255 + 6;
    add(
        rt,
        &mut plan,
        below,
        list(rt, alloc, 0, 1, &[0x21, 0x100, 0]),
    );
    plan.get_mut(254).expect(rt, "no list").body = list(rt, alloc, 0, 1, &[0x671, 0, below]);
    add_top(rt, alloc, &mut plan);
    plan
}

// Below the last of 256 lists data is missing. It is not reached below another list, whichever is asked first.
#[test]
fn a_fault_too_deep(rt: HostRuntime) {
    let alloc = rt.alloc();
    let bytes = image_of(&rt, alloc, broken_chain(&rt, alloc));
    let mut met = Met::read(&rt, alloc, Image::new(&bytes));
    is(&rt, met.check(alloc, 6, 0x41), missing_below(0x41));
    is(&rt, met.check(alloc, 0x1000_0002, 0x41), too_deep(0x41));
    is(&rt, met.check(alloc, 6, 0x61), missing_below(0x61));
    is(&rt, met.check(alloc, 0x1000_0002, 0x61), too_deep(0x61));
}
