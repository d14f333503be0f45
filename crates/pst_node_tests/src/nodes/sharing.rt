//! How many internal blocks a check expands.

use super::*;
use crate::told::is;

// How many internal blocks were expanded of a file that is good.
fn expanded<R: Abort>(rt: &R, alloc: Global, image: &[u8]) -> u64 {
    good(rt, alloc, image).work.expansions
}

// 2,000 nodes whose data is one XXBLOCK, which names one XBLOCK 1,021 times, which names one body 1,021 times.
fn one_tree_of_all<R: Abort>(rt: &R, alloc: Global) -> Vec<u8> {
    let mut plan = no_plan(alloc);
    add_block(rt, &mut plan, 4, naming(rt, alloc, b"x", &[]));
    add_block(
        rt,
        &mut plan,
        0x0a,
        naming(rt, alloc, XBLOCK_OF_ALL, &[4; 1021]),
    );
    add_block(
        rt,
        &mut plan,
        0x0e,
        naming(rt, alloc, XXBLOCK_OF_ALL, &[0x0a; 1021]),
    );
    for k in 1..=2000u32 {
        let bid_data = 0x0e + u64::from(k % 2);
        add_node(rt, &mut plan, k.saturating_mul(0x20), bid_data, 0);
    }
    image_of(rt, alloc, &plan)
}

const XBLOCK_OF_ALL: &[u8] = &[1, 1, 0xfd, 3, 0xfd, 3, 0, 0];

const XXBLOCK_OF_ALL: &[u8] = &[1, 2, 0xfd, 3, 0x09, 0xe8, 0x0f, 0];

#[test]
fn a_tree_of_all_nodes_counts_once(rt: HostRuntime) {
    let image = one_tree_of_all(&rt, rt.alloc());
    is(&rt, expanded(&rt, rt.alloc(), &image), 2);
    counts_agree();
}

// Two nodes with one list, with either bit 0; in it data trees and lists of which each stands in more than one place: an
// XBLOCK alone and below an XXBLOCK, an SLBLOCK alone and below two SIBLOCKs. An XBLOCK that nothing names does not count.
const OFTEN: Blocks<'static> = &[
    (4, b"data", &[]),
    (0x0a, &[1, 1, 1, 0, 4, 0, 0, 0], &[4]),
    (0x0e, &[1, 2, 2, 0, 8, 0, 0, 0], &[0x0a, 0x0b]),
    (0x12, &[2, 0, 1, 0, 0, 0, 0, 0], &[0x21, 0x0e, 0]),
    (0x16, &[2, 1, 1, 0, 0, 0, 0, 0], &[0x21, 0x12]),
    (0x1a, &[2, 1, 1, 0, 0, 0, 0, 0], &[0x21, 0x13]),
    (
        0x1e,
        &[2, 0, 3, 0, 0, 0, 0, 0],
        &[0x21, 0x0a, 0x16, 0x41, 4, 0x1a, 0x61, 0, 0x12],
    ),
    (0x22, &[1, 1, 1, 0, 4, 0, 0, 0], &[4]),
];

const OF_ONE_LIST: Listed<'static> = &[(0x21, 0x0b, 0x1e), (0x41, 0x0e, 0x1f)];

#[test]
fn each_block_counts_once(rt: HostRuntime) {
    let alloc = rt.alloc();
    let image = store(&rt, alloc, OFTEN, OF_ONE_LIST);
    is(&rt, expanded(&rt, alloc, &image), 6);
    is(&rt, expanded(&rt, alloc, &small(&rt, alloc)), 0);
}

const TWO_LEAVES: &[u8] = &[2, 1, 2, 0, 0, 0, 0, 0];

const TWO_ENTRIES: &[u8] = &[2, 0, 2, 0, 0, 0, 0, 0];

// Two nodes whose SIBLOCKs name SLBLOCKs of the same four.
fn two_siblocks<R: Abort>(rt: &R, alloc: Global, first: u64, second: u64) -> Vec<u8> {
    let mut plan = no_plan(alloc);
    for (bid, numbers) in [
        (2, [0x21, 0x0a, 0xa1, 0x0e]),
        (6, [0x21, first, 0x41, second]),
    ] {
        add_block(rt, &mut plan, bid, naming(rt, alloc, TWO_LEAVES, &numbers));
    }
    for (bid, entries) in SLBLOCKS {
        add_block(rt, &mut plan, bid, naming(rt, alloc, TWO_ENTRIES, &entries));
    }
    add_node(rt, &mut plan, 0x21, 0, 2);
    add_node(rt, &mut plan, 0x41, 0, 6);
    image_of(rt, alloc, &plan)
}

const SLBLOCKS: [(u64, [u64; 6]); 4] = [
    (0x0a, [0x21, 0, 0, 0x61, 0, 0]),
    (0x0e, [0xa1, 0, 0, 0xc1, 0, 0]),
    (0x12, [0x61, 0, 0, 0xe1, 0, 0]),
    (0x16, [0x41, 0, 0, 0x81, 0, 0]),
];

// One that stands twice is told of the second node's SIBLOCK, in whatever order; identifiers that fall, or lie between those of
// another, are no fault.
#[test]
fn a_subnode_twice_in_shared_slblocks(rt: HostRuntime) {
    let yes = "yes: 2 pages 6 blocks 2 nodes High 0 lost 0 old";
    let no = "no: 17 Subnode at 0x4c40 bid 0x6 nid 0x41";
    for (first, second, line) in [
        (0x0a, 0x0e, yes),
        (0x0e, 0x0a, yes),
        (0x0a, 0x16, yes),
        (0x0a, 0x12, no),
        (0x12, 0x0b, no),
        (0x0a, 0x0a, no),
    ] {
        let image = two_siblocks(&rt, rt.alloc(), first, second);
        is_answered(&rt, rt.alloc(), &image, line);
    }
}
