//! BTHs of small stores, with bytes changed, and what their check and their look-ups answer.

mod counts;
mod made;

use crate::made::{MEMORY, changed, m0_with};
use crate::opened::{heap_in, line_of_fault};
use crate::told::is;
use made::store;
use pst_bth::*;
use pst_bytes::Span;
use pst_heap::Heap;
use pst_make::Change;
use pst_make::Change::{Cut, Set};
use std::alloc::Global;
use std::process::Abort;

// Whether a key of a BTH is found with its data, which has so many bytes.
fn is_found(bth: &Bth, key: u32, data: Span, size: u8) -> bool {
    bth.find(key) == Some(data) && data.len == u64::from(size)
}

// The keys of a BTH, each with the place of its data.
fn keys_of<R: Abort>(rt: &R, alloc: Global, bth: &Bth, size: u8) -> String {
    let mut keys = format!(in alloc; "yes:").expect(rt, MEMORY);
    for (key, data) in bth.records() {
        if !is_found(bth, key, data, size) {
            rt.panic("not found");
        }
        let at = data.at;
        let more = format!(in alloc; " {key:x} {at:x}").expect(rt, MEMORY);
        keys.push_str(&more).expect(rt, MEMORY);
    }
    keys
}

// What the BTH of a node is answered with, which its user's root names, or the line of its fault.
fn answer<R: Abort>(rt: &R, alloc: Global, image: &[u8], nid: u32, wide: bool) -> String {
    let heap = heap_in(rt, alloc, image, nid);
    let (key, ent) = if wide { (4, 4) } else { (2, 6) };
    match check_bth_at(&heap, heap.user_root_place(), heap.user_root(), key, ent) {
        Ok(bth) => keys_of(rt, alloc, &bth, ent),
        Err(fault) => line_of_fault(rt, alloc, fault),
    }
}

// Whether the BTH of node 0x21 of such a store is answered with a line.
fn is_answered<R: Abort>(rt: &R, alloc: Global, items: &[&[u8]], wide: bool, line: &str) {
    let image = store(rt, alloc, items);
    let told = answer(rt, alloc, &image, 0x21, wide);
    is(rt, told.as_str(), line);
}

const BAD_HEAD: &str = "no: 23 Bth at 0x4c0c bid 0x4 nid 0x21";

// Changes to the block of the message store, 0x21, and what is answered of it. It lies at 0x4c00, and the header item is at 12.
const STORE_ROWS: [(Change<'static>, &str); 6] = [
    (Set(0, &[]), "yes: 3001 4c16"),
    // bType, cbKey, cbEnt, bIdxLevels, even where there is no record.
    (Set(12, &[0xb4]), BAD_HEAD),
    (Set(13, &[4]), BAD_HEAD),
    (Set(14, &[5]), BAD_HEAD),
    (Set(15, &[16]), BAD_HEAD),
    (Set(15, &[16, 0]), BAD_HEAD),
];

// Changes to the block of the root folder, 0x122, at 0x4c40. hidRoot is at 16.
const FOLDER_ROWS: [(Change<'static>, &str); 6] = [
    (Set(0, &[]), "yes: 3602 4c56"),
    // hidRoot.
    (Set(16, &[0]), "yes:"),
    (
        Set(16, &[0x60]),
        "no: 22 HeapId at 0x4c50 bid 0x8 nid 0x122",
    ),
    // hidUserRoot.
    (Set(4, &[0x60]), "no: 22 HeapId at 0x4c44 bid 0x8 nid 0x122"),
    (Set(4, &[0]), "no: 22 HeapId at 0x4c44 bid 0x8 nid 0x122"),
    // The leaf is taken for a branch: its record's data for an identifier.
    (Set(15, &[1]), "no: 22 HeapId at 0x4c56 bid 0x8 nid 0x122"),
];

// Whether the BTH of a node of the small store is answered with each line, a block changed.
fn are_answered<R: Abort>(rt: &R, alloc: Global, block: usize, nid: u32, rows: &[(Change, &str)]) {
    for (change, line) in rows {
        let image = m0_with(rt, alloc, block, &[*change]);
        let told = answer(rt, alloc, &image, nid, false);
        is(rt, told.as_str(), *line);
    }
}

#[test]
fn small_stores(rt: HostRuntime) {
    are_answered(&rt, rt.alloc(), 0, 0x21, &STORE_ROWS);
    are_answered(&rt, rt.alloc(), 1, 0x122, &FOLDER_ROWS);
}

const HEAD: [u8; 8] = [0xb5, 2, 6, 1, 0x40, 0, 0, 0];

const BRANCH: [u8; 18] = [
    1, 0, 0x60, 0, 0, 0, 16, 0, 0x80, 0, 0, 0, 32, 0, 0xa0, 0, 0, 0,
];

const LOW: [u8; 16] = [1, 0, 1, 1, 1, 1, 1, 1, 5, 0, 2, 2, 2, 2, 2, 2];

const HIGH: [u8; 17] = [32, 0, 1, 1, 1, 1, 1, 1, 255, 255, 2, 2, 2, 2, 2, 2, 9];

const NO_BOUND: &str = "no: 23 Bth at 0x4c2e bid 0x4 nid 0x21";

// Changes to the branch and to the first leaf, and what is answered of the BTH. The header item is at 0x4c0c, the branch at
// 0x4c14, the leaves at 0x4c26, 0x4c36 and 0x4c36.
const TWO_LEVELS: [(&[Change<'static>], &[Change<'static>], &str); 8] = [
    (&[], &[], "yes: 1 4c28 5 4c30 20 4c38 ffff 4c40"),
    // The first leaf's last key is not below the next record's, and then it is.
    (&[], &[Set(8, &[16])], NO_BOUND),
    (
        &[],
        &[Set(8, &[15])],
        "yes: 1 4c28 f 4c30 20 4c38 ffff 4c40",
    ),
    // Its first key is lower than its record's; two keys are the same.
    (
        &[],
        &[Set(8, &[15]), Set(0, &[0])],
        "no: 23 Bth at 0x4c26 bid 0x4 nid 0x21",
    ),
    (&[], &[Set(8, &[15]), Set(0, &[15])], NO_BOUND),
    // A branch whose bytes are less than a record.
    (&[Cut(5)], &[], "no: 23 Bth at 0x4c14 bid 0x4 nid 0x21"),
    // A branch whose keys do not rise is told before its first child, which is missing.
    (
        &[Set(12, &[16]), Set(2, &[0xc0])],
        &[],
        "no: 23 Bth at 0x4c20 bid 0x4 nid 0x21",
    ),
    (
        &[Set(2, &[0xc0])],
        &[],
        "no: 22 HeapId at 0x4c16 bid 0x4 nid 0x21",
    ),
];

// Whether the BTH of two levels is answered with a line, its branch and its first leaf changed.
fn is_answered_of_two<R: Abort>(
    rt: &R,
    alloc: Global,
    branch: &[Change],
    low: &[Change],
    line: &str,
) {
    let branch = changed(rt, alloc, &BRANCH, branch);
    let low = changed(rt, alloc, &LOW, low);
    is_answered(rt, alloc, &[&HEAD, &branch, &low, &[], &HIGH], false, line);
}

#[test]
fn two_levels(rt: HostRuntime) {
    let alloc = rt.alloc();
    for (branch, low, line) in TWO_LEVELS {
        is_answered_of_two(&rt, alloc, branch, low, line);
    }
    // A header item of 7 bytes.
    is_answered(&rt, alloc, &[&[0xb5, 2, 6, 0, 0, 0, 0]], false, BAD_HEAD);
}

// Header items of 15 levels, and of 16; a branch that names itself, once and twice.
const DEEP: [u8; 8] = [0xb5, 2, 6, 15, 0x40, 0, 0, 0];

const DEEPER: [u8; 8] = [0xb5, 2, 6, 16, 0x40, 0, 0, 0];

const OWN: [u8; 6] = [1, 0, 0x40, 0, 0, 0];

const TWICE: [u8; 12] = [1, 0, 0x40, 0, 0, 0, 2, 0, 0x40, 0, 0, 0];

// 15 levels of it end in a leaf without a record; a second record breaks the first one's bound.
const CIRCLES: [(&[&[u8]], &str); 3] = [
    (&[&DEEP, &OWN], "yes:"),
    (&[&DEEP, &TWICE], "no: 23 Bth at 0x4c1a bid 0x4 nid 0x21"),
    (&[&DEEPER, &OWN], BAD_HEAD),
];

#[test]
fn circle_of_items(rt: HostRuntime) {
    let alloc = rt.alloc();
    for (items, line) in CIRCLES {
        is_answered(&rt, alloc, items, false, line);
    }
}

// Keys of 4 bytes, three levels: the root at 0x4c14 has branches at 0x4c24 and 0x4c34, and these have leaves at 0x4c3c, 0x4c4c
// and behind that one.
const ROOT: [u8; 16] = [1, 0, 0, 0, 0x60, 0, 0, 0, 0, 0, 1, 0, 0x80, 0, 0, 0];

const LEFT: [u8; 16] = [1, 0, 0, 0, 0xa0, 0, 0, 0, 0, 1, 0, 0, 0xc0, 0, 0, 0];

const RIGHT: [u8; 8] = [0, 0, 1, 0, 0xe0, 0, 0, 0];

const FIRST: [u8; 16] = [1, 0, 0, 0, 9, 9, 9, 9, 0xff, 0, 0, 0, 9, 9, 9, 9];

const LAST: [u8; 19] = [
    0, 0, 1, 0, 9, 9, 9, 9, 0xff, 0xff, 0xff, 0xff, 9, 9, 9, 9, 1, 1, 1,
];

const TOP: [u8; 8] = [0xb5, 4, 4, 2, 0x40, 0, 0, 0];

// The last key below the left branch, which is bounded by the root's next record.
const BELOW: [u8; 8] = [0xff, 0xff, 0, 0, 9, 9, 9, 9];

const OVER: [u8; 8] = [0, 0, 1, 0, 9, 9, 9, 9];

const THREE_LEVELS: [(&[&[u8]], &str); 3] = [
    (
        &[&TOP, &ROOT, &LEFT, &RIGHT, &FIRST, &[], &LAST],
        "yes: 1 4c40 ff 4c48 10000 4c50 ffffffff 4c58",
    ),
    (
        &[&TOP, &ROOT, &LEFT, &RIGHT, &FIRST, &BELOW, &LAST],
        "yes: 1 4c40 ff 4c48 ffff 4c50 10000 4c58 ffffffff 4c60",
    ),
    (
        &[&TOP, &ROOT, &LEFT, &RIGHT, &FIRST, &OVER, &LAST],
        "no: 23 Bth at 0x4c4c bid 0x4 nid 0x21",
    ),
];

#[test]
fn three_levels(rt: HostRuntime) {
    let alloc = rt.alloc();
    for (items, line) in THREE_LEVELS {
        is_answered(&rt, alloc, items, true, line);
    }
}

// What is found in the BTH of two levels, by one who knows that it is one, and what is not there.
#[tactic(auto, using(pst_fault::proofs::ToldLemmas::told_none))]
fn found<R: Abort>(rt: &R, heap: &Heap) {
    if check_bth(heap, 0x20, 2, 6).is_err() {
        rt.panic("no tree");
    }
    let bth = known_bth(heap, 0x20, 2, 6);
    is(rt, bth.heap().node().nid(), 0x21);
    is(rt, bth.find(5), Some(Span { at: 0x4c30, len: 6 }));
    for key in [0, 2, 16, 31, 33, 0xfffe, 0x1_0000, 0xffff_ffff] {
        is(rt, bth.find(key), None);
    }
}

// A header item that nothing in the file names.
fn missed<R: Abort>(rt: &R, alloc: Global, heap: &Heap) -> String {
    let Err(fault) = check_bth(heap, 0xc0, 2, 6) else {
        rt.panic("an item");
    };
    line_of_fault(rt, alloc, fault)
}

#[test]
fn misses(rt: HostRuntime) {
    let alloc = rt.alloc();
    let image = store(&rt, alloc, &[&HEAD, &BRANCH, &LOW, &[], &HIGH]);
    let heap = heap_in(&rt, alloc, &image, 0x21);
    found(&rt, &heap);
    let told = missed(&rt, alloc, &heap);
    is(&rt, told.as_str(), "no: 22 HeapId at 0x0 bid 0x4 nid 0x21");
}
