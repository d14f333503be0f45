//! Heaps of small stores, with bytes changed, and what their check and their items answer.

mod shared;

use crate::made::{MEMORY, m0_with, put, store_of};
use crate::opened::{heap_in, line_of_fault, node_in};
use crate::told::is;
use pst_bytes::Span;
use pst_heap::*;
use pst_make::Change;
use pst_make::Change::Set;
use std::alloc::Global;
use std::process::Abort;

// The client and the user's root of a heap, or the line of its fault; the client has to be 0xBC.
fn line_of<R: Abort>(rt: &R, alloc: Global, heap: &Heap) -> String {
    let line = match check_client(heap, 0xbc) {
        Ok(()) => {
            let client = heap.client();
            let root = heap.user_root();
            format!(in alloc; "yes: {client:x} {root:x}").expect(rt, MEMORY)
        }
        Err(fault) => format!(in alloc; "client {fault}").expect(rt, MEMORY),
    };
    line
}

// What the heap of node 0x21 is answered with, or the line of its fault.
fn answer<R: Abort>(rt: &R, alloc: Global, image: &[u8]) -> String {
    let node = node_in(rt, alloc, image, 0x21);
    match check_heap(node) {
        Ok(heap) => line_of(rt, alloc, &heap),
        Err(fault) => line_of_fault(rt, alloc, fault),
    }
}

// Whether the heap of node 0x21 is answered with a line.
fn is_answered<R: Abort>(rt: &R, alloc: Global, image: &[u8], line: &str) {
    let told = answer(rt, alloc, image);
    is(rt, told.as_str(), line);
}

const NO_HEAP: &str = "no: 21 Heap at 0x4c00 bid 0x4 nid 0x21";

// Changes to the block of the message store, and what is answered of it. The block has 44 bytes: the header, items of 8, 8 and
// 4 bytes at 12, 20 and 28, and at 32 their map.
const HEAP_ROWS: [(Change<'static>, &str); 12] = [
    (Set(0, &[0x20, 0x00, 0xec, 0xbc]), "yes: bc 20"),
    (Set(4, &[0x40, 0x01]), "yes: bc 140"),
    // Another client, and another signature.
    (
        Set(0, &[0x20, 0x00, 0xec, 0xbb]),
        "client no: 21 Heap at 0x4c00 bid 0x4 nid 0x21",
    ),
    (Set(2, &[0xed]), NO_HEAP),
    // The counts end behind the span, then the offsets do.
    (Set(0, &[0x29, 0x00]), NO_HEAP),
    (Set(0, &[0x28, 0x00]), NO_HEAP),
    (Set(32, &[0x04]), NO_HEAP),
    // One item less leaves the last two bytes to nobody.
    (Set(32, &[0x02]), "yes: bc 20"),
    // The first item ends before it begins; it is empty.
    (Set(36, &[0x15]), NO_HEAP),
    (Set(36, &[0x14]), "yes: bc 20"),
    // The last item ends behind the span; it ends with the span.
    (Set(42, &[0x2d]), NO_HEAP),
    (Set(42, &[0x2c]), "yes: bc 20"),
];

#[test]
fn fronts_and_maps(rt: HostRuntime) {
    let alloc = rt.alloc();
    for (change, line) in HEAP_ROWS {
        let image = m0_with(&rt, alloc, 0, &[change]);
        is_answered(&rt, alloc, &image, line);
    }
}

// What an identifier that names no item is answered with.
fn no_item<R: Abort>(rt: &R, alloc: Global, heap: &Heap, hid: u32) -> String {
    if heap.item_span(hid).is_some() {
        rt.panic("an item");
    }
    match heap.item(hid) {
        Ok(_) => rt.panic("an item"),
        Err(fault) => line_of_fault(rt, alloc, fault),
    }
}

// The places and bytes of a heap with one item in each of its two spans.
fn items_of_two<R: Abort>(rt: &R, heap: &Heap) {
    is(rt, heap.user_root_place(), 0x4c04);
    is(rt, heap.node().nid(), 0x21);
    is(rt, heap.image().len(), 271_360);
    is(rt, heap.item_span(0x20), Some(Span { at: 0x4c0c, len: 2 }));
    is(rt, heap.item(0x20).ok(), Some([9, 9].as_slice()));
    let next = Some(Span { at: 0x4c42, len: 1 });
    is(rt, heap.item_span(0x10020), next);
    is(rt, heap.item(0x10020).ok(), Some([7].as_slice()));
}

// The same items, by one who remembers the span of the last one.
fn items_in_turn<R: Abort>(rt: &R, heap: Heap) {
    let mut items = Items::of(heap);
    is(rt, items.heap().user_root_place(), 0x4c04);
    for (hid, at, len) in [
        (0x10020, 0x4c42, 1),
        (0x20, 0x4c0c, 2),
        (0x20, 0x4c0c, 2),
        (0x10020, 0x4c42, 1),
    ] {
        is(rt, items.item_span(hid), Some(Span { at, len }));
        is(rt, items.item_span(0x20020), None);
    }
}

// The spans lie at 0x4c00 and 0x4c40, with one item each.
#[test]
fn items_are_lent(rt: HostRuntime) {
    let alloc = rt.alloc();
    let image = store_of_two(&rt, alloc, &NEXT, 33);
    let heap = heap_in(&rt, alloc, &image, 0x21);
    heap.is_sound();
    let heap = known_heap(heap.node());
    items_of_two(&rt, &heap);
    items_in_turn(&rt, heap);
    // No number, a type that is not a heap's, an item behind the last one, a span behind the last one.
    for hid in [0, 0x10000, 0x21, 0x30, 0x40, 0x10040, 0x20020, 0xffff_ffe0] {
        let told = no_item(&rt, alloc, &heap, hid);
        is(&rt, told.as_str(), "no: 22 HeapId at 0x0 bid 0xe nid 0x21");
    }
}

const FIRST: [u8; 22] = [
    14, 0, 0xec, 0xbc, 0, 0, 0, 0, 0, 0, 0, 0, 9, 9, 1, 0, 0, 0, 12, 0, 14, 0,
];

const NEXT: [u8; 11] = [3, 0, 7, 1, 0, 0, 0, 2, 0, 3, 0];

// A store whose heap has a first block of 22 bytes and another one.
fn store_of_two<R: Abort>(rt: &R, alloc: Global, next: &[u8], total: u32) -> Vec<u8> {
    let xblock = list_of(rt, alloc, 1, 4, 1, total, Some(8));
    store_of(rt, alloc, &[(4, &FIRST), (8, next), (14, &xblock)], 14, 0)
}

const NO_NEXT: &str = "no: 21 Heap at 0x4c40 bid 0xe nid 0x21";

// The other block, how long both are, and what is answered.
const ROWS_OF_TWO: [(&[u8], u32, &str); 7] = [
    (&NEXT, 33, "yes: bc 0"),
    (&[2, 0, 0, 0, 0, 0, 0, 0], 30, "yes: bc 0"),
    // No room for ibHnpm, for the counts, for the first offset, for the second one.
    (&[2], 23, NO_NEXT),
    (&[2, 0, 0, 0, 0], 27, NO_NEXT),
    (&[2, 0, 0, 0, 0, 0], 28, NO_NEXT),
    (&[2, 0, 1, 0, 0, 0, 0, 0], 30, NO_NEXT),
    // A span that begins with its map.
    (&[0, 0, 0, 0, 0, 0], 28, "yes: bc 0"),
];

const BRIEF: [u8; 11] = [0, 0, 0xec, 0xbc, 0, 0, 0, 0, 0, 0, 0];

// The first span comes first, and has all 12 bytes of the header.
fn first_spans<R: Abort>(rt: &R, alloc: Global) {
    let none = store_of(rt, alloc, &[], 0, 0);
    is_answered(rt, alloc, &none, "no: 21 Heap at 0x0 bid 0x0 nid 0x21");
    let brief = store_of(rt, alloc, &[(4, &BRIEF)], 4, 0);
    is_answered(rt, alloc, &brief, NO_HEAP);
}

// The second span lies at 0x4c40, and has no header of its own.
#[test]
fn several_spans(rt: HostRuntime) {
    let alloc = rt.alloc();
    for (next, total, line) in ROWS_OF_TWO {
        let image = store_of_two(&rt, alloc, next, total);
        is_answered(&rt, alloc, &image, line);
    }
    first_spans(&rt, alloc);
}

// The body of an XBLOCK (level 1) or XXBLOCK (level 2) that names a block so many times, and then another.
fn list_of<R: Abort>(
    rt: &R,
    alloc: Global,
    level: u8,
    bid: u32,
    times: u32,
    total: u32,
    other: Option<u32>,
) -> Vec<u8> {
    let mut bytes = Vec::from_slice(alloc, &[1, level]).expect(rt, MEMORY);
    let more = if other.is_some() { 1 } else { 0 };
    put(rt, &mut bytes, u64::from(times.saturating_add(more)), 2);
    put(rt, &mut bytes, u64::from(total), 4);
    for _ in 0..times {
        put(rt, &mut bytes, u64::from(bid), 8);
    }
    if let Some(bid) = other {
        put(rt, &mut bytes, u64::from(bid), 8);
    }
    bytes
}

const SPAN: [u8; 18] = [12, 0, 0xec, 0xbc, 0, 0, 0, 0, 0, 0, 0, 0, 0, 0, 0, 0, 12, 0];

// 65,536 spans in block 18, and in block 22 one more, which is block 4 at 0x4c00 once more; node 0x21 has one of these.
fn store_of_many<R: Abort>(rt: &R, alloc: Global, bid_data: u64) -> Vec<u8> {
    let many = list_of(rt, alloc, 1, 4, 512, 9_216, None);
    let one = list_of(rt, alloc, 1, 4, 1, 18, None);
    let most = list_of(rt, alloc, 2, 10, 128, 1_179_648, None);
    let over = list_of(rt, alloc, 2, 10, 128, 1_179_666, Some(14));
    let blocks: [(u64, &[u8]); 5] = [
        (4, &SPAN),
        (10, &many),
        (14, &one),
        (18, &most),
        (22, &over),
    ];
    store_of(rt, alloc, &blocks, bid_data, 0)
}

#[test]
fn most_spans(rt: HostRuntime) {
    let alloc = rt.alloc();
    let fits = store_of_many(&rt, alloc, 18);
    is_answered(&rt, alloc, &fits, "yes: bc 0");
    let more = store_of_many(&rt, alloc, 22);
    is_answered(&rt, alloc, &more, "no: 21 Heap at 0x4c00 bid 0x16 nid 0x21");
}
