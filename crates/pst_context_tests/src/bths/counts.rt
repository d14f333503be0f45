//! How many records a BTH has.

use super::made::store;
use super::{BRANCH, HEAD, HIGH, LOW, check_bth};
use crate::opened::heap_in;
use crate::told::is;
use std::alloc::Global;
use std::process::Abort;

// How many records the BTH of node 0x21 has.
fn counted<R: Abort>(rt: &R, alloc: Global, image: &[u8]) -> u64 {
    let heap = heap_in(rt, alloc, image, 0x21);
    let Ok(bth) = check_bth(&heap, heap.user_root(), 2, 6) else {
        rt.panic("no BTH");
    };
    bth.count()
}

// The items of a heap, and how many records its BTH has: two leaves of two records each, and one without; a header that names
// no item.
const COUNTS: [(&[&[u8]], u64); 2] = [
    (&[&HEAD, &BRANCH, &LOW, &[], &HIGH], 4),
    (&[&[0xb5, 2, 6, 0, 0, 0, 0, 0]], 0),
];

#[test]
fn records_are_counted(rt: HostRuntime) {
    let alloc = rt.alloc();
    for (items, count) in COUNTS {
        let image = store(&rt, alloc, items);
        is(&rt, counted(&rt, alloc, &image), count);
    }
}
