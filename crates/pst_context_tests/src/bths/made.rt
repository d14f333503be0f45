//! Stores that the tests are run on.

use crate::made::{MEMORY, put, store_of};
use std::alloc::Global;
use std::process::Abort;

// Where the items of a heap begin and end, its first one at 12, as its page map has them.
fn page_map<R: Abort>(rt: &R, alloc: Global, items: &[&[u8]]) -> Vec<u8> {
    let mut bytes = Vec::new(alloc);
    put(rt, &mut bytes, items.len() as u64, 4);
    let mut offset = 12usize;
    put(rt, &mut bytes, 12, 2);
    for item in items {
        offset = offset.saturating_add(item.len());
        put(rt, &mut bytes, offset as u64, 2);
    }
    bytes
}

// The bytes of a heap with these items from byte 12 on, the first of which is the user's root.
fn heap_of<R: Abort>(rt: &R, alloc: Global, items: &[&[u8]]) -> Vec<u8> {
    let mut size = 12usize;
    for item in items {
        size = size.saturating_add(item.len());
    }
    let mut bytes = Vec::new(alloc);
    put(rt, &mut bytes, size as u64, 2);
    bytes
        .extend_from_slice(&[0xec, 0xbc, 0x20, 0, 0, 0, 0, 0, 0, 0])
        .expect(rt, MEMORY);
    for item in items {
        bytes.extend_from_slice(item).expect(rt, MEMORY);
    }
    let map = page_map(rt, alloc, items);
    bytes.extend_from_slice(&map).expect(rt, MEMORY);
    bytes
}

// A store of one node, 0x21, whose data is such a heap at 0x4c00.
pub(super) fn store<R: Abort>(rt: &R, alloc: Global, items: &[&[u8]]) -> Vec<u8> {
    let body = heap_of(rt, alloc, items);
    store_of(rt, alloc, &[(4, &body)], 4, 0)
}
