//! The parts of data trees.

use super::*;
use crate::told::is;

// The parts of a data tree: the block identifier of each, and behind it the length of each of its spans.
fn parts_of<R: Abort>(rt: &R, alloc: Global, image: &[u8], bid: u64) -> Vec<u64> {
    let parts = Tree::read(rt, alloc, Image::new(image), bid).parts();
    let mut found = Vec::new(alloc);
    for i in 0..parts.count() {
        found.push(parts.bid(i)).expect(rt, MEMORY);
        add_lens(rt, &mut found, parts.spans(i));
    }
    found
}

fn add_lens<R: Abort>(rt: &R, found: &mut Vec<u64>, spans: Pieces) {
    for slice in spans {
        found.push(slice.len() as u64).expect(rt, MEMORY);
    }
}

// Identifiers, and the parts of their trees: in order, as often as they are named, and as they are written. What is no XXBLOCK
// is one part.
const PARTS: [(u64, &[u64]); 5] = [
    (0x12, &[0x0a, 0x0f, 0, 3, 0, 0x0a, 0x0e, 0, 3, 0]),
    (0, &[0]),
    (5, &[5, 3]),
    (0x0a, &[0x0a]),
    (0x0e, &[0x0e, 0, 3, 0]),
];

const LISTS: Lists<'static> = &[
    (0x0a, 1, 0, &[]),
    (0x0e, 1, 3, &[(8, 1), (4, 1), (8, 1)]),
    (0x12, 2, 6, &[(0x0a, 1), (0x0f, 1), (0x0a, 1), (0x0e, 1)]),
];

#[test]
fn xblocks_of_an_xxblock(rt: HostRuntime) {
    let alloc = rt.alloc();
    let image = store(&rt, alloc, ONE_AND_NONE, LISTS);
    for (bid, wanted) in PARTS {
        let parts = parts_of(&rt, alloc, &image, bid);
        is(&rt, parts.as_slice(), wanted);
    }
}
