//! Spans by their numbers, in any order.

use super::*;
use crate::told::is;

// Three data blocks, two XBLOCKs that name one and two of them, and an empty XBLOCK.
const BODIES: Bodies<'static> = &[(4, 0x61, 1), (8, 0x62, 2), (12, 0x63, 4)];

const XBLOCKS: Lists<'static> = &[
    (0x12, 1, 0, &[]),
    (0x16, 1, 3, &[(4, 1), (8, 1)]),
    (0x1a, 1, 4, &[(12, 1)]),
];

// An image of these, and of an XXBLOCK that names the XBLOCKs in turn 1,021 times: none, the first two, the last, the first two.
// So every four have five spans.
fn many_parts<R: Abort>(rt: &R, alloc: Global) -> Vec<u8> {
    let mut plan = plan_of(rt, alloc, BODIES, XBLOCKS);
    let children = children_of(rt, alloc);
    add(rt, &mut plan, 0x1e, list_of(rt, alloc, 2, 2550, &children));
    image_of(rt, alloc, plan)
}

fn children_of<R: Abort>(rt: &R, alloc: Global) -> Vec<u64> {
    let mut children = Vec::new(alloc);
    for _ in 0..255 {
        children
            .extend_from_slice(&[0x12, 0x16, 0x1a, 0x17])
            .expect(rt, MEMORY);
    }
    children.push(0x12).expect(rt, MEMORY);
    children
}

// How many bytes the span with a number has: those of the first, second, third, first and second block, over and over.
fn len_of(n: u64) -> Option<u64> {
    if n >= 1275 {
        return None;
    }
    Some(match n % 5 {
        0 | 3 => 1,
        2 => 4,
        _ => 2,
    })
}

// How many bytes a span has that is asked for.
fn len_at(leaves: &mut Leaves, n: u64) -> Option<u64> {
    let span = leaves.leaf(n)?;
    Some(span.len)
}

#[test]
fn spans_in_order_and_backwards(rt: HostRuntime) {
    let alloc = rt.alloc();
    let image = many_parts(&rt, alloc);
    let tree = Tree::read(&rt, alloc, Image::new(&image), 0x1e);
    is(&rt, tree.leaf_count(), 1275);
    let mut forwards = tree.leaves();
    for n in 0..1277 {
        is(&rt, len_at(&mut forwards, n), len_of(n));
    }
    let mut backwards = tree.leaves();
    for i in 0..1277 {
        let n = 1276 - i;
        is(&rt, len_at(&mut backwards, n), len_of(n));
    }
    // The same place as `leaf` gives, too.
    for n in [0, 1, 2, 5, 637, 1274, 1275] {
        is(&rt, backwards.leaf(n), tree.leaf(n));
    }
}

#[test]
fn spans_out_of_order(rt: HostRuntime) {
    let alloc = rt.alloc();
    let image = many_parts(&rt, alloc);
    let tree = Tree::read(&rt, alloc, Image::new(&image), 0x1e);
    // The last one first, so that all parts are passed at once; then steps of all lengths.
    let mut leaves = tree.leaves();
    is(&rt, len_at(&mut leaves, 1274), Some(2));
    is(&rt, len_at(&mut leaves, u64::MAX), None);
    for i in 0..1300u64 {
        let n = i * i % 1279;
        is(&rt, len_at(&mut leaves, n), len_of(n));
    }
    // Far apart, by one that knows only what it came to.
    let mut fresh = tree.leaves();
    for n in [42, 41, 640, 39, 1000, 3, 999, 1271, 0] {
        is(&rt, len_at(&mut fresh, n), len_of(n));
    }
}

const TWO_BODIES: Bodies<'static> = &[(4, 0x61, 1), (8, 0x62, 2)];

const FEW_PARTS: Lists<'static> = &[
    (0x12, 1, 0, &[]),
    (0x16, 1, 3, &[(4, 1), (8, 1)]),
    (0x1a, 2, 0, &[]),
    (0x1e, 2, 0, &[(0x12, 2)]),
];

#[test]
fn spans_of_one_part(rt: HostRuntime) {
    let alloc = rt.alloc();
    let image = store(&rt, alloc, TWO_BODIES, FEW_PARTS);
    for (bid, lens) in ONE_PART {
        let tree = Tree::read(&rt, alloc, Image::new(&image), bid);
        has_lens(&rt, tree.leaves(), lens);
    }
}

// Stops the test where the first three spans have not these lengths.
fn has_lens<R: Abort>(rt: &R, spans: Leaves, lens: [Option<u64>; 3]) {
    let mut leaves = spans;
    let [first, second, third] = lens;
    is(rt, len_at(&mut leaves, 2), third);
    is(rt, len_at(&mut leaves, 0), first);
    is(rt, len_at(&mut leaves, 1), second);
    is(rt, len_at(&mut leaves, 1), second);
    is(rt, len_at(&mut leaves, 0), first);
}

// No block, data blocks, XBLOCKs, and XXBLOCKs without a span; and how many bytes their spans have.
const ONE_PART: [(u64, [Option<u64>; 3]); 7] = [
    (0, [None, None, None]),
    (4, [Some(1), None, None]),
    (9, [Some(2), None, None]),
    (0x12, [None, None, None]),
    (0x16, [Some(1), Some(2), None]),
    (0x1a, [None, None, None]),
    (0x1e, [None, None, None]),
];
