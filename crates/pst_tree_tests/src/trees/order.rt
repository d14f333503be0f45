//! Keys and their bounds, and the first page that is wrong.

use super::*;
use crate::made::changed;
use crate::told::{is, is_at};
use pst_page::{Page, open_page};

// The fault of a small store whose second block has this identifier.
fn second_key<R: Abort>(rt: &R, alloc: Global, bid: u8) -> Option<Fault> {
    let image = changed(
        rt,
        alloc,
        &[Change::Set(0x4a18, &[bid]), Change::Page(0x4a00)],
    );
    blocks_fault(alloc, &image)
}

// Without bit 0, the keys 4 and 5 are the same.
#[test]
fn keys_of_blocks_rise_without_bit_zero(rt: HostRuntime) {
    let fault = Fault::within(Kind::KeyOrder, 0x4a18, 8);
    is(&rt, second_key(&rt, rt.alloc(), 5), Some(fault));
    is(&rt, second_key(&rt, rt.alloc(), 6), None);
}

// The fault of three leaves, of which the second ends with this key.
fn last_key<R: Abort>(rt: &R, alloc: Global, last: u64) -> Option<Fault> {
    blocks_fault(alloc, &three_leaves(rt, alloc, last))
}

// The fault of three leaves, of which the second begins with this key.
fn first_key<R: Abort>(rt: &R, alloc: Global, first: u64) -> Option<Fault> {
    let mut image = three_leaves(rt, alloc, 36);
    let leaf = [empty_block(first), empty_block(36)];
    put_page(rt, &mut image, PageKind::Bbt, page_at(2), 0, &leaf);
    blocks_fault(alloc, &image)
}

#[test]
fn keys_keep_the_bounds_of_the_pages_above(rt: HostRuntime) {
    let leaf = page_at(2);
    let first = Fault::within(Kind::KeyOrder, leaf.ib, leaf.bid);
    let second = Fault::within(Kind::KeyOrder, leaf.ib.saturating_add(24), leaf.bid);
    is(&rt, last_key(&rt, rt.alloc(), 40), Some(second));
    is(&rt, last_key(&rt, rt.alloc(), 36), None);
    is(&rt, first_key(&rt, rt.alloc(), 16), Some(first));
    is(&rt, first_key(&rt, rt.alloc(), 24), None);
}

#[test]
fn a_page_has_one_place_in_its_tree(rt: HostRuntime) {
    let mut image = three_leaves(&rt, rt.alloc(), 36);
    let root = [branch(4, 1), branch(20, 2), branch(40, 2)];
    put_page(&rt, &mut image, PageKind::Bbt, page_at(0), 1, &root);
    let leaf = page_at(2);
    let fault = Fault::within(Kind::Overlap, leaf.ib, leaf.bid);
    is(&rt, blocks_fault(rt.alloc(), &image), Some(fault));
    // A page on an allocation map, whose own bytes are never looked at.
    set_root(
        &rt,
        &mut image,
        PageKind::Bbt,
        Bref {
            bid: 12,
            ib: 0x4440,
        },
    );
    let fault = Fault::within(Kind::Overlap, 0x4440, 12);
    is(&rt, blocks_fault(rt.alloc(), &image), Some(fault));
}

// The fault where the second of three leaves has other bytes at an offset. The third is wrong, too, but comes later.
fn leaf_with<R: Abort>(rt: &R, alloc: Global, offset: usize, bytes: &[u8]) -> Option<Fault> {
    let mut image = three_leaves(rt, alloc, 36);
    let leaf = place_of(rt, page_at(2));
    put(rt, &mut image, leaf.saturating_add(offset), bytes);
    change(rt, &mut image, &[Change::Page(leaf as u64)]);
    put(rt, &mut image, place_of(rt, page_at(3)), &[1]);
    blocks_fault(alloc, &image)
}

// An offset, the bytes there, and the kind of the fault.
const WRONG_LEAVES: [(usize, &[u8], Kind); 4] = [
    (488, &[2, 15, 23], Kind::PageShape),
    (488, &[0, 15, 24, 1], Kind::PageShape),
    (488, &[2, 15, 24, 1], Kind::PageShape),
    (496, &[0x81], Kind::PageTrailer),
];

#[test]
fn the_first_wrong_page_is_named(rt: HostRuntime) {
    let leaf = page_at(2);
    for (offset, bytes, kind) in WRONG_LEAVES {
        let fault = leaf_with(&rt, rt.alloc(), offset, bytes);
        is(&rt, fault, Some(Fault::within(kind, leaf.ib, leaf.bid)));
    }
}

// A page of the block B-tree.
fn opened<'a, R: Abort>(rt: &R, image: &'a [u8], bref: Bref) -> Page<'a> {
    let image = Image::new(image);
    if bref.ib > 0x10000 || image.len() < bref.ib + 512 {
        rt.panic("no page");
    }
    open_page(image, bref, PageKind::Bbt).expect(rt, "no good page")
}

// The bound below an entry of a page that has none itself, or that has this one.
fn bound<R: Abort>(rt: &R, page: &Page, entry: u8, high: Option<u64>) -> Option<u64> {
    if entry >= page.count() {
        rt.panic("no entry");
    }
    bound_of(page, entry, high)
}

// What the check of a leaf says of its keys, under a low and a high bound: none, or where in it the first fault is.
fn is_in_order<R: Abort>(rt: &R, leaf: &Page, low: u64, high: Option<u64>, offset: Option<u64>) {
    let Bref { bid, ib } = page_at(2);
    let wanted = match offset {
        Some(offset) => Some(Fault::within(Kind::KeyOrder, ib.saturating_add(offset), bid)),
        None => None,
    };
    is_at(rt, (low, high), check_order(leaf, low, high).err(), wanted);
}

// The keys of the leaf are 20 and 36, and those of the branch above it 4, 20 and 40.
#[test]
fn the_keys_of_one_page(rt: HostRuntime) {
    let image = three_leaves(&rt, rt.alloc(), 36);
    let leaf = opened(&rt, &image, page_at(2));
    is_in_order(&rt, &leaf, 0, None, None);
    is_in_order(&rt, &leaf, 20, Some(37), None);
    is_in_order(&rt, &leaf, 21, None, Some(0));
    is_in_order(&rt, &leaf, 0, Some(36), Some(24));
    is_in_order(&rt, &leaf, 0, Some(20), Some(0));
    has_bounds(&rt, &opened(&rt, &image, page_at(0)));
}

fn has_bounds<R: Abort>(rt: &R, root: &Page) {
    is(rt, bound(rt, root, 0, None), Some(20));
    is(rt, bound(rt, root, 1, None), Some(40));
    is(rt, bound(rt, root, 2, None), None);
    is(rt, bound(rt, root, 2, Some(50)), Some(50));
}
