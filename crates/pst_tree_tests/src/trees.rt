//! B-trees of small and of many pages, with bytes changed.

mod claims;
mod lists;
mod many;
mod order;

use crate::made::{MEMORY, change, small};
use crate::told::is;
use pst_btree::*;
use pst_bytes::Image;
use pst_fault::{Fault, Kind};
use pst_header::{Bref, read_header};
use pst_make::{Change, set};
use pst_page::PageKind;
use pst_space::Claims;
use std::alloc::Global;
use std::process::Abort;

// The root page of its block B-tree.
const BBT: Bref = Bref { bid: 8, ib: 0x4a00 };

// Where test trees are put: the pages of a tree follow each other from here, and each has its place as its identifier.
const PAGES: u64 = 0x8000;

// The reference of the page with this number behind PAGES.
fn page_at(number: u64) -> Bref {
    let ib = PAGES.saturating_add(number.saturating_mul(512));
    Bref { bid: ib, ib }
}

fn page_type(kind: PageKind) -> u8 {
    match kind {
        PageKind::Bbt => 0x80,
        PageKind::Nbt => 0x81,
    }
}

// Writes bytes into an image.
fn put<R: Abort>(rt: &R, image: &mut Vec<u8>, at: usize, bytes: &[u8]) {
    set(image, at, bytes).expect(rt, "past the end");
}

fn put_number<R: Abort>(rt: &R, image: &mut Vec<u8>, at: usize, number: u64) {
    put(rt, image, at, &number.to_le_bytes());
}

// The place of a page in an image.
fn place_of<R: Abort>(rt: &R, bref: Bref) -> usize {
    usize::try_from(bref.ib).expect(rt, "no such place")
}

// Writes the entries of a page, numbers of 8 bytes each.
fn put_entries<const N: usize, R: Abort>(
    rt: &R,
    image: &mut Vec<u8>,
    page: usize,
    entries: &[[u64; N]],
) {
    let mut at = page;
    for entry in entries {
        for number in entry {
            put_number(rt, image, at, *number);
            at = at.saturating_add(8);
        }
    }
}

// Writes a page whose entries are numbers of 8 bytes each.
fn put_page<const N: usize, R: Abort>(
    rt: &R,
    image: &mut Vec<u8>,
    kind: PageKind,
    bref: Bref,
    level: u8,
    entries: &[[u64; N]],
) {
    let at = place_of(rt, bref);
    put_entries(rt, image, at, entries);
    let count = u8::try_from(entries.len()).expect(rt, "too many entries");
    let width = u8::try_from(N.saturating_mul(8)).expect(rt, "too wide");
    put(
        rt,
        image,
        at.saturating_add(488),
        &[count, 15, width, level],
    );
    let page_type = page_type(kind);
    put(rt, image, at.saturating_add(496), &[page_type, page_type]);
    put_number(rt, image, at.saturating_add(504), bref.bid);
    change(rt, image, &[Change::Page(bref.ib)]);
}

// Sets the root of a tree in the header, and makes the header's check values right.
fn set_root<R: Abort>(rt: &R, image: &mut Vec<u8>, kind: PageKind, root: Bref) {
    let at = match kind {
        PageKind::Bbt => 232,
        PageKind::Nbt => 216,
    };
    put_number(rt, image, at, root.bid);
    put_number(rt, image, at.saturating_add(8), root.ib);
    change(rt, image, &[Change::Header]);
}

// The entry of a branch: a key, and the page with this number.
fn branch(key: u64, number: u64) -> [u64; 3] {
    let bref = page_at(number);
    [key, bref.bid, bref.ib]
}

// The leaf entry of an empty block.
fn empty_block(bid: u64) -> [u64; 3] {
    [bid, 0, 0]
}

// The block B-tree of a file, where only the map pages are claimed; or the first fault.
fn blocks_in<'a>(
    alloc: Global,
    image: Image<'a>,
) -> Result<(BlockTree<'a>, Vec<BlockEntry>), Fault> {
    let header = read_header(image)?;
    let mut claims = Claims::new(alloc, &header)?;
    walk_blocks(alloc, image, &header, &mut claims)
}

// The node B-tree of a file, likewise.
fn nodes_in<'a>(alloc: Global, image: Image<'a>) -> Result<(NodeTree<'a>, Vec<NodeEntry>), Fault> {
    let header = read_header(image)?;
    let mut claims = Claims::new(alloc, &header)?;
    walk_nodes(alloc, image, &header, &mut claims)
}

fn blocks_fault(alloc: Global, image: &[u8]) -> Option<Fault> {
    blocks_in(alloc, Image::new(image)).err()
}

// A branch over three leaves, of which the second ends with this key. The third has the key 40 in the branch.
fn three_leaves<R: Abort>(rt: &R, alloc: Global, last: u64) -> Vec<u8> {
    let mut image = small(rt, alloc);
    let root = [branch(4, 1), branch(20, 2), branch(40, 3)];
    put_page(rt, &mut image, PageKind::Bbt, page_at(0), 1, &root);
    let leaves = [
        [empty_block(4), empty_block(8)],
        [empty_block(20), empty_block(last)],
        [empty_block(40), empty_block(44)],
    ];
    for (number, leaf) in (1..).zip(leaves) {
        put_page(rt, &mut image, PageKind::Bbt, page_at(number), 0, &leaf);
    }
    set_root(rt, &mut image, PageKind::Bbt, page_at(0));
    image
}

// The node B-tree of a file without the list of its nodes, likewise.
fn node_tree_in<'a>(alloc: Global, image: Image<'a>) -> Result<NodeTree<'a>, Fault> {
    let header = read_header(image)?;
    let mut claims = Claims::new(alloc, &header)?;
    walk_node_tree(alloc, image, &header, &mut claims)
}

// The two blocks of a small store.
const FIRST: BlockEntry = BlockEntry {
    bid: 4,
    ib: 0x4c00,
    cb: 44,
};

const SECOND: BlockEntry = BlockEntry {
    bid: 8,
    ib: 0x4c40,
    cb: 38,
};

// Its two nodes: the message store and the root folder.
const STORE: NodeEntry = NodeEntry {
    nid: 0x21,
    bid_data: 4,
    bid_sub: 0,
    parent: 0,
};

const FOLDER: NodeEntry = NodeEntry {
    nid: 0x122,
    bid_data: 8,
    bid_sub: 0,
    parent: 0x122,
};

fn are_small_blocks<R: Abort>(rt: &R, tree: &BlockTree, entries: &[BlockEntry]) {
    is(rt, entries, [FIRST, SECOND].as_slice());
    is(rt, (tree.pages(), tree.level()), (1, 0));
    is(rt, tree.find(4), Some(FIRST));
    is(rt, tree.find(9), Some(SECOND));
    is(rt, tree.find(6), None);
    is(rt, tree.find_steps(8), (Some(SECOND), 1));
}

fn are_small_nodes<R: Abort>(rt: &R, tree: &NodeTree) {
    is(rt, (tree.pages(), tree.level()), (1, 0));
    is(rt, tree.find(0x21), Some(STORE));
    is(rt, tree.find(0x22), None);
    is(rt, tree.find(0x23), None);
    is(rt, tree.find_steps(0x122), (Some(FOLDER), 1));
    let mut all = tree.nodes();
    is(rt, all.next(), Some(STORE));
    is(rt, all.next(), Some(FOLDER));
    is(rt, all.next(), None);
}

#[test]
fn the_trees_of_a_small_store(rt: HostRuntime) {
    let bytes = small(&rt, rt.alloc());
    has_small_blocks(&rt, rt.alloc(), &bytes);
    has_small_nodes(&rt, rt.alloc(), &bytes);
    claims::small_pages_are(&rt, &bytes);
}

fn has_small_blocks<R: Abort>(rt: &R, alloc: Global, bytes: &[u8]) {
    let (blocks, entries) = blocks_in(alloc, Image::new(bytes)).expect(rt, "no blocks");
    are_small_blocks(rt, &blocks, &entries);
}

fn has_small_nodes<R: Abort>(rt: &R, alloc: Global, bytes: &[u8]) {
    let (nodes, entries) = nodes_in(alloc, Image::new(bytes)).expect(rt, "no nodes");
    is(rt, entries.as_slice(), [STORE, FOLDER].as_slice());
    are_small_nodes(rt, &nodes);
}

#[test]
fn the_node_tree_without_a_list(rt: HostRuntime) {
    let bytes = small(&rt, rt.alloc());
    let nodes = node_tree_in(rt.alloc(), Image::new(&bytes)).expect(&rt, "no nodes");
    are_small_nodes(&rt, &nodes);
}
