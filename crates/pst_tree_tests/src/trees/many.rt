//! Look-ups in a tree of many entries, and nodes in order.

use super::*;
use crate::told::{holds_at, is, is_at};

// The entries of empty blocks with the identifiers 4, 8, .. up to four times as many as these.
fn empty_blocks<R: Abort>(rt: &R, alloc: Global, count: u64) -> Vec<[u64; 3]> {
    let mut entries = Vec::new(alloc);
    for n in 0..count {
        entries
            .push(empty_block(n.saturating_mul(4).saturating_add(4)))
            .expect(rt, MEMORY);
    }
    entries
}

// Puts a level of pages, 20 entries a page, from a number on; and gives the entries of the level above.
fn put_level<R: Abort>(
    rt: &R,
    alloc: Global,
    image: &mut Vec<u8>,
    level: u8,
    entries: &[[u64; 3]],
    first: u64,
) -> Vec<[u64; 3]> {
    let mut above = Vec::new(alloc);
    let mut number = first;
    for page in entries.chunks(20) {
        let [key, _, _] = page.first().copied().expect(rt, "no entries");
        put_page(rt, image, PageKind::Bbt, page_at(number), level, page);
        above.push(branch(key, number)).expect(rt, MEMORY);
        number = number.saturating_add(1);
    }
    above
}

// Puts a tree of these entries, all levels needed.
fn put_tree<R: Abort>(rt: &R, alloc: Global, image: &mut Vec<u8>, leaf: Vec<[u64; 3]>) {
    let mut entries = leaf;
    let mut number = 0_u64;
    for level in 0..16 {
        let above = put_level(rt, alloc, image, level, &entries, number);
        number = number.saturating_add(above.len() as u64);
        if above.len() == 1 {
            break;
        }
        entries = above;
    }
    set_root(rt, image, PageKind::Bbt, page_at(number.saturating_sub(1)));
}

fn many_blocks<R: Abort>(rt: &R, alloc: Global, count: u64) -> Vec<u8> {
    let mut image = small(rt, alloc);
    put_tree(rt, alloc, &mut image, empty_blocks(rt, alloc, count));
    image
}

// The entry with a key, by a look at all of them: what a look-up means.
fn scanned(entries: &[BlockEntry], key: u64) -> Option<BlockEntry> {
    for entry in entries {
        if entry.bid - entry.bid % 2 == key {
            return Some(*entry);
        }
    }
    None
}

// An identifier is looked up in at most three steps, and what is found in just these.
fn is_looked_up<R: Abort>(rt: &R, tree: &BlockTree, entries: &[BlockEntry], bid: u64) {
    let (entry, steps) = tree.find_steps(bid);
    is_at(rt, bid, entry, scanned(entries, bid - bid % 2));
    is_at(rt, bid, entry, tree.find(bid));
    holds_at(rt, bid, steps <= 3 && (entry.is_none() || steps == 3));
}

// 401 entries take 21 leaves, 2 branches and a root.
#[test]
fn a_look_up_goes_down_one_path(rt: HostRuntime) {
    let bytes = many_blocks(&rt, rt.alloc(), 401);
    let (tree, entries) = blocks_in(rt.alloc(), Image::new(&bytes)).expect(&rt, "no blocks");
    is(
        &rt,
        (entries.len(), tree.pages(), tree.level()),
        (401, 24, 2),
    );
    for bid in 0..1616 {
        is_looked_up(&rt, &tree, &entries, bid);
    }
    is(&rt, tree.find(1604), Some(LAST));
    is(&rt, tree.find_steps(u64::MAX).0, None);
}

const LAST: BlockEntry = BlockEntry {
    bid: 1604,
    ib: 0,
    cb: 0,
};

// A branch over a branch over three leaves, of which the second has no entry. The high 32 bits of a key say nothing.
fn uneven_nodes<R: Abort>(rt: &R, alloc: Global) -> Vec<u8> {
    let mut bytes = small(rt, alloc);
    put_uneven(rt, &mut bytes);
    bytes
}

fn put_uneven<R: Abort>(rt: &R, bytes: &mut Vec<u8>) {
    let kind = PageKind::Nbt;
    put_page(rt, bytes, kind, page_at(0), 2, &[branch(0x21, 1)]);
    let below = [branch(0x21, 2), branch(0x60, 3), branch(0x122, 4)];
    put_page(rt, bytes, kind, page_at(1), 1, &below);
    let first = [[0x21, 4, 0, 0], [0x5_0000_0022, 8, 12, 0]];
    put_page(rt, bytes, kind, page_at(2), 0, &first);
    let none: [[u64; 4]; 0] = [];
    put_page(rt, bytes, kind, page_at(3), 0, &none);
    put_page(rt, bytes, kind, page_at(4), 0, &[[0x122, 8, 0, 0x122]]);
    set_root(rt, bytes, kind, page_at(0));
}

// The identifiers of the nodes in order, each of which is looked up.
fn nids_of<R: Abort + AllocGlobal>(rt: &R, tree: &NodeTree) -> Vec<u32> {
    let mut nids = Vec::new(rt.alloc());
    for node in tree.nodes() {
        is(rt, tree.find(node.nid), Some(node));
        nids.push(node.nid).expect(rt, MEMORY);
    }
    nids
}

const IN_THE_FIRST: NodeEntry = NodeEntry {
    nid: 0x22,
    bid_data: 8,
    bid_sub: 12,
    parent: 0,
};

#[test]
fn nodes_come_in_order(rt: HostRuntime) {
    let bytes = uneven_nodes(&rt, rt.alloc());
    let (tree, entries) = nodes_in(rt.alloc(), Image::new(&bytes)).expect(&rt, "no nodes");
    is(&rt, (tree.pages(), tree.level()), (5, 2));
    let nids = nids_of(&rt, &tree);
    is(&rt, nids.as_slice(), [0x21, 0x22, 0x122].as_slice());
    is(&rt, entries.get(1).copied(), Some(IN_THE_FIRST));
    is(&rt, tree.find_steps(0x60).0, None);
    is(&rt, tree.find(0), None);
}
