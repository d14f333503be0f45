//! Look-ups in a tree of many blocks.

use super::*;
use crate::told::{is, is_at};
use pst_btree::BlockTree;

// The n-th of many empty blocks of a made store, whose node B-tree has one page, at 0x4800, and whose block B-tree has the
// 24 pages from 0x4a00 on. Then come the blocks, of 64 bytes each.
fn nth_block(n: u64) -> BlockEntry {
    BlockEntry {
        bid: n.saturating_mul(4).saturating_add(4),
        ib: n.saturating_mul(64).saturating_add(0x7a00),
        cb: 0,
    }
}

// A store of so many empty blocks.
fn many_blocks<R: Abort>(rt: &R, alloc: Global, count: u64) -> Vec<u8> {
    let mut blocks = Vec::new(alloc);
    for n in 0..count {
        let body = Vec::new(alloc);
        let bid = nth_block(n).bid;
        blocks.push(BlockPlan { bid, body }).expect(rt, MEMORY);
    }
    let nodes = Vec::new(alloc);
    build(alloc, &Plan { blocks, nodes }).expect(rt, "not made")
}

// Each of so many blocks is found in three steps, in a tree of 24 pages.
fn are_found<R: Abort>(rt: &R, tree: &BlockTree, count: usize) {
    is(rt, (count, tree.pages(), tree.level()), (401, 24, 2));
    for n in 0..count as u64 {
        let entry = nth_block(n);
        is_at(rt, n, tree.find_steps(entry.bid), (Some(entry), 3));
    }
}

// How many blocks are summed, and the last of them.
fn summed<R: Abort>(rt: &R, alloc: Global, image: &[u8], last: u64) {
    let image = Image::new(image);
    let Ok(header) = read_header(image) else {
        rt.panic("no header");
    };
    let Ok(mut claims) = Claims::new(alloc, &header) else {
        rt.panic("no memory");
    };
    let Ok((tree, entries)) = walk_blocks(alloc, image, &header, &mut claims) else {
        rt.panic("no tree");
    };
    are_found(rt, &tree, entries.len());
    let summed = sum_blocks(tree, &header, &entries, &mut claims);
    let (blocks, sums) = summed.expect(rt, "refused");
    is(rt, (sums, blocks.entry(1604)), (401, Some(nth_block(last))));
}

// 401 entries take 21 leaves, 2 branches and a root.
#[test]
fn each_of_many_blocks_is_found(rt: HostRuntime) {
    let bytes = many_blocks(&rt, rt.alloc(), 401);
    summed(&rt, rt.alloc(), &bytes, 400);
}
