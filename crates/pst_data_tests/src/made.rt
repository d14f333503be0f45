//! Stores that are made, and their blocks. What goes wrong here ends the test, so that no caller has a way out to prove.

use pst_block::{Blocks, check_blocks};
use pst_btree::walk_blocks;
use pst_bytes::Image;
use pst_header::read_header;
use pst_make::{BlockPlan, Plan, build};
use pst_space::Claims;
use std::alloc::Global;
use std::process::Abort;

/// What a test ends with where memory was refused.
pub(crate) const MEMORY: &str = "no memory";

/// Adds a block to a plan.
pub(crate) fn add<R: Abort>(rt: &R, blocks: &mut Vec<BlockPlan>, bid: u64, body: Vec<u8>) {
    blocks.push(BlockPlan { bid, body }).expect(rt, MEMORY);
}

/// Adds numbers of 8 bytes each to a body.
pub(crate) fn add_numbers<R: Abort>(rt: &R, body: &mut Vec<u8>, numbers: &[u64]) {
    for number in numbers {
        body.extend_from_slice(&number.to_le_bytes())
            .expect(rt, MEMORY);
    }
}

/// A store of these blocks.
pub(crate) fn image_of<R: Abort>(rt: &R, alloc: Global, blocks: Vec<BlockPlan>) -> Vec<u8> {
    let nodes = Vec::new(alloc);
    build(alloc, &Plan { blocks, nodes }).expect(rt, "not made")
}

/// All blocks of a store.
pub(crate) fn blocks_in<'a, R: Abort>(rt: &R, alloc: Global, image: Image<'a>) -> Blocks<'a> {
    let Ok(header) = read_header(image) else {
        rt.panic("no header");
    };
    let Ok(mut claims) = Claims::new(alloc, &header) else {
        rt.panic("no memory");
    };
    let Ok((tree, entries)) = walk_blocks(alloc, image, &header, &mut claims) else {
        rt.panic("no tree");
    };
    check_blocks(tree, &header, &entries, &mut claims).expect(rt, "no blocks")
}
