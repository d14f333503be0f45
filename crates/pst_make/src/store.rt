//! A whole image from a plan.

ghost use Rattle.std.specs.Prelude.{◌≡◌, ◌≤◌, ◌+◌, ◌*◌, length, IfOk, IfErr};
ghost use Rattle.pst_make.specs.Made.{IsMade, IsMakeFault};
ghost use Rattle.pst_make.specs.Plan.{has_long_body, next_bid};

use crate::block::write_block;
use crate::header::{Facts, write_header};
use crate::layout::{FIRST_MAP, Layout, REGION, amap_place};
use crate::maps::{free_bytes, mark_blocks, mark_pages, write_maps};
use crate::pages::{write_blocks, write_nodes};
use crate::plan::{BlockPlan, MakeFault, Plan};
use std::alloc::{AllocError, Global};

// A block's body has at most this many bytes ([MS-PST] 2.2.2.8).
const LONGEST_BODY: usize = 8176;

/// Whether a body has more bytes than a block holds.
pub(crate) fn has_long_body(blocks: &[BlockPlan]) -> bool
    ensures { result ≡ has_long_body blocks.now }
{
    blocks.iter().any(|block| block.body.len() > LONGEST_BODY)
}

// bidNextB: the next multiple of 4 above all identifiers that are in use.
fn next_bid(blocks: &[BlockPlan]) -> u64
    ensures { result ≡ next_bid blocks.now }
{
    let greatest = blocks
        .iter()
        .fold(0, |greatest: u64, block| greatest.max(block.bid));
    (greatest / 4 + 1).wrapping_mul(4)
}

// Writes all but the header over zero bytes: so many whole regions, which the layout ends in.
fn write_parts(
    alloc: Global,
    image: &mut [u8],
    plan: &Plan,
    layout: &Layout,
    regions: u64,
) -> Result<(), AllocError>
    requires few { regions ≤ 16 }
    requires whole { length image.old ≡ FIRST_MAP + REGION * regions }
    requires inside { layout.now.end ≤ length image.old }
{
    for block in &layout.blocks {
        write_block(image, block);
    }
    write_nodes(alloc, image, &plan.nodes, &layout.node_pages)?;
    write_blocks(alloc, image, &layout.blocks, &layout.block_pages)?;
    mark_pages(image, &layout.node_pages);
    mark_pages(image, &layout.block_pages);
    mark_blocks(image, &layout.blocks);
    for region in 0..regions {
        write_maps(image, region);
    }
    Ok(())
}

/// The image of a plan: the header ([MS-PST] 2.2.2.6), zero bytes up to 0x4400, and from there as many regions of
/// 253,952 bytes as the plan takes, each with an allocation map. From 0x4800 stand the pages of the node B-tree, those of
/// the block B-tree, and the blocks in the plan's order, each at the next free multiple of 64 bytes.
///
/// Answers Body where a body has more than 8,176 bytes, else TooLarge where the pages and blocks do not end within 16
/// regions, and Memory where memory was refused.
pub fn build(alloc: Global, plan: &Plan) -> Result<Vec<u8>, MakeFault>
    // What an image tells: the plan fits, and how long the image is.
    ensures made { IfOk result (IsMade plan.now) }

    // What a fault tells: Body and TooLarge come only where the plan asks for them.
    ensures fault { IfErr result (IsMakeFault plan.now) }
{
    if has_long_body(&plan.blocks) {
        return Err(MakeFault::Body);
    }
    let layout = Layout::of(alloc, plan)?;
    let regions = (layout.end - FIRST_MAP).div_ceil(REGION);
    let eof = amap_place(regions);
    let mut image = vec![in alloc; 0u8; eof as usize]?;
    write_parts(alloc, &mut image, plan, &layout, regions)?;
    let mut free = 0;
    for region in 0..regions {
        free += free_bytes(&image, region);
    }
    let facts = Facts {
        next_page: layout.next_page,
        next_block: next_bid(&plan.blocks),
        eof,
        last_amap: eof - REGION,
        free,
        nbt: layout.node_pages[layout.node_pages.len() - 1],
        bbt: layout.block_pages[layout.block_pages.len() - 1],
    };
    write_header(&mut image, &facts);
    Ok(image)
}
