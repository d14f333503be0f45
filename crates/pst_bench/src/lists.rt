//! Lists of blocks and of subnodes ([MS-PST] 2.2.2.8.3).

use crate::image::{Image, LONGEST_BODY};
use std::alloc::AllocError;

// How many blocks an XBLOCK has at most, and how many subnodes an SLBLOCK.
const BLOCKS: usize = 1_021;

const SUBNODES: usize = 340;

// An XBLOCK or an XXBLOCK (2.2.2.8.3.2).
fn list_of(image: &mut Image, level: u8, blocks: &[u64], total: u64) -> Result<u64, AllocError> {
    let mut body = Vec::with_capacity(image.alloc, LONGEST_BODY)?;
    body.extend_from_slice(&[1, level])?;
    body.extend_from_slice(&u16::try_from(blocks.len()).unwrap_or(0).to_le_bytes())?;
    body.extend_from_slice(&u32::try_from(total).unwrap_or(0).to_le_bytes())?;
    for block in blocks {
        body.extend_from_slice(&block.to_le_bytes())?;
    }
    image.internal(&body)
}

/// A data block: its identifier, and how many bytes its body has.
#[derive(Clone, Copy)]
pub(crate) struct Block {
    pub(crate) bid: u64,
    pub(crate) length: u64,
}

// The XBLOCK over these data blocks.
fn list_over_blocks(image: &mut Image, blocks: &[Block]) -> Result<Block, AllocError> {
    let (mut bids, mut length) = (Vec::new(image.alloc), 0_u64);
    for block in blocks {
        bids.push(block.bid)?;
        length = length.saturating_add(block.length);
    }
    let bid = list_of(image, 1, &bids, length)?;
    Ok(Block { bid, length })
}

/// The root over these data blocks: none, an XBLOCK, or an XXBLOCK over XBLOCKs.
pub(crate) fn block_list(image: &mut Image, blocks: &[Block]) -> Result<u64, AllocError> {
    if blocks.is_empty() {
        return Ok(0);
    }
    if blocks.len() <= BLOCKS {
        return Ok(list_over_blocks(image, blocks)?.bid);
    }
    let (mut lists, mut total) = (Vec::new(image.alloc), 0_u64);
    for some in blocks.chunks(BLOCKS) {
        let list = list_over_blocks(image, some)?;
        lists.push(list.bid)?;
        total = total.saturating_add(list.length);
    }
    list_of(image, 2, &lists, total)
}

/// A subnode: its identifier, its data, and the list of its own subnodes.
#[derive(Clone, Copy)]
pub(crate) struct Sub {
    pub(crate) nid: u32,
    pub(crate) data: u64,
    pub(crate) sub: u64,
}

// An SLBLOCK (2.2.2.8.3.3.1).
fn leaf_of(image: &mut Image, subs: &[Sub]) -> Result<u64, AllocError> {
    let mut body = Vec::new(image.alloc);
    body.extend_from_slice(&[2, 0])?;
    body.extend_from_slice(&u16::try_from(subs.len()).unwrap_or(0).to_le_bytes())?;
    body.extend_from_slice(&[0, 0, 0, 0])?;
    for sub in subs {
        body.extend_from_slice(&u64::from(sub.nid).to_le_bytes())?;
        body.extend_from_slice(&sub.data.to_le_bytes())?;
        body.extend_from_slice(&sub.sub.to_le_bytes())?;
    }
    image.internal(&body)
}

/// SLBLOCKs of these subnodes in the order given: the first identifier of each, and its block.
pub(crate) fn leaves_of(image: &mut Image, subs: &[Sub]) -> Result<Vec<(u32, u64)>, AllocError> {
    let mut leaves = Vec::new(image.alloc);
    for some in subs.chunks(SUBNODES) {
        let block = leaf_of(image, some)?;
        leaves.push((some.first().map_or(0, |sub| sub.nid), block))?;
    }
    Ok(leaves)
}

/// An SIBLOCK (2.2.2.8.3.3.2) over SLBLOCKs.
pub(crate) fn list_over(image: &mut Image, leaves: &[(u32, u64)]) -> Result<u64, AllocError> {
    let mut body = Vec::new(image.alloc);
    body.extend_from_slice(&[2, 1])?;
    body.extend_from_slice(&u16::try_from(leaves.len()).unwrap_or(0).to_le_bytes())?;
    body.extend_from_slice(&[0, 0, 0, 0])?;
    for leaf in leaves {
        body.extend_from_slice(&u64::from(leaf.0).to_le_bytes())?;
        body.extend_from_slice(&leaf.1.to_le_bytes())?;
    }
    image.internal(&body)
}

/// The list of these subnodes: none, an SLBLOCK, or an SIBLOCK over SLBLOCKs.
pub(crate) fn subnode_list(image: &mut Image, subs: &[Sub]) -> Result<u64, AllocError> {
    if subs.len() <= SUBNODES {
        return if subs.is_empty() {
            Ok(0)
        } else {
            leaf_of(image, subs)
        };
    }
    let leaves = leaves_of(image, subs)?;
    list_over(image, &leaves)
}
