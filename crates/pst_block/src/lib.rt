//! The blocks of a file ([MS-PST] 2.2.2.8): a good block is read, any other is refused with its first fault; and all
//! blocks of a file, checked once, are looked up by their identifiers.
//!
//! Begin with `sum_blocks`, which gives the `Blocks` of a file and how many were check-summed, or the first fault of one.
//! Their look-ups cannot fail otherwise than by "there is no such block", take no memory, and lend the file's own bytes:
//!
//! ```text
//! let header = read_header(image)?;
//! let mut claims = Claims::new(alloc, &header)?;
//! let (tree, entries) = walk_blocks(alloc, image, &header, &mut claims)?;
//! let (blocks, sums) = sum_blocks(tree, &header, &entries, &mut claims)?;
//! let body = blocks.body(4);
//! ```
//!
//! `check_blocks` does the same without the count, `read_block` reads a single block, of an entry of the block B-tree, and
//! `Blocks::known` is of blocks that were gathered one by one.
#![tactic(auto)]

mod blocks;
mod check;
mod laws;
mod read;
mod size;
mod source;

pub use blocks::Blocks;
pub use check::{check_blocks, sum_blocks};
pub use laws::{block_decides, blocks_decide};
pub use pst_page::BlockEntry;
pub use read::{Block, block_place, check_trailer, read_block};
pub use size::block_size;
