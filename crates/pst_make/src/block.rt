//! Blocks: a body, padding and a trailer ([MS-PST] 2.2.2.8).

ghost use Rattle.std.specs.Prelude.{◌+◌, ◌≤◌, length};
ghost use Rattle.pst_make.specs.Layout.{IsBlockBelow};

use crate::layout::PlacedBlock;
use crate::number::{put_bytes, put16, put64};
use crate::seal::{block_size, seal_block};

/// Writes a block at its place, and seals it.
pub(crate) fn write_block(image: &mut [u8], block: &PlacedBlock)
    requires { IsBlockBelow (length image.old) block.now }
{
    let at = block.ib;
    let body = block.body;
    let cb = body.len() as u16;
    put_bytes(image, at, body);
    let trailer = at + (block_size(cb) - 16);
    // cb and bid of the BLOCKTRAILER (2.2.2.8.1)
    put16(image, trailer, cb);
    put64(image, trailer + 8, block.bid);
    seal_block(image, at, cb);
}
