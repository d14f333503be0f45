//! The header ([MS-PST] 2.2.2.6) with its ROOT structure (2.2.2.5).

ghost use Rattle.std.specs.Prelude.{◌+◌, ◌≤◌, length};
ghost use Rattle.pst_make.specs.Sealed.{SealedHeader};

use crate::layout::Bref;
use crate::number::{put_bytes, put16, put64};
use crate::seal::seal_header;

/// What a store's header says of it. The rest is the same for all that are made here, or 0.
#[derive(Clone, Copy)]
pub(crate) struct Facts {
    /// bidNextP: the identifier that the next page gets.
    pub next_page: u64,
    /// bidNextB: the identifier that the next block gets.
    pub next_block: u64,
    /// ibFileEof: the length of the file.
    pub eof: u64,
    /// ibAMapLast: the place of the last allocation map.
    pub last_amap: u64,
    /// cbAMapFree: how many bytes all allocation maps say are free.
    pub free: u64,
    /// BREFNBT: the root of the node B-tree.
    pub nbt: Bref,
    /// BREFBBT: the root of the block B-tree.
    pub bbt: Bref,
}

fn put_bref(image: &mut [u8], at: u64, bref: Bref)
    requires { at + 16 ≤ length image.old }
{
    put64(image, at, bref.bid);
    put64(image, at + 8, bref.ib);
}

/// Writes the header over zero bytes, and seals it.
pub(crate) fn write_header(image: &mut [u8], facts: &Facts)
    requires { 564 ≤ length image.old }
    ensures { SealedHeader image.new }
{
    // dwMagic, wMagicClient, and wVer of a Unicode file
    put_bytes(image, 0, b"!BDN");
    put_bytes(image, 8, b"SM");
    put16(image, 10, 23);
    put64(image, 32, facts.next_page);
    // the ROOT structure, at 180
    put64(image, 184, facts.eof);
    put64(image, 192, facts.last_amap);
    put64(image, 200, facts.free);
    put_bref(image, 216, facts.nbt);
    put_bref(image, 232, facts.bbt);
    // fAMapValid: VALID_AMAP2
    image[248] = 2;
    // bSentinel; bCryptMethod is 0, not encoded
    image[512] = 0x80;
    put64(image, 516, facts.next_block);
    seal_header(image);
}
