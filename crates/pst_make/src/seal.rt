//! Seals: the check values of a header, a page or a block, made right for the bytes that stand there.

ghost use Rattle.std.specs.Prelude.{◌≡◌, ◌+◌, ◌≤◌, length};
ghost use Rattle.pst_bytes.specs.Image.{bytes_of};
ghost use Rattle.pst_make.specs.Elsewhere.{SameElsewhere};
ghost use Rattle.pst_make.specs.Sealed.{SealedHeader, SealedPage, SealedBlock, header_checks, page_checks, block_checks, sealed_size, is_map_type, page_signature};

use crate::number::{put16, put32};
use pst_bytes::{Image, Span};

/// How many bytes a block with a body of cb bytes takes: the body and a trailer of 16 bytes, rounded up to a
/// multiple of 64 ([MS-PST] 2.2.2.8).
pub(crate) fn block_size(cb: u16) -> u64
    ensures { result ≡ sealed_size cb }
{
    (u64::from(cb) + 16).div_ceil(64) * 64
}

/// Seals the header at the start of an image ([MS-PST] 2.2.2.6): dwCRCPartial and dwCRCFull are written.
pub fn seal_header(image: &mut [u8])
    requires { 564 ≤ length image.old }
    ensures sealed { SealedHeader image.new }
    ensures others { SameElsewhere image.old image.new header_checks }
{
    let partial = pst_crc::check(Image::new(image).slice(Span { at: 8, len: 471 }));
    put32(image, 4, partial);
    let full = pst_crc::check(Image::new(image).slice(Span { at: 8, len: 516 }));
    put32(image, 524, full);
}

// Whether pages of this type are maps, which have no signature: FMap, PMap, AMap, FPMap.
fn is_map_type(ptype: u8) -> bool
    ensures { result ≡ is_map_type ptype }
{
    (0x82..=0x85).contains(&ptype)
}

// What wSig of the page at a place has to be.
#[tactic(auto, unfolding(crate::specs::Sealed::page_signature))]
fn page_signature(image: Image, at: u64) -> u16
    requires { at + 512 ≤ length (bytes_of image) }
    ensures { result ≡ page_signature (bytes_of image.entry) at }
{
    if is_map_type(image.number8(at + 496)) {
        0
    } else {
        pst_crc::signature(at, image.number64(at + 504))
    }
}

/// Seals the page at a place ([MS-PST] 2.2.2.7.1): wSig and dwCRC of its trailer are written, for the type and the
/// bid that stand there.
pub fn seal_page(image: &mut [u8], at: u64)
    requires { at + 512 ≤ length image.old }
    ensures sealed { SealedPage image.new at }
    ensures others { SameElsewhere image.old image.new (page_checks at) }
{
    let page = Image::new(image);
    let signature = page_signature(page, at);
    let check = pst_crc::check(page.slice(Span { at, len: 496 }));
    put16(image, at + 498, signature);
    put32(image, at + 500, check);
}

/// Seals the block at a place with a body of cb bytes ([MS-PST] 2.2.2.8.1): wSig and dwCRC of its trailer are written,
/// for the bid that stands there.
pub fn seal_block(image: &mut [u8], at: u64, cb: u16)
    requires { at + sealed_size cb ≤ length image.old }
    ensures sealed { SealedBlock image.new at cb }
    ensures others { SameElsewhere image.old image.new (block_checks at cb) }
{
    let block = Image::new(image);
    let trailer = at + (block_size(cb) - 16);
    let signature = pst_crc::signature(at, block.number64(trailer + 8));
    let check = pst_crc::check(block.slice(Span {
        at,
        len: u64::from(cb),
    }));
    put16(image, trailer + 2, signature);
    put32(image, trailer + 4, check);
}
