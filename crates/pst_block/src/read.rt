//! Reading a block, with the first fault of a bad one.

ghost use Rattle.std.specs.Prelude.{◌≡◌, ◌+◌, ◌-◌, ◌%◌, ◌^◌, ◌≤◌, ◌<◌, length, IsTrue, IfOk, OnOk, IsOk};
ghost use Rattle.pst_bytes.specs.Image.{bytes_of, bytes_at, IsPartOf};
ghost use Rattle.pst_crc.specs.Crc.{crc};
ghost use Rattle.pst_fault.specs.First.{answer, Checks};
ghost use Rattle.pst_header.specs.Head.{Head};
ghost use Rattle.pst_header.specs.Header.{end_of};
ghost use Rattle.pst_header.specs.declared.header.TheConstants.{FIRST_AMAP, UNIT};
ghost use Rattle.pst_block.specs.Block.{block_span, body_span, block_size as size_of};
ghost use Rattle.pst_block.specs.Fault.{is_trailer, block_place_fault, block_trailer_fault, block_fault};
ghost use Rattle.pst_block.specs.Good.{GoodBlock};

use crate::size::{block_size, body_span};
use pst_bytes::{Image, Span};
use pst_fault::{Fault, Kind};
use pst_header::Header;
use pst_page::{BlockEntry, PageKind};

// How many bytes a body has at most.
const MOST: u16 = 8176;

/// A good block of a file.
#[derive(Clone, Copy, Debug, PartialEq, Eq)]
pub struct Block<'a> {
    /// Its entry in the block B-tree.
    pub entry: BlockEntry,
    /// Its body, in the file's own memory: the `entry.cb` bytes at `entry.ib`.
    pub body: &'a [u8],
}

/// The span of the block of an entry, or BlockPlace, where its body has over 8,176 bytes, or it does not lie in the mapped
/// part of the file, which begins at `FIRST_AMAP` and ends at `header.end()`, on a multiple of `UNIT` ([MS-PST] 2.2.2.8). The
/// block is not read.
#[tactic(auto, unfolding(crate::specs::Fault::block_place_fault, pst_header::specs::Place::is_place))]
pub fn block_place(header: &Header, entry: BlockEntry) -> Result<Span, Fault>
    ensures exact { result ≡ answer (block_place_fault (end_of header.now) entry)
        (block_span entry) }
    ensures whole_units { OnOk result (entry.ib % UNIT ≡ 0) }
    ensures mapped { OnOk result (FIRST_AMAP ≤ entry.ib) }
    ensures inside { OnOk result (entry.ib + size_of entry.cb ≤ end_of header.now) }
{
    let span = Span {
        at: entry.ib,
        len: block_size(entry.cb),
    };
    if entry.cb <= MOST && header.has_place(span) {
        Ok(span)
    } else {
        Err(Fault::within(Kind::BlockPlace, entry.ib, entry.bid))
    }
}

// The check value of a block's body, and the count of sums with it. This is the one place where a block is summed.
fn sum_body(image: Image, entry: BlockEntry, sums: &mut u64) -> u32
    requires body { entry.ib + entry.cb ≤ length (bytes_of image) }
    requires room { sums.old + 1 < 2 ^ 64 }
    ensures value { result ≡ crc (bytes_at (bytes_of image.entry) (body_span entry)) }
    ensures counted { sums.new ≡ sums.old + 1 }
{
    *sums += 1;
    pst_crc::check(image.slice(body_span(entry)))
}

// Whether the trailer at an offset is the block's ([MS-PST] 2.2.2.8.1). The body is read first: a
// processor that reads it in order has the trailer behind it at hand by then.
fn is_trailer(image: Image, entry: BlockEntry, at: u64, sums: &mut u64) -> bool
    requires body { entry.ib + entry.cb ≤ length (bytes_of image) }
    requires inside { at + 16 ≤ length (bytes_of image) }
    requires room { sums.old + 1 < 2 ^ 64 }
    ensures value { result ≡ is_trailer (bytes_of image.entry) entry at }
    ensures counted { sums.new ≡ sums.old + 1 }
{
    let sum = sum_body(image, entry, sums);
    let bid = image.number64(at + 8);
    image.number16(at) == entry.cb
        && PageKind::Bbt.key_of(bid) == PageKind::Bbt.key_of(entry.bid)
        && image.number16(at + 2) == pst_crc::signature(entry.ib, bid)
        && image.number32(at + 4) == sum
}

/// The trailer of a block whose place is known to lie in the file: BlockTrailer, where its length, its identifier, its
/// signature or its check value is wrong ([MS-PST] 2.2.2.8.1); and the count of sums with the block's.
#[tactic(auto, unfolding(crate::specs::Fault::block_trailer_fault, crate::specs::Fault::has_block_trailer))]
pub fn check_trailer(image: Image, entry: BlockEntry, sums: &mut u64) -> Result<(), Fault>
    requires inside { entry.ib + size_of entry.cb ≤ length (bytes_of image) }
    requires room { sums.old + 1 < 2 ^ 64 }
    ensures exact { result ≡ answer (block_trailer_fault (bytes_of image.entry) entry) tt }
    ensures counted { OnOk result (sums.new ≡ sums.old + 1) }
{
    let at = entry.ib + block_size(entry.cb) - 16;
    if is_trailer(image, entry, at, sums) {
        Ok(())
    } else {
        Err(Fault::within(Kind::BlockTrailer, entry.ib, entry.bid))
    }
}

/// The body of a block that lies in the file.
pub(crate) fn body_in<'a>(image: Image<'a>, entry: BlockEntry) -> &'a [u8]
    requires { entry.ib + entry.cb ≤ length (bytes_of image) }
    ensures bytes { result.now ≡ bytes_at (bytes_of image.entry) (body_span entry) }
    ensures own { IsPartOf image.entry (body_span entry) result }
{
    image.slice(body_span(entry))
}

// The block, or its first fault.
#[tactic(auto, unfolding(crate::specs::Fault::block_fault), using(pst_header::proofs::Head::head_end, crate::proofs::BlockLemmas::size_large))]
fn checked<'a>(image: Image<'a>, header: &Header, entry: BlockEntry) -> Result<Block<'a>, Fault>
    requires { Head (bytes_of image) header.now }
    ensures exact { Checks result (block_fault (end_of header.now) (bytes_of image.entry) entry) }
    ensures entry { IfOk result (λ b. b.entry ≡ entry) }
    ensures body { IfOk result (λ b.
        b.body.now ≡ bytes_at (bytes_of image.entry) (body_span entry)) }
    ensures own { IfOk result (λ b. IsPartOf image.entry (body_span entry) b.body) }
{
    let mut sums = 0;
    block_place(header, entry)?;
    check_trailer(image, entry, &mut sums)?;
    let body = body_in(image, entry);
    Ok(Block { entry, body })
}

/// The block of an entry of the block B-tree of a file whose header is this one, or its first fault, at the block's place
/// `entry.ib` and with the entry's identifier: BlockPlace, where its body has over 8,176 bytes, or it does not lie in the
/// mapped part of the file, which begins at `FIRST_AMAP` and ends at `header.end()`, on a multiple of `UNIT` ([MS-PST] 2.2.2.8);
/// BlockTrailer, where the length, the identifier, the signature or the check value of its trailer is wrong (2.2.2.8.1).
/// Bit 0 of identifiers says nothing; the signature is of the identifier as the trailer has it. Padding is free.
pub fn read_block<'a>(
    image: Image<'a>,
    header: &Header,
    entry: BlockEntry,
) -> Result<Block<'a>, Fault>
    requires { Head (bytes_of image) header.now }

    // What is read is a good block.
    ensures found { OnOk result (GoodBlock (bytes_of image.entry) (end_of header.now) entry) }

    // A good block is read.
    ensures only { GoodBlock (bytes_of image.entry) (end_of header.now) entry → IsOk result }

    // Which fault it is, and where.
    ensures exact { Checks result (block_fault (end_of header.now) (bytes_of image.entry) entry) }

    // Which block it is.
    ensures entry { IfOk result (λ b. b.entry ≡ entry) }
    ensures body { IfOk result (λ b.
        b.body.now ≡ bytes_at (bytes_of image.entry) (body_span entry)) }
    ensures own { IfOk result (λ b. IsPartOf image.entry (body_span entry) b.body) }
{
    checked(image, header, entry)
}
