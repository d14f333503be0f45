//! Reading the header, with the first fault of a bad one.

ghost use Rattle.std.specs.Prelude.{◌≡◌, ◌≤◌, ◌+◌, length, IfOk, Ok};
ghost use Rattle.pst_bytes.specs.Image.{bytes_of, bytes_at, IsInside};
ghost use Rattle.pst_crc.specs.Crc.{crc};
ghost use Rattle.pst_fault.specs.First.{answer, ◌then◌};
ghost use Rattle.pst_header.specs.Head.{Head, IsMapped};
ghost use Rattle.pst_header.specs.declared.header.Header.{Header};
ghost use Rattle.pst_header.specs.Header.{bref_at, fields, header_fault, check_fault, root_fault, is_amap_place, is_last_amap};

use crate::header::{Bref, FIRST_AMAP, Header, REGION};
use pst_bytes::{Image, Span};
use pst_fault::{Fault, Kind};

// What dwMagic and wMagicClient have to be: `!BDN` and `SM`.
const MAGIC: u32 = 0x4e44_4221;

const MAGIC_CLIENT: u16 = 0x4d53;

// The check value of a span inside the file.
fn check_of(image: Image, span: Span) -> u32
    requires { IsInside (bytes_of image) span }
    ensures { result ≡ crc (bytes_at (bytes_of image.entry) span) }
{
    pst_crc::check(image.slice(span))
}

#[tactic(auto, unfolding(crate::specs::Header::bref_at))]
fn read_bref(image: Image, at: u64) -> Bref
    requires { at + 16 ≤ length (bytes_of image) }
    ensures { result ≡ bref_at (bytes_of image.entry) at }
{
    Bref {
        bid: image.number64(at),
        ib: image.number64(at + 8),
    }
}

/// The fields of a header ([MS-PST] 2.2.2.6) as they stand in the file, which has all its bytes. Nothing is checked.
#[tactic(auto, unfolding(crate::specs::Header::fields))]
pub fn read_fields(image: Image) -> Header
    requires { 564 ≤ length (bytes_of image) }
    ensures { result ≡ fields (bytes_of image.entry) }
{
    Header {
        eof: image.number64(184),
        last_amap: image.number64(192),
        free: image.number64(200),
        nbt: read_bref(image, 216),
        bbt: read_bref(image, 232),
        maps_valid: image.number8(248),
        next_page: image.number64(32),
        next_block: image.number64(516),
        version: image.number16(10),
    }
}

// Both check values.
fn check_values(image: Image) -> Result<(), Fault>
    requires { 564 ≤ length (bytes_of image) }
    ensures { result ≡ answer (check_fault (bytes_of image.entry)) tt }
{
    if image.number32(4) != check_of(image, Span { at: 8, len: 471 }) {
        return Err(Fault::at(Kind::HeaderCheck, 4));
    }
    if image.number32(524) != check_of(image, Span { at: 8, len: 516 }) {
        return Err(Fault::at(Kind::HeaderCheck, 524));
    }
    Ok(())
}

/// Whether an allocation map may stand at an offset: the first one stands at `FIRST_AMAP`, the others each `REGION` behind
/// the one before ([MS-PST] 2.2.2.7.2).
pub fn is_amap_place(at: u64) -> bool
    ensures { result ≡ is_amap_place at }
{
    at >= FIRST_AMAP && (at - FIRST_AMAP).is_multiple_of(REGION)
}

/// Whether the allocation map at an offset lies before the end of a file, and so does the page map behind it, which the
/// first and each eighth one has ([MS-PST] 2.2.2.7.2 and 2.2.2.7.3).
pub fn is_last_amap(last: u64, eof: u64) -> bool
    ensures { result ≡ is_last_amap last eof }
{
    let has_pmap = last.saturating_sub(FIRST_AMAP) / REGION % 8 == 0;
    let pages = if has_pmap { 1024 } else { 512 };
    last <= eof && eof - last >= pages
}

// The ROOT structure.
fn check_root(image: Image) -> Result<(), Fault>
    requires { 564 ≤ length (bytes_of image) }
    ensures { result ≡ answer (root_fault (bytes_of image.entry)) tt }
{
    let eof = image.number64(184);
    if eof > image.len() {
        return Err(Fault::at(Kind::Root, 184));
    }
    let last = image.number64(192);
    if !is_amap_place(last) || !is_last_amap(last, eof) {
        return Err(Fault::at(Kind::Root, 192));
    }
    let valid = image.number8(248);
    if valid != 1 && valid != 2 {
        return Err(Fault::at(Kind::MapsInvalid, 248));
    }
    Ok(())
}

/// The check values of a header and its ROOT structure ([MS-PST] 2.2.2.6 and 2.2.2.5), whatever stands before them: the
/// first fault, of the kinds HeaderCheck, Root and MapsInvalid, as `read_header` says.
pub fn check_fields(image: Image) -> Result<(), Fault>
    requires { 564 ≤ length (bytes_of image) }
    ensures { result ≡ answer (check_fault (bytes_of image.entry) then root_fault
        (bytes_of image.entry)) tt }
{
    check_values(image)?;
    check_root(image)
}

// The header, or its first fault.
#[tactic(auto, unfolding(crate::specs::Header::header_fault))]
fn checked(image: Image) -> Result<Header, Fault>
    ensures { result ≡ answer (header_fault (bytes_of image.entry))
        (fields (bytes_of image.entry)) }
{
    if image.len() < 564 {
        return Err(Fault::at(Kind::Short, 0));
    }
    if image.number32(0) != MAGIC {
        return Err(Fault::at(Kind::Magic, 0));
    }
    if image.number16(8) != MAGIC_CLIENT {
        return Err(Fault::at(Kind::Magic, 8));
    }
    let version = image.number16(10);
    if version != 23 {
        return Err(Fault::at(Kind::Version(version), 10));
    }
    let method = image.number8(513);
    if method != 0 {
        return Err(Fault::at(Kind::Encoded(method), 513));
    }
    check_fields(image)?;
    Ok(read_fields(image))
}

/// The header of a file ([MS-PST] 2.2.2.6), or its first fault, of the kinds Short, Magic, Version, Encoded,
/// HeaderCheck, Root and MapsInvalid in this order: a file shorter than 564 bytes (at 0), a magic number (at 0, then
/// 8), a version other than 23 (at 10), an encoding method other than 0 (at 513), a check value (at 4, then 524), an
/// end of file past the bytes (at 184), a last allocation map that cannot be (at 192), maps that are not valid (at
/// 248).
pub fn read_header(image: Image) -> Result<Header, Fault>
    // What is read is a good header of the file.
    ensures found { IfOk result (λ h. Head (bytes_of image.entry) h) }
    ensures mapped { IfOk result (λ h. IsMapped (bytes_of image.entry) h) }

    // A good header is read.
    ensures only { (h : Header) → Head (bytes_of image.entry) h → result ≡ Ok h }

    // Which fault it is, and where.
    ensures exact { result ≡ answer (header_fault (bytes_of image.entry))
        (fields (bytes_of image.entry)) }
{
    checked(image)
}
