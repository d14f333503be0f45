//! The header of a damaged file.

ghost use Rattle.std.specs.Prelude.{◌≡◌, ◌≤◌, length, Option};
ghost use Rattle.pst_bytes.specs.Image.{bytes_of};
ghost use Rattle.pst_remains.specs.Header.{header_damage as damage, is_astray as astray, end_beside, last_map_of, mended as mended_header};

use pst_bytes::Image;
use pst_fault::{Fault, Kind};
use pst_header::{
    FIRST_AMAP, Header, REGION, check_fields, is_amap_place, is_last_amap, read_fields,
};

/// The first fault of a header, where it has one: of its check values or its ROOT structure ([MS-PST] 2.2.2.6).
#[tactic(auto, unfolding(crate::specs::Header::header_damage))]
pub fn header_damage(image: Image) -> Option<Fault>
    requires { 564 ≤ length (bytes_of image) }
    ensures { result ≡ damage (bytes_of image.entry) }
{
    match check_fields(image) {
        Ok(()) => None,
        Err(fault) => Some(fault),
    }
}

// Whether such a fault leaves it open where the file ends.
fn is_astray(kind: Kind) -> bool
    ensures { result ≡ astray kind }
{
    match kind {
        Kind::HeaderCheck | Kind::Root => true,
        _ => false,
    }
}

// Where the file ends, beside the first fault of its header.
fn end_beside(image: Image, fault: Option<Fault>) -> u64
    requires { 564 ≤ length (bytes_of image) }
    ensures { result ≡ end_beside (bytes_of image.entry) fault }
{
    let len = image.len();
    let within = image.number64(184).min(len);
    match fault {
        None => within,
        Some(fault) => { if is_astray(fault.kind) { len } else { within } }
    }
}

// The last allocation map that there is.
fn last_map(last: u64, eof: u64) -> u64
    ensures { result ≡ last_map_of last eof }
{
    if is_amap_place(last) && is_last_amap(last, eof) {
        return last;
    }
    let region = eof.saturating_sub(FIRST_AMAP).saturating_sub(512) / REGION;
    if is_last_amap(FIRST_AMAP + REGION * region, eof) {
        FIRST_AMAP + REGION * region
    } else {
        FIRST_AMAP + REGION * region.saturating_sub(1)
    }
}

/// The header of a damaged file ([MS-PST] 2.2.2.6), by which the rest of it is looked at: its fields as they stand, but for the
/// end of the file and the place of the last allocation map. The file ends with its bytes where a check value or the ROOT
/// structure is wrong, else where the header says, but not behind them. The last map is the one that the header names, where
/// one may lie there, else the last that has room.
#[tactic(auto, unfolding(crate::specs::Header::mended, crate::specs::Header::file_end))]
pub fn mended(image: Image) -> Header
    requires { 564 ≤ length (bytes_of image) }
    ensures { result ≡ mended_header (bytes_of image.entry) }
{
    let header = read_fields(image);
    let eof = end_beside(image, header_damage(image));
    Header {
        eof,
        last_amap: last_map(header.last_amap, eof),
        ..header
    }
}
