//! TCINFO and its columns.

ghost use Rattle.std.specs.Prelude.{◌≡◌, ◌+◌, ◌*◌, ◌≤◌, length, None};
ghost use Rattle.pst_bytes.specs.Image.{bytes_of, IsInside};
ghost use Rattle.pst_fault.specs.First.{answer};
ghost use Rattle.pst_tc.specs.Info.{column_count as columns_in, row_size, is_info as crate_is_info, is_column as column_is};
ghost use Rattle.pst_tc.specs.Fault.{column_fault};
ghost use Rattle.pst_tc.specs.Fault.{info_fault};

use pst_bytes::{Image, Span};
use pst_fault::{Fault, Kind};

// Whether an item is TCINFO.
#[tactic(auto, unfolding(crate::specs::Info::is_info, crate::specs::Info::row_size))]
fn is_info(image: Image, info: Span) -> bool
    requires { IsInside (bytes_of image) info }
    ensures { result ≡ crate_is_info (bytes_of image.entry) info }
{
    if info.len < 22 {
        return false;
    }
    if image.number8(info.at) != 0x7C {
        return false;
    }
    if 22 + 8 * u64::from(image.number8(info.at + 1)) > info.len {
        return false;
    }
    let fours = image.number16(info.at + 2);
    let twos = image.number16(info.at + 4);
    let ones = image.number16(info.at + 6);
    let size = image.number16(info.at + 8);
    4 <= fours && fours <= twos && twos <= ones && ones <= size && size <= 8176
}

// Whether the cells of a column, and their bits, lie in a row.
#[tactic(auto, unfolding(crate::specs::Info::is_column, crate::specs::Info::row_size))]
fn is_column(image: Image, info: Span, column: u64) -> bool
    requires info { info.at + 22 ≤ length (bytes_of image) }
    requires inside { column + 8 ≤ length (bytes_of image) }
    ensures { result ≡ column_is (bytes_of image.entry) info column }
{
    let ones = image.number16(info.at + 6);
    let size = image.number16(info.at + 8);
    let start = image.number16(column + 4);
    let width = image.number8(column + 6);
    let bit = image.number8(column + 7);
    u32::from(start) + u32::from(width) <= u32::from(size)
        && u32::from(ones) + u32::from(bit) / 8 < u32::from(size)
}

/// TCINFO, and its columns in order.
#[tactic(auto, unfolding(crate::specs::Fault::info_fault, crate::specs::Fault::column_fault), using(crate::proofs::InfoLemmas::info_bad, crate::proofs::InfoLemmas::column_bad, crate::proofs::InfoLemmas::info_good, crate::proofs::InfoLemmas::info_room, crate::proofs::InfoLemmas::column_more))]
pub(crate) fn check_info(image: Image, info: Span) -> Result<(), Fault>
    requires { IsInside (bytes_of image) info }
    ensures exact { result ≡ answer (info_fault (bytes_of image.entry) info) tt }
{
    if !is_info(image, info) {
        return Err(Fault::at(Kind::Table, info.at));
    }
    let count = image.number8(info.at + 1);
    for i in 0..count {
        let column = info.at + 22 + 8 * u64::from(i);
        if !is_column(image, info, column) {
            return Err(Fault::at(Kind::Table, column));
        }
    }
    Ok(())
}

/// How many columns there are.
#[tactic(auto, using(crate::proofs::InfoLemmas::sound_room))]
pub(crate) fn column_count(image: Image, info: Span) -> u8
    requires inside { IsInside (bytes_of image) info }
    requires sound { info_fault (bytes_of image) info ≡ None }
    ensures value { result ≡ columns_in (bytes_of image.entry) info }
    ensures room { info.at + 22 + 8 * result ≤ length (bytes_of image.entry) }
{
    image.number8(info.at + 1)
}

/// How many bytes a row has.
#[tactic(auto, unfolding(crate::specs::Info::row_size), using(crate::proofs::InfoLemmas::sound_room))]
pub(crate) fn size_of(image: Image, info: Span) -> u16
    requires inside { IsInside (bytes_of image) info }
    requires sound { info_fault (bytes_of image) info ≡ None }
    ensures value { result ≡ row_size (bytes_of image.entry) info }
    ensures least { 4 ≤ result }
    ensures most { result ≤ 8176 }
{
    image.number16(info.at + 8)
}
