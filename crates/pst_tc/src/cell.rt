//! Whether a row has a cell, and of which form.

ghost use Rattle.std.specs.Prelude.{◌≡◌, ◌+◌, ◌≤◌, length, true};
ghost use Rattle.pst_bytes.specs.Image.{bytes_of, IsInside};
ghost use Rattle.pst_tc.specs.Info.{row_size, is_column, is_present as present, is_typed as typed};

use pst_bytes::{Image, Span};
use pst_value::PropType;

/// Whether the bit of a column is set in a row.
#[tactic(auto, unfolding(crate::specs::Info::is_present), using(crate::proofs::InfoLemmas::bit_inside))]
pub(crate) fn is_present(image: Image, info: Span, row: Span, column: u64) -> bool
    requires info { info.at + 22 ≤ length (bytes_of image) }
    requires column { column + 8 ≤ length (bytes_of image) }
    requires row { IsInside (bytes_of image) row }
    requires size { row.len ≡ row_size (bytes_of image) info }
    requires good { is_column (bytes_of image) info column ≡ true }
    ensures { result ≡ present (bytes_of image.entry) info row.at column }
{
    let bit = image.number8(column + 7);
    let ones = u64::from(image.number16(info.at + 6));
    let byte = image.number8(row.at + ones + u64::from(bit) / 8);
    (byte >> (7 - bit % 8)) % 2 == 1
}

/// Whether a column has the width that its type has in a table.
#[inline(always)]
#[tactic(auto, unfolding(crate::specs::Info::is_typed))]
pub(crate) fn is_typed(image: Image, column: u64) -> bool
    requires { column + 8 ≤ length (bytes_of image) }
    ensures { result ≡ typed (bytes_of image.entry) column }
{
    let kind = PropType(image.number16(column));
    let width = image.number8(column + 6);
    match kind.cell_width() {
        Some(wanted) => wanted == width,
        None => false,
    }
}
