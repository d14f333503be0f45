//! Where the pieces of a value lie in the file, written with a pen.

ghost use Rattle.std.specs.Prelude.{◌≡◌, OnOk, map, length, [], ◌∷◌};
ghost use Rattle.pst_bytes.specs.Image.{bytes_of};
ghost use Rattle.pst_datatree.specs.Left.{spans_left, file_of};
ghost use Rattle.pst_datatree.specs.Spans.{nonempty};
ghost use Rattle.pst_value_json.specs.Places.{in_file, piece_data, places_data, places_in};

use crate::leaf::Leaf;
use crate::pens::Pen;
use pst_bytes::Span;
use pst_datatree::{Pieces, Value};
use std::alloc::{AllocError, Global};

// Writes a piece: where it begins, and how long it is.
fn write_piece<P: Pen>(alloc: Global, piece: Span, pen: &mut P) -> Result<(), AllocError>
    ensures put { OnOk result (P.Puts pen.old pen.new (piece_data piece)) }
    ensures kept { (base : P) → P.Keeps base pen.old → P.Keeps base pen.new }
{
    pen.open_list(alloc)?;
    pen.comma(false)?;
    pen.leaf(alloc, &Leaf::Natural(piece.at))?;
    pen.item(alloc)?;
    pen.comma(true)?;
    pen.leaf(alloc, &Leaf::Natural(piece.len))?;
    pen.item(alloc)?;
    pen.close_list(true)
}

// Writes the pieces that are left, as a list.
fn write_pieces<P: Pen>(alloc: Global, pieces: Pieces, pen: &mut P) -> Result<(), AllocError>
    ensures put { OnOk result (P.Puts pen.old pen.new (places_data (spans_left pieces.entry))) }
    ensures inside { let I = bytes_of (file_of pieces.entry) in
        OnOk result (map (in_file I) (spans_left pieces.entry) ≡ spans_left pieces.entry) }
    ensures kept { (base : P) → P.Keeps base pen.old → P.Keeps base pen.new }
{
    let mut rest = pieces;
    pen.open_list(alloc)?;
    let mut later = false;
    while let Some(piece) = rest.next_span() {
        pen.comma(later)?;
        write_piece(alloc, piece, pen)?;
        pen.item(alloc)?;
        later = true;
    }
    pen.close_list(later)
}

// Writes a slice that begins at a place, as a list, of nothing where it has no bytes.
fn write_slice<P: Pen>(alloc: Global, at: u64, slice: &[u8], pen: &mut P) -> Result<(), AllocError>
    ensures put { let whole = nonempty (record { at = at; len = length slice.now } ∷ []) in
        OnOk result (P.Puts pen.old pen.new (places_data whole)) }
    ensures kept { (base : P) → P.Keeps base pen.old → P.Keeps base pen.new }
{
    pen.open_list(alloc)?;
    let len = slice.len() as u64;
    if len == 0 {
        return pen.close_list(false);
    }
    pen.comma(false)?;
    write_piece(alloc, Span { at, len }, pen)?;
    pen.item(alloc)?;
    pen.close_list(true)
}

/// Writes the pieces of a value in their order, but for those without bytes, as a list that has `[place,length]` for each.
pub(crate) fn write_places<P: Pen>(
    alloc: Global,
    value: &Value,
    pen: &mut P,
) -> Result<(), AllocError>
    ensures put { OnOk result (P.Puts pen.old pen.new (places_data (places_in value.now))) }
    ensures kept { (base : P) → P.Keeps base pen.old → P.Keeps base pen.new }
{
    match value.with_bytes() {
        Value::Whole(at, slice) => write_slice(alloc, at, slice, pen),
        Value::Pieces(pieces) => write_pieces(alloc, pieces, pen),
    }
}
