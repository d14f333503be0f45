//! Texts and bytes of values, as strings and as trees.

ghost use Rattle.std.specs.Prelude.{◌≡◌, ◌++◌, IfOk, OnOk, string_bytes};
ghost use Rattle.std.specs.List.{concat};
ghost use Rattle.hex.specs.Hex.{encode_lower};
ghost use Rattle.serde_json.specs.View.{view};
ghost use Rattle.pst_datatree.specs.Left.{slices_left};
ghost use Rattle.pst_datatree.specs.Shown.{bytes_in};
ghost use Rattle.pst_value.specs.Units.{units_of};
ghost use Rattle.pst_text.specs.Text.{hex_data, utf8_of, text_data};

use crate::digits::put_lower_bytes;
use pst_datatree::{Pieces, Value};
use pst_value::units16;
use serde_json::Value as Doc;
use std::alloc::{AllocError, Global};

// The units in one slice.
fn slice_units(alloc: Global, bytes: &[u8]) -> Result<Vec<u16>, AllocError>
    ensures { IfOk result (λ v. v.items ≡ units_of bytes.now) }
{
    let mut units = Vec::with_capacity(alloc, bytes.len() / 2)?;
    let mut at = 0;
    while bytes.len() - at >= 2 {
        units.push_reserved(u16::from(bytes[at]) + 256 * u16::from(bytes[at + 1]));
        at += 2;
    }
    Ok(units)
}

// The units of a value.
fn units(alloc: Global, value: Value) -> Result<Vec<u16>, AllocError>
    ensures { IfOk result (λ v. v.items ≡ units_of (bytes_in value.entry)) }
{
    if let Value::Whole(_, bytes) = value {
        return slice_units(alloc, bytes);
    }
    let mut units = Vec::new(alloc);
    for unit in units16(value) {
        units.push(unit)?;
    }
    Ok(units)
}

/// The text that 16-bit units spell, as UTF-8; a surrogate without a partner is U+FFFD.
pub fn text_of(alloc: Global, value: Value) -> Result<String, AllocError>
    ensures { IfOk result (λ s. string_bytes s ≡ utf8_of (bytes_in value.entry)) }
{
    let units = units(alloc, value)?;
    String::from_utf16_lossy(alloc, &units)
}

/// A text of 16-bit units.
pub fn text_doc(alloc: Global, value: Value) -> Result<Doc, AllocError>
    ensures { IfOk result (λ d. view d ≡ text_data (bytes_in value.entry)) }
{
    Ok(Doc::from(text_of(alloc, value)?))
}

// Puts the digits of bytes behind others, in lower case.
fn put_digits(bytes: &[u8], digits: &mut Vec<u8>) -> Result<(), AllocError>
    ensures { OnOk result (digits.new.items ≡ digits.old.items ++ encode_lower bytes.now) }
{
    put_lower_bytes(bytes, digits)?;
    Ok(())
}

// Puts the digits of pieces behind others, one piece after another.
fn put_pieces(pieces: Pieces, digits: &mut Vec<u8>) -> Result<(), AllocError>
    ensures { OnOk result (digits.new.items
        ≡ digits.old.items ++ encode_lower (concat (slices_left pieces.entry))) }
{
    for piece in pieces {
        put_digits(piece, digits)?;
    }
    Ok(())
}

// The digits of the bytes of a value.
fn digits_of(alloc: Global, value: Value) -> Result<Vec<u8>, AllocError>
    ensures { IfOk result (λ v. v.items ≡ encode_lower (bytes_in value.entry)) }
{
    let mut digits = Vec::new(alloc);
    match value.with_bytes() {
        Value::Whole(_, slice) => put_digits(slice, &mut digits)?,
        Value::Pieces(pieces) => put_pieces(pieces, &mut digits)?,
    }
    Ok(digits)
}

/// The bytes of a value in lower-case hexadecimal.
pub fn hex_doc(alloc: Global, value: Value) -> Result<Doc, AllocError>
    ensures { IfOk result (λ d. view d ≡ hex_data (bytes_in value.entry)) }
{
    let digits = digits_of(alloc, value)?;
    // Digits are ASCII, so they are UTF-8.
    let text = unsafe { String::from_utf8_unchecked(digits) };
    Ok(Doc::from(text))
}
