//! Texts of 16-bit units as UTF-8: how many bytes they have, and these, written piece by piece.

ghost use Rattle.std.specs.Prelude.{◌≡◌, ◌<◌, ◌≤◌, ◌⊎◌, ◌+◌, IfOk, IfSome, IfNone, OnOk, [], ◌∷◌, ◌++◌, encode_utf8, length};
ghost use Rattle.std.specs.Char.Utf16.{is_low_surrogate, utf16_lossy_chars};
ghost use Rattle.std.specs.Io.KnownBytes.{Appends};
ghost use Rattle.pst_value.specs.Units.{units_of};
ghost use Rattle.pst_value_json.specs.pst_datatree.Shown.{bytes_in};
ghost use Rattle.pst_value_json.specs.pst_text.Text.{utf8_of};
ghost use Rattle.pst_json.specs.Output.{AppendsFront};
ghost use Rattle.pst_export.specs.Text.{text_bytes};
ghost use Rattle.pst_export.specs.Written.{Moves};

use crate::fault::ExportFault;
use crate::text::{TextLeft, text_from};
use pst_json::emit;
use pst_value_json::Value;
use std::alloc::{AllocError, Global};
use std::io::Write;

// How many bytes are gathered before they are written.
const CHUNK: usize = 32_768;

// The first units of pairs, the second ones, and what stands behind both.
const FIRST: u16 = 0xD800;

const SECOND: u16 = 0xDC00;

const BEHIND: u16 = 0xE000;

// What stands for a surrogate without a partner.
const UNKNOWN: char = '\u{FFFD}';

// The character with a number.
fn char_of(code: u32) -> char
    requires { (code < 0xD800) ⊎ ((0xE000 ≤ code) × (code < 0x110000)) }
    ensures { result ≡ code }
{
    match char::from_u32(code) {
        Some(c) => c,
        None => unreachable!(),
    }
}

// Whether a unit is the second of a pair.
fn is_second(unit: u16) -> bool
    ensures { result ≡ is_low_surrogate unit }
{
    SECOND <= unit && unit < BEHIND
}

// The character that begins with the first unit of a pair: that of the pair, where the second is behind it.
#[tactic(auto, using(crate::proofs::TextLemmas::pair_next, crate::proofs::TextLemmas::first_next, crate::proofs::TextLemmas::first_ends))]
fn behind_first(unit: u16, units: &mut TextLeft) -> char
    requires from { 0xD800 ≤ unit }
    requires to { unit < 0xDC00 }
    ensures next { utf16_lossy_chars (unit ∷ units_of (text_bytes units.old))
        ≡ result ∷ utf16_lossy_chars (units_of (text_bytes units.new)) }
    ensures fewer { length (text_bytes units.new) ≤ length (text_bytes units.old) }
{
    let mut rest = *units;
    if let Some(second) = rest.next_unit() {
        if is_second(second) {
            *units = rest;
            let high = u32::from(unit - FIRST);
            return char_of(0x1_0000 + high * 0x400 + u32::from(second - SECOND));
        }
    }
    UNKNOWN
}

// The first of the characters that units spell, if one is left: U+FFFD for a surrogate without a partner.
#[tactic(auto, using(crate::proofs::TextLemmas::low_next, crate::proofs::TextLemmas::high_next, crate::proofs::TextLemmas::second_next, crate::proofs::TextLemmas::none_next))]
fn next_char(units: &mut TextLeft) -> Option<char>
    ensures none { IfNone result (utf16_lossy_chars (units_of (text_bytes units.old)) ≡ []) }
    ensures next { IfSome result (λ c. utf16_lossy_chars (units_of (text_bytes units.old))
        ≡ c ∷ utf16_lossy_chars (units_of (text_bytes units.new))) }
    ensures fewer { IfSome result (λ _.
        length (text_bytes units.new) < length (text_bytes units.old)) }
{
    let unit = units.next_unit()?;
    if unit < FIRST || unit >= BEHIND {
        return Some(char_of(u32::from(unit)));
    }
    if unit >= SECOND {
        return Some(UNKNOWN);
    }
    Some(behind_first(unit, units))
}

// A count, and more.
fn added(count: u64, more: usize) -> Result<u64, AllocError>
    ensures { IfOk result (λ n. n ≡ count + more) }
{
    count.checked_add(more as u64).ok_or(AllocError)
}

/// How many bytes the text of a value has in UTF-8. AllocError where they are more than a number of 64 bits holds.
pub(crate) fn utf8_len(value: Value) -> Result<u64, AllocError>
    ensures { IfOk result (λ n. n ≡ length (utf8_of (bytes_in value.entry))) }
{
    let mut units = text_from(value);
    let mut count = units.skip_ascii() as u64;
    while let Some(c) = next_char(&mut units) {
        count = added(count, c.len_utf8())?;
        count = added(count, units.skip_ascii())?;
    }
    Ok(count)
}

// Puts a character behind a text in UTF-8.
fn put_char(c: char, text: &mut Vec<u8>) -> Result<(), AllocError>
    ensures { OnOk result (text.new.items ≡ text.old.items ++ encode_utf8 c) }
{
    let mut buffer = [0; 4];
    text.extend_from_slice(c.encode_utf8(&mut buffer).as_bytes())
}

// Writes what was gathered, once that is enough.
fn flush_full<W: Write>(chunk: &mut Vec<u8>, out: &mut W) -> Result<(), ExportFault>
    ensures all { OnOk result (Moves chunk.old.items chunk.new.items
        (W.contents out.old) (W.contents out.new)) }
    ensures front { AppendsFront (W.contents out.old) (W.contents out.new) chunk.old.items }
{
    if chunk.len() >= CHUNK {
        emit(chunk, out)?;
        chunk.clear();
    }
    Ok(())
}

/// Writes the text of a value in UTF-8, piece by piece.
pub(crate) fn emit_utf8<W: Write>(
    alloc: Global,
    value: Value,
    out: &mut W,
) -> Result<(), ExportFault>
    ensures all { OnOk result (Appends (W.contents out.old) (W.contents out.new)
        (utf8_of (bytes_in value.entry))) }
    ensures front { AppendsFront (W.contents out.old) (W.contents out.new)
        (utf8_of (bytes_in value.entry)) }
{
    let mut units = text_from(value);
    let mut chunk = Vec::new(alloc);
    units.take_ascii(&mut chunk)?;
    while let Some(c) = next_char(&mut units) {
        put_char(c, &mut chunk)?;
        units.take_ascii(&mut chunk)?;
        flush_full(&mut chunk, out)?;
    }
    emit(&chunk, out)?;
    Ok(())
}
