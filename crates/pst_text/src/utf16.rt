//! Texts of 16-bit units, put behind a text as they stand between quotes.

ghost use Rattle.std.specs.Prelude.{◌≡◌, ℕ, [], ◌∷◌, ◌++◌, ◌+◌, ◌-◌, ◌*◌, ◌%◌, ◌≤◌, ◌<◌, IsTrue, IfOk, OnErr, OnOk, true, length, drop, slice_index, vec_len, vec_capacity, encode_utf8};
ghost use Rattle.std.specs.List.{concat};
ghost use Rattle.json.specs.Print.{escape};
ghost use Rattle.json.specs.Run.{is_plain};
ghost use Rattle.pst_datatree.specs.Left.{slices_left};
ghost use Rattle.pst_datatree.specs.Shown.{bytes_in};
ghost use Rattle.pst_text.specs.Text.{utf8_of};
ghost use Rattle.pst_text.specs.Kept.{BeginsWith};

use crate::eight::{put_eight, unit_at, whole_among};
use crate::escape::put_escape_reserved;
use pst_datatree::{Pieces, Value};
use std::alloc::{AllocError, Global};
use std::cmp::min;

// How many units are looked at together.
const RUN: usize = 8;

// How many bytes a unit becomes at most, as \u001f.
const MOST: usize = 6;

// The first characters of two and of three bytes.
const TWO: u32 = 0x80;

const THREE: u32 = 0x800;

// The first units of a pair, the second ones, and what stands behind both.
const FIRST: u32 = 0xD800;

const SECOND: u32 = 0xDC00;

const BEHIND: u32 = 0xE000;

// The last six bits of a character, as a byte behind its first.
fn following(bits: u32) -> u8
    ensures { result ≡ 128 + bits % 64 }
{
    0x80 + (bits % 64) as u8
}

// Puts a character of two bytes behind a text, in which there is room for it.
fn put_two(shown: u32, text: &mut Vec<u8>)
    requires two { (0x80 ≤ shown) × (shown < 0x800) }
    requires room { vec_len text.old + 6 ≤ vec_capacity text.old }
    ensures put { text.new.items ≡ text.old.items ++ escape (encode_utf8 shown) }
    ensures long { vec_len text.new ≤ vec_len text.old + 6 }
    ensures room { vec_capacity text.new ≡ vec_capacity text.old }
{
    text.push_reserved(0xC0 + (shown / 64) as u8);
    text.push_reserved(following(shown));
}

// Puts a character of three bytes behind a text, in which there is room for it.
fn put_three(shown: u32, text: &mut Vec<u8>)
    requires three { (0x800 ≤ shown) × (shown < 0x1_0000) }
    requires room { vec_len text.old + 6 ≤ vec_capacity text.old }
    ensures put { text.new.items ≡ text.old.items ++ escape (encode_utf8 shown) }
    ensures long { vec_len text.new ≤ vec_len text.old + 6 }
    ensures room { vec_capacity text.new ≡ vec_capacity text.old }
{
    text.push_reserved(0xE0 + (shown / 0x1000) as u8);
    text.push_reserved(following(shown / 64));
    text.push_reserved(following(shown));
}

// Puts a character of four bytes behind a text, in which there is room for it.
fn put_four(shown: u32, text: &mut Vec<u8>)
    requires four { (0x1_0000 ≤ shown) × (shown < 0x11_0000) }
    requires room { vec_len text.old + 6 ≤ vec_capacity text.old }
    ensures put { text.new.items ≡ text.old.items ++ escape (encode_utf8 shown) }
    ensures long { vec_len text.new ≤ vec_len text.old + 6 }
    ensures room { vec_capacity text.new ≡ vec_capacity text.old }
{
    text.push_reserved(0xF0 + (shown / 0x4_0000) as u8);
    text.push_reserved(following(shown / 0x1000));
    text.push_reserved(following(shown / 64));
    text.push_reserved(following(shown));
}

// Puts the character behind a text that begins with a surrogate at a place: that of a pair, or U+FFFD; and says where the next one
// begins. There is room for it.
fn put_surrogate(bytes: &[u8], at: usize, text: &mut Vec<u8>) -> usize
    requires within { at + 2 ≤ length bytes.now }
    requires least { 0xD800 ≤ slice_index bytes.now at + 256 * slice_index bytes.now (at + 1) }
    requires most { slice_index bytes.now at + 256 * slice_index bytes.now (at + 1) < 0xE000 }
    requires room { vec_len text.old + 6 ≤ vec_capacity text.old }
    ensures within { (at + 2 ≤ result) × (result ≤ length bytes.now) }
    ensures put { text.new.items ++ escape (utf8_of (drop result bytes.now))
        ≡ text.old.items ++ escape (utf8_of (drop at bytes.now)) }
    ensures kept { BeginsWith text.new.items text.old.items }
    ensures long { vec_len text.new ≤ vec_len text.old + 6 }
    ensures room { vec_capacity text.new ≡ vec_capacity text.old }
{
    let unit = unit_at(bytes, at);
    if unit < SECOND && bytes.len() - at >= 4 {
        let low = unit_at(bytes, at + 2);
        if low >= SECOND && low < BEHIND {
            put_four(0x1_0000 + (unit - FIRST) * 0x400 + (low - SECOND), text);
            return at + 4;
        }
    }
    put_three(0xFFFD, text);
    at + 2
}

// Puts the character that begins at a place behind a text, and says where the next one begins. There is room for it.
fn put_at(bytes: &[u8], at: usize, text: &mut Vec<u8>) -> usize
    requires within { at + 2 ≤ length bytes.now }
    requires room { vec_len text.old + 6 ≤ vec_capacity text.old }
    ensures within { (at + 2 ≤ result) × (result ≤ length bytes.now) }
    ensures put { text.new.items ++ escape (utf8_of (drop result bytes.now))
        ≡ text.old.items ++ escape (utf8_of (drop at bytes.now)) }
    ensures kept { BeginsWith text.new.items text.old.items }
    ensures long { vec_len text.new ≤ vec_len text.old + 6 }
    ensures room { vec_capacity text.new ≡ vec_capacity text.old }
{
    let unit = unit_at(bytes, at);
    if unit < TWO {
        put_escape_reserved(unit as u8, text);
    } else if unit < THREE {
        put_two(unit, text);
    } else if unit >= FIRST && unit < BEHIND {
        return put_surrogate(bytes, at, text);
    } else {
        put_three(unit, text);
    }
    at + 2
}

// Puts so many characters behind a text, from a place on, or as many as are left, and says where the next one begins. There is room
// for them.
fn put_run(bytes: &[u8], from: usize, count: usize, text: &mut Vec<u8>) -> usize
    requires within { from + 2 ≤ length bytes.now }
    requires some { 0 < count }
    requires room { vec_len text.old + 6 * count ≤ vec_capacity text.old }
    ensures within { (from < result) × (result ≤ length bytes.now) }
    ensures put { text.new.items ++ escape (utf8_of (drop result bytes.now))
        ≡ text.old.items ++ escape (utf8_of (drop from bytes.now)) }
    ensures kept { BeginsWith text.new.items text.old.items }
{
    let mut at = from;
    let mut left = count;
    while left > 0 && bytes.len() - at >= 2 {
        at = put_at(bytes, at, text);
        left -= 1;
    }
    at
}

// Puts the next eight characters behind a text, from a place on, or as many as are left, and says where the next one begins. Eight units
// that stand for themselves go at once.
fn put_next(bytes: &[u8], at: usize, text: &mut Vec<u8>) -> Result<usize, AllocError>
    requires { at + 2 ≤ length bytes.now }
    ensures within { IfOk result (λ end. (at < end) × (end ≤ length bytes.now)) }
    ensures put { IfOk result (λ end. text.new.items ++ escape (utf8_of (drop end bytes.now))
        ≡ text.old.items ++ escape (utf8_of (drop at bytes.now))) }
    ensures kept { BeginsWith text.new.items text.old.items }
{
    if bytes.len() - at >= 16 && whole_among(bytes, at) == 8 {
        put_eight(bytes, at, text)?;
        return Ok(at + 16);
    }
    let count = min((bytes.len() - at) / 2, RUN);
    text.reserve(MOST * count)?;
    Ok(put_run(bytes, at, count, text))
}

// Puts the text of units in one slice behind a text. There is room for all units before the first is put.
fn put_slice(bytes: &[u8], text: &mut Vec<u8>) -> Result<(), AllocError>
    ensures put { OnOk result (text.new.items ≡ text.old.items ++ escape (utf8_of bytes.now)) }
    ensures kept { OnErr result (BeginsWith text.new.items text.old.items) }
{
    text.reserve(bytes.len() / 2)?;
    let mut at = 0;
    while bytes.len() - at >= 2 {
        at = put_next(bytes, at, text)?;
    }
    Ok(())
}

// The bytes of pieces, one after another.
fn joined(alloc: Global, pieces: Pieces) -> Result<Vec<u8>, AllocError>
    ensures { IfOk result (λ v. v.items ≡ concat (slices_left pieces.entry)) }
{
    let mut bytes = Vec::with_capacity(alloc, pieces.size() as usize)?;
    for piece in pieces {
        bytes.extend_from_slice(piece)?;
    }
    Ok(bytes)
}

/// Puts the text of 16-bit units behind a text, without quotes. Pieces are joined first, since a unit may lie in two of them.
pub fn put_units(alloc: Global, value: &Value, text: &mut Vec<u8>) -> Result<(), AllocError>
    ensures put { OnOk result (text.new.items
        ≡ text.old.items ++ escape (utf8_of (bytes_in value.now))) }
    ensures kept { OnErr result (BeginsWith text.new.items text.old.items) }
{
    match value.with_bytes() {
        Value::Whole(_, bytes) => put_slice(bytes, text),
        Value::Pieces(pieces) => put_slice(&joined(alloc, pieces)?, text),
    }
}
