//! Numbers in hexadecimal, in the quotes of JSON, put behind a text.

ghost use Rattle.std.specs.Prelude.{◌≡◌, ◌/◌, ◌%◌, [], ◌∷◌, ◌++◌, OnOk, OnErr, map, slice_index};
ghost use Rattle.std.specs.Int.{w16, w32, to_be_bytes};
ghost use Rattle.hex.specs.Hex.{encode_lower, encode_upper, lower_digits};
ghost use Rattle.json.specs.Print.{escape};
ghost use Rattle.serde_json.specs.Data.{string};
ghost use Rattle.serde_json.specs.Written.{compact_text};
ghost use Rattle.pst_fault.specs.Fault.{hex};
ghost use Rattle.pst_text.specs.Names.{nid_data, nid_or_null, id_text, tag_text};
ghost use Rattle.pst_text.specs.Text.{hex_data};
ghost use Rattle.pst_text.specs.Kept.{BeginsWith};

use crate::escape::digit;
use crate::put::put_null;
use std::alloc::AllocError;
use std::simd::prelude::*;

// The digits in lower case and in upper case.
const LOWER: [u8; 16] = *b"0123456789abcdef";

const UPPER: [u8; 16] = *b"0123456789ABCDEF";

// How many digits a number has at most.
const MOST: usize = 8;

// Puts the digits of a number behind a text, without leading zeros.
#[tactic(auto, using(crate::proofs::DigitLemmas::none_spelt))]
fn put_number(number: u32, text: &mut Vec<u8>) -> Result<(), AllocError>
    ensures put { OnOk result (text.new.items ≡ text.old.items ++ escape (hex number)) }
    ensures kept { OnErr result (BeginsWith text.new.items text.old.items) }
{
    let mut digits = [0; MOST];
    let mut first = MOST;
    let mut left = number;
    while left >= 16 {
        first -= 1;
        digits[first] = digit((left % 16) as u8);
        left /= 16;
    }
    first -= 1;
    digits[first] = digit(left as u8);
    text.extend_from_slice(&digits[first..])?;
    Ok(())
}

/// Puts a node's identifier behind a text, as `"0x21"`.
#[tactic(auto, using(crate::proofs::DigitLemmas::nid_put))]
pub fn put_nid(nid: u32, text: &mut Vec<u8>) -> Result<(), AllocError>
    ensures put { OnOk result (text.new.items ≡ text.old.items ++ compact_text (nid_data nid)) }
    ensures kept { OnErr result (BeginsWith text.new.items text.old.items) }
{
    text.extend_from_slice(b"\"0x")?;
    put_number(nid, text)?;
    text.push(b'"')?;
    Ok(())
}

/// Puts a node's identifier behind a text, or null.
pub fn put_nid_or_null(nid: Option<u32>, text: &mut Vec<u8>) -> Result<(), AllocError>
    ensures put { OnOk result (text.new.items ≡ text.old.items ++ compact_text (nid_or_null nid)) }
    ensures kept { OnErr result (BeginsWith text.new.items text.old.items) }
{
    match nid {
        Some(nid) => put_nid(nid, text),
        None => put_null(text),
    }
}

// The two digits of a byte, in upper case.
#[tactic(auto, unfolding(hex::specs::Hex::encode_with))]
fn upper(byte: u8) -> [u8; 2]
    ensures { result ≡ encode_upper (byte ∷ []) }
{
    [UPPER[(byte / 16) as usize], UPPER[(byte % 16) as usize]]
}

/// Puts a property's identifier or type behind a text, as `"001F"`.
pub fn put_id(id: u16, text: &mut Vec<u8>) -> Result<(), AllocError>
    ensures put { OnOk result (text.new.items
        ≡ text.old.items ++ compact_text (string (id_text id))) }
    ensures kept { OnErr result (BeginsWith text.new.items text.old.items) }
{
    let [first, second] = id.to_be_bytes();
    let [a, b] = upper(first);
    let [c, d] = upper(second);
    text.extend_from_slice(&[b'"', a, b, c, d, b'"'])?;
    Ok(())
}

/// Puts the tag of a column behind a text, as `"3001001F"`.
pub fn put_tag(tag: u32, text: &mut Vec<u8>) -> Result<(), AllocError>
    ensures put { OnOk result (text.new.items
        ≡ text.old.items ++ compact_text (string (tag_text tag))) }
    ensures kept { OnErr result (BeginsWith text.new.items text.old.items) }
{
    let [first, second, third, fourth] = tag.to_be_bytes();
    let [a, b] = upper(first);
    let [c, d] = upper(second);
    let [e, f] = upper(third);
    let [g, h] = upper(fourth);
    text.extend_from_slice(&[b'"', a, b, c, d, e, f, g, h, b'"'])?;
    Ok(())
}

// The first digits of sixteen bytes, in lower case.
fn first_digits(bytes: u8x16) -> u8x16
    ensures { result ≡ map (λ byte. slice_index lower_digits (byte / 16)) bytes }
{
    u8x16::from_array(LOWER).swizzle_dyn(bytes >> u8x16::splat(4))
}

// Their second digits.
fn second_digits(bytes: u8x16) -> u8x16
    ensures { result ≡ map (λ byte. slice_index lower_digits (byte % 16)) bytes }
{
    u8x16::from_array(LOWER).swizzle_dyn(bytes & u8x16::splat(15))
}

// The digits of sixteen bytes, in lower case: all first and all second ones side by side, and then by turns.
fn lower_of(bytes: &[u8; 16]) -> [u8; 32]
    ensures { result ≡ escape (encode_lower bytes.now) }
{
    let sixteen = u8x16::from_slice(bytes);
    let (front, back) = first_digits(sixteen).interleave(second_digits(sixteen));
    let mut digits = [0; 32];
    front.copy_to_slice(&mut digits[..16]);
    back.copy_to_slice(&mut digits[16..]);
    digits
}

// Puts the two digits of a byte behind a text, in lower case.
#[tactic(auto, using(crate::proofs::DigitLemmas::lower_put))]
fn put_lower(byte: u8, text: &mut Vec<u8>) -> Result<(), AllocError>
    ensures put { OnOk result (text.new.items
        ≡ text.old.items ++ escape (encode_lower (byte ∷ []))) }
    ensures kept { OnErr result (BeginsWith text.new.items text.old.items) }
{
    text.extend_from_slice(&[LOWER[(byte / 16) as usize], LOWER[(byte % 16) as usize]])?;
    Ok(())
}

// Puts the digits of bytes behind a text, one by one.
fn put_each(bytes: &[u8], text: &mut Vec<u8>) -> Result<(), AllocError>
    ensures put { OnOk result (text.new.items ≡ text.old.items ++ escape (encode_lower bytes.now)) }
    ensures kept { OnErr result (BeginsWith text.new.items text.old.items) }
{
    for byte in bytes {
        put_lower(*byte, text)?;
    }
    Ok(())
}

/// Puts the digits of bytes behind a text, in lower case and without quotes. Room is taken once, and they are put sixteen bytes at a
/// time, and one by one at the end.
pub fn put_lower_bytes(bytes: &[u8], text: &mut Vec<u8>) -> Result<(), AllocError>
    ensures put { OnOk result (text.new.items ≡ text.old.items ++ escape (encode_lower bytes.now)) }
    ensures kept { OnErr result (BeginsWith text.new.items text.old.items) }
{
    text.reserve(2 * bytes.len())?;
    let mut left = bytes;
    while let Some((chunk, rest)) = left.split_first_chunk::<16>() {
        text.extend_from_slice(&lower_of(chunk))?;
        left = rest;
    }
    put_each(left, text)
}

/// Puts bytes behind a text, in hexadecimal.
pub fn put_hex(bytes: &[u8], text: &mut Vec<u8>) -> Result<(), AllocError>
    ensures put { OnOk result (text.new.items
        ≡ text.old.items ++ compact_text (hex_data bytes.now)) }
    ensures kept { OnErr result (BeginsWith text.new.items text.old.items) }
{
    text.push(b'"')?;
    put_lower_bytes(bytes, text)?;
    text.push(b'"')?;
    Ok(())
}
