//! Eight units of a text of 16-bit units, looked at side by side and put behind a text at once.

ghost use Rattle.std.specs.Prelude.{◌≡◌, ℕ, [], ◌∷◌, ◌++◌, ◌+◌, ◌*◌, ◌/◌, ◌%◌, ◌^◌, ◌≤◌, ◌<◌, ◌⊎◌, IsTrue, OnOk, true, length, take, drop, slice_index, encode_utf8};
ghost use Rattle.json.specs.Print.{escape};
ghost use Rattle.json.specs.Run.{is_plain};
ghost use Rattle.pst_text.specs.Characters.{bytes_of_both};
ghost use Rattle.pst_text.specs.Text.{utf8_of};
ghost use Rattle.pst_text.specs.Kept.{BeginsWith};

use std::alloc::AllocError;
use std::simd::prelude::*;

// How many bytes eight characters of one unit have at most.
const ROOM: usize = 24;

// The first surrogate, and what stands behind the last.
const FIRST: u32 = 0xD800;

const BEHIND: u32 = 0xE000;

/// The unit at a place.
pub(crate) fn unit_at(bytes: &[u8], at: usize) -> u32
    requires { at + 2 ≤ length bytes.now }
    ensures { result ≡ slice_index bytes.now at + 256 * slice_index bytes.now (at + 1) }
{
    u32::from(bytes[at]) + 256 * u32::from(bytes[at + 1])
}

// Whether a unit is a character of its own, and stands for itself between quotes.
fn is_whole_unit(unit: u32) -> bool
    ensures alone { IsTrue result → (unit < 0xD800) ⊎ (0xE000 ≤ unit) }
    ensures plain { IsTrue result → unit < 0x80 → is_plain unit ≡ true }
{
    unit >= 0x20 && unit != 0x22 && unit != 0x5C && (unit < FIRST || unit >= BEHIND)
}

// How many of the eight units at a place are characters of their own and stand for themselves. None is passed over, so that all are
// looked at side by side.
pub(crate) fn whole_among(bytes: &[u8], at: usize) -> u32
    requires { at + 16 ≤ length bytes.now }
    ensures alone { result ≡ 8 → (k : ℕ) → k < 8 →
        (slice_index bytes.now (at + 2 * k) + 256 * slice_index bytes.now (at + 2 * k + 1) < 0xD800)
        ⊎ (0xE000 ≤ slice_index bytes.now (at + 2 * k) + 256 * slice_index bytes.now (at + 2 * k + 1)) }
    ensures plain { result ≡ 8 → (k : ℕ) → k < 8 →
        slice_index bytes.now (at + 2 * k) + 256 * slice_index bytes.now (at + 2 * k + 1) < 0x80 → is_plain
        (slice_index bytes.now (at + 2 * k) + 256 * slice_index bytes.now (at + 2 * k + 1)) ≡ true }
{
    let mut count = 0;
    for i in 0..8 {
        count += u32::from(is_whole_unit(unit_at(bytes, at + 2 * i)));
    }
    count
}

// How many of the eight units at a place are ASCII.
fn ascii_among(bytes: &[u8], at: usize) -> u32
    requires { at + 16 ≤ length bytes.now }
    ensures { result ≡ 8 → (k : ℕ) → k < 8 →
        slice_index bytes.now (at + 2 * k) + 256 * slice_index bytes.now (at + 2 * k + 1) < 0x80 }
{
    let mut count = 0;
    for i in 0..8 {
        count += u32::from(unit_at(bytes, at + 2 * i) < 0x80);
    }
    count
}

// The eight units at a place.
fn units_at(bytes: &[u8], at: usize) -> u16x8
    requires { at + 16 ≤ length bytes.now }
    ensures long { length result ≡ 8 }
    ensures lanes { (k : ℕ) → k < 8 → slice_index result k
        ≡ slice_index bytes.now (at + 2 * k) + 256 * slice_index bytes.now (at + 2 * k + 1) }
    ensures small { (k : ℕ) → k < 8 → slice_index result k < 0x10000 }
{
    u16x8::from_array([
        unit_at(bytes, at) as u16,
        unit_at(bytes, at + 2) as u16,
        unit_at(bytes, at + 4) as u16,
        unit_at(bytes, at + 6) as u16,
        unit_at(bytes, at + 8) as u16,
        unit_at(bytes, at + 10) as u16,
        unit_at(bytes, at + 12) as u16,
        unit_at(bytes, at + 14) as u16,
    ])
}

// The lower bytes of the eight units at a place, which are ASCII.
fn lower_bytes(bytes: &[u8], at: usize) -> [u8; 8]
    requires within { at + 16 ≤ length bytes.now }
    requires ascii { (k : ℕ) → k < 8 →
        slice_index bytes.now (at + 2 * k) + 256 * slice_index bytes.now (at + 2 * k + 1) < 0x80 }
    ensures { (k : ℕ) → k < 8 → slice_index result k ≡ slice_index bytes.now (at + 2 * k) }
{
    units_at(bytes, at).cast::<u8>().to_array()
}

// Of each lane one of two: where the unit is below a limit, and where it is not.
fn chosen(units: u16x8, limit: u16, below: u16x8, other: u16x8) -> u16x8
    requires units { length units ≡ 8 }
    requires below { length below ≡ 8 }
    requires other { length other ≡ 8 }
    ensures long { length result ≡ 8 }
    ensures below { (k : ℕ) → k < 8 → slice_index units k < limit
        → slice_index result k ≡ slice_index below k }
    ensures other { (k : ℕ) → k < 8 → limit ≤ slice_index units k
        → slice_index result k ≡ slice_index other k }
{
    units.simd_lt(u16x8::splat(limit)).select(below, other)
}

// What is left of each unit without so many bits.
fn without(units: u16x8, bits: u16) -> u16x8
    requires units { length units ≡ 8 }
    requires bits { bits < 16 }
    ensures long { length result ≡ 8 }
    ensures lanes { (k : ℕ) → k < 8 → slice_index result k ≡ slice_index units k / 2 ^ bits }
{
    units >> u16x8::splat(bits)
}

// The last six bits of each unit, as a byte behind the first of a character.
fn last_bytes(units: u16x8) -> u16x8
    requires { length units ≡ 8 }
    ensures long { length result ≡ 8 }
    ensures lanes { (k : ℕ) → k < 8 → slice_index result k ≡ 128 + slice_index units k % 64 }
{
    (units & u16x8::splat(63)) + u16x8::splat(128)
}

// The bits of each unit that go into the first byte of a character, with what that byte begins with, and the second byte above them.
fn joined_bytes(bits: u16x8, mark: u16, second: u16x8) -> u16x8
    requires bits { length bits ≡ 8 }
    requires second { length second ≡ 8 }
    ensures long { length result ≡ 8 }
    ensures lanes { (k : ℕ) → k < 8
        → slice_index bits k + mark + 256 * slice_index second k < 0x10000
        → slice_index result k ≡ slice_index bits k + mark + 256 * slice_index second k }
{
    bits + u16x8::splat(mark) + (second << u16x8::splat(8))
}

// The first two bytes of the character that each unit is, the second above the first.
fn low_bytes(units: u16x8) -> u16x8
    requires { length units ≡ 8 }
    ensures long { length result ≡ 8 }
    ensures one { (k : ℕ) → k < 8 → slice_index units k < 0x80
        → slice_index result k ≡ slice_index units k }
    ensures two { (k : ℕ) → k < 8 → 0x80 ≤ slice_index units k → slice_index units k < 0x800
        → slice_index result k ≡ slice_index units k / 64 + 192 + 256 * (128 + slice_index units k % 64) }
    ensures three { (k : ℕ) → k < 8 → 0x800 ≤ slice_index units k → slice_index units k < 0x10000
        → slice_index result k ≡ slice_index units k / 4096 + 224 + 256 * (128 + slice_index units k / 64 % 64) }
{
    let two = joined_bytes(without(units, 6), 0xC0, last_bytes(units));
    let three = joined_bytes(without(units, 12), 0xE0, last_bytes(without(units, 6)));
    chosen(units, 0x80, units, chosen(units, 0x800, two, three))
}

// The third byte of each, and above it how many there are.
fn high_bytes(units: u16x8) -> u16x8
    requires { length units ≡ 8 }
    ensures long { length result ≡ 8 }
    ensures one { (k : ℕ) → k < 8 → slice_index units k < 0x80 → slice_index result k ≡ 256 }
    ensures two { (k : ℕ) → k < 8 → 0x80 ≤ slice_index units k → slice_index units k < 0x800
        → slice_index result k ≡ 512 }
    ensures three { (k : ℕ) → k < 8 → 0x800 ≤ slice_index units k → slice_index units k < 0x10000
        → slice_index result k ≡ 768 + (128 + slice_index units k % 64) }
{
    let three = joined_bytes(last_bytes(units), 0, u16x8::splat(3));
    chosen(
        units,
        0x80,
        u16x8::splat(0x100),
        chosen(units, 0x800, u16x8::splat(0x200), three),
    )
}

// The characters that the eight units at a place are: of each its first two bytes, and its third one with how many there are.
fn characters_at(bytes: &[u8], at: usize) -> ([u16; 8], [u16; 8])
    requires { at + 16 ≤ length bytes.now }
    ensures bytes { (k : ℕ) → k < 8 →
        bytes_of_both (slice_index result.0 k) (slice_index result.1 k)
        ≡ encode_utf8 (slice_index bytes.now (at + 2 * k) + 256 * slice_index bytes.now (at + 2 * k + 1)) }
    ensures most { (k : ℕ) → k < 8 → slice_index result.1 k / 256 ≤ 3 }
    ensures small { (k : ℕ) → k < 8
        → slice_index bytes.now (at + 2 * k) + 256 * slice_index bytes.now (at + 2 * k + 1) < 0x10000 }
{
    let units = units_at(bytes, at);
    (low_bytes(units).to_array(), high_bytes(units).to_array())
}

// Lays a character's bytes down from a place on. It is three bytes that are laid, and the next character's lie over those behind its own.
fn lay_bytes(low: u16, high: u16, at: usize, spelt: &mut [u8; ROOM])
    requires most { high / 256 ≤ 3 }
    requires room { at + 3 ≤ 24 }
    ensures { take (at + high / 256) spelt.new ≡ take at spelt.old ++ bytes_of_both low high }
{
    spelt[at] = (low % 256) as u8;
    spelt[at + 1] = (low / 256) as u8;
    spelt[at + 2] = (high % 256) as u8;
}

// Puts the characters that eight units are, which stand for themselves, behind a text. Their bytes are laid down in an array first,
// and those behind the last of them go again.
fn put_characters(bytes: &[u8], at: usize, text: &mut Vec<u8>) -> Result<(), AllocError>
    requires within { at + 16 ≤ length bytes.now }
    requires alone { (k : ℕ) → k < 8 →
        (slice_index bytes.now (at + 2 * k) + 256 * slice_index bytes.now (at + 2 * k + 1) < 0xD800)
        ⊎ (0xE000 ≤ slice_index bytes.now (at + 2 * k) + 256 * slice_index bytes.now (at + 2 * k + 1)) }
    requires plain { (k : ℕ) → k < 8 →
        slice_index bytes.now (at + 2 * k) + 256 * slice_index bytes.now (at + 2 * k + 1) < 0x80 → is_plain
        (slice_index bytes.now (at + 2 * k) + 256 * slice_index bytes.now (at + 2 * k + 1)) ≡ true }
    ensures put { OnOk result (text.new.items ++ escape (utf8_of (drop (at + 16) bytes.now))
        ≡ text.old.items ++ escape (utf8_of (drop at bytes.now))) }
    ensures kept { BeginsWith text.new.items text.old.items }
{
    let (low, high) = characters_at(bytes, at);
    let mut spelt = [0; ROOM];
    let mut end = 0;
    for i in 0..8 {
        lay_bytes(low[i], high[i], end, &mut spelt);
        end += (high[i] / 256) as usize;
    }
    let whole = text.len() + end;
    text.extend_from_slice(&spelt)?;
    text.truncate(whole);
    Ok(())
}

/// Puts eight units that are characters of their own and stand for themselves behind a text.
pub(crate) fn put_eight(bytes: &[u8], at: usize, text: &mut Vec<u8>) -> Result<(), AllocError>
    requires within { at + 16 ≤ length bytes.now }
    requires alone { (k : ℕ) → k < 8 →
        (slice_index bytes.now (at + 2 * k) + 256 * slice_index bytes.now (at + 2 * k + 1) < 0xD800)
        ⊎ (0xE000 ≤ slice_index bytes.now (at + 2 * k) + 256 * slice_index bytes.now (at + 2 * k + 1)) }
    requires plain { (k : ℕ) → k < 8 →
        slice_index bytes.now (at + 2 * k) + 256 * slice_index bytes.now (at + 2 * k + 1) < 0x80 → is_plain
        (slice_index bytes.now (at + 2 * k) + 256 * slice_index bytes.now (at + 2 * k + 1)) ≡ true }
    ensures put { OnOk result (text.new.items ++ escape (utf8_of (drop (at + 16) bytes.now))
        ≡ text.old.items ++ escape (utf8_of (drop at bytes.now))) }
    ensures kept { BeginsWith text.new.items text.old.items }
{
    if ascii_among(bytes, at) == 8 {
        text.extend_from_slice(&lower_bytes(bytes, at))?;
        return Ok(());
    }
    put_characters(bytes, at, text)
}
