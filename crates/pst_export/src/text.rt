//! What is left of a text of 16-bit units: these one by one, and those of ASCII together.

ghost use Rattle.std.specs.Prelude.{◌≡◌, ◌+◌, ◌*◌, ◌<◌, ◌≤◌, IsTrue, ℕ, ◌++◌, List, IfOk, drop, length};
ghost use Rattle.pst_value_json.specs.pst_datatree.Shown.{bytes_in};
ghost use Rattle.pst_value_json.specs.pst_text.Text.{utf8_of};
ghost use Rattle.pst_export.specs.Text.{text_bytes};

use pst_datatree::{Pieces, Value};
use std::alloc::AllocError;

/// The bytes that are left of a text, in order: those of one piece, and the pieces behind it. Going through them takes no memory.
#[derive(Clone, Copy)]
pub(crate) struct TextLeft<'a> {
    front: &'a [u8],
    rest: Option<Pieces<'a>>,
}

/// All bytes of a value.
pub(crate) fn text_from<'a>(value: Value<'a>) -> TextLeft<'a>
    ensures { text_bytes result ≡ bytes_in value.entry }
{
    match value.with_bytes() {
        Value::Whole(_, front) => TextLeft { front, rest: None },
        Value::Pieces(pieces) => TextLeft {
            front: &[],
            rest: Some(pieces),
        },
    }
}

// Whether a unit is ASCII.
fn is_ascii(low: u8, high: u8) -> bool
    ensures { IsTrue result → (low < 0x80) × (high ≡ 0) }
{
    high == 0 && low < 0x80
}

// How many units of ASCII stand at the front of some bytes.
fn count_ascii(bytes: &[u8]) -> usize
    ensures within { 2 * result ≤ length bytes.now }
    ensures counted { (behind : List ℕ)
        → result + length (utf8_of (drop (2 * result) bytes.now ++ behind))
        ≡ length (utf8_of (bytes.now ++ behind)) }
{
    let mut count = 0;
    while bytes.len() - 2 * count >= 2 && is_ascii(bytes[2 * count], bytes[2 * count + 1]) {
        count += 1;
    }
    count
}

// Puts the units of ASCII at the front of some bytes behind a text in UTF-8, and says where the others begin. There is room for all
// before the first is put.
fn put_ascii(bytes: &[u8], text: &mut Vec<u8>) -> Result<usize, AllocError>
    ensures within { IfOk result (λ end. end ≤ length bytes.now) }
    ensures put { IfOk result (λ end. (behind : List ℕ) →
        text.new.items ++ utf8_of (drop end bytes.now ++ behind)
        ≡ text.old.items ++ utf8_of (bytes.now ++ behind)) }
{
    text.reserve(bytes.len() / 2)?;
    let mut at = 0;
    while bytes.len() - at >= 2 && is_ascii(bytes[at], bytes[at + 1]) {
        text.push_reserved(bytes[at]);
        at += 2;
    }
    Ok(at)
}

impl<'a> TextLeft<'a> {
    ghost use Rattle.std.specs.Prelude.{◌≡◌, ◌<◌, ◌≤◌, ◌+◌, ◌∷◌, ◌++◌, [], IfNone, IfSome, OnOk, length};
    ghost use Rattle.pst_value.specs.Units.{units_of};
    ghost use Rattle.pst_export.specs.Text.{text_bytes, text_utf8};

    // The next byte, if one is left.
    fn next_byte(&mut self) -> Option<u8>
        ensures none { IfNone result (text_bytes self.old ≡ []) }
        ensures next { IfSome result (λ b. text_bytes self.old ≡ b ∷ text_bytes self.new) }
    {
        while self.front.is_empty() {
            let mut rest = self.rest?;
            match rest.next() {
                Some(piece) => {
                    self.front = piece;
                    self.rest = Some(rest);
                }
                None => {
                    self.rest = None;
                }
            }
        }
        let first = self.front[0];
        self.front = &self.front[1..];
        Some(first)
    }

    /// The next unit, if one is left.
    pub(crate) fn next_unit(&mut self) -> Option<u16>
        ensures none { IfNone result (units_of (text_bytes self.old) ≡ []) }
        ensures next { IfSome result (λ u.
            units_of (text_bytes self.old) ≡ u ∷ units_of (text_bytes self.new)) }
        ensures fewer { IfSome result (λ _.
            length (text_bytes self.new) < length (text_bytes self.old)) }
    {
        let low = self.next_byte()?;
        let high = self.next_byte()?;
        Some(u16::from(low) + 256 * u16::from(high))
    }

    /// Takes the units of ASCII at the front of the piece that is open, and counts them: so many bytes they have in UTF-8.
    pub(crate) fn skip_ascii(&mut self) -> usize
        ensures counted { result + length (text_utf8 self.new) ≡ length (text_utf8 self.old) }
        ensures fewer { length (text_bytes self.new) ≤ length (text_bytes self.old) }
    {
        let front = self.front;
        let count = count_ascii(front);
        self.front = &front[2 * count..];
        count
    }

    /// Takes them, and puts them behind a text in UTF-8.
    pub(crate) fn take_ascii(&mut self, text: &mut Vec<u8>) -> Result<(), AllocError>
        ensures put { OnOk result (text.new.items ++ text_utf8 self.new
            ≡ text.old.items ++ text_utf8 self.old) }
        ensures fewer { OnOk result (length (text_bytes self.new) ≤ length (text_bytes self.old)) }
    {
        let front = self.front;
        let end = put_ascii(front, text)?;
        self.front = &front[end..];
        Ok(())
    }
}
