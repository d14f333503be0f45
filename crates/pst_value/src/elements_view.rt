//! An iterator over the values that a value of several has.

ghost use Rattle.std.specs.Prelude.{◌≡◌, ◌≢◌, ◌+◌, ◌*◌, ◌<◌, ◌≤◌, length, drop, Some, None};
ghost use Rattle.pst_bytes.specs.Image.{num};
ghost use Rattle.pst_datatree.specs.Shown.{bytes_in};
ghost use Rattle.pst_value.specs.Cursor.{cursor_value, cursor_place};
ghost use Rattle.pst_value.specs.Multi.{element_width as width_of_type, element_count, element_bound};
ghost use Rattle.pst_value.specs.Units.{bytes_left};

use crate::cursor::Cursor;
use crate::prop_type::PropType;
use crate::several::{element_width, next_u32};
use crate::units::{Bytes, bytes_from};
use pst_datatree::Value;

/// The values of a value of several, in order. Going through all of them goes twice through its pieces, and takes no
/// memory.
#[derive(Clone, Copy)]
pub struct Elements<'a> {
    kind: PropType,
    // How many there are, and which is the next one.
    count: u32,
    next: u32,
    // Where they have offsets, the bytes behind that of the next one.
    offsets: Bytes<'a>,
    // The value, of which all that stands before the next one is taken.
    items: Cursor<'a>,
    ghost counted: { element_count kind.0 (bytes_in (cursor_value items)) ≡ Some count },
    ghost here: { next < count → cursor_place items ≡
        element_bound kind.0 (bytes_in (cursor_value items)) next },
    ghost behind: { width_of_type kind.0 ≡ None → bytes_left offsets ≡
        drop (8 + 4 * next) (bytes_in (cursor_value items)) },
}

// The next number of 4 bytes, 0 where there is none; and 4 bytes are passed over.
fn next_offset(rest: &mut Bytes) -> u64
    ensures value { 4 ≤ length (bytes_left rest.old) → result ≡ num (bytes_left rest.old) 0 4 }
    ensures rest { bytes_left rest.new ≡ drop 4 (bytes_left rest.old) }
{
    match next_u32(rest) {
        Some(n) => u64::from(n),
        None => 0,
    }
}

impl<'a> Elements<'a> {
    ghost use Rattle.std.specs.Prelude.{◌∷◌, min};
    ghost use Rattle.pst_value.specs.Elements.{elements_value, elements_type, element_next, IsSplit};

    // So many values of a width.
    #[tactic(auto, using(crate::proofs::ElementLemmas::fixed_start))]
    pub(crate) fn fixed(value: Value<'a>, kind: PropType, count: u32) -> Elements<'a>
        requires width { width_of_type kind.0 ≢ None }
        requires count { element_count kind.0 (bytes_in value) ≡ Some count }
        ensures value { elements_value result ≡ value.entry }
        ensures kind { elements_type result ≡ kind.0 }
        ensures next { element_next result ≡ 0 }
        ensures count { result.count ≡ count }
    {
        Elements {
            kind,
            count,
            next: 0,
            offsets: bytes_from(value),
            items: Cursor::new(value),
        }
    }

    // So many values with offsets.
    #[tactic(auto, using(crate::proofs::ElementLemmas::listed_start, crate::proofs::ElementLemmas::eight_behind))]
    pub(crate) fn listed(value: Value<'a>, kind: PropType, count: u32) -> Elements<'a>
        requires width { width_of_type kind.0 ≡ None }
        requires count { element_count kind.0 (bytes_in value) ≡ Some count }
        ensures value { elements_value result ≡ value.entry }
        ensures kind { elements_type result ≡ kind.0 }
        ensures next { element_next result ≡ 0 }
        ensures count { result.count ≡ count }
    {
        let mut offsets = bytes_from(value);
        let _ = next_offset(&mut offsets);
        let start = next_offset(&mut offsets);
        let mut items = Cursor::new(value);
        let _ = items.take(start);
        Elements {
            kind,
            count,
            next: 0,
            offsets,
            items,
        }
    }

    // How many bytes the next value has, and the bytes behind the offset of the one after it.
    #[tactic(auto, using(crate::proofs::ElementLemmas::fixed_end, crate::proofs::ElementLemmas::listed_end, crate::proofs::ElementLemmas::last_end, crate::proofs::ElementLemmas::four_behind))]
    fn ahead(self) -> (u64, Bytes<'a>)
        requires { self.next < self.count }
        ensures end { let all = bytes_in (elements_value self.entry) in
            min (cursor_place self.entry.items + result.0) (length all) ≡
            element_bound (elements_type self.entry) all (self.entry.next + 1) }
        ensures behind { width_of_type self.entry.kind.0 ≡ None → bytes_left result.1 ≡
            drop (8 + 4 * (self.entry.next + 1)) (bytes_in (elements_value self.entry)) }
    {
        match element_width(self.kind) {
            Some(width) => (width, self.offsets),
            None => {
                let mut behind = self.offsets;
                let end = next_offset(&mut behind);
                let len = if self.next + 1 == self.count {
                    self.items.len()
                } else {
                    end.saturating_sub(self.items.place())
                };
                (len, behind)
            }
        }
    }

    // The first value, and what is left behind it.
    #[tactic(auto, using(crate::proofs::ElementLemmas::behind_none, crate::proofs::ElementLemmas::behind_next))]
    fn split(self) -> Option<(Value<'a>, Elements<'a>)>
        ensures { IsSplit self.entry result }
    {
        if self.next >= self.count {
            return None;
        }
        let (len, offsets) = self.ahead();
        let mut items = self.items;
        let value = items.take(len);
        let rest = Elements {
            kind: self.kind,
            count: self.count,
            next: self.next + 1,
            offsets,
            items,
        };
        Some((value, rest))
    }
}

impl<'a> Iterator for Elements<'a> {
    type Item = Value<'a>;

    ghost use Rattle.std.specs.Iterator.{item_count};
    ghost use Rattle.pst_value.specs.Elements.{elements_left, TakesElement};

    ghost next_gives = { TakesElement };

    ghost remaining = { item_count elements_left };

    fn next(&mut self) -> Option<Value<'a>> {
        let (value, rest) = self.split()?;
        *self = rest;
        Some(value)
    }
}
