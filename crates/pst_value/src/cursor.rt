//! A value that is taken from the front, part by part.

ghost use Rattle.std.specs.Prelude.{◌≡◌, ◌+◌, ◌-◌, ◌≤◌, length, drop};
ghost use Rattle.std.specs.List.{concat};
ghost use Rattle.pst_datatree.specs.declared.value_view.Value.TheVariants.{Pieces as InPieces};
ghost use Rattle.pst_datatree.specs.Left.{slices_left};
ghost use Rattle.pst_datatree.specs.Same.{HaveSameParts, HaveSameParts-prop};
ghost use Rattle.pst_datatree.specs.Shown.{bytes_in};

use pst_datatree::{Pieces, Value};

/// A value of which so many bytes are taken. All parts that are taken go once through its pieces.
#[derive(Clone, Copy)]
pub(crate) struct Cursor<'a> {
    value: Value<'a>,
    place: u64,
    // The value from some piece on, and how many bytes of that are taken.
    rest: Value<'a>,
    skip: u64,
    ghost within: { place ≤ length (bytes_in value) },
    ghost inside: { skip ≤ length (bytes_in rest) },
    ghost bytes: { drop skip (bytes_in rest) ≡ drop place (bytes_in value) },
    ghost same: { HaveSameParts value place rest skip } by { HaveSameParts-prop value place rest
        skip },
}

// The pieces from the one that has the byte with a number on, and the number of that byte among theirs.
#[tactic(auto, using(pst_datatree::proofs::SameLemmas::parts_passed, pst_datatree::proofs::SameLemmas::bytes_passed, pst_datatree::proofs::SameLemmas::still_inside))]
fn passed<'a>(pieces: Pieces<'a>, skip: u64) -> (Pieces<'a>, u64)
    requires { skip ≤ length (concat (slices_left pieces)) }
    ensures left { let all = concat (slices_left pieces.entry) in
        drop result.1 (concat (slices_left result.0)) ≡ drop skip all }
    ensures inside { result.1 ≤ length (concat (slices_left result.0)) }
    ensures same { HaveSameParts (InPieces pieces.entry) skip (InPieces result.0) result.1 }
{
    let mut from = pieces;
    let mut left = skip;
    let mut behind = pieces;
    while let Some(span) = behind.next_span() {
        if left < span.len {
            return (from, left);
        }
        left -= span.len;
        from = behind;
    }
    (from, left)
}

impl<'a> Cursor<'a> {
    ghost use Rattle.std.specs.Prelude.{slice_range};
    ghost use Rattle.pst_datatree.specs.Shown.{IsPart};
    ghost use Rattle.pst_value.specs.Cursor.{cursor_value, cursor_place, end_of_next};

    /// All of a value.
    #[tactic(auto, using(pst_datatree::proofs::SameLemmas::kept_parts))]
    pub(crate) fn new(value: Value<'a>) -> Cursor<'a>
        ensures value { cursor_value result ≡ value.entry }
        ensures place { cursor_place result ≡ 0 }
    {
        Cursor {
            value,
            place: 0,
            rest: value.with_bytes(),
            skip: 0,
        }
    }

    /// How many of the bytes are taken.
    pub(crate) fn place(&self) -> u64
        ensures { result ≡ cursor_place self.now }
    {
        self.place
    }

    /// How many bytes the value has, taken or not.
    pub(crate) fn len(&self) -> u64
        ensures { result ≡ length (bytes_in (cursor_value self.now)) }
    {
        self.value.len()
    }

    // The same bytes, from the first piece that has some of them on.
    #[tactic(auto, using(pst_datatree::proofs::SameLemmas::same_parts_on))]
    fn settled(self) -> Cursor<'a>
        ensures value { cursor_value result ≡ cursor_value self.entry }
        ensures place { cursor_place result ≡ cursor_place self.entry }
    {
        match self.rest {
            Value::Whole(_, _) => self,
            Value::Pieces(pieces) => {
                let (from, skip) = passed(pieces, self.skip);
                Cursor {
                    value: self.value,
                    place: self.place,
                    rest: Value::Pieces(from),
                    skip,
                }
            }
        }
    }

    // So many of the bytes that are left, and what is left behind them.
    #[tactic(auto, using(crate::proofs::CursorLemmas::left_alike, crate::proofs::CursorLemmas::left_behind, crate::proofs::CursorLemmas::part_bytes, pst_datatree::proofs::SameLemmas::part_of_same, pst_datatree::proofs::SameLemmas::parts_behind))]
    fn split(self, size: u64) -> (Value<'a>, Cursor<'a>)
        requires { self.place + size ≤ length (bytes_in self.value) }
        ensures part { let from = cursor_place self.entry in
            IsPart from (from + size) (cursor_value self.entry) result.0 }
        ensures bytes { let from = cursor_place self.entry in
            bytes_in result.0 ≡ slice_range (bytes_in (cursor_value self.entry)) from (from + size) }
        ensures value { cursor_value result.1 ≡ cursor_value self.entry }
        ensures place { cursor_place result.1 ≡ cursor_place self.entry + size }
    {
        let _all = self.rest.len();
        let _total = self.value.len();
        let end = self.skip + size;
        let part = self.rest.part(self.skip, end).unwrap();
        let behind = Cursor {
            value: self.value,
            place: self.place + size,
            rest: self.rest,
            skip: end,
        };
        (part, behind)
    }

    /// The next bytes, so many or as many as there are.
    #[tactic(auto, using(crate::proofs::CursorLemmas::end_is))]
    pub(crate) fn take(&mut self, len: u64) -> Value<'a>
        ensures part { IsPart (cursor_place self.old) (end_of_next self.old len)
            (cursor_value self.old) result }
        ensures bytes { bytes_in result ≡ slice_range (bytes_in (cursor_value self.old))
            (cursor_place self.old) (end_of_next self.old len) }
        ensures value { cursor_value self.new ≡ cursor_value self.old }
        ensures place { cursor_place self.new ≡ end_of_next self.old len }
    {
        let here = self.settled();
        let size = len.min(here.value.len() - here.place);
        let (part, rest) = here.split(size);
        *self = rest;
        part
    }
}
