//! A value: bytes of the file, and what it answers.

ghost use Rattle.std.specs.Prelude.{◌≡◌, slice_get};
ghost use Rattle.std.specs.List.{concat};
ghost use Rattle.pst_datatree.specs.Left.{spans_left, slices_left};
ghost use Rattle.pst_datatree.specs.Spans.{nonempty, first_span};

use crate::pieces::Pieces;
use crate::slices::Slices;
use crate::values::value_of;

/// Bytes of the file, in its own memory: as one slice, or in pieces.
#[derive(Clone, Copy)]
pub enum Value<'a> {
    /// Where the first byte lies in the file (0 where there is none), and the bytes: at most one span has any.
    Whole(u64, &'a [u8]),
    /// The slices that they are, where several spans have bytes. What was taken out of them is no more part of the value.
    Pieces(Pieces<'a>),
}

// The byte with a number among those that are left.
#[tactic(auto, using(crate::proofs::ByteLemmas::no_byte))]
fn byte_in(pieces: Pieces, i: u64) -> Option<u8>
    ensures { result ≡ slice_get (concat (slices_left pieces.entry)) i }
{
    if i >= pieces.size() {
        return None;
    }
    let mut part = pieces.part(i, i + 1);
    let span = part.next_span()?;
    pieces.lend(span).first().copied()
}

// Where the first byte lies, 0 where there is none.
fn place_of(pieces: Pieces) -> u64
    ensures { result ≡ (first_span (nonempty (spans_left pieces.entry))).at }
{
    match pieces.with_bytes().next_span() {
        Some(span) => span.at,
        None => 0,
    }
}

impl<'a> Value<'a> {
    ghost use Rattle.std.specs.Prelude.{◌≤◌, ◌↔◌, IsSome, IsTrue, IfSome, length, slice_range};
    ghost use Rattle.pst_datatree.specs.Shown.{bytes_in, size_in, place_in, IsPart, KeepsBytes};
    ghost use Rattle.pst_datatree.specs.Slices.{value_slices, slices_in, AreOf};

    /// How many bytes the value has.
    pub fn len(&self) -> u64
        ensures size { result ≡ size_in self.now }
        ensures bytes { result ≡ length (bytes_in self.now) }
    {
        match self {
            Value::Whole(_, slice) => slice.len() as u64,
            Value::Pieces(pieces) => pieces.size(),
        }
    }

    /// Whether the value has no byte.
    pub fn is_empty(&self) -> bool
        ensures { IsTrue result ↔ (size_in self.now ≡ 0) }
    {
        self.len() == 0
    }

    /// Where the first byte lies in the file; 0 where there is none.
    pub fn at(&self) -> u64
        ensures { result ≡ place_in self.now }
    {
        match self {
            Value::Whole(at, _) => *at,
            Value::Pieces(pieces) => place_of(*pieces),
        }
    }

    /// The byte with a number, from 0 on; None exactly from `len` on.
    pub fn byte(&self, i: u64) -> Option<u8>
        ensures { result ≡ slice_get (bytes_in self.now) i }
    {
        match self {
            Value::Whole(_, slice) => slice.get(i as usize).copied(),
            Value::Pieces(pieces) => byte_in(*pieces, i),
        }
    }

    /// The bytes from one number up to another; Some exactly where `from <= to <= len`.
    #[tactic(auto, using(crate::proofs::ValueLemmas::bytes_of_pieces))]
    pub fn part(&self, from: u64, to: u64) -> Option<Value<'a>>
        ensures there { IsSome result ↔ ((from ≤ to) × (to ≤ size_in self.now)) }
        ensures bytes { IfSome result (λ part.
            bytes_in part ≡ slice_range (bytes_in self.now) from to) }
        ensures part { IfSome result (IsPart from to self.now) }
    {
        if from > to || to > self.len() {
            return None;
        }
        Some(match self {
            Value::Whole(at, slice) => {
                let place = if from < to {
                    at.saturating_add(from)
                } else {
                    0
                };
                Value::Whole(place, &slice[from as usize..to as usize])
            }
            Value::Pieces(pieces) => value_of(pieces.part(from, to)),
        })
    }

    /// The same bytes, each piece with some: spans without bytes are passed over, and XBLOCKs of such spans in one step each.
    #[tactic(auto, using(crate::proofs::ValueLemmas::bytes_with_bytes))]
    pub fn with_bytes(&self) -> Value<'a>
        ensures shown { KeepsBytes self.now result }
        ensures bytes { bytes_in result ≡ bytes_in self.now }
    {
        match self {
            Value::Whole(at, slice) => Value::Whole(*at, slice),
            Value::Pieces(pieces) => Value::Pieces(pieces.with_bytes()),
        }
    }

    /// Its slices in order: the one slice of a whole value, else one for each span.
    #[tactic(auto, using(crate::proofs::SliceLemmas::value_bytes))]
    pub fn slices(&self) -> Slices<'a>
        ensures slices { slices_in result ≡ value_slices self.now }
        ensures bytes { concat (slices_in result) ≡ bytes_in self.now }
        ensures own { AreOf self.now result }
    {
        Slices::new(self)
    }
}
