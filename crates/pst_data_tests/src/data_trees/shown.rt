//! What the tests ask of trees and their values.

use super::*;
use crate::told::is;

/// How many bytes the next piece has.
pub(super) fn next_len(pieces: &mut Pieces) -> Option<usize> {
    let piece = pieces.next()?;
    Some(piece.len())
}

fn next_slice_len(slices: &mut Slices) -> Option<usize> {
    let slice = slices.next()?;
    Some(slice.len())
}

/// Stops the test where the slices of a value have not these lengths.
pub(super) fn has_slices<R: Abort>(rt: &R, value: &Value, lens: &[usize]) {
    let mut slices = value.slices();
    for len in lens {
        is(rt, next_slice_len(&mut slices), Some(*len));
    }
    is(rt, next_slice_len(&mut slices), None);
}

/// Stops the test where a value has not these bytes, by their numbers.
pub(super) fn has_bytes<R: Abort>(rt: &R, value: &Value, bytes: &[(u64, Option<u8>)]) {
    for (i, byte) in bytes {
        is(rt, value.byte(*i), *byte);
    }
}

/// Stops the test where a tree has not these spans, and no more.
pub(super) fn has_spans<R: Abort>(rt: &R, tree: &Tree, wanted: &[Span]) {
    is(rt, tree.leaf_count(), wanted.len() as u64);
    for (n, span) in wanted.iter().enumerate() {
        is(rt, tree.leaf(n as u64), Some(*span));
    }
    is(rt, tree.leaf(wanted.len() as u64), None);
}

/// Of a value whether it is one slice, how many bytes it has, and where it lies.
pub(super) fn extent(value: &Value) -> (bool, u64, u64) {
    (matches!(value, Value::Whole(_, _)), value.len(), value.at())
}

/// The same, and its first two bytes.
pub(super) type Shown = (bool, u64, u64, [Option<u8>; 2]);

pub(super) fn shown(value: &Value) -> Shown {
    let (is_whole, len, at) = extent(value);
    (is_whole, len, at, [value.byte(0), value.byte(1)])
}

/// A part of a value.
pub(super) fn part_of<'a, R: Abort>(rt: &R, value: &Value<'a>, from: u64, to: u64) -> Value<'a> {
    value.part(from, to).expect(rt, "no part")
}

/// What a part of a value is.
pub(super) fn shown_part(value: &Value, from: u64, to: u64) -> Option<Shown> {
    match value.part(from, to) {
        Some(part) => Some(shown(&part)),
        None => None,
    }
}

/// How many pieces there are, each of which is this one byte.
pub(super) fn count_of<R: Abort>(rt: &R, pieces: Pieces, byte: u8) -> u64 {
    let mut count = 0u64;
    for piece in pieces {
        is(rt, piece.first().copied(), Some(byte));
        is(rt, piece.len(), 1);
        count = count.saturating_add(1);
    }
    count
}

/// Of a tree's value whether it is one slice, its length and its place; and the number of its spans, both ways.
pub(super) type Told = (bool, u64, u64, u64, u64);

pub(super) fn told_of(tree: &Tree) -> Told {
    let (is_whole, len, at) = extent(&tree.value());
    let (count, spans) = tree.counts();
    (is_whole, len, at, count, spans)
}
