//! Values of data trees and of their parts.

ghost use Rattle.std.specs.Prelude.{◌≡◌, None, IfSome, [], ◌∷◌};
ghost use Rattle.pst_bytes.specs.Image.{bytes_of, IsInside};
ghost use Rattle.pst_block.specs.Blocks.{table_of, image_of};
ghost use Rattle.pst_datatree.specs.Data.{data_spans, data_fault, size_of};
ghost use Rattle.pst_datatree.specs.Left.{spans_left, file_of};
ghost use Rattle.pst_datatree.specs.Shown.{ShowsSpans, bytes_in, size_in, place_in};
ghost use Rattle.pst_datatree.specs.Spans.{nonempty, first_span, joined_bytes, OnlySpan};

use crate::pieces::Pieces;
use crate::value_view::Value;
use pst_block::Blocks;
use pst_bytes::{Image, Span};

// The span that alone has bytes, an empty one where none has, and None where several have.
fn only_span(pieces: Pieces) -> Option<Span>
    ensures only { OnlySpan (spans_left pieces.entry) result }
    ensures inside { IfSome result (IsInside (bytes_of (file_of pieces.entry))) }
{
    let mut rest = pieces.with_bytes();
    let Some(first) = rest.next_span() else {
        return Some(Span { at: 0, len: 0 });
    };
    if rest.next_span().is_some() {
        return None;
    }
    Some(first)
}

// The value whose spans are left.
#[tactic(auto, using(crate::proofs::ValueLemmas::bytes_of_pieces, crate::proofs::ValueLemmas::bytes_of_only, crate::proofs::ValueLemmas::size_of_only))]
pub(crate) fn value_of(pieces: Pieces<'_>) -> Value<'_>
    ensures shows { ShowsSpans (file_of pieces.entry) (spans_left pieces.entry) result }
    ensures bytes { bytes_in result ≡
        joined_bytes (bytes_of (file_of pieces.entry)) (spans_left pieces.entry) }
    ensures size { size_in result ≡ size_of (spans_left pieces.entry) }
    ensures place { place_in result ≡ (first_span (nonempty (spans_left pieces.entry))).at }
{
    match only_span(pieces) {
        Some(span) => Value::Whole(span.at, pieces.lend(span)),
        None => Value::Pieces(pieces),
    }
}

/// The value of a block identifier's data tree, which has no fault: one slice exactly where at most one of its spans has
/// bytes, and else a piece for each span.
pub fn value<'a>(blocks: &Blocks<'a>, bid: u64) -> Value<'a>
    requires { data_fault (table_of blocks.now) bid ≡ None }
    ensures shows { ShowsSpans (image_of blocks.now) (data_spans (table_of blocks.now) bid) result }
    ensures bytes { bytes_in result ≡
        joined_bytes (table_of blocks.now).image (data_spans (table_of blocks.now) bid) }
    ensures size { size_in result ≡ size_of (data_spans (table_of blocks.now) bid) }
    ensures place { place_in result ≡
        (first_span (nonempty (data_spans (table_of blocks.now) bid))).at }
{
    value_of(Pieces::new(blocks, bid))
}

/// All slices of a block identifier's data tree, which has no fault: one for each span, in order.
pub fn spans<'a>(blocks: &Blocks<'a>, bid: u64) -> Pieces<'a>
    requires { data_fault (table_of blocks.now) bid ≡ None }
    ensures spans { spans_left result ≡ data_spans (table_of blocks.now) bid }
    ensures file { file_of result ≡ image_of blocks.now }
{
    Pieces::new(blocks, bid)
}

/// The value that has no span: an empty slice, at no place.
pub fn empty_value(image: Image<'_>) -> Value<'_>
    ensures shows { ShowsSpans image.entry [] result }
    ensures bytes { bytes_in result ≡ [] }
    ensures size { size_in result ≡ 0 }
    ensures place { place_in result ≡ 0 }
{
    Value::Whole(0, image.slice(Span { at: 0, len: 0 }))
}

/// The value of one span of the file, without a copy.
pub fn value_at(image: Image<'_>, span: Span) -> Value<'_>
    requires { IsInside (bytes_of image) span }
    ensures shows { ShowsSpans image.entry (span ∷ []) result }
    ensures bytes { bytes_in result ≡ joined_bytes (bytes_of image.entry) (span ∷ []) }
    ensures size { size_in result ≡ size_of (span ∷ []) }
    ensures place { place_in result ≡ (first_span (nonempty (span ∷ []))).at }
{
    if span.len == 0 {
        return empty_value(image);
    }
    Value::Whole(span.at, image.slice(span))
}
