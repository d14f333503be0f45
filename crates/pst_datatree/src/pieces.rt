//! The slices of a data tree, one for each span.

ghost use Rattle.std.specs.Prelude.{◌≡◌, ◌+◌, ◌^◌, ◌<◌, None};
ghost use Rattle.pst_block.specs.Table.{IsWithin, AreWithin};
ghost use Rattle.pst_block.specs.Blocks.{table_of};
ghost use Rattle.pst_datatree.specs.Named.{IfBlock, IfWithin-prop};
ghost use Rattle.pst_datatree.specs.Data.{size_of, tree_fault};
ghost use Rattle.pst_datatree.specs.Position.{named_left};
ghost use Rattle.pst_datatree.specs.Cut.{shown};

use crate::look::data_size;
use crate::named::{Named, sound_in};
use crate::pass::pass_all;
use crate::position::Position;
use crate::step::next_of;
use pst_block::Blocks;
use pst_bytes::Span;

/// The slices of a data tree in order, one for each span: empty ones too, and one that is named twice as often as it is
/// named. Or those of a part of its bytes: then each has a byte. Going through all of them takes one step for each block,
/// and no memory.
#[derive(Clone, Copy)]
pub struct Pieces<'a> {
    pub(crate) blocks: Blocks<'a>,
    // What the tree's block identifier names.
    pub(crate) named: Named,
    pub(crate) at: Position,
    // Whether all spans from here on are shown, or a part of their bytes.
    pub(crate) whole: bool,
    // How many bytes come before the part.
    pub(crate) skip: u64,
    // How many bytes are shown.
    pub(crate) left: u64,
    ghost sound: { tree_fault (table_of blocks) named ≡ None },
    ghost there: { IfBlock named (IsWithin (table_of blocks).image) } by { IfWithin-prop
        (table_of blocks).image named },
    ghost within: { AreWithin (table_of blocks) },
    ghost counted: { left ≡
        size_of (shown whole skip left (named_left (table_of blocks) named at)) },
    ghost small: { skip + left < 2 ^ 64 },
}

impl<'a> Pieces<'a> {
    ghost use Rattle.std.specs.Prelude.{◌-◌, ◌≤◌, IfSome, IsOk, Option, [], ◌∷◌, true, false, length, slice_range};
    ghost use Rattle.std.specs.Iterator.{YieldsFirst};
    ghost use Rattle.std.specs.List.{concat};
    ghost use Rattle.pst_bytes.specs.Image.{bytes_of, bytes_at, IsInside, IsPartOf};
    ghost use Rattle.pst_block.specs.Blocks.{image_of};
    ghost use Rattle.pst_datatree.specs.Data.{data_spans, data_fault};
    ghost use Rattle.pst_datatree.specs.Cut.{cut};
    ghost use Rattle.pst_datatree.specs.Spans.{joined_bytes, nonempty, AreInside};
    ghost use Rattle.pst_datatree.specs.Left.{spans_left, slices_left, file_of};
    ghost use Rattle.pst_datatree.specs.After.{IsAfter};

    // All slices of a data tree.
    #[tactic(auto, using(crate::proofs::PositionLemmas::named_from_start), unfolding(crate::specs::Data::data_spans))]
    pub(crate) fn new(blocks: &Blocks<'a>, bid: u64) -> Pieces<'a>
        requires { data_fault (table_of blocks.now) bid ≡ None }
        ensures spans { spans_left result ≡ data_spans (table_of blocks.now) bid }
        ensures file { file_of result ≡ image_of blocks.now }
    {
        blocks.lie_within();
        let named = sound_in(blocks, bid);
        let left = data_size(blocks, named);
        Pieces {
            blocks: *blocks,
            named,
            at: Position { child: 0, leaf: 0 },
            whole: true,
            skip: 0,
            left,
        }
    }

    // The first span of all that are left, and what is left behind it.
    #[tactic(auto, using(crate::proofs::CutLemmas::size_of_cons))]
    fn after_whole(self) -> Option<(Span, Pieces<'a>)>
        requires { self.whole ≡ true }
        ensures after { IsAfter (spans_left self.entry) (file_of self.entry) result }
        ensures inside { IfSome result (λ n. IsInside (bytes_of (file_of self.entry)) n.0) }
    {
        let (span, at) = next_of(&self.blocks, self.named, self.at)?;
        Some((
            span,
            Pieces {
                blocks: self.blocks,
                named: self.named,
                at,
                whole: true,
                skip: self.skip,
                left: self.left - span.len,
            },
        ))
    }

    // The first span of a part of the bytes that are left, and what is left behind it.
    #[tactic(auto, using(crate::proofs::CutLemmas::size_of_cons, crate::proofs::CutLemmas::cut_past, crate::proofs::CutLemmas::cut_here, crate::proofs::CutLemmas::cut_none, crate::proofs::CutLemmas::cut_nil))]
    fn after_part(self) -> Option<(Span, Pieces<'a>)>
        requires { self.whole ≡ false }
        ensures after { IsAfter (spans_left self.entry) (file_of self.entry) result }
        ensures inside { IfSome result (λ n. IsInside (bytes_of (file_of self.entry)) n.0) }
    {
        if self.left == 0 {
            return None;
        }
        let (mut place, mut skip) = pass_all(&self.blocks, self.named, self.at, self.skip);
        while let Some((span, behind)) = next_of(&self.blocks, self.named, place) {
            if skip < span.len {
                let len = self.left.min(span.len - skip);
                let part = Span {
                    at: span.at + skip,
                    len,
                };
                return Some((part, self.part_from(behind, 0, self.left - len)));
            }
            let (next, rest) = pass_all(&self.blocks, self.named, behind, skip - span.len);
            place = next;
            skip = rest;
        }
        None
    }

    // So many bytes from a position on, behind some that are passed over.
    fn part_from(self, at: Position, skip: u64, left: u64) -> Pieces<'a>
        requires counted { left ≡
            size_of (cut skip (skip + left) (named_left (table_of self.blocks) self.named at)) }
        requires small { skip + left < 2 ^ 64 }
        ensures spans { spans_left result ≡
            cut skip (skip + left) (named_left (table_of self.entry.blocks) self.entry.named at) }
        ensures file { file_of result ≡ file_of self.entry }
    {
        Pieces {
            blocks: self.blocks,
            named: self.named,
            at,
            whole: false,
            skip,
            left,
        }
    }

    /// The next span, whose slice `next` would give.
    pub fn next_span(&mut self) -> Option<Span>
        ensures steps { YieldsFirst spans_left self.old result self.new }
        ensures file { file_of self.new ≡ file_of self.old }
        ensures inside { IfSome result (IsInside (bytes_of (file_of self.old))) }
    {
        let after = if self.whole {
            self.after_whole()
        } else {
            self.after_part()
        };
        let (span, rest) = after?;
        *self = rest;
        Some(span)
    }

    // The bytes of a span.
    pub(crate) fn lend(&self, span: Span) -> &'a [u8]
        requires { IsInside (bytes_of (file_of self.now)) span }
        ensures value { result.now ≡ bytes_at (bytes_of (file_of self.now)) span }
        ensures own { IsPartOf (file_of self.now) span result }
    {
        self.blocks.lend(span)
    }

    // All spans that are left lie in the file.
    fn lie_inside(&self)
        ensures { AreInside (bytes_of (file_of self.now)) (spans_left self.now) }
    {}

    /// How many bytes are left, in all spans together.
    #[tactic(auto, using(crate::proofs::PartLemmas::length_of_slices))]
    pub fn size(&self) -> u64
        ensures size { result ≡ size_of (spans_left self.now) }
        ensures bytes { result ≡ length (concat (slices_left self.now)) }
    {
        self.lie_inside();
        self.left
    }

    // The spans with bytes among those that are left.
    #[tactic(auto, using(crate::proofs::PassLemmas::nonempty_is_cut))]
    pub(crate) fn with_bytes(&self) -> Pieces<'a>
        ensures spans { spans_left result ≡ nonempty (spans_left self.now) }
        ensures file { file_of result ≡ file_of self.now }
    {
        self.part(0, self.left)
    }

    // A part of the bytes that are left.
    #[tactic(auto, using(crate::proofs::CutLemmas::size_of_part, crate::proofs::CutLemmas::size_of_parts_part, crate::proofs::CutLemmas::part_of_whole, crate::proofs::CutLemmas::part_of_part, crate::proofs::PartLemmas::bytes_of_cut))]
    pub(crate) fn part(&self, from: u64, to: u64) -> Pieces<'a>
        requires order { from ≤ to }
        requires within { to ≤ size_of (spans_left self.now) }
        ensures spans { spans_left result ≡ cut from to (spans_left self.now) }
        ensures file { file_of result ≡ file_of self.now }
        ensures bytes { joined_bytes (bytes_of (file_of self.now))
            (cut from to (spans_left self.now)) ≡
            slice_range (joined_bytes (bytes_of (file_of self.now)) (spans_left self.now)) from to }
    {
        self.lie_inside();
        if self.whole {
            self.part_from(self.at, from, to - from)
        } else {
            self.part_from(self.at, self.skip + from, to - from)
        }
    }
}

impl<'a> Iterator for Pieces<'a> {
    type Item = &'a [u8];

    ghost use Rattle.std.specs.Iterator.{item_count};
    ghost use Rattle.pst_datatree.specs.Left.{slices_left, TakesSlice};

    ghost next_gives = { TakesSlice };

    ghost remaining = { item_count slices_left };

    fn next(&mut self) -> Option<&'a [u8]> {
        let span = self.next_span()?;
        Some(self.lend(span))
    }
}
