//! The spans of a data tree by their numbers.

ghost use Rattle.pst_datatree.specs.Marks.{AreMarks, IsFound, IsFound-prop, start_of};
ghost use Rattle.pst_datatree.specs.PartsView.{table_of_parts, tree_of_parts};

use crate::found::{FoundPart, has_span};
use crate::look::span_count;
use crate::marks::Marks;
use crate::named::{Named, sound_in};
use crate::parts::Parts;
use crate::position::Position;
use crate::step::next_of;
use pst_block::Blocks;
use pst_bytes::Span;

/// The spans of a data tree by their numbers, in any order. It takes no memory. Spans of one part that are asked for one after
/// another cost no look-up of the part. Of the first 1,024 parts, every 32nd one is marked when it is first come to: a look-up
/// begins at the last mark that does not lie behind the span, and passes fewer than 32 parts where all before it were passed.
#[derive(Clone, Copy)]
pub struct Leaves<'a> {
    pub(crate) parts: Parts<'a>,
    // The part that was asked for last.
    found: FoundPart,
    marks: Marks,
    ghost is_found: { IsFound (table_of_parts parts) (tree_of_parts parts) found } by { IsFound-prop
        (table_of_parts parts) (tree_of_parts parts) found },
    ghost are_marks: { AreMarks (start_of (table_of_parts parts) (tree_of_parts parts)) marks },
}

impl<'a> Leaves<'a> {
    ghost use Rattle.std.specs.Prelude.{◌≡◌, ◌+◌, ◌≤◌, ◌<◌, None, IfSome, IfNone, length, slice_get};
    ghost use Rattle.pst_bytes.specs.Image.{bytes_of, IsInside};
    ghost use Rattle.pst_block.specs.Blocks.{table_of, image_of};
    ghost use Rattle.pst_datatree.specs.Data.{data_spans, data_fault};
    ghost use Rattle.pst_datatree.specs.Leaves.{leaves_spans, leaves_file, leaves_table, leaves_tree};
    ghost use Rattle.pst_datatree.specs.Marks.{AreMarks, HasSpan, IsFound, start_of};
    ghost use Rattle.pst_datatree.specs.Parts.{part_count};

    /// The spans of a block identifier's data tree, which has no fault.
    pub fn of(blocks: &Blocks<'a>, bid: u64) -> Leaves<'a>
        requires { data_fault (table_of blocks.now) bid ≡ None }
        ensures spans { leaves_spans result ≡ data_spans (table_of blocks.now) bid }
        ensures file { leaves_file result ≡ image_of blocks.now }
    {
        Leaves {
            parts: Parts::of(blocks, bid),
            found: FoundPart {
                part: 0,
                before: 0,
                len: 0,
                named: Named::Nothing,
            },
            marks: Marks::none(),
        }
    }

    // The part with a number, which begins behind so many spans.
    #[tactic(auto, using(crate::proofs::PartsLemmas::part_sound, crate::proofs::LeafLemmas::start_of_next, crate::proofs::DataLemmas::tree_none))]
    fn part(&self, part: u16, before: u64) -> FoundPart
        requires below { part < part_count (leaves_table self.now) (leaves_tree self.now) }
        requires start { before ≡ start_of (leaves_table self.now) (leaves_tree self.now) part }
        ensures found { IsFound (leaves_table self.now) (leaves_tree self.now) result }
        ensures before { result.before ≡ before }
        ensures behind { start_of (leaves_table self.now) (leaves_tree self.now) (part + 1) ≡
            before + result.len }
    {
        let named = sound_in(&self.parts.blocks, self.parts.bid(part));
        FoundPart {
            part,
            before,
            len: span_count(&self.parts.blocks, named),
            named,
        }
    }

    // A part from which the span with a number is sought: the last one that is marked, or that was asked for last where that is
    // nearer; and how many spans come before it.
    fn start(&self, n: u64) -> (u16, u64)
        ensures start { result.1 ≡
            start_of (leaves_table self.now) (leaves_tree self.now) result.0 }
        ensures before { result.1 ≤ n }
    {
        let (part, before) = self.marks.last(n);
        if before <= self.found.before && self.found.before <= n {
            return (self.found.part, self.found.before);
        }
        (part, before)
    }

    // The part that has the span with a number, None where none has; and the marks, with those of the parts that were passed.
    fn find(&self, n: u64) -> (Option<FoundPart>, Marks)
        ensures found { IfSome result.0 (IsFound (leaves_table self.now) (leaves_tree self.now)) }
        ensures has { IfSome result.0 (λ f. HasSpan f n) }
        ensures none { IfNone result.0 (slice_get (leaves_spans self.now) n ≡ None) }
        ensures marks { let start = start_of (leaves_table self.now) (leaves_tree self.now) in
            AreMarks start result.1 }
    {
        let count = self.parts.count();
        let mut marks = self.marks;
        let (mut part, mut before) = self.start(n);
        while part < count {
            let found = self.part(part, before);
            if has_span(&found, n) {
                return (Some(found), marks);
            }
            part += 1;
            before += found.len;
            marks.add(part, before);
        }
        (None, marks)
    }

    // The span with a number, of the part that was asked for last.
    #[tactic(auto, using(crate::proofs::LeafLemmas::found_some, crate::proofs::LeafLemmas::found_none))]
    fn here(&self, n: u64) -> Option<Span>
        requires { HasSpan self.now.found n }
        ensures value { result ≡ slice_get (leaves_spans self.now) n }
        ensures inside { IfSome result (IsInside (bytes_of (leaves_file self.now))) }
    {
        let at = Position {
            child: 0,
            leaf: n - self.found.before,
        };
        let (span, _) = next_of(&self.parts.blocks, self.found.named, at)?;
        Some(span)
    }

    /// The span with a number, from 0 on; None exactly where there is none.
    pub fn leaf(&mut self, n: u64) -> Option<Span>
        ensures value { result ≡ slice_get (leaves_spans self.old) n }
        ensures inside { IfSome result (IsInside (bytes_of (leaves_file self.old))) }
        ensures spans { leaves_spans self.new ≡ leaves_spans self.old }
        ensures file { leaves_file self.new ≡ leaves_file self.old }
    {
        if !has_span(&self.found, n) {
            let (found, marks) = self.find(n);
            self.marks = marks;
            self.found = found?;
        }
        self.here(n)
    }
}
