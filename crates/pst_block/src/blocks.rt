//! The blocks of a file, checked once.

ghost use Rattle.std.specs.Prelude.{◌≡◌, ◌^◌, ◌<◌, ◌≤◌, length, None};
ghost use Rattle.pst_bytes.specs.Image.{bytes_of};
ghost use Rattle.pst_block.specs.Source.{file_in, entries_in};
ghost use Rattle.pst_block.specs.Walk.{blocks_fault};

use crate::read::body_in;
use crate::size::body_span;
use crate::source::Source;
use pst_btree::BlockList;
use pst_bytes::{Image, Span};
use pst_page::BlockEntry;

/// Blocks of a file, all of them good: all that its block B-tree names, or some that were gathered. A block is looked up by
/// its identifier, whose bit 0 is ignored ([MS-PST] 2.2.2.2).
#[derive(Clone, Copy)]
pub struct Blocks<'a> {
    pub(crate) source: Source<'a>,
    // The end of the mapped part.
    pub(crate) end: u64,
    ghost small: { length (bytes_of (file_in source)) < 2 ^ 64 },
    ghost inside: { end ≤ length (bytes_of (file_in source)) },
    ghost good: { blocks_fault end (bytes_of (file_in source)) (entries_in source) ≡ None },
}

impl<'a> Blocks<'a> {
    ghost use Rattle.std.specs.Prelude.{◌≡◌, ◌≤◌, length, None, Some, IfSome, option_map};
    ghost use Rattle.pst_bytes.specs.Image.{bytes_of, bytes_at, IsInside, IsPartOf};
    ghost use Rattle.pst_btree.specs.Lists.{listed_blocks};
    ghost use Rattle.pst_block.specs.Block.{body_span};
    ghost use Rattle.pst_block.specs.Good.{GoodBlock};
    ghost use Rattle.pst_block.specs.Table.{table_with, entry_of, body_of, IsWithin, AreWithin};
    ghost use Rattle.pst_block.specs.Blocks.{table_of, image_of, blocks_end};
    ghost use Rattle.pst_block.specs.Walk.{blocks_fault};

    /// The blocks of entries that were gathered, in a mapped part that ends at `end`, an offset in the file. Each of them has
    /// to be known to be good. Nothing is checked.
    #[tactic(auto, unfolding(crate::specs::Source::file_in, crate::specs::Source::entries_in))]
    pub fn known(image: Image<'a>, end: u64, entries: BlockList<'a>) -> Blocks<'a>
        requires inside { end ≤ length (bytes_of image) }
        requires good { blocks_fault end (bytes_of image) (listed_blocks entries) ≡ None }
        ensures image { image_of result ≡ image.entry }
        ensures table { table_of result ≡
            table_with (bytes_of image.entry) (listed_blocks entries.entry) }
        ensures end { blocks_end result ≡ end }
    {
        Blocks {
            source: Source::Gathered(image, entries),
            end,
        }
    }

    /// The file.
    pub fn image(&self) -> Image<'a>
        ensures bytes { bytes_of result ≡ (table_of self.now).image }
        ensures same { result ≡ image_of self.now }
    {
        self.source.image()
    }

    /// The entry of a block.
    #[tactic(auto, unfolding(crate::specs::Table::entry_of), using(crate::proofs::TableLemmas::found_good, crate::proofs::TableLemmas::found_within, crate::proofs::TableLemmas::found_same))]
    pub fn entry(&self, bid: u64) -> Option<BlockEntry>
        ensures value { result ≡ entry_of (table_of self.now) bid }
        ensures good { IfSome result (GoodBlock (table_of self.now).image (blocks_end self.now)) }
        ensures within { IfSome result (IsWithin (table_of self.now).image) }
        ensures same { IfSome result (λ e. entry_of (table_of self.now) e.bid ≡ Some e) }
    {
        self.source.find(bid)
    }

    /// A law of all blocks: the body of each lies in the file.
    pub fn lie_within(&self)
        ensures { AreWithin (table_of self.now) }
    {}

    /// Where the body of a block lies; None exactly where there is no such block.
    pub fn span(&self, bid: u64) -> Option<Span>
        ensures value { result ≡ option_map body_span (entry_of (table_of self.now) bid) }
        ensures inside { IfSome result (IsInside (table_of self.now).image) }
    {
        let entry = self.entry(bid)?;
        Some(body_span(entry))
    }

    /// The body of a block, in the file's own memory; None exactly where there is no such block.
    pub fn body(&self, bid: u64) -> Option<&'a [u8]>
        ensures value { option_map (λ s. s.now) result ≡
            option_map (body_of (table_of self.now)) (entry_of (table_of self.now) bid) }
        ensures own { IfSome result (λ s. IfSome (entry_of (table_of self.now) bid) (λ e.
            IsPartOf (image_of self.now) (body_span e) s)) }
    {
        let entry = self.entry(bid)?;
        Some(self.body_at(entry))
    }

    /// The body of an entry's block, in the file's own memory.
    #[tactic(auto, unfolding(crate::specs::Table::body_of))]
    pub fn body_at(&self, entry: BlockEntry) -> &'a [u8]
        requires { IsWithin (table_of self.now).image entry }
        ensures value { result.now ≡ body_of (table_of self.now) entry }
        ensures own { IsPartOf (image_of self.now) (body_span entry) result }
    {
        body_in(self.image(), entry)
    }

    /// The bytes of a span, in the file's own memory.
    pub fn lend(&self, span: Span) -> &'a [u8]
        requires { IsInside (table_of self.now).image span }
        ensures value { result.now ≡ bytes_at (table_of self.now).image span }
        ensures own { IsPartOf (image_of self.now) span result }
    {
        self.image().slice(span)
    }
}
