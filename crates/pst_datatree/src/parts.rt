//! The parts of a data tree.

ghost use Rattle.std.specs.Prelude.{◌≡◌, ◌<◌, None};
ghost use Rattle.pst_block.specs.Table.{IsWithin};
ghost use Rattle.pst_block.specs.Blocks.{table_of};
ghost use Rattle.pst_datatree.specs.Data.{tree_fault, data_fault};
ghost use Rattle.pst_datatree.specs.Parts.{named_count, named_part};
ghost use Rattle.pst_datatree.specs.Named.{named_by, IfBlock, IfWithin-prop};

use crate::list::{bid_at, body_in};
use crate::look::child_count;
use crate::named::{Named, sound_in};
use crate::pieces::Pieces;
use pst_block::Blocks;

/// The parts of a data tree that has no fault: of an XXBLOCK the XBLOCKs that it names, in order and as often as it names them;
/// what is no XXBLOCK is one part, itself. So whoever remembers parts by their identifiers need not go through the spans of one
/// that is shared.
#[derive(Clone, Copy)]
pub struct Parts<'a> {
    pub(crate) blocks: Blocks<'a>,
    pub(crate) bid: u64,
    // What it names.
    named: Named,
    ghost sound: { data_fault (table_of blocks) bid ≡ None },
    ghost named_is: { named ≡ named_by (table_of blocks) bid },
    ghost there: { IfBlock named (IsWithin (table_of blocks).image) } by { IfWithin-prop
        (table_of blocks).image named },
}

// How many parts what an identifier names has.
fn count_of(blocks: &Blocks, named: Named) -> u16
    requires within { IfBlock named (IsWithin (table_of blocks.now).image) }
    requires sound { tree_fault (table_of blocks.now) named ≡ None }
    ensures { result ≡ named_count (table_of blocks.now) named }
{
    match named {
        Named::Nothing | Named::Missing | Named::Data(_) | Named::Xblock(_) => 1,
        Named::Xxblock(entry) => child_count(blocks, entry),
    }
}

// The block identifier of the part with a number of what an identifier names.
#[tactic(auto, using(crate::proofs::DataLemmas::xxblock_fits))]
fn bid_of(blocks: &Blocks, bid: u64, named: Named, i: u16) -> u64
    requires within { IfBlock named (IsWithin (table_of blocks.now).image) }
    requires sound { tree_fault (table_of blocks.now) named ≡ None }
    requires below { i < named_count (table_of blocks.now) named }
    ensures { result ≡ named_part (table_of blocks.now) bid named i }
{
    match named {
        Named::Nothing | Named::Missing | Named::Data(_) | Named::Xblock(_) => bid,
        Named::Xxblock(entry) => bid_at(body_in(blocks, entry), i),
    }
}

impl<'a> Parts<'a> {
    ghost use Rattle.std.specs.Prelude.{◌≡◌, ◌<◌, None};
    ghost use Rattle.pst_block.specs.Blocks.{table_of, image_of};
    ghost use Rattle.pst_datatree.specs.Data.{data_fault};
    ghost use Rattle.pst_datatree.specs.Left.{spans_left, file_of};
    ghost use Rattle.pst_datatree.specs.Parts.{HasParts, part_count, part_in, part_spans};
    ghost use Rattle.pst_datatree.specs.PartsView.{table_of_parts, tree_of_parts, image_of_parts};

    /// The parts of a block identifier's data tree, which has no fault.
    #[tactic(auto, using(crate::proofs::PartsLemmas::has_parts))]
    pub fn of(blocks: &Blocks<'a>, bid: u64) -> Parts<'a>
        requires { data_fault (table_of blocks.now) bid ≡ None }
        ensures table { table_of_parts result ≡ table_of blocks.now }
        ensures image { image_of_parts result ≡ image_of blocks.now }
        ensures tree { tree_of_parts result ≡ bid }
        ensures joined { HasParts (table_of blocks.now) bid }
    {
        Parts {
            blocks: *blocks,
            bid,
            named: sound_in(blocks, bid),
        }
    }

    /// How many there are.
    #[tactic(auto, using(crate::proofs::DataLemmas::tree_none), unfolding(crate::specs::Parts::part_count))]
    pub fn count(&self) -> u16
        ensures { result ≡ part_count (table_of_parts self.now) (tree_of_parts self.now) }
    {
        count_of(&self.blocks, self.named)
    }

    /// The block identifier of the one with a number, as it is written.
    #[tactic(auto, using(crate::proofs::DataLemmas::tree_none), unfolding(crate::specs::Parts::part_count, crate::specs::Parts::part_in))]
    pub fn bid(&self, i: u16) -> u64
        requires { i < part_count (table_of_parts self.now) (tree_of_parts self.now) }
        ensures { result ≡ part_in (table_of_parts self.now) (tree_of_parts self.now) i }
    {
        bid_of(&self.blocks, self.bid, self.named, i)
    }

    /// The slices of the one with a number, one for each span, in order; and with `next_span` the spans.
    #[tactic(auto, using(crate::proofs::PartsLemmas::part_sound))]
    pub fn spans(&self, i: u16) -> Pieces<'a>
        requires { i < part_count (table_of_parts self.now) (tree_of_parts self.now) }
        ensures spans { spans_left result ≡
            part_spans (table_of_parts self.now) (tree_of_parts self.now) i }
        ensures file { file_of result ≡ image_of_parts self.now }
    {
        Pieces::new(&self.blocks, self.bid(i))
    }
}
