//! One step through a data tree that has no fault.

ghost use Rattle.std.specs.Prelude.{◌≡◌, ◌+◌, ◌<◌, IfSome, None, option_map, slice_get};
ghost use Rattle.pst_bytes.specs.Image.{IsInside};
ghost use Rattle.pst_block.specs.Table.{IsWithin};
ghost use Rattle.pst_block.specs.Blocks.{table_of};
ghost use Rattle.pst_datatree.specs.Named.{IfBlock};
ghost use Rattle.pst_datatree.specs.Data.{xblock_fault, xxblock_fault, tree_fault, data_spans, data_fault};
ghost use Rattle.pst_datatree.specs.Position.{Splits, xblock_left, xxblock_left, named_left};

use crate::look::{child_count, child_entry, leaf_span, span_of, xblock_count};
use crate::named::{Named, sound_in};
use crate::position::Position;
use pst_block::{BlockEntry, Blocks};
use pst_bytes::Span;

// The same place, behind one more data block.
fn behind(at: Position) -> Position
    requires { at.leaf + 1 < 18446744073709551616 }
    ensures { result ≡ record { child = at.child; leaf = at.leaf + 1 } }
{
    Position {
        child: at.child,
        leaf: at.leaf + 1,
    }
}

// The next span of an XBLOCK, and what is behind it.
#[tactic(auto, using(crate::proofs::DataLemmas::xblock_room, crate::proofs::DataLemmas::leaf_of_xblock, crate::proofs::PositionLemmas::xblock_next, crate::proofs::PositionLemmas::xblock_end))]
fn next_of_xblock(blocks: &Blocks, entry: BlockEntry, at: Position) -> Option<(Span, Position)>
    requires within { IsWithin (table_of blocks.now).image entry }
    requires sound { xblock_fault (table_of blocks.now) entry ≡ None }
    ensures next { Splits (xblock_left (table_of blocks.now) entry) at result }
    ensures inside { IfSome result (λ n. IsInside (table_of blocks.now).image n.0) }
{
    if at.leaf >= u64::from(xblock_count(blocks, entry)) {
        return None;
    }
    let span = leaf_span(blocks, entry, at.leaf as u16);
    Some((span, behind(at)))
}

// The next span of an XXBLOCK, and what is behind it.
#[tactic(auto, using(crate::proofs::DataLemmas::xblock_room, crate::proofs::DataLemmas::leaf_of_xblock, crate::proofs::PositionLemmas::xxblock_next, crate::proofs::PositionLemmas::xxblock_pass, crate::proofs::PositionLemmas::xxblock_end))]
fn next_of_xxblock(blocks: &Blocks, entry: BlockEntry, at: Position) -> Option<(Span, Position)>
    requires within { IsWithin (table_of blocks.now).image entry }
    requires sound { xxblock_fault (table_of blocks.now) entry ≡ None }
    ensures next { Splits (xxblock_left (table_of blocks.now) entry) at result }
    ensures inside { IfSome result (λ n. IsInside (table_of blocks.now).image n.0) }
{
    let count = child_count(blocks, entry);
    let mut place = at;
    while place.child < count {
        let holder = child_entry(blocks, entry, place.child);
        let len = u64::from(xblock_count(blocks, holder));
        if place.leaf < len {
            let span = leaf_span(blocks, holder, place.leaf as u16);
            return Some((span, behind(place)));
        }
        place = Position {
            child: place.child + 1,
            leaf: place.leaf - len,
        };
    }
    None
}

// The next span of what an identifier names, and what is behind it.
#[tactic(auto, using(crate::proofs::PositionLemmas::data_block_next, crate::proofs::PositionLemmas::data_block_end))]
pub(crate) fn next_of(blocks: &Blocks, named: Named, at: Position) -> Option<(Span, Position)>
    requires within { IfBlock named (IsWithin (table_of blocks.now).image) }
    requires sound { tree_fault (table_of blocks.now) named ≡ None }
    ensures next { Splits (named_left (table_of blocks.now) named) at result }
    ensures inside { IfSome result (λ n. IsInside (table_of blocks.now).image n.0) }
{
    match named {
        Named::Nothing | Named::Missing => None,
        Named::Data(entry) => {
            if at.leaf == 0 {
                Some((span_of(entry), behind(at)))
            } else {
                None
            }
        }
        Named::Xblock(entry) => next_of_xblock(blocks, entry, at),
        Named::Xxblock(entry) => next_of_xxblock(blocks, entry, at),
    }
}

/// The span with a number of a block identifier's data tree, from 0 on; None exactly from `leaf_count` on.
#[tactic(auto, using(crate::proofs::PositionLemmas::leaf_some, crate::proofs::PositionLemmas::leaf_none), unfolding(crate::specs::Data::data_spans))]
pub fn leaf(blocks: &Blocks, bid: u64, n: u64) -> Option<Span>
    requires { data_fault (table_of blocks.now) bid ≡ None }
    ensures value { result ≡ slice_get (data_spans (table_of blocks.now) bid) n }
    ensures inside { IfSome result (IsInside (table_of blocks.now).image) }
{
    let named = sound_in(blocks, bid);
    let (span, _) = next_of(blocks, named, Position { child: 0, leaf: n })?;
    Some(span)
}
