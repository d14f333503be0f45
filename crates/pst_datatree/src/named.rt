//! What a block identifier names.

ghost use Rattle.std.specs.Prelude.{◌≡◌, Some, None};
ghost use Rattle.pst_block.specs.Table.{IsWithin, entry_of};
ghost use Rattle.pst_block.specs.Blocks.{table_of};
ghost use Rattle.pst_datatree.specs.Named.{named_by, IfBlock};
ghost use Rattle.pst_datatree.specs.Data.{tree_fault, data_fault};

use crate::bid::{is_internal, is_no_block};
use crate::list::{body_in, is_xxblock};
use pst_block::{BlockEntry, Blocks};

// What a block identifier names: no block, one that the block B-tree lacks, or the block with an entry.
#[derive(Clone, Copy)]
pub(crate) enum Named {
    Nothing,
    Missing,
    Data(BlockEntry),
    Xblock(BlockEntry),
    Xxblock(BlockEntry),
}

// What a block identifier names. The block B-tree has the block under its entry's identifier, too.
#[tactic(auto, unfolding(crate::specs::Named::named_by))]
pub(crate) fn named_in(blocks: &Blocks, bid: u64) -> Named
    ensures value { result ≡ named_by (table_of blocks.now) bid }
    ensures within { IfBlock result (IsWithin (table_of blocks.now).image) }
    ensures listed { IfBlock result (λ e. entry_of (table_of blocks.now) e.bid ≡ Some e) }
{
    if is_no_block(bid) {
        return Named::Nothing;
    }
    let Some(entry) = blocks.entry(bid) else {
        return Named::Missing;
    };
    if !is_internal(entry.bid) {
        Named::Data(entry)
    } else if is_xxblock(body_in(blocks, entry)) {
        Named::Xxblock(entry)
    } else {
        Named::Xblock(entry)
    }
}

// The same of a block identifier whose data tree has no fault.
#[tactic(auto, using(crate::proofs::DataLemmas::tree_none))]
pub(crate) fn sound_in(blocks: &Blocks, bid: u64) -> Named
    requires { data_fault (table_of blocks.now) bid ≡ None }
    ensures value { result ≡ named_by (table_of blocks.now) bid }
    ensures within { IfBlock result (IsWithin (table_of blocks.now).image) }
    ensures sound { tree_fault (table_of blocks.now) result ≡ None }
{
    named_in(blocks, bid)
}
