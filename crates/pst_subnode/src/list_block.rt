//! Which block of a subnode list a block is ([MS-PST] 2.2.2.8.3.3).

ghost use Rattle.pst_block.specs.Table.{IsWithin};
ghost use Rattle.pst_block.specs.Blocks.{table_of};
ghost use Rattle.pst_subnode.specs.ListBlock.{IsListBlock};

use crate::body::body_in;
use pst_block::{BlockEntry, Blocks};
use pst_bytes::Image;
use pst_datatree::has_entries;

// A block of a subnode list, by its body.
#[derive(Clone, Copy)]
pub(crate) enum ListBlock<'a> {
    // It has entries.
    Slblock(Image<'a>),
    // It names SLBLOCKs.
    Siblock(Image<'a>),
    // It is neither: its btype or its level is another, or its entries do not fit.
    Neither,
}

// The block with an entry.
#[tactic(auto, unfolding(crate::specs::Body::is_slblock, crate::specs::Body::is_siblock))]
pub(crate) fn list_block<'a>(blocks: &Blocks<'a>, entry: BlockEntry) -> ListBlock<'a>
    requires { IsWithin (table_of blocks.now).image entry }
    ensures { IsListBlock (table_of blocks.now) entry result }
{
    let body = body_in(blocks, entry);
    if has_entries(body, 2, 0, 24) {
        ListBlock::Slblock(body)
    } else if has_entries(body, 2, 1, 16) {
        ListBlock::Siblock(body)
    } else {
        ListBlock::Neither
    }
}
