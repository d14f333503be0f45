//! A list that is being expanded, and what the walk of lists does next.

ghost use Rattle.std.specs.Prelude.{◌≡◌, ◌+◌, ◌<◌, max};

use crate::entries::Subs;
use pst_block::BlockEntry;

// The SLBLOCKs of an SIBLOCK that are still to be walked: those from one on, below a count.
#[derive(Clone, Copy)]
pub(crate) struct LeafBlocks {
    pub(crate) holder: BlockEntry,
    pub(crate) next: u16,
    pub(crate) count: u16,
}

impl LeafBlocks {
    // Those behind the first.
    pub(crate) fn behind(self) -> LeafBlocks
        requires { self.next < self.count }
        ensures { result ≡ record self { next = self.next + 1 } }
    {
        LeafBlocks {
            holder: self.holder,
            next: self.next + 1,
            count: self.count,
        }
    }
}

// What is still to be walked of a list: entries of an SLBLOCK, or SLBLOCKs of an SIBLOCK.
#[derive(Clone, Copy)]
pub(crate) enum Below<'a> {
    Entries(Subs<'a>),
    Leaves(LeafBlocks),
}

// A list that is being expanded, and marked as long as that takes: how many lists may nest from it on, and the greatest
// height below it so far.
#[derive(Clone, Copy)]
pub(crate) struct Frame<'a> {
    pub(crate) bid: u64,
    pub(crate) limit: u16,
    pub(crate) most: u16,
    pub(crate) below: Below<'a>,
}

impl<'a> Frame<'a> {
    // This is left of it, and this is the greatest height so far.
    pub(crate) fn left_with(self, most: u16, below: Below<'a>) -> Frame<'a>
        ensures { result ≡ record self.entry { most = most; below = below.entry } }
    {
        Frame {
            bid: self.bid,
            limit: self.limit,
            most,
            below,
        }
    }

    // What it waited for has this height.
    pub(crate) fn with_height(self, height: u16) -> Frame<'a>
        ensures bid { result.bid ≡ self.entry.bid }
        ensures limit { result.limit ≡ self.entry.limit }
        ensures most { result.most ≡ max self.entry.most height }
        ensures below { result.below ≡ self.entry.below }
    {
        Frame {
            bid: self.bid,
            limit: self.limit,
            most: self.most.max(height),
            below: self.below,
        }
    }
}

// What the walk does next: a list is expanded, or the list that was to be walked has a height.
#[derive(Clone, Copy)]
pub(crate) enum Turn<'a> {
    Expands(Frame<'a>),
    Answers(u16),
}
