//! One data tree of a made store, and what is known of several. What they answer has no clauses but
//! that what is known is true: a test's proof needs no more.

use super::*;

/// A data tree without fault, and the blocks that it stands in.
#[derive(Clone, Copy)]
pub(crate) struct Tree<'a> {
    blocks: Blocks<'a>,
    bid: u64,
    ghost sound: { data_fault (table_of blocks) bid ≡ None },
}

ghost use Rattle.std.specs.Prelude.{◌≡◌, None};
ghost use Rattle.pst_block.specs.Blocks.{table_of};
ghost use Rattle.pst_datatree.specs.Data.{data_fault};

impl<'a> Tree<'a> {
    /// The data tree of a block identifier.
    pub(crate) fn read<R: Abort>(rt: &R, alloc: Global, image: Image<'a>, bid: u64) -> Tree<'a> {
        let blocks = blocks_in(rt, alloc, image);
        let mut seen = Seen::new(alloc);
        let Ok(()) = check_data(alloc, &blocks, bid, NODE, &mut seen) else {
            rt.panic("no data tree");
        };
        Tree { blocks, bid }
    }

    /// Its value.
    pub(crate) fn value(&self) -> Value<'a> {
        value(&self.blocks, self.bid)
    }

    /// Its slices.
    pub(crate) fn spans(&self) -> Pieces<'a> {
        spans(&self.blocks, self.bid)
    }

    /// How many spans it has.
    pub(crate) fn leaf_count(&self) -> u64 {
        leaf_count(&self.blocks, self.bid)
    }

    /// The same, and how many come one after another.
    pub(crate) fn counts(&self) -> (u64, u64) {
        let count = leaf_count(&self.blocks, self.bid);
        let spans = spans(&self.blocks, self.bid).count();
        (count, spans as u64)
    }

    /// The span with a number.
    pub(crate) fn leaf(&self, n: u64) -> Option<Span> {
        leaf(&self.blocks, self.bid, n)
    }

    /// Its spans by their numbers.
    pub(crate) fn leaves(&self) -> Leaves<'a> {
        Leaves::of(&self.blocks, self.bid)
    }

    /// Its parts.
    pub(crate) fn parts(&self) -> Parts<'a> {
        Parts::of(&self.blocks, self.bid)
    }
}

/// What is known of the data trees of a store.
#[derive(Drop)]
pub(crate) struct Known<'a> {
    blocks: Blocks<'a>,
    seen: Seen,
}

impl<'a> Known<'a> {
    ghost use Rattle.pst_block.specs.Blocks.{table_of};
    ghost use Rattle.pst_datatree.specs.Seen.{IsSeenTrue};

    /// Nothing yet.
    pub(crate) fn read<R: Abort>(rt: &R, alloc: Global, image: Image<'a>) -> Known<'a>
        ensures { IsSeenTrue (table_of result.blocks) result.seen }
    {
        let blocks = blocks_in(rt, alloc, image);
        let seen = Seen::new(alloc);
        Known { blocks, seen }
    }

    /// What the check of a data tree answers.
    pub(crate) fn check(&mut self, alloc: Global, bid: u64, nid: u32) -> Option<Fault>
        requires { IsSeenTrue (table_of self.old.blocks) self.old.seen }
        ensures { IsSeenTrue (table_of self.new.blocks) self.new.seen }
    {
        check_data(alloc, &self.blocks, bid, nid, &mut self.seen).err()
    }

    /// A data tree without fault.
    pub(crate) fn tree<R: Abort>(&mut self, rt: &R, alloc: Global, bid: u64) -> Tree<'a>
        requires { IsSeenTrue (table_of self.old.blocks) self.old.seen }
        ensures { IsSeenTrue (table_of self.new.blocks) self.new.seen }
    {
        let Ok(()) = check_data(alloc, &self.blocks, bid, NODE, &mut self.seen) else {
            rt.panic("no data tree");
        };
        let blocks = self.blocks;
        Tree { blocks, bid }
    }

    /// How many internal blocks have been expanded.
    pub(crate) fn expansions(&self) -> u64 {
        self.seen.expansions()
    }

    /// The law that no block is known twice.
    pub(crate) fn keys_rise(&self) {
        self.seen.keys_rise();
    }
}
