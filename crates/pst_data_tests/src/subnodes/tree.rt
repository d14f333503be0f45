//! One list of subnodes of a made store, and what is known of several. What they answer has no clauses but
//! that what is known is true, and an index is one of its list: a test's proof needs no more.

ghost use Rattle.std.specs.Prelude.{◌≡◌, None};
ghost use Rattle.pst_block.specs.Blocks.{table_of};
ghost use Rattle.pst_subnode.specs.declared.check.TheConstants.{LISTS};
ghost use Rattle.pst_subnode.specs.Tree.{sub_fault};

use super::*;

/// What is known of the trees of a store, and of its lists.
#[derive(Drop)]
pub(crate) struct Known<'a> {
    blocks: Blocks<'a>,
    seen: Seen,
    heights: Heights,
}

impl<'a> Known<'a> {
    ghost use Rattle.pst_block.specs.Blocks.{table_of};
    ghost use Rattle.pst_subnode.specs.Known.{AreBothTrue};

    /// Nothing yet.
    pub(crate) fn read<R: Abort>(rt: &R, alloc: Global, image: Image<'a>) -> Known<'a>
        ensures { AreBothTrue (table_of result.blocks) result.seen result.heights }
    {
        Known {
            blocks: blocks_in(rt, alloc, image),
            seen: Seen::new(alloc),
            heights: Heights::new(alloc),
        }
    }

    /// What the check of a list answers.
    pub(crate) fn check(&mut self, alloc: Global, bid: u64) -> Result<u32, Fault>
        requires { AreBothTrue (table_of self.old.blocks) self.old.seen self.old.heights }
        ensures { AreBothTrue (table_of self.new.blocks) self.new.seen self.new.heights }
    {
        check_sub(
            alloc,
            &self.blocks,
            bid,
            NODE,
            &mut self.seen,
            &mut self.heights,
        )
    }

    /// How many lists have been expanded.
    pub(crate) fn expansions(&self) -> u64 {
        self.heights.expansions()
    }

    /// The law that no block is known twice.
    pub(crate) fn keys_rise(&self) {
        self.heights.keys_rise();
    }
}

/// The same, and the faults that were met: for whoever goes on behind one.
#[derive(Drop)]
pub(crate) struct Met<'a> {
    blocks: Blocks<'a>,
    seen: Seen,
    heights: Heights,
    faults: SubFaults,
}

impl<'a> Met<'a> {
    ghost use Rattle.pst_block.specs.Blocks.{table_of};
    ghost use Rattle.pst_subnode.specs.Faults.{AreSubFaultsTrue};
    ghost use Rattle.pst_subnode.specs.Known.{AreBothTrue};

    /// Nothing yet.
    pub(crate) fn read<R: Abort>(rt: &R, alloc: Global, image: Image<'a>) -> Met<'a>
        ensures known { AreBothTrue (table_of result.blocks) result.seen result.heights }
        ensures met { AreSubFaultsTrue (table_of result.blocks) result.faults }
    {
        Met {
            blocks: blocks_in(rt, alloc, image),
            seen: Seen::new(alloc),
            heights: Heights::new(alloc),
            faults: SubFaults::new(alloc),
        }
    }

    /// What the check of a node's list answers.
    pub(crate) fn check(&mut self, alloc: Global, bid: u64, nid: u32) -> Result<u32, Fault>
        requires known { AreBothTrue (table_of self.old.blocks) self.old.seen self.old.heights }
        requires met { AreSubFaultsTrue (table_of self.old.blocks) self.old.faults }
        ensures known { AreBothTrue (table_of self.new.blocks) self.new.seen self.new.heights }
        ensures met { AreSubFaultsTrue (table_of self.new.blocks) self.new.faults }
    {
        check_sub_with(
            alloc,
            &self.blocks,
            bid,
            nid,
            &mut self.seen,
            &mut self.heights,
            &mut self.faults,
        )
    }

    /// How many lists have been expanded.
    pub(crate) fn expansions(&self) -> u64 {
        self.heights.expansions()
    }
}

/// A list without fault, and the blocks that it stands in.
#[derive(Clone, Copy)]
pub(crate) struct Tree<'a> {
    blocks: Blocks<'a>,
    bid: u64,
    ghost sound: { sub_fault (table_of blocks) LISTS bid ≡ None },
}

impl<'a> Tree<'a> {
    ghost use Rattle.pst_block.specs.Blocks.{table_of};
    ghost use Rattle.pst_subnode.specs.Index.{IsIndexOf};
    ghost use Rattle.pst_subnode.specs.List.{subs_of};

    /// The list of a block identifier.
    pub(crate) fn read<R: Abort>(rt: &R, alloc: Global, image: Image<'a>, bid: u64) -> Tree<'a> {
        let blocks = blocks_in(rt, alloc, image);
        let mut seen = Seen::new(alloc);
        let mut heights = Heights::new(alloc);
        let Ok(_) = check_sub(alloc, &blocks, bid, NODE, &mut seen, &mut heights) else {
            rt.panic("no list");
        };
        Tree { blocks, bid }
    }

    /// Its entries, by another identifier of the same block, too.
    pub(crate) fn subs(&self, bid: u64) -> Subs<'a> {
        subs(&self.blocks, bid)
    }

    /// The entry of a subnode.
    pub(crate) fn find(&self, nid: u32) -> Option<Sub> {
        find_sub(&self.blocks, self.bid, nid)
    }

    /// Whether it may have many entries.
    pub(crate) fn may_be_long(&self) -> bool {
        may_be_long(&self.blocks, self.bid)
    }

    /// The list with an index of it.
    pub(crate) fn indexed<R: Abort>(&self, rt: &R, alloc: Global) -> Indexed<'a>
        ensures { IsIndexOf result.index (subs_of (table_of result.blocks) result.bid) }
    {
        let Ok(index) = SubIndex::of(alloc, &self.blocks, self.bid) else {
            rt.panic("no memory");
        };
        Indexed {
            blocks: self.blocks,
            bid: self.bid,
            index,
        }
    }

    /// The list with an index that holds nothing.
    pub(crate) fn without_index(&self) -> Indexed<'a>
        ensures { IsIndexOf result.index (subs_of (table_of result.blocks) result.bid) }
    {
        Indexed {
            blocks: self.blocks,
            bid: self.bid,
            index: SubIndex::none(),
        }
    }
}

/// A list without fault, and an index of it.
#[derive(Drop)]
pub(crate) struct Indexed<'a> {
    blocks: Blocks<'a>,
    bid: u64,
    index: SubIndex,
    ghost sound: { sub_fault (table_of blocks) LISTS bid ≡ None },
}

impl<'a> Indexed<'a> {
    ghost use Rattle.pst_block.specs.Blocks.{table_of};
    ghost use Rattle.pst_subnode.specs.Index.{IsIndexOf};
    ghost use Rattle.pst_subnode.specs.List.{subs_of};

    /// The entry of a subnode.
    pub(crate) fn find(&self, nid: u32) -> Option<Sub>
        requires { IsIndexOf self.now.index (subs_of (table_of self.now.blocks) self.now.bid) }
    {
        find_sub_by(&self.blocks, self.bid, &self.index, nid)
    }

    /// How many entries the index holds.
    pub(crate) fn held(&self) -> usize {
        self.index.len()
    }
}
