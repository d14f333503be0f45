//! The entries of a subnode list, one after another.

ghost use Rattle.std.specs.Prelude.{◌≡◌, ◌+◌, ◌*◌, ◌<◌, ◌≤◌, length};
ghost use Rattle.pst_bytes.specs.Image.{bytes_of};
ghost use Rattle.pst_datatree.specs.List.{count_in};

use crate::body::{bid_at, sub_at};
use crate::list_block::{ListBlock, list_block};
use crate::sub::Sub;
use pst_block::{BlockEntry, Blocks};
use pst_bytes::Image;
use pst_datatree::is_no_block;

// The entries of a block that are left: from one on, so many.
#[derive(Clone, Copy)]
struct Rest<'a> {
    body: Image<'a>,
    next: u16,
    left: u16,
}

impl<'a> Rest<'a> {
    // Nothing is left.
    fn none() -> Rest<'a>
        ensures { result.left ≡ 0 }
    {
        Rest {
            body: Image::new(&[]),
            next: 0,
            left: 0,
        }
    }

    // All entries of a body.
    fn all(body: Image<'a>) -> Rest<'a>
        requires { 8 ≤ length (bytes_of body) }
        ensures body { result.body ≡ body.entry }
        ensures next { result.next ≡ 0 }
        ensures left { result.left ≡ count_in (bytes_of body.entry) }
    {
        Rest {
            body,
            next: 0,
            left: body.number16(2),
        }
    }

    // What is left after the first.
    fn behind(self) -> Rest<'a>
        requires some { 0 < self.left }
        requires few { self.next + self.left < 65536 }
        ensures body { result.body ≡ self.entry.body }
        ensures next { result.next ≡ self.entry.next + 1 }
        ensures left { result.left + 1 ≡ self.entry.left }
    {
        Rest {
            body: self.body,
            next: self.next + 1,
            left: self.left - 1,
        }
    }
}

/// The entries of a subnode list that are left, in order: a `Sub` each. It keeps its places in an SIBLOCK and in the SLBLOCK
/// that is open, and takes no memory.
#[derive(Clone, Copy)]
pub struct Subs<'a> {
    blocks: Blocks<'a>,
    // Of the SLBLOCK that is open.
    entries: Rest<'a>,
    // Of the SIBLOCK: the SLBLOCKs that come after it.
    leaves: Rest<'a>,
    ghost entries_few: { entries.next + entries.left < 65536 },
    ghost leaves_few: { leaves.next + leaves.left < 65536 },
    ghost entries_fit: { 0 < entries.left → 8 + 24 * (entries.next + entries.left)
        ≤ length (bytes_of entries.body) },
    ghost leaves_fit: { 0 < leaves.left → 8 + 16 * (leaves.next + leaves.left)
        ≤ length (bytes_of leaves.body) },
}

impl<'a> Subs<'a> {
    ghost use Rattle.std.specs.Prelude.{◌≡◌, ◌+◌, ◌<◌, true, false, [], ◌∷◌};
    ghost use Rattle.pst_block.specs.Table.{IsWithin, entry_of};
    ghost use Rattle.pst_block.specs.Blocks.{table_of};
    ghost use Rattle.pst_fault.specs.First.{join_below};
    ghost use Rattle.pst_subnode.specs.List.{subs_at, slblock_subs, leaf_subs, block_subs, subs_of};
    ghost use Rattle.pst_subnode.specs.Body.{subs_in};
    ghost use Rattle.pst_subnode.specs.Left.{subs_left};

    // No entries.
    #[tactic(auto, using(crate::proofs::LeftLemmas::none_left))]
    fn none(blocks: &Blocks<'a>) -> Subs<'a>
        ensures left { subs_left result ≡ [] }
        ensures blocks { result.blocks ≡ blocks.now }
        ensures leaves { result.leaves.left ≡ 0 }
    {
        Subs {
            blocks: *blocks,
            entries: Rest::none(),
            leaves: Rest::none(),
        }
    }

    // The entries of an SLBLOCK's body.
    #[tactic(auto, using(crate::proofs::LeftLemmas::first_left), unfolding(crate::specs::Body::subs_in))]
    fn of_entries(blocks: &Blocks<'a>, body: Image<'a>) -> Subs<'a>
        requires { 8 + 24 * count_in (bytes_of body) ≤ length (bytes_of body) }
        ensures left { subs_left result ≡ subs_in (bytes_of body.entry) }
        ensures blocks { result.blocks ≡ blocks.now }
        ensures leaves { result.leaves.left ≡ 0 }
    {
        Subs {
            blocks: *blocks,
            entries: Rest::all(body),
            leaves: Rest::none(),
        }
    }

    // The entries of the SLBLOCKs that an SIBLOCK's body names.
    #[tactic(auto, using(crate::proofs::LeftLemmas::second_left))]
    fn of_leaves(blocks: &Blocks<'a>, body: Image<'a>) -> Subs<'a>
        requires { 8 + 16 * count_in (bytes_of body) ≤ length (bytes_of body) }
        ensures { subs_left result ≡ join_below
            (leaf_subs (table_of blocks.now) (bytes_of body.entry))
            (count_in (bytes_of body.entry)) }
    {
        Subs {
            blocks: *blocks,
            entries: Rest::none(),
            leaves: Rest::all(body),
        }
    }

    // The entries of a block.
    #[tactic(auto, using(crate::proofs::BlockLemmas::slblock_all, crate::proofs::BlockLemmas::siblock_all, crate::proofs::BlockLemmas::neither_all))]
    pub(crate) fn of_block(blocks: &Blocks<'a>, entry: BlockEntry) -> Subs<'a>
        requires { IsWithin (table_of blocks.now).image entry }
        ensures { subs_left result ≡ block_subs (table_of blocks.now) entry }
    {
        match list_block(blocks, entry) {
            ListBlock::Slblock(body) => Subs::of_entries(blocks, body),
            ListBlock::Siblock(body) => Subs::of_leaves(blocks, body),
            ListBlock::Neither => Subs::none(blocks),
        }
    }

    // The entries of a block identifier.
    #[tactic(auto, unfolding(crate::specs::List::subs_of))]
    pub(crate) fn of_bid(blocks: &Blocks<'a>, bid: u64) -> Subs<'a>
        ensures { subs_left result ≡ subs_of (table_of blocks.now) bid }
    {
        if is_no_block(bid) {
            return Subs::none(blocks);
        }
        match blocks.entry(bid) {
            Some(entry) => Subs::of_block(blocks, entry),
            None => Subs::none(blocks),
        }
    }

    // The entries of an SLBLOCK; another block has none.
    #[tactic(auto, unfolding(crate::specs::List::slblock_subs))]
    pub(crate) fn of_slblock(blocks: &Blocks<'a>, entry: BlockEntry) -> Subs<'a>
        requires { IsWithin (table_of blocks.now).image entry }
        ensures left { subs_left result ≡ slblock_subs (table_of blocks.now) entry }
        ensures blocks { result.blocks ≡ blocks.now }
        ensures leaves { result.leaves.left ≡ 0 }
    {
        match list_block(blocks, entry) {
            ListBlock::Slblock(body) => Subs::of_entries(blocks, body),
            _ => Subs::none(blocks),
        }
    }

    // The same, by its identifier.
    pub(crate) fn of_leaf(blocks: &Blocks<'a>, bid: u64) -> Subs<'a>
        ensures left { subs_left result ≡
            subs_at (slblock_subs (table_of blocks.now)) (entry_of (table_of blocks.now) bid) }
        ensures blocks { result.blocks ≡ blocks.now }
        ensures leaves { result.leaves.left ≡ 0 }
    {
        match blocks.entry(bid) {
            Some(entry) => Subs::of_slblock(blocks, entry),
            None => Subs::none(blocks),
        }
    }

    // The same entries, where those of the open SLBLOCK are used up: the next SLBLOCK is opened.
    fn with_next_leaf(self) -> Subs<'a>
        requires used { self.entries.left ≡ 0 }
        requires more { 0 < self.leaves.left }
        ensures same { subs_left result ≡ subs_left self.entry }
        ensures fewer { result.leaves.left + 1 ≡ self.entry.leaves.left }
    {
        let bid = bid_at(self.leaves.body, self.leaves.next);
        let leaf = Subs::of_leaf(&self.blocks, bid);
        Subs {
            blocks: self.blocks,
            entries: leaf.entries,
            leaves: self.leaves.behind(),
        }
    }

    // The same entries, the first of them in the open SLBLOCK, if there are any.
    #[tactic(auto, using(crate::proofs::LeftLemmas::none_left))]
    fn opened(self) -> Subs<'a>
        ensures same { subs_left result ≡ subs_left self.entry }
        ensures open { result.entries.left ≡ 0 → subs_left result ≡ [] }
    {
        let mut subs = self;
        while subs.entries.left == 0 && subs.leaves.left > 0 {
            subs = subs.with_next_leaf();
        }
        subs
    }

    // Whether an entry is left. The first one is in the open SLBLOCK from then on.
    fn has_first(&mut self) -> bool
        ensures same { subs_left self.new ≡ subs_left self.old }
        ensures some { result ≡ true → 0 < self.new.entries.left }
        ensures none { result ≡ false → subs_left self.new ≡ [] }
    {
        if self.entries.left > 0 {
            return true;
        }
        *self = self.opened();
        self.entries.left > 0
    }

    // The first entry, which is in the open SLBLOCK, is taken.
    fn take_first(&mut self) -> Sub
        requires { 0 < self.old.entries.left }
        ensures { subs_left self.old ≡ result ∷ subs_left self.new }
    {
        let sub = sub_at(self.entries.body, self.entries.next);
        self.entries = self.entries.behind();
        sub
    }
}

impl<'a> Iterator for Subs<'a> {
    ghost use Rattle.std.specs.Prelude.{◌≡◌};
    ghost use Rattle.std.specs.Iterator.{YieldsFirst, item_count};
    ghost use Rattle.pst_subnode.specs.Left.{subs_left};

    type Item = Sub;

    ghost next_gives = { YieldsFirst subs_left };

    ghost remaining = { item_count subs_left };

    fn next(&mut self) -> Option<Sub> {
        if !self.has_first() {
            return None;
        }
        Some(self.take_first())
    }
}
