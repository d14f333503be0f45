//! The block B-tree.

ghost use Rattle.std.specs.Prelude.{◌≡◌};
ghost use Rattle.pst_page.specs.declared.kind.PageKind.TheVariants.{Bbt};

use crate::descend::find_steps;
use crate::tree::TreeView;
use pst_bytes::Image;
use pst_page::{BlockEntry, PageKind, block_entry_at};

/// The block B-tree of a file, walked without fault ([MS-PST] 2.2.2.7.7).
#[derive(Clone, Copy)]
pub struct BlockTree<'a> {
    pub(crate) view: TreeView<'a>,
    ghost kind: { view.kind ≡ Bbt },
}

impl<'a> BlockTree<'a> {
    ghost use Rattle.std.specs.Prelude.{◌≡◌, ◌+◌, ◌≤◌, length, option_map, OnSome};
    ghost use Rattle.pst_page.specs.declared.kind.PageKind.TheVariants.{Bbt};
    ghost use Rattle.pst_page.specs.Entry.{key_of, block_entry_at as entry_at};
    ghost use Rattle.pst_btree.specs.Entries.{block_with};
    ghost use Rattle.pst_btree.specs.Find.{first_at};
    ghost use Rattle.pst_btree.specs.Tree.{pages_of};
    ghost use Rattle.pst_btree.specs.View.{bytes_of_view, tree_of, entries};
    ghost use Rattle.pst_btree.specs.Trees.{block_view, block_entries, file_of_blocks};

    /// The entry of a block, by its identifier with its bit 0 ignored; and how many pages were decoded: the pages of one
    /// path, `level() + 1` where the block is there, and never more.
    #[tactic(auto, using(crate::proofs::EntryLemmas::block_with_first))]
    pub fn find_steps(&self, bid: u64) -> (Option<BlockEntry>, u32)
        // The entry with that key, and by its place.
        ensures entry { result.0 ≡ block_with (key_of Bbt bid) (block_entries self.now) }
        ensures place { result.0 ≡ option_map (entry_at (bytes_of_view (block_view self.now)))
            (first_at Bbt (bytes_of_view (block_view self.now))
            (key_of Bbt bid) (entries (block_view self.now))) }

        // How many pages.
        ensures most { result.1 ≤ (block_view self.now).level + 1 }
        ensures all { OnSome result.0 (result.1 ≡ (block_view self.now).level + 1) }
    {
        let (place, steps) = find_steps(&self.view, PageKind::Bbt.key_of(bid));
        match place {
            Some(at) => (Some(block_entry_at(self.view.image, at)), steps),
            None => (None, steps),
        }
    }

    /// The entry of a block, by its identifier with its bit 0 ignored.
    pub fn find(&self, bid: u64) -> Option<BlockEntry>
        ensures entry { result ≡ block_with (key_of Bbt bid) (block_entries self.now) }
        ensures place { result ≡ option_map (entry_at (bytes_of_view (block_view self.now)))
            (first_at Bbt (bytes_of_view (block_view self.now))
            (key_of Bbt bid) (entries (block_view self.now))) }
    {
        self.find_steps(bid).0
    }

    /// The file that it is of.
    pub fn image(&self) -> Image<'a>
        ensures { result ≡ file_of_blocks self.now }
    {
        self.view.image
    }

    /// How many pages it has.
    pub fn pages(&self) -> u64
        ensures { result ≡ length (pages_of (tree_of (block_view self.now))) }
    {
        self.view.pages
    }

    /// The level of its root: 0 for a leaf, and at most 15.
    #[tactic(auto, using(crate::proofs::TreeLaws::low_there))]
    pub fn level(&self) -> u8
        ensures value { result ≡ (block_view self.now).level }
        ensures most { result ≤ 15 }
    {
        self.view.level
    }
}
