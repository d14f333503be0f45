//! Where the entries of blocks are found.

use pst_btree::{BlockEntry, BlockList, BlockTree};
use pst_bytes::Image;

/// Where the entries of blocks are found: in the pages of the block B-tree, or among some that were gathered.
#[derive(Clone, Copy)]
pub(crate) enum Source<'a> {
    /// All entries of the tree, in its file.
    Tree(BlockTree<'a>),
    /// Those that were gathered, and the file that they are of.
    Gathered(Image<'a>, BlockList<'a>),
}

impl<'a> Source<'a> {
    ghost use Rattle.std.specs.Prelude.{◌≡◌};
    ghost use Rattle.pst_btree.specs.Entries.{block_with};
    ghost use Rattle.pst_block.specs.Block.{bid_key};
    ghost use Rattle.pst_block.specs.Source.{file_in, entries_in};

    /// The file.
    #[tactic(auto, unfolding(crate::specs::Source::file_in))]
    pub(crate) fn image(&self) -> Image<'a>
        ensures { result ≡ file_in self.now }
    {
        match self {
            Source::Tree(tree) => tree.image(),
            Source::Gathered(image, _) => *image,
        }
    }

    /// The entry of a block, by its identifier with its bit 0 ignored.
    #[tactic(auto, unfolding(crate::specs::Source::entries_in))]
    pub(crate) fn find(&self, bid: u64) -> Option<BlockEntry>
        ensures entry { result ≡ block_with (bid_key bid) (entries_in self.now) }
    {
        match self {
            Source::Tree(tree) => tree.find(bid),
            Source::Gathered(_, list) => list.find(bid),
        }
    }
}
