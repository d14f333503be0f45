//! What remains of a damaged file, up to its nodes.

ghost use Rattle.std.specs.Prelude.{◌≡◌, ◌≤◌, length, map, None};
ghost use Rattle.pst_bytes.specs.Image.{bytes_of};
ghost use Rattle.pst_btree.specs.Entries.{block_key, node_key};
ghost use Rattle.pst_btree.specs.Order.{Rises};
ghost use Rattle.pst_btree.specs.TreeProps.{Rises-prop};
ghost use Rattle.pst_block.specs.Walk.{blocks_fault};

use crate::pages::Broken;
use pst_block::Blocks;
use pst_btree::{BlockList, NodeList};
use pst_bytes::Image;
use pst_fault::Fault;
use pst_page::{BlockEntry, NodeEntry};

/// What is broken of a file up to its nodes, and what is left of it.
#[derive(Drop)]
pub struct Remains<'a> {
    /// The first fault of the header.
    pub header: Option<Fault>,
    /// The faults of the pages of the block B-tree, then of the node B-tree, in the order in which they are looked at.
    pub pages: Vec<Fault>,
    /// The faults of blocks, in the order of their entries.
    pub blocks: Vec<Fault>,
    /// The first fault of the allocation maps.
    pub maps: Option<Fault>,
    /// The entries of the blocks without fault.
    pub good: Vec<BlockEntry>,
    /// The nodes that are left, in the order of their identifiers.
    pub nodes: Vec<NodeEntry>,
    /// The pages of the node B-tree with a fault, in the order in which they are looked at.
    pub broken: Vec<Broken>,
    pub(crate) image: Image<'a>,
    // The end of the mapped part, where there is one.
    pub(crate) end: u64,
    ghost inside: { end ≤ length (bytes_of image) },
    ghost sound: { blocks_fault end (bytes_of image) good.items ≡ None },
    ghost block_keys: { Rises 0 None (map block_key good.items) } by { Rises-prop 0 None
        (map block_key good.items) },
    ghost node_keys: { Rises 0 None (map node_key nodes.items) } by { Rises-prop 0 None
        (map node_key nodes.items) },
}

impl<'a> Remains<'a> {
    ghost use Rattle.std.specs.Prelude.{◌≡◌};
    ghost use Rattle.pst_btree.specs.Lists.{nodes_in_list};
    ghost use Rattle.pst_block.specs.Blocks.{table_of, image_of};
    ghost use Rattle.pst_remains.specs.View.{table_in, image_in};

    /// The blocks without fault.
    pub fn good_blocks(&self) -> Blocks<'_>
        ensures table { table_of result ≡ table_in self.now }
        ensures image { image_of result ≡ image_in self.now }
    {
        Blocks::known(self.image, self.end, BlockList::of(&self.good))
    }

    /// The nodes that are left.
    pub fn node_list(&self) -> NodeList<'_>
        ensures { nodes_in_list result ≡ self.now.nodes.items }
    {
        NodeList::of(&self.nodes)
    }
}
