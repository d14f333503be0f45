//! Nodes by their identifiers.

ghost use Rattle.std.specs.Prelude.{◌≡◌, None};
ghost use Rattle.pst_block.specs.Blocks.{table_of};
ghost use Rattle.pst_ndb.specs.Fault.{nodes_fault};
ghost use Rattle.pst_ndb.specs.Source.{source_entries};

use crate::node::Node;
use crate::nodes::Nodes;
use crate::source::Source;
use pst_block::Blocks;
use pst_btree::{NodeList, NodeTree};
use pst_bytes::Image;

/// Nodes by their identifiers, over the blocks that they are made of: all of a file without fault, or those of a damaged file
/// that have none. Neither the data nor the subnodes of any of them has a fault.
#[derive(Clone, Copy)]
pub struct NodeTable<'a> {
    pub(crate) blocks: Blocks<'a>,
    pub(crate) source: Source<'a>,
    ghost sound: { nodes_fault (table_of blocks) (source_entries source) ≡ None },
}

impl<'a> NodeTable<'a> {
    ghost use Rattle.std.specs.Prelude.{◌≡◌, None, IfSome, map, option_map};
    ghost use Rattle.pst_bytes.specs.Image.{bytes_of};
    ghost use Rattle.pst_btree.specs.Entries.{node_key, node_with};
    ghost use Rattle.pst_btree.specs.Lists.{nodes_in_list};
    ghost use Rattle.pst_btree.specs.Order.{Rises};
    ghost use Rattle.pst_btree.specs.Trees.{node_entries};
    ghost use Rattle.pst_block.specs.Blocks.{table_of, image_of};
    ghost use Rattle.pst_ndb.specs.Fault.{nodes_fault};
    ghost use Rattle.pst_ndb.specs.Node.{entry_parts};
    ghost use Rattle.pst_ndb.specs.NodeTable.{image_of_nodes, table_of_nodes, entries_of_nodes};
    ghost use Rattle.pst_ndb.specs.Roots.{node_in, all_roots};
    ghost use Rattle.pst_ndb.specs.Views.{image_of_node, table_of_node, top_of, nid_of, parts_of, roots_of, parts_left, roots_left, table_left, image_left};

    // All nodes of a tree, none of which has a fault.
    #[tactic(auto, unfolding(crate::specs::Source::source_entries))]
    pub(crate) fn of_tree(blocks: Blocks<'a>, tree: NodeTree<'a>) -> NodeTable<'a>
        requires { nodes_fault (table_of blocks) (node_entries tree) ≡ None }
        ensures image { image_of_nodes result ≡ image_of blocks.entry }
        ensures table { table_of_nodes result ≡ table_of blocks.entry }
        ensures entries { entries_of_nodes result ≡ node_entries tree.entry }
    {
        NodeTable {
            blocks,
            source: Source::Tree(tree),
        }
    }

    /// Nodes of entries that were gathered, over these blocks. Each of them has to be known to have no fault. Nothing is
    /// checked.
    #[tactic(auto, unfolding(crate::specs::Source::source_entries))]
    pub fn known(blocks: Blocks<'a>, entries: NodeList<'a>) -> NodeTable<'a>
        requires { nodes_fault (table_of blocks) (nodes_in_list entries) ≡ None }
        ensures image { image_of_nodes result ≡ image_of blocks.entry }
        ensures table { table_of_nodes result ≡ table_of blocks.entry }
        ensures entries { entries_of_nodes result ≡ nodes_in_list entries.entry }
    {
        NodeTable {
            blocks,
            source: Source::Gathered(entries),
        }
    }

    /// What is known of all such nodes: the trees of none of them has a fault, and the table of blocks is of the file.
    pub fn is_sound(&self)
        ensures trees { nodes_fault (table_of_nodes self.now) (entries_of_nodes self.now) ≡ None }
        ensures image { (table_of_nodes self.now).image ≡ bytes_of (image_of_nodes self.now) }
    {}

    /// What is known of all such nodes: their identifiers rise.
    pub fn nids_rise(&self)
        ensures { Rises 0 None (map node_key (entries_of_nodes self.now)) }
    {
        self.source.nids_rise();
    }

    /// The file.
    pub fn image(&self) -> Image<'a>
        ensures { result ≡ image_of_nodes self.now }
    {
        self.blocks.image()
    }

    /// The node with an identifier; None exactly where there is none.
    #[tactic(auto, using(crate::proofs::NodeLemmas::found_sound, crate::proofs::NodeLemmas::first_keyed), unfolding(crate::specs::Roots::node_in))]
    pub fn node(&self, nid: u32) -> Option<Node<'a>>
        ensures value { option_map parts_of result ≡
            option_map (entry_parts (image_of_nodes self.now) (table_of_nodes self.now))
            (node_with nid (entries_of_nodes self.now)) }
        ensures roots { option_map roots_of result ≡ node_in (entries_of_nodes self.now) nid }
        ensures image { IfSome result (λ n. image_of_node n ≡ image_of_nodes self.now) }
        ensures table { IfSome result (λ n. table_of_node n ≡ table_of_nodes self.now) }
        ensures top { IfSome result (λ n. top_of n ≡ nid) }
        ensures nid { IfSome result (λ n. nid_of n ≡ nid) }
    {
        let entry = self.source.find(nid)?;
        Some(Node::of_entry(self.blocks, entry))
    }

    /// All of them, their identifiers rising.
    pub fn nodes(&self) -> Nodes<'a>
        ensures parts { parts_left result ≡
            map (entry_parts (image_of_nodes self.now) (table_of_nodes self.now))
            (entries_of_nodes self.now) }
        ensures roots { roots_left result ≡ all_roots (entries_of_nodes self.now) }
        ensures table { table_left result ≡ table_of_nodes self.now }
        ensures image { image_left result ≡ image_of_nodes self.now }
    {
        Nodes::all(self.blocks, &self.source)
    }
}
