//! The node database of a checked file.

ghost use Rattle.std.specs.Prelude.{◌≡◌, None};
ghost use Rattle.pst_bytes.specs.Image.{bytes_of};
ghost use Rattle.pst_header.specs.Header.{fields};
ghost use Rattle.pst_ndb.specs.Entries.{block_table, node_list};
ghost use Rattle.pst_ndb.specs.Fault.{ndb_fault};
ghost use Rattle.pst_ndb.specs.NodeTable.{image_of_nodes, table_of_nodes, entries_of_nodes};

use crate::node::Node;
use crate::node_table::NodeTable;
use crate::nodes::Nodes;
use pst_block::Blocks;
use pst_btree::NodeTree;
use pst_bytes::Image;
use pst_header::Header;

/// The node database of a file without fault ([MS-PST] 2.2): its header, and its nodes, with the trees of their blocks.
#[derive(Clone, Copy)]
pub struct Ndb<'a> {
    header: Header,
    pub(crate) nodes: NodeTable<'a>,
    ghost sound: { ndb_fault (bytes_of (image_of_nodes nodes)) ≡ None },
    ghost fields: { header ≡ fields (bytes_of (image_of_nodes nodes)) },
    ghost table: { table_of_nodes nodes ≡ block_table (bytes_of (image_of_nodes nodes)) header },
    ghost entries: { entries_of_nodes nodes ≡ node_list (bytes_of (image_of_nodes nodes)) header },
}

impl<'a> Ndb<'a> {
    ghost use Rattle.std.specs.Prelude.{◌≡◌, ℕ, ◌↔◌, None, Some, IfSome, map, option_map};
    ghost use Rattle.std.specs.List.{Contains};
    ghost use Rattle.pst_page.specs.declared.entry.NodeEntry.{NodeEntry};
    ghost use Rattle.pst_bytes.specs.Image.{bytes_of};
    ghost use Rattle.pst_header.specs.Head.{Head};
    ghost use Rattle.pst_header.specs.Header.{fields};
    ghost use Rattle.pst_btree.specs.Entries.{node_key, node_with};
    ghost use Rattle.pst_btree.specs.Order.{Rises};
    ghost use Rattle.pst_btree.specs.Trees.{node_entries};
    ghost use Rattle.pst_block.specs.Blocks.{table_of, image_of};
    ghost use Rattle.pst_ndb.specs.Entries.{block_table, node_list};
    ghost use Rattle.pst_ndb.specs.Fault.{file_fault, ndb_fault, nodes_fault};
    ghost use Rattle.pst_ndb.specs.Node.{entry_parts};
    ghost use Rattle.pst_ndb.specs.NodeTable.{image_of_nodes, table_of_nodes, entries_of_nodes};
    ghost use Rattle.pst_ndb.specs.Roots.{node_in, all_roots};
    ghost use Rattle.pst_ndb.specs.Views.{image_of_ndb, header_of, table_of_ndb, nodes_of, image_of_node, table_of_node, top_of, nid_of, parts_of, roots_of, parts_left, roots_left, table_left, image_left};

    // The node database of a file with this header, which was checked.
    #[tactic(auto, using(crate::proofs::NodeLemmas::file_sound, crate::proofs::NodeLemmas::file_fields, crate::proofs::NodeLemmas::file_trees))]
    pub(crate) fn known(header: &Header, blocks: Blocks<'a>, nodes: NodeTree<'a>) -> Ndb<'a>
        requires head { Head (bytes_of (image_of blocks)) header.now }
        requires none { file_fault (bytes_of (image_of blocks)) header.now ≡ None }
        requires table { table_of blocks ≡ block_table (bytes_of (image_of blocks)) header.now }
        requires entries { node_entries nodes ≡ node_list (bytes_of (image_of blocks)) header.now }
        ensures header { header_of result ≡ header.now }
        ensures image { image_of_ndb result ≡ image_of blocks.entry }
        ensures table { table_of_ndb result ≡ table_of blocks.entry }
        ensures nodes { nodes_of result ≡ node_entries nodes.entry }
    {
        Ndb {
            header: *header,
            nodes: NodeTable::of_tree(blocks, nodes),
        }
    }

    /// What is known of every node database: its file has no fault up to its nodes, and what it shows is the file's header,
    /// blocks and nodes.
    #[tactic(auto, using(crate::proofs::NodeLemmas::sound_head))]
    pub fn is_sound(&self)
        ensures sound { ndb_fault (bytes_of (image_of_ndb self.now)) ≡ None }
        ensures header { header_of self.now ≡ fields (bytes_of (image_of_ndb self.now)) }
        ensures table { table_of_ndb self.now ≡
            block_table (bytes_of (image_of_ndb self.now)) (header_of self.now) }
        ensures nodes { nodes_of self.now ≡
            node_list (bytes_of (image_of_ndb self.now)) (header_of self.now) }
        ensures head { Head (bytes_of (image_of_ndb self.now)) (header_of self.now) }
        ensures image { (table_of_ndb self.now).image ≡ bytes_of (image_of_ndb self.now) }
        ensures trees { nodes_fault (table_of_ndb self.now) (nodes_of self.now) ≡ None }
    {
        self.nodes.is_sound();
    }

    /// What is known of every node database: a node is found under an identifier exactly where it is there and has that
    /// identifier.
    pub fn nodes_are_found(&self)
        ensures { (nid : ℕ) (e : NodeEntry) → (node_with nid (nodes_of self.now) ≡ Some e) ↔
            (Contains (nodes_of self.now) e × (e.nid ≡ nid)) }
    {
        self.nodes_rise();
    }

    /// What is known of every node database: the identifiers of its nodes rise.
    pub fn nodes_rise(&self)
        ensures { Rises 0 None (map node_key (nodes_of self.now)) }
    {
        self.nodes.nids_rise();
    }

    /// The file.
    pub fn image(&self) -> Image<'a>
        ensures { result ≡ image_of_ndb self.now }
    {
        self.nodes.image()
    }

    /// Its nodes by their identifiers, and the blocks that they are made of.
    pub fn table(&self) -> NodeTable<'a>
        ensures image { image_of_nodes result ≡ image_of_ndb self.now }
        ensures table { table_of_nodes result ≡ table_of_ndb self.now }
        ensures entries { entries_of_nodes result ≡ nodes_of self.now }
    {
        self.nodes
    }

    /// The header.
    pub fn header(&self) -> Header
        ensures { result ≡ header_of self.now }
    {
        self.header
    }

    /// The node with an identifier; None exactly where the node B-tree has none.
    pub fn node(&self, nid: u32) -> Option<Node<'a>>
        ensures value { option_map parts_of result ≡ option_map (entry_parts
            (image_of_ndb self.now) (table_of_ndb self.now)) (node_with nid (nodes_of self.now)) }
        ensures roots { option_map roots_of result ≡ node_in (nodes_of self.now) nid }
        ensures image { IfSome result (λ n. image_of_node n ≡ image_of_ndb self.now) }
        ensures table { IfSome result (λ n. table_of_node n ≡ table_of_ndb self.now) }
        ensures top { IfSome result (λ n. top_of n ≡ nid) }
        ensures nid { IfSome result (λ n. nid_of n ≡ nid) }
    {
        self.nodes.node(nid)
    }

    /// All nodes, their identifiers rising.
    pub fn nodes(&self) -> Nodes<'a>
        ensures parts { parts_left result ≡
            map (entry_parts (image_of_ndb self.now) (table_of_ndb self.now)) (nodes_of self.now) }
        ensures roots { roots_left result ≡ all_roots (nodes_of self.now) }
        ensures table { table_left result ≡ table_of_ndb self.now }
        ensures image { image_left result ≡ image_of_ndb self.now }
    {
        self.nodes.nodes()
    }
}
