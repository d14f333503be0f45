//! Indexes of the lists of subnodes that nodes ask, and of the spans of their data.

use crate::node::Node;
use crate::span_indexes::SpanIndexes;
use crate::sub_indexes::SubIndexes;
use std::alloc::{AllocError, Global};

/// How many subnodes the values of a node's properties, or of its rows, may be in: no more than its data has records of 8 bytes.
pub fn most_values(node: Node) -> u64 {
    node.spans().size() / 8
}

/// What nodes that are gone through one after another are lent: indexes of the lists of subnodes that they ask, and of the spans of
/// all data that they have and that has many parts.
#[derive(Drop)]
pub struct NodeIndexes {
    lists: SubIndexes,
    spans: SpanIndexes,
}

impl NodeIndexes {
    ghost use Rattle.std.specs.Prelude.{◌≡◌, IfOk, IfSome, option_map};
    ghost use Rattle.pst_block.specs.Table.{Table};
    ghost use Rattle.pst_ndb.specs.NodeIndexes.{AreNodeIndexes};
    ghost use Rattle.pst_ndb.specs.Roots.{subnode_of};
    ghost use Rattle.pst_ndb.specs.Views.{image_of_node, table_of_node, nid_of, roots_of};

    /// None yet: lists are asked for so many subnodes before one gets an index. No memory is taken.
    #[tactic(auto, unfolding(crate::specs::NodeIndexes::AreNodeIndexes))]
    pub fn new(alloc: Global, often: u64) -> NodeIndexes
        ensures { (t : Table) → AreNodeIndexes t result }
    {
        NodeIndexes {
            lists: SubIndexes::new(alloc, often),
            spans: SpanIndexes::new(alloc),
        }
    }

    /// Turns to the list of a node, which asks it for so many subnodes, and makes its index where that pays, unless it is there
    /// already. Or memory is refused.
    #[tactic(auto, unfolding(crate::specs::NodeIndexes::AreNodeIndexes))]
    pub fn turn_to_list(&mut self, alloc: Global, node: Node, asks: u64) -> Result<(), AllocError>
        requires { AreNodeIndexes (table_of_node node) self.old }
        ensures { AreNodeIndexes (table_of_node node.entry) self.new }
    {
        match self.lists.turn(alloc, node, asks) {
            Ok(()) => Ok(()),
            Err(_) => Err(AllocError),
        }
    }

    /// Whether there is an index of the list of a node.
    pub fn has_list(&self, node: Node) -> bool {
        self.lists.has(node)
    }

    /// Turns to the data of a node, and not to its list. Or memory is refused.
    #[tactic(auto, unfolding(crate::specs::NodeIndexes::AreNodeIndexes))]
    pub fn turn_to_data(&mut self, alloc: Global, node: Node) -> Result<(), AllocError>
        requires { AreNodeIndexes (table_of_node node) self.old }
        ensures { AreNodeIndexes (table_of_node node.entry) self.new }
    {
        match self.spans.turn(alloc, node) {
            Ok(()) => Ok(()),
            Err(_) => Err(AllocError),
        }
    }

    /// Turns to the list of a node, which asks it for so many subnodes, and to its data, whose spans get an index where they have many
    /// parts. Or memory is refused.
    pub fn turn(&mut self, alloc: Global, node: Node, asks: u64) -> Result<(), AllocError>
        requires { AreNodeIndexes (table_of_node node) self.old }
        ensures { AreNodeIndexes (table_of_node node.entry) self.new }
    {
        self.turn_to_data(alloc, node)?;
        self.turn_to_list(alloc, node, asks)
    }

    /// Turns to the list and the data of a node, and makes the index of the list at once: of n subnodes in about n log n steps, of a
    /// list of at most 16 none. Or memory is refused.
    pub fn turn_at_once(&mut self, alloc: Global, node: Node) -> Result<(), AllocError>
        requires { AreNodeIndexes (table_of_node node) self.old }
        ensures { AreNodeIndexes (table_of_node node.entry) self.new }
    {
        let often = self.lists.often();
        self.turn(alloc, node, often.saturating_add(1))
    }

    /// The indexes of a node, made at once. Or memory is refused.
    pub fn of(alloc: Global, node: Node) -> Result<NodeIndexes, AllocError>
        ensures { IfOk result (AreNodeIndexes (table_of_node node.entry)) }
    {
        let mut indexes = NodeIndexes::new(alloc, 0);
        indexes.turn(alloc, node, 1)?;
        Ok(indexes)
    }

    /// A node, which is lent the index of its list alone, where there is one.
    #[tactic(auto, unfolding(crate::specs::NodeIndexes::AreNodeIndexes))]
    pub fn lend_list<'a>(&'a self, node: Node<'a>) -> Node<'a>
        requires { AreNodeIndexes (table_of_node node) self.now }
        ensures roots { roots_of result ≡ roots_of node.entry }
        ensures image { image_of_node result ≡ image_of_node node.entry }
        ensures table { table_of_node result ≡ table_of_node node.entry }
        ensures nid { nid_of result ≡ nid_of node.entry }
    {
        self.lists.lend(node)
    }

    /// A node, which is lent the index of its list and that of its data, where there are such.
    #[tactic(auto, using(crate::proofs::NodeIndexesLemmas::lists_known, crate::proofs::NodeIndexesLemmas::spans_known))]
    pub fn lend<'a>(&'a self, node: Node<'a>) -> Node<'a>
        requires { AreNodeIndexes (table_of_node node) self.now }
        ensures roots { roots_of result ≡ roots_of node.entry }
        ensures image { image_of_node result ≡ image_of_node node.entry }
        ensures table { table_of_node result ≡ table_of_node node.entry }
        ensures nid { nid_of result ≡ nid_of node.entry }
    {
        self.spans.lend(self.lists.lend(node))
    }

    /// The subnode of a node with an identifier, by the index of its list, where there is one.
    #[tactic(auto, unfolding(crate::specs::NodeIndexes::AreNodeIndexes))]
    pub fn subnode<'a>(&self, node: Node<'a>, nid: u32) -> Option<Node<'a>>
        requires { AreNodeIndexes (table_of_node node) self.now }
        ensures nid { IfSome result (λ s. nid_of s ≡ nid) }
        ensures roots { let t = table_of_node node.entry in
            option_map roots_of result ≡ subnode_of t (roots_of node.entry) nid }
        ensures table { IfSome result (λ s. table_of_node s ≡ table_of_node node.entry) }
        ensures image { IfSome result (λ s. image_of_node s ≡ image_of_node node.entry) }
    {
        self.lists.subnode(node, nid)
    }
}
