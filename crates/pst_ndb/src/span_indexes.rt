//! Indexes of the spans of nodes' data, each made once.

ghost use Rattle.std.specs.Prelude.{◌≡◌, IfErr};
ghost use Rattle.pst_block.specs.Table.{Table};
ghost use Rattle.pst_fault.specs.Fault.{no_memory};
ghost use Rattle.pst_ndb.specs.SpanIndex.{IsSpanIndexOf};
ghost use Rattle.pst_ndb.specs.SpanIndexes.{AreSpanIndexes};
ghost use Rattle.pst_ndb.specs.Views.{image_of_node, table_of_node, nid_of, roots_of};

use crate::node::Node;
use crate::span_index::SpanIndex;
use pst_datatree::is_internal;
use pst_fault::Fault;
use std::alloc::{AllocError, Global};
use std::collections::BTreeMap;

/// Indexes of the spans of nodes' data, of data with more than 32 parts: each is made once, for the first node with its data, and is
/// lent to all. Together they have a number for each entry of the XXBLOCKs of the file, or two, and so take no more than twice their
/// memory.
#[derive(Drop)]
pub struct SpanIndexes {
    // By the block identifier of the data, as it is written.
    indexes: BTreeMap<u64, SpanIndex>,
}

impl SpanIndexes {
    /// None yet. No memory is taken.
    #[tactic(auto, using(crate::proofs::SpanIndexesLemmas::none_kept))]
    pub fn new(alloc: Global) -> SpanIndexes
        ensures { (t : Table) → AreSpanIndexes t result }
    {
        SpanIndexes {
            indexes: BTreeMap::new(alloc),
        }
    }

    // An index is kept; or memory is refused.
    fn put(&mut self, bid: u64, index: SpanIndex) -> Result<(), AllocError>
        ensures { (t : Table) → IsSpanIndexOf index t bid → AreSpanIndexes t self.old
            → AreSpanIndexes t self.new }
    {
        let _before = self.indexes.insert(bid, index)?;
        Ok(())
    }

    /// Makes the index of the spans of a node's data, where that has more than 32 parts, unless there is one already: in as many steps
    /// as there are parts. NoMemory, if memory runs out.
    pub fn turn(&mut self, alloc: Global, node: Node) -> Result<(), Fault>
        requires { AreSpanIndexes (table_of_node node) self.old }
        ensures indexes { AreSpanIndexes (table_of_node node.entry) self.new }
        ensures memory { IfErr result (λ f. f ≡ no_memory) }
    {
        let data = node.bid_data();
        if !is_internal(data) || self.indexes.contains_key(&data) {
            return Ok(());
        }
        let index = node.span_index(alloc)?;
        if index.starts.is_none() {
            return Ok(());
        }
        self.put(data, index)?;
        Ok(())
    }

    /// A node, which is lent the index of the spans of its data, where there is one.
    #[tactic(auto, using(crate::proofs::SpanIndexesLemmas::index_of_data))]
    pub fn lend<'a>(&'a self, node: Node<'a>) -> Node<'a>
        requires { AreSpanIndexes (table_of_node node) self.now }
        ensures roots { roots_of result ≡ roots_of node.entry }
        ensures image { image_of_node result ≡ image_of_node node.entry }
        ensures table { table_of_node result ≡ table_of_node node.entry }
        ensures nid { nid_of result ≡ nid_of node.entry }
    {
        match self.indexes.get(&node.bid_data()) {
            Some(index) => node.span_indexed(index),
            None => node,
        }
    }
}
