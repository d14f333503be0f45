//! Indexes of the lists of subnodes that are asked about.

ghost use Rattle.std.specs.Prelude.{◌≡◌};
ghost use Rattle.pst_block.specs.Block.{bid_key};
ghost use Rattle.pst_ndb.specs.Views.{sub_bid_of};

use crate::node::Node;
use pst_fault::Fault;
use pst_page::PageKind;
use pst_subnode::{SubIndex, may_be_long};
use std::alloc::{AllocError, Global};
use std::collections::BTreeMap;

// So many entries have indexes at once: some 10 MB of them.
const MOST: u64 = 400_000;

// The identifier of the block of a node's list, with bit 0 cleared: nodes with the same one have the same list.
fn list_of(node: Node) -> u64
    ensures { result ≡ bid_key (sub_bid_of node.entry) }
{
    PageKind::Bbt.key_of(node.bid_sub())
}

/// Indexes of lists of subnodes, each made once for all nodes that have its list, as long as together they have no more than 400,000
/// entries: where they would have more, all before go, and are made again where they are asked for. A list with at most 16 entries,
/// which is gone through as fast as it is looked up, gets none.
#[derive(Drop)]
pub struct SubIndexes {
    // By the identifier of the block of a list, with bit 0 cleared.
    indexes: BTreeMap<u64, SubIndex>,
    // How many entries they hold, one at least for each.
    entries: u64,
    // For how many subnodes lists without an index are asked before one is made, and for how many they have been since the last one:
    // a list that is too short for one counts, and leaves the next long one to get it.
    often: u64,
    asked: u64,
    // The list that was found too short for an index last, 0 where none was.
    short: u64,
}

impl SubIndexes {
    ghost use Rattle.std.specs.Prelude.{◌≡◌, IfErr, IfSome, option_map};
    ghost use Rattle.pst_block.specs.Block.{bid_key};
    ghost use Rattle.pst_block.specs.Table.{Table};
    ghost use Rattle.pst_fault.specs.Fault.{no_memory};
    ghost use Rattle.pst_ndb.specs.Roots.{subnode_of};
    ghost use Rattle.pst_ndb.specs.Views.{image_of_node, table_of_node, nid_of, roots_of, sub_bid_of, IsIndexedBy};
    ghost use Rattle.pst_ndb.specs.SubIndexes.{AreSubIndexes, IsIndexUnder};

    /// None yet: lists are asked for so many subnodes before one is made. No memory is taken.
    #[tactic(auto, using(crate::proofs::SubIndexesLemmas::none_made))]
    pub fn new(alloc: Global, often: u64) -> SubIndexes
        ensures { (t : Table) → AreSubIndexes t result }
    {
        SubIndexes {
            indexes: BTreeMap::new(alloc),
            entries: 0,
            often,
            asked: 0,
            short: 0,
        }
    }

    /// For how many subnodes lists without an index are asked before one is made.
    pub(crate) fn often(&self) -> u64 {
        self.often
    }

    // That of a node's list, where there is one.
    #[tactic(auto, using(crate::proofs::SubIndexesLemmas::made_for))]
    fn of_list(&self, node: Node) -> Option<&SubIndex>
        requires { AreSubIndexes (table_of_node node) self.now }
        ensures { IfSome result (λ i. IsIndexedBy node.entry i.now) }
    {
        if self.indexes.is_empty() {
            return None;
        }
        self.indexes.get(&list_of(node))
    }

    /// Whether there is an index of a node's list.
    pub fn has(&self, node: Node) -> bool {
        !self.indexes.is_empty() && self.indexes.contains_key(&list_of(node))
    }

    // A list without an index is asked for so many subnodes. Whether lists have been asked for so many, since the last index was made,
    // that one pays.
    #[tactic(auto, unfolding(crate::specs::SubIndexes::AreSubIndexes))]
    fn pays(&mut self, asks: u64) -> bool
        ensures { (t : Table) → AreSubIndexes t self.old → AreSubIndexes t self.new }
    {
        self.asked = self.asked.saturating_add(asks);
        self.asked > self.often
    }

    // One more is to be kept, that holds so many entries. Where that makes too many, all before are given up.
    #[tactic(auto, unfolding(crate::specs::SubIndexes::AreSubIndexes), using(crate::proofs::SubIndexesLemmas::none_made))]
    fn make_room(&mut self, entries: u64)
        ensures { (t : Table) → AreSubIndexes t self.old → AreSubIndexes t self.new }
    {
        self.asked = 0;
        let all = self.entries.saturating_add(entries.max(1));
        if all <= MOST {
            self.entries = all;
            return;
        }
        self.indexes.clear();
        self.entries = entries;
    }

    // An index is kept; or memory is refused.
    fn put(&mut self, list: u64, index: SubIndex) -> Result<(), AllocError>
        ensures { (t : Table) → IsIndexUnder t list index → AreSubIndexes t self.old
            → AreSubIndexes t self.new }
    {
        let _before = self.indexes.insert(list, index)?;
        Ok(())
    }

    // Makes the index of a node's list, which has this identifier, unless it is short.
    #[tactic(auto, using(crate::proofs::SubIndexesLemmas::index_under), unfolding(crate::specs::SubIndexes::AreSubIndexes))]
    fn make(&mut self, alloc: Global, node: Node, list: u64) -> Result<(), Fault>
        requires same { list ≡ bid_key (sub_bid_of node) }
        requires known { AreSubIndexes (table_of_node node) self.old }
        ensures index { AreSubIndexes (table_of_node node.entry) self.new }
        ensures memory { IfErr result (λ f. f ≡ no_memory) }
    {
        if !may_be_long(&node.blocks, node.bid_sub()) {
            self.short = list;
            return Ok(());
        }
        let index = node.index(alloc)?;
        self.make_room(index.len() as u64);
        self.put(list, index)?;
        Ok(())
    }

    /// Turns to the list of a node, which asks it for so many subnodes: makes its index, where that pays and it has more than a few
    /// entries, unless it is there already. Of n entries it is made in about n log n steps. NoMemory, if memory runs out.
    pub fn turn(&mut self, alloc: Global, node: Node, asks: u64) -> Result<(), Fault>
        requires { AreSubIndexes (table_of_node node) self.old }
        ensures index { AreSubIndexes (table_of_node node.entry) self.new }
        ensures memory { IfErr result (λ f. f ≡ no_memory) }
    {
        let list = list_of(node);
        if list == self.short || list == 0 || self.of_list(node).is_some() || !self.pays(asks) {
            return Ok(());
        }
        self.make(alloc, node, list)
    }

    /// The node, which is lent the index of its list, where there is one.
    pub fn lend<'a>(&'a self, node: Node<'a>) -> Node<'a>
        requires { AreSubIndexes (table_of_node node) self.now }
        ensures roots { roots_of result ≡ roots_of node.entry }
        ensures image { image_of_node result ≡ image_of_node node.entry }
        ensures table { table_of_node result ≡ table_of_node node.entry }
        ensures nid { nid_of result ≡ nid_of node.entry }
    {
        match self.of_list(node) {
            Some(index) => node.indexed(index),
            None => node,
        }
    }

    /// The subnode of a node with an identifier, by the index of its list, where there is one.
    #[tactic(auto, using(crate::proofs::SubIndexesLemmas::none_lent))]
    pub fn subnode<'a>(&self, node: Node<'a>, nid: u32) -> Option<Node<'a>>
        requires { AreSubIndexes (table_of_node node) self.now }
        ensures nid { IfSome result (λ s. nid_of s ≡ nid) }
        ensures roots { let t = table_of_node node.entry in
            option_map roots_of result ≡ subnode_of t (roots_of node.entry) nid }
        ensures table { IfSome result (λ s. table_of_node s ≡ table_of_node node.entry) }
        ensures image { IfSome result (λ s. image_of_node s ≡ image_of_node node.entry) }
    {
        match self.lend(node).sub_entry(nid) {
            Some(entry) => Some(node.child(entry)),
            None => None,
        }
    }
}
