//! An index of a list of subnodes.

use crate::keys::cleared;
use pst_fault::Fault;
use pst_ndb::Node;
use pst_subnode::SubIndex;
use std::alloc::Global;

/// An index of a list of subnodes, by the identifier of its block with bit 0 cleared.
#[derive(Drop)]
pub struct ListIndex {
    list: u64,
    index: SubIndex,
}

impl ListIndex {
    ghost use Rattle.std.specs.Prelude.{◌≡◌, true, IfOk, IfErr, IfSome, option_map};
    ghost use Rattle.pst_block.specs.Table.{Table};
    ghost use Rattle.pst_fault.specs.Fault.{no_memory};
    ghost use Rattle.pst_ndb.specs.Roots.{subnode_of};
    ghost use Rattle.pst_ndb.specs.Views.{table_of_node, nid_of, roots_of, IsIndexedBy};
    ghost use Rattle.pst_remembered.specs.ListIndex.{IsIndexIn, index_in};

    /// That of a node's list. NoMemory where memory is refused.
    #[tactic(auto, using(crate::proofs::IndexLemmas::index_of_list))]
    pub fn of(alloc: Global, node: Node) -> Result<ListIndex, Fault>
        ensures index { IfOk result (IsIndexIn (table_of_node node.entry)) }
        ensures memory { IfErr result (λ f. f ≡ no_memory) }
    {
        let index = node.index(alloc)?;
        Ok(ListIndex {
            list: cleared(node.bid_sub()),
            index,
        })
    }

    /// Whether it is of the list of a node.
    #[tactic(auto, using(crate::proofs::IndexLemmas::indexed_by))]
    pub fn is_of(&self, node: Node) -> bool
        requires { IsIndexIn (table_of_node node) self.now }
        ensures { result ≡ true → IsIndexedBy node.entry (index_in self.now) }
    {
        self.list == cleared(node.bid_sub())
    }

    /// The node, which is lent this index, where it is of the node's list.
    pub fn lend<'a>(&'a self, node: Node<'a>) -> Node<'a>
        requires { IsIndexIn (table_of_node node) self.now }
        ensures roots { roots_of result ≡ roots_of node.entry }
        ensures table { table_of_node result ≡ table_of_node node.entry }
    {
        if self.is_of(node) {
            return node.indexed(&self.index);
        }
        node
    }

    /// The subnode of a node with an identifier, by this index, where it is of the node's list.
    #[tactic(auto, using(pst_ndb::proofs::SubIndexesLemmas::none_lent))]
    pub fn subnode<'a>(&self, node: Node<'a>, nid: u32) -> Option<Node<'a>>
        requires { IsIndexIn (table_of_node node) self.now }
        ensures nid { IfSome result (λ s. nid_of s ≡ nid) }
        ensures roots { let t = table_of_node node.entry in
            option_map roots_of result ≡ subnode_of t (roots_of node.entry) nid }
        ensures table { IfSome result (λ s. table_of_node s ≡ table_of_node node.entry) }
    {
        match self.lend(node).sub_entry(nid) {
            Some(entry) => Some(node.child(entry)),
            None => None,
        }
    }
}
