//! A set of nodes, by the blocks of their data and of their subnodes.

ghost use Rattle.std.specs.Prelude.{◌≡◌, ◌+◌, true, false, ◌⊎◌, IfErr, OnOk, OnErr, [], length};
ghost use Rattle.std.specs.List.Sorted.{IsStrictlySortedBy};
ghost use Rattle.pst_fault.specs.Fault.{no_memory};
ghost use Rattle.pst_block.specs.Block.{bid_key};
ghost use Rattle.pst_ndb.specs.Views.{roots_of};
ghost use Rattle.pst_remembered.specs.Keys.{Key as SpecKey, key, data_key, list_key, key_cmp, keys_in, holds};

use crate::rising::RisingSet;
use pst_fault::Fault;
use pst_ndb::Node;
use pst_page::PageKind;
use std::alloc::Global;

/// The identifiers of the blocks of a node's data and of its subnodes, with bit 0 cleared, and a number.
pub type Key = ((u64, u64), u64);

/// A set of nodes, each with a number.
#[derive(Drop)]
pub struct NodeSet {
    // Those of nodes without subnodes, by their data alone: most contexts are, and so each takes less memory.
    alone: RisingSet<(u64, u64)>,
    others: RisingSet<((u64, u64), u64)>,
}

/// The identifier of a block without its bit 0.
pub fn cleared(bid: u64) -> u64
    ensures { result ≡ bid_key bid }
{
    PageKind::Bbt.key_of(bid)
}

/// The key of a node with a number.
pub fn key_of(number: u64, node: Node) -> Key
    ensures { result ≡ key number (roots_of node.entry) }
{
    ((cleared(node.bid_data()), cleared(node.bid_sub())), number)
}

/// The key of a node's data alone, with a number.
pub fn key_of_data(number: u64, node: Node) -> Key
    ensures { result ≡ data_key number (roots_of node.entry) }
{
    ((cleared(node.bid_data()), 0), number)
}

/// The key of a node's list of subnodes alone.
pub fn key_of_list(node: Node) -> Key
    ensures { result ≡ list_key (roots_of node.entry) }
{
    ((0, cleared(node.bid_sub())), 0)
}

impl NodeSet {
    /// None.
    #[tactic(auto, unfolding(crate::specs::Keys::holds, crate::specs::Keys::keys_in))]
    pub fn new(alloc: Global) -> NodeSet
        ensures none { (q : SpecKey) → holds result q ≡ false }
        ensures empty { keys_in result ≡ [] }
    {
        NodeSet {
            alone: RisingSet::new(alloc),
            others: RisingSet::new(alloc),
        }
    }

    /// Whether a key is in it.
    #[tactic(auto, using(crate::proofs::KeyLemmas::there_alone))]
    pub fn has(&self, taken: Key) -> bool
        ensures { result ≡ holds self.now taken }
    {
        let ((block, sub), number) = taken;
        if sub > 0 {
            return self.others.has(&taken);
        }
        if self.alone.has(&(block, number)) {
            return true;
        }
        self.others.has(&taken)
    }

    /// Inserts a key. NoMemory where memory is refused, and it stays as it is.
    pub fn insert(&mut self, taken: Key) -> Result<(), Fault>
        ensures only { (q : SpecKey) → holds self.new q ≡ true →
            (holds self.old q ≡ true) ⊎ (taken ≡ q) }
        ensures grows { (q : SpecKey) → holds self.old q ≡ true → holds self.new q ≡ true }
        ensures there { OnOk result (holds self.new taken ≡ true) }
        ensures more { holds self.old taken ≡ false →
            OnOk result (length (keys_in self.new) ≡ length (keys_in self.old) + 1) }
        ensures same { OnErr result (keys_in self.new ≡ keys_in self.old) }
        ensures memory { IfErr result (λ f. f ≡ no_memory) }
    {
        let ((block, sub), number) = taken;
        self.others.are_sorted();
        if sub == 0 {
            self.alone.insert((block, number))
        } else {
            self.others.insert(taken)
        }
    }

    /// Its keys are in order.
    #[tactic(auto, unfolding(crate::specs::Keys::keys_in), using(crate::proofs::AloneLemmas::sorted_with))]
    pub fn are_sorted(&self)
        ensures { IsStrictlySortedBy key_cmp (keys_in self.now) }
    {
        self.others.are_sorted();
    }
}
