//! Indexes of the lists of subnodes of messages that are being gone through.

ghost use Rattle.std.specs.Prelude.{◌≡◌, ◌<◌, ◌↔◌, IsTrue, length};
ghost use Rattle.pst_subnode.specs.List.{subs_of};
ghost use Rattle.pst_ndb.specs.Counts.{capped};
ghost use Rattle.pst_ndb.specs.Views.{table_of_node, sub_bid_of};

use crate::rest::Rest;
use pst_fault::Fault;
use pst_ndb::Node;
use pst_remembered::{ListIndex, cleared};
use std::alloc::{AllocError, Global};
use std::collections::BTreeSet;

// So many entries stand in one SLBLOCK at most, and are looked through without an index.
const FEW: u64 = 340;

// 200 rows are looked up without an index, since to make one takes about as long as to go through the list so often. It is asked for
// at the second row, behind which so many are left.
const FEW_ROWS: u32 = 198;

// Where the entries do not rise each look-up goes through them, and so few take as long as to make an index.
const SOME_ROWS: u32 = 6;

/// An index of a list of subnodes, and how many entries the list has.
#[derive(Drop)]
pub(crate) struct HeldIndex {
    entries: u64,
    index: ListIndex,
}

/// Indexes of lists, the greatest first: each has at least twice as many entries as the next, so all of them together have fewer
/// than twice as many as the first.
#[derive(Drop)]
pub(crate) struct Indexes {
    held: Vec<HeldIndex>,
    // The lists that were found to rise, by their blocks with bit 0 of the identifier cleared.
    risen: BTreeSet<u64>,
}

/// How many subnodes a node has.
pub(crate) fn entries_of(node: Node) -> u64
    ensures { result ≡ capped
        (length (subs_of (table_of_node node.entry) (sub_bid_of node.entry))) }
{
    let mut count = 0_u64;
    for sub in node.subs() {
        let _nid = sub.nid;
        count = count.saturating_add(1);
    }
    count
}

// Whether the list of a node has more entries than one SLBLOCK may have. No more than these are looked at.
fn is_long(node: Node) -> bool
    ensures { let subs = subs_of (table_of_node node.entry) (sub_bid_of node.entry) in
        IsTrue result ↔ (FEW < length subs) }
{
    let mut count = 0;
    for sub in node.subs() {
        let _nid = sub.nid;
        if count == FEW {
            return true;
        }
        count += 1;
    }
    false
}

// Whether the identifiers of a node's subnodes rise in its list: each is found there by halving.
fn do_rise(node: Node) -> bool {
    let mut last = 0;
    for sub in node.subs() {
        if sub.nid < last {
            return false;
        }
        last = sub.nid;
    }
    true
}

impl Indexes {
    ghost use Rattle.std.specs.Prelude.{◌≡◌, IfErr, IfSome, option_map};
    ghost use Rattle.pst_block.specs.Table.{Table};
    ghost use Rattle.pst_fault.specs.Fault.{no_memory};
    ghost use Rattle.pst_ndb.specs.Roots.{subnode_of};
    ghost use Rattle.pst_ndb.specs.Views.{table_of_node, nid_of, roots_of};
    ghost use Rattle.pst_remembered.specs.ListIndex.{IsIndexIn};
    ghost use Rattle.pst_msg.specs.Indexes.{AreIndexes, HasRoom};

    /// None yet.
    pub(crate) fn new(alloc: Global) -> Indexes
        ensures { (t : Table) → AreIndexes t result }
    {
        Indexes {
            held: Vec::new(alloc),
            risen: BTreeSet::new(alloc),
        }
    }

    // That of a node's list, where it is among them.
    fn of_list(&self, node: Node) -> Option<&ListIndex>
        requires { AreIndexes (table_of_node node) self.now }
        ensures { IfSome result (λ i. IsIndexIn (table_of_node node.entry) i.now) }
    {
        for held in &self.held {
            if held.index.is_of(node) {
                return Some(&held.index);
            }
        }
        None
    }

    // Those of lists with fewer than twice so many entries are given up.
    fn give_way(&mut self, entries: u64)
        ensures index { (t : Table) → AreIndexes t self.old → AreIndexes t self.new }
        ensures room { (t : Table) → AreIndexes t self.old → HasRoom entries self.new }
    {
        while let Some(last) = self.held.last() {
            if last.entries / 2 >= entries {
                return;
            }
            let _given_up = self.held.pop();
        }
    }

    // Whether the list of a node rises. One that does is gone through once for this. Or memory is refused.
    #[tactic(auto, using(crate::proofs::HeldLemmas::same_held))]
    fn is_risen(&mut self, node: Node) -> Result<bool, AllocError>
        ensures { (t : Table) → AreIndexes t self.old → AreIndexes t self.new }
    {
        let list = cleared(node.bid_sub());
        if self.risen.contains(&list) {
            return Ok(true);
        }
        if !do_rise(node) {
            return Ok(false);
        }
        let _is_new = self.risen.insert(list)?;
        Ok(true)
    }

    // Whether so many rows are left that an index of a node's list is worth its making: many, or some where the list does not rise.
    fn pays(&mut self, node: Node, rest: &Rest) -> Result<bool, AllocError>
        ensures { (t : Table) → AreIndexes t self.old → AreIndexes t self.new }
    {
        let left = rest.count(FEW_ROWS);
        if left == FEW_ROWS {
            return Ok(true);
        }
        if left < SOME_ROWS {
            return Ok(false);
        }
        Ok(!self.is_risen(node)?)
    }

    /// Makes the index of a node's list, where that is long and many rows are left to be looked up there; unless it is there
    /// already. The rows are looked at only where the list is long, and where it is not known how many they are: behind the last one
    /// there may be leaves without rows, which have to be passed to see that none is left. It is made at the expense of those of lists
    /// with fewer than twice as many entries: to make them again takes no more than a few times what this one does.
    pub(crate) fn turn(&mut self, alloc: Global, node: Node, rest: &Rest) -> Result<(), Fault>
        requires { AreIndexes (table_of_node node) self.old }
        ensures index { AreIndexes (table_of_node node.entry) self.new }
        ensures memory { IfErr result (λ f. f ≡ no_memory) }
    {
        if self.of_list(node).is_some() || !is_long(node) {
            return Ok(());
        }
        if !self.pays(node, rest)? {
            return Ok(());
        }
        let entries = entries_of(node);
        self.give_way(entries);
        let index = ListIndex::of(alloc, node)?;
        self.held.push(HeldIndex { entries, index })?;
        Ok(())
    }

    /// The subnode of a node with an identifier, by the index of its list, where that is among them.
    pub(crate) fn subnode<'a>(&self, node: Node<'a>, nid: u32) -> Option<Node<'a>>
        requires { AreIndexes (table_of_node node) self.now }
        ensures nid { IfSome result (λ s. nid_of s ≡ nid) }
        ensures roots { let t = table_of_node node.entry in
            option_map roots_of result ≡ subnode_of t (roots_of node.entry) nid }
        ensures table { IfSome result (λ s. table_of_node s ≡ table_of_node node.entry) }
    {
        match self.of_list(node) {
            Some(index) => index.subnode(node, nid),
            None => node.sub(nid),
        }
    }
}
