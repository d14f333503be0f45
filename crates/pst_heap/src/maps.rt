//! What is already known of page maps.

use pst_fault::Fault;
use std::alloc::{AllocError, Global};
use std::collections::{BTreeMap, BTreeSet};

/// What is already known of page maps: the data trees whose spans all have good ones, and the first fault of those of others. A check
/// that is given this passes the former over, and tells the latter, so what heaps share is looked at once. Where memory is refused
/// to a fault it is not remembered, and no answer depends on that.
#[derive(Drop)]
pub struct PageMaps {
    // The block identifiers of those that are good, as they were written where they were met.
    trees: BTreeSet<u64>,
    // By those of the others, their first faults, of no context.
    broken: BTreeMap<u64, Fault>,
}

impl PageMaps {
    ghost use Rattle.std.specs.Prelude.{◌≡◌, Some, None, IfErr};
    ghost use Rattle.pst_fault.specs.Fault.{no_memory};
    ghost use Rattle.pst_ndb.specs.pst_block.Table.{Table};
    ghost use Rattle.pst_heap.specs.PageMaps.{page_maps_fault, broken_of, knows_maps, AreMapsTrue};

    /// Nothing is known. No memory is taken.
    #[tactic(auto, using(crate::proofs::KnownLemmas::nothing_true))]
    pub fn new(alloc: Global) -> PageMaps
        ensures { (t : Table) → AreMapsTrue t result }
    {
        PageMaps {
            trees: BTreeSet::new(alloc),
            broken: BTreeMap::new(alloc),
        }
    }

    // Whether the page maps of a data tree are known to be good.
    #[tactic(auto, unfolding(crate::specs::PageMaps::knows_maps))]
    pub(crate) fn knows(&self, bid: u64) -> bool
        ensures { result ≡ knows_maps self.now bid }
    {
        self.trees.contains(&bid)
    }

    // They are known from now on; or memory is refused.
    #[tactic(auto, using(crate::proofs::KnownLemmas::put_true))]
    pub(crate) fn put(&mut self, bid: u64) -> Result<(), Fault>
        ensures known { (t : Table) → page_maps_fault t bid ≡ None →
            AreMapsTrue t self.old → AreMapsTrue t self.new }
        ensures memory { IfErr result (λ f. f ≡ no_memory) }
    {
        self.trees.insert(bid)?;
        Ok(())
    }

    // The first fault of the page maps of a data tree, if it is remembered.
    #[tactic(auto, unfolding(crate::specs::PageMaps::broken_of))]
    pub(crate) fn fault(&self, bid: u64) -> Option<Fault>
        ensures { result ≡ broken_of self.now bid }
    {
        self.broken.get(&bid).copied()
    }

    // Remembers a fault. AllocError where memory is refused.
    #[tactic(auto, using(crate::proofs::KnownLemmas::broken_put, crate::proofs::KnownLemmas::broken_same))]
    fn keep_fault(&mut self, bid: u64, fault: Fault) -> Result<(), AllocError>
        ensures { (t : Table) → page_maps_fault t bid ≡ Some fault →
            AreMapsTrue t self.old → AreMapsTrue t self.new }
    {
        self.broken.insert(bid, fault)?;
        Ok(())
    }

    // The first fault of the page maps of a data tree is remembered.
    pub(crate) fn put_fault(&mut self, bid: u64, fault: Fault)
        ensures { (t : Table) → page_maps_fault t bid ≡ Some fault →
            AreMapsTrue t self.old → AreMapsTrue t self.new }
    {
        let _ = self.keep_fault(bid, fault);
    }
}
