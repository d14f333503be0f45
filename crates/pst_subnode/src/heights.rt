//! What is already known of subnode lists.

ghost use Rattle.std.specs.Prelude.{◌≡◌, ◌≤◌};

use crate::ranges::Ranges;
use crate::states::States;
use pst_fault::Fault;
use pst_page::PageKind;
use std::alloc::Global;

/// What is already known of subnode lists: the heights of those that were found without fault, which each walk passes over,
/// which lists are being expanded, and where the identifiers in SLBLOCKs lie that rise.
#[derive(Drop)]
pub struct Heights {
    // By the keys of the lists: a height, or 0 for a list that is being expanded.
    pub(crate) states: States,
    pub(crate) expansions: u64,
    pub(crate) ranges: Ranges,
}

impl Heights {
    ghost use Rattle.std.specs.Prelude.{◌≡◌, ℕ, ◌+◌, ◌<◌, Some, None, cond, IfErr, OnOk, OnErr};
    ghost use Rattle.std.specs.List.Sorted.{IsStrictlySortedBy};
    ghost use Rattle.std.specs.Ordering.{nat_cmp, eq_by_cmp};
    ghost use Rattle.pst_fault.specs.Fault.{no_memory};
    ghost use Rattle.pst_block.specs.Block.{bid_key};
    ghost use Rattle.pst_block.specs.Table.{Table};
    ghost use Rattle.pst_datatree.specs.Seen.{raised};
    ghost use Rattle.pst_subnode.specs.Heights.{list_expansions, list_keys, state_at, state_of, known_lists, AreHeightsCounted, AreHeightsTrue};

    /// Nothing is known, and nothing has been expanded. No memory is taken.
    pub fn new(alloc: Global) -> Heights
        ensures counts { list_expansions result ≡ 0 }
        ensures known { (t : Table) → AreHeightsTrue t result }
        ensures none { known_lists result ≡ 0 }
        ensures empty { (key : ℕ) → state_at result key ≡ None }
    {
        Heights {
            states: States::new(alloc),
            expansions: 0,
            ranges: Ranges::new(alloc),
        }
    }

    /// How many SLBLOCKs and SIBLOCKs have been expanded, whose entries were followed: each once, however it was named. A
    /// list counts as soon as it is begun. The count stays at its greatest value.
    pub fn expansions(&self) -> u64
        ensures { result ≡ list_expansions self.now }
    {
        self.expansions
    }

    /// A law of what is known: the keys of the lists strictly rise.
    pub fn keys_rise(&self)
        ensures { IsStrictlySortedBy nat_cmp (list_keys self.now) }
    {
        self.states.keys_rise();
    }

    // What is known of a list.
    #[tactic(auto, unfolding(crate::specs::Heights::state_at))]
    pub(crate) fn state(&self, bid: u64) -> Option<u16>
        ensures { result ≡ state_of self.now bid }
    {
        self.states.get(PageKind::Bbt.key_of(bid))
    }

    // One list more is expanded.
    fn count_one(&mut self)
        ensures counts { list_expansions self.new ≡ raised (list_expansions self.old) 1 }
        ensures grows { list_expansions self.old ≤ list_expansions self.new }
        ensures states { self.new.states ≡ self.old.states }
        ensures ranges { self.new.ranges ≡ self.old.ranges }
    {
        self.expansions = self.expansions.saturating_add(1);
    }

    // A list has this state from now on. It is counted as expanded where nothing was known of it.
    #[tactic(auto, using(crate::proofs::StateLemmas::new_counted, crate::proofs::StateLemmas::old_counted), unfolding(crate::specs::Heights::state_at))]
    fn put(&mut self, bid: u64, state: u16) -> Result<(), Fault>
        ensures put { OnOk result ((key : ℕ) → state_at self.new key ≡
            cond (eq_by_cmp nat_cmp (bid_key bid) key) (Some state) (state_at self.old key)) }
        ensures same { OnErr result ((key : ℕ) → state_at self.new key ≡ state_at self.old key) }
        ensures memory { IfErr result (λ f. f ≡ no_memory) }
        ensures keeps { OnOk result (AreHeightsCounted self.old → AreHeightsCounted self.new) }
        ensures grows { list_expansions self.old ≤ list_expansions self.new }
        ensures ranges { self.new.ranges ≡ self.old.ranges }
    {
        if self.states.put(PageKind::Bbt.key_of(bid), state)? {
            self.count_one();
        }
        Ok(())
    }

    // Nothing is known of a list any more.
    #[tactic(auto, unfolding(crate::specs::Heights::state_at))]
    pub(crate) fn forget(&mut self, bid: u64)
        ensures put { (key : ℕ) → state_at self.new key ≡
            cond (eq_by_cmp nat_cmp (bid_key bid) key) None (state_at self.old key) }
        ensures counts { list_expansions self.new ≡ list_expansions self.old }
        ensures ranges { self.new.ranges ≡ self.old.ranges }
    {
        self.states.remove(PageKind::Bbt.key_of(bid));
    }

    // A list that nothing is known of is being expanded, and marked.
    #[tactic(auto, using(crate::proofs::StateLemmas::new_counted), unfolding(crate::specs::Heights::state_at))]
    pub(crate) fn begin(&mut self, bid: u64) -> Result<(), Fault>
        requires fresh { state_of self.old bid ≡ None }
        ensures put { OnOk result ((key : ℕ) → state_at self.new key ≡
            cond (eq_by_cmp nat_cmp (bid_key bid) key) (Some 0) (state_at self.old key)) }
        ensures same { OnErr result ((key : ℕ) → state_at self.new key ≡ state_at self.old key) }
        ensures memory { IfErr result (λ f. f ≡ no_memory) }
        ensures keeps { OnOk result (AreHeightsCounted self.old → AreHeightsCounted self.new) }
        ensures grows { list_expansions self.old ≤ list_expansions self.new }
        ensures ranges { self.new.ranges ≡ self.old.ranges }
    {
        self.states.add(PageKind::Bbt.key_of(bid), 0)?;
        self.count_one();
        Ok(())
    }

    // A list has this height; or memory is refused, and nothing is known of it any more.
    pub(crate) fn settle(&mut self, bid: u64, height: u16) -> Result<(), Fault>
        ensures put { OnOk result ((key : ℕ) → state_at self.new key ≡
            cond (eq_by_cmp nat_cmp (bid_key bid) key) (Some height) (state_at self.old key)) }
        ensures forgotten { OnErr result ((key : ℕ) → state_at self.new key ≡
            cond (eq_by_cmp nat_cmp (bid_key bid) key) None (state_at self.old key)) }
        ensures memory { IfErr result (λ f. f ≡ no_memory) }
        ensures keeps { OnOk result (AreHeightsCounted self.old → AreHeightsCounted self.new) }
        ensures grows { list_expansions self.old ≤ list_expansions self.new }
        ensures ranges { self.new.ranges ≡ self.old.ranges }
    {
        if let Err(fault) = self.put(bid, height) {
            self.forget(bid);
            return Err(fault);
        }
        Ok(())
    }
}
