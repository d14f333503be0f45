//! The faults that were met below lists of subnodes.

ghost use Rattle.std.specs.Prelude.{◌≡◌, true};
ghost use Rattle.pst_fault.specs.declared.kind.Kind.TheVariants.{NoMemory};
ghost use Rattle.pst_subnode.specs.Tree.{nesting};

use crate::frame::{Below, Frame};
use crate::steps::nesting_fault;
use pst_fault::{Fault, Kind};
use std::alloc::{AllocError, Global};
use std::collections::{BTreeMap, BTreeSet};

// A fault of a list, or of what lies below it, and where so many lists may nest it was found.
#[derive(Clone, Copy)]
pub(crate) struct Found {
    pub(crate) least: u16,
    pub(crate) fault: Fault,
}

// Whether a fault is worth being remembered: not that memory was refused, nor that the block of the identifier is missing,
// which is told by one look-up.
fn is_worth(bid: u64, fault: Fault) -> bool
    ensures { result ≡ true → fault.kind ≡ NoMemory → ⊥ }
{
    match fault.kind {
        Kind::NoMemory => false,
        Kind::BlockMissing => fault.place.bid != bid,
        _ => true,
    }
}

// Whether lists nest too deep.
fn is_nesting(fault: Fault) -> bool
    ensures { result ≡ true → fault ≡ nesting }
{
    fault == nesting_fault()
}

/// The faults that were met below lists of subnodes, so that what is broken is gone through once, however many lists lead to
/// it. Where memory is refused to them they remember less, and no answer depends on that.
#[derive(Drop)]
pub struct SubFaults {
    // Of lists, by their identifiers as they are written.
    lists: BTreeMap<u64, Found>,
    // Where lists nest too deep, how many might.
    deep: BTreeMap<u64, u16>,
    // Of the data of subnodes.
    content: BTreeMap<u64, Fault>,
    // SIBLOCKs whose own blocks have no fault, by their identifiers as they are written: what is broken lies below them.
    whole: BTreeSet<u64>,
}

impl SubFaults {
    ghost use Rattle.std.specs.Prelude.{◌≡◌, Some, None, IfSome};
    ghost use Rattle.pst_fault.specs.First.{IsFirst};
    ghost use Rattle.pst_block.specs.Table.{Table};
    ghost use Rattle.pst_datatree.specs.Data.{data_fault};
    ghost use Rattle.pst_subnode.specs.List.{list_fault};
    ghost use Rattle.pst_subnode.specs.Tree.{sub_fault};
    ghost use Rattle.pst_subnode.specs.Faults.{found_of, deep_of, content_of, has_whole, IsFoundIn, IsDeep, AreSubFaultsTrue};

    /// None yet. No memory is taken.
    pub fn new(alloc: Global) -> SubFaults
        ensures { (t : Table) → AreSubFaultsTrue t result }
    {
        SubFaults {
            lists: BTreeMap::new(alloc),
            deep: BTreeMap::new(alloc),
            content: BTreeMap::new(alloc),
            whole: BTreeSet::new(alloc),
        }
    }

    // The fault of a list where so many may nest, if one is remembered that tells it.
    pub(crate) fn list(&self, bid: u64, limit: u16) -> Option<Fault>
        ensures { (t : Table) → AreSubFaultsTrue t self.now →
            IfSome result (λ f. sub_fault t limit bid ≡ Some f) }
    {
        if let Some(found) = self.found(bid) {
            if found.least <= limit {
                return Some(found.fault);
            }
        }
        if let Some(most) = self.depth(bid) {
            if limit <= most {
                return Some(nesting_fault());
            }
        }
        None
    }

    // What is remembered of a list.
    #[tactic(auto, unfolding(crate::specs::Faults::found_of))]
    fn found(&self, bid: u64) -> Option<Found>
        ensures { result ≡ found_of self.now bid }
    {
        self.lists.get(&bid).copied()
    }

    // How many lists might nest where they nested too deep.
    #[tactic(auto, unfolding(crate::specs::Faults::deep_of))]
    fn depth(&self, bid: u64) -> Option<u16>
        ensures { result ≡ deep_of self.now bid }
    {
        self.deep.get(&bid).copied()
    }

    // The fault of the data of a subnode, if it is remembered.
    #[tactic(auto, unfolding(crate::specs::Faults::content_of))]
    pub(crate) fn content(&self, bid: u64) -> Option<Fault>
        ensures { result ≡ content_of self.now bid }
    {
        self.content.get(&bid).copied()
    }

    // Whether the own blocks of a list are remembered to have no fault.
    #[tactic(auto, unfolding(crate::specs::Faults::has_whole))]
    pub(crate) fn is_whole(&self, bid: u64) -> bool
        ensures { result ≡ has_whole self.now bid }
    {
        self.whole.contains(&bid)
    }

    // Remembers that the own blocks of a list have no fault. AllocError where memory is refused.
    fn keep_whole(&mut self, bid: u64) -> Result<(), AllocError>
        ensures { (t : Table) → list_fault t bid ≡ None →
            AreSubFaultsTrue t self.old → AreSubFaultsTrue t self.new }
    {
        self.whole.insert(bid)?;
        Ok(())
    }

    // Remembers a fault of a list. AllocError where memory is refused.
    fn keep_found(&mut self, bid: u64, found: Found) -> Result<(), AllocError>
        ensures { (t : Table) → IsFoundIn t bid found →
            AreSubFaultsTrue t self.old → AreSubFaultsTrue t self.new }
    {
        self.lists.insert(bid, found)?;
        Ok(())
    }

    // Remembers where lists nest too deep. AllocError where memory is refused.
    fn keep_deep(&mut self, bid: u64, most: u16) -> Result<(), AllocError>
        ensures { (t : Table) → IsDeep t bid most →
            AreSubFaultsTrue t self.old → AreSubFaultsTrue t self.new }
    {
        self.deep.insert(bid, most)?;
        Ok(())
    }

    // Remembers the fault of data. AllocError where memory is refused.
    fn keep_content(&mut self, bid: u64, fault: Fault) -> Result<(), AllocError>
        ensures { (t : Table) → data_fault t bid ≡ Some fault →
            AreSubFaultsTrue t self.old → AreSubFaultsTrue t self.new }
    {
        self.content.insert(bid, fault)?;
        Ok(())
    }

    // Remembers the fault of a list where so many may nest: nesting for no more of them, any other for no fewer. That memory
    // was refused is none, and that the block of the list itself is missing is told by one look-up.
    pub(crate) fn put_list(&mut self, bid: u64, limit: u16, fault: Fault)
        ensures { (t : Table) → IsFirst (sub_fault t limit bid) fault →
            AreSubFaultsTrue t self.old → AreSubFaultsTrue t self.new }
    {
        match fault.kind {
            Kind::NoMemory => {}
            Kind::Nesting => {
                if is_nesting(fault) {
                    let _ = self.keep_deep(bid, limit);
                }
            }
            _ => {
                if is_worth(bid, fault) {
                    let _ = self.keep_found(
                        bid,
                        Found {
                            least: limit,
                            fault,
                        },
                    );
                }
            }
        }
    }

    // Remembers the fault of a list that was opened; and of an SIBLOCK, which may spell many entries, that its own blocks have none.
    pub(crate) fn put_opened(&mut self, frame: Frame, fault: Fault)
        ensures { (t : Table) → list_fault t frame.entry.bid ≡ None →
            IsFirst (sub_fault t frame.entry.limit frame.entry.bid) fault →
            AreSubFaultsTrue t self.old → AreSubFaultsTrue t self.new }
    {
        if let Below::Leaves(_) = frame.below {
            let _ = self.keep_whole(frame.bid);
        }
        self.put_list(frame.bid, frame.limit, fault);
    }

    // Remembers the fault of the data of a subnode.
    pub(crate) fn put_content(&mut self, bid: u64, fault: Fault)
        ensures { (t : Table) → IsFirst (data_fault t bid) fault →
            AreSubFaultsTrue t self.old → AreSubFaultsTrue t self.new }
    {
        if is_worth(bid, fault) {
            let _ = self.keep_content(bid, fault);
        }
    }
}
