//! The faults of parts of nodes that were met.

ghost use Rattle.std.specs.Prelude.{◌≡◌, true};
ghost use Rattle.pst_remembered.specs.Faults.{IsTold};

use pst_fault::{Fault, Kind};
use std::alloc::{AllocError, Global};
use std::collections::BTreeMap;

/// A part of a node: the identifiers of the blocks of its data and of its subnodes, as they are written, and a number.
pub type Part = ((u64, u64), u64);

// Whether a fault is worth being remembered: not that memory was refused, nor that the first block of the part is missing, which
// is told by one look-up.
fn is_worth(part: Part, fault: Fault) -> bool
    ensures { result ≡ true → IsTold fault }
{
    match fault.kind {
        Kind::NoMemory => false,
        Kind::BlockMissing => fault.place.bid != part.0.0 && fault.place.bid != part.0.1,
        _ => true,
    }
}

/// The faults of parts that were met, by the part: so a part that is broken is gone through once, however many nodes lead to it.
#[derive(Drop)]
pub struct Faults {
    faults: BTreeMap<Part, Fault>,
}

impl Faults {
    ghost use Rattle.std.specs.Prelude.{◌≡◌, Option, Err};
    ghost use Rattle.pst_fault.specs.declared.fault.Fault.{Fault as SpecFault};
    ghost use Rattle.pst_fault.specs.First.{IsFirst, Tells};
    ghost use Rattle.pst_remembered.specs.Faults.{Parts, Retelling, IsFaultOf, fault_kept, AreFaultsOf, IsTold};

    /// None yet. No memory is taken.
    pub fn new(alloc: Global) -> Faults
        ensures { (retell : Retelling) (parts : Parts) → AreFaultsOf retell parts result }
    {
        Faults {
            faults: BTreeMap::new(alloc),
        }
    }

    // The fault that is remembered of a part. A whole store has none, so this stands apart.
    #[cold]
    #[inline(never)]
    #[tactic(auto, unfolding(crate::specs::Faults::fault_kept))]
    fn find(&self, part: Part) -> Option<Fault>
        ensures { result ≡ fault_kept self.now part }
    {
        self.faults.get(&part).copied()
    }

    /// The fault that is remembered of a part.
    #[tactic(auto, using(crate::proofs::FaultsLemmas::empty_kept))]
    pub fn get(&self, part: Part) -> Option<Fault>
        ensures { result ≡ fault_kept self.now part }
    {
        if self.faults.is_empty() {
            return None;
        }
        self.find(part)
    }

    /// Remembers the fault of a part, where that pays. AllocError where memory is refused.
    pub fn remember(&mut self, part: Part, fault: Fault) -> Result<(), AllocError>
        ensures { (retell : Retelling) (parts : Parts) →
            (IsTold fault → IsFaultOf retell parts part fault) →
            AreFaultsOf retell parts self.old → AreFaultsOf retell parts self.new }
    {
        if is_worth(part, fault) {
            self.faults.insert(part, fault)?;
        }
        Ok(())
    }

    // Remembers the fault of a part, and hands it on. A whole store has none, so this stands apart.
    #[cold]
    #[inline(never)]
    fn refuse(&mut self, part: Part, fault: Fault) -> Result<(), Fault>
        ensures known { (retell : Retelling) (parts : Parts) →
            (IsTold fault → IsFaultOf retell parts part fault) →
            AreFaultsOf retell parts self.old → AreFaultsOf retell parts self.new }
        ensures same { (first : Option SpecFault) → IsFirst first fault → Tells result first tt }
    {
        self.remember(part, fault)?;
        Err(fault)
    }

    /// What a check of a part answers, whose fault is remembered from then on. NoMemory where memory is refused.
    pub fn keep(&mut self, part: Part, answer: Result<(), Fault>) -> Result<(), Fault>
        ensures known { (retell : Retelling) (parts : Parts) →
            ((f : SpecFault) → answer ≡ Err f → IsTold f → IsFaultOf retell parts part f) →
            AreFaultsOf retell parts self.old → AreFaultsOf retell parts self.new }
        ensures same { (first : Option SpecFault) → Tells answer first tt → Tells result first tt }
    {
        match answer {
            Ok(()) => Ok(()),
            Err(fault) => self.refuse(part, fault),
        }
    }
}
