//! Which numbers were met in a turn, with nothing to wipe before the next.

ghost use Rattle.std.specs.Prelude.{◌≡◌};

use pst_fault::Fault;
use std::alloc::Global;

// Of each number the turn in which it was met last, and the turn that goes on. Turns are counted round and round: a number
// that was last met so long ago is taken for one that was met in this turn.
#[derive(Drop)]
pub(crate) struct Stamps {
    stamps: Vec<u32>,
    turn: u32,
}

impl Stamps {
    ghost use Rattle.std.specs.Prelude.{◌≡◌, ℕ, List, true, None, ◌++◌, [], ◌∷◌, IfErr};
    ghost use Rattle.pst_fault.specs.Fault.{no_memory};
    ghost use Rattle.pst_subnode.specs.Numbers.{AreMetOnce};

    // No number was met. No memory is taken.
    pub(crate) fn new(alloc: Global) -> Stamps {
        Stamps {
            stamps: Vec::new(alloc),
            turn: 0,
        }
    }

    // A new turn, for so many numbers; or memory is refused.
    pub(crate) fn begin(&mut self, count: usize) -> Result<(), Fault>
        ensures { IfErr result (λ f. f ≡ no_memory) }
    {
        if self.stamps.len() < count {
            self.stamps.resize(count, self.turn)?;
        }
        self.turn = self.turn.wrapping_add(1);
        Ok(())
    }

    // Meets a number, and says whether it is met in this turn for the first time; where it has no stamp, that is not known.
    #[tactic(auto, using(crate::proofs::StampLemmas::one_met))]
    fn meet(&mut self, number: u32) -> bool
        ensures { result ≡ true → (before : List ℕ) → AreMetOnce self.old before →
            AreMetOnce self.new (before ++ number ∷ []) }
    {
        let at = number as usize;
        if at >= self.stamps.len() || self.stamps[at] == self.turn {
            return false;
        }
        self.stamps[at] = self.turn;
        true
    }

    // Meets numbers, one after another, up to one that is not met in this turn for the first time, as far as that is known: how
    // many stand before it.
    pub(crate) fn meet_all(&mut self, numbers: &[u32]) -> Option<u16>
        ensures { result ≡ None → (before : List ℕ) → AreMetOnce self.old before →
            AreMetOnce self.new (before ++ numbers.now) }
    {
        let mut before: u16 = 0;
        for number in numbers {
            if !self.meet(*number) {
                return Some(before);
            }
            before = before.wrapping_add(1);
        }
        None
    }
}
