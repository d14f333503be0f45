//! What is already known of entries.

use std::alloc::{AllocError, Global};
use std::collections::BTreeMap;

/// What is already known of entries: runs of them that lie side by side in the file, all of which keep a rule. A stream may name
/// one block from everywhere; what it shares is looked at once.
#[derive(Drop)]
pub(crate) struct Runs {
    // By the place in the file where a run begins: how many entries it has.
    runs: BTreeMap<u64, u64>,
}

impl Runs {
    ghost use Rattle.std.specs.Prelude.{◌≡◌, ◌≤◌, ℕ, Bool, Some, IsTrue, List};
    ghost use Rattle.pst_names.specs.Known.{run_at, IsGoodRun, AreRunsTrue};

    /// Nothing is known. No memory is taken.
    #[tactic(auto, using(crate::proofs::RunLemmas::nothing_true))]
    pub(crate) fn new(alloc: Global) -> Runs
        ensures { (good : List ℕ → Bool) (I : List ℕ) → AreRunsTrue good I result }
    {
        Runs {
            runs: BTreeMap::new(alloc),
        }
    }

    /// Whether so many entries from a place on are known to keep it.
    #[tactic(auto, unfolding(crate::specs::Known::run_at))]
    pub(crate) fn knows(&self, at: u64, count: u64) -> bool
        ensures { IsTrue result → (n : ℕ) × (run_at self.now at ≡ Some n) × (count ≤ n) }
    {
        match self.runs.get(&at) {
            Some(known) => count <= *known,
            None => false,
        }
    }

    /// They are known from now on; or memory is refused.
    pub(crate) fn put(&mut self, at: u64, count: u64) -> Result<(), AllocError>
        ensures { (good : List ℕ → Bool) (I : List ℕ) → IsGoodRun good I at count →
            AreRunsTrue good I self.old → AreRunsTrue good I self.new }
    {
        let _before = self.runs.insert(at, count)?;
        Ok(())
    }
}
