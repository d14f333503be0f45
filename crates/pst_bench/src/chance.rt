//! Numbers that a seed decides.

use rand_core::utils::NextWord;
use rand_pcg::Pcg32;

/// A run of numbers, another one for each seed.
#[derive(Drop)]
pub(crate) struct Chance {
    words: Pcg32,
}

impl Chance {
    ghost use Rattle.std.specs.Prelude.{◌≡◌, ◌<◌};

    /// The run of a seed.
    pub(crate) fn new(seed: u64) -> Chance {
        Chance {
            words: Pcg32::new(seed, 54),
        }
    }

    /// A number below a limit, 0 where that is 0.
    pub(crate) fn below(&mut self, limit: u32) -> u32
        ensures below { 0 < limit → result < limit }
        ensures none { limit ≡ 0 → result ≡ 0 }
    {
        let word = self.words.next_word();
        if limit == 0 { 0 } else { word % limit }
    }

    /// A number from the least on, below it doubled so many times: each doubling is as likely.
    pub(crate) fn spread(&mut self, least: u32, doublings: u32) -> u32 {
        let mut base = least;
        for _ in 0..self.below(doublings) {
            base = base.saturating_mul(2);
        }
        base.saturating_add(self.below(base))
    }
}
