//! Where the parts of a data tree begin, as far as it is known.

ghost use Rattle.std.specs.Prelude.{◌≤◌};

// For every 32nd part behind the first one, how many spans come before it: of those that were come to, 32 at most.
#[derive(Clone, Copy)]
pub(crate) struct Marks {
    pub(crate) starts: [u64; 32],
    pub(crate) count: usize,
    ghost room: { count ≤ 32 },
}

impl Marks {
    ghost use Rattle.std.specs.Prelude.{◌≡◌, ℕ, ◌≤◌};
    ghost use Rattle.pst_datatree.specs.Marks.{AreMarks};

    // None is known.
    pub(crate) fn none() -> Marks
        ensures { (start : ℕ → ℕ) → AreMarks start result }
    {
        Marks {
            starts: [0; 32],
            count: 0,
        }
    }

    // The last part that is marked and does not begin behind the span with a number, else the first one; and how many spans
    // come before it.
    pub(crate) fn last(&self, n: u64) -> (u16, u64)
        ensures start { (start : ℕ → ℕ) → start 0 ≡ 0 → AreMarks start self.now →
            result.1 ≡ start result.0 }
        ensures before { result.1 ≤ n }
    {
        let mut found = (0u16, 0u64);
        for k in 0..self.count {
            let start = self.starts[k];
            if start > n {
                break;
            }
            found = (32 * (k as u16 + 1), start);
        }
        found
    }

    // How many spans come before a part: it is kept where the part is the next one to be marked.
    pub(crate) fn add(&mut self, part: u16, before: u64)
        ensures { (start : ℕ → ℕ) → AreMarks start self.old → before ≡ start part →
            AreMarks start self.new }
    {
        if self.count < 32 && usize::from(part) == 32 * (self.count + 1) {
            self.starts[self.count] = before;
            self.count += 1;
        }
    }
}
