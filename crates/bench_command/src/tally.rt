//! How many verdicts aren't 0, and their sum.

ghost use Rattle.std.specs.Prelude.{◌≡◌, ◌+◌, ◌≤◌, ◌∷◌, []};
ghost use Rattle.bench_command.specs.Tally.{HasRoom, with_verdicts};

/// What verdicts come to.
#[derive(Clone, Copy, Default)]
pub struct Tally {
    /// How many aren't 0.
    pub hits: u64,
    /// All of them together.
    pub sum: u64,
}

impl Tally {
    /// One verdict more. There is room for it in both numbers.
    pub fn add(&mut self, verdict: u32)
        requires room { HasRoom self.old 1 }
        ensures tally { self.new ≡ with_verdicts self.old (verdict ∷ []) }
        ensures hits { self.new.hits ≤ self.old.hits + 1 }
        ensures sum { self.new.sum ≡ self.old.sum + verdict }
    {
        if verdict != 0 {
            self.hits += 1;
        }
        self.sum += u64::from(verdict);
    }
}
