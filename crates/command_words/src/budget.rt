//! How many words a table may have.

ghost use Rattle.std.specs.Prelude.{◌≡◌, ◌<◌, ◌≤◌, ◌↔◌, IsTrue, IsSome, IfSome};
ghost use Rattle.table_sizes.specs.Sizes.{max_words};
ghost use Rattle.command_words.specs.Options.{is_budget};

use table_sizes::MAX_WORDS;

/// How many words of 64 bits the table of each family may have.
#[derive(Clone, Copy)]
pub struct Budget {
    words: u64,
    ghost some: { 0 < words },
    /// A table never has more.
    ghost bound: { words ≤ max_words },
}

impl Budget {
    /// So many words, and None where they aren't from 1 to [`MAX_WORDS`]. It takes no memory.
    pub fn new(words: u64) -> Option<Budget>
        ensures some { IsSome result ↔ IsTrue (is_budget words) }
        ensures words { IfSome result (λ budget. budget.words ≡ words) }
    {
        if 1 <= words && words <= MAX_WORDS as u64 {
            Some(Budget { words })
        } else {
            None
        }
    }

    /// How many words these are.
    pub fn words(&self) -> u64
        ensures value { result ≡ self.now.words }
        ensures some { 0 < result }
        ensures bound { result ≤ max_words }
    {
        self.words
    }
}
