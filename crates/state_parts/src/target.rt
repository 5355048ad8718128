//! What bytes lead to.

use crate::parts::Parts;
use crate::rows::Rows;
use std::alloc::AllocError;

/// What the bytes of a place lead to: numbered parts of the next place, or after the last place
/// numbered rows. Number 0 is nothing.
#[derive(Drop)]
pub enum Target {
    /// Parts of the next place.
    Parts(Parts),
    /// Rows.
    Rows(Rows),
}

impl Target {
    ghost use Rattle.std.specs.Prelude.{◌≡◌, ℕ, ◌≤◌, ◌⊎◌, OnOk, IfOk};
    ghost use Rattle.state_parts.specs.Target.{count, Grows, IsEntryIn, JoinsIn, HasEntry};

    /// The number of one entry. It takes memory where what is numbered is new.
    pub fn entry(&mut self, entry: u32) -> Result<u32, AllocError>
        ensures grows { OnOk result (Grows self.old self.new) }
        ensures entry { IfOk result (λ number. IsEntryIn self.new entry number) }
        ensures within { IfOk result (λ number. number ≤ count self.new) }
        ensures entries { OnOk result
            ((other : ℕ) → HasEntry self.new other → HasEntry self.old other ⊎ (other ≡ entry)) }
    {
        match self {
            Target::Parts(parts) => parts.entry(entry),
            Target::Rows(rows) => rows.entry(entry),
        }
    }

    /// The number of two together, of which each may be 0. It takes memory where what is numbered
    /// is new.
    #[inline(always)]
    pub fn join(&mut self, left: u32, right: u32) -> Result<u32, AllocError>
        requires left { left ≤ count self.old }
        requires right { right ≤ count self.old }
        ensures grows { OnOk result (Grows self.old self.new) }
        ensures joins { IfOk result (λ number. JoinsIn self.new left right number) }
        ensures within { IfOk result (λ number. number ≤ count self.new) }
        ensures entries { OnOk result
            ((entry : ℕ) → HasEntry self.new entry → HasEntry self.old entry) }
    {
        match self {
            Target::Parts(parts) => parts.join(left, right),
            Target::Rows(rows) => rows.join(left, right),
        }
    }
}
