//! Numbered parts of one place.

use crate::pair_set::PairSet;
use std::alloc::{AllocError, Global};
use std::marker::Model;

/// The parts of one place. Contracts see the pairs in the order of their numbers: a pair whose left
/// part is 0 is an entry.
#[derive(Drop)]
pub struct Parts {
    pairs: PairSet,
}

impl Model for Parts {
    ghost use Rattle.std.specs.Prelude.{List, ℕ};
    ghost use Rattle.state_parts.specs.Keys.{AreLower, AreDistinct};

    ghost Value = { List (ℕ × ℕ) };

    ghost view = { λ p. p.pairs.keys };

    ghost invariant = { λ p. AreLower p.pairs.keys × AreDistinct p.pairs.keys };
}

impl Parts {
    ghost use Rattle.std.specs.Prelude.{◌≡◌, ℕ, ◌<◌, ◌≤◌, ◌+◌, ◌++◌, [], List, length, true, ◌⊎◌};
    ghost use Rattle.std.specs.Prelude.{OnOk, IfOk, slice_index_or, Contains};
    ghost use Rattle.state_parts.specs.Keys.{same_pair, KeyAt, has_entry};
    ghost use Rattle.state_parts.specs.Tree.{Joins};
    ghost use Rattle.state_parts.specs.Joined.{IsAll};

    /// No parts, with room for so many. It takes the memory of that room.
    pub fn with_room(alloc: Global, count: usize) -> Result<Self, AllocError>
        ensures { IfOk result (λ parts. parts ≡ []) }
    {
        Ok(Parts {
            pairs: PairSet::with_room(alloc, count)?,
        })
    }

    /// How many parts there are.
    pub fn len(&self) -> usize
        ensures { result ≡ length self.now }
    {
        self.pairs.len()
    }

    /// The pair of the part of the number `index + 1`.
    pub fn pair(&self, index: usize) -> (u32, u32)
        requires { index < length self.now }
        ensures pair { result ≡ slice_index_or self.now index (0, 0) }
        ensures lower { 0 < result.0 →
            (result.0 ≤ index) × (0 < result.1) × (result.1 ≤ index) }
        ensures part { KeyAt same_pair self.now result (index + 1) }
    {
        self.pairs.at(index)
    }

    /// The number of the part of the pair. It takes memory where the part is new.
    #[inline(never)]
    fn number(&mut self, pair: (u32, u32)) -> Result<u32, AllocError>
        requires { 0 < pair.0 →
            (pair.0 ≤ length self.old) × (0 < pair.1) × (pair.1 ≤ length self.old) }
        ensures grows { OnOk result ((more : List (ℕ × ℕ)) × (self.new ≡ self.old ++ more)) }
        ensures number { IfOk result (λ number. KeyAt same_pair self.new pair number) }
        ensures within { IfOk result (λ number. number ≤ length self.new) }
        ensures entries { OnOk result ((entry : ℕ) → has_entry self.new entry ≡ true →
            (has_entry self.old entry ≡ true) ⊎ (same_pair (0, entry) pair ≡ true)) }
    {
        let number = self.pairs.insert(pair)?;
        Ok(number)
    }

    /// The number of the part that is the one entry. It takes memory where the part is new.
    pub fn entry(&mut self, entry: u32) -> Result<u32, AllocError>
        ensures grows { OnOk result ((more : List (ℕ × ℕ)) × (self.new ≡ self.old ++ more)) }
        ensures entry { IfOk result (λ number. KeyAt same_pair self.new (0, entry) number) }
        ensures within { IfOk result (λ number. number ≤ length self.new) }
        ensures entries { OnOk result ((other : ℕ) → has_entry self.new other ≡ true →
            (has_entry self.old other ≡ true) ⊎ (other ≡ entry)) }
    {
        self.number((0, entry))
    }

    /// The number of two parts together, of which each may be 0 for nothing. It takes memory where
    /// their pair is new.
    #[inline(always)]
    pub fn join(&mut self, left: u32, right: u32) -> Result<u32, AllocError>
        requires left { left ≤ length self.old }
        requires right { right ≤ length self.old }
        ensures grows { OnOk result ((more : List (ℕ × ℕ)) × (self.new ≡ self.old ++ more)) }
        ensures joins { IfOk result (λ number. Joins self.new left right number) }
        ensures within { IfOk result (λ number. number ≤ length self.new) }
        ensures entries { OnOk result ((entry : ℕ) → has_entry self.new entry ≡ true →
            has_entry self.old entry ≡ true) }
    {
        if left == 0 {
            return Ok(right);
        }
        if right == 0 {
            return Ok(left);
        }
        self.number((left, right))
    }

    /// The number of all entries together, the halves of the list as a pair. There is one entry or
    /// more. It takes memory where a part is new.
    pub fn join_all(&mut self, entries: &[u32]) -> Result<u32, AllocError>
        requires { 0 < length entries.now }
        ensures grows { OnOk result ((more : List (ℕ × ℕ)) × (self.new ≡ self.old ++ more)) }
        ensures all { IfOk result (λ number. IsAll self.new entries.now number) }
        ensures within { IfOk result (λ number. number ≤ length self.new) }
        ensures entries { OnOk result ((entry : ℕ) → has_entry self.new entry ≡ true →
            (has_entry self.old entry ≡ true) ⊎ Contains entries.now entry) }
    {
        if entries.len() == 1 {
            let number = self.entry(entries[0])?;
            return Ok(number);
        }
        let (left, right) = entries.split_at(entries.len() / 2);
        let one = self.join_all(left)?;
        let other = self.join_all(right)?;
        let number = self.join(one, other)?;
        Ok(number)
    }
}
