//! An order of rules, cut into parts under a cap on the words of each.

ghost use Rattle.std.specs.Prelude.{◌≡◌, ◌≤◌, length, IfOk, IfSome};
ghost use Rattle.table_sizes.specs.Sizes.{max_tries, max_words};
ghost use Rattle.rule_order.specs.Cut.{AreParts, HoldAll, IsOrder};

use crate::part::longest_part;
use rule_set::RuleSet;
use std::alloc::{AllocError, Global};
use table_sizes::{MAX_TRIES, MAX_WORDS, ROW_LEN};
use trie_merge::Levels;

/// In how many steps a list is cut.
const STEPS: usize = 32;

/// Parts of an order of rules, from the first rule on.
#[derive(Drop)]
pub(crate) struct Cut {
    /// The merged states of each part.
    pub(crate) levels: Vec<Levels>,
    /// The words of a table of them.
    pub(crate) total: u64,
    /// How many rules they have.
    taken: usize,
}

impl Cut {
    ghost use Rattle.std.specs.Prelude.{◌≡◌, ◌+◌, ◌∷◌, [], ◌++◌, ◌<◌, ◌≤◌, length, OnOk, IfSome};
    ghost use Rattle.table_sizes.specs.Sizes.{max_tries, max_words, row_len};
    ghost use Rattle.rule_order.specs.Cut.{AreParts, HoldAll, IsOrder};

    /// No part yet.
    fn new(alloc: Global) -> Self
        ensures levels { result.levels.items ≡ [] }
        ensures total { result.total ≡ row_len }
        ensures taken { result.taken ≡ 0 }
    {
        Cut {
            levels: Vec::new(alloc),
            total: ROW_LEN as u64,
            taken: 0,
        }
    }

    /// Takes the part after the others.
    fn push(&mut self, part: Levels) -> Result<(), AllocError>
        requires words { self.old.total + part.words ≤ max_words }
        requires rules { self.old.taken + length part.group < 18446744073709551616 }
        ensures levels { OnOk result
            (self.new.levels.items ≡ self.old.levels.items ++ part ∷ []) }
        ensures total { OnOk result (self.new.total ≡ self.old.total + part.words) }
        ensures taken { OnOk result (self.new.taken ≡ self.old.taken + length part.group) }
    {
        self.total += part.words();
        self.taken += part.group().len();
        self.levels.push(part)?;
        Ok(())
    }

    /// Takes one part more, if a rule is left. It is false where none fits.
    fn take_part(
        &mut self,
        alloc: Global,
        rules: &RuleSet,
        order: &[u32],
        step: usize,
        cap: u64,
    ) -> Result<bool, AllocError>
        requires order { IsOrder rules.now order.now }
        requires parts { AreParts rules.now order.now self.old.levels.items self.old.taken
            self.old.total }
        requires cap { cap ≤ max_words }
        ensures parts { OnOk result (AreParts rules.now order.now self.new.levels.items
            self.new.taken self.new.total) }
        ensures few { OnOk result
            (length self.new.levels.items ≤ length self.old.levels.items + 1) }
    {
        let (_, left) = order.split_at(self.taken);
        if left.is_empty() {
            return Ok(true);
        }
        let room = MAX_WORDS as u64 - self.total;
        match longest_part(alloc, rules, left, step, cap.min(room))? {
            Some(part) => {
                self.push(part)?;
                Ok(true)
            }
            None => Ok(false),
        }
    }

    /// The cut, if no rule is left.
    fn finish(self, _rules: &RuleSet, order: &[u32]) -> Option<Cut>
        requires order { IsOrder _rules.now order.now }
        requires parts { AreParts _rules.now order.now self.levels.items self.taken self.total }
        requires few { length self.levels.items ≤ max_tries }
        ensures { IfSome result (λ cut. HoldAll _rules.now cut.levels.items) }
    {
        if self.taken < order.len() {
            return None;
        }
        Some(self)
    }

    /// What a key costs, about, in sixteenths of the time of a byte: 16 for each kept place, and
    /// 128 for each doubling of a trie's words above 4,096.
    pub(crate) fn cost(&self) -> u64 {
        let mut cost = 0u64;
        for levels in self.levels.iter() {
            let places = (levels.depths() as u64).saturating_mul(16);
            let above = doublings(levels.words()).saturating_sub(doublings(4096));
            cost = cost.saturating_add(places.saturating_add(above.saturating_mul(8)));
        }
        cost
    }
}

/// The logarithm of a number to the base 2 in sixteenths, on straight lines between powers of 2.
fn doublings(number: u64) -> u64 {
    let whole = number.checked_ilog2().unwrap_or(0);
    let part = number.saturating_mul(16).checked_shr(whole).unwrap_or(16);
    u64::from(whole)
        .saturating_mul(16)
        .saturating_add(part.saturating_sub(16))
}

/// The order in one part, if its words are within the cap.
pub(crate) fn cut_once(
    alloc: Global,
    rules: &RuleSet,
    order: &[u32],
    cap: u64,
) -> Result<Option<Cut>, AllocError>
    requires order { IsOrder rules.now order.now }
    requires cap { cap ≤ max_words }
    ensures { IfOk result (λ found. IfSome found (λ cut. HoldAll rules.now cut.levels.items)) }
{
    let mut cut = Cut::new(alloc);
    // One step is the whole list.
    if !cut.take_part(alloc, rules, order, order.len(), cap)? {
        return Ok(None);
    }
    Ok(cut.finish(rules, order))
}

/// The order in at most eight parts, each as long as the cap on its words allows, or none if eight
/// don't suffice.
pub(crate) fn cut_under(
    alloc: Global,
    rules: &RuleSet,
    order: &[u32],
    cap: u64,
) -> Result<Option<Cut>, AllocError>
    requires order { IsOrder rules.now order.now }
    requires cap { cap ≤ max_words }
    ensures { IfOk result (λ found. IfSome found (λ cut. HoldAll rules.now cut.levels.items)) }
{
    let step = order.len().div_ceil(STEPS);
    let mut cut = Cut::new(alloc);
    for _ in 0..MAX_TRIES {
        if !cut.take_part(alloc, rules, order, step, cap)? {
            return Ok(None);
        }
    }
    Ok(cut.finish(rules, order))
}
