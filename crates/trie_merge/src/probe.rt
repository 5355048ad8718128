//! A look ahead at a group of which a place leads to very many states.
//!
//!     probe_places → probe_place → price_rest
//!                                → merge_place
//!
//! It goes down from there with the first states of each place alone, for their words; the others
//! have a price. Mostly these exceed the cap long before all states of one more place are merged.
//!
//! What a call asks for, and what it gives, is one record each, of `specs/Probed.antt`.

ghost use Rattle.std.specs.Prelude.{◌≡◌, ◌<◌, ◌+◌, ◌≤◌, Some, length, IfOk};
ghost use Rattle.table_sizes.specs.Sizes.{max_words};
ghost use Rattle.group_states.specs.Levels.{levels_of};
ghost use Rattle.trie_merge.specs.Cuts.{CanAsk};
ghost use Rattle.trie_merge.specs.Gathered.{CanMergeGroup};
ghost use Rattle.trie_merge.specs.Merged.{numbers_of, target_of};
ghost use Rattle.trie_merge.specs.Priced.{AreNumbers};
ghost use Rattle.trie_merge.specs.Probed.{AreCounted, IsProbed, ArePastCap};

use crate::column::Column;
use crate::merge::{Budget, MergeFault, Merged, Reached, price_ahead};
use crate::place::{first_of, merge_place};
use rule_set::RuleSet;
use state_parts::Target;
use std::alloc::Global;

/// Adds the price of states that aren't merged to the words before them.
fn price_rest(
    alloc: Global,
    next: &Column,
    target: &Target,
    states: &[u32],
    budget: Budget,
) -> Result<u64, MergeFault>
    requires ask { CanAsk (Some next.now) target.now }
    requires numbers { AreNumbers target.now states.now }
    requires cap { budget.cap ≤ max_words }
    requires before { budget.before ≤ budget.cap }
    ensures counted { IfOk result (AreCounted next.now target.now states.now budget) }
    ensures over { (result ≡ Err MergeFault.OverCap) →
        ArePastCap next.now target.now states.now budget }
{
    let mut cuts = Vec::new(alloc);
    let mut words = budget.before;
    for state in states {
        let its = price_ahead(next, target, &mut cuts, *state)?;
        words += its;
        if words > budget.cap {
            return Err(MergeFault::OverCap);
        }
    }
    Ok(words)
}

/// Merges the first states of a kept place, as many as the budget has, after the price of the
/// others.
fn probe_place(
    alloc: Global,
    rules: &RuleSet,
    group: &[u32],
    places: &[usize],
    j: usize,
    budget: Budget,
    reached: &Reached,
) -> Result<Merged, MergeFault>
    requires can { CanMergeGroup rules.now group.now budget.cap places.now }
    requires later { j + 2 < length places.now }
    requires probed { IsProbed rules.now group.now budget.cap places.now j reached.now.target
        reached.now.found.keys budget.before }
    ensures probed { IfOk result (λ merged. IsProbed rules.now group.now budget.cap places.now
        (j + 1) (target_of merged) (numbers_of merged) merged.words) }
    ensures over { (result ≡ Err MergeFault.OverCap) →
        budget.cap < (levels_of rules.now group.now).words }
{
    let column = Column::new(alloc, rules, places[j])?;
    let (_, rest) = first_of(reached.found.as_slice(), budget.states);
    let before = match price_rest(alloc, &column, &reached.target, rest, budget) {
        Ok(before) => before,
        Err(fault) => return Err(fault),
    };
    let merging = Budget {
        cap: budget.cap,
        before,
        states: budget.states,
    };
    let mut ahead = Some(column);
    merge_place(alloc, rules, places, j, merging, reached, &mut ahead)
}

/// Goes down from a kept place with the first states of each place, as many as the budget has, as
/// long as two further places are kept.
pub(crate) fn probe_places(
    alloc: Global,
    rules: &RuleSet,
    group: &[u32],
    places: &[usize],
    from: usize,
    budget: Budget,
    reached: &Reached,
) -> Result<(), MergeFault>
    requires can { CanMergeGroup rules.now group.now budget.cap places.now }
    requires later { from + 2 < length places.now }
    requires probed { IsProbed rules.now group.now budget.cap places.now from reached.now.target
        reached.now.found.keys budget.before }
    ensures over { (result ≡ Err MergeFault.OverCap) →
        budget.cap < (levels_of rules.now group.now).words }
{
    let mut merged = match probe_place(alloc, rules, group, places, from, budget, reached) {
        Ok(merged) => merged,
        Err(fault) => return Err(fault),
    };
    for j in from + 1..places.len() - 2 {
        let next = Budget {
            cap: budget.cap,
            before: merged.words,
            states: budget.states,
        };
        merged = match probe_place(alloc, rules, group, places, j, next, &merged.reached) {
            Ok(merged) => merged,
            Err(fault) => return Err(fault),
        };
    }
    Ok(())
}
