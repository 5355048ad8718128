//! The states of one kept place, from what is reached before it.
//!
//!     merge_place → place_at → next_column
//!                 → start_target
//!                 → merge_states
//!
//! What a call asks for, and what it gives, is one record each, of `specs/Places.antt`.

ghost use Rattle.std.specs.Prelude.{◌≡◌, ◌<◌, ◌+◌, length, take, drop, IfOk};
ghost use Rattle.trie_merge.specs.Places.{AreInKey, CanMergePlace, IsEmptyFor, IsKnown};
ghost use Rattle.trie_merge.specs.Places.{IsPlaceAt, IsPlaceOver, MergesPlace, next_of};

use crate::column::Column;
use crate::merge::{Budget, FIRST_ROOM, MergeFault, Merged, Place, Reached, merge_states};
use crate::names::rank_rules;
use rule_set::RuleSet;
use state_parts::{Parts, Rows, Target};
use std::alloc::{AllocError, Global};

/// The next kept place, where that isn't the last one.
fn next_column(
    alloc: Global,
    rules: &RuleSet,
    places: &[usize],
    j: usize,
) -> Result<Option<Column>, AllocError>
    requires places { AreInKey rules.now places.now }
    requires j { j < length places.now }
    ensures { IfOk result (λ next. next ≡ next_of rules.now places.now j) }
{
    if j + 2 < places.len() {
        let next = Column::new(alloc, rules, places[j + 1])?;
        Ok(Some(next))
    } else {
        Ok(None)
    }
}

/// The kept place of that number.
fn place_at(
    alloc: Global,
    rules: &RuleSet,
    places: &[usize],
    j: usize,
    ahead: Option<Column>,
) -> Result<Place, AllocError>
    requires places { AreInKey rules.now places.now }
    requires j { j < length places.now }
    requires ahead { IsKnown rules.now places.now j ahead }
    ensures { IfOk result (IsPlaceAt rules.now places.now j) }
{
    let column = match ahead {
        Some(column) => column,
        None => Column::new(alloc, rules, places[j])?,
    };
    let next = next_column(alloc, rules, places, j)?;
    Ok(Place {
        column,
        is_last: j + 1 == places.len(),
        next,
    })
}

/// Nothing yet of what a place leads to, with room for about as many parts as there are before it.
fn start_target(
    alloc: Global,
    rules: &RuleSet,
    is_last: bool,
    before: usize,
) -> Result<Target, AllocError>
    ensures { IfOk result (IsEmptyFor rules.now is_last) }
{
    if is_last {
        let ranked = rank_rules(alloc, rules)?;
        return Ok(Target::Rows(Rows::new(alloc, ranked)));
    }
    let parts = Parts::with_room(alloc, before.min(FIRST_ROOM))?;
    Ok(Target::Parts(parts))
}

/// So many of the numbers, or all where there are fewer, and the others.
pub(crate) fn first_of(numbers: &[u32], most: usize) -> (&[u32], &[u32])
    ensures first { result.0.now ≡ take most numbers.now }
    ensures rest { result.1.now ≡ drop most numbers.now }
{
    numbers.split_at(most.min(numbers.len()))
}

/// Merges the first states of the kept place of that number, as many as the budget has. `ahead` is
/// what the place has of each rule, where that was looked up before, and then what the next one
/// has.
pub(crate) fn merge_place(
    alloc: Global,
    rules: &RuleSet,
    places: &[usize],
    j: usize,
    budget: Budget,
    reached: &Reached,
    ahead: &mut Option<Column>,
) -> Result<Merged, MergeFault>
    requires { CanMergePlace rules.now places.now j budget reached.now ahead.old }
    ensures merged { IfOk result
        (MergesPlace rules.now places.now j budget reached.now ahead.new) }
    ensures over { (result ≡ Err MergeFault.OverCap) →
        IsPlaceOver rules.now places.now j budget reached.now }
{
    let place = place_at(alloc, rules, places, j, ahead.take())?;
    let parts = reached.parts();
    let target = start_target(alloc, rules, place.is_last, parts.len())?;
    let (states, _) = first_of(reached.found.as_slice(), budget.states);
    match merge_states(alloc, &place, budget, parts, states, target) {
        Ok(merged) => {
            *ahead = place.next;
            Ok(merged)
        }
        Err(fault) => Err(fault),
    }
}
