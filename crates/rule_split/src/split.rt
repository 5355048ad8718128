//! The split of a rule set under a budget of words, turn by turn.

ghost use Rattle.std.specs.Prelude.{◌≡◌, ℕ, ◌<◌, ◌≤◌, ◌∷◌, ◌++◌, length, map, take, drop};
ghost use Rattle.std.specs.Prelude.{All, [], Err, IfErr, IfOk, OnErr, OnOk};
ghost use Rattle.std.specs.Option.{option_to_list};
ghost use Rattle.std.specs.List.{filter_map, range_with_len};
ghost use Rattle.rule_set.specs.Groups.{IsPartition};
ghost use Rattle.table_sizes.specs.Sizes.{max_tries, max_words};
ghost use Rattle.rule_split.specs.declared.answer.PlanFault.TheVariants.{OutOfMemory, TooLarge};
ghost use Rattle.rule_split.specs.Counted.{group_in, levels_in, IsCounted, IsRight};
ghost use Rattle.rule_split.specs.Ended.{IsSplit, plan_in};
ghost use Rattle.rule_split.specs.Split.{plan_of, total_of, split_at, turn, groups_of};
ghost use Rattle.rule_split.specs.Split.{words_of_group, first_groups};

use crate::answer::{Plan, PlanFault};
use crate::counted::Counted;
use crate::divide::divide;
use crate::turn::{count_whole, find_over, total};
use rule_set::RuleSet;
use std::alloc::{AllocError, Global};
use std::marker::Model;
use table_sizes::MAX_TRIES;
use trie_merge::Levels;

/// Puts two groups before the group at the place, or after the last one.
fn put_two(
    groups: &mut Vec<Counted>,
    place: usize,
    first: Counted,
    second: Counted,
) -> Result<(), AllocError>
    requires { place ≤ length groups.old.items }
    ensures { OnOk result (groups.new.items
        ≡ take place groups.old.items ++ first ∷ second ∷ drop place groups.old.items) }
{
    groups.insert(place, first)?;
    groups.insert(place + 1, second)?;
    Ok(())
}

/// Puts a group after the others.
fn put_last(groups: &mut Vec<Counted>, group: Counted) -> Result<(), AllocError>
    ensures { OnOk result (groups.new.items ≡ groups.old.items ++ group ∷ []) }
{
    groups.push(group)?;
    Ok(())
}

/// Splits the group at the place in two, neither of which is counted yet.
fn split_at(
    alloc: Global,
    rules: &RuleSet,
    groups: &mut Vec<Counted>,
    place: usize,
) -> Result<(), AllocError>
    requires place { place < length groups.old.items }
    requires partition { IsPartition (length rules.now.rules) (map group_in groups.old.items) }
    ensures groups { OnOk result (map group_in groups.new.items
        ≡ split_at rules.now (map group_in groups.old.items) place) }
    ensures right { (budget : ℕ) → All (IsRight rules.now budget) groups.old.items →
        OnOk result (All (IsRight rules.now budget) groups.new.items) }
{
    let group = groups.remove(place);
    let two = divide(alloc, rules, group.group())?;
    let first = Counted::Uncounted(two.first);
    let second = Counted::Uncounted(two.second);
    put_two(groups, place, first, second)
}

/// Takes one turn: where the total is above the budget, the group of most words becomes two.
fn take_turn(
    alloc: Global,
    rules: &RuleSet,
    budget: u64,
    groups: &mut Vec<Counted>,
) -> Result<(), PlanFault>
    requires budget { budget ≤ max_words }
    requires few { length groups.old.items ≤ max_tries }
    requires partition { IsPartition (length rules.now.rules) (map group_in groups.old.items) }
    requires right { All (IsRight rules.now budget) groups.old.items }
    ensures groups { OnOk result (map group_in groups.new.items
        ≡ turn (words_of_group rules.now) rules.now budget (map group_in groups.old.items)) }
    ensures right { OnOk result (All (IsRight rules.now budget) groups.new.items) }
    ensures memory { IfErr result (λ fault. fault ≡ OutOfMemory) }
{
    match find_over(alloc, rules, budget, groups)? {
        None => Ok(()),
        Some(place) => {
            split_at(alloc, rules, groups, place)?;
            Ok(())
        }
    }
}

/// The places of all rules in the set.
fn all_rules(alloc: Global, rules: &RuleSet) -> Result<Vec<u32>, AllocError>
    ensures { IfOk result (λ numbers. numbers.items ≡ range_with_len 0 (length rules.now.rules)) }
{
    let count = rules.all().len();
    let mut numbers = Vec::with_capacity(alloc, count)?;
    for number in 0..count {
        numbers.push(number as u32)?;
    }
    Ok(numbers)
}

/// The groups before the first turn: one of all rules, or none where there is no rule.
fn first_groups(alloc: Global, rules: &RuleSet) -> Result<Vec<Counted>, AllocError>
    ensures groups { IfOk result (λ groups. map group_in groups.items ≡ first_groups rules.now) }
    ensures right { (budget : ℕ) →
        IfOk result (λ groups. All (IsRight rules.now budget) groups.items) }
{
    let mut groups = Vec::with_capacity(alloc, MAX_TRIES)?;
    if !rules.is_empty() {
        let all = all_rules(alloc, rules)?;
        put_last(&mut groups, Counted::Uncounted(all))?;
    }
    Ok(groups)
}

/// Counts what no turn needed to count, so that the total is exact.
fn count_all(
    alloc: Global,
    rules: &RuleSet,
    budget: u64,
    groups: &mut Vec<Counted>,
) -> Result<(), PlanFault>
    requires budget { budget ≤ max_words }
    requires partition { IsPartition (length rules.now.rules) (map group_in groups.old.items) }
    requires right { All (IsRight rules.now budget) groups.old.items }
    ensures groups { OnOk result (map group_in groups.new.items ≡ map group_in groups.old.items) }
    ensures counted { OnOk result (All (IsCounted rules.now budget) groups.new.items) }
    ensures memory { IfErr result (λ fault. fault ≡ OutOfMemory) }
{
    for place in 0..groups.len() {
        count_whole(alloc, rules, budget, groups, place)?;
    }
    Ok(())
}

/// The groups after the last turn. Each turn adds at most one.
fn last_groups(alloc: Global, rules: &RuleSet, budget: u64) -> Result<Vec<Counted>, PlanFault>
    requires { budget ≤ max_words }
    ensures groups { IfOk result
        (λ groups. map group_in groups.items ≡ groups_of rules.now budget) }
    ensures counted { IfOk result (λ groups. All (IsCounted rules.now budget) groups.items) }
    ensures memory { IfErr result (λ fault. fault ≡ OutOfMemory) }
{
    let mut groups = first_groups(alloc, rules)?;
    for _ in 0..MAX_TRIES - 1 {
        take_turn(alloc, rules, budget, &mut groups)?;
    }
    count_all(alloc, rules, budget, &mut groups)?;
    Ok(groups)
}

/// Puts the group's merged states after the others, if they are kept.
fn put_levels(kept: &mut Vec<Levels>, group: Counted) -> Result<(), AllocError>
    ensures { OnOk result (kept.new.items ≡ kept.old.items ++ option_to_list (levels_in group)) }
{
    match group {
        Counted::Fits(levels) => {
            kept.push(levels)?;
            Ok(())
        }
        Counted::TooLarge(_) => Ok(()),
        Counted::Uncounted(_) => Ok(()),
    }
}

/// The merged states that are kept.
fn kept_levels(alloc: Global, groups: Vec<Counted>) -> Result<Vec<Levels>, AllocError>
    ensures { IfOk result (λ levels. levels.items ≡ filter_map levels_in groups.items) }
{
    let mut kept = Vec::with_capacity(alloc, groups.len())?;
    for group in groups {
        put_levels(&mut kept, group)?;
    }
    Ok(kept)
}

/// The groups of a rule set after the last turn of its split, each with its words counted.
///
/// All memory for deciding whether a table of them fits its budget was taken when it was made.
/// Contracts see the total, the budget, and the merged states that are kept: those of all groups,
/// where the total is within the budget.
#[derive(Drop)]
pub struct Split {
    groups: Vec<Counted>,
    total: u64,
    budget: u64,
}

impl Model for Split {
    ghost use Rattle.std.specs.List.{filter_map};
    ghost use Rattle.rule_split.specs.Counted.{levels_in};
    ghost use Rattle.rule_split.specs.Ended.{SplitView};

    ghost Value = { SplitView };

    ghost view = { λ split. record {
      total = split.total;
      budget = split.budget;
      kept = filter_map levels_in split.groups.items;
    } };
}

impl Split {
    /// Splits the rules into groups until the words of their table are within the budget, or until
    /// no group can be split or there are eight.
    ///
    /// The budget is from 1 to [`table_sizes::MAX_WORDS`] words. It takes memory for the merged
    /// states of each group, and the only fault is want of it. A group is counted at most once, and
    /// only as far as the split needs it.
    pub fn new(alloc: Global, rules: &RuleSet, budget: u64) -> Result<Self, PlanFault>
        requires some { 0 < budget }
        requires budget { budget ≤ max_words }
        ensures split { IfOk result (λ split. IsSplit rules.now budget split) }
        ensures memory { IfErr result (λ fault. fault ≡ OutOfMemory) }
    {
        let groups = last_groups(alloc, rules, budget)?;
        let total = total(groups.as_slice(), budget);
        Ok(Split {
            groups,
            total,
            budget,
        })
    }

    /// The words of a table of all groups, where more than the budget of a group count as one word
    /// more than it.
    pub fn total(&self) -> u64
        ensures { result ≡ self.now.total }
    {
        self.total
    }

    /// Whether the total is within the budget, and else `TooLarge` with both. No memory is taken,
    /// so want of it can't stand in for this refusal.
    pub fn check(&self) -> Result<(), PlanFault>
        ensures fits { OnOk result (self.now.total ≤ self.now.budget) }
        ensures over { OnErr result (self.now.budget < self.now.total) }
        ensures too_large { IfErr result
            (λ fault. fault ≡ TooLarge self.now.total self.now.budget) }
    {
        if self.total > self.budget {
            return Err(PlanFault::TooLarge {
                words: self.total,
                budget: self.budget,
            });
        }
        Ok(())
    }

    /// The merged states that are kept, as a plan. It takes memory for a list of at most eight, and
    /// leaves the states where they are.
    pub fn into_plan(self, alloc: Global) -> Result<Plan, AllocError>
        ensures { IfOk result (λ plan. plan ≡ plan_in self) }
    {
        let total = self.total;
        let levels = kept_levels(alloc, self.groups)?;
        Ok(Plan { levels, total })
    }
}

/// Splits the rules into groups until the words of their table are within the budget: a [`Split`],
/// checked and made into a plan.
///
/// The budget is from 1 to [`table_sizes::MAX_WORDS`] words. `TooLarge` comes exactly where the
/// split ends with a total above the budget, with that total, unless memory ran out before that was
/// known: no memory is taken between ([`Split::check`]). What was taken is given back after a
/// refusal.
///
/// Source: DPDK's `lib/acl`, `acl_bld.c`; which group is split and where is ours.
pub fn plan(alloc: Global, rules: &RuleSet, budget: u64) -> Result<Plan, PlanFault>
    requires some { 0 < budget }
    requires budget { budget ≤ max_words }
    ensures plan { IfOk result (λ plan. plan ≡ plan_of rules.now budget) }
    ensures fits { IfOk result (λ plan. plan.total ≤ budget) }
    ensures too_large { (words most : ℕ) → result ≡ Err (TooLarge words most) →
        (words ≡ total_of rules.now budget) × (most ≡ budget) × (budget < words) }
{
    let split = Split::new(alloc, rules, budget)?;
    split.check()?;
    let plan = split.into_plan(alloc)?;
    Ok(plan)
}
