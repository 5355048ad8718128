//! Which group a turn of the split makes two, with no group counted further than that needs.
//!
//! The groups are gone through from the left. A group of more words than the budget that can be
//! split is the one, whatever those after it have. The last that isn't counted needs to be counted
//! only up to a lower cap: with more words than that it is the one too.

ghost use Rattle.std.specs.Prelude.{◌≡◌, ◌<◌, ◌≤◌, ◌+◌, ◌++◌, ◌∷◌, [], Bool, true, false, All};
ghost use Rattle.std.specs.Prelude.{length, map, take, Some, IfErr, IfOk, OnOk};
ghost use Rattle.std.specs.List.{insert, list_all, position, sum_by};
ghost use Rattle.rule_set.specs.Groups.{IsPartition};
ghost use Rattle.table_sizes.specs.Sizes.{max_tries, max_words, row_len};
ghost use Rattle.rule_split.specs.declared.answer.PlanFault.TheVariants.{OutOfMemory};
ghost use Rattle.rule_split.specs.Counted.{group_in, words_counted, most_counted, is_most};
ghost use Rattle.rule_split.specs.Counted.{is_counted, cap_beside, IsCounted, IsPassed, IsRight};
ghost use Rattle.rule_split.specs.Counted.{IsWithin};
ghost use Rattle.rule_split.specs.Split.{to_split, words_of_group};

use crate::answer::PlanFault;
use crate::counted::Counted;
use rule_set::RuleSet;
use std::alloc::{AllocError, Global};
use table_sizes::ROW_LEN;

/// The words of a table of the groups: those of each that are known, and one row for keys that no
/// rule matches.
pub(crate) fn total(groups: &[Counted], budget: u64) -> u64
    requires few { length groups.now ≤ max_tries }
    requires budget { budget ≤ max_words }
    requires within { All (IsWithin budget) groups.now }
    ensures { result ≡ row_len + sum_by (words_counted budget) groups.now }
{
    let mut words = ROW_LEN as u64;
    for group in groups {
        words += group.words(budget);
    }
    words
}

/// The most words of a group that can be split, and 0 where none can.
fn most_words(groups: &[Counted], budget: u64) -> u64
    requires { budget ≤ max_words }
    ensures { result ≡ most_counted budget groups.now }
{
    let mut most = 0;
    for group in groups {
        most = most.max(group.words_to_split(budget));
    }
    most
}

/// The place of the group that is split, or none where no group can be.
fn split_place(groups: &[Counted], budget: u64) -> Option<usize>
    requires { budget ≤ max_words }
    ensures { result
        ≡ position (λ group. is_most budget (most_counted budget groups.now) group) groups.now }
{
    let most = most_words(groups, budget);
    groups.iter().position(|group| group.is_most(budget, most))
}

/// Whether all of the groups are counted.
fn are_counted(groups: &[Counted]) -> bool
    ensures { result ≡ list_all is_counted groups.now }
{
    groups.iter().all(|group| group.is_counted())
}

/// Up to how many words a group has to be counted beside the others.
fn cap_beside(others: &[Counted], budget: u64, can_split: bool) -> u64
    requires few { length others.now ≤ max_tries }
    requires budget { budget ≤ max_words }
    requires within { All (IsWithin budget) others.now }
    ensures value { result ≡ cap_beside budget can_split others.now }
    ensures bound { result ≤ budget }
{
    if can_split && are_counted(others) {
        // With more words than these the total is above the budget.
        let left = budget.saturating_sub(total(others, budget));
        left.max(most_words(others, budget)).min(budget)
    } else {
        budget
    }
}

/// Puts a group back to its place.
fn put_back(groups: &mut Vec<Counted>, place: usize, group: Counted) -> Result<(), AllocError>
    requires { place ≤ length groups.old.items }
    ensures { OnOk result (groups.new.items ≡ insert groups.old.items place group) }
{
    groups.insert(place, group)?;
    Ok(())
}

/// Counts the group at the place, where that isn't done, as far as is needed beside the others.
/// Whether it is the one that is split.
fn count_at(
    alloc: Global,
    rules: &RuleSet,
    budget: u64,
    groups: &mut Vec<Counted>,
    place: usize,
) -> Result<bool, PlanFault>
    requires budget { budget ≤ max_words }
    requires few { length groups.old.items ≤ max_tries }
    requires place { place < length groups.old.items }
    requires partition { IsPartition (length rules.now.rules) (map group_in groups.old.items) }
    requires right { All (IsRight rules.now budget) groups.old.items }
    requires passed { All (IsPassed rules.now budget) (take place groups.old.items) }
    ensures groups { OnOk result (map group_in groups.new.items ≡ map group_in groups.old.items) }
    ensures right { OnOk result (All (IsRight rules.now budget) groups.new.items) }
    ensures passed { IfOk result (λ is_over. is_over ≡ false →
        All (IsPassed rules.now budget) (take (place + 1) groups.new.items)) }
    ensures over { IfOk result (λ is_over. is_over ≡ true →
        to_split (words_of_group rules.now) budget (map group_in groups.old.items) ≡ Some place) }
    ensures memory { IfErr result (λ fault. fault ≡ OutOfMemory) }
{
    let group = groups.remove(place);
    let cap = cap_beside(groups.as_slice(), budget, group.can_split());
    let counted = group.count(alloc, rules, budget, cap)?;
    let is_over = counted.is_over();
    put_back(groups, place, counted)?;
    Ok(is_over)
}

/// Counts the group at the place up to the budget, where that isn't done.
pub(crate) fn count_whole(
    alloc: Global,
    rules: &RuleSet,
    budget: u64,
    groups: &mut Vec<Counted>,
    place: usize,
) -> Result<(), PlanFault>
    requires budget { budget ≤ max_words }
    requires place { place < length groups.old.items }
    requires partition { IsPartition (length rules.now.rules) (map group_in groups.old.items) }
    requires right { All (IsRight rules.now budget) groups.old.items }
    ensures groups { OnOk result (map group_in groups.new.items ≡ map group_in groups.old.items) }
    ensures right { OnOk result (All (IsRight rules.now budget) groups.new.items) }
    ensures counted { All (IsCounted rules.now budget) (take place groups.old.items) →
        OnOk result (All (IsCounted rules.now budget) (take (place + 1) groups.new.items)) }
    ensures memory { IfErr result (λ fault. fault ≡ OutOfMemory) }
{
    let group = groups.remove(place);
    let counted = group.count(alloc, rules, budget, budget)?;
    put_back(groups, place, counted)?;
    Ok(())
}

/// The place of the group that is split in a turn, or none where the total is within the budget or
/// no group can be split.
pub(crate) fn find_over(
    alloc: Global,
    rules: &RuleSet,
    budget: u64,
    groups: &mut Vec<Counted>,
) -> Result<Option<usize>, PlanFault>
    requires budget { budget ≤ max_words }
    requires few { length groups.old.items ≤ max_tries }
    requires partition { IsPartition (length rules.now.rules) (map group_in groups.old.items) }
    requires right { All (IsRight rules.now budget) groups.old.items }
    ensures groups { OnOk result (map group_in groups.new.items ≡ map group_in groups.old.items) }
    ensures right { OnOk result (All (IsRight rules.now budget) groups.new.items) }
    ensures found { IfOk result (λ found.
        found ≡ to_split (words_of_group rules.now) budget (map group_in groups.old.items)) }
    ensures memory { IfErr result (λ fault. fault ≡ OutOfMemory) }
{
    for place in 0..groups.len() {
        if count_at(alloc, rules, budget, groups, place)? {
            return Ok(Some(place));
        }
    }
    if total(groups.as_slice(), budget) <= budget {
        return Ok(None);
    }
    Ok(split_place(groups.as_slice(), budget))
}
