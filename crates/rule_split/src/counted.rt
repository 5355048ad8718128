//! A group of rules, and what is known of its words.

ghost use Rattle.std.specs.Prelude.{◌≡◌, ◌≤◌, IfErr, IfOk};
ghost use Rattle.table_sizes.specs.Sizes.{max_words};
ghost use Rattle.group_states.specs.Levels.{IsGroup};
ghost use Rattle.rule_split.specs.declared.answer.PlanFault.TheVariants.{OutOfMemory};
ghost use Rattle.rule_split.specs.Counted.{group_in, IsCountedTo};

use crate::answer::PlanFault;
use rule_set::RuleSet;
use std::alloc::Global;
use trie_merge::{Levels, MergeFault};

/// A group of rules, whose words were counted or not.
#[derive(Drop)]
pub(crate) enum Counted {
    /// The words are within the budget: the merged states.
    Fits(Levels),
    /// They are more: only the places of its rules in the set.
    TooLarge(Vec<u32>),
    /// They aren't known, and may be on either side of the budget: the places of its rules.
    Uncounted(Vec<u32>),
}

/// Counts the words of the group up to the cap, and keeps its merged states where they are within
/// it.
fn count_group(
    alloc: Global,
    rules: &RuleSet,
    group: Vec<u32>,
    budget: u64,
    cap: u64,
) -> Result<Counted, PlanFault>
    requires group { IsGroup rules.now group.items }
    requires cap { cap ≤ budget }
    requires budget { budget ≤ max_words }
    ensures group { IfOk result (λ counted. group_in counted ≡ group.items) }
    ensures counted { IfOk result (λ counted. IsCountedTo rules.now budget cap counted) }
    ensures memory { IfErr result (λ fault. fault ≡ OutOfMemory) }
{
    match Levels::build(alloc, rules, group.as_slice(), cap) {
        Ok(levels) => Ok(Counted::Fits(levels)),
        // Words above a lower cap may still be within the budget.
        Err(MergeFault::OverCap) => {
            if cap == budget {
                Ok(Counted::TooLarge(group))
            } else {
                Ok(Counted::Uncounted(group))
            }
        }
        Err(MergeFault::OutOfMemory) => Err(PlanFault::OutOfMemory),
    }
}

impl Counted {
    ghost use Rattle.std.specs.Prelude.{◌≡◌, ◌≤◌, IfErr, IfOk};
    ghost use Rattle.table_sizes.specs.Sizes.{max_words};
    ghost use Rattle.group_states.specs.Levels.{IsGroup};
    ghost use Rattle.rule_split.specs.declared.answer.PlanFault.TheVariants.{OutOfMemory};
    ghost use Rattle.rule_split.specs.Counted.{group_in, words_counted, words_to_split};
    ghost use Rattle.rule_split.specs.Counted.{is_most, is_counted, is_over};
    ghost use Rattle.rule_split.specs.Counted.{IsCountedTo, IsRight};
    ghost use Rattle.rule_split.specs.Split.{can_split};

    /// Counts the words up to the cap, where they aren't known.
    pub(crate) fn count(
        self,
        alloc: Global,
        rules: &RuleSet,
        budget: u64,
        cap: u64,
    ) -> Result<Self, PlanFault>
        requires group { IsGroup rules.now (group_in self) }
        requires right { IsRight rules.now budget self }
        requires cap { cap ≤ budget }
        requires budget { budget ≤ max_words }
        ensures group { IfOk result (λ counted. group_in counted ≡ group_in self) }
        ensures counted { IfOk result (λ counted. IsCountedTo rules.now budget cap counted) }
        ensures memory { IfErr result (λ fault. fault ≡ OutOfMemory) }
    {
        match self {
            Counted::Fits(levels) => Ok(Counted::Fits(levels)),
            Counted::TooLarge(group) => Ok(Counted::TooLarge(group)),
            Counted::Uncounted(group) => count_group(alloc, rules, group, budget, cap),
        }
    }

    /// The places of its rules in the set.
    pub(crate) fn group(&self) -> &[u32]
        ensures { result.now ≡ group_in self.now }
    {
        match self {
            Counted::Fits(levels) => levels.group(),
            Counted::TooLarge(group) => group.as_slice(),
            Counted::Uncounted(group) => group.as_slice(),
        }
    }

    /// Whether its words were counted.
    pub(crate) fn is_counted(&self) -> bool
        ensures { result ≡ is_counted self.now }
    {
        match self {
            Counted::Fits(_) => true,
            Counted::TooLarge(_) => true,
            Counted::Uncounted(_) => false,
        }
    }

    /// Its words, and 0 where they aren't known. More than the budget count as one word more than
    /// it.
    pub(crate) fn words(&self, budget: u64) -> u64
        requires { budget ≤ max_words }
        ensures { result ≡ words_counted budget self.now }
    {
        match self {
            Counted::Fits(levels) => levels.words(),
            Counted::TooLarge(_) => budget + 1,
            Counted::Uncounted(_) => 0,
        }
    }

    /// Whether it has two rules or more.
    pub(crate) fn can_split(&self) -> bool
        ensures { result ≡ can_split (group_in self.now) }
    {
        self.group().len() >= 2
    }

    /// Whether it can be split, and its words aren't known to be within the budget.
    pub(crate) fn is_over(&self) -> bool
        ensures { result ≡ is_over self.now }
    {
        match self {
            Counted::Fits(_) => false,
            Counted::TooLarge(group) => group.len() >= 2,
            Counted::Uncounted(group) => group.len() >= 2,
        }
    }

    /// Its words where it can be split, and else 0.
    pub(crate) fn words_to_split(&self, budget: u64) -> u64
        requires { budget ≤ max_words }
        ensures { result ≡ words_to_split budget self.now }
    {
        if self.can_split() {
            self.words(budget)
        } else {
            0
        }
    }

    /// Whether it can be split and has so many words.
    pub(crate) fn is_most(&self, budget: u64, most: u64) -> bool
        requires { budget ≤ max_words }
        ensures { result ≡ is_most budget most self.now }
    {
        self.can_split() && self.words(budget) == most
    }
}
