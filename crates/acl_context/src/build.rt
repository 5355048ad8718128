//! The table of a rule set, under a budget of words or as small as is found.

ghost use Rattle.std.specs.Prelude.{◌≡◌, ℕ, ◌<◌, ◌≤◌, Err, IfErr, IfOk, OnOk};
ghost use Rattle.table_sizes.specs.Sizes.{max_words};
ghost use Rattle.rule_split.specs.Split.{total_of};
ghost use Rattle.flat_table.specs.Table.{words_of};
ghost use Rattle.table_fill.specs.Serves.{Serves};
ghost use Rattle.covered_rules.specs.Covered.{uncovered_set};
ghost use Rattle.rule_order.specs.Cut.{HoldAll};
ghost use Rattle.acl_context.specs.Context.{built_of, HoldsAll};
ghost use Rattle.acl_context.specs.Batch.{DecidesAs};

use covered_rules::uncovered_rules;
use flat_table::Table;
use rule_order::order_and_cut;
use rule_set::RuleSet;
use rule_split::{PlanFault, plan};
use std::alloc::{AllocError, Global};
use table_fill::fill;
use table_sizes::MAX_WORDS;
use thiserror::Error;
use trie_merge::Levels;

/// Why no table is built.
#[derive(Clone, Copy, Debug, PartialEq, Eq, Error)]
pub enum BuildFault {
    /// The table needs more words than the budget.
    #[error("the table needs {words} words, and the budget is {budget}")]
    TooLarge {
        /// The words at which the split ends, as [`PlanFault::TooLarge`] counts them.
        words: u64,
        /// The budget.
        budget: u64,
    },
    /// There is no memory for the table or what it is made of.
    #[error("out of memory")]
    OutOfMemory,
}

/// The table of the rules. The budget is from 1 to [`table_sizes::MAX_WORDS`] words.
pub(crate) fn make_table(alloc: Global, rules: &RuleSet, budget: u64) -> Result<Table, BuildFault>
    requires some { 0 < budget }
    requires budget { budget ≤ max_words }
    ensures table { IfOk result (λ table. table ≡ built_of rules.now budget) }
    ensures serves { OnOk result (Serves rules.now (built_of rules.now budget)) }
    ensures fits { OnOk result (total_of rules.now budget ≤ budget) }
    ensures words { OnOk result
        (words_of (built_of rules.now budget) ≡ total_of rules.now budget) }
    ensures too_large { (words most : ℕ) → result ≡ Err (BuildFault.TooLarge words most) →
        (words ≡ total_of rules.now budget) × (most ≡ budget) × (budget < words) }
{
    let plan = match plan(alloc, rules, budget) {
        Ok(plan) => plan,
        Err(PlanFault::TooLarge { words, budget }) => {
            return Err(BuildFault::TooLarge { words, budget });
        }
        Err(PlanFault::OutOfMemory) => return Err(BuildFault::OutOfMemory),
    };
    match fill(alloc, rules, plan.levels()) {
        Ok(table) => Ok(table),
        Err(AllocError) => Err(BuildFault::OutOfMemory),
    }
}

/// The table of the rules that no wide rule before them covers.
pub(crate) fn make_uncovered(
    alloc: Global,
    rules: &RuleSet,
    budget: u64,
) -> Result<Table, BuildFault>
    requires some { 0 < budget }
    requires budget { budget ≤ max_words }
    ensures table { IfOk result (λ table. table ≡ built_of (uncovered_set rules.now) budget) }
    ensures serves { OnOk result
        (Serves (uncovered_set rules.now) (built_of (uncovered_set rules.now) budget)) }
    ensures fits { OnOk result (total_of (uncovered_set rules.now) budget ≤ budget) }
    ensures words { OnOk result (words_of (built_of (uncovered_set rules.now) budget)
        ≡ total_of (uncovered_set rules.now) budget) }
    ensures too_large { (words most : ℕ) → result ≡ Err (BuildFault.TooLarge words most) →
        (words ≡ total_of (uncovered_set rules.now) budget) × (most ≡ budget)
        × (budget < words) }
{
    match uncovered_rules(alloc, rules) {
        Ok(set) => make_table(alloc, &set, budget),
        Err(AllocError) => Err(BuildFault::OutOfMemory),
    }
}

/// The table of parts of the rules, a trie for each.
fn fill_parts(alloc: Global, rules: &RuleSet, parts: &[Levels]) -> Result<Table, BuildFault>
    requires { HoldAll rules.now parts.now }
    ensures table { IfOk result (HoldsAll rules.now) }
    ensures memory { IfErr result (λ fault. fault ≡ BuildFault.OutOfMemory) }
{
    match fill(alloc, rules, parts) {
        Ok(table) => Ok(table),
        Err(AllocError) => Err(BuildFault::OutOfMemory),
    }
}

/// The table of the rules under the greatest budget.
fn make_greatest(alloc: Global, rules: &RuleSet) -> Result<Table, BuildFault>
    ensures table { IfOk result (HoldsAll rules.now) }
    ensures too_large { (words most : ℕ) → result ≡ Err (BuildFault.TooLarge words most) →
        (words ≡ total_of rules.now max_words) × (most ≡ max_words) × (max_words < words) }
{
    match make_table(alloc, rules, MAX_WORDS as u64) {
        Ok(table) => Ok(table),
        Err(fault) => Err(fault),
    }
}

/// A table of the rules with few words: of the parts of their order, or, where none are found, under
/// the greatest budget.
fn make_small(alloc: Global, rules: &RuleSet) -> Result<Table, BuildFault>
    ensures table { IfOk result (HoldsAll rules.now) }
    ensures too_large { (words most : ℕ) → result ≡ Err (BuildFault.TooLarge words most) →
        (words ≡ total_of rules.now max_words) × (most ≡ max_words) × (max_words < words) }
{
    match order_and_cut(alloc, rules) {
        Ok(Some(parts)) => fill_parts(alloc, rules, parts.as_slice()),
        Ok(None) => make_greatest(alloc, rules),
        Err(AllocError) => Err(BuildFault::OutOfMemory),
    }
}

/// The same of the rules that no wide rule before them covers.
pub(crate) fn make_small_uncovered(alloc: Global, rules: &RuleSet) -> Result<Table, BuildFault>
    ensures table { IfOk result (HoldsAll (uncovered_set rules.now)) }
    ensures too_large { (words most : ℕ) → result ≡ Err (BuildFault.TooLarge words most) →
        (words ≡ total_of (uncovered_set rules.now) max_words) × (most ≡ max_words)
        × (max_words < words) }
{
    match uncovered_rules(alloc, rules) {
        Ok(set) => make_small(alloc, &set),
        Err(AllocError) => Err(BuildFault::OutOfMemory),
    }
}

/// The rules that no wide rule before them covers decide as all do. It runs no code.
pub(crate) fn uncovered_decide(rules: &RuleSet)
    ensures { DecidesAs (uncovered_set rules.now) rules.now }
{
    covered_rules::laws::uncovered_rules_decide_alike();
}
