//! Which rules ever win, and at which least key.

ghost use Rattle.std.specs.Prelude.{◌≡◌, ℕ, ◌+◌, ◌*◌, ◌<◌, ◌≤◌, length, OnOk, IfOk, IfErr, Err};
ghost use Rattle.std.specs.List.{range_with_len};
ghost use Rattle.std.specs.Option.{option_map};
ghost use Rattle.table_sizes.specs.Sizes.{max_words};
ghost use Rattle.group_states.specs.Levels.{IsGroup, levels_of};
ghost use Rattle.trie_merge.specs.declared.merge.MergeFault.TheVariants.{OverCap};
ghost use Rattle.acl_audit.specs.declared.audit.AuditFault.TheVariants.{TooLarge, OutOfMemory};
ghost use Rattle.acl_audit.specs.Audited.{key_numbered};
ghost use Rattle.acl_audit.specs.Least.{all_rules, least_keys};
ghost use Rattle.acl_audit.specs.Ways.{IsWay};

use crate::firsts::first_rows;
use crate::trace::{Way, row_keys, way_of};
use rule_set::RuleSet;
use std::alloc::{AllocError, Global};
use std::marker::Model;
use table_sizes::ROW_LEN;
use thiserror::Error;
use trie_merge::{Levels, MergeFault};

/// Why there is no audit.
#[derive(Clone, Copy, Debug, Error)]
pub enum AuditFault {
    /// A table of all rules in one group has more words than the budget.
    #[error("the table needs {words} words, and the budget is {budget}")]
    TooLarge {
        /// One word more than the budget.
        words: u64,
        /// The budget.
        budget: u64,
    },
    /// There is no memory for the merged states.
    #[error("out of memory")]
    OutOfMemory,
}

/// Want of memory ends an audit, whatever it was doing.
impl From<AllocError> for AuditFault {
    ghost use Rattle.std.specs.Prelude.{◌≡◌};
    ghost use Rattle.acl_audit.specs.declared.audit.AuditFault.TheVariants.{OutOfMemory};

    ghost from_gives = { λ _ fault. fault ≡ OutOfMemory };

    fn from(_: AllocError) -> AuditFault {
        AuditFault::OutOfMemory
    }
}

/// The key of that number, counted from 1 on, or none for number 0.
fn key_numbered(keys: &[u8], key_len: usize, number: usize) -> Option<&[u8]>
    requires { number * key_len ≤ length keys.now }
    ensures { option_map (λ key. key.now) result ≡ key_numbered keys.now key_len number }
{
    if number == 0 {
        return None;
    }
    let (_, rest) = keys.split_at((number - 1) * key_len);
    let (key, _) = rest.split_at(key_len);
    Some(key)
}

/// The least key at which each rule of a set wins in each category. Contracts see, for each rule
/// and each of the 16 categories, the key or none.
#[derive(Drop)]
pub struct Audit {
    firsts: Vec<[u32; ROW_LEN]>,
    keys: Vec<u8>,
    key_len: usize,
}

impl Model for Audit {
    ghost use Rattle.std.specs.Prelude.{ℕ, List, Option};
    ghost use Rattle.acl_audit.specs.Audited.{keys_of, HasKeys};

    ghost Value = { List (List (Option (List ℕ))) };

    ghost view = { λ audit. keys_of audit.firsts.items audit.keys.items audit.key_len };

    ghost invariant = { λ audit. HasKeys audit.firsts.items audit.keys.items audit.key_len };
}

impl Audit {
    ghost use Rattle.std.specs.Prelude.{◌≡◌, ◌<◌, [], length, slice_index_or, None};
    ghost use Rattle.std.specs.Option.{option_map};
    ghost use Rattle.table_sizes.specs.Sizes.{row_len};

    /// The least key at which the rule of that place in the set wins in the category, or none where
    /// it wins at no key there.
    ///
    /// The place is below the number of rules and the category below 16. Keys have the bytes of the
    /// set's layout, the fields one after the other in network order, and are compared byte by byte
    /// from the first on. It takes no memory.
    pub fn key_of(&self, rule: usize, category: u32) -> Option<&[u8]>
        requires rule { rule < length self.now }
        requires category { category < row_len }
        ensures { option_map (λ key. key.now) result
            ≡ slice_index_or (slice_index_or self.now rule []) category None }
    {
        let number = self.firsts[rule][category as usize];
        key_numbered(&self.keys, self.key_len, number as usize)
    }
}

/// The numbers of all rules.
fn all_rules(alloc: Global, rules: &RuleSet) -> Result<Vec<u32>, AllocError>
    ensures { IfOk result (λ numbers. numbers.items ≡ range_with_len 0 (length rules.now.rules)) }
{
    let count = rules.all().len();
    let mut numbers = Vec::with_capacity(alloc, count)?;
    for number in 0..count {
        numbers.push(number as u32)?;
    }
    Ok(numbers)
}

/// Why there is no audit where the rules can't be merged within the budget.
fn audit_fault(fault: MergeFault, budget: u64) -> AuditFault
    requires { budget ≤ max_words }
    ensures { (words most : ℕ) → result ≡ TooLarge words most →
        (fault ≡ OverCap) × (words ≡ budget + 1) × (most ≡ budget) }
{
    match fault {
        MergeFault::OverCap => AuditFault::TooLarge {
            words: budget + 1,
            budget,
        },
        MergeFault::OutOfMemory => AuditFault::OutOfMemory,
    }
}

/// The merged states of a group that is all rules.
fn merged_group(
    alloc: Global,
    rules: &RuleSet,
    group: &[u32],
    budget: u64,
) -> Result<Levels, AuditFault>
    requires some { 0 < length rules.now.rules }
    requires group { group.now ≡ all_rules rules.now }
    requires budget { budget ≤ max_words }
    ensures levels { IfOk result (λ levels. levels ≡ levels_of rules.now (all_rules rules.now)) }
    ensures within { IfOk result (λ levels. levels.words ≤ budget) }
    ensures over { (words most : ℕ) → result ≡ Err (TooLarge words most) →
        (budget < (levels_of rules.now (all_rules rules.now)).words)
        × (words ≡ budget + 1) × (most ≡ budget) }
{
    match Levels::build(alloc, rules, group, budget) {
        Ok(levels) => Ok(levels),
        Err(fault) => Err(audit_fault(fault, budget)),
    }
}

/// The merged states of all rules.
pub(crate) fn merged(alloc: Global, rules: &RuleSet, budget: u64) -> Result<Levels, AuditFault>
    requires some { 0 < length rules.now.rules }
    requires budget { budget ≤ max_words }
    ensures levels { IfOk result (λ levels. levels ≡ levels_of rules.now (all_rules rules.now)) }
    ensures within { IfOk result (λ levels. levels.words ≤ budget) }
    ensures over { (words most : ℕ) → result ≡ Err (TooLarge words most) →
        (budget < (levels_of rules.now (all_rules rules.now)).words)
        × (words ≡ budget + 1) × (most ≡ budget) }
{
    let group = all_rules(alloc, rules)?;
    merged_group(alloc, rules, group.as_slice(), budget)
}

/// What the rows of the merged states of all rules say, by the way back from them.
fn read_rows(
    alloc: Global,
    rules: &RuleSet,
    levels: &Levels,
    way: &Way,
) -> Result<Audit, AllocError>
    requires within { levels.now.words ≤ max_words }
    requires way { IsWay rules.now levels.now way.now.links.items way.now.places.items
        way.now.key_len }
    ensures { IfOk result (λ audit. audit ≡ least_keys rules.now) }
{
    let count = rules.len();
    let firsts = first_rows(alloc, count, levels)?;
    let (links, places) = (way.links.as_slice(), way.places.as_slice());
    let rows = levels.rows();
    let keys = row_keys(alloc, links, places, way.key_len, rows)?;
    Ok(Audit {
        firsts,
        keys,
        key_len: way.key_len,
    })
}

/// What the merged states of all rules say.
fn audited(alloc: Global, rules: &RuleSet, levels: &Levels) -> Result<Audit, AllocError>
    requires some { 0 < length rules.now.rules }
    requires levels { levels.now ≡ levels_of rules.now (all_rules rules.now) }
    requires within { levels.now.words ≤ max_words }
    ensures { IfOk result (λ audit. audit ≡ least_keys rules.now) }
{
    let way = way_of(alloc, rules, levels)?;
    read_rows(alloc, rules, levels, &way)
}

/// The audit of no rule.
#[tactic(auto, using(crate::proofs::Ready::no_keys))]
fn no_audit(alloc: Global, rules: &RuleSet) -> Audit
    requires { length rules.now.rules ≡ 0 }
    ensures { result ≡ least_keys rules.now }
{
    Audit {
        firsts: Vec::new(alloc),
        keys: Vec::new(alloc),
        key_len: rules.layout().key_len(),
    }
}

/// The audit of some rules.
fn live_of(alloc: Global, rules: &RuleSet, budget: u64) -> Result<Audit, AuditFault>
    requires some { 0 < length rules.now.rules }
    requires budget { budget ≤ max_words }
    ensures keys { IfOk result (λ audit. audit ≡ least_keys rules.now) }
    ensures fits { OnOk result ((levels_of rules.now (all_rules rules.now)).words ≤ budget) }
    ensures over { (words most : ℕ) → result ≡ Err (TooLarge words most) →
        (budget < (levels_of rules.now (all_rules rules.now)).words)
        × (words ≡ budget + 1) × (most ≡ budget) }
{
    match merged(alloc, rules, budget) {
        Ok(levels) => match audited(alloc, rules, &levels) {
            Ok(audit) => Ok(audit),
            Err(AllocError) => Err(AuditFault::OutOfMemory),
        },
        Err(fault) => Err(fault),
    }
}

/// Tells for each rule and each category whether the rule ever wins there, and at which least key.
///
/// The budget is from 1 to [`table_sizes::MAX_WORDS`] words. `TooLarge` comes exactly where there
/// is a rule and the table of all rules in one group has more words than the budget, unless memory
/// ran out before that was known; its words are one more than the budget. It takes memory for the
/// merged states, for a number and a byte for each of them, for the key of each row and for a
/// number for each rule and category, and gives it back after a refusal.
#[tactic(auto, using(crate::proofs::Ready::count_of_keys))]
pub fn live_rules(alloc: Global, rules: &RuleSet, budget: u64) -> Result<Audit, AuditFault>
    requires some { 0 < budget }
    requires budget { budget ≤ max_words }
    ensures keys { IfOk result (λ audit. audit ≡ least_keys rules.now) }
    ensures count { IfOk result (λ audit. length audit ≡ length rules.now.rules) }
    ensures fits { OnOk result (0 < length rules.now.rules →
        (levels_of rules.now (all_rules rules.now)).words ≤ budget) }
    ensures too_large { (words most : ℕ) → result ≡ Err (TooLarge words most) →
        (0 < length rules.now.rules)
        × (budget < (levels_of rules.now (all_rules rules.now)).words)
        × (words ≡ budget + 1) × (most ≡ budget) }
{
    if rules.is_empty() {
        return Ok(no_audit(alloc, rules));
    }
    live_of(alloc, rules, budget)
}
