//! The ranks of the rules of a set, which order them by priority and then by place.

ghost use Rattle.std.specs.Prelude.{◌≡◌, ◌≤◌, ◌<◌, pos, true, length, map, All, IfOk};
ghost use Rattle.std.specs.Int.Signed.{le_z};
ghost use Rattle.rule_set.specs.Limits.{max_priority};
ghost use Rattle.table_sizes.specs.Sizes.{max_rules};
ghost use Rattle.rule_set.specs.Rank.{ranks_of};
ghost use Rattle.rule_set.specs.Keys.{order_key, place_of, keys_of, rank_among, TellPlaces};
ghost use Rattle.rule_set.specs.Keys.{HasLawfulPriority};

use crate::rule::{RuleTag, StoredRule};
use crate::set::RuleSet;
use std::alloc::{AllocError, Global};
use table_sizes::MAX_RULES;

/// The rank of each rule, in order: 1 plus the number of rules that have a lower priority, or the
/// same priority and were added later.
///
/// So the ranks are the numbers from 1 to the number of rules, and of the rules that match and take
/// part the one of greatest rank wins. It takes memory for two numbers a rule. Its time grows as
/// that of a sort, and as the number of rules where each comes below the one before it.
pub fn ranks(alloc: Global, rules: &RuleSet) -> Result<Vec<u32>, AllocError>
    ensures { IfOk result (λ ranks. ranks.items ≡ ranks_of rules.now.rules) }
{
    let keys = order_keys(alloc, rules.all())?;
    ranks_of_keys(alloc, keys)
}

/// A key for each rule, so that the rules that come below a rule are those of lower keys.
fn order_keys(alloc: Global, rules: &[StoredRule]) -> Result<Vec<u64>, AllocError>
    requires few { length rules.now ≤ max_rules }
    requires lawful { All HasLawfulPriority rules.now }
    ensures { IfOk result (λ keys. keys.items ≡ keys_of rules.now) }
{
    let mut keys = Vec::with_capacity(alloc, rules.len())?;
    for rule in rules {
        let place = keys.len();
        keys.push(order_key(&rule.tag(), place))?;
    }
    Ok(keys)
}

/// The priority, and for rules of equal priority the number of places up to the last that a set may
/// have.
fn order_key(tag: &RuleTag, place: usize) -> u64
    requires priority { le_z (pos 0) tag.now.priority ≡ true }
    requires bound { le_z tag.now.priority (pos max_priority) ≡ true }
    requires place { place < max_rules }
    ensures { result ≡ order_key tag.now.priority place }
{
    u64::from(tag.priority.unsigned_abs()) * MAX_RULES as u64 + (MAX_RULES - 1 - place) as u64
}

/// For each key 1 plus how many of the keys are below it. Each key tells the place where it stands.
///
/// In order, as many keys are below a key as stand before it.
fn ranks_of_keys(alloc: Global, mut keys: Vec<u64>) -> Result<Vec<u32>, AllocError>
    requires few { length keys.items ≤ max_rules }
    requires places { TellPlaces keys.items }
    ensures { IfOk result (λ ranks. ranks.items ≡ map (rank_among keys.items) keys.items) }
{
    keys.sort_unstable();
    let mut ranks = Vec::from_elem(alloc, 0, keys.len())?;
    for (below, key) in keys.iter().enumerate() {
        ranks[place_of(*key)] = below as u32 + 1;
    }
    Ok(ranks)
}

/// The place of the rule that has the key.
fn place_of(key: u64) -> usize
    ensures { result ≡ place_of key }
{
    MAX_RULES - 1 - key as usize % MAX_RULES
}
