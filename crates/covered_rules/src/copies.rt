//! The set of the rules that no wide rule before them covers.

ghost use Rattle.std.specs.Prelude.{◌≡◌, ◌<◌, ◌++◌, [], ◌∷◌, length, IfOk, OnOk};
ghost use Rattle.table_sizes.specs.Sizes.{max_rules};
ghost use Rattle.covered_rules.specs.Covered.{rules_at, uncovered_set};

use crate::covered::uncovered;
use rule_set::{RuleSet, StoredRule};
use std::alloc::{AllocError, Global};

/// Copies of the rules that no wide rule before them covers, in order.
///
/// The rules left out can't win: one of those that stay has a greater rank, all of their
/// categories, and lets through all that they let through. A rule is wide if its wild fields have
/// at least three fifths of the key's bytes. The first 1,024 wide rules that stay are asked, so
/// covered rules may stay too. It takes memory for the copies and for a number a rule, and its time
/// grows as the number of rules times that of the wide ones.
pub fn uncovered_rules(alloc: Global, rules: &RuleSet) -> Result<RuleSet, AllocError>
    ensures { IfOk result (λ set. set ≡ uncovered_set rules.now) }
{
    let places = uncovered(alloc, rules)?;
    let mut set = rules.new_of_same_layout(alloc);
    for place in &places {
        put_copy(alloc, &mut set, rules, *place as usize)?;
    }
    Ok(set)
}

/// Puts a copy of the rule at the place after the others of a set of the same layout.
fn put_copy(
    alloc: Global,
    into: &mut RuleSet,
    rules: &RuleSet,
    place: usize,
) -> Result<(), AllocError>
    requires layout { into.old.layout ≡ rules.now.layout }
    requires room { length into.old.rules < max_rules }
    requires place { place < length rules.now.rules }
    ensures { OnOk result (into.new ≡ record into.old {
      rules = into.old.rules ++ rules_at rules.now.rules (place ∷ []);
    }) }
{
    let rule = rules.at(place);
    let copy = StoredRule::new(alloc, rule.tag(), rule.fields())?;
    into.push_lawful(copy)
}
