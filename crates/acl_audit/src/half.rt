//! Two lists of rules as one, which one set of merged states compares in eight categories.

ghost use Rattle.std.specs.Prelude.{◌≡◌, ◌<◌, ◌≤◌, ◌+◌, ◌++◌, ◌∷◌, [], length, None, OnOk, IfOk};
ghost use Rattle.rule_set.specs.Fault.{rule_fault};
ghost use Rattle.table_sizes.specs.Sizes.{max_rules};
ghost use Rattle.acl_audit.specs.Half.{is_in_half, mask_of, halved_rules, half_of};
ghost use Rattle.acl_audit.specs.Half.{has_equal_halves, have_equal_halves, are_halves_equal};

use rule_set::{RuleSet, RuleTag, StoredRule};
use std::alloc::{AllocError, Global};

/// How many categories of each list a half has.
pub(crate) const HALF_LEN: u32 = 8;

/// The bits of so many categories.
const HALF_BITS: u32 = 0xFF;

/// The mask in the half of a rule of the list of that number, 0 or 1.
fn half_mask(tag: &RuleTag, half: u32, list: u32) -> u32
    requires half { half < 2 }
    requires list { list < 2 }
    ensures { result ≡ mask_of (is_in_half half list tag.now) }
{
    (tag.category_mask >> (HALF_LEN * half) & HALF_BITS) << (HALF_LEN * list)
}

/// The tag with its categories of the half, and no others.
fn half_tag(tag: &RuleTag, half: u32, list: u32) -> RuleTag
    requires half { half < 2 }
    requires list { list < 2 }
    ensures { result ≡ record tag.now { category_mask = mask_of (is_in_half half list tag.now) } }
{
    RuleTag {
        category_mask: half_mask(tag, half, list),
        ..*tag
    }
}

/// Puts the rule after the others with its categories of the half, if it has any.
fn push_halved(
    alloc: Global,
    rules: &mut RuleSet,
    rule: &StoredRule,
    half: u32,
    list: u32,
) -> Result<(), AllocError>
    requires room { length rules.old.rules < max_rules }
    requires lawful { rule_fault rules.old.layout rule.now.tag rule.now.fields ≡ None }
    requires half { half < 2 }
    requires list { list < 2 }
    ensures { OnOk result (rules.new
        ≡ record rules.old { rules = rules.old.rules ++ halved_rules half list (rule.now ∷ []) }) }
{
    let _fields = rules.layout().fields();
    let tag = half_tag(&rule.tag(), half, list);
    if tag.category_mask != 0 {
        rules.push_lawful(StoredRule::new(alloc, tag, rule.fields())?)?;
    }
    Ok(())
}

/// Puts the rules of a list after the others with their categories of the half.
fn push_list(
    alloc: Global,
    rules: &mut RuleSet,
    list_rules: &RuleSet,
    half: u32,
    list: u32,
) -> Result<(), AllocError>
    requires layout { rules.old.layout ≡ list_rules.now.layout }
    requires room { length rules.old.rules + length list_rules.now.rules ≤ max_rules }
    requires half { half < 2 }
    requires list { list < 2 }
    ensures { OnOk result (rules.new ≡ record rules.old {
      rules = rules.old.rules ++ halved_rules half list list_rules.now.rules;
    }) }
{
    for rule in list_rules.all() {
        push_halved(alloc, rules, rule, half, list)?;
    }
    Ok(())
}

/// Half 0 or 1 of two sets of one layout.
pub(crate) fn half_of(
    alloc: Global,
    one: &RuleSet,
    two: &RuleSet,
    half: u32,
) -> Result<RuleSet, AllocError>
    requires layouts { one.now.layout ≡ two.now.layout }
    requires few { length one.now.rules + length two.now.rules ≤ max_rules }
    requires half { half < 2 }
    ensures { IfOk result (λ rules. rules ≡ half_of one.now two.now half) }
{
    let mut rules = one.new_of_same_layout(alloc);
    push_list(alloc, &mut rules, one, half, 0)?;
    push_list(alloc, &mut rules, two, half, 1)?;
    Ok(rules)
}

/// Whether the rule of the list of that number, 0 or 1, has the same mask in both halves.
fn has_equal_halves(tag: &RuleTag, list: u32) -> bool
    requires { list < 2 }
    ensures { result ≡ has_equal_halves list tag.now }
{
    half_mask(tag, 0, list) == half_mask(tag, 1, list)
}

/// Whether each rule of the list has.
fn have_equal_halves(rules: &RuleSet, list: u32) -> bool
    requires { list < 2 }
    ensures { result ≡ have_equal_halves list rules.now.rules }
{
    rules
        .all()
        .iter()
        .all(|rule| has_equal_halves(&rule.tag(), list))
}

/// Whether each rule of both sets has, so that both halves are one list of rules.
pub(crate) fn are_halves_equal(one: &RuleSet, two: &RuleSet) -> bool
    ensures { result ≡ are_halves_equal one.now two.now }
{
    have_equal_halves(one, 0) && have_equal_halves(two, 1)
}
