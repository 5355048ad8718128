//! Rules that are added to a set: all or none.

ghost use Rattle.std.specs.Prelude.{◌≡◌, ◌+◌, ◌<◌, ◌≤◌, ◌∷◌, [], ◌++◌, length, map, None, All};
ghost use Rattle.std.specs.Prelude.{OnOk, OnErr};
ghost use Rattle.std.specs.Result.{result_err};
ghost use Rattle.field_defs.specs.Faults.{first_of};
ghost use Rattle.table_sizes.specs.Sizes.{max_rules};
ghost use Rattle.rule_set.specs.Fault.{rule_fault};
ghost use Rattle.rule_set.specs.Rule.{RuleView};
ghost use Rattle.acl_context.specs.Add.{refusals};

use field_defs::{FieldValue, Layout};
use rule_set::{Rule, RuleFault, RuleSet, RuleTag, StoredRule, check_rule};
use std::alloc::{AllocError, Global};
use thiserror::Error;

/// Why rules aren't added.
#[derive(Clone, Copy, Debug, PartialEq, Eq, Error)]
pub enum AddFault {
    /// With these rules the context would hold more than it may.
    #[error("the context may not hold so many rules")]
    Full,
    /// The rule at the place, from 0, isn't lawful for the layout, and all before it are.
    #[error("rule {0}: {1}")]
    RuleRefused(u32, RuleFault),
    /// There is no memory for the rules.
    #[error("out of memory")]
    OutOfMemory,
}

/// A rule in a form in which it can be given: its tag and its values.
pub(crate) trait Given {
    /// The rule, as contracts see it.
    ghost view: { Self → RuleView };

    /// The rule's categories, priority and userdata.
    fn given_tag(&self) -> RuleTag
        ensures { result ≡ (view self.now).tag };

    /// The rule's values, in the order of the fields.
    fn given_fields(&self) -> &[FieldValue]
        ensures { result.now ≡ (view self.now).fields };
}

impl<const N: usize> Given for Rule<N> {
    ghost view = { λ rule. record { tag = rule.tag; fields = rule.fields } };

    fn given_tag(&self) -> RuleTag {
        self.tag
    }

    fn given_fields(&self) -> &[FieldValue] {
        &self.fields
    }
}

impl Given for StoredRule {
    ghost view = { λ rule. rule };

    fn given_tag(&self) -> RuleTag {
        self.tag()
    }

    fn given_fields(&self) -> &[FieldValue] {
        self.fields()
    }
}

/// Whether all rules are lawful for the layout, and the first that isn't.
pub(crate) fn check_all<R: Given>(layout: &Layout, rules: &[R]) -> Result<(), AddFault>
    requires { length rules.now ≤ max_rules }
    ensures { result_err result ≡ first_of (refusals layout.now (map R.view rules.now)) }
{
    for (place, rule) in rules.iter().enumerate() {
        if let Err(fault) = check_rule(layout, &rule.given_tag(), rule.given_fields()) {
            return Err(AddFault::RuleRefused(place as u32, fault));
        }
    }
    Ok(())
}

/// Adds lawful rules after those of the set, all or none.
pub(crate) fn push_all<R: Given>(
    alloc: Global,
    set: &mut RuleSet,
    rules: &[R],
) -> Result<(), AllocError>
    requires room { length set.old.rules + length rules.now ≤ max_rules }
    requires lawful { first_of (refusals set.old.layout (map R.view rules.now)) ≡ None }
    ensures ok { OnOk result
        (set.new ≡ record set.old { rules = set.old.rules ++ map R.view rules.now }) }
    ensures err { OnErr result (set.new ≡ set.old) }
{
    let held = set.len();
    for rule in rules {
        if let Err(want) = push_one(alloc, set, rule) {
            set.truncate(held);
            return Err(want);
        }
    }
    Ok(())
}

/// Adds a lawful rule after those of the set.
fn push_one<R: Given>(alloc: Global, set: &mut RuleSet, rule: &R) -> Result<(), AllocError>
    requires room { length set.old.rules < max_rules }
    requires lawful { rule_fault set.old.layout (R.view rule.now).tag (R.view rule.now).fields
        ≡ None }
    ensures ok { OnOk result
        (set.new ≡ record set.old { rules = set.old.rules ++ R.view rule.now ∷ [] }) }
    ensures err { OnErr result (set.new ≡ set.old) }
{
    let stored = StoredRule::new(alloc, rule.given_tag(), rule.given_fields())?;
    set.push_lawful(stored)
}
