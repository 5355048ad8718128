//! Lawful rules of one layout, in the order in which they were added.

ghost use Rattle.std.specs.Prelude.{◌≡◌, ◌==◌, ◌<◌, ◌≤◌, ◌↔◌, nat_le, take, [], ◌∷◌, ◌++◌, length};
ghost use Rattle.std.specs.Prelude.{slice_get};
ghost use Rattle.std.specs.Prelude.{Some, None, OnOk, OnErr};
ghost use Rattle.rule_set.specs.declared.check.RuleFault.{RuleFault};
ghost use Rattle.table_sizes.specs.Sizes.{max_rules};
ghost use Rattle.rule_set.specs.Fault.{rule_fault};

use crate::check::{RuleFault, check_rule};
use crate::rule::StoredRule;
use field_defs::Layout;
use std::alloc::{AllocError, Global};
use std::marker::Model;
use table_sizes::MAX_RULES;
use thiserror::Error;

/// Why a rule isn't added.
#[derive(Clone, Copy, Debug, Error)]
pub enum PushFault {
    /// The rule isn't lawful for the layout.
    #[error(transparent)]
    Rule(RuleFault),
    /// There is no memory for one more rule.
    #[error("out of memory")]
    OutOfMemory,
}

impl From<AllocError> for PushFault {
    ghost use Rattle.rule_set.specs.declared.set.PushFault.TheVariants.{OutOfMemory};

    ghost from_gives = { λ _ fault. fault ≡ OutOfMemory };

    fn from(_: AllocError) -> PushFault {
        PushFault::OutOfMemory
    }
}

/// Rules that are lawful for one layout, in the order in which they were added, at most 262,144.
///
/// Contracts see the layout and the list of the rules. No call but `push` and `push_lawful` takes
/// memory.
pub struct RuleSet {
    layout: Layout,
    rules: Vec<StoredRule>,
}

/// It is written out so that letting go is one call wherever a set ends.
impl Drop for RuleSet {
    fn drop(self) {
        let RuleSet {
            layout: _,
            rules: _,
        } = self;
    }
}

impl Model for RuleSet {
    ghost use Rattle.rule_set.specs.Rule.{RuleSetView};
    ghost use Rattle.rule_set.specs.RuleSet.{IsRuleSet};

    ghost Value = { RuleSetView };

    ghost view = { λ set. record { layout = set.layout; rules = set.rules.items } };

    ghost invariant = { λ set. IsRuleSet record { layout = set.layout; rules = set.rules.items } };
}

impl RuleSet {
    ghost use Rattle.rule_set.specs.RuleSet.{IsRuleSet};

    /// The empty set. It takes no memory.
    pub fn new(alloc: Global, layout: Layout) -> Self
        ensures { result ≡ record { layout = layout; rules = [] } }
    {
        RuleSet {
            layout,
            rules: Vec::new(alloc),
        }
    }

    /// Adds the rule after the others, if it is lawful for the layout.
    ///
    /// The set isn't full ([`RuleSet::is_full`]). It takes the memory for one more. `Rule` comes
    /// exactly where [`check_rule`] refuses the rule, with its fault, and `OutOfMemory` only for a
    /// lawful rule. A refusal leaves the set as it was.
    pub fn push(&mut self, rule: StoredRule) -> Result<(), PushFault>
        requires { length self.old.rules < max_rules }
        ensures ok { OnOk result
            (self.new ≡ record self.old { rules = self.old.rules ++ rule ∷ [] }) }
        ensures refused { (fault : RuleFault) → (result ≡ Err (PushFault.Rule fault))
            ↔ (rule_fault self.old.layout rule.tag rule.fields ≡ Some fault) }
        ensures err { OnErr result (self.new ≡ self.old) }
    {
        check_rule(&self.layout, &rule.tag(), rule.fields()).map_err(PushFault::Rule)?;
        self.push_lawful(rule)?;
        Ok(())
    }

    /// Adds a rule after the others that the caller knows to be lawful for the layout.
    ///
    /// The set isn't full ([`RuleSet::is_full`]). It takes the memory for one more, and is refused
    /// only where there is none. A refusal leaves the set as it was.
    pub fn push_lawful(&mut self, rule: StoredRule) -> Result<(), AllocError>
        requires room { length self.old.rules < max_rules }
        requires lawful { rule_fault self.old.layout rule.tag rule.fields ≡ None }
        ensures ok { OnOk result
            (self.new ≡ record self.old { rules = self.old.rules ++ rule ∷ [] }) }
        ensures err { OnErr result (self.new ≡ self.old) }
    {
        self.rules.push(rule)?;
        Ok(())
    }

    /// Takes the rules from the place `len` on out again, so that a caller can add some rules or
    /// none.
    ///
    /// `len` is at most the number of rules. It refuses nothing and takes no memory.
    pub fn truncate(&mut self, len: usize)
        requires { len ≤ length self.old.rules }
        ensures { self.new ≡ record self.old { rules = take len self.old.rules } }
    {
        self.rules.truncate(len);
    }

    /// A set without rules, of the same layout. It takes no memory.
    pub fn new_of_same_layout(&self, alloc: Global) -> Self
        ensures { result ≡ record { layout = self.now.layout; rules = [] } }
    {
        RuleSet::new(alloc, self.layout.copied())
    }

    /// How many rules the set holds.
    pub fn len(&self) -> usize
        ensures { result ≡ length self.now.rules }
    {
        self.rules.len()
    }

    /// Whether the set holds no rule.
    pub fn is_empty(&self) -> bool
        ensures { result ≡ (length self.now.rules == 0) }
    {
        self.rules.is_empty()
    }

    /// Whether the set holds as many rules as it may, [`MAX_RULES`].
    pub fn is_full(&self) -> bool
        ensures { result ≡ nat_le max_rules (length self.now.rules) }
    {
        self.rules.len() >= MAX_RULES
    }

    /// The rule at the place `i`, from 0 and below [`RuleSet::len`]. It is lawful for the layout.
    pub fn at(&self, i: usize) -> &StoredRule
        requires { i < length self.now.rules }
        ensures rule { slice_get self.now.rules i ≡ Some result.now }
        ensures lawful { rule_fault self.now.layout result.now.tag result.now.fields ≡ None }
    {
        &self.rules[i]
    }

    /// All rules, in order. Each is lawful for the layout, and there are at most 262,144.
    pub fn all(&self) -> &[StoredRule]
        ensures rules { result.now ≡ self.now.rules }
        ensures lawful { IsRuleSet self.now }
    {
        self.rules.as_slice()
    }

    /// The layout that the rules are for.
    pub fn layout(&self) -> &Layout
        ensures { result.now ≡ self.now.layout }
    {
        &self.layout
    }
}
