//! Chains of rules that may ask what no box says.

ghost use Rattle.std.specs.Prelude.{◌≡◌};

use list_chains::{SpanBox, Target};
use std::marker::Model;

/// The keys of a box for which a condition holds, if there is one. A condition is a number, as that
/// of the line that asks. Contracts see the box and the list of the conditions.
#[derive(Drop)]
pub struct ConditionalBox {
    inside: SpanBox,
    condition: Option<u32>,
}

impl Model for ConditionalBox {
    ghost use Rattle.std.specs.Prelude.{List};
    ghost use Rattle.list_chains.specs.declared.span.Span.{Span};
    ghost use Rattle.chain_conditions.specs.Conditions.{Conditional, conditions_of};

    ghost Value = { Conditional (List Span) };

    ghost view = { λ it. record { box = it.inside; conditions = conditions_of it.condition } };
}

impl ConditionalBox {
    ghost use Rattle.std.specs.Prelude.{◌≡◌};
    ghost use Rattle.chain_conditions.specs.Conditions.{conditions_of};

    /// The keys of a box for which a condition holds, or all of them without one.
    pub fn new(inside: SpanBox, condition: Option<u32>) -> ConditionalBox
        ensures { result ≡ record { box = inside; conditions = conditions_of condition } }
    {
        ConditionalBox { inside, condition }
    }

    /// The box.
    pub(crate) fn inside(&self) -> &SpanBox
        ensures { result.now ≡ self.now.box }
    {
        &self.inside
    }

    /// The condition.
    pub(crate) fn condition(&self) -> Option<u32>
        ensures { self.now.conditions ≡ conditions_of result }
    {
        self.condition
    }
}

/// A rule of a chain. Contracts see it as a record of its four parts.
#[derive(Drop)]
pub struct ConditionalRule {
    userdata: u32,
    inside: ConditionalBox,
    but: Vec<ConditionalBox>,
    target: Target,
}

impl Model for ConditionalRule {
    ghost use Rattle.std.specs.Prelude.{List};
    ghost use Rattle.list_chains.specs.declared.span.Span.{Span};
    ghost use Rattle.list_chains.specs.Chains.{ListRule};
    ghost use Rattle.chain_conditions.specs.Conditions.{Conditional};

    ghost Value = { ListRule (Conditional (List Span)) };

    ghost view = { λ rule. record {
      userdata = rule.userdata;
      inside = rule.inside;
      but = rule.but.items;
      target = rule.target;
    } };
}

impl ConditionalRule {
    ghost use Rattle.std.specs.Prelude.{◌≡◌};

    /// A rule that catches the keys of a box but for those of some others, each by its condition.
    /// Its userdata is the answer for packets that it decides, as the number of its line.
    pub fn new(
        userdata: u32,
        inside: ConditionalBox,
        but: Vec<ConditionalBox>,
        target: Target,
    ) -> ConditionalRule
        ensures { result
            ≡ record { userdata = userdata; inside = inside; but = but.items; target = target } }
    {
        ConditionalRule {
            userdata,
            inside,
            but,
            target,
        }
    }

    /// The answer for packets that it decides.
    pub(crate) fn userdata(&self) -> u32
        ensures { result ≡ self.now.userdata }
    {
        self.userdata
    }

    /// The keys that it catches.
    pub(crate) fn inside(&self) -> &ConditionalBox
        ensures { result.now ≡ self.now.inside }
    {
        &self.inside
    }

    /// Those that it leaves out.
    pub(crate) fn but(&self) -> &[ConditionalBox]
        ensures { result.now ≡ self.now.but }
    {
        self.but.as_slice()
    }

    /// What it does with the packets that it catches.
    pub(crate) fn target(&self) -> Target
        ensures { result ≡ self.now.target }
    {
        self.target
    }
}

/// A chain: rules that packets are asked about in order. Contracts see the list of them.
#[derive(Drop)]
pub struct ConditionalChain {
    rules: Vec<ConditionalRule>,
}

impl Model for ConditionalChain {
    ghost use Rattle.std.specs.Prelude.{List};
    ghost use Rattle.list_chains.specs.declared.span.Span.{Span};
    ghost use Rattle.list_chains.specs.Chains.{ListRule};
    ghost use Rattle.chain_conditions.specs.Conditions.{Conditional};

    ghost Value = { List (ListRule (Conditional (List Span))) };

    ghost view = { λ chain. chain.rules.items };
}

impl ConditionalChain {
    ghost use Rattle.std.specs.Prelude.{◌≡◌};

    /// The chain of these rules.
    pub fn new(rules: Vec<ConditionalRule>) -> ConditionalChain
        ensures { result ≡ rules.items }
    {
        ConditionalChain { rules }
    }

    /// The rules, in order.
    pub(crate) fn rules(&self) -> &[ConditionalRule]
        ensures { result.now ≡ self.now }
    {
        self.rules.as_slice()
    }
}
