//! Chains of rules, as firewalls have them.

ghost use Rattle.std.specs.Prelude.{◌≡◌};

use crate::span::SpanBox;
use std::marker::Model;

/// What a rule does with the packets that it catches. Chains are named by their places.
#[derive(Clone, Copy)]
pub enum Target {
    /// The rule decides them.
    Decide,
    /// They leave the chain, and go on after the jump that led there.
    Return,
    /// They go through a chain, and where they leave it they go on after this rule.
    Jump(usize),
    /// They go through a chain, and where they leave it they leave this chain too.
    Go(usize),
}

/// A rule of a chain. Contracts see it as a record of its four parts.
#[derive(Drop)]
pub struct ChainRule {
    userdata: u32,
    inside: SpanBox,
    but: Vec<SpanBox>,
    target: Target,
}

impl Model for ChainRule {
    ghost use Rattle.std.specs.Prelude.{List};
    ghost use Rattle.list_chains.specs.declared.span.Span.{Span};
    ghost use Rattle.list_chains.specs.Chains.{ListRule};

    ghost Value = { ListRule (List Span) };

    ghost view = { λ rule. record {
      userdata = rule.userdata;
      inside = rule.inside;
      but = rule.but.items;
      target = rule.target;
    } };
}

impl ChainRule {
    ghost use Rattle.std.specs.Prelude.{◌≡◌};

    /// A rule that catches the keys of a box but for those of some others. Its userdata is the
    /// answer for packets that it decides, as the number of its line.
    pub fn new(userdata: u32, inside: SpanBox, but: Vec<SpanBox>, target: Target) -> ChainRule
        ensures { result
            ≡ record { userdata = userdata; inside = inside; but = but.items; target = target } }
    {
        ChainRule {
            userdata,
            inside,
            but,
            target,
        }
    }

    /// The answer for packets that it decides.
    pub fn userdata(&self) -> u32
        ensures { result ≡ self.now.userdata }
    {
        self.userdata
    }

    /// The box of the keys that it catches.
    pub(crate) fn inside(&self) -> &SpanBox
        ensures { result.now ≡ self.now.inside }
    {
        &self.inside
    }

    /// The boxes of those that it leaves out.
    pub(crate) fn but(&self) -> &[SpanBox]
        ensures { result.now ≡ self.now.but }
    {
        self.but.as_slice()
    }

    /// What it does with the packets that it catches.
    pub fn target(&self) -> Target
        ensures { result ≡ self.now.target }
    {
        self.target
    }
}

/// A chain: rules that packets are asked about in order. Contracts see the list of them.
#[derive(Drop)]
pub struct Chain {
    rules: Vec<ChainRule>,
}

impl Model for Chain {
    ghost use Rattle.std.specs.Prelude.{List};
    ghost use Rattle.list_chains.specs.declared.span.Span.{Span};
    ghost use Rattle.list_chains.specs.Chains.{ListRule};

    ghost Value = { List (ListRule (List Span)) };

    ghost view = { λ chain. chain.rules.items };
}

impl Chain {
    ghost use Rattle.std.specs.Prelude.{◌≡◌};

    /// The chain of these rules.
    pub fn new(rules: Vec<ChainRule>) -> Chain
        ensures { result ≡ rules.items }
    {
        Chain { rules }
    }

    /// The rules, in order.
    pub fn rules(&self) -> &[ChainRule]
        ensures { result.now ≡ self.now }
    {
        self.rules.as_slice()
    }
}
