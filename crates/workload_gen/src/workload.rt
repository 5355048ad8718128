//! The rules of a seed, and the keys one after the other.

ghost use Rattle.std.specs.Prelude.{◌≡◌, ◌≤◌, IfOk};
ghost use Rattle.workload_gen.specs.declared.workload.TheConstants.{MAX_WORKLOAD_RULES};
ghost use Rattle.workload_gen.specs.Workload.{workload_of};

use crate::draws::{draw, seeded};
use crate::packet::{KEY_LEN, Packet};
use crate::rule::rule;
use field_defs::ip4_layout;
use rand_pcg::Lcg64Xsh32;
use rule_set::{RuleSet, StoredRule};
use std::alloc::{AllocError, Global};
use std::marker::Model;

/// How many rules a workload has at most.
pub const MAX_WORKLOAD_RULES: u32 = 1024;

/// Rules of the IPv4 layout that a seed gives, and the generator that gives the keys.
///
/// Contracts see the list of the rules and the state of the generator.
#[derive(Drop)]
pub struct Workload {
    rules: RuleSet,
    generator: Lcg64Xsh32,
}

impl Model for Workload {
    ghost use Rattle.std.specs.Prelude.{◌≡◌};
    ghost use Rattle.field_defs.specs.Layout.{ip4_fields};
    ghost use Rattle.workload_gen.specs.Workload.{WorkloadView};

    ghost Value = { WorkloadView };

    ghost view = { λ w. record { rules = w.rules.rules; generator = w.generator } };

    ghost invariant = { λ w. w.rules.layout ≡ ip4_fields };
}

/// The first `count` rules of a seed, at most [`MAX_WORKLOAD_RULES`]. Rule i has the userdata i,
/// from 1. It takes memory for the rules.
pub fn make_rules(alloc: Global, seed: u64, count: u32) -> Result<Workload, AllocError>
    requires { count ≤ MAX_WORKLOAD_RULES }
    ensures { IfOk result (λ workload. workload ≡ workload_of seed count) }
{
    let mut generator = seeded(seed);
    let mut rules = RuleSet::new(alloc, ip4_layout());
    for place in 0..count {
        let drawn = rule(alloc, place + 1, draw(&mut generator))?;
        rules.push_lawful(drawn)?;
    }
    Ok(Workload { rules, generator })
}

impl Workload {
    ghost use Rattle.std.specs.Prelude.{IfSome, None, option_copied};
    ghost use Rattle.rule_set.specs.Fault.{rule_fault};
    ghost use Rattle.field_defs.specs.Layout.{ip4_fields};
    ghost use Rattle.workload_gen.specs.Draws.{after_words, words_of};
    ghost use Rattle.workload_gen.specs.Packet.{key_of_words, target_of};
    ghost use Rattle.workload_gen.specs.declared.packet.TheConstants.{KEY_WORDS};

    /// The rules, in the order of their numbers.
    pub fn rules(&self) -> &RuleSet
        ensures { result.now ≡ record { layout = ip4_fields; rules = self.now.rules } }
    {
        &self.rules
    }

    /// Writes the key of the generator's next four words, in network order:
    ///
    ///     | protocol: 1 | source: 4 | destination: 4 | source port: 2 | destination port: 2 |
    ///
    /// One key in four is drawn freely, and all are where there is no rule. The others are aimed at
    /// a rule, and match it: they have its protocol, its addresses and its lowest destination
    /// port. The rules stay. It takes no memory.
    pub fn next_key(&mut self, key: &mut [u8; KEY_LEN])
        ensures key { key.new
            ≡ key_of_words self.old.rules (words_of KEY_WORDS self.old.generator) }
        ensures state { self.new ≡ record self.old {
          generator = after_words KEY_WORDS self.old.generator;
        } }
    {
        let words = draw(&mut self.generator);
        let packet = match self.target(words[0]) {
            None => Packet::drawn(words),
            Some(rule) => Packet::aimed(rule, words),
        };
        *key = packet.key();
    }

    /// The rule that a packet is aimed at, by its first word, or none for one that is drawn freely.
    fn target(&self, word: u32) -> Option<&StoredRule>
        ensures rule { target_of self.now.rules word ≡ option_copied result }
        ensures lawful { IfSome result (λ rule.
            rule_fault ip4_fields rule.now.tag rule.now.fields ≡ None) }
    {
        if self.rules.is_empty() || word % 4 == 0 {
            return None;
        }
        Some(self.rules.at((word / 4) as usize % self.rules.len()))
    }
}
