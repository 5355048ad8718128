//! A chain of a table: its name, its policy and its rules.

ghost use Rattle.std.specs.Prelude.{◌≡◌, ◌<◌, ◌≤◌, drop, length, IfSome};
ghost use Rattle.std.specs.List.{position_from};
ghost use Rattle.iptables_reader.specs.Chains.{is_meant, place_of};

use crate::answers::{Asked, act_answer, act_target};
use crate::fault::{LineFault, LineKind};
use crate::reading::Reading;
use list_chains::{Chain, ChainRule};
use list_packets::put_rules;
use std::alloc::{AllocError, Global};
use std::marker::Model;

/// A chain of the table `filter`. Contracts see a record of its four parts.
#[derive(Drop)]
pub struct SavedChain {
    name: Vec<u8>,
    policy: Option<u32>,
    rules: Vec<ChainRule>,
    /// Its first line that no rule file says.
    unsaid: Option<LineFault>,
}

impl Model for SavedChain {
    ghost use Rattle.iptables_reader.specs.Chains.{ListedChain};

    ghost Value = { ListedChain };

    ghost view = { λ chain. record {
      name = chain.name.items;
      policy = chain.policy;
      rules = chain.rules.items;
      unsaid = chain.unsaid;
    } };
}

impl SavedChain {
    ghost use Rattle.std.specs.Prelude.{◌≡◌, [], None, OnOk};
    ghost use Rattle.iptables_reader.specs.Table.{with_said, with_unsaid};

    /// A chain of this name and this policy, without rules.
    pub(crate) fn new(alloc: Global, name: Vec<u8>, policy: Option<u32>) -> SavedChain
        ensures { result
            ≡ record { name = name.items; policy = policy; rules = []; unsaid = None } }
    {
        SavedChain {
            name,
            policy,
            rules: Vec::new(alloc),
            unsaid: None,
        }
    }

    /// The name, as bytes of the file.
    pub fn name(&self) -> &[u8]
        ensures { result.now ≡ self.now.name }
    {
        self.name.as_slice()
    }

    /// The answer for packets that no rule decides, if they come to the chain by themselves.
    pub fn policy(&self) -> Option<u32>
        ensures { result ≡ self.now.policy }
    {
        self.policy
    }

    /// The first of its lines that no rule file says.
    pub(crate) fn unsaid(&self) -> Option<LineFault>
        ensures { result ≡ self.now.unsaid }
    {
        self.unsaid
    }

    /// A line of a number. One that does nothing changes nothing.
    pub(crate) fn add_line(
        &mut self,
        alloc: Global,
        asked: Asked,
        number: u32,
        reading: &Reading,
    ) -> Result<(), AllocError>
        ensures said { OnOk result
            (self.new ≡ with_said asked number reading.now reading.now.act self.old) }
        ensures name { self.new.name ≡ self.old.name }
    {
        let Some(act) = reading.act else {
            return Ok(());
        };
        if let Some(kind) = reading.cause {
            self.put_unsaid(number, kind);
            return Ok(());
        }
        let userdata = act_answer(asked.answers, number, act);
        let target = act_target(act);
        put_rules(
            alloc,
            asked.family,
            &reading.caught,
            userdata,
            target,
            &mut self.rules,
        )
    }

    /// A line that no rule file says, of which the first one counts.
    fn put_unsaid(&mut self, line: u32, kind: LineKind)
        ensures { self.new ≡ with_unsaid line kind self.old }
    {
        if self.unsaid.is_none() {
            self.unsaid = Some(LineFault { line, kind });
        }
    }

    /// The rules alone, as a chain.
    pub(crate) fn into_chain(self) -> Chain
        ensures { result ≡ self.rules }
    {
        Chain::new(self.rules)
    }

    /// The rules, in order.
    pub fn rules(&self) -> &[ChainRule]
        ensures { result.now ≡ self.now.rules }
    {
        self.rules.as_slice()
    }
}

/// The place of the chain of a name. Where it is meant that rules lead to it, it has no policy.
pub(crate) fn place_of(chains: &[SavedChain], name: &[u8], led: bool) -> Option<usize>
    ensures place { result ≡ place_of led name.now chains.now }
    ensures within { IfSome result (λ place. place < length chains.now) }
{
    place_from(chains, name, led, 0)
}

/// The same, where the chains before a place aren't looked at.
pub(crate) fn place_from(
    chains: &[SavedChain],
    name: &[u8],
    led: bool,
    from: usize,
) -> Option<usize>
    requires { from ≤ length chains.now }
    ensures place { result ≡ position_from (is_meant led name.now) from (drop from chains.now) }
    ensures within { IfSome result (λ place. place < length chains.now) }
{
    for place in from..chains.len() {
        if is_meant(&chains[place], name, led) {
            return Some(place);
        }
    }
    None
}

/// Whether a chain has this name, and no policy where it is meant that rules lead to it.
fn is_meant(chain: &SavedChain, name: &[u8], led: bool) -> bool
    ensures { result ≡ is_meant led name.now chain.now }
{
    chain.name() == name && !(led && chain.policy().is_some())
}
