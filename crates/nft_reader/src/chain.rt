//! A chain of a ruleset: its name, what it is, its policy and its rules.

ghost use Rattle.std.specs.Prelude.{◌≡◌, ◌++◌, ◌<◌, length, map, IfOk, IfSome, OnOk};
ghost use Rattle.std.specs.List.{flat_map};
ghost use Rattle.nft_reader.specs.Chains.{place_of};
ghost use Rattle.nft_reader.specs.Ruleset.{branch_rules};

use crate::effects::Effects;
use crate::fault::RuleFault;
use crate::hooks::Base;
use crate::known::{Branch, Outcome};
use crate::reading::Said;
use field_defs::Family;
use list_chains::{Chain, ChainRule};
use list_packets::put_rules;
use std::alloc::{AllocError, Global};
use std::marker::Model;

/// The name of a chain or a set: its family, its table, and its name there. Contracts see a record
/// of these.
#[derive(Drop)]
pub(crate) struct Owner<'a> {
    pub(crate) family: &'a str,
    pub(crate) table: &'a str,
    pub(crate) name: &'a str,
}

impl<'a> Model for Owner<'a> {
    ghost use Rattle.nft_reader.specs.Chains.{Names};

    ghost Value = { Names };

    ghost view = { λ owner. record {
      family = owner.family.now;
      table = owner.table.now;
      name = owner.name.now;
    } };
}

/// A rule that leads to a chain: its handle, and the place of the chain.
#[derive(Clone, Copy)]
pub(crate) struct Lead {
    pub(crate) handle: u32,
    pub(crate) place: usize,
}

/// A chain of a ruleset. Contracts see a record of its name, its handle, what it is, its policy,
/// its rules and those of them that no rule file says, and what it may do to packets of others.
#[derive(Drop)]
pub struct NftChain {
    family: Vec<u8>,
    table: Vec<u8>,
    name: Vec<u8>,
    handle: u32,
    base: Option<Base>,
    policy: Option<u32>,
    rules: Vec<ChainRule>,
    faults: Vec<RuleFault>,
    /// The handle of its first rule that may drop packets by itself.
    stops: Option<u32>,
    /// Its rules that lead to chains.
    leads: Vec<Lead>,
}

impl Model for NftChain {
    ghost use Rattle.nft_reader.specs.Chains.{ListedChain};

    ghost Value = { ListedChain };

    ghost view = { λ chain. record {
      owner = record {
        family = chain.family.items;
        table = chain.table.items;
        name = chain.name.items;
      };
      handle = chain.handle;
      base = chain.base;
      policy = chain.policy;
      rules = chain.rules.items;
      faults = chain.faults.items;
      stops = chain.stops;
      leads = chain.leads.items;
    } };
}

impl NftChain {
    ghost use Rattle.std.specs.Prelude.{◌≡◌, [], IfOk, OnOk};
    ghost use Rattle.nft_reader.specs.Chains.{is_meant, is_same};
    ghost use Rattle.nft_reader.specs.Ruleset.{new_chain, with_effects, with_said};
    ghost use Rattle.nft_reader.specs.Starts.{is_start};

    /// A chain of this name, this handle and this policy, without rules. It takes the memory of its
    /// names.
    pub(crate) fn new(
        alloc: Global,
        owner: &Owner<'_>,
        handle: u32,
        base: Option<Base>,
        policy: Option<u32>,
    ) -> Result<NftChain, AllocError>
        ensures { IfOk result (λ chain. chain ≡ new_chain owner.now handle base policy) }
    {
        Ok(NftChain {
            family: copied(alloc, owner.family)?,
            table: copied(alloc, owner.table)?,
            name: copied(alloc, owner.name)?,
            handle,
            base,
            policy,
            rules: Vec::new(alloc),
            faults: Vec::new(alloc),
            stops: None,
            leads: Vec::new(alloc),
        })
    }

    /// The name in its table, as bytes of the file.
    pub fn name(&self) -> &[u8]
        ensures { result.now ≡ self.now.owner.name }
    {
        self.name.as_slice()
    }

    /// The answer for packets that no rule decides, if they come to the chain by themselves.
    pub fn policy(&self) -> Option<u32>
        ensures { result ≡ self.now.policy }
    {
        self.policy
    }

    /// The rules, in order.
    pub fn rules(&self) -> &[ChainRule]
        ensures { result.now ≡ self.now.rules }
    {
        self.rules.as_slice()
    }

    /// Those of them that no rule file says, in order.
    pub fn faults(&self) -> &[RuleFault]
        ensures { result.now ≡ self.now.faults }
    {
        self.faults.as_slice()
    }

    /// Whether it has this name in the table, and no policy if it is meant that rules lead to it.
    fn is_meant(&self, owner: &Owner<'_>, name: &str, led: bool) -> bool
        ensures { result ≡ is_meant led (record (owner.now) { name = name.now }) self.now }
    {
        self.family.as_slice() == owner.family.as_bytes()
            && self.table.as_slice() == owner.table.as_bytes()
            && self.name.as_slice() == name.as_bytes()
            && !(led && self.policy.is_some())
    }

    /// Whether it has this name, and packets come to it by themselves, by their network's header.
    pub(crate) fn is_start(&self, name: &[u8]) -> bool
        ensures { result ≡ is_start name.now self.now }
    {
        self.name.as_slice() == name
            && self.policy.is_some()
            && self.family.as_slice() != b"netdev".as_slice()
    }

    /// Whether it is the other chain.
    pub(crate) fn is_same(&self, other: &NftChain) -> bool
        ensures { result ≡ is_same self.now.owner other.now.owner }
    {
        self.family.as_slice() == other.family.as_slice()
            && self.table.as_slice() == other.table.as_slice()
            && self.name.as_slice() == other.name.as_slice()
    }

    /// Its handle.
    pub(crate) fn handle(&self) -> u32
        ensures { result ≡ self.now.handle }
    {
        self.handle
    }

    /// What it is, if packets come to it by themselves.
    pub fn base(&self) -> Option<Base>
        ensures { result ≡ self.now.base }
    {
        self.base
    }

    /// The handle of its first rule that may drop packets of other base chains by itself.
    pub(crate) fn stops(&self) -> Option<u32>
        ensures { result ≡ self.now.stops }
    {
        self.stops
    }

    /// Its rules that lead to chains.
    pub(crate) fn leads(&self) -> &[Lead]
        ensures { result.now ≡ self.now.leads }
    {
        self.leads.as_slice()
    }

    /// A rule more: what it says, and what it may do to packets of other base chains.
    pub(crate) fn add_rule(
        &mut self,
        alloc: Global,
        family: Family,
        handle: u32,
        said: &Said,
        effects: &Effects,
    ) -> Result<(), AllocError>
        ensures { OnOk result (self.new
            ≡ with_effects handle effects.now (with_said family handle said.now self.old)) }
    {
        self.add(alloc, family, handle, said)?;
        self.add_effects(handle, effects)
    }

    /// What a rule more says. It takes the memory of its packets.
    fn add(
        &mut self,
        alloc: Global,
        family: Family,
        handle: u32,
        said: &Said,
    ) -> Result<(), AllocError>
        ensures { OnOk result (self.new ≡ with_said family handle said.now self.old) }
    {
        put_branches(&mut self.rules, alloc, family, &said.branches)?;
        if let Some(kind) = said.cause {
            self.faults.push(RuleFault { handle, kind })?;
        }
        Ok(())
    }

    /// What a rule more may do to packets of other base chains.
    fn add_effects(&mut self, handle: u32, effects: &Effects) -> Result<(), AllocError>
        ensures { OnOk result (self.new ≡ with_effects handle effects.now self.old) }
    {
        self.leads.extend_from_slice(&effects.leads)?;
        if effects.stops && self.stops.is_none() {
            self.stops = Some(handle);
        }
        Ok(())
    }

    /// The rules alone, as a chain.
    pub(crate) fn into_chain(self) -> Chain
        ensures { result ≡ self.rules }
    {
        Chain::new(self.rules)
    }
}

/// Puts the rules of the branches of a rule after others.
fn put_branches(
    rules: &mut Vec<ChainRule>,
    alloc: Global,
    family: Family,
    branches: &[Branch],
) -> Result<(), AllocError>
    ensures { OnOk result (rules.new.items
        ≡ rules.old.items ++ flat_map (branch_rules family) branches.now) }
{
    for branch in branches {
        let Outcome { answer, target } = branch.does;
        put_rules(alloc, family, &branch.caught, answer, target, rules)?;
    }
    Ok(())
}

/// A copy of the bytes of a text.
fn copied(alloc: Global, text: &str) -> Result<Vec<u8>, AllocError>
    ensures { IfOk result (λ bytes. bytes.items ≡ text.now) }
{
    let mut bytes = Vec::new(alloc);
    bytes.extend_from_slice(text.as_bytes())?;
    Ok(bytes)
}

/// The place of the chain of a name in the table of another one. Where it is meant that rules lead
/// to it, it has no policy.
pub(crate) fn place_of(
    chains: &[NftChain],
    owner: &Owner<'_>,
    name: &str,
    led: bool,
) -> Option<usize>
    ensures place { result
        ≡ place_of led (record (owner.now) { name = name.now }) chains.now }
    ensures within { IfSome result (λ place. place < length chains.now) }
{
    for place in 0..chains.len() {
        if chains[place].is_meant(owner, name, led) {
            return Some(place);
        }
    }
    None
}

/// The chains as `list_chains` takes them. It takes the memory of a chain for each.
pub fn chains_alone(alloc: Global, saved: Vec<NftChain>) -> Result<Vec<Chain>, AllocError>
    ensures { IfOk result (λ chains. chains.items ≡ map (λ chain. chain.rules) saved.items) }
{
    let mut chains = Vec::new(alloc);
    for chain in saved {
        chains.push(chain.into_chain())?;
    }
    Ok(chains)
}
