//! Base chains: their types, hooks and priorities, and what is known of packets there. Nothing here
//! takes memory.

ghost use Rattle.std.specs.Prelude.{◌≡◌, option_map};
ghost use Rattle.json.specs.Value.{value_view as view};
ghost use Rattle.nft_reader.specs.Hooks as hooks;
ghost use Rattle.nft_reader.specs.Shapes.{text_seen};

use crate::compared::Way;
use crate::shapes::{decimal, text_in};
use json::Value;

/// How far below 0 a priority may be.
const MOST_BELOW: u64 = 2_147_483_648;

/// How far above.
const MOST_ABOVE: u64 = 2_147_483_647;

/// How far below 0 the priority is by which the kernel looks a packet's connection up.
const TRACKING: u64 = 200;

/// The type of a base chain.
#[derive(Clone, Copy)]
pub enum ChainType {
    Filter,
    /// Only the first packet of a connection comes to it.
    Nat,
    Route,
}

/// The place on the way of packets where they come to a base chain.
#[derive(Clone, Copy)]
pub enum Hook {
    Ingress,
    Prerouting,
    Input,
    Forward,
    Output,
    Postrouting,
    Egress,
}

/// The priority of a base chain: how far from 0 it is, and whether it is below. At one hook packets
/// come to the least one first.
#[derive(Clone, Copy)]
pub struct Priority {
    pub below: bool,
    pub distance: u64,
}

/// What a base chain is: its type, its hook, its priority, and whether its policy is `drop`.
#[derive(Clone, Copy)]
pub struct Base {
    pub kind: ChainType,
    pub hook: Hook,
    pub priority: Priority,
    pub drops: bool,
}

/// The type of a name.
fn type_named(name: &str) -> Option<ChainType>
    ensures { result ≡ hooks.type_named name.now }
{
    match name {
        "filter" => Some(ChainType::Filter),
        "nat" => Some(ChainType::Nat),
        "route" => Some(ChainType::Route),
        _ => None,
    }
}

/// The hook of a name that only one of the families has.
fn outer_hook(name: &str) -> Option<Hook>
    ensures { result ≡ hooks.outer_hook name.now }
{
    match name {
        "ingress" => Some(Hook::Ingress),
        "egress" => Some(Hook::Egress),
        _ => None,
    }
}

/// The hook of a name.
fn hook_named(name: &str) -> Option<Hook>
    ensures { result ≡ hooks.hook_named name.now }
{
    match name {
        "prerouting" => Some(Hook::Prerouting),
        "input" => Some(Hook::Input),
        "forward" => Some(Hook::Forward),
        "output" => Some(Hook::Output),
        "postrouting" => Some(Hook::Postrouting),
        _ => outer_hook(name),
    }
}

/// What stands after a sign.
fn after_minus(text: &[u8]) -> Option<&[u8]>
    ensures { option_map text_seen result ≡ hooks.after_minus text.now }
{
    text.strip_prefix(b"-")
}

/// The priority that a text spells.
fn priority_said(text: &[u8]) -> Option<Priority>
    ensures { result ≡ hooks.priority_said text.now }
{
    match after_minus(text) {
        Some(rest) => {
            let distance = decimal(rest, MOST_BELOW)?;
            Some(Priority {
                below: true,
                distance,
            })
        }
        None => {
            let distance = decimal(text, MOST_ABOVE)?;
            Some(Priority {
                below: false,
                distance,
            })
        }
    }
}

/// The priority that a value says.
fn priority_of(value: &Value<'_>) -> Option<Priority>
    ensures { result ≡ hooks.priority_of (view value.now) }
{
    priority_said(value.as_number()?.as_bytes())
}

impl Priority {
    ghost use Rattle.std.specs.Prelude.{◌≡◌};
    ghost use Rattle.nft_reader.specs.Hooks.{is_early};

    /// Whether the kernel hasn't looked a packet's connection up before.
    fn is_early(self) -> bool
        ensures { result ≡ is_early self }
    {
        self.below && self.distance >= TRACKING
    }
}

impl ChainType {
    ghost use Rattle.std.specs.Prelude.{◌≡◌};
    ghost use Rattle.nft_reader.specs.Hooks.{is_filter, is_nat};

    fn is_filter(self) -> bool
        ensures { result ≡ is_filter self }
    {
        matches!(self, ChainType::Filter)
    }

    pub(crate) fn is_nat(self) -> bool
        ensures { result ≡ is_nat self }
    {
        matches!(self, ChainType::Nat)
    }
}

impl Hook {
    ghost use Rattle.std.specs.Prelude.{◌≡◌};
    ghost use Rattle.nft_reader.specs.Hooks as hooks;

    fn is_network(self) -> bool
        ensures { result ≡ hooks.is_network self }
    {
        !matches!(self, Hook::Ingress | Hook::Egress)
    }

    fn changes_addresses(self) -> bool
        ensures { result ≡ hooks.changes_addresses self }
    {
        matches!(
            self,
            Hook::Prerouting | Hook::Input | Hook::Output | Hook::Postrouting
        )
    }

    fn is_ingress(self) -> bool
        ensures { result ≡ hooks.is_ingress self }
    {
        matches!(self, Hook::Ingress)
    }

    fn is_output(self) -> bool
        ensures { result ≡ hooks.is_output self }
    {
        matches!(self, Hook::Output)
    }

    fn has_in(self) -> bool
        ensures { result ≡ hooks.has_in self }
    {
        matches!(
            self,
            Hook::Ingress | Hook::Prerouting | Hook::Input | Hook::Forward
        )
    }

    fn has_out(self) -> bool
        ensures { result ≡ hooks.has_out self }
    {
        matches!(
            self,
            Hook::Forward | Hook::Output | Hook::Postrouting | Hook::Egress
        )
    }

    /// Whether packets have an interface.
    pub(crate) fn has_way(self, way: Way) -> bool
        ensures { result ≡ hooks.has_way way self }
    {
        match way {
            Way::In => self.has_in(),
            Way::Out => self.has_out(),
        }
    }

    /// Whether the state of their connection is known.
    fn has_state(self, priority: Priority) -> bool
        ensures { result ≡ hooks.has_state self priority }
    {
        match self {
            Hook::Ingress => false,
            Hook::Prerouting | Hook::Output => !priority.is_early(),
            _ => true,
        }
    }

    fn comes_in(self) -> bool
        ensures { result ≡ hooks.comes_in self }
    {
        matches!(self, Hook::Ingress | Hook::Prerouting | Hook::Input)
    }

    fn goes_through(self) -> bool
        ensures { result ≡ hooks.goes_through self }
    {
        matches!(
            self,
            Hook::Ingress | Hook::Prerouting | Hook::Forward | Hook::Postrouting | Hook::Egress
        )
    }

    fn goes_out(self) -> bool
        ensures { result ≡ hooks.goes_out self }
    {
        matches!(self, Hook::Output | Hook::Postrouting | Hook::Egress)
    }

    /// Whether packets come to both on one way, in whatever order.
    pub(crate) fn shares_a_way(self, other: Hook) -> bool
        ensures { result ≡ hooks.share_a_way self other }
    {
        (self.comes_in() && other.comes_in())
            || (self.goes_through() && other.goes_through())
            || (self.goes_out() && other.goes_out())
    }
}

/// Whether a family has chains at a hook that see packets of the network.
fn has_network_hook(family: &str, hook: Hook) -> bool
    ensures { result ≡ hooks.has_network_hook family.now hook }
{
    hook.is_network() || (hook.is_ingress() && family == "inet")
}

/// Whether there are such chains of a type.
fn has_network_chain(family: &str, kind: ChainType, hook: Hook, priority: Priority) -> bool
    ensures { result ≡ hooks.has_network_chain family.now kind hook priority }
{
    match kind {
        ChainType::Filter => has_network_hook(family, hook),
        ChainType::Nat => hook.changes_addresses() && !priority.is_early(),
        ChainType::Route => hook.is_output(),
    }
}

/// Whether there are chains of a type at a hook of a family, with a priority.
fn has_chain(family: &str, kind: ChainType, hook: Hook, priority: Priority) -> bool
    ensures { result ≡ hooks.has_chain family.now kind hook priority }
{
    if family == "netdev" {
        kind.is_filter() && !hook.is_network()
    } else {
        has_network_chain(family, kind, hook, priority)
    }
}

/// Whether a policy is `drop`.
fn is_dropping(policy: Option<&str>) -> bool
    ensures { result ≡ hooks.is_dropping (option_map text_seen policy.entry) }
{
    match policy {
        Some(policy) => policy == "drop",
        None => false,
    }
}

/// What a base chain of a family is, if there are such.
pub(crate) fn base_of(family: &str, said: &Value<'_>) -> Option<Base>
    ensures { result ≡ hooks.base_of family.now (view said.now) }
{
    let kind = type_named(text_in("type", said)?)?;
    let hook = hook_named(text_in("hook", said)?)?;
    let priority = priority_of(said.get("prio")?)?;
    let base = Base {
        kind,
        hook,
        priority,
        drops: is_dropping(text_in("policy", said)),
    };
    has_chain(family, kind, hook, priority).then_some(base)
}

/// Whether packets of a base chain, if there is one, have an interface.
pub(crate) fn knows_way(begin: Option<Base>, way: Way) -> bool
    ensures { result ≡ hooks.knows_way begin way }
{
    match begin {
        Some(base) => base.hook.has_way(way),
        None => true,
    }
}

/// Whether the state of their connection is known.
pub(crate) fn knows_state(begin: Option<Base>) -> bool
    ensures { result ≡ hooks.knows_state begin }
{
    match begin {
        Some(base) => base.hook.has_state(base.priority),
        None => true,
    }
}
