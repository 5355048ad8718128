//! A list in, the rules of one of its chains out.

ghost use Rattle.std.specs.Prelude.{◌≡◌, ◌<◌, length, map, slice_get, IfErr, IfOk, Ok};
ghost use Rattle.cisco_reader.specs.Packets.{list_of};
ghost use Rattle.iptables_reader.specs.Table.{chains_of};
ghost use Rattle.list_tool.specs.Listing.{at_line, at_place, at_rule, cause_in, cause_of, configured_way};
ghost use Rattle.list_tool.specs.Listing.{entries_way, entry_answers, family_of, layout_of, led_nowhere};
ghost use Rattle.list_tool.specs.Listing.{no_place, nowhere_kind, number_of_place, or_unread};
ghost use Rattle.list_tool.specs.Listing.{or_unread_entry, refusal_of, rule_place, rules_for, saved_way};
ghost use Rattle.list_tool.specs.Listing.{start_of, start_with, unsaid_end, way_of};
ghost use Rattle.list_tool.specs.Printed.{Refuses};
ghost use Rattle.list_tool.specs.Decides.{Listed};
ghost use Rattle.list_tool.specs.Requests.{request_of, way_view};

use crate::ruleset::{rule_answers, ruleset_way};
use crate::status::{ListFault, ListKind, ListPlace, Refusal};
use crate::words::{Form, Request};
use cisco_reader::{CiscoFault, read_list};
use field_defs::{Family, Layout, ip4_layout, ip6_layout};
use iptables_reader::{
    Answers, Asked, IptablesFault, SavedChain, chain_place, chains_alone, read_chains,
};
use list_chains::{Chain, ChainsFault, LimitFault, RulePlace, rules_of_chains};
use nft_reader::{RuleFault, RuleKind};
use rule_set::RuleSet;
use std::alloc::{AllocError, Global};

/// The place of a chain, and the answer of its policy.
#[derive(Clone, Copy)]
pub(crate) struct Start {
    pub(crate) place: usize,
    pub(crate) policy: u32,
}

/// Chains, and which of them packets come to.
#[derive(Drop)]
pub(crate) struct Way {
    pub(crate) chains: Vec<Chain>,
    /// The rules of each chain that no rule file says, where the reader tells them.
    pub(crate) faults: Vec<Vec<RuleFault>>,
    pub(crate) start: Start,
}

/// The family of the packets of a form.
pub(crate) fn family_of(form: Form) -> Family
    ensures { result ≡ family_of form }
{
    match form {
        Form::Iptables | Form::Cisco | Form::Nft => Family::Ip4,
        Form::Ip6tables | Form::Nft6 => Family::Ip6,
    }
}

/// The rules that a request asks for, with such answers, as a set whose winner answers as the list
/// does. It takes memory in proportion to the list and its rules.
pub(crate) fn listed_rules(
    alloc: Global,
    bytes: &[u8],
    request: &Request,
    answers: Answers,
) -> Result<RuleSet, Refusal>
    ensures rules { IfOk result
        (λ set. rules_for (request_of request.now) bytes.now answers ≡ Ok set.rules) }
    ensures listed { IfOk result (Listed (request_of request.now) answers bytes.now) }
    ensures refused { IfErr result
        (Refuses (rules_for (request_of request.now) bytes.now answers)) }
{
    let way = way_of(alloc, bytes, request, answers)?;
    let layout = layout_of(request.form);
    match rules_of_chains(
        alloc,
        layout,
        &way.chains,
        way.start.place,
        way.start.policy,
    ) {
        Ok(set) => Ok(set),
        Err(fault) => Err(unturned(request.form, &way, fault)),
    }
}

/// What a list says of the chain or the list that a request names.
fn way_of(alloc: Global, bytes: &[u8], request: &Request, answers: Answers) -> Result<Way, Refusal>
    ensures way { IfOk result (λ way. way_of (request_of request.now) answers bytes.now
        ≡ Ok (way_view way)) }
    ensures within { IfOk result (λ way. way.start.place < length way.chains.items) }
    ensures refused { IfErr result
        (Refuses (way_of (request_of request.now) answers bytes.now)) }
{
    let name = request.chain.as_bytes();
    let assumed = request.options.assumed;
    match request.form {
        Form::Iptables | Form::Ip6tables => {
            let family = family_of(request.form);
            saved_way(alloc, bytes, Asked { family, answers }, assumed, name)
        }
        Form::Cisco => configured_way(alloc, bytes, answers, name),
        Form::Nft | Form::Nft6 => {
            let asked = nft_reader::Asked {
                family: family_of(request.form),
                answers: rule_answers(answers),
            };
            ruleset_way(alloc, bytes, asked, assumed, name)
        }
    }
}

/// The chains of a saved list, and the one of a name.
fn saved_way(
    alloc: Global,
    bytes: &[u8],
    asked: Asked,
    assumed: &[u8],
    name: &[u8],
) -> Result<Way, Refusal>
    ensures way { IfOk result (λ way. saved_way asked assumed.now name.now bytes.now
        ≡ Ok (way_view way)) }
    ensures within { IfOk result (λ way. way.start.place < length way.chains.items) }
    ensures refused { IfErr result
        (Refuses (saved_way asked assumed.now name.now bytes.now)) }
{
    let saved = saved_chains(alloc, bytes, asked, assumed, name)?;
    let start = match start_of(&saved, name) {
        Ok(start) => start,
        Err(fault) => return Err(Refusal::Fault(fault)),
    };
    let chains = chains_alone(alloc, saved)?;
    Ok(Way {
        chains,
        faults: Vec::new(alloc),
        start,
    })
}

/// The chains of a saved list, for packets that come to the chain of a name.
fn saved_chains(
    alloc: Global,
    bytes: &[u8],
    asked: Asked,
    assumed: &[u8],
    name: &[u8],
) -> Result<Vec<SavedChain>, Refusal>
    ensures chains { IfOk result
        (λ chains. chains_of asked assumed.now name.now bytes.now ≡ Ok chains.items) }
    ensures refused { IfErr result
        (Refuses (or_unread (chains_of asked assumed.now name.now bytes.now))) }
{
    match read_chains(alloc, bytes, asked, assumed, name) {
        Ok(chains) => Ok(chains),
        Err(IptablesFault::Line(fault)) => {
            let kind = ListKind::Line(fault.kind);
            Err(Refusal::Fault(at_line(fault.line, kind)))
        }
        Err(IptablesFault::OutOfMemory) => Err(Refusal::OutOfMemory),
    }
}

/// The list of a name in a configuration, as the only chain.
fn configured_way(
    alloc: Global,
    bytes: &[u8],
    answers: Answers,
    name: &[u8],
) -> Result<Way, Refusal>
    ensures way { IfOk result (λ way. configured_way answers name.now bytes.now
        ≡ Ok (way_view way)) }
    ensures within { IfOk result (λ way. way.start.place < length way.chains.items) }
    ensures refused { IfErr result (Refuses (configured_way answers name.now bytes.now)) }
{
    match read_list(alloc, bytes, name, entry_answers(answers)) {
        Ok(entries) => {
            let way = entries_way(alloc, entries, answers)?;
            Ok(way)
        }
        Err(CiscoFault::Line(fault)) => {
            let kind = ListKind::CiscoLine(fault.kind);
            Err(Refusal::Fault(at_line(fault.line, kind)))
        }
        Err(CiscoFault::OutOfMemory) => Err(Refusal::OutOfMemory),
    }
}

/// What the answers of entries are.
fn entry_answers(answers: Answers) -> cisco_reader::Answers
    ensures { result ≡ entry_answers answers }
{
    match answers {
        Answers::Line => cisco_reader::Answers::Line,
        Answers::Verdict => cisco_reader::Answers::Verdict,
    }
}

/// The answer for packets that no entry of a list catches, which are denied.
///
/// Source: Cisco IOS Security Configuration Guide, "IP Access List Overview".
fn unsaid_end(answers: Answers) -> u32
    ensures { result ≡ unsaid_end answers }
{
    match answers {
        Answers::Line => 0,
        Answers::Verdict => 2,
    }
}

/// The entries of a list as the only chain.
fn entries_way(alloc: Global, entries: Chain, answers: Answers) -> Result<Way, AllocError>
    ensures way { IfOk result (λ way. entries_way answers entries ≡ way_view way) }
    ensures within { IfOk result (λ way. way.start.place < length way.chains.items) }
{
    let mut chains = Vec::new(alloc);
    chains.push(entries)?;
    let start = Start {
        place: 0,
        policy: unsaid_end(answers),
    };
    Ok(Way {
        chains,
        faults: Vec::new(alloc),
        start,
    })
}

/// The chain of a name, to which packets come by themselves. It takes no memory.
fn start_of(saved: &[SavedChain], name: &[u8]) -> Result<Start, ListFault>
    ensures start { result ≡ start_of name.now saved.now }
    ensures within { IfOk result (λ start. start.place < length saved.now) }
{
    match chain_place(saved, name) {
        Some(place) => start_with(ListPlace::Line(0), place, saved[place].policy()),
        None => Err(at_line(0, ListKind::NoChain)),
    }
}

/// A chain that packets come to by themselves, if it has a policy. Where one without stands is
/// given. It takes no memory.
pub(crate) fn start_with(
    none: ListPlace,
    place: usize,
    policy: Option<u32>,
) -> Result<Start, ListFault>
    ensures start { result ≡ start_with none place policy }
    ensures same { IfOk result (λ start. start.place ≡ place) }
{
    match policy {
        Some(policy) => Ok(Start { place, policy }),
        None => Err(ListFault {
            place: none,
            kind: ListKind::NoPolicy,
        }),
    }
}

/// What can't be said in the line of a number.
fn at_line(line: u32, kind: ListKind) -> ListFault
    ensures { result ≡ at_line line kind }
{
    ListFault {
        place: ListPlace::Line(line),
        kind,
    }
}

/// The place of a rule of a form by its number.
pub(crate) fn rule_place(form: Form, number: u32) -> ListPlace
    ensures { result ≡ rule_place form number }
{
    match form {
        Form::Iptables | Form::Ip6tables | Form::Cisco => ListPlace::Line(number),
        Form::Nft | Form::Nft6 => ListPlace::Handle(number),
    }
}

/// What stands in no line, or in no object, of a list of a form.
pub(crate) fn at_no_place(form: Form, kind: ListKind) -> ListFault
    ensures { result ≡ at_place (no_place form) kind }
{
    let place = match form {
        Form::Iptables | Form::Ip6tables | Form::Cisco => ListPlace::Line(0),
        Form::Nft | Form::Nft6 => ListPlace::Object(0),
    };
    ListFault { place, kind }
}

/// The layout of a form's packets.
fn layout_of(form: Form) -> Layout
    ensures { result ≡ layout_of form }
{
    match family_of(form) {
        Family::Ip4 => ip4_layout(),
        Family::Ip6 => ip6_layout(),
    }
}

/// Why chains aren't turned into rules.
fn unturned(form: Form, way: &Way, fault: ChainsFault) -> Refusal
    ensures { result ≡ refusal_of form (way_view way.now) fault }
{
    match fault {
        ChainsFault::NoChain(at) => {
            let kind = nowhere_kind(way, at);
            Refusal::Fault(at_rule(form, &way.chains, at, kind))
        }
        ChainsFault::Loop(at) => Refusal::Fault(at_rule(form, &way.chains, at, ListKind::Loop)),
        ChainsFault::Limit(LimitFault::TooManyRules) => {
            Refusal::Fault(at_no_place(form, ListKind::TooManyRules))
        }
        ChainsFault::Limit(LimitFault::TooManySteps) => {
            Refusal::Fault(at_no_place(form, ListKind::TooManySteps))
        }
        ChainsFault::Limit(LimitFault::TooDeep) => {
            Refusal::Fault(at_no_place(form, ListKind::TooDeep))
        }
        ChainsFault::OutOfMemory => Refusal::OutOfMemory,
    }
}

/// What is wrong with the rule at a place.
fn at_rule(form: Form, chains: &[Chain], at: RulePlace, kind: ListKind) -> ListFault
    ensures { result ≡ at_rule form chains.now at kind }
{
    ListFault {
        place: rule_place(form, number_of_place(chains, at)),
        kind,
    }
}

/// The number of the rule at a place.
fn number_of_place(chains: &[Chain], at: RulePlace) -> u32
    ensures { result ≡ number_of_place chains.now at }
{
    match chains.get(at.chain) {
        Some(chain) => match chain.rules().get(at.rule) {
            Some(rule) => rule.userdata(),
            None => 0,
        },
        None => 0,
    }
}

/// What is wrong with a rule that leads to no chain.
fn nowhere_kind(way: &Way, at: RulePlace) -> ListKind
    ensures { result ≡ nowhere_kind (way_view way.now) at }
{
    let handle = number_of_place(&way.chains, at);
    match cause_at(&way.faults, at.chain, handle) {
        Some(kind) => ListKind::Rule(kind),
        None => ListKind::NoTarget,
    }
}

/// Why no rule file says the rule of a handle in the chain at a place.
fn cause_at(faults: &[Vec<RuleFault>], chain: usize, handle: u32) -> Option<RuleKind>
    ensures { result ≡ cause_in handle
        (slice_get (map (λ faults. faults.items) faults.now) chain) }
{
    match faults.get(chain) {
        Some(faults) => cause_of(faults, handle),
        None => None,
    }
}

/// The same by the faults of the chain.
fn cause_of(faults: &[RuleFault], handle: u32) -> Option<RuleKind>
    ensures { result ≡ cause_of handle faults.now }
{
    for fault in faults {
        if fault.handle == handle {
            return Some(fault.kind);
        }
    }
    None
}
