//! The rules of entries, as boxes of packets: for each part of their keys the numbers from one to
//! another, in the order of IPv4's layout.

ghost use Rattle.std.specs.Prelude.{◌≡◌, ◌<◌, ◌++◌, map, IfOk, OnOk};
ghost use Rattle.cisco_reader.specs.Packets as meant;
ghost use Rattle.cisco_reader.specs.Read.{Gives};

use crate::entry::{Services, Verdict};
use crate::fault::{CiscoFault, LineKind, line_fault};
use crate::groups::Group;
use crate::held::{MAX_HELD, address_spans, group_services};
use crate::list::Placed;
use crate::packets::Answers;
use crate::services::{PortPart, Service};
use list_chains::{ChainRule, Span, SpanBox, Target};
use std::alloc::{AllocError, Global};
use std::marker::Model;
use std::slice;

/// All numbers of an address, and of a port.
const ANY_ADDRESS: Span = Span {
    low: 0,
    high: 4_294_967_295,
};

const ANY_PORT: Span = Span {
    low: 0,
    high: 65_535,
};

/// All packets: the protocol, the source and the destination, and their ports.
const ALL_PACKETS: [Span; 5] = [
    Span { low: 0, high: 255 },
    ANY_ADDRESS,
    ANY_ADDRESS,
    ANY_PORT,
    ANY_PORT,
];

/// Puts boxes of those of a box's packets that have the numbers of each span in a field.
fn put_spans(
    into: &mut Vec<[Span; 5]>,
    place: usize,
    spans: &[Span],
    packets: &[Span; 5],
) -> Result<(), AllocError>
    requires { place < 5 }
    ensures { OnOk result
        (into.new.items ≡ into.old.items ++ meant.with_spans place spans.now packets.now) }
{
    for span in spans {
        let mut made = *packets;
        made[place] = *span;
        into.push(made)?;
    }
    Ok(())
}

/// And so for each of some boxes, in their order.
fn narrowed(
    alloc: Global,
    place: usize,
    spans: &[Span],
    boxes: &[[Span; 5]],
) -> Result<Vec<[Span; 5]>, AllocError>
    requires { place < 5 }
    ensures { IfOk result (λ made. made.items ≡ meant.narrowed place spans.now boxes.now) }
{
    let mut made = Vec::new(alloc);
    for packets in boxes {
        put_spans(&mut made, place, spans, packets)?;
    }
    Ok(made)
}

/// The ports that a comparison wants: all, where there is none or others are left out.
fn kept_ports(part: &Option<PortPart>) -> &[Span]
    ensures { result.now ≡ meant.kept_ports part.now }
{
    match part {
        Some(part) => {
            if part.negated {
                &[ANY_PORT]
            } else {
                part.ports.spans()
            }
        }
        None => &[ANY_PORT],
    }
}

/// The ports that a comparison leaves out.
fn left_ports(part: &Option<PortPart>) -> &[Span]
    ensures { result.now ≡ meant.left_ports part.now }
{
    match part {
        Some(part) => {
            if part.negated {
                part.ports.spans()
            } else {
                &[]
            }
        }
        None => &[],
    }
}

/// The packets that a service leaves out of its own.
fn left_out(alloc: Global, service: &Service) -> Result<Vec<[Span; 5]>, AllocError>
    ensures { IfOk result (λ left. left.items ≡ meant.left_out service.now) }
{
    let mut left = Vec::new(alloc);
    put_spans(&mut left, 3, left_ports(&service.source), &ALL_PACKETS)?;
    put_spans(&mut left, 4, left_ports(&service.destination), &ALL_PACKETS)?;
    Ok(left)
}

/// The boxes of some packets.
fn boxes_of(alloc: Global, all: &[[Span; 5]]) -> Result<Vec<SpanBox>, AllocError>
    ensures { IfOk result (λ boxes. boxes.items ≡ all.now) }
{
    let mut boxes = Vec::new(alloc);
    for packets in all {
        boxes.push(SpanBox::of(alloc, packets)?)?;
    }
    Ok(boxes)
}

/// Puts a rule for each of some boxes, but for those that are left out.
fn put_boxes(
    alloc: Global,
    answer: u32,
    left: &[[Span; 5]],
    kept: &[[Span; 5]],
    into: &mut Vec<ChainRule>,
) -> Result<(), AllocError>
    ensures { OnOk result
        (into.new.items ≡ into.old.items ++ map (meant.rule_of answer left.now) kept.now) }
{
    for packets in kept {
        let inside = SpanBox::of(alloc, packets)?;
        let but = boxes_of(alloc, left)?;
        into.push(ChainRule::new(answer, inside, but, Target::Decide))?;
    }
    Ok(())
}

/// What all rules of an entry have in common. Contracts see a record of its parts.
#[derive(Drop)]
struct Pairs<'p> {
    answer: u32,
    sources: &'p [Span],
    destinations: &'p [Span],
}

impl<'p> Model for Pairs<'p> {
    ghost use Rattle.cisco_reader.specs.Packets.{EntryPairs};

    ghost Value = { EntryPairs };

    ghost view = { λ pairs. record {
      answer = pairs.answer;
      sources = pairs.sources.now;
      destinations = pairs.destinations.now;
    } };
}

impl<'p> Pairs<'p> {
    ghost use Rattle.std.specs.Prelude.{◌≡◌, IfOk};
    ghost use Rattle.cisco_reader.specs.Packets as meant;

    /// Whether there are too many of them, alone or with some services.
    fn are_many(&self, services: &[Service]) -> bool
        ensures { result ≡ meant.are_many self.now services.now }
    {
        let pairs = self.sources.len().saturating_mul(self.destinations.len());
        pairs > MAX_HELD || pairs.saturating_mul(services.len()) > MAX_HELD
    }

    /// The packets of a service.
    fn kept(&self, alloc: Global, service: &Service) -> Result<Vec<[Span; 5]>, AllocError>
        ensures { IfOk result (λ kept. kept.items ≡ meant.kept_of self.now service.now) }
    {
        let mut kept = Vec::new(alloc);
        put_spans(&mut kept, 0, service.protocols.spans(), &ALL_PACKETS)?;
        kept = narrowed(alloc, 1, self.sources, &kept)?;
        kept = narrowed(alloc, 2, self.destinations, &kept)?;
        kept = narrowed(alloc, 3, kept_ports(&service.source), &kept)?;
        narrowed(alloc, 4, kept_ports(&service.destination), &kept)
    }
}

/// The answer of an entry.
fn answer_of(answers: Answers, line: u32, verdict: Verdict) -> u32
    ensures { result ≡ meant.answer_of answers line verdict }
{
    match (answers, verdict) {
        (Answers::Line, _) => line,
        (Answers::Verdict, Verdict::Permit) => 1,
        (Answers::Verdict, Verdict::Deny) => 2,
    }
}

/// Puts the rules of an entry of a line: one for each box of packets that it catches.
fn put_paired(
    alloc: Global,
    line: u32,
    pairs: &Pairs,
    services: &[Service],
    rules: &mut Vec<ChainRule>,
) -> Result<(), CiscoFault>
    ensures { Gives (meant.with_paired rules.old.items line pairs.now services.now)
        (λ none. rules.new.items) result }
{
    if pairs.are_many(services) {
        return Err(line_fault(line, LineKind::LargeGroup));
    }
    for service in services {
        let kept = pairs.kept(alloc, service)?;
        let left = left_out(alloc, service)?;
        put_boxes(alloc, pairs.answer, &left, &kept, rules)?;
    }
    Ok(())
}

/// Puts the rules of an entry after others, with what its groups hold. It takes the memory of these
/// rules.
fn put_rules(
    alloc: Global,
    groups: &[Group],
    answers: Answers,
    placed: &Placed,
    rules: &mut Vec<ChainRule>,
) -> Result<(), CiscoFault>
    ensures { Gives (meant.with_rules groups.now answers rules.old.items placed.now)
        (λ none. rules.new.items) result }
{
    let entry = &placed.entry;
    let sources = address_spans(alloc, groups, placed.line, entry.source)?;
    let destinations = address_spans(alloc, groups, placed.line, entry.destination)?;
    let pairs = Pairs {
        answer: answer_of(answers, placed.line, entry.verdict),
        sources: &sources,
        destinations: &destinations,
    };
    match &entry.services {
        Services::Own(service) => {
            put_paired(alloc, placed.line, &pairs, slice::from_ref(service), rules)
        }
        Services::Group(place) => {
            let services = group_services(alloc, groups, placed.line, *place)?;
            put_paired(alloc, placed.line, &pairs, &services, rules)
        }
    }
}

/// The rules of some entries, in their order.
pub(crate) fn all_rules(
    alloc: Global,
    groups: &[Group],
    answers: Answers,
    entries: &[Placed],
) -> Result<Vec<ChainRule>, CiscoFault>
    ensures { Gives (meant.all_rules groups.now answers entries.now) (λ rules. rules.items) result }
{
    let mut rules = Vec::new(alloc);
    for placed in entries {
        put_rules(alloc, groups, answers, placed, &mut rules)?;
    }
    Ok(rules)
}
