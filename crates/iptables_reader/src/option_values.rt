//! The values of options, which a rule takes up.

ghost use Rattle.std.specs.Prelude.{◌≡◌, ◌++◌, MatchResult, OnOk, Ok};
ghost use Rattle.iptables_reader.specs.Stops.{Refuses};
ghost use Rattle.iptables_reader.specs.OptionValues as values;

use crate::fault::{LineKind, Stop};
use crate::options::{ANY_OPTIONS, Match, RuleOption, Verdict, match_named, verdict_named};
use crate::reading::{Act, Reading, Rows, Value};
use crate::setting::Setting;
use crate::tables::{answers, matches, owner_in, target_in};
use crate::values::{are_states, has_state, port_spans, protocol};
use crate::words::is;
use field_defs::Family;
use list_chains::Span;
use list_packets::{
    AddressSet, AddressSpans, End, Field, MAX_PORT, Packets, address_range, all_packets,
    assumed_state, has_ports, is_interface, knows_local, meets_interface, network, port_span,
    protocol_span, put_ends, put_set, put_spans, value_in, with_span,
};
use std::alloc::AllocError;

/// The number of the states of connections whose addresses are changed.
const CHANGED: u64 = 6;

impl Reading {
    ghost use Rattle.std.specs.Prelude.{◌≡◌};
    ghost use Rattle.iptables_reader.specs.Stops.{Makes};
    ghost use Rattle.iptables_reader.specs.OptionValues as values;

    /// The value of an option, perhaps after `!`.
    pub(crate) fn take_value(
        &mut self,
        setting: &Setting,
        option: RuleOption,
        value: Value,
    ) -> Result<(), Stop>
        ensures { Makes (values.with_value setting.now self.old option value.entry)
            self.new result }
    {
        match option {
            RuleOption::Network(end) => self.take_network(setting, end, value),
            RuleOption::Range(end) => self.take_range(setting, end, value),
            RuleOption::Type(end) => self.take_type(setting, end, value),
            RuleOption::Ports(end) => self.take_ports(setting, end, value),
            RuleOption::List(end) => self.take_list(setting, end, value),
            RuleOption::Interface(end) => self.take_interface(setting, end, value),
            RuleOption::Protocol => self.take_protocol(setting, value),
            RuleOption::States(changed) => self.take_states(setting, changed, value),
            RuleOption::Message => {
                let met = is(value.word, b"any").then_some(true);
                self.take_met(value.negated, met, LineKind::CantSay);
                Ok(())
            }
            RuleOption::Match => self.take_match(setting, value.word),
            RuleOption::Jump => self.take_jump(setting, value.word),
            RuleOption::Go => {
                let place = led_place(setting, value.word)?;
                self.put_act(Act::Go(place), Rows::Nothing);
                Ok(())
            }
            RuleOption::Answer => self.take_answer(setting, value.word),
        }
    }

    /// Packets that come from addresses, or go to them.
    fn take_set(
        &mut self,
        setting: &Setting,
        negated: bool,
        end: End,
        set: AddressSet,
    ) -> Result<(), Stop>
        ensures { Makes (values.with_set setting.now negated self.old end set) self.new result }
    {
        let mut spans = Vec::new(setting.alloc);
        put_set(&mut spans, setting.family, setting.assumed, set)?;
        let mut boxes = Vec::new(setting.alloc);
        put_ends(&mut boxes, all_packets(setting.family), end, &spans)?;
        self.caught.take(setting.alloc, negated, &boxes)?;
        Ok(())
    }

    /// A network. After `!` it doesn't have all addresses.
    fn take_network(&mut self, setting: &Setting, end: End, value: Value) -> Result<(), Stop>
        ensures { Makes (values.with_network setting.now self.old end value.entry) self.new result }
    {
        let spans = network(setting.family, value.word).ok_or(Stop::Faulty(LineKind::BadAddress))?;
        if value.negated && is_whole(setting.family, spans) {
            return Err(Stop::Faulty(LineKind::BadAddress));
        }
        self.take_set(setting, value.negated, end, AddressSet::Network(spans))
    }

    /// Addresses from one to another.
    fn take_range(&mut self, setting: &Setting, end: End, value: Value) -> Result<(), Stop>
        ensures { Makes (values.with_range setting.now self.old end value.entry) self.new result }
    {
        let range = address_range(setting.family, value.word).ok_or(Stop::Faulty(
            LineKind::BadAddress,
        ))?;
        self.take_set(setting, value.negated, end, AddressSet::Range(range))
    }

    /// Addresses of a type.
    fn take_type(&mut self, setting: &Setting, end: End, value: Value) -> Result<(), Stop>
        ensures { Makes (values.with_type setting.now self.old end value.entry) self.new result }
    {
        let set = set_of_type(setting.family, value.word);
        if let Some(kind) = set_cause(setting.assumed, set) {
            self.put_cause(kind);
        }
        self.take_set(setting, value.negated, end, set)
    }

    /// Ports, of which a protocol that has some is known. After `!` they aren't all.
    fn take_ports(&mut self, setting: &Setting, end: End, value: Value) -> Result<(), Stop>
        ensures { Makes (values.with_ports setting.now self.old end value.entry) self.new result }
    {
        if !has_ports(self.known) {
            return Err(Stop::Faulty(LineKind::NeedsProtocol));
        }
        let span = port_span(value.word).ok_or(Stop::Faulty(LineKind::BadPorts))?;
        if value.negated && are_all(span) {
            return Err(Stop::Faulty(LineKind::BadPorts));
        }
        let boxes = [with_span(all_packets(setting.family), ports_at(end), span)];
        self.caught.take(setting.alloc, value.negated, &boxes)?;
        Ok(())
    }

    /// A list of ports of an end, or of any of the two.
    fn take_list(&mut self, setting: &Setting, end: Option<End>, value: Value) -> Result<(), Stop>
        ensures { Makes (values.with_list setting.now self.old end value.entry) self.new result }
    {
        let spans = port_spans(setting.alloc, value.word)?;
        let mut boxes = Vec::new(setting.alloc);
        put_listed(&mut boxes, all_packets(setting.family), end, &spans)?;
        self.caught.take(setting.alloc, value.negated, &boxes)?;
        Ok(())
    }

    /// The protocol, which is known if it isn't negated. After `!` it isn't that of all.
    fn take_protocol(&mut self, setting: &Setting, value: Value) -> Result<(), Stop>
        ensures { Makes (values.with_protocol setting.now self.old value.entry) self.new result }
    {
        let number = protocol(value.word).ok_or(Stop::Faulty(LineKind::BadProtocol))?;
        if value.negated && number == 0 {
            return Err(Stop::Faulty(LineKind::BadProtocol));
        }
        self.known = if value.negated { 0 } else { number };
        let all = all_packets(setting.family);
        let boxes = [with_span(all, Field::Protocol, protocol_span(number))];
        self.caught.take(setting.alloc, value.negated, &boxes)?;
        Ok(())
    }

    /// What all packets have or none, or a cause where that isn't assumed.
    fn take_met(&mut self, negated: bool, met: Option<bool>, kind: LineKind)
        ensures { self.new ≡ values.with_met negated met kind self.old }
    {
        match met {
            Some(met) => self.never = self.never || met == negated,
            None => self.put_cause(kind),
        }
    }

    /// An interface, as it is assumed. Packets of OUTPUT come by none, and those of INPUT leave by
    /// none.
    fn take_interface(&mut self, setting: &Setting, end: End, value: Value) -> Result<(), Stop>
        ensures { Makes (values.with_interface setting.now self.old end value.entry)
            self.new result }
    {
        if lacks_interface(setting.chain, end) || !is_interface(b'+', value.word) {
            return Err(Stop::Faulty(LineKind::BadInterface));
        }
        let met = interface_met(setting.assumed, end, value.word);
        self.take_met(value.negated, met, LineKind::NeedsInterface);
        Ok(())
    }

    /// States of a connection, as it is assumed.
    fn take_states(&mut self, setting: &Setting, changed: bool, value: Value) -> Result<(), Stop>
        ensures { Makes (values.with_states setting.now self.old changed value.entry)
            self.new result }
    {
        if !are_known(changed, value.word) {
            return Err(Stop::Faulty(LineKind::BadState));
        }
        if has_state(value.word, CHANGED) {
            self.put_cause(LineKind::CantSay);
        } else {
            self.take_met(
                value.negated,
                state_met(setting.assumed, value.word),
                LineKind::NeedsState,
            );
        }
        Ok(())
    }

    /// A match, by its name. Its options may come again.
    fn take_match(&mut self, setting: &Setting, word: &[u8]) -> Result<(), Stop>
        ensures { Makes (values.with_match setting.now self.old word.now) self.new result }
    {
        let place = owner_in(matches(), word).ok_or(Stop::Faulty(LineKind::BadMatch))?;
        self.rows = Rows::Match(place);
        self.given &= ANY_OPTIONS;
        self.kind = match_named(word);
        match self.kind {
            Some(kind) => self.need(setting.family, kind),
            None => {
                self.put_cause(LineKind::CantSay);
                Ok(())
            }
        }
    }

    /// What a match needs before it; its option comes right after it, unless it may stand alone.
    fn need(&mut self, family: Family, kind: Match) -> Result<(), Stop>
        ensures { Makes (values.with_needs family self.old kind) self.new result }
    {
        match kind {
            Match::Protocol(number) => self.need_protocol(number),
            Match::Messages(number) => {
                if number != messages_of(family) {
                    return Err(Stop::Faulty(LineKind::BadMatch));
                }
                self.own = true;
                self.need_protocol(number)
            }
            Match::Ports => {
                if !has_ports(self.known) {
                    return Err(Stop::Faulty(LineKind::NeedsProtocol));
                }
                self.own = true;
                Ok(())
            }
            Match::Comment | Match::Range | Match::Connection | Match::State | Match::Type => {
                self.own = true;
                Ok(())
            }
        }
    }

    /// The match of a protocol: that which is known, and once.
    fn need_protocol(&mut self, number: u64) -> Result<(), Stop>
        ensures { Makes (values.with_matched number self.old) self.new result }
    {
        if self.known != number || self.matched {
            return Err(Stop::Faulty(LineKind::BadMatch));
        }
        self.matched = true;
        Ok(())
    }

    /// A target: a verdict, one that passes packets on, or a chain that rules lead to.
    fn take_jump(&mut self, setting: &Setting, word: &[u8]) -> Result<(), Stop>
        ensures { Makes (values.with_jump setting.now self.old word.now) self.new result }
    {
        if let Some(verdict) = verdict_named(word) {
            self.put_act(Act::Decide(verdict), Rows::Nothing);
            return Ok(());
        }
        if let Some(place) = target_in(setting.table, word) {
            self.put_act(Act::Pass, Rows::Target(place));
            return Ok(());
        }
        let place = led_place(setting, word)?;
        self.put_act(Act::Jump(place), Rows::Nothing);
        Ok(())
    }

    /// What the rule does, and the options of its target.
    fn put_act(&mut self, act: Act, rows: Rows)
        ensures { self.new ≡ values.with_act act rows self.old }
    {
        self.act = Some(act);
        self.rows = rows;
        self.kind = None;
    }

    /// The answer of REJECT, which changes no verdict.
    fn take_answer(&mut self, setting: &Setting, word: &[u8]) -> Result<(), Stop>
        ensures { Makes (values.with_answer setting.now.family self.old word.now) self.new result }
    {
        if !rejects(self.act) {
            return Err(Stop::Faulty(LineKind::NeedsProtocol));
        }
        if !has_answer(setting.family, self.known, word) {
            return Err(Stop::Faulty(LineKind::BadAnswer));
        }
        Ok(())
    }
}

/// Whether a network has all addresses of the family.
fn is_whole(family: Family, spans: AddressSpans) -> bool
    ensures { result ≡ values.is_whole family spans }
{
    match family {
        Family::Ip4 => spans.low.low == 0 && spans.low.high == 0xFFFF_FFFF,
        Family::Ip6 => spans.high.low == 0 && spans.high.high == u64::MAX,
    }
}

/// The addresses of a type.
fn set_of_type(family: Family, word: &[u8]) -> AddressSet
    ensures { result ≡ values.set_of_type family word.now }
{
    if is(word, b"LOCAL") {
        return AddressSet::Local;
    }
    match family {
        Family::Ip4 if is(word, b"MULTICAST") => AddressSet::Multicast,
        Family::Ip4 | Family::Ip6 => AddressSet::Unsaid,
    }
}

/// Why no rule file says which addresses are meant, if none does.
fn set_cause(assumed: &[u8], set: AddressSet) -> Option<LineKind>
    ensures { result ≡ values.set_cause assumed.now set }
{
    match set {
        AddressSet::Network(_) | AddressSet::Range(_) | AddressSet::Multicast => None,
        AddressSet::Local => (!knows_local(assumed)).then_some(LineKind::NeedsLocal),
        AddressSet::Unsaid => Some(LineKind::CantSay),
    }
}

/// Whether a span has all ports.
fn are_all(span: Span) -> bool
    ensures { result ≡ values.are_all span }
{
    span.low == 0 && span.high == MAX_PORT
}

/// The field of the ports of an end.
fn ports_at(end: End) -> Field
    ensures { result ≡ values.ports_at end }
{
    match end {
        End::Source => Field::SourcePorts,
        End::Destination => Field::DestinationPorts,
    }
}

/// Puts the packets that have a port of a list at an end, or at any of the two.
fn put_listed(
    into: &mut Vec<Packets>,
    all: Packets,
    end: Option<End>,
    ports: &[Span],
) -> Result<(), AllocError>
    ensures { OnOk result (into.new.items ≡ into.old.items ++ values.listed all end ports.now) }
{
    match end {
        Some(end) => put_spans(into, all, ports_at(end), ports),
        None => {
            put_spans(into, all, Field::SourcePorts, ports)?;
            put_spans(into, all, Field::DestinationPorts, ports)
        }
    }
}

/// Whether packets of a chain have no interface of an end.
fn lacks_interface(chain: &[u8], end: End) -> bool
    ensures { result ≡ values.lacks_interface chain.now end }
{
    match end {
        End::Source => is(chain, b"OUTPUT") || is(chain, b"POSTROUTING"),
        End::Destination => is(chain, b"INPUT") || is(chain, b"PREROUTING"),
    }
}

/// Whether an interface is assumed that packets of a chain lack.
pub(crate) fn assumes_lacking(name: &[u8], assumed: &[u8], end: End) -> bool
    ensures { result ≡ values.assumes_lacking name.now assumed.now end }
{
    lacks_interface(name, end) && value_in(assumed, interface_key(end)).is_some()
}

/// The key of an interface among what is assumed.
fn interface_key(end: End) -> &'static [u8]
    ensures { result.now ≡ values.interface_key end }
{
    match end {
        End::Source => b"in".as_slice(),
        End::Destination => b"out".as_slice(),
    }
}

/// Whether packets have one of the interfaces, if it is known.
fn interface_met(assumed: &[u8], end: End, word: &[u8]) -> Option<bool>
    ensures { result ≡ values.interface_met assumed.now end word.now }
{
    match value_in(assumed, interface_key(end)) {
        Some(name) => Some(meets_interface(b'+', word, name)),
        None => None,
    }
}

/// Whether a word lists states that the match knows.
fn are_known(changed: bool, word: &[u8]) -> bool
    ensures { result ≡ values.are_known changed word.now }
{
    are_states(word) && (changed || !has_state(word, CHANGED))
}

/// Whether connections have one of the states, if it is known.
fn state_met(assumed: &[u8], word: &[u8]) -> Option<bool>
    ensures { result ≡ values.state_met assumed.now word.now }
{
    match assumed_state(assumed) {
        Some(number) => Some(has_state(word, number)),
        None => None,
    }
}

/// The protocol of the messages of a family: ICMP.
fn messages_of(family: Family) -> u64
    ensures { result ≡ values.messages_of family }
{
    match family {
        Family::Ip4 => 1,
        Family::Ip6 => 58,
    }
}

/// The place of a chain that rules may lead to, by its name.
fn led_place(setting: &Setting, name: &[u8]) -> Result<usize, Stop>
    ensures { MatchResult result
        (λ place. values.led_place setting.now name.now ≡ Ok place)
        (Refuses (values.led_place setting.now name.now)) }
{
    setting
        .chains
        .place_of(name, true)
        .ok_or(Stop::Faulty(LineKind::BadTarget))
}

/// Whether the rule rejects.
fn rejects(act: Option<Act>) -> bool
    ensures { result ≡ values.rejects act }
{
    matches!(act, Some(Act::Decide(Verdict::Reject)))
}

/// Whether REJECT of a family may give an answer, where a protocol is known. A reset needs TCP.
fn has_answer(family: Family, known: u64, word: &[u8]) -> bool
    ensures { result ≡ values.has_answer family known word.now }
{
    if is(word, b"tcp-reset") {
        return known == 6;
    }
    owner_in(answers(family), word).is_some()
}
