//! Protocols, states of connections, lists of ports, and counters, as a word spells them.

ghost use Rattle.std.specs.Prelude.{◌≡◌, MatchResult, Ok};
ghost use Rattle.text_scan.specs.Parts.{parts_of};
ghost use Rattle.list_packets.specs.Values.{comma};
ghost use Rattle.iptables_reader.specs.Stops.{Makes, Refuses};
ghost use Rattle.iptables_reader.specs.Values as values;

use crate::fault::{LineKind, Stop};
use crate::tables::{protocols, states};
use list_chains::Span;
use list_packets::{closed_span, number_in, plain_number};
use std::alloc::Global;
use text_scan::split_once;

/// The greatest number of a protocol.
const MAX_PROTOCOL: u64 = 255;

/// How many ports a list has at most, where a range counts twice.
pub(crate) const MAX_PORTS: usize = 15;

/// The number of a protocol, by its name or its number. 0 stands for all.
pub(crate) fn protocol(word: &[u8]) -> Option<u64>
    ensures { result ≡ values.protocol_of word.now }
{
    match number_in(protocols(), word) {
        Some(number) => Some(number),
        None => plain_number(word, MAX_PROTOCOL),
    }
}

/// Whether a word lists states.
pub(crate) fn are_states(word: &[u8]) -> bool
    ensures { result ≡ values.are_states (parts_of comma word.now) }
{
    let mut left = word;
    while let Some((part, rest)) = split_once(left, b',') {
        if number_in(states(), part).is_none() {
            return false;
        }
        left = rest;
    }
    number_in(states(), left).is_some()
}

/// Whether a word lists the state of a number.
pub(crate) fn has_state(word: &[u8], number: u64) -> bool
    ensures { result ≡ values.has_state number (parts_of comma word.now) }
{
    let mut left = word;
    while let Some((part, rest)) = split_once(left, b',') {
        if is_state_of(part, number) {
            return true;
        }
        left = rest;
    }
    is_state_of(left, number)
}

/// Whether a word is the state of a number.
fn is_state_of(word: &[u8], number: u64) -> bool
    ensures { result ≡ values.is_state_of number word.now }
{
    match number_in(states(), word) {
        Some(said) => said == number,
        None => false,
    }
}

/// The spans of a list of ports.
pub(crate) fn port_spans(alloc: Global, word: &[u8]) -> Result<Vec<Span>, Stop>
    ensures { MatchResult result
        (λ spans. values.port_spans word.now ≡ Ok spans.items)
        (Refuses (values.port_spans word.now)) }
{
    if !has_room(word) {
        return Err(Stop::Faulty(LineKind::BadPorts));
    }
    let mut spans = Vec::new(alloc);
    let mut left = word;
    while let Some((part, rest)) = split_once(left, b',') {
        put_ports(&mut spans, part)?;
        left = rest;
    }
    put_ports(&mut spans, left)?;
    Ok(spans)
}

/// Puts the span of a part of a list after others.
fn put_ports(into: &mut Vec<Span>, part: &[u8]) -> Result<(), Stop>
    ensures { Makes (values.with_part into.old.items part.now) into.new.items result }
{
    let span = closed_span(part).ok_or(Stop::Faulty(LineKind::BadPorts))?;
    into.extend_from_slice(&[span])?;
    Ok(())
}

/// Whether a list has no more ports than it may have.
fn has_room(word: &[u8]) -> bool
    ensures { result ≡ values.has_room values.max_ports (parts_of comma word.now) }
{
    let mut room = MAX_PORTS;
    let mut left = word;
    while let Some((part, rest)) = split_once(left, b',') {
        let ports = port_count(part);
        if ports > room {
            return false;
        }
        room -= ports;
        left = rest;
    }
    port_count(left) <= room
}

/// How many ports a part of a list has: a range has two.
fn port_count(part: &[u8]) -> usize
    ensures { result ≡ values.port_count part.now }
{
    if split_once(part, b':').is_some() {
        2
    } else {
        1
    }
}

/// Whether a word is counters of packets and bytes, as `[0:0]`.
pub(crate) fn is_counters(word: &[u8]) -> bool
    ensures { result ≡ values.is_counters word.now }
{
    match split_once(word, b':') {
        Some((packets, bytes)) => is_opened(packets) && is_closed(bytes),
        None => false,
    }
}

/// Whether a text is `[` and a number.
fn is_opened(text: &[u8]) -> bool
    ensures { result ≡ values.is_opened text.now }
{
    match text {
        [b'[', number @ ..] => plain_number(number, u64::MAX).is_some(),
        _ => false,
    }
}

/// Whether a text is a number and `]`.
fn is_closed(text: &[u8]) -> bool
    ensures { result ≡ values.is_closed text.now }
{
    match split_once(text, b']') {
        Some((number, rest)) => rest.is_empty() && plain_number(number, u64::MAX).is_some(),
        None => false,
    }
}
