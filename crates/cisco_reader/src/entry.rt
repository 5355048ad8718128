//! An entry of an extended list, word by word.

ghost use Rattle.std.specs.Prelude.{◌≡◌};
ghost use Rattle.cisco_reader.specs.Entry as meant;
ghost use Rattle.cisco_reader.specs.Read.{Reads};

use crate::fault::LineKind;
use crate::groups::Group;
use crate::names::Known;
use crate::services::{
    ANY_PROTOCOL, PortPart, Protocols, Service, are_compared, has_types, port_part, protocols_of,
    service_of,
};
use crate::wildcard::{Wildcard, gaps, ip4_plain};
use crate::words::{Words, is};
use list_chains::Span;

/// How many gaps a wildcard mask may have. It is said by as many spans as its gaps have numbers.
const MAX_GAPS: u32 = 8;

/// All addresses of IPv4.
const ANY_ADDRESS: Addresses = Addresses::Under(Wildcard {
    base: 0,
    free: 4_294_967_295,
});

/// What an entry does with its packets.
#[derive(Clone, Copy)]
pub(crate) enum Verdict {
    Permit,
    Deny,
}

/// Addresses of a side.
#[derive(Clone, Copy)]
pub(crate) enum Addresses {
    /// Those under a wildcard mask.
    Under(Wildcard),
    /// Those of the group of a place.
    Group(usize),
}

/// A side of an entry: addresses, and the ports that are compared.
#[derive(Drop)]
pub(crate) struct Side {
    pub(crate) addresses: Addresses,
    pub(crate) ports: Option<PortPart>,
}

/// What an entry begins with after its verdict.
#[derive(Clone, Copy)]
pub(crate) enum Carried {
    /// Protocols.
    Protocol(Span),
    /// The group of services of a place.
    Group(usize),
}

/// The services of an entry.
#[derive(Drop)]
pub(crate) enum Services {
    /// Its own one.
    Own(Service),
    /// Those of the group of a place.
    Group(usize),
}

/// What an entry says.
#[derive(Drop)]
pub(crate) struct Entry {
    pub(crate) verdict: Verdict,
    pub(crate) services: Services,
    pub(crate) source: Addresses,
    pub(crate) destination: Addresses,
}

/// What stands for addresses.
fn addresses_of(groups: &[Group], words: &mut Words) -> Result<Addresses, LineKind>
    ensures { Reads (meant.addresses_of groups.now words.old) result words.new }
{
    let word = words.required()?;
    if is(word, b"any") {
        return Ok(ANY_ADDRESS);
    }
    if is(word, b"host") {
        let address = words.address(LineKind::BadAddress)?;
        return Ok(Addresses::Under(Wildcard {
            base: u64::from(address),
            free: 0,
        }));
    }
    if is(word, b"object-group") {
        return Ok(Addresses::Group(words.group(groups, b"network")?));
    }
    let address = ip4_plain(word).ok_or(LineKind::BadAddress)?;
    let mask = words.address(LineKind::BadMask)?;
    let address = u64::from(address);
    let free = u64::from(mask);
    if gaps(32, free) > MAX_GAPS {
        return Err(LineKind::BadMask);
    }
    Ok(Addresses::Under(Wildcard {
        base: address ^ (address & free),
        free,
    }))
}

/// A side: addresses, and ports where any are compared.
fn side_of(groups: &[Group], words: &mut Words) -> Result<Side, LineKind>
    ensures { Reads (meant.side_of groups.now words.old) result words.new }
{
    let addresses = addresses_of(groups, words)?;
    let ports = port_part(words)?;
    Ok(Side { addresses, ports })
}

/// What stands for protocols.
fn carried_of(groups: &[Group], words: &mut Words) -> Result<Carried, LineKind>
    ensures { Reads (meant.carried_of groups.now words.old) result words.new }
{
    let word = words.required()?;
    if is(word, b"object-group") {
        return Ok(Carried::Group(words.group(groups, b"service")?));
    }
    Ok(Carried::Protocol(protocols_of(word)?))
}

/// The protocols that options after the addresses may be about.
fn protocols_in(carried: Carried) -> Span
    ensures { result ≡ meant.protocols_in carried }
{
    match carried {
        Carried::Protocol(span) => span,
        Carried::Group(_) => ANY_PROTOCOL,
    }
}

/// Why a word after the addresses isn't read.
fn option_fault(span: Span, word: &[u8]) -> LineKind
    ensures { result ≡ meant.option_fault span word.now }
{
    if Known::Compared.has(word) {
        LineKind::Compares
    } else if has_types(span) {
        LineKind::IcmpType
    } else {
        LineKind::UnknownWord
    }
}

/// The fault of what stands after the addresses, if it isn't a log with at most one word.
fn options_fault(span: Span, words: &mut Words) -> Option<LineKind>
    ensures { result ≡ meant.options_fault span words.old }
{
    let word = words.next()?;
    if !Known::Log.has(word) {
        return Some(option_fault(span, word));
    }
    let word = words.next()?;
    if !words.is_empty() || Known::Compared.has(word) || has_types(span) {
        return Some(option_fault(span, word));
    }
    None
}

/// The services of an entry, if what it begins with may have such ports.
fn services_with(
    carried: Carried,
    source: Option<PortPart>,
    destination: Option<PortPart>,
) -> Result<Services, LineKind>
    ensures { result ≡ meant.services_with carried source destination }
{
    match carried {
        Carried::Protocol(span) => {
            let service = service_of(Protocols::Between(span), source, destination)?;
            Ok(Services::Own(service))
        }
        Carried::Group(place) => {
            if are_compared(&source, &destination) {
                return Err(LineKind::Group);
            }
            Ok(Services::Group(place))
        }
    }
}

/// An entry after its verdict, or the first fault from left to right.
pub(crate) fn entry_of(
    groups: &[Group],
    verdict: Verdict,
    words: &mut Words,
) -> Result<Entry, LineKind>
    ensures { result ≡ meant.entry_of groups.now verdict words.old }
{
    let carried = carried_of(groups, words)?;
    let source = side_of(groups, words)?;
    let destination = side_of(groups, words)?;
    if let Some(kind) = options_fault(protocols_in(carried), words) {
        return Err(kind);
    }
    let services = services_with(carried, source.ports, destination.ports)?;
    Ok(Entry {
        verdict,
        services,
        source: source.addresses,
        destination: destination.addresses,
    })
}
