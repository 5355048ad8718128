//! Services: protocols with their ports, as entries and members of groups of services name them.

ghost use Rattle.std.specs.Prelude.{◌≡◌};
ghost use Rattle.cisco_reader.specs.Read.{Reads};
ghost use Rattle.cisco_reader.specs.Services as meant;

use crate::fault::LineKind;
use crate::names::{MAX_PROTOCOL, port, protocol_number};
use crate::port_list::Ports;
use crate::words::{Words, is};
use list_chains::Span;
use std::slice;

/// Ports that are wanted, or left out after `neq`.
#[derive(Drop)]
pub(crate) struct PortPart {
    pub(crate) negated: bool,
    pub(crate) ports: Ports,
}

/// How ports are compared.
#[derive(Clone, Copy)]
pub(crate) enum Operator {
    /// `eq`
    Equal,
    /// `neq`
    NotEqual,
    /// `gt`
    Greater,
    /// `lt`
    Less,
    /// `range`
    Range,
}

/// The comparison that a word names.
pub(crate) fn operator_named(word: &[u8]) -> Option<Operator>
    ensures { result ≡ meant.operator_named word.now }
{
    if is(word, b"eq") {
        Some(Operator::Equal)
    } else if is(word, b"neq") {
        Some(Operator::NotEqual)
    } else if is(word, b"gt") {
        Some(Operator::Greater)
    } else if is(word, b"lt") {
        Some(Operator::Less)
    } else if is(word, b"range") {
        Some(Operator::Range)
    } else {
        None
    }
}

/// The ports after a comparison. In a group `eq` and `neq` have one port.
fn compared(once: bool, operator: Operator, words: &mut Words) -> Result<Ports, LineKind>
    ensures { Reads (meant.compared once operator words.old) result words.new }
{
    match operator {
        Operator::Equal | Operator::NotEqual => {
            if !once {
                return words.ports();
            }
            let port = words.port()?;
            Ok(Ports::between(port, port))
        }
        Operator::Greater => Ok(Ports::above(words.port()?)),
        Operator::Less => Ok(Ports::below(words.port()?)),
        Operator::Range => {
            let low = words.port()?;
            let high = words.port()?;
            if high < low {
                return Err(LineKind::BadPort);
            }
            Ok(Ports::between(low, high))
        }
    }
}

/// The ports after a comparison, with what it is.
fn with_operator(
    once: bool,
    operator: Operator,
    words: &mut Words,
) -> Result<Option<PortPart>, LineKind>
    ensures { Reads (meant.with_operator once operator words.old) result words.new }
{
    let ports = compared(once, operator, words)?;
    let negated = matches!(operator, Operator::NotEqual);
    Ok(Some(PortPart { negated, ports }))
}

/// The ports that are compared after an address, if any are.
pub(crate) fn port_part(words: &mut Words) -> Result<Option<PortPart>, LineKind>
    ensures { Reads (meant.port_part words.old) result words.new }
{
    let Some(operator) = words.operator() else {
        return Ok(None);
    };
    with_operator(false, operator, words)
}

/// All protocols.
pub(crate) const ANY_PROTOCOL: Span = Span {
    low: 0,
    high: MAX_PROTOCOL,
};

/// The protocols of `tcp-udp`.
const TCP_UDP: [Span; 2] = [Span { low: 6, high: 6 }, Span { low: 17, high: 17 }];

/// The protocols of a service.
#[derive(Clone, Copy)]
pub(crate) enum Protocols {
    /// Those from one number to another.
    Between(Span),
    /// TCP and UDP.
    TcpUdp,
}

/// Protocols, and the ports of the source and of the destination where any are compared.
#[derive(Drop)]
pub(crate) struct Service {
    pub(crate) protocols: Protocols,
    pub(crate) source: Option<PortPart>,
    pub(crate) destination: Option<PortPart>,
}

/// The protocols that a word stands for.
pub(crate) fn protocols_of(word: &[u8]) -> Result<Span, LineKind>
    ensures { result ≡ meant.protocols_of word.now }
{
    if is(word, b"ip") {
        return Ok(ANY_PROTOCOL);
    }
    let number = protocol_number(word).ok_or(LineKind::BadProtocol)?;
    if number == 0 {
        return Err(LineKind::ZeroProtocol);
    }
    Ok(Span {
        low: number,
        high: number,
    })
}

/// Whether some protocols are the one of this number alone.
fn is_one(number: u64, span: Span) -> bool
    ensures { result ≡ meant.is_one number span }
{
    span.low == number && span.high == number
}

/// Whether a protocol has types of messages: ICMP of IPv4 or of IPv6.
pub(crate) fn has_types(span: Span) -> bool
    ensures { result ≡ meant.has_types span }
{
    is_one(1, span) || is_one(58, span)
}

/// Whether a protocol has ports that keys have: TCP, UDP or SCTP.
fn has_ports(span: Span) -> bool
    ensures { result ≡ meant.has_ports span }
{
    is_one(6, span) || is_one(17, span) || is_one(132, span)
}

impl Protocols {
    ghost use Rattle.std.specs.Prelude.{◌≡◌};
    ghost use Rattle.cisco_reader.specs.Services as meant;

    /// The numbers of the protocols.
    pub(crate) fn spans(&self) -> &[Span]
        ensures { result.now ≡ meant.protocol_spans self.now }
    {
        match self {
            Protocols::Between(span) => slice::from_ref(span),
            Protocols::TcpUdp => &TCP_UDP,
        }
    }

    /// Whether they have types of messages.
    fn have_types(self) -> bool
        ensures { result ≡ meant.have_types self }
    {
        match self {
            Protocols::Between(span) => has_types(span),
            Protocols::TcpUdp => false,
        }
    }

    /// Whether they have ports.
    fn have_ports(self) -> bool
        ensures { result ≡ meant.have_ports self }
    {
        match self {
            Protocols::Between(span) => has_ports(span),
            Protocols::TcpUdp => true,
        }
    }
}

/// Whether ports are compared on a side.
pub(crate) fn are_compared(source: &Option<PortPart>, destination: &Option<PortPart>) -> bool
    ensures { result ≡ meant.are_compared source.now destination.now }
{
    source.is_some() || destination.is_some()
}

/// A service, whose protocols have ports if any are compared.
pub(crate) fn service_of(
    protocols: Protocols,
    source: Option<PortPart>,
    destination: Option<PortPart>,
) -> Result<Service, LineKind>
    ensures { result ≡ meant.service_of protocols source destination }
{
    if are_compared(&source, &destination) && !protocols.have_ports() {
        return Err(LineKind::NeedsProtocol);
    }
    Ok(Service {
        protocols,
        source,
        destination,
    })
}

/// Ports that have to stand there: a comparison, or one port alone.
fn some_ports(words: &mut Words) -> Result<Option<PortPart>, LineKind>
    ensures { Reads (meant.some_ports words.old) result words.new }
{
    let word = words.required()?;
    if let Some(operator) = operator_named(word) {
        return with_operator(true, operator, words);
    }
    let number = port(word).ok_or(LineKind::BadPort)?;
    Ok(Some(PortPart {
        negated: false,
        ports: Ports::between(number, number),
    }))
}

/// The ports of the source, which stand after `source`.
fn source_ports(words: &mut Words) -> Result<Option<PortPart>, LineKind>
    ensures { Reads (meant.source_ports words.old) result words.new }
{
    if words.skip(b"source") {
        return some_ports(words);
    }
    Ok(None)
}

/// The ports of the destination, after which no word stands.
fn destination_ports(words: &mut Words) -> Result<Option<PortPart>, LineKind>
    ensures { result ≡ meant.destination_ports words.old }
{
    if words.is_empty() {
        return Ok(None);
    }
    let ports = some_ports(words)?;
    words.end()?;
    Ok(ports)
}

/// The protocols of a member.
fn member_protocols(word: &[u8]) -> Result<Protocols, LineKind>
    ensures { result ≡ meant.member_protocols word.now }
{
    if is(word, b"tcp-udp") {
        return Ok(Protocols::TcpUdp);
    }
    Ok(Protocols::Between(protocols_of(word)?))
}

/// The service of a member, or why it isn't read.
pub(crate) fn service_of_words(words: &mut Words) -> Result<Service, LineKind>
    ensures { result ≡ meant.service_of_words words.old }
{
    let protocols = member_protocols(words.required()?)?;
    if !words.is_empty() && protocols.have_types() {
        return Err(LineKind::IcmpType);
    }
    let source = source_ports(words)?;
    let destination = destination_ports(words)?;
    service_of(protocols, source, destination)
}
