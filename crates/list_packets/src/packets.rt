//! What a rule catches, as boxes of packets.
//!
//! Each option says of packets that they lie in one of some boxes, or after `!` in none. A rule
//! catches those in a box of each option, but for those in a box after `!`.

ghost use Rattle.std.specs.Prelude.{◌≡◌, ◌++◌, map, IfOk, OnOk};
ghost use Rattle.list_packets.specs.Packets.{all_packets, common_addresses, meet};
ghost use Rattle.list_packets.specs.Packets.{rules_of_caught, spans_of, with_end};
ghost use Rattle.list_packets.specs.Packets.{with_span};

use crate::caught::Caught;
use crate::values::AddressSpans;
use field_defs::Family;
use list_chains::{ChainRule, Span, SpanBox, Target, common};
use std::alloc::{AllocError, Global};

/// A box of packets: for each part of their keys the numbers from one to another.
#[derive(Clone, Copy)]
pub struct Packets {
    /// The protocol above IP.
    pub protocol: Span,
    /// The address that packets come from.
    pub source: AddressSpans,
    /// The address that they go to.
    pub destination: AddressSpans,
    /// The port that they come from.
    pub source_ports: Span,
    /// The port that they go to.
    pub destination_ports: Span,
}

/// A field of packets that is compared with a span.
#[derive(Clone, Copy)]
pub enum Field {
    /// The protocol above IP.
    Protocol,
    /// The port that packets come from.
    SourcePorts,
    /// The port that they go to.
    DestinationPorts,
}

/// An end of the way of packets.
#[derive(Clone, Copy)]
pub enum End {
    /// Where they come from.
    Source,
    /// Where they go to.
    Destination,
}

/// All numbers of a protocol, of a port, and of a half of an IPv6 address.
const ANY_PROTOCOL: Span = Span { low: 0, high: 255 };

const ANY_PORT: Span = Span {
    low: 0,
    high: 65_535,
};

const ANY_HALF: Span = Span {
    low: 0,
    high: u64::MAX,
};

/// All addresses of IPv4, and of IPv6.
const ANY_IP4: AddressSpans = AddressSpans {
    high: ANY_HALF,
    low: Span {
        low: 0,
        high: 4_294_967_295,
    },
};

const ANY_IP6: AddressSpans = AddressSpans {
    high: ANY_HALF,
    low: ANY_HALF,
};

/// All packets of a family.
pub fn all_packets(family: Family) -> Packets
    ensures { result ≡ all_packets family }
{
    let addresses = match family {
        Family::Ip4 => ANY_IP4,
        Family::Ip6 => ANY_IP6,
    };
    Packets {
        protocol: ANY_PROTOCOL,
        source: addresses,
        destination: addresses,
        source_ports: ANY_PORT,
        destination_ports: ANY_PORT,
    }
}

/// The packets of both boxes, which may be none.
pub(crate) fn meet(one: Packets, other: Packets) -> Packets
    ensures { result ≡ meet one other }
{
    Packets {
        protocol: common(one.protocol, other.protocol),
        source: common_addresses(one.source, other.source),
        destination: common_addresses(one.destination, other.destination),
        source_ports: common(one.source_ports, other.source_ports),
        destination_ports: common(one.destination_ports, other.destination_ports),
    }
}

/// The addresses of both spans, which may be none.
fn common_addresses(one: AddressSpans, other: AddressSpans) -> AddressSpans
    ensures { result ≡ common_addresses one other }
{
    AddressSpans {
        high: common(one.high, other.high),
        low: common(one.low, other.low),
    }
}

/// The packets that have the numbers of a span in a field.
pub fn with_span(all: Packets, field: Field, span: Span) -> Packets
    ensures { result ≡ with_span all field span }
{
    match field {
        Field::Protocol => Packets {
            protocol: span,
            ..all
        },
        Field::SourcePorts => Packets {
            source_ports: span,
            ..all
        },
        Field::DestinationPorts => Packets {
            destination_ports: span,
            ..all
        },
    }
}

/// Puts boxes of those of some packets that have the numbers of each span in a field after others.
/// It takes memory for one of each span.
pub fn put_spans(
    into: &mut Vec<Packets>,
    all: Packets,
    field: Field,
    spans: &[Span],
) -> Result<(), AllocError>
    ensures { OnOk result (into.new.items ≡ into.old.items ++ map (with_span all field) spans.now) }
{
    for span in spans {
        into.push(with_span(all, field, *span))?;
    }
    Ok(())
}

/// The packets that come from some addresses, or go to them.
pub fn with_end(all: Packets, end: End, spans: AddressSpans) -> Packets
    ensures { result ≡ with_end all end spans }
{
    match end {
        End::Source => Packets {
            source: spans,
            ..all
        },
        End::Destination => Packets {
            destination: spans,
            ..all
        },
    }
}

/// Puts boxes of those of some packets that come from addresses, or go to them, after others. It
/// takes memory for one of each span.
pub fn put_ends(
    into: &mut Vec<Packets>,
    all: Packets,
    end: End,
    addresses: &[AddressSpans],
) -> Result<(), AllocError>
    ensures { OnOk result
        (into.new.items ≡ into.old.items ++ map (with_end all end) addresses.now) }
{
    for spans in addresses {
        into.push(with_end(all, end, *spans))?;
    }
    Ok(())
}

/// The box of some packets, over the fields of the family's layout.
fn box_of(alloc: Global, family: Family, packets: Packets) -> Result<SpanBox, AllocError>
    ensures { IfOk result (λ made. made ≡ spans_of family packets) }
{
    match family {
        Family::Ip4 => SpanBox::of(
            alloc,
            &[
                packets.protocol,
                packets.source.low,
                packets.destination.low,
                packets.source_ports,
                packets.destination_ports,
            ],
        ),
        Family::Ip6 => SpanBox::of(
            alloc,
            &[
                packets.protocol,
                packets.source.high,
                packets.source.low,
                packets.destination.high,
                packets.destination.low,
                packets.source_ports,
                packets.destination_ports,
            ],
        ),
    }
}

/// The boxes of some packets.
fn boxes_of(alloc: Global, family: Family, all: &[Packets]) -> Result<Vec<SpanBox>, AllocError>
    ensures { IfOk result (λ boxes. boxes.items ≡ map (spans_of family) all.now) }
{
    let mut boxes = Vec::new(alloc);
    for packets in all {
        boxes.push(box_of(alloc, family, *packets)?)?;
    }
    Ok(boxes)
}

/// Puts the rules of boxes over the fields of the family's layout after others: one for each that
/// is wanted. It takes the memory of these rules.
///
/// The fields are the protocol, the source, the destination, and their ports. An address of IPv6 is
/// two fields: its high half, and its low one.
pub fn put_rules(
    alloc: Global,
    family: Family,
    caught: &Caught,
    userdata: u32,
    target: Target,
    rules: &mut Vec<ChainRule>,
) -> Result<(), AllocError>
    ensures { OnOk result (rules.new.items
        ≡ rules.old.items ++ rules_of_caught family caught.now userdata target) }
{
    for packets in caught.kept() {
        let inside = box_of(alloc, family, *packets)?;
        let but = boxes_of(alloc, family, caught.left())?;
        rules.push(ChainRule::new(userdata, inside, but, target))?;
    }
    Ok(())
}
