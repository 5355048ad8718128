//! The right side of a comparison: numbers, addresses, ranges, prefixes, and anonymous sets of
//! these; and the packets of each.

ghost use Rattle.std.specs.Prelude.{◌≡◌, ◌++◌, ◌≤◌, [], map, option_map, OnOk};
ghost use Rattle.list_packets.specs.AddressSets.{set_spans};
ghost use Rattle.list_packets.specs.Packets.{with_end};
ghost use Rattle.json.specs.Value.{value_view as view};
ghost use Rattle.nft_reader.specs.Shapes.{all_seen, seen};
ghost use Rattle.nft_reader.specs.Stops.{GivesItems, Leaves};
ghost use Rattle.nft_reader.specs.Values as values;

use crate::compared::Part;
use crate::fault::{RuleKind, Stop};
use crate::shapes::{
    items_of, len_of, number_in, number_of, only, pair_of, present, said_by, text_in,
};
use field_defs::Family;
use json::Value;
use list_chains::Span;
use list_packets::{
    AddressSet, End, Field, Packets, address, address_alone, filled_range, most_bits, put_ends,
    put_set, put_spans, spans_of_address,
};
use std::alloc::{AllocError, Global};

/// The greatest port.
const MAX_PORT: u64 = 65_535;

/// The greatest number of a protocol.
const MAX_PROTOCOL: u64 = 255;

/// The protocols whose ports keys have, by their names.
pub(crate) fn ported_named(name: &str) -> Option<u64>
    ensures { result ≡ values.ported_named name.now }
{
    match name {
        "tcp" => Some(6),
        "udp" => Some(17),
        "sctp" => Some(132),
        _ => None,
    }
}

/// The protocol of a name: one of these, or another that nft names.
fn protocol_named(name: &str) -> Option<u64>
    ensures { result ≡ values.protocol_named name.now }
{
    match name {
        "icmp" => Some(1),
        "ipv6-icmp" => Some(58),
        "gre" => Some(47),
        "esp" => Some(50),
        _ => ported_named(name),
    }
}

/// The number of a value that is compared with a field.
fn value_of(field: Field, value: &Value<'_>) -> Option<u64>
    ensures { result ≡ values.value_of field (view value.now) }
{
    match field {
        Field::Protocol => match value.as_str() {
            Some(name) => protocol_named(name),
            None => number_of(value, MAX_PROTOCOL),
        },
        Field::SourcePorts | Field::DestinationPorts => number_of(value, MAX_PORT),
    }
}

/// A range of numbers: its two ends, the lower first.
fn range_of(field: Field, said: &Value<'_>) -> Option<Span>
    ensures { result ≡ values.range_of field (view said.now) }
{
    let (low, high) = pair_of(said)?;
    let low = value_of(field, low)?;
    let high = value_of(field, high)?;
    (low <= high).then_some(Span { low, high })
}

/// The span of a value.
fn span_of(field: Field, value: &Value<'_>) -> Option<Span>
    ensures { result ≡ values.span_of field (view value.now) }
{
    match only(value) {
        Some(("range", said)) => range_of(field, said),
        Some(_) => None,
        None => {
            let low = value_of(field, value)?;
            Some(Span { low, high: low })
        }
    }
}

/// The number of the address of a value.
fn address_of_value(family: Family, value: &Value<'_>) -> Option<u128>
    ensures { result ≡ values.address_of_value family (view value.now) }
{
    address(family, value.as_str()?.as_bytes())
}

/// A prefix.
fn prefix_of(family: Family, said: &Value<'_>) -> Option<AddressSet>
    ensures { result ≡ values.prefix_of family (view said.now) }
{
    if len_of(said) != 2 {
        return None;
    }
    let text = text_in("addr", said)?;
    let bits = number_in("len", said, most_bits(family))?;
    Some(AddressSet::Network(spans_of_address(family, text.as_bytes(), bits)?))
}

/// A range of addresses: its two ends, the lower first.
fn address_range(family: Family, said: &Value<'_>) -> Option<AddressSet>
    ensures { result ≡ values.address_range family (view said.now) }
{
    let (low, high) = pair_of(said)?;
    let low = address_of_value(family, low)?;
    Some(AddressSet::Range(filled_range(low, address_of_value(family, high)?)?))
}

/// The addresses of a value.
fn address_set(family: Family, value: &Value<'_>) -> Option<AddressSet>
    ensures { result ≡ values.address_set family (view value.now) }
{
    match only(value) {
        Some(("prefix", said)) => prefix_of(family, said),
        Some(("range", said)) => address_range(family, said),
        Some(_) => None,
        None => Some(AddressSet::Network(address_alone(family, value.as_str()?.as_bytes())?)),
    }
}

/// How many members of an element say nothing of packets.
fn quiet_members(said: &Value<'_>) -> usize
    ensures members { result ≡ values.quiet_members (view said.now) }
    ensures bound { result ≤ 2 }
{
    present("counter", said) + present("comment", said)
}

/// The value of an element, which may have a counter and a comment.
pub(crate) fn bare_element<'v, 'a>(value: &'v Value<'a>) -> Option<&'v Value<'a>>
    ensures { option_map seen result ≡ values.bare_element (view value.now) }
{
    let Some(said) = said_by("elem", value) else {
        return Some(value);
    };
    if len_of(said) != 1 + quiet_members(said) {
        return None;
    }
    said.get("val")
}

/// The elements of a value: those of a set, or else the value itself.
pub(crate) fn elements_of<'v, 'a>(value: &'v Value<'a>) -> Option<&'v [Value<'a>]>
    ensures { option_map all_seen result ≡ values.elements_of (view value.now) }
{
    match said_by("set", value) {
        Some(said) => items_of(said),
        None => Some(std::slice::from_ref(value)),
    }
}

/// Puts the boxes of the packets of a set of addresses after others.
fn put_addresses(
    into: &mut Vec<Packets>,
    alloc: Global,
    family: Family,
    all: Packets,
    end: End,
    addresses: AddressSet,
) -> Result<(), AllocError>
    ensures { OnOk result (into.new.items
        ≡ into.old.items ++ map (with_end all end) (set_spans family [] addresses)) }
{
    let mut spans = Vec::new(alloc);
    put_set(&mut spans, family, b"", addresses)?;
    put_ends(into, all, end, &spans)
}

/// Puts those of some packets that have an element in a part of the header after others.
fn put_element(
    into: &mut Vec<Packets>,
    alloc: Global,
    family: Family,
    all: Packets,
    part: Part,
    element: &Value<'_>,
) -> Result<(), Stop<RuleKind>>
    ensures { Leaves result into.new.items
        (values.with_element family all part into.old.items (view element.now)) }
{
    let value = bare_element(element).ok_or(RuleKind::CantSay)?;
    match part {
        Part::Number(field) => {
            let span = span_of(field, value).ok_or(RuleKind::CantSay)?;
            put_spans(into, all, field, &[span])?;
        }
        Part::Address(end) => {
            let addresses = address_set(family, value).ok_or(RuleKind::CantSay)?;
            put_addresses(into, alloc, family, all, end, addresses)?;
        }
    }
    Ok(())
}

/// Those of some packets that have one of some elements in a part of the header. It takes memory in
/// proportion to the elements.
pub(crate) fn part_boxes(
    alloc: Global,
    family: Family,
    all: Packets,
    part: Part,
    elements: &[Value<'_>],
) -> Result<Vec<Packets>, Stop<RuleKind>>
    ensures { GivesItems result (values.part_boxes family all part (map view elements.now)) }
{
    let mut boxes = Vec::new(alloc);
    for element in elements {
        put_element(&mut boxes, alloc, family, all, part, element)?;
    }
    Ok(boxes)
}
