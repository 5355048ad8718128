//! What a comparison compares: its sides and its operator. Nothing here takes memory.

ghost use Rattle.std.specs.Prelude.{◌≡◌, option_map};
ghost use Rattle.json.specs.Value.{value_view as view};
ghost use Rattle.nft_reader.specs.Compared as compared;
ghost use Rattle.nft_reader.specs.Shapes.{text_seen};

use crate::shapes::{len_of, only, text_in};
use crate::values::ported_named;
use field_defs::Family;
use json::Value;
use list_packets::{End, Field};

/// The left side of a comparison.
#[derive(Clone, Copy)]
pub(crate) enum Left {
    /// A part of the header, of packets that have it.
    Header(Part, Holders),
    /// A field that no packet of the family has.
    OtherFamily,
    /// What is known of packets beside their bytes.
    Fact(Fact),
}

/// A part of the header.
#[derive(Clone, Copy)]
pub(crate) enum Part {
    Number(Field),
    Address(End),
}

/// The packets that have a part of the header.
#[derive(Clone, Copy)]
pub(crate) enum Holders {
    All,
    /// Those of the protocol with the number.
    Protocol(u64),
    /// Those of whatever protocol that has ports.
    Ported,
}

/// What is known of packets beside their bytes: it is the same for all of them.
#[derive(Clone, Copy)]
pub(crate) enum Fact {
    /// The family of packets.
    Nfproto,
    /// An interface, which is named so.
    Interface(Way, Naming),
    /// The state of the connection.
    State,
}

/// Which interface of packets: the one that they come by, or that they leave by.
#[derive(Clone, Copy)]
pub(crate) enum Way {
    In,
    Out,
}

/// How an interface is named.
#[derive(Clone, Copy)]
pub(crate) enum Naming {
    /// By its name, where `*` at the end stands for whatever follows there.
    Name,
    /// By its index, of which the name is printed.
    Index,
}

/// How a comparison compares.
#[derive(Clone, Copy)]
pub(crate) enum Operator {
    Equal,
    Unequal,
    /// Some of the bits are set.
    In,
    /// None of the bits is set.
    NotIn,
}

/// A comparison.
#[derive(Clone, Copy)]
pub(crate) struct Sides<'v, 'a> {
    pub(crate) left: &'v Value<'a>,
    pub(crate) operator: Operator,
    pub(crate) right: &'v Value<'a>,
}

/// What tables and headers of a family are called.
pub(crate) fn own_name(family: Family) -> &'static str
    ensures { result.now ≡ compared.own_name family }
{
    match family {
        Family::Ip4 => "ip",
        Family::Ip6 => "ip6",
    }
}

/// What those of the other one are called.
fn other_name(family: Family) -> &'static str
    ensures { result.now ≡ compared.other_name family }
{
    match family {
        Family::Ip4 => "ip6",
        Family::Ip6 => "ip",
    }
}

/// Whether a family of packets is IPv4.
pub(crate) fn is_ip4(name: &str) -> Option<bool>
    ensures { result ≡ compared.is_ip4 name.now }
{
    match name {
        "ipv4" => Some(true),
        "ipv6" => Some(false),
        _ => None,
    }
}

/// Whether it is IPv4, if the family is.
pub(crate) fn is_of(family: Family, is_ip4: bool) -> bool
    ensures { result ≡ compared.is_of family is_ip4 }
{
    match family {
        Family::Ip4 => is_ip4,
        Family::Ip6 => !is_ip4,
    }
}

/// A field of the header of a family.
fn own_field(family: Family, name: &str) -> Option<Left>
    ensures { result ≡ compared.own_field family name.now }
{
    let part = match (name, family) {
        ("saddr", _) => Part::Address(End::Source),
        ("daddr", _) => Part::Address(End::Destination),
        ("protocol", Family::Ip4) => Part::Number(Field::Protocol),
        _ => return None,
    };
    Some(Left::Header(part, Holders::All))
}

/// The ports of packets of a protocol, or with `th` of whatever protocol that has ports.
fn ports_of(protocol: &str, name: &str) -> Option<Left>
    ensures { result ≡ compared.ports_of protocol.now name.now }
{
    let field = match name {
        "sport" => Field::SourcePorts,
        "dport" => Field::DestinationPorts,
        _ => return None,
    };
    let holders = match protocol {
        "th" => Holders::Ported,
        _ => Holders::Protocol(ported_named(protocol)?),
    };
    Some(Left::Header(Part::Number(field), holders))
}

/// A field of a header.
fn header_field(family: Family, protocol: &str, name: &str) -> Option<Left>
    ensures { result ≡ compared.header_field family protocol.now name.now }
{
    if protocol == other_name(family) {
        return Some(Left::OtherFamily);
    }
    if protocol == own_name(family) {
        return own_field(family, name);
    }
    ports_of(protocol, name)
}

/// What a comparison of a header compares.
fn payload_of(family: Family, said: &Value<'_>) -> Option<Left>
    ensures { result ≡ compared.payload_of family (view said.now) }
{
    if len_of(said) != 2 {
        return None;
    }
    let protocol = text_in("protocol", said)?;
    header_field(family, protocol, text_in("field", said)?)
}

/// The key of what is known of a packet, if nothing stands beside it.
fn key_in<'a>(said: &Value<'a>) -> Option<&'a str>
    ensures { option_map text_seen result ≡ compared.key_in (view said.now) }
{
    if len_of(said) != 1 {
        return None;
    }
    text_in("key", said)
}

/// What is known of a packet by its key.
fn meta_key(key: &str) -> Option<Left>
    ensures { result ≡ compared.meta_key key.now }
{
    let fact = match key {
        "l4proto" => return Some(Left::Header(Part::Number(Field::Protocol), Holders::All)),
        "nfproto" => Fact::Nfproto,
        "iif" => Fact::Interface(Way::In, Naming::Index),
        "iifname" => Fact::Interface(Way::In, Naming::Name),
        "oif" => Fact::Interface(Way::Out, Naming::Index),
        "oifname" => Fact::Interface(Way::Out, Naming::Name),
        _ => return None,
    };
    Some(Left::Fact(fact))
}

/// The left side of a comparison.
pub(crate) fn left_of(family: Family, value: &Value<'_>) -> Option<Left>
    ensures { result ≡ compared.left_of family (view value.now) }
{
    match only(value)? {
        ("payload", said) => payload_of(family, said),
        ("meta", said) => meta_key(key_in(said)?),
        ("ct", said) => (key_in(said)? == "state").then_some(Left::Fact(Fact::State)),
        _ => None,
    }
}

/// The operator of a comparison.
fn operator_named(name: &str) -> Option<Operator>
    ensures { result ≡ compared.operator_named name.now }
{
    match name {
        "==" => Some(Operator::Equal),
        "!=" => Some(Operator::Unequal),
        "in" => Some(Operator::In),
        "!" => Some(Operator::NotIn),
        _ => None,
    }
}

/// Whether an operator is that of inequality.
pub(crate) fn is_unequal(operator: Operator) -> bool
    ensures { result ≡ compared.is_unequal operator }
{
    matches!(operator, Operator::Unequal)
}

/// Whether a comparison for equality is turned.
pub(crate) fn is_negated(operator: Operator) -> Option<bool>
    ensures { result ≡ compared.is_negated operator }
{
    match operator {
        Operator::Equal => Some(false),
        Operator::Unequal => Some(true),
        Operator::In | Operator::NotIn => None,
    }
}

/// Whether one with what is known is turned.
pub(crate) fn is_turned(fact: Fact, operator: Operator) -> Option<bool>
    ensures { result ≡ compared.is_turned fact operator }
{
    match (fact, operator) {
        (Fact::State, Operator::In) => Some(false),
        (Fact::State, Operator::NotIn) => Some(true),
        _ => is_negated(operator),
    }
}

/// Both sides of a comparison, and its operator.
pub(crate) fn sides_of<'v, 'a>(said: &'v Value<'a>) -> Option<Sides<'v, 'a>>
    ensures { option_map compared.sides_seen result ≡ compared.sides_of (view said.now) }
{
    if len_of(said) != 3 {
        return None;
    }
    let left = said.get("left")?;
    let operator = operator_named(text_in("op", said)?)?;
    let right = said.get("right")?;
    Some(Sides {
        left,
        operator,
        right,
    })
}

/// The protocol of packets that have what a comparison compares.
pub(crate) fn protocol_in(family: Family, said: &Value<'_>) -> Option<u64>
    ensures { result ≡ compared.protocol_in family (view said.now) }
{
    match left_of(family, sides_of(said)?.left)? {
        Left::Header(_, Holders::Protocol(number)) => Some(number),
        _ => None,
    }
}
