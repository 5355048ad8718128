//! A rule in, one line that says it out.

ghost use Rattle.std.specs.Prelude.{◌≡◌, ◌<◌, [], ◌∷◌, ◌++◌, true, IfOk, IsTrue, OnOk, Ok};
ghost use Rattle.std.specs.Fmt.{digit_glyph};
ghost use Rattle.rule_set.specs.Lawful.{IsLawfulTag};
ghost use Rattle.text_scan.specs.Parts.{line_feed};
ghost use Rattle.classbench_reader.specs.Lawful.{is_lawful, IsLawfulLine};
ghost use Rattle.classbench_reader.specs.Print.{IsPrintable, address_text, byte_text, columns_text};
ghost use Rattle.classbench_reader.specs.Print.{ip4_network, ip6_network, line_of_rule, line_text};
ghost use Rattle.classbench_reader.specs.Print.{network_text, networks_text, ports_text};
ghost use Rattle.classbench_reader.specs.Print.{protocol_text, rule_alone, rule_text, tag_text};
ghost use Rattle.classbench_reader.specs.RuleFile.{rule_file_of};

use crate::line::{HALF_BITS, RuleLine};
use crate::network::{Address, Network};
use field_defs::{Family, FieldKind, FieldValue};
use itoa::{Buffer, Integer};
use rule_set::{RuleTag, StoredRule};
use std::alloc::{AllocError, Global};
use text_scan::{put_ip4, put_ip6};

/// How many bytes the text of an address has at most, with room to spare.
const ADDRESS_ROOM: usize = 40;

/// The line of a rule, ended by LF, from which [`crate::read_rules`] reads that one rule.
///
/// The rule is lawful for the layout of its family, and of an IPv6 address the low field has no
/// bits unless the high one has all 64. The columns are separated by tabs, and all three attributes
/// are written:
///
/// ```text @192.168.1.0/24 0.0.0.0/0 0 : 65535 80 : 80 0x06/0xFF pri=5 cat=65535 data=1 ```
///
/// It takes the memory of the line.
pub fn print_rule(alloc: Global, family: Family, rule: &StoredRule) -> Result<Vec<u8>, AllocError>
    requires { IsPrintable family rule.now }
    ensures text { IfOk result (λ line. line.items ≡ rule_text family rule.now) }
    ensures reads_back { IfOk result
        (λ line. rule_file_of line.items ≡ Ok (rule_alone family rule.now)) }
{
    let line = line_of_rule(family, rule);
    print_line(alloc, &line)
}

/// What the line of a rule says.
fn line_of_rule(family: Family, rule: &StoredRule) -> RuleLine
    requires { IsPrintable family rule.now }
    ensures { result ≡ line_of_rule family rule.now }
{
    match family {
        Family::Ip4 => line_of_ip4(rule),
        Family::Ip6 => line_of_ip6(rule),
    }
}

/// What the line of an IPv4 rule says.
fn line_of_ip4(rule: &StoredRule) -> RuleLine
    requires { IsPrintable Family.Ip4 rule.now }
    ensures { result ≡ line_of_rule Family.Ip4 rule.now }
{
    let [protocol, source, destination, ports, others] = rule.fields() else {
        unreachable!()
    };
    RuleLine {
        source: ip4_network(source),
        destination: ip4_network(destination),
        source_ports: *ports,
        destination_ports: *others,
        protocol: *protocol,
        tag: rule.tag(),
    }
}

/// What the line of an IPv6 rule says.
fn line_of_ip6(rule: &StoredRule) -> RuleLine
    requires { IsPrintable Family.Ip6 rule.now }
    ensures { result ≡ line_of_rule Family.Ip6 rule.now }
{
    let [protocol, source_high, source_low, high, low, ports, others] = rule.fields() else {
        unreachable!()
    };
    RuleLine {
        source: ip6_network(source_high, source_low),
        destination: ip6_network(high, low),
        source_ports: *ports,
        destination_ports: *others,
        protocol: *protocol,
        tag: rule.tag(),
    }
}

/// The network of an IPv4 field.
fn ip4_network(value: &FieldValue) -> Network
    requires { IsTrue (is_lawful FieldKind.Mask 4 value.now) }
    ensures { result ≡ ip4_network value.now }
{
    match value {
        FieldValue::Mask { value, bits } => Network {
            address: Address::Ip4(*value as u32),
            bits: *bits,
        },
        _ => unreachable!(),
    }
}

/// The network of the two fields of an IPv6 address.
fn ip6_network(high: &FieldValue, low: &FieldValue) -> Network
    requires high { IsTrue (is_lawful FieldKind.Mask 8 high.now) }
    requires low { IsTrue (is_lawful FieldKind.Mask 8 low.now) }
    ensures { result ≡ ip6_network high.now low.now }
{
    match (high, low) {
        (
            FieldValue::Mask {
                value: high,
                bits: high_bits,
            },
            FieldValue::Mask {
                value: low,
                bits: low_bits,
            },
        ) => Network {
            address: Address::Ip6((u128::from(*high) << HALF_BITS) + u128::from(*low)),
            bits: *high_bits + *low_bits,
        },
        _ => unreachable!(),
    }
}

/// The text of a line, ended by LF.
fn print_line(alloc: Global, line: &RuleLine) -> Result<Vec<u8>, AllocError>
    requires { IsLawfulLine line.now }
    ensures { IfOk result (λ text. text.items ≡ line_text line.now ++ line_feed ∷ []) }
{
    let mut text = Vec::new(alloc);
    put_networks(&mut text, line)?;
    put_columns(&mut text, line)?;
    text.extend_from_slice(b"\n")?;
    Ok(text)
}

/// Writes `@` and the two networks of a line after the text.
fn put_networks(text: &mut Vec<u8>, line: &RuleLine) -> Result<(), AllocError>
    ensures { OnOk result (text.new.items ≡ text.old.items ++ networks_text line.now) }
{
    text.extend_from_slice(b"@")?;
    put_network(text, &line.source)?;
    text.extend_from_slice(b"\t")?;
    put_network(text, &line.destination)
}

/// Writes the columns after the networks of a line after the text, each after a tab.
fn put_columns(text: &mut Vec<u8>, line: &RuleLine) -> Result<(), AllocError>
    requires { IsLawfulLine line.now }
    ensures { OnOk result (text.new.items ≡ text.old.items ++ columns_text line.now) }
{
    text.extend_from_slice(b"\t")?;
    put_ports(text, &line.source_ports)?;
    text.extend_from_slice(b"\t")?;
    put_ports(text, &line.destination_ports)?;
    text.extend_from_slice(b"\t")?;
    put_protocol(text, &line.protocol)?;
    text.extend_from_slice(b"\t")?;
    put_tag(text, &line.tag)
}

/// Writes an address, `/` and its prefix length after the text.
fn put_network(text: &mut Vec<u8>, network: &Network) -> Result<(), AllocError>
    ensures { OnOk result (text.new.items ≡ text.old.items ++ network_text network.now) }
{
    put_address(text, &network.address)?;
    text.extend_from_slice(b"/")?;
    put_number(text, network.bits)
}

/// Writes an address after the text.
fn put_address(text: &mut Vec<u8>, address: &Address) -> Result<(), AllocError>
    ensures { OnOk result (text.new.items ≡ text.old.items ++ address_text address.now) }
{
    let mut room = [0; ADDRESS_ROOM];
    let len = match address {
        Address::Ip4(value) => put_ip4(*value, &mut room),
        Address::Ip6(value) => put_ip6(*value, &mut room),
    };
    text.extend_from_slice(&room[..len])
}

/// Writes the two ports of a range after the text.
fn put_ports(text: &mut Vec<u8>, ports: &FieldValue) -> Result<(), AllocError>
    requires { IsTrue (is_lawful FieldKind.Range 2 ports.now) }
    ensures { OnOk result (text.new.items ≡ text.old.items ++ ports_text ports.now) }
{
    match ports {
        FieldValue::Range { low, high } => {
            put_number(text, *low)?;
            text.extend_from_slice(b" : ")?;
            put_number(text, *high)
        }
        _ => unreachable!(),
    }
}

/// Writes a protocol, `/` and the bits of it that count after the text.
fn put_protocol(text: &mut Vec<u8>, protocol: &FieldValue) -> Result<(), AllocError>
    requires { IsTrue (is_lawful FieldKind.Bitmask 1 protocol.now) }
    ensures { OnOk result (text.new.items ≡ text.old.items ++ protocol_text protocol.now) }
{
    match protocol {
        FieldValue::Bitmask { value, mask } => {
            put_byte(text, *value as u8)?;
            text.extend_from_slice(b"/")?;
            put_byte(text, *mask as u8)
        }
        _ => unreachable!(),
    }
}

/// Writes a byte as `0x` and two digits after the text.
fn put_byte(text: &mut Vec<u8>, byte: u8) -> Result<(), AllocError>
    ensures { OnOk result (text.new.items ≡ text.old.items ++ byte_text byte) }
{
    text.extend_from_slice(&[b'0', b'x', digit_char(byte / 16), digit_char(byte % 16)])
}

/// The character of a digit: `0` to `9`, and `A` to `F` from 10 on.
fn digit_char(digit: u8) -> u8
    requires { digit < 16 }
    ensures { result ≡ digit_glyph true digit }
{
    if digit < 10 {
        b'0' + digit
    } else {
        b'A' + (digit - 10)
    }
}

/// Writes the three attributes of a tag after the text.
fn put_tag(text: &mut Vec<u8>, tag: &RuleTag) -> Result<(), AllocError>
    requires { IsLawfulTag tag.now }
    ensures { OnOk result (text.new.items ≡ text.old.items ++ tag_text tag.now) }
{
    text.extend_from_slice(b"pri=")?;
    put_number(text, tag.priority as u32)?;
    text.extend_from_slice(b" cat=")?;
    put_number(text, tag.category_mask)?;
    text.extend_from_slice(b" data=")?;
    put_number(text, tag.userdata)
}

/// Writes a number in decimal after the text.
fn put_number<I: Integer>(text: &mut Vec<u8>, number: I) -> Result<(), AllocError>
    ensures { OnOk result (text.new.items ≡ text.old.items ++ I.text number) }
{
    let mut digits = Buffer::new();
    text.extend_from_slice(digits.format(number).as_bytes())
}
