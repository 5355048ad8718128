//! One line of a rule file, read from left to right.
//!
//!     @source/bits destination/bits low:high low:high protocol/mask [flags/mask] [name=number ..]

ghost use Rattle.std.specs.Prelude.{◌≡◌, ◌-◌, ◌/◌, ◌%◌, ◌^◌, ◌≤◌, min, max, true, length, IsTrue};
ghost use Rattle.std.specs.Prelude.{IfOk, MatchResult, Ok, Err};
ghost use Rattle.rule_set.specs.Limits.{max_priority};
ghost use Rattle.classbench_reader.specs.LineReading.{read_of};
ghost use Rattle.classbench_reader.specs.Network.{family_of, IsLawfulNetwork};
ghost use Rattle.classbench_reader.specs.Line.{after_at_sign, columns_of, is_skipped, next_network};
ghost use Rattle.classbench_reader.specs.Line.{next_protocol, rule_line_of, rule_of, same_family};
ghost use Rattle.classbench_reader.specs.Lawful.{is_lawful, IsLawfulLine};

use crate::attributes::Attributes;
use crate::columns::{after_flags, ports, protocol};
use crate::network::{Address, Network};
use crate::rules_fault::LineKind;
use field_defs::{Family, FieldKind, FieldValue};
use rule_set::{RuleTag, StoredRule};
use std::alloc::Global;
use text_scan::{after_blanks, split_word};

/// How many bits each half of an IPv6 address has.
pub(crate) const HALF_BITS: u8 = 64;

/// What a line says: a rule whose source and destination are of one family.
#[derive(Clone, Copy)]
pub struct RuleLine {
    pub source: Network,
    pub destination: Network,
    /// A range of ports.
    pub source_ports: FieldValue,
    /// A range of ports.
    pub destination_ports: FieldValue,
    /// A number and the bits of it that count.
    pub protocol: FieldValue,
    pub tag: RuleTag,
}

/// Whether a line says nothing: it has blanks alone, or its first byte that is no blank is `#`.
pub fn is_skipped(line: &[u8]) -> bool
    ensures { result ≡ is_skipped line.now }
{
    matches!(after_blanks(line), [] | [b'#', ..])
}

impl RuleLine {
    /// What a line says as the rule of an ordinal, from 1, or the first fault from left to right.
    pub fn read(line: &[u8], ordinal: u32) -> Result<RuleLine, LineKind>
        requires { ordinal ≤ max_priority }
        ensures line { result ≡ rule_line_of ordinal line.now }
        ensures lawful { IfOk result IsLawfulLine }
    {
        let rest = after_at_sign(after_blanks(line))?;
        let (source, rest) = next_network(rest)?;
        let (destination, rest) = next_network(rest)?;
        if !is_one_family(source.family(), destination.family()) {
            return Err(LineKind::MixedFamilies);
        }
        RuleLine::read_columns(source, destination, rest, ordinal)
    }

    /// What a line says with these addresses, by the columns after them, or their first fault.
    fn read_columns(
        source: Network,
        destination: Network,
        text: &[u8],
        ordinal: u32,
    ) -> Result<RuleLine, LineKind>
        requires ordinal { ordinal ≤ max_priority }
        requires source { IsLawfulNetwork source }
        requires destination { IsLawfulNetwork destination }
        requires family { same_family (family_of source) (family_of destination) ≡ true }
        ensures line { result ≡ columns_of ordinal source destination text.now }
        ensures lawful { IfOk result IsLawfulLine }
    {
        let (source_ports, rest) = ports(text)?;
        let (destination_ports, rest) = ports(rest)?;
        let (protocol, rest) = next_protocol(rest)?;
        let tag = Attributes::read(after_flags(rest)?)?.tag(ordinal)?;
        Ok(RuleLine {
            source,
            destination,
            source_ports,
            destination_ports,
            protocol,
            tag,
        })
    }

    /// The family of source and destination.
    pub fn family(&self) -> Family
        ensures { result ≡ family_of self.now.source }
    {
        self.source.family()
    }

    /// The rule that the line says.
    pub fn rule(&self, alloc: Global) -> StoredRule
        requires { same_family (family_of self.now.source) (family_of self.now.destination) ≡ true }
        ensures { result ≡ rule_of self.now }
    {
        match (self.source.address, self.destination.address) {
            (Address::Ip4(source), Address::Ip4(destination)) => {
                let fields = [
                    self.protocol,
                    ip4_value(source, self.source.bits),
                    ip4_value(destination, self.destination.bits),
                    self.source_ports,
                    self.destination_ports,
                ];
                stored(alloc, self.tag, &fields)
            }
            (Address::Ip6(source), Address::Ip6(destination)) => {
                let (source_high, source_low) = ip6_values(source, self.source.bits);
                let (destination_high, destination_low) = ip6_values(
                    destination,
                    self.destination.bits,
                );
                let fields = [
                    self.protocol,
                    source_high,
                    source_low,
                    destination_high,
                    destination_low,
                    self.source_ports,
                    self.destination_ports,
                ];
                stored(alloc, self.tag, &fields)
            }
            _ => unreachable!(),
        }
    }
}

/// The value of an IPv4 address for its field.
fn ip4_value(address: u32, bits: u8) -> FieldValue
    ensures { result ≡ FieldValue.Mask address bits }
{
    FieldValue::Mask {
        value: u64::from(address),
        bits,
    }
}

/// The values of an IPv6 address for its two fields. The first 64 bits of its prefix stand in the
/// high one, and further bits in the low one.
fn ip6_values(address: u128, bits: u8) -> (FieldValue, FieldValue)
    ensures high { result.0 ≡ FieldValue.Mask (address / 2 ^ 64) (min bits 64) }
    ensures low { result.1 ≡ FieldValue.Mask (address % 2 ^ 64) (max bits 64 - 64) }
{
    let high = FieldValue::Mask {
        value: (address >> HALF_BITS) as u64,
        bits: bits.min(HALF_BITS),
    };
    let low = FieldValue::Mask {
        value: (address & u128::from(u64::MAX)) as u64,
        bits: bits.max(HALF_BITS) - HALF_BITS,
    };
    (high, low)
}

/// The rule of a tag and at most eight values, which need no memory.
fn stored(alloc: Global, tag: RuleTag, fields: &[FieldValue]) -> StoredRule
    requires { length fields.now ≤ 8 }
    ensures { result ≡ record { tag = tag; fields = fields.now } }
{
    StoredRule::new(alloc, tag, fields).unwrap()
}

/// What follows the `@`.
fn after_at_sign(text: &[u8]) -> Result<&[u8], LineKind>
    ensures { MatchResult result
        (λ rest. after_at_sign text.now ≡ Ok rest.now)
        (λ kind. after_at_sign text.now ≡ Err kind) }
{
    match text {
        [b'@', rest @ ..] => Ok(rest),
        _ => Err(LineKind::BadStart),
    }
}

/// The network that the next word spells, and the text after it.
fn next_network(text: &[u8]) -> Result<(Network, &[u8]), LineKind>
    ensures network { MatchResult result
        (λ read. next_network text.now ≡ Ok (read_of read.0 read.1.now))
        (λ kind. next_network text.now ≡ Err kind) }
    ensures lawful { IfOk result (λ read. IsLawfulNetwork read.0) }
{
    let (word, rest) = split_word(after_blanks(text));
    Ok((Network::read(word)?, rest))
}

/// The protocol that the next word spells, and the text after it.
fn next_protocol(text: &[u8]) -> Result<(FieldValue, &[u8]), LineKind>
    ensures protocol { MatchResult result
        (λ read. next_protocol text.now ≡ Ok (read_of read.0 read.1.now))
        (λ kind. next_protocol text.now ≡ Err kind) }
    ensures lawful { IfOk result (λ read. IsTrue (is_lawful FieldKind.Bitmask 1 read.0)) }
{
    let (word, rest) = split_word(after_blanks(text));
    Ok((protocol(word)?, rest))
}

/// Whether two families are one.
fn is_one_family(one: Family, other: Family) -> bool
    ensures { result ≡ same_family one other }
{
    one == other
}
