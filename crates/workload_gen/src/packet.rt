//! The packet that four words give, and its key.

ghost use Rattle.std.specs.Prelude.{◌≡◌, None};
ghost use Rattle.field_defs.specs.Layout.{ip4_fields};
ghost use Rattle.rule_set.specs.Fault.{rule_fault};
ghost use Rattle.workload_gen.specs.Packet.{aimed_packet, drawn_packet, first_number};

use crate::rule::{PORTS, address};
use field_defs::FieldValue;
use rule_set::StoredRule;
use table_sizes::IP4_KEY_LEN;

/// How many words a key takes.
pub const KEY_WORDS: usize = 4;

/// How many bytes a key has: those of an IPv4 packet.
pub const KEY_LEN: usize = IP4_KEY_LEN;

/// The numbers of an IPv4 packet that rules ask for.
#[derive(Clone, Copy)]
pub struct Packet {
    pub protocol: u8,
    pub source: u32,
    pub destination: u32,
    pub source_port: u16,
    pub destination_port: u16,
}

impl Packet {
    ghost use Rattle.workload_gen.specs.Packet.{packet_key};

    /// The packet that its words give, whatever the rules.
    pub fn drawn(words: [u32; KEY_WORDS]) -> Packet
        ensures { result ≡ drawn_packet words }
    {
        let [protocol, source, destination, ports] = words;
        Packet {
            protocol: (protocol >> 24) as u8,
            source: address(source),
            destination: address(destination),
            source_port: (ports / PORTS) as u16,
            destination_port: (ports % PORTS) as u16,
        }
    }

    /// The packet that a rule of the IPv4 layout names first: its protocol, its two addresses and
    /// its lowest destination port. The source port is drawn.
    pub fn aimed(rule: &StoredRule, words: [u32; KEY_WORDS]) -> Packet
        requires { rule_fault ip4_fields rule.now.tag rule.now.fields ≡ None }
        ensures { result ≡ aimed_packet rule.now words }
    {
        let values = rule.fields();
        Packet {
            protocol: first_number(&values[0]) as u8,
            source: first_number(&values[1]) as u32,
            destination: first_number(&values[2]) as u32,
            source_port: (words[3] / PORTS) as u16,
            destination_port: first_number(&values[4]) as u16,
        }
    }

    /// The packet's key, in network order:
    ///
    ///     | protocol: 1 | source: 4 | destination: 4 | source port: 2 | destination port: 2 |
    pub fn key(&self) -> [u8; KEY_LEN]
        ensures { result ≡ packet_key self.now }
    {
        let [s0, s1, s2, s3] = self.source.to_be_bytes();
        let [d0, d1, d2, d3] = self.destination.to_be_bytes();
        let [from0, from1] = self.source_port.to_be_bytes();
        let [to0, to1] = self.destination_port.to_be_bytes();
        [
            self.protocol,
            s0,
            s1,
            s2,
            s3,
            d0,
            d1,
            d2,
            d3,
            from0,
            from1,
            to0,
            to1,
        ]
    }
}

/// The number of a mask or bitmask, or the lowest number of a range.
fn first_number(value: &FieldValue) -> u64
    ensures { result ≡ first_number value.now }
{
    match *value {
        FieldValue::Mask { value, .. } | FieldValue::Bitmask { value, .. } => value,
        FieldValue::Range { low, .. } => low,
    }
}
