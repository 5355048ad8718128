//! The rule that six words give.

ghost use Rattle.std.specs.Prelude.{◌≡◌, None, IfOk};
ghost use Rattle.field_defs.specs.Layout.{ip4_fields};
ghost use Rattle.rule_set.specs.Fault.{rule_fault};
ghost use Rattle.workload_gen.specs.Rule.{address, destination_ports, destination_value};
ghost use Rattle.workload_gen.specs.Rule.{protocol_value, rule_of, source_value, tag_of};

use field_defs::FieldValue;
use rule_set::{RuleTag, StoredRule};
use std::alloc::{AllocError, Global};

/// How many words a rule takes.
pub const RULE_WORDS: usize = 6;

/// The protocol number of TCP.
const TCP: u64 = 6;

/// The protocol number of UDP.
const UDP: u64 = 17;

/// All bits of a protocol number decide.
const WHOLE_PROTOCOL: u64 = 0xFF;

/// 10.0.0.0, the network of all addresses of a workload.
const NETWORK: u32 = 0x0A00_0000;

/// How many numbers 24 bits have: the addresses of the network.
const ADDRESSES: u32 = 1 << 24;

/// The bits of a source, by choice.
const SOURCE_BITS: [u8; 3] = [16, 24, 32];

/// The bits of a destination, by choice.
const DESTINATION_BITS: [u8; 4] = [0, 16, 24, 32];

/// How many ports there are.
pub const PORTS: u32 = 65_536;

/// The last port.
const LAST_PORT: u64 = 65_535;

/// The first port that a program without special rights may listen at.
const FIRST_USER_PORT: u64 = 1024;

/// How many ports after its first a range of ports has.
const PORTS_AFTER: u64 = 100;

/// How many priorities there are.
const PRIORITIES: u32 = 1000;

/// How many category masks there are: all of 16 bits but 0.
const CATEGORY_MASKS: u32 = 65_535;

/// The rule of a number that its words give. It is lawful for the IPv4 layout, and takes no memory.
pub fn rule(alloc: Global, number: u32, words: [u32; RULE_WORDS]) -> Result<StoredRule, AllocError>
    ensures ok { IfOk result (λ rule. rule ≡ rule_of number words) }
    ensures lawful { IfOk result (λ rule. rule_fault ip4_fields rule.tag rule.fields ≡ None) }
{
    let [protocol, source, destination, ports, priority, categories] = words;
    let values = [
        protocol_value(protocol),
        source_value(source),
        destination_value(destination),
        FieldValue::Range {
            low: 0,
            high: LAST_PORT,
        },
        destination_ports(ports),
    ];
    StoredRule::new(alloc, tag(number, priority, categories), &values)
}

/// A rule's number for its userdata, one of the priorities, and some of 16 categories.
fn tag(number: u32, priority: u32, categories: u32) -> RuleTag
    ensures { result ≡ tag_of number priority categories }
{
    RuleTag {
        category_mask: 1 + categories % CATEGORY_MASKS,
        priority: (priority % PRIORITIES) as i32,
        userdata: number,
    }
}

/// An address of the network, by the low 24 bits of a word.
pub fn address(word: u32) -> u32
    ensures { result ≡ address word }
{
    NETWORK + word % ADDRESSES
}

/// TCP for two words in four, UDP for one, and any protocol for one.
fn protocol_value(word: u32) -> FieldValue
    ensures { result ≡ protocol_value word }
{
    match word % 4 {
        1 => FieldValue::Bitmask {
            value: UDP,
            mask: WHOLE_PROTOCOL,
        },
        3 => FieldValue::Bitmask { value: 0, mask: 0 },
        _ => FieldValue::Bitmask {
            value: TCP,
            mask: WHOLE_PROTOCOL,
        },
    }
}

/// An address, and how many of its bits decide, by the high eight bits of the word.
fn source_value(word: u32) -> FieldValue
    ensures { result ≡ source_value word }
{
    let choice = (word / ADDRESSES) as usize % SOURCE_BITS.len();
    FieldValue::Mask {
        value: u64::from(address(word)),
        bits: SOURCE_BITS[choice],
    }
}

/// The same for a destination, which may be any.
fn destination_value(word: u32) -> FieldValue
    ensures { result ≡ destination_value word }
{
    let choice = (word / ADDRESSES) as usize % DESTINATION_BITS.len();
    FieldValue::Mask {
        value: u64::from(address(word)),
        bits: DESTINATION_BITS[choice],
    }
}

/// All ports, the user ports, one port, or a range of ports.
fn destination_ports(word: u32) -> FieldValue
    ensures { result ≡ destination_ports word }
{
    let first = u64::from(word / PORTS);
    match word % 4 {
        0 => FieldValue::Range {
            low: 0,
            high: LAST_PORT,
        },
        1 => FieldValue::Range {
            low: FIRST_USER_PORT,
            high: LAST_PORT,
        },
        2 => FieldValue::Range {
            low: first,
            high: first,
        },
        _ => FieldValue::Range {
            low: first,
            high: (first + PORTS_AFTER).min(LAST_PORT),
        },
    }
}
