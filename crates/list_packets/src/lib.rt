//! words of lists → addresses, ports and what is assumed, and boxes of packets → rules of chains
//!
//! What readers of lists share: how a word spells a number, ports or addresses, what is assumed of
//! packets beside their bytes, and which packets a rule catches.
//!
//! | module | what it holds |
//! |---|---|
//! | `names` | what words name: a meaning, or a number |
//! | `values` | numbers, ports and addresses, as a word spells them |
//! | `assumed` | what is assumed of packets beside their bytes |
//! | `address_sets` | sets of addresses as spans |
//! | `packets`, `caught` | what a rule catches, as boxes of packets |
//!
//! Source: the manual pages iptables(8) and iptables-extensions(8), RFC 4632 and RFC 4291.
#![tactic(auto)]

mod address_sets;
mod assumed;
mod caught;
mod names;
mod packets;
mod values;

pub use address_sets::{AddressSet, put_set};
pub use assumed::{
    assumed_state, is_assumption, is_interface, knows_local, meets_interface, state_named, value_in,
};
pub use caught::Caught;
pub use names::{meaning_of, number_in};
pub use packets::{
    End, Field, Packets, all_packets, put_ends, put_rules, put_spans, with_end, with_span,
};
pub use values::{
    AddressRange, AddressSpans, MAX_PORT, address, address_alone, address_range, closed_span,
    filled_range, has_ports, most_bits, network, plain_number, port_span, protocol_span,
    spans_of_address,
};
