//! field definitions and values, buffers → layouts, keys, matches
//!
//! A field is a number of 1, 2, 4 or 8 bytes of a searched buffer. Its definition says how a rule
//! bounds it and where it lies, and a layout is the list of the fields of one kind of packet. The
//! key of a buffer is the bytes of its fields, one field after the other. After the DPDK
//! Programmer's Guide, "Packet Classification and Access Control".
//!
//! - `field`: what a definition and a value are
//! - `lawful`: whether definitions are a layout, and the first reason if they are none
//! - `layout`: layouts of lawful definitions, that of IPv4 and that of IPv6, and keys
//! - `matching`: whether a number matches a value, and whether every number does
//! - `laws`: wild values match every number; lawful layouts have lawful sizes, and keys of one byte
//!   and four for each group
#![tactic(auto)]

mod field;
mod lawful;
pub mod laws;
mod layout;
mod matching;

pub use field::{Family, FieldDef, FieldKind, FieldValue};
pub use lawful::LayoutFault;
pub use layout::{Layout, MAX_FIELDS, UNUSED_FIELD, ip4_layout, ip6_layout};
pub use matching::{field_matches, is_wild};
