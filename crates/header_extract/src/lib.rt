//! a captured frame and its link type → its class, and the key of the IPv4 or IPv6 packet in it
//!
//! A frame is taken apart layer by layer from its front, and no layer copies what stands after its
//! header:
//!
//! | module | what it reads or writes |
//! |---|---|
//! | `link` | the header of the link and up to two VLAN tags; the way in, `extract` |
//! | `ip4` | an IPv4 header with its options |
//! | `ip6` | an IPv6 header and the chain of its extension headers |
//! | `ports` | the ports of TCP, UDP and SCTP |
//! | `key` | the room for a key, and how it is written |
//! | `class` | what a frame turns out to be |
//!
//! All numbers of a frame stand in network order, the most significant byte first. The definition
//! of a class stands in `specs/`, in a file for each layer, with examples beside it.
#![tactic(auto)]

mod class;
mod ip4;
mod ip6;
mod key;
mod link;
mod ports;

pub use class::Class;
pub use key::KeyBuf;
pub use link::extract;
