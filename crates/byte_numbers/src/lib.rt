//! bytes → the numbers that they spell, in both orders
//!
//! | module | what it holds |
//! |---|---|
//! | `reads` | the number of 2, 4 or 8 bytes at a place, and of a whole text of at most 8 bytes |
//!
//! The definitions stand in `specs/Number.antt`, with examples in `specs/NumberExamples.antt`.
//! Network order is that of RFC 791, appendix B: the most significant byte stands first. The mirror
//! order has the least significant byte first.
#![tactic(auto)]

mod reads;

pub use reads::{
    mirrored_u16_at, mirrored_u32_at, mirrored_u64_at, network_number, network_u16_at,
    network_u32_at, network_u64_at, u16_at, u32_at, u64_at,
};
