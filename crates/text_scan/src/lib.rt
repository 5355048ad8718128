//! bytes → numbers, addresses and parts, or None; addresses → text
//!
//! A text is cut into lines, words and parts, and each part is read as a number or an address. Any
//! bytes are met with an answer, and no call takes memory.
//!
//! | module | what it holds |
//! |---|---|
//! | `text_parts` | a first line, word or part of a text, and the rest |
//! | `digits` | what digits spell, and numbers written in digits |
//! | `numeral` | numbers in decimal and, after `0x`, in hexadecimal, as in ClassBench filter sets |
//! | `ip4` | IPv4 addresses: four decimal numbers separated by dots (RFC 791; RFC 1123, 2.1) |
//! | `pieces` | the pieces of 16 bits of an IPv6 address |
//! | `ip6` | IPv6 addresses in the three forms of RFC 4291, section 2.2 |
//! | `laws` | printed addresses read back; an address may be cut at any `::` |
#![tactic(auto)]

mod digits;
mod ip4;
mod ip6;
pub mod laws;
mod numeral;
mod pieces;
mod text_parts;

pub use digits::digits_value;
pub use ip4::{ip4_text, put_ip4};
pub use ip6::{ip6_text, put_ip6};
pub use numeral::{number, whole_number};
pub use text_parts::{after_blanks, next_word, split_line, split_once, split_word};
