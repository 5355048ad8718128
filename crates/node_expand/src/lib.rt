//! a rule's value for a field and its bytes, one after the other → the edge of what the value still
//! allows, or none; the bytes where that changes
//!
//! A trie of rules reads a key byte by byte, and for each rule it has to know what the rule's value
//! still allows of the bytes not yet read. For a mask and a range that is an interval of numbers.
//! Each end of it is either the outermost number or the end that the value has there, so an
//! [`Edge`], which says of each end which of the two it is, and the value say all. After the tries
//! of DPDK's `lib/acl` (`acl_bld.c`), which make a range and a mask into nodes byte by byte.
//!
//! - `edge`: how what is left of a field is bounded
//! - `expand`: the edge before the first byte and after one more, cuts, and the range of a mask
//! - `allowed`: the bytes that a value allows at one place, and what each of them leaves
//! - `laws`: rests by completions and steps, edges and cuts by rests, free edges, masks as ranges
#![tactic(auto)]

mod allowed;
mod edge;
mod expand;
pub mod laws;

pub use allowed::Allowed;
pub use edge::Edge;
pub use expand::{as_range, cuts, first_and_last, start_edge, step_edge};
