//! a table and keys → the row and the verdicts of each key, by a walk of many lanes at once
//!
//! A machine by lanes is the flow machine of `flow_core`, whose slots are stepped in turns, each
//! once and in order. A turn goes by four lanes at a time: each busy lane reads its word and its
//! key byte, the places of the words that the four take are worked out at once, by a vector, and
//! then they take their words, or their next jobs.
//!
//! Over a table of one trie whose places stand one after the other all lanes take a word at once,
//! busy or not, and what an empty one takes is thrown away.
//!
//! - `fleet`: a turn over such a table, and which keys its lanes walk.
//! - `walks`: the words at which these lanes stand, and their next ones, by vectors.
//! - `flights`: what lanes keep otherwise, and how it goes on.
//! - `lanes`: the machine and its turn.
//! - `noting`: the same turn, which notes the rows that walks reach instead of joining them.
//! - `rows`: the rows of keys, joined of those that were noted.
//! - `classify`: turns until the machine is done, and the verdicts of a batch.
//!
//! After DPDK's `lib/acl/acl_run_sse.h` and `acl_run_avx2.h`, which step 4, 8 or 16 flows at once.
#![tactic(auto)]

mod classify;
mod fleet;
mod flights;
mod lanes;
mod noting;
mod rows;
mod walks;

pub use classify::{Flown, classify_lanes, classify_lanes_marked};
pub use lanes::LaneFlows;
