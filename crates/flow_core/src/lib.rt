//! a table, keys and a list of slots → the row and the verdicts of each key
//!
//! Here many walks go on at once. A job is the walk of one key through one trie, and jobs are given
//! out by key and then by trie. A machine has a number of slots, and its step is one step of one
//! slot: an empty slot takes the next job, and a busy one takes one word. Where that word is a
//! match, the row that it names is joined into the row of the slot's own key, word by word the
//! greater, and the slot is empty again. Whatever the order in which the slots are stepped, the
//! rows are the same in the end.
//!
//! `run_schedule` and `Flows` are the model that lanes are proved against. Both they and the lanes
//! of `lane_walk` keep the definitions of `specs/Machine.antt`: here slot by slot, in any order.
//! Tests run the model, and no program does.
//!
//! ```text
//!     jobs ──► slot 0: key, trie, depth, word ── match ──┐
//!          ──► slot 1: ..                     ── match ──┼──► row of each key ──► verdicts
//!          ──► slot 2: empty                             ┘
//! ```
//!
//! - `flight`: what a busy slot holds.
//! - `scratch`: the rows of the keys.
//! - `flows`: the machine and its step.
//! - `schedule`: a whole run, by any list of slots.
//! - `laws`: what holds of every machine and every list, over the definitions.
//!
//! The definitions of a walk, of a verdict and of a batch stand in `flat_table`. After the flows of
//! DPDK's `lib/acl/acl_run.h`, each of which takes the next trie of the next packet when it ends.
#![tactic(auto)]

mod flight;
mod flows;
pub mod laws;
mod schedule;
mod scratch;

pub use flight::{Flight, flight_of};
pub use flows::{Flows, are_empty, arrive, byte_of};
pub use schedule::{run_schedule, write_verdicts};
pub use scratch::{Scratch, join_rows};
