//! a table, keys and which walk is asked for → the verdicts of each key
//!
//! Both walks write the same verdicts and count the same transitions: `scalar_walk` walks each key
//! for itself, and `lane_walk` many keys in turns. Here the one that is asked for is called.
#![tactic(auto)]

mod classify;

pub use classify::{classify_by, classify_marked};
