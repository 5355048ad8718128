//! a seed and how much it gives → what the plain filter and a table say of its packets
//!
//! [`measure`] draws rules and packets from a seed, and classifies each packet by both.
//!
//! | module | what it holds |
//! |---|---|
//! | `workload` | what is measured of a workload |
//! | `keys` | its keys, and what its rules say of them |
//! | `table` | its table, and what that says |
//! | `tally` | what verdicts come to |
//! | `lines` | the text of the four lines |
#![tactic(auto)]

mod keys;
mod lines;
mod table;
mod tally;
mod workload;

pub use lines::{Measured, bench_lines};
pub use tally::Tally;
pub use workload::measure;
