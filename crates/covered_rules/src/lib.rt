//! a set of rules → the set of those that no wide rule before them covers, which decides as all do
//!
//! A rule covers another if it has a greater rank, all of its categories, and lets through all that
//! it lets through. A covered rule can't win, so a table of the others gives the same verdicts.
//! Only wide rules are asked whether they cover one: few others do.
//!
//! - `covered`: which rules no wide rule before them covers
//! - `copies`: the set of these rules
//! - `laws`: who wins among them
#![tactic(auto)]

mod copies;
mod covered;
pub mod laws;

pub use copies::uncovered_rules;
