//! a rule set and a budget of words → which rules ever win in a category, and the least key at
//! which each does; two rule sets → whether they decide alike, and else the least key at which they
//! don't
//!
//! A rule that never wins is dead: others cover all of its keys. Whether it is, and the least key
//! at which it wins where it isn't, is read off the merged states of all rules. Their numbers are
//! those of the order in which they are found, all beginnings of keys ascending, so the first state
//! and the least byte that lead to a state or a row say the least key that leads there.
//!
//! - `links`: the first state and the least byte that lead to each state and each row
//! - `places`: the places of a key that the states tell apart
//! - `trace`: from a row back to the first byte, and so its least key
//! - `firsts`: the first row in which each rule is the winner of each category
//! - `audit`: [`live_rules`], and what comes of it
//! - `half`: two lists as one, in eight categories of each, and whether both halves are equal
//! - `unlike`: the first row in which the two lists of a half answer unlike
//! - `compare`: [`compare_rules`], over both halves
//! - `laws`: what least keys, differences and halves are, over the definitions alone
#![tactic(auto)]

mod audit;
mod compare;
mod firsts;
mod half;
pub mod laws;
mod links;
mod places;
mod trace;
mod unlike;

pub use audit::{Audit, AuditFault, live_rules};
pub use compare::{CompareFault, Compared, compare_rules};
