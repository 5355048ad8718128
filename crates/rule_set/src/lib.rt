//! rules of one layout, a key → a lawful set, a verdict, ranks
//!
//! A rule has a tag (categories, priority, userdata) and a value for each field of its layout.
//! [`plain_verdict`] filters the list of the rules, and is what each faster way to a verdict has to
//! equal. After the DPDK Programmer's Guide, "Packet Classification and Access Control".
//!
//! - `rule`: what a rule is, and how it is stored
//! - `check`: whether a rule is lawful for a layout, and the first reason if it isn't
//! - `set`: lawful rules of one layout, in the order in which they were added
//! - `plain`: the verdict, by one pass over the rules
//! - `rank`: numbers that say which of two rules wins
//! - `categories`: how many categories a classification takes
//! - `laws`: what lawful means field by field, winners by priorities, places and ranks, and the
//!   winners of groups of rules
#![tactic(auto)]

mod categories;
mod check;
pub mod laws;
mod plain;
mod rank;
mod rule;
mod set;

pub use categories::{Categories, MAX_CATEGORIES};
pub use check::{ALL_CATEGORIES, MAX_PRIORITY, RuleFault, check_rule};
pub use plain::plain_verdict;
pub use rank::ranks;
pub use rule::{Rule, RuleTag, StoredRule};
pub use set::{PushFault, RuleSet};
