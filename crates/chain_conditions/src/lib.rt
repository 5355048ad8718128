//! chains whose rules may ask what no box says → one rule set in categories, which bounds what they
//! answer
//!
//! A rule may ask for the state of a connection, a rate, a set or a mark: that is its condition, a
//! number, and nothing is known of it. A rule under a condition may catch a packet of its box or
//! not. [`rules_under_conditions`] makes rules of such chains as `rules_of_chains` does. A rule for
//! which no condition is left takes part in each category, and any other only in that of its
//! answer's kind: so the winner of a kind's category is of that kind wherever some answer is.
//!
//! - `conditional`: chains of rules over boxes with conditions
//! - `kind`: what answers do with their packets, and the category of each kind
//! - `marked`: such chains with a mark before the spans of each box, for the steps of `list_chains`
//! - `turning`: all steps, and the rule set
//! - `laws`: what holds of the categories, law by law
#![tactic(auto)]

mod conditional;
mod kind;
pub mod laws;
mod marked;
mod turning;

pub use conditional::{ConditionalBox, ConditionalChain, ConditionalRule};
pub use kind::AnswerKind;
pub use turning::rules_under_conditions;
