//! chains of firewall rules, and a chain that packets come to → one rule set that answers as they
//! do
//!
//! A chain's rules are asked in order; a rule decides its packets, or sends them back or to another
//! chain (iptables(8)). [`rules_of_chains`] makes one list of them whose first match decides. What
//! is left to do stands in a list: a box of packets that come to a rule, leave their chain, or have
//! an answer. A box within the last that was written is decided, and passed over.
//!
//! The tasks and their steps are public for crates that make other rules of the same steps.
//!
//! - `chain`: chains of rules, over boxes
//! - `span`: boxes of keys, a span of numbers for each field
//! - `negation`: the numbers beside a span
//! - `jumps`: whether jumps come to an end, and the rule at which they don't
//! - `task`, `steps`: what is left to do, and one step of it
//! - `values`: the rows of values of a box
//! - `turning`: all steps, and the rule set
//! - `fault`: why chains aren't turned
//! - `laws`: the meaning of chains, the list and the rules, law by law
#![tactic(auto)]

mod chain;
mod fault;
mod jumps;
pub mod laws;
mod negation;
mod span;
mod steps;
mod task;
mod turning;
mod values;

pub use chain::{Chain, ChainRule, Target};
pub use fault::{ChainsFault, LimitFault, RulePlace};
pub use jumps::{ending, is_marked, led_to, way};
pub use negation::others;
pub use span::{Span, SpanBox, common};
pub use steps::{put_entry, put_leaving, put_steps};
pub use task::{Act, Frame, Task, Tasks};
pub use turning::{MAX_DEPTH, MAX_STEPS, Turn, answer_of, is_decided, is_shallow, rules_of_chains};
pub use values::{Row, box_rows};
