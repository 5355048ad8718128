//! the JSON of `nft -j list ruleset` → its chains for a family, or its first faulty object
//!
//! It reads tables, chains and rules of inet, and of ip for IPv4 or ip6 for IPv6. A rule is read
//! statement by statement. One that no rule file says is kept as a rule that leads to no chain, so
//! that a chain isn't turned into rules if its packets may come to it.
//!
//! | module | what it holds |
//! |---|---|
//! | `shapes` | the members of objects and the items of arrays |
//! | `values` | the right side of a comparison: values, prefixes, ranges and sets; their packets |
//! | `compared` | its left side: fields of headers, and what is known beside them |
//! | `assumed` | comparisons with what is known or assumed of packets |
//! | `comparison` | what a rule compares, and the packets that it catches by that |
//! | `keys` | comparisons of one thing, and of several together |
//! | `sets` | named sets of a ruleset |
//! | `maps` | maps to verdicts, element by element |
//! | `known` | what is asked, and what is known where a rule is read |
//! | `reading` | a rule, statement by statement |
//! | `effects` | what a rule may do to packets of other base chains |
//! | `hooks` | what base chains are, and what is known of their packets |
//! | `chain` | a chain: its name, its policy and its rules |
//! | `starts` | the base chain that is asked for, and others on the way of its packets |
//! | `ruleset` | a ruleset, object by object, and its chains |
//! | `fault` | why objects aren't read, and rules aren't said |
//! | `laws` | what members that are counted tell |
//!
//! Source: the manual pages nft(8) and libnftables-json(5).
#![tactic(auto)]

mod assumed;
mod chain;
mod compared;
mod comparison;
mod effects;
mod fault;
mod hooks;
mod keys;
mod known;
mod laws;
mod maps;
mod reading;
mod ruleset;
mod sets;
mod shapes;
mod starts;
mod values;

pub use chain::{NftChain, chains_alone};
pub use fault::{NftFault, ObjectFault, ObjectKind, RuleFault, RuleKind, StartFault};
pub use hooks::{Base, ChainType, Hook, Priority};
pub use known::{Answers, Asked};
pub use laws::counted_members_are_all;
pub use ruleset::{MAX_RULESET, read_ruleset};
pub use starts::{start_of, stopping_chains};
