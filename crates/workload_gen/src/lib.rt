//! a seed and a number of rules → rules over IPv4 packets, and as many keys as are asked for
//!
//! One generator of 32-bit words gives everything, in order: six words for each rule, and then four
//! for each key. The same seed gives the same rules and keys everywhere.
//!
//! | module | what it does |
//! |---|---|
//! | `draws` | the generator of a seed, and so many of its next words |
//! | `rule` | the rule that six words give |
//! | `packet` | the packet that four words give, drawn freely or aimed at a rule; its key |
//! | `workload` | the rules of a seed, and the keys one after the other |
//! | `laws` | keys come one by one, and a packet that is aimed at a rule matches it |
//!
//! The workload is defined in `specs/` by the places of its words in the list of all words.
#![tactic(auto)]

mod draws;
pub mod laws;
mod packet;
mod rule;
mod workload;

pub use packet::KEY_LEN;
pub use workload::{MAX_WORKLOAD_RULES, Workload, make_rules};
