//! a rule set and a budget of words → the merged states of its groups, or that they need more
//!
//! One trie of all rules can have more words than a table may take, because states of rules that
//! are wild in a field meet states of rules that bound it. Two tries of some rules each often have
//! fewer. So the group of most words becomes two, up to eight groups, until all of them fit the
//! budget. After DPDK's `lib/acl`, `acl_bld.c`, which makes at most `RTE_ACL_MAX_TRIES` tries.
//!
//! - `divide`: how one group becomes two
//! - `counted`: a group, and what is known of its words
//! - `turn`: which group a turn makes two, with no group counted further than that needs
//! - `split`: [`plan`], turn by turn, and [`Split`], which says whether the words fit before it is
//!   a plan
//! - `answer`: a plan, or why there is none
//! - `laws`: the groups hold each rule once, and the winner of all rules is one of their winners
#![tactic(auto)]

mod answer;
mod counted;
mod divide;
pub mod laws;
mod split;
mod turn;

pub use answer::{Plan, PlanFault};
pub use split::{Split, plan};
