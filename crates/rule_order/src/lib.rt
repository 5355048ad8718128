//! a rule set → the merged states of few groups of its rules, with few words, or that none were
//! found
//!
//! A rule that is wild in its addresses meets every prefix that stands before them in the key, so
//! its states are repeated below each of them. If such rules stand apart, in a trie of their own,
//! the words of all tries are far fewer, and a walk through two or three small tries takes less
//! time than one through a trie that no cache holds.
//!
//! So the rules are ordered by their prefixes, the longest first, and the order is cut into at most
//! eight parts. Under a cap on the words of a trie each part is the longest that keeps within it.
//! Several caps are tried, and of the cuts the one of least cost is taken.
//!
//! - `order`: the rules, those of long prefixes first
//! - `part`: the longest part of what is left, under a cap
//! - `cut`: parts until no rule is left, and their cost
//! - `search`: the caps, and which cut is taken; [`order_and_cut`]
//!
//! Each rule stands in exactly one part, and that alone is what a table needs to decide as the
//! rules do.
#![tactic(auto)]

mod cut;
mod order;
mod part;
mod search;

pub use search::order_and_cut;
