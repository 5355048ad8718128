//! tests alone: rules → edges, states, splits, tables and images
//!
//! No crate stands on this one. Its tests see each call that may run out of memory succeed, some at
//! sizes of real lists, and what only shows where the crates of tables work together. They stand
//! here and not in those crates, since a crate with tests is proved once more for them.
//!
//! | module | what it tests |
//! |---|---|
//! | `audits` | least keys, against all keys of few distinct bytes |
//! | `chains` | chains of a firewall, against packets worked out by hand |
//! | `comparisons` | where two lists differ, against all keys of few distinct bytes |
//! | `drawn_chains` | drawn chains as rules, against the chains, asked rule by rule |
//! | `drawn_conditions` | drawn chains under conditions as rules in categories, by each oracle |
//! | `edges` | what bytes leave of a value, worked out by hand |
//! | `filled` | tables whose words were worked out by hand |
//! | `groups` | states whose words were worked out by hand |
//! | `images` | images of one rule, in both versions, and changed ones |
//! | `numbers` | the places of rules, for the tests above and below |
//! | `table_parts` | a table made by hand, read back |
//! | `recount` | merged states worked out anew, byte by byte |
//! | `seeds` | merged states, number by number, against those of `recount` |
//! | `splits` | lists that are split under budgets around their words |
#![tactic(auto)]

#[cfg(test)]
mod audits;
#[cfg(test)]
mod chains;
#[cfg(test)]
mod comparisons;
#[cfg(test)]
mod drawn_chains;
#[cfg(test)]
mod drawn_conditions;
#[cfg(test)]
mod edges;
#[cfg(test)]
mod filled;
#[cfg(test)]
mod groups;
#[cfg(test)]
mod images;
#[cfg(test)]
mod numbers;
#[cfg(test)]
mod recount;
#[cfg(test)]
mod seeds;
#[cfg(test)]
mod splits;
#[cfg(test)]
mod table_parts;
