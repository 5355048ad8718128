//! a table and keys → the row that each walk reaches, and the verdicts of each key
//!
//! A key is walked through each trie of the table, and each walk reaches a row. Of these rows the
//! greatest word of a category decides: its low half is the verdict, the userdata of the rule that
//! wins.
//!
//! ```text
//!     key ── walk ──► a row for each trie ── greatest word of a category ──► verdict, winner
//! ```
//!
//! - `walk`: one key through one trie.
//! - `side_by_side`: two to four keys through one trie.
//! - `in_step`: up to sixteen keys through one trie, in step.
//! - `wide`: up to sixty-four of them, which close ranks as walks end.
//! - `vectors`: one step of four of them, by vectors of four lanes.
//! - `kinds`: the kinds of words, as `walk` tests them.
//! - `words`: how walks take words of a table.
//! - `classify`: the rows, the verdicts of a batch and the winners.
//!
//! *Scalar* is said of the promise, each key's walk for itself and no machine in between, and not
//! of the instructions.
//!
//! The definitions of a walk, of a verdict and of a batch stand in `flat_table`. After DPDK's
//! `lib/acl/acl_run_scalar.c`.
#![tactic(auto)]

mod classify;
mod in_step;
mod kinds;
mod side_by_side;
mod vectors;
mod walk;
mod wide;
mod words;

pub use classify::{classify_scalar, classify_scalar_marked, winners};
pub use vectors::{four_of, four_places, halves_of, places_after, put_four};
pub use walk::{Walked, walk_one};
