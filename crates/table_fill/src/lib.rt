//! the merged states of groups of rules → the table of the rules
//!
//! Each state becomes a node: one word where all bytes lead to one state, five where they part into
//! up to five runs, and otherwise one for each byte. A word says where the node that it leads to
//! lies and of what kind it is, so the nodes of a level are placed before the words of the level
//! above are written. After DPDK's `lib/acl` (`acl_gen.c`), which lays out the nodes of all tries
//! in one list.
//!
//! ```text
//!     rules ──► a word for each rule: rank, userdata ──► rows
//!     levels of a trie ──► where its nodes lie ──► words, level by level
//! ```
//!
//! What a state or a row takes, in words of 64 bits:
//!
//! | what | words |
//! |---|---|
//! | a state from which all bytes lead to one state | 1 |
//! | a state whose bytes part into two to five runs | 5 |
//! | a state whose bytes part into more runs | 256, one for each byte |
//! | a row, after the last byte | 16, one for each category |
//!
//! A row has for each category the word of the rule that wins it, or 0: the rule's rank in the high
//! half, by which the rows of several tries are joined, and its userdata in the low half.
//!
//! - `node`: the word into a node, and the words that a node has.
//! - `trie`, `tries`: the words of one trie, level by level, and what all tries have.
//! - `rows`: the rows, and the word of a row for each rule.
//! - `filling`: the table of all of these; [`fill`].
//! - `laws`: a filled table decides as its rules do.
#![tactic(auto)]

mod filling;
pub mod laws;
mod node;
mod rows;
mod trie;
mod tries;

pub use filling::fill;
