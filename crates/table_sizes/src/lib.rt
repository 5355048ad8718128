//! nothing → how long keys are and how large a table may be, the groups of a key's bytes, and how
//! many words rows and nodes take
//!
//! A key has groups of four bytes after its first byte. A table has words of 64 bits and rows of
//! sixteen such words. What checks layouts and rules, merges them, fills a table, walks and saves
//! it agrees on these sizes, so they stand here alone, below all of them.
//!
//! | node | leads on by | words |
//! |---|---|---|
//! | single | one run of bytes | 1 |
//! | quad-range | two to five runs | 5, one for each run that may be there |
//! | full | six runs or more | 256, one for each byte value |
//!
//! After DPDK's `lib/acl`: `acl.h` names the nodes, `acl_gen.c` counts their words.
//!
//! - `groups`: the bytes of a key, and the groups in which they are read
//! - `sizes`: the sizes of a table, and the words of a node
//! - `laws`: each constant is the number that the definitions say
#![tactic(auto)]

mod groups;
pub mod laws;
mod sizes;

pub use groups::{GROUP_LEN, IP4_KEY_LEN, IP6_KEY_LEN, MAX_KEY_LEN, group_of, is_kept};
pub use sizes::{FEW_RUNS, FULL_LEN, MAX_KEYS, MAX_RULES, MAX_TRIES, MAX_WORDS, ROW_LEN, node_len};
