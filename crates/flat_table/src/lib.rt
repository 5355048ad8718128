//! words and rows → a sound table, or the first fault with the parts back
//!
//! A table is what the rules of one family are made into: tries, whose nodes are words of 64 bits
//! in one list, and rows, which say for each category which rule wins. A walk begins with the root
//! of a trie and takes one word for each key byte that the trie reads, until a word names a row.
//! Here is what the words mean, which parts make a table that every key can be walked through, and
//! what a walk and a verdict are. Other crates fill tables, walk them, save and load them.
//!
//! ```text
//!     Parts ── check_sound ──► Table::from_parts ──► Table: words, rows, places, roots
//!                   │
//!                   └► the first fault: the shape, a root, a word
//!
//!     Parts that are known to be sound ──► Table::from_sound ──► Table, and no word is looked at
//! ```
//!
//! - `table_parts`: what a table is made of.
//! - `word`: a transition word, bit by bit, and the place of the next one; the userdata of a row.
//! - `groups`: which places of a key a trie reads.
//! - `level`, `sound`: where the words of a trie's depth lie, and which parts are sound.
//! - `table`: a sound table.
//! - `steps`: a counter that exists in proofs alone.
//! - `walk`: which walk is asked for.
//! - `laws`: what holds of every sound table, over the definitions.
//!
//! After DPDK's `lib/acl` and its Programmer's Guide, "Packet Classification and Access Control".
#![tactic(auto)]

mod groups;
pub mod laws;
mod level;
mod sound;
mod steps;
mod table;
mod table_parts;
mod walk;
mod word;

pub use groups::{depth_of, is_kept_word};
pub use level::Level;
pub use sound::{SoundFault, check_sound, is_sound_word};
pub use steps::Steps;
pub use table::{NotSound, Table};
pub use table_parts::Parts;
pub use walk::Walk;
pub use word::{
    BOUNDARY_BITS, FULL, INDEX_BITS, INDEX_MASK, LOW_HALF, MATCH, QUAD, SINGLE, boundaries_below,
    index_of, is_end, is_match, kind_of, next_place, userdata_of,
};
