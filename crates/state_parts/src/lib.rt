//! parts of states of a group of rules at one place → the parts that each byte leads to, every part
//! worked out once
//!
//! The rules of a group are the leaves of a tree. What is left of them after some bytes is a
//! *part*: an *entry* (what is left of one rule), or the pair of a left and a right part. Parts
//! have numbers from 1 on, and 0 stands for nothing. Equal parts have equal numbers, so what many
//! states share is kept once, and what it leads to is worked out once. Where DPDK's `lib/acl`
//! (`acl_bld.c`) merges the tries of rules node by node, a part is merged from what its two sides
//! lead to.
//!
//! - `pair_set`: pairs of numbers, each kept once, and found by buckets.
//! - `parts`: numbered parts of one place.
//! - `rows`: numbered rows, which follow the last place: the greatest rank of each category.
//! - `target`: what bytes lead to, numbered parts or numbered rows.
//! - `pieces`: where each byte leads from a part, and the merge of two parts' pieces.
//! - `part_pieces`, `slices`: the pieces of many parts, in one list with the ends of each.
//! - `room`: numbers that run out.
#![tactic(auto)]

mod pair_set;
mod part_pieces;
mod parts;
mod pieces;
mod room;
mod rows;
mod slices;
mod target;

pub use part_pieces::PartPieces;
pub use parts::Parts;
pub use pieces::{Piece, merge, push_piece};
pub use rows::{Ranked, Rows};
pub use slices::slice;
pub use target::Target;
