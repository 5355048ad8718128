//! What a rule set and a group of its rules mean as a trie → the definitions of the group's states,
//! rows and runs, and the laws that tie these to the keys that the rules match
//!
//! After some bytes of a key a rule can still match or not, and what its current field still
//! allows is a rest. The *state* of the group is the list of its rules that can still match, each
//! with its rest. Many beginnings of keys have one state: those of each place are found in the
//! order of their least beginnings, and for each of them the 256 bytes part into *runs* that lead
//! to one state of the next place. After the last byte a state becomes a *row*: the winning rule of
//! each category. Input groups in which all rules are wild decide nothing and are left out. After
//! the tries of DPDK's `lib/acl` (`acl_bld.c`).
//!
//! The crate runs no code but the comparison of two successors. `trie_merge` makes the states, and
//! whatever reads them cites the laws:
//!
//! - `specs/State`, `Row`, `Levels`: states, rows, runs and the words of a table of them.
//! - `specs/Kept`: the input groups that are kept.
//! - `specs/Entry`, `Lists`: a rule of a state and the edge of its rest as one number, and so a
//!   state as a list of numbers.
//! - `run`: what a byte leads to.
//! - `laws`: what states, rows and runs have to do with keys that match.
#![tactic(auto)]

pub mod laws;
mod run;

pub use run::{Run, Succ};
