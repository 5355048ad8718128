//! a rule set and a group of its rules → the group's merged states for each kept place, with their
//! runs, rows and words, or that the words exceed a cap
//!
//! What states, rows and runs are, and what they have to do with keys that match, `group_states`
//! says: the state of a group after some bytes of a key is the list of its rules that can still
//! match, each with its rest. Many beginnings of keys have one state, so states are merged, after
//! the tries of DPDK's `lib/acl` (`acl_bld.c`), which merges the rules' tries one after the other.
//!
//! A state is kept as a number of `state_parts`: the group is halved again and again, what a state
//! has of each half is a part with a number of its own, and states with one part share it.
//!
//! The way of the data, from the bottom up:
//!
//! - `entry`: a rule of a state and the edge of its rest as one number.
//! - `column`: what a place of the key has of each rule, and what a byte makes of an entry there.
//! - `follow`: where a byte leads a part of a state, a rule or a pair of parts, worked out once for
//!   all states that share the part.
//! - `cuts`: how many words a state takes, told by at most four of its cut bytes before the state
//!   itself is merged.
//! - `found`: numbers in the order in which they are found, and the place of each.
//! - `number`: what the states lead to numbered in the order in which it is found, and the runs of
//!   bytes.
//! - `names`: the rows of ranks that are found at the end as rows of the rules' numbers.
//! - `merge`: the states of one place, one after the other. Their words, and the least that the
//!   states found take, are held against the cap.
//! - `place`: one kept place, from what is reached before it.
//! - `probe`: a look ahead at a group of which a place leads to very many states.
//! - `kept`: the places of the kept input groups.
//! - `order`: the order of the rules in the tree.
//! - `build`: all kept places, one after the other; [`Levels::build`] and [`count_capped`].
//! - `levels`: what comes out.
#![tactic(auto)]

mod build;
mod column;
mod cuts;
mod entry;
mod follow;
mod found;
mod kept;
mod levels;
mod merge;
mod names;
mod number;
mod order;
mod place;
mod probe;

pub use build::count_capped;
pub use group_states::{Run, Succ, laws};
pub use levels::Levels;
pub use merge::MergeFault;
