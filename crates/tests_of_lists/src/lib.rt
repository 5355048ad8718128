//! tests alone: whole runs over lists in memory → rule files, refusals and their statuses
//!
//! No crate stands on this one. Its tests run [`run_lists`](list_tool::run_lists) over small lists
//! of each form: what is printed, each kind of end, and faults of the outside. They stand here and
//! not in list_tool, since a crate with tests is proved once more for them.
//!
//! | module | what it tests |
//! |---|---|
//! | `ends` | the rule file of a list of each form, refusals, and words that ask for nothing |
//! | `faults` | read faults, write faults and faults of the message |
//! | `lists` | the lists, and the rule files that they come to |
//! | `runs` | a run with one fault, and what is compared of it |
//! | `sizes` | a list of two thousand lines |
//! | `system` | the program over files of the system |
#![tactic(auto)]

#[cfg(test)]
mod ends;
#[cfg(test)]
mod faults;
#[cfg(test)]
mod lists;
#[cfg(test)]
mod runs;
#[cfg(test)]
mod sizes;
#[cfg(test)]
mod system;
