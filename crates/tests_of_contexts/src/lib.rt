//! tests alone: rules → contexts, and their answers by either walk
//!
//! No crate stands on this one. Its tests see each call that may run out of memory succeed, some at
//! sizes of real lists, and what only shows where the crates of tables work together. They stand
//! here and not in those crates, since a crate with tests is proved once more for them.
//!
//! | module | what it tests |
//! |---|---|
//! | `adding` | rules that are added to a context in two calls |
//! | `asking` | a context's answers to a batch, for the tests of contexts |
//! | `contexts` | contexts from their first rule to their reset |
//! | `far` | calls of many keys over a table of more than a mebibyte |
//! | `few` | calls of 1 to 17 keys: verdicts, marks and words by either walk |
//! | `lanes` | batches walked by 4, 8 and 16 lanes: words, turns and verdicts |
//! | `layouts` | contexts whose layouts have two and nine fields, and keys of 5 and 25 bytes |
//! | `messages` | what each fault says |
//! | `schedules` | tables made by hand, walked by lists of slots |
//! | `sizes` | a context of 1,024 rules, split into eight tries, in 1 to 16 categories |
//! | `walks` | tables made by hand, walked and classified |
//! | `workloads` | the first rules and keys of seed 42 |
#![tactic(auto)]

#[cfg(test)]
mod adding;
#[cfg(test)]
mod asking;
#[cfg(test)]
mod contexts;
#[cfg(test)]
mod far;
#[cfg(test)]
mod few;
#[cfg(test)]
mod lanes;
#[cfg(test)]
mod layouts;
#[cfg(test)]
mod messages;
#[cfg(test)]
mod schedules;
#[cfg(test)]
mod sizes;
#[cfg(test)]
mod walks;
#[cfg(test)]
mod workloads;
