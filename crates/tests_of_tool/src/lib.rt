//! tests alone: whole commands over files in memory → what they print, and their statuses
//!
//! No crate stands on this one. Its tests run commands by [`run`](acl_tool::run) over the worked
//! examples: what is printed, each refusal, and faults of the outside. They stand here and not in
//! acl_tool, since a crate with tests is proved once more for them.
//!
//! | module | what it tests |
//! |---|---|
//! | `bench` | the command that compares rules and table over a workload |
//! | `blocks` | pcapng captures in both orders, whole, cut and refused, also byte by byte |
//! | `commands` | reports, refusals, tables, and images that are made and replayed |
//! | `faults` | read faults, write faults and faults of the message, of each command |
//! | `files` | the files and the texts of the worked example of 17 packets, and of a script |
//! | `system` | a command over files of the system, its words, and closed streams |
//! | `scripts` | scripts → the replies to their lines, worked out by hand |
//! | `turns` | a run with one fault, and what is compared of it |
//! | `waits` | a capture that comes in pieces, and the lines that are put meanwhile |
#![tactic(auto)]

#[cfg(test)]
mod bench;
#[cfg(test)]
mod blocks;
#[cfg(test)]
mod commands;
#[cfg(test)]
mod faults;
#[cfg(test)]
mod files;
#[cfg(test)]
mod scripts;
#[cfg(test)]
mod system;
#[cfg(test)]
mod turns;
#[cfg(test)]
mod waits;
