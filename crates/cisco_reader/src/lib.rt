//! bytes of a configuration of Cisco IOS → the rules of an extended access list, or the first fault
//!
//! It reads what `show running-config` writes. An entry is read word by word, from left to right.
//! Whatever isn't known here is refused, so that no word of a list that is accepted is passed over.
//!
//! | module | what it holds |
//! |---|---|
//! | `names` | words that are known, numbers, and names of ports and protocols |
//! | `words` | the words of a line, one after the other |
//! | `lines` | the lines outside of banners and macros |
//! | `heads` | what a line is in its configuration, and where the next one stands |
//! | `groups` | groups by their names, with their lines |
//! | `port_list` | ports after `eq` and `neq` |
//! | `services` | comparisons of ports, protocols, services, and members of groups of them |
//! | `wildcard` | addresses under a wildcard mask |
//! | `entry` | an entry, word by word |
//! | `members` | members of groups of networks |
//! | `held` | what groups hold, with the groups in them |
//! | `list` | the list so far, and what each line adds to it |
//! | `boxes` | the rules of an entry, as boxes of packets |
//! | `packets` | a configuration, line by line, and the rules of a list of it |
//! | `fault` | the kinds of faults, and the line of the first one |
//! | `laws` | the words of an entry that is read are whole parts |
//!
//! Source: Cisco IOS Security Command Reference, "access-list (IP extended)", "ip access-list",
//! "permit (IP)", "object-group network" and "object-group service".
#![tactic(auto)]

mod boxes;
mod entry;
mod fault;
mod groups;
mod heads;
mod held;
pub mod laws;
mod lines;
mod list;
mod members;
mod names;
mod packets;
mod port_list;
mod services;
mod wildcard;
mod words;

pub use fault::{CiscoFault, LineFault, LineKind};
pub use packets::{Answers, MAX_LIST, read_list};
