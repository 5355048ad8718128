//! tests alone: files, rules, rule files, captures, frames and lines as the public sources have
//! them
//!
//! No crate stands on this one. Its tests see the public calls of the crates that read and write
//! files succeed, over the examples of RFCs, of the libpcap format and of the DPDK Programmer's
//! Guide, and over what people write. They stand here and not in those crates, since a crate with
//! tests is proved once more for them.
//!
//! | module | what it tests |
//! |---|---|
//! | `blocks` | pcapng captures that are whole or cut |
//! | `captures` | captures that are whole, cut or not read on |
//! | `desks` | files and output, in memory and of the system |
//! | `frames` | frames of packets, and the keys in them |
//! | `layouts` | layouts and the keys of their buffers |
//! | `lines` | the lines of a report |
//! | `memory` | a desk in memory, for the tests of files and captures |
//! | `messages` | what each fault says |
//! | `numbers` | numbers that bytes spell in either order |
//! | `ranks` | ranks by priorities and places |
//! | `router_lists` | lists of Cisco IOS, and the packets that they decide |
//! | `rule_files` | rule files as people write them, printed rules and lists |
//! | `rulesets`, `ruleset_sets`, `ruleset_starts` | rulesets of nft, and the packets that they decide |
//! | `saved_lists` | lists of iptables-save, and the packets that they decide |
//! | `stored` | rules that are stored |
//! | `texts` | texts of addresses and numbers |
//! | `verdicts` | verdicts of the plain filter |
#![tactic(auto)]

#[cfg(test)]
mod blocks;
#[cfg(test)]
mod captures;
#[cfg(test)]
mod desks;
#[cfg(test)]
mod frames;
#[cfg(test)]
mod layouts;
#[cfg(test)]
mod lines;
#[cfg(test)]
mod memory;
#[cfg(test)]
mod messages;
#[cfg(test)]
mod numbers;
#[cfg(test)]
mod ranks;
#[cfg(test)]
mod router_lists;
#[cfg(test)]
mod rule_files;
#[cfg(test)]
mod ruleset_sets;
#[cfg(test)]
mod ruleset_starts;
#[cfg(test)]
mod rulesets;
#[cfg(test)]
mod saved_lists;
#[cfg(test)]
mod stored;
#[cfg(test)]
mod texts;
#[cfg(test)]
mod verdicts;
