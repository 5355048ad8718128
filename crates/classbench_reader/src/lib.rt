//! bytes of a rule file → rules of both families, or the first faulty line; a rule → its line
//!
//! A file is cut into lines. Blank lines and comments are skipped, and each other line is read from
//! left to right: `@`, source, destination, two ranges of ports, a protocol, optional flags, and
//! attributes. What a line says becomes a rule in the set of its family.
//!
//! | module | what it holds |
//! |---|---|
//! | `rules_fault` | the kinds of faults, and the line of the first one |
//! | `network` | an address with a prefix length, of either family |
//! | `columns` | ports, protocol and flags |
//! | `attributes` | `pri=`, `cat=` and `data=`, and the tag that they make |
//! | `line` | a whole line, and its rule |
//! | `rule_file` | a whole file, and its rules by family |
//! | `print` | the line of a rule |
//! | `laws` | printed lines are read back |
//!
//! Source: D. E. Taylor and J. S. Turner, "ClassBench: A Packet Classification Benchmark", 2007,
//! and DPDK's `app/test-acl`, for the columns; the attributes are an extension of this project.
#![tactic(auto)]

mod attributes;
mod columns;
pub mod laws;
mod line;
mod network;
mod print;
mod rule_file;
mod rules_fault;

pub use line::{RuleLine, is_skipped};
pub use network::{Address, Network};
pub use print::print_rule;
pub use rule_file::{MAX_RULE_FILE, RuleFile, read_rules};
pub use rules_fault::{LineFault, LineKind, RulesFault};
