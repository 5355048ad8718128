//! the words of a command line and what lies outside → printed verdicts, and a status
//!
//! [`run`] reads the words, does what they ask for over a desk and sinks, and puts a line that
//! names the cause where it ends otherwise than done. [`Aclc`] is the same as a program, to which
//! `program_edge` lends the words, the files and the streams of the system.
//!
//! | module | what it reads, says or prints |
//! |---|---|
//! | `tool` | the way in: it conducts the commands |
//! | `classify` | the command that prints the report of a capture |
//! | `build` | the command that saves the tables of a rule file as an image |
//! | `replay` | the command that prints the report of a capture by the tables of an image |
//! | `laws` | an image prints what its rules print; what stands after a fault of told files |
//! | `audit` | the command that tells which rules ever win |
//! | `compare` | the command that tells whether two rule files decide alike |
//! | `session` | the command that answers a script of calls |
//! | `bench` | the command that compares rules and table over a workload |
//! | `rule_file` | the rules of a file |
//! | `tables` | the rules in the contexts of both families, and their tables |
//! | `text` | a text that is put whole |
//! | `program` | the commands as a program |
#![tactic(auto)]

mod audit;
mod bench;
mod build;
mod classify;
mod compare;
pub mod laws;
mod program;
mod replay;
mod rule_file;
mod session;
mod tables;
mod text;
mod tool;

pub use capture_report::{PrintOptions, print_packets};
pub use classbench_reader::{LineFault, LineKind};
pub use command_ending::Status;
pub use command_words::{UsageFault, UsageKind};
pub use field_defs::Family;
pub use pcap_reader::CaptureFault;
pub use program::Aclc;
pub use table_image::{ImageFault, ImageKind};
pub use tool::run;
