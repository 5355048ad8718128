//! a firewall's or router's list and a chain's name → a rule file that decides as the chain does
//!
//! [`run_lists`] reads the words, reads the list through a desk, and puts a rule file to the
//! output, or one line that names the cause. [`AclcLists`] is the same as a program, to which
//! `program_edge` lends the words, the files and the streams of the system.
//!
//! | module | what it reads, says or prints |
//! |---|---|
//! | `tool` | the way in: words, list, text, and how it ended |
//! | `words` | the words of the command line |
//! | `listing` | a list → the rules of one of its chains |
//! | `ruleset` | the same of a ruleset of nft, up to its chains |
//! | `premises` | what the rules presuppose of packets, as comments |
//! | `printing` | rules, and the lines that they were made of → the text of a rule file |
//! | `status` | how a run ended, and what in a list is refused |
//! | `message` | the line that tells it |
//! | `shown` | what a message shows of a text that others wrote |
//! | `program` | the turning of lists as a program |
#![tactic(auto)]

mod listing;
mod message;
mod premises;
mod printing;
mod program;
mod ruleset;
mod shown;
mod status;
mod tool;
mod words;

pub use message::message_line;
pub use program::AclcLists;
pub use status::{ListFault, ListKind, ListPlace, ListStatus};
pub use tool::run_lists;
pub use words::Form;
