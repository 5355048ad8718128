//! rules of one family and texts → a rule file, which is read as these rules
//!
//! A program that makes a list of rules says beside each of them what it was made of. Such a text
//! stands in a comment, and the rule in a line of its own.
//!
//! | module | what it holds |
//! |---|---|
//! | `list_line` | a line of a list, and the lines written one after the other |
//! | `laws` | the text of a list is read as its rules |
#![tactic(auto)]

pub mod laws;
mod list_line;

pub use list_line::{ListLine, put_list};
