//! a program's words, files and writers → its exit code, and the writers with what was put to them
//!
//! A [`Program`] does what words ask for, over any files and streams. [`exit_code`] lends it the
//! words after the program's name, [`run_over`] the files of the system and two writers, and
//! [`run_words`] standard output and standard error.
//!
//! | module | what it lends or knows |
//! |---|---|
//! | `edge` | words, files and writers for a program, and its exit code |
//! | `program` | what the edge knows of a program |
#![tactic(auto)]

mod edge;
mod program;

pub use edge::{exit_code, run_over, run_words};
pub use program::Program;
