//! the words of a command line → the request that they are, or the first word that isn't lawful
//!
//! | module | what it reads |
//! |---|---|
//! | `command_line` | a command, and the names of its files |
//! | `allowed` | which options a command allows |
//! | `options`, `budget` | the options that are given, and how many words a table may have |
//! | `bench_words`, `bench_numbers` | the words after `bench`: a seed, and how much it gives |
//! | `usage_fault` | what is wrong with a word |
#![tactic(auto)]

mod allowed;
mod bench_numbers;
mod bench_words;
mod budget;
mod command_line;
mod options;
mod usage_fault;

pub use bench_numbers::BenchNumbers;
pub use budget::Budget;
pub use command_line::{Request, read_words};
pub use options::Options;
pub use usage_fault::{UsageFault, UsageKind};
