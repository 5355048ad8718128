//! named files and pieces of output → their bytes, a transcript of what was asked and answered,
//! counts of faults
//!
//! A program asks a [`Desk`] for files and gives a [`Sink`] its output, and never learns what
//! stands after them: memory in tests, the system else. Clauses see of each what it tells, and
//! what it answered so far.
//!
//! - `desk`: the trait of what reads and makes files, and the answer of a call that failed
//! - `sink`: the trait of what takes output
//! - `reading`: a file from where it is read on to its end or a cap
//! - `writing`: a piece as a whole
//! - `mem_desk`, `made_file`, `mem_sink`, `listed`: files and output in memory, which fail where
//!   they are told to
//! - `std_desk`, `read_buffer`, `std_sink`: files and output streams of the system
//! - `held_streams`: the null device in the place of standard streams that are closed
//! - `words`: the words of the system's command line
//! - `transcript`: what was asked and answered, which only clauses read
//! - `first_bytes`: what a writer held when its sink was made, which only clauses read
//! - `laws`: what was heard of a file and what is left to read of it are the file
#![tactic(auto)]

mod desk;
mod first_bytes;
mod held_streams;
pub mod laws;
mod listed;
mod made_file;
mod mem_desk;
mod mem_sink;
mod read_buffer;
mod reading;
mod sink;
mod std_desk;
mod std_sink;
mod transcript;
mod words;
mod writing;

pub use desk::{Desk, Failed};
pub use held_streams::{HeldStreams, held_stream};
pub use mem_desk::{MemDesk, MemFile};
pub use mem_sink::MemSink;
pub use read_buffer::read_once;
pub use reading::{ReadAll, read_up_to};
pub use sink::Sink;
pub use std_desk::StdDesk;
pub use std_sink::StdSink;
pub use words::system_words;
pub use writing::{put_all, write_all};
