//! tables of both families and a capture → a line for each of its records, and a status
//!
//! [`print_packets`] reads a capture batch by batch, and is lent tables and no rules.
//!
//! | module | what it holds |
//! |---|---|
//! | `capture` | the report of a named capture |
//! | `conductor` | the loop over its batches: take records, walk their keys, put their lines |
//! | `form` | the tables that answer, and how their answers are shown |
//! | `batch`, `packets`, `packet` | the records of a batch, as their packets |
//! | `verdicts` | the verdicts on the packets of a family |
//! | `lines` | the lines of packets, and those after them |
//! | `room` | the memory of a batch |
//! | `laws` | how many transitions a report tells at most, over the definitions |
#![tactic(auto)]

mod batch;
mod capture;
mod conductor;
mod form;
pub mod laws;
mod lines;
mod packet;
mod packets;
mod room;
mod verdicts;

pub use capture::print_packets;
pub use form::PrintOptions;
