//! what is known of a packet, a capture or a table → the line that tells it, as bytes
//!
//! A report is text: words with one space between two of them, and LF after the last word of a
//! line. Each writer puts one whole line to the front of a buffer of [`LINE_ROOM`] bytes, and gives
//! the line's length with its LF. Every line fits, and none takes memory.
//!
//! | module | what it writes |
//! |---|---|
//! | `line` | pieces of a line, one after the other |
//! | `number` | the number of a line, with its digits, which is counted up |
//! | `packet` | the line of a packet: its number, its class, and what each category says |
//! | `counts` | how many packets of each class a capture has; the counts are kept here too |
//! | `tables` | the size of a table, and the transitions that were taken |
//! | `laws` | no line, but that counts grow record by record |
//!
//! The texts of the lines are defined in `specs/`, with examples beside them.
#![tactic(auto)]

mod counts;
pub mod laws;
mod line;
mod number;
mod packet;
mod tables;

pub use counts::{Counts, packets_line};
pub use line::{LINE_ROOM, append, append_number};
pub use number::LineNumber;
pub use packet::{MAX_VERDICTS, numbered_line, packet_line};
pub use tables::{table_line, transitions_line};
