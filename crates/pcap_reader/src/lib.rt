//! the bytes of a capture file → its records, or its first fault with the number of its record
//!
//! A [`Capture`] reads the opened file of a desk, record by record:
//!
//! | module | what it reads or says |
//! |---|---|
//! | `capture` | the way in: `begin`, and `next` for each record |
//! | `record` | the file header, or a record, from the opened file |
//! | `fill` | as many bytes as a slice has room for, or those up to the end of the file |
//! | `header` | the numbers of both headers, in the order that the caller names |
//! | `start` | what a file header says of the records: their byte order and link type |
//! | `link` | the link types that are read |
//! | `capture_fault` | why a capture is refused |
//! | `state` | what a reader knows of its capture, and how far it came |
//! | `laws` | that the numbers are those of the format, and how records follow one another |
//!
//! The format is that of libpcap's savefiles, version 2.4. The file header stands once, and a
//! record header stands in front of the captured bytes of each record:
//!
//!     | magic: 4 | major: 2 | minor: 2 | zone: 4 | accuracy: 4 | snap length: 4 | network: 4 |
//!     | seconds: 4 | fraction: 4 | captured length: 4 | original length: 4 | captured bytes |
//!
//! All numbers stand in the order of the magic. What a capture means is defined in
//! `specs/Capture.antt`, and what its file header says in `specs/Start.antt`, with examples beside
//! them.
#![tactic(auto)]

mod capture;
mod capture_fault;
pub mod fill;
mod header;
pub mod laws;
mod link;
mod record;
mod start;
mod state;

pub use capture::Capture;
pub use capture_fault::{BeginFault, CaptureFault};
pub use header::{FileHeader, RecordHeader, file_header, record_header};
pub use link::Link;
pub use record::{MAX_CAPTURED, MAX_RECORDS};
pub use start::Order;
pub use state::Progress;
