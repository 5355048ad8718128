//! How far a reader came.

use crate::start::Start;

/// Whether a reader has records to give.
#[derive(Clone, Copy, PartialEq, Eq)]
pub enum Progress {
    /// Records may be left.
    Reading,
    /// All records were given.
    Ended,
    /// A call answered a fault.
    Failed,
}

/// What a reader knows of its capture, and how far it came.
#[derive(Clone, Copy)]
pub struct CaptureState {
    /// The byte order and the link type of the records.
    pub start: Start,
    /// How many records were given.
    pub count: u64,
    /// Whether more are to come.
    pub progress: Progress,
}
