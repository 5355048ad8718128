//! A capture that is read record by record.

ghost use Rattle.std.specs.Prelude.{◌≡◌, ◌≤◌, IsTrue, false, length, vec_len};
ghost use Rattle.pcap_reader.specs.Capture.{max_captured};
ghost use Rattle.pcap_reader.specs.Reader.{Begins, BeginsIn, BeginsWith, TakesNext, answer_of};
ghost use Rattle.pcap_reader.specs.Start.{file_header_len};
ghost use Rattle.pcap_reader.specs.ReaderStates.{has_failed};

use crate::capture_fault::{BeginFault, CaptureFault};
use crate::link::Link;
use crate::record::{MAX_CAPTURED, read_file_header, read_record};
use crate::start::RECORD_HEADER;
use crate::state::{CaptureState, Progress};
use acl_outside::Desk;
use std::alloc::Global;
use std::marker::Model;

/// A capture that is read record by record from the opened file of a desk.
///
/// It holds one buffer of 262,144 bytes, into which each record is read, and what its file header
/// says. The desk is lent to each call, and must have the same file opened.
#[derive(Drop)]
pub struct Capture {
    state: CaptureState,
    /// Room for the captured bytes of a record.
    buffer: Vec<u8>,
}

impl Model for Capture {
    ghost use Rattle.std.specs.Prelude.{◌≡◌, vec_len};
    ghost use Rattle.pcap_reader.specs.Capture.{max_captured};
    ghost use Rattle.pcap_reader.specs.State.{state_of};
    ghost use Rattle.pcap_reader.specs.declared.state.CaptureState.{CaptureState};

    ghost Value = { CaptureState };

    ghost view = { λ capture. state_of capture.state.start capture.state.count
        capture.state.progress };

    ghost invariant = { λ capture. vec_len capture.buffer ≡ max_captured };
}

impl Capture {
    ghost use Rattle.std.specs.Borrow.{sem};
    ghost use Rattle.pcap_reader.specs.Lending.{GoesOnAs};

    /// Begins to read the opened file as a capture: takes the buffer, and reads the file header.
    ///
    /// A file has to be opened, and is read from where it stands. [`BeginFault::OutOfMemory`] comes
    /// before anything is read. No other call takes memory. Source: libpcap savefile format, file
    /// header.
    pub fn begin<D: Desk>(alloc: Global, desk: &mut D) -> Result<Capture, BeginFault>
        requires { IsTrue (D.view desk.old).reading }
        ensures { Begins (D.view desk.old) (D.view desk.new) result }
    {
        Capture::begin_with(alloc, desk, &[])
    }

    /// Begins to read a capture of which the first bytes were read before, and the rest is what is
    /// left of the opened file.
    ///
    /// A file has to be opened, and `first` has at most 24 bytes. All else is as in
    /// [`begin`](Capture::begin).
    pub fn begin_with<D: Desk>(
        alloc: Global,
        desk: &mut D,
        first: &[u8],
    ) -> Result<Capture, BeginFault>
        requires reading { IsTrue (D.view desk.old).reading }
        requires few { length first.now ≤ file_header_len }
        ensures { BeginsWith first.now (D.view desk.old) (D.view desk.new) result }
    {
        let mut buffer = Vec::new(alloc);
        buffer.resize(MAX_CAPTURED, 0)?;
        match Capture::begin_in(buffer, desk, first) {
            Ok(capture) => Ok(capture),
            Err(fault) => Err(BeginFault::Capture(fault)),
        }
    }

    /// Begins to read such a capture with a buffer of 262,144 bytes that was taken before. It takes
    /// no memory.
    ///
    /// A file has to be opened, and `first` has at most 24 bytes.
    pub fn begin_in<D: Desk>(
        buffer: Vec<u8>,
        desk: &mut D,
        first: &[u8],
    ) -> Result<Capture, CaptureFault>
        requires reading { IsTrue (D.view desk.old).reading }
        requires few { length first.now ≤ file_header_len }
        requires room { vec_len buffer ≡ max_captured }
        ensures { BeginsIn first.now (D.view desk.old) (D.view desk.new) result }
    {
        let start = read_file_header(desk, first)?;
        let state = CaptureState {
            start,
            count: 0,
            progress: Progress::Reading,
        };
        Ok(Capture { state, buffer })
    }

    /// The captured bytes of the next record, or `None` at the end of the file.
    ///
    /// The file has to be opened still, and no earlier call may have failed. The bytes are read
    /// into the buffer, and no byte is asked for beyond the record. After `None` it answers `None`
    /// again, and asks for nothing. A fault that isn't [`CaptureFault::ReadFault`] is that of the
    /// capture, whose numbers count records from 1. Source: libpcap savefile format, per-packet
    /// header.
    #[inline]
    pub fn next<D: Desk>(&mut self, desk: &mut D) -> Result<Option<&[u8]>, CaptureFault>
        requires reading { IsTrue (D.view desk.old).reading }
        requires unfailed { has_failed self.old.progress ≡ false }

        ensures record { TakesNext self.old (D.view desk.old) (D.view desk.new)
            (answer_of self.old result) }
        ensures* goes_on { sem 𝓛 (GoesOnAs self.entry result) }
    {
        if self.state.progress == Progress::Ended {
            return Ok(None);
        }
        match read_record(desk, &self.state, &mut self.buffer) {
            Ok(Some(len)) => {
                self.state.count += 1;
                Ok(Some(&self.buffer[..len]))
            }
            Ok(None) => {
                self.state.progress = Progress::Ended;
                Ok(None)
            }
            Err(fault) => {
                self.state.progress = Progress::Failed;
                Err(fault)
            }
        }
    }

    /// Whether the next record is whole in these bytes, which come next in the file. It reads
    /// nothing, and no clause says anything of the answer.
    pub fn has_next_in(&self, bytes: &[u8]) -> bool {
        match bytes.first_chunk() {
            Some(header) => {
                let captured = self.state.start.order.record_header(header).captured;
                captured as usize <= bytes.len() - RECORD_HEADER
            }
            None => false,
        }
    }

    /// The link type of all records.
    #[inline]
    pub fn link(&self) -> Link
        ensures { result ≡ self.now.start.link }
    {
        self.state.start.link
    }

    /// How many records were given.
    pub fn count(&self) -> u64
        ensures { result ≡ self.now.count }
    {
        self.state.count
    }

    /// Whether an earlier call answered a fault.
    pub fn failed(&self) -> bool
        ensures { result ≡ has_failed self.now.progress }
    {
        self.state.progress == Progress::Failed
    }
}
