//! Reading the file header and the records from the opened file of a desk.

ghost use Rattle.std.specs.Prelude.{◌≡◌, ◌<◌, ◌≤◌, ℕ, List, length, IsTrue, IfOk, IfSome, IsNone};
ghost use Rattle.acl_outside.specs.Desk.{DeskView};
ghost use Rattle.pcap_reader.specs.Capture.{max_captured, max_records};
ghost use Rattle.pcap_reader.specs.Reader.{HasHeader, ReadsNext, ReadsStart, answer_in};
ghost use Rattle.pcap_reader.specs.Start.{file_header_len};

use crate::capture_fault::CaptureFault;
use crate::fill::fill;
use crate::start::{FILE_HEADER, RECORD_HEADER, Start, read_start};
use crate::state::CaptureState;
use acl_outside::{Desk, Failed};

/// How many captured bytes a record may have: libpcap's own limit on a snap length.
pub const MAX_CAPTURED: usize = 262_144;
/// How many records a capture may have.
pub const MAX_RECORDS: u64 = 1_000_000_000;

/// What a file header says whose first bytes were read before, or its first fault.
pub fn read_file_header<D: Desk>(desk: &mut D, first: &[u8]) -> Result<Start, CaptureFault>
    requires reading { IsTrue (D.view desk.old).reading }
    requires few { length first.now ≤ file_header_len }
    ensures { ReadsStart first.now (D.view desk.old) (D.view desk.new) result }
{
    let mut header = [0; FILE_HEADER];
    header[..first.len()].copy_from_slice(first);
    let rest = FILE_HEADER - first.len();
    match fill(desk, &mut header[first.len()..]) {
        Ok(len) if len == rest => read_start(&header),
        Ok(_) => Err(CaptureFault::HeaderCut),
        Err(Failed) => Err(CaptureFault::ReadFault),
    }
}

/// Reads the next record into the front of `buffer`, and says how many captured
/// bytes it has, or `None` at the end of the file.
#[inline]
pub fn read_record<D: Desk>(
    desk: &mut D,
    state: &CaptureState,
    buffer: &mut [u8],
) -> Result<Option<usize>, CaptureFault>
    requires reading { IsTrue (D.view desk.old).reading }
    requires room { max_captured ≤ length buffer.old }

    ensures within { IfOk result (λ len. IfSome len (λ n. n ≤ length buffer.old)) }
    ensures record { ReadsNext state.now (D.view desk.old) (D.view desk.new)
        (answer_in state.now buffer.new result) }
{
    if state.count >= MAX_RECORDS {
        return read_end(desk, state);
    }
    let mut header = [0; RECORD_HEADER];
    match fill(desk, &mut header) {
        Ok(RECORD_HEADER) => {}
        Ok(0) => return Ok(None),
        Ok(_) => return Err(CaptureFault::RecordCut(state.count + 1)),
        Err(Failed) => return Err(CaptureFault::ReadFault),
    }
    let captured = state.start.order.record_header(&header).captured as usize;
    if captured > MAX_CAPTURED {
        return Err(CaptureFault::RecordTooLong(state.count + 1));
    }
    read_captured(desk, state, &mut buffer[..captured])
}

/// Fills `room` with the captured bytes of the next record, whose header was read and says that
/// there are as many.
#[inline]
fn read_captured<D: Desk>(
    desk: &mut D,
    state: &CaptureState,
    room: &mut [u8],
) -> Result<Option<usize>, CaptureFault>
    requires reading { IsTrue (D.view desk.old).reading }
    requires number { state.now.count < max_records }

    ensures within { IfOk result (λ len. IfSome len (λ n. n ≤ length room.old)) }
    ensures record { (before : DeskView)
        → HasHeader state.now (length room.old) before (D.view desk.old)
        → ReadsNext state.now before (D.view desk.new) (answer_in state.now room.new result) }
{
    match fill(desk, room) {
        Ok(len) if len == room.len() => Ok(Some(len)),
        Ok(_) => Err(CaptureFault::RecordCut(state.count + 1)),
        Err(Failed) => Err(CaptureFault::ReadFault),
    }
}

/// Reads no record after the last that a capture may have: `None` at the end of the file, else a
/// fault.
#[inline(never)]
fn read_end<D: Desk>(desk: &mut D, state: &CaptureState) -> Result<Option<usize>, CaptureFault>
    requires reading { IsTrue (D.view desk.old).reading }
    requires last { max_records ≤ state.now.count }

    ensures none { IfOk result IsNone }
    ensures record { (buffer : List ℕ) → ReadsNext state.now (D.view desk.old) (D.view desk.new)
        (answer_in state.now buffer result) }
{
    let mut byte = [0; 1];
    match fill(desk, &mut byte) {
        Ok(0) => Ok(None),
        Ok(_) => Err(CaptureFault::TooManyRecords),
        Err(Failed) => Err(CaptureFault::ReadFault),
    }
}
