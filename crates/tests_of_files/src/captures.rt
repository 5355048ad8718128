//! Captures that are whole, cut or can't be read on, over a desk in memory.

ghost use Rattle.std.specs.Prelude.{IsTrue};

use crate::memory::desk_over;
use acl_outside::{Desk, MemDesk, read_up_to};
use pcap_reader::{BeginFault, Capture, CaptureFault, Link};
use std::alloc::AllocError;
use std::process::Abort;
use std::test::Fail;

/// A little-endian capture of Ethernet frames, with records of 2, 0 and 3 bytes.
const CAPTURE: [u8; 77] = [
    0xD4, 0xC3, 0xB2, 0xA1, 2, 0, 4, 0, 0, 0, 0, 0, 0, 0, 0, 0, 0, 0, 4, 0, 1, 0, 0, 0, 0, 0, 0, 0,
    0, 0, 0, 0, 2, 0, 0, 0, 2, 0, 0, 0, 8, 9, 0, 0, 0, 0, 0, 0, 0, 0, 0, 0, 0, 0, 60, 0, 0, 0, 0,
    0, 0, 0, 0, 0, 0, 0, 3, 0, 0, 0, 1, 0, 0, 0, 5, 6, 7,
];

/// The records of that capture.
const RECORDS: [&[u8]; 3] = [&[8, 9], &[], &[5, 6, 7]];

/// A desk with the first bytes of that capture, which gives some bytes a call and fails at one of
/// them.
fn desk_of<R: Abort + AllocGlobal>(
    rt: &R,
    len: usize,
    piece: usize,
    failing: u64,
) -> Result<MemDesk, AllocError> {
    let file = ("capture", &CAPTURE[..len.min(CAPTURE.len())]);
    desk_over(rt, rt.alloc(), file, piece, (failing, 0))
}

/// Asserts that the next record is this one, or none, or that the capture can't be read on.
fn gives<D: Desk>(
    rt: &impl Abort,
    desk: &mut D,
    capture: &mut Capture,
    want: Result<Option<&[u8]>, CaptureFault>,
)
    requires { IsTrue (D.view desk.old).reading }
    ensures { IsTrue (D.view desk.new).reading }
{
    assert!(rt; !capture.failed());
    assert!(rt; capture.next(desk) == want);
}

/// Asserts that the capture is of Ethernet frames with these records and this ending.
fn has_records<D: Desk>(
    rt: &impl Abort,
    desk: &mut D,
    capture: &mut Capture,
    records: &[&[u8]],
    ending: Result<(), CaptureFault>,
)
    requires { IsTrue (D.view desk.old).reading }
{
    assert!(rt; capture.link() == Link::Ethernet);
    for record in records {
        gives(rt, desk, capture, Ok(Some(*record)));
    }
    match ending {
        Ok(()) => gives(rt, desk, capture, Ok(None)),
        Err(fault) => gives(rt, desk, capture, Err(fault)),
    }
    assert!(rt; capture.failed() == ending.is_err());
    assert!(rt; capture.count() == records.len() as u64);
}

/// Asserts that the opened file is a capture of Ethernet frames with these records and this ending.
fn shows<R: Abort + AllocGlobal, D: Desk>(
    rt: &R,
    desk: &mut D,
    records: &[&[u8]],
    ending: Result<(), CaptureFault>,
)
    requires { IsTrue (D.view desk.old).reading }
{
    match Capture::begin(rt.alloc(), desk) {
        Ok(mut capture) => has_records(rt, desk, &mut capture, records, ending),
        Err(fault) => assert!(rt; ending.map_err(BeginFault::Capture) == Err(fault)),
    }
}

/// Asserts that the first bytes of the capture, of which a call gives some and one fails, have so
/// many records and this ending. The sizes are the number of bytes, and of those of a call.
fn ends<R: Abort + AllocGlobal>(
    rt: &R,
    [len, piece]: [usize; 2],
    failing: u64,
    count: usize,
    ending: Result<(), CaptureFault>,
) -> Result<(), Fail> {
    assert!(rt; count <= RECORDS.len());
    let mut desk = desk_of(rt, len, piece, failing)?;
    desk.open_file("capture")?;
    shows(rt, &mut desk, &RECORDS[..count], ending);
    Ok(())
}

#[test]
fn a_capture_ends_by_its_records_its_first_fault_or_a_read_fault(
    rt: HostRuntime,
) -> Result<(), Fail> {
    // Call 1 opens the file and call 2 reads its header, where a call gives 100 bytes. The length
    // of the file, the bytes of a call, the call that fails, and how many records come before the
    // ending.
    let cases: [([usize; 2], u64, usize, Result<(), CaptureFault>); 10] = [
        ([77, 100], 0, 3, Ok(())),
        ([77, 5], 0, 3, Ok(())),
        ([24, 100], 0, 0, Ok(())),
        ([58, 100], 0, 2, Ok(())),
        ([23, 100], 0, 0, Err(CaptureFault::HeaderCut)),
        ([59, 100], 0, 2, Err(CaptureFault::RecordCut(3))),
        ([76, 7], 0, 2, Err(CaptureFault::RecordCut(3))),
        ([77, 100], 2, 0, Err(CaptureFault::ReadFault)),
        ([77, 100], 4, 0, Err(CaptureFault::ReadFault)),
        ([77, 100], 8, 3, Err(CaptureFault::ReadFault)),
    ];
    for (sizes, failing, count, ending) in cases {
        ends(&rt, sizes, failing, count, ending)?;
    }
    Ok(())
}

/// Asserts that the opened file has the first record after so many bytes that are read before.
fn goes_on<R: Abort + AllocGlobal, D: Desk>(rt: &R, desk: &mut D, len: usize) -> Result<(), Fail>
    requires { IsTrue (D.view desk.old).reading }
{
    let first = read_up_to(rt.alloc(), desk, len)?;
    assert!(rt; first.len() <= 24);
    let mut capture = Capture::begin_with(rt.alloc(), desk, &first)?;
    has_first(rt, desk, &mut capture);
    Ok(())
}

/// Asserts that the capture is of Ethernet frames, and gives the first record.
fn has_first<D: Desk>(rt: &impl Abort, desk: &mut D, capture: &mut Capture)
    requires { IsTrue (D.view desk.old).reading }
{
    assert!(rt; capture.link() == Link::Ethernet);
    gives(rt, desk, capture, Ok(Some(RECORDS[0])));
}

#[test]
fn a_capture_goes_on_after_bytes_that_were_read_before(rt: HostRuntime) -> Result<(), Fail> {
    for len in [0usize, 4, 24] {
        let mut desk = desk_of(&rt, CAPTURE.len(), 100, 0)?;
        desk.open_file("capture")?;
        goes_on(&rt, &mut desk, len)?;
    }
    Ok(())
}
