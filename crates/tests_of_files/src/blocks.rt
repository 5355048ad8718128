//! A pcapng capture of two sections that is whole, cut or can't be read on, over a desk in memory.

ghost use Rattle.std.specs.Prelude.{IsTrue};

use crate::memory::desk_over;
use acl_outside::{Desk, MemDesk};
use pcap_reader::{BeginFault, CaptureFault, Link};
use pcapng_reader::AnyCapture;
use std::alloc::AllocError;
use std::process::Abort;
use std::test::Fail;

/// A little-endian section with an interface of Ethernet frames, a packet of 2 bytes and an empty
/// block of another type, and then a big-endian section with an interface of packets without a
/// header, and a packet of 2 bytes.
const CAPTURE: [u8; 180] = [
    0x0A, 0x0D, 0x0D, 0x0A, 28, 0, 0, 0, 0x4D, 0x3C, 0x2B, 0x1A, 1, 0, 0, 0, 255, 255, 255, 255,
    255, 255, 255, 255, 28, 0, 0, 0, 1, 0, 0, 0, 20, 0, 0, 0, 1, 0, 0, 0, 0, 0, 4, 0, 20, 0, 0, 0,
    6, 0, 0, 0, 36, 0, 0, 0, 0, 0, 0, 0, 0, 0, 0, 0, 0, 0, 0, 0, 2, 0, 0, 0, 60, 0, 0, 0, 8, 9, 0,
    0, 36, 0, 0, 0, 4, 0, 0, 0, 12, 0, 0, 0, 12, 0, 0, 0, 0x0A, 0x0D, 0x0D, 0x0A, 0, 0, 0, 28,
    0x1A, 0x2B, 0x3C, 0x4D, 0, 1, 0, 0, 255, 255, 255, 255, 255, 255, 255, 255, 0, 0, 0, 28, 0, 0,
    0, 1, 0, 0, 0, 20, 0, 101, 0, 0, 0, 4, 0, 0, 0, 0, 0, 20, 0, 0, 0, 6, 0, 0, 0, 36, 0, 0, 0, 0,
    0, 0, 0, 0, 0, 0, 0, 0, 0, 0, 0, 2, 0, 0, 0, 2, 5, 6, 0, 0, 0, 0, 0, 36,
];

/// The records of that capture.
const RECORDS: [(Link, &[u8]); 2] = [(Link::Ethernet, &[8, 9]), (Link::Raw, &[5, 6])];

/// How many bytes the capture has up to the end of each block, how many records, and the number of
/// the record after them.
const ENDS: [(usize, usize, u64); 7] = [
    (28, 0, 1),
    (48, 0, 1),
    (84, 1, 2),
    (96, 1, 2),
    (124, 1, 2),
    (144, 1, 2),
    (180, 2, 3),
];

/// A desk with the first bytes of that capture, which gives some bytes a call and fails at one of
/// them.
fn desk_of<R: Abort + AllocGlobal>(
    rt: &R,
    len: usize,
    piece: usize,
    failing: u64,
) -> Result<MemDesk, AllocError> {
    let file = ("capture", &CAPTURE[..len.min(CAPTURE.len())]);
    desk_over(rt, rt.alloc(), file, piece, (failing, 0))
}

/// Asserts that the next record is this one, or none, or that the capture can't be read on.
fn gives<D: Desk>(
    rt: &impl Abort,
    desk: &mut D,
    capture: &mut AnyCapture,
    want: Result<Option<(Link, &[u8])>, CaptureFault>,
)
    requires { IsTrue (D.view desk.old).reading }
    ensures { IsTrue (D.view desk.new).reading }
{
    assert!(rt; !capture.failed());
    assert!(rt; capture.next(desk) == want);
}

/// Asserts that the capture has so many of the records and this ending.
fn has_records<D: Desk>(
    rt: &impl Abort,
    desk: &mut D,
    capture: &mut AnyCapture,
    records: usize,
    ending: Result<(), CaptureFault>,
)
    requires { IsTrue (D.view desk.old).reading }
{
    for record in RECORDS.iter().take(records) {
        gives(rt, desk, capture, Ok(Some(*record)));
    }
    match ending {
        Ok(()) => gives(rt, desk, capture, Ok(None)),
        Err(fault) => gives(rt, desk, capture, Err(fault)),
    }
    assert!(rt; capture.failed() == ending.is_err());
    assert!(rt; capture.count() == records as u64);
}

/// Asserts that the opened file is a capture with so many of the records and this ending.
fn shows<R: Abort + AllocGlobal, D: Desk>(
    rt: &R,
    desk: &mut D,
    records: usize,
    ending: Result<(), CaptureFault>,
)
    requires { IsTrue (D.view desk.old).reading }
{
    match AnyCapture::begin(rt.alloc(), desk) {
        Ok(mut capture) => has_records(rt, desk, &mut capture, records, ending),
        Err(fault) => assert!(rt; ending.map_err(BeginFault::Capture) == Err(fault)),
    }
}

/// How many records the first bytes of the capture have, and their ending.
fn expected(len: usize) -> (usize, Result<(), CaptureFault>) {
    if len < 4 {
        return (0, Err(CaptureFault::HeaderCut));
    }
    let mut before = (0, 1);
    for (end, records, next) in ENDS {
        if end == len {
            return (records, Ok(()));
        }
        if end < len {
            before = (records, next);
        }
    }
    (before.0, Err(CaptureFault::PngCut(before.1)))
}

/// Asserts that the first bytes of the capture have their records and their ending.
fn ends<R: Abort + AllocGlobal>(rt: &R, len: usize) -> Result<(), Fail> {
    let (records, ending) = expected(len);
    let mut desk = desk_of(rt, len, 1 + len % 50, 0)?;
    desk.open_file("capture")?;
    shows(rt, &mut desk, records, ending);
    Ok(())
}

#[test]
fn each_prefix_of_two_sections_has_its_records_and_its_ending(rt: HostRuntime) -> Result<(), Fail> {
    for len in 0..=CAPTURE.len() {
        ends(&rt, len)?;
    }
    Ok(())
}

/// How many bytes of the capture are read with its first packet.
const FIRST_PACKET_END: usize = 84;

/// Bytes after these, each with its place among them, by which no packet can come next: a length
/// of 0 and one that is no multiple of 4, a section of 24 bytes, and one of no known order.
const WRONG_BYTES: [(usize, u8); 4] = [(4, 0), (4, 13), (19, 24), (20, 0)];

/// The capture after its first packet.
fn after_first<R: Abort + AllocGlobal>(rt: &R) -> Result<AnyCapture, Fail> {
    let mut desk = desk_of(rt, CAPTURE.len(), 50, 0)?;
    desk.open_file("capture")?;
    let mut capture = AnyCapture::begin(rt.alloc(), &mut desk)?;
    gives(rt, &mut desk, &mut capture, Ok(Some(RECORDS[0])));
    Ok(capture)
}

#[test]
fn a_packet_comes_next_once_it_and_the_blocks_before_it_are_whole(
    rt: HostRuntime,
) -> Result<(), Fail> {
    let capture = after_first(&rt)?;
    for end in FIRST_PACKET_END..=CAPTURE.len() {
        let bytes = &CAPTURE[FIRST_PACKET_END..end];
        assert!(rt; capture.has_next_in(bytes) == (end == CAPTURE.len()));
    }
    Ok(())
}

#[test]
fn no_packet_comes_next_after_a_block_that_is_refused(rt: HostRuntime) -> Result<(), Fail> {
    let capture = after_first(&rt)?;
    for (place, wrong) in WRONG_BYTES {
        let mut bytes = CAPTURE;
        if let Some(byte) = bytes[FIRST_PACKET_END..].get_mut(place) {
            *byte = wrong;
        }
        assert!(rt; !capture.has_next_in(&bytes[FIRST_PACKET_END..]));
    }
    Ok(())
}
