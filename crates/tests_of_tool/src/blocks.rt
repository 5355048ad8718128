//! Whole commands over pcapng captures in memory.

ghost use Rattle.std.specs.Prelude.{◌<◌, ◌≡◌};

use acl_outside::{MemDesk, MemFile, MemSink};
use acl_tool::{CaptureFault, Status, run};
use flat_table::Steps;
use std::alloc::{AllocError, Global};
use std::marker::Brand;
use std::process::Abort;
use std::sync::ledger::{Blank, Ledger};
use std::test::Fail;

/// The IPv4 rule of the example in the DPDK Programmer's Guide, "Packet Classification and Access
/// Control".
const GUIDE: &[u8] = b"@192.168.1.0/24 192.168.2.31/32 0:65535 1234:1234 0x11/0xFF\n";

/// A section of version 1.0 in each order.
const LITTLE_SECTION: &[u8] = &[
    0x0A, 0x0D, 0x0D, 0x0A, 28, 0, 0, 0, 0x4D, 0x3C, 0x2B, 0x1A, 1, 0, 0, 0, 255, 255, 255, 255,
    255, 255, 255, 255, 28, 0, 0, 0,
];

const BIG_SECTION: &[u8] = &[
    0x0A, 0x0D, 0x0D, 0x0A, 0, 0, 0, 28, 0x1A, 0x2B, 0x3C, 0x4D, 0, 1, 0, 0, 255, 255, 255, 255,
    255, 255, 255, 255, 0, 0, 0, 28,
];

/// An interface of Ethernet frames, of IEEE 802.11 frames, which aren't read, and one of Ethernet
/// frames in big-endian order.
const LITTLE_INTERFACE: &[u8] = &[1, 0, 0, 0, 20, 0, 0, 0, 1, 0, 0, 0, 0, 0, 4, 0, 20, 0, 0, 0];

const WIRELESS_INTERFACE: &[u8] = &[
    1, 0, 0, 0, 20, 0, 0, 0, 105, 0, 0, 0, 0, 0, 4, 0, 20, 0, 0, 0,
];

const BIG_INTERFACE: &[u8] = &[0, 0, 0, 1, 0, 0, 0, 20, 0, 1, 0, 0, 0, 4, 0, 0, 0, 0, 0, 20];

/// Blocks that are passed over: a name resolution without records, and an interface statistics
/// block with a comment.
const NAMES: &[u8] = &[4, 0, 0, 0, 12, 0, 0, 0, 12, 0, 0, 0];

const STATISTICS: &[u8] = &[
    5, 0, 0, 0, 32, 0, 0, 0, 0, 0, 0, 0, 0, 0, 0, 0, 0, 0, 0, 0, 1, 0, 4, 0, b'n', b'o', b'n',
    b'e', 32, 0, 0, 0,
];

/// A frame of 38 bytes: UDP from 192.168.1.5, port 5000, to 192.168.2.31, port 1234.
const FRAME: [u8; 38] = [
    0, 0, 0, 0, 0, 0, 0, 0, 0, 0, 0, 0, 8, 0, 0x45, 0, 0, 24, 0, 0, 0, 0, 64, 17, 0, 0, 192, 168,
    1, 5, 192, 168, 2, 31, 19, 136, 4, 210,
];

/// What stands before the frame in an enhanced packet of the first interface, in each order.
const LITTLE_PACKET: &[u8] = &[
    6, 0, 0, 0, 72, 0, 0, 0, 0, 0, 0, 0, 0, 0, 0, 0, 0, 0, 0, 0, 38, 0, 0, 0, 38, 0, 0, 0,
];

const BIG_PACKET: &[u8] = &[
    0, 0, 0, 6, 0, 0, 0, 72, 0, 0, 0, 0, 0, 0, 0, 0, 0, 0, 0, 0, 0, 0, 0, 38, 0, 0, 0, 38,
];

/// What stands after it: two bytes that fill the block, and its length.
const LITTLE_END: &[u8] = &[0, 0, 72, 0, 0, 0];

const BIG_END: &[u8] = &[0, 0, 0, 0, 0, 72];

/// The same frame to port 1235.
fn other_frame() -> [u8; 38] {
    let mut frame = FRAME;
    frame[37] = 211;
    frame
}

/// A section and an interface in little-endian order, a packet to port 1234, these blocks, and a
/// packet to port 1235.
fn little(alloc: Global, between: &[u8]) -> Result<Vec<u8>, AllocError> {
    let mut capture = Vec::from_slice(alloc, LITTLE_SECTION)?;
    capture.extend_from_slice(LITTLE_INTERFACE)?;
    add_packet(&mut capture, LITTLE_PACKET, &FRAME, LITTLE_END)?;
    capture.extend_from_slice(between)?;
    add_packet(&mut capture, LITTLE_PACKET, &other_frame(), LITTLE_END)?;
    Ok(capture)
}

/// The same in big-endian order, without blocks between.
fn big(alloc: Global) -> Result<Vec<u8>, AllocError> {
    let mut capture = Vec::from_slice(alloc, BIG_SECTION)?;
    capture.extend_from_slice(BIG_INTERFACE)?;
    add_packet(&mut capture, BIG_PACKET, &FRAME, BIG_END)?;
    add_packet(&mut capture, BIG_PACKET, &other_frame(), BIG_END)?;
    Ok(capture)
}

/// Puts a packet at the end of a capture.
fn add_packet(
    capture: &mut Vec<u8>,
    head: &[u8],
    frame: &[u8],
    end: &[u8],
) -> Result<(), AllocError> {
    capture.extend_from_slice(head)?;
    capture.extend_from_slice(frame)?;
    capture.extend_from_slice(end)
}

/// A section, an interface with these bytes or none, and a packet to port 1234.
fn one_packet(alloc: Global, interface: &[u8]) -> Result<Vec<u8>, AllocError> {
    let mut capture = Vec::from_slice(alloc, LITTLE_SECTION)?;
    capture.extend_from_slice(interface)?;
    add_packet(&mut capture, LITTLE_PACKET, &FRAME, LITTLE_END)?;
    Ok(capture)
}

/// Adds a file of this name and these bytes.
fn add_file(
    alloc: Global,
    files: &mut Vec<MemFile>,
    name: &str,
    bytes: &[u8],
) -> Result<(), AllocError> {
    let name = String::from_str(alloc, name)?;
    let bytes = Vec::from_slice(alloc, bytes)?;
    files.push(MemFile { name, bytes })?;
    Ok(())
}

/// Runs the words with a counter that nobody sees.
fn run_counted<L: Ledger>(
    blank: Blank,
    alloc: Global,
    words: &[String],
    desk: &mut MemDesk,
    out: &mut MemSink,
    err: &mut MemSink,
) -> Status
    requires name { blank.name ≡ L.name }
    requires parts { blank.parts ≡ L.parts }
    requires some { 0 < blank.parts }
{
    let mut steps = Steps::<L>::new(blank);
    run(alloc, words, desk, out, err, &mut steps)
}

/// Classifies a capture by the rule of the guide, where a read gives so many bytes at most, and
/// compares the status and both outputs.
fn expect<R: Abort + AllocGlobal>(
    rt: &R,
    capture: &[u8],
    piece: usize,
    want: (Status, &str, &str),
) -> Result<(), AllocError>
    requires { 0 < piece }
{
    let alloc = rt.alloc();
    let mut desk = desk_of(rt, alloc, capture, piece)?;
    let mut out = MemSink::new(alloc, 10_000, 1000, Vec::new(alloc))?;
    let mut err = MemSink::new(alloc, 1000, 1000, Vec::new(alloc))?;
    let status = classify(alloc, &mut desk, &mut out, &mut err)?;
    assert!(rt; status == want.0);
    assert!(rt; out.bytes() == want.1.as_bytes());
    assert!(rt; err.bytes() == want.2.as_bytes());
    Ok(())
}

/// A desk over the rule file `r` and the capture `c`.
fn desk_of(
    rt: &impl Abort,
    alloc: Global,
    capture: &[u8],
    piece: usize,
) -> Result<MemDesk, AllocError>
    requires { 0 < piece }
{
    let mut files = Vec::new(alloc);
    add_file(alloc, &mut files, "r", GUIDE)?;
    add_file(alloc, &mut files, "c", capture)?;
    assert!(rt; MemDesk::has_distinct_names(&files));
    MemDesk::new(alloc, files, piece, 0, Vec::new(alloc), Vec::new(alloc))
}

/// Runs the command.
fn classify(
    alloc: Global,
    desk: &mut MemDesk,
    out: &mut MemSink,
    err: &mut MemSink,
) -> Result<Status, AllocError> {
    let words = owned_words(alloc)?;
    Ok(run_counted::<Brand>(Blank::new(1), alloc, &words, desk, out, err))
}

/// The words of the command.
fn owned_words(alloc: Global) -> Result<Vec<String>, AllocError> {
    let mut words = Vec::new(alloc);
    for word in ["classify", "r", "c"] {
        words.push(String::from_str(alloc, word)?)?;
    }
    Ok(words)
}

const TWO_PACKETS: (Status, &str, &str) = (
    Status::Done,
    "1 ip4 1\n2 ip4 0\npackets 2 ip4 2 ip6 0 other 0 short 0\n",
    "",
);

const NO_PACKETS: (Status, &str, &str) = (
    Status::Done,
    "packets 0 ip4 0 ip6 0 other 0 short 0\n",
    "",
);

/// What is compared where a capture is given whole, and where it is given a byte at a time, as a
/// pipe may.
fn expect_both<R: Abort + AllocGlobal>(
    rt: &R,
    capture: &[u8],
    want: (Status, &str, &str),
) -> Result<(), AllocError> {
    expect(rt, capture, 1_000_000, want)?;
    expect(rt, capture, 1, want)
}

#[test]
fn sections_without_a_packet_are_reported(rt: HostRuntime) -> Result<(), Fail> {
    expect_both(&rt, LITTLE_SECTION, NO_PACKETS)?;
    expect_both(&rt, BIG_SECTION, NO_PACKETS)?;
    Ok(())
}

#[test]
fn packets_of_either_order_are_reported(rt: HostRuntime) -> Result<(), Fail> {
    let whole = little(rt.alloc(), &[])?;
    expect_both(&rt, &whole, TWO_PACKETS)?;
    let cut = (
        Status::CaptureRefused(CaptureFault::PngCut(2)),
        "1 ip4 1\n",
        "aclc: capture: record 2: block cut\n",
    );
    expect_both(&rt, &whole[..whole.len().saturating_sub(1)], cut)?;
    let other_order = big(rt.alloc())?;
    expect_both(&rt, &other_order, TWO_PACKETS)?;
    Ok(())
}

#[test]
fn blocks_between_packets_are_passed_over(rt: HostRuntime) -> Result<(), Fail> {
    for between in [NAMES, STATISTICS] {
        let capture = little(rt.alloc(), between)?;
        expect_both(&rt, &capture, TWO_PACKETS)?;
    }
    Ok(())
}

#[test]
fn interfaces_that_cannot_be_read_are_refused(rt: HostRuntime) -> Result<(), Fail> {
    let cases: [(&[u8], CaptureFault, &str); 2] = [
        (
            &[],
            CaptureFault::PngInterface(1),
            "aclc: capture: record 1: no interface\n",
        ),
        (
            WIRELESS_INTERFACE,
            CaptureFault::PngLink(1),
            "aclc: capture: record 1: interface link type\n",
        ),
    ];
    for (interface, fault, told) in cases {
        let capture = one_packet(rt.alloc(), interface)?;
        expect_both(&rt, &capture, (Status::CaptureRefused(fault), "", told))?;
    }
    Ok(())
}
