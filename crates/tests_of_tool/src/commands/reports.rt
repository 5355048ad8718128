//! Whole commands over files in memory: captures that are reported packet by packet.

use crate::commands::{
    ANY, CLASSIFY, FAULTLESS, GUIDE, HEADER, IP4_FRAME, TWO_PACKETS, UDP, add_record, expect,
    guide_capture, to_port, udp_capture,
};
use acl_tool::{CaptureFault, Status};
use std::alloc::{AllocError, Global};
use std::process::Abort;
use std::test::Fail;

/// The three rules of the example in the DPDK Programmer's Guide, "Packet Classification and Access
/// Control": one to a wide network, one to a narrow one, one from a host.
const THREE: &[u8] = b"@0.0.0.0/0 192.168.0.0/16 0:65535 0:65535 0x00/0x00 pri=1 cat=3 data=1
@0.0.0.0/0 192.168.1.0/24 0:65535 0:65535 0x00/0x00 pri=2 cat=1 data=2
@10.1.1.1/32 0.0.0.0/0 0:65535 0:65535 0x00/0x00 pri=3 cat=2 data=3
";

/// One rule of each family.
const BOTH: &[u8] = b"@0.0.0.0/0 0.0.0.0/0 0:65535 80:80 0x06/0xFF
@::/0 ::/0 0:65535 0:0 0x11/0xFF
";

/// The file header of a big-endian capture of Ethernet frames, in nanoseconds.
const BIG_HEADER: &[u8] = &[
    0xA1, 0xB2, 0x3C, 0x4D, 0, 2, 0, 4, 0, 0, 0, 0, 0, 0, 0, 0, 0, 4, 0, 0, 0, 0, 0, 1,
];

/// TCP after two tags and an option of the IPv4 header, to port 80.
const TAGGED: &[u8] = &[
    0, 0, 0, 0, 0, 0, 0, 0, 0, 0, 0, 0, 0x88, 0xA8, 0, 1, 0x81, 0, 0, 2, 8, 0, 0x46, 0, 0, 28, 0,
    0, 0, 0, 64, 6, 0, 0, 1, 2, 3, 4, 5, 6, 7, 8, 1, 1, 1, 1, 3, 232, 0, 80,
];

/// A later fragment of UDP over IPv6, after a hop-by-hop header.
const FRAGMENT: &[u8] = &[
    0, 0, 0, 0, 0, 0, 0, 0, 0, 0, 0, 0, 0x86, 0xDD, 0x60, 0, 0, 0, 0, 20, 0, 64, 0, 0, 0, 0, 0, 0,
    0, 0, 0, 0, 0, 0, 0, 0, 0, 1, 0, 0, 0, 0, 0, 0, 0, 0, 0, 0, 0, 0, 0, 0, 0, 2, 44, 0, 0, 0, 0,
    0, 0, 0, 17, 0, 0, 8, 0, 0, 0, 0, 0, 1, 0, 2,
];

const NO_PACKETS: &str = "packets 0 ip4 0 ip6 0 other 0 short 0\n";

/// Classifies the capture by the rules, and compares the status and both outputs.
fn reports<R: Abort + AllocGlobal>(
    rt: &R,
    rules: &[u8],
    capture: &[u8],
    (status, out, err): (Status, &str, &str),
) -> Result<(), AllocError> {
    expect(
        rt,
        CLASSIFY,
        rules,
        capture,
        FAULTLESS,
        (status, out, err, 0),
    )
}

/// The capture of two packets, big-endian.
fn big_capture(alloc: Global) -> Result<Vec<u8>, AllocError> {
    let mut capture = Vec::from_slice(alloc, BIG_HEADER)?;
    for port in [210, 211] {
        capture.extend_from_slice(&[0, 0, 0, 0, 0, 0, 0, 0, 0, 0, 0, 38, 0, 0, 0, 38])?;
        for part in [IP4_FRAME, UDP, &to_port(port)] {
            capture.extend_from_slice(part)?;
        }
    }
    Ok(capture)
}

#[test]
fn two_packets_are_reported_in_either_order_of_bytes(rt: HostRuntime) -> Result<(), Fail> {
    let guide = guide_capture(rt.alloc())?;
    let big = big_capture(rt.alloc())?;
    reports(&rt, GUIDE, &guide, (Status::Done, TWO_PACKETS, ""))?;
    reports(&rt, GUIDE, &big, (Status::Done, TWO_PACKETS, ""))?;
    Ok(())
}

#[test]
fn of_two_rules_of_one_priority_the_earlier_wins(rt: HostRuntime) -> Result<(), Fail> {
    let guide = guide_capture(rt.alloc())?;
    let tie = [ANY, b" pri=5 data=8\n", ANY, b" pri=5 data=9\n"].concat(rt.alloc())?;
    let lines = "1 ip4 8\n2 ip4 8\npackets 2 ip4 2 ip6 0 other 0 short 0\n";
    reports(&rt, &tie, &guide, (Status::Done, lines, ""))?;
    Ok(())
}

/// A capture of a packet of each family.
fn both_families(alloc: Global) -> Result<Vec<u8>, AllocError> {
    let mut capture = Vec::from_slice(alloc, HEADER)?;
    add_record(&mut capture, &[TAGGED])?;
    add_record(&mut capture, &[FRAGMENT])?;
    Ok(capture)
}

/// A capture of a frame that is too short, and of two that hold no packet of either family.
fn no_family(alloc: Global) -> Result<Vec<u8>, AllocError> {
    let mut capture = Vec::from_slice(alloc, HEADER)?;
    add_record(&mut capture, &[&[0; 13]])?;
    add_record(
        &mut capture,
        &[&[0, 0, 0, 0, 0, 0, 0, 0, 0, 0, 0, 0, 8, 6], &[0; 46]],
    )?;
    add_record(&mut capture, &[IP4_FRAME, &[0x44], &[0; 45]])?;
    Ok(capture)
}

#[test]
fn packets_are_reported_by_their_classes(rt: HostRuntime) -> Result<(), Fail> {
    let both = both_families(rt.alloc())?;
    let others = no_family(rt.alloc())?;
    let lines = "1 ip4 1\n2 ip6 2\npackets 2 ip4 1 ip6 1 other 0 short 0\n";
    reports(&rt, BOTH, &both, (Status::Done, lines, ""))?;
    reports(&rt, b"", HEADER, (Status::Done, NO_PACKETS, ""))?;
    let lines = "1 short -\n2 other -\n3 other -\npackets 3 ip4 0 ip6 0 other 2 short 1\n";
    reports(&rt, GUIDE, &others, (Status::Done, lines, ""))?;
    Ok(())
}

#[test]
fn a_capture_that_is_cut_is_reported_up_to_there(rt: HostRuntime) -> Result<(), Fail> {
    let mut cut = udp_capture(rt.alloc(), &[to_port(210), to_port(211), to_port(210)])?;
    cut.truncate(cut.len().saturating_sub(1));
    let status = Status::CaptureRefused(CaptureFault::RecordCut(3));
    let lines = "1 ip4 1\n2 ip4 0\n";
    let err = "aclc: capture: record 3: cut\n";
    reports(&rt, GUIDE, &cut, (status, lines, err))?;
    let status = Status::CaptureRefused(CaptureFault::HeaderCut);
    let err = "aclc: capture: record 0: header cut\n";
    reports(&rt, GUIDE, &HEADER[..23], (status, "", err))?;
    Ok(())
}

#[test]
fn each_of_four_categories_has_a_verdict_of_its_own(rt: HostRuntime) -> Result<(), Fail> {
    let packets = [
        [10, 1, 1, 1, 192, 168, 1, 15, 0, 1, 0, 2],
        [192, 168, 1, 1, 192, 168, 2, 11, 0, 1, 0, 2],
        [10, 1, 1, 1, 201, 212, 111, 12, 0, 1, 0, 2],
    ];
    let capture = udp_capture(rt.alloc(), &packets)?;
    let words = &["classify", "r", "c", "categories=4"];
    let want = (
        Status::Done,
        "1 ip4 2 3 0 0\n2 ip4 1 1 0 0\n3 ip4 0 3 0 0\npackets 3 ip4 3 ip6 0 other 0 short 0\n",
        "",
        0,
    );
    expect(&rt, words, THREE, &capture, FAULTLESS, want)?;
    Ok(())
}

#[test]
fn a_rule_of_all_categories_wins_in_sixteen(rt: HostRuntime) -> Result<(), Fail> {
    let one = udp_capture(rt.alloc(), &[to_port(210)])?;
    let words = &["classify", "r", "c", "categories=16"];
    let want = (
        Status::Done,
        "1 ip4 1 1 1 1 1 1 1 1 1 1 1 1 1 1 1 1\npackets 1 ip4 1 ip6 0 other 0 short 0\n",
        "",
        0,
    );
    expect(&rt, words, ANY, &one, FAULTLESS, want)?;
    Ok(())
}
