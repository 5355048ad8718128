//! Whole commands over files in memory: printed reports, each refusal, and faults of the outside.

ghost use Rattle.std.specs.Prelude.{◌≡◌, ◌<◌};

mod audits;
mod comparisons;
mod images;
mod reports;
mod sessions;
mod tables;

use acl_outside::{MemDesk, MemFile, MemSink};
use acl_tool::{CaptureFault, Family, LineFault, LineKind, Status, UsageFault, UsageKind, run};
use flat_table::Steps;
use std::alloc::{AllocError, Global};
use std::marker::Brand;
use std::process::Abort;
use std::sync::ledger::{Blank, Ledger};
use std::test::Fail;

/// The IPv4 rule of the example in the DPDK Programmer's Guide, "Packet Classification and Access
/// Control", as ClassBench writes it, with flags and a last tab.
const GUIDE: &[u8] =
    b"@192.168.1.0/24\t192.168.2.31/32\t0 : 65535\t1234 : 1234\t0x11/0xFF\t0x0000/0x0000\t\n";

/// A rule that matches every IPv4 packet.
const ANY: &[u8] = b"@0.0.0.0/0 0.0.0.0/0 0:65535 0:65535 0x00/0x00";

/// The file header of a little-endian capture of Ethernet frames, in microseconds.
const HEADER: &[u8] = &[
    0xD4, 0xC3, 0xB2, 0xA1, 2, 0, 4, 0, 0, 0, 0, 0, 0, 0, 0, 0, 0, 0, 4, 0, 1, 0, 0, 0,
];

/// The start of an Ethernet frame that holds IPv4.
const IP4_FRAME: &[u8] = &[0, 0, 0, 0, 0, 0, 0, 0, 0, 0, 0, 0, 8, 0];

/// The start of an IPv4 header of UDP, up to the addresses.
const UDP: &[u8] = &[0x45, 0, 0, 24, 0, 0, 0, 0, 64, 17, 0, 0];

/// Puts a record of these captured bytes, below 256 of them, at the end of a capture.
fn add_record(capture: &mut Vec<u8>, captured: &[&[u8]]) -> Result<(), AllocError> {
    let len = captured.iter().fold(
        0u8,
        |len, part| len.saturating_add(part.len().min(255) as u8),
    );
    capture.extend_from_slice(&[0, 0, 0, 0, 0, 0, 0, 0, len, 0, 0, 0, len, 0, 0, 0])?;
    for part in captured {
        capture.extend_from_slice(part)?;
    }
    Ok(())
}

/// Puts a record of a UDP packet of these addresses and ports at the end of a capture.
fn add_udp(capture: &mut Vec<u8>, ends: &[u8; 12]) -> Result<(), AllocError> {
    add_record(capture, &[IP4_FRAME, UDP, ends])
}

/// From 192.168.1.5, port 5000, to 192.168.2.31 and a port of 1,024 more than this.
fn to_port(port: u8) -> [u8; 12] {
    [192, 168, 1, 5, 192, 168, 2, 31, 19, 136, 4, port]
}

/// A capture of UDP packets of these addresses and ports.
fn udp_capture(alloc: Global, all: &[[u8; 12]]) -> Result<Vec<u8>, AllocError> {
    let mut capture = Vec::from_slice(alloc, HEADER)?;
    for ends in all {
        add_udp(&mut capture, ends)?;
    }
    Ok(capture)
}

/// A capture of two UDP packets, to the ports 1234 and 1235.
fn guide_capture(alloc: Global) -> Result<Vec<u8>, AllocError> {
    udp_capture(alloc, &[to_port(210), to_port(211)])
}

/// How the outside is made for a command: how much a call moves, and the number of the call that
/// fails, 0 for none.
#[derive(Clone, Copy)]
pub(crate) struct Outside {
    read_piece: usize,
    failing_read: u64,
    put_piece: usize,
    failing_put: u64,
}

pub(crate) const FAULTLESS: Outside = Outside {
    read_piece: 1_000_000,
    failing_read: 0,
    put_piece: 100_000,
    failing_put: 0,
};

/// Adds a file of this name and these bytes.
pub(crate) fn add_file(
    alloc: Global,
    files: &mut Vec<MemFile>,
    name: &str,
    bytes: &[u8],
) -> Result<(), AllocError> {
    let name = String::from_str(alloc, name)?;
    let bytes = Vec::from_slice(alloc, bytes)?;
    files.push(MemFile { name, bytes })?;
    Ok(())
}

/// Runs the words with a counter that nobody sees.
fn run_counted<L: Ledger>(
    blank: Blank,
    alloc: Global,
    words: &[String],
    desk: &mut MemDesk,
    out: &mut MemSink,
    err: &mut MemSink,
) -> Status
    requires name { blank.name ≡ L.name }
    requires parts { blank.parts ≡ L.parts }
    requires some { 0 < blank.parts }
{
    let mut steps = Steps::<L>::new(blank);
    run(alloc, words, desk, out, err, &mut steps)
}

/// Runs the words over the files `r` and `c`, and compares the status, both outputs and the count
/// of read faults.
pub(crate) fn expect<R: Abort + AllocGlobal>(
    rt: &R,
    words: &[&str],
    rules: &[u8],
    capture: &[u8],
    outside: Outside,
    want: (Status, &str, &str, u64),
) -> Result<(), AllocError> {
    let mut desk = desk_of(rt, rules, capture, outside)?;
    let puts = (outside.put_piece, outside.failing_put);
    expect_over(rt, words, &mut desk, puts, (want.0, want.1, want.2))?;
    assert!(rt; desk.read_fault_count() == want.3);
    Ok(())
}

/// The same over a desk, but for its faults, where the output takes so many bytes in a put, and the
/// put of this number fails.
fn expect_over<R: Abort + AllocGlobal>(
    rt: &R,
    words: &[&str],
    desk: &mut MemDesk,
    (put_piece, failing_put): (usize, u64),
    (status, printed, told): (Status, &str, &str),
) -> Result<(), AllocError> {
    let mut out = sink(rt, put_piece, failing_put)?;
    let mut err = sink(rt, 1000, 0)?;
    let ended = run_words(rt.alloc(), words, desk, &mut out, &mut err)?;
    assert_ended(rt, ended, status);
    assert_printed(rt, &out, &err, printed, told);
    Ok(())
}

/// Compares the statuses.
pub(crate) fn assert_ended(rt: &impl Abort, ended: Status, status: Status) {
    assert!(rt; ended == status);
}

/// A desk over the files `r` and `c`.
fn desk_of<R: Abort + AllocGlobal>(
    rt: &R,
    rules: &[u8],
    capture: &[u8],
    outside: Outside,
) -> Result<MemDesk, AllocError> {
    let alloc = rt.alloc();
    let mut files = Vec::new(alloc);
    add_file(alloc, &mut files, "r", rules)?;
    add_file(alloc, &mut files, "c", capture)?;
    assert!(rt; outside.read_piece > 0 && MemDesk::has_distinct_names(&files));
    let failing = Vec::from_slice(alloc, &[outside.failing_read])?;
    MemDesk::new(
        alloc,
        files,
        outside.read_piece,
        0,
        failing,
        Vec::new(alloc),
    )
}

/// A sink that takes so many bytes in a put, and whose put of this number fails.
pub(crate) fn sink<R: Abort + AllocGlobal>(
    rt: &R,
    piece: usize,
    failing: u64,
) -> Result<MemSink, AllocError> {
    assert!(rt; piece > 0);
    let failing = Vec::from_slice(rt.alloc(), &[failing])?;
    MemSink::new(rt.alloc(), 50_000, piece, failing)
}

/// Compares what was printed and what was told.
pub(crate) fn assert_printed(
    rt: &impl Abort,
    out: &MemSink,
    err: &MemSink,
    printed: &str,
    told: &str,
) {
    assert!(rt; out.bytes() == printed.as_bytes());
    assert!(rt; err.bytes() == told.as_bytes());
}

/// Runs one command.
pub(crate) fn run_words(
    alloc: Global,
    words: &[&str],
    desk: &mut MemDesk,
    out: &mut MemSink,
    err: &mut MemSink,
) -> Result<Status, AllocError> {
    let owned = owned_words(alloc, words)?;
    Ok(run_counted::<Brand>(Blank::new(1), alloc, &owned, desk, out, err))
}

/// The words, each with memory of its own.
fn owned_words(alloc: Global, words: &[&str]) -> Result<Vec<String>, AllocError> {
    let mut owned = Vec::new(alloc);
    for word in words {
        owned.push(String::from_str(alloc, word)?)?;
    }
    Ok(owned)
}

const CLASSIFY: &[&str] = &["classify", "r", "c"];

const TWO_PACKETS: &str = "1 ip4 1\n2 ip4 0\npackets 2 ip4 2 ip6 0 other 0 short 0\n";

/// The usage fault at a word.
fn usage(word: u32, kind: UsageKind) -> Status
    ensures { result ≡ Status.Usage (record { word = word; kind = kind }) }
{
    Status::Usage(UsageFault { word, kind })
}

/// The status of an IPv4 table that is too large.
fn too_large(words: u64, budget: u64) -> Status {
    Status::TooLarge {
        family: Family::Ip4,
        words,
        budget,
    }
}

#[test]
fn words_are_refused_from_left_to_right(rt: HostRuntime) -> Result<(), Fail> {
    let unknown = usage(4, UsageKind::UnknownOption);
    let unknown_option = "aclc: usage: word 4: unknown option\n";
    let cases: [(&[&str], Status, &str); 7] = [
        (
            &[],
            usage(1, UsageKind::MissingCommand),
            "aclc: usage: word 1: missing command\n",
        ),
        (
            &["--help"],
            usage(1, UsageKind::UnknownCommand),
            "aclc: usage: word 1: unknown command\n",
        ),
        (
            &["classify", "r"],
            usage(3, UsageKind::MissingName),
            "aclc: usage: word 3: missing name\n",
        ),
        (&["build", "r", "i", "stats=on"], unknown, unknown_option),
        (&["classify", "r", "c", "c"], unknown, unknown_option),
        (
            &["classify", "r", "c", "stats=on", "stats=off"],
            usage(5, UsageKind::RepeatedOption),
            "aclc: usage: word 5: repeated option\n",
        ),
        (
            &["classify", "r", "c", "categories=4", "categories=2"],
            usage(5, UsageKind::RepeatedOption),
            "aclc: usage: word 5: repeated option\n",
        ),
    ];
    for (words, status, err) in cases {
        expect(&rt, words, GUIDE, HEADER, FAULTLESS, (status, "", err, 0))?;
    }
    Ok(())
}

#[test]
fn an_option_with_a_bad_value_is_refused(rt: HostRuntime) -> Result<(), Fail> {
    let bad_value = usage(4, UsageKind::BadValue);
    let want = (bad_value, "", "aclc: usage: word 4: bad value\n", 0);
    let options = [
        "categories=2",
        "categories=000000000000000000004",
        "max-words=0",
        "max-words=67108865",
        "max-words=",
        "stats=yes",
    ];
    for option in options {
        let words = &["classify", "r", "c", option];
        expect(&rt, words, GUIDE, HEADER, FAULTLESS, want)?;
    }
    Ok(())
}

#[test]
fn rules_and_files_are_refused_by_their_names(rt: HostRuntime) -> Result<(), Fail> {
    let empty_range = Status::RulesRefused(LineFault {
        line: 2,
        kind: LineKind::EmptyRange,
    });
    let mixed = Status::RulesRefused(LineFault {
        line: 1,
        kind: LineKind::MixedFamilies,
    });
    let range = [ANY, b"\n@0.0.0.0/0 0.0.0.0/0 20 : 10 0:65535 0x00/0x00\n"].concat(rt.alloc())?;
    let missing = "aclc: read fault\n";
    let cases: [(&[&str], &[u8], Status, &str); 4] = [
        (&["classify", "x", "c"], GUIDE, Status::ReadFault, missing),
        (&["classify", "r", "x"], GUIDE, Status::ReadFault, missing),
        (
            CLASSIFY,
            &range,
            empty_range,
            "aclc: rules: line 2: empty range\n",
        ),
        (
            CLASSIFY,
            b"@10.0.0.0/8 ::/0 0:65535 0:65535 0x00/0x00\n",
            mixed,
            "aclc: rules: line 1: mixed families\n",
        ),
    ];
    for (words, rules, status, err) in cases {
        expect(&rt, words, rules, HEADER, FAULTLESS, (status, "", err, 0))?;
    }
    Ok(())
}

#[test]
fn faults_of_the_outside_end_the_command(rt: HostRuntime) -> Result<(), Fail> {
    let capture = guide_capture(rt.alloc())?;
    let slow = Outside {
        read_piece: 1,
        put_piece: 3,
        ..FAULTLESS
    };
    let unread = Outside {
        failing_read: 3,
        ..slow
    };
    let unput = Outside {
        failing_put: 2,
        ..slow
    };
    let cases = [
        (unread, Status::ReadFault, "", "aclc: read fault\n", 1),
        (unput, Status::WriteFault, "1 i", "aclc: write fault\n", 0),
        (slow, Status::Done, TWO_PACKETS, "", 0),
    ];
    for (outside, status, out, err, read_faults) in cases {
        expect(
            &rt,
            CLASSIFY,
            GUIDE,
            &capture,
            outside,
            (status, out, err, read_faults),
        )?;
    }
    Ok(())
}

/// The lines of so many packets of verdict 1.
fn lines_of(alloc: Global, count: u32) -> Result<String, Fail> {
    let mut lines = String::new(alloc);
    for place in 0..count {
        let number = u64::from(place) + 1;
        lines.push_str(&format!(in alloc; "{number} ip4 1\n")?)?;
    }
    Ok(lines)
}

/// A capture of so many packets to the port 1234.
fn long_capture(alloc: Global, count: u32) -> Result<Vec<u8>, AllocError> {
    let mut capture = Vec::from_slice(alloc, HEADER)?;
    for _ in 0..count {
        add_udp(&mut capture, &to_port(210))?;
    }
    Ok(capture)
}

#[test]
fn lines_are_put_before_the_next_batch_is_read(rt: HostRuntime) -> Result<(), Fail> {
    let mut capture = long_capture(rt.alloc(), 131)?;
    capture.truncate(capture.len().saturating_sub(1));
    // Call 1 opens the rule file, calls 2 and 3 read it to its end, call 4 opens the capture and
    // call 5 reads its header. Each record takes two calls more, so that this one is for the 50th
    // record of the second batch.
    let unread = Outside {
        failing_read: 5 + 2 * (64 + 50),
        ..FAULTLESS
    };
    let unput = Outside {
        failing_put: 2,
        ..FAULTLESS
    };
    let cut = Status::CaptureRefused(CaptureFault::RecordCut(131));
    let cases: [(Outside, Status, u32, &str, u64); 3] = [
        (FAULTLESS, cut, 130, "aclc: capture: record 131: cut\n", 0),
        (unread, Status::ReadFault, 64 + 49, "aclc: read fault\n", 1),
        (unput, Status::WriteFault, 64, "aclc: write fault\n", 0),
    ];
    for (outside, status, count, err, read_faults) in cases {
        let out = lines_of(rt.alloc(), count)?;
        let want = (status, out.as_str(), err, read_faults);
        expect(&rt, CLASSIFY, GUIDE, &capture, outside, want)?;
    }
    Ok(())
}
