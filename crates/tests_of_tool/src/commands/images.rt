//! Whole commands over files in memory: images that are made, replayed and refused.

use crate::commands::{
    ANY, GUIDE, HEADER, add_file, add_udp, assert_ended, assert_printed, run_words, sink, to_port,
};
use acl_outside::{MemDesk, MemSink};
use acl_tool::{Family, ImageFault, ImageKind, Status};
use std::alloc::{AllocError, Global};
use std::process::Abort;
use std::test::Fail;

/// The first bytes of the image of [`ANY`]: magic, version, family, rules, tries, rows, the kept
/// groups, one level of one word, the root and the word.
const START: &[u8] = &[
    0x41, 0x43, 0x4C, 0x54, 0, 0, 0, 2, 0, 0, 0, 4, 0, 0, 0, 1, 0, 0, 0, 1, 0, 0, 0, 1, 0, 0, 0, 1,
    0, 0, 0, 1, 0, 0, 0, 0, 0x20, 0, 0, 0, 0, 0, 0, 0, 0x80, 0, 0, 1,
];

/// Its last bytes: the table of no IPv6 rules.
const END: &[u8] = &[0, 0, 0, 6, 0, 0, 0, 0, 0, 0, 0, 0, 0, 0, 0, 0];

/// The image of [`ANY`], 192 bytes: between start and end stands its row, in which rank and
/// userdata are 1 in each category.
fn any_image(alloc: Global) -> Result<Vec<u8>, AllocError> {
    let mut image = Vec::from_slice(alloc, START)?;
    for _ in 0..16 {
        image.extend_from_slice(&[0, 0, 0, 1, 0, 0, 0, 1])?;
    }
    image.extend_from_slice(END)?;
    Ok(image)
}

/// A status, what is printed, the bytes of the file `i` afterwards, and the count of write faults.
type Want<'a> = (Status, &'a str, &'a str, &'a [u8], u64);

/// Runs commands one after the other over the files `r`, `c` and `i`, where the write-side call of
/// this number fails, and compares what came of them: the last status, all that was printed, and
/// the file `i`, where it is to be compared.
fn expect_image<R: Abort + AllocGlobal>(
    rt: &R,
    commands: &[&[&str]],
    files: (&[u8], &[u8], &[u8]),
    failing_write: u64,
    want: Want<'_>,
) -> Result<(), AllocError> {
    let mut desk = image_desk(rt, files, failing_write)?;
    expect_over(rt, commands, &mut desk, (want.0, want.1, want.2))?;
    assert_image(rt, &desk, want.3, want.4);
    Ok(())
}

/// The same over a desk, but for the file `i` and its faults.
fn expect_over<R: Abort + AllocGlobal>(
    rt: &R,
    commands: &[&[&str]],
    desk: &mut MemDesk,
    (status, printed, told): (Status, &str, &str),
) -> Result<(), AllocError> {
    let mut out = sink(rt, 100_000, 0)?;
    let mut err = sink(rt, 1000, 0)?;
    let ended = run_all(rt.alloc(), commands, desk, &mut out, &mut err)?;
    assert_ended(rt, ended, status);
    assert_printed(rt, &out, &err, printed, told);
    Ok(())
}

/// A desk over the files `r`, `c` and `i`, whose write-side call of this number fails.
fn image_desk<R: Abort + AllocGlobal>(
    rt: &R,
    (rules, capture, image): (&[u8], &[u8], &[u8]),
    failing_write: u64,
) -> Result<MemDesk, AllocError> {
    let alloc = rt.alloc();
    let mut files = Vec::new(alloc);
    add_file(alloc, &mut files, "r", rules)?;
    add_file(alloc, &mut files, "c", capture)?;
    add_file(alloc, &mut files, "i", image)?;
    assert!(rt; MemDesk::has_distinct_names(&files));
    let failing = Vec::from_slice(alloc, &[failing_write])?;
    MemDesk::new(alloc, files, 100_000, 10_000, Vec::new(alloc), failing)
}

/// Compares the file `i`, where it is to be compared, and the count of write faults.
fn assert_image(rt: &impl Abort, desk: &MemDesk, image: &[u8], faults: u64) {
    assert!(rt; image.is_empty() || desk.file("i").unwrap_or(b"") == image);
    assert!(rt; desk.write_fault_count() == faults);
}

/// Runs the commands one after the other, and gives the last status.
fn run_all(
    alloc: Global,
    commands: &[&[&str]],
    desk: &mut MemDesk,
    out: &mut MemSink,
    err: &mut MemSink,
) -> Result<Status, AllocError> {
    let mut status = Status::Done;
    for words in commands {
        status = run_words(alloc, words, desk, out, err)?;
    }
    Ok(status)
}

const BUILD: &[&str] = &["build", "r", "i"];

#[test]
fn an_image_is_made_whole_or_a_prefix_of_it(rt: HostRuntime) -> Result<(), Fail> {
    let image = any_image(rt.alloc())?;
    let fault = "aclc: write fault\n";
    let large = "aclc: ip4 table too large: words 33 budget 32\n";
    let refused = Status::TooLarge {
        family: Family::Ip4,
        words: 33,
        budget: 32,
    };
    // Call 1 creates the file, call 2 writes it, and call 3 finishes it. No file is created for
    // rules that are too large.
    let cases: [(&str, u64, Status, &str, &[u8], u64); 5] = [
        ("max-words=33", 1, Status::WriteFault, fault, b"before", 1),
        ("max-words=33", 2, Status::WriteFault, fault, b"", 1),
        ("max-words=33", 3, Status::WriteFault, fault, &image, 1),
        ("max-words=33", 4, Status::Done, "", &image, 0),
        ("max-words=32", 1, refused, large, b"before", 0),
    ];
    for (budget, failing_write, status, err, bytes, faults) in cases {
        let commands: &[&[&str]] = &[&["build", "r", "i", budget]];
        let want = (status, "", err, bytes, faults);
        expect_image(&rt, commands, (ANY, b"", b"before"), failing_write, want)?;
    }
    Ok(())
}

const REPLAY: &[&str] = &["replay", "i", "c", "stats=on"];

/// The image of [`ANY`] with a byte 0 after it, as far as `len` bytes, of which the one at the
/// place is another.
fn changed_image(alloc: Global, len: usize, at: usize, byte: u8) -> Result<Vec<u8>, AllocError> {
    let mut image = any_image(alloc)?;
    image.push(0)?;
    image.truncate(len);
    if let Some(changed) = image.get_mut(at) {
        *changed = byte;
    }
    Ok(image)
}

/// The image is refused for this fault, which is told so.
fn refuses<R: Abort + AllocGlobal>(
    rt: &R,
    image: &[u8],
    fault: ImageFault,
    told: &str,
) -> Result<(), AllocError> {
    let err = format!(in rt.alloc(); "aclc: image: {told}\n")?;
    let want = (Status::ImageRefused(fault), "", err.as_str(), image, 0);
    expect_image(rt, &[REPLAY], (b"", HEADER, image), 0, want)
}

#[test]
fn an_image_is_refused_by_its_first_failing_check(rt: HostRuntime) -> Result<(), Fail> {
    // How many bytes there are, the byte that is changed, the place that is told, and the kind.
    let cases: [(usize, usize, u8, u64, ImageKind, &str); 8] = [
        (193, 0, 0x41, 192, ImageKind::Trailing, "byte 192: trailing"),
        (191, 0, 0x41, 188, ImageKind::Length, "byte 188: length"),
        (0, 0, 0, 0, ImageKind::Length, "byte 0: length"),
        (192, 0, 0x42, 0, ImageKind::Magic, "byte 0: magic"),
        (192, 7, 3, 4, ImageKind::Version, "byte 4: version"),
        (
            192,
            27,
            0,
            24,
            ImageKind::KeptGroups,
            "byte 24: kept groups",
        ),
        (192, 47, 2, 40, ImageKind::Unsound, "byte 40: unsound"),
        (192, 51, 2, 48, ImageKind::RowForm, "byte 48: row form"),
    ];
    for (len, at, byte, place, kind, told) in cases {
        let image = changed_image(rt.alloc(), len, at, byte)?;
        refuses(&rt, &image, ImageFault { place, kind }, told)?;
    }
    Ok(())
}

/// What is printed of 17 packets by the rule of the guide, which the eighth of them matches.
const SEVENTEEN: &str = "1 ip4 0\n2 ip4 0\n3 ip4 0\n4 ip4 0\n5 ip4 0\n6 ip4 0\n7 ip4 0\n8 ip4 1
9 ip4 0\n10 ip4 0\n11 ip4 0\n12 ip4 0\n13 ip4 0\n14 ip4 0\n15 ip4 0\n16 ip4 0\n17 ip4 0
packets 17 ip4 17 ip6 0 other 0 short 0
ip4 rules 1 tries 1 words 85\nip6 rules 0 tries 0 words 16\ntransitions 221\n";

#[test]
fn an_image_prints_what_its_rules_print_by_either_walk(rt: HostRuntime) -> Result<(), Fail> {
    // To the ports 1227 to 1243, of which the eighth is the guide's.
    let mut capture = Vec::from_slice(rt.alloc(), HEADER)?;
    for port in 203..220 {
        add_udp(&mut capture, &to_port(port))?;
    }
    // The default walk is the scalar one, and both print the same.
    let cases: [&[&[&str]]; 5] = [
        &[BUILD, REPLAY],
        &[BUILD, &["replay", "i", "c", "stats=on", "walk=lanes"]],
        &[&["classify", "r", "c", "stats=on"]],
        &[&["classify", "r", "c", "stats=on", "walk=scalar"]],
        &[&["classify", "r", "c", "stats=on", "walk=lanes"]],
    ];
    for commands in cases {
        let want: Want<'_> = (Status::Done, SEVENTEEN, "", b"", 0);
        expect_image(&rt, commands, (GUIDE, &capture, b""), 0, want)?;
    }
    Ok(())
}
