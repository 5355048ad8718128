//! `bench` as a whole command. The hits and the sum of 64 rules were counted by a program of their
//! own, which reads a workload's words as PCG's C library prints them.

use crate::commands::{FAULTLESS, assert_ended, expect, run_words, sink};
use acl_outside::MemDesk;
use acl_tool::{Status, UsageFault, UsageKind};
use std::alloc::AllocError;
use std::process::Abort;
use std::test::Fail;

const NO_SEED: &str = "aclc: usage: word 2: missing name\n";

const BAD_SEED: &str = "aclc: usage: word 2: bad value\n";

/// What the words print, without any file.
fn printed<R: Abort + AllocGlobal>(rt: &R, words: &[&str]) -> Result<Vec<u8>, AllocError> {
    let alloc = rt.alloc();
    let (files, none) = (Vec::new(alloc), Vec::new(alloc));
    let mut desk = MemDesk::new(alloc, files, 1, 0, none, Vec::new(alloc))?;
    printed_over(rt, words, &mut desk)
}

/// What the words print over a desk.
fn printed_over<R: Abort + AllocGlobal>(
    rt: &R,
    words: &[&str],
    desk: &mut MemDesk,
) -> Result<Vec<u8>, AllocError> {
    let mut out = sink(rt, 1000, 0)?;
    let mut err = sink(rt, 1000, 0)?;
    let status = run_words(rt.alloc(), words, desk, &mut out, &mut err)?;
    assert_ended(rt, status, Status::Done);
    Vec::from_slice(rt.alloc(), out.bytes())
}

#[test]
fn a_workload_has_four_lines(rt: HostRuntime) -> Result<(), Fail> {
    let cases: [(&[&str], &str); 2] = [
        (
            &["bench", "1", "0", "3"],
            "rules 0 packets 3\nplain hits 0 sum 0\ntable hits 0 sum 0\ntries 0 words 16\n",
        ),
        (
            &["bench", "42", "1", "0"],
            "rules 1 packets 0\nplain hits 0 sum 0\ntable hits 0 sum 0\ntries 1 words 77\n",
        ),
    ];
    for (words, text) in cases {
        expect(&rt, words, b"", b"", FAULTLESS, (Status::Done, text, "", 0))?;
    }
    Ok(())
}

/// The hits and the sum are those that were counted, each time.
fn assert_alike(rt: &impl Abort, first: &[u8], second: &[u8]) {
    let lines = b"rules 64 packets 500
plain hits 2881 sum 90856
table hits 2881 sum 90856
tries ";
    assert!(rt; first.starts_with(lines));
    assert!(rt; first == second);
}

#[test]
fn filter_and_table_agree_on_drawn_packets_each_time(rt: HostRuntime) -> Result<(), Fail> {
    let words: &[&str] = &["bench", "42", "64", "500"];
    let first = printed(&rt, words)?;
    let second = printed(&rt, words)?;
    assert_alike(&rt, &first, &second);
    Ok(())
}

#[test]
fn numbers_are_refused_from_left_to_right(rt: HostRuntime) -> Result<(), Fail> {
    let (missing, bad) = (UsageKind::MissingName, UsageKind::BadValue);
    let cases: [(&[&str], u32, UsageKind, &str); 6] = [
        (&["bench"], 2, missing, NO_SEED),
        (&["bench", "x"], 2, bad, BAD_SEED),
        (
            &["bench", "18446744073709551616", "1", "1"],
            2,
            bad,
            BAD_SEED,
        ),
        (
            &["bench", "1", "1025", "0"],
            3,
            bad,
            "aclc: usage: word 3: bad value\n",
        ),
        (
            &["bench", "1", "1", "65537"],
            4,
            bad,
            "aclc: usage: word 4: bad value\n",
        ),
        (
            &["bench", "1", "1", "1", "stats=on"],
            5,
            UsageKind::UnknownOption,
            "aclc: usage: word 5: unknown option\n",
        ),
    ];
    for (words, word, kind, line) in cases {
        let status = Status::Usage(UsageFault { word, kind });
        expect(&rt, words, b"", b"", FAULTLESS, (status, "", line, 0))?;
    }
    Ok(())
}
