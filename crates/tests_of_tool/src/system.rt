//! The program over files of the system, the words that the system gives, and closed streams.

ghost use Rattle.std.specs.Prelude.{◌≡◌, ◌<◌};

use acl_outside::{held_stream, system_words};
use acl_tool::Aclc;
use program_edge::run_over;
use std::alloc::{AllocError, Global};
use std::env::FillError;
use std::fs;
use std::marker::Brand;
use std::process::{Abort, ExitCode};
use std::rt::{Env, Files};
use std::sync::ledger::{Blank, Ledger};
use std::test::Fail;

/// The guide's rule, and two packets of which the first matches it.
const RULES: &[u8] = b"@192.168.1.0/24\t192.168.2.31/32\t0 : 65535\t1234 : 1234\t0x11/0xFF\n";

const CAPTURE: &[u8] = b"\xd4\xc3\xb2\xa1\x02\x00\x04\x00\x00\x00\x00\x00\x00\x00\x00\x00\
\x00\x00\x04\x00\x01\x00\x00\x00\x00\x00\x00\x00\x00\x00\x00\x00\
\x26\x00\x00\x00\x26\x00\x00\x00\x00\x00\x00\x00\x00\x00\x00\x00\
\x00\x00\x00\x00\x08\x00\x45\x00\x00\x18\x00\x00\x00\x00\x40\x11\
\x00\x00\xc0\xa8\x01\x05\xc0\xa8\x02\x1f\x13\x88\x04\xd2\x00\x00\
\x00\x00\x00\x00\x00\x00\x26\x00\x00\x00\x26\x00\x00\x00\x00\x00\
\x00\x00\x00\x00\x00\x00\x00\x00\x00\x00\x08\x00\x45\x00\x00\x18\
\x00\x00\x00\x00\x40\x11\x00\x00\xc0\xa8\x01\x05\xc0\xa8\x02\x1f\
\x13\x88\x04\xd3";

fn strings(alloc: Global, all: &[&str]) -> Result<Vec<String>, AllocError> {
    let mut words = Vec::new(alloc);
    for word in all {
        words.push(String::from_str(alloc, word)?)?;
    }
    Ok(words)
}

/// Runs the program with all these words over the files that `rt` opens and these as its streams.
fn run_counted<R: AllocGlobal + Files, L: Ledger>(
    blank: Blank,
    rt: &R,
    all: Vec<String>,
    out: R::File,
    err: R::File,
) -> ExitCode
    requires name { blank.name ≡ L.name }
    requires parts { blank.parts ≡ L.parts }
    requires some { 0 < blank.parts }
{
    let mut aclc = Aclc::<L>::new(blank);
    let (code, _, _) = run_over(&mut aclc, rt, rt.alloc(), Some(all), out, err);
    code
}

/// Runs the program with all these words over new files as its streams, and compares its code and
/// what it put to standard output and to standard error.
fn ends<R: Abort + AllocGlobal + Files>(
    rt: &R,
    all: &[&str],
    code: u8,
    printed: &str,
    told: &str,
) -> Result<(), Fail> {
    let all = strings(rt.alloc(), all)?;
    let out = fs::create(rt, "aclc_test.out")?;
    let err = fs::create(rt, "aclc_test.err")?;
    let ended = run_counted::<R, Brand>(Blank::new(1), rt, all, out, err);
    assert!(rt; ended == ExitCode::from(code));
    assert!(rt; fs::read(rt, "aclc_test.out")?.as_slice() == printed.as_bytes());
    assert!(rt; fs::read(rt, "aclc_test.err")?.as_slice() == told.as_bytes());
    Ok(())
}

#[test]
fn the_guides_example_is_printed_as_it_is_shipped(rt: HostRuntime) -> Result<(), Fail> {
    fs::write(&rt, "aclc_test.rules", RULES)?;
    fs::write(&rt, "aclc_test.pcap", CAPTURE)?;
    // All words, of which the first is the program's name, the code, and what standard output and
    // standard error have then.
    let cases: [(&[&str], u8, &str, &str); 4] = [
        (
            &["aclc", "classify", "aclc_test.rules", "aclc_test.pcap"],
            0,
            "1 ip4 1\n2 ip4 0\npackets 2 ip4 2 ip6 0 other 0 short 0\n",
            "",
        ),
        (
            &["aclc", "classify", "aclc_test.rules", "aclc_test.pcap", ""],
            2,
            "",
            "aclc: usage: word 4: unknown option\n",
        ),
        (
            &["aclc", "classify", "aclc_test.rules", "aclc_no_such.pcap"],
            7,
            "",
            "aclc: read fault\n",
        ),
        (&[], 2, "", "aclc: usage: word 1: missing command\n"),
    ];
    for (all, code, printed, told) in cases {
        ends(&rt, all, code, printed, told)?;
    }
    for name in [
        "aclc_test.rules",
        "aclc_test.pcap",
        "aclc_test.out",
        "aclc_test.err",
    ] {
        fs::remove_file(&rt, name)?;
    }
    Ok(())
}

/// A system whose command line has these words.
#[derive(Drop)]
struct CommandLine<'a>(&'a [&'a [u8]]);

impl<'a> Env for CommandLine<'a> {
    fn arg(&self, place: usize, buf: &mut [u8]) -> Result<usize, FillError> {
        match self.0.get(place) {
            Some(word) if word.len() <= buf.len() => {
                buf[..word.len()].copy_from_slice(word);
                Ok(word.len())
            }
            Some(_) => Err(FillError::TooLong),
            None => Err(FillError::NotPresent),
        }
    }

    fn var(&self, _name: &str, _buf: &mut [u8]) -> Result<usize, FillError> {
        Err(FillError::NotPresent)
    }

    fn var_at(&self, _place: usize, _buf: &mut [u8]) -> Result<usize, FillError> {
        Err(FillError::NotPresent)
    }
}

#[test]
fn all_words_are_had_and_none_where_one_is_no_text(rt: HostRuntime) {
    let six: &[&[u8]] = &[b"aclc", b"classify", b"r", b"c", b"marks=on", b""];
    for count in 0..7usize {
        let words = system_words(&(CommandLine(&six[..count]), rt.alloc()));
        assert!(rt; words.map(|all| all.len()) == Some(count));
    }
    let latin: &[&[u8]] = &[b"aclc", b"classify", b"r\xe8gles", b"c"];
    assert!(rt; system_words(&(CommandLine(latin), rt.alloc())).is_none());
}

#[test]
fn a_stream_that_is_open_is_not_held(rt: HostRuntime) {
    assert!(rt; held_stream(&rt).is_none());
}
