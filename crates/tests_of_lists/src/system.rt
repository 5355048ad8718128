//! The program over files of the system.

use crate::lists::{SAVED, SAVED_LINES};
use list_tool::AclcLists;
use program_edge::run_over;
use std::alloc::{AllocError, Global};
use std::fs;
use std::process::{Abort, ExitCode};
use std::rt::Files;
use std::test::Fail;

fn strings(alloc: Global, all: &[&str]) -> Result<Vec<String>, AllocError> {
    let mut words = Vec::new(alloc);
    for word in all {
        words.push(String::from_str(alloc, word)?)?;
    }
    Ok(words)
}

/// Runs the program with all these words over new files as its streams, and compares its code and
/// what it put to standard output and to standard error.
fn ends<R: Abort + AllocGlobal + Files>(
    rt: &R,
    all: &[&str],
    code: u8,
    printed: &str,
    told: &str,
) -> Result<(), Fail> {
    let all = strings(rt.alloc(), all)?;
    let out = fs::create(rt, "lists_test.out")?;
    let err = fs::create(rt, "lists_test.err")?;
    let (ended, _, _) = run_over(&mut AclcLists, rt, rt.alloc(), Some(all), out, err);
    assert!(rt; ended == ExitCode::from(code));
    assert!(rt; fs::read(rt, "lists_test.out")?.as_slice() == printed.as_bytes());
    assert!(rt; fs::read(rt, "lists_test.err")?.as_slice() == told.as_bytes());
    Ok(())
}

#[test]
fn a_list_of_a_file_comes_to_its_rule_file(rt: HostRuntime) -> Result<(), Fail> {
    fs::write(&rt, "lists_test.list", SAVED.as_bytes())?;
    let words = ["aclc-lists", "iptables", "lists_test.list", "INPUT"];
    ends(&rt, &words, 0, SAVED_LINES, "")?;
    let words = ["aclc-lists", "iptables", "lists_test.list", "NONE"];
    ends(
        &rt,
        &words,
        3,
        "",
        "aclc-lists: list: line 0: no such chain\n",
    )?;
    let words = ["aclc-lists", "iptables", "lists_no_such.list", "INPUT"];
    ends(
        &rt,
        &words,
        7,
        "",
        "aclc-lists: lists_no_such.list: read fault\n",
    )?;
    ends(
        &rt,
        &[],
        2,
        "",
        "aclc-lists: usage: word 1: missing command\n",
    )?;
    for name in ["lists_test.list", "lists_test.out", "lists_test.err"] {
        fs::remove_file(&rt, name)?;
    }
    Ok(())
}
