//! How runs end: rule files, refusals, and words that ask for nothing.

use crate::lists::{
    ROUTER, ROUTER_LINES, RULESET, RULESET_LINES, SAVED, SAVED_LINES, SAVED_VERDICTS, SAVED6,
    SAVED6_LINES,
};
use crate::runs::expect;
use std::test::Fail;

#[test]
fn a_list_of_each_form_comes_to_its_rule_file(rt: HostRuntime) -> Result<(), Fail> {
    let cases: [(&[&str], &str, &str); 5] = [
        (&["iptables", "list", "INPUT"], SAVED, SAVED_LINES),
        (
            &["iptables", "list", "INPUT", "data=verdict"],
            SAVED,
            SAVED_VERDICTS,
        ),
        (&["ip6tables", "list", "FORWARD"], SAVED6, SAVED6_LINES),
        (&["cisco", "list", "EDGE"], ROUTER, ROUTER_LINES),
        (&["nft", "list", "in"], RULESET, RULESET_LINES),
    ];
    for (words, list, rules) in cases {
        let want = (0, rules.as_bytes(), b"" as &[u8], [0; 4]);
        expect(&rt, words, list.as_bytes(), [0; 3], want)?;
    }
    Ok(())
}

/// The words of a run, its list, and what is told after the program's name.
type Refused = (&'static [&'static str], &'static str, &'static str);

const LIMITED: &str =
    "*filter\n:INPUT ACCEPT [0:0]\n-A INPUT -m limit --limit 3/sec -j ACCEPT\nCOMMIT\n";

const REFUSED: [Refused; 7] = [
    (
        &["iptables", "list", "WEB"],
        SAVED,
        "list: line 0: chain without a policy",
    ),
    (
        &["iptables", "list", "NONE"],
        SAVED,
        "list: line 0: no such chain",
    ),
    (
        &["ip6tables", "list", "INPUT"],
        SAVED,
        "list: line 6: bad address\n  -A WEB -s 10.0.0.0/8 -j ACCEPT",
    ),
    (
        &["iptables", "list", "INPUT"],
        LIMITED,
        "list: line 3: matches what no rule file says\n  -A INPUT -m limit --limit 3/sec -j ACCEPT",
    ),
    (
        &["nft", "list", "in"],
        SAVED,
        "list: object 0: no JSON in UTF-8",
    ),
    (
        &["nft", "list", "out"],
        RULESET,
        "list: object 0: no base chain of this name",
    ),
    (
        &["cisco", "list", "INSIDE"],
        ROUTER,
        "list: line 3: no such list",
    ),
];

#[test]
fn what_no_rule_file_says_is_refused_by_its_place(rt: HostRuntime) -> Result<(), Fail> {
    for (words, list, cause) in REFUSED {
        let told = told(&rt, cause)?;
        let want = (3, b"" as &[u8], told.as_slice(), [0; 4]);
        expect(&rt, words, list.as_bytes(), [0; 3], want)?;
    }
    Ok(())
}

/// So many times the letter a.
fn letters(text: &mut Vec<u8>, count: usize) -> Result<(), Fail> {
    for _ in 0..count {
        text.push(b'a')?;
    }
    Ok(())
}

#[test]
fn a_refused_line_is_shown_up_to_its_100th_byte_as_ascii(rt: HostRuntime) -> Result<(), Fail> {
    let alloc = rt.alloc();
    let words: &[&str] = &["iptables", "list", "INPUT"];
    // A line of 10 bytes, among them an escape, a tab and a letter of two bytes, and so many more.
    for (more, end) in [(0, "\n"), (90, "\n"), (91, "..\n")] {
        let mut list = Vec::from_slice(alloc, b"*filter\n:INPUT ACCEPT [0:0]\n")?;
        list.extend_from_slice(b"-X \x1b[2J\t\xc3\xbc")?;
        letters(&mut list, more)?;
        list.extend_from_slice(b"\nCOMMIT\n")?;
        let mut told = Vec::from_slice(alloc, b"aclc-lists: list: line 3: no -A\n  -X ?[2J???")?;
        letters(&mut told, more.min(90))?;
        told.extend_from_slice(end.as_bytes())?;
        let want = (3, b"" as &[u8], told.as_slice(), [0; 4]);
        expect(&rt, words, &list, [0; 3], want)?;
    }
    Ok(())
}

#[test]
fn words_that_ask_for_nothing_read_no_list(rt: HostRuntime) -> Result<(), Fail> {
    let cases: [(&[&str], &str); 5] = [
        (&[], "usage: word 1: missing command"),
        (&["ipfw"], "usage: word 1: unknown command"),
        (&["iptables"], "usage: word 2: missing name"),
        (
            &["iptables", "list", "INPUT", "data=7"],
            "usage: word 4: bad value",
        ),
        (
            &["iptables", "list", "INPUT", "data=line", "data=line"],
            "usage: word 5: repeated option",
        ),
    ];
    for (words, cause) in cases {
        let told = told(&rt, cause)?;
        let want = (2, b"" as &[u8], told.as_slice(), [0; 4]);
        expect(&rt, words, SAVED.as_bytes(), [0; 3], want)?;
    }
    Ok(())
}

/// The line that names the cause.
fn told<R: AllocGlobal>(rt: &R, cause: &str) -> Result<Vec<u8>, Fail> {
    let mut line = Vec::from_slice(rt.alloc(), b"aclc-lists: ")?;
    line.extend_from_slice(cause.as_bytes())?;
    line.push(b'\n')?;
    Ok(line)
}
