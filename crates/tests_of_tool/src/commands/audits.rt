//! Whole commands over rule files in memory: which rules ever win.

use crate::commands::{ANY, FAULTLESS, expect, too_large, usage};
use acl_tool::{LineFault, LineKind, Status, UsageKind};
use std::test::Fail;

/// A rule that matches every packet from 10.0.0.0/8.
const FROM_TEN: &[u8] = b"@10.0.0.0/8 0.0.0.0/0 0:65535 0:65535 0x00/0x00";

/// A rule of every IPv6 packet in categories 1 and 12, and one of every IPv4 packet in 0 and 15.
const SOME_CATEGORIES: &[u8] = b"@::/0 ::/0 0:65535 0:65535 0x00/0x00 cat=0x1002 data=0
@0.0.0.0/0 0.0.0.0/0 0:65535 0:65535 0x00/0x00 cat=0x8001
";

/// The lines of two rules of which the first covers the second.
const COVERED: &str = "ip4 rule 1 data 1 wins 0 key 00000000000000000000000000
ip4 rule 2 data 2 never
rules 2 live 1 never 1
";

/// The lines of the same rules in the other order.
const EXCHANGED: &str = "ip4 rule 1 data 1 wins 0 key 000a0000000000000000000000
ip4 rule 2 data 2 wins 0 key 00000000000000000000000000
rules 2 live 2 never 0
";

/// The lines of both families in the first category, and in all.
const ONE_CATEGORY: &str = "ip4 rule 1 data 2 wins 0 key 00000000000000000000000000
ip6 rule 1 data 0 never
rules 2 live 1 never 1
";

const ALL_CATEGORIES: &str = "ip4 rule 1 data 2 wins 0 key 00000000000000000000000000
ip4 rule 1 data 2 wins 15 key 00000000000000000000000000
ip6 rule 1 data 0 wins 1 key \
00000000000000000000000000000000000000000000000000000000000000000000000000
ip6 rule 1 data 0 wins 12 key \
00000000000000000000000000000000000000000000000000000000000000000000000000
rules 2 live 2 never 0
";

#[test]
fn each_rule_is_told_with_its_least_keys(rt: HostRuntime) -> Result<(), Fail> {
    let covered = [ANY, b"\n", FROM_TEN, b"\n"].concat(rt.alloc())?;
    let exchanged = [FROM_TEN, b"\n", ANY, b"\n"].concat(rt.alloc())?;
    let cases: [(&[u8], &[&str], &str); 6] = [
        (
            b"",
            &["audit", "r", "max-words=1"],
            "rules 0 live 0 never 0\n",
        ),
        (&covered, &["audit", "r"], COVERED),
        (&covered, &["audit", "r", "max-words=27"], COVERED),
        (&exchanged, &["audit", "r"], EXCHANGED),
        (SOME_CATEGORIES, &["audit", "r"], ONE_CATEGORY),
        (
            SOME_CATEGORIES,
            &["audit", "r", "categories=16"],
            ALL_CATEGORIES,
        ),
    ];
    for (rules, words, out) in cases {
        expect(
            &rt,
            words,
            rules,
            b"",
            FAULTLESS,
            (Status::Done, out, "", 0),
        )?;
    }
    Ok(())
}

#[test]
fn an_audit_is_refused_with_nothing_printed(rt: HostRuntime) -> Result<(), Fail> {
    let covered = [ANY, b"\n", FROM_TEN, b"\n"].concat(rt.alloc())?;
    let bad_line = Status::RulesRefused(LineFault {
        line: 1,
        kind: LineKind::BadStart,
    });
    let cases: [(&[u8], &[&str], Status, &str); 4] = [
        (
            &covered,
            &["audit", "r", "max-words=26"],
            too_large(27, 26),
            "aclc: ip4 table too large: words 27 budget 26\n",
        ),
        (
            b"x",
            &["audit", "r"],
            bad_line,
            "aclc: rules: line 1: bad start\n",
        ),
        (
            b"",
            &["audit", "x"],
            Status::ReadFault,
            "aclc: read fault\n",
        ),
        (
            b"",
            &["audit", "r", "stats=on"],
            usage(3, UsageKind::UnknownOption),
            "aclc: usage: word 3: unknown option\n",
        ),
    ];
    for (rules, words, status, err) in cases {
        expect(&rt, words, rules, b"", FAULTLESS, (status, "", err, 0))?;
    }
    Ok(())
}
