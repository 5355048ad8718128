//! Whole commands over two rule files in memory: whether they decide alike.

use crate::commands::{ANY, FAULTLESS, expect, too_large, usage};
use acl_tool::{LineFault, LineKind, Status, UsageKind};
use std::test::Fail;

/// Every packet, with userdata 5 and 6.
const FIVE: &[u8] = b"@0.0.0.0/0 0.0.0.0/0 0:65535 0:65535 0x00/0x00 data=5\n";

const SIX: &[u8] = b"@0.0.0.0/0 0.0.0.0/0 0:65535 0:65535 0x00/0x00 data=6\n";

/// The packets from 10.0.0.0/8 with userdata 5, and with userdata 4, and then every packet.
const FIVE_TWICE: &[u8] = b"@10.0.0.0/8 0.0.0.0/0 0:65535 0:65535 0x00/0x00 data=5
@0.0.0.0/0 0.0.0.0/0 0:65535 0:65535 0x00/0x00 data=5
";

const FOUR_AND_FIVE: &[u8] = b"@10.0.0.0/8 0.0.0.0/0 0:65535 0:65535 0x00/0x00 data=4
@0.0.0.0/0 0.0.0.0/0 0:65535 0:65535 0x00/0x00 data=5
";

/// Every packet in category 12 alone, and in category 15 alone.
const TWELVE: &[u8] = b"@0.0.0.0/0 0.0.0.0/0 0:65535 0:65535 0x00/0x00 cat=4096 data=1\n";

const FIFTEEN: &[u8] = b"@0.0.0.0/0 0.0.0.0/0 0:65535 0:65535 0x00/0x00 cat=0x8000 data=1\n";

/// Every IPv4 packet with userdata 0, and every IPv6 packet.
const ZERO: &[u8] = b"@0.0.0.0/0 0.0.0.0/0 0:65535 0:65535 0x00/0x00 data=0\n";

const IP6: &[u8] = b"@::/0 ::/0 0:65535 0:65535 0x00/0x00\n";

/// A list whose second line has an empty range.
const TURNED: &[u8] = b"@0.0.0.0/0 0.0.0.0/0 0:65535 0:65535 0x00/0x00
@0.0.0.0/0 0.0.0.0/0 20 : 10 0:65535 0x00/0x00
";

const SAME: &str = "ip4 same\nip6 same\n";

const BOTH: &[&str] = &["compare", "r", "c"];

#[test]
fn the_least_key_at_which_lists_differ_is_told(rt: HostRuntime) -> Result<(), Fail> {
    let at_ten = "ip4 differ category 0 key 000a0000000000000000000000 one 4 two 5\nip6 same\n";
    let at_0 = "ip4 differ category 0 key 00000000000000000000000000 one 5 two 6\nip6 same\n";
    let twelve = "ip4 differ category 12 key 00000000000000000000000000 one 1 two 0\nip6 same\n";
    let fifteen = "ip4 differ category 15 key 00000000000000000000000000 one 0 two 1\nip6 same\n";
    let ip6 = "ip4 same\nip6 differ category 0 key \
00000000000000000000000000000000000000000000000000000000000000000000000000 one 1 two 0\n";
    let cases: [(&[u8], &[u8], &[&str], &str); 9] = [
        (b"", b"", BOTH, SAME),
        (FIVE_TWICE, FIVE, BOTH, SAME),
        (FIVE_TWICE, SIX, &["compare", "r", "r"], SAME),
        (ZERO, b"", BOTH, SAME),
        (FOUR_AND_FIVE, FIVE, BOTH, at_ten),
        (FIVE_TWICE, SIX, BOTH, at_0),
        (TWELVE, b"", BOTH, twelve),
        (b"", FIFTEEN, BOTH, fifteen),
        (IP6, b"", BOTH, ip6),
    ];
    for (one, two, words, out) in cases {
        expect(&rt, words, one, two, FAULTLESS, (Status::Done, out, "", 0))?;
    }
    Ok(())
}

#[test]
fn a_comparison_of_refused_lists_prints_nothing(rt: HostRuntime) -> Result<(), Fail> {
    let bad_line = LineFault {
        line: 2,
        kind: LineKind::EmptyRange,
    };
    let cases: [(&[u8], &[u8], &[&str], Status, &str); 3] = [
        (
            TURNED,
            TURNED,
            BOTH,
            Status::RulesRefused(bad_line),
            "aclc: rules: line 2: empty range\n",
        ),
        (
            ANY,
            TURNED,
            BOTH,
            Status::SecondRulesRefused(bad_line),
            "aclc: second rules: line 2: empty range\n",
        ),
        (
            TWELVE,
            b"",
            &["compare", "r", "c", "max-words=16"],
            too_large(17, 16),
            "aclc: ip4 table too large: words 17 budget 16\n",
        ),
    ];
    for (one, two, words, status, err) in cases {
        expect(&rt, words, one, two, FAULTLESS, (status, "", err, 0))?;
    }
    Ok(())
}

#[test]
fn a_comparison_of_a_missing_list_prints_nothing(rt: HostRuntime) -> Result<(), Fail> {
    let cases: [(&[u8], &[&str], Status, &str); 3] = [
        (
            b"",
            &["compare", "r", "x"],
            Status::ReadFault,
            "aclc: read fault\n",
        ),
        (
            TURNED,
            &["compare", "x", "r"],
            Status::ReadFault,
            "aclc: read fault\n",
        ),
        (
            b"",
            &["compare", "r"],
            usage(3, UsageKind::MissingName),
            "aclc: usage: word 3: missing name\n",
        ),
    ];
    for (rules, words, status, err) in cases {
        expect(&rt, words, rules, b"", FAULTLESS, (status, "", err, 0))?;
    }
    Ok(())
}
