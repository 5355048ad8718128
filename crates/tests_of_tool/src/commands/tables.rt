//! Whole commands over files in memory: sizes of tables, transitions, budgets and marks.

use crate::commands::{ANY, FAULTLESS, GUIDE, HEADER, IP4_FRAME, add_record, expect, too_large};
use acl_tool::{Family, Status};
use std::alloc::{AllocError, Global};
use std::test::Fail;

/// A rule of each packet from 10.0.0.0/8.
const FROM_TEN: &[u8] = b"@10.0.0.0/8 0.0.0.0/0 0:65535 0:65535 0x00/0x00";

/// Two rules by their sources, and one by its destination.
const CROSSED: &[u8] = b"@10.0.0.0/8 0.0.0.0/0 0:65535 0:65535 0x00/0x00
@20.0.0.0/8 0.0.0.0/0 0:65535 0:65535 0x00/0x00
@0.0.0.0/0 30.1.1.1/32 0:65535 0:65535 0x00/0x00
";

/// A rule by its destination, and one for each packet.
const TO_TEN: &[u8] = b"@0.0.0.0/0 10.0.0.0/8 0:65535 0:65535 0x00/0x00
@0.0.0.0/0 0.0.0.0/0 0:65535 0:65535 0x00/0x00
";

/// A rule for each packet of either family.
const ANY_OF_BOTH: &[u8] = b"@0.0.0.0/0 0.0.0.0/0 0:65535 0:65535 0x00/0x00
@::/0 ::/0 0:65535 0:65535 0x00/0x00
";

/// A packet: its protocol, its addresses and its ports.
type Sent = (u8, [u8; 12]);

/// UDP to the ports 1234 and 1235 of the guide's example.
const GUIDE_PACKETS: &[Sent] = &[
    (17, [192, 168, 1, 5, 192, 168, 2, 31, 19, 136, 4, 210]),
    (17, [192, 168, 1, 5, 192, 168, 2, 31, 19, 136, 4, 211]),
];

/// TCP from 1.2.3.4, port 9, to 5.6.7.8, port 10.
const ONE_PACKET: &[Sent] = &[(6, [1, 2, 3, 4, 5, 6, 7, 8, 0, 9, 0, 10])];

/// The same from 10.0.0.1, and from 11.0.0.1.
const TEN_AND_ELEVEN: &[Sent] = &[
    (6, [10, 0, 0, 1, 5, 6, 7, 8, 0, 9, 0, 10]),
    (6, [11, 0, 0, 1, 5, 6, 7, 8, 0, 9, 0, 10]),
];

/// The second of these alone.
const ELEVEN: &[Sent] = &[(6, [11, 0, 0, 1, 5, 6, 7, 8, 0, 9, 0, 10])];

/// UDP to the ports 1023, 1024 and 65535.
const PORTS: &[Sent] = &[
    (17, [1, 2, 3, 4, 5, 6, 7, 8, 0, 9, 3, 255]),
    (17, [1, 2, 3, 4, 5, 6, 7, 8, 0, 9, 4, 0]),
    (17, [1, 2, 3, 4, 5, 6, 7, 8, 0, 9, 255, 255]),
];

/// TCP and UDP.
const PROTOCOLS: &[Sent] = &[
    (6, [1, 2, 3, 4, 5, 6, 7, 8, 0, 9, 0, 10]),
    (17, [1, 2, 3, 4, 5, 6, 7, 8, 0, 9, 0, 10]),
];

/// To 30.1.1.1 from 10.0.0.1 and from 11.0.0.1, and to 30.1.1.2 from 20.0.0.1.
const CROSSED_PACKETS: &[Sent] = &[
    (6, [10, 0, 0, 1, 30, 1, 1, 1, 0, 9, 0, 10]),
    (6, [11, 0, 0, 1, 30, 1, 1, 1, 0, 9, 0, 10]),
    (6, [20, 0, 0, 1, 30, 1, 1, 2, 0, 9, 0, 10]),
];

/// A capture of these packets.
fn capture_of(alloc: Global, packets: &[Sent]) -> Result<Vec<u8>, AllocError> {
    let mut capture = Vec::from_slice(alloc, HEADER)?;
    for (protocol, ends) in packets {
        let start = [0x45, 0, 0, 24, 0, 0, 0, 0, 64, *protocol, 0, 0];
        add_record(&mut capture, &[IP4_FRAME, &start, ends])?;
    }
    Ok(capture)
}

/// The rules, a budget, the packets, and what is printed.
const SIZES: [(&[u8], &str, &[Sent], &str); 11] = [
    (
        b"",
        "max-words=16",
        &[],
        "packets 0 ip4 0 ip6 0 other 0 short 0
ip4 rules 0 tries 0 words 16\nip6 rules 0 tries 0 words 16\ntransitions 0\n",
    ),
    (
        GUIDE,
        "max-words=85",
        GUIDE_PACKETS,
        "1 ip4 1\n2 ip4 0\npackets 2 ip4 2 ip6 0 other 0 short 0
ip4 rules 1 tries 1 words 85\nip6 rules 0 tries 0 words 16\ntransitions 26\n",
    ),
    (
        ANY,
        "max-words=33",
        ONE_PACKET,
        "1 ip4 1\npackets 1 ip4 1 ip6 0 other 0 short 0
ip4 rules 1 tries 1 words 33\nip6 rules 0 tries 0 words 16\ntransitions 1\n",
    ),
    (
        FROM_TEN,
        "max-words=40",
        ELEVEN,
        "1 ip4 0\npackets 1 ip4 1 ip6 0 other 0 short 0
ip4 rules 1 tries 1 words 40\nip6 rules 0 tries 0 words 16\ntransitions 1\n",
    ),
    (
        b"@0.0.0.0/0 0.0.0.0/0 0:65535 1024:65535 0x00/0x00",
        "max-words=40",
        PORTS,
        "1 ip4 0\n2 ip4 1\n3 ip4 1\npackets 3 ip4 3 ip6 0 other 0 short 0
ip4 rules 1 tries 1 words 40\nip6 rules 0 tries 0 words 16\ntransitions 11\n",
    ),
    (
        b"@0.0.0.0/0 0.0.0.0/0 0:65535 0:65535 0x01/0x01",
        "max-words=288",
        PROTOCOLS,
        "1 ip4 0\n2 ip4 1\npackets 2 ip4 2 ip6 0 other 0 short 0
ip4 rules 1 tries 1 words 288\nip6 rules 0 tries 0 words 16\ntransitions 2\n",
    ),
    (
        TO_TEN,
        "max-words=59",
        &[],
        "packets 0 ip4 0 ip6 0 other 0 short 0
ip4 rules 2 tries 1 words 59\nip6 rules 0 tries 0 words 16\ntransitions 0\n",
    ),
    (
        TO_TEN,
        "max-words=58",
        &[],
        "packets 0 ip4 0 ip6 0 other 0 short 0
ip4 rules 2 tries 2 words 57\nip6 rules 0 tries 0 words 16\ntransitions 0\n",
    ),
    (
        ANY_OF_BOTH,
        "max-words=33",
        &[],
        "packets 0 ip4 0 ip6 0 other 0 short 0
ip4 rules 1 tries 1 words 33\nip6 rules 1 tries 1 words 33\ntransitions 0\n",
    ),
    (
        CROSSED,
        "max-words=136",
        &[],
        "packets 0 ip4 0 ip6 0 other 0 short 0
ip4 rules 3 tries 1 words 136\nip6 rules 0 tries 0 words 16\ntransitions 0\n",
    ),
    (
        CROSSED,
        "max-words=135",
        CROSSED_PACKETS,
        "1 ip4 1\n2 ip4 3\n3 ip4 2\npackets 3 ip4 3 ip6 0 other 0 short 0
ip4 rules 3 tries 2 words 95\nip6 rules 0 tries 0 words 16\ntransitions 21\n",
    ),
];

#[test]
fn tables_are_told_with_their_sizes(rt: HostRuntime) -> Result<(), Fail> {
    for (rules, budget, packets, out) in SIZES {
        let words = &["classify", "r", "c", budget, "stats=on"];
        let capture = capture_of(rt.alloc(), packets)?;
        let want = (Status::Done, out, "", 0);
        expect(&rt, words, rules, &capture, FAULTLESS, want)?;
    }
    Ok(())
}

#[test]
fn tables_above_the_budget_are_refused_before_the_capture(rt: HostRuntime) -> Result<(), Fail> {
    let cases: [(&[u8], &str, Status, &str); 4] = [
        (
            b"",
            "max-words=15",
            too_large(16, 15),
            "aclc: ip4 table too large: words 16 budget 15\n",
        ),
        (
            TO_TEN,
            "max-words=56",
            too_large(57, 56),
            "aclc: ip4 table too large: words 57 budget 56\n",
        ),
        (
            CROSSED,
            "max-words=94",
            too_large(100, 94),
            "aclc: ip4 table too large: words 100 budget 94\n",
        ),
        (
            b"@::/0 ::/0 0:65535 0:65535 0x00/0x00",
            "max-words=32",
            Status::TooLarge {
                family: Family::Ip6,
                words: 33,
                budget: 32,
            },
            "aclc: ip6 table too large: words 33 budget 32\n",
        ),
    ];
    for (rules, budget, status, err) in cases {
        // There is no capture of that name.
        let words = &["classify", "r", "x", budget];
        expect(&rt, words, rules, b"", FAULTLESS, (status, "", err, 0))?;
    }
    Ok(())
}

#[test]
fn a_dash_marks_where_no_rule_matches(rt: HostRuntime) -> Result<(), Fail> {
    let zero = [FROM_TEN, b" data=0\n"].concat(rt.alloc())?;
    let both = [FROM_TEN, b" data=0\n", ANY, b" pri=0 data=5\n"].concat(rt.alloc())?;
    let capture = capture_of(rt.alloc(), TEN_AND_ELEVEN)?;
    let cases: [(&[u8], &str, &str); 4] = [
        (&zero, "marks=off", "1 ip4 0\n2 ip4 0\n"),
        (&zero, "marks=on", "1 ip4 0\n2 ip4 -\n"),
        (&both, "marks=off", "1 ip4 0\n2 ip4 5\n"),
        (&both, "marks=on", "1 ip4 0\n2 ip4 5\n"),
    ];
    for (rules, marks, lines) in cases {
        let words = &["classify", "r", "c", marks];
        let out = format!(in rt.alloc(); "{lines}packets 2 ip4 2 ip6 0 other 0 short 0\n")?;
        let want = (Status::Done, out.as_str(), "", 0);
        expect(&rt, words, rules, &capture, FAULTLESS, want)?;
    }
    Ok(())
}
