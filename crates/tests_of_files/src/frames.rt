//! Whole frames, with the keys that a reader of the standards takes from them.

use header_extract::{Class, KeyBuf, extract};
use pcap_reader::Link;
use std::process::Abort;

/// A frame, its class, and the first bytes of its key, after which the key is as it was before.
struct Case {
    name: &'static str,
    link: Link,
    frame: &'static [u8],
    class: Class,
    key: &'static [u8],
}

/// What stands in a key before a frame is read.
const BEFORE: u8 = 7;

/// UDP from port 5000 of 192.168.1.5 to port 1234 of 192.168.2.31 over Ethernet.
const UDP: [u8; 42] = [
    0, 0, 0, 0, 0, 0, 0, 0, 0, 0, 0, 0, 0x08, 0x00, 0x45, 0, 0, 28, 0, 0, 0, 0, 64, 17, 0, 0, 192,
    168, 1, 5, 192, 168, 2, 31, 0x13, 0x88, 0x04, 0xD2, 0, 8, 0, 0,
];

/// TCP from port 443 of ::1 to port 80 of ::2, after hop-by-hop options, in a VLAN over Ethernet.
const TAGGED_TCP: [u8; 70] = [
    0, 0, 0, 0, 0, 0, 0, 0, 0, 0, 0, 0, 0x81, 0x00, 0, 5, 0x86, 0xDD, 0x60, 0, 0, 0, 0, 12, 0, 64,
    0, 0, 0, 0, 0, 0, 0, 0, 0, 0, 0, 0, 0, 0, 0, 1, 0, 0, 0, 0, 0, 0, 0, 0, 0, 0, 0, 0, 0, 0, 0, 2,
    6, 0, 0, 0, 0, 0, 0, 0, 0x01, 0xBB, 0, 80,
];

const CASES: [Case; 4] = [
    Case {
        name: "UDP over IPv4",
        link: Link::Ethernet,
        frame: &UDP,
        class: Class::Ip4,
        key: &[
            17, 192, 168, 1, 5, 192, 168, 2, 31, 0x13, 0x88, 0x04, 0xD2, BEFORE,
        ],
    },
    Case {
        name: "TCP over IPv6 after a tag and options",
        link: Link::Ethernet,
        frame: &TAGGED_TCP,
        class: Class::Ip6,
        key: &[
            6, 0, 0, 0, 0, 0, 0, 0, 0, 0, 0, 0, 0, 0, 0, 0, 1, 0, 0, 0, 0, 0, 0, 0, 0, 0, 0, 0, 0,
            0, 0, 0, 2, 0x01, 0xBB, 0, 80,
        ],
    },
    Case {
        name: "an Ethernet frame where a packet is expected",
        link: Link::Raw,
        frame: &UDP,
        class: Class::Other,
        key: &[BEFORE; 37],
    },
    Case {
        name: "no bytes",
        link: Link::CookedV2,
        frame: &[],
        class: Class::Short,
        key: &[BEFORE; 37],
    },
];

/// Asserts that a frame has its class and key.
fn shows(rt: &impl Abort, case: &Case) {
    let mut key = KeyBuf {
        bytes: [BEFORE; 37],
    };
    let class = extract(case.link, case.frame, &mut key);
    assert!(rt; class == case.class, "{}", case.name);
    assert!(rt; key.bytes.starts_with(case.key), "{}", case.name);
}

#[test]
fn whole_frames_have_their_class_and_key(rt: HostRuntime) {
    for case in &CASES {
        shows(&rt, case);
    }
}
