//! The files and the texts of the worked example of 17 packets, and of a script.

use acl_outside::MemFile;
use std::alloc::{AllocError, Global};

/// The IPv4 rule of the example in the DPDK Programmer's Guide, "Packet Classification and Access
/// Control", as ClassBench writes it: 79 bytes.
const GUIDE: &[u8] =
    b"@192.168.1.0/24\t192.168.2.31/32\t0 : 65535\t1234 : 1234\t0x11/0xFF\t0x0000/0x0000\t\n";

/// The same with another answer: 67 bytes.
const EDITED: &[u8] = b"@192.168.1.0/24 192.168.2.31/32 0:65535 1234:1234 0x11/0xFF data=2\n";

/// The file header of a little-endian capture of Ethernet frames, in microseconds.
const HEADER: &[u8] = &[
    0xD4, 0xC3, 0xB2, 0xA1, 2, 0, 4, 0, 0, 0, 0, 0, 0, 0, 0, 0, 0, 0, 4, 0, 1, 0, 0, 0,
];

/// A record of UDP over IPv4 from 192.168.1.5, port 5000, to 192.168.2.31, without the last byte of
/// the destination port, whose first one makes it 1,024 or more: 53 bytes.
const RECORD: &[u8] = &[
    0, 0, 0, 0, 0, 0, 0, 0, 38, 0, 0, 0, 38, 0, 0, 0, 0, 0, 0, 0, 0, 0, 0, 0, 0, 0, 0, 0, 8, 0,
    0x45, 0, 0, 24, 0, 0, 0, 0, 64, 17, 0, 0, 192, 168, 1, 5, 192, 168, 2, 31, 19, 136, 4,
];

/// What is printed of the 17 packets, of which the eighth matches: 184 bytes.
pub(crate) const SEVENTEEN: &str =
    "1 ip4 0\n2 ip4 0\n3 ip4 0\n4 ip4 0\n5 ip4 0\n6 ip4 0\n7 ip4 0\n8 ip4 1
9 ip4 0\n10 ip4 0\n11 ip4 0\n12 ip4 0\n13 ip4 0\n14 ip4 0\n15 ip4 0\n16 ip4 0\n17 ip4 0
packets 17 ip4 17 ip6 0 other 0 short 0\n";

/// What `audit` prints of the rule of the guide: 79 bytes.
pub(crate) const AUDITED: &str =
    "ip4 rule 1 data 1 wins 0 key 11c0a80100c0a8021f000004d2\nrules 1 live 1 never 0\n";

/// What `compare` prints of the guide's rule and the edited one: 74 bytes.
pub(crate) const COMPARED: &str =
    "ip4 differ category 0 key 11c0a80100c0a8021f000004d2 one 1 two 2\nip6 same\n";

/// What `bench` prints of three packets and no rules: 73 bytes.
pub(crate) const MEASURED: &str =
    "rules 0 packets 3\nplain hits 0 sum 0\ntable hits 0 sum 0\ntries 0 words 16\n";

/// A script of eight calls over a field of one byte: 104 bytes.
const SCRIPT: &[u8] = b"field range 1 0 0
context 1
rule 1 1 7 17:17
classify 1 11
build 1000
classify 1 11
classify 4 06
hello
";

/// What `session` prints of the script: 49 bytes.
pub(crate) const ANSWERED: &str = "ok\nok\nok\nrefused not built\nok\n7\n0 0 0 0\nbad line\n";

/// A capture of 17 packets, to the ports 1227 to 1243: a header of 24 bytes and 54 for each.
pub(crate) fn seventeen(alloc: Global) -> Result<Vec<u8>, AllocError> {
    let mut capture = Vec::from_slice(alloc, HEADER)?;
    for port in 203..220u8 {
        capture.extend_from_slice(RECORD)?;
        capture.push(port)?;
    }
    Ok(capture)
}

fn file(alloc: Global, name: &str, bytes: &[u8]) -> Result<MemFile, AllocError> {
    let name = String::from_str(alloc, name)?;
    let bytes = Vec::from_slice(alloc, bytes)?;
    Ok(MemFile { name, bytes })
}

/// The rule files `r` and `s`, the capture `c`, the script `t`, and the image `i` with these bytes.
pub(crate) fn all_files(alloc: Global, image: &[u8]) -> Result<Vec<MemFile>, AllocError> {
    let mut files = Vec::new(alloc);
    files.push(file(alloc, "r", GUIDE)?)?;
    files.push(file(alloc, "s", EDITED)?)?;
    files.push(file(alloc, "c", &seventeen(alloc)?)?)?;
    files.push(file(alloc, "t", SCRIPT)?)?;
    files.push(file(alloc, "i", image)?)?;
    Ok(files)
}
