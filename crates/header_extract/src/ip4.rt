//! IPv4 packets.
//!
//!     | version: 4 bits | words: 4 bits | .. | flags: 3 bits | fragment offset: 13 bits |
//!     | time to live: 1 | protocol: 1 | checksum: 2 | source: 4 | destination: 4 | options |
//!
//! Source: RFC 791, 3.1.

ghost use Rattle.std.specs.Prelude.{◌≡◌, ◌≤◌, length, IfSome, IsNone, Err};
ghost use Rattle.header_extract.specs.declared.class.Class.TheVariants.{Other};
ghost use Rattle.header_extract.specs.Extracted.{Extracts, or_short};
ghost use Rattle.header_extract.specs.Ip4.{IsHeaderLen, header_words, ip4_class, ip4_ports};

use crate::class::Class;
use crate::key::KeyBuf;
use crate::ports::{NO_PORTS, Ports, read_ports};
use byte_numbers::network_u16_at;

/// How many bytes an IPv4 header has without options, which is the least.
const HEADER: usize = 20;
/// The version of an IPv4 packet.
const VERSION: u8 = 4;
/// The low four bits of the first byte, which are the length of the header in words.
const WORDS: u8 = 0x0F;
/// The first byte of a header of this version with the least words, which has no options.
const PLAIN: u8 = 0x45;
/// How many bytes a word of the header has.
const WORD: usize = 4;
/// Where the flags and the fragment offset stand.
const FRAGMENT: usize = 6;
/// The low 13 bits, which are the fragment offset without the flags.
const FRAGMENT_OFFSET: u16 = 0x1FFF;
/// Where the protocol stands.
const PROTOCOL: usize = 9;
/// Where the two addresses begin.
const ADDRESSES: usize = 12;

/// The class of an IPv4 packet, whose key is written.
#[inline]
pub fn extract_ip4(packet: &[u8], key: &mut KeyBuf) -> Class
    ensures { Extracts (ip4_class packet.now) key.old.bytes key.new.bytes result }
{
    if packet.len() < HEADER {
        return Class::Short;
    }
    let Some(header_len) = header_len(packet) else {
        return Class::Other;
    };
    if packet.len() < header_len {
        return Class::Short;
    }
    match packet_ports(packet, &packet[header_len..]) {
        Some(ports) => {
            // Bytes of its own can't be those of the key, so that no test asks whether they are.
            let mut addresses = [0; HEADER - ADDRESSES];
            addresses.copy_from_slice(&packet[ADDRESSES..HEADER]);
            key.write(packet[PROTOCOL], &addresses, ports);
            Class::Ip4
        }
        None => Class::Short,
    }
}

/// How many bytes the header has, or `None` where it is of another version or has too few words.
#[inline]
fn header_len(packet: &[u8]) -> Option<usize>
    requires { 20 ≤ length packet.now }
    ensures some { IfSome result (λ len. IsHeaderLen packet.now len) }
    ensures none { IsNone result → header_words packet.now ≡ Err Other }
{
    // Most headers have no options.
    if packet[0] == PLAIN {
        return Some(HEADER);
    }
    let len = usize::from(packet[0] & WORDS) * WORD;
    if packet[0] >> 4 != VERSION || len < HEADER {
        return None;
    }
    Some(len)
}

/// The ports of a packet, which are 0 in all fragments but the first, or `None` where they are cut.
#[inline]
fn packet_ports(packet: &[u8], payload: &[u8]) -> Option<Ports>
    requires { 20 ≤ length packet.now }
    ensures { ip4_ports packet.now payload.now ≡ or_short result }
{
    if network_u16_at(packet, FRAGMENT) & FRAGMENT_OFFSET != 0 {
        return Some(NO_PORTS);
    }
    read_ports(packet[PROTOCOL], payload)
}
