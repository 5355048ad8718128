//! IPv6 packets and their extension headers.
//!
//!     | version: 4 bits | .. | next header: 1 | hop limit: 1 | source: 16 | destination: 16 |
//!     | next header: 1 | length in words of 8 bytes, less one: 1 | .. |
//!     | next header: 1 | reserved: 1 | fragment offset: 13 bits | flags: 3 bits | id: 4 |
//!
//! The second line is a header of hop-by-hop options, of routing or of destination options; the
//! third is that of a fragment. Sources: RFC 8200, 3 (the IPv6 header), 4 (extension headers).

ghost use Rattle.std.specs.Prelude.{◌≡◌, ◌+◌, ◌*◌, ◌==◌, ◌||◌, ◌&&◌, ◌≤◌, not, if◌then◌else◌, length};
ghost use Rattle.header_extract.specs.Extracted.{Extracts, or_short};
ghost use Rattle.header_extract.specs.Ip6.{ip6_class, is_options, is_first_part, fragment, upper_of};

use crate::class::Class;
use crate::key::KeyBuf;
use crate::ports::{NO_PORTS, Ports, read_ports};
use byte_numbers::network_u16_at;

/// How many bytes an IPv6 header has.
const HEADER: usize = 40;
/// The version of an IPv6 packet.
const VERSION: u8 = 6;
/// Where the number of the header that follows stands.
const NEXT_HEADER: usize = 6;
/// Where the two addresses begin.
const ADDRESSES: usize = 8;

/// The number of a header of hop-by-hop options.
const HOP_BY_HOP: u8 = 0;
/// The number of a routing header.
const ROUTING: u8 = 43;
/// The number of a fragment header.
const FRAGMENT: u8 = 44;
/// The number of a header of destination options.
const DESTINATION: u8 = 60;

/// How many bytes a word of an extension header has, which is also the least header and the header
/// of a fragment.
const WORD: usize = 8;
/// Where the fragment offset stands in a fragment header.
const OFFSET: usize = 2;
/// How many low bits beside the fragment offset aren't part of it.
const OFFSET_SHIFT: u16 = 3;

/// The protocol after all extension headers, with the ports of the packet.
#[derive(Clone, Copy)]
pub struct Upper {
    pub protocol: u8,
    pub ports: Ports,
}

/// The class of an IPv6 packet, whose key is written.
#[inline]
pub fn extract_ip6(packet: &[u8], key: &mut KeyBuf) -> Class
    ensures { Extracts (ip6_class packet.now) key.old.bytes key.new.bytes result }
{
    if packet.len() < HEADER {
        return Class::Short;
    }
    if packet[0] >> 4 != VERSION {
        return Class::Other;
    }
    match find_upper(packet[NEXT_HEADER], &packet[HEADER..]) {
        Some(upper) => {
            key.write(upper.protocol, &packet[ADDRESSES..HEADER], upper.ports);
            Class::Ip6
        }
        None => Class::Short,
    }
}

/// The protocol that a chain of headers leads to, or `None` where a header of the chain or the
/// ports are cut.
///
/// `next` is the number of the header with which `left` begins.
fn find_upper(next: u8, left: &[u8]) -> Option<Upper>
    ensures { upper_of next left.now ≡ or_short result }
{
    let mut next = next;
    let mut left = left;
    while is_extension(next) {
        if left.len() < WORD {
            return None;
        }
        if is_later_part(next, left) {
            return Some(Upper {
                protocol: left[0],
                ports: NO_PORTS,
            });
        }
        let len = extension_len(next, left[1]);
        if left.len() < len {
            return None;
        }
        next = left[0];
        left = &left[len..];
    }
    match read_ports(next, left) {
        Some(ports) => Some(Upper {
            protocol: next,
            ports,
        }),
        None => None,
    }
}

/// Whether a header of this number is that of a fragment after the first.
fn is_later_part(next: u8, left: &[u8]) -> bool
    requires { 8 ≤ length left.now }
    ensures { result ≡ (next == fragment && not (is_first_part left.now)) }
{
    next == FRAGMENT && network_u16_at(left, OFFSET) >> OFFSET_SHIFT != 0
}

/// Whether a header of this number is an extension header that is passed over.
fn is_extension(next: u8) -> bool
    ensures { result ≡ is_options next || next == fragment }
{
    matches!(next, HOP_BY_HOP | ROUTING | FRAGMENT | DESTINATION)
}

/// How many bytes an extension header has, whose second byte is `words`.
fn extension_len(next: u8, words: u8) -> usize
    ensures { result ≡ (if next == fragment then 8 else 8 * (words + 1)) }
{
    if next == FRAGMENT {
        return WORD;
    }
    (usize::from(words) + 1) * WORD
}
