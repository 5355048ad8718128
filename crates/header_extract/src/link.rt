//! The header of a link, with its VLAN tags, and the packet after it.
//!
//!     | destination: 6 | source: 6 | type: 2 |
//!     | packet type: 2 | address type: 2 | address length: 2 | address: 8 | type: 2 |
//!     | type: 2 | reserved: 2 | interface: 4 | address type: 2 | .. | address: 8 |
//!     | tag: 2 | type: 2 |
//!
//! These are the headers of Ethernet, of Linux "cooked" and of its version 2, and a tag, which
//! stands after its own type.
//!
//! Sources: IEEE 802.3, 3.2.6 (the type of a frame), IEEE 802.1Q, 9.4 to 9.6 (tags), RFC 894 and
//! RFC 2464 (IPv4 and IPv6 over Ethernet), the pages of tcpdump.org on LINKTYPE_LINUX_SLL and
//! LINKTYPE_LINUX_SLL2.

ghost use Rattle.std.specs.Prelude.{◌≡◌, ◌+◌, ◌≤◌, Ok, Err, length, IfSome, IsNone};
ghost use Rattle.header_extract.specs.Extracted.{Extracts};
ghost use Rattle.header_extract.specs.Link.{frame_class, class_after_type, raw_class, typed_class, is_tag, after_tags};
ghost use Rattle.header_extract.specs.declared.class.Class.TheVariants as classes;

use crate::class::Class;
use crate::ip4::extract_ip4;
use crate::ip6::extract_ip6;
use crate::key::KeyBuf;
use byte_numbers::network_u16_at;
use pcap_reader::Link;

/// How many bytes the header of an Ethernet frame has.
const ETHERNET_HEADER: usize = 14;
/// Where the type of an Ethernet frame stands.
const ETHERNET_TYPE: usize = 12;
/// How many bytes a Linux "cooked" header has.
const COOKED_HEADER: usize = 16;
/// Where the type stands in a Linux "cooked" header.
const COOKED_TYPE: usize = 14;
/// How many bytes a Linux "cooked" header of version 2 has.
const COOKED_V2_HEADER: usize = 20;
/// Where the type stands in a Linux "cooked" header of version 2.
const COOKED_V2_TYPE: usize = 0;

/// The type of what stands after a customer's VLAN tag.
const CUSTOMER_TAG: u16 = 0x8100;
/// The type of what stands after a service provider's VLAN tag.
const SERVICE_TAG: u16 = 0x88A8;
/// How many bytes a tag has, with the type after it.
const TAG: usize = 4;
/// Where the type stands after a tag.
const TAG_TYPE: usize = 2;

/// The type of a frame with an IPv4 packet.
const IP4: u16 = 0x0800;
/// The type of a frame with an IPv6 packet.
const IP6: u16 = 0x86DD;

/// The class of a captured frame, and the key of the packet in it.
///
/// `frame` holds the captured bytes from the header of the link on, and may have any length. At
/// [`Class::Ip4`] the first 13 bytes of `key` are written and at [`Class::Ip6`] all 37, in network
/// order: protocol (1), source and destination address (4 or 16 each), source and destination port
/// (2 each). All other bytes stay as they were. The protocol is the one after all extension
/// headers. The ports are those of TCP, UDP and SCTP, and 0 for other protocols and for all
/// fragments but the first. Up to two VLAN tags are passed over. It refuses nothing and takes no
/// memory. Sources: IEEE 802.1Q, RFC 791, RFC 8200.
#[inline]
pub fn extract(link: Link, frame: &[u8], key: &mut KeyBuf) -> Class
    ensures { Extracts (frame_class link frame.now) key.old.bytes key.new.bytes result }
{
    // Most captures are of Ethernet, whose frames meet no jump by the link type.
    match link {
        Link::Ethernet => extract_typed(ETHERNET_HEADER, ETHERNET_TYPE, frame, key),
        Link::Raw | Link::Cooked | Link::CookedV2 | Link::Ip4 | Link::Ip6 => {
            extract_by_link(link, frame, key)
        }
    }
}

/// The same for any link type.
#[inline(never)]
fn extract_by_link(link: Link, frame: &[u8], key: &mut KeyBuf) -> Class
    ensures { Extracts (frame_class link frame.now) key.old.bytes key.new.bytes result }
{
    match link {
        Link::Ethernet => extract_typed(ETHERNET_HEADER, ETHERNET_TYPE, frame, key),
        Link::Cooked => extract_typed(COOKED_HEADER, COOKED_TYPE, frame, key),
        Link::CookedV2 => extract_typed(COOKED_V2_HEADER, COOKED_V2_TYPE, frame, key),
        Link::Raw => extract_raw(frame, key),
        Link::Ip4 => extract_ip4(frame, key),
        Link::Ip6 => extract_ip6(frame, key),
    }
}

/// The class of a frame whose header has this length and the type at this place.
#[inline(always)]
fn extract_typed(header_len: usize, type_at: usize, frame: &[u8], key: &mut KeyBuf) -> Class
    requires { type_at + 2 ≤ header_len }
    ensures { Extracts (typed_class header_len type_at frame.now)
        key.old.bytes key.new.bytes result }
{
    if frame.len() < header_len {
        return Class::Short;
    }
    let (ethertype, payload) = (network_u16_at(frame, type_at), &frame[header_len..]);
    match ethertype {
        IP4 => extract_ip4(payload, key),
        IP6 => extract_ip6(payload, key),
        CUSTOMER_TAG | SERVICE_TAG => extract_tagged(ethertype, payload, key),
        _ => Class::Other,
    }
}

/// The class of what stands after a type, which is that of a tag, by the type after up to two tags.
#[inline(never)]
fn extract_tagged(ethertype: u16, payload: &[u8], key: &mut KeyBuf) -> Class
    ensures { Extracts (class_after_type ethertype payload.now) key.old.bytes key.new.bytes result }
{
    match after_two_tags(ethertype, payload) {
        Some((IP4, packet)) => extract_ip4(packet, key),
        Some((IP6, packet)) => extract_ip6(packet, key),
        Some(_) => Class::Other,
        None => Class::Short,
    }
}

/// The type after up to two tags, and what stands after it, or `None` where a tag is cut.
#[inline]
fn after_two_tags(ethertype: u16, payload: &[u8]) -> Option<(u16, &[u8])>
    ensures some { IfSome result
        (λ after. after_tags 2 ethertype payload.now ≡ Ok (after.0, after.1.now)) }
    ensures none { IsNone result → after_tags 2 ethertype payload.now ≡ Err classes.Short }
{
    if !is_tag(ethertype) {
        return Some((ethertype, payload));
    }
    let (ethertype, payload) = after_tag(ethertype, payload)?;
    after_tag(ethertype, payload)
}

/// The type after a tag, if `ethertype` stands in front of one, and what stands after that type,
/// or `None` where the tag is cut.
#[inline]
fn after_tag(ethertype: u16, payload: &[u8]) -> Option<(u16, &[u8])>
    ensures some { IfSome result
        (λ after. after_tags 1 ethertype payload.now ≡ Ok (after.0, after.1.now)) }
    ensures none { IsNone result → after_tags 1 ethertype payload.now ≡ Err classes.Short }
{
    if !is_tag(ethertype) {
        return Some((ethertype, payload));
    }
    if payload.len() < TAG {
        return None;
    }
    Some((network_u16_at(payload, TAG_TYPE), &payload[TAG..]))
}

/// Whether a type is that of a tag.
#[inline]
fn is_tag(ethertype: u16) -> bool
    ensures { result ≡ is_tag ethertype }
{
    matches!(ethertype, CUSTOMER_TAG | SERVICE_TAG)
}

/// The class of a packet without a header in front, by its version.
fn extract_raw(frame: &[u8], key: &mut KeyBuf) -> Class
    ensures { Extracts (raw_class frame.now) key.old.bytes key.new.bytes result }
{
    let Some(first) = frame.first() else {
        return Class::Short;
    };
    match first >> 4 {
        4 => extract_ip4(frame, key),
        6 => extract_ip6(frame, key),
        _ => Class::Other,
    }
}
