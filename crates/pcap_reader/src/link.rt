//! What the records of a capture begin with.

ghost use Rattle.std.specs.Prelude.{◌≡◌};
ghost use Rattle.pcap_reader.specs.Start.{link_in, link_types};

/// The link type of a capture: which header stands at the front of each of its records.
///
/// Source: the list of link-layer header types of tcpdump.org, with its numbers.
#[derive(Clone, Copy, Debug, PartialEq, Eq)]
pub enum Link {
    /// 1: an Ethernet header of 14 bytes.
    Ethernet,
    /// 101: no header, but an IPv4 or IPv6 packet, as its version says.
    Raw,
    /// 113: a Linux "cooked" header of 16 bytes.
    Cooked,
    /// 276: a Linux "cooked" header, version 2, of 20 bytes.
    CookedV2,
    /// 228: no header, but an IPv4 packet.
    Ip4,
    /// 229: no header, but an IPv6 packet.
    Ip6,
}

impl Link {
    /// The link type of a number, or `None` where it isn't read.
    pub fn of_number(number: u32) -> Option<Link>
        ensures { result ≡ link_in link_types number }
    {
        match number {
            1 => Some(Link::Ethernet),
            101 => Some(Link::Raw),
            113 => Some(Link::Cooked),
            228 => Some(Link::Ip4),
            229 => Some(Link::Ip6),
            276 => Some(Link::CookedV2),
            _ => None,
        }
    }
}
