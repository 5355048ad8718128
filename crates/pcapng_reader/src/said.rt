//! What a block says.

use pcap_reader::Link;

/// What a block says.
#[derive(Clone, Copy)]
pub enum Said {
    /// A section begins.
    Section,
    /// The section has an interface of this link type, if it is one that is read.
    Interface(Option<Link>),
    /// So many captured bytes of a packet, whose interface has this link type.
    Packet(Link, u32),
    /// Nothing that is read.
    Other,
}
