//! The class of a frame.

/// What a captured frame holds.
#[derive(Clone, Copy, Debug, PartialEq, Eq)]
pub enum Class {
    /// An IPv4 packet, whose key has 13 bytes.
    Ip4,
    /// An IPv6 packet, whose key has 37 bytes.
    Ip6,
    /// Another type of frame, or an IP header of another version or of a length below the least.
    Other,
    /// Too few bytes to tell: a header is cut, or the ports are.
    Short,
}
