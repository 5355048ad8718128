//! The ports with which TCP, UDP and SCTP begin.
//!
//!     | source port: 2 | destination port: 2 | .. |
//!
//! Sources: RFC 9293, 3.1 (TCP), RFC 768 (UDP), RFC 9260, 3.1 (SCTP).

ghost use Rattle.std.specs.Prelude.{◌≡◌};
ghost use Rattle.header_extract.specs.Extracted.{or_short};
ghost use Rattle.header_extract.specs.Ports.{has_ports, ports_of};

/// How many bytes the two ports have.
pub const PORTS: usize = 4;
/// The bytes of the two ports, in network order.
pub type Ports = [u8; PORTS];
/// The ports of a packet that has none, or has them in an earlier fragment.
pub const NO_PORTS: Ports = [0; PORTS];

/// The protocol number of TCP.
const TCP: u8 = 6;
/// The protocol number of UDP.
const UDP: u8 = 17;
/// The protocol number of SCTP.
const SCTP: u8 = 132;

/// The ports at the front of what stands after the headers, 0 for a protocol that has none, or
/// `None` where they are cut.
#[inline]
pub fn read_ports(protocol: u8, payload: &[u8]) -> Option<Ports>
    ensures { ports_of protocol payload.now ≡ or_short result }
{
    if !has_ports(protocol) {
        return Some(NO_PORTS);
    }
    if payload.len() < PORTS {
        return None;
    }
    Some([payload[0], payload[1], payload[2], payload[3]])
}

/// Whether the packets of a protocol begin with two ports.
#[inline]
fn has_ports(protocol: u8) -> bool
    ensures { result ≡ has_ports protocol }
{
    matches!(protocol, TCP | UDP | SCTP)
}
