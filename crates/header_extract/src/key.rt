//! The key of a packet: protocol, source address, destination address, source port and destination
//! port.

ghost use Rattle.std.specs.Prelude.{◌≡◌, ◌+◌, ◌≤◌, ◌∷◌, ◌++◌, length, drop};

use crate::ports::{PORTS, Ports};
use table_sizes::IP6_KEY_LEN;

/// Room for the key of a packet, in network order:
///
///     | protocol: 1 | source: 4 | destination: 4 | source port: 2 | destination port: 2 |
///     | protocol: 1 | source: 16 | destination: 16 | source port: 2 | destination port: 2 |
///
/// The first line is the key of an IPv4 packet, of 13 bytes. The bytes after it are left as they
/// were.
#[derive(Clone, Copy)]
pub struct KeyBuf {
    pub bytes: [u8; IP6_KEY_LEN],
}

impl KeyBuf {
    /// Writes a key at the front, with source and destination address one after the other in
    /// `addresses`.
    #[inline]
    pub fn write(&mut self, protocol: u8, addresses: &[u8], ports: Ports)
        requires { length addresses.now ≤ 32 }
        ensures { self.new.bytes
            ≡ (protocol ∷ addresses.now ++ ports)
            ++ drop (5 + length addresses.now) self.old.bytes }
    {
        let ports_at = 1 + addresses.len();
        self.bytes[0] = protocol;
        self.bytes[1..ports_at].copy_from_slice(addresses);
        self.bytes[ports_at..ports_at + PORTS].copy_from_slice(&ports);
    }
}
