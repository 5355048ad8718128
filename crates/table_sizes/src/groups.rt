//! The bytes of a key, and the groups in which they are read.

ghost use Rattle.std.specs.Prelude.{◌≡◌, ◌<◌};
ghost use Rattle.table_sizes.specs.Groups.{group_of, is_kept, max_key_len};

/// The most bytes that a key has: one, and 63 fields of 8.
pub const MAX_KEY_LEN: usize = 505;

/// How many bytes the key of an IPv4 packet has: the protocol, two addresses (RFC 791, 3.1) and two
/// ports.
pub const IP4_KEY_LEN: usize = 13;

/// How many bytes the key of an IPv6 packet has: the protocol, two addresses (RFC 8200, 3) and two
/// ports.
pub const IP6_KEY_LEN: usize = 37;

/// How many bytes a group has, but for group 0, which has one.
pub const GROUP_LEN: usize = 4;

/// The group in which the place of a key lies: 0 for place 0, and g for the places 4g - 3 to 4g.
/// It takes no memory.
///
/// Source: DPDK Programmer's Guide, "Packet Classification and Access Control".
pub fn group_of(place: usize) -> usize
    requires { place < max_key_len }
    ensures value { result ≡ group_of place }
    ensures bound { result < 127 }
{
    (place + (GROUP_LEN - 1)) / GROUP_LEN
}

/// Whether the group of the place is one of the kept groups, which are bits: bit g for group g. It
/// takes no memory.
pub fn is_kept(kept: u128, place: usize) -> bool
    requires { place < max_key_len }
    ensures { result ≡ is_kept kept place }
{
    kept >> group_of(place) & 1 == 1
}
