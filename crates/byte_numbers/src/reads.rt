//! Numbers that stand at a place of some bytes.
//!
//! All calls take no memory and refuse nothing. The order of a generic call is one of byteorder's,
//! as `BigEndian` for network order; the calls named for an order are for callers that know it.

ghost use Rattle.std.specs.Prelude.{◌≡◌, ◌+◌, ◌<◌, ◌≤◌, ◌^◌, length, drop};
ghost use Rattle.byte_numbers.specs.Number.{mirrored_number_at, number_at, number_of};

use byteorder::{BigEndian, ByteOrder, LittleEndian};

/// The number of the two bytes from place `at` on, in the order `B`.
pub fn u16_at<B: ByteOrder>(bytes: &[u8], at: usize) -> u16
    requires { at + 2 ≤ length bytes.now }
    ensures { result ≡ B.number_of 2 (drop at bytes.now) }
{
    B::read_u16(&bytes[at..])
}

/// The number of the four bytes from place `at` on, in the order `B`.
pub fn u32_at<B: ByteOrder>(bytes: &[u8], at: usize) -> u32
    requires { at + 4 ≤ length bytes.now }
    ensures { result ≡ B.number_of 4 (drop at bytes.now) }
{
    B::read_u32(&bytes[at..])
}

/// The number of the eight bytes from place `at` on, in the order `B`.
pub fn u64_at<B: ByteOrder>(bytes: &[u8], at: usize) -> u64
    requires { at + 8 ≤ length bytes.now }
    ensures { result ≡ B.number_of 8 (drop at bytes.now) }
{
    B::read_u64(&bytes[at..])
}

/// The number of the two bytes from place `at` on, in network order.
pub fn network_u16_at(bytes: &[u8], at: usize) -> u16
    requires { at + 2 ≤ length bytes.now }
    ensures { result ≡ number_at bytes.now at 2 }
{
    u16_at::<BigEndian>(bytes, at)
}

/// The number of the four bytes from place `at` on, in network order.
pub fn network_u32_at(bytes: &[u8], at: usize) -> u32
    requires { at + 4 ≤ length bytes.now }
    ensures { result ≡ number_at bytes.now at 4 }
{
    u32_at::<BigEndian>(bytes, at)
}

/// The number of the eight bytes from place `at` on, in network order.
pub fn network_u64_at(bytes: &[u8], at: usize) -> u64
    requires { at + 8 ≤ length bytes.now }
    ensures { result ≡ number_at bytes.now at 8 }
{
    u64_at::<BigEndian>(bytes, at)
}

/// The number of the two bytes from place `at` on, in the mirror order.
pub fn mirrored_u16_at(bytes: &[u8], at: usize) -> u16
    requires { at + 2 ≤ length bytes.now }
    ensures { result ≡ mirrored_number_at bytes.now at 2 }
{
    u16_at::<LittleEndian>(bytes, at)
}

/// The number of the four bytes from place `at` on, in the mirror order.
pub fn mirrored_u32_at(bytes: &[u8], at: usize) -> u32
    requires { at + 4 ≤ length bytes.now }
    ensures { result ≡ mirrored_number_at bytes.now at 4 }
{
    u32_at::<LittleEndian>(bytes, at)
}

/// The number of the eight bytes from place `at` on, in the mirror order.
pub fn mirrored_u64_at(bytes: &[u8], at: usize) -> u64
    requires { at + 8 ≤ length bytes.now }
    ensures { result ≡ mirrored_number_at bytes.now at 8 }
{
    u64_at::<LittleEndian>(bytes, at)
}

/// The number that at most eight bytes spell in network order, and 0 where there is none.
pub fn network_number(bytes: &[u8]) -> u64
    requires { length bytes.now ≤ 8 }
    ensures number { result ≡ number_of bytes.now }
    ensures bound { result < 256 ^ length bytes.now }
{
    if bytes.is_empty() {
        return 0;
    }
    BigEndian::read_uint(bytes, bytes.len())
}
