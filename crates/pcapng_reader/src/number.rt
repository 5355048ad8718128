//! Numbers in the order of a section.

ghost use Rattle.std.specs.Prelude.{◌≡◌, ◌+◌, ◌≤◌, length};
ghost use Rattle.pcap_reader.specs.Headers.{number_in};

use byte_numbers::{mirrored_u16_at, mirrored_u32_at, network_u16_at, network_u32_at};
use pcap_reader::Order;

/// The number of the two bytes from place `at` on.
pub fn u16_in(order: Order, bytes: &[u8], at: usize) -> u16
    requires { at + 2 ≤ length bytes.now }
    ensures { result ≡ number_in order bytes.now at 2 }
{
    match order {
        Order::Big => network_u16_at(bytes, at),
        Order::Little => mirrored_u16_at(bytes, at),
    }
}

/// The number of the four bytes from place `at` on.
#[inline]
pub fn u32_in(order: Order, bytes: &[u8], at: usize) -> u32
    requires { at + 4 ≤ length bytes.now }
    ensures { result ≡ number_in order bytes.now at 4 }
{
    match order {
        Order::Big => network_u32_at(bytes, at),
        Order::Little => mirrored_u32_at(bytes, at),
    }
}
