//! Numbers, protocols, ports and networks, as a word spells them.

ghost use Rattle.std.specs.Prelude.{◌≡◌, ◌≤◌, ◌<◌, ◌^◌, IfSome};
ghost use Rattle.list_packets.specs.Values.{address_alone, address_of, closed_span, filled_range};
ghost use Rattle.list_packets.specs.Values.{filled_span, has_ports, wide_span};
ghost use Rattle.list_packets.specs.Values.{ip4_spans, ip4_plain, ip6_spans};
ghost use Rattle.list_packets.specs.Values.{is_plain, most_bits, network_of};
ghost use Rattle.list_packets.specs.Values.{plain_number, port_or, port_span, prefix_span};
ghost use Rattle.list_packets.specs.Values.{protocol_span, range_of, spans_of_address};

use field_defs::Family;
use list_chains::Span;
use text_scan::{digits_value, ip4_text, ip6_text, put_ip4, split_once};

/// The greatest port.
pub const MAX_PORT: u64 = 65_535;

/// The greatest number of a protocol.
const MAX_PROTOCOL: u64 = 255;

/// The spans of an address's two halves of 64 bits. An IPv4 address has the low one alone.
#[derive(Clone, Copy)]
pub struct AddressSpans {
    /// The numbers of the first 64 bits.
    pub high: Span,
    /// The numbers of the last 64 bits.
    pub low: Span,
}

/// The addresses from one to another.
#[derive(Clone, Copy)]
pub struct AddressRange {
    /// The first of them.
    pub low: u128,
    /// The last of them.
    pub high: u128,
}

/// The number that a word spells in decimal, without leading zeros and at most so great.
/// It takes no memory.
pub fn plain_number(word: &[u8], greatest: u64) -> Option<u64>
    ensures number { result ≡ plain_number greatest word.now }
    ensures bound { IfSome result (λ number. number ≤ greatest) }
{
    if !is_plain(word) {
        return None;
    }
    let number = digits_value(word, 10)?;
    (number <= greatest).then_some(number)
}

/// Whether a word has a byte, and no zero before others.
fn is_plain(word: &[u8]) -> bool
    ensures { result ≡ is_plain word.now }
{
    !matches!(word, [] | [b'0', _, ..])
}

/// The span of a port, or of two around `:`, the lower first. It takes no memory.
///
/// Source: iptables-extensions(8), "multiport".
pub fn closed_span(word: &[u8]) -> Option<Span>
    ensures { result ≡ closed_span word.now }
{
    match split_once(word, b':') {
        Some((low, high)) => {
            let low = plain_number(low, MAX_PORT)?;
            wide_span(low, plain_number(high, MAX_PORT)?)
        }
        None => {
            let port = plain_number(word, MAX_PORT)?;
            filled_span(port, port)
        }
    }
}

/// The same, where the least port may be left out before `:`, and the greatest after it. It takes
/// no memory.
///
/// Source: iptables-extensions(8), "tcp".
pub fn port_span(word: &[u8]) -> Option<Span>
    ensures { result ≡ port_span word.now }
{
    match split_once(word, b':') {
        Some((low, high)) => {
            let low = port_or(low, 0)?;
            filled_span(low, port_or(high, MAX_PORT)?)
        }
        None => closed_span(word),
    }
}

/// A port, or another one where it is left out.
fn port_or(text: &[u8], other: u64) -> Option<u64>
    ensures { result ≡ port_or other text.now }
{
    if text.is_empty() {
        return Some(other);
    }
    plain_number(text, MAX_PORT)
}

/// The span from one number to another that is above it.
fn wide_span(low: u64, high: u64) -> Option<Span>
    ensures { result ≡ wide_span low high }
{
    if low == high {
        return None;
    }
    filled_span(low, high)
}

/// The span from one number to another, if that isn't below the first.
fn filled_span(low: u64, high: u64) -> Option<Span>
    ensures { result ≡ filled_span low high }
{
    if low <= high {
        Some(Span { low, high })
    } else {
        None
    }
}

/// How many bits an address of the family has.
pub fn most_bits(family: Family) -> u64
    ensures is { result ≡ most_bits family }
    ensures few { result ≤ 128 }
{
    match family {
        Family::Ip4 => 32,
        Family::Ip6 => 128,
    }
}

/// The halves of an address with a prefix length, or without, where all bits count. It takes no
/// memory.
///
/// Source: RFC 4632, 3.1, and RFC 4291, 2.3 (prefixes).
pub fn network(family: Family, word: &[u8]) -> Option<AddressSpans>
    ensures { result ≡ network_of family word.now }
{
    match split_once(word, b'/') {
        Some((text, bits)) => {
            let bits = plain_number(bits, most_bits(family))?;
            spans_of_address(family, text, bits)
        }
        None => spans_of_address(family, word, most_bits(family)),
    }
}

/// The halves of an address alone, whose text is that of [`address`]. It takes no memory.
pub fn address_alone(family: Family, text: &[u8]) -> Option<AddressSpans>
    ensures { result ≡ address_alone family text.now }
{
    spans_of_address(family, text, most_bits(family))
}

/// The number of an address by its text: that of IPv4 as it is printed, without leading zeros, and
/// any one of IPv6. It takes no memory.
///
/// Source: RFC 4291, 2.2 (address texts).
pub fn address(family: Family, text: &[u8]) -> Option<u128>
    ensures { result ≡ address_of family text.now }
{
    match family {
        Family::Ip4 => Some(u128::from(ip4_plain(text)?)),
        Family::Ip6 => ip6_text(text),
    }
}

/// The addresses from one to another around `-`, or one alone. It takes no memory.
///
/// Source: iptables-extensions(8), "iprange".
pub fn address_range(family: Family, word: &[u8]) -> Option<AddressRange>
    ensures { result ≡ range_of family word.now }
{
    match split_once(word, b'-') {
        Some((low, high)) => {
            let low = address(family, low)?;
            filled_range(low, address(family, high)?)
        }
        None => {
            let only = address(family, word)?;
            filled_range(only, only)
        }
    }
}

/// The addresses from one to another, if that isn't below the first. It takes no memory.
pub fn filled_range(low: u128, high: u128) -> Option<AddressRange>
    ensures { result ≡ filled_range low high }
{
    if low <= high {
        Some(AddressRange { low, high })
    } else {
        None
    }
}

/// The halves of an address, of which so many leading bits count: at most those that it has. Its
/// text is that of [`address`]. It takes no memory.
///
/// Source: RFC 4632, 3.1, and RFC 4291, 2.3 (prefixes).
pub fn spans_of_address(family: Family, text: &[u8], bits: u64) -> Option<AddressSpans>
    requires { bits ≤ most_bits family }
    ensures { result ≡ spans_of_address family text.now bits }
{
    match family {
        Family::Ip4 => Some(ip4_spans(ip4_plain(text)?, bits)),
        Family::Ip6 => Some(ip6_spans(ip6_text(text)?, bits)),
    }
}

/// The IPv4 address that a text spells as it is printed, without leading zeros.
fn ip4_plain(text: &[u8]) -> Option<u32>
    ensures { result ≡ ip4_plain text.now }
{
    let address = ip4_text(text)?;
    let mut printed = [0; 40];
    let len = put_ip4(address, &mut printed);
    (text == &printed[..len]).then_some(address)
}

/// The halves of an IPv4 address, of which so many leading bits count.
pub(crate) fn ip4_spans(address: u32, bits: u64) -> AddressSpans
    requires { bits ≤ 32 }
    ensures { result ≡ ip4_spans address bits }
{
    AddressSpans {
        high: prefix_span(0, 64),
        low: prefix_span(u64::from(address), 32 - bits as u32),
    }
}

/// The halves of an IPv6 address, of which so many leading bits count.
pub(crate) fn ip6_spans(address: u128, bits: u64) -> AddressSpans
    requires { bits ≤ 128 }
    ensures { result ≡ ip6_spans address bits }
{
    let bits = bits as u32;
    AddressSpans {
        high: prefix_span((address >> 64) as u64, 64 - bits.min(64)),
        low: prefix_span((address & u128::from(u64::MAX)) as u64, 128 - bits.max(64)),
    }
}

/// The span of the numbers that agree with a number in all but their last free bits.
fn prefix_span(number: u64, free: u32) -> Span
    requires { free ≤ 64 }
    ensures { result ≡ prefix_span number free }
{
    let size = power(free);
    let low = u128::from(number) / size * size;
    Span {
        low: low as u64,
        high: (low + (size - 1)) as u64,
    }
}

/// How many numbers so many free bits have.
fn power(free: u32) -> u128
    requires { free ≤ 64 }
    ensures is { result ≡ 2 ^ free }
    ensures some { 0 < result }
{
    1 << free
}

/// The span of the numbers that a protocol stands for: all of them where its number is 0.
pub fn protocol_span(number: u64) -> Span
    ensures { result ≡ protocol_span number }
{
    if number == 0 {
        return Span {
            low: 0,
            high: MAX_PROTOCOL,
        };
    }
    Span {
        low: number,
        high: number,
    }
}

/// Whether the protocol of a number has ports that keys have: TCP, UDP and SCTP.
pub fn has_ports(number: u64) -> bool
    ensures { result ≡ has_ports number }
{
    number == 6 || number == 17 || number == 132
}
