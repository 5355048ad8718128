//! IPv6 addresses in text.

ghost use Rattle.std.specs.Prelude.{◌≡◌, ◌+◌, ◌≤◌, ◌/◌, ◌%◌, ◌^◌, ◌<◌, if◌then◌else◌, length, take};
ghost use Rattle.std.specs.Prelude.{drop, IfSome};
ghost use Rattle.text_scan.specs.Ip6.{gap_place, has_gap, ip6_of};
ghost use Rattle.text_scan.specs.Ip6Text.{ip6_spelling};

use crate::digits::put_groups;
use crate::pieces::{first_pieces, last_pieces};

/// How many groups may be written beside `::`, which stands for one or more.
const MOST_BESIDE_GAP: u32 = 7;

/// The IPv6 address that the whole text spells: eight groups of one to four hexadecimal digits of
/// either case, parted by `:`.
///
/// `::` may stand once, for one or more groups of zeros, and an IPv4 address for the last two
/// groups of the text. The first group is the most significant. None exactly where the text has
/// another form, as with a zone or a prefix length. It takes no memory. Source: RFC 4291, section
/// 2.2.
pub fn ip6_text(bytes: &[u8]) -> Option<u128>
    ensures { result ≡ ip6_of bytes.now }
{
    let Some(place) = find_gap(bytes) else {
        let pieces = last_pieces(bytes)?;
        return (pieces.count == 8).then_some(pieces.value);
    };
    let before = first_pieces(&bytes[..place])?;
    let after = last_pieces(&bytes[place + 2..])?;
    if before.count + after.count > MOST_BESIDE_GAP {
        return None;
    }
    // Two shifts: with nothing before `::` one alone would be by all 128 bits, which isn't defined.
    let above = before.value << (16 * (7 - before.count)) << 16;
    Some(above + after.value)
}

/// The place of the first `::`.
fn find_gap(text: &[u8]) -> Option<usize>
    ensures within { IfSome result (λ place. place + 2 ≤ length text.now) }
    ensures first { result ≡ (if has_gap text.now then Some (gap_place text.now) else None) }
{
    for place in 0..text.len() {
        if text[place..].starts_with(b"::") {
            return Some(place);
        }
    }
    None
}

/// Prints an IPv6 address as eight groups of lower-case hexadecimal digits, without leading zeros
/// and without `::`, and gives the length of the text.
///
/// The text has at most 39 bytes and stands at the beginning of `into`; the bytes after it stay as
/// they are. It refuses nothing and takes no memory. Source: RFC 4291, section 2.2, form 1.
pub fn put_ip6(value: u128, into: &mut [u8; 40]) -> usize
    ensures len { result ≡ length (ip6_spelling value) }
    ensures fits { result ≤ 39 }
    ensures text { take result into.new ≡ ip6_spelling value }
    ensures after { drop result into.new ≡ drop result into.old }
{
    let pieces = [
        piece_at(value, 7),
        piece_at(value, 6),
        piece_at(value, 5),
        piece_at(value, 4),
        piece_at(value, 3),
        piece_at(value, 2),
        piece_at(value, 1),
        piece_at(value, 0),
    ];
    put_groups(&pieces, 16, b':', into)
}

/// The number of 16 bits at a place of the address, counted from the last one.
fn piece_at(value: u128, place: u32) -> u16
    requires { place < 8 }
    ensures { result ≡ value / 65536 ^ place % 65536 }
{
    (value >> (16 * place) & 0xffff) as u16
}
