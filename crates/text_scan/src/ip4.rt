//! IPv4 addresses in text.

ghost use Rattle.std.specs.Prelude.{◌≡◌, ◌≤◌, [], ◌∷◌, if◌then◌else◌, length, take, drop};
ghost use Rattle.text_scan.specs.Digits.{place_value};
ghost use Rattle.text_scan.specs.Ip4.{address_of, ip4_of, is_ip4_group};
ghost use Rattle.text_scan.specs.Ip4Text.{ip4_spelling};

use crate::digits::{group_value, put_groups};
use crate::text_parts::{split_in_two, split_once};

/// The IPv4 address that the whole text spells: four groups of one to three decimal digits, each at
/// most 255, parted by `.`. Leading zeros are accepted, and the first group is the most significant
/// byte.
///
/// None exactly where the text has another form. It takes no memory. Source: RFC 791, section 3.2,
/// for the address; RFC 1123, section 2.1, for its dotted form.
pub fn ip4_text(bytes: &[u8]) -> Option<u32>
    ensures { result ≡ ip4_of bytes.now }
{
    let (first, rest) = split_once(bytes, b'.')?;
    let (second, rest) = split_once(rest, b'.')?;
    let (third, fourth) = split_in_two(rest, b'.')?;
    address_of(first, second, third, fourth)
}

/// The address whose bytes four groups spell, the most significant first.
fn address_of(first: &[u8], second: &[u8], third: &[u8], fourth: &[u8]) -> Option<u32>
    ensures { result ≡ address_of (first.now ∷ second.now ∷ third.now ∷ fourth.now ∷ []) }
{
    Some(u32::from_be_bytes([
        group_byte(first)?,
        group_byte(second)?,
        group_byte(third)?,
        group_byte(fourth)?,
    ]))
}

/// The byte that a group spells: one to three decimal digits, at most 255.
fn group_byte(text: &[u8]) -> Option<u8>
    ensures { result ≡ (if is_ip4_group text.now then Some (place_value 10 text.now) else None) }
{
    u8::try_from(group_value(text, 10, 3)?).ok()
}

/// Prints an IPv4 address in its dotted form, without leading zeros, and gives the length of the
/// text.
///
/// The text has at most 15 bytes and stands at the beginning of `into`; the bytes after it stay as
/// they are. It refuses nothing and takes no memory. Source: RFC 1123, section 2.1.
pub fn put_ip4(value: u32, into: &mut [u8; 40]) -> usize
    ensures len { result ≡ length (ip4_spelling value) }
    ensures fits { result ≤ 15 }
    ensures text { take result into.new ≡ ip4_spelling value }
    ensures after { drop result into.new ≡ drop result into.old }
{
    let [a, b, c, d] = value.to_be_bytes();
    let groups = [u16::from(a), u16::from(b), u16::from(c), u16::from(d)];
    put_groups(&groups, 10, b'.', into)
}
