//! Digits in a base from 2 to 16: what they spell, and numbers written in them.

ghost use Rattle.std.specs.Prelude.{◌≡◌, ◌+◌, ◌-◌, ◌^◌, ◌<◌, ◌≤◌, ◌++◌, ◌⊎◌, ◌&&◌, false, nat_le};
ghost use Rattle.std.specs.Prelude.{if◌then◌else◌, length, take, drop, map};
ghost use Rattle.std.specs.Fmt.{digit_glyph, digits};
ghost use Rattle.std.specs.List.{join_with_byte};
ghost use Rattle.text_scan.specs.Digits.{are_digits, is_group, place_value, run_of};

/// What the digits of the base spell that the text begins with, and how many they are.
///
/// None where it begins with no digit, or where the value is above 64 bits.
pub fn leading_digits(text: &[u8], base: u32) -> Option<(u64, usize)>
    requires low { 2 ≤ base }
    requires high { base ≤ 16 }
    ensures { let run = run_of base text.now in
        result ≡ (if nat_le 1 (length run) && nat_le (place_value base run) (2 ^ 64 - 1)
        then Some (place_value base run, length run) else None) }
{
    let len = run_len(text, base);
    if len == 0 {
        return None;
    }
    Some((digits_value(&text[..len], base)?, len))
}

/// How many digits of the base the text begins with.
fn run_len(text: &[u8], base: u32) -> usize
    requires low { 2 ≤ base }
    requires high { base ≤ 16 }
    ensures { result ≡ length (run_of base text.now) }
{
    text.iter()
        .take_while(|byte| char::from(**byte).is_digit(base))
        .count()
}

/// What a text of digits of the base spells, and 0 for an empty text. None where another byte
/// stands in it, or where the value is above 64 bits.
///
/// The base is 2 to 16. It takes no memory.
pub fn digits_value(text: &[u8], base: u32) -> Option<u64>
    requires low { 2 ≤ base }
    requires high { base ≤ 16 }
    ensures { let value = place_value base text.now in
        result ≡ (if are_digits base text.now && nat_le value (2 ^ 64 - 1)
        then Some value else None) }
{
    let mut value = 0u64;
    for byte in text {
        let digit = char::from(*byte).to_digit(base)?;
        value = value
            .checked_mul(u64::from(base))?
            .checked_add(u64::from(digit))?;
    }
    Some(value)
}

/// The value of a group: digits of the base and nothing else, at least one and at most `most`.
pub fn group_value(text: &[u8], base: u32, most: usize) -> Option<u16>
    requires low { 2 ≤ base }
    requires high { base ≤ 16 }
    requires short { most ≤ 4 }
    ensures { result ≡
        (if is_group base most text.now then Some (place_value base text.now) else None) }
{
    if text.is_empty() || most < text.len() {
        return None;
    }
    Some(digits_value(text, base)? as u16)
}

/// Writes numbers in the base at the beginning of `into`, separated by the separator, and gives the
/// length of the text.
///
/// The base is 10 or 16. The bytes of `into` after the text stay as they are.
pub fn put_groups(groups: &[u16], base: u16, separator: u8, into: &mut [u8; 40]) -> usize
    requires base { (base ≡ 10) ⊎ (base ≡ 16) }
    requires room { length (join_with_byte separator (map (digits base false) groups.now)) ≤ 40 }
    ensures len { result ≡
        length (join_with_byte separator (map (digits base false) groups.now)) }
    ensures text { take result into.new ≡
        join_with_byte separator (map (digits base false) groups.now) }
    ensures after { drop result into.new ≡ drop result into.old }
{
    let mut len = 0;
    for (place, group) in groups.iter().enumerate() {
        if place > 0 {
            into[len] = separator;
            len += 1;
        }
        len = put_digits(*group, base, into, len);
    }
    len
}

/// Writes a value in the base at place `at` of `into`, without leading zeros, and gives the place
/// after it.
fn put_digits(value: u16, base: u16, into: &mut [u8; 40], at: usize) -> usize
    requires base { (base ≡ 10) ⊎ (base ≡ 16) }
    requires room { at + length (digits base false value) ≤ 40 }
    ensures len { result ≡ at + length (digits base false value) }
    ensures text { take result into.new ≡ take at into.old ++ digits base false value }
    ensures after { drop result into.new ≡ drop result into.old }
{
    let place = if value < base {
        at
    } else {
        put_digits(value / base, base, into, at)
    };
    into[place] = digit_char((value % base) as u8);
    place + 1
}

/// The character of a digit: `0` to `9`, and `a` to `f` from 10 on.
fn digit_char(digit: u8) -> u8
    requires { digit < 16 }
    ensures { result ≡ digit_glyph false digit }
{
    if digit < 10 {
        b'0' + digit
    } else {
        b'a' + (digit - 10)
    }
}
