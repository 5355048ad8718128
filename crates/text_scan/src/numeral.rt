//! Numbers in text.

ghost use Rattle.std.specs.Prelude.{◌≡◌, ◌-◌, ◌^◌, ◌≤◌, if◌then◌else◌, length, IfSome};
ghost use Rattle.text_scan.specs.Numeral.{begins_hexadecimal, begins_numeral, numeral_at};
ghost use Rattle.text_scan.specs.Numeral.{numeral_len, numeral_value, whole_number};

use crate::digits::leading_digits;

/// The number at place `at` of the bytes, and the place after its last digit. The place is at most
/// the number of bytes.
///
/// A number is decimal digits, or `0x` or `0X` and hexadecimal digits of either case, as many as
/// follow. Leading zeros change nothing, and `0x` without a hexadecimal digit is the number 0
/// before an `x`.
///
/// None exactly where no number stands at the place, or its value is above `max`, however many
/// digits it has. It takes no memory. Source: ISO C, 6.4.4.1, decimal and hexadecimal constants
/// without suffixes; no number here is octal.
pub fn number(bytes: &[u8], at: usize, max: u64) -> Option<(u64, usize)>
    requires { at ≤ length bytes.now }
    ensures { result ≡ numeral_at bytes.now at max }
{
    let (value, len) = leading_number(&bytes[at..])?;
    (value <= max).then_some((value, at + len))
}

/// The number that the whole text is. None where the text isn't a number of at most `max`.
pub fn whole_number(text: &[u8], max: u64) -> Option<u64>
    ensures number { result ≡ whole_number max text.now }
    ensures bound { IfSome result (λ value. value ≤ max) }
{
    let (value, end) = number(text, 0, max)?;
    (end == text.len()).then_some(value)
}

/// The number that the text begins with, and how many bytes it takes. None where its value is above
/// 64 bits.
fn leading_number(text: &[u8]) -> Option<(u64, usize)>
    ensures { result ≡ (if begins_numeral (2 ^ 64 - 1) text.now
        then Some (numeral_value text.now, numeral_len text.now) else None) }
{
    if is_hexadecimal(text) {
        let (value, len) = leading_digits(&text[2..], 16)?;
        return Some((value, 2 + len));
    }
    leading_digits(text, 10)
}

/// Whether the text begins with a number in hexadecimal.
fn is_hexadecimal(text: &[u8]) -> bool
    ensures { result ≡ begins_hexadecimal text.now }
{
    matches!(text, [b'0', b'x' | b'X', digit, ..] if char::from(*digit).is_digit(16))
}
