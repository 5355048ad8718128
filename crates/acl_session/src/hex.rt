//! Bytes in hexadecimal digits, two for each.

ghost use Rattle.std.specs.Prelude.{◌≡◌, ◌<◌, IfOk, IsTrue};
ghost use Rattle.std.specs.Char.{digit_value, is_digit};
ghost use Rattle.text_scan.specs.Digits.{are_digits};
ghost use Rattle.acl_session.specs.Hex.{are_bytes_in_hex, bytes_in_hex};

use std::alloc::{AllocError, Global};

/// Whether the text is of hexadecimal digits of either case, two for each byte, and of at least
/// one byte.
pub(crate) fn are_bytes_in_hex(text: &[u8]) -> bool
    ensures { result ≡ are_bytes_in_hex text.now }
{
    !text.is_empty() && text.len() % 2 == 0 && are_digits(text)
}

/// Whether the text is of hexadecimal digits alone.
fn are_digits(text: &[u8]) -> bool
    ensures { result ≡ are_digits 16 text.now }
{
    text.iter().all(|byte| char::from(*byte).is_digit(16))
}

/// The bytes of a text of hexadecimal digits, two for each. It takes the memory of the bytes, and
/// want of it is the only error. Source: RFC 4648, section 8.
pub(crate) fn bytes_in_hex(alloc: Global, text: &[u8]) -> Result<Vec<u8>, AllocError>
    requires { IsTrue (are_digits 16 text.now) }
    ensures { IfOk result (λ bytes. bytes.items ≡ bytes_in_hex text.now) }
{
    let mut bytes = Vec::new(alloc);
    let mut left = text;
    while let [high, low, rest @ ..] = left {
        bytes.push(digit(*high) * 16 + digit(*low))?;
        left = rest;
    }
    Ok(bytes)
}

/// The value of a hexadecimal digit.
fn digit(byte: u8) -> u8
    requires { IsTrue (is_digit byte 16) }
    ensures value { result ≡ digit_value byte }
    ensures bound { result < 16 }
{
    match char::from(byte).to_digit(16) {
        Some(value) => value as u8,
        None => unreachable!(),
    }
}
