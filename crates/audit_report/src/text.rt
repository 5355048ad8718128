//! Pieces of a text, each put after those that stand already.

ghost use Rattle.std.specs.Prelude.{◌≡◌, ◌<◌, ◌++◌, codes, decimal, slice_index_or, OnOk};
ghost use Rattle.audit_report.specs.Key.{hex_digits, byte_text, hex_text};

use acl_report::{LINE_ROOM, append_number};
use std::alloc::AllocError;

/// Puts a piece after the text.
pub(crate) fn push_piece(text: &mut Vec<u8>, piece: &[u8]) -> Result<(), AllocError>
    ensures { OnOk result (text.new.items ≡ text.old.items ++ piece.now) }
{
    text.extend_from_slice(piece)
}

/// Puts a number in decimal digits after the text.
pub(crate) fn push_number(text: &mut Vec<u8>, number: u64) -> Result<(), AllocError>
    ensures { OnOk result (text.new.items ≡ text.old.items ++ decimal number) }
{
    let mut digits = [0; LINE_ROOM];
    let len = append_number(&mut digits, 0, number);
    push_piece(text, &digits[..len])
}

/// The hexadecimal digit of a number, in lower case.
fn hex_digit(number: u8) -> u8
    requires { number < 16 }
    ensures { result ≡ slice_index_or hex_digits number 0 }
{
    b"0123456789abcdef"[usize::from(number)]
}

/// Puts the two hexadecimal digits of a byte after the text.
fn push_byte(text: &mut Vec<u8>, byte: u8) -> Result<(), AllocError>
    ensures { OnOk result (text.new.items ≡ text.old.items ++ byte_text byte) }
{
    push_piece(text, &[hex_digit(byte / 16), hex_digit(byte % 16)])
}

/// Puts the bytes of a key after the text, each in two hexadecimal digits.
pub(crate) fn push_key(text: &mut Vec<u8>, key: &[u8]) -> Result<(), AllocError>
    ensures { OnOk result (text.new.items ≡ text.old.items ++ hex_text key.now) }
{
    for place in 0..key.len() {
        push_byte(text, key[place])?;
    }
    Ok(())
}
