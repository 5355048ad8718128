//! The number of a line, which is counted up line by line.

ghost use Rattle.std.specs.Prelude.{◌≡◌, ◌+◌, ◌^◌, ◌<◌, ◌≤◌, take, decimal};
ghost use Rattle.acl_report.specs.declared.number.TheConstants.{DIGITS};

use crate::line::{LINE_ROOM, digits_in};
use itoa::write_digits;
use std::marker::Model;

/// How many decimal digits the longest number has.
const DIGITS: usize = 20;

/// The number of a line, above 0, with its decimal digits. Contracts see the number.
///
/// The number after it mostly has the same digits but for the last, so that counting up changes one
/// byte. It takes no memory.
#[derive(Drop)]
pub struct LineNumber {
    number: u64,
    /// The digits stand in front.
    digits: [u8; DIGITS],
    /// How many digits there are.
    len: usize,
}

impl Model for LineNumber {
    ghost use Rattle.std.specs.Prelude.{◌≡◌, ◌<◌, ◌≤◌, ℕ, take, decimal};
    ghost use Rattle.acl_report.specs.declared.number.TheConstants.{DIGITS};

    ghost Value = { ℕ };

    ghost view = { λ line. line.number };

    ghost invariant = { λ line. (0 < line.number) × (line.len ≤ DIGITS)
        × (take line.len line.digits ≡ decimal line.number) };
}

impl LineNumber {
    /// A number above 0. It takes no memory.
    pub fn new(number: u64) -> LineNumber
        requires { 0 < number }
        ensures { result ≡ number }
    {
        let mut digits = [0; DIGITS];
        let len = write_front(&mut digits, number);
        LineNumber {
            number,
            digits,
            len,
        }
    }

    /// Counts up by one. It takes no memory.
    #[inline]
    pub fn advance(&mut self)
        requires { self.old + 1 < 2 ^ 64 }
        ensures { self.new ≡ self.old + 1 }
    {
        self.len = count_up(&mut self.digits, self.len, self.number);
        self.number += 1;
    }

    /// Writes the number to the front of a line, and gives the place after it. What stands after it
    /// is left open.
    #[inline]
    pub(crate) fn begin_line(&self, into: &mut [u8; LINE_ROOM]) -> usize
        ensures end { result ≤ DIGITS }
        ensures line { take result into.new ≡ decimal self.now }
    {
        // Bytes of its own can't be those of the line, so that no test asks whether they are.
        let digits = self.digits;
        into[..DIGITS].copy_from_slice(&digits);
        self.len
    }
}

/// Makes of the digits of a number those of the next, and says how many they are.
#[inline]
fn count_up(digits: &mut [u8; DIGITS], len: usize, number: u64) -> usize
    requires fits { number + 1 < 2 ^ 64 }
    requires few { len ≤ DIGITS }
    requires digits { take len digits.old ≡ decimal number }
    ensures few { result ≤ DIGITS }
    ensures digits { take result digits.new ≡ decimal (number + 1) }
{
    let last = len - 1;
    // Nine times of ten the last digit alone changes.
    if digits[last] < b'9' {
        digits[last] += 1;
        return len;
    }
    write_front(digits, number + 1)
}

/// Writes the digits of a number above 0 to the front, and says how many they are.
fn write_front(digits: &mut [u8; DIGITS], number: u64) -> usize
    requires { 0 < number }
    ensures few { result ≤ DIGITS }
    ensures digits { take result digits.new ≡ decimal number }
{
    let len = digits_in(number);
    write_digits(number, digits, len);
    len
}
