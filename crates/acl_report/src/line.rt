//! Lines that are written piece by piece into a buffer, without taking memory.

ghost use Rattle.std.specs.Prelude.{◌≡◌, ◌+◌, ◌<◌, ◌≤◌, ◌++◌, length, take, decimal};
ghost use Rattle.acl_report.specs.declared.line.TheConstants.{LINE_ROOM};

use itoa::write_digits;

/// How many bytes the buffer of a line has. The longest line has 201.
pub const LINE_ROOM: usize = 256;

/// Writes a piece of a line at the place `at`, and gives the place after it.
///
/// The bytes before `at` stay. It takes no memory.
#[inline]
pub fn append(into: &mut [u8; LINE_ROOM], at: usize, piece: &[u8]) -> usize
    requires { at + length piece.now ≤ LINE_ROOM }
    ensures end { result ≡ at + length piece.now }
    ensures line { take result into.new ≡ take at into.old ++ piece.now }
{
    let end = at + piece.len();
    into[at..end].copy_from_slice(piece);
    end
}

/// Writes a number in decimal digits at the place `at`, and gives the place after it.
///
/// There is room for the 20 digits of the longest number. The bytes before `at` stay. It takes no
/// memory.
#[inline]
pub fn append_number(into: &mut [u8; LINE_ROOM], at: usize, number: u64) -> usize
    requires { at + 20 ≤ LINE_ROOM }
    ensures end { result ≤ at + 20 }
    ensures line { take result into.new ≡ take at into.old ++ decimal number }
{
    append_digits(into, at, number)
}

/// Writes a number of at most 32 bits in decimal digits at the place `at`, where there is room for
/// the 10 digits of the longest, and gives the place after it.
#[inline]
pub(crate) fn append_short(into: &mut [u8; LINE_ROOM], at: usize, number: u32) -> usize
    requires { at + 10 ≤ LINE_ROOM }
    ensures end { result ≤ at + 10 }
    ensures line { take result into.new ≡ take at into.old ++ decimal number }
{
    append_digits(into, at, u64::from(number))
}

/// Writes a number, for whose digits there is room, at the place `at`, and gives the place after
/// it. The digits are written where they stay.
#[inline]
fn append_digits(into: &mut [u8; LINE_ROOM], at: usize, number: u64) -> usize
    requires { at + length (decimal number) ≤ LINE_ROOM }
    ensures end { result ≡ at + length (decimal number) }
    ensures line { take result into.new ≡ take at into.old ++ decimal number }
{
    // The verdict on a packet that no rule matches has one digit.
    if number < 10 {
        append(into, at, &[b'0' + number as u8])
    } else {
        append_counted(into, at, number)
    }
}

/// The same for a number above 0, whose digits are counted.
#[inline]
fn append_counted(into: &mut [u8; LINE_ROOM], at: usize, number: u64) -> usize
    requires some { 0 < number }
    requires room { at + length (decimal number) ≤ LINE_ROOM }
    ensures end { result ≡ at + length (decimal number) }
    ensures line { take result into.new ≡ take at into.old ++ decimal number }
{
    let end = at + digits_in(number);
    write_digits(number, into, end);
    end
}

/// How many decimal digits a number above 0 has.
#[inline]
pub(crate) fn digits_in(number: u64) -> usize
    requires { 0 < number }
    ensures { result ≡ length (decimal number) }
{
    number.ilog10() as usize + 1
}

/// Writes a label and a number after it at the place `at`, and gives the place after them.
///
/// The label has the spaces around it. There is room for it and for the 20 digits of the longest
/// number. The bytes before `at` stay. It takes no memory.
#[inline]
pub(crate) fn append_count(into: &mut [u8; LINE_ROOM], at: usize, label: &[u8], count: u64) -> usize
    requires { at + length label.now + 20 ≤ LINE_ROOM }
    ensures end { result ≤ at + length label.now + 20 }
    ensures line { take result into.new ≡ take at into.old ++ label.now ++ decimal count }
{
    let at = append(into, at, label);
    append_number(into, at, count)
}
