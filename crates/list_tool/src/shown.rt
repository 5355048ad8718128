//! What a message shows of a text that others wrote.

ghost use Rattle.std.specs.Prelude.{◌≡◌, ◌+◌, ◌<◌, ◌≤◌, ◌++◌, drop, length, map, slice_get, take};
ghost use Rattle.std.specs.Option.{option_map};
ghost use Rattle.acl_report.specs.declared.line.TheConstants.{LINE_ROOM};
ghost use Rattle.text_scan.specs.Parts.{lines_of};
ghost use Rattle.list_tool.specs.declared.shown.TheConstants.{MAX_SHOWN};
ghost use Rattle.list_tool.specs.Shown.{line_at, max_shown, shown, shown_byte};

use acl_report::{LINE_ROOM, append};
use text_scan::split_line;

/// How many bytes of a text are shown.
const MAX_SHOWN: usize = 100;

/// Writes what is shown of a text at the place `at`, and gives the place after it: its first 100
/// bytes, in which all but printed ASCII becomes `?`, and two dots if there are more.
///
/// The bytes before `at` stay. It takes no memory.
pub(crate) fn append_shown(into: &mut [u8; LINE_ROOM], at: usize, text: &[u8]) -> usize
    requires { at + 102 ≤ LINE_ROOM }
    ensures end { result ≤ at + 102 }
    ensures line { take result into.new ≡ take at into.old ++ shown text.now }
{
    if text.len() > MAX_SHOWN {
        let end = append_front(into, at, front(text));
        append(into, end, b"..")
    } else {
        append_front(into, at, text)
    }
}

/// The first 100 bytes of a longer text.
fn front(text: &[u8]) -> &[u8]
    requires { MAX_SHOWN < length text.now }
    ensures short { length result.now ≤ 100 }
    ensures text { result.now ≡ take max_shown text.now }
{
    &text[..MAX_SHOWN]
}

/// Writes the bytes of a text of at most 100 at the place `at`, as they are shown.
fn append_front(into: &mut [u8; LINE_ROOM], at: usize, text: &[u8]) -> usize
    requires short { length text.now ≤ 100 }
    requires room { at + 100 ≤ LINE_ROOM }
    ensures end { result ≤ at + length text.now }
    ensures line { take result into.new ≡ take at into.old ++ map shown_byte text.now }
{
    let mut end = at;
    for place in 0..text.len() {
        end = append(into, end, &[shown_byte(text[place])]);
    }
    end
}

/// A byte of ASCII that is printed, or `?`.
fn shown_byte(byte: u8) -> u8
    ensures { result ≡ shown_byte byte }
{
    if 32 <= byte && byte < 127 { byte } else { b'?' }
}

/// The line of a number, from 1. It takes no memory.
pub(crate) fn line_at(bytes: &[u8], number: u32) -> Option<&[u8]>
    ensures { option_map (λ line. line.now) result ≡ line_at bytes.now number }
{
    if number == 0 {
        None
    } else {
        line_after(bytes, number - 1)
    }
}

/// The line after so many lines.
fn line_after(bytes: &[u8], count: u32) -> Option<&[u8]>
    ensures { option_map (λ line. line.now) result ≡ slice_get (lines_of bytes.now) count }
{
    first_line(lines_from(bytes, count))
}

/// A text without so many lines at its beginning.
fn lines_from(bytes: &[u8], count: u32) -> &[u8]
    ensures { lines_of result.now ≡ drop count (lines_of bytes.now) }
{
    let mut left = bytes;
    for _ in 0..count {
        match split_line(left) {
            Some((_, rest)) => left = rest,
            None => return left,
        }
    }
    left
}

/// The first line of a text.
fn first_line(text: &[u8]) -> Option<&[u8]>
    ensures { option_map (λ line. line.now) result ≡ slice_get (lines_of text.now) 0 }
{
    match split_line(text) {
        Some((line, _)) => Some(line),
        None => None,
    }
}
