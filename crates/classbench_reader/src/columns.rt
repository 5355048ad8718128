//! The columns after the addresses: ports, protocol and flags.

ghost use Rattle.std.specs.Prelude.{◌≡◌, ◌==◌, ◌≤◌, length, IsTrue, IfOk, IfSome, MatchResult, Ok};
ghost use Rattle.std.specs.Prelude.{Err};
ghost use Rattle.text_scan.specs.Parts.{first_word, words_of};
ghost use Rattle.classbench_reader.specs.LineReading.{read_of};
ghost use Rattle.classbench_reader.specs.Columns.{after_colon_of, after_flags, holds_flags};
ghost use Rattle.classbench_reader.specs.Columns.{pair_of, port_of, ports_of, protocol_of};
ghost use Rattle.classbench_reader.specs.Columns.{range_of};
ghost use Rattle.classbench_reader.specs.Lawful.{is_lawful};

use crate::rules_fault::LineKind;
use field_defs::{FieldKind, FieldValue};
use text_scan::{after_blanks, next_word, number, split_once, whole_number};

/// The greatest port.
const MAX_PORT: u64 = 65_535;
/// The greatest number of a flags word.
const MAX_FLAGS: u64 = 65_535;
/// The greatest protocol number, and the greatest mask of one.
const MAX_PROTOCOL: u64 = 255;

/// A range of ports and the text after it: two ports around `:`, with any blanks before each of the
/// three. A blank or nothing follows.
pub fn ports(text: &[u8]) -> Result<(FieldValue, &[u8]), LineKind>
    ensures ports { MatchResult result
        (λ read. ports_of text.now ≡ Ok (read_of read.0 read.1.now))
        (λ kind. ports_of text.now ≡ Err kind) }
    ensures lawful { IfOk result (λ read. IsTrue (is_lawful FieldKind.Range 2 read.0)) }
{
    let (low, rest) = port(text)?;
    let (high, rest) = port(after_colon(after_blanks(rest))?)?;
    range(low, high, rest)
}

/// The range between two ports and the text after it. A blank or nothing follows.
fn range(low: u64, high: u64, rest: &[u8]) -> Result<(FieldValue, &[u8]), LineKind>
    requires low { low ≤ MAX_PORT }
    requires high { high ≤ MAX_PORT }
    ensures range { MatchResult result
        (λ read. range_of low high rest.now ≡ Ok (read_of read.0 read.1.now))
        (λ kind. range_of low high rest.now ≡ Err kind) }
    ensures lawful { IfOk result (λ read. IsTrue (is_lawful FieldKind.Range 2 read.0)) }
{
    if !ends_word(rest) {
        return Err(LineKind::BadPorts);
    }
    if low > high {
        return Err(LineKind::EmptyRange);
    }
    Ok((FieldValue::Range { low, high }, rest))
}

/// The port that the text begins with, after blanks, and the text after it.
fn port(text: &[u8]) -> Result<(u64, &[u8]), LineKind>
    ensures port { MatchResult result
        (λ read. port_of text.now ≡ Ok (read_of read.0 read.1.now))
        (λ kind. port_of text.now ≡ Err kind) }
    ensures bound { IfOk result (λ read. read.0 ≤ MAX_PORT) }
{
    let text = after_blanks(text);
    match number(text, 0, MAX_PORT) {
        Some((port, end)) => Ok((port, &text[end..])),
        None => Err(LineKind::BadPorts),
    }
}

/// What follows a `:`.
fn after_colon(text: &[u8]) -> Result<&[u8], LineKind>
    ensures { MatchResult result
        (λ rest. after_colon_of text.now ≡ Ok rest.now)
        (λ kind. after_colon_of text.now ≡ Err kind) }
{
    match text {
        [b':', rest @ ..] => Ok(rest),
        _ => Err(LineKind::BadPorts),
    }
}

/// Whether a blank or nothing follows.
fn ends_word(rest: &[u8]) -> bool
    ensures { result ≡ (length (first_word rest.now) == 0) }
{
    matches!(rest, [] | [b' ' | b'\t', ..])
}

/// A protocol number and the bits of it that count, as a word spells them.
pub fn protocol(word: &[u8]) -> Result<FieldValue, LineKind>
    ensures protocol { result ≡ protocol_of word.now }
    ensures lawful { IfOk result (λ value. IsTrue (is_lawful FieldKind.Bitmask 1 value)) }
{
    match pair(word, MAX_PROTOCOL) {
        Some((value, mask)) => Ok(FieldValue::Bitmask { value, mask }),
        None => Err(LineKind::BadProtocol),
    }
}

/// The two numbers around the `/` of a word, each of at most so much.
fn pair(word: &[u8], greatest: u64) -> Option<(u64, u64)>
    ensures pair { result ≡ pair_of greatest word.now }
    ensures bound { IfSome result (λ pair. (pair.0 ≤ greatest) × (pair.1 ≤ greatest)) }
{
    let (first, second) = split_once(word, b'/')?;
    Some((
        whole_number(first, greatest)?,
        whole_number(second, greatest)?,
    ))
}

/// The text after the flags, if the next word holds some, and else the text. Flags are ignored in
/// matching.
pub fn after_flags(text: &[u8]) -> Result<&[u8], LineKind>
    ensures { MatchResult result
        (λ rest. after_flags (words_of text.now) ≡ Ok (words_of rest.now))
        (λ kind. after_flags (words_of text.now) ≡ Err kind) }
{
    let Some((word, rest)) = next_word(text) else {
        return Ok(text);
    };
    if !holds_flags(word) {
        return Ok(text);
    }
    match pair(word, MAX_FLAGS) {
        Some(_) => Ok(rest),
        None => Err(LineKind::BadFlags),
    }
}

/// Whether a word has `/` and no `=`.
fn holds_flags(word: &[u8]) -> bool
    ensures { result ≡ holds_flags word.now }
{
    word.contains(&b'/') && !word.contains(&b'=')
}
