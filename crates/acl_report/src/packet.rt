//! The line of a packet.

ghost use Rattle.std.specs.Prelude.{◌≡◌, ◌+◌, ◌*◌, ◌≤◌, ◌∷◌, ◌++◌, [], length, map, take};
ghost use Rattle.acl_report.specs.declared.line.TheConstants.{LINE_ROOM};
ghost use Rattle.acl_report.specs.declared.packet.TheConstants.{MAX_VERDICTS, VERDICT_ROOM};
ghost use Rattle.acl_report.specs.Line.{line_feed, space, spaced};
ghost use Rattle.acl_report.specs.Packet.{answer_word, answer_words, class_word, packet_text};
ghost use Rattle.acl_report.specs.Verdicts.{answer, answers};

use crate::line::{LINE_ROOM, append, append_number, append_short};
use crate::number::LineNumber;
use header_extract::Class;
use rule_set::MAX_CATEGORIES;

/// How many categories a line shows at most.
pub const MAX_VERDICTS: usize = MAX_CATEGORIES;

/// How many bytes a verdict takes at most: a space, and 32 bits in decimal digits.
const VERDICT_ROOM: usize = 11;

/// Writes the line of a packet to the front of `into`, and gives its length with its LF.
///
/// The line has the packet's number, the word of its class, and a word for each category: the
/// verdict, or `-` where its dash is true. A class that has no key has a single `-` in their place.
/// `verdicts` and `dashes` have an entry for each category, from category 0 on. It takes no memory.
#[inline(always)]
pub fn packet_line(
    number: u64,
    class: Class,
    verdicts: &[u32],
    dashes: &[bool],
    into: &mut [u8; LINE_ROOM],
) -> usize
    requires categories { length verdicts.now ≤ MAX_VERDICTS }
    requires dashes { length dashes.now ≡ length verdicts.now }
    ensures within { result ≤ LINE_ROOM }
    ensures line { take result into.new
        ≡ packet_text number class (answers verdicts.now dashes.now) }
{
    let at = append_number(into, 0, number);
    append_packet(into, at, class, verdicts, dashes)
}

/// Writes the line of a packet, as [`packet_line`] has it, by the number's own digits. It takes no
/// memory.
#[inline(always)]
pub fn numbered_line(
    number: &LineNumber,
    class: Class,
    verdicts: &[u32],
    dashes: &[bool],
    into: &mut [u8; LINE_ROOM],
) -> usize
    requires categories { length verdicts.now ≤ MAX_VERDICTS }
    requires dashes { length dashes.now ≡ length verdicts.now }
    ensures within { result ≤ LINE_ROOM }
    ensures line { take result into.new
        ≡ packet_text number.now class (answers verdicts.now dashes.now) }
{
    let at = number.begin_line(into);
    append_packet(into, at, class, verdicts, dashes)
}

/// Writes what a line has after its number: the word of the class, a word for each category, and
/// LF.
#[inline(always)]
fn append_packet(
    into: &mut [u8; LINE_ROOM],
    at: usize,
    class: Class,
    verdicts: &[u32],
    dashes: &[bool],
) -> usize
    requires number { at ≤ 20 }
    requires categories { length verdicts.now ≤ MAX_VERDICTS }
    requires dashes { length dashes.now ≡ length verdicts.now }
    ensures within { result ≤ LINE_ROOM }
    ensures line { take result into.new ≡ take at into.old
        ++ spaced (class_word class ∷ answer_words class (answers verdicts.now dashes.now))
        ++ line_feed ∷ [] }
{
    let at = match class {
        Class::Ip4 => {
            let at = append(into, at, b" ip4");
            append_answers(into, at, verdicts, dashes)
        }
        Class::Ip6 => {
            let at = append(into, at, b" ip6");
            append_answers(into, at, verdicts, dashes)
        }
        Class::Other => append(into, at, b" other -"),
        Class::Short => append(into, at, b" short -"),
    };
    append(into, at, b"\n")
}

/// Writes a word for each category, each after a space.
#[inline(always)]
fn append_answers(
    into: &mut [u8; LINE_ROOM],
    start: usize,
    verdicts: &[u32],
    dashes: &[bool],
) -> usize
    requires dashes { length dashes.now ≡ length verdicts.now }
    requires room { start + length verdicts.now * VERDICT_ROOM ≤ LINE_ROOM }
    ensures end { result ≤ start + length verdicts.now * VERDICT_ROOM }
    ensures line { take result into.new
        ≡ take start into.old ++ spaced (map answer_word (answers verdicts.now dashes.now)) }
{
    let mut at = start;
    // By its place a dash of a constant is known where this is compiled.
    for place in 0..verdicts.len() {
        at = append_answer(into, at, verdicts[place], dashes[place]);
    }
    at
}

/// Writes the word of one category after a space.
#[inline]
fn append_answer(into: &mut [u8; LINE_ROOM], at: usize, verdict: u32, dash: bool) -> usize
    requires { at + VERDICT_ROOM ≤ LINE_ROOM }
    ensures end { result ≤ at + VERDICT_ROOM }
    ensures line { take result into.new
        ≡ take at into.old ++ space ∷ answer_word (answer verdict dash) }
{
    let at = append(into, at, b" ");
    if dash {
        append(into, at, b"-")
    } else {
        append_short(into, at, verdict)
    }
}
