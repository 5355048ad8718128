//! The lines of packets, one after the other, and those after them.

ghost use Rattle.std.specs.Prelude.{◌≡◌, ◌+◌, ◌*◌, ◌≤◌, ◌++◌, [], drop, length, replicate, take};
ghost use Rattle.std.specs.Prelude.{false, true};
ghost use Rattle.acl_report.specs.declared.line.TheConstants.{LINE_ROOM};
ghost use Rattle.acl_report.specs.declared.packet.TheConstants.{MAX_VERDICTS};
ghost use Rattle.acl_report.specs.Packet.{packet_text};
ghost use Rattle.acl_report.specs.Verdicts.{answers};
ghost use Rattle.capture_report.specs.Classifier.{ByTables};
ghost use Rattle.capture_report.specs.Report.{counted_all, line_of_packet, line_of_table};
ghost use Rattle.capture_report.specs.Report.{lines_of_packets};
ghost use Rattle.capture_report.specs.CaptureOutcome.{last_text};
ghost use Rattle.capture_report.specs.Batch.{AreAnswered, AreInFront, AreMarked, AreNext};
ghost use Rattle.capture_report.specs.Batch.{dashes_on, verdicts_on};

use crate::form::FormByTables;
use crate::packet::Packet;
use acl_report::{
    Counts, LINE_ROOM, LineNumber, MAX_VERDICTS, numbered_line, packets_line, table_line,
    transitions_line,
};
use field_defs::Family;
use flat_table::Table;
use header_extract::Class;

/// What is answered for the packets of a family, one packet after the other.
#[derive(Clone, Copy)]
pub struct FamilyAnswers<'a> {
    /// The verdicts.
    pub verdicts: &'a [u32],
    /// Where the form asks for marks: beside each verdict whether a dash is shown for it.
    pub dashes: &'a [bool],
}

/// Writes the lines of packets to the front of `lines`, counts the packets, and says how many bytes
/// the lines have.
///
/// The first has the number after those that were counted. `ip4` and `ip6` have the answers for
/// the packets of each family, in order. `lines` has [`LINE_ROOM`] bytes for each packet. It takes
/// no memory.
pub fn write_lines(
    form: &FormByTables<'_>,
    packets: &[Packet],
    ip4: FamilyAnswers<'_>,
    ip6: FamilyAnswers<'_>,
    counts: &mut Counts,
    lines: &mut [u8],
) -> usize
    requires next { AreNext counts.old packets.now }
    requires answered { AreAnswered form.now packets.now ip4.verdicts.now ip6.verdicts.now }
    requires marked { form.now.marks ≡ true
        → AreMarked form.now packets.now ip4.dashes.now ip6.dashes.now }
    requires room { length packets.now * LINE_ROOM ≤ length lines.old }
    ensures within { result ≤ length lines.old }
    ensures lines { take result lines.new
        ≡ lines_of_packets form.now (counts.old.packets + 1) packets.now }
    ensures counts { counts.new ≡ counted_all packets.now counts.old }
    ensures len { length lines.new ≡ length lines.old }
{
    // What depends on the marks, and on a single category, is settled once, and not line by line.
    let one = form.categories().count() == 1;
    match (form.has_marks(), one) {
        (true, true) => write_each::<true, true>(form, packets, ip4, ip6, counts, lines),
        (true, false) => write_each::<true, false>(form, packets, ip4, ip6, counts, lines),
        (false, true) => write_each::<false, true>(form, packets, ip4, ip6, counts, lines),
        (false, false) => write_each::<false, false>(form, packets, ip4, ip6, counts, lines),
    }
}

/// The same, where it is known whether marks are asked for, and whether a single category is shown.
fn write_each<const MARKS: bool, const ONE: bool>(
    form: &FormByTables<'_>,
    packets: &[Packet],
    mut ip4: FamilyAnswers<'_>,
    mut ip6: FamilyAnswers<'_>,
    counts: &mut Counts,
    lines: &mut [u8],
) -> usize
    requires marks { form.now.marks ≡ MARKS }
    requires one { ONE ≡ true → form.now.categories ≡ 1 }
    requires next { AreNext counts.old packets.now }
    requires answered { AreAnswered form.now packets.now ip4.verdicts.now ip6.verdicts.now }
    requires marked { form.now.marks ≡ true
        → AreMarked form.now packets.now ip4.dashes.now ip6.dashes.now }
    requires room { length packets.now * LINE_ROOM ≤ length lines.old }
    ensures within { result ≤ length lines.old }
    ensures lines { take result lines.new
        ≡ lines_of_packets form.now (counts.old.packets + 1) packets.now }
    ensures counts { counts.new ≡ counted_all packets.now counts.old }
    ensures len { length lines.new ≡ length lines.old }
{
    let count = shown_categories::<ONE>(form);
    let mut line = LineNumber::new(counts.packets + 1);
    let mut at = 0;
    for packet in packets {
        // Each class has a call of its own, in which what depends on the class is settled.
        let class = packet.class();
        counts.add(class);
        at = match class {
            Class::Ip4 => put_own::<MARKS>(form, packet, class, &mut ip4, count, &line, lines, at),
            Class::Ip6 => put_own::<MARKS>(form, packet, class, &mut ip6, count, &line, lines, at),
            Class::Other | Class::Short => {
                write_line(form, packet, class, &[], &[], &line, lines, at)
            }
        };
        line.advance();
    }
    at
}

/// Writes the line of a packet of a family, whose answers stand in front of those that are left of
/// the family, and takes them off.
#[inline(always)]
fn put_own<const MARKS: bool>(
    form: &FormByTables<'_>,
    packet: &Packet,
    class: Class,
    left: &mut FamilyAnswers<'_>,
    count: usize,
    number: &LineNumber,
    lines: &mut [u8],
    at: usize,
) -> usize
    requires marks { form.now.marks ≡ MARKS }
    requires count { count ≡ form.now.categories }
    requires few { count ≤ MAX_VERDICTS }
    requires by_tables { form.now.classifier ≡ ByTables form.now.tables }
    requires class { class ≡ packet.now.class }
    requires front { AreInFront form.now packet.now left.old.verdicts.now left.old.dashes.now }
    requires room { at + LINE_ROOM ≤ length lines.old }
    ensures end { result ≤ at + LINE_ROOM }
    ensures lines { take result lines.new
        ≡ take at lines.old ++ line_of_packet form.now number.now packet.now }
    ensures len { length lines.new ≡ length lines.old }
    ensures verdicts { left.new.verdicts.now ≡ drop count left.old.verdicts.now }
    ensures dashes { form.now.marks ≡ true
        → left.new.dashes.now ≡ drop count left.old.dashes.now }
{
    let verdicts = take_front(&mut left.verdicts, count);
    let dashes = take_dashes::<MARKS>(&mut left.dashes, count);
    write_line(form, packet, class, verdicts, dashes, number, lines, at)
}

/// How many categories are shown of each packet, where it is known whether it is a single one.
#[inline(always)]
fn shown_categories<const ONE: bool>(form: &FormByTables<'_>) -> usize
    requires { ONE ≡ true → form.now.categories ≡ 1 }
    ensures count { result ≡ form.now.categories }
    ensures few { result ≤ MAX_VERDICTS }
    ensures by_tables { form.now.classifier ≡ ByTables form.now.tables }
{
    let count = form.categories().count();
    if ONE { 1 } else { count }
}

/// Takes what belongs to a packet off the front of what is left.
#[inline(always)]
fn take_front<'a, T>(left: &mut &'a [T], count: usize) -> &'a [T]
    requires { count ≤ length left.old.now }
    ensures front { result.now ≡ take count left.old.now }
    ensures rest { left.new.now ≡ drop count left.old.now }
{
    let (front, rest) = left.split_at(count);
    *left = rest;
    front
}

/// No dash is shown.
const NO_DASHES: [bool; MAX_VERDICTS] = [false; MAX_VERDICTS];

/// The dashes of a packet, which are taken off the front of those that are left, or none where
/// marks aren't asked for.
#[inline(always)]
fn take_dashes<'a, const MARKS: bool>(left: &mut &'a [bool], count: usize) -> &'a [bool]
    requires few { count ≤ MAX_VERDICTS }
    requires front { MARKS ≡ true → count ≤ length left.old.now }
    ensures front { MARKS ≡ true → result.now ≡ take count left.old.now }
    ensures rest { MARKS ≡ true → left.new.now ≡ drop count left.old.now }
    ensures none { MARKS ≡ false → result.now ≡ replicate count false }
{
    if MARKS {
        take_front(left, count)
    } else {
        &NO_DASHES[..count]
    }
}

/// Writes the line of a packet of the class and this number at the place `at`, and gives the place
/// after the line.
#[inline(always)]
fn write_line(
    form: &FormByTables<'_>,
    packet: &Packet,
    class: Class,
    verdicts: &[u32],
    dashes: &[bool],
    number: &LineNumber,
    lines: &mut [u8],
    at: usize,
) -> usize
    requires by_tables { form.now.classifier ≡ ByTables form.now.tables }
    requires class { class ≡ packet.now.class }
    requires verdicts { verdicts.now ≡ verdicts_on packet.now.class form.now packet.now.key }
    requires dashes { dashes.now ≡ dashes_on packet.now.class form.now packet.now.key }
    requires few { length verdicts.now ≤ MAX_VERDICTS }
    requires room { at + LINE_ROOM ≤ length lines.old }
    ensures end { result ≤ at + LINE_ROOM }
    ensures lines { take result lines.new
        ≡ take at lines.old ++ line_of_packet form.now number.now packet.now }
    ensures len { length lines.new ≡ length lines.old }
{
    at + write_front(number, class, verdicts, dashes, &mut lines[at..])
}

/// Writes the line of a packet, as [`numbered_line`] has it, to the front of `lines`.
#[inline(always)]
fn write_front(
    number: &LineNumber,
    class: Class,
    verdicts: &[u32],
    dashes: &[bool],
    lines: &mut [u8],
) -> usize
    requires categories { length verdicts.now ≤ MAX_VERDICTS }
    requires dashes { length dashes.now ≡ length verdicts.now }
    requires room { LINE_ROOM ≤ length lines.old }
    ensures within { result ≤ LINE_ROOM }
    ensures line { take result lines.new
        ≡ packet_text number.now class (answers verdicts.now dashes.now) }
    ensures len { length lines.new ≡ length lines.old }
{
    match lines.first_chunk_mut() {
        Some(line) => numbered_line(number, class, verdicts, dashes, line),
        None => unreachable!(),
    }
}

/// Writes the lines after those of a whole capture to the front of `lines`, which has room for
/// four, and says how many bytes they have.
///
/// They are the line of the counts and, where they are asked for, those of the tables and of the
/// transitions. It takes no memory.
pub fn write_last(
    form: &FormByTables<'_>,
    counts: &Counts,
    transitions: u64,
    lines: &mut [u8],
) -> usize
    requires room { 4 * LINE_ROOM ≤ length lines.old }
    ensures within { result ≤ length lines.old }
    ensures lines { take result lines.new ≡ last_text form.now counts.now transitions }
{
    let mut line = [0; LINE_ROOM];
    let len = packets_line(counts, &mut line);
    let end = put_at(lines, 0, &line[..len]);
    if !form.has_stats() {
        return end;
    }
    let end = write_table(Family::Ip4, form.table(Family::Ip4), lines, end);
    let end = write_table(Family::Ip6, form.table(Family::Ip6), lines, end);
    let len = transitions_line(transitions, &mut line);
    put_at(lines, end, &line[..len])
}

/// Writes the line of a table at the place `at`, and gives the place after it.
fn write_table(family: Family, table: &Table, lines: &mut [u8], at: usize) -> usize
    requires room { at + LINE_ROOM ≤ length lines.old }
    ensures end { result ≤ at + LINE_ROOM }
    ensures lines { take result lines.new ≡ take at lines.old ++ line_of_table family table.now }
    ensures len { length lines.new ≡ length lines.old }
{
    let mut line = [0; LINE_ROOM];
    let (rules, words) = (table.rules(), table.total_words());
    let len = table_line(family, rules, table.tries(), words, &mut line);
    put_at(lines, at, &line[..len])
}

/// Writes bytes at the place `at`, and gives the place after them.
#[inline]
pub fn put_at(into: &mut [u8], at: usize, bytes: &[u8]) -> usize
    requires room { at + length bytes.now ≤ length into.old }
    ensures end { result ≡ at + length bytes.now }
    ensures bytes { take result into.new ≡ take at into.old ++ bytes.now }
    ensures len { length into.new ≡ length into.old }
{
    let end = at + bytes.len();
    into[at..end].copy_from_slice(bytes);
    end
}
