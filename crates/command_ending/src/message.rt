//! The line on standard error that tells how a command ended.

ghost use Rattle.std.specs.Prelude.{◌≡◌, ◌≤◌, ◌+◌, ◌++◌, [], ◌∷◌, length, take};
ghost use Rattle.acl_report.specs.declared.line.TheConstants.{LINE_ROOM};
ghost use Rattle.acl_report.specs.Tables.{family_word};
ghost use Rattle.command_ending.specs.Message.{message, numbered, too_large_text, usage_text};
ghost use Rattle.command_ending.specs.Message.{line_text, capture_text, image_text};
ghost use Rattle.command_ending.specs.Message.{record_of_fault};

use crate::status::Status;
use acl_report::{LINE_ROOM, append, append_number};
use classbench_reader::{LineFault, LineKind};
use command_words::UsageKind;
use field_defs::Family;
use pcap_reader::{CaptureFault, MAX_RECORDS};
use table_image::ImageKind;

/// Writes the line of a status to the front of `into`, and gives its length with the LF that ends
/// it. `Done` has no line.
///
/// It takes no memory.
pub fn message_line(status: &Status, into: &mut [u8; LINE_ROOM]) -> usize
    ensures within { result ≤ LINE_ROOM }
    ensures line { take result into.new ≡ message status.now }
{
    match status {
        Status::Done => 0,
        Status::Usage(fault) => numbered_line(
            b"usage: word ",
            u64::from(fault.word),
            usage_kind(fault.kind),
            into,
        ),
        Status::RulesRefused(fault) => rules_line(b"rules: line ", *fault, into),
        Status::TooLarge {
            family,
            words,
            budget,
        } => too_large_line(*family, *words, *budget, into),
        Status::CaptureRefused(fault) => {
            numbered_line(
                b"capture: record ",
                fault_record(*fault),
                capture_kind(*fault),
                into,
            )
        }
        Status::ImageRefused(fault) => {
            numbered_line(b"image: byte ", fault.place, image_kind(fault.kind), into)
        }
        Status::ReadFault => append(into, 0, b"aclc: read fault\n"),
        Status::WriteFault => append(into, 0, b"aclc: write fault\n"),
        Status::OutOfMemory => append(into, 0, b"aclc: out of memory\n"),
        Status::TooManyTogether => append(into, 0, b"aclc: compare: too many rules\n"),
        Status::SecondRulesRefused(fault) => rules_line(b"second rules: line ", *fault, into),
        Status::ScriptRefused => append(into, 0, b"aclc: script: too long\n"),
    }
}

/// A line that names a line of a rule file and what is wrong there.
fn rules_line(subject: &[u8], fault: LineFault, into: &mut [u8; LINE_ROOM]) -> usize
    requires { length subject.now ≤ 40 }
    ensures within { result ≤ LINE_ROOM }
    ensures line { take result into.new
        ≡ numbered subject.now fault.line (line_text fault.kind) }
{
    numbered_line(subject, u64::from(fault.line), line_kind(fault.kind), into)
}

/// A line that names a number and what is wrong there.
fn numbered_line(subject: &[u8], number: u64, kind: &[u8], into: &mut [u8; LINE_ROOM]) -> usize
    requires subject { length subject.now ≤ 40 }
    requires kind { length kind.now ≤ 40 }
    ensures within { result ≤ LINE_ROOM }
    ensures line { take result into.new ≡ numbered subject.now number kind.now }
{
    let at = append(into, 0, b"aclc: ");
    let at = append(into, at, subject);
    let at = append_number(into, at, number);
    let at = append(into, at, b": ");
    let at = append(into, at, kind);
    append(into, at, b"\n")
}

/// The line of a table that is too large.
fn too_large_line(family: Family, words: u64, budget: u64, into: &mut [u8; LINE_ROOM]) -> usize
    ensures within { result ≤ LINE_ROOM }
    ensures line { take result into.new ≡ too_large_text (family_word family) words budget }
{
    let at = append(into, 0, b"aclc: ");
    let at = append(into, at, family_name(family));
    let at = append(into, at, b" table too large: words ");
    let at = append_number(into, at, words);
    let at = append(into, at, b" budget ");
    let at = append_number(into, at, budget);
    append(into, at, b"\n")
}

fn family_name(family: Family) -> &'static [u8]
    ensures text { result.now ≡ family_word family }
    ensures short { length result.now ≤ 40 }
{
    match family {
        Family::Ip4 => b"ip4",
        Family::Ip6 => b"ip6",
    }
}

/// What is wrong with a word of a command line, in at most 40 bytes of ASCII. It takes no memory.
pub fn usage_kind(kind: UsageKind) -> &'static [u8]
    ensures text { result.now ≡ usage_text kind }
    ensures short { length result.now ≤ 40 }
{
    match kind {
        UsageKind::MissingCommand => b"missing command",
        UsageKind::UnknownCommand => b"unknown command",
        UsageKind::MissingName => b"missing name",
        UsageKind::UnknownOption => b"unknown option",
        UsageKind::RepeatedOption => b"repeated option",
        UsageKind::BadValue => b"bad value",
    }
}

fn line_kind(kind: LineKind) -> &'static [u8]
    ensures text { result.now ≡ line_text kind }
    ensures short { length result.now ≤ 40 }
{
    match kind {
        LineKind::FileTooLong => b"file too long",
        LineKind::TooManyRules => b"too many rules",
        LineKind::BadStart => b"bad start",
        LineKind::BadAddress => b"bad address",
        LineKind::BadPrefix => b"bad prefix",
        LineKind::MixedFamilies => b"mixed families",
        LineKind::BadPorts => b"bad ports",
        LineKind::EmptyRange => b"empty range",
        LineKind::BadProtocol => b"bad protocol",
        LineKind::BadFlags => b"bad flags",
        LineKind::BadAttribute => b"bad attribute",
        LineKind::TailLeft => b"tail left",
        LineKind::NoCategory => b"no category",
        LineKind::PriorityRange => b"priority range",
    }
}

fn capture_kind(fault: CaptureFault) -> &'static [u8]
    ensures text { result.now ≡ capture_text fault }
    ensures short { length result.now ≤ 40 }
{
    match fault {
        CaptureFault::HeaderCut => b"header cut",
        CaptureFault::Magic => b"magic",
        CaptureFault::Version => b"version",
        CaptureFault::LinkType => b"link type",
        CaptureFault::RecordCut(_) => b"cut",
        CaptureFault::RecordTooLong(_) => b"too long",
        CaptureFault::TooManyRecords => b"too many",
        CaptureFault::ReadFault => b"read fault",
        CaptureFault::PngCut(_) => b"block cut",
        CaptureFault::PngLength(_) => b"block length",
        CaptureFault::PngOrder(_) => b"byte order",
        CaptureFault::PngVersion(_) => b"section version",
        CaptureFault::PngInterface(_) => b"no interface",
        CaptureFault::PngLink(_) => b"interface link type",
        CaptureFault::PngTooMany(_) => b"too many interfaces",
    }
}

fn image_kind(kind: ImageKind) -> &'static [u8]
    ensures text { result.now ≡ image_text kind }
    ensures short { length result.now ≤ 40 }
{
    match kind {
        ImageKind::Magic => b"magic",
        ImageKind::Version => b"version",
        ImageKind::Family => b"family",
        ImageKind::Length => b"length",
        ImageKind::TooMany => b"too many",
        ImageKind::Unsound => b"unsound",
        ImageKind::RowForm => b"row form",
        ImageKind::Trailing => b"trailing",
        ImageKind::KeptGroups => b"kept groups",
    }
}

/// The number of the record that a fault names, and 0 for the file header.
fn fault_record(fault: CaptureFault) -> u64
    ensures { result ≡ record_of_fault fault }
{
    match fault {
        CaptureFault::HeaderCut
        | CaptureFault::Magic
        | CaptureFault::Version
        | CaptureFault::LinkType
        | CaptureFault::ReadFault => 0,
        CaptureFault::RecordCut(number)
        | CaptureFault::RecordTooLong(number)
        | CaptureFault::PngCut(number)
        | CaptureFault::PngLength(number)
        | CaptureFault::PngOrder(number)
        | CaptureFault::PngVersion(number)
        | CaptureFault::PngInterface(number)
        | CaptureFault::PngLink(number)
        | CaptureFault::PngTooMany(number) => number,
        CaptureFault::TooManyRecords => MAX_RECORDS + 1,
    }
}
