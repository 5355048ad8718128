//! The lines on standard error that tell how a run ended.

ghost use Rattle.std.specs.Prelude.{◌≡◌, ◌≤◌, ◌++◌, length, take, Some};
ghost use Rattle.std.specs.Option.{option_map};
ghost use Rattle.acl_report.specs.declared.line.TheConstants.{LINE_ROOM};
ghost use Rattle.list_tool.specs.Message.{Says, cisco_text, list_text, message, numbered, object_text};
ghost use Rattle.list_tool.specs.Message.{below, line_of_place, quoted, stands_in_line};
ghost use Rattle.list_tool.specs.Message.{place_number, place_text, rule_text, start_text, table_text};

use crate::shown::{append_shown, line_at};
use crate::status::{ListFault, ListKind, ListPlace, ListStatus};
use acl_report::{LINE_ROOM, append, append_number};
use command_ending::usage_kind;
use iptables_reader::LineKind;
use nft_reader::{ObjectKind, RuleKind, StartFault};

/// Writes what tells a status to the front of `into`, and gives its length with the LF that ends
/// it, by the name of the list and what was read of it.
///
/// That is a line with the cause, and below it the line of the list that is refused, of which the
/// first 100 bytes are shown. `Done` has none. It takes no memory.
pub fn message_line(
    name: &[u8],
    bytes: &[u8],
    status: &ListStatus,
    into: &mut [u8; LINE_ROOM],
) -> usize
    ensures within { result ≤ LINE_ROOM }
    ensures line { take result into.new ≡ message name.now bytes.now status.now }
{
    match status {
        ListStatus::Done => 0,
        ListStatus::Usage(fault) => {
            let number = u64::from(fault.word);
            numbered_line(b"usage: word ", number, usage_kind(fault.kind), into)
        }
        ListStatus::Refused(fault) => {
            let number = place_number(fault.place);
            let at = numbered_line(place_name(fault.place), number, list_kind(fault.kind), into);
            append_quoted(into, at, bytes, *fault)
        }
        ListStatus::ReadFault => {
            let at = append(into, 0, b"aclc-lists: ");
            let at = append_shown(into, at, name);
            append(into, at, b": read fault\n")
        }
        ListStatus::WriteFault => append(into, 0, b"aclc-lists: write fault\n"),
        ListStatus::OutOfMemory => append(into, 0, b"aclc-lists: out of memory\n"),
    }
}

/// A line that names a number and what is wrong there.
fn numbered_line(subject: &[u8], number: u64, kind: &[u8], into: &mut [u8; LINE_ROOM]) -> usize
    requires subject { length subject.now ≤ 40 }
    requires kind { length kind.now ≤ 40 }
    ensures within { result ≤ 115 }
    ensures line { take result into.new ≡ numbered subject.now number kind.now }
{
    let at = append(into, 0, b"aclc-lists: ");
    let at = append(into, at, subject);
    let at = append_number(into, at, number);
    let at = append(into, at, b": ");
    let at = append(into, at, kind);
    append(into, at, b"\n")
}

/// Writes the line in which a fault stands, if it stands in one, at the place `at`.
fn append_quoted(into: &mut [u8; LINE_ROOM], at: usize, bytes: &[u8], fault: ListFault) -> usize
    requires { at ≤ 115 }
    ensures within { result ≤ LINE_ROOM }
    ensures line { take result into.new ≡ take at into.old ++ quoted bytes.now fault }
{
    if !stands_in_line(fault.kind) {
        return at;
    }
    match line_of_place(bytes, fault.place) {
        Some(line) => append_line(into, at, line),
        None => at,
    }
}

/// Writes what is shown of a line, below the message.
fn append_line(into: &mut [u8; LINE_ROOM], at: usize, line: &[u8]) -> usize
    requires { at ≤ 115 }
    ensures within { result ≤ LINE_ROOM }
    ensures line { take result into.new ≡ take at into.old ++ below (Some line.now) }
{
    let at = append(into, at, b"  ");
    let at = append_shown(into, at, line);
    append(into, at, b"\n")
}

/// Whether a fault stands in the line that its place names.
fn stands_in_line(kind: ListKind) -> bool
    ensures { result ≡ stands_in_line kind }
{
    match kind {
        ListKind::CiscoLine(cisco_reader::LineKind::NoList | cisco_reader::LineKind::NoEntries) =>
            false,
        _ => true,
    }
}

/// The line that a place names, if it names one.
fn line_of_place(bytes: &[u8], place: ListPlace) -> Option<&[u8]>
    ensures { option_map (λ line. line.now) result ≡ line_of_place bytes.now place }
{
    match place {
        ListPlace::Line(number) => line_at(bytes, number),
        ListPlace::Object(_) | ListPlace::Handle(_) => None,
    }
}

/// What a place is called, before its number.
fn place_name(place: ListPlace) -> &'static [u8]
    ensures { Says (place_text place) result.now }
{
    match place {
        ListPlace::Line(_) => b"list: line ",
        ListPlace::Object(_) => b"list: object ",
        ListPlace::Handle(_) => b"list: handle ",
    }
}

/// The number of a place.
fn place_number(place: ListPlace) -> u64
    ensures { result ≡ place_number place }
{
    match place {
        ListPlace::Line(number) | ListPlace::Handle(number) => u64::from(number),
        ListPlace::Object(number) => number as u64,
    }
}

fn list_kind(kind: ListKind) -> &'static [u8]
    ensures { Says (list_text kind) result.now }
{
    match kind {
        ListKind::Line(fault) => table_kind(fault),
        ListKind::CiscoLine(fault) => cisco_kind(fault),
        ListKind::Object(fault) => object_kind(fault),
        ListKind::Rule(fault) => rule_kind(fault),
        ListKind::BaseChain(fault) => start_kind(fault),
        ListKind::NoChain => b"no such chain",
        ListKind::NoPolicy => b"chain without a policy",
        ListKind::NoTarget => b"target not there",
        ListKind::Loop => b"loop",
        ListKind::TooManyRules => b"too many rules",
        ListKind::TooManySteps => b"too many ways through the chains",
        ListKind::TooDeep => b"jumps through more than 1,024 chains",
        ListKind::NoPrefix => b"addresses without a prefix",
        ListKind::TextTooLong => b"rule file too long",
    }
}

fn table_kind(fault: LineKind) -> &'static [u8]
    ensures { Says (table_text fault) result.now }
{
    match fault {
        LineKind::FileTooLong => b"file too long",
        LineKind::NoTable => b"no table",
        LineKind::OtherTable => b"unknown table",
        LineKind::SecondTable => b"table given twice",
        LineKind::NoCommit => b"no COMMIT",
        LineKind::NoFilter => b"no table filter",
        LineKind::MayDrop => b"another table may drop these packets",
        LineKind::LacksInterface => b"these packets have no such interface",
        LineKind::BadChain => b"bad chain",
        LineKind::ChainTwice => b"chain declared twice",
        LineKind::LateChain => b"chain declared after rules",
        LineKind::BadPolicy => b"bad policy",
        LineKind::BadStart => b"no -A",
        LineKind::NoChain => b"chain not declared",
        LineKind::MissingWord => b"missing word",
        LineKind::UnknownOption => b"unknown option",
        LineKind::OptionTwice => b"repeated option",
        LineKind::BadNegation => b"bad negation",
        LineKind::BadMatch => b"bad match",
        LineKind::BadAddress => b"bad address",
        LineKind::BadProtocol => b"bad protocol",
        LineKind::BadPorts => b"bad ports",
        LineKind::NeedsProtocol => b"needs a protocol or a target before it",
        LineKind::BadQuotes => b"bad quotes",
        LineKind::BadTarget => b"bad target",
        LineKind::BadAnswer => b"bad answer of REJECT",
        LineKind::BadInterface => b"bad interface",
        LineKind::BadState => b"bad state",
        LineKind::NeedsInterface => b"interface not assumed",
        LineKind::NeedsState => b"state not assumed",
        LineKind::NeedsLocal => b"local addresses not assumed",
        LineKind::CantSay => b"matches what no rule file says",
    }
}

fn cisco_kind(fault: cisco_reader::LineKind) -> &'static [u8]
    ensures { Says (cisco_text fault) result.now }
{
    match fault {
        cisco_reader::LineKind::FileTooLong => b"file too long",
        cisco_reader::LineKind::NoList => b"no such list",
        cisco_reader::LineKind::NoEntries => b"list without entries",
        cisco_reader::LineKind::NotExtended => b"no extended list of IPv4",
        cisco_reader::LineKind::BadList => b"no list or entry of one",
        cisco_reader::LineKind::TakenOut => b"list, entry or group taken out",
        cisco_reader::LineKind::StrayEntry => b"entry outside of a list",
        cisco_reader::LineKind::NoEntry => b"no entry of its list",
        cisco_reader::LineKind::UnknownLine => b"unknown line",
        cisco_reader::LineKind::BadText => b"text with a list, or without an end",
        cisco_reader::LineKind::Wrapped => b"may be the end of the entry before",
        cisco_reader::LineKind::BadSequence => b"bad sequence number",
        cisco_reader::LineKind::SequenceTwice => b"repeated sequence number",
        cisco_reader::LineKind::LooseEntry => b"entry before without a sequence number",
        cisco_reader::LineKind::MissingWord => b"missing word",
        cisco_reader::LineKind::Group => b"ports beside a group of services",
        cisco_reader::LineKind::BadGroup => b"no kind and name of a group",
        cisco_reader::LineKind::KindTwice => b"group begun with another kind",
        cisco_reader::LineKind::NoGroup => b"no such group",
        cisco_reader::LineKind::OtherKind => b"group of another kind",
        cisco_reader::LineKind::EmptyGroup => b"group without members",
        cisco_reader::LineKind::GroupLoop => b"group within itself",
        cisco_reader::LineKind::LargeGroup => b"group too large",
        cisco_reader::LineKind::BadNetworkMask => b"bad mask of a network",
        cisco_reader::LineKind::BadProtocol => b"bad protocol",
        cisco_reader::LineKind::ZeroProtocol => b"protocol 0",
        cisco_reader::LineKind::BadAddress => b"bad address",
        cisco_reader::LineKind::BadMask => b"bad wildcard mask",
        cisco_reader::LineKind::BadPort => b"bad port",
        cisco_reader::LineKind::ManyPorts => b"more than 10 ports",
        cisco_reader::LineKind::NeedsProtocol => b"ports of another protocol",
        cisco_reader::LineKind::Compares => b"matches what no rule file says",
        cisco_reader::LineKind::IcmpType => b"type of ICMP",
        cisco_reader::LineKind::UnknownWord => b"unknown word",
    }
}

fn object_kind(fault: ObjectKind) -> &'static [u8]
    ensures { Says (object_text fault) result.now }
{
    match fault {
        ObjectKind::FileTooLong => b"file too long",
        ObjectKind::NotJson => b"no JSON in UTF-8",
        ObjectKind::NoList => b"no ruleset of nft",
        ObjectKind::UnknownObject => b"unknown object",
        ObjectKind::NoFamily => b"no family",
        ObjectKind::BadTable => b"table that may be dormant",
        ObjectKind::BadChain => b"bad chain",
        ObjectKind::BadPolicy => b"bad policy",
        ObjectKind::BadHook => b"no such type, hook and priority",
        ObjectKind::ChainTwice => b"chain declared twice",
        ObjectKind::BadRule => b"bad rule",
        ObjectKind::NoChain => b"chain not declared",
    }
}

fn rule_kind(fault: RuleKind) -> &'static [u8]
    ensures { Says (rule_text fault) result.now }
{
    match fault {
        RuleKind::BadStatement => b"bad statement",
        RuleKind::UnknownStatement => b"unknown statement",
        RuleKind::AfterVerdict => b"statement after the verdict",
        RuleKind::NoTarget => b"target not there",
        RuleKind::Rate => b"depends on a rate",
        RuleKind::NoSet => b"no such set",
        RuleKind::ChangingSet => b"set that changes",
        RuleKind::OtherSet => b"unknown kind of set",
        RuleKind::NeedsInterface => b"interface not assumed",
        RuleKind::NeedsState => b"state not assumed",
        RuleKind::HookInterface => b"interface that its packets don't have",
        RuleKind::HookState => b"state that isn't known yet",
        RuleKind::PortPair => b"both ports unequal, which nft may join",
        RuleKind::CantSay => b"matches what no rule file says",
    }
}

fn start_kind(fault: StartFault) -> &'static [u8]
    ensures { Says (start_text fault) result.now }
{
    match fault {
        StartFault::NoStart => b"no base chain of this name",
        StartFault::ManyStarts => b"base chains of this name in many tables",
        StartFault::NatStart => b"base chain of type nat",
        StartFault::OtherInterface => b"assumes an interface packets don't have",
        StartFault::Beside(_) => b"may drop in another base chain",
    }
}
