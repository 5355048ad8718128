//! What a line of a configuration is, and where the lines after commands of lists stand.

ghost use Rattle.std.specs.Prelude.{◌≡◌};
ghost use Rattle.text_scan.specs.Parts.{words_of};
ghost use Rattle.cisco_reader.specs.Heads as meant;

use crate::fault::LineKind;
use crate::names::{Known, number};
use crate::words::{Words, is};

/// What a line is.
#[derive(Clone, Copy)]
pub(crate) enum Head {
    /// It says nothing: it is empty, or a comment.
    Skipped,
    /// `access-list`
    Numbered,
    /// `ip access-list`, and the same of other protocols.
    Named,
    /// `object-group`
    Group,
    /// `no` before one of these.
    TakenOut,
    /// An entry of a list.
    Entry,
    /// It ends a part, or begins another one.
    Part,
    /// It begins with a blank, and is none of these.
    Inside,
    /// It isn't known here.
    Unknown,
}

impl Head {
    ghost use Rattle.std.specs.Prelude.{◌≡◌};
    ghost use Rattle.cisco_reader.specs.Heads as meant;

    /// Whether a line is a command of lists, or an entry.
    pub(crate) fn is_of_lists(self) -> bool
        ensures { result ≡ meant.is_of_lists self }
    {
        match self {
            Head::Numbered | Head::Named | Head::Group | Head::TakenOut | Head::Entry => true,
            Head::Skipped | Head::Part | Head::Inside | Head::Unknown => false,
        }
    }
}

/// Whether a line begins with a blank.
fn is_inside(line: &[u8]) -> bool
    ensures { result ≡ meant.is_inside line.now }
{
    matches!(line, [b' ' | b'\t', ..])
}

/// Whether a word begins with a byte.
fn begins(byte: u8, word: &[u8]) -> bool
    ensures { result ≡ meant.begins byte word.now }
{
    match word {
        [first, ..] => *first == byte,
        [] => false,
    }
}

/// Whether a word begins with a digit.
fn begins_number(word: &[u8]) -> bool
    ensures { result ≡ meant.begins_number word.now }
{
    match word {
        [first, ..] => 48 <= *first && *first <= 57,
        [] => false,
    }
}

/// Whether a line is an entry of a list, with its number in the sequence or without.
fn is_entry(line: &[u8]) -> bool
    ensures { result ≡ meant.is_entry (words_of line.now) }
{
    let mut words = Words::of(line);
    words.skip(b"sequence");
    words.number();
    words.begins(Known::Entry)
}

/// Whether words are what stands after `ip` in an entry whose first word is lost.
fn is_address(words: &mut Words) -> bool
    ensures { result ≡ meant.is_address words.old }
{
    match words.next() {
        Some(word) => begins_number(word) || Known::Address.has(word),
        None => true,
    }
}

/// What a line is that is no command of lists.
fn other_head(inside: bool, first: &[u8], words: &mut Words) -> Head
    ensures { result ≡ meant.other_head inside first.now words.old }
{
    if inside {
        return Head::Inside;
    }
    let begins_part = if Known::Ip.has(first) {
        !is_address(words)
    } else {
        Known::Part.has(first)
    };
    if begins_part {
        Head::Part
    } else {
        Head::Unknown
    }
}

/// A command of numbered lists, of groups, or of lists with names.
fn command_head(first: &[u8], words: &Words) -> Option<Head>
    ensures { result ≡ meant.command_head first.now words.now }
{
    if is(first, b"access-list") {
        Some(Head::Numbered)
    } else if is(first, b"object-group") {
        Some(Head::Group)
    } else if Known::Named.has(first) && words.is_next(b"access-list") {
        Some(Head::Named)
    } else {
        None
    }
}

/// What a line is, after its `no`.
fn removed_head(inside: bool, words: &mut Words) -> Head
    ensures { result ≡ meant.removed_head inside words.old }
{
    let Some(first) = words.next() else {
        return Head::Unknown;
    };
    if command_head(first, words).is_some() {
        return Head::TakenOut;
    }
    other_head(inside, first, words)
}

/// What a line is.
pub(crate) fn head_of(line: &[u8]) -> Head
    ensures { result ≡ meant.head_of line.now }
{
    let inside = is_inside(line);
    let mut words = Words::of(line);
    let Some(first) = words.next() else {
        return Head::Skipped;
    };
    if begins(b'!', first) {
        return Head::Skipped;
    }
    if is(first, b"no") {
        return removed_head(inside, &mut words);
    }
    if let Some(head) = command_head(first, &words) {
        return head;
    }
    if is_entry(line) {
        return Head::Entry;
    }
    if Known::End.has(first) && words.is_empty() {
        return Head::Part;
    }
    other_head(inside, first, &mut words)
}

/// Whether a name is a number of a range as devices write it, without a zero before it.
fn in_range(low: u64, high: u64, name: &[u8]) -> bool
    ensures { result ≡ meant.in_range low high name.now }
{
    match number(name, high) {
        Some(number) => low <= number && !begins(b'0', name),
        None => false,
    }
}

/// Whether a name is the number of an extended list of IPv4.
pub(crate) fn is_extended(name: &[u8]) -> bool
    ensures { result ≡ meant.is_extended name.now }
{
    in_range(100, 199, name) || in_range(2000, 2699, name)
}

/// Whether a name is the number of a standard list.
pub(crate) fn is_standard(name: &[u8]) -> bool
    ensures { result ≡ meant.is_standard name.now }
{
    in_range(1, 99, name) || in_range(1300, 1999, name)
}

/// Whether a name is the number of a list of another protocol, or sets something in its place.
pub(crate) fn is_unread(name: &[u8]) -> bool
    ensures { result ≡ meant.is_unread name.now }
{
    in_range(200, 1299, name) || Known::Unread.has(name)
}

/// Whether a name is no number, or that of an extended list.
pub(crate) fn may_be_extended(name: &[u8]) -> bool
    ensures { result ≡ meant.may_be_extended name.now }
{
    is_extended(name) || number(name, u64::MAX).is_none()
}

/// Where a line stands.
#[derive(Clone, Copy)]
pub(crate) enum Stage {
    /// In a part that has no entries of lists.
    Outside,
    /// After a command that is a whole entry.
    Entered,
    /// In the list that is asked for.
    Asked,
    /// In another list of IP.
    Other,
    /// In a part whose entries aren't read.
    Unread,
}

/// After a list of a name begins that is of another kind.
fn other_stage(asked: &[u8], name: &[u8]) -> Result<Stage, LineKind>
    ensures { result ≡ meant.other_stage asked.now name.now }
{
    if name == asked {
        return Err(LineKind::NotExtended);
    }
    Ok(Stage::Other)
}

/// After a word that has to set something for lists, and begins none.
fn setting_stage(word: &[u8]) -> Result<Stage, LineKind>
    ensures { result ≡ meant.setting_stage word.now }
{
    if Known::Setting.has(word) {
        return Ok(Stage::Outside);
    }
    Err(LineKind::BadList)
}

/// After a list of IP begins, by its kind and its name, or after a setting of two words.
fn kind_stage(asked: &[u8], kind: &[u8], name: &[u8]) -> Result<Stage, LineKind>
    ensures { result ≡ meant.kind_stage asked.now kind.now name.now }
{
    if is(kind, b"extended") {
        if !may_be_extended(name) {
            return Err(LineKind::BadList);
        }
        if name == asked {
            return Ok(Stage::Asked);
        }
        return Ok(Stage::Other);
    }
    if is(kind, b"standard") {
        return other_stage(asked, name);
    }
    if Known::UnreadKind.has(kind) {
        return Ok(Stage::Unread);
    }
    setting_stage(kind)
}

/// After `ip access-list` and some words.
fn ip_stage(asked: &[u8], words: &mut Words) -> Result<Stage, LineKind>
    ensures { result ≡ meant.ip_stage asked.now words.old }
{
    let Some(kind) = words.next() else {
        return Err(LineKind::BadList);
    };
    let Some(name) = words.next() else {
        return setting_stage(kind);
    };
    if words.next().is_some() {
        return setting_stage(kind);
    }
    kind_stage(asked, kind, name)
}

/// After `ipv6 access-list` and some words: a name, or a setting.
fn ip6_stage(asked: &[u8], words: &mut Words) -> Result<Stage, LineKind>
    ensures { result ≡ meant.ip6_stage asked.now words.old }
{
    let Some(name) = words.next() else {
        return Err(LineKind::BadList);
    };
    if !words.is_empty() || Known::Setting.has(name) {
        return setting_stage(name);
    }
    other_stage(asked, name)
}

/// After a command whose second word is `access-list`.
pub(crate) fn named_stage(asked: &[u8], words: &mut Words) -> Result<Stage, LineKind>
    ensures { result ≡ meant.named_stage asked.now words.old }
{
    let Some(first) = words.next() else {
        return Err(LineKind::BadList);
    };
    words.next();
    if is(first, b"ip") {
        return ip_stage(asked, words);
    }
    if is(first, b"ipv6") {
        return ip6_stage(asked, words);
    }
    if is(first, b"hardware") {
        return Ok(Stage::Outside);
    }
    Ok(Stage::Unread)
}

impl Stage {
    ghost use Rattle.std.specs.Prelude.{◌≡◌};
    ghost use Rattle.cisco_reader.specs.Heads as meant;

    /// Whether a line stands in the list that is asked for.
    pub(crate) fn is_asked(self) -> bool
        ensures { result ≡ meant.is_asked self }
    {
        matches!(self, Stage::Asked)
    }

    /// After a comment, which ends the command before it.
    pub(crate) fn after_comment(self) -> Stage
        ensures { result ≡ meant.after_comment self }
    {
        match self {
            Stage::Entered => Stage::Outside,
            Stage::Outside | Stage::Asked | Stage::Other | Stage::Unread => self,
        }
    }

    /// The fault of a line that is no entry and no command, where it stands among entries.
    pub(crate) fn list_fault(self) -> Option<LineKind>
        ensures { result ≡ meant.list_fault self }
    {
        match self {
            Stage::Outside | Stage::Unread => None,
            Stage::Entered => Some(LineKind::Wrapped),
            Stage::Asked | Stage::Other => Some(LineKind::NoEntry),
        }
    }
}
