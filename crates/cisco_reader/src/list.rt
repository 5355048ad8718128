//! The list that is asked for, so far, and what each line of a configuration adds to it.

ghost use Rattle.std.specs.Prelude.{◌≡◌, ◌≤◌, length};
ghost use Rattle.cisco_reader.specs.Lists as meant;

use crate::entry::{Entry, Verdict, entry_of};
use crate::fault::{CiscoFault, LineKind, Stop, line_fault};
use crate::groups::Group;
use crate::heads::{Head, Stage, head_of, is_extended, is_standard, is_unread, named_stage};
use crate::lines::Line;
use crate::names::Known;
use crate::words::{Words, is};
use std::alloc::Global;
use std::marker::Model;

/// The greatest number in a sequence.
const MAX_SEQUENCE: u64 = 4_294_967_294;

/// What is known of entries without a number.
#[derive(Clone, Copy)]
pub(crate) enum Loose {
    /// No remark stands before them.
    None,
    /// A remark came, which may have a number.
    Remark,
    /// An entry without a number came after it.
    Entry,
}

/// An entry at its place.
#[derive(Drop)]
pub(crate) struct Placed {
    pub(crate) sequence: u32,
    pub(crate) line: u32,
    pub(crate) entry: Entry,
}

/// A list so far. Contracts see a record of its parts.
#[derive(Drop)]
pub(crate) struct List<'g, 'a> {
    groups: &'g [Group<'a>],
    stage: Stage,
    begun: bool,
    loose: Loose,
    last: u32,
    entries: Vec<Placed>,
}

impl<'g, 'a> Model for List<'g, 'a> {
    ghost use Rattle.cisco_reader.specs.Lists.{ListSoFar};

    ghost Value = { ListSoFar };

    ghost view = { λ list. record {
      groups = list.groups.now;
      stage = list.stage;
      begun = list.begun;
      loose = list.loose;
      last = list.last;
      entries = list.entries.items;
    } };
}

impl<'g, 'a> List<'g, 'a> {
    ghost use Rattle.std.specs.Prelude.{◌≡◌, ◌≤◌, length, Ok};
    ghost use Rattle.cisco_reader.specs.Heads.{head_of};
    ghost use Rattle.cisco_reader.specs.Lists as meant;
    ghost use Rattle.cisco_reader.specs.Read.{Becomes, Gives};

    /// Nothing was read of a file that has these groups.
    pub(crate) fn new(alloc: Global, groups: &'g [Group<'a>]) -> List<'g, 'a>
        ensures { result ≡ meant.no_list groups.now }
    {
        List {
            groups,
            stage: Stage::Outside,
            begun: false,
            loose: Loose::None,
            last: 0,
            entries: Vec::new(alloc),
        }
    }

    /// An entry of a line, which may have a number.
    fn add_entry(&mut self, line: u32, number: Option<u64>, entry: Entry) -> Result<(), Stop>
        ensures { Becomes (meant.with_entry line number self.old entry) result self.new }
    {
        let loose = loose_after(self.loose, number)?;
        let sequence = sequence_after(self.last, number)?;
        let place = place_of(sequence, &self.entries);
        if has_number(sequence, &self.entries[place..]) {
            return Err(LineKind::SequenceTwice.into());
        }
        self.loose = loose;
        self.last = self.last.max(sequence);
        let placed = Placed {
            sequence,
            line,
            entry,
        };
        self.entries.insert(place, placed)?;
        Ok(())
    }

    /// A line of the list.
    fn add_words(&mut self, line: u32, words: &mut Words) -> Result<(), Stop>
        ensures { Becomes (meant.with_words line self.old words.old) result self.new }
    {
        let number = words.number();
        let word = words.required()?;
        if let Some(verdict) = verdict_named(word) {
            let entry = entry_of(self.groups, verdict, words)?;
            return self.add_entry(line, number, entry);
        }
        if is(word, b"remark") {
            self.loose = loose_after_remark(self.loose);
            return Ok(());
        }
        Err(act_fault(word).into())
    }

    /// The next line stands elsewhere.
    fn stand(&mut self, stage: Stage) -> Result<(), Stop>
        ensures { Becomes (Ok (meant.at stage self.old)) result self.new }
    {
        self.stage = stage;
        Ok(())
    }

    /// An entry of a numbered list, which may be the one that is asked for.
    fn numbered_entry(
        &mut self,
        asked: &[u8],
        line: u32,
        name: &[u8],
        words: &mut Words,
    ) -> Result<(), Stop>
        ensures { Becomes (meant.numbered_entry asked.now line self.old name.now words.old)
            result self.new }
    {
        if !words.begins(Known::NumberedEntry) {
            return Err(LineKind::BadList.into());
        }
        if !(name == asked) {
            return self.stand(Stage::Entered);
        }
        if !is_extended(name) {
            return Err(LineKind::NotExtended.into());
        }
        self.stage = Stage::Entered;
        self.begun = true;
        self.add_words(line, words)
    }

    /// What stands after `access-list`.
    fn numbered(&mut self, asked: &[u8], line: u32, words: &mut Words) -> Result<(), Stop>
        ensures { Becomes (meant.numbered asked.now line self.old words.old) result self.new }
    {
        let Some(name) = words.next() else {
            return Err(LineKind::BadList.into());
        };
        if is_extended(name) || is_standard(name) {
            return self.numbered_entry(asked, line, name, words);
        }
        if is_unread(name) {
            return self.stand(Stage::Entered);
        }
        Err(LineKind::BadList.into())
    }

    /// A command of lists with names, which may begin the one that is asked for.
    fn named(&mut self, asked: &[u8], words: &mut Words) -> Result<(), Stop>
        ensures { Becomes (meant.named asked.now self.old words.old) result self.new }
    {
        self.stage = named_stage(asked, words)?;
        self.begun = self.begun || self.stage.is_asked();
        Ok(())
    }

    /// An entry, by where it stands.
    fn add_stray(&mut self, line: u32, words: &mut Words) -> Result<(), Stop>
        ensures { Becomes (meant.with_stray line self.old words.old self.old.stage)
            result self.new }
    {
        match self.stage {
            Stage::Outside | Stage::Entered => Err(LineKind::StrayEntry.into()),
            Stage::Asked => self.add_words(line, words),
            Stage::Other | Stage::Unread => Ok(()),
        }
    }

    /// A line, by what it is.
    fn add_head(&mut self, asked: &[u8], line: &Line) -> Result<(), Stop>
        ensures { Becomes (meant.with_head asked.now line.now self.old (head_of line.now.text))
            result self.new }
    {
        let mut words = line.words();
        match head_of(line.text) {
            Head::Skipped => self.stand(self.stage.after_comment()),
            Head::Numbered => {
                words.next();
                self.numbered(asked, line.number, &mut words)
            }
            Head::Named => self.named(asked, &mut words),
            Head::Group => self.stand(Stage::Unread),
            Head::TakenOut => Err(LineKind::TakenOut.into()),
            Head::Entry => self.add_stray(line.number, &mut words),
            Head::Part => self.stand(Stage::Outside),
            Head::Inside => match self.stage.list_fault() {
                Some(kind) => Err(kind.into()),
                None => Ok(()),
            },
            Head::Unknown => match self.stage.list_fault() {
                Some(kind) => Err(kind.into()),
                None => Err(LineKind::UnknownLine.into()),
            },
        }
    }

    /// A line.
    pub(crate) fn add_line(&mut self, asked: &[u8], line: &Line) -> Result<(), CiscoFault>
        ensures { Gives (meant.with_line asked.now self.old line.now) (λ none. self.new) result }
    {
        match self.add_head(asked, line) {
            Ok(()) => Ok(()),
            Err(stop) => Err(stop.at(line.number)),
        }
    }

    /// The entries, where the list was begun and has some. The last line has the number.
    pub(crate) fn ended(self, number: u32) -> Result<Vec<Placed>, CiscoFault>
        ensures { Gives (meant.ended number self.entry) (λ entries. entries.items) result }
    {
        if !self.begun {
            return Err(line_fault(number, LineKind::NoList));
        }
        if self.entries.is_empty() {
            return Err(line_fault(number, LineKind::NoEntries));
        }
        Ok(self.entries)
    }
}

/// What a word says that begins an entry.
fn verdict_named(word: &[u8]) -> Option<Verdict>
    ensures { result ≡ meant.verdict_named word.now }
{
    if is(word, b"permit") {
        Some(Verdict::Permit)
    } else if is(word, b"deny") {
        Some(Verdict::Deny)
    } else {
        None
    }
}

/// Why an entry isn't read that neither permits nor denies.
fn act_fault(word: &[u8]) -> LineKind
    ensures { result ≡ meant.act_fault word.now }
{
    if Known::Compared.has(word) {
        LineKind::Compares
    } else {
        LineKind::UnknownWord
    }
}

/// What is known of entries without a number after a remark.
fn loose_after_remark(loose: Loose) -> Loose
    ensures { result ≡ meant.loose_after_remark loose }
{
    match loose {
        Loose::None | Loose::Remark => Loose::Remark,
        Loose::Entry => Loose::Entry,
    }
}

/// And after an entry with a number or without.
fn loose_after(loose: Loose, number: Option<u64>) -> Result<Loose, LineKind>
    ensures { result ≡ meant.loose_after loose number }
{
    match (loose, number) {
        (Loose::None, _) => Ok(Loose::None),
        (Loose::Remark, Some(_)) => Ok(Loose::Remark),
        (Loose::Remark, None) | (Loose::Entry, None) => Ok(Loose::Entry),
        (Loose::Entry, Some(_)) => Err(LineKind::LooseEntry),
    }
}

/// A number of a sequence, which may be so great.
fn checked_sequence(number: u64) -> Result<u32, LineKind>
    ensures { result ≡ meant.checked_sequence number }
{
    if 1 <= number && number <= MAX_SEQUENCE {
        return Ok(number as u32);
    }
    Err(LineKind::BadSequence)
}

/// The number of an entry: ten after the greatest so far, where it has none.
fn sequence_after(last: u32, number: Option<u64>) -> Result<u32, LineKind>
    ensures { result ≡ meant.sequence_after last number }
{
    match number {
        Some(number) => checked_sequence(number),
        None => checked_sequence(u64::from(last) + 10),
    }
}

/// The place of an entry by its number: after all that have lower ones.
fn place_of(sequence: u32, entries: &[Placed]) -> usize
    ensures place { result ≡ meant.place_of sequence entries.now }
    ensures within { result ≤ length entries.now }
{
    entries
        .iter()
        .take_while(|it| it.sequence < sequence)
        .count()
}

/// Whether the first of some entries has the number.
fn has_number(sequence: u32, entries: &[Placed]) -> bool
    ensures { result ≡ meant.has_number sequence entries.now }
{
    match entries {
        [first, ..] => first.sequence == sequence,
        [] => false,
    }
}
