//! The lines of a configuration that stand outside of texts: banners, and macros.

ghost use Rattle.std.specs.Prelude.{◌≡◌, ◌≤◌, length};
ghost use Rattle.std.specs.Option.{option_map};
ghost use Rattle.text_scan.specs.Parts.{words_of};
ghost use Rattle.cisco_reader.specs.Lines as meant;

use crate::fault::{CiscoFault, LineKind, line_fault};
use crate::heads::head_of;
use crate::names::Known;
use crate::words::{Words, is};
use std::alloc::Global;
use std::marker::Model;
use text_scan::split_line;

/// A line. Contracts see its number and its text.
#[derive(Drop)]
pub(crate) struct Line<'a> {
    pub(crate) number: u32,
    pub(crate) text: &'a [u8],
}

impl<'a> Model for Line<'a> {
    ghost use Rattle.cisco_reader.specs.Lines.{TextLine};

    ghost Value = { TextLine };

    ghost view = { λ line. record { number = line.number; text = line.text.now } };
}

impl<'a> Line<'a> {
    ghost use Rattle.std.specs.Prelude.{◌≡◌};
    ghost use Rattle.cisco_reader.specs.Lines.{words_in};

    /// What stands in it.
    pub(crate) fn words(&self) -> Words<'a>
        ensures { result ≡ words_in self.now }
    {
        Words::of(self.text)
    }

    /// The same once more.
    pub(crate) fn again(&self) -> Line<'a>
        ensures { result ≡ self.now }
    {
        Line {
            number: self.number,
            text: self.text,
        }
    }
}

/// The lines of a configuration so far: those outside of texts, how many came with those within,
/// and the mark of the text in which the next line stands, with the line that began it. Contracts
/// see a record of its parts.
#[derive(Drop)]
pub(crate) struct Lines<'a> {
    pub(crate) outside: Vec<Line<'a>>,
    pub(crate) count: u32,
    mark: Option<&'a [u8]>,
    begun: u32,
}

impl<'a> Model for Lines<'a> {
    ghost use Rattle.std.specs.Option.{option_map};
    ghost use Rattle.cisco_reader.specs.Lines.{LinesSoFar, seen};

    ghost Value = { LinesSoFar };

    ghost view = { λ lines. record {
      outside = lines.outside.items;
      count = lines.count;
      mark = option_map seen lines.mark;
      begun = lines.begun;
    } };
}

impl<'a> Lines<'a> {
    ghost use Rattle.std.specs.Prelude.{◌≡◌, ◌+◌, ◌<◌, ◌≤◌, length, IfOk};
    ghost use Rattle.cisco_reader.specs.Lines as meant;
    ghost use Rattle.cisco_reader.specs.Read.{Gives};

    /// Nothing was read.
    fn new(alloc: Global) -> Lines<'a>
        ensures { result ≡ meant.no_lines }
    {
        Lines {
            outside: Vec::new(alloc),
            count: 0,
            mark: None,
            begun: 0,
        }
    }

    /// The next line.
    fn add(&mut self, text: &'a [u8]) -> Result<(), CiscoFault>
        requires { self.old.count < 4294967295 }
        ensures said { Gives (meant.with_text self.old text.now) (λ none. self.new) result }
        ensures count { IfOk result (λ none. self.new.count ≡ self.old.count + 1) }
    {
        let number = self.count + 1;
        match self.mark {
            Some(mark) => {
                if head_of(text).is_of_lists() {
                    return Err(line_fault(number, LineKind::BadText));
                }
                if are_marked(mark, &mut Words::of(text)) {
                    self.mark = None;
                }
            }
            None => {
                self.outside.push(Line { number, text })?;
                self.mark = text_mark(text);
                self.begun = number;
            }
        }
        self.count = number;
        Ok(())
    }

    /// No text is left without an end.
    fn closed(self) -> Result<Lines<'a>, CiscoFault>
        ensures { Gives (meant.closed self.entry) (λ lines. lines) result }
    {
        match self.mark {
            Some(_) => Err(line_fault(self.begun, LineKind::BadText)),
            None => Ok(self),
        }
    }

    /// Those of a file, or the first fault of a text. It takes memory for them.
    pub(crate) fn of(alloc: Global, bytes: &'a [u8]) -> Result<Lines<'a>, CiscoFault>
        requires { length bytes.now ≤ 16777216 }
        ensures { Gives (meant.file_lines bytes.now) (λ lines. lines) result }
    {
        let mut lines = Lines::new(alloc);
        let mut left = bytes;
        while let Some((text, rest)) = split_line(left) {
            lines.add(text)?;
            left = rest;
        }
        lines.closed()
    }
}

/// Whether a mark stands in a word.
#[tactic(auto, unfolding(crate::specs::Lines::is_marked))]
fn is_marked(mark: &[u8], word: &[u8]) -> bool
    ensures { result ≡ meant.is_marked mark.now word.now }
{
    let mut left = word;
    while let [_, rest @ ..] = left {
        if left.starts_with(mark) {
            return true;
        }
        left = rest;
    }
    false
}

/// Whether a mark stands in one of some words.
#[tactic(auto, unfolding(crate::specs::Lines::are_marked))]
fn are_marked(mark: &[u8], words: &mut Words) -> bool
    ensures { result ≡ meant.are_marked mark.now words.old }
{
    while let Some(word) = words.next() {
        if is_marked(mark, word) {
            return true;
        }
    }
    false
}

/// The length of the mark at the start of a word: `^C`, as devices print theirs, or one byte.
fn mark_len(word: &[u8]) -> usize
    ensures len { result ≡ meant.mark_len word.now }
    ensures within { result ≤ length word.now }
{
    match word {
        [b'^', b'C', ..] => 2,
        [_, ..] => 1,
        [] => 0,
    }
}

/// Whether a banner begins with these words, and its mark.
fn begins_banner(first: &[u8], kind: &[u8]) -> bool
    ensures { result ≡ meant.begins_banner first.now kind.now }
{
    is(first, b"banner") && Known::BannerKind.has(kind)
}

/// Whether a macro begins with these words, and its name.
fn begins_macro(first: &[u8], kind: &[u8]) -> bool
    ensures { result ≡ meant.begins_macro first.now kind.now }
{
    is(first, b"macro") && is(kind, b"name")
}

/// The mark of the text that a line begins and doesn't end.
#[tactic(auto, unfolding(crate::specs::Lines::are_marked))]
fn text_mark(text: &[u8]) -> Option<&[u8]>
    ensures { option_map meant.seen result ≡ meant.text_mark (words_of text.now) }
{
    let mut words = Words::of(text);
    let first = words.next()?;
    let kind = words.next()?;
    let word = words.next()?;
    if begins_macro(first, kind) {
        return Some(b"@");
    }
    if !begins_banner(first, kind) {
        return None;
    }
    let (mark, after) = word.split_at(mark_len(word));
    if is_marked(mark, after) || are_marked(mark, &mut words) {
        return None;
    }
    Some(mark)
}
