//! The words of a line, one after the other.

ghost use Rattle.std.specs.Prelude.{◌≡◌};
ghost use Rattle.std.specs.Str.{bytes_eq};

use crate::fault::LineKind;
use crate::groups::{Group, place_for};
use crate::names::{Known, number, port};
use crate::port_list::{MAX_PORTS, Ports};
use crate::services::{Operator, operator_named};
use crate::wildcard::ip4_plain;
use list_chains::Span;
use std::marker::Model;
use text_scan::next_word;

/// Whether a word is this one.
pub(crate) fn is(word: &[u8], text: &[u8]) -> bool
    ensures { result ≡ bytes_eq word.now text.now }
{
    word == text
}

/// The words of a line that are left. Contracts see the list of them.
#[derive(Drop)]
pub(crate) struct Words<'a> {
    left: &'a [u8],
}

impl<'a> Model for Words<'a> {
    ghost use Rattle.std.specs.Prelude.{List, ℕ};
    ghost use Rattle.text_scan.specs.Parts.{words_of};

    ghost Value = { List (List ℕ) };

    ghost view = { λ words. words_of words.left.now };
}

impl<'a> Words<'a> {
    ghost use Rattle.std.specs.Prelude.{◌≡◌, ◌≤◌, [], ◌∷◌, if◌then◌else◌, IfOk, MatchOption, MatchResult};
    ghost use Rattle.text_scan.specs.Parts.{words_of};
    ghost use Rattle.cisco_reader.specs.Entry.{address_word, named_group};
    ghost use Rattle.cisco_reader.specs.Names.{after_number, first_number};
    ghost use Rattle.cisco_reader.specs.PortList.{listed};
    ghost use Rattle.cisco_reader.specs.Services.{after_operator, next_operator, next_port};
    ghost use Rattle.cisco_reader.specs.Read.{Reads, alone, done, is_end, is_next, required, rest_of};
    ghost use Rattle.cisco_reader.specs.Names.{begins_known};

    /// Those of a text.
    pub(crate) fn of(text: &'a [u8]) -> Words<'a>
        ensures { result ≡ words_of text.now }
    {
        Words { left: text }
    }

    /// The next word, if there is one.
    pub(crate) fn next(&mut self) -> Option<&'a [u8]>
        ensures first { MatchOption result (self.old ≡ [])
            (λ word. self.old ≡ word.now ∷ self.new) }
        ensures rest { self.new ≡ rest_of self.old }
    {
        let Some((word, rest)) = next_word(self.left) else {
            return None;
        };
        self.left = rest;
        Some(word)
    }

    /// The next word, which has to be there.
    pub(crate) fn required(&mut self) -> Result<&'a [u8], LineKind>
        ensures { MatchResult result
            (λ word. required self.old ≡ done word.now self.new)
            (λ kind. required self.old ≡ Err kind) }
    {
        self.next().ok_or(LineKind::MissingWord)
    }

    /// Whether none is left.
    pub(crate) fn is_empty(&self) -> bool
        ensures { result ≡ is_end self.now }
    {
        match next_word(self.left) {
            Some(_) => false,
            None => true,
        }
    }

    /// None may be left.
    pub(crate) fn end(&self) -> Result<(), LineKind>
        ensures { result ≡ alone self.now tt }
    {
        match next_word(self.left) {
            Some(_) => Err(LineKind::UnknownWord),
            None => Ok(()),
        }
    }

    /// Whether the next word is this one.
    pub(crate) fn is_next(&self, word: &[u8]) -> bool
        ensures { result ≡ is_next word.now self.now }
    {
        match next_word(self.left) {
            Some((first, _)) => first == word,
            None => false,
        }
    }

    /// Whether the next word is this one, which is taken then.
    pub(crate) fn skip(&mut self, word: &[u8]) -> bool
        ensures is { result ≡ is_next word.now self.old }
        ensures rest { self.new ≡ (if result then rest_of self.old else self.old) }
    {
        if !self.is_next(word) {
            return false;
        }
        self.next();
        true
    }

    /// Whether the next word is one of a kind.
    pub(crate) fn begins(&self, kind: Known) -> bool
        ensures { result ≡ begins_known kind self.now }
    {
        match next_word(self.left) {
            Some((word, _)) => kind.has(word),
            None => false,
        }
    }

    /// The number that may stand next.
    pub(crate) fn number(&mut self) -> Option<u64>
        ensures number { result ≡ first_number self.old }
        ensures rest { self.new ≡ after_number self.old }
    {
        let (word, rest) = next_word(self.left)?;
        let number = number(word, u64::MAX)?;
        self.left = rest;
        Some(number)
    }

    /// The port that has to stand next.
    pub(crate) fn port(&mut self) -> Result<u64, LineKind>
        ensures port { Reads (next_port self.old) result self.new }
        ensures bound { IfOk result (λ port. port ≤ 65535) }
    {
        port(self.required()?).ok_or(LineKind::BadPort)
    }

    /// The ports up to the first word that is none, at least one.
    pub(crate) fn ports(&mut self) -> Result<Ports, LineKind>
        ensures { Reads (listed [] self.old) result self.new }
    {
        let mut ports = Ports::none();
        let mut left = self.left;
        while let Some((word, rest)) = next_word(left) {
            let Some(number) = port(word) else {
                self.left = left;
                return ports.ended();
            };
            if ports.spans().len() >= MAX_PORTS {
                return Err(LineKind::ManyPorts);
            }
            ports.push(Span {
                low: number,
                high: number,
            });
            left = rest;
        }
        self.left = left;
        ports.ended()
    }

    /// The comparison of ports that may stand next.
    pub(crate) fn operator(&mut self) -> Option<Operator>
        ensures operator { result ≡ next_operator self.old }
        ensures rest { self.new ≡ after_operator self.old }
    {
        let (word, rest) = next_word(self.left)?;
        let operator = operator_named(word)?;
        self.left = rest;
        Some(operator)
    }

    /// The IPv4 address that has to stand next. Another word has the fault.
    pub(crate) fn address(&mut self, kind: LineKind) -> Result<u32, LineKind>
        ensures { Reads (address_word kind self.old) result self.new }
    {
        ip4_plain(self.required()?).ok_or(kind)
    }

    /// The place of the group of a kind that is named next.
    pub(crate) fn group(&mut self, groups: &[Group], kind: &[u8]) -> Result<usize, LineKind>
        ensures { Reads (named_group groups.now kind.now self.old) result self.new }
    {
        place_for(groups, kind, self.required()?)
    }
}
