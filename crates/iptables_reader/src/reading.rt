//! A rule of a list, option by option.
//!
//! An option is a name, perhaps after `!`, and its value, or as many words as it has. It is known
//! once its match or its target is named: those of the match that was named last, and those of the
//! target, may follow.

ghost use Rattle.std.specs.Prelude.{◌≡◌, MatchResult, Ok};
ghost use Rattle.text_scan.specs.Parts.{words_of};
ghost use Rattle.iptables_reader.specs.Stops.{Refuses};
ghost use Rattle.iptables_reader.specs.Reading as reading;

use crate::fault::{LineKind, Stop};
use crate::options::{Match, Row, Verdict, any_option, own_option};
use crate::setting::Setting;
use crate::tables::{matches, option_in, targets};
use crate::words::{Words, is};
use list_packets::Caught;
use std::alloc::AllocError;
use std::marker::Model;

/// What a rule does with the packets that it catches. Chains are named by their places.
#[derive(Clone, Copy)]
pub(crate) enum Act {
    Decide(Verdict),
    Jump(usize),
    Go(usize),
    /// The next rule is asked.
    Pass,
}

/// The options that may follow, which a table has from a place on.
#[derive(Clone, Copy)]
pub(crate) enum Rows {
    /// None.
    Nothing,
    /// Those of a match.
    Match(usize),
    /// Those of a target.
    Target(usize),
}

/// The value of an option, which `!` may stand before. Contracts see a record of both.
#[derive(Drop)]
pub(crate) struct Value<'a> {
    pub(crate) negated: bool,
    pub(crate) word: &'a [u8],
}

impl<'a> Model for Value<'a> {
    ghost use Rattle.iptables_reader.specs.OptionValues.{OptionValue};

    ghost Value = { OptionValue };

    ghost view = { λ value. record { negated = value.negated; word = value.word.now } };
}

/// What the options of a rule said so far.
#[derive(Drop)]
pub(crate) struct Reading {
    /// The bits of the options that came.
    pub(crate) given: u32,
    /// The number of the protocol that packets have to have, and 0 where none is known.
    pub(crate) known: u64,
    /// A match on this protocol was named.
    pub(crate) matched: bool,
    /// The match that was named last, if its options are read, and whether one has to come next.
    pub(crate) kind: Option<Match>,
    pub(crate) own: bool,
    /// The options that no rule file says, or that decide nothing.
    pub(crate) rows: Rows,
    pub(crate) caught: Caught,
    /// No packet has what is assumed.
    pub(crate) never: bool,
    /// The first cause why no rule file says which packets it catches.
    pub(crate) cause: Option<LineKind>,
    pub(crate) act: Option<Act>,
}

impl Reading {
    ghost use Rattle.std.specs.Prelude.{◌≡◌, IfOk, MatchResult, Ok};
    ghost use Rattle.iptables_reader.specs.OptionValues as values;
    ghost use Rattle.iptables_reader.specs.Reading as reading;
    ghost use Rattle.iptables_reader.specs.Stops.{Makes, Refuses};

    /// Nothing was read yet.
    fn first(setting: &Setting) -> Result<Reading, AllocError>
        ensures { IfOk result (λ first. first ≡ reading.first_reading setting.now.family) }
    {
        let caught = Caught::all(setting.alloc, setting.family)?;
        Ok(Reading {
            given: 0,
            known: 0,
            matched: false,
            kind: None,
            own: false,
            rows: Rows::Nothing,
            caught,
            never: false,
            cause: None,
            act: None,
        })
    }

    /// A cause why no rule file says it, if none came before.
    pub(crate) fn put_cause(&mut self, kind: LineKind)
        ensures { self.new ≡ values.with_cause kind self.old }
    {
        if self.cause.is_none() {
            self.cause = Some(kind);
        }
    }

    /// The option that a word names: one of the last match, or of any rule where that may come.
    fn option_named(&self, name: &[u8]) -> Option<Row>
        ensures { result ≡ reading.option_named self.now name.now }
    {
        if let Some(kind) = self.kind {
            if let Some(row) = own_option(kind, name) {
                return Some(row);
            }
        }
        if self.own {
            return None;
        }
        any_option(name)
    }

    /// An option that begins with a word: `!`, or its name.
    fn take_option(&mut self, setting: &Setting, word: &[u8], words: &mut Words) -> Result<(), Stop>
        ensures { Makes (reading.with_option setting.now self.old word.now words.old)
            (record { reading = self.new; words = words.new }) result }
    {
        if !is(word, b"!") {
            return self.take_named(setting, false, word, words);
        }
        let name = words.required()?;
        if is(name, b"!") {
            return Err(Stop::Faulty(LineKind::BadNegation));
        }
        self.take_named(setting, true, name, words)
    }

    /// An option by its name.
    fn take_named(
        &mut self,
        setting: &Setting,
        negated: bool,
        name: &[u8],
        words: &mut Words,
    ) -> Result<(), Stop>
        ensures { Makes (reading.with_named setting.now negated self.old name.now words.old)
            (record { reading = self.new; words = words.new }) result }
    {
        match self.option_named(name) {
            Some(row) => self.take_row(setting, negated, row, words),
            None => {
                let count = self.pass_over(negated, name)?;
                words.skip(count)
            }
        }
    }

    /// An option that is read, which may not be negated, or comes once.
    fn take_row(
        &mut self,
        setting: &Setting,
        negated: bool,
        row: Row,
        words: &mut Words,
    ) -> Result<(), Stop>
        ensures { Makes (reading.with_row setting.now negated self.old row words.old)
            (record { reading = self.new; words = words.new }) result }
    {
        let (said, once, may_be_negated) = row;
        if negated && !may_be_negated {
            return Err(Stop::Faulty(LineKind::BadNegation));
        }
        if self.given & once != 0 {
            return Err(Stop::Faulty(LineKind::OptionTwice));
        }
        self.given |= once;
        self.own = false;
        match said {
            Some(option) => {
                let word = words.required()?;
                self.take_value(setting, option, Value { negated, word })
            }
            None => words.skip(1),
        }
    }

    /// An option of a table: one of the last match, which no rule file says, or of the target,
    /// which isn't negated. It has so many words.
    fn pass_over(&mut self, negated: bool, name: &[u8]) -> Result<u64, Stop>
        ensures { MatchResult result
            (λ count. reading.passed_over negated self.old name.now
            ≡ Ok (record { count = count; reading = self.new }))
            (Refuses (reading.passed_over negated self.old name.now)) }
    {
        self.own = false;
        match self.rows {
            Rows::Nothing => Err(Stop::Faulty(LineKind::UnknownOption)),
            Rows::Match(place) => {
                let row = option_in(matches(), place, name).ok_or(Stop::Faulty(
                    LineKind::UnknownOption,
                ))?;
                self.put_cause(LineKind::CantSay);
                self.rows = Rows::Match(row.after);
                Ok(row.count)
            }
            Rows::Target(place) => {
                if negated {
                    return Err(Stop::Faulty(LineKind::BadNegation));
                }
                let row = option_in(targets(), place, name).ok_or(Stop::Faulty(
                    LineKind::UnknownOption,
                ))?;
                self.rows = Rows::Target(row.after);
                Ok(row.count)
            }
        }
    }

    /// The end of the line. A rule that passes packets on, or that none meets, does nothing.
    fn finish(&mut self) -> Result<(), Stop>
        ensures { Makes (reading.finished self.old) self.new result }
    {
        if self.own {
            return Err(Stop::Faulty(LineKind::MissingWord));
        }
        if passes(self.act) || self.never {
            self.act = None;
        }
        Ok(())
    }
}

/// What the text after the name of a rule's chain says, or the first fault from left to right.
pub(crate) fn options(setting: &Setting, text: &[u8]) -> Result<Reading, Stop>
    ensures { MatchResult result
        (λ read. reading.options_of setting.now (words_of text.now) ≡ Ok read)
        (Refuses (reading.options_of setting.now (words_of text.now))) }
{
    let mut reading = Reading::first(setting)?;
    let mut words = Words::of(text);
    while let Some(word) = words.next() {
        reading.take_option(setting, word, &mut words)?;
    }
    reading.finish()?;
    Ok(reading)
}

/// Whether the next rule is asked for the same packets.
fn passes(act: Option<Act>) -> bool
    ensures { result ≡ reading.passes act }
{
    matches!(act, Some(Act::Pass) | None)
}
