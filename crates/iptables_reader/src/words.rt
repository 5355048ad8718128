//! The words of a line, read from left to right.

ghost use Rattle.std.specs.Prelude.{◌≡◌};
ghost use Rattle.std.specs.Str.{bytes_eq};
ghost use Rattle.text_scan.specs.Parts.{words_of};

use crate::fault::{LineKind, Stop};
use crate::quotes::{Quotes, first_quotes, quotes_after};
use std::marker::Model;
use text_scan::next_word;

/// Whether a word is this one.
pub(crate) fn is(word: &[u8], text: &[u8]) -> bool
    ensures { result ≡ bytes_eq word.now text.now }
{
    word == text
}

/// The words that are left of a line. Contracts see the list of them.
#[derive(Drop)]
pub(crate) struct Words<'a> {
    left: &'a [u8],
}

impl<'a> Model for Words<'a> {
    ghost use Rattle.std.specs.Prelude.{List, ℕ};
    ghost use Rattle.text_scan.specs.Parts.{words_of};

    ghost Value = { List (List ℕ) };

    ghost view = { λ words. words_of words.left.now };
}

impl<'a> Words<'a> {
    ghost use Rattle.std.specs.Prelude.{◌≡◌, [], ◌∷◌, MatchOption, MatchResult};
    ghost use Rattle.text_scan.specs.Parts.{words_of};
    ghost use Rattle.iptables_reader.specs.Quotes.{after_word, after_words};
    ghost use Rattle.iptables_reader.specs.Stops.{Lacks, Makes};

    /// All words of a text.
    pub(crate) fn of(text: &'a [u8]) -> Words<'a>
        ensures { result ≡ words_of text.now }
    {
        Words { left: text }
    }

    /// The next word.
    pub(crate) fn next(&mut self) -> Option<&'a [u8]>
        ensures { MatchOption result
            (self.old ≡ [])
            (λ word. self.old ≡ word.now ∷ self.new) }
    {
        let Some((word, rest)) = next_word(self.left) else {
            return None;
        };
        self.left = rest;
        Some(word)
    }

    /// The next word, which has to be there.
    pub(crate) fn required(&mut self) -> Result<&'a [u8], Stop>
        ensures { MatchResult result
            (λ word. self.old ≡ word.now ∷ self.new)
            (Lacks self.old) }
    {
        self.next().ok_or(Stop::Faulty(LineKind::MissingWord))
    }

    /// Passes over a word, which has blanks where it stands between quotes.
    fn skip_one(&mut self) -> Result<(), Stop>
        ensures { Makes (after_word self.old) self.new result }
    {
        let mut quotes = first_quotes(self.required()?);
        while let Quotes::Open = quotes {
            quotes = quotes_after(self.required()?);
        }
        match quotes {
            Quotes::Broken => Err(Stop::Faulty(LineKind::BadQuotes)),
            Quotes::Closed | Quotes::Open => Ok(()),
        }
    }

    /// Passes over so many words.
    pub(crate) fn skip(&mut self, count: u64) -> Result<(), Stop>
        ensures { Makes (after_words count self.old) self.new result }
    {
        for _ in 0..count {
            self.skip_one()?;
        }
        Ok(())
    }
}
