//! The options of a command, and what words say of them.

ghost use Rattle.std.specs.Prelude.{◌≡◌, ◌+◌, ◌&&◌, false, IfOk, IfErr, IfSome, IsTrue, OnOk};
ghost use Rattle.std.specs.Prelude.{Ok, Err, None};
ghost use Rattle.command_words.specs.Options.{none_given, settled_options, usual_words, number_in};
ghost use Rattle.command_words.specs.Options.{categories_in, walk_in, budget_in, choice_in, once};
ghost use Rattle.command_words.specs.Options.{with_option, with_switch, begins_with, value_of};
ghost use Rattle.command_words.specs.CommandLine.{count_of, words_of, options_of, options_given};

use crate::allowed::Allowed;
use crate::budget::Budget;
use crate::usage_fault::UsageKind;
use flat_table::Walk;
use rule_set::Categories;
use std::marker::Model;
use text_scan::digits_value;

/// What a command is asked for besides its files.
#[derive(Clone, Copy)]
pub struct Options {
    /// How many categories are printed.
    pub categories: Categories,
    /// Which walk answers the keys. It changes nothing that is printed.
    pub walk: Walk,
    /// How many words the table of each family may have.
    pub max_words: Budget,
    /// Whether the sizes of the tables and the transitions are printed.
    pub stats: bool,
    /// Whether a dash marks where no rule matches.
    pub marks: bool,
}

/// How many digits a number has at most.
const MAX_DIGITS: usize = 20;

/// The budget where none is given: 16 MiB for the table of each family.
const USUAL_WORDS: u64 = 2_097_152;

/// The options that were given so far.
#[derive(Drop)]
pub struct Given {
    categories: Option<Categories>,
    walk: Option<Walk>,
    max_words: Option<Budget>,
    stats: Option<bool>,
    marks: Option<bool>,
}

impl Model for Given {
    ghost use Rattle.command_words.specs.Options as options;
    ghost use Rattle.command_words.specs.CommandLine.{count_of, words_of};

    ghost Value = { options.Given };

    ghost view = { λ given. record {
      categories = count_of given.categories;
      walk = given.walk;
      max_words = words_of given.max_words;
      stats = given.stats;
      marks = given.marks;
    } };
}

impl Given {
    /// No option was given yet.
    pub fn new() -> Given
        ensures { result ≡ none_given }
    {
        Given {
            categories: None,
            walk: None,
            max_words: None,
            stats: None,
            marks: None,
        }
    }

    /// Takes one word more: the table of the options, one after the other, of which the command
    /// allows these.
    ///
    /// After a fault the options are of no use.
    pub fn add(&mut self, allowed: Allowed, word: &[u8]) -> Result<(), UsageKind>
        ensures more { OnOk result (options_given self.new ≡ options_given self.old + 1) }
        ensures ok { OnOk result (with_option allowed self.old word.now ≡ Ok self.new) }
        ensures err { IfErr result (λ kind. with_option allowed self.old word.now ≡ Err kind) }
    {
        if let Some(value) = value_of(allowed.categories, b"categories=", word) {
            self.categories = Some(once(self.categories, categories_in(value))?);
        } else if let Some(value) = value_of(allowed.walk, b"walk=", word) {
            self.walk = Some(once(self.walk, walk_in(value))?);
        } else if let Some(value) = value_of(allowed.max_words, b"max-words=", word) {
            self.max_words = Some(once(self.max_words, budget_in(value))?);
        } else {
            return self.add_switch(allowed, word);
        }
        Ok(())
    }

    /// Takes a word that switches something on or off.
    fn add_switch(&mut self, allowed: Allowed, word: &[u8]) -> Result<(), UsageKind>
        ensures more { OnOk result (options_given self.new ≡ options_given self.old + 1) }
        ensures ok { OnOk result (with_switch allowed self.old word.now ≡ Ok self.new) }
        ensures err { IfErr result (λ kind. with_switch allowed self.old word.now ≡ Err kind) }
    {
        if let Some(value) = value_of(allowed.stats, b"stats=", word) {
            self.stats = Some(once(self.stats, choice_in(value))?);
        } else if let Some(value) = value_of(allowed.marks, b"marks=", word) {
            self.marks = Some(once(self.marks, choice_in(value))?);
        } else {
            return Err(UsageKind::UnknownOption);
        }
        Ok(())
    }

    /// The options, of which those that weren't given have their usual values.
    pub fn settled(&self) -> Options
        ensures { options_of result ≡ settled_options self.now }
    {
        Options {
            categories: self.categories.unwrap_or(one_category()),
            walk: self.walk.unwrap_or(Walk::Scalar),
            max_words: self.max_words.unwrap_or(usual_budget()),
            stats: self.stats.unwrap_or(false),
            marks: self.marks.unwrap_or(false),
        }
    }
}

/// What stands after the name of an option, where the word begins with it and the command allows
/// the option.
fn value_of<'a>(allowed: bool, name: &[u8], word: &'a [u8]) -> Option<&'a [u8]>
    ensures none { result ≡ None → (allowed && begins_with name.now word.now) ≡ false }
    ensures some { IfSome result (λ value. IsTrue (allowed && begins_with name.now word.now)
        × (value.now ≡ value_of name.now word.now)) }
{
    if allowed {
        word.strip_prefix(name)
    } else {
        None
    }
}

/// The value of an option that wasn't given before, where it is lawful.
fn once<T: Copy>(before: Option<T>, value: Option<T>) -> Result<T, UsageKind>
    ensures { result ≡ once before value }
{
    if before.is_some() {
        return Err(UsageKind::RepeatedOption);
    }
    match value {
        Some(value) => Ok(value),
        None => Err(UsageKind::BadValue),
    }
}

/// The number of categories where none is given.
fn one_category() -> Categories
    ensures { result.count ≡ 1 }
{
    match Categories::new(1) {
        Some(categories) => categories,
        None => unreachable!(),
    }
}

/// The number of categories that a text is.
fn categories_in(text: &[u8]) -> Option<Categories>
    ensures { count_of result ≡ categories_in text.now }
{
    let number = number_in(text)?;
    Categories::new(u32::try_from(number).ok()?)
}

/// The walk that a text names.
fn walk_in(text: &[u8]) -> Option<Walk>
    ensures { result ≡ walk_in text.now }
{
    if text == b"scalar".as_slice() {
        Some(Walk::Scalar)
    } else if text == b"lanes".as_slice() {
        Some(Walk::Lanes)
    } else {
        None
    }
}

/// The budget where none is given.
fn usual_budget() -> Budget
    ensures { result.words ≡ usual_words }
{
    match Budget::new(USUAL_WORDS) {
        Some(budget) => budget,
        None => unreachable!(),
    }
}

/// The budget that a text is.
fn budget_in(text: &[u8]) -> Option<Budget>
    ensures { words_of result ≡ budget_in text.now }
{
    Budget::new(number_in(text)?)
}

/// The choice that a text makes.
fn choice_in(text: &[u8]) -> Option<bool>
    ensures { result ≡ choice_in text.now }
{
    if text == b"on".as_slice() {
        Some(true)
    } else if text == b"off".as_slice() {
        Some(false)
    } else {
        None
    }
}

/// The number that a text is: at most 20 decimal digits, and below 2^64.
pub fn number_in(text: &[u8]) -> Option<u64>
    ensures { result ≡ number_in text.now }
{
    if text.is_empty() || text.len() > MAX_DIGITS {
        return None;
    }
    digits_value(text, 10)
}
