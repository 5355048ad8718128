//! Attributes of a rule: the words after its columns, and the tag that they make.

ghost use Rattle.std.specs.Prelude.{◌≡◌, ◌≤◌, ◌<◌, ◌^◌, IfOk};
ghost use Rattle.rule_set.specs.Lawful.{IsLawfulTag};
ghost use Rattle.text_scan.specs.Parts.{words_of};
ghost use Rattle.classbench_reader.specs.Attributes.{attributes_of, number_once, tag_of};
ghost use Rattle.classbench_reader.specs.Attributes.{with_named, with_word};

use crate::rules_fault::LineKind;
use rule_set::{ALL_CATEGORIES, RuleTag};
use text_scan::{next_word, split_once, whole_number};

/// The greatest priority of a rule.
const MAX_PRIORITY: u32 = rule_set::MAX_PRIORITY as u32;
/// The greatest number after `pri=`. A priority may be spelled that a rule may not have.
const MAX_WRITTEN_PRIORITY: u64 = 2_147_483_647;
/// The greatest number after `cat=` and after `data=`.
const MAX_WRITTEN: u64 = 4_294_967_295;

/// The attributes of a line, each with the number that was written, if it was.
#[derive(Clone, Copy)]
pub struct Attributes {
    /// After `pri=`.
    pub priority: Option<u32>,
    /// After `cat=`.
    pub categories: Option<u32>,
    /// After `data=`.
    pub userdata: Option<u32>,
}

impl Attributes {
    const NONE: Attributes = Attributes {
        priority: None,
        categories: None,
        userdata: None,
    };

    /// The attributes that the words of a text spell, from left to right.
    pub fn read(text: &[u8]) -> Result<Attributes, LineKind>
        ensures { result ≡ attributes_of (words_of text.now) }
    {
        let mut attributes = Attributes::NONE;
        let mut left = text;
        while let Some((word, rest)) = next_word(left) {
            attributes = attributes.with_word(word)?;
            left = rest;
        }
        Ok(attributes)
    }

    /// The attributes with that of one more word: a name, `=` and a number.
    fn with_word(self, word: &[u8]) -> Result<Attributes, LineKind>
        ensures { result ≡ with_word self word.now }
    {
        match split_once(word, b'=') {
            Some((name, text)) => self.with_named(name, text).ok_or(LineKind::BadAttribute),
            None => Err(LineKind::TailLeft),
        }
    }

    /// The attributes with the number of this name. None where there is no such name, the name came
    /// before, or the text is no number in its bounds.
    fn with_named(self, name: &[u8], text: &[u8]) -> Option<Attributes>
        ensures { result ≡ with_named self name.now text.now }
    {
        if name == b"pri".as_slice() {
            let priority = Some(number_once(self.priority, text, MAX_WRITTEN_PRIORITY)?);
            Some(Attributes { priority, ..self })
        } else if name == b"cat".as_slice() {
            let categories = Some(number_once(self.categories, text, MAX_WRITTEN)?);
            Some(Attributes { categories, ..self })
        } else if name == b"data".as_slice() {
            let userdata = Some(number_once(self.userdata, text, MAX_WRITTEN)?);
            Some(Attributes { userdata, ..self })
        } else {
            None
        }
    }

    /// The tag of the rule of an ordinal, from 1, where what isn't said is a priority that falls
    /// with each rule, all categories, and the ordinal as userdata.
    pub fn tag(&self, ordinal: u32) -> Result<RuleTag, LineKind>
        requires { ordinal ≤ MAX_PRIORITY }
        ensures tag { result ≡ tag_of ordinal self.now }
        ensures lawful { IfOk result IsLawfulTag }
    {
        let priority = self.priority.unwrap_or(MAX_PRIORITY - ordinal);
        let category_mask = self.categories.unwrap_or(ALL_CATEGORIES);
        let userdata = self.userdata.unwrap_or(ordinal);
        if category_mask & ALL_CATEGORIES == 0 {
            return Err(LineKind::NoCategory);
        }
        if priority > MAX_PRIORITY {
            return Err(LineKind::PriorityRange);
        }
        Ok(RuleTag {
            category_mask,
            priority: priority as i32,
            userdata,
        })
    }
}

/// The number that a text spells, unless there was one before.
fn number_once(earlier: Option<u32>, text: &[u8], greatest: u64) -> Option<u32>
    requires { greatest < 2 ^ 32 }
    ensures { result ≡ number_once earlier greatest text.now }
{
    match earlier {
        Some(_) => None,
        None => Some(whole_number(text, greatest)? as u32),
    }
}
