//! The words of each command.

ghost use Rattle.std.specs.Prelude.{◌≡◌, ◌++◌, ◌∷◌, [], map, decimal, string_bytes, vec_len, IfOk, OnOk};
ghost use Rattle.aclc_page.specs.Words.{audit_words, classify_words, compare_words, session_words};
ghost use Rattle.aclc_page.specs.Words.{switch_words};

use crate::exports::Asked;
use itoa::Buffer;
use std::alloc::{AllocError, Global};

/// The words of `classify`.
pub(crate) fn classify_words(alloc: Global, asked: &Asked) -> Result<Vec<String>, AllocError>
    ensures { IfOk result (λ words. map string_bytes words.items
        ≡ classify_words asked.now) }
{
    let mut words = Vec::new(alloc);
    push_word(alloc, &mut words, "classify")?;
    push_word(alloc, &mut words, "rules")?;
    push_word(alloc, &mut words, "capture")?;
    push_number(alloc, &mut words, "categories=", asked.categories as u64)?;
    push_number(alloc, &mut words, "max-words=", asked.max_words)?;
    push_switch(alloc, &mut words, "stats=on", asked.stats != 0)?;
    push_switch(alloc, &mut words, "marks=on", asked.marks != 0)?;
    Ok(words)
}

/// The words of `audit`.
pub(crate) fn audit_words(alloc: Global, asked: &Asked) -> Result<Vec<String>, AllocError>
    ensures { IfOk result (λ words. map string_bytes words.items ≡ audit_words asked.now) }
{
    let mut words = Vec::new(alloc);
    push_word(alloc, &mut words, "audit")?;
    push_word(alloc, &mut words, "rules")?;
    push_number(alloc, &mut words, "categories=", asked.categories as u64)?;
    push_number(alloc, &mut words, "max-words=", asked.max_words)?;
    Ok(words)
}

/// The words of `compare`.
pub(crate) fn compare_words(alloc: Global, asked: &Asked) -> Result<Vec<String>, AllocError>
    ensures { IfOk result (λ words. map string_bytes words.items ≡ compare_words asked.now) }
{
    let mut words = Vec::new(alloc);
    push_word(alloc, &mut words, "compare")?;
    push_word(alloc, &mut words, "rules")?;
    push_word(alloc, &mut words, "second")?;
    push_number(alloc, &mut words, "max-words=", asked.max_words)?;
    Ok(words)
}

/// The words of `session`.
pub(crate) fn session_words(alloc: Global) -> Result<Vec<String>, AllocError>
    ensures { IfOk result (λ words. map string_bytes words.items ≡ session_words) }
{
    let mut words = Vec::new(alloc);
    push_word(alloc, &mut words, "session")?;
    push_word(alloc, &mut words, "script")?;
    Ok(words)
}

/// Puts a word after the others.
fn push_word(alloc: Global, words: &mut Vec<String>, word: &str) -> Result<(), AllocError>
    ensures { OnOk result (map string_bytes words.new.items
        ≡ map string_bytes words.old.items ++ word.now ∷ []) }
{
    let word = String::from_str(alloc, word)?;
    words.push(word)?;
    Ok(())
}

/// Puts an option with a number after the words.
fn push_number(
    alloc: Global,
    words: &mut Vec<String>,
    name: &str,
    number: u64,
) -> Result<(), AllocError>
    ensures { OnOk result (map string_bytes words.new.items
        ≡ map string_bytes words.old.items ++ (name.now ++ decimal number) ∷ []) }
{
    let mut digits = Buffer::new();
    let mut word = String::from_str(alloc, name)?;
    word.push_str(digits.format(number))?;
    words.push(word)?;
    Ok(())
}

/// Puts an option after the words if it is switched on.
fn push_switch(
    alloc: Global,
    words: &mut Vec<String>,
    word: &str,
    on: bool,
) -> Result<(), AllocError>
    ensures { OnOk result (map string_bytes words.new.items
        ≡ map string_bytes words.old.items ++ switch_words on word.now) }
{
    if on {
        return push_word(alloc, words, word);
    }
    Ok(())
}
