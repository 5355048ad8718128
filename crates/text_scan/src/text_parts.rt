//! Texts in parts: between separators, line by line, and word by word.
//!
//! Each call takes a first part off a text and gives the rest, as slices of it. It takes no memory.

ghost use Rattle.std.specs.Prelude.{◌≡◌, ◌≢◌, ◌+◌, ◌<◌, ◌≤◌, [], ◌∷◌, length, IfSome, MatchOption};
ghost use Rattle.std.specs.List.{take_while};
ghost use Rattle.std.specs.Str.Lines.{strip_carriage_return};
ghost use Rattle.text_scan.specs.Parts.{after_blanks, after_word, cut_at, first_word, is_blank};
ghost use Rattle.text_scan.specs.Parts.{lines_of, parts_of, words_of};

use memchr::memchr;

/// The texts before and after the first separator. None where there is no separator.
pub fn split_once(text: &[u8], separator: u8) -> Option<(&[u8], &[u8])>
    ensures parts { MatchOption result
        (parts_of separator text.now ≡ text.now ∷ [])
        (λ texts. parts_of separator text.now ≡ texts.0.now ∷ parts_of separator texts.1.now) }
    ensures cut { MatchOption result
        (cut_at separator text.now ≡ None)
        (λ texts. cut_at separator text.now ≡ Some (texts.0.now, texts.1.now)) }
    ensures len { IfSome result
        (λ texts. length texts.0.now + 1 + length texts.1.now ≡ length text.now) }
{
    let place = memchr(separator, text)?;
    Some((&text[..place], &text[place + 1..]))
}

/// The texts before and after the only separator. None where there is another number of
/// separators.
pub fn split_in_two(text: &[u8], separator: u8) -> Option<(&[u8], &[u8])>
    ensures parts { MatchOption result
        (length (parts_of separator text.now) ≢ 2)
        (λ texts. parts_of separator text.now ≡ texts.0.now ∷ texts.1.now ∷ []) }
{
    let (before, after) = split_once(text, separator)?;
    match split_once(after, separator) {
        Some(_) => None,
        None => Some((before, after)),
    }
}

/// The first line without what ends it, LF or CR LF, and the text after it. None where the text is
/// empty.
///
/// A last line without LF counts, and one CR at its end is dropped too.
pub fn split_line(text: &[u8]) -> Option<(&[u8], &[u8])>
    ensures lines { MatchOption result
        (lines_of text.now ≡ [])
        (λ texts. lines_of text.now ≡ texts.0.now ∷ lines_of texts.1.now) }
    ensures len { IfSome result
        (λ texts. length texts.0.now + length texts.1.now ≤ length text.now) }
    ensures shorter { IfSome result (λ texts. length texts.1.now < length text.now) }
{
    if text.is_empty() {
        return None;
    }
    match memchr(b'\n', text) {
        Some(place) => Some((without_carriage_return(&text[..place]), &text[place + 1..])),
        None => Some((without_carriage_return(text), &[])),
    }
}

/// A line without the one CR at its end, if it has one.
fn without_carriage_return(line: &[u8]) -> &[u8]
    ensures { result.now ≡ strip_carriage_return line.now }
{
    match line {
        [text @ .., b'\r'] => text,
        _ => line,
    }
}

/// The text from its first byte on that is no blank.
pub fn after_blanks(text: &[u8]) -> &[u8]
    ensures { result.now ≡ after_blanks text.now }
{
    &text[blanks_len(text)..]
}

/// How many blanks the text begins with.
fn blanks_len(text: &[u8]) -> usize
    ensures { result ≡ length (take_while is_blank text.now) }
{
    text.iter().take_while(|byte| is_blank(**byte)).count()
}

/// The first word of the text, and the text after it. None where the text has blanks alone.
pub fn next_word(text: &[u8]) -> Option<(&[u8], &[u8])>
    ensures words { MatchOption result
        (words_of text.now ≡ [])
        (λ texts. words_of text.now ≡ texts.0.now ∷ words_of texts.1.now) }
    ensures shorter { IfSome result (λ texts. length texts.1.now < length text.now) }
{
    let (word, rest) = split_word(after_blanks(text));
    if word.is_empty() {
        return None;
    }
    Some((word, rest))
}

/// The word that the text begins with, which is empty before a blank and at the end, and the rest
/// of the text.
pub fn split_word(text: &[u8]) -> (&[u8], &[u8])
    ensures word { result.0.now ≡ first_word text.now }
    ensures rest { result.1.now ≡ after_word text.now }
    ensures len { length result.0.now + length result.1.now ≡ length text.now }
{
    text.split_at(word_len(text))
}

/// How many bytes that are no blanks the text begins with.
fn word_len(text: &[u8]) -> usize
    ensures { result ≡ length (first_word text.now) }
{
    text.iter().take_while(|byte| !is_blank(**byte)).count()
}

/// Whether a byte is a space or a tab.
fn is_blank(byte: u8) -> bool
    ensures { result ≡ is_blank byte }
{
    matches!(byte, b' ' | b'\t')
}
