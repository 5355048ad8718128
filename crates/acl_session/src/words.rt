//! The words of a line, read one after the other.

ghost use Rattle.std.specs.Prelude.{◌≡◌, ◌≤◌, None, Some, IfSome, MatchOption};
ghost use Rattle.text_scan.specs.Parts.{words_of};
ghost use Rattle.acl_session.specs.WordReading.{are_none, next_number, next_word, read_of};

use text_scan::whole_number;

/// The next word, and the text after it. Words stand between blanks. None where no word is left.
pub(crate) fn take_word(text: &[u8]) -> Option<(&[u8], &[u8])>
    ensures { MatchOption result
        (next_word (words_of text.now) ≡ None)
        (λ read. next_word (words_of text.now) ≡ Some (read_of read.0.now (words_of read.1.now))) }
{
    text_scan::next_word(text)
}

/// The number that the next word is, at most `greatest`, and the text after it.
pub(crate) fn take_number(text: &[u8], greatest: u64) -> Option<(u64, &[u8])>
    ensures number { MatchOption result
        (next_number greatest (words_of text.now) ≡ None)
        (λ read. next_number greatest (words_of text.now)
        ≡ Some (read_of read.0 (words_of read.1.now))) }
    ensures bound { IfSome result (λ read. read.0 ≤ greatest) }
{
    let (word, rest) = take_word(text)?;
    Some((whole_number(word, greatest)?, rest))
}

/// Whether no word is left.
pub(crate) fn is_end(text: &[u8]) -> bool
    ensures { result ≡ are_none (words_of text.now) }
{
    text_scan::next_word(text).is_none()
}
