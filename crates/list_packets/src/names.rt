//! What words name.

ghost use Rattle.std.specs.Prelude.{◌≡◌};
ghost use Rattle.text_scan.specs.Parts.{words_of};
ghost use Rattle.list_packets.specs.Names.{named, number_in, number_said};

use crate::values::plain_number;
use text_scan::{next_word, split_once};

/// The greatest number in a table.
const MAX_NUMBER: u64 = 255;

/// The meaning of a word among names between blanks: that at the place of the first name that it
/// is. It takes no memory.
pub fn meaning_of<T: Copy>(names: &[u8], meanings: &[T], word: &[u8]) -> Option<T>
    ensures { result ≡ named word.now (words_of names.now) meanings.now }
{
    let mut left = names;
    for meaning in meanings {
        let (name, rest) = next_word(left)?;
        if name == word {
            return Some(*meaning);
        }
        left = rest;
    }
    None
}

/// The number that a table has for a name, whose words are such as `udp=17`, with numbers up to
/// 255. It takes no memory.
pub fn number_in(table: &[u8], name: &[u8]) -> Option<u64>
    ensures { result ≡ number_in name.now (words_of table.now) }
{
    let mut left = table;
    while let Some((word, rest)) = next_word(left) {
        match number_said(word, name) {
            Some(number) => return Some(number),
            None => left = rest,
        }
    }
    None
}

/// The number of a word, if it is that of the name.
fn number_said(word: &[u8], name: &[u8]) -> Option<u64>
    ensures { result ≡ number_said name.now word.now }
{
    let (named, number) = split_once(word, b'=')?;
    if named != name {
        return None;
    }
    plain_number(number, MAX_NUMBER)
}
