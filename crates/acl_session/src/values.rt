//! What a rule says of a field: `V/B`, `L:H` or `V&M`.

ghost use Rattle.std.specs.Prelude.{◌≡◌, ◌≤◌, IfOk, IfSome};
ghost use Rattle.std.specs.Option.{option_map};
ghost use Rattle.text_scan.specs.Parts.{words_of};
ghost use Rattle.acl_session.specs.Values.{bitmask_of, pair_around, value_of, values_of};

use field_defs::FieldValue;
use std::alloc::{AllocError, Global};
use text_scan::{next_word, split_once, whole_number};

/// The greatest number of leading bits that may be written.
const MAX_BITS: u64 = 255;
/// The greatest other number of a value.
const MAX_NUMBER: u64 = 18_446_744_073_709_551_615;

/// The values that the words of a text spell. None where some word spells no value.
///
/// It takes the memory of the values.
pub(crate) fn read_values(alloc: Global, text: &[u8]) -> Result<Option<Vec<FieldValue>>, AllocError>
    ensures { IfOk result (λ values.
        option_map (λ v. v.items) values ≡ values_of (words_of text.now)) }
{
    let mut values = Vec::new(alloc);
    let mut left = text;
    while let Some((word, rest)) = next_word(left) {
        match read_value(word) {
            Some(value) => values.push(value)?,
            None => return Ok(None),
        }
        left = rest;
    }
    Ok(Some(values))
}

/// The value that a word spells.
fn read_value(word: &[u8]) -> Option<FieldValue>
    ensures { result ≡ value_of word.now }
{
    match read_pair(word, b'/', MAX_BITS) {
        Some((value, bits)) => Some(FieldValue::Mask {
            value,
            bits: bits as u8,
        }),
        None => match read_pair(word, b':', MAX_NUMBER) {
            Some((low, high)) => Some(FieldValue::Range { low, high }),
            None => read_bitmask(word),
        },
    }
}

/// The value and the mask around the `&` of a word.
fn read_bitmask(word: &[u8]) -> Option<FieldValue>
    ensures { result ≡ bitmask_of word.now }
{
    let (value, mask) = read_pair(word, b'&', MAX_NUMBER)?;
    Some(FieldValue::Bitmask { value, mask })
}

/// The numbers around the first separator of a word, the second of at most so much.
fn read_pair(word: &[u8], separator: u8, greatest: u64) -> Option<(u64, u64)>
    ensures pair { result ≡ pair_around separator greatest word.now }
    ensures bound { IfSome result (λ pair. pair.1 ≤ greatest) }
{
    let (first, second) = split_once(word, separator)?;
    Some((
        whole_number(first, MAX_NUMBER)?,
        whole_number(second, greatest)?,
    ))
}
