//! What a line says to the call that it asks for: the words after its first one.

ghost use Rattle.std.specs.Prelude.{◌≡◌, ◌<◌, ◌≤◌, None, Some, IfOk, IfSome, MatchOption, IsTrue};
ghost use Rattle.std.specs.Option.{option_map};
ghost use Rattle.table_sizes.specs.Sizes.{max_rules, max_words};
ghost use Rattle.text_scan.specs.Parts.{words_of};
ghost use Rattle.acl_session.specs.WordReading.{read_of};
ghost use Rattle.acl_session.specs.Hex.{are_bytes_in_hex, bytes_in_hex};
ghost use Rattle.acl_session.specs.Command.{Command, budget_of, buffer_of, field_of, limit_of};
ghost use Rattle.acl_session.specs.Command.{next_count, next_kind, next_tag, rule_of};
ghost use Rattle.acl_session.specs.Command.{Classify};

use crate::hex::are_bytes_in_hex;
use crate::values::read_values;
use crate::verb::kind_named;
use crate::words::{is_end, take_number, take_word};
use field_defs::FieldKind;
use rule_set::{Categories, MAX_CATEGORIES, RuleTag, StoredRule};
use std::alloc::{AllocError, Global};
use table_sizes::{MAX_RULES, MAX_WORDS};

/// The greatest size, and the greatest input index, that may be written.
const MAX_BYTE: u64 = 255;
/// The greatest priority that may be written.
const MAX_WRITTEN_PRIORITY: u64 = 2_147_483_647;
/// The greatest offset, category mask and userdata that may be written.
const MAX_WRITTEN: u64 = 4_294_967_295;

/// The definition of a field as it is written, without its place among the fields. Source: DPDK
/// `lib/acl`, `rte_acl.h`, `rte_acl_field_def`.
#[derive(Clone, Copy)]
pub(crate) struct WrittenField {
    /// How its values let bytes through.
    pub kind: FieldKind,
    /// Its bytes.
    pub size: u8,
    /// The group of four bytes that it is read with.
    pub input_index: u8,
    /// The byte of a buffer that it begins with.
    pub offset: u32,
}

/// The definition of a field that the words after `field` are: its kind, size, input index and
/// offset. None where a word lacks, is one too many or isn't of its form. It takes no memory.
pub(crate) fn read_field(text: &[u8]) -> Option<WrittenField>
    ensures { result ≡ field_of (words_of text.now) }
{
    let (kind, rest) = take_kind(text)?;
    let (size, rest) = take_number(rest, MAX_BYTE)?;
    let (input_index, rest) = take_number(rest, MAX_BYTE)?;
    let (offset, rest) = take_number(rest, MAX_WRITTEN)?;
    if !is_end(rest) {
        return None;
    }
    Some(WrittenField {
        kind,
        size: size as u8,
        input_index: input_index as u8,
        offset: offset as u32,
    })
}

/// The kind of a field that the next word names, and the text after it.
fn take_kind(text: &[u8]) -> Option<(FieldKind, &[u8])>
    ensures { MatchOption result
        (next_kind (words_of text.now) ≡ None)
        (λ read. next_kind (words_of text.now) ≡ Some (read_of read.0 (words_of read.1.now))) }
{
    let (word, rest) = take_word(text)?;
    Some((kind_named(word)?, rest))
}

/// How many rules a context may hold, by the words after `context`: one number, at most
/// [`table_sizes::MAX_RULES`]. None where they are anything else. It takes no memory.
pub(crate) fn read_limit(text: &[u8]) -> Option<u32>
    ensures limit { result ≡ limit_of (words_of text.now) }
    ensures bound { IfSome result (λ limit. limit ≤ max_rules) }
{
    let (limit, rest) = take_number(text, MAX_RULES as u64)?;
    if !is_end(rest) {
        return None;
    }
    Some(limit as u32)
}

/// The rule that the words after `rule` are: its priority, categories and userdata, and a value for
/// each further word. None where a word is of no such form; whether the rule is lawful for a layout
/// isn't asked. It takes the memory of the values, and want of it is the only error.
pub(crate) fn read_rule(alloc: Global, text: &[u8]) -> Result<Option<StoredRule>, AllocError>
    ensures { IfOk result (λ rule. rule ≡ rule_of (words_of text.now)) }
{
    let Some((tag, rest)) = take_tag(text) else {
        return Ok(None);
    };
    match read_values(alloc, rest)? {
        Some(values) => Ok(Some(StoredRule::new(alloc, tag, &values)?)),
        None => Ok(None),
    }
}

/// The priority, categories and userdata of a rule, and the text after them.
fn take_tag(text: &[u8]) -> Option<(RuleTag, &[u8])>
    ensures { MatchOption result
        (next_tag (words_of text.now) ≡ None)
        (λ read. next_tag (words_of text.now) ≡ Some (read_of read.0 (words_of read.1.now))) }
{
    let (priority, rest) = take_number(text, MAX_WRITTEN_PRIORITY)?;
    let (category_mask, rest) = take_number(rest, MAX_WRITTEN)?;
    let (userdata, rest) = take_number(rest, MAX_WRITTEN)?;
    let tag = RuleTag {
        category_mask: category_mask as u32,
        priority: priority as i32,
        userdata: userdata as u32,
    };
    Some((tag, rest))
}

/// How many words the table may have, by the words after `build`: one number, from 1 to
/// [`table_sizes::MAX_WORDS`]. None where they are anything else. It takes no memory.
pub(crate) fn read_budget(text: &[u8]) -> Option<u64>
    ensures budget { result ≡ budget_of (words_of text.now) }
    ensures some { IfSome result (λ budget. 0 < budget) }
    ensures bound { IfSome result (λ budget. budget ≤ max_words) }
{
    let (budget, rest) = take_number(text, MAX_WORDS as u64)?;
    if budget == 0 || !is_end(rest) {
        return None;
    }
    Some(budget)
}

/// How many categories are asked for, and the digits of a buffer, by the words after `classify`:
/// two hexadecimal digits for each byte, and at least one byte. None where they are anything else.
/// It takes no memory.
pub(crate) fn read_buffer(text: &[u8]) -> Option<(Categories, &[u8])>
    ensures buffer { MatchOption result
        (buffer_of (words_of text.now) ≡ None)
        (λ read. buffer_of (words_of text.now)
        ≡ Some (Classify read.0.count (bytes_in_hex read.1.now))) }
    ensures digits { IfSome result (λ read. IsTrue (are_bytes_in_hex read.1.now)) }
{
    let (cats, rest) = take_count(text)?;
    let (digits, rest) = take_word(rest)?;
    if !are_bytes_in_hex(digits) || !is_end(rest) {
        return None;
    }
    Some((cats, digits))
}

/// How many categories the next word says, and the text after it.
fn take_count(text: &[u8]) -> Option<(Categories, &[u8])>
    ensures { MatchOption result
        (next_count (words_of text.now) ≡ None)
        (λ read. next_count (words_of text.now)
        ≡ Some (read_of read.0.count (words_of read.1.now))) }
{
    let (count, rest) = take_number(text, MAX_CATEGORIES as u64)?;
    Some((Categories::new(count as u32)?, rest))
}
