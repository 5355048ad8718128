//! The words of a table, read field by field.

ghost use Rattle.std.specs.Prelude.{◌≡◌, ◌+◌, ◌*◌, ◌-◌, ◌≤◌, ◌<◌, ◌^◌, ◌/◌, [], ◌∷◌, ◌++◌, length, sum, take, map, IfOk, IfErr, OnOk, Ok, Err, IsTrue, nat_lt, ◌&&◌};
ghost use Rattle.flat_table.specs.Table.{levels_from};
ghost use Rattle.flat_table.specs.Sound.{first_level, is_sound_word};
ghost use Rattle.flat_table.specs.Word.{index_of, is_match, is_unbounded};
ghost use Rattle.table_sizes.specs.Sizes.{max_words};
ghost use Rattle.table_sizes.specs.Groups.{max_key_len};
ghost use Rattle.flat_table.specs.Groups.{depth_of};
ghost use Rattle.table_image.specs.declared.load_fault.ImageKind.TheVariants.{Unsound};
ghost use Rattle.table_image.specs.ImageReading.{checked, numbers_after, words_of_levels, words_of_tries};
ghost use Rattle.table_image.specs.Loading.{IsFaultOf, levels_of_tries};

use crate::field::{LONG, PORTION, checked};
use crate::list::push_copies;
use crate::load_fault::{ImageFault, ImageKind, LoadFault};
use crate::tries::Tries;
use byte_numbers::network_u64_at;
use flat_table::{Level, MATCH, depth_of, is_sound_word};
use std::alloc::Global;

/// Whether the word is the match of one of so many rows. Its other bits are told by one test.
fn is_match_of(rows: usize, word: u64) -> bool
    ensures { result ≡ (is_match word && (is_unbounded word && nat_lt (index_of word) rows)) }
{
    word.wrapping_sub(MATCH << 29) < rows.min(1 << 29) as u64
}

/// The word, if it names one of so many rows or leads into the next level. Most words of a table
/// are matches, so those are told first.
fn sound_word(rows: usize, next: Level, word: u64, at: usize) -> Result<u64, ImageFault>
    requires { next.from + next.len < 2 ^ 64 }
    ensures { result ≡ checked (is_sound_word rows next word) Unsound at word }
{
    if is_match_of(rows, word) {
        return Ok(word);
    }
    checked(
        word,
        is_sound_word(rows, next, word),
        ImageKind::Unsound,
        at,
    )
}

/// Reads the words of a list from one on, in their places. The list stands from a place on, and all
/// of it is there; each word names one of so many rows, or leads into the next level.
fn read_whole(
    words: &mut [u64],
    start: usize,
    rows: usize,
    next: Level,
    bytes: &[u8],
    from: usize,
) -> Result<(), ImageFault>
    requires next { next.from + next.len < 2 ^ 64 }
    requires start { start ≤ length words.old }
    requires inside { from + 8 * length words.old ≤ length bytes.now }
    ensures words { OnOk result (numbers_after Unsound 8 (λ _. is_sound_word rows next) bytes.now
        from (length words.old - start) (take start words.old) ≡ Ok words.new) }
    ensures fault { IfErr result (λ fault. numbers_after Unsound 8 (λ _. is_sound_word rows next)
        bytes.now from (length words.old - start) (take start words.old) ≡ Err fault) }
    ensures len { OnOk result (length words.new ≡ length words.old) }
{
    let (_before, list) = bytes.split_at(from);
    for i in start..words.len() {
        let word = network_u64_at(list, LONG * i);
        let word = sound_word(rows, next, word, from + LONG * i)?;
        words[i] = word;
    }
    Ok(())
}

/// Reads so many words of a level after those before them. The list of all words stands from a
/// place on; each word names one of so many rows, or leads into the next level.
fn read_portion(
    words: &mut Vec<u64>,
    rows: usize,
    next: Level,
    bytes: &[u8],
    from: usize,
    count: usize,
) -> Result<(), LoadFault>
    requires next { next.from + next.len < 2 ^ 64 }
    requires inside { from + 8 * length words.old.items ≤ length bytes.now }
    requires few { count < 2 ^ 32 }
    ensures words { OnOk result
        (numbers_after Unsound 8 (λ _. is_sound_word rows next) bytes.now from count words.old.items
        ≡ Ok words.new.items) }
    ensures fault { IfErr result (IsFaultOf
        (numbers_after Unsound 8 (λ _. is_sound_word rows next) bytes.now from count
        words.old.items)) }
    ensures inside { OnOk result (from + 8 * length words.new.items ≤ length bytes.now) }
    ensures len { OnOk result (length words.new.items ≡ length words.old.items + count) }
{
    let start = words.len();
    let at = from + LONG * start;
    let whole = count.min((bytes.len() - at) / LONG);
    push_copies(words, whole, 0)?;
    read_whole(words, start, rows, next, bytes, from)?;
    let end = at + LONG * whole;
    checked((), whole == count, ImageKind::Length, end)?;
    Ok(())
}

/// Reads the words of a level, so many, after those of the levels before it. The list of all words
/// stands from a place on; each word names one of so many rows, or leads into the next level.
fn read_level(
    words: &mut Vec<u64>,
    rows: usize,
    next: Level,
    bytes: &[u8],
    from: usize,
    count: usize,
) -> Result<(), LoadFault>
    requires next { next.from + next.len < 2 ^ 64 }
    requires inside { from + 8 * length words.old.items ≤ length bytes.now }
    requires few { count < 2 ^ 32 }
    ensures words { OnOk result
        (numbers_after Unsound 8 (λ _. is_sound_word rows next) bytes.now from count words.old.items
        ≡ Ok words.new.items) }
    ensures fault { IfErr result (IsFaultOf
        (numbers_after Unsound 8 (λ _. is_sound_word rows next) bytes.now from count
        words.old.items)) }
    ensures inside { OnOk result (from + 8 * length words.new.items ≤ length bytes.now) }
    ensures len { OnOk result (length words.new.items ≡ length words.old.items + count) }
{
    let mut left = count;
    for portion in 0..count / PORTION + 1 {
        let some = left.min(PORTION);
        read_portion(words, rows, next, bytes, from, some)?;
        left -= some;
    }
    Ok(())
}

/// Reads the words of the levels of a trie, of these lengths, after those of the tries before it.
fn read_levels(
    words: &mut Vec<u64>,
    rows: usize,
    lens: &[u32],
    bytes: &[u8],
    from: usize,
) -> Result<(), LoadFault>
    requires room { length words.old.items + sum lens.now ≤ max_words }
    requires inside { from + 8 * length words.old.items ≤ length bytes.now }
    ensures words { OnOk result
        (words_of_levels rows bytes.now from (levels_from (length words.old.items) lens.now)
        words.old.items ≡ Ok words.new.items) }
    ensures fault { IfErr result (IsFaultOf
        (words_of_levels rows bytes.now from (levels_from (length words.old.items) lens.now)
        words.old.items)) }
    ensures inside { OnOk result (from + 8 * length words.new.items ≤ length bytes.now) }
    ensures len { OnOk result (length words.new.items ≡ length words.old.items + sum lens.now) }
{
    for (depth, len) in lens.iter().enumerate() {
        let end = words.len() + *len as usize;
        let next = Level::first(end, &lens[depth + 1..]);
        read_level(words, rows, next, bytes, from, *len as usize)?;
    }
    Ok(())
}

/// Reads the words of all levels of the tries. Each word names one of so many rows, or leads into
/// the next level of its trie.
pub(crate) fn read_words(
    alloc: Global,
    tries: &Tries,
    key_len: u32,
    rows: usize,
    bytes: &[u8],
) -> Result<Vec<u64>, LoadFault>
    requires key { key_len ≤ max_key_len }
    requires levels { length tries.now.level_lens.items
        ≡ sum (map (depth_of key_len) tries.now.kept.items) }
    requires words { tries.now.words ≡ sum tries.now.level_lens.items }
    requires room { tries.now.words ≤ max_words }
    requires inside { tries.now.end ≤ length bytes.now }
    ensures words { IfOk result (λ words. words_of_tries rows bytes.now tries.now.end
        (levels_of_tries key_len tries.now.kept.items tries.now.level_lens.items) []
        ≡ Ok words.items) }
    ensures fault { IfErr result (IsFaultOf (words_of_tries rows bytes.now tries.now.end
        (levels_of_tries key_len tries.now.kept.items tries.now.level_lens.items) [])) }
    ensures inside { IfOk result
        (λ words. tries.now.end + 8 * length words.items ≤ length bytes.now) }
    ensures len { IfOk result (λ words. length words.items ≡ tries.now.words) }
{
    // A header may claim more words than there are bytes: no memory is taken for those.
    let room = tries.words.min((bytes.len() - tries.end) / LONG);
    let mut words = Vec::with_capacity(alloc, room)?;
    let groups = tries.kept.as_slice();
    let lens = tries.level_lens.as_slice();
    let mut first = 0;
    for kept in groups {
        let end = first + depth_of(key_len, *kept);
        read_levels(&mut words, rows, &lens[first..end], bytes, tries.end)?;
        first = end;
    }
    Ok(words)
}
