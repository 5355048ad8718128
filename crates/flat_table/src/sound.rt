//! Which parts make a table that every key can be walked through.
//!
//! The levels of a trie lie one after the other, and each word of a level leads to a node that
//! lies whole in the next one, or names a row. So a walk goes one level down with each byte, and
//! can't leave the table. No order of a node's boundaries is asked, since each of them gives some
//! word of the node.

ghost use Rattle.std.specs.Prelude.{◌≡◌, ◌==◌, ◌+◌, ◌*◌, ◌^◌, ◌<◌, ◌≤◌, map, length, sum, nat_le};
ghost use Rattle.std.specs.Prelude.{not, true, IsTrue, IfSome};
ghost use Rattle.std.specs.List.{list_all, position_from};
ghost use Rattle.std.specs.Result.{result_err};
ghost use Rattle.table_sizes.specs.Groups.{max_key_len};
ghost use Rattle.flat_table.specs.Groups.{is_key_len, is_kept_word, depth_of};
ghost use Rattle.flat_table.specs.Table.{view_of, levels_from};
ghost use Rattle.table_sizes.specs.Sizes.{max_tries, max_words, row_len};
ghost use Rattle.flat_table.specs.Sound.{begins_with_zeros};
ghost use Rattle.flat_table.specs.Sound.{is_shaped, is_sound_word, unsound_word};
ghost use Rattle.flat_table.specs.Sound.{first_unsound_root, first_unsound_word, sound_fault};

use crate::groups::{depth_of, is_kept_word, is_key_len};
use crate::level::Level;
use crate::table_parts::Parts;
use crate::word::{index_of, is_match, is_unbounded};
use table_sizes::{MAX_TRIES, MAX_WORDS, ROW_LEN};
use thiserror::Error;

/// Why parts make no table.
#[derive(Clone, Copy, Debug, PartialEq, Eq, Error)]
pub enum SoundFault {
    /// At least one of these holds: there are more or fewer kept words than roots; there are more
    /// than 8 roots; the key length isn't 1 and a multiple of 4, or is above 505; a kept word is 0
    /// or has the bit of a group that a key hasn't; there aren't as many level lengths as kept
    /// places, or as many words as these lengths say; row 0 is missing or isn't all 0; the words,
    /// with sixteen for each row, are more than 67,108,864.
    #[error("the parts don't fit together")]
    Shape,
    /// The parts fit together, and this is the first root that isn't lawful or doesn't lead to a
    /// node that lies whole in the first level of its trie.
    #[error("root {0} doesn't lead into the first level of its trie")]
    Root(u32),
    /// The parts fit together, the roots are sound, and this is the place of the first word that
    /// isn't lawful, or that names no row of the table and leads to no node that lies whole in the
    /// next level of its trie.
    #[error("word {0} leads to no row and to no node of the next level")]
    Word(u32),
}

/// Whether each trie keeps some group, and none that a key hasn't.
fn are_kept_words(key_len: u32, kept: &[u128]) -> bool
    requires { IsTrue (is_key_len key_len) }
    ensures { result ≡ list_all (is_kept_word key_len) kept.now }
{
    kept.iter().all(|kept| is_kept_word(key_len, *kept))
}

/// How many levels the tries have together.
fn sum_of_depths(key_len: u32, kept: &[u128]) -> usize
    requires key { IsTrue (is_key_len key_len) }
    requires few { length kept.now ≤ max_tries }
    ensures value { result ≡ sum (map (depth_of key_len) kept.now) }
    ensures bound { result ≤ max_tries * max_key_len }
{
    let mut depths = 0;
    for kept in kept {
        depths += depth_of(key_len, *kept);
    }
    depths
}

/// How many words the levels have together.
fn sum_of(lens: &[u32]) -> usize
    requires { length lens.now ≤ max_tries * max_key_len }
    ensures value { result ≡ sum lens.now }
{
    let mut words = 0;
    for len in lens {
        words += *len as usize;
    }
    words
}

/// Whether the row has a 0 for each category.
fn is_zero_row(row: &[u64; ROW_LEN]) -> bool
    ensures { result ≡ list_all (λ word. word == 0) row.now }
{
    row.iter().all(|word| *word == 0)
}

/// Whether row 0 is there, and has a 0 for each category.
fn begins_with_zeros(rows: &[[u64; ROW_LEN]]) -> bool
    ensures { result ≡ begins_with_zeros rows.now }
{
    match rows.first() {
        Some(row) => is_zero_row(row),
        None => false,
    }
}

/// Whether a match names one of so many rows, and any other word leads into the next level.
///
/// It takes no memory and refuses nothing.
pub fn is_sound_word(rows: usize, next: Level, word: u64) -> bool
    requires { next.from + next.len < 2 ^ 64 }
    ensures { result ≡ is_sound_word rows next word }
{
    if is_match(word) {
        is_unbounded(word) && index_of(word) < rows
    } else {
        next.holds_node_of(word)
    }
}

/// The same after a word that is known to be sound: the words of a run of bytes are the same, and
/// are looked at once.
fn is_sound_after(sound: Option<u64>, rows: usize, next: Level, word: u64) -> bool
    requires next { next.from + next.len < 2 ^ 64 }
    requires sound { IfSome sound (λ before. is_sound_word rows next before ≡ true) }
    ensures { result ≡ is_sound_word rows next word }
{
    sound == Some(word) || is_sound_word(rows, next, word)
}

/// The place of the first unsound word of a level, whose words stand from a place on.
fn unsound_in_level(rows: usize, next: Level, from: usize, words: &[u64]) -> Option<usize>
    requires next { next.from + next.len < 2 ^ 64 }
    requires from { from + length words.now < 2 ^ 64 }
    ensures place { result
        ≡ position_from (λ word. not (is_sound_word rows next word)) from words.now }
    ensures bound { IfSome result (λ place. place < from + length words.now) }
{
    let mut sound = None;
    for (i, word) in words.iter().enumerate() {
        if !is_sound_after(sound, rows, next, *word) {
            return Some(from + i);
        }
        sound = Some(*word);
    }
    None
}

/// The place of the first unsound word in the levels of one trie, of these lengths, from a place
/// on.
fn unsound_word(rows: usize, words: &[u64], from: usize, lens: &[u32]) -> Option<usize>
    requires words { from + sum lens.now ≤ length words.now }
    requires few { length words.now ≤ max_words }
    ensures place { result ≡ unsound_word rows words.now (levels_from from lens.now) }
    ensures bound { IfSome result (λ place. place < length words.now) }
{
    let mut from = from;
    for (depth, len) in lens.iter().enumerate() {
        let end = from + *len as usize;
        let next = Level::first(end, &lens[depth + 1..]);
        let place = unsound_in_level(rows, next, from, &words[from..end]);
        if place.is_some() {
            return place;
        }
        from = end;
    }
    None
}

/// The first trie whose root doesn't lead into its first level.
fn unsound_root(parts: &Parts) -> Option<usize>
    requires { IsTrue (is_shaped (view_of parts.now)) }
    ensures place { result ≡ first_unsound_root (view_of parts.now) }
    ensures bound { IfSome result (λ trie. trie < max_tries) }
{
    let mut first = 0;
    let mut from = 0;
    for (trie, root) in parts.roots.iter().enumerate() {
        let end = first + depth_of(parts.key_len, parts.kept[trie]);
        let lens = &parts.level_lens[first..end];
        if !Level::first(from, lens).holds_node_of(*root) {
            return Some(trie);
        }
        first = end;
        from += sum_of(lens);
    }
    None
}

/// The place of the first unsound word.
fn first_unsound_word(parts: &Parts) -> Option<usize>
    requires { IsTrue (is_shaped (view_of parts.now)) }
    ensures place { result ≡ first_unsound_word (view_of parts.now) }
    ensures bound { IfSome result (λ place. place < max_words) }
{
    let mut first = 0;
    let mut from = 0;
    for kept in &parts.kept {
        let end = first + depth_of(parts.key_len, *kept);
        let lens = &parts.level_lens[first..end];
        let place = unsound_word(parts.rows.len(), &parts.words, from, lens);
        if place.is_some() {
            return place;
        }
        first = end;
        from += sum_of(lens);
    }
    None
}

/// Whether the parts fit together, whatever their words say.
fn is_shaped(parts: &Parts) -> bool
    ensures { result ≡ is_shaped (view_of parts.now) }
{
    parts.kept.len() == parts.roots.len()
        && parts.roots.len() <= MAX_TRIES
        && is_key_len(parts.key_len)
        && are_kept_words(parts.key_len, &parts.kept)
        && parts.level_lens.len() == sum_of_depths(parts.key_len, &parts.kept)
        && parts.words.len() == sum_of(&parts.level_lens)
        && begins_with_zeros(&parts.rows)
        && is_small(parts.words.len(), parts.rows.len())
}

/// Whether so many words and rows are few enough for a table.
fn is_small(words: usize, rows: usize) -> bool
    ensures { result ≡ nat_le (words + row_len * rows) max_words }
{
    rows <= MAX_WORDS / ROW_LEN && words <= MAX_WORDS - ROW_LEN * rows
}

/// What is wrong with the parts first, if anything is: their shape, then the roots, then the words,
/// in order.
///
/// It takes no memory, and looks at each word once.
#[tactic(auto, unfolding(crate::specs::Sound::sound_fault))]
pub fn check_sound(parts: &Parts) -> Result<(), SoundFault>
    ensures { result_err result ≡ sound_fault (view_of parts.now) }
{
    if !is_shaped(parts) {
        return Err(SoundFault::Shape);
    }
    if let Some(trie) = unsound_root(parts) {
        return Err(SoundFault::Root(trie as u32));
    }
    if let Some(place) = first_unsound_word(parts) {
        return Err(SoundFault::Word(place as u32));
    }
    Ok(())
}
