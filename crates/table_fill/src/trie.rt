//! The words of a trie, level by level.

ghost use Rattle.std.specs.Prelude.{◌≡◌, ◌+◌, ◌*◌, ◌<◌, ◌≤◌, ◌++◌, [], length, drop};
ghost use Rattle.std.specs.Prelude.{slice_index_or, OnOk, IfOk, All};
ghost use Rattle.std.specs.List.{flat_map};
ghost use Rattle.group_states.specs.Levels.{LevelsView};
ghost use Rattle.flat_table.specs.Word.{indexes};
ghost use Rattle.table_sizes.specs.Sizes.{max_words};
ghost use Rattle.table_fill.specs.Filled.{root_at, node_words, level_len, words_into, targets_of};
ghost use Rattle.table_fill.specs.Filled.{words_of_levels, nodes_len, matches_of};
ghost use Rattle.table_fill.specs.Tries.{HasNodes, HasTargets};

use crate::node::{match_of, node_word, push_node};
use std::alloc::{AllocError, Global};
use table_sizes::{ROW_LEN, node_len};
use trie_merge::Levels;

/// How many words the nodes of a trie have.
pub(crate) fn nodes_len(trie: &Levels) -> usize
    requires nodes { HasNodes trie.now }
    requires size { trie.now.words ≤ max_words }
    ensures value { result ≡ nodes_len trie.now }
    ensures bound { result ≤ max_words }
{
    trie.words() as usize - ROW_LEN * trie.rows()
}

/// The word that a walk begins with through a trie whose nodes begin at the place.
pub(crate) fn root_at(place: usize, trie: &Levels) -> u64
    requires nodes { HasNodes trie.now }
    requires place { place < indexes }
    ensures { result ≡ root_at place trie.now }
{
    node_word(place, trie.runs(0, 0))
}

/// How many words the nodes of a level have.
pub(crate) fn level_len(trie: &Levels, depth: usize) -> usize
    requires depth { depth < length trie.now.levels }
    requires size { level_len (slice_index_or trie.now.levels depth []) ≤ max_words }
    ensures { result ≡ level_len (slice_index_or trie.now.levels depth []) }
{
    let mut words = 0;
    for state in 0..trie.states(depth) {
        words += node_len(trie.runs(depth, state).len());
    }
    words
}

/// The words that lead to the nodes of a level, which lie one after the other from a place on.
fn words_into(
    alloc: Global,
    trie: &Levels,
    depth: usize,
    place: usize,
) -> Result<Vec<u64>, AllocError>
    requires depth { depth < length trie.now.levels }
    requires size { place + level_len (slice_index_or trie.now.levels depth []) ≤ max_words }
    ensures { IfOk result (λ words. words.items
        ≡ words_into place (slice_index_or trie.now.levels depth [])) }
{
    let mut words = Vec::with_capacity(alloc, trie.states(depth))?;
    let mut place = place;
    for state in 0..trie.states(depth) {
        let runs = trie.runs(depth, state);
        words.push(node_word(place, runs))?;
        place += node_len(runs.len());
    }
    Ok(words)
}

/// The words that match the rows of a trie, which are numbered from `row` on.
fn matches_of(alloc: Global, row: usize, trie: &Levels) -> Result<Vec<u64>, AllocError>
    requires { row + length trie.now.rows ≤ indexes }
    ensures { IfOk result (λ words. words.items ≡ matches_of row trie.now) }
{
    let mut words = Vec::with_capacity(alloc, trie.rows())?;
    for number in 0..trie.rows() {
        words.push(match_of(row + number))?;
    }
    Ok(words)
}

/// The words for what the states before the depth lead to: the nodes there, which begin at the
/// place, and after the last level the rows, which are numbered from `row` on.
fn targets_of(
    alloc: Global,
    trie: &Levels,
    depth: usize,
    place: usize,
    row: usize,
) -> Result<Vec<u64>, AllocError>
    requires size { depth < length trie.now.levels →
        place + level_len (slice_index_or trie.now.levels depth []) ≤ max_words }
    requires depth { depth ≤ length trie.now.levels }
    requires rows { row + length trie.now.rows ≤ indexes }
    ensures { IfOk result (λ words. words.items
        ≡ targets_of place (matches_of row trie.now) (drop depth trie.now.levels)) }
{
    if depth < trie.depths() {
        words_into(alloc, trie, depth, place)
    } else {
        matches_of(alloc, row, trie)
    }
}

/// Puts the words of the nodes of a level after the others.
fn push_level(
    words: &mut Vec<u64>,
    targets: &[u64],
    trie: &Levels,
    depth: usize,
) -> Result<(), AllocError>
    requires depth { depth < length trie.now.levels }
    requires targets { All (HasTargets (length targets.now))
        (slice_index_or trie.now.levels depth []) }
    ensures { OnOk result (words.new.items ≡ words.old.items
        ++ flat_map (node_words targets.now) (slice_index_or trie.now.levels depth [])) }
{
    for state in 0..trie.states(depth) {
        push_node(words, targets, trie.runs(depth, state))?;
    }
    Ok(())
}

/// Puts the words of a trie after the others. Its rows are numbered from `row` on.
///
/// It takes memory for a word for each state of the trie's greatest level.
pub(crate) fn push_trie(
    alloc: Global,
    words: &mut Vec<u64>,
    trie: &Levels,
    row: usize,
) -> Result<(), AllocError>
    requires nodes { HasNodes trie.now }
    requires size { length words.old.items + nodes_len trie.now ≤ max_words }
    requires rows { row + length trie.now.rows ≤ indexes }
    ensures { OnOk result (words.new.items ≡ words.old.items
        ++ words_of_levels (length words.old.items) (matches_of row trie.now) trie.now.levels) }
{
    for depth in 0..trie.depths() {
        let after = words.len() + level_len(trie, depth);
        let targets = targets_of(alloc, trie, depth + 1, after, row)?;
        push_level(words, &targets, trie, depth)?;
    }
    Ok(())
}
