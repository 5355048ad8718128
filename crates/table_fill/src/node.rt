//! The words that lead to nodes, and the words that nodes have.

ghost use Rattle.std.specs.Prelude.{◌≡◌, ◌*◌, ◌<◌, ◌≤◌, ◌^◌, ◌++◌, map, length, slice_index, OnOk};
ghost use Rattle.std.specs.Prelude.{All, replicate};
ghost use Rattle.flat_table.specs.Word.{indexes, kinds, below_boundaries};
ghost use Rattle.table_sizes.specs.Sizes.{few_runs};
ghost use Rattle.table_fill.specs.Filled.{word_of, match_of, boundaries, boundary_count, as_number};
ghost use Rattle.table_fill.specs.Filled.{node_word, node_words, succ_word};
ghost use Rattle.table_fill.specs.Tries.{HoldBytes, HasTarget, HasTargets};

use flat_table::{BOUNDARY_BITS, FULL, INDEX_BITS, MATCH, QUAD, SINGLE};
use std::alloc::AllocError;
use table_sizes::{FEW_RUNS, node_len};
use trie_merge::{Run, Succ};

/// The last byte.
const LAST_BYTE: u8 = 255;

/// The word of these boundaries, this kind and this index.
fn word_of(boundaries: u64, kind: u64, index: usize) -> u64
    requires boundaries { boundaries < below_boundaries }
    requires kind { kind < kinds }
    requires index { index < indexes }
    ensures { result ≡ word_of boundaries kind index }
{
    (boundaries << BOUNDARY_BITS) + (kind << INDEX_BITS) + index as u64
}

/// The word that ends a walk with the row.
pub(crate) fn match_of(row: usize) -> u64
    requires { row < indexes }
    ensures { result ≡ match_of row }
{
    word_of(0, MATCH, row)
}

/// Where run `n` ends if another run follows it, and 255 otherwise.
fn boundary(runs: &[Run], n: usize) -> u8
    requires { n < boundary_count }
    ensures { result ≡ slice_index (boundaries runs.now) n }
{
    if n + 1 < runs.len() {
        runs[n].last
    } else {
        LAST_BYTE
    }
}

/// The four boundaries of a quad-range node of these runs, the first in the lowest bits.
fn boundaries(runs: &[Run]) -> u64
    ensures value { result ≡ as_number (boundaries runs.now) }
    ensures bound { result < below_boundaries }
{
    u64::from(boundary(runs, 0))
        + (u64::from(boundary(runs, 1)) << 8)
        + (u64::from(boundary(runs, 2)) << 16)
        + (u64::from(boundary(runs, 3)) << 24)
}

/// The word that leads to the node of a state with these runs, whose first word is at the place.
#[tactic(auto, unfolding(crate::specs::Filled::node_word))]
pub(crate) fn node_word(place: usize, runs: &[Run]) -> u64
    requires { place < indexes }
    ensures { result ≡ node_word place runs.now }
{
    if runs.len() == 1 {
        word_of(0, SINGLE, place)
    } else if runs.len() <= FEW_RUNS {
        word_of(boundaries(runs), QUAD, place)
    } else {
        word_of(0, FULL, place)
    }
}

/// The word for a successor, where the words for states or rows are given.
fn succ_word(targets: &[u64], to: Succ) -> u64
    requires { HasTarget (length targets.now) to }
    ensures { result ≡ succ_word targets.now to }
{
    match to {
        Succ::Dead => match_of(0),
        Succ::State(number) => targets[number as usize],
        Succ::Row(number) => targets[number as usize],
    }
}

/// Puts so many copies of a word after the others.
fn push_copies(words: &mut Vec<u64>, count: usize, word: u64) -> Result<(), AllocError>
    requires { count ≤ 256 }
    ensures { OnOk result (words.new.items ≡ words.old.items ++ replicate count word) }
{
    words.resize(words.len() + count, word)
}

/// Puts the words of a node of a few runs after the others: one for each run, and then matches of
/// row 0 in those that are unused.
fn push_few(words: &mut Vec<u64>, targets: &[u64], runs: &[Run]) -> Result<(), AllocError>
    requires runs { HasTargets (length targets.now) runs.now }
    requires few { length runs.now ≤ few_runs }
    ensures { OnOk result
        (words.new.items ≡ words.old.items ++ node_words targets.now runs.now) }
{
    for run in runs {
        words.push(succ_word(targets, run.to))?;
    }
    let unused = node_len(runs.len()) - runs.len();
    push_copies(words, unused, match_of(0))
}

/// Puts the words of a node of many runs after the others: one for each byte.
fn push_many(words: &mut Vec<u64>, targets: &[u64], runs: &[Run]) -> Result<(), AllocError>
    requires runs { HasTargets (length targets.now) runs.now }
    requires many { few_runs < length runs.now }
    ensures { OnOk result
        (words.new.items ≡ words.old.items ++ node_words targets.now runs.now) }
{
    let mut first = 0;
    for run in runs {
        let after = usize::from(run.last) + 1;
        push_copies(words, after - first, succ_word(targets, run.to))?;
        first = after;
    }
    Ok(())
}

/// Puts the words of the node of a state with these runs after the others.
pub(crate) fn push_node(
    words: &mut Vec<u64>,
    targets: &[u64],
    runs: &[Run],
) -> Result<(), AllocError>
    requires { HasTargets (length targets.now) runs.now }
    ensures { OnOk result
        (words.new.items ≡ words.old.items ++ node_words targets.now runs.now) }
{
    if runs.len() <= FEW_RUNS {
        push_few(words, targets, runs)
    } else {
        push_many(words, targets, runs)
    }
}
