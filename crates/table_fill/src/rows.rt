//! The rows of a table, and the word of a row for each rule that may win it.

ghost use Rattle.std.specs.Prelude.{◌≡◌, ◌+◌, ◌*◌, ◌<◌, ◌≤◌, ◌++◌, ◌∷◌, length, map, replicate};
ghost use Rattle.std.specs.Prelude.{OnOk, IfOk, All, sum_by};
ghost use Rattle.std.specs.List.{flat_map, range_with_len};
ghost use Rattle.rule_set.specs.Rule.{RuleView};
ghost use Rattle.group_states.specs.Levels.{LevelsView};
ghost use Rattle.table_sizes.specs.Sizes.{max_words, row_len};
ghost use Rattle.flat_table.specs.Walk.{userdatas};
ghost use Rattle.table_fill.specs.Filled.{rule_word};
ghost use Rattle.table_fill.specs.Tries.{HasWinners, HaveRoom, winner_in};

use rule_set::{MAX_CATEGORIES, RuleSet, ranks};
use std::alloc::{AllocError, Global};
use table_sizes::ROW_LEN;
use trie_merge::Levels;

// A row has a word for each category that a rule can take part in.
const _: () = prove!(ROW_LEN == MAX_CATEGORIES);

/// The word of a row for a rule that wins: its rank in the high half, its userdata in the low half.
fn rule_word(rank: u32, userdata: u32) -> u64
    ensures value { result ≡ rank * userdatas + userdata }
    ensures userdata { userdata < userdatas }
{
    (u64::from(rank) << 32) + u64::from(userdata)
}

/// The word of a row for each rule of the set.
pub(crate) fn rule_words(alloc: Global, rules: &RuleSet) -> Result<Vec<u64>, AllocError>
    ensures words { IfOk result (λ words. words.items
        ≡ map (rule_word rules.now.rules) (range_with_len 0 (length rules.now.rules))) }
    ensures userdata { OnOk result
        (All (λ (rule : RuleView). rule.tag.userdata < userdatas) rules.now.rules) }
{
    let ranks = ranks(alloc, rules)?;
    let mut words = Vec::with_capacity(alloc, rules.len())?;
    for place in 0..rules.len() {
        let tag = rules.at(place).tag();
        words.push(rule_word(ranks[place], tag.userdata))?;
    }
    Ok(words)
}

/// The word for a category of a row, where the words for the rules are given, and the winner's
/// number plus 1, or 0 for none.
fn winner_in(words: &[u64], winner: u32) -> u64
    requires { winner ≤ length words.now }
    ensures { result ≡ winner_in words.now winner }
{
    if winner == 0 {
        0
    } else {
        words[winner as usize - 1]
    }
}

/// The row of these winners.
fn row_of(words: &[u64], winners: &[u32; ROW_LEN]) -> [u64; ROW_LEN]
    requires { All (λ winner. winner ≤ length words.now) winners.now }
    ensures { result ≡ map (winner_in words.now) winners.now }
{
    let mut row = [0; ROW_LEN];
    for category in 0..ROW_LEN {
        row[category] = winner_in(words, winners[category]);
    }
    row
}

/// Puts the rows of a trie after the others.
fn push_rows(rows: &mut Vec<[u64; ROW_LEN]>, words: &[u64], trie: &Levels) -> Result<(), AllocError>
    requires { HasWinners (length words.now) trie.now }
    ensures { OnOk result
        (rows.new.items ≡ rows.old.items ++ map (map (winner_in words.now)) trie.now.rows) }
{
    for number in 0..trie.rows() {
        rows.push(row_of(words, trie.row(number)))?;
    }
    Ok(())
}

/// How many rows the tries have.
fn count_rows(tries: &[Levels]) -> usize
    requires { HaveRoom tries.now }
    ensures value { result ≡ sum_by (λ (trie : LevelsView). length trie.rows) tries.now }
    ensures bound { result ≤ max_words }
{
    let mut rows = 0;
    for trie in tries {
        rows += trie.rows();
    }
    rows
}

/// The rows of all tries, in order, and in front of them the row of no rule. The words for the
/// rules are given.
pub(crate) fn rows_of(
    alloc: Global,
    words: &[u64],
    tries: &[Levels],
) -> Result<Vec<[u64; ROW_LEN]>, AllocError>
    requires room { HaveRoom tries.now }
    requires winners { All (HasWinners (length words.now)) tries.now }
    ensures { IfOk result (λ rows. rows.items ≡ replicate row_len 0 ∷ flat_map
        (λ (trie : LevelsView). map (map (winner_in words.now)) trie.rows) tries.now) }
{
    let mut rows = Vec::with_capacity(alloc, 1 + count_rows(tries))?;
    rows.push([0; ROW_LEN])?;
    for trie in tries {
        push_rows(&mut rows, words, trie)?;
    }
    Ok(rows)
}
