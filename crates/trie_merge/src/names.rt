//! Ranks of rules, and the rows that they stand for.

ghost use Rattle.std.specs.Prelude.{◌≡◌, ◌<◌, ◌≤◌, length, map, All, IfOk, slice_index_or};
ghost use Rattle.trie_merge.specs.Names.{ranked_of, row_named, IsNames};

use rule_set::{RuleSet, ranks};
use state_parts::{Ranked, Rows};
use std::alloc::{AllocError, Global};
use table_sizes::ROW_LEN;

/// What decides about each rule of the set: its categories and its rank.
pub(crate) fn rank_rules(alloc: Global, rules: &RuleSet) -> Result<Vec<Ranked>, AllocError>
    ensures { IfOk result (λ ranked. ranked.items ≡ ranked_of rules.now) }
{
    let ranks = ranks(alloc, rules)?;
    let mut ranked = Vec::with_capacity(alloc, rules.len())?;
    for number in 0..rules.len() {
        let mask = rules.at(number).tag().category_mask;
        ranked.push(Ranked {
            mask,
            rank: ranks[number],
        })?;
    }
    Ok(ranked)
}

/// The number of the rule of each rank, which is its place in the set plus 1, and 0 for rank 0.
pub(crate) fn names_of(
    alloc: Global,
    rules: &RuleSet,
    ranked: &[Ranked],
) -> Result<Vec<u32>, AllocError>
    requires { ranked.now ≡ ranked_of rules.now }
    ensures { IfOk result (λ names. IsNames rules.now names.items) }
{
    rule_set::laws::ranks_order_rules();
    let _rules = rules.all();
    let mut names = Vec::from_elem(alloc, 0, rules.len() + 1)?;
    for number in 0..rules.len() {
        names[rank_at(ranked, number) as usize] = number as u32 + 1;
    }
    Ok(names)
}

/// The rank of the rule at that place of the set.
fn rank_at(ranked: &[Ranked], number: usize) -> u32
    requires { number < length ranked.now }
    ensures { result ≡ (slice_index_or ranked.now number (record { mask = 0; rank = 0 })).rank }
{
    ranked[number].rank
}

/// The names of ranks.
fn name_ranks(ranks: &[u32; ROW_LEN], names: &[u32]) -> [u32; ROW_LEN]
    ensures { result ≡ map (λ rank. slice_index_or names.now rank 0) ranks.now }
{
    let mut row = [0; ROW_LEN];
    for category in 0..ROW_LEN {
        row[category] = name_of(names, ranks[category]);
    }
    row
}

/// The row of a number, with the numbers of the rules where their ranks stood.
#[tactic(auto, unfolding(crate::specs::Names::row_named))]
fn name_row(rows: &Rows, names: &[u32], number: u32) -> [u32; ROW_LEN]
    requires some { 0 < number }
    requires there { number ≤ length rows.now.rows }
    ensures { result ≡ row_named rows.now names.now number }
{
    name_ranks(rows.row(number as usize - 1), names)
}

/// The name of a rank.
fn name_of(names: &[u32], rank: u32) -> u32
    ensures { result ≡ slice_index_or names.now rank 0 }
{
    match names.get(rank as usize) {
        Some(name) => *name,
        None => 0,
    }
}

/// The rows of the numbers found, with the numbers of the rules where their ranks stood.
pub(crate) fn name_rows(
    alloc: Global,
    rows: &Rows,
    names: &[u32],
    found: &[u32],
) -> Result<Vec<[u32; ROW_LEN]>, AllocError>
    requires { All (λ number. (0 < number) × (number ≤ length rows.now.rows)) found.now }
    ensures { IfOk result (λ named. named.items ≡ map (row_named rows.now names.now) found.now) }
{
    let mut named = Vec::with_capacity(alloc, found.len())?;
    for number in found {
        named.push(name_row(rows, names, *number))?;
    }
    Ok(named)
}
