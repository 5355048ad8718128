//! The first row in which each rule is the winner of each category.

ghost use Rattle.std.specs.Prelude.{◌≡◌, ◌≤◌, ◌<◌, ◌^◌, length, replicate, All, IfOk};
ghost use Rattle.table_sizes.specs.Sizes.{max_rules, row_len};
ghost use Rattle.acl_audit.specs.Firsts.{AreFirsts, entry_noted, row_noted, no_firsts};

use std::alloc::{AllocError, Global};
use table_sizes::ROW_LEN;
use trie_merge::Levels;

/// Notes the number in the category for the rule that the entry names, if it names one.
fn note_entry(table: &mut [[u32; ROW_LEN]], entry: u32, category: usize, number: u32)
    requires entry { entry ≤ length table.old }
    requires category { category < row_len }
    ensures { table.new ≡ entry_noted table.old entry category number }
{
    let entry = entry as usize;
    if entry > 0 {
        table[entry - 1][category] = number;
    }
}

/// Notes the number of a row for each rule that it names in a category.
fn note_row(table: &mut [[u32; ROW_LEN]], row: &[u32; ROW_LEN], number: u32)
    requires { All (λ entry. entry ≤ length table.old) row.now }
    ensures { table.new ≡ row_noted table.old number 0 row.now }
{
    for category in 0..ROW_LEN {
        note_entry(table, row[category], category, number);
    }
}

/// No row yet for so many rules.
#[tactic(auto, unfolding(crate::specs::Firsts::no_firsts))]
fn no_rows(alloc: Global, count: usize) -> Result<Vec<[u32; ROW_LEN]>, AllocError>
    requires { count ≤ max_rules }
    ensures { IfOk result (λ table. table.items ≡ no_firsts count) }
{
    let mut table = Vec::new(alloc);
    table.resize(count, [0; ROW_LEN])?;
    Ok(table)
}

/// The number, counted from 1 on, of the first row that names each of so many rules in each
/// category, or 0.
pub(crate) fn first_rows(
    alloc: Global,
    count: usize,
    levels: &Levels,
) -> Result<Vec<[u32; ROW_LEN]>, AllocError>
    requires count { count ≤ max_rules }
    requires rows { All (All (λ entry. entry ≤ count)) levels.now.rows }
    requires whole { All (λ row. length row ≡ row_len) levels.now.rows }
    requires few { length levels.now.rows < 2 ^ 32 }
    ensures { IfOk result (λ table. AreFirsts levels.now.rows count table.items) }
{
    let mut table = no_rows(alloc, count)?;
    // From the last row on, so that the first one stands in the end.
    for passed in 0..levels.rows() {
        let row = levels.rows() - 1 - passed;
        note_row(&mut table, levels.row(row), row as u32 + 1);
    }
    Ok(table)
}
