//! The rows of keys, joined of those that their walks reached.

ghost use Rattle.std.specs.Prelude.{◌≡◌, ℕ, ◌<◌, ◌≤◌, length, drop, slice_index, slice_index_or, []};
ghost use Rattle.table_sizes.specs.Sizes.{row_len};
ghost use Rattle.flat_table.specs.Word.{index_of};
ghost use Rattle.lane_walk.specs.Turn.{AreRowsOf, IsRowOf};

use flat_table::{Table, index_of};
use flow_core::{Scratch, join_rows};
use table_sizes::ROW_LEN;

/// The joined row of the rows that the first words name, one for each trie.
#[inline]
fn joined_of(table: &Table, noted: &[u64; ROW_LEN]) -> [u64; ROW_LEN]
    requires { (trie : ℕ) → trie < length table.now.roots →
        index_of (slice_index noted.now trie) < length table.now.rows }
    ensures { IsRowOf table.now noted.now (length table.now.roots) result }
{
    let mut row = [0; ROW_LEN];
    for trie in 0..table.tries() {
        join_rows(&mut row, table.row(index_of(noted[trie])));
    }
    row
}

/// A copy of the row.
#[inline]
fn copied(row: &[u64; ROW_LEN]) -> [u64; ROW_LEN]
    ensures same { result ≡ row.now }
    ensures len { length result ≡ row_len }
{
    *row
}

/// The rows of [`join_noted`] over a table of one trie, where there is nothing to join.
fn copy_noted(table: &Table, scratch: &mut Scratch, keys: usize)
    requires one { length table.now.roots ≡ 1 }
    requires keys { keys ≤ length scratch.old }
    requires there { (k : ℕ) → k < keys →
        index_of (slice_index (slice_index_or scratch.old k []) 0) < length table.now.rows }
    ensures rows { AreRowsOf table.now scratch.old keys scratch.new }
    ensures others { drop keys scratch.new ≡ drop keys scratch.old }
    ensures len { length scratch.new ≡ length scratch.old }
{
    for k in 0..keys {
        let row = copied(table.row(index_of(scratch.row(k)[0])));
        scratch.put(k, &row);
    }
}

/// Makes the rows of the first keys the joined ones of the rows that the words noted in them name.
pub(crate) fn join_noted(table: &Table, scratch: &mut Scratch, keys: usize)
    requires keys { keys ≤ length scratch.old }
    requires there { (k trie : ℕ) → k < keys → trie < length table.now.roots →
        index_of (slice_index (slice_index_or scratch.old k []) trie) < length table.now.rows }
    ensures rows { AreRowsOf table.now scratch.old keys scratch.new }
    ensures others { drop keys scratch.new ≡ drop keys scratch.old }
    ensures len { length scratch.new ≡ length scratch.old }
{
    if table.tries() == 1 {
        copy_noted(table, scratch, keys);
        return;
    }
    for k in 0..keys {
        let row = joined_of(table, scratch.row(k));
        scratch.put(k, &row);
    }
}
