//! Which categories of keys no rule wins.

ghost use Rattle.std.specs.Prelude.{◌≡◌, ◌≤◌, length, Some};
ghost use Rattle.rule_set.specs.Rule.{RuleSetView};
ghost use Rattle.table_sizes.specs.Sizes.{row_len};
ghost use Rattle.flat_table.specs.Batch.{LengthsFit};
ghost use Rattle.acl_c.specs.Marks.{mark_of, key_marks, batch_marks, Marks};

use crate::batch::ask;
use crate::codes::OK;
use flat_table::Table;
use scalar_walk::winners;
use table_sizes::ROW_LEN;

/// The number of the walk that walks each key for itself, as marking does.
const SCALAR: u32 = 0;

/// The mark of a category in which some rule wins, or none.
fn mark_of(won: bool) -> u8
    ensures { result ≡ mark_of won }
{
    if won { 0 } else { 1 }
}

/// Writes the marks of a key, of which there are at most sixteen.
fn mark_key(table: &Table, key: &[u8], marks: &mut [u8])
    requires key { length key.now ≡ table.now.key_len }
    requires few { length marks.old ≤ row_len }
    ensures { marks.new ≡ key_marks table.now (length marks.old) key.now }
{
    let mut won = [false; ROW_LEN];
    winners(table, key, &mut won);
    for category in 0..marks.len() {
        marks[category] = mark_of(won[category]);
    }
}

/// Writes the marks of the keys of a batch, so many of each.
fn mark_keys(table: &Table, keys: &[u8], count: usize, marks: &mut [u8])
    requires fits { LengthsFit table.now keys.now count (length marks.old) }
    requires few { count ≤ row_len }
    ensures { marks.new ≡ batch_marks table.now count keys.now }
{
    let key_len = table.key_len();
    for k in 0..keys.len() / key_len {
        let key = &keys[k * key_len..(k + 1) * key_len];
        mark_key(table, key, &mut marks[k * count..(k + 1) * count]);
    }
}

/// Marks the categories of the keys of a batch that no rule wins, or tells why not.
pub(crate) fn mark(table: &Table, keys: &[u8], categories: u32, marks: &mut [u8]) -> u32
    ensures { Marks (Some table.now) keys.now categories marks.old marks.new result }
{
    let asked = match ask(
        table.key_len(),
        0,
        keys.len(),
        categories,
        SCALAR,
        marks.len(),
    ) {
        Ok(asked) => asked,
        Err(code) => return code,
    };
    mark_keys(table, keys, asked.cats.count(), marks);
    OK
}
