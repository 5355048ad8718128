//! The rows of a table, read field by field.

ghost use Rattle.std.specs.Prelude.{◌≡◌, ◌+◌, ◌*◌, ◌-◌, ◌≤◌, ◌<◌, ◌^◌, ◌||◌, ◌&&◌, [], ◌∷◌, drop, length, IfOk, IfErr, Ok, Err};
ghost use Rattle.table_sizes.specs.Sizes.{row_len};
ghost use Rattle.table_image.specs.declared.load_fault.ImageKind.TheVariants.{RowForm};
ghost use Rattle.table_image.specs.Spelling.{is_row_word};
ghost use Rattle.table_image.specs.ImageReading.{numbers, rows_after, row_bytes, no_rule};
ghost use Rattle.table_image.specs.Loading.{IsFaultOf};

use crate::field::{LONG, checked, long};
use crate::list::push;
use crate::load_fault::{ImageFault, ImageKind, LoadFault};
use std::alloc::Global;
use table_sizes::ROW_LEN;

/// How many bytes a row has.
pub(crate) const ROW_BYTES: usize = LONG * ROW_LEN;

/// Whether the word of a row is 0, or has one of so many ranks in its high half.
fn is_row_word(rules: u32, word: u64) -> bool
    ensures { result ≡ is_row_word rules word }
{
    word == 0 || 1 <= word >> 32 && word >> 32 <= u64::from(rules)
}

/// The row of no rule.
#[tactic(auto, unfolding(crate::specs::ImageReading::no_rule))]
fn no_rule() -> [u64; ROW_LEN]
    ensures { result ≡ no_rule }
{
    [0; ROW_LEN]
}

/// The row at the place, whose words name some of so many rules.
fn read_row(rules: u32, bytes: &[u8], from: usize) -> Result<[u64; ROW_LEN], ImageFault>
    requires { from ≤ length bytes.now }
    ensures row { IfOk result
        (λ row. numbers RowForm 8 (λ _. is_row_word rules) bytes.now from row_len ≡ Ok row) }
    ensures fault { IfErr result (λ fault.
        numbers RowForm 8 (λ _. is_row_word rules) bytes.now from row_len ≡ Err fault) }
    ensures inside { IfOk result (λ _. from + row_bytes ≤ length bytes.now) }
{
    let mut row = no_rule();
    let mut at = from;
    for category in 0..ROW_LEN {
        let word = long(bytes, at)?;
        let word = checked(word, is_row_word(rules, word), ImageKind::RowForm, at)?;
        row[category] = word;
        at += LONG;
    }
    Ok(row)
}

/// Row 0, and so many rows that stand from a place on, whose words name some of so many rules.
pub(crate) fn read_rows(
    alloc: Global,
    rules: u32,
    bytes: &[u8],
    from: usize,
    count: usize,
) -> Result<Vec<[u64; ROW_LEN]>, LoadFault>
    requires inside { from ≤ length bytes.now }
    requires few { count < 2 ^ 32 }
    ensures first { IfOk result (λ rows. rows.items ≡ no_rule ∷ drop 1 rows.items) }
    ensures rows { IfOk result
        (λ rows. rows_after rules bytes.now from count [] ≡ Ok (drop 1 rows.items)) }
    ensures fault { IfErr result (IsFaultOf (rows_after rules bytes.now from count [])) }
    ensures count { IfOk result (λ rows. length rows.items ≡ count + 1) }
    ensures inside { IfOk result (λ _. from + row_bytes * count ≤ length bytes.now) }
{
    // A header may claim more rows than there are bytes: no memory is taken for those.
    let room = count.min((bytes.len() - from) / ROW_BYTES) + 1;
    let mut rows = Vec::with_capacity(alloc, room)?;
    push(&mut rows, no_rule())?;
    let mut at = from;
    for row in 0..count {
        let words = read_row(rules, bytes, at)?;
        push(&mut rows, words)?;
        at += ROW_BYTES;
    }
    Ok(rows)
}
