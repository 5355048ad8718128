//! One table of an image.

ghost use Rattle.std.specs.Prelude.{◌≡◌, ◌+◌, ◌≤◌, length, IfOk, IfErr, Ok, None, IsTrue};
ghost use Rattle.flat_table.specs.Groups.{is_key_len};
ghost use Rattle.flat_table.specs.Sound.{sound_fault};
ghost use Rattle.flat_table.specs.Table.{view_of};
ghost use Rattle.table_image.specs.ImageReading.{table_read};
ghost use Rattle.table_image.specs.Loading.{IsFaultOf, table_of_read};

use crate::counts::Counts;
use crate::field::LONG;
use crate::load_fault::LoadFault;
use crate::rows::{ROW_BYTES, read_rows};
use crate::tries::Tries;
use crate::version::Version;
use crate::words::read_words;
use flat_table::{Parts, Table};
use std::alloc::Global;
use table_sizes::ROW_LEN;

/// A table that was read.
#[derive(Drop)]
pub(crate) struct TableRead {
    pub table: Table,
    /// The place of the field after it.
    pub end: usize,
}

/// The table at the place, of the family, whose keys have so many bytes.
pub(crate) fn read_table(
    alloc: Global,
    version: Version,
    family: u32,
    key_len: u32,
    bytes: &[u8],
    at: usize,
) -> Result<TableRead, LoadFault>
    requires key { IsTrue (is_key_len key_len) }
    requires inside { at ≤ length bytes.now }
    ensures table { IfOk result (λ read. table_read version family key_len bytes.now at
        ≡ Ok (table_of_read read)) }
    ensures fault { IfErr result (IsFaultOf (table_read version family key_len bytes.now at)) }
    ensures inside { IfOk result (λ read. read.end ≤ length bytes.now) }
{
    let counts = Counts::read(family, bytes, at)?;
    let rows_len = counts.rows as usize + 1;
    let taken = ROW_LEN * rows_len;
    let tries = Tries::read(alloc, version, key_len, taken, bytes, at + 16, counts.tries)?;
    let words = read_words(alloc, &tries, key_len, rows_len, bytes)?;
    let rows_at = tries.end + LONG * words.len();
    let rows = read_rows(alloc, counts.rules, bytes, rows_at, counts.rows as usize)?;
    let end = rows_at + ROW_BYTES * counts.rows as usize;
    let table = Table::from_sound(Parts {
        key_len,
        rules: counts.rules,
        kept: tries.kept,
        roots: tries.roots,
        level_lens: tries.level_lens,
        words,
        rows,
    });
    Ok(TableRead { table, end })
}
