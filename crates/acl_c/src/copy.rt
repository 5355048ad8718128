//! Copies of tables.

ghost use Rattle.std.specs.Prelude.{◌≡◌, None, IfOk};
ghost use Rattle.flat_table.specs.Sound.{sound_fault};

use flat_table::{Parts, Table};
use std::alloc::{AllocError, Global};

/// The kept groups of all tries.
fn kept_of(alloc: Global, table: &Table) -> Result<Vec<u128>, AllocError>
    ensures kept { IfOk result (λ kept. kept.items ≡ table.now.kept) }
    ensures sound { IfOk result (λ _. sound_fault table.now ≡ None) }
{
    let mut kept = Vec::new(alloc);
    for trie in 0..table.tries() {
        kept.push(table.kept(trie))?;
    }
    Ok(kept)
}

/// The roots of all tries.
fn roots_of(alloc: Global, table: &Table) -> Result<Vec<u64>, AllocError>
    ensures { IfOk result (λ roots. roots.items ≡ table.now.roots) }
{
    let mut roots = Vec::new(alloc);
    for trie in 0..table.tries() {
        roots.push(table.root(trie))?;
    }
    Ok(roots)
}

/// A table that is the same as the other and shares no memory with it.
pub(crate) fn copy_of(alloc: Global, table: &Table) -> Result<Table, AllocError>
    ensures { IfOk result (λ copy. copy ≡ table.now) }
{
    Ok(Table::from_sound(Parts {
        key_len: table.key_len() as u32,
        rules: table.rules(),
        kept: kept_of(alloc, table)?,
        roots: roots_of(alloc, table)?,
        level_lens: Vec::from_slice(alloc, table.level_lens())?,
        words: Vec::from_slice(alloc, table.words())?,
        rows: Vec::from_slice(alloc, table.rows())?,
    }))
}
