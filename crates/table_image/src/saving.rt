//! A pair of tables in, its image of version 2 out.

ghost use Rattle.std.specs.Prelude.{◌≡◌, ◌+◌, ◌-◌, ◌*◌, ◌≤◌, ◌<◌, ◌^◌, ◌++◌, length, take, OnOk, IfOk, true, None};
ghost use Rattle.std.specs.List.{flat_map, list_all};
ghost use Rattle.table_sizes.specs.Groups.{ip4_key_len, ip6_key_len};
ghost use Rattle.flat_table.specs.Sound.{begins_with_zeros, sound_fault};
ghost use Rattle.table_image.specs.declared.version.Version.TheVariants.{Two};
ghost use Rattle.table_image.specs.Spelling.{spelled, all_spelled, spelled_tries, spelled_rows, spelled_table, spelled_pair};
ghost use Rattle.table_image.specs.Spelling.{is_word, is_row, HasWords, CanBeSaved, IsImage};
ghost use Rattle.table_image.specs.Loading.{pair_of_tables};

use crate::field::{LONG, PORTION};
use crate::list::push_copies;
use byteorder::{BigEndian, ByteOrder};
use flat_table::Table;
use std::alloc::{AllocError, Global};
use table_sizes::ROW_LEN;

/// `ACLT`, with which an image begins.
pub(crate) const MAGIC: u32 = 0x4143_4C54;

/// The version that is written.
const VERSION: u32 = 2;

/// Puts the four bytes of a number after the others.
#[tactic(auto, unfolding(crate::specs::Spelling::spelled))]
fn put_short(out: &mut Vec<u8>, number: u32) -> Result<(), AllocError>
    ensures { OnOk result (out.new.items ≡ out.old.items ++ spelled 4 number) }
{
    out.extend_from_slice(&number.to_be_bytes())
}

/// Puts the eight bytes of a number after the others.
#[tactic(auto, unfolding(crate::specs::Spelling::spelled))]
fn put_long(out: &mut Vec<u8>, number: u64) -> Result<(), AllocError>
    ensures { OnOk result (out.new.items ≡ out.old.items ++ spelled 8 number) }
{
    out.extend_from_slice(&number.to_be_bytes())
}

/// Puts the bytes of the level lengths after the others.
fn put_lens(out: &mut Vec<u8>, lens: &[u32]) -> Result<(), AllocError>
    ensures { OnOk result (out.new.items ≡ out.old.items ++ all_spelled 4 lens.now) }
{
    for len in lens {
        put_short(out, *len)?;
    }
    Ok(())
}

/// Writes the bytes of the words from the place on, which are the last ones.
#[tactic(auto, unfolding(crate::specs::Spelling::spelled))]
fn write_words(out: &mut [u8], at: usize, words: &[u64])
    requires { length out.old ≡ at + 8 * length words.now }
    ensures { out.new ≡ take at out.old ++ all_spelled 8 words.now }
{
    BigEndian::write_u64_into(words, &mut out[at..]);
}

/// Puts the bytes of a portion of the words after the others.
fn put_portion(out: &mut Vec<u8>, words: &[u64]) -> Result<(), AllocError>
    requires { length words.now ≤ 128 }
    ensures text { OnOk result (out.new.items ≡ out.old.items ++ all_spelled 8 words.now) }
    ensures typed { OnOk result (list_all is_word words.now ≡ true) }
{
    let at = out.len();
    push_copies(out, LONG * words.len(), 0)?;
    write_words(out, at, words);
    Ok(())
}

/// Puts the bytes of the words after the others.
fn put_words(out: &mut Vec<u8>, words: &[u64]) -> Result<(), AllocError>
    ensures text { OnOk result (out.new.items ≡ out.old.items ++ all_spelled 8 words.now) }
    ensures typed { OnOk result (list_all is_word words.now ≡ true) }
{
    let mut left = words;
    for portion in 0..words.len() / PORTION + 1 {
        let (some, others) = left.split_at(left.len().min(PORTION));
        put_portion(out, some)?;
        left = others;
    }
    Ok(())
}

/// Puts the bytes of the rows after the others.
fn put_rows(out: &mut Vec<u8>, rows: &[[u64; ROW_LEN]]) -> Result<(), AllocError>
    ensures text { OnOk result
        (out.new.items ≡ out.old.items ++ flat_map (all_spelled 8) rows.now) }
    ensures typed { OnOk result (list_all is_row rows.now ≡ true) }
{
    for row in rows {
        put_portion(out, row)?;
    }
    Ok(())
}

/// Puts the bytes of all rows but the first after the others.
fn put_later_rows(out: &mut Vec<u8>, rows: &[[u64; ROW_LEN]]) -> Result<(), AllocError>
    requires { begins_with_zeros rows.now ≡ true }
    ensures text { OnOk result (out.new.items ≡ out.old.items ++ spelled_rows rows.now) }
    ensures typed { OnOk result (list_all is_row rows.now ≡ true) }
{
    match rows.split_first() {
        Some((_zeros, later)) => put_rows(out, later),
        None => unreachable!(),
    }
}

/// How many rows there are after row 0.
fn rows_after_first(table: &Table) -> u32
    requires { sound_fault table.now ≡ None }
    ensures value { result ≡ length table.now.rows - 1 }
    ensures some { 0 < length table.now.rows }
{
    table.rows().len() as u32 - 1
}

/// Puts the bytes of the tries after the others: of each its kept groups, level lengths and root.
fn put_tries(out: &mut Vec<u8>, table: &Table) -> Result<(), AllocError>
    requires keys { table.now.key_len ≤ ip6_key_len }
    ensures text { OnOk result (out.new.items ≡ out.old.items ++ spelled_tries Two
        table.now.key_len table.now.kept table.now.roots table.now.level_lens) }
    ensures typed { OnOk result (list_all is_word table.now.roots ≡ true) }
    ensures sound { OnOk result (sound_fault table.now ≡ None) }
{
    let mut lens = table.level_lens();
    for trie in 0..table.tries() {
        let (own, others) = lens.split_at(table.depths(trie));
        put_short(out, table.kept(trie) as u32)?;
        put_lens(out, own)?;
        put_long(out, table.root(trie))?;
        lens = others;
    }
    Ok(())
}

/// Puts the bytes of a table of the family after the others.
fn put_table(out: &mut Vec<u8>, family: u32, table: &Table) -> Result<(), AllocError>
    requires keys { table.now.key_len ≤ ip6_key_len }
    ensures text { OnOk result
        (out.new.items ≡ out.old.items ++ spelled_table Two family table.now) }
    ensures typed { OnOk result (HasWords table.now) }
    ensures sound { OnOk result (sound_fault table.now ≡ None) }
{
    put_short(out, family)?;
    put_short(out, table.rules())?;
    put_short(out, table.tries() as u32)?;
    put_short(out, rows_after_first(table))?;
    put_tries(out, table)?;
    put_words(out, table.words())?;
    put_later_rows(out, table.rows())?;
    Ok(())
}

/// How many bytes the image has of a table.
fn table_bytes(table: &Table) -> usize
    ensures { result < 2 ^ 40 }
{
    16 + 12 * table.tries() + 4 * table.level_lens().len() + 8 * table.total_words() as usize - 128
}

/// The image of version 2 of two tables: what [`load`](crate::load) gives them back from.
///
/// Keys have 13 bytes in the first table and 37 in the second; each has at most 262,144 rules, and
/// each word of its rows is 0 or has the number of one of them in its high half, as in tables that
/// were filled or loaded. It refuses nothing. Memory is taken once, for the image: its length is
/// known before.
pub fn save(alloc: Global, ip4: &Table, ip6: &Table) -> Result<Vec<u8>, AllocError>
    requires ip4 { CanBeSaved ip4_key_len ip4.now }
    requires ip6 { CanBeSaved ip6_key_len ip6.now }
    ensures spelling { IfOk result
        (λ image. image.items ≡ spelled_pair Two (pair_of_tables ip4.now ip6.now)) }
    ensures image { IfOk result
        (λ image. IsImage Two image.items (pair_of_tables ip4.now ip6.now)) }
{
    let mut out = Vec::with_capacity(alloc, 8 + table_bytes(ip4) + table_bytes(ip6))?;
    put_short(&mut out, MAGIC)?;
    put_short(&mut out, VERSION)?;
    put_table(&mut out, 4, ip4)?;
    put_table(&mut out, 6, ip6)?;
    Ok(out)
}
