//! The tables of a save, their chains, and the way of packets through them.

ghost use Rattle.std.specs.Prelude.{◌≡◌};
ghost use Rattle.text_scan.specs.Parts.{words_of};
ghost use Rattle.iptables_reader.specs.SavedTables as saved;

use crate::options::Verdict;
use crate::reading::Act;
use crate::tables::owner_in;
use crate::words::is;
use list_packets::meaning_of;
use text_scan::{next_word, split_line};

/// The tables of iptables-save.
#[derive(Clone, Copy)]
pub(crate) enum SavedTable {
    Filter,
    Raw,
    Mangle,
    Nat,
    Security,
}

/// All of them.
const TABLES: [SavedTable; 5] = [
    SavedTable::Filter,
    SavedTable::Raw,
    SavedTable::Mangle,
    SavedTable::Nat,
    SavedTable::Security,
];

/// The table that a word names.
pub(crate) fn table_named(word: &[u8]) -> Option<SavedTable>
    ensures { result ≡ saved.table_named word.now }
{
    meaning_of(b"filter raw mangle nat security".as_slice(), &TABLES, word)
}

/// The bit of a table.
pub(crate) fn table_bit(table: SavedTable) -> u32
    ensures { result ≡ saved.table_bit table }
{
    match table {
        SavedTable::Filter => 1,
        SavedTable::Raw => 2,
        SavedTable::Mangle => 4,
        SavedTable::Nat => 8,
        SavedTable::Security => 16,
    }
}

/// The chains of a table that packets come to by themselves.
fn base_chains(table: SavedTable) -> &'static [u8]
    ensures { result.now ≡ saved.base_chains table }
{
    match table {
        SavedTable::Filter => b"INPUT FORWARD OUTPUT".as_slice(),
        SavedTable::Raw => b"PREROUTING OUTPUT".as_slice(),
        SavedTable::Mangle => b"PREROUTING INPUT FORWARD OUTPUT POSTROUTING".as_slice(),
        SavedTable::Nat => b"PREROUTING INPUT OUTPUT POSTROUTING".as_slice(),
        SavedTable::Security => b"INPUT FORWARD OUTPUT".as_slice(),
    }
}

/// Whether packets come to a chain of a table by themselves.
pub(crate) fn is_base(table: SavedTable, name: &[u8]) -> bool
    ensures { result ≡ saved.is_base table name.now }
{
    owner_in(base_chains(table), name).is_some()
}

/// The chains that packets of a chain of `filter` come to in other tables.
fn way_of(name: &[u8]) -> &'static [u8]
    ensures { result.now ≡ saved.way_of name.now }
{
    if is(name, b"INPUT") {
        return b"PREROUTING INPUT".as_slice();
    }
    if is(name, b"FORWARD") {
        return b"PREROUTING FORWARD POSTROUTING".as_slice();
    }
    if is(name, b"OUTPUT") {
        return b"OUTPUT POSTROUTING".as_slice();
    }
    b"PREROUTING INPUT FORWARD OUTPUT POSTROUTING".as_slice()
}

/// Whether packets of a chain of `filter` may come to a chain of another table: it lies on their
/// way, or only rules lead to it.
pub(crate) fn is_on_way(table: SavedTable, name: &[u8], chain: &[u8]) -> bool
    ensures { result ≡ saved.is_on_way table name.now chain.now }
{
    !is_base(table, chain) || owner_in(way_of(name), chain).is_some()
}

/// Whether a rule drops the packets that it catches.
pub(crate) fn drops(act: Option<Act>) -> bool
    ensures { result ≡ saved.drops act }
{
    matches!(act, Some(Act::Decide(Verdict::Drop | Verdict::Reject)))
}

/// Whether a policy drops.
pub(crate) fn is_drop(word: &[u8]) -> bool
    ensures { result ≡ saved.is_drop word.now }
{
    is(word, b"DROP")
}

/// Whether a word names legacy iptables.
fn is_legacy(word: &[u8]) -> bool
    ensures { result ≡ saved.is_legacy word.now }
{
    is(word, b"iptables-legacy") || is(word, b"ip6tables-legacy")
}

/// Whether some word of a text does.
fn has_legacy(text: &[u8]) -> bool
    ensures { result ≡ saved.has_legacy (words_of text.now) }
{
    let mut left = text;
    while let Some((word, rest)) = next_word(left) {
        if is_legacy(word) {
            return true;
        }
        left = rest;
    }
    false
}

/// Whether a line is a comment by which a save lacks tables, or some of their chains.
pub(crate) fn hides_tables(line: &[u8]) -> bool
    ensures { result ≡ saved.hides_tables line.now }
{
    match line {
        [] => false,
        [b'#', text @ ..] => text.starts_with(b" Table `") || has_legacy(text),
        _ => false,
    }
}

/// Whether a line begins another table than `filter`.
fn begins_other(line: &[u8]) -> bool
    ensures { result ≡ saved.begins_other line.now }
{
    match line {
        [] => false,
        [b'*', name @ ..] => !is(name, b"filter"),
        _ => false,
    }
}

/// Whether some line of a list begins another table than `filter`, with `*` and another name. It
/// takes no memory.
pub fn has_other_tables(bytes: &[u8]) -> bool
    ensures { result ≡ saved.has_other_tables bytes.now }
{
    let mut left = bytes;
    while let Some((line, rest)) = split_line(left) {
        if begins_other(line) {
            return true;
        }
        left = rest;
    }
    false
}
