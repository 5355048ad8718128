//! The walk of one key through one trie.

ghost use Rattle.std.specs.Prelude.{◌≡◌, ◌+◌, ◌<◌, ◌≤◌, length, true, false};
ghost use Rattle.table_sizes.specs.Groups.{max_key_len};
ghost use Rattle.flat_table.specs.Table.{places_of};
ghost use Rattle.flat_table.specs.Word.{is_node, next_place};
ghost use Rattle.flat_table.specs.Walk.{walk_row, walk_transitions};

use crate::kinds::{FULL, SINGLE, kind_of};
use crate::words::take_word;
use flat_table::{Steps, Table, boundaries_below, index_of, is_end};
use std::sync::ledger::Ledger;

/// Where a walk ended, and after how many transitions.
#[derive(Clone, Copy)]
pub struct Walked {
    /// The row that the last word names.
    pub row: u32,
    /// How many transitions the walk took.
    pub taken: u32,
}

/// The place of the word that a walk takes by the byte from a word that leads to a node.
pub(crate) fn place_after(word: u64, byte: u8) -> usize
    requires { is_node word ≡ true }
    ensures { result ≡ next_place word byte }
{
    // What is neither single nor full is a quad-range.
    let index = index_of(word);
    match kind_of(word) {
        SINGLE => index,
        FULL => index + usize::from(byte),
        _ => index + boundaries_below(word, byte),
    }
}

/// The walk of the key through the trie.
///
/// `key` has the bytes of a key of the table. It refuses nothing and takes no memory. It is not
/// inlined, so that its loop has its numbers in registers, whatever stands around the call.
#[inline(never)]
pub fn walk_one<L: Ledger>(table: &Table, trie: usize, key: &[u8], steps: &mut Steps<L>) -> Walked
    requires trie { trie < length table.now.roots }
    requires key { length key.now ≡ table.now.key_len }
    ensures row { result.row ≡ walk_row table.now trie key.now }
    ensures taken { result.taken ≡ walk_transitions table.now trie key.now }
    ensures steps { steps.new ≡ steps.old + walk_transitions table.now trie key.now }
    ensures there { result.row < length table.now.rows }
    ensures bound { result.taken ≤ length (places_of table.now trie) }
    ensures short { result.taken ≤ table.now.key_len }
    ensures limit { result.taken ≤ max_key_len }
{
    let words = table.words();
    let places = table.places(trie);
    let mut word = table.root(trie);
    let mut taken = 0usize;
    // A walk comes to a match before the places end, so no test asks for their end.
    while !is_end(word) {
        let place = place_after(word, key[usize::from(places[taken])]);
        word = take_word(words, place, true, steps);
        taken += 1;
    }
    Walked {
        row: index_of(word) as u32,
        taken: taken as u32,
    }
}
