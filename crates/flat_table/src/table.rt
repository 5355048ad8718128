//! Tables that every key can be walked through. A table keeps no rule.

ghost use Rattle.std.specs.Prelude.{◌≡◌, ◌+◌, ◌*◌, ◌<◌, ◌≤◌, length, slice_get, slice_index};
ghost use Rattle.std.specs.Prelude.{slice_index_or, None, IfOk, IfErr, Some, map, sum, take};
ghost use Rattle.std.specs.Prelude.{option_map};
ghost use Rattle.std.specs.Result.{result_err};
ghost use Rattle.table_sizes.specs.Groups.{max_key_len};
ghost use Rattle.table_sizes.specs.Groups.{kept_places};
ghost use Rattle.flat_table.specs.Table.{view_of, words_of, depths_of, places_of, level_of};
ghost use Rattle.flat_table.specs.Sound.{leads_into, sound_fault};
ghost use Rattle.flat_table.specs.Walk.{root_of};
ghost use Rattle.table_sizes.specs.Sizes.{max_tries};

use crate::groups::{Places, kept_places};
use crate::sound::{SoundFault, check_sound};
use crate::table_parts::Parts;
use arrayvec::ArrayVec;
use std::fmt::{self, Debug, Formatter, Write};
use std::marker::Model;
use table_sizes::{MAX_TRIES, ROW_LEN};

/// Parts that make no table, and why.
#[derive(Drop)]
pub struct NotSound {
    /// What is wrong with them first.
    pub fault: SoundFault,
    /// The parts, as they were given.
    pub parts: Parts,
}

/// Says what is wrong, and leaves the parts out.
impl Debug for NotSound {
    fn fmt<W: Write>(&self, f: &mut Formatter<W>) -> fmt::Result {
        Debug::fmt(&self.fault, f)
    }
}

/// A sound table: its parts, which contracts see, and what its walks ask for again and again.
pub struct Table {
    parts: Parts,
    /// The roots of the parts again. They lie in the table itself, so that a walk that begins waits
    /// for one load.
    roots: ArrayVec<u64, MAX_TRIES>,
    /// For each trie the places of its kept groups, which are worked out once. They lie in the
    /// table itself, so that a table takes no memory besides its parts.
    places: ArrayVec<Places, MAX_TRIES>,
}

/// It is written out so that letting go is one call, here and in the crates above.
impl Drop for Table {
    fn drop(self) {
        let Table {
            parts: _,
            roots: _,
            places: _,
        } = self;
    }
}

impl Model for Table {
    ghost use Rattle.flat_table.specs.Table.{TableView, view_of};
    ghost use Rattle.flat_table.specs.TableInvariant.{IsTable};

    ghost Value = { TableView };

    ghost view = { λ table. view_of table.parts };

    ghost invariant = { λ table.
        IsTable (view_of table.parts) table.roots.items table.places.items };
}

/// The roots, to be kept in a table.
fn roots_of(roots: &[u64]) -> ArrayVec<u64, MAX_TRIES>
    requires { length roots.now ≤ max_tries }
    ensures { result.items ≡ roots.now }
{
    let mut tries = ArrayVec::new();
    for root in roots {
        tries.push(*root);
    }
    tries
}

/// For each trie the places of its kept groups.
fn places_of(key_len: u32, kept: &[u128]) -> ArrayVec<Places, MAX_TRIES>
    requires key { key_len ≤ max_key_len }
    requires few { length kept.now ≤ max_tries }
    ensures { map (λ places. places.items) result.items ≡ map (kept_places key_len) kept.now }
{
    let mut tries = ArrayVec::new();
    for kept in kept {
        tries.push(kept_places(key_len, *kept));
    }
    tries
}

impl Table {
    /// The table of the parts, or what [`check_sound`] finds wrong with them first, with the parts.
    ///
    /// It takes no memory.
    pub fn from_parts(parts: Parts) -> Result<Table, NotSound>
        ensures table { IfOk result (λ table. table ≡ view_of parts) }
        ensures fault { option_map (λ refused. refused.fault) (result_err result)
            ≡ sound_fault (view_of parts) }
        ensures parts { IfErr result (λ refused. refused.parts ≡ parts) }
    {
        match check_sound(&parts) {
            Ok(()) => Ok(Table::from_sound(parts)),
            Err(fault) => Err(NotSound { fault, parts }),
        }
    }

    /// The table of parts that the caller has proved to be sound: they fit together, and no root
    /// and no word is wrong.
    ///
    /// It looks at no word and takes no memory.
    pub fn from_sound(parts: Parts) -> Table
        requires { sound_fault (view_of parts) ≡ None }
        ensures { result ≡ view_of parts }
    {
        let roots = roots_of(&parts.roots);
        let places = places_of(parts.key_len, &parts.kept);
        Table {
            parts,
            roots,
            places,
        }
    }

    /// How many tries there are, at most 8.
    pub fn tries(&self) -> usize
        ensures value { result ≡ length self.now.roots }
        ensures bound { result ≤ max_tries }
        ensures sound { sound_fault self.now ≡ None }
    {
        self.parts.roots.len()
    }

    /// How many rules the table was made of.
    pub fn rules(&self) -> u32
        ensures { result ≡ self.now.rules }
    {
        self.parts.rules
    }

    /// How many bytes a key has.
    pub fn key_len(&self) -> usize
        ensures value { result ≡ self.now.key_len }
        ensures some { 0 < result }
        ensures bound { result ≤ max_key_len }
    {
        self.parts.key_len as usize
    }

    /// How many words the table has, sixteen for each row counted, row 0 too.
    pub fn total_words(&self) -> u64
        ensures { result ≡ words_of self.now }
    {
        (self.parts.words.len() + ROW_LEN * self.parts.rows.len()) as u64
    }

    /// The kept groups of the trie, bit g for group g.
    pub fn kept(&self, trie: usize) -> u128
        requires { trie < length self.now.roots }
        ensures { result ≡ slice_index self.now.kept trie }
    {
        self.parts.kept[trie]
    }

    /// How many levels the trie has: one for each of its kept places.
    pub fn depths(&self, trie: usize) -> usize
        requires { trie < length self.now.roots }
        ensures value { result ≡ length (places_of self.now trie) }
        ensures bound { result ≤ max_key_len }
    {
        self.places(trie).len()
    }

    /// The places of a key whose bytes a walk through the trie reads, ascending.
    pub fn places(&self, trie: usize) -> &[u16]
        requires { trie < length self.now.roots }
        ensures places { result.now ≡ places_of self.now trie }
        ensures bound { length result.now ≤ max_key_len }
    {
        let places = &self.places.as_slice()[trie];
        places.as_slice()
    }

    /// The word that a walk through the trie begins with. It leads into the trie's first level.
    pub fn root(&self, trie: usize) -> u64
        requires { trie < length self.now.roots }
        ensures value { result ≡ root_of self.now trie }
        ensures sound { sound_fault self.now ≡ None }
    {
        self.roots.as_slice()[trie]
    }

    /// How many words the trie has at the depth, which counts from 0.
    pub fn level_len(&self, trie: usize, depth: usize) -> u32
        requires trie { trie < length self.now.roots }
        requires depth { depth < length (places_of self.now trie) }
        ensures { result ≡ (level_of self.now trie depth).len }
    {
        let lens = self.parts.level_lens.as_slice();
        let mut first = 0;
        for earlier in 0..trie {
            first += self.depths(earlier);
        }
        lens[first + depth]
    }

    /// How many words each level has, trie by trie.
    pub fn level_lens(&self) -> &[u32]
        ensures { result.now ≡ self.now.level_lens }
    {
        &self.parts.level_lens
    }

    /// All words, trie by trie and level by level.
    pub fn words(&self) -> &[u64]
        ensures { result.now ≡ self.now.words }
    {
        &self.parts.words
    }

    /// All rows, row 0 first.
    pub fn rows(&self) -> &[[u64; ROW_LEN]]
        ensures { result.now ≡ self.now.rows }
    {
        &self.parts.rows
    }

    /// The word at the place.
    pub fn word(&self, i: usize) -> u64
        requires { i < length self.now.words }
        ensures { result ≡ slice_index self.now.words i }
    {
        self.parts.words[i]
    }

    /// The row: for each category a word with the winner's rank in its high half and its userdata
    /// in its low half, or 0 for none.
    pub fn row(&self, r: usize) -> &[u64; ROW_LEN]
        requires { r < length self.now.rows }
        ensures { slice_get self.now.rows r ≡ Some result.now }
    {
        &self.parts.rows[r]
    }
}
