//! The verdicts of keys, by the rows that their walks reach.

ghost use Rattle.std.specs.Prelude.{◌≡◌, ◌+◌, ◌*◌, ◌%◌, ◌<◌, ◌≤◌, ◌^◌, ◌==◌, length, map, take};
ghost use Rattle.std.specs.Prelude.{ℕ, not, slice_index, slice_index_or, slice_set, [], All};
ghost use Rattle.std.specs.List.{range_with_len};
ghost use Rattle.table_sizes.specs.Groups.{max_key_len};
ghost use Rattle.table_sizes.specs.Sizes.{max_tries, row_len};
ghost use Rattle.flat_table.specs.Walk.{joined, key_transitions, userdatas};
ghost use Rattle.flat_table.specs.Batch.{LengthsFit, key_at, keys_in, key_verdicts, batch_verdicts};
ghost use Rattle.flat_table.specs.Batch.{batch_transitions, most_of_batch};
ghost use Rattle.scalar_walk.specs.Lanes.{HasRoom, pieces_below};
ghost use Rattle.scalar_walk.specs.Rows.{Reaches, joined_rows, key_winners, row_verdicts, row_winners};
ghost use Rattle.scalar_walk.specs.Rows.{transitions_below, verdicts_below, winners_below};
ghost use Rattle.scalar_walk.specs.Rows.{winners_of, batch_winners};

use crate::in_step::IN_STEP;
use crate::walk::walk_one;
use crate::wide::{WIDE, walk_keys};
use flat_table::{Steps, Table, userdata_of};
use rule_set::Categories;
use std::marker::Brand;
use std::sync::ledger::{Blank, Ledger};
use table_sizes::{MAX_TRIES, ROW_LEN};

/// The greatest word of the category over the rows of these numbers.
fn greatest_word(rows: &[[u64; ROW_LEN]], reached: &[u32], category: usize) -> u64
    requires rows { All (λ row. row < length rows.now) reached.now }
    requires category { category < row_len }
    ensures { result ≡ joined_rows rows.now reached.now category }
{
    let mut greatest = 0;
    for row in reached {
        greatest = rows[*row as usize][category].max(greatest);
    }
    greatest
}

/// How many verdicts are written of each key, and how many marks: as many, or none.
#[derive(Clone, Copy)]
struct Asked {
    count: usize,
    marks: usize,
}

/// How many keys after so many of a batch are walked next: up to sixty-four.
fn next_keys(done: usize, all: usize) -> usize
    requires { done < all }
    ensures some { 0 < result }
    ensures few { result ≤ WIDE }
    ensures within { done + result ≤ all }
{
    (all - done).min(WIDE)
}

/// Marks the category exactly if its word isn't 0, where there is room for the mark.
#[inline]
fn put_mark(word: u64, category: usize, won: &mut [bool])
    ensures { won.new ≡ slice_set won.old category (not (word == 0)) }
{
    if category < won.len() {
        won[category] = word != 0;
    }
}

/// Writes for so many categories from 0 on the userdata of the row's word, and marks those whose
/// word isn't 0 as far as there is room for marks.
fn write_row(row: &[u64; ROW_LEN], count: usize, verdicts: &mut [u32], won: &mut [bool])
    requires few { count ≤ row_len }
    requires room { length verdicts.old ≡ count }
    requires marks { length won.old ≤ count }
    ensures verdicts { verdicts.new ≡ map (λ category. slice_index row.now category % userdatas)
        (range_with_len 0 count) }
    ensures won { won.new ≡ map (λ category. not (slice_index row.now category == 0))
        (range_with_len 0 (length won.old)) }
{
    // One category is the common case, and a loop costs more than its one turn.
    if count == 1 {
        verdicts[0] = userdata_of(row[0]);
        put_mark(row[0], 0, won);
    } else {
        for (category, verdict) in verdicts.iter_mut().enumerate() {
            *verdict = userdata_of(row[category]);
            put_mark(row[category], category, won);
        }
    }
}

/// Writes for so many categories from 0 on the userdata of the rows that the walks of so many keys
/// reached, and the marks that are asked for.
fn write_rows(
    rows: &[[u64; ROW_LEN]],
    reached: &[u32],
    keys: usize,
    asked: Asked,
    verdicts: &mut [u32],
    won: &mut [bool],
)
    requires there { (k : ℕ) → k < keys → slice_index reached.now k < length rows.now }
    requires keys { keys ≤ length reached.now }
    requires few { asked.count ≤ row_len }
    requires marks { asked.marks ≤ asked.count }
    requires room { length verdicts.old ≡ keys * asked.count }
    requires marks_room { length won.old ≡ keys * asked.marks }
    ensures verdicts { verdicts.new ≡ pieces_below
        (λ k. row_verdicts rows.now asked.count (slice_index reached.now k)) keys }
    ensures won { won.new ≡ pieces_below
        (λ k. row_winners rows.now asked.marks (slice_index reached.now k)) keys }
{
    for lane in 0..keys {
        let piece = &mut verdicts[lane * asked.count..(lane + 1) * asked.count];
        let marks = &mut won[lane * asked.marks..(lane + 1) * asked.marks];
        write_row(&rows[reached[lane] as usize], asked.count, piece, marks);
    }
}

/// Writes for so many categories from 0 on the userdata of the greatest word over the rows of these
/// numbers, and marks those whose greatest word isn't 0 as far as there is room for marks.
fn write_joined(rows: &[[u64; ROW_LEN]], reached: &[u32], verdicts: &mut [u32], won: &mut [bool])
    requires rows { All (λ row. row < length rows.now) reached.now }
    requires few { length verdicts.old ≤ row_len }
    requires marks { length won.old ≤ length verdicts.old }
    ensures verdicts { verdicts.new ≡ map
        (λ category. joined_rows rows.now reached.now category % userdatas)
        (range_with_len 0 (length verdicts.old)) }
    ensures won { won.new ≡ map (λ category. not (joined_rows rows.now reached.now category == 0))
        (range_with_len 0 (length won.old)) }
{
    for (category, verdict) in verdicts.iter_mut().enumerate() {
        let word = greatest_word(rows, reached, category);
        *verdict = userdata_of(word);
        put_mark(word, category, won);
    }
}

/// Writes the verdicts, for so many categories from 0 on, of a key whose walks reach the first of
/// these rows, one for each trie, and its marks as far as there is room.
fn write_answers(table: &Table, reached: &[u32; MAX_TRIES], verdicts: &mut [u32], won: &mut [bool])
    requires rows { All (λ row. row < length table.now.rows)
        (take (length table.now.roots) reached.now) }
    requires few { length verdicts.old ≤ row_len }
    requires marks { length won.old ≤ length verdicts.old }
    ensures verdicts { verdicts.new ≡ map (λ category. joined_rows table.now.rows
        (take (length table.now.roots) reached.now) category % userdatas)
        (range_with_len 0 (length verdicts.old)) }
    ensures won { won.new ≡ map (λ category. not (joined_rows table.now.rows
        (take (length table.now.roots) reached.now) category == 0))
        (range_with_len 0 (length won.old)) }
{
    write_joined(table.rows(), &reached[..table.tries()], verdicts, won);
}

/// The rows that the walks of a key reach, one for each trie, and how many transitions they took.
#[derive(Clone, Copy)]
struct Reached {
    rows: [u32; MAX_TRIES],
    taken: u64,
}

/// The walks of the key through all tries.
fn reach<L: Ledger>(table: &Table, key: &[u8], steps: &mut Steps<L>) -> Reached
    requires { length key.now ≡ table.now.key_len }
    ensures few { length table.now.roots ≤ max_tries }
    ensures rows { Reaches table.now key.now (length table.now.roots) result.rows }
    ensures taken { result.taken ≡ key_transitions table.now key.now }
    ensures bound { result.taken ≤ max_tries * max_key_len }
    ensures steps { steps.new ≡ steps.old + key_transitions table.now key.now }
{
    let mut rows = [0u32; MAX_TRIES];
    let mut taken = 0;
    for trie in 0..table.tries() {
        let walked = walk_one(table, trie, key, steps);
        rows[trie] = walked.row;
        taken += u64::from(walked.taken);
    }
    Reached { rows, taken }
}

/// Writes the row that the walk of each key through the trie reached.
fn put_rows<const ROOM: usize>(
    reached: &mut [[u32; MAX_TRIES]; ROOM],
    trie: usize,
    rows: &[u32; ROOM],
)
    requires trie { trie < max_tries }
    requires len { (k : ℕ) → k < ROOM → length (slice_index_or reached.old k []) ≡ max_tries }
    ensures { (k : ℕ) → k < ROOM → slice_index_or reached.new k []
        ≡ slice_set (slice_index_or reached.old k []) trie (slice_index rows.now k) }
{
    for lane in 0..ROOM {
        reached[lane][trie] = rows[lane];
    }
}

/// The walks of so many keys, which stand one after the other, through all tries: writes the rows
/// that they reach, for each key one for each trie, and says how many transitions they took
/// together.
///
/// The rows are written in place, since a copy of so much would wait for what was just written.
fn reach_some<const ROOM: usize, L: Ledger>(
    table: &Table,
    keys: &[u8],
    count: usize,
    reached: &mut [[u32; MAX_TRIES]; ROOM],
    steps: &mut Steps<L>,
) -> u64
    requires keys { length keys.now ≡ count * table.now.key_len }
    requires some { 0 < count }
    requires lanes { HasRoom ROOM count }
    requires len { (k : ℕ) → k < ROOM →
        length (slice_index_or reached.old k []) ≡ max_tries }
    ensures few { length table.now.roots ≤ max_tries }
    ensures rows { (k : ℕ) → k < count → Reaches table.now (key_at table.now keys.now k)
        (length table.now.roots) (slice_index_or reached.new k []) }
    ensures taken { result ≡ transitions_below table.now keys.now count }
    ensures bound { result ≤ count * (max_tries * max_key_len) }
    ensures steps { steps.new ≡ steps.old + result }
{
    let mut taken = 0;
    let mut rows = [0u32; ROOM];
    for trie in 0..table.tries() {
        taken += walk_keys(table, trie, keys, count, &mut rows, steps);
        put_rows(reached, trie, &rows);
    }
    taken
}

/// Writes the verdicts and the marks of so many keys by the greatest words over the rows of all
/// tries, and says how many transitions their walks took.
fn join_some<const ROOM: usize, L: Ledger>(
    table: &Table,
    keys: &[u8],
    count: usize,
    asked: Asked,
    verdicts: &mut [u32],
    won: &mut [bool],
    steps: &mut Steps<L>,
) -> u64
    requires keys { length keys.now ≡ count * table.now.key_len }
    requires some { 0 < count }
    requires lanes { HasRoom ROOM count }
    requires few { asked.count ≤ row_len }
    requires marks { asked.marks ≤ asked.count }
    requires room { length verdicts.old ≡ count * asked.count }
    requires marks_room { length won.old ≡ count * asked.marks }
    ensures verdicts { verdicts.new ≡ verdicts_below table.now asked.count keys.now count }
    ensures won { won.new ≡ winners_below table.now asked.marks keys.now count }
    ensures taken { result ≡ transitions_below table.now keys.now count }
    ensures bound { result ≤ count * (max_tries * max_key_len) }
    ensures steps { steps.new ≡ steps.old + result }
{
    let mut reached = [[0; MAX_TRIES]; ROOM];
    let taken = reach_some(table, keys, count, &mut reached, steps);
    for lane in 0..count {
        let piece = &mut verdicts[lane * asked.count..(lane + 1) * asked.count];
        let marks = &mut won[lane * asked.marks..(lane + 1) * asked.marks];
        write_answers(table, &reached[lane], piece, marks);
    }
    taken
}

/// Writes the verdicts and the marks of so many keys, and says how many transitions their walks
/// took.
fn classify_some<const ROOM: usize, L: Ledger>(
    table: &Table,
    keys: &[u8],
    count: usize,
    asked: Asked,
    verdicts: &mut [u32],
    won: &mut [bool],
    steps: &mut Steps<L>,
) -> u64
    requires keys { length keys.now ≡ count * table.now.key_len }
    requires some { 0 < count }
    requires lanes { HasRoom ROOM count }
    requires few { asked.count ≤ row_len }
    requires marks { asked.marks ≤ asked.count }
    requires room { length verdicts.old ≡ count * asked.count }
    requires marks_room { length won.old ≡ count * asked.marks }
    ensures verdicts { verdicts.new ≡ verdicts_below table.now asked.count keys.now count }
    ensures won { won.new ≡ winners_below table.now asked.marks keys.now count }
    ensures taken { result ≡ transitions_below table.now keys.now count }
    ensures bound { result ≤ count * (max_tries * max_key_len) }
    ensures steps { steps.new ≡ steps.old + result }
{
    // One trie is the common case, and its rows need no joining.
    if table.tries() == 1 {
        let mut rows = [0; ROOM];
        let taken = walk_keys(table, 0, keys, count, &mut rows, steps);
        write_rows(table.rows(), &rows, count, asked, verdicts, won);
        taken
    } else {
        join_some::<ROOM, L>(table, keys, count, asked, verdicts, won, steps)
    }
}

/// Writes the verdicts and the marks of so many keys, 1 to 64, and says how many transitions their
/// walks took.
fn classify_part<L: Ledger>(
    table: &Table,
    keys: &[u8],
    count: usize,
    asked: Asked,
    verdicts: &mut [u32],
    won: &mut [bool],
    steps: &mut Steps<L>,
) -> u64
    requires keys { length keys.now ≡ count * table.now.key_len }
    requires some { 0 < count }
    requires at_most { count ≤ WIDE }
    requires few { asked.count ≤ row_len }
    requires marks { asked.marks ≤ asked.count }
    requires room { length verdicts.old ≡ count * asked.count }
    requires marks_room { length won.old ≡ count * asked.marks }
    ensures verdicts { verdicts.new ≡ verdicts_below table.now asked.count keys.now count }
    ensures won { won.new ≡ winners_below table.now asked.marks keys.now count }
    ensures taken { result ≡ transitions_below table.now keys.now count }
    ensures bound { result ≤ count * (max_tries * max_key_len) }
    ensures steps { steps.new ≡ steps.old + result }
{
    // Up to sixteen take less time where no rank closes.
    if count > IN_STEP {
        classify_some::<WIDE, L>(table, keys, count, asked, verdicts, won, steps)
    } else {
        classify_some::<IN_STEP, L>(table, keys, count, asked, verdicts, won, steps)
    }
}

/// Writes the verdicts and the marks of a key alone, and says how many transitions its walks took.
///
/// It saves what walks of several keys need, which for one key is a tenth of the time.
fn classify_alone<L: Ledger>(
    table: &Table,
    key: &[u8],
    asked: Asked,
    verdicts: &mut [u32],
    won: &mut [bool],
    steps: &mut Steps<L>,
) -> u64
    requires key { length key.now ≡ table.now.key_len }
    requires few { asked.count ≤ row_len }
    requires marks { asked.marks ≤ asked.count }
    requires room { length verdicts.old ≡ asked.count }
    requires marks_room { length won.old ≡ asked.marks }
    ensures verdicts { verdicts.new ≡ key_verdicts table.now asked.count key.now }
    ensures won { won.new ≡ key_winners table.now asked.marks key.now }
    ensures taken { result ≡ key_transitions table.now key.now }
    ensures steps { steps.new ≡ steps.old + key_transitions table.now key.now }
{
    if table.tries() == 1 {
        let walked = walk_one(table, 0, key, steps);
        write_row(
            &table.rows()[walked.row as usize],
            asked.count,
            verdicts,
            won,
        );
        u64::from(walked.taken)
    } else {
        let reached = reach(table, key, steps);
        write_answers(table, &reached.rows, verdicts, won);
        reached.taken
    }
}

/// Writes the verdicts and the marks of the keys of a batch, and says how many transitions their
/// walks took.
fn classify_keys<L: Ledger>(
    table: &Table,
    keys: &[u8],
    asked: Asked,
    out: &mut [u32],
    won: &mut [bool],
    steps: &mut Steps<L>,
) -> u64
    requires fits { LengthsFit table.now keys.now asked.count (length out.old) }
    requires few { asked.count ≤ row_len }
    requires marks { asked.marks ≤ asked.count }
    requires marks_room { length won.old ≡ keys_in table.now keys.now * asked.marks }
    ensures verdicts { out.new ≡ batch_verdicts table.now asked.count keys.now }
    ensures won { won.new ≡ batch_winners table.now asked.marks keys.now }
    ensures taken { result ≡ batch_transitions table.now keys.now }
    ensures steps { steps.new ≡ steps.old + batch_transitions table.now keys.now }
{
    let key_len = table.key_len();
    if keys.len() == key_len {
        return classify_alone(table, keys, asked, out, won, steps);
    }
    let (count, marks) = (asked.count, asked.marks);
    let n = keys.len() / key_len;
    let (mut k, mut taken) = (0, 0);
    while k < n {
        let m = next_keys(k, n);
        let part = &keys[k * key_len..(k + m) * key_len];
        let verdicts = &mut out[k * count..(k + m) * count];
        let marked = &mut won[k * marks..(k + m) * marks];
        taken += classify_part(table, part, m, asked, verdicts, marked, steps);
        k += m;
    }
    taken
}

/// Writes the verdicts of the keys of a batch, and says how many transitions their walks took.
///
/// `keys` has the bytes of at most 65,536 keys of the table, one after the other, and `out` has
/// room for the verdicts of each: the categories from 0 on of the first key, then those of the
/// second. A verdict is the userdata of the winner, or 0 where no rule wins. It refuses nothing and
/// takes no memory.
#[tactic(auto, using(crate::proofs::Batches::taken_bound))]
pub fn classify_scalar<L: Ledger>(
    table: &Table,
    keys: &[u8],
    cats: Categories,
    out: &mut [u32],
    steps: &mut Steps<L>,
) -> u64
    requires { LengthsFit table.now keys.now cats.count (length out.old) }
    ensures verdicts { out.new ≡ batch_verdicts table.now cats.count keys.now }
    ensures taken { result ≡ batch_transitions table.now keys.now }
    ensures bound { result ≤ most_of_batch table.now keys.now }
    ensures steps { steps.new ≡ steps.old + batch_transitions table.now keys.now }
{
    let asked = Asked {
        count: cats.count(),
        marks: 0,
    };
    classify_keys(table, keys, asked, out, &mut [], steps)
}

/// Writes the verdicts of the keys of a batch as [`classify_scalar`] does, and marks beside each
/// whether some rule wins.
///
/// `won` has as many entries as `out`, in the same order. An entry is true if a rule wins the key
/// in that category, also where its userdata is 0. Verdicts and marks are of the same walks, and
/// the counts are of these. It refuses nothing and takes no memory.
#[tactic(auto, using(crate::proofs::Batches::taken_bound))]
pub fn classify_scalar_marked<L: Ledger>(
    table: &Table,
    keys: &[u8],
    cats: Categories,
    out: &mut [u32],
    won: &mut [bool],
    steps: &mut Steps<L>,
) -> u64
    requires fits { LengthsFit table.now keys.now cats.count (length out.old) }
    requires marks { length won.old ≡ length out.old }
    ensures verdicts { out.new ≡ batch_verdicts table.now cats.count keys.now }
    ensures won { won.new ≡ batch_winners table.now cats.count keys.now }
    ensures taken { result ≡ batch_transitions table.now keys.now }
    ensures bound { result ≤ most_of_batch table.now keys.now }
    ensures steps { steps.new ≡ steps.old + batch_transitions table.now keys.now }
{
    let asked = Asked {
        count: cats.count(),
        marks: cats.count(),
    };
    classify_keys(table, keys, asked, out, won, steps)
}

/// Marks the categories in which some rule wins the key.
///
/// `key` has the bytes of a key of the table. Entry c of `won` says whether a rule wins in category
/// c, also where its userdata is 0. It refuses nothing and takes no memory.
///
/// It walks the key for itself and counts nothing: it is for callers that ask for marks alone, as
/// the C library does. [`classify_scalar_marked`] gives verdicts and marks by the same walks.
pub fn winners(table: &Table, key: &[u8], won: &mut [bool; ROW_LEN])
    requires { length key.now ≡ table.now.key_len }
    ensures { won.new ≡ winners_of table.now key.now }
{
    mark_winners::<Brand>(Blank::new(1), table, key, won)
}

/// Marks the categories in which some rule wins the key, with a counter that nobody sees.
fn mark_winners<L: Ledger>(blank: Blank, table: &Table, key: &[u8], won: &mut [bool; ROW_LEN])
    requires name { blank.name ≡ L.name }
    requires parts { blank.parts ≡ L.parts }
    requires some { 0 < blank.parts }
    requires key { length key.now ≡ table.now.key_len }
    ensures { won.new ≡ winners_of table.now key.now }
{
    let mut steps = Steps::<L>::new(blank);
    let reached = reach(table, key, &mut steps);
    let rows = &reached.rows[..table.tries()];
    for (category, won) in won.iter_mut().enumerate() {
        *won = greatest_word(table.rows(), rows, category) != 0;
    }
}
