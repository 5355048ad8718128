//! Up to sixteen walks through one trie, in step: their loads of words don't wait for each other.

ghost use Rattle.std.specs.Prelude.{◌≡◌, ℕ, ◌+◌, ◌*◌, ◌%◌, ◌<◌, ◌≤◌, ◌==◌, ◌&&◌, true, false};
ghost use Rattle.std.specs.Prelude.{length, slice_index};
ghost use Rattle.table_sizes.specs.Groups.{max_key_len};
ghost use Rattle.flat_table.specs.Batch.{key_at};
ghost use Rattle.flat_table.specs.Word.{indexes};
ghost use Rattle.scalar_walk.specs.Lanes.{IsGroupLen, HasLanes, HaveEnded, lane_key, own_lanes};
ghost use Rattle.scalar_walk.specs.Lanes.{counted, sum_below, word_in};
ghost use Rattle.scalar_walk.specs.Rows.{CanGoOn, EndsAt, GoesOn, walks_below};

use crate::side_by_side::walk_side_by_side;
use crate::vectors::{Four, begin, groups_at, is_one_on_way, step, words_taken, write_ends};
use crate::walk::walk_one;
use flat_table::laws::walks_stay;
use flat_table::{Steps, Table};
use std::simd::u8x16;
use std::sync::ledger::Ledger;

/// How many keys are walked in step at most.
pub(crate) const IN_STEP: usize = 16;

/// Whether four places stand one after the other.
#[inline]
fn follow(first: u16, second: u16, third: u16, fourth: u16) -> bool
    ensures { result ≡ (second == first + 1 && third == first + 2 && fourth == first + 3) }
{
    let first = u32::from(first);
    u32::from(second) == first + 1
        && u32::from(third) == first + 2
        && u32::from(fourth) == first + 3
}

/// How many places from one on are read at once: four that stand one after the other, or one.
#[inline]
pub(crate) fn group_len(places: &[u16], n: usize) -> usize
    requires { n < length places.now }
    ensures count { IsGroupLen result }
    ensures some { 0 < result }
    ensures few { result ≤ 4 }
    ensures within { n + result ≤ length places.now }
    ensures follow { (k : ℕ) → k < result →
        slice_index places.now (n + k) ≡ slice_index places.now n + k }
{
    if n + 4 <= places.len() && follow(places[n], places[n + 1], places[n + 2], places[n + 3]) {
        4
    } else {
        1
    }
}

/// Where the bytes of the key begin that a lane walks: its own, or the last of so many keys where
/// there are no more. It may be known to have its own.
#[inline]
pub(crate) fn begin_of<const OWN: bool>(keys: &[u8], lane: usize, count: usize, len: usize) -> usize
    requires some { 0 < count }
    requires own { OWN ≡ true → lane < count }
    requires keys { length keys.now ≡ count * len }
    ensures { result ≡ lane_key count lane * len }
{
    let key = if OWN { lane } else { lane.min(count - 1) };
    key * len
}

/// Where the bytes of the keys begin that four lanes walk, from one on.
#[inline]
fn begins(keys: &[u8], first: usize, count: usize, len: usize) -> [usize; 4]
    requires some { 0 < count }
    requires lanes { first + 4 ≤ IN_STEP }
    requires keys { length keys.now ≡ count * len }
    ensures { (i : ℕ) → i < 4 → slice_index result i ≡ lane_key count (first + i) * len }
{
    [
        begin_of::<false>(keys, first, count, len),
        begin_of::<false>(keys, first + 1, count, len),
        begin_of::<false>(keys, first + 2, count, len),
        begin_of::<false>(keys, first + 3, count, len),
    ]
}

/// The bytes that the lanes of a four read, if it is one of so many fours.
#[inline]
fn read_in<const FOURS: usize>(
    four: usize,
    keys: &[u8],
    begins: &[usize; 4],
    from: usize,
    count: usize,
) -> u8x16
    requires count { IsGroupLen count }
    requires keys { four < FOURS → (i : ℕ) → i < 4 →
        slice_index begins.now i + from + count ≤ length keys.now }
    ensures { four < FOURS → (i k : ℕ) → i < 4 → k < count →
        slice_index result (4 * i + k)
        ≡ slice_index keys.now (slice_index begins.now i + from + k) }
{
    if four < FOURS {
        groups_at(keys, begins, from, count)
    } else {
        u8x16::splat(0)
    }
}

/// The walks of a four after the bytes at a place of their groups, if it is one of so many fours.
/// So many of the walks are counted.
#[inline]
fn step_in<const FOURS: usize, L: Ledger>(
    four: usize,
    words: &[u64],
    walks: Four,
    groups: u8x16,
    place: usize,
    own: usize,
    steps: &mut Steps<L>,
) -> Four
    requires place { place < 4 }
    requires ready { four < FOURS → (i : ℕ) → i < 4 → CanGoOn words.now
        (word_in walks.lows walks.highs i) (slice_index groups (4 * i + place))
        (slice_index walks.taken i) }
    ensures walks { four < FOURS → (i : ℕ) → i < 4 → GoesOn words.now
        (word_in walks.lows walks.highs i) (slice_index groups (4 * i + place))
        (word_in result.lows result.highs i) (slice_index walks.taken i)
        (slice_index result.taken i) }
    ensures steps { steps.new + counted walks.taken own ≡ steps.old + counted result.taken own }
{
    if four < FOURS {
        step(words, walks, groups, place, own, steps)
    } else {
        walks
    }
}

/// How many of four lanes, from one on, have a key of so many.
#[inline]
pub(crate) fn lanes_of(first: usize, count: usize) -> usize
    ensures value { result ≡ own_lanes count first }
    ensures within { result ≤ 4 }
{
    count.saturating_sub(first).min(4)
}

/// Writes the rows at which the walks of a four ended, if it is one of so many fours, and says how
/// many words those of its lanes took that have a key of their own.
#[inline]
fn end_in<const FOURS: usize>(four: usize, walks: Four, rows: &mut [u32], count: usize) -> u64
    requires four { four < 4 }
    requires room { IN_STEP ≤ length rows.old }
    requires lanes { count ≤ 4 * FOURS }
    requires few { four < FOURS → (i : ℕ) → i < 4 → slice_index walks.taken i ≤ max_key_len }
    ensures rows { four < FOURS → (i : ℕ) → i < 4 →
        slice_index rows.new (4 * four + i) ≡ slice_index walks.lows i % indexes }
    ensures others { (k : ℕ) → k < 4 * four → slice_index rows.new k ≡ slice_index rows.old k }
    ensures taken { result
        ≡ sum_below (λ i. slice_index walks.taken i) (own_lanes count (4 * four)) }
    ensures limit { result ≤ own_lanes count (4 * four) * max_key_len }
    ensures bound { result ≤ 4 * max_key_len }
{
    if four < FOURS {
        write_ends(walks, rows, 4 * four);
        words_taken(walks, lanes_of(4 * four, count))
    } else {
        0
    }
}

/// Whether there is a place to read after so many, and a walk of so many fours is on its way.
#[inline]
fn is_left<const FOURS: usize>(
    places: &[u16],
    n: usize,
    first: Four,
    second: Four,
    third: Four,
    fourth: Four,
) -> bool
    ensures more { result ≡ true → n < length places.now }
    ensures first { result ≡ false → HaveEnded (length places.now) n 0 FOURS first.lows }
    ensures second { result ≡ false → HaveEnded (length places.now) n 1 FOURS second.lows }
    ensures third { result ≡ false → HaveEnded (length places.now) n 2 FOURS third.lows }
    ensures fourth { result ≡ false → HaveEnded (length places.now) n 3 FOURS fourth.lows }
{
    // Mostly the first of them is on its way, and no other one is asked.
    n < places.len()
        && (0 < FOURS && is_one_on_way(first)
            || 1 < FOURS && is_one_on_way(second)
            || 2 < FOURS && is_one_on_way(third)
            || 3 < FOURS && is_one_on_way(fourth))
}

/// The walks of so many keys, which stand one after the other, through the trie, by so many fours
/// of lanes: writes the rows at which they ended, and says how many transitions they took together.
///
/// A lane without a key of its own walks the last key again, which isn't counted. No place is read
/// once all walks have ended: if few packets match a rule, that is early. It is not inlined, so
/// that its loop has all registers, whatever stands around the call.
#[inline(never)]
pub(crate) fn walk_in_step<const FOURS: usize, L: Ledger>(
    table: &Table,
    trie: usize,
    keys: &[u8],
    count: usize,
    rows: &mut [u32],
    steps: &mut Steps<L>,
) -> u64
    requires trie { trie < length table.now.roots }
    requires keys { length keys.now ≡ count * table.now.key_len }
    requires lanes { HasLanes FOURS count }
    requires room { IN_STEP ≤ length rows.old }
    ensures rows { (k : ℕ) → k < count →
        EndsAt table.now trie (key_at table.now keys.now k) (slice_index rows.new k) }
    ensures taken { result ≡ walks_below table.now trie keys.now count }
    ensures limit { result ≤ count * max_key_len }
    ensures steps { steps.new ≡ steps.old + result }
{
    walks_stay();
    let words = table.words();
    let len = table.key_len();
    let at_first = begins(keys, 0, count, len);
    let at_second = begins(keys, 4, count, len);
    let at_third = begins(keys, 8, count, len);
    let at_fourth = begins(keys, 12, count, len);
    let root = table.root(trie);
    let walks = begin(root);
    let (own_first, own_second) = (lanes_of(0, count), lanes_of(4, count));
    let (own_third, own_fourth) = (lanes_of(8, count), lanes_of(12, count));
    let (mut first, mut second, mut third, mut fourth) = (walks, walks, walks, walks);
    let places = table.places(trie);
    let mut n = 0;
    while is_left::<FOURS>(places, n, first, second, third, fourth) {
        let from = usize::from(places[n]);
        let read = group_len(places, n);
        let of_first = read_in::<FOURS>(0, keys, &at_first, from, read);
        let of_second = read_in::<FOURS>(1, keys, &at_second, from, read);
        let of_third = read_in::<FOURS>(2, keys, &at_third, from, read);
        let of_fourth = read_in::<FOURS>(3, keys, &at_fourth, from, read);
        for place in 0..read {
            first = step_in::<FOURS, L>(0, words, first, of_first, place, own_first, steps);
            second = step_in::<FOURS, L>(1, words, second, of_second, place, own_second, steps);
            third = step_in::<FOURS, L>(2, words, third, of_third, place, own_third, steps);
            fourth = step_in::<FOURS, L>(3, words, fourth, of_fourth, place, own_fourth, steps);
        }
        n += read;
    }
    let mut taken = end_in::<FOURS>(0, first, rows, count);
    taken += end_in::<FOURS>(1, second, rows, count);
    taken += end_in::<FOURS>(2, third, rows, count);
    taken += end_in::<FOURS>(3, fourth, rows, count);
    taken
}

/// The walk of a key alone through the trie: writes the row at which it ended, and says how many
/// transitions it took.
fn walk_alone<L: Ledger>(
    table: &Table,
    trie: usize,
    keys: &[u8],
    rows: &mut [u32],
    steps: &mut Steps<L>,
) -> u64
    requires trie { trie < length table.now.roots }
    requires keys { length keys.now ≡ 1 * table.now.key_len }
    requires room { IN_STEP ≤ length rows.old }
    ensures rows { (k : ℕ) → k < 1 →
        EndsAt table.now trie (key_at table.now keys.now k) (slice_index rows.new k) }
    ensures taken { result ≡ walks_below table.now trie keys.now 1 }
    ensures limit { result ≤ 1 * max_key_len }
    ensures steps { steps.new ≡ steps.old + result }
{
    let walked = walk_one(table, trie, keys, steps);
    rows[0] = walked.row;
    u64::from(walked.taken)
}

/// The walks of so many keys, 1 to 16, which stand one after the other, through the trie, from five
/// keys on by as many fours of lanes as they need: writes the rows at which they ended, and says
/// how many transitions they took together.
pub(crate) fn walk_some<L: Ledger>(
    table: &Table,
    trie: usize,
    keys: &[u8],
    count: usize,
    rows: &mut [u32],
    steps: &mut Steps<L>,
) -> u64
    requires trie { trie < length table.now.roots }
    requires keys { length keys.now ≡ count * table.now.key_len }
    requires some { 0 < count }
    requires few { count ≤ IN_STEP }
    requires room { IN_STEP ≤ length rows.old }
    ensures rows { (k : ℕ) → k < count →
        EndsAt table.now trie (key_at table.now keys.now k) (slice_index rows.new k) }
    ensures taken { result ≡ walks_below table.now trie keys.now count }
    ensures limit { result ≤ count * max_key_len }
    ensures steps { steps.new ≡ steps.old + result }
{
    if count > 12 {
        walk_in_step::<4, L>(table, trie, keys, count, rows, steps)
    } else if count > 8 {
        walk_in_step::<3, L>(table, trie, keys, count, rows, steps)
    } else if count > 4 {
        walk_in_step::<2, L>(table, trie, keys, count, rows, steps)
    } else if count == 4 {
        walk_side_by_side::<true, true, L>(table, trie, keys, count, rows, steps)
    } else if count == 3 {
        walk_side_by_side::<true, false, L>(table, trie, keys, count, rows, steps)
    } else if count == 2 {
        walk_side_by_side::<false, false, L>(table, trie, keys, count, rows, steps)
    } else {
        walk_alone(table, trie, keys, rows, steps)
    }
}
