//! Two to four walks through a trie, side by side.
//!
//! A walk alone waits for each of its words before it can ask for the next. Beside it another one
//! asks for its own, so both wait at once:
//!
//! ```text
//!     first    word ──► place ──► word ──► place ──► match
//!     second   word ──► place ──► word ──► place ──► word ──► place ──► match
//! ```
//!
//! More keys are walked by vectors. Fewer take less time so: a walk that has ended takes none, and
//! nothing goes in and out of vectors.

ghost use Rattle.std.specs.Prelude.{◌≡◌, ℕ, ◌+◌, ◌*◌, ◌<◌, ◌≤◌, ◌&&◌, ◌||◌, not, true, false, length};
ghost use Rattle.std.specs.Prelude.{slice_index, if◌then◌else◌};
ghost use Rattle.table_sizes.specs.Groups.{max_key_len};
ghost use Rattle.flat_table.specs.Batch.{key_at};
ghost use Rattle.flat_table.specs.Walk.{moved};
ghost use Rattle.flat_table.specs.Word.{is_match, is_node, next_place};
ghost use Rattle.scalar_walk.specs.Rows.{EndsAt, walks_below};

use crate::in_step::{IN_STEP, begin_of};
use crate::kinds::{FULL, QUAD, kind_of};
use crate::walk::place_after;
use crate::words::take_word;
use flat_table::{Steps, Table, boundaries_below, index_of, is_end};
use std::sync::ledger::Ledger;

/// Keys of more bytes are long: in their tries single nodes follow one another, and a jump to the
/// word of a single node needn't wait for its boundaries.
const LONG: usize = 16;

/// Whether a walk is on its way: it is there, and stands at no match.
#[inline]
fn is_on_way<const THERE: bool>(word: u64) -> bool
    requires { THERE ≡ true → is_match word ≡ false → is_node word ≡ true }
    ensures { result ≡ (THERE && not (is_match word)) }
{
    THERE && !is_end(word)
}

/// Whether one of two to four walks is on its way.
#[inline]
fn is_one_on_way<const THREE: bool, const FOUR: bool>(
    first: u64,
    second: u64,
    third: u64,
    fourth: u64,
) -> bool
    requires first { is_match first ≡ false → is_node first ≡ true }
    requires second { is_match second ≡ false → is_node second ≡ true }
    requires third { THREE ≡ true → is_match third ≡ false → is_node third ≡ true }
    requires fourth { FOUR ≡ true → is_match fourth ≡ false → is_node fourth ≡ true }
    ensures { result ≡ (not (is_match first) || not (is_match second)
        || THREE && not (is_match third) || FOUR && not (is_match fourth)) }
{
    is_on_way::<true>(first)
        || is_on_way::<true>(second)
        || is_on_way::<THREE>(third)
        || is_on_way::<FOUR>(fourth)
}

/// The place of the word that a walk takes by the byte from a word that leads to a node, in a short
/// key: only a full node is jumped to, since a jump that is guessed wrong stops all walks.
#[inline]
fn place_in_short(word: u64, byte: u8) -> usize
    requires { is_node word ≡ true }
    ensures { result ≡ next_place word byte }
{
    // A single node is as a quad-range whose boundaries don't count.
    let (index, kind) = (index_of(word), kind_of(word));
    if kind == FULL {
        index + usize::from(byte)
    } else {
        index + usize::from(kind == QUAD) * boundaries_below(word, byte)
    }
}

/// The word at which a walk stands after one more byte of a key, long or not, if it is there. A
/// match stays, and the word that is taken is counted.
#[inline]
fn go_on<const THERE: bool, L: Ledger>(
    words: &[u64],
    word: u64,
    byte: u8,
    long: bool,
    taken: &mut u64,
    steps: &mut Steps<L>,
) -> u64
    requires node { THERE ≡ true → is_match word ≡ false → is_node word ≡ true }
    requires there { THERE ≡ true → is_match word ≡ false →
        next_place word byte < length words.now }
    requires few { taken.old ≤ 4 * max_key_len }
    ensures word { THERE ≡ true → result ≡ moved words.now word byte }
    ensures taken { taken.new ≡ taken.old + (if THERE && not (is_match word) then 1 else 0) }
    ensures steps { steps.new + taken.old ≡ steps.old + taken.new }
{
    if is_on_way::<THERE>(word) {
        *taken += 1;
        let place = if long {
            place_after(word, byte)
        } else {
            place_in_short(word, byte)
        };
        take_word(words, place, true, steps)
    } else {
        word
    }
}

/// The walks of two to four keys, which stand one after the other, through the trie, side by side:
/// writes the rows at which they ended, and says how many transitions they took together. Where
/// there are three keys or four is known.
///
/// All go by one count of places, and those that have ended stay. It is not inlined, so that its
/// loop has all registers, whatever stands around the call.
#[inline(never)]
pub(crate) fn walk_side_by_side<const THREE: bool, const FOUR: bool, L: Ledger>(
    table: &Table,
    trie: usize,
    keys: &[u8],
    count: usize,
    rows: &mut [u32],
    steps: &mut Steps<L>,
) -> u64
    requires trie { trie < length table.now.roots }
    requires keys { length keys.now ≡ count * table.now.key_len }
    requires three { FOUR ≡ true → THREE ≡ true }
    requires count { count ≡ (if FOUR then 4 else if THREE then 3 else 2) }
    requires room { 4 ≤ length rows.old }
    ensures rows { (k : ℕ) → k < count →
        EndsAt table.now trie (key_at table.now keys.now k) (slice_index rows.new k) }
    ensures taken { result ≡ walks_below table.now trie keys.now count }
    ensures limit { result ≤ count * max_key_len }
    ensures steps { steps.new ≡ steps.old + result }
{
    let words = table.words();
    let len = table.key_len();
    let places = table.places(trie);
    let of_first = begin_of::<true>(keys, 0, count, len);
    let of_second = begin_of::<true>(keys, 1, count, len);
    let of_third = begin_of::<THREE>(keys, 2, count, len);
    let of_fourth = begin_of::<FOUR>(keys, 3, count, len);
    let long = len > LONG;
    let root = table.root(trie);
    let (mut first, mut second, mut third, mut fourth) = (root, root, root, root);
    let (mut n, mut taken) = (0, 0);
    while is_one_on_way::<THREE, FOUR>(first, second, third, fourth) {
        let at = usize::from(places[n]);
        first = go_on::<true, L>(words, first, keys[of_first + at], long, &mut taken, steps);
        second = go_on::<true, L>(words, second, keys[of_second + at], long, &mut taken, steps);
        third = go_on::<THREE, L>(words, third, keys[of_third + at], long, &mut taken, steps);
        fourth = go_on::<FOUR, L>(words, fourth, keys[of_fourth + at], long, &mut taken, steps);
        n += 1;
    }
    rows[0] = index_of(first) as u32;
    rows[1] = index_of(second) as u32;
    rows[2] = index_of(third) as u32;
    rows[3] = index_of(fourth) as u32;
    taken
}
