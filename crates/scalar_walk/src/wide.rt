//! Up to sixty-four walks through one trie, in step, which close ranks as walks end.
//!
//! A lane whose walk has ended would be stepped in vain. So once a quarter has ended, they write
//! their rows, and those on their way take the first lanes. Only the fours with these are stepped:
//!
//! ```text
//!     on their way, or ended     a . b c . . d e f g . h
//!     ranks closed               a b c d e f g h
//! ```

ghost use Rattle.std.specs.Prelude.{◌≡◌, ℕ, ◌+◌, ◌-◌, ◌*◌, ◌^◌, ◌<◌, ◌≤◌, length, slice_index};
ghost use Rattle.std.specs.Prelude.{nat_lt, if◌then◌else◌};
ghost use Rattle.table_sizes.specs.Groups.{max_key_len};
ghost use Rattle.flat_table.specs.Word.{is_match};
ghost use Rattle.flat_table.specs.Batch.{key_at};
ghost use Rattle.scalar_walk.specs.Lanes.{HasRoom, IsGroupLen, ended, lane_key, sum_below, word_in};
ghost use Rattle.scalar_walk.specs.Rows.{CanTake, EndsAt, ReadsAt, walks_below};
ghost use Rattle.scalar_walk.specs.Wide.{AreClosed, AreWritten, HasWalk, HaveLanes};
ghost use Rattle.scalar_walk.specs.Wide.{going, in_four, number_of, together, word_of};

use crate::in_step::{group_len, walk_some};
use crate::vectors::{ENDED, Four, INDEX_MASK, four_of, groups_at, put_four, reads_at, take};
use flat_table::laws::walks_stay;
use flat_table::{LOW_HALF, Steps, Table};
use std::simd::{u8x16, u32x4};
use std::sync::ledger::Ledger;

/// How many keys are walked at once at most.
pub(crate) const WIDE: usize = 64;

/// How many fours of lanes they take.
const FOURS: usize = 16;

/// Up to sixty-four walks, each in a lane. A lane with none stands at a word that ends a walk.
#[derive(Drop)]
struct Lanes {
    /// The low halves of the words at which they stand.
    lows: [u32; WIDE],
    /// The high halves.
    highs: [u32; WIDE],
    /// The numbers of their keys.
    keys: [u32; WIDE],
}

impl Lanes {
    /// Lanes without walks.
    #[inline]
    fn none() -> Self
        ensures lows { (j : ℕ) → j < WIDE → slice_index result.lows j ≡ ended }
        ensures highs { (j : ℕ) → j < WIDE → slice_index result.highs j ≡ 0 }
    {
        Lanes {
            lows: [ENDED; WIDE],
            highs: [0; WIDE],
            keys: [0; WIDE],
        }
    }

    /// So many lanes begin at the root, each with the key of its own number. The others have the
    /// last key, and stay where they are.
    #[inline]
    fn begin(&mut self, root: u64, count: usize)
        requires { HaveLanes count }
        ensures words { (j : ℕ) → j < count → word_of self.new j ≡ root }
        ensures small { (j : ℕ) → j < count → slice_index self.new.lows j < 2 ^ 32 }
        ensures lows { (j : ℕ) → count ≤ j →
            slice_index self.new.lows j ≡ slice_index self.old.lows j }
        ensures highs { (j : ℕ) → count ≤ j →
            slice_index self.new.highs j ≡ slice_index self.old.highs j }
        ensures keys { (j : ℕ) → j < WIDE → number_of self.new j ≡ lane_key count j }
    {
        let (low, high) = ((root & LOW_HALF) as u32, (root >> 32) as u32);
        for lane in 0..count {
            self.lows[lane] = low;
            self.highs[lane] = high;
        }
        let last = (count - 1) as u32;
        for lane in 0..WIDE {
            self.keys[lane] = last.min(lane as u32);
        }
    }

    /// Reads for the first fours, so many, one or four bytes of each lane's key, from a place on.
    #[inline]
    fn read(
        &self,
        fours: usize,
        keys: &[u8],
        len: usize,
        from: usize,
        count: usize,
        groups: &mut [u8x16; FOURS],
    )
        requires fours { fours ≤ FOURS }
        requires count { IsGroupLen count }
        requires keys { (j : ℕ) → j < 4 * fours →
            number_of self.now j * len + from + count ≤ length keys.now }
        ensures { (f i k : ℕ) → f < fours → i < 4 → k < count →
            in_four groups.new f (4 * i + k)
            ≡ slice_index keys.now (number_of self.now (4 * f + i) * len + from + k) }
    {
        for four in 0..fours {
            let first = 4 * four;
            let begins = [
                self.keys[first] as usize * len,
                self.keys[first + 1] as usize * len,
                self.keys[first + 2] as usize * len,
                self.keys[first + 3] as usize * len,
            ];
            groups[four] = groups_at(keys, &begins, from, count);
        }
    }

    /// Where the lanes of the first fours, so many, read their next words, by the bytes at a place
    /// of their groups.
    ///
    /// All say so before the first of them reads: nothing stands between the loads then, so that
    /// more of them are on their way at once.
    #[inline]
    fn aim(&self, fours: usize, groups: &[u8x16; FOURS], place: usize, at: &mut [[u32; 4]; FOURS])
        requires fours { fours ≤ FOURS }
        requires place { place < 4 }
        ensures { (f i : ℕ) → f < fours → i < 4 → ReadsAt (word_of self.now (4 * f + i))
            (in_four groups.now f (4 * i + place)) (in_four at.new f i) }
    {
        for four in 0..fours {
            let walks = self.four(four, u32x4::splat(0));
            at[four] = reads_at(walks, groups[four], place);
        }
    }

    /// The walks of a four, with counts of words.
    #[inline]
    fn four(&self, four: usize, taken: u32x4) -> Four
        requires { four < FOURS }
        ensures words { (i : ℕ) → i < 4 →
            word_in result.lows result.highs i ≡ word_of self.now (4 * four + i) }
        ensures taken { result.taken ≡ taken }
    {
        let first = 4 * four;
        Four {
            lows: four_of(&self.lows, first),
            highs: four_of(&self.highs, first),
            taken,
        }
    }

    /// Each lane of the first fours, so many, takes the word at its place: one that has ended
    /// stays. What they took is counted in four numbers.
    #[inline]
    fn take<L: Ledger>(
        &mut self,
        words: &[u64],
        fours: usize,
        at: &[[u32; 4]; FOURS],
        taken: u32x4,
        steps: &mut Steps<L>,
    ) -> u32x4
        requires fours { fours ≤ FOURS }
        requires ready { (f i : ℕ) → f < fours → i < 4 →
            CanTake words.now (word_of self.old (4 * f + i)) (in_four at.now f i) 0 }
        requires few { (i : ℕ) → i < 4 → slice_index taken i < 2 ^ 16 }
        ensures words { (f i : ℕ) → f < fours → i < 4 → word_of self.new (4 * f + i)
            ≡ (if is_match (word_of self.old (4 * f + i)) then word_of self.old (4 * f + i)
            else slice_index words.now (in_four at.now f i)) }
        ensures small { (j : ℕ) → j < 4 * fours → slice_index self.new.lows j < 2 ^ 32 }
        ensures others { (j : ℕ) → 4 * fours ≤ j → HasWalk self.old j self.new j }
        ensures keys { self.new.keys ≡ self.old.keys }
        ensures taken { together result ≡ together taken + going self.old (4 * fours) }
        ensures few { (i : ℕ) → i < 4 → slice_index result i ≤ slice_index taken i + fours }
        ensures steps { steps.new ≡ steps.old + going self.old (4 * fours) }
    {
        let mut taken = taken;
        for four in 0..fours {
            let next = take(words, self.four(four, taken), &at[four], 4, steps);
            put_four(&mut self.lows, 4 * four, next.lows);
            put_four(&mut self.highs, 4 * four, next.highs);
            taken = next.taken;
        }
        taken
    }

    /// How many of the first lanes, so many, have ended.
    #[inline]
    fn ended(&self, left: usize) -> u32
        requires { left ≤ WIDE }
        ensures value { result ≡ sum_below
            (λ j. if nat_lt (slice_index self.now.lows j) ended then 0 else 1) left }
        ensures within { result ≤ left }
    {
        let mut count = 0;
        for lane in 0..left {
            count += u32::from(self.lows[lane] >= ENDED);
        }
        count
    }

    /// Of the first lanes, so many, those on their way take the first places, and it says how many
    /// these are. The others are empty then.
    ///
    /// Each writes the row that its word names, at the number of its key. If its walk hasn't ended,
    /// a later one takes the place of that: to write both costs less than a branch.
    fn close_ranks(&mut self, left: usize, rows: &mut [u32]) -> usize
        requires left { left ≤ WIDE }
        requires room { length rows.old ≡ WIDE }
        requires keys { (j : ℕ) → j < left → number_of self.old j < WIDE }
        ensures closed { AreClosed self.old self.new left result rows.old rows.new }
        ensures over { (j : ℕ) → result ≤ j → j < left → slice_index self.new.lows j ≡ ended }
    {
        let mut kept = 0;
        for lane in 0..left {
            let (low, key) = (self.lows[lane], self.keys[lane]);
            rows[key as usize] = low & INDEX_MASK;
            self.lows[kept] = low;
            self.highs[kept] = self.highs[lane];
            self.keys[kept] = key;
            kept += usize::from(low < ENDED);
        }
        for lane in kept..left {
            self.lows[lane] = ENDED;
        }
        kept
    }

    /// Writes for each of the first lanes, so many, the row that its word names, at the number of
    /// its key.
    fn write_rows(&self, left: usize, rows: &mut [u32])
        requires left { left ≤ WIDE }
        requires room { length rows.old ≡ WIDE }
        requires keys { (j : ℕ) → j < left → number_of self.now j < WIDE }
        ensures { AreWritten self.now left rows.old rows.new }
    {
        for lane in 0..left {
            rows[self.keys[lane] as usize] = self.lows[lane] & INDEX_MASK;
        }
    }
}

/// What four numbers are together.
#[inline]
fn sum_of(numbers: u32x4) -> u64
    ensures { result ≡ together numbers }
{
    let [one, two, three, four] = numbers.to_array();
    u64::from(one) + u64::from(two) + u64::from(three) + u64::from(four)
}

/// The walks of so many keys, which stand one after the other, through the trie: writes the rows at
/// which they ended, and says how many transitions they took together.
///
/// No place is read once all walks have ended.
#[inline(never)]
fn walk_wide<L: Ledger>(
    table: &Table,
    trie: usize,
    keys: &[u8],
    count: usize,
    rows: &mut [u32],
    steps: &mut Steps<L>,
) -> u64
    requires trie { trie < length table.now.roots }
    requires keys { length keys.now ≡ count * table.now.key_len }
    requires lanes { HaveLanes count }
    requires room { length rows.old ≡ WIDE }
    ensures rows { (k : ℕ) → k < count →
        EndsAt table.now trie (key_at table.now keys.now k) (slice_index rows.new k) }
    ensures taken { result ≡ walks_below table.now trie keys.now count }
    ensures limit { result ≤ count * max_key_len }
    ensures steps { steps.new ≡ steps.old + result }
{
    walks_stay();
    let (words, places, len) = (table.words(), table.places(trie), table.key_len());
    let mut lanes = Lanes::none();
    lanes.begin(table.root(trie), count);
    let (mut groups, mut at) = ([u8x16::splat(0); FOURS], [[0; 4]; FOURS]);
    let (mut left, mut n, mut taken) = (count, 0, u32x4::splat(0));
    while n < places.len() && left > 0 {
        let from = usize::from(places[n]);
        let (read, fours) = (group_len(places, n), left.div_ceil(4));
        lanes.read(fours, keys, len, from, read, &mut groups);
        for place in 0..read {
            lanes.aim(fours, &groups, place, &mut at);
            taken = lanes.take(words, fours, &at, taken, steps);
        }
        n += read;
        if 4 * lanes.ended(left) as usize >= left {
            left = lanes.close_ranks(left, rows);
        }
    }
    lanes.write_rows(left, rows);
    sum_of(taken)
}

/// The walks of so many keys, which stand one after the other, through the trie: all at once where
/// there is room for sixty-four, and else up to sixteen. It writes the rows at which they ended,
/// and says how many transitions they took together.
#[inline]
pub(crate) fn walk_keys<const ROOM: usize, L: Ledger>(
    table: &Table,
    trie: usize,
    keys: &[u8],
    count: usize,
    rows: &mut [u32; ROOM],
    steps: &mut Steps<L>,
) -> u64
    requires trie { trie < length table.now.roots }
    requires keys { length keys.now ≡ count * table.now.key_len }
    requires some { 0 < count }
    requires lanes { HasRoom ROOM count }
    ensures rows { (k : ℕ) → k < count →
        EndsAt table.now trie (key_at table.now keys.now k) (slice_index rows.new k) }
    ensures taken { result ≡ walks_below table.now trie keys.now count }
    ensures limit { result ≤ count * max_key_len }
    ensures steps { steps.new ≡ steps.old + result }
{
    if ROOM == WIDE {
        walk_wide(table, trie, keys, count, rows, steps)
    } else {
        walk_some(table, trie, keys, count, rows, steps)
    }
}
