//! One step of four walks at once, by vectors of four lanes.
//!
//! A word is kept as two numbers of 32 bits, its low half with index and kind and its high half
//! with the boundaries. The place in a node is the sum of what its four boundaries count:
//!
//! ```text
//!     byte, four times     b       b       b       b
//!     less the boundaries  b - x0  b - x1  b - x2  b - x3      0 where that is below 0
//!     and at most          255     0       0       0           in a full node, where each x is 0
//!                          0       0       0       0           in a single node
//!                          1       1       1       1           in a quad-range
//! ```
//!
//! After DPDK's `lib/acl/acl_run_sse.h`, whose vectors have four lanes too.

ghost use Rattle.std.specs.Prelude.{◌≡◌, ℕ, ◌+◌, ◌-◌, ◌*◌, ◌/◌, ◌%◌, ◌<◌, ◌≤◌, ◌^◌, ◌==◌, true, length};
ghost use Rattle.std.specs.Prelude.{slice_index, All, min, if◌then◌else◌, nat_lt, ◌&&◌, false, ◌⊎◌};
ghost use Rattle.table_sizes.specs.Groups.{max_key_len};
ghost use Rattle.flat_table.specs.Word.{full, indexes, quad, is_node, next_place};
ghost use Rattle.scalar_walk.specs.Lanes.{IsEnded, IsGroupLen, counted, counts, ended, word_in};
ghost use Rattle.scalar_walk.specs.Lanes.{sum_below};
ghost use Rattle.scalar_walk.specs.Rows.{CanGoOn, CanTake, GoesOn, ReadsAt, Takes};

use crate::kinds::{FULL, QUAD};
use crate::words::take_word;
use flat_table::{INDEX_BITS, LOW_HALF, Steps};
use std::simd::{u8x16, u32x4, u64x2};
use std::sync::ledger::Ledger;

/// The bits of the index.
pub(crate) const INDEX_MASK: u32 = flat_table::INDEX_MASK as u32;

/// The low half of the least word that ends a walk.
pub(crate) const ENDED: u32 = 0x8000_0000;

/// The places of the first bytes of four groups of four, each four times.
#[inline]
fn first_places() -> u8x16
    ensures len { length result ≡ 16 }
    ensures places { (i k : ℕ) → i < 4 → k < 4 → slice_index result (4 * i + k) ≡ 4 * i }
{
    u8x16::from_array([0, 0, 0, 0, 4, 4, 4, 4, 8, 8, 8, 8, 12, 12, 12, 12])
}

/// Of each group of four bytes that of a place, four times.
#[inline]
fn bytes_in(groups: u8x16, place: usize) -> u8x16
    requires { place < 4 }
    ensures { (i k : ℕ) → i < 4 → k < 4 →
        slice_index result (4 * i + k) ≡ slice_index groups (4 * i + place) }
{
    groups.swizzle_dyn(first_places() + u8x16::splat(place as u8))
}

/// The bytes of four numbers, low byte first.
#[inline]
fn bytes_of(numbers: u32x4) -> u8x16
    ensures { (i k : ℕ) → i < 4 → k < 4 →
        slice_index result (4 * i + k) ≡ slice_index numbers i / 256 ^ k % 256 }
{
    numbers.to_le_bytes()
}

/// By how much each byte is above the other, and no more than a third says.
#[inline]
fn excess(bytes: u8x16, below: u8x16, most: u8x16) -> u8x16
    ensures { (i : ℕ) → i < 16 → slice_index result i
        ≡ min (slice_index bytes i - slice_index below i) (slice_index most i) }
{
    bytes.saturating_sub(below).simd_min(most)
}

/// The sums of four bytes each.
#[inline]
fn sums(bytes: u8x16) -> u32x4
    ensures len { length result ≡ 4 }
    ensures sums { (i : ℕ) → i < 4 → slice_index result i
        ≡ slice_index bytes (4 * i) + slice_index bytes (4 * i + 1)
        + slice_index bytes (4 * i + 2) + slice_index bytes (4 * i + 3) }
{
    bytes.dot4(u8x16::splat(1))
}

/// For each word how much each of its boundaries counts at most.
#[inline]
fn most_of(lows: u32x4) -> u32x4
    ensures { (i : ℕ) → i < 4 → slice_index result i
        ≡ (if slice_index lows i / 2 ^ 29 == full then 255
        else (if slice_index lows i / 2 ^ 29 == quad then 0x01010101 else 0)) }
{
    let kinds = lows >> u32x4::splat(INDEX_BITS);
    let none = u32x4::splat(0);
    let quad = kinds.simd_eq(u32x4::splat(QUAD));
    let full = kinds.simd_eq(u32x4::splat(FULL));
    quad.select(u32x4::splat(0x0101_0101), none) + full.select(u32x4::splat(0xFF), none)
}

/// The places of the words that four walks take by their bytes, each of which stands there four
/// times. A walk at a match has no such place, and gets any number.
#[inline]
fn next_places(lows: u32x4, highs: u32x4, bytes: u8x16) -> u32x4
    requires { (i k : ℕ) → i < 4 → k < 4 →
        slice_index bytes (4 * i + k) ≡ slice_index bytes (4 * i) }
    ensures len { length result ≡ 4 }
    ensures places { (i : ℕ) → i < 4 → is_node (word_in lows highs i) ≡ true →
        slice_index result i ≡ next_place (word_in lows highs i) (slice_index bytes (4 * i)) }
{
    let above = excess(bytes, bytes_of(highs), bytes_of(most_of(lows)));
    (lows & u32x4::splat(INDEX_MASK)) + sums(above)
}

/// Whether the word that a lane takes is counted: the lane has a key of its own, and the low half
/// of its word is none of a match.
#[inline]
fn is_counted(low: u32, lane: usize, own: usize) -> bool
    ensures { result ≡ (nat_lt lane own && nat_lt low ended) }
{
    lane < own && low < ENDED
}

/// The low and the high halves of the words at four places, which four lanes take from words with
/// these low halves. So many lanes have keys of their own.
#[inline]
fn fetch<L: Ledger>(
    words: &[u64],
    at: &[u32; 4],
    from: &[u32; 4],
    own: usize,
    steps: &mut Steps<L>,
) -> (u32x4, u32x4)
    requires { All (λ place. place < length words.now) at.now }
    ensures lows { length result.0 ≡ 4 }
    ensures highs { length result.1 ≡ 4 }
    ensures words { (i : ℕ) → i < 4 → word_in result.0 result.1 i
        ≡ slice_index words.now (slice_index at.now i) }
    ensures steps { steps.new ≡ steps.old + (counts from.now own 0 + counts from.now own 1
        + counts from.now own 2 + counts from.now own 3) }
{
    let one = take_word(words, at[0] as usize, is_counted(from[0], 0, own), steps);
    let two = take_word(words, at[1] as usize, is_counted(from[1], 1, own), steps);
    let three = take_word(words, at[2] as usize, is_counted(from[2], 2, own), steps);
    let four = take_word(words, at[3] as usize, is_counted(from[3], 3, own), steps);
    let first = u32x4::from_le_bytes(u64x2::from_array([one, two]).to_le_bytes());
    let second = u32x4::from_le_bytes(u64x2::from_array([three, four]).to_le_bytes());
    first.deinterleave(second)
}

/// The low and the high halves of four words.
///
/// It refuses nothing and takes no memory.
#[inline]
pub fn halves_of(words: &[u64; 4]) -> (u32x4, u32x4)
    ensures lows { length result.0 ≡ 4 }
    ensures highs { length result.1 ≡ 4 }
    ensures words { (i : ℕ) → i < 4 →
        word_in result.0 result.1 i ≡ slice_index words.now i }
{
    let first = u64x2::from_array([words[0], words[1]]);
    let second = u64x2::from_array([words[2], words[3]]);
    let first = u32x4::from_le_bytes(first.to_le_bytes());
    let second = u32x4::from_le_bytes(second.to_le_bytes());
    first.deinterleave(second)
}

/// Each of four bytes four times.
#[inline]
fn spread(bytes: &[u8; 4]) -> u8x16
    ensures { (i k : ℕ) → i < 4 → k < 4 →
        slice_index result (4 * i + k) ≡ slice_index bytes.now i }
{
    let numbers = u32x4::from_array([
        u32::from(bytes[0]),
        u32::from(bytes[1]),
        u32::from(bytes[2]),
        u32::from(bytes[3]),
    ]);
    bytes_in(bytes_of(numbers), 0)
}

/// The places of the words that four walks take by their bytes from the halves of their words. A
/// walk whose word leads to no node has no such place, and gets any number.
///
/// It refuses nothing and takes no memory.
#[inline]
pub fn places_after(lows: u32x4, highs: u32x4, bytes: u32x4) -> u32x4
    ensures len { length result ≡ 4 }
    ensures places { (i : ℕ) → i < 4 → is_node (word_in lows highs i) ≡ true →
        slice_index bytes i < 256 →
        slice_index result i ≡ next_place (word_in lows highs i) (slice_index bytes i) }
{
    next_places(lows, highs, bytes_in(bytes_of(bytes), 0))
}

/// The places of the words that four walks take by their bytes from their words, worked out at
/// once. A walk whose word leads to no node has no such place, and gets any number.
///
/// It refuses nothing and takes no memory.
#[inline]
pub fn four_places(words: &[u64; 4], bytes: &[u8; 4]) -> [u32; 4]
    ensures { (i : ℕ) → i < 4 → is_node (slice_index words.now i) ≡ true →
        slice_index result i
        ≡ next_place (slice_index words.now i) (slice_index bytes.now i) }
{
    let (lows, highs) = halves_of(words);
    next_places(lows, highs, spread(bytes)).to_array()
}

/// Four of the numbers, from one on.
///
/// It refuses nothing and takes no memory.
#[inline]
pub fn four_of<const W: usize>(numbers: &[u32; W], first: usize) -> u32x4
    requires { first + 4 ≤ W }
    ensures len { length result ≡ 4 }
    ensures four { (k : ℕ) → k < 4 → slice_index result k ≡ slice_index numbers.now (first + k) }
{
    let numbers = &numbers[..];
    u32x4::from_slice(&numbers[first..])
}

/// Makes four of the numbers these, from one on.
///
/// It refuses nothing and takes no memory.
#[inline]
pub fn put_four<const W: usize>(numbers: &mut [u32; W], first: usize, four: u32x4)
    requires { first + 4 ≤ W }
    ensures four { (k : ℕ) → k < 4 → slice_index numbers.new (first + k) ≡ slice_index four k }
    ensures small { (k : ℕ) → k < 4 → slice_index numbers.new (first + k) < 2 ^ 32 }
    ensures others { (i : ℕ) → (i < first) ⊎ (first + 4 ≤ i) →
        slice_index numbers.new i ≡ slice_index numbers.old i }
{
    let numbers = &mut numbers[..];
    four.copy_to_slice(&mut numbers[first..]);
}

/// Four walks: the halves of the words at which they stand, and how many words each has taken.
#[derive(Clone, Copy)]
pub(crate) struct Four {
    pub(crate) lows: u32x4,
    pub(crate) highs: u32x4,
    pub(crate) taken: u32x4,
}

/// Four walks that begin at the root.
#[inline]
pub(crate) fn begin(root: u64) -> Four
    ensures words { (i : ℕ) → i < 4 → word_in result.lows result.highs i ≡ root }
    ensures taken { (i : ℕ) → i < 4 → slice_index result.taken i ≡ 0 }
{
    Four {
        lows: u32x4::splat((root & LOW_HALF) as u32),
        highs: u32x4::splat((root >> 32) as u32),
        taken: u32x4::splat(0),
    }
}

/// The number that four bytes from a place on make, low byte first.
#[inline]
fn four_bytes(keys: &[u8], at: usize) -> u32
    requires { at + 4 ≤ length keys.now }
    ensures { (k : ℕ) → k < 4 → result / 256 ^ k % 256 ≡ slice_index keys.now (at + k) }
{
    u32::from_le_bytes([keys[at], keys[at + 1], keys[at + 2], keys[at + 3]])
}

/// Four bytes of each of four keys, from a place of the key on. The keys begin at these places.
#[inline]
fn whole_groups(keys: &[u8], begins: &[usize; 4], from: usize) -> u8x16
    requires { (i : ℕ) → i < 4 → slice_index begins.now i + from + 4 ≤ length keys.now }
    ensures { (i k : ℕ) → i < 4 → k < 4 →
        slice_index result (4 * i + k)
        ≡ slice_index keys.now (slice_index begins.now i + from + k) }
{
    bytes_of(u32x4::from_array([
        four_bytes(keys, begins[0] + from),
        four_bytes(keys, begins[1] + from),
        four_bytes(keys, begins[2] + from),
        four_bytes(keys, begins[3] + from),
    ]))
}

/// The byte at a place of each of four keys, as the first of a group. The keys begin at these
/// places.
#[inline]
fn single_bytes(keys: &[u8], begins: &[usize; 4], from: usize) -> u8x16
    requires { (i : ℕ) → i < 4 → slice_index begins.now i + from < length keys.now }
    ensures { (i k : ℕ) → i < 4 → k < 1 →
        slice_index result (4 * i + k)
        ≡ slice_index keys.now (slice_index begins.now i + from + k) }
{
    bytes_of(u32x4::from_array([
        u32::from(keys[begins[0] + from]),
        u32::from(keys[begins[1] + from]),
        u32::from(keys[begins[2] + from]),
        u32::from(keys[begins[3] + from]),
    ]))
}

/// So many bytes, one or four, of each of four keys, from a place of the key on. The keys begin at
/// these places.
#[inline]
pub(crate) fn groups_at(keys: &[u8], begins: &[usize; 4], from: usize, count: usize) -> u8x16
    requires count { IsGroupLen count }
    requires keys { (i : ℕ) → i < 4 → slice_index begins.now i + from + count ≤ length keys.now }
    ensures { (i k : ℕ) → i < 4 → k < count →
        slice_index result (4 * i + k)
        ≡ slice_index keys.now (slice_index begins.now i + from + k) }
{
    if count == 4 {
        whole_groups(keys, begins, from)
    } else {
        single_bytes(keys, begins, from)
    }
}

/// Where the words stand that four walks take next, by their bytes, each of which stands there four
/// times. A walk that has ended reads word 0, which is then left out.
#[inline]
fn ahead(lows: u32x4, highs: u32x4, bytes: u8x16) -> [u32; 4]
    requires { (i k : ℕ) → i < 4 → k < 4 →
        slice_index bytes (4 * i + k) ≡ slice_index bytes (4 * i) }
    ensures { (i : ℕ) → i < 4 →
        ReadsAt (word_in lows highs i) (slice_index bytes (4 * i)) (slice_index result i) }
{
    let on_way = lows.simd_lt(u32x4::splat(ENDED));
    on_way
        .select(next_places(lows, highs, bytes), u32x4::splat(0))
        .to_array()
}

/// Where four walks read their next words, by the bytes at a place of their groups.
#[inline]
pub(crate) fn reads_at(walks: Four, groups: u8x16, place: usize) -> [u32; 4]
    requires { place < 4 }
    ensures { (i : ℕ) → i < 4 → ReadsAt (word_in walks.lows walks.highs i)
        (slice_index groups (4 * i + place)) (slice_index result i) }
{
    ahead(walks.lows, walks.highs, bytes_in(groups, place))
}

/// Four walks, given by their vectors, once each has taken the word at its place: one that has
/// ended stays. So many of the walks are counted.
#[inline]
fn arrive<L: Ledger>(
    words: &[u64],
    lows: u32x4,
    highs: u32x4,
    taken: u32x4,
    at: &[u32; 4],
    own: usize,
    steps: &mut Steps<L>,
) -> Four
    requires { (i : ℕ) → i < 4 → CanTake words.now (word_in lows highs i)
        (slice_index at.now i) (slice_index taken i) }
    ensures walks { (i : ℕ) → i < 4 → Takes words.now (word_in lows highs i)
        (slice_index at.now i) (word_in result.lows result.highs i) (slice_index taken i)
        (slice_index result.taken i) }
    ensures steps { steps.new + counted taken own ≡ steps.old + counted result.taken own }
{
    let on_way = lows.simd_lt(u32x4::splat(ENDED));
    let (next_lows, next_highs) = fetch(words, at, &lows.to_array(), own, steps);
    Four {
        lows: on_way.select(next_lows, lows),
        highs: on_way.select(next_highs, highs),
        taken: taken + on_way.select(u32x4::splat(1), u32x4::splat(0)),
    }
}

/// Four walks once each has taken the word at its place: one that has ended stays. So many of them
/// are counted.
#[inline]
pub(crate) fn take<L: Ledger>(
    words: &[u64],
    walks: Four,
    at: &[u32; 4],
    own: usize,
    steps: &mut Steps<L>,
) -> Four
    requires { (i : ℕ) → i < 4 → CanTake words.now (word_in walks.lows walks.highs i)
        (slice_index at.now i) (slice_index walks.taken i) }
    ensures walks { (i : ℕ) → i < 4 → Takes words.now (word_in walks.lows walks.highs i)
        (slice_index at.now i) (word_in result.lows result.highs i) (slice_index walks.taken i)
        (slice_index result.taken i) }
    ensures steps { steps.new + counted walks.taken own ≡ steps.old + counted result.taken own }
{
    arrive(words, walks.lows, walks.highs, walks.taken, at, own, steps)
}

/// Four walks after the bytes at a place of their groups: one that has ended stays. So many of them
/// are counted.
#[inline]
pub(crate) fn step<L: Ledger>(
    words: &[u64],
    walks: Four,
    groups: u8x16,
    place: usize,
    own: usize,
    steps: &mut Steps<L>,
) -> Four
    requires place { place < 4 }
    requires ready { (i : ℕ) → i < 4 → CanGoOn words.now (word_in walks.lows walks.highs i)
        (slice_index groups (4 * i + place)) (slice_index walks.taken i) }
    ensures walks { (i : ℕ) → i < 4 → GoesOn words.now (word_in walks.lows walks.highs i)
        (slice_index groups (4 * i + place)) (word_in result.lows result.highs i)
        (slice_index walks.taken i) (slice_index result.taken i) }
    ensures steps { steps.new + counted walks.taken own ≡ steps.old + counted result.taken own }
{
    let at = reads_at(walks, groups, place);
    take(words, walks, &at, own, steps)
}

/// Whether one of four walks is on its way.
#[inline]
pub(crate) fn is_one_on_way(walks: Four) -> bool
    ensures { result ≡ false → (i : ℕ) → i < 4 → IsEnded (slice_index walks.lows i) }
{
    walks.lows.simd_lt(u32x4::splat(ENDED)).to_bitmask() != 0
}

/// Writes the rows that four walks name, from a place on.
#[inline]
pub(crate) fn write_ends(walks: Four, rows: &mut [u32], at: usize)
    requires room { at + 4 ≤ length rows.old }
    ensures len { length rows.new ≡ length rows.old }
    ensures rows { (i : ℕ) → i < 4 →
        slice_index rows.new (at + i) ≡ slice_index walks.lows i % indexes }
    ensures others { (k : ℕ) → k < at → slice_index rows.new k ≡ slice_index rows.old k }
{
    let lows = walks.lows.to_array();
    for i in 0..4 {
        rows[at + i] = lows[i] & INDEX_MASK;
    }
}

/// How many words the first of four walks took together.
#[inline]
pub(crate) fn words_taken(walks: Four, count: usize) -> u64
    requires within { count ≤ 4 }
    requires few { (i : ℕ) → i < count → slice_index walks.taken i ≤ max_key_len }
    ensures taken { result ≡ sum_below (λ i. slice_index walks.taken i) count }
    ensures limit { result ≤ count * max_key_len }
{
    let counts = walks.taken.to_array();
    let mut taken = 0;
    for i in 0..count {
        taken += u64::from(counts[i]);
    }
    taken
}
