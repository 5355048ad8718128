//! The walks that the lanes of a fleet are on: a number for each lane, in arrays that are read and
//! written four at a time, as vectors.
//!
//! In a turn all lanes take a word. One whose walk ended before takes what its fleet has for it.

ghost use Rattle.std.specs.Prelude.{◌≡◌, ℕ, ◌+◌, ◌*◌, ◌%◌, ◌^◌, ◌<◌, ◌≤◌, ◌⊎◌, length, true};
ghost use Rattle.std.specs.Prelude.{nat_lt, slice_index, if◌then◌else◌};
ghost use Rattle.std.specs.Int.{bit_at};
ghost use Rattle.flat_table.specs.Word.{is_node, next_place};
ghost use Rattle.scalar_walk.specs.Lanes.{ended, word_in};
ghost use Rattle.lane_walk.specs.Turn.{IsLanes};
ghost use Rattle.lane_walk.specs.Fleet.{GoesOn, IsAcross, StaysIn, over_bit, words_in};

use crate::fleet::Fleet;
use crate::flights::{AT_ONCE, words_at};
use scalar_walk::{four_of, halves_of, places_after, put_four};
use std::simd::u32x4;

/// The low half of the least word that ends a walk.
const ENDED: u32 = 0x8000_0000;

/// What the walks of `W` lanes stand at. A lane is empty where its word is a match.
#[derive(Clone, Copy)]
pub(crate) struct Walks<const W: usize> {
    /// The low halves of their words.
    pub(crate) lows: [u32; W],
    /// The high halves.
    pub(crate) highs: [u32; W],
    /// Where the bytes that are read next stand among those of all keys.
    pub(crate) ats: [u32; W],
    /// These bytes, which are read a turn ahead.
    pub(crate) bytes: [u32; W],
}

/// Four of the words, from one on.
#[inline]
fn four_words<const W: usize>(numbers: &[u64; W], first: usize) -> [u64; AT_ONCE]
    requires { first + AT_ONCE ≤ W }
    ensures { (k : ℕ) → k < AT_ONCE → slice_index result k ≡ slice_index numbers.now (first + k) }
{
    [
        numbers[first],
        numbers[first + 1],
        numbers[first + 2],
        numbers[first + 3],
    ]
}

/// Makes four of the words these, from one on.
#[inline]
fn put_words<const W: usize>(numbers: &mut [u64; W], first: usize, four: &[u64; AT_ONCE])
    requires { first + AT_ONCE ≤ W }
    ensures four { (k : ℕ) → k < AT_ONCE →
        slice_index numbers.new (first + k) ≡ slice_index four.now k }
    ensures others { (i : ℕ) → (i < first) ⊎ (first + AT_ONCE ≤ i) →
        slice_index numbers.new i ≡ slice_index numbers.old i }
    ensures len { length numbers.new ≡ W }
{
    numbers[first] = four[0];
    numbers[first + 1] = four[1];
    numbers[first + 2] = four[2];
    numbers[first + 3] = four[3];
}

/// The word of these halves.
#[inline]
pub(crate) fn word_of(low: u32, high: u32) -> u64
    ensures { result ≡ low + 2 ^ 32 * high }
{
    u64::from(low) + (u64::from(high) << 32)
}

/// The words of four lows and highs.
#[inline]
fn words_of(lows: u32x4, highs: u32x4) -> [u64; AT_ONCE]
    ensures { (k : ℕ) → k < AT_ONCE → slice_index result k ≡ word_in lows highs k }
{
    let (low, high) = (lows.to_array(), highs.to_array());
    [
        word_of(low[0], high[0]),
        word_of(low[1], high[1]),
        word_of(low[2], high[2]),
        word_of(low[3], high[3]),
    ]
}

/// The places, of which each that is above the last is the last instead.
#[inline]
fn below(places: u32x4, last: u32) -> [u32; AT_ONCE]
    ensures below { (k : ℕ) → k < AT_ONCE → slice_index result k ≤ last }
    ensures same { (k : ℕ) → k < AT_ONCE → slice_index places k ≤ last →
        slice_index result k ≡ slice_index places k }
{
    places.simd_min(u32x4::splat(last)).to_array()
}

/// The bytes at four places. Where a place is after the last one, it is the last byte.
#[inline]
fn bytes_at(bytes: &[u8], last: u32, ats: u32x4) -> u32x4
    requires { last < length bytes.now }
    ensures len { length result ≡ AT_ONCE }
    ensures bytes { (k : ℕ) → k < AT_ONCE → slice_index ats k ≤ last →
        slice_index result k ≡ slice_index bytes.now (slice_index ats k) }
{
    let at = below(ats, last);
    u32x4::from_array([
        bytes[at[0] as usize] as u32,
        bytes[at[1] as usize] as u32,
        bytes[at[2] as usize] as u32,
        bytes[at[3] as usize] as u32,
    ])
}

/// The low and the high halves of the words that four lanes take. Where the place of one is after
/// the last word, it is the last word.
#[inline]
fn words_after(words: &[u64], last: u32, lows: u32x4, highs: u32x4, bytes: u32x4) -> (u32x4, u32x4)
    requires { last < length words.now }
    ensures lows { length result.0 ≡ AT_ONCE }
    ensures highs { length result.1 ≡ AT_ONCE }
    ensures words { (k : ℕ) → k < AT_ONCE → is_node (word_in lows highs k) ≡ true →
        slice_index bytes k < 256 →
        next_place (word_in lows highs k) (slice_index bytes k) ≤ last →
        word_in result.0 result.1 k
        ≡ slice_index words.now (next_place (word_in lows highs k) (slice_index bytes k)) }
{
    let places = places_after(lows, highs, bytes);
    halves_of(&words_at(words, &below(places, last)))
}

/// Of each lane one of two numbers: the first one, if its walk has ended, as the low half of its
/// word says.
#[inline]
fn of_ended(lows: u32x4, first: u32x4, second: u32x4) -> u32x4
    ensures len { length result ≡ AT_ONCE }
    ensures lanes { (k : ℕ) → k < AT_ONCE → slice_index result k
        ≡ (if nat_lt (slice_index lows k) ended then slice_index second k
        else slice_index first k) }
    ensures small { (k : ℕ) → k < AT_ONCE → slice_index lows k < 2 ^ 32 }
{
    lows.simd_lt(u32x4::splat(ENDED)).select(second, first)
}

/// The places after four.
#[inline]
fn places_on(ats: u32x4) -> u32x4
    ensures len { length result ≡ AT_ONCE }
    ensures places { (k : ℕ) → k < AT_ONCE →
        slice_index result k ≡ (slice_index ats k + 1) % 2 ^ 32 }
{
    ats + u32x4::splat(1)
}

/// A bit for each of four low halves, the first one lowest: 1 where it is that of a match.
#[inline]
fn ends_in(lows: u32x4) -> u64
    ensures bits { (i : ℕ) → i < 4 → bit_at result i
        ≡ (if nat_lt (slice_index lows i) ended then 0 else 1) }
    ensures few { result < 2 ^ 4 }
    ensures small { (i : ℕ) → i < 4 → slice_index lows i < 2 ^ 32 }
{
    lows.simd_ge(u32x4::splat(ENDED)).to_bitmask()
}

impl<const W: usize> Walks<W> {
    /// The words.
    #[inline]
    pub(crate) fn words(&self) -> [u64; W]
        requires { IsLanes W }
        ensures { result ≡ words_in self.now }
    {
        let mut words = [0; W];
        for group in 0..W / AT_ONCE {
            let first = group * AT_ONCE;
            let four = words_of(four_of(&self.lows, first), four_of(&self.highs, first));
            put_words(&mut words, first, &four);
        }
        words
    }

    /// A bit for each lane, the first one lowest, which is 1 where the lane is empty.
    #[inline]
    pub(crate) fn ended(&self) -> u64
        requires { IsLanes W }
        ensures bits { (lane : ℕ) → lane < W → bit_at result lane
            ≡ over_bit (word_in self.now.lows self.now.highs lane) }
        ensures few { result < 2 ^ W }
    {
        let mut empty = 0;
        for group in 0..W / AT_ONCE {
            let first = group * AT_ONCE;
            empty += ends_in(four_of(&self.lows, first)) << first;
        }
        empty
    }

    /// Four lanes take their next words, from one on, or what the fleet has for them, where they
    /// were empty.
    #[inline]
    fn step(
        &mut self,
        words: &[u64],
        last: u32,
        keys: &[u8],
        last_byte: u32,
        fleet: &Fleet<W>,
        first: usize,
    )
        requires first { first + AT_ONCE ≤ W }
        requires last { last + 1 ≡ length words.now }
        requires last_byte { last_byte + 1 ≡ length keys.now }
        ensures steps { (k : ℕ) → k < AT_ONCE →
            GoesOn words.now keys.now fleet.now self.old self.new (first + k) }
        ensures others { (lane : ℕ) → (lane < first) ⊎ (first + AT_ONCE ≤ lane) →
            StaysIn self.old self.new lane }
    {
        let (lows, highs) = (four_of(&self.lows, first), four_of(&self.highs, first));
        let bytes = four_of(&self.bytes, first);
        let (low, high) = words_after(words, last, lows, highs, bytes);
        let (to_low, to_high) = halves_of(&four_words(&fleet.words, first));
        put_four(&mut self.lows, first, of_ended(lows, to_low, low));
        put_four(&mut self.highs, first, of_ended(lows, to_high, high));
        let after = places_on(four_of(&self.ats, first));
        let ats = of_ended(lows, four_of(&fleet.ats, first), after);
        put_four(&mut self.ats, first, ats);
        put_four(&mut self.bytes, first, bytes_at(keys, last_byte, ats));
    }

    /// All lanes take their next words, or what the fleet has for them, where they were empty.
    #[inline]
    pub(crate) fn step_all(
        &mut self,
        words: &[u64],
        last: u32,
        keys: &[u8],
        last_byte: u32,
        fleet: &Fleet<W>,
    )
        requires lanes { IsLanes W }
        requires last { last + 1 ≡ length words.now }
        requires last_byte { last_byte + 1 ≡ length keys.now }
        ensures { (lane : ℕ) → lane < W →
            GoesOn words.now keys.now fleet.now self.old self.new lane }
    {
        for group in 0..W / AT_ONCE {
            self.step(words, last, keys, last_byte, fleet, group * AT_ONCE);
        }
    }

    /// Four lanes take what the fleet has for them, from one on.
    #[inline]
    fn take(&mut self, keys: &[u8], last_byte: u32, fleet: &Fleet<W>, first: usize)
        requires first { first + AT_ONCE ≤ W }
        requires last_byte { last_byte + 1 ≡ length keys.now }
        ensures takes { (k : ℕ) → k < AT_ONCE →
            IsAcross keys.now fleet.now self.new (first + k) }
        ensures others { (lane : ℕ) → (lane < first) ⊎ (first + AT_ONCE ≤ lane) →
            StaysIn self.old self.new lane }
    {
        let (low, high) = halves_of(&four_words(&fleet.words, first));
        let ats = four_of(&fleet.ats, first);
        put_four(&mut self.lows, first, low);
        put_four(&mut self.highs, first, high);
        put_four(&mut self.ats, first, ats);
        put_four(&mut self.bytes, first, bytes_at(keys, last_byte, ats));
    }

    /// The walks that a fleet begins with.
    pub(crate) fn begin(keys: &[u8], last_byte: u32, fleet: &Fleet<W>) -> Walks<W>
        requires lanes { IsLanes W }
        requires last_byte { last_byte + 1 ≡ length keys.now }
        ensures { (lane : ℕ) → lane < W → IsAcross keys.now fleet.now result lane }
    {
        let mut walks = Walks {
            lows: [0; W],
            highs: [0; W],
            ats: [0; W],
            bytes: [0; W],
        };
        for group in 0..W / AT_ONCE {
            walks.take(keys, last_byte, fleet, group * AT_ONCE);
        }
        walks
    }
}
