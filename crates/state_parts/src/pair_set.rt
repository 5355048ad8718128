//! Pairs of numbers, each kept once, in the order in which they come.
//!
//! Pairs are found by buckets. A bucket names its last pair, and each pair the one before it in its
//! bucket, so a search goes from the last pair to the first.

ghost use Rattle.std.specs.Prelude.{◌≡◌, ◌<◌, ◌≤◌, ◌+◌, ◌-◌, ◌*◌, ◌%◌, ◌^◌, [], map};
ghost use Rattle.std.specs.Prelude.{length, take};
ghost use Rattle.std.specs.Prelude.{slice_index_or, IfOk, OnErr};
ghost use Rattle.state_parts.specs.Buckets.{bucket_of, tile_of, pair_in, no_pair, AreLinked};
ghost use Rattle.state_parts.specs.Buckets.{NoneFrom};
ghost use Rattle.state_parts.specs.Keys.{same_pair};

use crate::room::check_room;
use std::alloc::{AllocError, Global};
use std::marker::Model;

/// The fewest buckets of a table of some pairs, which is one tile.
const FEWEST: usize = 64;

/// How many buckets a tile has, and how many neighbouring numbers of each side its pairs have.
const TILE: u32 = 64;

/// An odd number of 64 bits whose products spread numbers that are near one another: 2^64 over the
/// golden ratio.
const SPREAD: u64 = 0x9e37_79b9_7f4a_7c15;

/// A pair, and the number of the pair before it in its bucket, or 0 where it is the first.
#[derive(Clone, Copy)]
pub(crate) struct Linked {
    left: u32,
    right: u32,
    before: u32,
}

/// The tile of that place, of so many tiles.
#[inline]
#[tactic(auto, unfolding(crate::specs::Buckets::tile_of))]
fn tile_of(place: (u32, u32), tiles: usize) -> usize
    requires { 0 < tiles }
    ensures tile { result ≡ tile_of place tiles }
    ensures within { result < tiles }
{
    let key = u64::from(place.0) * 0x1_0000_0000 + u64::from(place.1);
    let spread = key.wrapping_mul(SPREAD);
    (u128::from(spread) * tiles as u128 >> 64) as usize
}

/// Which of the buckets of its tile a pair has.
#[inline]
fn place_in_tile(pair: (u32, u32)) -> usize
    ensures place { result ≡ (pair.0 * 11 + pair.1) % 64 }
    ensures within { result < 64 }
{
    ((u64::from(pair.0) * 11 + u64::from(pair.1)) % u64::from(TILE)) as usize
}

/// The bucket of a pair. Pairs of near numbers have one tile, whose buckets lie side by side: they
/// are mostly sought one after the other, and are then in the cache.
#[inline]
#[tactic(auto, unfolding(crate::specs::Buckets::bucket_of))]
fn bucket_of(pair: (u32, u32), buckets: usize) -> usize
    requires { 64 ≤ buckets }
    ensures bucket { result ≡ bucket_of pair buckets }
    ensures within { result < buckets }
{
    let tile = tile_of((pair.0 / TILE, pair.1 / TILE), buckets / TILE as usize);
    tile * TILE as usize + place_in_tile(pair)
}

/// Whether it is that pair.
#[inline]
fn is_pair(linked: Linked, pair: (u32, u32)) -> bool
    ensures { result ≡ same_pair pair (linked.left, linked.right) }
{
    pair.0 == linked.left && pair.1 == linked.right
}

/// The number of the pair, which is its place plus 1, or 0 where it isn't there.
#[inline]
fn find_in(all: &[Linked], heads: &[u32], pair: (u32, u32)) -> u32
    requires { AreLinked all.now heads.now }
    ensures within { result ≤ length all.now }
    ensures there { 0 < result → pair_in (slice_index_or all.now (result - 1) no_pair) ≡ pair }
    ensures none { result ≡ 0 → NoneFrom all.now pair 0 }
{
    let mut number = heads[bucket_of(pair, heads.len())];
    while number > 0 {
        let linked = all[number as usize - 1];
        if is_pair(linked, pair) {
            return number;
        }
        number = linked.before;
    }
    0
}

/// Puts the pair at the place into its bucket, after those before it.
fn link(all: &mut [Linked], heads: &mut [u32], place: usize)
    requires place { place < length all.old }
    requires few { place + 1 < 2 ^ 32 }
    requires some { 64 ≤ length heads.old }
    requires before { AreLinked (take place all.old) heads.old }
    ensures linked { AreLinked (take (place + 1) all.new) heads.new }
    ensures same { map pair_in all.new ≡ map pair_in all.old }
    ensures heads { length heads.new ≡ length heads.old }
{
    let Linked { left, right, .. } = all[place];
    let bucket = bucket_of((left, right), heads.len());
    let before = heads[bucket];
    all[place] = Linked {
        left,
        right,
        before,
    };
    heads[bucket] = place as u32 + 1;
}

/// Puts the pairs into empty buckets, one after the other.
fn link_all(all: &mut [Linked], heads: &mut [u32])
    requires few { length all.old < 2 ^ 32 }
    requires empty { AreLinked [] heads.old }
    ensures linked { AreLinked all.new heads.new }
    ensures same { map pair_in all.new ≡ map pair_in all.old }
{
    for place in 0..all.len() {
        link(all, heads, place);
    }
}

/// Puts the pairs into more buckets, at least twice as many as pairs: what each bucket names then.
fn relink(alloc: Global, all: &mut [Linked]) -> Result<Vec<u32>, AllocError>
    requires few { length all.old < 2 ^ 32 }
    ensures linked { IfOk result (λ heads. AreLinked all.new heads.items) }
    ensures same { map pair_in all.new ≡ map pair_in all.old }
    ensures err { OnErr result (all.new ≡ all.old) }
{
    let mut heads = Vec::from_elem(alloc, 0, (2 * all.len()).max(FEWEST))?;
    link_all(all, heads.as_mut_slice());
    Ok(heads)
}

/// Pairs in the order in which they come. Contracts see the list of them.
#[derive(Drop)]
pub(crate) struct PairSet {
    alloc: Global,
    all: Vec<Linked>,
    /// The number of the last pair of each bucket, or 0.
    heads: Vec<u32>,
}

impl Model for PairSet {
    ghost use Rattle.std.specs.Prelude.{map};
    ghost use Rattle.state_parts.specs.Buckets.{PairSetView, pair_in, AreLinked};

    ghost Value = { PairSetView };

    ghost view = { λ p. record { keys = map pair_in p.all.items } };

    ghost invariant = { λ p. AreLinked p.all.items p.heads.items };
}

impl PairSet {
    ghost use Rattle.std.specs.Prelude.{◌≡◌, ◌<◌, ◌≤◌, ◌+◌, ◌-◌, ◌++◌, ◌∷◌, [], length};
    ghost use Rattle.std.specs.Prelude.{true, false, slice_index_or, OnOk, OnErr, IfOk};
    ghost use Rattle.std.specs.List.{list_any};
    ghost use Rattle.indexmap.specs.IndexSet.{insert_key};
    ghost use Rattle.state_parts.specs.Keys.{same_pair};

    /// No pairs, with room for so many. It takes the memory of that room.
    pub(crate) fn with_room(alloc: Global, count: usize) -> Result<Self, AllocError>
        ensures { IfOk result (λ pairs. pairs.keys ≡ []) }
    {
        let all = Vec::with_capacity(alloc, count)?;
        let heads = Vec::from_elem(alloc, 0, count.max(FEWEST))?;
        Ok(PairSet { alloc, all, heads })
    }

    /// How many pairs there are.
    pub(crate) fn len(&self) -> usize
        ensures { result ≡ length self.now.keys }
    {
        self.all.len()
    }

    /// The pair at a place.
    #[inline]
    pub(crate) fn at(&self, place: usize) -> (u32, u32)
        requires { place < length self.now.keys }
        ensures { result ≡ slice_index_or self.now.keys place (0, 0) }
    {
        let linked = self.all[place];
        (linked.left, linked.right)
    }

    /// The number of the pair, which is its place plus 1, or 0 where it isn't there.
    #[inline]
    fn find(&self, pair: (u32, u32)) -> u32
        ensures within { result ≤ length self.now.keys }
        ensures at { 0 < result → slice_index_or self.now.keys (result - 1) (0, 0) ≡ pair }
        ensures there { 0 < result → list_any (same_pair pair) self.now.keys ≡ true }
        ensures none { result ≡ 0 → list_any (same_pair pair) self.now.keys ≡ false }
    {
        find_in(self.all.as_slice(), self.heads.as_slice(), pair)
    }

    /// Puts a pair after the others, and gives its number. It takes memory for it, and where
    /// buckets are few for more of them.
    #[inline(never)]
    fn push(&mut self, pair: (u32, u32)) -> Result<u32, AllocError>
        ensures keys { OnOk result (self.new.keys ≡ self.old.keys ++ pair ∷ []) }
        ensures number { IfOk result (λ number. number ≡ length self.old.keys + 1) }
        ensures err { OnErr result (self.new.keys ≡ self.old.keys) }
    {
        check_room(self.alloc, self.all.len())?;
        if self.heads.len() <= self.all.len() {
            self.heads = relink(self.alloc, self.all.as_mut_slice())?;
        }
        let bucket = bucket_of(pair, self.heads.len());
        let number = self.all.len() as u32 + 1;
        let (left, right) = pair;
        let before = self.heads[bucket];
        self.all.push(Linked {
            left,
            right,
            before,
        })?;
        self.heads[bucket] = number;
        Ok(number)
    }

    /// The number of the pair, which is put after the others where it isn't there. Then it takes
    /// memory.
    pub(crate) fn insert(&mut self, pair: (u32, u32)) -> Result<u32, AllocError>
        ensures keys { OnOk result (self.new.keys ≡ insert_key same_pair self.old.keys pair) }
        ensures within { IfOk result
            (λ number. (0 < number) × (number ≤ length self.new.keys)) }
        ensures at { IfOk result
            (λ number. slice_index_or self.new.keys (number - 1) (0, 0) ≡ pair) }
        ensures err { OnErr result (self.new.keys ≡ self.old.keys) }
    {
        let number = self.find(pair);
        if number > 0 {
            return Ok(number);
        }
        let number = self.push(pair)?;
        Ok(number)
    }
}
