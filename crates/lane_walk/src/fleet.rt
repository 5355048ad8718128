//! Lanes over a table of one trie whose places stand one after the other: which keys they walk, and
//! what empty ones take in a turn.
//!
//! A lane whose walk ended keeps its word, and notes the row that it names when it takes its next
//! key. The words stand in `Walks`.

ghost use Rattle.std.specs.Prelude.{◌≡◌, ℕ, ◌+◌, ◌*◌, ◌/◌, ◌%◌, ◌^◌, ◌<◌, ◌≤◌, ◌⊎◌, length, true};
ghost use Rattle.std.specs.Prelude.{nat_le, slice_index, ◌&&◌, min};
ghost use Rattle.std.specs.List.{list_all};
ghost use Rattle.table_sizes.specs.Groups.{max_key_len};
ghost use Rattle.table_sizes.specs.Sizes.{max_keys};
ghost use Rattle.flat_table.specs.Batch.{keys_in};
ghost use Rattle.flat_table.specs.Table.{places_of};
ghost use Rattle.flat_table.specs.Word.{is_match};
ghost use Rattle.flow_core.specs.Standing.{BatchFits};
ghost use Rattle.lane_walk.specs.Turn.{IsLanes};
ghost use Rattle.lane_walk.specs.Fleet.{IsCourse, IsStraight, SettledTo, SettlesLane, IsBegun};
ghost use Rattle.lane_walk.specs.Fleet.{HasByte, NotesLast, TurnsAll, fleet_of, set_below, set_out};
ghost use Rattle.lane_walk.specs.Fleet.{words_in, words_of};

use crate::walks::{Walks, word_of};
use flat_table::{INDEX_BITS, MATCH, Table, is_match};
use flow_core::Scratch;
use flow_core::laws::stay_in;

/// What lanes go by over a table and keys.
#[derive(Clone, Copy)]
pub(crate) struct Course {
    /// How many jobs there are: one for each key.
    pub(crate) jobs: usize,
    /// How many bytes a key has.
    pub(crate) len: usize,
    /// The place of the byte of a key that a walk reads first.
    pub(crate) first: usize,
    /// The word that a walk begins with.
    pub(crate) root: u64,
}

/// The keys of the lanes of a flow machine of `W` slots, 4, 8 or 16, and what lanes take that were
/// empty before a turn.
#[derive(Drop)]
pub(crate) struct Fleet<const W: usize> {
    /// What they go by.
    pub(crate) course: Course,
    /// How many jobs were given out.
    pub(crate) given: usize,
    /// The words that empty lanes take.
    pub(crate) words: [u64; W],
    /// Where the bytes that these read then stand among those of all keys.
    pub(crate) ats: [u32; W],
    /// The keys that are walked, or were last, by their numbers.
    pub(crate) keys: [usize; W],
}

/// Whether the places stand one after the other.
fn are_straight(places: &[u16]) -> bool
    ensures { result ≡ true → IsStraight places.now }
{
    for depth in 1..places.len() {
        if usize::from(places[depth]) != usize::from(places[0]) + depth {
            return false;
        }
    }
    true
}

/// Whether the places of the table's first trie do.
pub(crate) fn is_straight(table: &Table) -> bool
    requires { 0 < length table.now.roots }
    ensures { result ≡ true → IsStraight (places_of table.now 0) }
{
    are_straight(table.places(0))
}

/// The first of the places, or 0 where there is none.
fn first_of(places: &[u16]) -> usize
    ensures value { result ≡ slice_index places.now 0 }
    ensures near { result < 2 ^ 16 }
{
    match places.first() {
        Some(place) => usize::from(*place),
        None => 0,
    }
}

/// Whether each word is a match.
fn are_matches(words: &[u64]) -> bool
    ensures { result ≡ list_all is_match words.now }
{
    words.iter().all(|word| is_match(*word))
}

/// Whether so many have a last one, and its number has 32 bits.
fn have_last(count: usize) -> bool
    ensures { result ≡ true → (0 < count) × (count < 2 ^ 32) }
{
    0 < count && count < 1 << 32
}

impl<const W: usize> Fleet<W> {
    /// Each of the first lanes walks the key of its own number. The others are empty.
    pub(crate) fn begin(course: Course) -> Fleet<W>
        requires jobs { course.jobs ≤ max_keys }
        requires len { course.len ≤ max_key_len }
        requires first { course.first < 2 ^ 16 }
        ensures course { result.course ≡ course }
        ensures given { result.given ≡ min W course.jobs }
        ensures begun { (lane : ℕ) → lane < result.given → IsBegun result lane lane }
        ensures empty { (lane : ℕ) → result.given ≤ lane → lane < W →
            is_match (slice_index result.words lane) ≡ true }
        ensures small { (lane : ℕ) → 0 < course.jobs → slice_index result.keys lane < course.jobs }
    {
        let mut fleet = Fleet {
            course,
            given: 0,
            words: [MATCH << INDEX_BITS; W],
            ats: [0; W],
            keys: [0; W],
        };
        for lane in 0..W.min(course.jobs) {
            fleet.set_out(lane);
        }
        fleet
    }

    /// Whether no job is left, and every slot is empty.
    #[inline]
    pub(crate) fn done(&self, walks: &Walks<W>) -> bool
        requires { IsLanes W }
        ensures { result ≡ (nat_le self.now.course.jobs self.now.given
            && list_all is_match (words_in walks.now)) }
    {
        self.course.jobs <= self.given && are_matches(&walks.words())
    }

    /// The lane at the root, with the walk of the next job.
    #[inline]
    fn set_out(&mut self, lane: usize)
        requires lane { lane < W }
        requires given { self.old.given ≤ max_keys }
        requires len { self.old.course.len ≤ max_key_len }
        requires first { self.old.course.first < 2 ^ 16 }
        ensures { self.new ≡ set_out self.old lane }
    {
        let key = self.given;
        let at = key * self.course.len + self.course.first;
        self.words[lane] = self.course.root;
        self.ats[lane] = at as u32;
        self.keys[lane] = key;
        self.given = key + 1;
    }

    /// An empty lane, which kept this word: the word is noted, and the lane takes the next job. If
    /// none is left, it is empty still.
    #[inline]
    fn settle_lane(&mut self, lane: usize, word: u64, scratch: &mut Scratch)
        requires lane { lane < W }
        requires jobs { self.old.course.jobs ≤ max_keys }
        requires len { self.old.course.len ≤ max_key_len }
        requires first { self.old.course.first < 2 ^ 16 }
        requires key { slice_index self.old.keys lane < length scratch.old }
        ensures { SettlesLane lane word self.old self.new scratch.old scratch.new }
    {
        if self.given < self.course.jobs {
            scratch.note(self.keys[lane], 0, word);
            self.set_out(lane);
        } else {
            self.words[lane] = word;
        }
    }

    /// The lanes that were empty, with the words of these halves, and how many there were.
    #[inline]
    fn settle(
        &mut self,
        lows: &[u32; W],
        highs: &[u32; W],
        empty: u64,
        scratch: &mut Scratch,
    ) -> u32
        requires width { W ≤ 16 }
        requires empty { empty < 2 ^ W }
        requires jobs { self.old.course.jobs ≤ max_keys }
        requires given { self.old.given ≤ self.old.course.jobs }
        requires len { self.old.course.len ≤ max_key_len }
        requires first { self.old.course.first < 2 ^ 16 }
        requires small { (lane : ℕ) → lane < W →
            slice_index self.old.keys lane < self.old.course.jobs }
        requires room { self.old.course.jobs ≤ length scratch.old }
        ensures settled { SettledTo empty W (words_of W lows.now highs.now) self.old self.new
            scratch.old scratch.new }
        ensures count { result ≡ set_below empty W }
    {
        let mut rest = empty;
        let mut count = 0;
        while rest != 0 {
            let lane = rest.trailing_zeros() as usize;
            rest &= !(1 << lane);
            self.settle_lane(lane, word_of(lows[lane], highs[lane]), scratch);
            count += 1;
        }
        count
    }

    /// What empty lanes take, which the bits say: the next jobs, or their own words where none is
    /// left. It says how many such lanes there are.
    #[inline]
    fn prepare(&mut self, walks: &Walks<W>, empty: u64, scratch: &mut Scratch) -> u32
        requires lanes { IsLanes W }
        requires empty { empty < 2 ^ W }
        requires jobs { self.old.course.jobs ≤ max_keys }
        requires given { self.old.given ≤ self.old.course.jobs }
        requires len { self.old.course.len ≤ max_key_len }
        requires first { self.old.course.first < 2 ^ 16 }
        requires small { (lane : ℕ) → lane < W →
            slice_index self.old.keys lane < self.old.course.jobs }
        requires room { self.old.course.jobs ≤ length scratch.old }
        ensures settled { SettledTo empty W (words_in walks.now) self.old self.new scratch.old
            scratch.new }
        ensures count { result ≡ set_below empty W }
    {
        if self.given == self.course.jobs {
            self.words = walks.words();
            return empty.count_ones();
        }
        if empty == 0 {
            return 0;
        }
        // Copies leave the walks where vectors are.
        let (lows, highs) = (walks.lows, walks.highs);
        self.settle(&lows, &highs, empty, scratch)
    }

    /// All lanes take a word, and those that were empty their next jobs: how many were busy before.
    #[inline]
    pub(crate) fn turn(
        &mut self,
        walks: &mut Walks<W>,
        words: &[u64],
        last: u32,
        keys: &[u8],
        last_byte: u32,
        scratch: &mut Scratch,
    ) -> u32
        requires lanes { IsLanes W }
        requires last { last + 1 ≡ length words.now }
        requires last_byte { last_byte + 1 ≡ length keys.now }
        requires jobs { self.old.course.jobs ≤ max_keys }
        requires given { self.old.given ≤ self.old.course.jobs }
        requires len { self.old.course.len ≤ max_key_len }
        requires first { self.old.course.first < 2 ^ 16 }
        requires small { (lane : ℕ) → lane < W →
            slice_index self.old.keys lane < self.old.course.jobs }
        requires room { self.old.course.jobs ≤ length scratch.old }
        requires bytes { (lane : ℕ) → lane < W → HasByte keys.now walks.old lane }
        ensures turns { TurnsAll words.now keys.now (fleet_of walks.old self.old)
            (fleet_of walks.new self.new) scratch.old scratch.new result }
        ensures bytes { (lane : ℕ) → lane < W → HasByte keys.now walks.new lane }
    {
        let empty = walks.ended();
        let idle = self.prepare(walks, empty, scratch);
        walks.step_all(words, last, keys, last_byte, self);
        W as u32 - idle
    }

    /// The lanes that had keys note the rows to which their last walks came.
    pub(crate) fn note_last(&self, walks: &Walks<W>, scratch: &mut Scratch)
        requires lanes { IsLanes W }
        requires small { (lane : ℕ) → lane < W →
            slice_index self.now.keys lane < self.now.course.jobs }
        requires room { self.now.course.jobs ≤ length scratch.old }
        ensures { NotesLast (min W self.now.course.jobs) self.now.course.jobs (words_in walks.now)
            self.now.keys scratch.old scratch.new }
    {
        let words = walks.words();
        for lane in 0..W.min(self.course.jobs) {
            scratch.note(self.keys[lane], 0, words[lane]);
        }
    }
}

/// What lanes go by over the table and keys.
pub(crate) fn course_of(table: &Table, keys: &[u8]) -> Course
    requires one { length table.now.roots ≡ 1 }
    requires straight { IsStraight (places_of table.now 0) }
    requires few { keys_in table.now keys.now ≤ max_keys }
    ensures { IsCourse table.now keys.now result }
{
    let len = table.key_len();
    Course {
        jobs: keys.len() / len,
        len,
        first: first_of(table.places(0)),
        root: table.root(0),
    }
}

/// Whether lanes may be a fleet: the places of the only trie stand one after the other, and each
/// word and each byte of the keys has a number of 32 bits.
pub(crate) fn is_fleet(table: &Table, keys: &[u8]) -> bool
    requires { length table.now.roots ≡ 1 }
    ensures straight { result ≡ true → IsStraight (places_of table.now 0) }
    ensures words { result ≡ true →
        (0 < length table.now.words) × (length table.now.words < 2 ^ 32) }
    ensures bytes { result ≡ true → (0 < length keys.now) × (length keys.now < 2 ^ 32) }
{
    have_last(table.words().len()) && have_last(keys.len()) && is_straight(table)
}
