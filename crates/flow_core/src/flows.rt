//! Slots in which walks go on at once, one word of one slot at each step.

ghost use Rattle.std.specs.Prelude.{◌≡◌, ℕ, ◌+◌, ◌*◌, ◌<◌, ◌≤◌, length, drop, None};
ghost use Rattle.std.specs.List.{list_all};
ghost use Rattle.flat_table.specs.Word.{index_of, is_match};
ghost use Rattle.table_sizes.specs.Sizes.{max_keys};
ghost use Rattle.flat_table.specs.Batch.{keys_in};
ghost use Rattle.flow_core.specs.Rows.{cleared};
ghost use Rattle.flow_core.specs.Machine.{Machine, state_of, first_state, is_empty, is_done};
ghost use Rattle.flow_core.specs.Machine.{byte_of, word_of, flow_step};
ghost use Rattle.flow_core.specs.Standing.{BatchFits, IsOnWay, StandsOver, held_after, rows_after};
ghost use Rattle.flow_core.specs.Standing.{LeadsOnward, most_slots};

use crate::flight::{Flight, flight_of};
use crate::laws::stay_in;
use crate::scratch::Scratch;
use flat_table::{Table, index_of, is_match, next_place};
use std::marker::Model;

/// A flow machine of `W` slots, from 1 to 16. Contracts see how many jobs there are, how many of
/// them were given out, and what each slot holds.
///
/// It borrows nothing. The table and the keys are lent to each step, and the rows of the keys are
/// those of a scratch, which is lent too. It may be stepped over these where it has as many jobs as
/// there are pairs of a key and a trie, the lengths fit, and each busy slot holds a job that was
/// given out and a word whose node lies in the level of its depth.
#[derive(Drop)]
pub struct Flows<const W: usize> {
    /// How many jobs there are.
    jobs: usize,
    /// How many of them were given out.
    given: usize,
    /// The flight of each slot, where it is busy.
    slots: [Option<Flight>; W],
}

impl<const W: usize> Model for Flows<W> {
    ghost use Rattle.flow_core.specs.Machine.{Machine};

    ghost Value = { Machine };

    ghost view = { λ flows. record {
      jobs = flows.jobs;
      given = flows.given;
      slots = flows.slots;
    } };
}

/// The key byte that the flight reads next.
///
/// It refuses nothing and takes no memory.
#[inline]
pub fn byte_of(table: &Table, keys: &[u8], flight: Flight) -> u8
    requires whole { length keys.now ≡ keys_in table.now keys.now * table.now.key_len }
    requires few { keys_in table.now keys.now ≤ max_keys }
    requires on_way { (given : ℕ) × IsOnWay table.now keys.now given flight }
    ensures { result ≡ byte_of table.now keys.now flight }
{
    stay_in(table);
    let place = usize::from(table.places(flight.trie)[flight.depth]);
    keys[flight.key * table.key_len() + place]
}

/// The word that the flight takes next. It names a row, or leads on.
#[inline]
fn word_after(table: &Table, keys: &[u8], flight: Flight) -> u64
    requires whole { length keys.now ≡ keys_in table.now keys.now * table.now.key_len }
    requires few { keys_in table.now keys.now ≤ max_keys }
    requires on_way { (given : ℕ) × IsOnWay table.now keys.now given flight }
    ensures value { result ≡ word_of table.now keys.now flight }
    ensures onward { LeadsOnward table.now flight result }
{
    stay_in(table);
    table.words()[next_place(flight.word, byte_of(table, keys, flight))]
}

/// What the slot of the flight holds after the flight took this word: the flight at the word, or
/// nothing after a match. After a match the row that it names is joined into that of the flight's
/// key.
///
/// The scratch has a row for the key. It refuses nothing and takes no memory.
#[inline]
pub fn arrive(table: &Table, scratch: &mut Scratch, flight: Flight, word: u64) -> Option<Flight>
    requires onward { LeadsOnward table.now flight word }
    requires key { flight.key < length scratch.old }
    ensures held { result ≡ held_after flight word }
    ensures rows { scratch.new ≡ rows_after table.now flight word scratch.old }
{
    stay_in(table);
    if is_match(word) {
        scratch.join(flight.key, table.row(index_of(word)));
        return None;
    }
    Some(Flight {
        key: flight.key,
        trie: flight.trie,
        depth: flight.depth + 1,
        word,
    })
}

/// What the slot of the flight holds after the flight's next word. A row is joined after a match.
#[inline]
fn take_word(table: &Table, keys: &[u8], scratch: &mut Scratch, flight: Flight) -> Option<Flight>
    requires fits { BatchFits table.now keys.now (length scratch.old) }
    requires on_way { (given : ℕ) × IsOnWay table.now keys.now given flight }
    ensures held { result ≡ held_after flight (word_of table.now keys.now flight) }
    ensures rows { scratch.new
        ≡ rows_after table.now flight (word_of table.now keys.now flight) scratch.old }
    ensures onward { LeadsOnward table.now flight (word_of table.now keys.now flight) }
{
    let word = word_after(table, keys, flight);
    arrive(table, scratch, flight, word)
}

/// Whether the slot holds no flight.
fn is_empty(slot: &Option<Flight>) -> bool
    ensures { result ≡ is_empty slot.now }
{
    slot.is_none()
}

/// Whether every slot is empty.
pub fn are_empty(slots: &[Option<Flight>]) -> bool
    ensures { result ≡ list_all is_empty slots.now }
{
    slots.iter().all(|slot| is_empty(slot))
}

impl<const W: usize> Flows<W> {
    /// A machine that begins: no job is given out, and all slots are empty. The rows of the keys
    /// become zero, and all other rows of the scratch stay.
    ///
    /// `keys` has the bytes of at most 65,536 keys of the table, one after the other, and the
    /// scratch has a row for each of them. It refuses nothing and takes no memory.
    pub fn begin(table: &Table, keys: &[u8], scratch: &mut Scratch) -> Flows<W>
        requires some { 0 < W }
        requires few { W ≤ most_slots }
        requires fits { BatchFits table.now keys.now (length scratch.old) }
        ensures state { state_of table.now keys.now result scratch.new
            ≡ first_state table.now keys.now W }
        ensures rows { scratch.new ≡ cleared (keys_in table.now keys.now) scratch.old }
        ensures stands { StandsOver table.now keys.now result (length scratch.new) }
    {
        let n = keys.len() / table.key_len();
        scratch.clear(n);
        Flows {
            jobs: n * table.tries(),
            given: 0,
            slots: [None; W],
        }
    }

    /// One step of the slot: an empty slot takes the next job, if one is left, and a busy slot
    /// takes one word. After a match the row of the slot's key is joined, and the slot is empty.
    ///
    /// The table, the keys and the scratch are those that the machine began with. It refuses
    /// nothing and takes no memory.
    #[inline]
    pub fn step_slot(&mut self, table: &Table, keys: &[u8], scratch: &mut Scratch, slot: usize)
        requires slot { slot < W }
        requires stands { StandsOver table.now keys.now self.old (length scratch.old) }
        ensures step { state_of table.now keys.now self.new scratch.new
            ≡ flow_step table.now keys.now (state_of table.now keys.now self.old scratch.old) slot }
        ensures others { drop (keys_in table.now keys.now) scratch.new
            ≡ drop (keys_in table.now keys.now) scratch.old }
        ensures stands { StandsOver table.now keys.now self.new (length scratch.new) }
    {
        match self.slots[slot] {
            Some(flight) => self.slots[slot] = take_word(table, keys, scratch, flight),
            None => {
                if self.given < self.jobs {
                    stay_in(table);
                    self.slots[slot] = Some(flight_of(table, self.given));
                    self.given += 1;
                }
            }
        }
    }

    /// Whether no job is left and every slot is empty. The row of each key is then the joined one
    /// of all its walks.
    pub fn done(&self) -> bool
        ensures { result ≡ is_done self.now }
    {
        self.jobs <= self.given && are_empty(&self.slots)
    }
}
