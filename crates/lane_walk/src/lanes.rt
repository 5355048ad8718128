//! A flow machine whose slots are stepped in turns, a lane for each, four lanes at once.

ghost use Rattle.std.specs.Prelude.{◌≡◌, ℕ, ◌+◌, ◌*◌, ◌<◌, ◌≤◌, length, drop, true, false, None, []};
ghost use Rattle.std.specs.Prelude.{slice_index, slice_index_or};
ghost use Rattle.std.specs.List.{list_all};
ghost use Rattle.table_sizes.specs.Groups.{max_key_len};
ghost use Rattle.flat_table.specs.Batch.{keys_in};
ghost use Rattle.flat_table.specs.Word.{index_of, is_match, is_node};
ghost use Rattle.flow_core.specs.Rows.{cleared, joined_into};
ghost use Rattle.flow_core.specs.Machine.{Machine, state_of, first_state, is_done, moved_to};
ghost use Rattle.flow_core.specs.Standing.{BatchFits, StandsOver, LeadsOnward};
ghost use Rattle.flow_core.specs.Standing.{held_after, rows_after};
ghost use Rattle.lane_walk.specs.Turn.{IsLanes, is_busy, busy_slots, flow_turn, held_in};
ghost use Rattle.lane_walk.specs.Turn.{EndsOrLeads, GoesBy, IsPlaceOf, StepsLanes};

use crate::flights::{AT_ONCE, are_empty, land, no_flight};
use flat_table::{Table, is_end};
use flow_core::laws::stay_in;
use flow_core::{Flight, Scratch, byte_of, flight_of};
use scalar_walk::four_places;
use std::marker::Model;

/// A flow machine of `W` slots, 4, 8 or 16, which are stepped in turns. Contracts see it as they
/// see `Flows` of `flow_core`: how many jobs there are, how many of them were given out, and what
/// each slot holds.
///
/// It borrows nothing. The table and the keys are lent to each turn, and the rows of the keys are
/// those of a scratch, which is lent too.
#[derive(Drop)]
pub struct LaneFlows<const W: usize> {
    /// How many jobs there are.
    pub(crate) jobs: usize,
    /// How many of them were given out.
    pub(crate) given: usize,
    /// The flight of each slot, where its word is no match. Where it is one, the slot is empty.
    pub(crate) flights: [Flight; W],
}

impl<const W: usize> Model for LaneFlows<W> {
    ghost use Rattle.std.specs.Prelude.{map, All};
    ghost use Rattle.flow_core.specs.Machine.{Machine};
    ghost use Rattle.lane_walk.specs.Turn.{held_in, EndsOrLeads};

    ghost Value = { Machine };

    ghost view = { λ lanes. record {
      jobs = lanes.jobs;
      given = lanes.given;
      slots = map held_in lanes.flights;
    } };

    ghost invariant = { λ lanes. All EndsOrLeads lanes.flights };
}

impl<const W: usize> LaneFlows<W> {
    /// A machine that begins: no job is given out, and all slots are empty. The rows of the keys
    /// become zero, and all other rows of the scratch stay.
    ///
    /// `keys` has the bytes of at most 65,536 keys of the table, one after the other, and the
    /// scratch has a row for each of them. It refuses nothing and takes no memory.
    pub fn begin(table: &Table, keys: &[u8], scratch: &mut Scratch) -> LaneFlows<W>
        requires lanes { IsLanes W }
        requires fits { BatchFits table.now keys.now (length scratch.old) }
        ensures state { state_of table.now keys.now result scratch.new
            ≡ first_state table.now keys.now W }
        ensures rows { scratch.new ≡ cleared (keys_in table.now keys.now) scratch.old }
        ensures stands { StandsOver table.now keys.now result (length scratch.new) }
    {
        let n = keys.len() / table.key_len();
        scratch.clear(n);
        LaneFlows {
            jobs: n * table.tries(),
            given: 0,
            flights: [no_flight(); W],
        }
    }

    /// Whether the slot of the lane holds a flight.
    #[inline]
    pub(crate) fn is_busy(&self, lane: usize) -> bool
        requires { lane < W }
        ensures { result ≡ is_busy (slice_index_or self.now.slots lane None) }
    {
        !is_end(self.flights[lane].word)
    }

    /// The word and the key byte by which the lane goes on, or any byte where it is empty.
    #[inline]
    fn read_lane(&self, table: &Table, keys: &[u8], lane: usize) -> (u64, u8)
        requires lane { lane < W }
        requires stands { (rows : ℕ) × StandsOver table.now keys.now self.now rows }
        ensures { GoesBy table.now keys.now (slice_index_or self.now.slots lane None) result.0
            result.1 }
    {
        let flight = self.flights[lane];
        if is_end(flight.word) {
            return (flight.word, 0);
        }
        (flight.word, byte_of(table, keys, flight))
    }

    /// The places of the words that four lanes take next, from one on.
    #[inline]
    pub(crate) fn places_from(&self, table: &Table, keys: &[u8], first: usize) -> [u32; AT_ONCE]
        requires first { first + AT_ONCE ≤ W }
        requires stands { (rows : ℕ) × StandsOver table.now keys.now self.now rows }
        ensures { (k : ℕ) → k < AT_ONCE → IsPlaceOf table.now keys.now
            (slice_index_or self.now.slots (first + k) None) (slice_index result k) }
    {
        let one = self.read_lane(table, keys, first);
        let two = self.read_lane(table, keys, first + 1);
        let three = self.read_lane(table, keys, first + 2);
        let four = self.read_lane(table, keys, first + 3);
        four_places(
            &[one.0, two.0, three.0, four.0],
            &[one.1, two.1, three.1, four.1],
        )
    }

    /// A step of a busy lane, which takes the word at the place.
    #[inline]
    fn land_lane(
        &mut self,
        table: &Table,
        keys: &[u8],
        scratch: &mut Scratch,
        lane: usize,
        place: usize,
    )
        requires width { W ≤ 16 }
        requires lane { lane < W }
        requires stands { StandsOver table.now keys.now self.old (length scratch.old) }
        requires busy { is_busy (slice_index_or self.old.slots lane None) ≡ true }
        requires place { IsPlaceOf table.now keys.now (slice_index_or self.old.slots lane None)
            place }
        ensures { StepsLanes table.now keys.now self.old scratch.old lane 1 self.new scratch.new
            1 }
    {
        stay_in(table);
        let flight = &mut self.flights[lane];
        let word = table.words()[place];
        land(table, scratch, flight, word);
    }

    /// A step of an empty lane, which takes the next job, if one is left.
    #[inline]
    fn begin_job(&mut self, table: &Table, keys: &[u8], scratch: &Scratch, lane: usize)
        requires width { W ≤ 16 }
        requires lane { lane < W }
        requires stands { StandsOver table.now keys.now self.old (length scratch.now) }
        requires empty { is_busy (slice_index_or self.old.slots lane None) ≡ false }
        ensures { StepsLanes table.now keys.now self.old scratch.now lane 1 self.new scratch.now
            0 }
    {
        stay_in(table);
        if self.given < self.jobs {
            self.flights[lane] = flight_of(table, self.given);
            self.given += 1;
        }
    }

    /// A step of the lane, and how many lanes were busy before it: 1 or 0. A busy lane takes the
    /// word at the place.
    #[inline]
    fn step_lane(
        &mut self,
        table: &Table,
        keys: &[u8],
        scratch: &mut Scratch,
        lane: usize,
        place: usize,
    ) -> u32
        requires width { W ≤ 16 }
        requires lane { lane < W }
        requires stands { StandsOver table.now keys.now self.old (length scratch.old) }
        requires place { IsPlaceOf table.now keys.now (slice_index_or self.old.slots lane None)
            place }
        ensures { StepsLanes table.now keys.now self.old scratch.old lane 1 self.new scratch.new
            result }
    {
        if self.is_busy(lane) {
            self.land_lane(table, keys, scratch, lane, place);
            return 1;
        }
        self.begin_job(table, keys, scratch, lane);
        0
    }

    /// A step of each of four lanes, from one on and in order, and how many of them were busy
    /// before.
    #[inline]
    fn step_each(&mut self, table: &Table, keys: &[u8], scratch: &mut Scratch, first: usize) -> u32
        requires width { W ≤ 16 }
        requires first { first + AT_ONCE ≤ W }
        requires stands { StandsOver table.now keys.now self.old (length scratch.old) }
        ensures { StepsLanes table.now keys.now self.old scratch.old first AT_ONCE self.new
            scratch.new result }
    {
        let places = self.places_from(table, keys, first);
        let mut busy = 0;
        for k in 0..AT_ONCE {
            busy += self.step_lane(table, keys, scratch, first + k, places[k] as usize);
        }
        busy
    }

    /// A step of each slot, in order, and how many of them were busy before: so many words are
    /// taken.
    ///
    /// Four lanes at a time work out at once which words they take. The table, the keys and the
    /// scratch are those that the machine began with. It refuses nothing and takes no memory.
    #[inline]
    pub fn turn(&mut self, table: &Table, keys: &[u8], scratch: &mut Scratch) -> u32
        requires lanes { IsLanes W }
        requires stands { StandsOver table.now keys.now self.old (length scratch.old) }
        ensures state { state_of table.now keys.now self.new scratch.new
            ≡ flow_turn table.now keys.now W (state_of table.now keys.now self.old scratch.old) }
        ensures busy { result ≡ busy_slots self.old }
        ensures others { drop (keys_in table.now keys.now) scratch.new
            ≡ drop (keys_in table.now keys.now) scratch.old }
        ensures stands { StandsOver table.now keys.now self.new (length scratch.new) }
    {
        let lanes = self.flights.as_slice().len();
        let mut busy = 0;
        for group in 0..lanes / AT_ONCE {
            busy += self.step_each(table, keys, scratch, group * AT_ONCE);
        }
        busy
    }

    /// Whether no job is left and every slot is empty. The row of each key is then the joined one
    /// of all its walks.
    #[tactic(auto, using(crate::proofs::Held::all_empty))]
    pub fn done(&self) -> bool
        ensures { result ≡ is_done self.now }
    {
        self.jobs <= self.given && are_empty(&self.flights)
    }
}
