//! A flow machine by lanes whose turns note the words to which the walks come, and join no rows.
//! Where four lanes are busy, their words are taken together.

ghost use Rattle.std.specs.Prelude.{◌≡◌, ℕ, ◌+◌, ◌*◌, ◌<◌, ◌≤◌, length, drop, true, false, None};
ghost use Rattle.std.specs.Prelude.{slice_index_or};
ghost use Rattle.std.specs.List.{range_with_len};
ghost use Rattle.flat_table.specs.Batch.{keys_in};
ghost use Rattle.flow_core.specs.Machine.{Machine, first_machine};
ghost use Rattle.flow_core.specs.Standing.{BatchFits, StandsOver};
ghost use Rattle.lane_walk.specs.Turn.{IsLanes, is_busy, busy_slots};
ghost use Rattle.lane_walk.specs.Turn.{AreBusy, AreIdle, IsPlaceOf};
ghost use Rattle.lane_walk.specs.Turn.{AreNoted, IsAfterRun, NotesLanes};

use crate::flights::{AT_ONCE, go_on, land_noted, no_flight, note_each, words_at};
use crate::lanes::LaneFlows;
use flat_table::Table;
use flow_core::laws::stay_in;
use flow_core::{Scratch, flight_of};

impl<const W: usize> LaneFlows<W> {
    /// A machine that begins as [`LaneFlows::begin`] says, and leaves all rows as they are.
    pub(crate) fn begin_noting(table: &Table, keys: &[u8]) -> LaneFlows<W>
        requires lanes { IsLanes W }
        requires fits { BatchFits table.now keys.now (keys_in table.now keys.now) }
        ensures machine { result ≡ first_machine table.now keys.now W }
        ensures stands { (rows : ℕ) → keys_in table.now keys.now ≤ rows →
            StandsOver table.now keys.now result rows }
    {
        LaneFlows {
            jobs: keys.len() / table.key_len() * table.tries(),
            given: 0,
            flights: [no_flight(); W],
        }
    }

    /// Whether the slots of four lanes, from one on, hold a flight each.
    #[inline]
    fn are_busy(&self, first: usize) -> bool
        requires { first + AT_ONCE ≤ W }
        ensures { result ≡ true → AreBusy self.now first }
    {
        // All four are asked at once, since one test of their words together takes fewer steps.
        self.is_busy(first)
            & self.is_busy(first + 1)
            & self.is_busy(first + 2)
            & self.is_busy(first + 3)
    }

    /// Whether the slots of four lanes, from one on, are all empty.
    #[inline]
    fn are_idle(&self, first: usize) -> bool
        requires { first + AT_ONCE ≤ W }
        ensures { result ≡ true → AreIdle self.now first }
    {
        !(self.is_busy(first)
            | self.is_busy(first + 1)
            | self.is_busy(first + 2)
            | self.is_busy(first + 3))
    }

    /// A step of a busy lane, which takes the word at the place.
    #[inline]
    fn note_lane(
        &mut self,
        table: &Table,
        keys: &[u8],
        scratch: &mut Scratch,
        lane: usize,
        place: usize,
    )
        requires width { W ≤ 16 }
        requires lane { lane < W }
        requires stands { StandsOver table.now keys.now self.old (length scratch.old) }
        requires busy { is_busy (slice_index_or self.old.slots lane None) ≡ true }
        requires place { IsPlaceOf table.now keys.now (slice_index_or self.old.slots lane None)
            place }
        ensures { NotesLanes table.now keys.now self.old scratch.old lane 1 self.new scratch.new
            1 }
    {
        stay_in(table);
        let flight = &mut self.flights[lane];
        let word = table.words()[place];
        land_noted(scratch, flight, word);
    }

    /// A step of an empty lane, which takes the next job, if one is left.
    #[inline]
    fn take_job(&mut self, table: &Table, keys: &[u8], scratch: &Scratch, lane: usize)
        requires width { W ≤ 16 }
        requires lane { lane < W }
        requires stands { StandsOver table.now keys.now self.old (length scratch.now) }
        requires empty { is_busy (slice_index_or self.old.slots lane None) ≡ false }
        ensures { NotesLanes table.now keys.now self.old scratch.now lane 1 self.new scratch.now
            0 }
    {
        stay_in(table);
        if self.given < self.jobs {
            self.flights[lane] = flight_of(table, self.given);
            self.given += 1;
        }
    }

    /// A step of the lane, and how many lanes were busy before it: 1 or 0. A busy lane takes the
    /// word at the place.
    #[inline]
    fn note_or_take(
        &mut self,
        table: &Table,
        keys: &[u8],
        scratch: &mut Scratch,
        lane: usize,
        place: usize,
    ) -> u32
        requires width { W ≤ 16 }
        requires lane { lane < W }
        requires stands { StandsOver table.now keys.now self.old (length scratch.old) }
        requires place { IsPlaceOf table.now keys.now (slice_index_or self.old.slots lane None)
            place }
        ensures { NotesLanes table.now keys.now self.old scratch.old lane 1 self.new scratch.new
            result }
    {
        if self.is_busy(lane) {
            self.note_lane(table, keys, scratch, lane, place);
            return 1;
        }
        self.take_job(table, keys, scratch, lane);
        0
    }

    /// A step of each of four empty lanes, from one on and in order.
    #[inline]
    fn take_four(&mut self, table: &Table, keys: &[u8], scratch: &Scratch, first: usize)
        requires width { W ≤ 16 }
        requires first { first + AT_ONCE ≤ W }
        requires stands { StandsOver table.now keys.now self.old (length scratch.now) }
        requires idle { AreIdle self.old first }
        ensures { NotesLanes table.now keys.now self.old scratch.now first AT_ONCE self.new
            scratch.now 0 }
    {
        for k in 0..AT_ONCE {
            self.take_job(table, keys, scratch, first + k);
        }
    }

    /// A step of each of four busy lanes, from one on and in order.
    #[inline]
    fn note_four(&mut self, table: &Table, keys: &[u8], scratch: &mut Scratch, first: usize)
        requires width { W ≤ 16 }
        requires first { first + AT_ONCE ≤ W }
        requires stands { StandsOver table.now keys.now self.old (length scratch.old) }
        requires busy { AreBusy self.old first }
        ensures { NotesLanes table.now keys.now self.old scratch.old first AT_ONCE self.new
            scratch.new AT_ONCE }
    {
        stay_in(table);
        let places = self.places_from(table, keys, first);
        let words = words_at(table.words(), &places);
        go_on(&mut self.flights[first], words[0]);
        go_on(&mut self.flights[first + 1], words[1]);
        go_on(&mut self.flights[first + 2], words[2]);
        go_on(&mut self.flights[first + 3], words[3]);
        note_each(scratch, &self.flights, first);
    }

    /// A step of each of four lanes, from one on and in order, and how many of them were busy
    /// before.
    #[inline]
    fn note_some(&mut self, table: &Table, keys: &[u8], scratch: &mut Scratch, first: usize) -> u32
        requires width { W ≤ 16 }
        requires first { first + AT_ONCE ≤ W }
        requires stands { StandsOver table.now keys.now self.old (length scratch.old) }
        ensures { NotesLanes table.now keys.now self.old scratch.old first AT_ONCE self.new
            scratch.new result }
    {
        // Walks of one length begin together and end together.
        if self.are_idle(first) {
            self.take_four(table, keys, scratch, first);
            return 0;
        }
        let places = self.places_from(table, keys, first);
        let mut busy = 0;
        for k in 0..AT_ONCE {
            busy += self.note_or_take(table, keys, scratch, first + k, places[k] as usize);
        }
        busy
    }

    /// A step of each of four lanes, from one on and in order, and how many of them were busy
    /// before. Mostly all four are, and then their words are taken together.
    #[inline]
    fn note_group(&mut self, table: &Table, keys: &[u8], scratch: &mut Scratch, first: usize) -> u32
        requires width { W ≤ 16 }
        requires first { first + AT_ONCE ≤ W }
        requires stands { StandsOver table.now keys.now self.old (length scratch.old) }
        ensures { NotesLanes table.now keys.now self.old scratch.old first AT_ONCE self.new
            scratch.new result }
    {
        if self.are_busy(first) {
            self.note_four(table, keys, scratch, first);
            return AT_ONCE as u32;
        }
        self.note_some(table, keys, scratch, first)
    }

    /// A step of each slot, in order, as [`LaneFlows::turn`] does it, and how many of them were
    /// busy before. The words to which walks come are noted, and no rows joined.
    #[inline]
    pub(crate) fn turn_noting(&mut self, table: &Table, keys: &[u8], scratch: &mut Scratch) -> u32
        requires lanes { IsLanes W }
        requires stands { StandsOver table.now keys.now self.old (length scratch.old) }
        ensures machine { IsAfterRun table.now keys.now self.old (range_with_len 0 W) self.new }
        ensures busy { result ≡ busy_slots self.old }
        ensures len { length scratch.new ≡ length scratch.old }
        ensures others { drop (keys_in table.now keys.now) scratch.new
            ≡ drop (keys_in table.now keys.now) scratch.old }
        ensures stands { StandsOver table.now keys.now self.new (length scratch.new) }
        ensures noted { AreNoted table.now keys.now self.old scratch.old →
            AreNoted table.now keys.now self.new scratch.new }
    {
        let lanes = self.flights.as_slice().len();
        let mut busy = 0;
        for group in 0..lanes / AT_ONCE {
            busy += self.note_group(table, keys, scratch, group * AT_ONCE);
        }
        busy
    }
}
