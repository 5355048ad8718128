//! The verdicts of a batch, by turns of all lanes.

ghost use Rattle.std.specs.Prelude.{◌≡◌, ℕ, ◌+◌, ◌*◌, ◌^◌, ◌<◌, ◌≤◌, ◌==◌, length, map, take, drop, not, slice_index, true};
ghost use Rattle.std.specs.List.{range_with_len};
ghost use Rattle.table_sizes.specs.Sizes.{row_len};
ghost use Rattle.flat_table.specs.Table.{places_of};
ghost use Rattle.flat_table.specs.Batch.{LengthsFit, keys_in, batch_verdicts};
ghost use Rattle.flat_table.specs.Batch.{batch_transitions, most_of_batch};
ghost use Rattle.flow_core.specs.Machine.{flow_from_first, turns, IsRounds};
ghost use Rattle.flow_core.specs.Standing.{BatchFits};
ghost use Rattle.flow_core.specs.Laws.{AreJoined};
ghost use Rattle.scalar_walk.specs.Lanes.{pieces_below};
ghost use Rattle.scalar_walk.specs.Rows.{row_winners, batch_winners};
ghost use Rattle.lane_walk.specs.Fleet.{IsStraight};
ghost use Rattle.lane_walk.specs.Turn.{AreAllNoted, IsLanes};

use crate::fleet::{Fleet, course_of, is_fleet};
use crate::lanes::LaneFlows;
use crate::rows::join_noted;
use crate::walks::Walks;
use flat_table::laws::walks_go_step_by_step;
use flat_table::{Steps, Table};
use flow_core::laws::{every_schedule, stay_in};
use flow_core::{Scratch, write_verdicts};
use rule_set::Categories;
use std::sync::ledger::Ledger;
use table_sizes::ROW_LEN;

/// What the walks of a batch by lanes took.
#[derive(Clone, Copy, Debug, PartialEq, Eq)]
pub struct Flown {
    /// How many transitions the walks took.
    pub taken: u64,
    /// After how many turns of all lanes the last walk had ended.
    pub turns: u64,
}

/// So many transitions more. It does nothing when it is run.
#[inline]
fn raise_by<L: Ledger>(steps: &mut Steps<L>, count: u32)
    ensures { steps.new ≡ steps.old + count }
{
    for _ in 0..count {
        steps.raise();
    }
}

/// Turns of a machine of `W` lanes from its beginning on, until it is done. The row that each walk
/// reaches is then noted in the row of its key, and all other rows of the scratch stay.
#[inline]
fn fly_each<const W: usize, L: Ledger>(
    table: &Table,
    keys: &[u8],
    scratch: &mut Scratch,
    steps: &mut Steps<L>,
) -> Flown
    requires lanes { IsLanes W }
    requires fits { BatchFits table.now keys.now (length scratch.old) }
    ensures taken { result.taken ≡ batch_transitions table.now keys.now }
    ensures steps { steps.new ≡ steps.old + batch_transitions table.now keys.now }
    ensures turns { IsRounds table.now keys.now W result.turns }
    ensures notes { AreAllNoted table.now keys.now scratch.new }
    ensures others { drop (keys_in table.now keys.now) scratch.new
        ≡ drop (keys_in table.now keys.now) scratch.old }
    ensures len { length scratch.new ≡ length scratch.old }
{
    stay_in(table);
    every_schedule();
    walks_go_step_by_step();
    let mut lanes = LaneFlows::<W>::begin_noting(table, keys);
    let (mut taken, mut turns) = (0u64, 0u64);
    while !lanes.done() {
        let busy = lanes.turn_noting(table, keys, scratch);
        raise_by(steps, busy);
        taken += u64::from(busy);
        turns += 1;
    }
    Flown { taken, turns }
}

/// The same over a table of one trie whose places stand one after the other. The first turn gives
/// out keys alone.
#[inline]
fn fly_straight<const W: usize, L: Ledger>(
    table: &Table,
    keys: &[u8],
    scratch: &mut Scratch,
    steps: &mut Steps<L>,
) -> Flown
    requires one { length table.now.roots ≡ 1 }
    requires straight { IsStraight (places_of table.now 0) }
    requires words { (0 < length table.now.words) × (length table.now.words < 2 ^ 32) }
    requires bytes { (0 < length keys.now) × (length keys.now < 2 ^ 32) }
    requires lanes { IsLanes W }
    requires fits { BatchFits table.now keys.now (length scratch.old) }
    ensures taken { result.taken ≡ batch_transitions table.now keys.now }
    ensures steps { steps.new ≡ steps.old + batch_transitions table.now keys.now }
    ensures turns { IsRounds table.now keys.now W result.turns }
    ensures notes { AreAllNoted table.now keys.now scratch.new }
    ensures others { drop (keys_in table.now keys.now) scratch.new
        ≡ drop (keys_in table.now keys.now) scratch.old }
    ensures len { length scratch.new ≡ length scratch.old }
{
    stay_in(table);
    every_schedule();
    walks_go_step_by_step();
    let words = table.words();
    let (last, last_byte) = ((words.len() - 1) as u32, (keys.len() - 1) as u32);
    let mut fleet = Fleet::<W>::begin(course_of(table, keys));
    let mut walks = Walks::<W>::begin(keys, last_byte, &fleet);
    let (mut taken, mut turns) = (0u64, 1u64);
    while !fleet.done(&walks) {
        let busy = fleet.turn(&mut walks, words, last, keys, last_byte, scratch);
        raise_by(steps, busy);
        taken += u64::from(busy);
        turns += 1;
    }
    fleet.note_last(&walks, scratch);
    Flown { taken, turns }
}

/// The turns over a table of one trie, or over any.
fn note_walks<const W: usize, L: Ledger>(
    table: &Table,
    keys: &[u8],
    scratch: &mut Scratch,
    steps: &mut Steps<L>,
) -> Flown
    requires lanes { IsLanes W }
    requires fits { BatchFits table.now keys.now (length scratch.old) }
    ensures taken { result.taken ≡ batch_transitions table.now keys.now }
    ensures steps { steps.new ≡ steps.old + batch_transitions table.now keys.now }
    ensures turns { IsRounds table.now keys.now W result.turns }
    ensures notes { AreAllNoted table.now keys.now scratch.new }
    ensures others { drop (keys_in table.now keys.now) scratch.new
        ≡ drop (keys_in table.now keys.now) scratch.old }
    ensures len { length scratch.new ≡ length scratch.old }
{
    if table.tries() == 1 && is_fleet(table, keys) {
        fly_straight::<W, L>(table, keys, scratch, steps)
    } else {
        fly_each::<W, L>(table, keys, scratch, steps)
    }
}

/// The turns of a machine of `W` lanes, after which the rows of the keys are joined, and all other
/// rows of the scratch stay.
fn fly<const W: usize, L: Ledger>(
    table: &Table,
    keys: &[u8],
    scratch: &mut Scratch,
    steps: &mut Steps<L>,
) -> Flown
    requires lanes { IsLanes W }
    requires fits { BatchFits table.now keys.now (length scratch.old) }
    ensures taken { result.taken ≡ batch_transitions table.now keys.now }
    ensures steps { steps.new ≡ steps.old + batch_transitions table.now keys.now }
    ensures turns { IsRounds table.now keys.now W result.turns }
    ensures rows { take (keys_in table.now keys.now) scratch.new
        ≡ (flow_from_first table.now keys.now W (turns W result.turns)).rows }
    ensures joined { AreJoined table.now keys.now (take (keys_in table.now keys.now) scratch.new) }
    ensures others { drop (keys_in table.now keys.now) scratch.new
        ≡ drop (keys_in table.now keys.now) scratch.old }
    ensures len { length scratch.new ≡ length scratch.old }
{
    stay_in(table);
    every_schedule();
    let flown = note_walks::<W, L>(table, keys, scratch, steps);
    join_noted(table, scratch, keys.len() / table.key_len());
    flown
}

/// Writes the verdicts of the keys of a batch by a walk of `W` lanes, 4, 8 or 16, and says how many
/// transitions the walks took, and how many turns of all lanes.
///
/// `keys` has the bytes of at most 65,536 keys of the table, one after the other. The scratch has a
/// row for each of them, and `out` has room for the verdicts of each: the categories from 0 on of
/// the first key, then those of the second. A verdict is the userdata of the winner, or 0 where no
/// rule wins. The rows of the keys are left in the scratch, and all its other rows stay. It refuses
/// nothing and takes no memory.
#[tactic(auto, using(scalar_walk::proofs::Offered::taken_bound))]
pub fn classify_lanes<const W: usize, L: Ledger>(
    table: &Table,
    keys: &[u8],
    cats: Categories,
    scratch: &mut Scratch,
    out: &mut [u32],
    steps: &mut Steps<L>,
) -> Flown
    requires lanes { IsLanes W }
    requires fits { LengthsFit table.now keys.now cats.count (length out.old) }
    requires room { keys_in table.now keys.now ≤ length scratch.old }
    ensures verdicts { out.new ≡ batch_verdicts table.now cats.count keys.now }
    ensures taken { result.taken ≡ batch_transitions table.now keys.now }
    ensures bound { result.taken ≤ most_of_batch table.now keys.now }
    ensures steps { steps.new ≡ steps.old + batch_transitions table.now keys.now }
    ensures turns { IsRounds table.now keys.now W result.turns }
    ensures rows { take (keys_in table.now keys.now) scratch.new
        ≡ (flow_from_first table.now keys.now W (turns W result.turns)).rows }
    ensures others { drop (keys_in table.now keys.now) scratch.new
        ≡ drop (keys_in table.now keys.now) scratch.old }
    ensures joined { AreJoined table.now keys.now (take (keys_in table.now keys.now) scratch.new) }
    ensures len { length scratch.new ≡ length scratch.old }
{
    let flown = fly::<W, L>(table, keys, scratch, steps);
    write_verdicts(scratch, keys.len() / table.key_len(), cats.count(), out);
    flown
}

/// Marks for so many categories from 0 on whether the row's word isn't 0.
fn mark_row(row: &[u64; ROW_LEN], won: &mut [bool])
    requires { length won.old ≤ row_len }
    ensures { won.new ≡ map (λ category. not (slice_index row.now category == 0))
        (range_with_len 0 (length won.old)) }
{
    for (category, won) in won.iter_mut().enumerate() {
        *won = row[category] != 0;
    }
}

/// Marks of the rows of the first keys which words aren't 0, so many of each: the categories from 0
/// on of the first key, then those of the second.
fn mark_rows(scratch: &Scratch, keys: usize, count: usize, won: &mut [bool])
    requires keys { keys ≤ length scratch.now }
    requires few { count ≤ row_len }
    requires room { length won.old ≡ keys * count }
    ensures { won.new ≡ pieces_below (λ k. row_winners scratch.now count k) keys }
{
    for k in 0..keys {
        mark_row(scratch.row(k), &mut won[k * count..(k + 1) * count]);
    }
}

/// Writes the verdicts of the keys of a batch as [`classify_lanes`] does, and marks beside each
/// whether some rule wins.
///
/// `won` has as many entries as `out`, in the same order. An entry is true if a rule wins the key
/// in that category, also where its userdata is 0. The marks are read off the rows of the keys,
/// which are left in the scratch. It refuses nothing and takes no memory.
pub fn classify_lanes_marked<const W: usize, L: Ledger>(
    table: &Table,
    keys: &[u8],
    cats: Categories,
    scratch: &mut Scratch,
    out: &mut [u32],
    won: &mut [bool],
    steps: &mut Steps<L>,
) -> Flown
    requires lanes { IsLanes W }
    requires fits { LengthsFit table.now keys.now cats.count (length out.old) }
    requires room { keys_in table.now keys.now ≤ length scratch.old }
    requires marks { length won.old ≡ length out.old }
    ensures verdicts { out.new ≡ batch_verdicts table.now cats.count keys.now }
    ensures won { won.new ≡ batch_winners table.now cats.count keys.now }
    ensures taken { result.taken ≡ batch_transitions table.now keys.now }
    ensures bound { result.taken ≤ most_of_batch table.now keys.now }
    ensures steps { steps.new ≡ steps.old + batch_transitions table.now keys.now }
    ensures turns { IsRounds table.now keys.now W result.turns }
    ensures others { drop (keys_in table.now keys.now) scratch.new
        ≡ drop (keys_in table.now keys.now) scratch.old }
    ensures len { length scratch.new ≡ length scratch.old }
{
    let flown = classify_lanes::<W, L>(table, keys, cats, scratch, out, steps);
    mark_rows(scratch, keys.len() / table.key_len(), cats.count(), won);
    flown
}
