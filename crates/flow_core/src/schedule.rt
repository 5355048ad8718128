//! A whole run of a machine, by any list of slots.

ghost use Rattle.std.specs.Prelude.{◌≡◌, ◌+◌, ◌*◌, ◌%◌, ◌<◌, ◌≤◌, length, drop, take, true, false};
ghost use Rattle.std.specs.Prelude.{flat_map, map, slice_index};
ghost use Rattle.table_sizes.specs.Sizes.{row_len};
ghost use Rattle.flat_table.specs.Walk.{userdatas};
ghost use Rattle.flat_table.specs.Batch.{LengthsFit, keys_in, batch_verdicts};
ghost use Rattle.flow_core.specs.Rows.{row_verdicts};
ghost use Rattle.flow_core.specs.Machine.{is_done, flow_from_first};
ghost use Rattle.flow_core.specs.Standing.{most_slots};
ghost use Rattle.flow_core.specs.Laws.{AreSlots, AreEnough};

use crate::flows::Flows;
use crate::laws::stay_in;
use crate::scratch::Scratch;
use flat_table::{Table, userdata_of};
use rule_set::Categories;
use table_sizes::ROW_LEN;

/// Writes for so many categories from 0 on the userdata of the row's word.
fn write_row(row: &[u64; ROW_LEN], verdicts: &mut [u32])
    requires { length verdicts.old ≤ row_len }
    ensures { verdicts.new ≡ row_verdicts (length verdicts.old) row.now }
{
    for (category, verdict) in verdicts.iter_mut().enumerate() {
        *verdict = userdata_of(row[category]);
    }
}

/// Writes the verdicts of the rows of the first keys in category 0, as many as there is room for.
fn write_firsts(scratch: &Scratch, out: &mut [u32])
    requires { length out.old ≤ length scratch.now }
    ensures { out.new ≡ map (λ row. slice_index row 0 % userdatas)
        (take (length out.old) scratch.now) }
{
    for (k, verdict) in out.iter_mut().enumerate() {
        *verdict = userdata_of(scratch.row(k)[0]);
    }
}

/// Writes the verdicts of the rows of the first keys, so many of each: the categories from 0 on of
/// the first key, then those of the second.
///
/// `out` has room for exactly these. It refuses nothing and takes no memory.
pub fn write_verdicts(scratch: &Scratch, keys: usize, count: usize, out: &mut [u32])
    requires keys { keys ≤ length scratch.now }
    requires few { count ≤ row_len }
    requires room { length out.old ≡ keys * count }
    ensures { out.new ≡ flat_map (row_verdicts count) (take keys scratch.now) }
{
    // One category is the common case, and needs no parts of the room.
    if count == 1 {
        write_firsts(scratch, out);
        return;
    }
    for k in 0..keys {
        write_row(scratch.row(k), &mut out[k * count..(k + 1) * count]);
    }
}

/// Begins a machine of `W` slots, from 1 to 16, and steps the slots in the order of the list. It
/// answers whether the machine is done then, and only then writes the verdicts.
///
/// `keys` has the bytes of at most 65,536 keys of the table, one after the other. The scratch has a
/// row for each of them, and `out` has room for the verdicts of each: the categories from 0 on of
/// the first key, then those of the second. Each entry of `slots` is below `W`, and a slot may
/// stand in it as often as one likes, in any order. The machine is done where each slot stands in
/// it at least as many times as there are jobs, times the length of a key and 1. The rows of the
/// keys are left in the scratch, and all its other rows stay. It takes no memory.
pub fn run_schedule<const W: usize>(
    table: &Table,
    keys: &[u8],
    cats: Categories,
    slots: &[u8],
    scratch: &mut Scratch,
    out: &mut [u32],
) -> bool
    requires some { 0 < W }
    requires few { W ≤ most_slots }
    requires fits { LengthsFit table.now keys.now cats.count (length out.old) }
    requires room { keys_in table.now keys.now ≤ length scratch.old }
    requires slots { AreSlots W slots.now }
    ensures done { result ≡ is_done (flow_from_first table.now keys.now W slots.now).machine }
    ensures verdicts { result ≡ true → out.new ≡ batch_verdicts table.now cats.count keys.now }
    ensures unchanged { result ≡ false → out.new ≡ out.old }
    ensures rows { take (keys_in table.now keys.now) scratch.new
        ≡ (flow_from_first table.now keys.now W slots.now).rows }
    ensures others { drop (keys_in table.now keys.now) scratch.new
        ≡ drop (keys_in table.now keys.now) scratch.old }
    ensures enough { AreEnough table.now keys.now W slots.now → result ≡ true }
{
    stay_in(table);
    let mut flows = Flows::<W>::begin(table, keys, scratch);
    for slot in slots {
        flows.step_slot(table, keys, scratch, usize::from(*slot));
    }
    if !flows.done() {
        return false;
    }
    write_verdicts(scratch, keys.len() / table.key_len(), cats.count(), out);
    true
}
