//! Laws of flow machines, over their definitions alone. They do nothing when they are run.

ghost use Rattle.std.specs.Prelude.{◌≡◌, ◌≤◌, length, None};
ghost use Rattle.table_sizes.specs.Groups.{max_key_len};
ghost use Rattle.flat_table.specs.Sound.{sound_fault};
ghost use Rattle.flat_table.specs.Laws.{WalksStay};
ghost use Rattle.flow_core.specs.Laws.{InvariantIsKept, EverySchedule};
ghost use Rattle.table_sizes.specs.Sizes.{max_tries};

use flat_table::Table;
use flat_table::laws::walks_stay;

/// What holds of every state of a machine holds of the first one, and each step keeps it.
pub fn invariant_is_kept()
    ensures { InvariantIsKept }
{
    walks_stay();
}

/// Whatever the list of slots, a machine that is done by it has joined the row of each key.
pub fn every_schedule()
    ensures { EverySchedule }
{
    walks_stay();
}

/// The table is sound, its keys are not too long, it has not too many tries, and each walk through
/// it stays in it.
#[inline]
pub fn stay_in(table: &Table)
    ensures sound { sound_fault table.now ≡ None }
    ensures stay { WalksStay }
    ensures short { table.now.key_len ≤ max_key_len }
    ensures few { length table.now.roots ≤ max_tries }
{
    walks_stay();
    table.tries();
    table.key_len();
}
