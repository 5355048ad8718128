//! The verdicts of a batch by the walk that is asked for.

ghost use Rattle.std.specs.Prelude.{◌≡◌, ◌+◌, ◌≤◌, length, drop};
ghost use Rattle.flat_table.specs.Batch.{LengthsFit, keys_in, batch_verdicts};
ghost use Rattle.flat_table.specs.Batch.{batch_transitions, most_of_batch};
ghost use Rattle.scalar_walk.specs.Rows.{batch_winners};

use flat_table::{Steps, Table, Walk};
use flow_core::Scratch;
use lane_walk::{classify_lanes, classify_lanes_marked};
use rule_set::Categories;
use scalar_walk::{classify_scalar, classify_scalar_marked};
use std::sync::ledger::Ledger;

/// How many lanes there are where lanes are asked for by [`Walk::Lanes`].
const LANES: usize = 8;

/// Writes the verdicts of the keys of a batch by the walk that is asked for, of eight lanes where
/// it is by lanes, and says how many transitions the walks of the keys took.
///
/// `keys` has the bytes of at most 65,536 keys of the table, one after the other, and `out` has
/// room for the verdicts of each: the categories from 0 on of the first key, then those of the
/// second. A verdict is the userdata of the winner, or 0 where no rule wins. Both walks write the
/// same, and count the same. A walk by lanes needs a row of the scratch for each key, and leaves
/// all other rows as they are; the other walk leaves the whole scratch as it is. It refuses nothing
/// and takes no memory.
pub fn classify_by<L: Ledger>(
    walk: Walk,
    table: &Table,
    keys: &[u8],
    cats: Categories,
    scratch: &mut Scratch,
    out: &mut [u32],
    steps: &mut Steps<L>,
) -> u64
    requires fits { LengthsFit table.now keys.now cats.count (length out.old) }
    requires room { walk ≡ Walk.Lanes → keys_in table.now keys.now ≤ length scratch.old }
    ensures verdicts { out.new ≡ batch_verdicts table.now cats.count keys.now }
    ensures taken { result ≡ batch_transitions table.now keys.now }
    ensures bound { result ≤ most_of_batch table.now keys.now }
    ensures steps { steps.new ≡ steps.old + batch_transitions table.now keys.now }
    ensures scalar { walk ≡ Walk.Scalar → scratch.new ≡ scratch.old }
    ensures others { drop (keys_in table.now keys.now) scratch.new
        ≡ drop (keys_in table.now keys.now) scratch.old }
    ensures len { length scratch.new ≡ length scratch.old }
{
    match walk {
        Walk::Scalar => classify_scalar(table, keys, cats, out, steps),
        Walk::Lanes => { classify_lanes::<LANES, L>(table, keys, cats, scratch, out, steps).taken }
    }
}

/// Writes the verdicts of the keys of a batch as [`classify_by`] does, and marks beside each
/// whether some rule wins.
///
/// `won` has as many entries as `out`, in the same order. An entry is true if a rule wins the key
/// in that category, also where its userdata is 0. Each key is walked once through each trie, and
/// what is said of the counts is said of these walks. It refuses nothing and takes no memory.
pub fn classify_marked<L: Ledger>(
    walk: Walk,
    table: &Table,
    keys: &[u8],
    cats: Categories,
    scratch: &mut Scratch,
    out: &mut [u32],
    won: &mut [bool],
    steps: &mut Steps<L>,
) -> u64
    requires fits { LengthsFit table.now keys.now cats.count (length out.old) }
    requires room { walk ≡ Walk.Lanes → keys_in table.now keys.now ≤ length scratch.old }
    requires marks { length won.old ≡ length out.old }
    ensures verdicts { out.new ≡ batch_verdicts table.now cats.count keys.now }
    ensures won { won.new ≡ batch_winners table.now cats.count keys.now }
    ensures taken { result ≡ batch_transitions table.now keys.now }
    ensures bound { result ≤ most_of_batch table.now keys.now }
    ensures steps { steps.new ≡ steps.old + batch_transitions table.now keys.now }
    ensures scalar { walk ≡ Walk.Scalar → scratch.new ≡ scratch.old }
    ensures others { drop (keys_in table.now keys.now) scratch.new
        ≡ drop (keys_in table.now keys.now) scratch.old }
    ensures len { length scratch.new ≡ length scratch.old }
{
    match walk {
        Walk::Scalar => classify_scalar_marked(table, keys, cats, out, won, steps),
        Walk::Lanes => {
            classify_lanes_marked::<LANES, L>(table, keys, cats, scratch, out, won, steps).taken
        }
    }
}
