//! Numbers of states and rows, in the order in which they are found, and the runs of one state.

ghost use Rattle.std.specs.Prelude.{◌≡◌, ℕ, ◌<◌, ◌+◌, ◌^◌, ◌++◌, List, length, map, fold};
ghost use Rattle.std.specs.Prelude.{OnOk, IfOk};
ghost use Rattle.state_parts.specs.Pieces.{number_at, Covers};
ghost use Rattle.group_states.specs.Found.{all_bytes};
ghost use Rattle.group_states.specs.Levels.{runs_of};
ghost use Rattle.trie_merge.specs.Numbers.{numbers_with, succ_of};

use crate::found::Found;
use group_states::{Run, Succ};
use state_parts::Piece;
use std::alloc::AllocError;

/// What the number is reached as, which is found now if it wasn't before.
fn reach(is_last: bool, number: u32, found: &mut Found) -> Result<Succ, AllocError>
    requires { length found.old.keys + 1 < 2 ^ 32 }
    ensures found { OnOk result (found.new.keys ≡ numbers_with found.old.keys number) }
    ensures succ { IfOk result (λ succ. succ ≡ succ_of is_last found.new.keys number) }
{
    if number == 0 {
        return Ok(Succ::Dead);
    }
    let place = found.find(number)?;
    Ok(if is_last {
        Succ::Row(place)
    } else {
        Succ::State(place)
    })
}

/// Numbers what the pieces lead to, in order, and puts the runs of bytes with one successor after
/// the others.
///
/// Pieces that lead to one successor are one run.
pub(crate) fn join_runs(
    is_last: bool,
    pieces: &[Piece],
    found: &mut Found,
    runs: &mut Vec<Run>,
) -> Result<(), AllocError>
    requires pieces { Covers 0 pieces.now 256 }
    requires room { length found.old.keys + 256 < 2 ^ 32 }
    ensures found { OnOk result (found.new.keys
        ≡ fold numbers_with found.old.keys (map (number_at pieces.now) all_bytes)) }
    ensures runs { OnOk result ((more : List ℕ) → runs.new.items ≡ runs.old.items
        ++ runs_of (λ byte. succ_of is_last (found.new.keys ++ more) (number_at pieces.now byte))) }
{
    let mut last = pieces[0].last;
    let mut succ = reach(is_last, pieces[0].to, found)?;
    for k in 1..pieces.len() {
        let next = reach(is_last, pieces[k].to, found)?;
        if !succ.is_same(next) {
            runs.push(Run { last, to: succ })?;
        }
        succ = next;
        last = pieces[k].last;
    }
    runs.push(Run { last, to: succ })?;
    Ok(())
}
