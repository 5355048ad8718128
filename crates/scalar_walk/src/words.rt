//! How walks take words of a table: each is counted as it is taken.

ghost use Rattle.std.specs.Prelude.{◌≡◌, ◌+◌, ◌<◌, length, slice_index, if◌then◌else◌};

use flat_table::Steps;
use std::sync::ledger::Ledger;

/// The word at a place, which a walk takes. It counts a transition, if the walk is on its way.
///
/// Each word that the walks take of a table is taken here. A walk that has ended takes one too,
/// which is then left out, and so isn't counted.
#[inline]
pub(crate) fn take_word<L: Ledger>(
    words: &[u64],
    place: usize,
    on_way: bool,
    steps: &mut Steps<L>,
) -> u64
    requires { place < length words.now }
    ensures word { result ≡ slice_index words.now place }
    ensures steps { steps.new ≡ steps.old + (if on_way then 1 else 0) }
{
    if on_way {
        steps.raise();
    }
    words[place]
}
