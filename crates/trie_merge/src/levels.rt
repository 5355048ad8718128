//! The merged states of a group of rules.

use crate::merge::Pieces;
use group_states::Run;
use state_parts::slice;
use std::marker::Model;
use table_sizes::ROW_LEN;

/// The runs of the states of one kept place. Contracts see the list of the runs of each state.
#[derive(Drop)]
pub(crate) struct Level {
    pieces: Pieces,
}

impl Model for Level {
    ghost use Rattle.std.specs.Prelude.{List, length};
    ghost use Rattle.group_states.specs.declared.run.Run.{Run};
    ghost use Rattle.state_parts.specs.Slices.{pieces_of, IsPieces};

    ghost Value = { List (List Run) };

    ghost view = { λ l. pieces_of l.pieces.runs.items 0 l.pieces.ends.items };

    ghost invariant = { λ l. IsPieces 0 l.pieces.ends.items (length l.pieces.runs.items) };
}

impl Level {
    ghost use Rattle.std.specs.Prelude.{◌≡◌, ◌<◌, [], length, slice_index_or};
    ghost use Rattle.state_parts.specs.Slices.{pieces_of, IsPieces};

    /// The level of the pieces.
    pub(crate) fn new(pieces: Pieces) -> Self
        requires { IsPieces 0 pieces.ends.items (length pieces.runs.items) }
        ensures { result ≡ pieces_of pieces.runs.items 0 pieces.ends.items }
    {
        Level { pieces }
    }

    /// How many states there are.
    fn len(&self) -> usize
        ensures { result ≡ length self.now }
    {
        self.pieces.ends.len()
    }

    /// The runs of one state.
    fn runs(&self, state: usize) -> &[Run]
        requires { state < length self.now }
        ensures { result.now ≡ slice_index_or self.now state [] }
    {
        slice(
            self.pieces.runs.as_slice(),
            self.pieces.ends.as_slice(),
            state,
        )
    }
}

/// The merged states of a group of rules, kept place by kept place. Contracts see the kept input
/// groups, the group of rules, the runs of each state at each place, the rows and the words.
pub struct Levels {
    pub(crate) kept: u128,
    pub(crate) group: Vec<u32>,
    pub(crate) levels: Vec<Level>,
    pub(crate) rows: Vec<[u32; ROW_LEN]>,
    pub(crate) words: u64,
}

/// It is written out so that letting go is one call, here and in the crates above.
impl Drop for Levels {
    fn drop(self) {
        let Levels {
            kept: _,
            group: _,
            levels: _,
            rows: _,
            words: _,
        } = self;
    }
}

impl Model for Levels {
    ghost use Rattle.group_states.specs.Levels.{LevelsView};

    ghost Value = { LevelsView };

    ghost view = { λ l. record {
      kept = l.kept;
      group = l.group.items;
      levels = l.levels.items;
      rows = l.rows.items;
      words = l.words;
    } };
}

impl Levels {
    ghost use Rattle.std.specs.Prelude.{◌≡◌, ◌<◌, [], length, slice_index_or};

    /// The kept input groups, bit g for input group g.
    pub fn kept(&self) -> u128
        ensures { result ≡ self.now.kept }
    {
        self.kept
    }

    /// The group: the places of its rules in the set, ascending.
    pub fn group(&self) -> &[u32]
        ensures { result.now ≡ self.now.group }
    {
        self.group.as_slice()
    }

    /// How many kept places there are.
    pub fn depths(&self) -> usize
        ensures { result ≡ length self.now.levels }
    {
        self.levels.len()
    }

    /// How many states there are at the kept place of that number, which is below
    /// [`Levels::depths`].
    pub fn states(&self, depth: usize) -> usize
        requires { depth < length self.now.levels }
        ensures { result ≡ length (slice_index_or self.now.levels depth []) }
    {
        self.levels[depth].len()
    }

    /// The maximal runs of bytes with one successor, in order, the last ending at 255.
    ///
    /// The depth is below [`Levels::depths`] and the state below [`Levels::states`].
    pub fn runs(&self, depth: usize, state: usize) -> &[Run]
        requires depth { depth < length self.now.levels }
        requires state { state < length (slice_index_or self.now.levels depth []) }
        ensures { result.now ≡ slice_index_or (slice_index_or self.now.levels depth []) state [] }
    {
        self.levels[depth].runs(state)
    }

    /// How many rows there are.
    pub fn rows(&self) -> usize
        ensures { result ≡ length self.now.rows }
    {
        self.rows.len()
    }

    /// The row of that number, which is below [`Levels::rows`]: for each category the winner's
    /// number, which is its place in the set plus 1, or 0 for none.
    pub fn row(&self, r: usize) -> &[u32; ROW_LEN]
        requires { r < length self.now.rows }
        ensures { result.now ≡ slice_index_or self.now.rows r [] }
    {
        &self.rows[r]
    }

    /// The words of a table of the states: 1, 5 or 256 for each, and 16 for each row.
    pub fn words(&self) -> u64
        ensures { result ≡ self.now.words }
    {
        self.words
    }
}
