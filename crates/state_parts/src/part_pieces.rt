//! The pieces of many parts.

use crate::pieces::Piece;
use crate::slices::slice;
use std::alloc::{AllocError, Global};
use std::marker::Model;

/// The pieces of parts, in the order of their numbers. Contracts see the list of the pieces of each
/// part.
#[derive(Drop)]
pub struct PartPieces {
    pieces: Vec<Piece>,
    ends: Vec<usize>,
}

impl Model for PartPieces {
    ghost use Rattle.std.specs.Prelude.{List, length};
    ghost use Rattle.state_parts.specs.declared.pieces.Piece.{Piece};
    ghost use Rattle.state_parts.specs.Slices.{pieces_of, IsPieces};

    ghost Value = { List (List Piece) };

    ghost view = { λ s. pieces_of s.pieces.items 0 s.ends.items };

    ghost invariant = { λ s. IsPieces 0 s.ends.items (length s.pieces.items) };
}

impl PartPieces {
    ghost use Rattle.std.specs.Prelude.{◌≡◌, ◌<◌, ◌++◌, ◌∷◌, [], length, slice_index_or};
    ghost use Rattle.std.specs.Prelude.{OnOk, IfOk};

    /// Of no parts, with room for so many of one piece each. It takes the memory of that room.
    pub fn with_room(alloc: Global, count: usize) -> Result<Self, AllocError>
        ensures { IfOk result (λ pieces. pieces ≡ []) }
    {
        Ok(PartPieces {
            pieces: Vec::with_capacity(alloc, count)?,
            ends: Vec::with_capacity(alloc, count)?,
        })
    }

    /// Of how many parts.
    pub fn len(&self) -> usize
        ensures { result ≡ length self.now }
    {
        self.ends.len()
    }

    /// The pieces of the part of the number `index + 1`.
    pub fn pieces(&self, index: usize) -> &[Piece]
        requires { index < length self.now }
        ensures { result.now ≡ slice_index_or self.now index [] }
    {
        slice(self.pieces.as_slice(), self.ends.as_slice(), index)
    }

    /// Puts the pieces of one more part after the others. It takes memory for them.
    pub fn push(&mut self, pieces: &[Piece]) -> Result<(), AllocError>
        ensures { OnOk result (self.new ≡ self.old ++ pieces.now ∷ []) }
    {
        self.ends.reserve(1)?;
        self.pieces.extend_from_slice(pieces)?;
        self.ends.push(self.pieces.len())?;
        Ok(())
    }
}
