//! Where each byte leads from a part.

ghost use Rattle.std.specs.Prelude.{◌≡◌, ℕ, ◌+◌, ◌-◌, ◌<◌, ◌≤◌, ◌^◌, ◌==◌, true, false, length};
ghost use Rattle.std.specs.Prelude.{slice_index_or, if◌then◌else◌, OnOk};
ghost use Rattle.state_parts.specs.Target.{count};
ghost use Rattle.state_parts.specs.Pieces.{number_at, no_piece, Covers, Pushed, Merges};

use crate::target::Target;
use std::alloc::AllocError;

/// A piece of neighbouring bytes that lead to one number. It begins after the piece before it, and
/// the first at byte 0.
#[derive(Clone, Copy)]
pub struct Piece {
    /// The last byte of the piece.
    pub last: u8,
    /// The number that its bytes lead to, 0 for nothing.
    pub to: u32,
}

/// Whether there are pieces and the last leads to the number.
fn ends_in(pieces: &[Piece], to: u32) -> bool
    ensures same { result ≡ true → (0 < length pieces.now)
        × ((slice_index_or pieces.now (length pieces.now - 1) no_piece).to ≡ to) }
    ensures other { result ≡ false → 0 < length pieces.now →
        ((slice_index_or pieces.now (length pieces.now - 1) no_piece).to == to) ≡ false }
{
    !pieces.is_empty() && pieces[pieces.len() - 1].to == to
}

/// Makes the bytes up to the last lead to the number: those after the bytes of the pieces.
///
/// Neighbours that lead to one number are one piece. It takes memory for the pieces.
pub fn push_piece(pieces: &mut Vec<Piece>, last: u8, to: u32) -> Result<(), AllocError>
    ensures { OnOk result (Pushed pieces.old.items pieces.new.items last to) }
{
    if ends_in(pieces.as_slice(), to) {
        pieces.pop();
        pieces.push(Piece { last, to })?;
        return Ok(());
    }
    pieces.push(Piece { last, to })?;
    Ok(())
}

/// The place after a piece that ends with the byte, and else the piece's own.
fn place_after(piece: Piece, last: u8, place: usize) -> usize
    requires { place + 1 < 2 ^ 64 }
    ensures { result ≡ (if piece.last == last then place + 1 else place) }
{
    if piece.last == last { place + 1 } else { place }
}

/// Makes the pieces those of a pair, of which the two parts have these pieces.
///
/// It takes memory for what is numbered anew, and for the pieces.
pub fn merge(
    target: &mut Target,
    one: &[Piece],
    other: &[Piece],
    pieces: &mut Vec<Piece>,
) -> Result<(), AllocError>
    requires one { Covers 0 one.now 256 }
    requires other { Covers 0 other.now 256 }
    requires left { (byte : ℕ) → byte < 256 → number_at one.now byte ≤ count target.old }
    requires right { (byte : ℕ) → byte < 256 → number_at other.now byte ≤ count target.old }
    ensures { OnOk result (Merges target.old target.new one.now other.now pieces.new.items) }
{
    pieces.clear();
    let mut i = 0usize;
    let mut j = 0usize;
    let mut first = 0usize;
    while first < 256 {
        let mine = one[i];
        let its = other[j];
        let last = mine.last.min(its.last);
        let to = target.join(mine.to, its.to)?;
        push_piece(pieces, last, to)?;
        i = place_after(mine, last, i);
        j = place_after(its, last, j);
        first = usize::from(last) + 1;
    }
    Ok(())
}
