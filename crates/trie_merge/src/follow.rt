//! Where the parts of states lead from one place.

ghost use Rattle.std.specs.Prelude.{◌≡◌, ℕ, ◌+◌, ◌<◌, ◌≤◌, ◌⊎◌, true, length};
ghost use Rattle.std.specs.Prelude.{OnOk, IfOk, Some, None};
ghost use Rattle.state_parts.specs.Keys.{has_entry};
ghost use Rattle.state_parts.specs.Target.{count, Grows, HasEntry, IsFoundIn};
ghost use Rattle.group_states.specs.Entry.{ColumnView, entry_step, CanStep};
ghost use Rattle.trie_merge.specs.Led.{EntryLed, PartLed, StepsLed, AllLed};

use crate::column::Column;
use state_parts::{PartPieces, Parts, Piece, Target, merge, push_piece};
use std::alloc::AllocError;

/// The number of what is left of one rule.
fn number_of(target: &mut Target, found: Option<u32>) -> Result<u32, AllocError>
    ensures grows { OnOk result (Grows target.old target.new) }
    ensures number { IfOk result (λ number. IsFoundIn target.new found number) }
    ensures within { IfOk result (λ number. number ≤ count target.new) }
    ensures entries { OnOk result ((entry : ℕ) → HasEntry target.new entry →
        HasEntry target.old entry ⊎ (found ≡ Some entry)) }
{
    match found {
        None => Ok(0),
        Some(entry) => target.entry(entry),
    }
}

/// Makes the pieces those of an entry that every byte leaves as it is.
fn lead_kept(entry: u32, target: &mut Target, pieces: &mut Vec<Piece>) -> Result<(), AllocError>
    ensures { OnOk result ((column : ColumnView) →
        ((byte : ℕ) → byte < 256 → entry_step column entry byte ≡ Some entry) →
        EntryLed column entry target.old target.new pieces.new.items) }
{
    pieces.clear();
    let to = target.entry(entry)?;
    push_piece(pieces, u8::MAX, to)?;
    Ok(())
}

/// Makes the pieces those of one entry.
fn lead_entry(
    column: &Column,
    entry: u32,
    target: &mut Target,
    pieces: &mut Vec<Piece>,
) -> Result<(), AllocError>
    requires { CanStep column.now entry }
    ensures { OnOk result
        (EntryLed column.now entry target.old target.new pieces.new.items) }
{
    if column.keeps(entry) {
        return lead_kept(entry, target, pieces);
    }
    pieces.clear();
    let asked = column.ask(entry);
    let mut first = 0usize;
    while first < 256 {
        let byte = first as u8;
        let last = asked.last_alike(byte);
        let to = number_of(target, asked.step(byte))?;
        push_piece(pieces, last, to)?;
        first = usize::from(last) + 1;
    }
    Ok(())
}

/// Makes the pieces those of the part of the number `index + 1`: of an entry by its steps, and of a
/// pair from those of its two parts.
fn lead_part(
    column: &Column,
    parts: &Parts,
    steps: &PartPieces,
    target: &mut Target,
    index: usize,
    pieces: &mut Vec<Piece>,
) -> Result<(), AllocError>
    requires can { (entry : ℕ) → has_entry parts.now entry ≡ true → CanStep column.now entry }
    requires steps { StepsLed column.now parts.now target.old steps.now }
    requires next { index ≡ length steps.now }
    requires within { index < length parts.now }
    ensures { OnOk result
        (PartLed column.now parts.now (index + 1) target.old target.new pieces.new.items) }
{
    let (left, right) = parts.pair(index);
    if left == 0 {
        return lead_entry(column, right, target, pieces);
    }
    let one = steps.pieces(left as usize - 1);
    let other = steps.pieces(right as usize - 1);
    merge(target, one, other, pieces)
}

/// Works out where further parts lead, up to that of the number `until`, in the order of their
/// numbers: the two parts of a pair come before it.
pub(crate) fn lead_parts(
    column: &Column,
    parts: &Parts,
    steps: &mut PartPieces,
    target: &mut Target,
    until: usize,
    pieces: &mut Vec<Piece>,
) -> Result<(), AllocError>
    requires can { (entry : ℕ) → has_entry parts.now entry ≡ true → CanStep column.now entry }
    requires steps { StepsLed column.now parts.now target.old steps.old }
    requires within { until ≤ length parts.now }
    ensures led { OnOk result
        (AllLed column.now parts.now target.old target.new steps.new) }
    ensures far { OnOk result (until ≤ length steps.new) }
{
    for index in steps.len()..until {
        lead_part(column, parts, steps, target, index, pieces)?;
        steps.push(pieces.as_slice())?;
    }
    Ok(())
}
