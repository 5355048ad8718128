//! Boxes as values of fields: the rows of values of their rules.

ghost use Rattle.std.specs.Prelude.{◌≡◌, ◌≤◌, ◌<◌, ◌+◌, ◌*◌, ◌^◌, ◌∷◌, ◌++◌, map, length, nat_lt};
ghost use Rattle.std.specs.Prelude.{IfOk, OnOk, IsTrue, MatchOption};
ghost use Rattle.std.specs.List.{AllZip};
ghost use Rattle.field_defs.specs.FieldBounds.{is_size};
ghost use Rattle.table_sizes.specs.Sizes.{max_rules};
ghost use Rattle.list_chains.specs.Spans.{IsFieldSpan};
ghost use Rattle.list_chains.specs.Values.{block, blocks_of, box_rows, each_before, span_values};
ghost use Rattle.list_chains.specs.Values.{takes_all, takes_none};

use crate::span::Span;
use field_defs::{FieldDef, FieldKind, FieldValue};
use std::alloc::{AllocError, Global};
use std::marker::Model;

/// The values of a rule, in the order of the fields. Contracts see the list.
#[derive(Drop)]
pub struct Row {
    values: Vec<FieldValue>,
}

impl Model for Row {
    ghost use Rattle.std.specs.Prelude.{List};
    ghost use Rattle.field_defs.specs.declared.field.FieldValue.{FieldValue};

    ghost Value = { List FieldValue };

    ghost view = { λ row. row.values.items };
}

impl Row {
    ghost use Rattle.std.specs.Prelude.{◌≡◌, [], ◌∷◌, IfOk};

    /// No values.
    fn none(alloc: Global) -> Row
        ensures { result ≡ [] }
    {
        Row {
            values: Vec::new(alloc),
        }
    }

    /// A value before those of another row.
    fn before(alloc: Global, value: FieldValue, rest: &Row) -> Result<Row, AllocError>
        ensures { IfOk result (λ row. row ≡ value ∷ rest.now) }
    {
        let mut values = Vec::new(alloc);
        values.push(value)?;
        values.extend_from_slice(rest.values())?;
        Ok(Row { values })
    }

    /// The values.
    pub fn values(&self) -> &[FieldValue]
        ensures { result.now ≡ self.now }
    {
        self.values.as_slice()
    }
}

/// The value of all numbers that agree with `base` in all but their last free bits.
fn block(kind: FieldKind, bits: u32, free: u32, base: u64) -> FieldValue
    requires bits { bits ≤ 64 }
    requires free { free ≤ bits }
    requires base { base + 2 ^ free ≤ 2 ^ 64 }
    ensures { result ≡ block kind bits free base }
{
    match kind {
        FieldKind::Mask => FieldValue::Mask {
            value: base,
            bits: (bits - free) as u8,
        },
        FieldKind::Range => FieldValue::Range {
            low: base,
            high: (u128::from(base) + (1 << free) - 1) as u64,
        },
        FieldKind::Bitmask => FieldValue::Bitmask {
            value: base,
            mask: ((1_u128 << bits) - (1_u128 << free)) as u64,
        },
    }
}

/// Whether a span takes all numbers from `base` on that differ in their free bits.
fn takes_all(base: u64, free: u32, span: Span) -> bool
    requires { free ≤ 64 }
    ensures { result ≡ takes_all base free span }
{
    span.low <= base && u128::from(base) + (1_u128 << free) <= u128::from(span.high) + 1
}

/// Whether it takes none of them.
fn takes_none(base: u64, free: u32, span: Span) -> bool
    requires { free ≤ 64 }
    ensures { result ≡ takes_none base free span }
{
    span.high < base || u128::from(base) + (1_u128 << free) <= u128::from(span.low)
}

/// Where the numbers after those begin that differ from `base` on in their free bits.
fn next_base(base: u64, free: u32) -> u64
    requires free { free ≤ 64 }
    requires base { base + 2 ^ free < 2 ^ 64 }
    ensures { result ≡ base + 2 ^ free }
{
    (u128::from(base) + (1_u128 << free)) as u64
}

/// Puts the blocks that a span takes of the numbers from `base` on that differ in their free bits.
fn put_blocks(
    into: &mut Vec<FieldValue>,
    kind: FieldKind,
    bits: u32,
    free: u32,
    base: u64,
    span: Span,
) -> Result<(), AllocError>
    requires bits { bits ≤ 64 }
    requires free { free ≤ bits }
    requires base { base + 2 ^ free ≤ 2 ^ 64 }
    ensures { OnOk result (into.new.items
        ≡ into.old.items ++ blocks_of (block kind bits) free base span) }
{
    if takes_all(base, free, span) {
        into.push(block(kind, bits, free, base))?;
        return Ok(());
    }
    if takes_none(base, free, span) {
        return Ok(());
    }
    let half = free - 1;
    put_blocks(into, kind, bits, half, base, span)?;
    put_blocks(into, kind, bits, half, next_base(base, half), span)
}

/// The values that let the numbers of a span through, and no others of the field.
fn span_values(alloc: Global, def: &FieldDef, span: Span) -> Result<Vec<FieldValue>, AllocError>
    requires { IsTrue (is_size def.now.size) }
    ensures { IfOk result (λ values. values.items ≡ span_values def.now span) }
{
    let mut values = Vec::new(alloc);
    let bits = 8 * u32::from(def.size);
    match def.kind {
        FieldKind::Range => values.push(FieldValue::Range {
            low: span.low,
            high: span.high,
        })?,
        kind => put_blocks(&mut values, kind, bits, bits, 0, span)?,
    }
    Ok(values)
}

/// Puts a value before each of some rests.
fn put_before(
    alloc: Global,
    into: &mut Vec<Row>,
    value: FieldValue,
    rests: &[Row],
) -> Result<(), AllocError>
    ensures { OnOk result (into.new.items
        ≡ into.old.items ++ map (λ rest. value ∷ rest) rests.now) }
{
    for rest in rests {
        into.push(Row::before(alloc, value, rest)?)?;
    }
    Ok(())
}

/// Whether there are more rows of each value before each rest than there may be.
#[tactic(auto, using(crate::proofs::LawfulRows::length_each))]
fn are_too_many(values: &[FieldValue], rests: &[Row], most: usize) -> bool
    requires { most ≤ max_rules }
    ensures { result ≡ nat_lt most (length (each_before values.now rests.now)) }
{
    values.len().saturating_mul(rests.len()) > most
}

/// Each value before each of some rests, or None where there are more than so many.
fn each_before(
    alloc: Global,
    values: &[FieldValue],
    rests: &[Row],
    most: usize,
) -> Result<Option<Vec<Row>>, AllocError>
    requires { most ≤ max_rules }
    ensures { IfOk result (λ rows. MatchOption rows
        (most < length (each_before values.now rests.now))
        (λ rows. (rows.items ≡ each_before values.now rests.now) × (length rows.items ≤ most))) }
{
    if are_too_many(values, rests, most) {
        return Ok(None);
    }
    let mut rows = Vec::new(alloc);
    for value in values {
        put_before(alloc, &mut rows, *value, rests)?;
    }
    Ok(Some(rows))
}

/// The rows of the rules of a box, or None where there are more than so many.
pub fn box_rows(
    alloc: Global,
    defs: &[FieldDef],
    spans: &[Span],
    most: usize,
) -> Result<Option<Vec<Row>>, AllocError>
    requires spans { AllZip IsFieldSpan defs.now spans.now }
    requires most { most ≤ max_rules }
    ensures { IfOk result (λ rows. MatchOption rows (most < length (box_rows defs.now spans.now))
        (λ rows. (rows.items ≡ box_rows defs.now spans.now) × (length rows.items ≤ most))) }
{
    if most == 0 {
        return Ok(None);
    }
    let mut rows = Vec::new(alloc);
    rows.push(Row::none(alloc))?;
    for gone in 0..defs.len() {
        let place = defs.len() - 1 - gone;
        let values = span_values(alloc, &defs[place], spans[place])?;
        match each_before(alloc, &values, &rows, most)? {
            Some(more) => rows = more,
            None => return Ok(None),
        }
    }
    Ok(Some(rows))
}
