//! The rules of a set, those of long prefixes first.
//!
//! Rules go by the prefixes of their values, field by field in the order of the layout, so first by
//! that of the source and then by that of the destination. Rules of the same prefixes go by which
//! of their other fields are wild, and those that tell nothing apart by their places.

ghost use Rattle.std.specs.Prelude.{◌≡◌, length, IfOk};
ghost use Rattle.std.specs.List.{range_with_len};
ghost use Rattle.rule_order.specs.Cut.{IsOrder};
ghost use Rattle.rule_order.specs.Order.{numbers_in};

use field_defs::{FieldDef, FieldValue};
use rule_set::RuleSet;
use std::alloc::{AllocError, Global};
use std::cmp::Ordering;

/// How many bits of a key the length of a prefix takes: it is at most 64.
const PREFIX_BITS: u32 = 7;

/// A rule, and what says where it stands in the order.
#[derive(Clone, Copy)]
pub(crate) struct Keyed {
    pub(crate) number: u32,
    key: u128,
}

/// A key that is written from its highest bits on. What finds no room is left out.
#[derive(Clone, Copy)]
struct KeyWriter {
    key: u128,
    room: u32,
}

impl KeyWriter {
    /// Writes a number of so many bits after the others.
    fn put(&mut self, number: u8, bits: u32) {
        self.room = self.room.saturating_sub(bits);
        self.key |= u128::from(number).checked_shl(self.room).unwrap_or(0);
    }
}

/// The greatest number of so many bytes.
fn greatest(size: u8) -> u64 {
    match size {
        1 => 0xff,
        2 => 0xffff,
        4 => 0xffff_ffff,
        _ => u64::MAX,
    }
}

/// Whether a value bounds a number of so many bytes.
fn bounds(value: &FieldValue, size: u8) -> bool {
    match *value {
        FieldValue::Mask { bits, .. } => bits > 0,
        FieldValue::Range { low, high } => low > 0 || high < greatest(size),
        FieldValue::Bitmask { mask, .. } => mask > 0,
    }
}

/// What says where a rule of these values stands in the order.
fn key_of(defs: &[FieldDef], values: &[FieldValue]) -> u128 {
    let mut writer = KeyWriter { key: 0, room: 128 };
    for value in values {
        if let FieldValue::Mask { bits, .. } = *value {
            writer.put(64u8.saturating_sub(bits), PREFIX_BITS);
        }
    }
    for (value, def) in values.iter().zip(defs.iter()) {
        match value {
            FieldValue::Mask { .. } => {}
            _ => writer.put(u8::from(!bounds(value, def.size)), 1),
        }
    }
    writer.key
}

/// Each rule of the set with its key.
fn keyed_rules(alloc: Global, rules: &RuleSet) -> Result<Vec<Keyed>, AllocError>
    ensures { IfOk result (λ keyed.
        numbers_in keyed.items ≡ range_with_len 0 (length rules.now.rules)) }
{
    let defs = rules.layout().fields();
    let count = rules.all().len();
    let mut keyed = Vec::with_capacity(alloc, count)?;
    for number in 0..count {
        let key = key_of(defs, rules.at(number).fields());
        keyed.push(Keyed {
            number: number as u32,
            key,
        })?;
    }
    Ok(keyed)
}

/// How two rules stand to one another.
#[inline]
fn compare(one: Keyed, other: Keyed) -> Ordering {
    match one.key.cmp(&other.key) {
        Ordering::Equal => one.number.cmp(&other.number),
        differs => differs,
    }
}

/// The places of rules that have keys.
fn numbers_in(alloc: Global, keyed: &[Keyed]) -> Result<Vec<u32>, AllocError>
    ensures { IfOk result (λ numbers. numbers.items ≡ numbers_in keyed.now) }
{
    let mut numbers = Vec::with_capacity(alloc, keyed.len())?;
    for rule in keyed {
        numbers.push(rule.number)?;
    }
    Ok(numbers)
}

/// The places of all rules of the set, in their order.
pub(crate) fn order_rules(alloc: Global, rules: &RuleSet) -> Result<Vec<u32>, AllocError>
    ensures { IfOk result (λ order. IsOrder rules.now order.items) }
{
    let mut keyed = keyed_rules(alloc, rules)?;
    keyed.sort_unstable_by(|one, other| compare(*one, *other));
    let order = numbers_in(alloc, keyed.as_slice())?;
    Ok(order)
}
