//! The order in which the rules of a group are the leaves of its tree.
//!
//! Every order gives the same states. Where rules that let the same bytes through stand side by
//! side, a part of the tree has few different rests, and more states share it. So rules go by their
//! fields, one after the other: by the least number that a value lets through, and where that is
//! one, the wider value first. Wild values come first of all. Fields in which all rules are wild
//! don't count.

ghost use Rattle.std.specs.Prelude.{◌≡◌, ◌<◌, length, All, IfOk};
ghost use Rattle.std.specs.List.Sorted.{IsPermutation};
ghost use Rattle.trie_merge.specs.Started.{numbers_in};

use field_defs::{FieldDef, FieldValue};
use rule_set::RuleSet;
use std::alloc::{AllocError, Global};
use std::cmp::Ordering;

/// The greatest number of so many bytes.
fn greatest(size: u8) -> u64 {
    match size {
        1 => 0xff,
        2 => 0xffff,
        4 => 0xffff_ffff,
        _ => u64::MAX,
    }
}

/// The least and the greatest number that the value lets through.
fn span_of(value: &FieldValue, size: u8) -> (u64, u64) {
    let all = greatest(size);
    match *value {
        FieldValue::Mask { value, bits } => {
            let free = all.checked_shr(u32::from(bits)).unwrap_or(0);
            (value & !free, value | free)
        }
        FieldValue::Range { low, high } => (low, high),
        FieldValue::Bitmask { value, mask } => (value & mask, value | (all & !mask)),
    }
}

/// A field of a kept place: its number and its size.
#[derive(Clone, Copy)]
struct KeptField {
    field: usize,
    size: u8,
}

/// The fields that have the kept places. In the others all rules of the group are wild.
fn kept_fields(
    alloc: Global,
    defs: &[FieldDef],
    places: &[usize],
) -> Result<Vec<KeptField>, AllocError> {
    let mut fields = Vec::with_capacity(alloc, defs.len())?;
    let mut first = 0usize;
    for field in 0..defs.len() {
        let size = defs[field].size;
        if places.contains(&first) {
            fields.push(KeptField { field, size })?;
        }
        first = first.wrapping_add(usize::from(size));
    }
    Ok(fields)
}

/// A rule, its first key, and where its keys begin.
#[derive(Clone, Copy)]
pub(crate) struct Keyed {
    pub(crate) number: u32,
    lead: u128,
    first: usize,
}

/// Keys, each of two numbers, of which the first decides first.
#[derive(Drop)]
struct Keys {
    all: Vec<u128>,
    /// Whether the last key has one number so far.
    is_half: bool,
}

impl Keys {
    /// Puts a number after the others.
    fn push(&mut self, number: u64) -> Result<(), AllocError> {
        if !self.is_half {
            self.all.push(u128::from(number) << 64)?;
            self.is_half = true;
            return Ok(());
        }
        if let Some(key) = self.all.last_mut() {
            *key |= u128::from(number);
        }
        self.is_half = false;
        Ok(())
    }

    /// Puts what says where a value stands in the order after the others: the least number that it
    /// lets through, and then the greatest, from above.
    fn push_value(&mut self, value: &FieldValue, size: u8) -> Result<(), AllocError> {
        let (low, high) = span_of(value, size);
        if size > 4 {
            self.push(low)?;
            return self.push(!high);
        }
        self.push(low << 32 | !high & 0xffff_ffff)
    }

    /// Puts the keys of a rule's values after the others.
    fn push_rule(&mut self, values: &[FieldValue], fields: &[KeptField]) -> Result<(), AllocError> {
        self.is_half = false;
        for kept in fields {
            if let Some(value) = values.get(kept.field) {
                self.push_value(value, kept.size)?;
            }
        }
        Ok(())
    }
}

/// The rules of a group in their own order, and the keys of all of them, as many for each.
#[derive(Drop)]
struct KeyedRules {
    rules: Vec<Keyed>,
    keys: Keys,
}

impl KeyedRules {
    ghost use Rattle.std.specs.Prelude.{◌≡◌, ◌<◌, ◌++◌, ◌∷◌, [], length, OnOk};
    ghost use Rattle.trie_merge.specs.Started.{numbers_in};

    /// Puts a rule and its keys after the others.
    fn push(&mut self, rules: &RuleSet, number: u32, fields: &[KeptField]) -> Result<(), AllocError>
        requires { number < length rules.now.rules }
        ensures { OnOk result
            (numbers_in self.new.rules.items ≡ numbers_in self.old.rules.items ++ number ∷ []) }
    {
        let first = self.keys.all.len();
        self.keys
            .push_rule(rules.at(number as usize).fields(), fields)?;
        let lead = key_at(self.keys.all.as_slice(), first);
        self.rules.push(Keyed {
            number,
            lead,
            first,
        })?;
        Ok(())
    }
}

/// The keys of the rules of the group.
fn keys_of(
    alloc: Global,
    rules: &RuleSet,
    group: &[u32],
    places: &[usize],
) -> Result<KeyedRules, AllocError>
    requires { All (λ number. number < length rules.now.rules) group.now }
    ensures { IfOk result (λ keyed. numbers_in keyed.rules.items ≡ group.now) }
{
    let fields = kept_fields(alloc, rules.layout().fields(), places)?;
    let mut keyed = KeyedRules {
        rules: Vec::with_capacity(alloc, group.len())?,
        keys: Keys {
            all: Vec::with_capacity(alloc, group.len())?,
            is_half: false,
        },
    };
    for number in group {
        keyed.push(rules, *number, fields.as_slice())?;
    }
    Ok(keyed)
}

/// The key of that place, or 0.
#[inline]
fn key_at(keys: &[u128], place: usize) -> u128 {
    match keys.get(place) {
        Some(key) => *key,
        None => 0,
    }
}

/// How two rules stand to one another, by the first of so many keys that tells. Mostly that is the
/// first of all.
#[inline]
fn compare(keys: &[u128], count: usize, one: Keyed, other: Keyed) -> Ordering {
    match one.lead.cmp(&other.lead) {
        Ordering::Equal => {}
        differs => return differs,
    }
    for k in 1..count {
        let its = key_at(keys, one.first.wrapping_add(k));
        match its.cmp(&key_at(keys, other.first.wrapping_add(k))) {
            Ordering::Equal => {}
            differs => return differs,
        }
    }
    Ordering::Equal
}

/// The rules of the group in the order of the leaves. `places` are the places that are kept.
pub(crate) fn order_rules(
    alloc: Global,
    rules: &RuleSet,
    group: &[u32],
    places: &[usize],
) -> Result<Vec<Keyed>, AllocError>
    requires { All (λ number. number < length rules.now.rules) group.now }
    ensures { IfOk result (λ order. IsPermutation group.now (numbers_in order.items)) }
{
    let keyed = keys_of(alloc, rules, group, places)?;
    let mut order = keyed.rules;
    let keys = keyed.keys.all.as_slice();
    let count = keys.len() / order.len().max(1);
    order.sort_unstable_by(|one, other| compare(keys, count, *one, *other));
    Ok(order)
}
