//! What one place of the key asks of the rules.

ghost use Rattle.std.specs.Prelude.{◌≡◌, ◌<◌, length};
ghost use Rattle.field_defs.specs.FieldBounds.{CanMatch};
ghost use Rattle.field_defs.specs.Layout.{key_len_of};
ghost use Rattle.group_states.specs.Entry.{field_at};
ghost use Rattle.trie_merge.specs.Asked.{stays_free};

use crate::entry::{edge_in, entry_of, is_free, number_in};
use field_defs::{FieldDef, FieldKind, FieldValue, is_wild};
use node_expand::{Allowed, Edge, start_edge};
use rule_set::RuleSet;
use std::alloc::{AllocError, Global};
use std::marker::Model;

/// The values of all rules, in the order of the set, for the field that has the place of the key,
/// the size of the field in bytes, and the place in the field. Contracts see the three.
#[derive(Drop)]
pub(crate) struct Column {
    values: Vec<FieldValue>,
    size: u8,
    place: u8,
}

/// Where a place of the key lies.
#[derive(Clone, Copy)]
pub(crate) struct FieldPlace {
    pub(crate) field: usize,
    pub(crate) size: u8,
    pub(crate) place: u8,
}

/// The field of a place of the key, its size, and the place in the field.
pub(crate) fn field_at(defs: &[FieldDef], place: usize) -> FieldPlace
    requires { place < key_len_of defs.now }
    ensures at { record { field = result.field; size = result.size; place = result.place }
        ≡ field_at defs.now place }
    ensures field { result.field < length defs.now }
    ensures place { result.place < result.size }
{
    let mut left = place;
    for (field, def) in defs.iter().enumerate() {
        let size = usize::from(def.size);
        if left < size {
            return FieldPlace {
                field,
                size: def.size,
                place: left as u8,
            };
        }
        left -= size;
    }
    unreachable!()
}

/// Whether a free rest of the value, of which no end is inner, stays free after each byte at the
/// place of a field of that size.
fn stays_free(value: &FieldValue, size: u8, place: u8) -> bool
    requires { CanMatch value.now size }
    ensures { result ≡ stays_free size place value.now }
{
    is_wild(value, size) || (place > 0 && value.kind() != FieldKind::Bitmask)
}

impl Model for Column {
    ghost use Rattle.group_states.specs.Entry.{ColumnView};

    ghost Value = { ColumnView };

    ghost view = { λ c. record { values = c.values.items; size = c.size; place = c.place } };
}

impl Column {
    ghost use Rattle.std.specs.Prelude.{◌≡◌, ℕ, ◌<◌, ◌≤◌, ◌||◌, true, false, length, Some, None};
    ghost use Rattle.std.specs.Prelude.{slice_index_or, IfOk};
    ghost use Rattle.field_defs.specs.Layout.{key_len_of};
    ghost use Rattle.group_states.specs.Entry.{column_at, number_in, value_in, edge_before};
    ghost use Rattle.group_states.specs.Entry.{entry_step, is_entry_cut, CanStep};
    ghost use Rattle.trie_merge.specs.Asked.{IsAsked};

    /// What the place of the key has of each rule.
    ///
    /// It takes memory for a value of each rule.
    #[tactic(auto, unfolding(group_states::specs::Entry::column_at))]
    pub(crate) fn new(alloc: Global, rules: &RuleSet, place: usize) -> Result<Self, AllocError>
        requires { place < key_len_of rules.now.layout }
        ensures { IfOk result (λ column. column ≡ column_at rules.now place) }
    {
        let at = field_at(rules.layout().fields(), place);
        let mut values = Vec::with_capacity(alloc, rules.len())?;
        for i in 0..rules.len() {
            values.push(rules.at(i).fields()[at.field])?;
        }
        Ok(Column {
            values,
            size: at.size,
            place: at.place,
        })
    }

    /// The value of the entry's rule.
    #[inline]
    fn value(&self, entry: u32) -> &FieldValue
        requires { number_in entry < length self.now.values }
        ensures { result.now ≡ value_in self.now entry }
    {
        &self.values[number_in(entry) as usize]
    }

    /// The edge of the entry before the place.
    #[inline]
    fn edge_before(&self, entry: u32) -> Edge
        requires { CanStep self.now entry }
        ensures { result ≡ edge_before self.now entry }
    {
        if self.place == 0 {
            start_edge(self.value(entry), self.size)
        } else {
            edge_in(entry)
        }
    }

    /// What the place leaves of the entry, to be asked byte by byte.
    #[inline]
    pub(crate) fn ask(&self, entry: u32) -> Asked
        requires { CanStep self.now entry }
        ensures { IsAsked self.now entry result }
    {
        let edge = self.edge_before(entry);
        Asked {
            number: number_in(entry),
            allowed: Allowed::new(self.value(entry), self.size, self.place, edge),
        }
    }

    /// Whether every byte leaves the entry as it is. Where it says no, some may do so, too.
    pub(crate) fn keeps(&self, entry: u32) -> bool
        requires { CanStep self.now entry }
        ensures step { result ≡ true → (byte : ℕ) → byte < 256
            → entry_step self.now entry byte ≡ Some entry }
        ensures uncut { result ≡ true → (byte : ℕ) → byte < 256
            → is_entry_cut self.now entry byte ≡ false }
    {
        is_free(entry) && stays_free(self.value(entry), self.size, self.place)
    }
}

/// An entry, and the bytes that its rule's value allows at a place, which are worked out once.
#[derive(Clone, Copy)]
pub(crate) struct Asked {
    number: u32,
    allowed: Allowed,
}

impl Asked {
    ghost use Rattle.std.specs.Prelude.{◌≡◌, ℕ, ◌<◌, ◌≤◌, ◌^◌};
    ghost use Rattle.node_expand.specs.Allowed.{IsFilled};
    ghost use Rattle.group_states.specs.Entry.{ColumnView, entry_step};
    ghost use Rattle.trie_merge.specs.Asked.{IsAsked, StepsAlike};

    /// The entry after the byte, or none where its rule has no rest.
    #[inline]
    pub(crate) fn step(self, byte: u8) -> Option<u32>
        requires { self.number < 2 ^ 30 }
        ensures { (column : ColumnView) (entry : ℕ) → IsAsked column entry self →
            result ≡ entry_step column entry byte }
    {
        let after = self.allowed.edge_at(byte)?;
        Some(entry_of(self.number, after))
    }

    /// The last byte up to which the entry becomes what it becomes after the byte: the one before
    /// the next cut, or 255.
    #[inline]
    pub(crate) fn last_alike(self, byte: u8) -> u8
        requires { IsFilled self.allowed }
        ensures alike { (column : ColumnView) (entry : ℕ) → IsAsked column entry self →
            StepsAlike column entry byte result }
        ensures ordered { byte ≤ result }
    {
        self.allowed.last_alike(byte)
    }
}
