//! The input groups of a key that a trie keeps.

ghost use Rattle.std.specs.Prelude.{◌≡◌, ◌==◌, ◌^◌, ◌<◌, ◌≤◌, ◌||◌, not, true, map, length};
ghost use Rattle.std.specs.Prelude.{slice_index_or, All, IfOk};
ghost use Rattle.std.specs.List.{list_all};
ghost use Rattle.field_defs.specs.declared.field.FieldValue.TheVariants.{Mask};
ghost use Rattle.field_defs.specs.FieldBounds.{CanMatch, is_wild};
ghost use Rattle.field_defs.specs.Layout.{key_len_of};
ghost use Rattle.table_sizes.specs.Groups.{group_of, max_key_len};
ghost use Rattle.group_states.specs.Kept.{is_wild_place, key_places};
ghost use Rattle.trie_merge.specs.Wild.{is_idle_by, is_kept_by, places_by, bits_by};

use crate::column::{FieldPlace, field_at};
use field_defs::is_wild;
use rule_set::{RuleSet, StoredRule};
use std::alloc::{AllocError, Global};
use table_sizes::group_of;

/// The kept input groups of a trie.
#[derive(Drop)]
pub(crate) struct Kept {
    /// Their places in the key, ascending.
    pub(crate) places: Vec<usize>,
    /// The input groups, bit g for input group g.
    pub(crate) bits: u128,
}

impl Kept {
    ghost use Rattle.std.specs.Prelude.{◌≡◌, ◌<◌, ◌≤◌, length, All, IfOk};
    ghost use Rattle.field_defs.specs.Layout.{key_len_of};
    ghost use Rattle.table_sizes.specs.Groups.{max_key_len};
    ghost use Rattle.group_states.specs.Kept.{kept_places, kept_bits};

    /// The input groups that the rules keep, and their places.
    pub(crate) fn new(alloc: Global, rules: &RuleSet, group: &[u32]) -> Result<Self, AllocError>
        requires numbers { All (λ number. number < length rules.now.rules) group.now }
        requires some { 0 < key_len_of rules.now.layout }
        requires few { key_len_of rules.now.layout ≤ max_key_len }
        ensures places { IfOk result (λ kept. kept.places.items ≡ kept_places rules.now group.now) }
        ensures bits { IfOk result (λ kept. kept.bits ≡ kept_bits rules.now group.now) }
    {
        let wild = wild_places(alloc, rules, group)?;
        let places = kept_places(alloc, wild.as_slice())?;
        let bits = kept_bits(wild.as_slice());
        Ok(Kept { places, bits })
    }
}

/// Whether a rule's value of that field is wild.
fn is_wild_in(rule: &StoredRule, at: FieldPlace) -> bool
    requires within { at.field < length rule.now.fields }
    requires can { CanMatch (slice_index_or rule.now.fields at.field (Mask 0 0)) at.size }
    ensures { result ≡ is_wild (slice_index_or rule.now.fields at.field (Mask 0 0)) at.size }
{
    is_wild(&rule.fields()[at.field], at.size)
}

/// Whether all rules of the group are wild in the field that has the place.
fn is_wild_place(rules: &RuleSet, group: &[u32], place: usize) -> bool
    requires numbers { All (λ number. number < length rules.now.rules) group.now }
    requires place { place < key_len_of rules.now.layout }
    ensures { result ≡ is_wild_place rules.now group.now place }
{
    let at = field_at(rules.layout().fields(), place);
    for number in group {
        if !is_wild_in(rules.at(*number as usize), at) {
            return false;
        }
    }
    true
}

/// Whether each place of a key is wild in all rules of the group.
fn wild_places(alloc: Global, rules: &RuleSet, group: &[u32]) -> Result<Vec<bool>, AllocError>
    requires { All (λ number. number < length rules.now.rules) group.now }
    ensures { IfOk result (λ wild. wild.items
        ≡ map (is_wild_place rules.now group.now) (key_places rules.now)) }
{
    let mut wild = Vec::new(alloc);
    for place in 0..rules.layout().key_len() {
        wild.push(is_wild_place(rules, group, place))?;
    }
    Ok(wild)
}

/// Whether the place is of another input group, or wild.
fn decides_nothing(wild: &[bool], input: usize, place: usize) -> bool
    requires few { length wild.now ≤ max_key_len }
    requires place { place < length wild.now }
    ensures { result ≡ (not (group_of place == input) || slice_index_or wild.now place true) }
{
    group_of(place) != input || wild[place]
}

/// Whether the places of the input group are all wild.
fn is_idle(wild: &[bool], input: usize) -> bool
    requires { length wild.now ≤ max_key_len }
    ensures { result ≡ is_idle_by wild.now input }
{
    for place in 0..wild.len() {
        if !decides_nothing(wild, input, place) {
            return false;
        }
    }
    true
}

/// Whether all places are wild.
fn all_wild(wild: &[bool]) -> bool
    ensures { result ≡ list_all (λ is. is) wild.now }
{
    for is in wild {
        if !*is {
            return false;
        }
    }
    true
}

/// Whether the input group is kept.
#[tactic(auto, unfolding(crate::specs::Wild::is_kept_by))]
fn is_kept(wild: &[bool], input: usize) -> bool
    requires { length wild.now ≤ max_key_len }
    ensures { result ≡ is_kept_by wild.now input }
{
    !is_idle(wild, input) || (input == 0 && all_wild(wild))
}

/// The places of the kept input groups, ascending.
fn kept_places(alloc: Global, wild: &[bool]) -> Result<Vec<usize>, AllocError>
    requires { length wild.now ≤ max_key_len }
    ensures { IfOk result (λ places. places.items ≡ places_by wild.now) }
{
    let mut places = Vec::new(alloc);
    for place in 0..wild.len() {
        if is_kept(wild, group_of(place)) {
            places.push(place)?;
        }
    }
    Ok(places)
}

/// The number in which the one bit is set.
fn bit(place: usize) -> u128
    requires { place < 128 }
    ensures { result ≡ 2 ^ place }
{
    1 << place
}

/// The kept input groups, bit g for input group g.
fn kept_bits(wild: &[bool]) -> u128
    requires some { 0 < length wild.now }
    requires few { length wild.now ≤ max_key_len }
    ensures { result ≡ bits_by wild.now }
{
    let mut bits = 0u128;
    for input in 0..group_of(wild.len() - 1) + 1 {
        if is_kept(wild, input) {
            bits += bit(input);
        }
    }
    bits
}
