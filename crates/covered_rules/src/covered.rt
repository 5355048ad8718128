//! Which rules no wide rule before them covers.

ghost use Rattle.std.specs.Prelude.{◌≡◌, ◌*◌, ◌<◌, ◌≤◌, length, All, IfOk};
ghost use Rattle.table_sizes.specs.Sizes.{max_rules};
ghost use Rattle.field_defs.specs.Lawful.{IsLayout};
ghost use Rattle.field_defs.specs.Layout.{max_fields};
ghost use Rattle.field_defs.specs.FieldBounds.{CanMatch};
ghost use Rattle.covered_rules.specs.Covered.{covers_value, covers_values, has_bits, covers_rule};
ghost use Rattle.covered_rules.specs.Covered.{covers, wild_bytes, is_wide_at, is_covered, uncovered};
ghost use Rattle.rule_set.specs.ValuesMatch.{CanMatchAll};

use field_defs::{FieldDef, FieldValue, field_matches, is_wild};
use rule_set::{RuleSet, StoredRule};
use std::alloc::{AllocError, Global};

/// How many wide rules are asked at most whether they cover a rule.
const MOST_WIDE: usize = 1024;

/// The places of the rules that no wide rule before them covers, in order.
///
/// The rules left out can't win: one of those that stay has a greater rank, all of their
/// categories, and lets through all that they let through. A rule is wide if its wild fields have
/// at least three fifths of the key's bytes. The first 1,024 wide rules that stay are asked, so
/// covered rules may stay too. It takes memory for a number a rule, and its time grows as the
/// number of rules times that of the wide ones.
pub(crate) fn uncovered(alloc: Global, rules: &RuleSet) -> Result<Vec<u32>, AllocError>
    ensures places { IfOk result
        (λ places. places.items ≡ uncovered rules.now.layout rules.now.rules) }
    ensures few { IfOk result (λ places. length places.items ≤ max_rules) }
{
    let mut kept = Kept {
        places: Vec::new(alloc),
        wide: Vec::new(alloc),
    };
    let count = rules.all().len();
    for place in 0..count {
        kept.meet(rules, place)?;
    }
    Ok(kept.places)
}

/// The rules that stay, of those met so far.
#[derive(Drop)]
struct Kept {
    /// Their places, in order.
    places: Vec<u32>,
    /// The first places of wide ones.
    wide: Vec<u32>,
}

impl Kept {
    ghost use Rattle.std.specs.Prelude.{◌≡◌, ◌+◌, ◌<◌, ◌≤◌, length, OnOk};
    ghost use Rattle.table_sizes.specs.Sizes.{max_rules};
    ghost use Rattle.covered_rules.specs.Covered.{IsKept};

    /// Keeps the next rule, unless a wide one that stays covers it.
    fn meet(&mut self, rules: &RuleSet, place: usize) -> Result<(), AllocError>
        requires place { place < length rules.now.rules }
        requires few { length rules.now.rules ≤ max_rules }
        requires kept { IsKept rules.now place self.old.places.items self.old.wide.items }
        ensures { OnOk result
            (IsKept rules.now (place + 1) self.new.places.items self.new.wide.items) }
    {
        if is_covered(rules, self.wide.as_slice(), place) {
            return Ok(());
        }
        self.places.push(place as u32)?;
        if self.wide.len() < MOST_WIDE && is_wide(rules, place) {
            self.wide.push(place as u32)?;
        }
        Ok(())
    }
}

/// Whether one of the wide rules covers the rule at the place. They stand before it.
fn is_covered(rules: &RuleSet, wide: &[u32], place: usize) -> bool
    requires wide { All (λ other. other < place) wide.now }
    requires place { place < length rules.now.rules }
    ensures { result ≡ is_covered rules.now.layout rules.now.rules wide.now place }
{
    for other in wide {
        if covers(rules, *other as usize, place) {
            return true;
        }
    }
    false
}

/// Whether the rule at the place covers the one at the later place.
fn covers(rules: &RuleSet, place: usize, later: usize) -> bool
    requires order { place < later }
    requires later { later < length rules.now.rules }
    ensures { result ≡ covers rules.now.layout rules.now.rules place later }
{
    let defs = rules.layout().fields();
    let rule = rules.at(place);
    let other = rules.at(later);
    // Of equal priorities the rule that was added first has the greater rank.
    other.tag().priority <= rule.tag().priority && covers_rule(defs, rule, other)
}

/// Whether the rule has all categories of the other, and lets through what it does.
fn covers_rule(defs: &[FieldDef], rule: &StoredRule, other: &StoredRule) -> bool
    requires values { CanMatchAll defs.now rule.now.fields }
    requires others { CanMatchAll defs.now other.now.fields }
    ensures { result ≡ covers_rule defs.now rule.now other.now }
{
    has_bits(rule.tag().category_mask, other.tag().category_mask)
        && covers_values(defs, rule.fields(), other.fields())
}

/// Whether each bit of the other mask is one of the mask.
fn has_bits(mask: u32, other: u32) -> bool
    ensures { result ≡ has_bits mask other }
{
    mask & other == other
}

/// Whether each value lets through what the other for the field does.
fn covers_values(defs: &[FieldDef], values: &[FieldValue], others: &[FieldValue]) -> bool
    requires values { CanMatchAll defs.now values.now }
    requires others { CanMatchAll defs.now others.now }
    ensures { result ≡ covers_values defs.now values.now others.now }
{
    for place in 0..defs.len() {
        if !covers_value(&values[place], &others[place], defs[place].size) {
            return false;
        }
    }
    true
}

/// Whether the value lets through what the other does, by their numbers.
fn covers_value(value: &FieldValue, other: &FieldValue, size: u8) -> bool
    requires value { CanMatch value.now size }
    requires other { CanMatch other.now size }
    ensures { result ≡ covers_value value.now other.now size }
{
    match (*value, *other) {
        (
            FieldValue::Mask { bits, .. },
            FieldValue::Mask {
                value: number,
                bits: more,
            },
        ) => { bits <= more && field_matches(value, size, number) }
        (
            FieldValue::Range { low, high },
            FieldValue::Range {
                low: from,
                high: to,
            },
        ) => { low <= from && to <= high }
        (
            FieldValue::Bitmask { mask, .. },
            FieldValue::Bitmask {
                value: number,
                mask: more,
            },
        ) => { mask & more == mask && field_matches(value, size, number) }
        _ => false,
    }
}

/// Whether wild fields of the rule at the place have at least three fifths of the key's bytes.
fn is_wide(rules: &RuleSet, place: usize) -> bool
    requires { place < length rules.now.rules }
    ensures { result ≡ is_wide_at rules.now.layout rules.now.rules place }
{
    let defs = rules.layout().fields();
    let rule = rules.at(place);
    5 * wild_bytes(defs, rule.fields()) >= 3 * rules.layout().key_len()
}

/// How many bytes of the key have wild fields.
fn wild_bytes(defs: &[FieldDef], values: &[FieldValue]) -> usize
    requires layout { IsLayout defs.now }
    requires values { CanMatchAll defs.now values.now }
    ensures value { result ≡ wild_bytes defs.now values.now }
    ensures bound { result ≤ 8 * max_fields }
{
    let mut bytes = 0;
    for place in 0..defs.len() {
        let size = defs[place].size;
        if is_wild(&values[place], size) {
            bytes += usize::from(size);
        }
    }
    bytes
}
