//! Rules as C gives them.

ghost use Rattle.std.specs.Prelude.{◌≡◌, ◌*◌, ◌≤◌, length, IfOk};
ghost use Rattle.field_defs.specs.Layout.{max_fields};
ghost use Rattle.acl_c.specs.Rules.{bits_of, value_of, tag_of, fields_from};
ghost use Rattle.acl_c.specs.Rules.{rules_from, are_whole};

use arrayvec::ArrayVec;
use field_defs::{FieldDef, FieldKind, FieldValue, MAX_FIELDS};
use rule_set::{RuleTag, StoredRule};
use std::alloc::{AllocError, Global};

/// `struct aclc_rule`: what a rule is for, apart from the keys that it matches.
#[repr(C)]
#[derive(Clone, Copy)]
pub struct Tag {
    pub category_mask: u32,
    pub priority: i32,
    pub userdata: u32,
}

/// `struct aclc_value`: the value of a rule for a field. The kind of the field says what it means.
#[repr(C)]
#[derive(Clone, Copy)]
pub struct Value {
    pub value: u64,
    pub mask_range: u64,
}

/// The place of a rule among those that are given, and that of a field.
#[derive(Clone, Copy)]
pub(crate) struct Place {
    pub rule: u32,
    pub field: u32,
}

/// How many bits a mask has. More than 255, which no field has, are 255.
fn bits_of(mask_range: u64) -> u8
    ensures { result ≡ bits_of mask_range }
{
    if mask_range <= 255 {
        return mask_range as u8;
    }
    255
}

/// The value for a field of the kind.
fn value_of(kind: FieldKind, given: &Value) -> FieldValue
    ensures { result ≡ value_of kind given.now }
{
    match kind {
        FieldKind::Mask => FieldValue::Mask {
            value: given.value,
            bits: bits_of(given.mask_range),
        },
        FieldKind::Range => FieldValue::Range {
            low: given.value,
            high: given.mask_range,
        },
        FieldKind::Bitmask => FieldValue::Bitmask {
            value: given.value,
            mask: given.mask_range,
        },
    }
}

/// The tag, as the crates below have it.
fn tag_of(given: &Tag) -> RuleTag
    ensures { result ≡ tag_of given.now }
{
    RuleTag {
        category_mask: given.category_mask,
        priority: given.priority,
        userdata: given.userdata,
    }
}

/// The values of one rule, one for each field, which are the first ones.
#[tactic(auto, unfolding(crate::specs::Rules::fields_from))]
fn fields_from(defs: &[FieldDef], values: &[Value]) -> ArrayVec<FieldValue, MAX_FIELDS>
    requires few { length defs.now ≤ max_fields }
    requires enough { length defs.now ≤ length values.now }
    ensures { result.items ≡ fields_from defs.now values.now }
{
    let mut fields = ArrayVec::new();
    for place in 0..defs.len() {
        fields.push(value_of(defs[place].kind, &values[place]));
    }
    fields
}

/// Whether there is a value for each field of each rule.
pub(crate) fn are_whole(defs: &[FieldDef], tags: &[Tag], values: &[Value]) -> bool
    ensures { result ≡ are_whole defs.now tags.now values.now }
{
    let fields = defs.len();
    fields != 0 && values.len() % fields == 0 && values.len() / fields == tags.len()
}

/// The rule of the tag and the first values.
fn rule_from(
    alloc: Global,
    defs: &[FieldDef],
    tag: &Tag,
    values: &[Value],
) -> Result<StoredRule, AllocError>
    requires few { length defs.now ≤ max_fields }
    requires enough { length defs.now ≤ length values.now }
    ensures { IfOk result (λ rule. rule ≡ record {
      tag = tag_of tag.now;
      fields = fields_from defs.now values.now;
    }) }
{
    StoredRule::new(alloc, tag_of(tag), fields_from(defs, values).as_slice())
}

/// All rules, stored.
#[tactic(auto, using(crate::proofs::Rows::enough_left), unfolding(crate::specs::Rules::rules_from))]
pub(crate) fn rules_from(
    alloc: Global,
    defs: &[FieldDef],
    tags: &[Tag],
    values: &[Value],
) -> Result<Vec<StoredRule>, AllocError>
    requires few { length defs.now ≤ max_fields }
    requires whole { length values.now ≡ length tags.now * length defs.now }
    ensures { IfOk result (λ rules. rules.items ≡ rules_from defs.now tags.now values.now) }
{
    let mut rules = Vec::new(alloc);
    let mut left = values;
    for place in 0..tags.len() {
        rules.push(rule_from(alloc, defs, &tags[place], left)?)?;
        let (_own, others) = left.split_at(defs.len());
        left = others;
    }
    Ok(rules)
}
