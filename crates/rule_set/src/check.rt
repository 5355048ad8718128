//! Whether a rule is lawful for a layout.

ghost use Rattle.std.specs.Prelude.{◌≡◌, ◌<◌, ◌&&◌, pos, length, IfSome};
ghost use Rattle.std.specs.List.{list_any};
ghost use Rattle.std.specs.Result.{result_err};
ghost use Rattle.std.specs.Int.Signed.{le_z};
ghost use Rattle.rule_set.specs.Limits.{max_priority};
ghost use Rattle.rule_set.specs.Fault.{rule_fault, categories, failing_place, passes};
ghost use Rattle.rule_set.specs.Winner.{is_in_category};

use crate::rule::RuleTag;
use field_defs::{FieldDef, FieldValue, Layout};
use thiserror::Error;

/// The greatest priority of a rule. The least is 0.
pub const MAX_PRIORITY: i32 = 536_870_911;

/// The bits of a category mask that stand for categories, all sixteen.
pub const ALL_CATEGORIES: u32 = 0xFFFF;

/// Why a rule is refused. A number is the place of the first field that the check fails for.
#[derive(Clone, Copy, Debug, PartialEq, Eq, Error)]
pub enum RuleFault {
    /// The number of values isn't the number of fields.
    #[error("the rule has another number of values than the layout has fields")]
    FieldCount,
    /// The value is of another kind than its field.
    #[error("field {0}: the value is of another kind")]
    FieldKind(u8),
    /// None of the low 16 bits of the category mask is set.
    #[error("the rule has no category")]
    NoCategory,
    /// The priority is below 0 or above [`MAX_PRIORITY`].
    #[error("the priority is out of range")]
    PriorityRange,
    /// A number of the value is at least 256 to the power of the field's size.
    #[error("field {0}: the value is wider than the field")]
    FieldTooWide(u8),
    /// The mask has more bits than the field.
    #[error("field {0}: the mask is longer than the field")]
    MaskTooLong(u8),
    /// The low end of the range is above its high end.
    #[error("field {0}: the range is empty")]
    EmptyRange(u8),
}

/// Whether the rule is lawful for the layout, and the first reason if it isn't.
///
/// The kinds of faults are looked for in the order in which [`RuleFault`] lists them, each over all
/// fields before the next. It takes no memory. Source: DPDK Programmer's Guide, "Packet
/// Classification and Access Control".
#[tactic(auto, unfolding(crate::specs::Fault::rule_fault))]
pub fn check_rule(layout: &Layout, tag: &RuleTag, fields: &[FieldValue]) -> Result<(), RuleFault>
    ensures { result_err result ≡ rule_fault layout.now tag.now fields.now }
{
    let defs = layout.fields();
    if fields.len() != defs.len() {
        return Err(RuleFault::FieldCount);
    }
    if let Some(place) = ValueCheck::Kind.first_failing(defs, fields) {
        return Err(RuleFault::FieldKind(place as u8));
    }
    if !has_category(tag) {
        return Err(RuleFault::NoCategory);
    }
    if !has_lawful_priority(tag) {
        return Err(RuleFault::PriorityRange);
    }
    if let Some(place) = ValueCheck::Width.first_failing(defs, fields) {
        return Err(RuleFault::FieldTooWide(place as u8));
    }
    if let Some(place) = ValueCheck::MaskLength.first_failing(defs, fields) {
        return Err(RuleFault::MaskTooLong(place as u8));
    }
    if let Some(place) = ValueCheck::RangeEnds.first_failing(defs, fields) {
        return Err(RuleFault::EmptyRange(place as u8));
    }
    Ok(())
}

/// Whether some of the low 16 bits of the category mask is set.
fn has_category(tag: &RuleTag) -> bool
    ensures { result ≡ list_any (is_in_category tag.now) categories }
{
    tag.category_mask & ALL_CATEGORIES != 0
}

/// Whether the priority is one that a rule may have.
fn has_lawful_priority(tag: &RuleTag) -> bool
    ensures { result ≡ (le_z (pos 0) tag.now.priority && le_z tag.now.priority (pos max_priority)) }
{
    (0..=MAX_PRIORITY).contains(&tag.priority)
}

/// What each value of a rule is checked for.
#[derive(Clone, Copy)]
enum ValueCheck {
    /// The value is of its field's kind.
    Kind,
    /// The numbers of the value are numbers of its field's size.
    Width,
    /// The value, if it is a mask, has no more bits than its field.
    MaskLength,
    /// The value, if it is a range, has a number in it.
    RangeEnds,
}

impl ValueCheck {
    ghost use Rattle.rule_set.specs.Fault.{passes};

    /// Whether the field's value passes the check.
    fn passes(self, def: &FieldDef, value: &FieldValue) -> bool
        ensures { result ≡ passes self def.now value.now }
    {
        match self {
            ValueCheck::Kind => value.kind() == def.kind,
            ValueCheck::Width => value.is_within_size(def.size),
            ValueCheck::MaskLength => value.is_mask_within(def.size),
            ValueCheck::RangeEnds => value.is_range_filled(),
        }
    }

    /// The place of the first field whose value fails the check.
    fn first_failing(self, defs: &[FieldDef], values: &[FieldValue]) -> Option<usize>
        ensures place { result ≡ failing_place (passes self) defs.now values.now }
        ensures bound { IfSome result (λ place. place < length defs.now) }
    {
        defs.iter()
            .zip(values)
            .position(|(def, value)| !self.passes(def, value))
    }
}
