//! Whether a list of field definitions is a lawful layout.

ghost use Rattle.std.specs.Prelude.{◌≡◌, ◌≤◌, ◌<◌, length};
ghost use Rattle.std.specs.Result.{result_err};
ghost use Rattle.field_defs.specs.Faults.{failing_number};
ghost use Rattle.field_defs.specs.Layout.{max_fields};
ghost use Rattle.field_defs.specs.LayoutFault.{layout_fault, is_in_order, is_after};
ghost use Rattle.field_defs.specs.LayoutFault.{is_filled_group, group_numbers};

use crate::field::{FieldDef, is_field_size};
use table_sizes::GROUP_LEN;
use thiserror::Error;

/// The greatest offset of a field.
const MAX_OFFSET: u32 = 65_535;

/// The size of a field that fills two groups.
const WIDE_SIZE: u8 = 8;

/// How many numbers of groups there are.
const GROUP_NUMBERS: u16 = 256;

/// Why definitions are no layout. A number is a place in the list of the definitions, or that of a
/// group.
#[derive(Clone, Copy, Debug, PartialEq, Eq, Error)]
pub enum LayoutFault {
    /// There is no definition.
    #[error("there is no field")]
    NoFields,
    /// The field index of the definition isn't its place.
    #[error("field {0}: the field index isn't the place of the field")]
    FieldIndex(u8),
    /// The size isn't 1, 2, 4 or 8.
    #[error("field {0}: the size isn't 1, 2, 4 or 8")]
    BadSize(u8),
    /// The first field has another size than one byte.
    #[error("the first field isn't one byte long")]
    FirstNotOneByte,
    /// The input index can't follow that of the definition before. The first definition has 0 and
    /// the second 1; after an 8-byte field of index k comes k + 2, and after any other k or k +
    /// 1.
    #[error("field {0}: the input index can't follow the one before")]
    InputOrder(u8),
    /// The fields of the group are neither one of 8 bytes nor of four bytes together.
    #[error("group {0}: the fields don't fill it")]
    GroupSize(u8),
    /// The field shares a group with the one before, and doesn't lie after it in the buffer.
    #[error("field {0}: the field doesn't lie after the one before in its group")]
    GroupOffsets(u8),
    /// The offset is above 65,535.
    #[error("field {0}: the offset is too large")]
    OffsetTooLarge(u8),
}

/// Whether the definitions are a lawful layout, and the first reason if they aren't.
///
/// The kinds of faults are looked for in the order in which [`LayoutFault`] lists them, each over
/// all definitions before the next. It takes no memory.
#[tactic(auto, unfolding(crate::specs::LayoutFault::layout_fault))]
pub(crate) fn check_layout(defs: &[FieldDef]) -> Result<(), LayoutFault>
    requires { length defs.now ≤ max_fields }
    ensures { result_err result ≡ layout_fault defs.now }
{
    if defs.is_empty() {
        return Err(LayoutFault::NoFields);
    }
    if let Some(place) = DefCheck::Index.first_failing(defs) {
        return Err(LayoutFault::FieldIndex(place));
    }
    if let Some(place) = DefCheck::Size.first_failing(defs) {
        return Err(LayoutFault::BadSize(place));
    }
    if defs[0].size != 1 {
        return Err(LayoutFault::FirstNotOneByte);
    }
    if let Some(place) = DefCheck::Order.first_failing(defs) {
        return Err(LayoutFault::InputOrder(place));
    }
    if let Some(group) = first_unfilled_group(&defs[1..]) {
        return Err(LayoutFault::GroupSize(group));
    }
    if let Some(place) = DefCheck::Offset.first_failing(defs) {
        return Err(LayoutFault::GroupOffsets(place));
    }
    if let Some(place) = DefCheck::Reach.first_failing(defs) {
        return Err(LayoutFault::OffsetTooLarge(place));
    }
    Ok(())
}

/// What each definition is checked for.
#[derive(Clone, Copy)]
enum DefCheck {
    /// The field index is the place.
    Index,
    /// The size is one that a field may have.
    Size,
    /// The input index may follow that of the definition before.
    Order,
    /// The field lies after the one before, if it shares a group with it.
    Offset,
    /// The offset isn't too large.
    Reach,
}

impl DefCheck {
    ghost use Rattle.std.specs.Prelude.{◌≡◌, ◌≤◌, ◌<◌, length};
    ghost use Rattle.field_defs.specs.Faults.{failing_number};
    ghost use Rattle.field_defs.specs.Layout.{max_fields};
    ghost use Rattle.field_defs.specs.LayoutFault.{passes};

    /// Whether the definition at the place passes the check.
    fn passes(self, defs: &[FieldDef], place: usize) -> bool
        requires { place < length defs.now }
        ensures { result ≡ passes self defs.now place }
    {
        let def = &defs[place];
        match self {
            DefCheck::Index => usize::from(def.field_index) == place,
            DefCheck::Size => is_field_size(def.size),
            DefCheck::Order => is_in_order(defs, place),
            DefCheck::Offset => is_after(defs, place),
            DefCheck::Reach => def.offset <= MAX_OFFSET,
        }
    }

    /// The place of the first definition that fails the check.
    fn first_failing(self, defs: &[FieldDef]) -> Option<u8>
        requires { length defs.now ≤ max_fields }
        ensures { result ≡ failing_number (passes self defs.now) (length defs.now) }
    {
        for place in 0..defs.len() {
            if !self.passes(defs, place) {
                return Some(place as u8);
            }
        }
        None
    }
}

/// Whether the definition at the place has a group that may follow that of the definition before.
fn is_in_order(defs: &[FieldDef], place: usize) -> bool
    requires { place < length defs.now }
    ensures { result ≡ is_in_order defs.now place }
{
    let group = usize::from(defs[place].input_index);
    if place < 2 {
        return group == place;
    }
    let before = &defs[place - 1];
    let last = usize::from(before.input_index);
    if before.size == WIDE_SIZE {
        group == last + 2
    } else {
        group == last || group == last + 1
    }
}

/// Whether the field at the place lies after the one before, if it shares a group past 0 with it.
fn is_after(defs: &[FieldDef], place: usize) -> bool
    requires { place < length defs.now }
    ensures { result ≡ is_after defs.now place }
{
    if place == 0 {
        return true;
    }
    let before = &defs[place - 1];
    let def = &defs[place];
    let shares = before.input_index == def.input_index && def.input_index != 0;
    !shares || u64::from(def.offset) == u64::from(before.offset) + u64::from(before.size)
}

/// Whether those of the fields that are of the group fill it, or there are none.
fn is_filled_group(later: &[FieldDef], group: u8) -> bool
    requires { length later.now ≤ max_fields }
    ensures { result ≡ is_filled_group later.now group }
{
    let mut count = 0u32;
    let mut bytes = 0usize;
    for def in later {
        let size = def.size;
        if def.input_index == group {
            count += 1;
            bytes += usize::from(size);
        }
    }
    count == 0 || bytes == GROUP_LEN || count == 1 && bytes == usize::from(WIDE_SIZE)
}

/// The number of the first group that its fields don't fill.
fn first_unfilled_group(later: &[FieldDef]) -> Option<u8>
    requires { length later.now ≤ max_fields }
    ensures { result ≡ failing_number (is_filled_group later.now) group_numbers }
{
    for group in 0..GROUP_NUMBERS {
        if !is_filled_group(later, group as u8) {
            return Some(group as u8);
        }
    }
    None
}
