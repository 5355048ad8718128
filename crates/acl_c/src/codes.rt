//! What a call answers: the numbers that `aclc.h` names.

ghost use Rattle.std.specs.Prelude.{◌≡◌};
ghost use Rattle.acl_c.specs.Codes.{layout_code, rule_code};

use field_defs::LayoutFault;
use rule_set::RuleFault;

pub(crate) const OK: u32 = 0;

pub(crate) const NO_MEMORY: u32 = 1;

pub(crate) const EMPTY: u32 = 2;

pub(crate) const TAKEN: u32 = 3;

pub(crate) const BAD_LENGTH: u32 = 4;

pub(crate) const BAD_LIMIT: u32 = 5;

pub(crate) const BAD_BUDGET: u32 = 6;

pub(crate) const BAD_CATEGORIES: u32 = 7;

pub(crate) const BAD_WALK: u32 = 8;

pub(crate) const TOO_MANY_KEYS: u32 = 9;

pub(crate) const NO_LANES: u32 = 10;

pub(crate) const NOT_BUILT: u32 = 11;

pub(crate) const FULL: u32 = 12;

pub(crate) const TOO_LARGE: u32 = 13;

pub(crate) const NO_IMAGE: u32 = 15;

pub(crate) const NO_ROOM: u32 = 16;

pub(crate) const TOO_MANY_FIELDS: u32 = 32;

pub(crate) const BAD_KIND: u32 = 33;

/// The code of a fault of field definitions, and the number of the definition or the group.
pub(crate) fn layout_code(fault: LayoutFault) -> (u32, u32)
    ensures { result ≡ layout_code fault }
{
    match fault {
        LayoutFault::NoFields => (34, 0),
        LayoutFault::FieldIndex(place) => (35, u32::from(place)),
        LayoutFault::BadSize(place) => (36, u32::from(place)),
        LayoutFault::FirstNotOneByte => (37, 0),
        LayoutFault::InputOrder(place) => (38, u32::from(place)),
        LayoutFault::GroupSize(group) => (39, u32::from(group)),
        LayoutFault::GroupOffsets(place) => (40, u32::from(place)),
        LayoutFault::OffsetTooLarge(place) => (41, u32::from(place)),
    }
}

/// The code of a fault of a rule, and the place of the field.
pub(crate) fn rule_code(fault: RuleFault) -> (u32, u32)
    ensures { result ≡ rule_code fault }
{
    match fault {
        RuleFault::FieldCount => (46, 0),
        RuleFault::FieldKind(place) => (47, u32::from(place)),
        RuleFault::NoCategory => (48, 0),
        RuleFault::PriorityRange => (49, 0),
        RuleFault::FieldTooWide(place) => (50, u32::from(place)),
        RuleFault::MaskTooLong(place) => (51, u32::from(place)),
        RuleFault::EmptyRange(place) => (52, u32::from(place)),
    }
}
