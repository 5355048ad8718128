//! Whether a number matches the value of a rule for a field.

ghost use Rattle.std.specs.Prelude.{◌≡◌, ◌+◌, ◌^◌, ◌<◌, ◌↔◌, IsTrue};
ghost use Rattle.field_defs.specs.FieldMatch.{field_match};
ghost use Rattle.field_defs.specs.FieldBounds.{is_size, CanMatch, IsWild, is_wild};

use crate::field::FieldValue;

/// Whether the number `x` of `size` bytes matches the value.
///
/// The size is 1, 2, 4 or 8, and [`FieldValue::is_within_size`] and [`FieldValue::is_mask_within`]
/// are true of the value and the size. It refuses nothing and takes no memory. Source: DPDK
/// Programmer's Guide, ACL field types.
pub fn field_matches(value: &FieldValue, size: u8, x: u64) -> bool
    requires value { CanMatch value.now size }
    requires number { x < 256 ^ size }
    ensures { result ≡ field_match value.now size x }
{
    match *value {
        FieldValue::Mask { value, bits } => {
            let free = 8 * u32::from(size) - u32::from(bits);
            // A mask of no bits leaves all 64 bits of an 8-byte field free, and a shift by 64 isn't
            // defined.
            free >= 64 || x >> free == value >> free
        }
        FieldValue::Range { low, high } => low <= x && x <= high,
        FieldValue::Bitmask { value, mask } => x & mask == value & mask,
    }
}

/// Whether every number of `size` bytes matches the value.
///
/// The size is 1, 2, 4 or 8, and [`FieldValue::is_within_size`] and [`FieldValue::is_mask_within`]
/// are true of the value and the size. It refuses nothing and takes no memory. Source: DPDK
/// Programmer's Guide, ACL field types.
pub fn is_wild(value: &FieldValue, size: u8) -> bool
    requires { CanMatch value.now size }
    ensures test { result ≡ is_wild value.now size }
    ensures every { IsTrue result ↔ IsWild value.now size }
{
    match *value {
        FieldValue::Mask { bits, .. } => bits == 0,
        FieldValue::Range { low, high } => low == 0 && high == greatest_number(size),
        FieldValue::Bitmask { mask, .. } => mask == 0,
    }
}

/// The greatest number of `size` bytes.
fn greatest_number(size: u8) -> u64
    requires { IsTrue (is_size size) }
    ensures { result + 1 ≡ 256 ^ size }
{
    u64::MAX >> (64 - 8 * u32::from(size))
}
