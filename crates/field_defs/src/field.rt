//! What a field is: its definition in a layout, and the value that a rule gives to it.

ghost use Rattle.std.specs.Prelude.{◌≡◌, ◌^◌, nat_lt};
ghost use Rattle.field_defs.specs.declared.field.FieldValue.TheVariants.{Mask};
ghost use Rattle.field_defs.specs.FieldMatch.{kind_of};
ghost use Rattle.field_defs.specs.FieldBounds.{is_size, is_within_size, is_mask_within};
ghost use Rattle.field_defs.specs.FieldBounds.{is_range_filled};

/// How a rule bounds a field (DPDK Programmer's Guide, ACL field types).
#[derive(Clone, Copy, Debug, PartialEq, Eq)]
pub enum FieldKind {
    /// A value and the number of leading bits that have to be equal to it.
    Mask,
    /// A lowest and a highest number, both of them in the range.
    Range,
    /// A value and the bits that have to be equal to it.
    Bitmask,
}

/// Where a field lies and how it is bounded.
#[derive(Clone, Copy, Debug, PartialEq, Eq)]
pub struct FieldDef {
    pub kind: FieldKind,
    /// The field's length in bytes: 1, 2, 4 or 8.
    pub size: u8,
    /// The field's place in the layout.
    pub field_index: u8,
    /// The group of four consecutive key bytes that the field belongs to. The first field has group
    /// 0 for itself, and an 8-byte field fills the group that is named and the next one.
    pub input_index: u8,
    /// The place of the field's first byte in a searched buffer.
    pub offset: u32,
}

/// The value of a rule for one field. Numbers are in host order. None of its calls takes memory.
#[derive(Clone, Copy, Debug, PartialEq, Eq)]
pub enum FieldValue {
    /// Matches numbers whose first `bits` bits, from the most significant on, are those of `value`.
    Mask { value: u64, bits: u8 },
    /// Matches numbers from `low` to `high`.
    Range { low: u64, high: u64 },
    /// Matches numbers that agree with `value` in each bit that is set in `mask`.
    Bitmask { value: u64, mask: u64 },
}

impl FieldValue {
    /// The kind of field that the value is for.
    pub fn kind(&self) -> FieldKind
        ensures { result ≡ kind_of self.now }
    {
        match self {
            FieldValue::Mask { .. } => FieldKind::Mask,
            FieldValue::Range { .. } => FieldKind::Range,
            FieldValue::Bitmask { .. } => FieldKind::Bitmask,
        }
    }

    /// Whether each number of the value is a number of `size` bytes.
    pub fn is_within_size(&self, size: u8) -> bool
        ensures { result ≡ is_within_size self.now size }
    {
        match *self {
            FieldValue::Mask { value, .. } => is_number_of(value, size),
            FieldValue::Range { low, high } => is_number_of(low, size) && is_number_of(high, size),
            FieldValue::Bitmask { value, mask } => {
                is_number_of(value, size) && is_number_of(mask, size)
            }
        }
    }

    /// Whether the value, if it is a mask, has at most the bits of `size` bytes.
    pub fn is_mask_within(&self, size: u8) -> bool
        ensures { result ≡ is_mask_within self.now size }
    {
        match *self {
            FieldValue::Mask { bits, .. } => u32::from(bits) <= 8 * u32::from(size),
            FieldValue::Range { .. } | FieldValue::Bitmask { .. } => true,
        }
    }

    /// Whether the value, if it is a range, has a number in it.
    pub fn is_range_filled(&self) -> bool
        ensures { result ≡ is_range_filled self.now }
    {
        match *self {
            FieldValue::Range { low, high } => low <= high,
            FieldValue::Mask { .. } | FieldValue::Bitmask { .. } => true,
        }
    }
}

/// The mask of no bits, which every number matches. A small vector of values fills its unused
/// places with it.
impl Default for FieldValue {
    ghost is_default = { λ value. value ≡ Mask 0 0 };

    fn default() -> Self {
        FieldValue::Mask { value: 0, bits: 0 }
    }
}

/// Whether a field may have so many bytes.
pub(crate) fn is_field_size(size: u8) -> bool
    ensures { result ≡ is_size size }
{
    matches!(size, 1 | 2 | 4 | 8)
}

/// Whether the number is below 256 to the power of `size`.
fn is_number_of(number: u64, size: u8) -> bool
    ensures { result ≡ nat_lt number (256 ^ size) }
{
    size >= 8 || number >> (8 * size) == 0
}

/// The version of the Internet Protocol that a packet, a rule or a table is of.
#[derive(Clone, Copy, Debug, PartialEq, Eq)]
pub enum Family {
    Ip4,
    Ip6,
}
