//! Which bytes a value allows at one place of a field, and what each of them leaves.

ghost use Rattle.std.specs.Prelude.{◌≡◌, ℕ, ◌-◌, ◌*◌, ◌/◌, ◌%◌, ◌^◌, ◌<◌, ◌≤◌, ◌==◌, ◌&&◌, ◌||◌};
ghost use Rattle.std.specs.Prelude.{true, false, slice_index_or};
ghost use Rattle.node_expand.specs.Rest.{mask_low, mask_high};
ghost use Rattle.node_expand.specs.Edges.{is_change, AreEnds, AnswersWithin, AnswersAlike};
ghost use Rattle.node_expand.specs.Allowed.{answer_of};

use crate::edge::Edge;
use field_defs::FieldValue;

/// The bytes that a value allows at one place of a field, at an edge, and what each of them leaves.
///
/// It is made once and asked of many bytes. It takes no memory.
#[derive(Clone, Copy)]
pub enum Allowed {
    /// The bytes from `low` to `high`. The lower end stays inner after `low` alone, and there only
    /// where `low_inner` says so; the upper end goes likewise.
    Between {
        low: u8,
        high: u8,
        low_inner: bool,
        high_inner: bool,
    },
    /// The bytes whose bits of the mask are those of the value, which has no others.
    Agreeing {
        value: u8,
        mask: u8,
    },
}

impl Allowed {
    ghost use Rattle.std.specs.Prelude.{◌≡◌, ℕ, ◌-◌, ◌^◌, ◌<◌, ◌≤◌, ◌||◌, false, slice_index_or};
    ghost use Rattle.std.specs.Prelude.{if◌then◌else◌};
    ghost use Rattle.field_defs.specs.FieldBounds.{CanMatch};
    ghost use Rattle.node_expand.specs.Edges.{has_low, has_high, is_change, is_bitmask, edge_step};
    ghost use Rattle.node_expand.specs.Edges.{StandsBefore, AreEnds, AnswersWithin, AnswersAlike};
    ghost use Rattle.node_expand.specs.Allowed.{answer_of, between, IsFilled, IsBetween};

    /// The bytes that the value allows at the place, which counts from 0 at the most significant
    /// byte.
    ///
    /// The value, the size, the place and the edge are as for [`crate::step_edge`]. It refuses
    /// nothing. Source: DPDK Programmer's Guide, ACL field types.
    #[inline]
    pub fn new(value: &FieldValue, size: u8, place: u8, edge: Edge) -> Self
        requires value { CanMatch value.now size }
        requires place { place < size }
        requires edge { StandsBefore value.now size place edge }
        ensures answer { (byte : ℕ) → byte < 256 →
            answer_of result byte ≡ edge_step value.now size place edge byte }
        ensures filled { IsFilled result }
        ensures between { is_bitmask value.now ≡ false → IsBetween result }
    {
        let shift = 8 * u32::from(size - 1 - place);
        match *value {
            FieldValue::Mask { value, bits } => {
                let (low, high) = mask_ends(value, bits, size);
                Allowed::between(low, high, shift, edge)
            }
            FieldValue::Range { low, high } => Allowed::between(low, high, shift, edge),
            FieldValue::Bitmask { value, mask } => {
                let mask = byte_at(mask, shift);
                Allowed::Agreeing {
                    value: byte_at(value, shift) & mask,
                    mask,
                }
            }
        }
    }

    /// The bytes that the numbers from `low` to `high` have at the place with `shift` bits after
    /// it, at the edge.
    #[inline]
    pub(crate) fn between(low: u64, high: u64, shift: u32, edge: Edge) -> Self
        requires { shift ≤ 56 }
        ensures { result
            ≡ between (if has_low edge then low else 0) (if has_high edge then high else 2 ^ 64 - 1)
            (2 ^ shift) }
    {
        let low = edge.low_end(low);
        let high = edge.high_end(high);
        let tail = ones(shift);
        Allowed::Between {
            low: byte_at(low, shift),
            high: byte_at(high, shift),
            low_inner: low & tail != 0,
            high_inner: high & tail != tail,
        }
    }

    /// The edge after the byte, or none where it isn't allowed.
    #[tactic(auto, unfolding(crate::specs::Allowed::answer_of))]
    #[inline]
    pub fn edge_at(self, byte: u8) -> Option<Edge>
        ensures { result ≡ answer_of self byte }
    {
        match self {
            Allowed::Between {
                low,
                high,
                low_inner,
                high_inner,
            } => (low <= byte && byte <= high).then_some(Edge::new(
                byte == low && low_inner,
                byte == high && high_inner,
            )),
            Allowed::Agreeing { value, mask } => (byte & mask == value).then_some(Edge::Free),
        }
    }

    /// Sets the marks of the bytes at which the answer changes.
    #[inline]
    pub(crate) fn mark_cuts(self, marks: &mut [bool; 256])
        requires { IsFilled self }
        ensures { (byte : ℕ) → byte < 256 →
            slice_index_or marks.new byte false
            ≡ (is_change (answer_of self) byte || slice_index_or marks.old byte false) }
    {
        match self {
            Allowed::Between {
                low,
                high,
                low_inner,
                high_inner,
            } => mark_between(marks, low.into(), high.into(), low_inner, high_inner),
            Allowed::Agreeing { value, mask } => {
                let (first, last) = self.ends();
                mark_agreeing(marks, value.into(), mask.into(), first.into(), last.into());
            }
        }
    }

    /// The last byte up to which the answer stays that at the byte: the one before the next change,
    /// and 255 where there is none. Some byte is allowed.
    #[inline]
    pub fn last_alike(self, byte: u8) -> u8
        requires { IsFilled self }
        ensures { AnswersAlike (answer_of self) byte result }
    {
        match self {
            Allowed::Between {
                low,
                high,
                low_inner,
                high_inner,
            } => last_between(low, high, low_inner, high_inner, byte),
            Allowed::Agreeing { value, mask } => last_masked(value, mask, byte),
        }
    }

    /// The first and the last of the bytes.
    #[inline]
    pub(crate) fn ends(self) -> (u8, u8)
        requires { IsFilled self }
        ensures ends { AreEnds (answer_of self) result.0 result.1 }
        ensures within { IsBetween self → AnswersWithin (answer_of self) result.0 result.1 }
    {
        match self {
            Allowed::Between { low, high, .. } => (low, high),
            Allowed::Agreeing { value, mask } => (value, value | !mask),
        }
    }
}

/// The lowest and the greatest number that a mask of so many bits lets through.
#[inline]
pub(crate) fn mask_ends(value: u64, bits: u8, size: u8) -> (u64, u64)
    requires size { size ≤ 8 }
    requires bits { bits ≤ 8 * size }
    ensures low { result.0 ≡ mask_low value bits size }
    ensures high { result.1 ≡ mask_high value bits size }
{
    let free = ones(8 * u32::from(size) - u32::from(bits));
    (value & !free, value | free)
}

/// The number whose lowest `count` bits are set, and no others.
#[inline]
pub(crate) fn ones(count: u32) -> u64
    requires { count ≤ 64 }
    ensures { result ≡ 2 ^ count - 1 }
{
    // A shift by all 64 bits isn't defined.
    if count == 0 {
        0
    } else {
        u64::MAX >> (64 - count)
    }
}

/// The byte of the number with `shift` bits after it.
#[inline]
pub(crate) fn byte_at(number: u64, shift: u32) -> u8
    requires { shift ≤ 56 }
    ensures { result ≡ number / 2 ^ shift % 256 }
{
    (number >> shift & 0xff) as u8
}

/// Sets the mark at the place where the test passes.
#[inline]
fn mark_where(marks: &mut [bool; 256], place: usize, passes: bool)
    requires { passes ≡ true → place < 256 }
    ensures { (byte : ℕ) → byte < 256 →
        slice_index_or marks.new byte false
        ≡ ((byte == place && passes) || slice_index_or marks.old byte false) }
{
    if passes {
        marks[place] = true;
    }
}

/// Sets the marks of the bytes from 1 on at which the answers between two ends change.
#[inline]
fn mark_between(marks: &mut [bool; 256], low: usize, high: usize, low_inner: bool, high_inner: bool)
    requires filled { low ≤ high }
    requires byte { high < 256 }
    ensures { (byte : ℕ) → byte < 256 →
        slice_index_or marks.new byte false
        ≡ (is_change (answer_of (Allowed.Between low high low_inner high_inner)) byte
        || slice_index_or marks.old byte false) }
{
    mark_where(marks, low, low > 0);
    mark_where(marks, low + 1, low < high && low_inner);
    mark_where(marks, high, low < high && high_inner);
    mark_where(marks, high + 1, high < 255);
}

/// Sets the marks of the bytes from 1 on that agree where the byte before doesn't, and the other
/// way round.
fn mark_agreeing(marks: &mut [bool; 256], value: usize, mask: usize, first: usize, last: usize)
    requires ends { AreEnds (answer_of (Allowed.Agreeing value mask)) first last }
    requires byte { last < 256 }
    ensures { (byte : ℕ) → byte < 256 →
        slice_index_or marks.new byte false
        ≡ (is_change (answer_of (Allowed.Agreeing value mask)) byte
        || slice_index_or marks.old byte false) }
{
    // No byte before the first or after the last agrees.
    for byte in first.max(1)..(last + 2).min(256) {
        mark_where(marks, byte, turns(value, mask, byte));
    }
}

/// The last byte up to which the answer between two ends stays that at the byte.
#[inline]
fn last_between(low: u8, high: u8, low_inner: bool, high_inner: bool, byte: u8) -> u8
    requires { low ≤ high }
    ensures { AnswersAlike (answer_of (Allowed.Between low high low_inner high_inner)) byte result }
{
    if byte < low {
        return low - 1;
    }
    if high < byte {
        return u8::MAX;
    }
    if byte == low && low < high && low_inner {
        return low;
    }
    if byte < high && high_inner {
        return high - 1;
    }
    high
}

/// Whether the one of the byte and the byte before it agrees and the other doesn't.
#[inline]
fn turns(value: usize, mask: usize, byte: usize) -> bool
    requires { 0 < byte }
    ensures { result ≡ is_change (answer_of (Allowed.Agreeing value mask)) byte }
{
    (byte & mask == value) != ((byte - 1) & mask == value)
}

/// The last byte up to which the bytes agree with the masked value as the byte does. Where the mask
/// has all bits or none, that is told without going through the bytes.
#[inline]
fn last_masked(value: u8, mask: u8, byte: u8) -> u8
    ensures { AnswersAlike (answer_of (Allowed.Agreeing value mask)) byte result }
{
    if mask == u8::MAX {
        return last_between(value, value, false, false, byte);
    }
    if mask == 0 {
        return u8::MAX;
    }
    last_agreeing(value.into(), mask.into(), byte.into())
}

/// The last byte up to which all bytes from the first on agree, or none does.
fn last_agreeing(value: usize, mask: usize, first: usize) -> u8
    requires { first < 256 }
    ensures { AnswersAlike (answer_of (Allowed.Agreeing value mask)) first result }
{
    for byte in first + 1..256 {
        if turns(value, mask, byte) {
            return (byte - 1) as u8;
        }
    }
    u8::MAX
}
