//! The edge before the first byte of a field, the edge after one more byte, and the bytes at which
//! the edge changes.

ghost use Rattle.std.specs.Prelude.{◌≡◌, ℕ, ◌+◌, ◌-◌, ◌*◌, ◌^◌, ◌<◌, ◌≤◌, ◌||◌, ◌&&◌, not, false};
ghost use Rattle.std.specs.Prelude.{Some, slice_index_or, IsTrue, IfSome};
ghost use Rattle.std.specs.Option.{option_map};
ghost use Rattle.field_defs.specs.FieldBounds.{CanMatch, is_range_filled, is_wild};
ghost use Rattle.node_expand.specs.Rest.{Interval, as_range, rest_after, rest_step};
ghost use Rattle.node_expand.specs.Edges.{edge_of, rest_of, edge_after, edge_step, is_cut};
ghost use Rattle.node_expand.specs.Edges.{is_bitmask, same_edge, StandsBefore, AreEnds};
ghost use Rattle.node_expand.specs.Edges.{AnswersWithin};

use crate::allowed::{Allowed, mask_ends, ones};
use crate::edge::Edge;
use field_defs::{FieldKind, FieldValue};

/// The edge before the first byte of a field of `size` bytes: what the whole value allows.
///
/// It refuses nothing and takes no memory. The size is 1, 2, 4 or 8, the numbers of the value are
/// numbers of so many bytes, a mask has no more bits than the field, and a range has a number in
/// it. Source: DPDK Programmer's Guide, ACL field types.
#[inline]
pub fn start_edge(value: &FieldValue, size: u8) -> Edge
    requires value { CanMatch value.now size }
    requires filled { IsTrue (is_range_filled value.now) }

    ensures form { edge_after value.now size 0 0 ≡ Some result }
    ensures rest { rest_after value.now size 0 0 ≡ Some (rest_of value.now size 0 result) }
    ensures stands { StandsBefore value.now size 0 result }
{
    match *value {
        FieldValue::Mask { value, bits } => {
            let (low, high) = mask_ends(value, bits, size);
            whole_edge(low, high, size)
        }
        FieldValue::Range { low, high } => whole_edge(low, high, size),
        FieldValue::Bitmask { .. } => Edge::Free,
    }
}

/// The edge of the numbers of `size` bytes from `low` to `high`.
#[inline]
fn whole_edge(low: u64, high: u64, size: u8) -> Edge
    requires { size ≤ 8 }
    ensures { result ≡ edge_of (256 ^ size) (Interval low high) }
{
    Edge::new(low > 0, high < ones(8 * u32::from(size)))
}

/// The edge after the byte at `place`, which counts from 0 at the most significant byte. `None`
/// where no number that the value lets through begins with the bytes read before and then this
/// byte.
///
/// It takes no memory. The value and the size are as for [`start_edge`], and the edge is the answer
/// of [`start_edge`] at place 0, and of [`step_edge`] at the place before. Which bytes were read
/// doesn't matter. Source: DPDK Programmer's Guide, ACL field types; the bytes of a number as in
/// RFC 791, appendix B.
#[inline]
pub fn step_edge(value: &FieldValue, size: u8, place: u8, edge: Edge, byte: u8) -> Option<Edge>
    requires value { CanMatch value.now size }
    requires place { place < size }
    requires edge { StandsBefore value.now size place edge }

    // Whichever bytes were read, as far as the edge is the form of what they left.
    ensures form { (prefix : ℕ) → edge_after value.now size place prefix ≡ Some edge →
        result ≡ edge_after value.now size (place + 1) (prefix * 256 + byte) }
    ensures answer { result ≡ edge_step value.now size place edge byte }
    ensures rest { option_map (rest_of value.now size (place + 1)) result
        ≡ rest_step value.now size place (rest_of value.now size place edge) byte }
    ensures stands { IfSome result (StandsBefore value.now size (place + 1)) }
{
    if leaves_all(value, edge) {
        return Some(Edge::Free);
    }
    Allowed::new(value, size, place, edge).edge_at(byte)
}

/// Sets `marks[b]` for exactly those bytes b from 1 on at which [`step_edge`] answers otherwise
/// than at b - 1, and leaves all other marks. There is a mark for each value that a byte has.
///
/// It refuses nothing and takes no memory. The value, the size, the place and the edge are as for
/// [`step_edge`]. Source: DPDK Programmer's Guide, ACL field types.
#[inline]
pub fn cuts(value: &FieldValue, size: u8, place: u8, edge: Edge, marks: &mut [bool; 256])
    requires value { CanMatch value.now size }
    requires place { place < size }
    requires edge { StandsBefore value.now size place edge }

    ensures { (byte : ℕ) → byte < 256 →
        slice_index_or marks.new byte false
        ≡ (is_cut value.now size place edge byte || slice_index_or marks.old byte false) }
{
    if leaves_all(value, edge) {
        return;
    }
    Allowed::new(value, size, place, edge).mark_cuts(marks);
}

/// The first and the last byte after which [`step_edge`] answers an edge.
///
/// There is always one, since the edge stands for some numbers. For a mask or a range each byte
/// between the two has an edge, too. It refuses nothing and takes no memory. The value, the size,
/// the place and the edge are as for [`step_edge`]. Source: DPDK Programmer's Guide, ACL field
/// types.
#[inline]
pub fn first_and_last(value: &FieldValue, size: u8, place: u8, edge: Edge) -> (u8, u8)
    requires value { CanMatch value.now size }
    requires place { place < size }
    requires edge { StandsBefore value.now size place edge }

    ensures ends { AreEnds (edge_step value.now size place edge) result.0 result.1 }
    ensures within { is_bitmask value.now ≡ false →
        AnswersWithin (edge_step value.now size place edge) result.0 result.1 }
{
    if leaves_all(value, edge) {
        return (0, u8::MAX);
    }
    Allowed::new(value, size, place, edge).ends()
}

/// The value as a range, where it is a mask: from the lowest to the greatest number that it lets
/// through. Another value is given back as it is.
///
/// A mask and its range have the same rests, edges and cuts, and the range is quicker to ask. It
/// refuses nothing and takes no memory. The value and the size are as for [`start_edge`]. Source:
/// DPDK Programmer's Guide, ACL field types.
#[inline]
pub fn as_range(value: &FieldValue, size: u8) -> FieldValue
    requires { CanMatch value.now size }
    ensures range { result ≡ as_range value.now size }
    ensures lawful { CanMatch result size }
    ensures filled { IsTrue (is_range_filled value.now) → IsTrue (is_range_filled result) }
    ensures wild { is_wild result size ≡ is_wild value.now size }
{
    match *value {
        FieldValue::Mask { value, bits } => {
            let (first, last) = mask_ends(value, bits, size);
            FieldValue::Range {
                low: first,
                high: last,
            }
        }
        FieldValue::Range { .. } | FieldValue::Bitmask { .. } => *value,
    }
}

/// Whether an interval is left of which neither end is inner, so that each byte leaves such an
/// interval again.
#[inline]
fn leaves_all(value: &FieldValue, edge: Edge) -> bool
    ensures { result ≡ (same_edge edge Edge.Free && not (is_bitmask value.now)) }
{
    edge == Edge::Free && value.kind() != FieldKind::Bitmask
}
