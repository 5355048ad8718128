//! Transition words, of which a table is made, the nodes that they lead to, and the words of rows.
//!
//! ```text
//!     | boundaries: 32 | kind: 3 | index: 29 |      bit 0 is the lowest of the index
//!
//!     kind 0 full         256 words at index: that of byte b is index + b
//!     kind 1 single       1 word at index, for every byte
//!     kind 3 quad-range   5 words at index: that of byte b is index + the boundaries below b
//!     kind 4 match        no words; index is a row of the table, and the walk ends
//! ```
//!
//! The boundaries are four bytes, the first in bits 32 to 39, and 0 unless the kind is quad-range.
//! After DPDK's `lib/acl/acl.h`, whose DFA node shares groups of 64 words; our full node has one
//! word for each byte value.

ghost use Rattle.std.specs.Prelude.{◌≡◌, ◌+◌, ◌*◌, ◌/◌, ◌%◌, ◌^◌, ◌<◌, ◌≤◌, true, false, nat_lt};
ghost use Rattle.std.specs.Prelude.{count_by};
ghost use Rattle.table_sizes.specs.Sizes.{full_len};
ghost use Rattle.flat_table.specs.Word.{indexes, index_of, kind_of, boundaries_of};
ghost use Rattle.flat_table.specs.Word.{is_match, is_node, is_unbounded, node_len, offset_of};
ghost use Rattle.flat_table.specs.Word.{next_place};
ghost use Rattle.flat_table.specs.Walk.{userdatas};

use table_sizes::{FEW_RUNS, FULL_LEN};

/// The bits of a word that are its index and its kind.
pub const LOW_HALF: u64 = 0xFFFF_FFFF;

/// How many bits of a word are the index: the first bit of its kind.
pub const INDEX_BITS: u32 = 29;

/// The bits of the index.
pub const INDEX_MASK: u64 = 0x1FFF_FFFF;

/// The bits of the kind, moved down.
const KIND_MASK: u64 = 7;

/// The first bit of the first boundary.
pub const BOUNDARY_BITS: u32 = 32;

/// The bits of a row's word that are the userdata.
const USERDATA_MASK: u64 = 0xFFFF_FFFF;

/// A node with a word for each byte value.
pub const FULL: u64 = 0;

/// A node of one word.
pub const SINGLE: u64 = 1;

/// A node of five words, for five runs of byte values.
pub const QUAD: u64 = 3;

/// The end of a walk.
pub const MATCH: u64 = 4;

/// The place of the node's first word, or the row of a match.
pub fn index_of(word: u64) -> usize
    ensures value { result ≡ index_of word }
    ensures bound { result < indexes }
{
    (word & INDEX_MASK) as usize
}

/// The kind: [`FULL`], [`SINGLE`], [`QUAD`] or [`MATCH`]; other numbers are no kind.
pub fn kind_of(word: u64) -> u64
    ensures { result ≡ kind_of word }
{
    word >> INDEX_BITS & KIND_MASK
}

/// Whether the word ends a walk.
pub fn is_match(word: u64) -> bool
    ensures { result ≡ is_match word }
{
    kind_of(word) == MATCH
}

/// Whether the word, which is a match or leads to a node, ends a walk. No node has as great a kind.
#[inline]
pub fn is_end(word: u64) -> bool
    requires { is_match word ≡ false → is_node word ≡ true }
    ensures { result ≡ is_match word }
{
    // In 32 bits a comparison of kinds becomes one of halves, which takes no shift.
    (word & LOW_HALF) as u32 >> INDEX_BITS >= MATCH as u32
}

/// Whether the word has no boundaries.
pub(crate) fn is_unbounded(word: u64) -> bool
    ensures { result ≡ is_unbounded word }
{
    word >> BOUNDARY_BITS == 0
}

/// Whether the word leads to a node, and has boundaries only where the node is a quad-range.
pub(crate) fn is_node(word: u64) -> bool
    ensures { result ≡ is_node word }
{
    match kind_of(word) {
        QUAD => true,
        FULL | SINGLE => is_unbounded(word),
        _ => false,
    }
}

/// How many words the node has.
pub(crate) fn node_len(word: u64) -> usize
    ensures value { result ≡ node_len word }
    ensures bound { result ≤ full_len }
{
    match kind_of(word) {
        FULL => FULL_LEN,
        QUAD => FEW_RUNS,
        _ => 1,
    }
}

/// The userdata of a row's word: its low half. The high half is a rank.
pub fn userdata_of(word: u64) -> u32
    ensures { result ≡ word % userdatas }
{
    (word & USERDATA_MASK) as u32
}

/// How many of the word's boundaries are below the byte.
pub fn boundaries_below(word: u64, byte: u8) -> usize
    ensures value { result ≡ count_by (λ boundary. nat_lt boundary byte) (boundaries_of word) }
    ensures bound { result ≤ 4 }
{
    // Moved up to the highest byte, a boundary is below the byte exactly where the whole number is,
    // whatever stands after the boundary. So no bits have to be cut off.
    let byte = u64::from(byte) << 56;
    usize::from(word << 24 < byte)
        + usize::from(word << 16 < byte)
        + usize::from(word << 8 < byte)
        + usize::from(word < byte)
}

/// The place of the word that a walk takes by the byte from a word that is no match.
pub fn next_place(word: u64, byte: u8) -> usize
    ensures { result ≡ next_place word byte }
{
    // The kinds are in the order of how often they come.
    match kind_of(word) {
        SINGLE => index_of(word),
        QUAD => index_of(word) + boundaries_below(word, byte),
        FULL => index_of(word) + usize::from(byte),
        _ => index_of(word),
    }
}
