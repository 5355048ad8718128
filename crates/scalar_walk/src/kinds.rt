//! The kinds of words in 32 bits, for the inner steps of the walks.
//!
//! A kind is the highest bits of the low half of its word, so kinds are in the order of these
//! halves. In 32 bits a comparison of kinds becomes one of halves, which takes no shift.

ghost use Rattle.std.specs.Prelude.{◌≡◌};
ghost use Rattle.flat_table.specs.Word.{kind_of};

use flat_table::{INDEX_BITS, LOW_HALF};

/// The kind of a full node.
pub(crate) const FULL: u32 = flat_table::FULL as u32;

/// That of a single node.
pub(crate) const SINGLE: u32 = flat_table::SINGLE as u32;

/// That of a quad-range node.
pub(crate) const QUAD: u32 = flat_table::QUAD as u32;

/// The kind of a word.
pub(crate) fn kind_of(word: u64) -> u32
    ensures { result ≡ kind_of word }
{
    (word & LOW_HALF) as u32 >> INDEX_BITS
}
