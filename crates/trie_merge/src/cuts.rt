//! The words of a state, told by its parts when it is found.
//!
//! Before the last place a state has a run for each byte at which what it leads to changes, and one
//! more. The bytes of a part are those of its two parts together. Since a node takes the same words
//! from six runs on, up to four bytes are kept, and else that there are more.

ghost use Rattle.std.specs.Prelude.{◌≡◌, ℕ, ◌+◌, ◌-◌, ◌<◌, ◌≤◌, ◌==◌, ◌++◌, ◌∷◌, [], List};
ghost use Rattle.std.specs.Prelude.{length, take, slice_index_or, true, OnOk, IfOk};
ghost use Rattle.std.specs.List.{list_any};
ghost use Rattle.state_parts.specs.Keys.{has_entry};
ghost use Rattle.trie_merge.specs.Cuts.{IsCutAt, Knows, AreBuilt, IsBuilt, no_cuts};
ghost use Rattle.group_states.specs.Entry.{ColumnView, CanStep};
ghost use Rattle.table_sizes.specs.Sizes.{cost_of};

use crate::column::Column;
use state_parts::Parts;
use std::alloc::AllocError;

/// The bytes from 1 on at which what a part leads to changes: up to four, or that there are more.
#[derive(Clone, Copy)]
pub(crate) struct Cuts {
    /// How many there are, and 5 for more than four.
    count: u8,
    bytes: [u8; 4],
}

/// No bytes.
const NO_CUTS: Cuts = Cuts {
    count: 0,
    bytes: [0; 4],
};

/// Whether the byte is among the first ones.
fn is_among(cuts: &Cuts, byte: u8) -> bool
    requires { cuts.now.count ≤ 4 }
    ensures { result ≡ list_any (λ other. other == byte) (take cuts.now.count cuts.now.bytes) }
{
    for k in 0..usize::from(cuts.count) {
        if cuts.bytes[k] == byte {
            return true;
        }
    }
    false
}

/// The bytes and one more.
fn add(cuts: Cuts, byte: u8) -> Cuts
    requires { cuts.count ≤ 5 }
    ensures count { result.count ≤ 5 }
    ensures knows { (column : ColumnView) (entries : List ℕ) → Knows column entries cuts →
        IsCutAt column entries byte → Knows column entries result }
{
    if cuts.count > 4 {
        return cuts;
    }
    if is_among(&cuts, byte) {
        return cuts;
    }
    if cuts.count == 4 {
        return Cuts {
            count: 5,
            bytes: cuts.bytes,
        };
    }
    let bytes = put(&cuts.bytes, usize::from(cuts.count), byte);
    Cuts {
        count: cuts.count + 1,
        bytes,
    }
}

/// The bytes with one more after the first ones.
fn put(bytes: &[u8; 4], count: usize, byte: u8) -> [u8; 4]
    requires { count < 4 }
    ensures { take (count + 1) result ≡ take count bytes.now ++ byte ∷ [] }
{
    let mut more = *bytes;
    more[count] = byte;
    more
}

/// The bytes of both.
fn unite(one: Cuts, other: Cuts) -> Cuts
    requires one { one.count ≤ 5 }
    requires other { other.count ≤ 5 }
    ensures count { result.count ≤ 5 }
    ensures knows { (column : ColumnView) (left right : List ℕ) → Knows column left one →
        Knows column right other → Knows column (left ++ right) result }
{
    if other.count > 4 {
        return other;
    }
    let mut all = one;
    for k in 0..usize::from(other.count) {
        all = add(all, other.bytes[k]);
    }
    all
}

/// The bytes and the one after the byte, where there is one.
fn add_after(cuts: Cuts, last: u8) -> Cuts
    requires { cuts.count ≤ 5 }
    ensures count { result.count ≤ 5 }
    ensures knows { (column : ColumnView) (entries : List ℕ) → Knows column entries cuts →
        (last < 255 → IsCutAt column entries (last + 1)) → Knows column entries result }
{
    if last < u8::MAX {
        return add(cuts, last + 1);
    }
    cuts
}

/// The bytes of one entry.
fn cuts_of_entry(column: &Column, entry: u32) -> Cuts
    requires { CanStep column.now entry }
    ensures count { result.count ≤ 5 }
    ensures knows { Knows column.now (entry ∷ []) result }
{
    let mut cuts = NO_CUTS;
    if column.keeps(entry) {
        return cuts;
    }
    let asked = column.ask(entry);
    let mut first = 0usize;
    while first < 256 {
        let last = asked.last_alike(first as u8);
        cuts = add_after(cuts, last);
        first = usize::from(last) + 1;
    }
    cuts
}

/// The bytes of the part of the number `index + 1`.
fn cuts_of_part(next: &Column, parts: &Parts, cuts: &[Cuts], index: usize) -> Cuts
    requires can { (entry : ℕ) → has_entry parts.now entry ≡ true → CanStep next.now entry }
    requires built { AreBuilt next.now parts.now cuts.now }
    requires next { index ≡ length cuts.now }
    requires within { index < length parts.now }
    ensures { IsBuilt next.now (slice_index_or parts.now index (0, 0)) cuts.now index result }
{
    let (left, right) = parts.pair(index);
    if left == 0 {
        return cuts_of_entry(next, right);
    }
    unite(cuts[left as usize - 1], cuts[right as usize - 1])
}

/// Works out the bytes of further parts, up to that of the number `until`.
pub(crate) fn fill_cuts(
    next: &Column,
    parts: &Parts,
    cuts: &mut Vec<Cuts>,
    until: usize,
) -> Result<(), AllocError>
    requires can { (entry : ℕ) → has_entry parts.now entry ≡ true → CanStep next.now entry }
    requires built { AreBuilt next.now parts.now cuts.old.items }
    requires within { until ≤ length parts.now }
    ensures built { OnOk result (AreBuilt next.now parts.now cuts.new.items) }
    ensures far { OnOk result (until ≤ length cuts.new.items) }
{
    for index in cuts.len()..until {
        let its = cuts_of_part(next, parts, cuts.as_slice(), index);
        cuts.push(its)?;
    }
    Ok(())
}

/// How many words a node takes at least that changes at the bytes.
pub(crate) fn words_of(cuts: Cuts) -> u64
    ensures words { result ≡ cost_of (cuts.count + 1) }
    ensures bound { (0 < result) × (result ≤ 256) }
{
    match cuts.count {
        0 => 1,
        1..=4 => 5,
        _ => 256,
    }
}
