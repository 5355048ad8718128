//! Rows of the keys of a batch, which are used again from batch to batch.

ghost use Rattle.std.specs.Prelude.{◌≡◌, ◌<◌, ◌≤◌, length, replicate, set, slice_get, Some, IfOk, true};
ghost use Rattle.std.specs.Prelude.{slice_index, slice_index_or, []};
ghost use Rattle.table_sizes.specs.Sizes.{max_keys, row_len};
ghost use Rattle.flow_core.specs.Rows.{zero_row, cleared, joined_row, joined_into, noted_in};

use std::alloc::{AllocError, Global};
use std::marker::Model;
use std::simd::u64x16;
use table_sizes::ROW_LEN;

/// A row for each key of a batch: for each category the greatest word that its walks reached.
#[derive(Drop)]
pub struct Scratch {
    rows: Vec<[u64; ROW_LEN]>,
}

impl Model for Scratch {
    ghost use Rattle.std.specs.Prelude.{ℕ, List};

    ghost Value = { List (List ℕ) };

    ghost view = { λ scratch. scratch.rows.items };
}

/// A row of zeros.
#[inline]
fn zero_row() -> [u64; ROW_LEN]
    ensures { result ≡ zero_row }
{
    [0; ROW_LEN]
}

/// Makes so many of the rows zero, from the first on.
fn clear_rows(rows: &mut [[u64; ROW_LEN]], count: usize)
    requires { count ≤ length rows.old }
    ensures { rows.new ≡ cleared count rows.old }
{
    for k in 0..count {
        rows[k] = zero_row();
    }
}

/// Whether the row is one of zeros.
#[inline]
fn is_zero(row: &[u64; ROW_LEN]) -> bool
    ensures { result ≡ true → row.now ≡ zero_row }
{
    u64x16::from_array(*row).reduce_or() == 0
}

/// Makes each word of the row the greater of itself and that of the other row.
#[inline]
pub fn join_rows(row: &mut [u64; ROW_LEN], other: &[u64; ROW_LEN])
    ensures { row.new ≡ joined_row row.old other.now }
{
    // The first row of a key needs no comparing, and with one trie it is the only one.
    if is_zero(row) {
        *row = *other;
        return;
    }
    *row = u64x16::from_array(*row)
        .simd_max(u64x16::from_array(*other))
        .to_array();
}

impl Scratch {
    /// A row of zeros for each of so many keys, at most 65,536. It takes 128 bytes of memory for
    /// each, and refuses nothing but for want of it.
    pub fn new(alloc: Global, room: usize) -> Result<Scratch, AllocError>
        requires { room ≤ max_keys }
        ensures { IfOk result (λ scratch. scratch ≡ replicate room zero_row) }
    {
        let mut rows = Vec::with_capacity(alloc, room)?;
        for _ in 0..room {
            rows.push(zero_row())?;
        }
        Ok(Scratch { rows })
    }

    /// How many keys there is a row for.
    pub fn room(&self) -> usize
        ensures { result ≡ length self.now }
    {
        self.rows.len()
    }

    /// The row of the key, a word for each category.
    pub fn row(&self, k: usize) -> &[u64; ROW_LEN]
        requires { k < length self.now }
        ensures { slice_get self.now k ≡ Some result.now }
    {
        &self.rows[k]
    }

    /// Makes the rows of the first keys zero. It takes no memory.
    pub fn clear(&mut self, keys: usize)
        requires { keys ≤ length self.old }
        ensures { self.new ≡ cleared keys self.old }
    {
        clear_rows(&mut self.rows, keys);
    }

    /// Makes each word of the key's row the greater of itself and that of the given row. It takes
    /// no memory.
    #[inline]
    pub fn join(&mut self, k: usize, row: &[u64; ROW_LEN])
        requires { k < length self.old }
        ensures { self.new ≡ joined_into k row.now self.old }
    {
        join_rows(&mut self.rows[k], row);
    }

    /// Writes a number into a word of the key's row. It takes no memory.
    #[inline]
    pub fn note(&mut self, k: usize, place: usize, number: u64)
        requires key { k < length self.old }
        requires place { place < row_len }
        ensures rows { self.new ≡ noted_in k place number self.old }
        ensures number { slice_index (slice_index_or self.new k []) place ≡ number }
    {
        self.rows[k][place] = number;
    }

    /// Makes the key's row this one. It takes no memory.
    #[inline]
    pub fn put(&mut self, k: usize, row: &[u64; ROW_LEN])
        requires { k < length self.old }
        ensures { self.new ≡ set self.old k row.now }
    {
        self.rows[k] = *row;
    }
}
