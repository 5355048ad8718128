//! Numbered rows.

ghost use Rattle.std.specs.Prelude.{◌≡◌, ◌<◌, ◌/◌, ◌%◌, ◌^◌, ◌==◌, length, slice_index_or};
ghost use Rattle.state_parts.specs.Rows.{join_rows, row_of_rule};

use crate::room::check_room;
use indexmap::IndexSet;
use std::alloc::{AllocError, Global};
use std::marker::Model;
use table_sizes::ROW_LEN;

/// What decides whether a rule wins: the categories that it takes part in, bit c for category c,
/// and its rank, which is greater than that of each rule that it wins over.
#[derive(Clone, Copy)]
pub struct Ranked {
    pub mask: u32,
    pub rank: u32,
}

/// The rule at that place of the set, or one that takes part in no category.
fn rule_at(ranked: &[Ranked], number: usize) -> Ranked
    ensures { result ≡ slice_index_or ranked.now number (record { mask = 0; rank = 0 }) }
{
    match ranked.get(number) {
        Some(rule) => *rule,
        None => Ranked { mask: 0, rank: 0 },
    }
}

/// Whether the bit of the category is set.
fn is_in(mask: u32, category: u32) -> bool
    requires { category < 16 }
    ensures { result ≡ (mask / 2 ^ category % 2 == 1) }
{
    mask >> category & 1 == 1
}

/// The row of one rule.
fn row_of_rule(rule: Ranked) -> [u32; ROW_LEN]
    ensures { result ≡ row_of_rule rule }
{
    let mut row = [0; ROW_LEN];
    for category in 0..ROW_LEN {
        if is_in(rule.mask, category as u32) {
            row[category] = rule.rank;
        }
    }
    row
}

/// Two rows as one: the greater rank of each category.
fn join_rows(one: &[u32; ROW_LEN], other: &[u32; ROW_LEN]) -> [u32; ROW_LEN]
    ensures { result ≡ join_rows one.now other.now }
{
    let mut row = *one;
    for category in 0..ROW_LEN {
        row[category] = row[category].max(other[category]);
    }
    row
}

/// The rows after the last place, each the greatest rank of a rule in each category. Contracts see
/// what decides about the rules, and the rows in the order of their numbers.
#[derive(Drop)]
pub struct Rows {
    alloc: Global,
    ranked: Vec<Ranked>,
    rows: IndexSet<[u32; ROW_LEN]>,
}

impl Model for Rows {
    ghost use Rattle.state_parts.specs.RowsView.{RowsView};

    ghost Value = { RowsView };

    ghost view = { λ r. record { ranked = r.ranked.items; rows = r.rows.keys } };
}

impl Rows {
    ghost use Rattle.std.specs.Prelude.{◌≡◌, ℕ, ◌<◌, ◌≤◌, ◌+◌, ◌++◌, [], List, length};
    ghost use Rattle.std.specs.Prelude.{OnOk, IfOk, slice_index_or};
    ghost use Rattle.std.specs.Str.{bytes_eq};
    ghost use Rattle.state_parts.specs.Keys.{KeyAt};
    ghost use Rattle.state_parts.specs.Rows.{row_of_entry, IsRow, join_rows};

    /// No rows yet.
    pub fn new(alloc: Global, ranked: Vec<Ranked>) -> Self
        ensures { result ≡ record { ranked = ranked.items; rows = [] } }
    {
        Rows {
            alloc,
            ranked,
            rows: IndexSet::new(alloc),
        }
    }

    /// What decides about each rule.
    pub fn ranked(&self) -> &[Ranked]
        ensures { result.now ≡ self.now.ranked }
    {
        self.ranked.as_slice()
    }

    /// How many rows there are.
    pub fn len(&self) -> usize
        ensures { result ≡ length self.now.rows }
    {
        self.rows.len()
    }

    /// The row of the number `index + 1`.
    pub fn row(&self, index: usize) -> &[u32; ROW_LEN]
        requires { index < length self.now.rows }
        ensures { result.now ≡ slice_index_or self.now.rows index [] }
    {
        match self.rows.get_index(index) {
            Some(row) => row,
            None => unreachable!(),
        }
    }

    /// The number of the row. It takes memory where the row is new.
    fn number(&mut self, row: [u32; ROW_LEN]) -> Result<u32, AllocError>
        ensures ranked { OnOk result (self.new.ranked ≡ self.old.ranked) }
        ensures grows { OnOk result
            ((more : List (List ℕ)) × (self.new.rows ≡ self.old.rows ++ more)) }
        ensures number { IfOk result (λ number. KeyAt bytes_eq self.new.rows row number) }
        ensures within { IfOk result (λ number. number ≤ length self.new.rows) }
    {
        check_room(self.alloc, self.rows.len())?;
        let (index, _) = self.rows.insert_full(row)?;
        Ok(index as u32 + 1)
    }

    /// The number of the row of one entry. It takes memory where the row is new.
    #[tactic(auto, unfolding(crate::specs::Rows::row_of_entry))]
    pub fn entry(&mut self, entry: u32) -> Result<u32, AllocError>
        ensures ranked { OnOk result (self.new.ranked ≡ self.old.ranked) }
        ensures grows { OnOk result
            ((more : List (List ℕ)) × (self.new.rows ≡ self.old.rows ++ more)) }
        ensures entry { IfOk result
            (λ number. KeyAt bytes_eq self.new.rows (row_of_entry self.old.ranked entry) number) }
        ensures within { IfOk result (λ number. number ≤ length self.new.rows) }
    {
        let rule = rule_at(self.ranked.as_slice(), (entry / 4) as usize);
        self.number(row_of_rule(rule))
    }

    /// The number of two rows as one, of which each may be 0 for none. It takes memory where the
    /// row is new.
    pub fn join(&mut self, left: u32, right: u32) -> Result<u32, AllocError>
        requires left { left ≤ length self.old.rows }
        requires right { right ≤ length self.old.rows }
        ensures ranked { OnOk result (self.new.ranked ≡ self.old.ranked) }
        ensures grows { OnOk result
            ((more : List (List ℕ)) × (self.new.rows ≡ self.old.rows ++ more)) }
        ensures joins { IfOk result (λ number. (one other : List ℕ) →
            IsRow self.new.rows one left → IsRow self.new.rows other right →
            IsRow self.new.rows (join_rows one other) number) }
        ensures within { IfOk result (λ number. number ≤ length self.new.rows) }
    {
        if left == 0 {
            return Ok(right);
        }
        if right == 0 {
            return Ok(left);
        }
        if left == right {
            return Ok(left);
        }
        let row = join_rows(self.row(left as usize - 1), self.row(right as usize - 1));
        self.number(row)
    }
}
