//! What a handle of a table leads to, and the calls on it.

ghost use Rattle.std.specs.Prelude.{◌≡◌, IfOk, Some, length};
ghost use Rattle.std.specs.Arc.{arc_value};
ghost use Rattle.acl_c.specs.Shared.{without_lanes, MakesRoom, ClassifiesShared};
ghost use Rattle.acl_c.specs.Keys.{ClassifiesKeys};

use crate::batch::{ask, walk_table};
use crate::codes::{NO_MEMORY, OK, TOO_MANY_KEYS};
use crate::copy::copy_of;
use crate::keys::{Key, classify_keys};
use acl_context::Scratch;
use flat_table::Table;
use std::alloc::{AllocError, Global};
use std::marker::{Brand, Model};
use std::sync::Arc;
use std::sync::ledger::Blank;
use table_sizes::MAX_KEYS;

/// A table that nothing changes and that other handles may have too, and the rows of the walks by
/// lanes of this handle.
#[derive(Drop)]
pub struct Shared {
    table: Arc<Table, Global>,
    lanes: Scratch,
}

impl Model for Shared {
    ghost use Rattle.std.specs.Arc.{arc_value};
    ghost use Rattle.acl_c.specs.Shared.{SharedView};

    ghost Value = { SharedView };

    ghost view = { λ shared. record { table = arc_value shared.table; lanes = shared.lanes } };
}

impl Shared {
    /// The table on the heap, with room for no keys by lanes.
    fn boxed(alloc: Global, table: Arc<Table, Global>) -> Result<Box<Shared, Global>, AllocError>
        ensures { IfOk result (λ shared. shared.value ≡ without_lanes (arc_value table)) }
    {
        let lanes = Scratch::new(alloc, 0)?;
        Ok(Box::new(alloc, Shared { table, lanes })?)
    }

    /// The table, to be shared, with room for no keys by lanes.
    pub(crate) fn of(alloc: Global, table: Table) -> Result<Box<Shared, Global>, AllocError>
        ensures { IfOk result (λ shared. shared.value ≡ without_lanes table) }
    {
        Shared::boxed(alloc, Arc::new(alloc, table)?)
    }

    /// A copy of the table, with room for no keys by lanes.
    pub(crate) fn copied(alloc: Global, table: &Table) -> Result<Box<Shared, Global>, AllocError>
        ensures { IfOk result (λ shared. shared.value ≡ without_lanes table.now) }
    {
        Shared::of(alloc, copy_of(alloc, table)?)
    }

    /// The same table for another handle, with room for no keys by lanes.
    pub(crate) fn another(&self, alloc: Global) -> Result<Box<Shared, Global>, AllocError>
        ensures { IfOk result (λ other. other.value ≡ without_lanes self.now.table) }
    {
        Shared::boxed(alloc, Arc::try_clone(&self.table)?)
    }

    /// The table.
    pub(crate) fn table(&self) -> &Table
        ensures { result.now ≡ self.now.table }
    {
        &self.table
    }

    /// Makes room for so many keys of a walk by lanes, in place of the room that was there.
    pub(crate) fn reserve(&mut self, alloc: Global, keys: u32) -> u32
        ensures { MakesRoom keys self.old self.new result }
    {
        if keys as usize > MAX_KEYS {
            return TOO_MANY_KEYS;
        }
        match Scratch::new(alloc, keys as usize) {
            Ok(lanes) => {
                self.lanes = lanes;
                OK
            }
            Err(AllocError) => NO_MEMORY,
        }
    }

    /// Writes the verdicts of the keys of a batch, and tells the transitions.
    #[tactic(auto, using(crate::proofs::Lengths::fits))]
    pub(crate) fn classify(
        &mut self,
        keys: &[u8],
        categories: u32,
        walk: u32,
        verdicts: &mut [u32],
        transitions: &mut u64,
    ) -> u32
        ensures { ClassifiesShared keys.now categories walk self.old self.new
            verdicts.old verdicts.new transitions.old transitions.new result }
    {
        let key_len = self.table.key_len();
        let room = self.lanes.room();
        let asked = match ask(key_len, room, keys.len(), categories, walk, verdicts.len()) {
            Ok(asked) => asked,
            Err(code) => return code,
        };
        let lanes = &mut self.lanes;
        *transitions = walk_table::<Brand>(
            Blank::new(1),
            &self.table,
            lanes,
            keys,
            asked,
            verdicts,
        );
        OK
    }
    /// Writes the verdicts of keys that stand apart, and tells the transitions.
    pub(crate) fn classify_keys(
        &mut self,
        keys: &[Key],
        categories: u32,
        walk: u32,
        verdicts: &mut [u32],
        transitions: &mut u64,
    ) -> u32
        ensures is { ClassifiesKeys (Some self.old.table) (length self.old.lanes) keys.now
            categories walk verdicts.old verdicts.new transitions.old transitions.new result }
        ensures table { self.new.table ≡ self.old.table }
        ensures len { length self.new.lanes ≡ length self.old.lanes }
    {
        let lanes = &mut self.lanes;
        classify_keys(
            &self.table,
            lanes,
            keys,
            categories,
            walk,
            verdicts,
            transitions,
        )
    }
}
