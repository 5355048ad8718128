//! What C holds of a table.

ghost use Rattle.std.specs.Prelude.{◌≡◌, ◌↔◌, Some, None, IsSome, IsTrue};
ghost use Rattle.acl_c.specs.Handle.{IsKept};

use crate::box_parts::Parts;
use crate::shared::Shared;
use crate::table_slot::TableSlot;
use std::alloc::Global;

/// `struct aclc_table`: a slot, and whether it leads to a table. Zeros are an empty handle.
#[repr(C)]
pub struct TableHandle {
    pub slot: TableSlot,
    pub held: u64,
    pub ghost is_kept: { IsKept held slot.inside },
}

impl TableHandle {
    /// Whether the handle leads to a table.
    pub(crate) fn is_held(&self) -> bool
        ensures { IsTrue result ↔ IsSome self.now.slot.inside }
    {
        self.held != 0
    }

    /// Fills an empty handle.
    pub(crate) fn put(&mut self, inside: Box<Shared, Global>)
        requires { self.old.slot.inside ≡ None }
        ensures { self.new.slot.inside ≡ Some inside.value }
    {
        let full = TableHandle {
            slot: TableSlot::of_parts(Parts::of(inside)),
            held: 1,
        };
        let empty = std::mem::replace(self, full);
        empty.discard();
    }

    /// Takes the table out of a handle that leads to one. The handle is empty then.
    pub(crate) fn take(&mut self, alloc: Global) -> Box<Shared, Global>
        requires { IsSome self.old.slot.inside }
        ensures value { self.old.slot.inside ≡ Some result.value }
        ensures empty { self.new.slot.inside ≡ None }
    {
        let full = std::mem::replace(self, TableHandle::empty(alloc));
        full.into_box()
    }

    fn empty(alloc: Global) -> TableHandle
        ensures { result.slot.inside ≡ None }
    {
        TableHandle {
            slot: TableSlot::empty(alloc),
            held: 0,
        }
    }

    fn discard(self)
        requires { self.slot.inside ≡ None }
    {
        let TableHandle { slot, held: _ } = self;
        slot.discard();
    }

    fn into_box(self) -> Box<Shared, Global>
        requires { IsSome self.slot.inside }
        ensures { self.slot.inside ≡ Some result.value }
    {
        let TableHandle { slot, held: _ } = self;
        slot.into_parts().into_box()
    }
}
