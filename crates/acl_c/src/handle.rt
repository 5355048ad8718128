//! What C holds of a context.

ghost use Rattle.std.specs.Prelude.{◌≡◌, ◌↔◌, Some, None, IsSome, IsTrue};
ghost use Rattle.acl_c.specs.Handle.{IsKept};

use crate::box_parts::Parts;
use crate::context::Context;
use crate::slot::Slot;
use std::alloc::Global;

/// `struct aclc_context`: a slot, and whether it leads to a context. Zeros are an empty handle.
#[repr(C)]
pub struct Handle {
    pub slot: Slot,
    pub held: u64,
    pub ghost is_kept: { IsKept held slot.inside },
}

impl Handle {
    /// Whether the handle leads to a context.
    pub(crate) fn is_held(&self) -> bool
        ensures { IsTrue result ↔ IsSome self.now.slot.inside }
    {
        self.held != 0
    }

    /// Fills an empty handle.
    pub(crate) fn put(&mut self, inside: Box<Context, Global>)
        requires { self.old.slot.inside ≡ None }
        ensures { self.new.slot.inside ≡ Some inside.value }
    {
        let full = Handle {
            slot: Slot::of_parts(Parts::of(inside)),
            held: 1,
        };
        let empty = std::mem::replace(self, full);
        empty.discard();
    }

    /// Takes the context out of a handle that leads to one. The handle is empty then.
    pub(crate) fn take(&mut self, alloc: Global) -> Box<Context, Global>
        requires { IsSome self.old.slot.inside }
        ensures value { self.old.slot.inside ≡ Some result.value }
        ensures empty { self.new.slot.inside ≡ None }
    {
        let full = std::mem::replace(self, Handle::empty(alloc));
        full.into_box()
    }

    fn empty(alloc: Global) -> Handle
        ensures { result.slot.inside ≡ None }
    {
        Handle {
            slot: Slot::empty(alloc),
            held: 0,
        }
    }

    fn discard(self)
        requires { self.slot.inside ≡ None }
    {
        let Handle { slot, held: _ } = self;
        slot.discard();
    }

    fn into_box(self) -> Box<Context, Global>
        requires { IsSome self.slot.inside }
        ensures { self.slot.inside ≡ Some result.value }
    {
        let Handle { slot, held: _ } = self;
        slot.into_parts().into_box()
    }
}
