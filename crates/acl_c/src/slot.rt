//! A pointer that C holds: to a context on the heap, or to nothing.

ghost use Rattle.std.specs.Prelude.{◌≡◌, Option, Some, None, IsSome};
ghost use Rattle.acl_c.specs.declared.context.Context.{Context};
ghost use Rattle.acl_c.specs.Handle.{context_coded, slot_owns};

use crate::box_parts::Parts;
use crate::context::Context;
use std::alloc::Global;
use std::marker::Model;

/// A pointer to a context that it owns, or to nothing.
///
/// C may see no type that is lent on, so the pointer is one to bytes. It can't be dropped: what it
/// leads to is taken out first.
#[repr(C)]
pub struct Slot {
    at: *mut u8,
    alloc: Global,
    pub ghost inside: { Option Context } by { context_coded },
}

impl Model for Slot {
    ghost also_owns = { λ s. slot_owns s.alloc s.at s.inside };
}

impl Slot {
    /// A slot that leads to nothing.
    pub(crate) fn empty(alloc: Global) -> Slot
        ensures { result.inside ≡ None }
    {
        Slot {
            at: std::ptr::null_mut::<u8>(),
            alloc,
        }
    }

    /// A slot that leads to the box of the parts.
    pub(crate) fn of_parts(parts: Parts<Context, Global>) -> Slot
        ensures { result.inside ≡ Some parts.value }
    {
        let Parts { ptr, alloc } = parts;
        Slot {
            at: ptr.cast::<u8>(),
            alloc,
        }
    }

    /// Lets an empty slot go.
    pub(crate) fn discard(self)
        requires { self.inside ≡ None }
    {
        let Slot { at: _, alloc: _ } = self;
    }

    /// The parts of the box that the slot leads to.
    pub(crate) fn into_parts(self) -> Parts<Context, Global>
        requires { IsSome self.inside }
        ensures { self.inside ≡ Some result.value }
    {
        let Slot { at, alloc } = self;
        Parts {
            ptr: at.cast::<Context>(),
            alloc,
        }
    }
}
