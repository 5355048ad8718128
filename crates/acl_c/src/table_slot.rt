//! A pointer that C holds: to a table on the heap, or to nothing.

ghost use Rattle.std.specs.Prelude.{◌≡◌, Option, Some, None, IsSome};
ghost use Rattle.acl_c.specs.Shared.{SharedView};
ghost use Rattle.acl_c.specs.TableHandle.{shared_coded, table_slot_owns};

use crate::box_parts::Parts;
use crate::shared::Shared;
use std::alloc::Global;
use std::marker::Model;

/// A pointer to a table that it owns with the rows of its walks, or to nothing.
///
/// It has the form of the slot of a context: C may see no struct that is generic over a type that
/// is lent on, so that each has its own.
#[repr(C)]
pub struct TableSlot {
    at: *mut u8,
    alloc: Global,
    pub ghost inside: { Option SharedView } by { shared_coded },
}

impl Model for TableSlot {
    ghost also_owns = { λ s. table_slot_owns s.alloc s.at s.inside };
}

impl TableSlot {
    /// A slot that leads to nothing.
    pub(crate) fn empty(alloc: Global) -> TableSlot
        ensures { result.inside ≡ None }
    {
        TableSlot {
            at: std::ptr::null_mut::<u8>(),
            alloc,
        }
    }

    /// A slot that leads to the box of the parts.
    pub(crate) fn of_parts(parts: Parts<Shared, Global>) -> TableSlot
        ensures { result.inside ≡ Some parts.value }
    {
        let Parts { ptr, alloc } = parts;
        TableSlot {
            at: ptr.cast::<u8>(),
            alloc,
        }
    }

    /// Lets an empty slot go.
    pub(crate) fn discard(self)
        requires { self.inside ≡ None }
    {
        let TableSlot { at: _, alloc: _ } = self;
    }

    /// The parts of the box that the slot leads to.
    pub(crate) fn into_parts(self) -> Parts<Shared, Global>
        requires { IsSome self.inside }
        ensures { self.inside ≡ Some result.value }
    {
        let TableSlot { at, alloc } = self;
        Parts {
            ptr: at.cast::<Shared>(),
            alloc,
        }
    }
}
