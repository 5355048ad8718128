//! The definitions of fields that were collected for the next context.

ghost use Rattle.std.specs.Prelude.{◌≡◌, ◌<◌, ◌≤◌, [], ◌∷◌, ◌++◌, length, nat_le, IfOk};
ghost use Rattle.std.specs.Result.{result_err};
ghost use Rattle.field_defs.specs.Layout.{max_fields};
ghost use Rattle.field_defs.specs.LayoutFault.{layout_fault};
ghost use Rattle.acl_session.specs.Command.{placed};

use crate::arguments::WrittenField;
use field_defs::{FieldDef, Layout, LayoutFault, MAX_FIELDS, UNUSED_FIELD};
use std::marker::Model;

/// At most as many definitions as a layout may have. Contracts see the list of them.
#[derive(Drop)]
pub(crate) struct Collected {
    defs: [FieldDef; MAX_FIELDS],
    count: usize,
}

impl Model for Collected {
    ghost use Rattle.std.specs.Prelude.{◌≤◌, List, take};
    ghost use Rattle.field_defs.specs.declared.field.FieldDef.{FieldDef};
    ghost use Rattle.field_defs.specs.Layout.{max_fields};

    ghost Value = { List FieldDef };

    ghost view = { λ l. take l.count l.defs };

    ghost invariant = { λ l. l.count ≤ max_fields };
}

impl Collected {
    /// No definition.
    pub(crate) fn new() -> Collected
        ensures { result ≡ [] }
    {
        Collected {
            defs: [UNUSED_FIELD; MAX_FIELDS],
            count: 0,
        }
    }

    /// Whether there is no room for one more.
    pub(crate) fn is_full(&self) -> bool
        ensures { result ≡ nat_le max_fields (length self.now) }
    {
        self.defs().len() >= MAX_FIELDS
    }

    /// Adds a definition after the others. Its field index is its place.
    pub(crate) fn push(&mut self, field: WrittenField)
        requires { length self.old < max_fields }
        ensures { self.new ≡ self.old ++ placed field (length self.old) ∷ [] }
    {
        self.defs[self.count] = FieldDef {
            kind: field.kind,
            size: field.size,
            field_index: self.count as u8,
            input_index: field.input_index,
            offset: field.offset,
        };
        self.count += 1;
    }

    /// The layout of the definitions, or why they are none.
    pub(crate) fn layout(&self) -> Result<Layout, LayoutFault>
        ensures layout { IfOk result (λ layout. layout ≡ self.now) }
        ensures fault { result_err result ≡ layout_fault self.now }
    {
        Layout::of(self.defs())
    }

    /// The definitions.
    fn defs(&self) -> &[FieldDef]
        ensures defs { result.now ≡ self.now }
        ensures few { length self.now ≤ max_fields }
    {
        &self.defs[..self.count]
    }
}
