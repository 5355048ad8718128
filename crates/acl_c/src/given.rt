//! Field definitions as C gives them.

ghost use Rattle.std.specs.Prelude.{◌≡◌, ◌<◌, ◌≤◌, length, map, take, IfSome, IfOk};
ghost use Rattle.std.specs.List.{position};
ghost use Rattle.std.specs.Result.{result_err};
ghost use Rattle.field_defs.specs.Layout.{max_fields};
ghost use Rattle.acl_c.specs.Given.{kind_of, def_of, is_unknown, fields_fault};

use crate::codes::{BAD_KIND, TOO_MANY_FIELDS, layout_code};
use field_defs::{FieldDef, FieldKind, Layout, MAX_FIELDS, UNUSED_FIELD};

/// `struct aclc_field`: the definition of a field.
#[repr(C)]
#[derive(Clone, Copy)]
pub struct Field {
    /// 0 for a mask, 1 for a range, 2 for a bitmask.
    pub kind: u8,
    pub size: u8,
    pub field_index: u8,
    pub input_index: u8,
    pub offset: u32,
}

/// The kind of the number, which is at most 2.
fn kind_of(number: u8) -> FieldKind
    ensures { result ≡ kind_of number }
{
    if number == 0 {
        return FieldKind::Mask;
    }
    if number == 1 {
        return FieldKind::Range;
    }
    FieldKind::Bitmask
}

/// The definition, as the crates below have it.
fn def_of(field: &Field) -> FieldDef
    ensures { result ≡ def_of field.now }
{
    FieldDef {
        kind: kind_of(field.kind),
        size: field.size,
        field_index: field.field_index,
        input_index: field.input_index,
        offset: field.offset,
    }
}

/// All definitions, as the crates below have them, and others after them.
fn defs_of(fields: &[Field]) -> [FieldDef; MAX_FIELDS]
    requires { length fields.now ≤ max_fields }
    ensures { take (length fields.now) result ≡ map def_of fields.now }
{
    let mut defs = [UNUSED_FIELD; MAX_FIELDS];
    for place in 0..fields.len() {
        defs[place] = def_of(&fields[place]);
    }
    defs
}

/// The place of the first definition whose kind is none.
fn first_unknown(fields: &[Field]) -> Option<usize>
    ensures place { result ≡ position is_unknown fields.now }
    ensures bound { IfSome result (λ place. place < length fields.now) }
{
    fields.iter().position(|field| field.kind > 2)
}

/// The layout of the definitions, or the code of their first fault and its place. It takes no
/// memory.
pub(crate) fn layout_of(fields: &[Field]) -> Result<Layout, (u32, u32)>
    ensures layout { IfOk result (λ layout. layout ≡ map def_of fields.now) }
    ensures fault { result_err result ≡ fields_fault fields.now }
{
    if fields.len() > MAX_FIELDS {
        return Err((TOO_MANY_FIELDS, 0));
    }
    if let Some(place) = first_unknown(fields) {
        return Err((BAD_KIND, place as u32));
    }
    match Layout::of(&defs_of(fields)[..fields.len()]) {
        Ok(layout) => Ok(layout),
        Err(fault) => Err(layout_code(fault)),
    }
}
