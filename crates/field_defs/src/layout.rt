//! The fields of one kind of packet, in order, and the key of a buffer.

ghost use Rattle.std.specs.Prelude.{◌≡◌, ◌≤◌, length};
ghost use Rattle.field_defs.specs.Lawful.{IsLayout};
ghost use Rattle.field_defs.specs.Layout.{key_of, key_len_of, buffer_len_of, ip4_fields};
ghost use Rattle.field_defs.specs.Layout.{ip6_fields};

use crate::field::{FieldDef, FieldKind};
use crate::lawful::{LayoutFault, check_layout};
use std::marker::Model;

/// How many fields a layout may have.
pub const MAX_FIELDS: usize = 64;

/// What stands after the last definition, where there is room for more.
pub const UNUSED_FIELD: FieldDef = FieldDef {
    kind: FieldKind::Mask,
    size: 1,
    field_index: 0,
    input_index: 0,
    offset: 0,
};

/// Protocol, source, destination, source port and destination port, one after the other.
const IP4_FIELDS: [FieldDef; 5] = [
    FieldDef {
        kind: FieldKind::Bitmask,
        size: 1,
        field_index: 0,
        input_index: 0,
        offset: 0,
    },
    FieldDef {
        kind: FieldKind::Mask,
        size: 4,
        field_index: 1,
        input_index: 1,
        offset: 1,
    },
    FieldDef {
        kind: FieldKind::Mask,
        size: 4,
        field_index: 2,
        input_index: 2,
        offset: 5,
    },
    FieldDef {
        kind: FieldKind::Range,
        size: 2,
        field_index: 3,
        input_index: 3,
        offset: 9,
    },
    FieldDef {
        kind: FieldKind::Range,
        size: 2,
        field_index: 4,
        input_index: 3,
        offset: 11,
    },
];

/// Protocol, source, destination, source port and destination port, each address as its two halves
/// of 8 bytes.
const IP6_FIELDS: [FieldDef; 7] = [
    FieldDef {
        kind: FieldKind::Bitmask,
        size: 1,
        field_index: 0,
        input_index: 0,
        offset: 0,
    },
    FieldDef {
        kind: FieldKind::Mask,
        size: 8,
        field_index: 1,
        input_index: 1,
        offset: 1,
    },
    FieldDef {
        kind: FieldKind::Mask,
        size: 8,
        field_index: 2,
        input_index: 3,
        offset: 9,
    },
    FieldDef {
        kind: FieldKind::Mask,
        size: 8,
        field_index: 3,
        input_index: 5,
        offset: 17,
    },
    FieldDef {
        kind: FieldKind::Mask,
        size: 8,
        field_index: 4,
        input_index: 7,
        offset: 25,
    },
    FieldDef {
        kind: FieldKind::Range,
        size: 2,
        field_index: 5,
        input_index: 9,
        offset: 33,
    },
    FieldDef {
        kind: FieldKind::Range,
        size: 2,
        field_index: 6,
        input_index: 9,
        offset: 35,
    },
];

/// The field definitions of one kind of packet, in order. Contracts see the list of them. No call
/// takes memory.
#[derive(Drop)]
pub struct Layout {
    defs: [FieldDef; MAX_FIELDS],
    count: usize,
}

impl Model for Layout {
    ghost use Rattle.std.specs.Prelude.{◌≤◌, List, take};
    ghost use Rattle.field_defs.specs.declared.field.FieldDef.{FieldDef};
    ghost use Rattle.field_defs.specs.Lawful.{IsLayout};
    ghost use Rattle.field_defs.specs.Layout.{max_fields};

    ghost Value = { List FieldDef };

    ghost view = { λ l. take l.count l.defs };

    ghost invariant = { λ l. (l.count ≤ max_fields) × IsLayout (take l.count l.defs) };
}

impl Layout {
    ghost use Rattle.std.specs.Prelude.{◌≡◌, ◌≤◌, length, IfOk};
    ghost use Rattle.std.specs.Result.{result_err};
    ghost use Rattle.field_defs.specs.Layout.{max_fields};
    ghost use Rattle.field_defs.specs.LayoutFault.{layout_fault};

    /// The layout of the definitions, or why they are none. There are at most [`MAX_FIELDS`].
    ///
    /// The answer is the first fault in the order in which [`LayoutFault`] lists them, each kind
    /// looked for over all definitions before the next, and within a kind the one of the least
    /// number. Source: DPDK Programmer's Guide, "Packet Classification and Access Control".
    pub fn new<const N: usize>(defs: &[FieldDef; N]) -> Result<Self, LayoutFault>
        requires { N ≤ max_fields }
        ensures layout { IfOk result (λ layout. layout ≡ defs.now) }
        ensures fault { result_err result ≡ layout_fault defs.now }
    {
        Layout::of(defs)
    }

    /// The same of definitions whose number isn't known when the program is built.
    pub fn of(defs: &[FieldDef]) -> Result<Self, LayoutFault>
        requires { length defs.now ≤ max_fields }
        ensures layout { IfOk result (λ layout. layout ≡ defs.now) }
        ensures fault { result_err result ≡ layout_fault defs.now }
    {
        check_layout(defs)?;
        Ok(Layout::of_lawful(defs))
    }

    /// The layout of the definitions, which are lawful.
    fn of_lawful(defs: &[FieldDef]) -> Self
        requires { IsLayout defs.now }
        ensures { result ≡ defs.now }
    {
        let mut kept = [UNUSED_FIELD; MAX_FIELDS];
        kept[..defs.len()].copy_from_slice(defs);
        Layout {
            defs: kept,
            count: defs.len(),
        }
    }

    /// The same layout once more. It takes no memory.
    pub fn copied(&self) -> Self
        ensures { result ≡ self.now }
    {
        Layout::of_lawful(self.fields())
    }

    /// The definitions, in order.
    pub fn fields(&self) -> &[FieldDef]
        ensures fields { result.now ≡ self.now }
        ensures lawful { IsLayout self.now }
    {
        &self.defs[..self.count]
    }

    /// How many bytes a key has: the sum of the fields' sizes, from 1 to 505.
    pub fn key_len(&self) -> usize
        ensures { result ≡ key_len_of self.now }
    {
        self.fields().iter().map(|def| usize::from(def.size)).sum()
    }

    /// How many bytes a buffer has at least: the greatest offset plus size.
    pub fn buffer_len(&self) -> usize
        ensures { result ≡ buffer_len_of self.now }
    {
        self.fields().iter().fold(
            0,
            |len, def| len.max(def.offset as usize + usize::from(def.size)),
        )
    }

    /// Writes the key of the buffer: the bytes of each field, in the order of the fields.
    ///
    /// `buffer` has at least [`Layout::buffer_len`] bytes and `into` exactly [`Layout::key_len`],
    /// all of which are written. It refuses nothing and takes no memory.
    pub fn gather(&self, buffer: &[u8], into: &mut [u8])
        requires reached { buffer_len_of self.now ≤ length buffer.now }
        requires whole { length into.old ≡ key_len_of self.now }
        ensures { into.new ≡ key_of self.now buffer.now }
    {
        copy_fields(self.fields(), buffer, into);
    }
}

/// The layout of IPv4 packets: protocol, source, destination, source port and destination port.
///
/// The buffer has 13 bytes, in network order: the protocol, both addresses (RFC 791, 3.1) and both
/// ports.
pub fn ip4_layout() -> Layout
    ensures { result ≡ ip4_fields }
{
    Layout::of_lawful(&IP4_FIELDS)
}

/// The layout of IPv6 packets: protocol, source, destination, source port and destination port,
/// each address as its high and its low half.
///
/// The buffer has 37 bytes, in network order: the protocol, both addresses (RFC 8200, 3) and both
/// ports.
pub fn ip6_layout() -> Layout
    ensures { result ≡ ip6_fields }
{
    Layout::of_lawful(&IP6_FIELDS)
}

/// Writes the bytes of each field, one field after the other.
fn copy_fields(defs: &[FieldDef], buffer: &[u8], into: &mut [u8])
    requires reached { buffer_len_of defs.now ≤ length buffer.now }
    requires whole { length into.old ≡ key_len_of defs.now }
    ensures { into.new ≡ key_of defs.now buffer.now }
{
    let mut at = 0;
    for def in defs {
        let size = usize::from(def.size);
        let offset = def.offset as usize;
        let bytes = &buffer[offset..offset + size];
        into[at..at + size].copy_from_slice(bytes);
        at += size;
    }
}
