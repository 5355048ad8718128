//! The layouts of the DPDK Programmer's Guide and of other fields, and what their fields match.

use field_defs::{
    FieldDef, FieldKind, FieldValue, Layout, LayoutFault, field_matches, ip4_layout, ip6_layout,
};
use std::process::Abort;
use std::test::Fail;

/// The prefixes and the packets of the example in the DPDK Programmer's Guide, "Packet
/// Classification and Access Control": rules to 192.168.0.0/16, to 192.168.1.0/24 and from
/// 10.1.1.1.
#[test]
fn addresses_match_the_prefixes_of_the_guide(rt: HostRuntime) {
    let wide = FieldValue::Mask {
        value: 0xC0A8_0000,
        bits: 16,
    };
    let narrow = FieldValue::Mask {
        value: 0xC0A8_0100,
        bits: 24,
    };
    let host = FieldValue::Mask {
        value: 0x0A01_0101,
        bits: 32,
    };
    let cases = [
        (0xC0A8_010F, true, true, false),
        (0xC0A8_020B, true, false, false),
        (0xC9D4_6F0C, false, false, false),
        (0x0A01_0101, false, false, true),
    ];
    for (address, in_wide, in_narrow, in_host) in cases.iter() {
        assert!(rt; field_matches(&wide, 4, *address) == *in_wide);
        assert!(rt; field_matches(&narrow, 4, *address) == *in_narrow);
        assert!(rt; field_matches(&host, 4, *address) == *in_host);
    }
}

/// A field that is bounded by a mask.
fn field(field_index: u8, size: u8, input_index: u8, offset: u32) -> FieldDef {
    FieldDef {
        kind: FieldKind::Mask,
        size,
        field_index,
        input_index,
        offset,
    }
}

/// The same field, bounded in another way.
fn bounded(kind: FieldKind, field: FieldDef) -> FieldDef {
    FieldDef { kind, ..field }
}

/// The definitions of the example in the DPDK Programmer's Guide, "Packet Classification and Access
/// Control".
fn guide() -> [FieldDef; 5] {
    [
        bounded(FieldKind::Bitmask, field(0, 1, 0, 0)),
        field(1, 4, 1, 1),
        field(2, 4, 2, 5),
        bounded(FieldKind::Range, field(3, 2, 3, 9)),
        bounded(FieldKind::Range, field(4, 2, 3, 11)),
    ]
}

/// The definitions of the guide are those of IPv4.
#[test]
fn the_fields_of_the_guide_are_a_layout(rt: HostRuntime) -> Result<(), Fail> {
    let layout = Layout::new(&guide())?;
    assert!(rt; layout.fields() == ip4_layout().fields());
    assert!(rt; (layout.key_len(), layout.buffer_len()) == (13, 13));
    Ok(())
}

/// Asserts that the definitions of the guide are no layout, where one of them is changed.
fn is_no_layout(rt: &impl Abort, place: usize, changed: FieldDef, fault: LayoutFault) {
    let mut defs = guide();
    if let Some(def) = defs.get_mut(place) {
        *def = changed;
    }
    assert!(rt; Layout::new(&defs).err() == Some(fault));
}

#[test]
fn the_fields_of_the_guide_with_one_changed_are_no_layout(rt: HostRuntime) {
    is_no_layout(&rt, 0, field(0, 2, 0, 0), LayoutFault::FirstNotOneByte);
    is_no_layout(&rt, 1, field(1, 3, 1, 1), LayoutFault::BadSize(1));
    is_no_layout(&rt, 4, field(4, 2, 4, 11), LayoutFault::GroupSize(3));
    is_no_layout(&rt, 4, field(4, 2, 3, 12), LayoutFault::GroupOffsets(4));
}

#[test]
fn fields_that_lack_are_no_layout(rt: HostRuntime) {
    assert!(rt; Layout::of(&guide()[1..]).err() == Some(LayoutFault::FieldIndex(0)));
    assert!(rt; Layout::of(&[]).err() == Some(LayoutFault::NoFields));
}

#[test]
fn the_key_of_nine_fields_is_their_bytes_in_order(rt: HostRuntime) -> Result<(), Fail> {
    let layout = Layout::new(&[
        field(0, 1, 0, 24),
        field(1, 2, 1, 0),
        field(2, 2, 1, 2),
        field(3, 1, 2, 4),
        field(4, 1, 2, 5),
        field(5, 2, 2, 6),
        field(6, 8, 3, 8),
        field(7, 4, 5, 16),
        field(8, 4, 6, 20),
    ])?;
    let mut key = [0; 25];
    assert!(rt; layout.buffer_len() == 25 && layout.key_len() == 25);
    layout.gather(b"ABCDEFGHIJKLMNOPQRSTUVWXY", &mut key);
    assert!(rt; key.as_slice() == b"YABCDEFGHIJKLMNOPQRSTUVWX".as_slice());
    Ok(())
}

#[test]
fn the_key_of_an_ip6_packet_is_its_bytes_in_order(rt: HostRuntime) {
    let layout = ip6_layout();
    let mut buffer = [7u8; 37];
    buffer[9] = 1;
    buffer[36] = 2;
    let mut key = [0; 37];
    layout.gather(&buffer, &mut key);
    assert!(rt; key == buffer);
}
