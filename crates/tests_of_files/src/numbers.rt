//! Numbers that bytes spell in either order.

use byte_numbers::{
    mirrored_u16_at, mirrored_u32_at, mirrored_u64_at, network_number, network_u16_at,
    network_u32_at, network_u64_at,
};

#[test]
fn eight_bytes_spell_a_number_in_either_order(rt: HostRuntime) {
    let bytes = [0x01, 0x23, 0x45, 0x67, 0x89, 0xAB, 0xCD, 0xEF];
    assert!(rt; network_u16_at(&bytes, 6) == 0xCDEF);
    assert!(rt; network_u32_at(&bytes, 2) == 0x4567_89AB);
    assert!(rt; network_u64_at(&bytes, 0) == 0x0123_4567_89AB_CDEF);
    assert!(rt; mirrored_u16_at(&bytes, 0) == 0x2301);
    assert!(rt; mirrored_u32_at(&bytes, 4) == 0xEFCD_AB89);
    assert!(rt; mirrored_u64_at(&bytes, 0) == 0xEFCD_AB89_6745_2301);
    assert!(rt; network_number(&bytes[5..]) == 0xAB_CDEF);
}
