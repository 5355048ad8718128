//! Texts of addresses and numbers, read and printed.

use text_scan::{ip4_text, ip6_text, number, put_ip4, put_ip6};

// The texts of RFC 4291, section 2.2, and forms that it doesn't have.
#[test]
fn the_address_texts_of_rfc_4291_are_read(rt: HostRuntime) {
    let texts = [
        (
            "ABCD:EF01:2345:6789:ABCD:EF01:2345:6789",
            Some(0xABCD_EF01_2345_6789_ABCD_EF01_2345_6789u128),
        ),
        (
            "2001:DB8:0:0:8:800:200C:417A",
            Some(0x2001_0DB8_0000_0000_0008_0800_200C_417A),
        ),
        (
            "2001:DB8::8:800:200C:417A",
            Some(0x2001_0DB8_0000_0000_0008_0800_200C_417A),
        ),
        ("ff01::101", Some(0xFF01_0000_0000_0000_0000_0000_0000_0101)),
        ("::1", Some(1)),
        ("::", Some(0)),
        ("0:0:0:0:0:FFFF:129.144.52.38", Some(0xFFFF_8190_3426)),
        ("::13.1.68.3", Some(0x0D01_4403)),
        ("13.1.68.3::", None),
        ("1::2::3", None),
        ("1:2:3:4:5:6:7:8:9", None),
        ("fe80::1%eth0", None),
    ];
    for (text, address) in texts {
        assert!(rt; ip6_text(text.as_bytes()) == address, "{text}");
    }
}

#[test]
fn dotted_texts_are_read_as_four_bytes(rt: HostRuntime) {
    let texts = [
        ("192.168.2.31", Some(0xC0A8_021Fu32)),
        ("010.001.000.255", Some(0x0A01_00FF)),
        ("1.2.3.256", None),
        ("1.2.3.4.", None),
    ];
    for (text, address) in texts {
        assert!(rt; ip4_text(text.as_bytes()) == address, "{text}");
    }
}

#[test]
fn numbers_are_read_in_both_bases(rt: HostRuntime) {
    let texts = [
        ("0x11/0xFF", Some((17, 4))),
        ("010 ", Some((10, 3))),
        ("65535", Some((65535, 5))),
        ("65536", None),
        ("123456789012345678901234567890", None),
        ("0x", Some((0, 1))),
        (":", None),
    ];
    for (text, read) in texts {
        assert!(rt; number(text.as_bytes(), 0, 65535) == read, "{text}");
    }
}

#[test]
fn addresses_are_printed_before_what_the_buffer_holds(rt: HostRuntime) {
    let mut line = [b'-'; 40];
    let len = put_ip4(0xC0A8_021F, &mut line);
    assert!(rt; &line[..len] == b"192.168.2.31".as_slice());
    let len = put_ip6(0x2001_0DB8_0000_0000_0008_0800_200C_417A, &mut line);
    assert!(rt; &line[..len] == b"2001:db8:0:0:8:800:200c:417a".as_slice());
    assert!(rt; line[39] == b'-');
}
