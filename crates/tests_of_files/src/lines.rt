//! The lines of a report, byte for byte.

ghost use Rattle.std.specs.Prelude.{◌≡◌, ◌≤◌, length};
ghost use Rattle.acl_report.specs.declared.packet.TheConstants.{MAX_VERDICTS};

use acl_report::{
    Counts, LINE_ROOM, MAX_VERDICTS, packet_line, packets_line, table_line, transitions_line,
};
use field_defs::Family;
use header_extract::Class;
use std::process::Abort;

/// Asserts that the packet has the line.
fn prints(
    rt: &impl Abort,
    number: u64,
    class: Class,
    verdicts: &[u32],
    dashes: &[bool],
    line: &[u8],
)
    requires categories { length verdicts.now ≤ MAX_VERDICTS }
    requires dashes { length dashes.now ≡ length verdicts.now }
{
    let mut into = [0; LINE_ROOM];
    let len = packet_line(number, class, verdicts, dashes, &mut into);
    assert!(rt; &into[..len] == line);
}

#[test]
fn a_packet_has_its_number_its_class_and_a_word_for_each_category(rt: HostRuntime) {
    let widest = [u32::MAX; MAX_VERDICTS];
    let longest = b"18446744073709551615 ip6 4294967295 4294967295 4294967295 4294967295 \
        4294967295 4294967295 4294967295 4294967295 4294967295 4294967295 4294967295 4294967295 \
        4294967295 4294967295 4294967295 4294967295\n";
    prints(
        &rt,
        1,
        Class::Ip4,
        &[2, 3, 0, 0],
        &[false; 4],
        b"1 ip4 2 3 0 0\n",
    );
    prints(&rt, 12, Class::Ip6, &[7], &[true], b"12 ip6 -\n");
    prints(&rt, 2, Class::Other, &[7], &[false], b"2 other -\n");
    prints(&rt, 1, Class::Short, &[], &[], b"1 short -\n");
    prints(
        &rt,
        u64::MAX,
        Class::Ip6,
        &widest,
        &[false; MAX_VERDICTS],
        longest,
    );
}

/// Counts of two IPv4 packets, one of IPv6 and one that is too short.
fn four_packets() -> Counts {
    let mut counts = Counts::default();
    counts.add(Class::Ip4);
    counts.add(Class::Ip6);
    counts.add(Class::Ip4);
    counts.add(Class::Short);
    counts
}

#[test]
fn counts_have_their_line(rt: HostRuntime) {
    let mut into = [0; LINE_ROOM];
    let len = packets_line(&four_packets(), &mut into);
    let want = b"packets 4 ip4 2 ip6 1 other 0 short 1\n";
    assert!(rt; &into[..len] == want.as_slice());
}

#[test]
fn tables_have_their_line(rt: HostRuntime) {
    let mut into = [0; LINE_ROOM];
    let len = table_line(Family::Ip4, 1, 1, 85, &mut into);
    assert!(rt; &into[..len] == b"ip4 rules 1 tries 1 words 85\n".as_slice());
}

#[test]
fn transitions_have_their_line(rt: HostRuntime) {
    let mut into = [0; LINE_ROOM];
    let len = transitions_line(26, &mut into);
    assert!(rt; &into[..len] == b"transitions 26\n".as_slice());
}
