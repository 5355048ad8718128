//! The calls on values whose edges were worked out by hand.

ghost use Rattle.std.specs.Prelude.{◌≡◌, ◌<◌, length, IsTrue};
ghost use Rattle.field_defs.specs.FieldBounds.{CanMatch, is_range_filled};
ghost use Rattle.node_expand.specs.Edges.{StandsBefore};

use field_defs::FieldValue;
use node_expand::{Edge, as_range, cuts, first_and_last, start_edge, step_edge};
use std::process::Abort;

const FREE: Option<Edge> = Some(Edge::Free);

const LOW: Option<Edge> = Some(Edge::Low);

const HIGH: Option<Edge> = Some(Edge::High);

const BOTH: Option<Edge> = Some(Edge::Both);

/// What one value shows after some bytes: the edge, what it answers to bytes, and its cuts.
fn shows(
    rt: &impl Abort,
    value: FieldValue,
    size: u8,
    read: &[u8],
    edge: Option<Edge>,
    answers: &[(u8, Option<Edge>)],
    marked: &[u8],
)
    requires value { CanMatch value size }
    requires filled { IsTrue (is_range_filled value) }
    requires read { length read.now < size }
{
    let mut reached = start_edge(&value, size);
    let mut place = 0;
    for byte in read {
        reached = step_edge(&value, size, place, reached, *byte).expect(
            rt,
            "bytes that a number has",
        );
        place += 1;
    }
    assert!(rt; Some(reached) == edge, "{value:?}");

    for (byte, after) in answers {
        assert!(rt;
            step_edge(&value, size, place, reached, *byte) == *after,
            "{value:?} at {byte}"
        );
    }

    cuts_are(rt, &value, size, place, reached, marked);
}

/// At a place and an edge the value has its cuts at these bytes.
fn cuts_are(rt: &impl Abort, value: &FieldValue, size: u8, place: u8, edge: Edge, marked: &[u8])
    requires value { CanMatch value.now size }
    requires place { place < size }
    requires edge { StandsBefore value.now size place edge }
{
    // A mark that was set stays so, at a cut and elsewhere.
    let mut marks = [false; 256];
    marks[0] = true;
    cuts(value, size, place, edge, &mut marks);
    for byte in 0..=255u8 {
        assert!(rt;
            marks[usize::from(byte)] == (byte == 0 || marked.contains(&byte)),
            "{value:?} cut at {byte}"
        );
    }
}

fn range(low: u64, high: u64) -> FieldValue
    ensures { result ≡ FieldValue.Range low high }
{
    FieldValue::Range { low, high }
}

fn mask(value: u64, bits: u8) -> FieldValue
    ensures { result ≡ FieldValue.Mask value bits }
{
    FieldValue::Mask { value, bits }
}

fn bitmask(value: u64, mask: u64) -> FieldValue
    ensures { result ≡ FieldValue.Bitmask value mask }
{
    FieldValue::Bitmask { value, mask }
}

#[test]
fn a_range_keeps_the_ends_that_its_bytes_share(rt: HostRuntime) {
    let ports = range(1024, 65535);
    let answers = [(3, None), (4, FREE), (5, FREE)];
    shows(&rt, ports, 2, &[], LOW, &answers, &[4]);

    let traceroute = range(33746, 33846);
    let answers = [(130, None), (131, LOW), (132, HIGH), (133, None)];
    shows(&rt, traceroute, 2, &[], BOTH, &answers, &[131, 132, 133]);
    let answers = [(209, None), (210, FREE), (255, FREE)];
    shows(&rt, traceroute, 2, &[131], LOW, &answers, &[210]);
    let answers = [(0, FREE), (54, FREE), (55, None)];
    shows(&rt, traceroute, 2, &[132], HIGH, &answers, &[55]);

    let one_port = range(80, 80);
    shows(&rt, one_port, 2, &[], BOTH, &[(0, BOTH), (1, None)], &[1]);
    let answers = [(79, None), (80, FREE), (81, None)];
    shows(&rt, one_port, 2, &[0], BOTH, &answers, &[80, 81]);

    let two_firsts = range(0x0100, 0x02FE);
    let answers = [(0, None), (1, FREE), (2, HIGH), (3, None)];
    shows(&rt, two_firsts, 2, &[], BOTH, &answers, &[1, 2, 3]);

    let last_two = range(u64::MAX - 1, u64::MAX);
    let answers = [(254, None), (255, LOW)];
    shows(&rt, last_two, 8, &[], LOW, &answers, &[255]);
    let all_but_last = range(0, u64::MAX - 1);
    let answers = [(254, FREE), (255, None)];
    shows(&rt, all_but_last, 8, &[255; 7], HIGH, &answers, &[255]);
}

#[test]
fn masks_are_ranges_and_bitmasks_are_free(rt: HostRuntime) {
    // 192.168.2.31/31
    let pair = mask(0xC0A8021F, 31);
    let answers = [(29, None), (30, FREE), (31, FREE), (32, None)];
    shows(&rt, pair, 4, &[192, 168, 2], BOTH, &answers, &[30, 32]);
    let any = mask(7, 0);
    let answers = [(0, FREE), (7, FREE), (255, FREE)];
    shows(&rt, any, 8, &[], FREE, &answers, &[]);
    let last = mask(u64::MAX, 64);
    let answers = [(254, None), (255, LOW)];
    shows(&rt, last, 8, &[], LOW, &answers, &[255]);

    let odd = bitmask(1, 1);
    let answers = [(0, None), (1, FREE), (254, None), (255, FREE)];
    let mut every = [0; 255];
    for number in 1..=255u8 {
        every[usize::from(number - 1)] = number;
    }
    shows(&rt, odd, 1, &[], FREE, &answers, &every);
    let udp = bitmask(17, 0xFF);
    let answers = [(16, None), (17, FREE), (18, None)];
    shows(&rt, udp, 1, &[], FREE, &answers, &[17, 18]);
    let any = bitmask(17, 0);
    shows(&rt, any, 1, &[], FREE, &[(0, FREE), (255, FREE)], &[]);
}

/// The first and the last byte that a field may begin with.
fn first_bytes(value: FieldValue, size: u8) -> (u8, u8)
    requires value { CanMatch value size }
    requires filled { IsTrue (is_range_filled value) }
{
    first_and_last(&value, size, 0, start_edge(&value, size))
}

#[test]
fn a_mask_is_its_range_and_begins_with_its_first_bytes(rt: HostRuntime) {
    let pair = mask(0xC0A8021F, 31);
    assert!(rt; as_range(&pair, 4) == range(0xC0A8021E, 0xC0A8021F));
    assert!(rt; first_bytes(pair, 4) == (0xC0, 0xC0));
    assert!(rt; first_bytes(mask(7, 0), 8) == (0, 255));
    assert!(rt; first_bytes(range(33746, 33846), 2) == (131, 132));

    let odd = bitmask(0x0100, 0x0180);
    assert!(rt; as_range(&odd, 2) == odd);
    assert!(rt; first_bytes(odd, 2) == (1, 255));
}
