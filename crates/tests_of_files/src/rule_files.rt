//! Rule files as people write them, files with a fault, and printed rules. What is expected is done
//! by hand.

ghost use Rattle.classbench_reader.specs.Print.{IsPrintable};

use classbench_reader::{LineFault, LineKind, RulesFault, print_rule, read_rules};
use field_defs::{Family, FieldValue, ip4_layout, ip6_layout};
use printed_lists::{ListLine, put_list};
use rule_set::{RuleSet, RuleTag, StoredRule, check_rule};
use std::alloc::{AllocError, Global};
use std::process::Abort;
use std::test::Fail;

/// A rule list with comments, both families and attributes. Its first rule is the example of the
/// DPDK Programmer's Guide, "Packet Classification and Access Control".
const LIST: &str = "# edge filters\r\n\
    @192.168.1.0/24\t192.168.2.31/32\t0 : 65535\t1234 : 1234\t0x11/0xFF\t0x0000/0x0000\t\n\
    \n\
    \t@ 2001:db8::/48 ::/0 0:65535 443:443 6/0xff pri=100 cat=0x3 data=7\n\
    @0.0.0.0/0 0.0.0.0/0 0:65535 0:65535 0/0 data=0";

/// The values of its first rule.
const GUIDE: [FieldValue; 5] = [
    UDP,
    FieldValue::Mask {
        value: 0xC0A8_0100,
        bits: 24,
    },
    FieldValue::Mask {
        value: 0xC0A8_021F,
        bits: 32,
    },
    ANY_PORT,
    PORT_1234,
];

/// What a rule is for, apart from what it matches.
fn tag(category_mask: u32, priority: i32, userdata: u32) -> RuleTag {
    RuleTag {
        category_mask,
        priority,
        userdata,
    }
}

#[test]
fn a_list_of_both_families_is_read(rt: HostRuntime) -> Result<(), Fail> {
    let file = read_rules(rt.alloc(), LIST.as_bytes())?;
    are_listed(&rt, &file.ip4, &file.ip6);
    Ok(())
}

/// Asserts that these are the rules of the list.
fn are_listed(rt: &impl Abort, ip4: &RuleSet, ip6: &RuleSet) {
    assert!(rt; ip4.len() == 2);
    assert!(rt; ip6.len() == 1);
    assert!(rt; ip4.at(0).fields() == GUIDE.as_slice());
    assert!(rt; ip4.at(1).tag() == tag(0xFFFF, 536_870_908, 0));
    assert!(rt; ip6.at(0).tag() == tag(3, 100, 7));
}

#[test]
fn a_rule_alone_has_the_first_priority(rt: HostRuntime) -> Result<(), Fail> {
    let text = "# top\r\n\r\n@0.0.0.0/0 0.0.0.0/0 0x0:0xFFFF 53 : 53 17/255 data=9\r\n";
    let file = read_rules(rt.alloc(), text.as_bytes())?;
    is_alone(&rt, &file.ip4, &file.ip6);
    Ok(())
}

/// Asserts that there is one rule, which has the first priority and userdata 9.
fn is_alone(rt: &impl Abort, ip4: &RuleSet, ip6: &RuleSet) {
    assert!(rt; ip4.len() == 1);
    assert!(rt; ip6.len() == 0);
    assert!(rt; ip4.at(0).tag() == tag(0xFFFF, 536_870_910, 9));
}

/// Whether the list with one more line has this fault there, its sixth line.
fn is_refused(alloc: Global, line: &str, kind: LineKind) -> Result<bool, Fail> {
    let text = format!(in alloc; "{LIST}\n{line}\n")?;
    Ok(has_fault(alloc, &text, LineFault { line: 6, kind }))
}

/// Whether the text has this first fault.
fn has_fault(alloc: Global, text: &str, fault: LineFault) -> bool {
    read_rules(alloc, text.as_bytes()).err() == Some(RulesFault::Line(fault))
}

#[test]
fn a_faulty_line_is_told_by_its_number_and_kind(rt: HostRuntime) -> Result<(), Fail> {
    let lines = [
        ("0.0.0.0/0", LineKind::BadStart),
        ("@0.0.0.0/33", LineKind::BadPrefix),
        (
            "@::/0 ::/0 0:1 0:1 6/0 pri=536870912",
            LineKind::PriorityRange,
        ),
    ];
    for (line, kind) in lines {
        let refused = is_refused(rt.alloc(), line, kind)?;
        assert!(rt; refused, "{line}");
    }
    Ok(())
}

#[test]
fn hundreds_of_rules_are_read(rt: HostRuntime) -> Result<(), Fail> {
    let mut text = Vec::new(rt.alloc());
    for _ in 0..300 {
        text.extend_from_slice(b"@::/0 ::/0 0:1 0:1 6/0\n#\n@0.0.0.0/0 0.0.0.0/0 0:1 0:1 6/0\n")?;
    }
    has_hundreds(&rt, rt.alloc(), &text)
}

/// Asserts that the text has 300 rules of each family.
fn has_hundreds(rt: &impl Abort, alloc: Global, text: &[u8]) -> Result<(), Fail> {
    let file = read_rules(alloc, text)?;
    are_hundreds(rt, &file.ip4, &file.ip6);
    Ok(())
}

/// Asserts that there are 300 rules of each family.
fn are_hundreds(rt: &impl Abort, ip4: &RuleSet, ip6: &RuleSet) {
    assert!(rt; ip4.len() == 300);
    assert!(rt; ip6.len() == 300);
    assert!(rt; ip4.at(299).tag().userdata == 600);
}

/// The protocol, and the range of the ports.
const UDP: FieldValue = FieldValue::Bitmask {
    value: 17,
    mask: 255,
};

const ANY_PORT: FieldValue = FieldValue::Range {
    low: 0,
    high: 65535,
};

const PORT_1234: FieldValue = FieldValue::Range {
    low: 1234,
    high: 1234,
};

/// Asserts that the rule is one of IPv4, and has this line.
fn prints_ip4(rt: &impl Abort, alloc: Global, rule: &StoredRule, want: &[u8]) -> Result<(), Fail> {
    assert!(rt; check_rule(&ip4_layout(), &rule.tag(), rule.fields()) == Ok(()));
    let line = print_rule(alloc, Family::Ip4, rule)?;
    assert!(rt; line.as_slice() == want);
    Ok(())
}

#[test]
fn a_printed_ip4_rule_is_one_line(rt: HostRuntime) -> Result<(), Fail> {
    let rule = StoredRule::new(rt.alloc(), tag(65535, 536_870_910, 1), &GUIDE)?;
    let want = b"@192.168.1.0/24\t192.168.2.31/32\t0 : 65535\t1234 : 1234\t0x11/0xFF\t\
        pri=536870910 cat=65535 data=1\n";
    prints_ip4(&rt, rt.alloc(), &rule, want)
}

#[test]
fn a_printed_ip6_rule_is_one_line(rt: HostRuntime) -> Result<(), Fail> {
    let prefix = FieldValue::Mask {
        value: 0x2001_0DB8_0000_0000,
        bits: 48,
    };
    let rest = FieldValue::Mask { value: 0, bits: 0 };
    let high = FieldValue::Mask {
        value: 0x2001_0DB8_00AB_0000,
        bits: 64,
    };
    let low = FieldValue::Mask { value: 1, bits: 64 };
    let fields = [UDP, prefix, rest, high, low, ANY_PORT, PORT_1234];
    let rule = StoredRule::new(rt.alloc(), tag(3, 5, 7), &fields)?;
    assert!(rt; check_rule(&ip6_layout(), &rule.tag(), rule.fields()) == Ok(()));
    let line = print_rule(rt.alloc(), Family::Ip6, &rule)?;
    let want = b"@2001:db8:0:0:0:0:0:0/48\t2001:db8:ab:0:0:0:0:1/128\t0 : 65535\t1234 : 1234\t\
        0x11/0xFF\tpri=5 cat=3 data=7\n";
    assert!(rt; line.as_slice() == want.as_slice());
    Ok(())
}

/// Writes a comment and an IPv4 rule.
fn put_both(
    alloc: Global,
    text: &mut Vec<u8>,
    comment: &[u8],
    rule: &StoredRule,
) -> Result<(), AllocError>
    requires { IsPrintable Family.Ip4 rule.now }
{
    let lines = [ListLine::Comment(comment), ListLine::Rule(rule)];
    put_list(alloc, text, Family::Ip4, &lines)
}

/// Asserts that the rule is one of IPv4, that it is this text after its comment, and that this is
/// read as one rule.
fn lists_ip4(
    rt: &impl Abort,
    alloc: Global,
    comment: &[u8],
    rule: &StoredRule,
    want: &[u8],
) -> Result<(), Fail> {
    assert!(rt; check_rule(&ip4_layout(), &rule.tag(), rule.fields()) == Ok(()));
    let mut text = Vec::new(alloc);
    put_both(alloc, &mut text, comment, rule)?;
    assert!(rt; text.as_slice() == want);
    let file = read_rules(alloc, &text)?;
    assert!(rt; file.ip4.len() == 1);
    Ok(())
}

#[test]
fn a_printed_list_is_read_as_its_rules(rt: HostRuntime) -> Result<(), Fail> {
    let rule = StoredRule::new(rt.alloc(), tag(65535, 7, 2), &GUIDE)?;
    let want = b"# udp to 1234\t??@::/0\n\
        @192.168.1.0/24\t192.168.2.31/32\t0 : 65535\t1234 : 1234\t0x11/0xFF\t\
        pri=7 cat=65535 data=2\n";
    lists_ip4(&rt, rt.alloc(), b"udp to 1234\t\r\n@::/0", &rule, want)
}
