//! The verdicts of the plain filter, over the example of the DPDK Programmer's Guide.

use field_defs::{FieldValue, ip4_layout};
use rule_set::{Categories, MAX_CATEGORIES, RuleSet, RuleTag, StoredRule, plain_verdict};
use std::alloc::Global;
use std::process::Abort;
use std::test::Fail;

const ANY: FieldValue = FieldValue::Mask { value: 0, bits: 0 };

/// The rule for the addresses, any protocol and any ports.
fn rule(
    alloc: Global,
    tag: RuleTag,
    source: FieldValue,
    destination: FieldValue,
) -> Result<StoredRule, Fail> {
    let protocol = FieldValue::Bitmask { value: 0, mask: 0 };
    let ports = FieldValue::Range {
        low: 0,
        high: 0xFFFF,
    };
    let fields = [protocol, source, destination, ports, ports];
    Ok(StoredRule::new(alloc, tag, &fields)?)
}

/// Adds the rule for the addresses.
fn add(
    rt: &impl Abort,
    alloc: Global,
    rules: &mut RuleSet,
    (category_mask, priority, userdata): (u32, i32, u32),
    addresses: (FieldValue, FieldValue),
) -> Result<(), Fail> {
    let tag = RuleTag {
        category_mask,
        priority,
        userdata,
    };
    let (source, destination) = addresses;
    assert!(rt; !rules.is_full());
    rules.push(rule(alloc, tag, source, destination)?)?;
    Ok(())
}

/// Adds the rules of the example in the DPDK Programmer's Guide, "Packet Classification and Access
/// Control": one to 192.168.0.0/16, one to 192.168.1.0/24 and one from 10.1.1.1.
fn add_guide(rt: &impl Abort, alloc: Global, rules: &mut RuleSet) -> Result<(), Fail> {
    let wide = FieldValue::Mask {
        value: 0xC0A8_0000,
        bits: 16,
    };
    let narrow = FieldValue::Mask {
        value: 0xC0A8_0100,
        bits: 24,
    };
    let host = FieldValue::Mask {
        value: 0x0A01_0101,
        bits: 32,
    };
    add(rt, alloc, rules, (3, 1, 1), (ANY, wide))?;
    add(rt, alloc, rules, (1, 2, 2), (ANY, narrow))?;
    add(rt, alloc, rules, (2, 3, 3), (host, ANY))
}

/// The rules of that example.
fn guide_rules(rt: &impl Abort, alloc: Global) -> Result<RuleSet, Fail> {
    let mut rules = RuleSet::new(alloc, ip4_layout());
    add_guide(rt, alloc, &mut rules)?;
    Ok(rules)
}

/// The verdicts of the first four categories.
fn verdicts(rt: &impl Abort, rules: &RuleSet, key: &[u8]) -> [u32; 4] {
    assert!(rt; key.len() == rules.layout().key_len());
    [
        plain_verdict(rules, key, 0),
        plain_verdict(rules, key, 1),
        plain_verdict(rules, key, 2),
        plain_verdict(rules, key, 3),
    ]
}

#[test]
fn the_packets_of_the_guide_get_its_answers(rt: HostRuntime) -> Result<(), Fail> {
    let rules = guide_rules(&rt, rt.alloc())?;
    let cases = [
        ([17, 10, 1, 1, 1, 192, 168, 1, 15, 0, 1, 0, 2], [2, 3, 0, 0]),
        (
            [17, 192, 168, 1, 1, 192, 168, 2, 11, 0, 1, 0, 2],
            [1, 1, 0, 0],
        ),
        (
            [17, 10, 1, 1, 1, 201, 212, 111, 12, 0, 1, 0, 2],
            [0, 3, 0, 0],
        ),
    ];
    for (key, expected) in cases.iter() {
        assert!(rt; verdicts(&rt, &rules, key) == *expected);
    }
    Ok(())
}

#[test]
fn the_last_of_three_hundred_rules_is_found(rt: HostRuntime) -> Result<(), Fail> {
    let mut rules = guide_rules(&rt, rt.alloc())?;
    for number in 4..=300 {
        let host = FieldValue::Mask {
            value: u64::from(number),
            bits: 32,
        };
        add(&rt, rt.alloc(), &mut rules, (1, 4, number), (host, ANY))?;
    }
    // 300 is the address 0.0.1.44.
    let key = [17, 0, 0, 1, 44, 201, 212, 111, 12, 0, 1, 0, 2];
    assert!(rt; verdicts(&rt, &rules, &key) == [300, 0, 0, 0]);
    Ok(())
}

/// In each of the categories the winner's userdata is 100 plus the category.
fn each_has_its_own(rt: &impl Abort, rules: &RuleSet, count: u32) {
    let cats = Categories::new(count).expect(rt, "a number of categories");
    let key = [0; 13];
    assert!(rt; key.len() == rules.layout().key_len());
    for category in 0..cats.count() as u32 {
        assert!(rt; plain_verdict(rules, &key, category) == 100 + category);
    }
}

#[test]
fn each_category_has_its_own_winner(rt: HostRuntime) -> Result<(), Fail> {
    // A rule for all categories, and one of a greater priority for each.
    let mut rules = guide_rules(&rt, rt.alloc())?;
    for category in 0..MAX_CATEGORIES as u32 {
        let tag = (1 << category, 4, 100 + category);
        add(&rt, rt.alloc(), &mut rules, tag, (ANY, ANY))?;
    }
    for n in [1, 4, 8, 12, 16] {
        each_has_its_own(&rt, &rules, n);
    }
    Ok(())
}
