//! Least keys, worked out by hand and by going through all keys of few distinct bytes.

ghost use Rattle.std.specs.Prelude.{◌≡◌, ◌<◌, length, OnOk};
ghost use Rattle.table_sizes.specs.Sizes.{row_len};

use acl_audit::{Audit, AuditFault, live_rules};
use field_defs::{FieldDef, FieldKind, FieldValue, Layout, ip4_layout};
use rule_set::{RuleSet, RuleTag, StoredRule, plain_verdict};
use std::alloc::Global;
use std::process::Abort;
use std::test::Fail;

/// Any address.
pub(crate) const ANY: FieldValue = FieldValue::Mask { value: 0, bits: 0 };

/// A source of 10.0.0.0/8.
pub(crate) const TEN: FieldValue = FieldValue::Mask {
    value: 0x0A00_0000,
    bits: 8,
};

/// Adds a rule of the set's fields.
pub(crate) fn add(
    rt: &impl Abort,
    alloc: Global,
    rules: &mut RuleSet,
    tag: RuleTag,
    fields: &[FieldValue],
) -> Result<(), Fail>
    ensures { OnOk result (rules.new.layout ≡ rules.old.layout) }
{
    assert!(rt; !rules.is_full());
    rules.push(StoredRule::new(alloc, tag, fields)?)?;
    Ok(())
}

/// Adds a rule of the tag for all packets from a source.
pub(crate) fn add_source(
    rt: &impl Abort,
    alloc: Global,
    rules: &mut RuleSet,
    tag: RuleTag,
    source: FieldValue,
) -> Result<(), Fail>
    ensures { OnOk result (rules.new.layout ≡ rules.old.layout) }
{
    let ports = FieldValue::Range {
        low: 0,
        high: 0xFFFF,
    };
    let protocol = FieldValue::Bitmask { value: 0, mask: 0 };
    add(
        rt,
        alloc,
        rules,
        tag,
        &[protocol, source, ANY, ports, ports],
    )
}

/// A rule of category 0.
const FIRST: RuleTag = RuleTag {
    category_mask: 1,
    priority: 1,
    userdata: 1,
};

/// The rule's key in the category is this one.
fn wins(
    rt: &impl Abort,
    rules: &RuleSet,
    audit: &Audit,
    rule: usize,
    category: u32,
    key: Option<&[u8]>,
) -> Result<(), Fail>
    requires count { length audit.now ≡ length rules.now.rules }
    requires category { category < row_len }
{
    assert!(rt; rule < rules.len());
    assert!(rt; audit.key_of(rule, category) == key);
    Ok(())
}

#[test]
fn a_covered_rule_never_wins(rt: HostRuntime) -> Result<(), Fail> {
    let mut rules = RuleSet::new(rt.alloc(), ip4_layout());
    add_source(&rt, rt.alloc(), &mut rules, FIRST, ANY)?;
    add_source(&rt, rt.alloc(), &mut rules, FIRST, TEN)?;
    let audit = live_rules(rt.alloc(), &rules, 27)?;
    wins(&rt, &rules, &audit, 0, 0, Some(&[0; 13]))?;
    wins(&rt, &rules, &audit, 1, 0, None)?;
    wins(&rt, &rules, &audit, 0, 1, None)?;
    let refused = live_rules(rt.alloc(), &rules, 26);
    assert!(rt;
        matches!(
            refused,
            Err(AuditFault::TooLarge {
                words: 27,
                budget: 26
            })
        )
    );
    Ok(())
}

#[test]
fn rules_exchanged_both_win(rt: HostRuntime) -> Result<(), Fail> {
    let mut rules = RuleSet::new(rt.alloc(), ip4_layout());
    add_source(&rt, rt.alloc(), &mut rules, FIRST, TEN)?;
    add_source(&rt, rt.alloc(), &mut rules, FIRST, ANY)?;
    let audit = live_rules(rt.alloc(), &rules, 1000)?;
    let ten = [0, 10, 0, 0, 0, 0, 0, 0, 0, 0, 0, 0, 0];
    wins(&rt, &rules, &audit, 0, 0, Some(&ten))?;
    wins(&rt, &rules, &audit, 1, 0, Some(&[0; 13]))?;
    Ok(())
}

#[test]
fn no_rule_is_never_too_large(rt: HostRuntime) -> Result<(), Fail> {
    let rules = RuleSet::new(rt.alloc(), ip4_layout());
    assert!(rt; live_rules(rt.alloc(), &rules, 1).is_ok());
    Ok(())
}

/// The definition of a field of numbers.
pub(crate) fn def(size: u8, field_index: u8, input_index: u8, offset: u32) -> FieldDef {
    FieldDef {
        kind: FieldKind::Range,
        size,
        field_index,
        input_index,
        offset,
    }
}

/// Bytes at which the rules below begin or end, ascending.
const BYTES: [u8; 7] = [0, 1, 2, 5, 6, 7, 209];

/// The key of that number, of keys of five of those bytes.
fn key_numbered(number: usize) -> [u8; 5] {
    [
        BYTES[number / 2401 % 7],
        BYTES[number / 343 % 7],
        BYTES[number / 49 % 7],
        BYTES[number / 7 % 7],
        BYTES[number % 7],
    ]
}

/// Of those keys the least with the verdict.
fn first_with(rt: &impl Abort, rules: &RuleSet, verdict: u32, category: u32) -> Option<[u8; 5]>
    requires { category < row_len }
{
    assert!(rt; rules.layout().key_len() == 5);
    for number in 0..16_807 {
        let key = key_numbered(number);
        if plain_verdict(rules, &key, category) == verdict {
            return Some(key);
        }
    }
    None
}

/// Categories, priority and three ranges.
type Row = (u32, i32, [u64; 6]);

const ROWS: [Row; 7] = [
    (1, 1, [0, 255, 0, 65_535, 5, 2000]),
    (3, 2, [5, 255, 5, 1285, 0, 65_535]),
    (2, 1, [5, 5, 0, 65_535, 1280, 1280]),
    (3, 3, [6, 255, 256, 256, 0, 65_535]),
    (1, 2, [0, 5, 1285, 1285, 5, 5]),
    (3, 1, [0, 255, 0, 65_535, 0, 65_535]),
    (3, 1, [0, 255, 0, 65_535, 1, 1]),
];

/// Adds the row's rule.
fn add_row(
    rt: &impl Abort,
    alloc: Global,
    rules: &mut RuleSet,
    row: &Row,
    userdata: u32,
) -> Result<(), Fail> {
    let tag = RuleTag {
        category_mask: row.0,
        priority: row.1,
        userdata,
    };
    let [a, b, c, d, e, f] = row.2;
    let fields = [
        FieldValue::Range { low: a, high: b },
        FieldValue::Range { low: c, high: d },
        FieldValue::Range { low: e, high: f },
    ];
    add(rt, alloc, rules, tag, &fields)
}

#[test]
fn keys_are_the_least_of_all(rt: HostRuntime) -> Result<(), Fail> {
    let layout = Layout::new(&[def(1, 0, 0, 0), def(2, 1, 1, 1), def(2, 2, 1, 3)])?;
    let mut rules = RuleSet::new(rt.alloc(), layout);
    for (place, row) in ROWS.iter().enumerate() {
        add_row(&rt, rt.alloc(), &mut rules, row, place as u32 + 1)?;
    }
    let audit = live_rules(rt.alloc(), &rules, 100_000)?;
    for rule in 0..7usize {
        for category in 0..3u32 {
            let key = first_with(&rt, &rules, rule as u32 + 1, category);
            match &key {
                Some(key) => wins(&rt, &rules, &audit, rule, category, Some(key))?,
                None => wins(&rt, &rules, &audit, rule, category, None)?,
            }
        }
    }
    Ok(())
}
