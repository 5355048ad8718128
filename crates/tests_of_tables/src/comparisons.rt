//! Where two lists differ, worked out by hand and by going through all keys of few distinct bytes.

ghost use Rattle.std.specs.Prelude.{◌≡◌, OnOk, IfOk};
ghost use Rattle.field_defs.specs.Layout.{ip4_fields};

use crate::audits::{ANY, TEN, add, add_source, def};
use acl_audit::{CompareFault, Compared, compare_rules};
use field_defs::{FieldValue, Layout, ip4_layout};
use rule_set::{RuleSet, RuleTag, plain_verdict};
use std::alloc::Global;
use std::process::Abort;
use std::test::Fail;
use table_sizes::MAX_RULES;

/// A rule for all packets from a source: the source, the category mask and the userdata.
type Source = (FieldValue, u32, u32);

/// A list of such rules.
fn sources(rt: &impl Abort, alloc: Global, list: &[Source]) -> Result<RuleSet, Fail>
    ensures { IfOk result (λ rules. rules.layout ≡ ip4_fields) }
{
    let mut rules = RuleSet::new(alloc, ip4_layout());
    for (source, category_mask, userdata) in list {
        let tag = RuleTag {
            category_mask: *category_mask,
            priority: 1,
            userdata: *userdata,
        };
        add_source(rt, alloc, &mut rules, tag, *source)?;
    }
    Ok(rules)
}

/// The comparison tells this key and category, or that the lists are the same.
fn tells(
    rt: &impl Abort,
    alloc: Global,
    one: &RuleSet,
    two: &RuleSet,
    difference: Option<(&[u8], u32)>,
) -> Result<(), Fail>
    requires { one.now.layout ≡ two.now.layout }
{
    match compare_rules(alloc, one, two, 100_000)? {
        Compared::Same => assert!(rt; difference.is_none()),
        Compared::Differ { key, category } => {
            assert!(rt; difference == Some((key.as_slice(), category)))
        }
    }
    Ok(())
}

#[test]
fn lists_of_sources_are_told_apart(rt: HostRuntime) -> Result<(), Fail> {
    let zeros = [0u8; 13];
    let ten = [0u8, 10, 0, 0, 0, 0, 0, 0, 0, 0, 0, 0, 0];
    let five = [(ANY, 1, 5)];
    let six = [(ANY, 1, 6)];
    let ten_and_five = [(TEN, 1, 5), (ANY, 1, 5)];
    let ten_apart = [(TEN, 1, 4), (ANY, 1, 5)];
    let high = [(ANY, 4096, 1)];
    let zero = [(ANY, 1, 0)];
    let low_and_high = [(TEN, 0x80, 1), (ANY, 0x100, 1)];
    let none = [];
    let cases: [(&[Source], &[Source], Option<(&[u8], u32)>); 7] = [
        (&ten_and_five, &five, None),
        (&ten_apart, &five, Some((&ten, 0))),
        (&ten_and_five, &six, Some((&zeros, 0))),
        (&high, &none, Some((&zeros, 12))),
        (&zero, &none, None),
        (&none, &none, None),
        // Of the categories below 8 comes first, though one from 8 on has a lesser key.
        (&none, &low_and_high, Some((&ten, 7))),
    ];
    for (one, two, difference) in &cases {
        let one = sources(&rt, rt.alloc(), *one)?;
        let two = sources(&rt, rt.alloc(), *two)?;
        tells(&rt, rt.alloc(), &one, &two, *difference)?;
    }
    Ok(())
}

#[test]
fn a_half_above_the_budget_is_too_large(rt: HostRuntime) -> Result<(), Fail> {
    let one = sources(&rt, rt.alloc(), &[(ANY, 4096, 1)])?;
    let two = sources(&rt, rt.alloc(), &[])?;
    let refused = compare_rules(rt.alloc(), &one, &two, 16);
    assert!(rt;
        matches!(
            refused,
            Err(CompareFault::TooLarge {
                words: 17,
                budget: 16
            })
        )
    );
    assert!(rt; compare_rules(rt.alloc(), &one, &two, 17).is_ok());
    Ok(())
}

/// Adds as many rules as a set may hold.
fn fill_up(rt: &impl Abort, alloc: Global, rules: &mut RuleSet) -> Result<(), Fail>
    ensures { OnOk result (rules.new.layout ≡ rules.old.layout) }
{
    for userdata in 0..MAX_RULES as u32 {
        let tag = RuleTag {
            category_mask: 1,
            priority: 1,
            userdata,
        };
        add_source(rt, alloc, rules, tag, ANY)?;
    }
    Ok(())
}

#[test]
fn one_rule_more_than_a_set_holds_is_too_many(rt: HostRuntime) -> Result<(), Fail> {
    let one = sources(&rt, rt.alloc(), &[(TEN, 1, 1)])?;
    let mut two = one.new_of_same_layout(rt.alloc());
    fill_up(&rt, rt.alloc(), &mut two)?;
    let many = compare_rules(rt.alloc(), &one, &two, 1);
    assert!(rt; matches!(many, Err(CompareFault::TooManyRules)));
    Ok(())
}

/// Category mask, priority, userdata and two ranges.
type Row = (u32, i32, u32, [u64; 4]);

/// The greatest number of four bytes.
const WILD: u64 = 0xFFFF_FFFF;

const ROWS: [Row; 9] = [
    (0x0101, 1, 1, [0, 255, 0, WILD]),
    (0x8001, 2, 2, [5, 255, 5, 1285]),
    (0x0180, 2, 1, [5, 5, 0, WILD]),
    (0x0001, 3, 3, [6, 255, 256, 256]),
    (0x8000, 2, 2, [0, 5, 1285, 1285]),
    (0x0102, 1, 0, [0, 255, 1, 1]),
    (0xFFFF, 0, 1, [0, 255, 0, WILD]),
    (0x8181, 3, 3, [6, 255, 256, 256]),
    (0x0100, 3, 3, [6, 255, 256, 256]),
];

/// Adds the rules of the rows whose bits are set in the number.
fn add_rows(rt: &impl Abort, alloc: Global, rules: &mut RuleSet, number: u32) -> Result<(), Fail>
    ensures { OnOk result (rules.new.layout ≡ rules.old.layout) }
{
    for place in 0..9u32 {
        let (category_mask, priority, userdata, [a, b, c, d]) = ROWS[place as usize];
        if number >> place & 1 == 1 {
            let tag = RuleTag {
                category_mask,
                priority,
                userdata,
            };
            let fields = [
                FieldValue::Range { low: a, high: b },
                FieldValue::Range { low: c, high: d },
            ];
            add(rt, alloc, rules, tag, &fields)?;
        }
    }
    Ok(())
}

/// Bytes at which the rules above begin or end, ascending.
const BYTES: [u8; 6] = [0, 1, 2, 5, 6, 7];

/// The key of that number, of those bytes and two bytes 0.
fn key_numbered(number: usize) -> [u8; 5] {
    [
        BYTES[number / 36 % 6],
        0,
        0,
        BYTES[number / 6 % 6],
        BYTES[number % 6],
    ]
}

/// The number of the first of those keys for which verdicts differ in one of eight categories, and
/// the first of these there.
fn first_difference(
    rt: &impl Abort,
    one: &RuleSet,
    two: &RuleSet,
    first: u32,
) -> Option<(usize, u32)> {
    assert!(rt; first <= 8);
    assert!(rt; one.layout().key_len() == 5);
    assert!(rt; two.layout().key_len() == 5);
    for number in 0..216usize {
        let key = key_numbered(number);
        for category in first..first + 8 {
            if plain_verdict(one, &key, category) != plain_verdict(two, &key, category) {
                return Some((number, category));
            }
        }
    }
    None
}

/// The lists of two numbers compare as all keys say.
fn compares(rt: &impl Abort, alloc: Global, number: u32, other: u32) -> Result<(), Fail> {
    let layout = Layout::new(&[def(1, 0, 0, 0), def(4, 1, 1, 1)])?;
    let mut one = RuleSet::new(alloc, layout);
    let mut two = one.new_of_same_layout(alloc);
    add_rows(rt, alloc, &mut one, number)?;
    add_rows(rt, alloc, &mut two, other)?;
    let found = match first_difference(rt, &one, &two, 0) {
        Some(low) => Some(low),
        None => first_difference(rt, &one, &two, 8),
    };
    match found {
        Some((number, category)) => {
            let key = key_numbered(number);
            tells(rt, alloc, &one, &two, Some((&key, category)))
        }
        None => tells(rt, alloc, &one, &two, None),
    }
}

#[test]
fn differences_are_the_least_of_all(rt: HostRuntime) -> Result<(), Fail> {
    for number in 0..128u32 {
        compares(&rt, rt.alloc(), number, (number * 37 + 11) % 128)?;
        compares(&rt, rt.alloc(), number, number & 0x6F)?;
    }
    Ok(())
}

#[test]
fn differences_from_8_on_are_found_though_a_list_has_equal_halves(
    rt: HostRuntime,
) -> Result<(), Fail> {
    // Rows 0, 6 and 7 have equal masks below 8 and from 8 on, and the others haven't.
    let cases: [(u32, u32); 8] = [
        (0b0_1100_0001, 0b0_1100_0001),
        (0b0_1000_0000, 0b0_0000_0000),
        // Row 8 adds category 8, which row 7 has too.
        (0b0_1000_0001, 0b1_1000_0001),
        (0b1_1000_0001, 0b0_1000_0001),
        // Only category 8 differs, and then only category 15.
        (0b0_0100_0001, 0b1_0100_0001),
        (0b1_0000_0000, 0b0_0000_0000),
        (0b0_0100_0000, 0b0_0101_0000),
        (0b0_0001_0000, 0b0_0000_0000),
    ];
    for (number, other) in &cases {
        compares(&rt, rt.alloc(), *number, *other)?;
    }
    Ok(())
}
