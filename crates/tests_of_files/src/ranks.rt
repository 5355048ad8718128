//! The ranks of rules of equal and of other priorities.

use field_defs::{FieldValue, ip4_layout};
use rule_set::{RuleSet, RuleTag, StoredRule, ranks};
use std::alloc::Global;
use std::process::Abort;
use std::test::Fail;

const ANY: [FieldValue; 5] = [
    FieldValue::Bitmask { value: 0, mask: 0 },
    FieldValue::Mask { value: 0, bits: 0 },
    FieldValue::Mask { value: 0, bits: 0 },
    FieldValue::Range {
        low: 0,
        high: 0xFFFF,
    },
    FieldValue::Range {
        low: 0,
        high: 0xFFFF,
    },
];

/// Adds a rule of this priority, which every packet matches.
fn add<R: Abort + AllocGlobal>(rt: &R, rules: &mut RuleSet, priority: i32) -> Result<(), Fail> {
    let tag = RuleTag {
        category_mask: 1,
        priority,
        userdata: 1,
    };
    assert!(rt; !rules.is_full());
    rules.push(StoredRule::new(rt.alloc(), tag, &ANY)?)?;
    Ok(())
}

/// Asserts that the rules have these ranks.
fn ranks_are(rt: &impl Abort, alloc: Global, rules: &RuleSet, want: &[u32]) -> Result<(), Fail> {
    let ranks = ranks(alloc, rules)?;
    assert!(rt; ranks.as_slice() == want);
    Ok(())
}

/// Asserts that of the ranks at places 0 and 1 the first is 2 and the second 1, and so on.
fn are_in_pairs(rt: &impl Abort, ranks: &[u32]) {
    for (place, rank) in ranks.iter().enumerate() {
        assert!(rt; *rank as usize == (place ^ 1) + 1);
    }
}

#[test]
fn earlier_rules_of_equal_priority_rank_higher(rt: HostRuntime) -> Result<(), Fail> {
    let mut rules = RuleSet::new(rt.alloc(), ip4_layout());
    for priority in [2, 9, 2, 0, 9] {
        add(&rt, &mut rules, priority)?;
    }
    ranks_are(&rt, rt.alloc(), &rules, &[3, 5, 2, 1, 4])
}

#[test]
fn a_thousand_rules_rank_in_pairs(rt: HostRuntime) -> Result<(), Fail> {
    let mut rules = RuleSet::new(rt.alloc(), ip4_layout());
    for place in 0..1024 {
        add(&rt, &mut rules, place / 2)?;
    }
    let ranks = ranks(rt.alloc(), &rules)?;
    are_in_pairs(&rt, &ranks);
    Ok(())
}
