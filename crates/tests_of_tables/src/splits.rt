//! Lists whose words were worked out by hand, split under budgets around them.

ghost use Rattle.std.specs.Prelude.{◌<◌, ◌≤◌};
ghost use Rattle.table_sizes.specs.Sizes.{max_words};

use field_defs::{FieldValue, ip4_layout};
use rule_set::{RuleSet, RuleTag, StoredRule};
use rule_split::{PlanFault, plan};
use std::alloc::Global;
use std::process::Abort;
use std::test::Fail;
use table_sizes::MAX_WORDS;
use trie_merge::Levels;

const ANY: FieldValue = FieldValue::Mask { value: 0, bits: 0 };

/// The addresses that agree in the first bits.
const fn net(value: u64, bits: u8) -> FieldValue {
    FieldValue::Mask { value, bits }
}

/// Rules for IPv4 packets of any protocol and ports, by their sources and destinations.
fn rules_of(
    rt: &impl Abort,
    alloc: Global,
    addresses: &[(FieldValue, FieldValue)],
) -> Result<RuleSet, Fail> {
    let protocol = FieldValue::Bitmask { value: 0, mask: 0 };
    let ports = FieldValue::Range {
        low: 0,
        high: 0xFFFF,
    };
    let tag = RuleTag {
        category_mask: 1,
        priority: 1,
        userdata: 1,
    };
    let mut rules = RuleSet::new(alloc, ip4_layout());
    for (source, destination) in addresses {
        assert!(rt; !rules.is_full());
        let values = [protocol, *source, *destination, ports, ports];
        rules.push(StoredRule::new(alloc, tag, &values)?)?;
    }
    Ok(rules)
}

/// How many groups there are and the total, or the total that is above the budget.
fn split(
    rt: &impl Abort,
    alloc: Global,
    rules: &RuleSet,
    budget: u64,
) -> Result<Result<(usize, u64), u64>, Fail> {
    assert!(rt; 0 < budget);
    assert!(rt; budget <= MAX_WORDS as u64);
    match plan(alloc, rules, budget) {
        Ok(plan) => Ok(Ok((plan.levels().len(), plan.total()))),
        Err(PlanFault::TooLarge { words, .. }) => Ok(Err(words)),
        Err(fault) => Err(fault)?,
    }
}

/// The rules are split so under the budget.
fn splits(
    rt: &impl Abort,
    alloc: Global,
    rules: &RuleSet,
    budget: u64,
    expected: Result<(usize, u64), u64>,
) -> Result<(), Fail> {
    assert!(rt; split(rt, alloc, rules, budget)? == expected);
    Ok(())
}

#[test]
fn no_rule_has_the_words_of_the_empty_row(rt: HostRuntime) -> Result<(), Fail> {
    let none = rules_of(&rt, rt.alloc(), &[])?;
    splits(&rt, rt.alloc(), &none, 16, Ok((0, 16)))?;
    splits(&rt, rt.alloc(), &none, 15, Err(16))
}

#[test]
fn a_wild_rule_has_one_node_of_one_run_and_a_row(rt: HostRuntime) -> Result<(), Fail> {
    let wild = rules_of(&rt, rt.alloc(), &[(ANY, ANY)])?;
    splits(&rt, rt.alloc(), &wild, 33, Ok((1, 33)))?;
    splits(&rt, rt.alloc(), &wild, 32, Err(33))
}

#[test]
fn two_rules_are_split_until_their_words_fit(rt: HostRuntime) -> Result<(), Fail> {
    // Together 43 words, and each by itself 24 and 17.
    let pair = [(ANY, net(0x0A00_0000, 8)), (ANY, ANY)];
    let pair = rules_of(&rt, rt.alloc(), &pair)?;
    splits(&rt, rt.alloc(), &pair, 59, Ok((1, 59)))?;
    splits(&rt, rt.alloc(), &pair, 58, Ok((2, 57)))?;
    splits(&rt, rt.alloc(), &pair, 56, Err(57))
}

#[test]
fn three_rules_are_split_until_their_words_fit(rt: HostRuntime) -> Result<(), Fail> {
    // Together 120 words, the two sources 43, the host 36, and a source by itself 24.
    let three = [
        (net(0x0A00_0000, 8), ANY),
        (net(0x1400_0000, 8), ANY),
        (ANY, net(0x1E01_0101, 32)),
    ];
    let three = rules_of(&rt, rt.alloc(), &three)?;
    splits(&rt, rt.alloc(), &three, 136, Ok((1, 136)))?;
    splits(&rt, rt.alloc(), &three, 135, Ok((2, 95)))?;
    splits(&rt, rt.alloc(), &three, 94, Err(100))
}

/// There are two groups, of which the first has the second and the third rule.
fn sources_come_first(rt: &impl Abort, levels: &[Levels]) {
    assert!(rt; levels.len() == 2);
    assert!(rt; levels[0].group() == [1u32, 2].as_slice());
    assert!(rt; levels[1].group() == [0u32].as_slice());
}

#[test]
fn rules_that_bound_the_source_come_first(rt: HostRuntime) -> Result<(), Fail> {
    let rules = [
        (ANY, net(0x1E01_0101, 32)),
        (net(0x0A00_0000, 8), ANY),
        (net(0x1400_0000, 8), ANY),
    ];
    let rules = rules_of(&rt, rt.alloc(), &rules)?;
    let plan = plan(rt.alloc(), &rules, 135)?;
    sources_come_first(&rt, plan.levels());
    Ok(())
}
