//! Groups whose words were worked out by hand, built and counted with memory to spare.

ghost use Rattle.std.specs.Prelude.{◌≤◌};
ghost use Rattle.table_sizes.specs.Sizes.{max_words};

use crate::numbers::numbers;
use field_defs::{FieldValue, ip4_layout};
use rule_set::{RuleSet, RuleTag, StoredRule};
use std::alloc::Global;
use std::process::Abort;
use std::test::Fail;
use table_sizes::MAX_RULES;
use trie_merge::{Levels, MergeFault, count_capped};

const ANY: FieldValue = FieldValue::Mask { value: 0, bits: 0 };

/// The states of all rules, and what the count to the cap is.
fn of_all(
    rt: &impl Abort,
    alloc: Global,
    rules: &RuleSet,
    cap: u64,
) -> Result<(Result<Levels, MergeFault>, u64), Fail>
    requires { cap ≤ max_words }
{
    let len = rules.len();
    assert!(rt; 0 < len);
    assert!(rt; len <= MAX_RULES);
    let group = numbers(alloc, 0, len)?;
    let levels = Levels::build(alloc, rules, group.as_slice(), cap);
    Ok((levels, count_capped(alloc, rules, group.as_slice(), cap)?))
}

/// Adds a rule for all keys of a destination.
fn add(
    rt: &impl Abort,
    alloc: Global,
    rules: &mut RuleSet,
    userdata: u32,
    destination: FieldValue,
) -> Result<(), Fail> {
    let ports = FieldValue::Range {
        low: 0,
        high: 0xFFFF,
    };
    let tag = RuleTag {
        category_mask: 1,
        priority: 1,
        userdata,
    };
    let protocol = FieldValue::Bitmask { value: 0, mask: 0 };
    let fields = [protocol, ANY, destination, ports, ports];
    assert!(rt; !rules.is_full());
    rules.push(StoredRule::new(alloc, tag, &fields)?)?;
    Ok(())
}

#[test]
fn a_wild_rule_keeps_the_first_place_alone(rt: HostRuntime) -> Result<(), Fail> {
    let mut rules = RuleSet::new(rt.alloc(), ip4_layout());
    add(&rt, rt.alloc(), &mut rules, 1, ANY)?;
    // A node of one run and a row.
    let levels = within_cap(&rt, rt.alloc(), &rules, 17)?;
    has_one_place(&rt, &levels);
    is_over_cap(&rt, rt.alloc(), &rules, 16, 17)
}

/// The states of all rules, which have as many words as the cap.
fn within_cap(rt: &impl Abort, alloc: Global, rules: &RuleSet, cap: u64) -> Result<Levels, Fail>
    requires { cap ≤ max_words }
{
    let (levels, count) = of_all(rt, alloc, rules, cap)?;
    let levels = levels?;
    assert!(rt; count == cap);
    assert!(rt; levels.words() == cap);
    Ok(levels)
}

/// All rules have more words than the cap: so many, as far as they are counted.
fn is_over_cap(
    rt: &impl Abort,
    alloc: Global,
    rules: &RuleSet,
    cap: u64,
    counted: u64,
) -> Result<(), Fail>
    requires { cap ≤ max_words }
{
    let (levels, count) = of_all(rt, alloc, rules, cap)?;
    assert!(rt; count == counted);
    assert!(rt; matches!(levels, Err(MergeFault::OverCap)));
    Ok(())
}

/// The states are of rule 0, at the first place alone, and have one row.
fn has_one_place(rt: &impl Abort, levels: &Levels) {
    assert!(rt; levels.kept() == 1);
    assert!(rt; levels.group() == [0u32].as_slice());
    assert!(rt; levels.depths() == 1);
    assert!(rt; levels.rows() == 1);
}

#[test]
fn words_are_counted_to_the_cap(rt: HostRuntime) -> Result<(), Fail> {
    let net = FieldValue::Mask {
        value: 0x0A00_0000,
        bits: 8,
    };
    let mut rules = RuleSet::new(rt.alloc(), ip4_layout());
    add(&rt, rt.alloc(), &mut rules, 1, net)?;
    add(&rt, rt.alloc(), &mut rules, 2, ANY)?;
    // A node of three runs, two nodes of one run at each of three places, and two rows.
    within_cap(&rt, rt.alloc(), &rules, 43)?;
    is_over_cap(&rt, rt.alloc(), &rules, 42, 43)
}
