//! Tables whose words were worked out by hand, filled with memory to spare.

ghost use Rattle.std.specs.Prelude.{◌+◌};

use crate::numbers::numbers;
use field_defs::{FieldValue, ip4_layout};
use flat_table::Table;
use rule_set::{RuleSet, RuleTag, StoredRule};
use std::alloc::Global;
use std::process::Abort;
use std::test::Fail;
use table_fill::fill;
use table_sizes::MAX_RULES;
use trie_merge::Levels;

/// The most words that the levels of a table may have, beside the row of no rule.
const MOST_WORDS: u64 = 67_108_848;

/// Any protocol.
const ANY: FieldValue = FieldValue::Bitmask { value: 0, mask: 0 };

/// All addresses.
const ALL: FieldValue = FieldValue::Mask { value: 0, bits: 0 };

/// The ports from `low` to `high`.
const fn ports(low: u64, high: u64) -> FieldValue {
    FieldValue::Range { low, high }
}

/// The net of an address.
const fn net(value: u64, bits: u8) -> FieldValue {
    FieldValue::Mask { value, bits }
}

/// Adds a rule for all categories, over which those added before win.
fn add(
    rt: &impl Abort,
    alloc: Global,
    rules: &mut RuleSet,
    fields: [FieldValue; 5],
) -> Result<(), Fail> {
    let number = rules.len();
    assert!(rt; number < 1000);
    assert!(rt; !rules.is_full());
    let tag = RuleTag {
        category_mask: 0xFFFF,
        priority: 1000 - number as i32,
        userdata: number as u32 + 1,
    };
    rules.push(StoredRule::new(alloc, tag, &fields)?)?;
    Ok(())
}

/// The table of the rules, as one trie.
fn fill_one(rt: &impl Abort, alloc: Global, rules: &RuleSet) -> Result<Table, Fail> {
    let len = rules.len();
    assert!(rt; 0 < len);
    assert!(rt; len <= MAX_RULES);
    let group = numbers(alloc, 0, len)?;
    let levels = Levels::build(alloc, rules, &group, MOST_WORDS)?;
    Ok(fill(alloc, rules, &[levels])?)
}

/// The table of the rules, as one trie of the first ones and one of the others.
fn fill_two(rt: &impl Abort, alloc: Global, rules: &RuleSet, first: usize) -> Result<Table, Fail> {
    let len = rules.len();
    assert!(rt; 0 < first);
    assert!(rt; first < len);
    assert!(rt; len <= MAX_RULES);
    let group = numbers(alloc, 0, first)?;
    let others = numbers(alloc, first, len - first)?;
    let levels = Levels::build(alloc, rules, &group, 1000)?;
    let after = Levels::build(alloc, rules, &others, 1000)?;
    Ok(fill(alloc, rules, &[levels, after])?)
}

/// Compares the table of one rule with its words in all and its root.
fn check_one(
    rt: &impl Abort,
    alloc: Global,
    fields: [FieldValue; 5],
    words: u64,
    root: u64,
) -> Result<(), Fail> {
    let mut rules = RuleSet::new(alloc, ip4_layout());
    add(rt, alloc, &mut rules, fields)?;
    let table = fill_one(rt, alloc, &rules)?;
    has_root(rt, &table, words, root);
    Ok(())
}

/// The table has so many words, and one trie with this root.
fn has_root(rt: &impl Abort, table: &Table, words: u64, root: u64) {
    assert!(rt; table.total_words() == words);
    assert!(rt; table.tries() == 1);
    assert!(rt; table.root(0) == root);
}

#[test]
fn tables_of_one_rule_have_the_words_of_their_nodes(rt: HostRuntime) -> Result<(), Fail> {
    let any = ports(0, 0xFFFF);
    let udp = FieldValue::Bitmask {
        value: 17,
        mask: 255,
    };
    let odd = FieldValue::Bitmask { value: 1, mask: 1 };
    let ten = net(0x0A00_0000, 8);
    let near = net(0xC0A8_0100, 24);
    let host = net(0xC0A8_021F, 32);
    let cases = [
        // A node of one run.
        ([ANY, ALL, ALL, any, any], 33, 0x2000_0000),
        // Ten nodes of three runs each, and three of one run.
        (
            [udp, near, host, any, ports(1234, 1234)],
            85,
            0xFFFF_1110_6000_0000,
        ),
        // A node of three runs, and three of one run.
        ([ANY, ten, ALL, any, any], 40, 0xFFFF_0A09_6000_0000),
        // Three nodes of one run, and one of two.
        ([ANY, ALL, ALL, any, ports(1024, 0xFFFF)], 40, 0x2000_0000),
        // A node of 256 runs.
        ([odd, ALL, ALL, any, any], 288, 0),
    ];
    for (fields, words, root) in cases.iter() {
        check_one(&rt, rt.alloc(), *fields, *words, *root)?;
    }
    Ok(())
}

/// Adds two rules by their sources, and one by its destination.
fn add_three(rt: &impl Abort, alloc: Global, rules: &mut RuleSet) -> Result<(), Fail> {
    let any = ports(0, 0xFFFF);
    let (ten, twenty) = (net(0x0A00_0000, 8), net(0x1400_0000, 8));
    add(rt, alloc, rules, [ANY, ten, ALL, any, any])?;
    add(rt, alloc, rules, [ANY, twenty, ALL, any, any])?;
    let host = net(0x1E01_0101, 32);
    add(rt, alloc, rules, [ANY, ALL, host, any, any])
}

/// The table of the first two of those rules, and of the third one in a second trie.
fn has_second(rt: &impl Abort, table: &Table) {
    assert!(rt; table.total_words() == 95);
    assert!(rt; table.tries() == 2);
    assert!(rt; table.root(1) == 0xFFFF_1E1D_6000_000B);
    // The second trie's rows are numbered from 3 on.
    assert!(rt; matches!(table.words().get(27), Some(0x8000_0003)));
    assert!(rt; matches!(table.rows().get(3), Some(row) if row[15] == 0x1_0000_0003));
}

#[test]
fn a_second_trie_stands_after_the_first(rt: HostRuntime) -> Result<(), Fail> {
    let mut rules = RuleSet::new(rt.alloc(), ip4_layout());
    add_three(&rt, rt.alloc(), &mut rules)?;
    let table = fill_two(&rt, rt.alloc(), &rules, 2)?;
    has_second(&rt, &table);
    let table = fill_one(&rt, rt.alloc(), &rules)?;
    assert!(rt; table.total_words() == 136);
    Ok(())
}
