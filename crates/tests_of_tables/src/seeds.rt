//! The merged states of small workloads, compared number by number with a plain recount.

use crate::numbers::numbers;
use crate::recount::{Counted, recount};
use field_defs::{FieldValue, ip4_layout};
use rule_set::{RuleSet, RuleTag, StoredRule};
use std::alloc::{AllocError, Global};
use std::process::Abort;
use std::test::Fail;
use table_sizes::{MAX_RULES, MAX_WORDS};
use trie_merge::{Levels, Run};
use workload_gen::make_rules;

/// How many rules each seed gives.
const RULES: u32 = 24;

/// Each state has the runs that were counted.
fn assert_levels(rt: &impl Abort, levels: &Levels, counted: &[Vec<Vec<Run>>]) {
    assert!(rt; levels.depths() == counted.len());
    for (depth, states) in counted.iter().enumerate() {
        assert!(rt; depth < levels.depths());
        assert!(rt; levels.states(depth) == states.len());
        for (state, runs) in states.iter().enumerate() {
            assert!(rt; state < levels.states(depth));
            assert!(rt; levels.runs(depth, state) == runs.as_slice());
        }
    }
}

/// The rows are those that were counted.
fn assert_rows(rt: &impl Abort, levels: &Levels, counted: &[Vec<u32>]) {
    assert!(rt; levels.rows() == counted.len());
    for (number, row) in counted.iter().enumerate() {
        assert!(rt; number < levels.rows());
        assert!(rt; levels.row(number).as_slice() == row.as_slice());
    }
}

/// The merged states of so many rules, from the first one on, are those of a recount.
fn compare(
    rt: &impl Abort,
    alloc: Global,
    rules: &RuleSet,
    first: usize,
    len: usize,
) -> Result<(), Fail> {
    let count = rules.len();
    assert!(rt; count <= MAX_RULES);
    assert!(rt; 0 < len);
    assert!(rt; len <= count);
    assert!(rt; first <= count - len);
    let group = numbers(alloc, first, len)?;
    let levels = Levels::build(alloc, rules, group.as_slice(), MAX_WORDS as u64)?;
    let counted = recount(alloc, rules, group.as_slice())?;
    assert!(rt; levels.group() == group.as_slice());
    assert_counted(rt, &levels, &counted);
    Ok(())
}

/// The states are those that were counted.
fn assert_counted(rt: &impl Abort, levels: &Levels, counted: &Counted) {
    assert!(rt; levels.kept() == counted.kept);
    assert!(rt; levels.words() == counted.words);
    assert_levels(rt, levels, counted.levels.as_slice());
    assert_rows(rt, levels, counted.rows.as_slice());
}

/// All rules of a seed together are merged, and each alone, which leaves out groups of bytes.
#[test]
fn merged_states_are_those_that_a_recount_finds(rt: HostRuntime) -> Result<(), Fail> {
    for seed in 1..=20u64 {
        let workload = make_rules(rt.alloc(), seed, RULES)?;
        let rules = workload.rules();
        compare(&rt, rt.alloc(), rules, 0, rules.len())?;
        for number in 0..rules.len() {
            compare(&rt, rt.alloc(), rules, number, 1)?;
        }
    }
    Ok(())
}

/// A rule for IPv4 packets: its category mask and priority, the value and the mask of the protocol,
/// the value and the bits of each address, and the first and the last number of each port.
#[derive(Clone, Copy)]
struct Row {
    part: (u32, i32),
    protocol: (u64, u64),
    source: (u64, u8),
    destination: (u64, u8),
    from: (u64, u64),
    to: (u64, u64),
}

/// Rules of all kinds: whole and partial masks, ranges, wild fields, categories, and priorities
/// that rise and fall.
const ROWS: [Row; 7] = [
    Row {
        part: (1, 5),
        protocol: (6, 255),
        source: (0x0A00_0000, 8),
        destination: (0, 0),
        from: (0, 65535),
        to: (80, 80),
    },
    Row {
        part: (3, 5),
        protocol: (17, 255),
        source: (0x0A01_0000, 16),
        destination: (0xC0A8_0200, 25),
        from: (0, 65535),
        to: (1024, 65535),
    },
    Row {
        part: (0xFFFF, 7),
        protocol: (0, 0),
        source: (0, 0),
        destination: (0xC0A8_0000, 16),
        from: (1000, 2000),
        to: (0, 65535),
    },
    Row {
        part: (2, 1),
        protocol: (16, 240),
        source: (0xAC10_0000, 12),
        destination: (0, 0),
        from: (0, 65535),
        to: (0, 65535),
    },
    Row {
        part: (0x8001, 2),
        protocol: (6, 255),
        source: (0, 0),
        destination: (0, 0),
        from: (0, 65535),
        to: (443, 443),
    },
    Row {
        part: (1, 9),
        protocol: (6, 255),
        source: (0x0A01_0203, 32),
        destination: (0xC0A8_02FF, 32),
        from: (33746, 33846),
        to: (0, 1023),
    },
    Row {
        part: (1, 1),
        protocol: (0, 0),
        source: (0, 0),
        destination: (0, 0),
        from: (0, 65535),
        to: (0, 65535),
    },
];

/// The rule of the row.
fn rule_of(alloc: Global, row: &Row) -> Result<StoredRule, AllocError> {
    let tag = RuleTag {
        category_mask: row.part.0,
        priority: row.part.1,
        userdata: 1,
    };
    let (protocol, mask) = row.protocol;
    let fields = [
        FieldValue::Bitmask {
            value: protocol,
            mask,
        },
        net(row.source),
        net(row.destination),
        ports(row.from),
        ports(row.to),
    ];
    StoredRule::new(alloc, tag, &fields)
}

/// The addresses that agree in the first bits.
fn net((value, bits): (u64, u8)) -> FieldValue {
    FieldValue::Mask { value, bits }
}

/// The ports from the first to the last.
fn ports((low, high): (u64, u64)) -> FieldValue {
    FieldValue::Range { low, high }
}

#[test]
fn rules_of_all_kinds_are_merged_as_a_recount_finds(rt: HostRuntime) -> Result<(), Fail> {
    let mut rules = RuleSet::new(rt.alloc(), ip4_layout());
    for row in &ROWS {
        assert!(rt; !rules.is_full());
        rules.push(rule_of(rt.alloc(), row)?)?;
    }
    compare(&rt, rt.alloc(), &rules, 0, rules.len())
}
