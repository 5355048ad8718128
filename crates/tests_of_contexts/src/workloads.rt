//! The first rules and keys of seed 42, whose words are printed by the demo of PCG's C library.

use field_defs::FieldValue;
use rule_set::StoredRule;
use std::process::Abort;
use std::test::Fail;
use workload_gen::{KEY_LEN, make_rules};

#[test]
fn the_first_rule_of_seed_42_has_its_six_words(rt: HostRuntime) -> Result<(), Fail> {
    let workload = make_rules(rt.alloc(), 42, 1)?;
    let rules = workload.rules().all();
    let fields = [
        FieldValue::Bitmask { value: 0, mask: 0 },
        FieldValue::Mask {
            value: 0x0A47_F409,
            bits: 16,
        },
        FieldValue::Mask {
            value: 0x0A1D_3330,
            bits: 24,
        },
        FieldValue::Range {
            low: 0,
            high: 65535,
        },
        FieldValue::Range {
            low: 33746,
            high: 33846,
        },
    ];
    assert!(rt; rules.len() == 1);
    for rule in rules {
        is_first(&rt, rule, &fields);
    }
    Ok(())
}

/// Asserts that the rule has these values, and the tag of the first rule.
fn is_first(rt: &impl Abort, rule: &StoredRule, fields: &[FieldValue]) {
    assert!(rt; rule.fields() == fields);
    assert!(rt; rule.tag().priority == 955);
    assert!(rt; rule.tag().category_mask == 11357);
    assert!(rt; rule.tag().userdata == 1);
}

#[test]
fn a_key_without_rules_is_drawn_freely(rt: HostRuntime) -> Result<(), Fail> {
    let mut workload = make_rules(rt.alloc(), 42, 0)?;
    let mut key = [0; KEY_LEN];
    workload.next_key(&mut key);
    let first = [
        0xA1, 10, 0x47, 0xF4, 9, 10, 0x1D, 0x33, 0x30, 0x83, 0xD2, 0xF2, 0x93,
    ];
    assert!(rt; key == first);
    Ok(())
}
