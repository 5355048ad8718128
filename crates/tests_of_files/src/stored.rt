//! Rules of two and of nine values.

use field_defs::FieldValue;
use rule_set::{Rule, RuleTag, StoredRule};
use std::process::Abort;
use std::test::Fail;

const TAG: RuleTag = RuleTag {
    category_mask: 1,
    priority: 2,
    userdata: 0,
};

/// Asserts that the rule has these values and the tag.
fn holds(rt: &impl Abort, rule: &StoredRule, fields: &[FieldValue]) {
    assert!(rt; rule.fields() == fields);
    assert!(rt; rule.tag() == TAG);
}

#[test]
fn a_rule_of_two_values_is_stored(rt: HostRuntime) -> Result<(), Fail> {
    let fields = [
        FieldValue::Range { low: 4, high: 5 },
        FieldValue::Mask { value: 6, bits: 7 },
    ];
    let rule = Rule { tag: TAG, fields }.store(rt.alloc())?;
    holds(&rt, &rule, &fields);
    Ok(())
}

#[test]
fn a_rule_of_nine_values_is_stored(rt: HostRuntime) -> Result<(), Fail> {
    let mut fields = [FieldValue::Range { low: 4, high: 5 }; 9];
    fields[8] = FieldValue::Bitmask { value: 6, mask: 7 };
    let rule = Rule { tag: TAG, fields }.store(rt.alloc())?;
    holds(&rt, &rule, &fields);
    Ok(())
}
