//! Rules that are added to a context in two calls, two at once.

use crate::asking::assert_answers;
use acl_context::AclContext;
use field_defs::{FieldValue, ip4_layout};
use rule_set::{Rule, RuleTag};
use std::process::Abort;
use std::test::Fail;

/// A rule for the packets of a protocol, in category 0.
fn by_protocol(protocol: u64, mask: u64, priority: i32, userdata: u32) -> Rule<5> {
    let tag = RuleTag {
        category_mask: 1,
        priority,
        userdata,
    };
    let address = FieldValue::Mask { value: 0, bits: 0 };
    let port = FieldValue::Range {
        low: 0,
        high: 65_535,
    };
    let protocol = FieldValue::Bitmask {
        value: protocol,
        mask,
    };
    Rule {
        tag,
        fields: [protocol, address, address, port, port],
    }
}

/// Adds four rules, two at a time, and builds their table.
fn build(rt: &impl Abort, context: &mut AclContext) -> Result<(), Fail> {
    context.add_rules(&[by_protocol(6, 255, 3, 60), by_protocol(0, 0, 1, 10)])?;
    context.add_rules(&[by_protocol(17, 255, 2, 170), by_protocol(1, 255, 2, 11)])?;
    assert!(rt; context.rules().len() == 4usize);
    context.build(1000)?;
    Ok(())
}

#[test]
fn rules_are_added_two_at_a_time_and_once_more(rt: HostRuntime) -> Result<(), Fail> {
    let mut context = AclContext::create(rt.alloc(), ip4_layout(), 4);
    build(&rt, &mut context)?;
    // Of TCP, UDP, ICMP and another protocol.
    let keys = [
        6, 0, 0, 0, 0, 0, 0, 0, 0, 0, 0, 0, 0, 17, 0, 0, 0, 0, 0, 0, 0, 0, 0, 0, 0, 0, 1, 0, 0, 0,
        0, 0, 0, 0, 0, 0, 0, 0, 0, 47, 0, 0, 0, 0, 0, 0, 0, 0, 0, 0, 0, 0,
    ];
    assert_answers(&rt, rt.alloc(), &context, &keys, (4, 1), &[60, 170, 11, 10])
}
