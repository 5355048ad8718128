//! Contexts whose layouts aren't those of packets: other numbers of fields, other lengths of keys.

use crate::asking::assert_answers;
use acl_context::AclContext;
use field_defs::{FieldDef, FieldKind, FieldValue, Layout};
use rule_set::{Rule, RuleTag};
use std::alloc::Global;
use std::test::Fail;

/// The definition of a field.
fn def(kind: FieldKind, size: u8, field_index: u8, input_index: u8, offset: u32) -> FieldDef {
    FieldDef {
        kind,
        size,
        field_index,
        input_index,
        offset,
    }
}

/// The tag of a rule.
fn tag(category_mask: u32, priority: i32, userdata: u32) -> RuleTag {
    RuleTag {
        category_mask,
        priority,
        userdata,
    }
}

const ANY: FieldValue = FieldValue::Mask { value: 0, bits: 0 };

const ANY_PORT: FieldValue = FieldValue::Range {
    low: 0,
    high: 65_535,
};

/// A byte and an address: a key has 5 bytes.
fn two() -> [FieldDef; 2] {
    [
        def(FieldKind::Range, 1, 0, 0, 0),
        def(FieldKind::Mask, 4, 1, 1, 1),
    ]
}

/// A protocol, four addresses and two pairs of ports: a key has 25 bytes.
fn nine() -> [FieldDef; 9] {
    [
        def(FieldKind::Bitmask, 1, 0, 0, 0),
        def(FieldKind::Mask, 4, 1, 1, 1),
        def(FieldKind::Mask, 4, 2, 2, 5),
        def(FieldKind::Mask, 4, 3, 3, 9),
        def(FieldKind::Mask, 4, 4, 4, 13),
        def(FieldKind::Range, 2, 5, 5, 17),
        def(FieldKind::Range, 2, 6, 5, 19),
        def(FieldKind::Range, 2, 7, 6, 21),
        def(FieldKind::Range, 2, 8, 6, 23),
    ]
}

/// A context of a rule on the byte and of one on the address.
fn of_two_fields(alloc: Global) -> Result<AclContext, Fail> {
    let few = FieldValue::Range { low: 5, high: 9 };
    let all = FieldValue::Range { low: 0, high: 255 };
    let ten = FieldValue::Mask {
        value: 0x0A00_0000,
        bits: 8,
    };
    let rules = [
        Rule {
            tag: tag(3, 1, 50),
            fields: [few, ANY],
        },
        Rule {
            tag: tag(1, 2, 10),
            fields: [all, ten],
        },
    ];
    let layout = Layout::new(&two())?;
    let mut context = AclContext::create(alloc, layout, 2);
    context.add_rules(&rules)?;
    context.build(1000)?;
    Ok(context)
}

#[test]
fn rules_of_two_fields_answer_for_keys_of_five_bytes(rt: HostRuntime) -> Result<(), Fail> {
    let context = of_two_fields(rt.alloc())?;
    let keys = [
        5, 11, 0, 0, 0, 5, 10, 1, 2, 3, 200, 9, 255, 255, 255, 200, 10, 0, 0, 1,
    ];
    let expected = [50u32, 50, 0, 0, 10, 50, 0, 0, 0, 0, 0, 0, 10, 0, 0, 0];
    assert_answers(&rt, rt.alloc(), &context, &keys, (4, 4), &expected)
}

/// A context of a rule to port 80 by TCP in categories 7 and 11, and of one for all keys in 0 and
/// 11, of lower priority.
fn of_nine_fields(alloc: Global) -> Result<AclContext, Fail> {
    let web = FieldValue::Range { low: 80, high: 80 };
    let tcp = FieldValue::Bitmask {
        value: 6,
        mask: 255,
    };
    let every = FieldValue::Bitmask { value: 0, mask: 0 };
    let p = ANY_PORT;
    let rules = [
        Rule {
            tag: tag(0x0880, 2, 1),
            fields: [tcp, ANY, ANY, ANY, ANY, p, p, p, web],
        },
        Rule {
            tag: tag(0x0801, 1, 2),
            fields: [every, ANY, ANY, ANY, ANY, p, p, p, p],
        },
    ];
    let layout = Layout::new(&nine())?;
    let mut context = AclContext::create(alloc, layout, 2);
    context.add_rules(&rules)?;
    context.build(1000)?;
    Ok(context)
}

#[test]
fn rules_of_nine_fields_answer_for_keys_of_25_bytes(rt: HostRuntime) -> Result<(), Fail> {
    let context = of_nine_fields(rt.alloc())?;
    // To port 80 by TCP, to port 81 by TCP.
    let keys = [
        6, 0, 0, 0, 0, 0, 0, 0, 0, 0, 0, 0, 0, 0, 0, 0, 0, 0, 0, 0, 0, 0, 0, 0, 80, 6, 1, 2, 3, 4,
        5, 6, 7, 8, 9, 10, 11, 12, 13, 14, 15, 16, 17, 18, 19, 20, 21, 22, 0, 81,
    ];
    let expected = [2u32, 0, 0, 0, 0, 0, 0, 1, 2, 0, 0, 0, 0, 0, 0, 0];
    assert_answers(&rt, rt.alloc(), &context, &keys, (2, 8), &expected)?;
    let expected = [
        2u32, 0, 0, 0, 0, 0, 0, 1, 0, 0, 0, 1, 2, 0, 0, 0, 0, 0, 0, 0, 0, 0, 0, 2,
    ];
    assert_answers(&rt, rt.alloc(), &context, &keys, (2, 12), &expected)
}
