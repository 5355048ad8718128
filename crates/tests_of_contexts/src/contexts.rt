//! Contexts from their first rule to their reset.

ghost use Rattle.std.specs.Prelude.{◌≡◌, ◌<◌};

use acl_context::{AclContext, AddFault, BuildFault, Scratch, Walk};
use field_defs::{FieldValue, ip4_layout};
use flat_table::Steps;
use rule_set::{Categories, Rule, RuleFault, RuleSet, RuleTag};
use std::alloc::Global;
use std::marker::Brand;
use std::process::Abort;
use std::sync::ledger::{Blank, Ledger};
use std::test::Fail;

/// A rule of the IPv4 layout that matches every packet.
fn wild(category_mask: u32, userdata: u32) -> Rule<5> {
    let address = FieldValue::Mask { value: 0, bits: 0 };
    let port = FieldValue::Range {
        low: 0,
        high: 65_535,
    };
    Rule {
        tag: RuleTag {
            category_mask,
            priority: 1,
            userdata,
        },
        fields: [
            FieldValue::Bitmask { value: 0, mask: 0 },
            address,
            address,
            port,
            port,
        ],
    }
}

/// The verdicts of two packets in category 0, or nothing where there is no table.
fn verdicts<L: Ledger>(
    blank: Blank,
    context: &AclContext,
    walk: Walk,
    scratch: &mut Scratch,
) -> Option<[u32; 2]>
    requires name { blank.name ≡ L.name }
    requires parts { blank.parts ≡ L.parts }
    requires some { 0 < blank.parts }
{
    let keys = [
        17u8, 10, 0, 0, 1, 10, 0, 0, 2, 0, 53, 0, 53, 6, 192, 168, 0, 1, 192, 168, 0, 2, 31, 144,
        0, 80,
    ];
    let mut steps = Steps::<L>::new(blank);
    let mut out = [9u32; 2];
    let cats = Categories::new(1)?;
    if context.rules().layout().key_len() != 13 || scratch.room() < 2 {
        return None;
    }
    let taken = context.classify(&keys, cats, walk, scratch, &mut out, &mut steps);
    taken.ok()?;
    Some(out)
}

/// Checks the verdicts of the two packets by both walks.
fn expect(
    rt: &impl Abort,
    scratch: &mut Scratch,
    context: &AclContext,
    expected: Option<[u32; 2]>,
) {
    let scalar = verdicts::<Brand>(Blank::new(1), context, Walk::Scalar, scratch);
    assert!(rt; scalar == expected);
    let lanes = verdicts::<Brand>(Blank::new(1), context, Walk::Lanes, scratch);
    assert!(rt; lanes == expected);
}

#[test]
fn a_context_answers_by_its_last_build(rt: HostRuntime) -> Result<(), Fail> {
    let mut scratch = Scratch::new(rt.alloc(), 2)?;
    let mut context = AclContext::create(rt.alloc(), ip4_layout(), 1);
    refuse_rules(&rt, &mut context);
    context.add_rules(&[wild(1, 7)])?;
    build_first(&rt, &mut scratch, &mut context)?;
    keep_first(&rt, &mut scratch, &mut context);
    build_none(&rt, &mut scratch, &mut context)?;
    Ok(())
}

/// A rule more than there may be is refused, and one in no category.
fn refuse_rules(rt: &impl Abort, context: &mut AclContext) {
    let two = context.add_rules(&[wild(1, 7), wild(1, 8)]);
    assert!(rt; two == Err(AddFault::Full));
    let in_no_category = context.add_rules(&[wild(0x10000, 7)]);
    assert!(rt; in_no_category == Err(AddFault::RuleRefused(0, RuleFault::NoCategory)));
}

/// There is no answer before the first build.
fn build_first(
    rt: &impl Abort,
    scratch: &mut Scratch,
    context: &mut AclContext,
) -> Result<(), BuildFault> {
    expect(rt, scratch, context, None);
    context.build(33)?;
    expect(rt, scratch, context, Some([7, 7]));
    Ok(())
}

/// A build above the budget leaves the answers, and so do rules that are gone.
fn keep_first(rt: &impl Abort, scratch: &mut Scratch, context: &mut AclContext) {
    let too_large = Err(BuildFault::TooLarge {
        words: 33,
        budget: 32,
    });
    assert!(rt; context.build(32) == too_large);
    expect(rt, scratch, context, Some([7, 7]));
    context.reset_rules();
    expect(rt, scratch, context, Some([7, 7]));
}

/// No rule answers, and after a reset there is no answer.
fn build_none(
    rt: &impl Abort,
    scratch: &mut Scratch,
    context: &mut AclContext,
) -> Result<(), BuildFault> {
    context.build(16)?;
    expect(rt, scratch, context, Some([0, 0]));
    context.reset();
    expect(rt, scratch, context, None);
    Ok(())
}

#[test]
fn a_list_that_is_half_refused_leaves_nothing(rt: HostRuntime) -> Result<(), Fail> {
    let mut context = AclContext::create(rt.alloc(), ip4_layout(), 8);
    refuse_half(&rt, &mut context);
    add_stored(rt.alloc(), &mut context)?;
    assert!(rt; context.rules().len() == 1);
    assert!(rt; context.table().is_none());
    Ok(())
}

/// A rule in no category leaves out the one before it too.
fn refuse_half(rt: &impl Abort, context: &mut AclContext) {
    let half = context.add_rules(&[wild(1, 7), wild(0x10000, 8)]);
    assert!(rt; half == Err(AddFault::RuleRefused(1, RuleFault::NoCategory)));
    assert!(rt; context.rules().is_empty());
}

/// Adds a stored rule.
fn add_stored(alloc: Global, context: &mut AclContext) -> Result<(), Fail> {
    context.add_stored(&[wild(1, 7).store(alloc)?])?;
    Ok(())
}

#[test]
fn a_context_made_of_a_set_holds_its_rules(rt: HostRuntime) -> Result<(), Fail> {
    let mut scratch = Scratch::new(rt.alloc(), 2)?;
    let set = set_of_one(rt.alloc())?;
    assert!(rt; set.len() == 1);
    let mut context = AclContext::holding(rt.alloc(), set, 1);
    assert!(rt; context.add_rules(&[wild(1, 8)]) == Err(AddFault::Full));
    build_first(&rt, &mut scratch, &mut context)?;
    context.reset();
    assert!(rt; context.rules().is_empty());
    Ok(())
}

/// A set of one rule.
fn set_of_one(alloc: Global) -> Result<RuleSet, Fail> {
    let mut set = RuleSet::new(alloc, ip4_layout());
    set.push(wild(1, 7).store(alloc)?)?;
    Ok(set)
}

/// A rule of the IPv4 layout for a source and a range of destination ports.
fn to_ports(source: FieldValue, low: u64, high: u64, userdata: u32) -> Rule<5> {
    let wild = wild(1, userdata);
    let [protocol, _, destination, port, _] = wild.fields;
    let to = FieldValue::Range { low, high };
    Rule {
        tag: wild.tag,
        fields: [protocol, source, destination, port, to],
    }
}

// For the first rule alone the last four bytes of a key are kept: a word for each byte of the
// source port, and five for each of the other, where numbers run two ways. Two rows have 16 each.
#[test]
fn a_covered_rule_has_no_words(rt: HostRuntime) -> Result<(), Fail> {
    let mut scratch = Scratch::new(rt.alloc(), 2)?;
    let mut context = AclContext::create(rt.alloc(), ip4_layout(), 2);
    let any = FieldValue::Mask { value: 0, bits: 0 };
    let ten = FieldValue::Mask {
        value: 0x0A00_0000,
        bits: 8,
    };
    context.add_rules(&[to_ports(any, 0, 79, 7), to_ports(ten, 53, 53, 8)])?;
    assert!(rt; context.build(44).is_err());
    context.build_uncovered(44)?;
    expect(&rt, &mut scratch, &context, Some([7, 0]));
    context.build(1000)?;
    context.build_small()?;
    let table = context.table().expect(&rt, "a table");
    assert!(rt; table.total_words() == 44);
    expect(&rt, &mut scratch, &context, Some([7, 0]));
    context.build(1000)?;
    expect(&rt, &mut scratch, &context, Some([7, 0]));
    Ok(())
}
