//! A context of 1,024 rules that needs all eight tries, asked for 200 keys.

ghost use Rattle.std.specs.Prelude.{◌≡◌, ◌≤◌};

use crate::asking::answered;
use acl_context::AclContext;
use field_defs::ip4_layout;
use rule_set::{RuleSet, StoredRule, plain_verdict, ranks};
use rule_split::plan;
use std::alloc::{AllocError, Global};
use std::process::Abort;
use std::test::Fail;
use workload_gen::{KEY_LEN, Workload, make_rules};

/// How many rules there are.
const RULES: u32 = 1024;

/// How many keys are asked for.
const KEYS: u32 = 200;

/// Under this budget the rules of seed 1 are split into eight groups.
const BUDGET: u64 = 49_700;

/// The words of their table, as `examples/compare/tables.py` counts them.
const WORDS: u64 = 49_653;

/// The keys, one by one and one after the other.
#[derive(Drop)]
struct Drawn {
    keys: Vec<[u8; KEY_LEN]>,
    bytes: Vec<u8>,
}

/// The next keys of the workload.
fn draw(alloc: Global, workload: &mut Workload) -> Result<Drawn, AllocError> {
    let mut keys = Vec::new(alloc);
    let mut bytes = Vec::new(alloc);
    for _ in 0..KEYS {
        let mut key = [0; KEY_LEN];
        workload.next_key(&mut key);
        bytes.extend_from_slice(&key)?;
        keys.push(key)?;
    }
    Ok(Drawn { keys, bytes })
}

/// A set of the first rules, each pushed by itself.
fn pushed(rt: &impl Abort, alloc: Global, rules: &[StoredRule]) -> Result<RuleSet, Fail> {
    let mut set = RuleSet::new(alloc, ip4_layout());
    for rule in rules {
        assert!(rt; !set.is_full());
        set.push(StoredRule::new(alloc, rule.tag(), rule.fields())?)?;
    }
    Ok(set)
}

/// The context says of each key and category what the plain filter over the rules says.
fn assert_plain(
    rt: &impl Abort,
    alloc: Global,
    context: &AclContext,
    rules: &RuleSet,
    drawn: &Drawn,
    count: u32,
) -> Result<(), Fail> {
    let said = answered(rt, alloc, context, &drawn.bytes, KEYS, count)?;
    are_plain(rt, &said, rules, &drawn.keys, count);
    Ok(())
}

/// These are the verdicts of the plain filter over the rules, key by key.
fn are_plain(rt: &impl Abort, said: &[u32], rules: &RuleSet, keys: &[[u8; KEY_LEN]], count: u32) {
    assert!(rt; count <= 16);
    assert!(rt; rules.layout().key_len() == KEY_LEN);
    let mut said = said.iter();
    for key in keys {
        for category in 0..count {
            let plain = plain_verdict(rules, key, category);
            assert!(rt; said.next().copied() == Some(plain));
        }
    }
}

/// A context of the rules, of which the first half is pushed to its set and the second is stored.
fn context_of(rt: &impl Abort, alloc: Global, rules: &RuleSet) -> Result<AclContext, Fail> {
    let (first, second) = rules.all().split_at(rules.len() / 2);
    let half = pushed(rt, alloc, first)?;
    assert!(rt; half.len() <= RULES as usize);
    let mut context = AclContext::holding(alloc, half, RULES);
    context.add_stored(second)?;
    context.build(BUDGET)?;
    Ok(context)
}

/// The context's table has eight tries and the words that were counted.
fn is_split(rt: &impl Abort, context: &AclContext) {
    let table = context.table().expect(rt, "a table");
    assert!(rt; table.tries() == 8usize);
    assert!(rt; table.total_words() == WORDS);
}

/// A context of the rules answers as the plain filter in any number of categories.
fn answers_plainly(
    rt: &impl Abort,
    alloc: Global,
    rules: &RuleSet,
    drawn: &Drawn,
) -> Result<(), Fail> {
    let context = context_of(rt, alloc, rules)?;
    is_split(rt, &context);
    for count in [1, 4, 8, 12, 16u32] {
        assert_plain(rt, alloc, &context, rules, drawn, count)?;
    }
    Ok(())
}

#[test]
fn a_context_of_1024_rules_answers_as_the_plain_filter(rt: HostRuntime) -> Result<(), Fail> {
    let mut workload = make_rules(rt.alloc(), 1, RULES)?;
    let drawn = draw(rt.alloc(), &mut workload)?;
    let rules = workload.rules();
    assert!(rt; rules.len() == RULES as usize);
    answers_plainly(&rt, rt.alloc(), rules, &drawn)
}

#[test]
fn as_many_rules_are_ranked_and_planned(rt: HostRuntime) -> Result<(), Fail> {
    let workload = make_rules(rt.alloc(), 1, RULES)?;
    let ranks = ranks(rt.alloc(), workload.rules())?;
    assert!(rt; ranks.iter().max().copied() == Some(RULES));
    let plan = plan(rt.alloc(), workload.rules(), BUDGET)?;
    assert!(rt; plan.levels().len() == 8usize);
    assert!(rt; plan.total() == WORDS);
    Ok(())
}
