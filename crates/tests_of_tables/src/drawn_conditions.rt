//! Drawn chains whose rules are under conditions, turned into rules in categories, against the
//! chains by each oracle: the rules for which it says no are taken out, and the others asked.

use crate::drawn_chains::{
    ADDRESSES, Drawn, POLICY, PORTS, PROTOCOLS, RULES, answer, asked, drawn_rule, next,
};
use chain_conditions::{
    AnswerKind, ConditionalBox, ConditionalChain, ConditionalRule, rules_under_conditions,
};
use field_defs::ip4_layout;
use list_chains::{Span, SpanBox};
use rule_set::{RuleSet, plain_verdict};
use std::alloc::Global;
use std::process::Abort;
use std::test::Fail;

/// How many sets of chains are drawn. More of them, as 1,000, are tried by hand.
const SETS: u64 = 6;

/// How many oracles there are for four conditions.
const ORACLES: u32 = 16;

/// A span of no number.
const NOTHING: Span = Span { low: 1, high: 0 };

/// A rule, its condition, and that of the ports that it leaves out.
#[derive(Clone, Copy)]
struct Asking {
    rule: Drawn,
    condition: Option<u32>,
    but: Option<u32>,
}

/// A condition for two rules of five.
fn drawn_condition(state: &mut u64) -> Option<u32> {
    match next(state) {
        0..=5 => Some((next(state) & 3) as u32),
        _ => None,
    }
}

/// A rule of a chain.
fn drawn_asking(state: &mut u64, chain: usize) -> Asking {
    Asking {
        rule: drawn_rule(state, chain),
        condition: drawn_condition(state),
        but: drawn_condition(state),
    }
}

/// The rules of a chain.
fn drawn_askings(state: &mut u64, chain: usize) -> [Asking; RULES] {
    [
        drawn_asking(state, chain),
        drawn_asking(state, chain),
        drawn_asking(state, chain),
        drawn_asking(state, chain),
    ]
}

/// Whether an oracle says that a condition holds.
fn says(oracle: u32, condition: Option<u32>) -> bool {
    match condition {
        Some(condition) => (oracle >> (condition & 3)) & 1 == 1,
        None => true,
    }
}

/// A rule as an oracle has it: it catches nothing, or leaves out nothing, where the oracle says no.
fn by_oracle(asking: &Asking, oracle: u32) -> Drawn {
    Drawn {
        sources: if says(oracle, asking.condition) {
            asking.rule.sources
        } else {
            NOTHING
        },
        ports: asking.rule.ports,
        but: if says(oracle, asking.but) {
            asking.rule.but
        } else {
            NOTHING
        },
        target: asking.rule.target,
    }
}

/// The rules of a chain as an oracle has them.
fn rules_by(askings: &[Asking; RULES], oracle: u32) -> [Drawn; RULES] {
    [
        by_oracle(&askings[0], oracle),
        by_oracle(&askings[1], oracle),
        by_oracle(&askings[2], oracle),
        by_oracle(&askings[3], oracle),
    ]
}

/// The chain of drawn rules.
fn made(alloc: Global, chain: usize, askings: &[Asking]) -> Result<ConditionalChain, Fail> {
    let mut made = Vec::new(alloc);
    for place in 0..askings.len() {
        let asking = askings[place];
        let rule = asking.rule;
        let inside = [PROTOCOLS, rule.sources, ADDRESSES, PORTS, rule.ports];
        let but = [PROTOCOLS, ADDRESSES, ADDRESSES, PORTS, rule.but];
        let left_out = ConditionalBox::new(SpanBox::of(alloc, &but)?, asking.but);
        made.push(ConditionalRule::new(
            answer(chain, place),
            ConditionalBox::new(SpanBox::of(alloc, &inside)?, asking.condition),
            Vec::from_array(alloc, [left_out])?,
            rule.target,
        ))?;
    }
    Ok(ConditionalChain::new(made))
}

/// The category of an answer's kind.
fn category(answer: u32) -> u32 {
    answer % 3
}

/// The kinds of all answers.
fn kinds(alloc: Global) -> Result<Vec<AnswerKind>, Fail> {
    let mut kinds = Vec::new(alloc);
    for answer in 0..=POLICY {
        kinds.push(match category(answer) {
            0 => AnswerKind::Refuses,
            1 => AnswerKind::Accepts,
            _ => AnswerKind::Elsewhere,
        })?;
    }
    Ok(kinds)
}

/// The rules of drawn chains, in categories.
fn rules_of(rt: &impl Abort, alloc: Global, drawn: &[[Asking; RULES]; 3]) -> Result<RuleSet, Fail> {
    let [first, second, third] = drawn;
    let chains: Vec<ConditionalChain> = Vec::from_array(
        alloc,
        [
            made(alloc, 0, first)?,
            made(alloc, 1, second)?,
            made(alloc, 2, third)?,
        ],
    )?;
    assert!(rt; chains.len() == 3);
    let kinds = kinds(alloc)?;
    let rules = rules_under_conditions(alloc, ip4_layout(), &chains, 0, POLICY, &kinds);
    Ok(rules.ok().expect(rt, "chains that end"))
}

/// What the winner of a category answers for a packet.
fn won(rt: &impl Abort, rules: &RuleSet, source: u8, port: u8, category: u32) -> u32 {
    let key = [6, 0, 0, 0, source, 8, 8, 8, 8, 0, 9, 0, port];
    assert!(rt; rules.layout().key_len() == 13 && category < 16);
    plain_verdict(rules, &key, category)
}

/// Asserts that the categories bound the answers of all oracles for a packet, and that category 3
/// has the answer of the one that always says no. Gives whether all oracles' answers are of one
/// kind.
fn is_bounded(
    rt: &impl Abort,
    alloc: Global,
    rules: &RuleSet,
    drawn: &[[Asking; RULES]; 3],
    source: u8,
    port: u8,
) -> Result<bool, Fail> {
    let [first, second, third] = drawn;
    let sure = won(rt, rules, source, port, 3);
    let mut decided = true;
    for oracle in 0..ORACLES {
        let chains = [
            rules_by(first, oracle),
            rules_by(second, oracle),
            rules_by(third, oracle),
        ];
        let real = asked(alloc, &chains, u64::from(source), u64::from(port))?;
        let kind = category(real);
        assert!(rt; category(won(rt, rules, source, port, kind)) == kind);
        assert!(rt; oracle > 0 || sure == real);
        decided = decided && kind == category(sure);
    }
    Ok(decided)
}

#[test]
fn drawn_conditions_are_bounded(rt: HostRuntime) -> Result<(), Fail> {
    let mut state = 5;
    let mut decided: u32 = 0;
    let mut open: u32 = 0;
    for _ in 0..SETS {
        let drawn = [
            drawn_askings(&mut state, 0),
            drawn_askings(&mut state, 1),
            drawn_askings(&mut state, 2),
        ];
        let rules = rules_of(&rt, rt.alloc(), &drawn)?;
        for place in 0..64u8 {
            let source = place & 15;
            let port = (place >> 4) * 5;
            match is_bounded(&rt, rt.alloc(), &rules, &drawn, source, port)? {
                true => decided = decided.wrapping_add(1),
                false => open = open.wrapping_add(1),
            }
        }
    }
    assert!(&rt; decided > 20);
    assert!(&rt; open > 20);
    Ok(())
}
