//! Drawn chains turned into rules, against the chains themselves, asked rule by rule.
//!
//! A packet differs in two numbers: the last byte of its source, and its destination port, both
//! below 16. All of them are asked.

use field_defs::ip4_layout;
use list_chains::{Chain, ChainRule, Span, SpanBox, Target, rules_of_chains};
use rule_set::{RuleSet, plain_verdict};
use std::alloc::Global;
use std::process::Abort;
use std::test::Fail;

/// How many sets of chains are drawn. More of them, as 3,000, are tried by hand.
const SETS: u64 = 8;

/// How many rules a chain has.
pub(crate) const RULES: usize = 4;

/// The answer where no rule decides.
pub(crate) const POLICY: u32 = 99;

/// All protocols, all addresses and all ports.
pub(crate) const PROTOCOLS: Span = Span { low: 0, high: 0xFF };

pub(crate) const ADDRESSES: Span = Span {
    low: 0,
    high: 0xFFFF_FFFF,
};

pub(crate) const PORTS: Span = Span {
    low: 0,
    high: 0xFFFF,
};

/// A rule: its sources and ports, the ports that it leaves out, and what it does.
#[derive(Clone, Copy)]
pub(crate) struct Drawn {
    pub(crate) sources: Span,
    pub(crate) ports: Span,
    pub(crate) but: Span,
    pub(crate) target: Target,
}

/// The next number below 16.
pub(crate) fn next(state: &mut u64) -> u64 {
    *state = state
        .wrapping_mul(6_364_136_223_846_793_005)
        .wrapping_add(1_442_695_040_888_963_407);
    (*state >> 40) & 15
}

/// A span of numbers below 16, or of none.
fn span(state: &mut u64) -> Span {
    Span {
        low: next(state),
        high: next(state) | next(state),
    }
}

/// A target of a rule in a chain: later chains alone are led to.
fn target(state: &mut u64, chain: usize) -> Target {
    match (next(state), chain) {
        (0..=4, 0 | 1) => Target::Jump(2),
        (5..=7, 0) => Target::Jump(1),
        (8, 0 | 1) => Target::Go(2),
        (9, 0) => Target::Go(1),
        (10, _) => Target::Return,
        _ => Target::Decide,
    }
}

/// A rule of a chain.
pub(crate) fn drawn_rule(state: &mut u64, chain: usize) -> Drawn {
    Drawn {
        sources: span(state),
        ports: span(state),
        but: span(state),
        target: target(state, chain),
    }
}

/// The rules of a chain.
fn drawn_rules(state: &mut u64, chain: usize) -> [Drawn; RULES] {
    [
        drawn_rule(state, chain),
        drawn_rule(state, chain),
        drawn_rule(state, chain),
        drawn_rule(state, chain),
    ]
}

/// Whether a number is in a span.
fn holds(span: &Span, number: u64) -> bool {
    span.low <= number && number <= span.high
}

/// Whether a rule catches a packet.
fn catches(rule: &Drawn, source: u64, port: u64) -> bool {
    holds(&rule.sources, source) && holds(&rule.ports, port) && !holds(&rule.but, port)
}

/// The answer of a rule.
pub(crate) fn answer(chain: usize, rule: usize) -> u32 {
    (chain & 3) as u32 * 10 + (rule & 7) as u32
}

/// The answer for a packet: rules are asked in order, and where a chain ends or returns the packet
/// goes on after the jump that led there.
pub(crate) fn asked(
    alloc: Global,
    chains: &[[Drawn; RULES]],
    source: u64,
    port: u64,
) -> Result<u32, Fail> {
    let mut left: Vec<(usize, usize)> = Vec::new(alloc);
    let mut chain = 0;
    let mut place = 0;
    for _ in 0..1_000 {
        let found = match chains.get(chain) {
            Some(rules) => rules.get(place),
            None => None,
        };
        let after = place.wrapping_add(1);
        match found {
            Some(rule) if !catches(rule, source, port) => place = after,
            Some(rule) => match rule.target {
                Target::Decide => return Ok(answer(chain, place)),
                Target::Jump(to) => {
                    left.push((chain, after))?;
                    chain = to;
                    place = 0;
                }
                Target::Go(to) => {
                    chain = to;
                    place = 0;
                }
                Target::Return => place = RULES,
            },
            None => match left.pop() {
                Some((back, next)) => {
                    chain = back;
                    place = next;
                }
                None => return Ok(POLICY),
            },
        }
    }
    Ok(0)
}

/// The chain of drawn rules.
fn made(alloc: Global, chain: usize, rules: &[Drawn]) -> Result<Chain, Fail> {
    let mut made = Vec::new(alloc);
    for place in 0..rules.len() {
        let rule = rules[place];
        let inside = [PROTOCOLS, rule.sources, ADDRESSES, PORTS, rule.ports];
        let but = [PROTOCOLS, ADDRESSES, ADDRESSES, PORTS, rule.but];
        made.push(ChainRule::new(
            answer(chain, place),
            SpanBox::of(alloc, &inside)?,
            Vec::from_array(alloc, [SpanBox::of(alloc, &but)?])?,
            rule.target,
        ))?;
    }
    Ok(Chain::new(made))
}

/// What the rules answer for a packet.
fn answered(rt: &impl Abort, rules: &RuleSet, source: u8, port: u8) -> u32 {
    let key = [6, 0, 0, 0, source, 8, 8, 8, 8, 0, 9, 0, port];
    assert!(rt; rules.layout().key_len() == 13);
    plain_verdict(rules, &key, 0)
}

/// Asserts that rules answer each packet as the chains do.
fn answer_alike(
    rt: &impl Abort,
    alloc: Global,
    rules: &RuleSet,
    chains: &[[Drawn; RULES]],
) -> Result<(), Fail> {
    for source in 0..16u8 {
        for port in 0..16u8 {
            let want = asked(alloc, chains, u64::from(source), u64::from(port))?;
            assert!(rt; answered(rt, rules, source, port) == want);
        }
    }
    Ok(())
}

/// Asserts that the rules that are made of the chains answer as they do.
fn compare(rt: &impl Abort, alloc: Global, drawn: &[[Drawn; RULES]; 3]) -> Result<(), Fail> {
    let [first, second, third] = drawn;
    let chains: Vec<Chain> = Vec::from_array(
        alloc,
        [
            made(alloc, 0, first)?,
            made(alloc, 1, second)?,
            made(alloc, 2, third)?,
        ],
    )?;
    assert!(rt; chains.len() == 3);
    let rules = rules_of_chains(alloc, ip4_layout(), &chains, 0, POLICY)
        .ok()
        .expect(rt, "chains that end");
    answer_alike(rt, alloc, &rules, drawn)
}

#[test]
fn drawn_chains_answer_as_they_are_asked(rt: HostRuntime) -> Result<(), Fail> {
    let mut state = 1;
    for _ in 0..SETS {
        let drawn = [
            drawn_rules(&mut state, 0),
            drawn_rules(&mut state, 1),
            drawn_rules(&mut state, 2),
        ];
        compare(&rt, rt.alloc(), &drawn)?;
    }
    Ok(())
}
