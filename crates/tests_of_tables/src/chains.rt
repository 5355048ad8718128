//! Chains of a firewall turned into rules, and asked for packets as iptables(8) decides them.

use field_defs::ip4_layout;
use list_chains::{
    Chain, ChainRule, ChainsFault, LimitFault, MAX_DEPTH, RulePlace, Span, SpanBox, Target, others,
    rules_of_chains,
};
use rule_set::{RuleSet, plain_verdict};
use std::alloc::Global;
use std::process::Abort;
use std::test::Fail;

const ANY: Span = Span {
    low: 0,
    high: 0xFFFF_FFFF,
};

const PORTS: Span = Span {
    low: 0,
    high: 0xFFFF,
};

const TCP: Span = Span { low: 6, high: 6 };

/// 10.0.0.0/8, 10.9.0.0/16 and 192.0.2.0/24.
const LAN: Span = Span {
    low: 0x0A00_0000,
    high: 0x0AFF_FFFF,
};

const GUESTS: Span = Span {
    low: 0x0A09_0000,
    high: 0x0A09_FFFF,
};

const SERVERS: Span = Span {
    low: 0xC000_0200,
    high: 0xC000_02FF,
};

/// A box of TCP.
fn tcp(alloc: Global, source: Span, destination: Span, port: Span) -> Result<SpanBox, Fail> {
    Ok(SpanBox::of(alloc, &[TCP, source, destination, PORTS, port])?)
}

/// A rule on sources and destination ports of TCP.
fn rule(
    alloc: Global,
    userdata: u32,
    source: Span,
    port: Span,
    target: Target,
) -> Result<ChainRule, Fail> {
    let inside = tcp(alloc, source, ANY, port)?;
    Ok(ChainRule::new(userdata, inside, Vec::new(alloc), target))
}

/// One port.
const fn port(number: u64) -> Span {
    Span {
        low: number,
        high: number,
    }
}

/// The first chain sends web traffic to the second and remote shells for good to the third, and
/// accepts what is neither from the LAN nor to the servers.
fn firewall(alloc: Global) -> Result<Vec<Chain>, Fail> {
    let not_local = ChainRule::new(
        4,
        tcp(alloc, ANY, ANY, PORTS)?,
        Vec::from_array(
            alloc,
            [
                tcp(alloc, LAN, ANY, PORTS)?,
                tcp(alloc, ANY, SERVERS, PORTS)?,
            ],
        )?,
        Target::Decide,
    );
    let first = [
        rule(alloc, 2, ANY, port(80), Target::Jump(1))?,
        rule(alloc, 3, ANY, port(22), Target::Go(2))?,
        not_local,
    ];
    let second = [
        rule(alloc, 5, GUESTS, PORTS, Target::Return)?,
        rule(alloc, 6, LAN, PORTS, Target::Decide)?,
    ];
    let third = [rule(alloc, 7, LAN, PORTS, Target::Decide)?];
    Ok(Vec::from_array(
        alloc,
        [
            Chain::new(Vec::from_array(alloc, first)?),
            Chain::new(Vec::from_array(alloc, second)?),
            Chain::new(Vec::from_array(alloc, third)?),
        ],
    )?)
}

/// The answer for a packet of TCP from port 9.
fn decides(
    rt: &impl Abort,
    rules: &RuleSet,
    source: [u8; 4],
    destination: [u8; 4],
    port: u8,
    answer: u32,
) {
    let [a, b, c, d] = source;
    let [e, f, g, h] = destination;
    let key = [6, a, b, c, d, e, f, g, h, 0, 9, 0, port];
    assert!(rt; rules.layout().key_len() == 13);
    assert!(rt; plain_verdict(rules, &key, 0) == answer);
}

#[test]
fn chains_decide_as_they_are_read(rt: HostRuntime) -> Result<(), Fail> {
    let chains = firewall(rt.alloc())?;
    assert!(&rt; chains.len() == 3);
    let rules = rules_of_chains(rt.alloc(), ip4_layout(), &chains, 0, 8)
        .ok()
        .expect(&rt, "chains that end");
    let out = [8, 8, 8, 8];
    let server = [192, 0, 2, 7];
    decides(&rt, &rules, [10, 8, 0, 1], server, 80, 6);
    decides(&rt, &rules, [10, 9, 0, 1], server, 80, 8);
    decides(&rt, &rules, out, [1, 2, 3, 4], 80, 4);
    decides(&rt, &rules, out, server, 80, 8);
    decides(&rt, &rules, out, [1, 2, 3, 4], 22, 8);
    decides(&rt, &rules, [10, 9, 0, 1], out, 22, 7);
    decides(&rt, &rules, [10, 1, 2, 3], out, 25, 8);
    decides(&rt, &rules, out, out, 25, 4);
    Ok(())
}

#[test]
fn jumps_that_do_not_end_are_refused(rt: HostRuntime) -> Result<(), Fail> {
    let alloc = rt.alloc();
    let first = [
        rule(alloc, 1, LAN, PORTS, Target::Decide)?,
        rule(alloc, 2, ANY, PORTS, Target::Jump(1))?,
    ];
    let second = [rule(alloc, 3, ANY, PORTS, Target::Go(0))?];
    let chains: Vec<Chain> = Vec::from_array(
        alloc,
        [
            Chain::new(Vec::from_array(alloc, first)?),
            Chain::new(Vec::from_array(alloc, second)?),
        ],
    )?;
    assert!(&rt; chains.len() == 2);
    let refused = rules_of_chains(alloc, ip4_layout(), &chains, 0, 9);
    assert!(&rt;
        matches!(
            refused,
            Err(ChainsFault::Loop(RulePlace { chain: 0, rule: 1 }))
        )
    );
    Ok(())
}

/// So many chains, each of which jumps to the next one, and the last to the end of its own.
fn nested(alloc: Global, count: usize) -> Result<Vec<Chain>, Fail> {
    let mut chains = Vec::new(alloc);
    for place in 1..count {
        let next = [rule(alloc, 1, ANY, PORTS, Target::Jump(place))?];
        chains.push(Chain::new(Vec::from_array(alloc, next)?))?;
    }
    let last = [rule(alloc, 2, LAN, PORTS, Target::Return)?];
    chains.push(Chain::new(Vec::from_array(alloc, last)?))?;
    Ok(chains)
}

#[test]
fn jumps_through_too_many_chains_are_refused(rt: HostRuntime) -> Result<(), Fail> {
    let alloc = rt.alloc();
    let most = nested(alloc, MAX_DEPTH)?;
    assert!(&rt; most.len() > 0);
    assert!(&rt; rules_of_chains(alloc, ip4_layout(), &most, 0, 9).is_ok());
    let more = nested(alloc, MAX_DEPTH + 1)?;
    assert!(&rt; more.len() > 0);
    let refused = rules_of_chains(alloc, ip4_layout(), &more, 0, 9);
    assert!(&rt; matches!(refused, Err(ChainsFault::Limit(LimitFault::TooDeep))));
    Ok(())
}

#[test]
fn other_numbers_are_at_most_two_spans(rt: HostRuntime) -> Result<(), Fail> {
    let beside = others(rt.alloc(), 0xFFFF, port(22))?;
    assert!(&rt; beside.len() == 2);
    assert!(&rt; beside[0].high == 21);
    assert!(&rt; beside[1].low == 23);
    assert!(&rt; others(rt.alloc(), 0xFFFF, PORTS)?.is_empty());
    Ok(())
}
