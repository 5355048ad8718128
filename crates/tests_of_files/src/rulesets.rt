//! Rulesets as `nft -j list ruleset` prints them, read and asked for packets.

use field_defs::{Family, ip4_layout, ip6_layout};
use list_chains::{ChainsFault, rules_of_chains};
use nft_reader::{Answers, Asked, NftFault, ObjectKind, RuleKind, chains_alone, read_ruleset};
use rule_set::{RuleSet, plain_verdict};
use std::alloc::Global;
use std::process::Abort;
use std::test::Fail;

/// A server, as nftables v1.0.6 prints it.
const SERVER: &str =
    "{\"nftables\": [{\"metainfo\": {\"version\": \"1.0.6\", \"release_name\": \"Lester Goo\
    ch #5\", \"json_schema_version\": 1}}, \
    {\"table\": {\"family\": \"inet\", \"name\": \"filter\", \"handle\": 1}}, \
    {\"chain\": {\"family\": \"inet\", \"table\": \"filter\", \"name\": \"late\", \"handle\
    \": 1}}, \
    {\"chain\": {\"family\": \"inet\", \"table\": \"filter\", \"name\": \"input\", \"handl\
    e\": 2, \"type\": \"filter\", \"hook\": \"input\", \"prio\": 0, \"policy\": \"drop\"}}\
    , \
    {\"chain\": {\"family\": \"inet\", \"table\": \"filter\", \"name\": \"unreached\", \"h\
    andle\": 3}}, \
    {\"rule\": {\"family\": \"inet\", \"table\": \"filter\", \"chain\": \"late\", \"handle\
    \": 4, \"expr\": [{\"match\": {\"op\": \"==\", \"left\": {\"payload\": {\"protocol\": \
    \"ip\", \"field\": \"saddr\"}}, \"right\": {\"prefix\": {\"addr\": \"10.0.0.0\", \"len\
    \": 8}}}}, {\"match\": {\"op\": \"==\", \"left\": {\"payload\": {\"protocol\": \"tcp\"\
    , \"field\": \"dport\"}}, \"right\": 80}}, {\"return\": null}]}}, \
    {\"rule\": {\"family\": \"inet\", \"table\": \"filter\", \"chain\": \"late\", \"handle\
    \": 5, \"expr\": [{\"match\": {\"op\": \"==\", \"left\": {\"payload\": {\"protocol\": \
    \"ip\", \"field\": \"protocol\"}}, \"right\": \"tcp\"}}, {\"drop\": null}]}}, \
    {\"rule\": {\"family\": \"inet\", \"table\": \"filter\", \"chain\": \"late\", \"handle\
    \": 6, \"expr\": [{\"match\": {\"op\": \"!=\", \"left\": {\"payload\": {\"protocol\": \
    \"ip\", \"field\": \"protocol\"}}, \"right\": \"sctp\"}}, {\"accept\": null}]}}, \
    {\"rule\": {\"family\": \"inet\", \"table\": \"filter\", \"chain\": \"input\", \"handl\
    e\": 7, \"comment\": \"noise\", \"expr\": [{\"match\": {\"op\": \"==\", \"left\": {\"p\
    ayload\": {\"protocol\": \"ip\", \"field\": \"saddr\"}}, \"right\": {\"prefix\": {\"ad\
    dr\": \"198.51.100.0\", \"len\": 24}}}}, {\"drop\": null}]}}, \
    {\"rule\": {\"family\": \"inet\", \"table\": \"filter\", \"chain\": \"input\", \"handl\
    e\": 10, \"expr\": [{\"match\": {\"op\": \"!=\", \"left\": {\"payload\": {\"protocol\"\
    : \"ip\", \"field\": \"saddr\"}}, \"right\": \
    {\"set\": [{\"range\": [\"10.0.0.1\", \"10.0.0.9\"]}]}}}, {\"match\": {\"op\": \"==\"\
    , \"left\": {\"payload\": {\"protocol\": \"tcp\", \"field\": \"dport\"}}, \"right\": \
    {\"set\": [22, {\"range\": [1000, 2000]}]}}}, {\"reject\": {\"type\": \"tcp reset\"}}]\
    }}, \
    {\"rule\": {\"family\": \"inet\", \"table\": \"filter\", \"chain\": \"input\", \"handl\
    e\": 12, \"expr\": [{\"match\": {\"op\": \"==\", \"left\": {\"meta\": {\"key\": \"l4pr\
    oto\"}}, \"right\": \
    {\"set\": [\"icmp\", 99]}}}, {\"counter\": {\"packets\": 0, \"bytes\": 0}}, {\"accept\
    \": null}]}}, \
    {\"rule\": {\"family\": \"inet\", \"table\": \"filter\", \"chain\": \"input\", \"handl\
    e\": 13, \"expr\": [{\"match\": {\"op\": \"!=\", \"left\": {\"payload\": {\"protocol\"\
    : \"tcp\", \"field\": \"sport\"}}, \"right\": 25}}, {\"match\": {\"op\": \"==\", \"lef\
    t\": {\"payload\": {\"protocol\": \"ip\", \"field\": \"daddr\"}}, \"right\": \"192.0.2\
    .7\"}}, {\"jump\": {\"target\": \"late\"}}]}}, \
    {\"rule\": {\"family\": \"inet\", \"table\": \"filter\", \"chain\": \"input\", \"handl\
    e\": 14, \"expr\": [{\"match\": {\"op\": \"==\", \"left\": {\"payload\": {\"protocol\"\
    : \"udp\", \"field\": \"dport\"}}, \"right\": 53}}, {\"goto\": {\"target\": \"late\"}}\
    ]}}, \
    {\"rule\": {\"family\": \"inet\", \"table\": \"filter\", \"chain\": \"input\", \"handl\
    e\": 15, \"expr\": [{\"match\": {\"op\": \"==\", \"left\": {\"payload\": {\"protocol\"\
    : \"ip6\", \"field\": \"saddr\"}}, \"right\": {\"prefix\": {\"addr\": \"fe80::\", \"le\
    n\": 10}}}}, {\"match\": {\"op\": \"in\", \"left\": {\"ct\": {\"key\": \"state\"}}, \"\
    right\": \"new\"}}, {\"accept\": null}]}}, \
    {\"rule\": {\"family\": \"inet\", \"table\": \"filter\", \"chain\": \"input\", \"handl\
    e\": 16, \"expr\": [{\"match\": {\"op\": \"==\", \"left\": {\"meta\": {\"key\": \"nfpr\
    oto\"}}, \"right\": \"ipv4\"}}, {\"match\": {\"op\": \"==\", \"left\": {\"payload\": {\
    \"protocol\": \"tcp\", \"field\": \"dport\"}}, \"right\": 443}}, {\"accept\": null}]}}\
    , \
    {\"rule\": {\"family\": \"inet\", \"table\": \"filter\", \"chain\": \"input\", \"handl\
    e\": 17, \"expr\": [{\"limit\": {\"rate\": 5, \"burst\": 5, \"per\": \"minute\"}}, {\"\
    log\": {\"prefix\": \"dropped \"}}]}}, \
    {\"rule\": {\"family\": \"inet\", \"table\": \"filter\", \"chain\": \"unreached\", \"h\
    andle\": 18, \"expr\": [{\"match\": {\"op\": \"in\", \"left\": {\"ct\": {\"key\": \"st\
    ate\"}}, \"right\": \"new\"}}, {\"accept\": null}]}}]}";

/// A host whose rules ask for interfaces and states, as nftables v1.0.6 prints it.
const HOST: &str =
    "{\"nftables\": [{\"metainfo\": {\"version\": \"1.0.6\", \"release_name\": \"Lester Goo\
    ch #5\", \"json_schema_version\": 1}}, {\"table\": {\"family\": \"inet\", \"name\": \"\
    filter\", \"handle\": 1}}, {\"chain\": {\"family\": \"inet\", \"table\": \"filter\", \
    \"name\": \"input\", \"handle\": 1, \"type\": \"filter\", \"hook\": \"input\", \"prio\
    \": 0, \"policy\": \"drop\"}}, \
    {\"rule\": {\"family\": \"inet\", \"table\": \"filter\", \"chain\": \"input\", \"handl\
    e\": 2, \"expr\": [{\"match\": {\"op\": \"in\", \"left\": {\"ct\": {\"key\": \"state\"\
    }}, \"right\": \"invalid\"}}, {\"drop\": null}]}}, \
    {\"rule\": {\"family\": \"inet\", \"table\": \"filter\", \"chain\": \"input\", \"handl\
    e\": 4, \"expr\": [{\"match\": {\"op\": \"==\", \"left\": {\"ct\": {\"key\": \"state\"\
    }}, \"right\": {\"set\": [\"established\", \"related\"]}}}, {\"accept\": null}]}}, \
    {\"rule\": {\"family\": \"inet\", \"table\": \"filter\", \"chain\": \"input\", \"handl\
    e\": 5, \"expr\": [{\"match\": {\"op\": \"==\", \"left\": {\"meta\": {\"key\": \"iif\"\
    }}, \"right\": \"lo\"}}, {\"accept\": null}]}}, \
    {\"rule\": {\"family\": \"inet\", \"table\": \"filter\", \"chain\": \"input\", \"handl\
    e\": 6, \"expr\": [{\"match\": {\"op\": \"==\", \"left\": {\"payload\": {\"protocol\"\
    : \"ip6\", \"field\": \"saddr\"}}, \"right\": {\"prefix\": {\"addr\": \"fe80::\", \"le\
    n\": 10}}}}, {\"match\": {\"op\": \"==\", \"left\": {\"payload\": {\"protocol\": \"tcp\
    \", \"field\": \"dport\"}}, \"right\": 22}}, {\"accept\": null}]}}, \
    {\"rule\": {\"family\": \"inet\", \"table\": \"filter\", \"chain\": \"input\", \"handl\
    e\": 7, \"expr\": [{\"match\": {\"op\": \"==\", \"left\": {\"payload\": {\"protocol\"\
    : \"ip\", \"field\": \"saddr\"}}, \"right\": {\"prefix\": {\"addr\": \"10.0.0.0\", \"l\
    en\": 8}}}}, {\"match\": {\"op\": \"==\", \"left\": {\"payload\": {\"protocol\": \"tcp\
    \", \"field\": \"dport\"}}, \"right\": 22}}, {\"accept\": null}]}}, \
    {\"rule\": {\"family\": \"inet\", \"table\": \"filter\", \"chain\": \"input\", \"handl\
    e\": 9, \"expr\": [{\"match\": {\"op\": \"==\", \"left\": {\"meta\": {\"key\": \"iifna\
    me\"}}, \"right\": \"eth*\"}}, {\"match\": {\"op\": \"==\", \"left\": {\"payload\": {\
    \"protocol\": \"udp\", \"field\": \"dport\"}}, \"right\": {\"set\": [53, 123]}}}, {\"a\
    ccept\": null}]}}, \
    {\"rule\": {\"family\": \"inet\", \"table\": \"filter\", \"chain\": \"input\", \"handl\
    e\": 11, \"expr\": [{\"match\": {\"op\": \"!=\", \"left\": {\"payload\": {\"protocol\"\
    : \"ip6\", \"field\": \"saddr\"}}, \"right\": {\"set\": [\"2001:db8::1\", {\"range\": \
    [\"2001:db8:1::\", \"2001:db8:2::\"]}]}}}, {\"match\": {\"op\": \"==\", \"left\": {\"m\
    eta\": {\"key\": \"l4proto\"}}, \"right\": \"ipv6-icmp\"}}, {\"accept\": null}]}}, \
    {\"rule\": {\"family\": \"inet\", \"table\": \"filter\", \"chain\": \"input\", \"handl\
    e\": 12, \"expr\": [{\"match\": {\"op\": \"!=\", \"left\": {\"ct\": {\"key\": \"state\
    \"}}, \"right\": \"new\"}}, {\"drop\": null}]}}, \
    {\"rule\": {\"family\": \"inet\", \"table\": \"filter\", \"chain\": \"input\", \"handl\
    e\": 13, \"expr\": [{\"reject\": {\"type\": \"icmpx\", \"expr\": \"admin-prohibited\"}\
    }]}}]}";

/// IPv4 packets, of which handles are asked.
pub(crate) const HANDLES: Asked = Asked {
    family: Family::Ip4,
    answers: Answers::Handle,
};

/// The rules of the chain of a place.
pub(crate) fn rules_at(
    rt: &impl Abort,
    alloc: Global,
    ruleset: (&str, usize),
    asked: Asked,
    assumed: &[u8],
) -> Result<RuleSet, Fail> {
    let (text, place) = ruleset;
    let saved = read_ruleset(alloc, text.as_bytes(), asked, assumed, b"input")
        .ok()
        .expect(rt, "a lawful ruleset");
    assert!(rt; place < saved.len());
    let policy = saved[place].policy().expect(rt, "a policy");
    let chains = chains_alone(alloc, saved)?;
    assert!(rt; place < chains.len());
    let layout = match asked.family {
        Family::Ip4 => ip4_layout(),
        Family::Ip6 => ip6_layout(),
    };
    let rules = rules_of_chains(alloc, layout, &chains, place, policy);
    Ok(rules.ok().expect(rt, "chains that end"))
}

/// The answer for a packet from port 9.
pub(crate) fn decides(
    rt: &impl Abort,
    rules: &RuleSet,
    protocol: u8,
    ends: [[u8; 4]; 2],
    port: u16,
    answer: u32,
) {
    let [[a, b, c, d], [e, f, g, h]] = ends;
    let [high, low] = port.to_be_bytes();
    let key = [protocol, a, b, c, d, e, f, g, h, 0, 9, high, low];
    assert!(rt; rules.layout().key_len() == 13);
    assert!(rt; plain_verdict(rules, &key, 0) == answer);
}

#[test]
fn a_server_decides_as_its_rules_say(rt: HostRuntime) -> Result<(), Fail> {
    let rules = rules_at(&rt, rt.alloc(), (SERVER, 1), HANDLES, b"")?;
    let server = [192, 0, 2, 7];
    let other = [192, 0, 2, 8];
    decides(&rt, &rules, 6, [[198, 51, 100, 7], server], 80, 7);
    decides(&rt, &rules, 6, [[10, 0, 0, 10], other], 22, 10);
    decides(&rt, &rules, 6, [[10, 0, 0, 9], other], 22, 2);
    decides(&rt, &rules, 17, [[10, 0, 0, 10], other], 22, 2);
    decides(&rt, &rules, 99, [[10, 0, 0, 9], other], 0, 12);
    decides(&rt, &rules, 6, [[10, 1, 0, 9], server], 80, 2);
    decides(&rt, &rules, 6, [[11, 1, 0, 9], server], 80, 5);
    decides(&rt, &rules, 17, [[11, 1, 0, 9], other], 53, 6);
    decides(&rt, &rules, 6, [[10, 0, 0, 9], other], 443, 16);
    Ok(())
}

#[test]
fn verdicts_are_told(rt: HostRuntime) -> Result<(), Fail> {
    let asked = Asked {
        answers: Answers::Verdict,
        ..HANDLES
    };
    let rules = rules_at(&rt, rt.alloc(), (SERVER, 1), asked, b"")?;
    let ends = [[10, 0, 0, 10], [192, 0, 2, 8]];
    decides(&rt, &rules, 6, ends, 22, 3);
    decides(&rt, &rules, 1, ends, 0, 1);
    decides(&rt, &rules, 6, ends, 23, 2);
    Ok(())
}

#[test]
fn a_state_is_refused_where_packets_come_to_it(rt: HostRuntime) -> Result<(), Fail> {
    let alloc = rt.alloc();
    let saved = read_ruleset(alloc, SERVER.as_bytes(), HANDLES, b"", b"input")
        .ok()
        .expect(&rt, "a lawful ruleset");
    assert!(rt; saved.len() == 3);
    let faults = saved[2].faults();
    assert!(rt; faults.len() == 1);
    assert!(rt; faults[0].handle == 18);
    assert!(rt; matches!(faults[0].kind, RuleKind::NeedsState));
    let chains = chains_alone(alloc, saved)?;
    assert!(rt; chains.len() == 3);
    let refused = rules_of_chains(alloc, ip4_layout(), &chains, 2, 0);
    assert!(rt; matches!(refused, Err(ChainsFault::NoChain(_))));
    Ok(())
}

#[test]
fn the_first_faulty_object_is_told(rt: HostRuntime) -> Result<(), Fail> {
    let text = "{\"nftables\": [{\"metainfo\": {}}, {\"add\": {}}]}";
    let told = read_ruleset(rt.alloc(), text.as_bytes(), HANDLES, b"", b"input")
        .err()
        .expect(&rt, "a refusal");
    let is_second = match told {
        NftFault::Object(fault) => fault.object == 2
            && matches!(fault.kind, ObjectKind::UnknownObject),
        NftFault::OutOfMemory => false,
    };
    assert!(rt; is_second);
    Ok(())
}

/// The answer of the host's rules for a packet of IPv4 from 10.0.0.7, under what is assumed.
fn host_decides(
    rt: &impl Abort,
    alloc: Global,
    assumed: &[u8],
    protocol: u8,
    port: u16,
    answer: u32,
) -> Result<(), Fail> {
    let rules = rules_at(rt, alloc, (HOST, 0), HANDLES, assumed)?;
    decides(
        rt,
        &rules,
        protocol,
        [[10, 0, 0, 7], [192, 0, 2, 8]],
        port,
        answer,
    );
    Ok(())
}

#[test]
fn what_is_assumed_decides(rt: HostRuntime) -> Result<(), Fail> {
    let alloc = rt.alloc();
    host_decides(&rt, alloc, b"in=eth0,state=new", 6, 22, 7)?;
    host_decides(&rt, alloc, b"in=eth0,state=new", 17, 123, 9)?;
    host_decides(&rt, alloc, b"in=wlan0,state=new", 17, 123, 13)?;
    host_decides(&rt, alloc, b"in=lo,state=new", 17, 123, 5)?;
    host_decides(&rt, alloc, b"in=lo,state=related", 17, 123, 4)?;
    host_decides(&rt, alloc, b"in=eth0,state=invalid", 6, 22, 2)?;
    host_decides(&rt, alloc, b"in=eth0,state=untracked", 6, 22, 7)?;
    host_decides(&rt, alloc, b"in=eth0,state=untracked", 6, 80, 12)
}

#[test]
fn an_interface_is_needed_if_the_state_is_assumed(rt: HostRuntime) -> Result<(), Fail> {
    let alloc = rt.alloc();
    let saved = read_ruleset(alloc, HOST.as_bytes(), HANDLES, b"state=new", b"input")
        .ok()
        .expect(&rt, "a lawful ruleset");
    assert!(rt; saved.len() == 1);
    let faults = saved[0].faults();
    assert!(rt; faults.len() == 2);
    assert!(rt; faults[0].handle == 5);
    assert!(rt; matches!(faults[0].kind, RuleKind::NeedsInterface));
    assert!(rt; faults[1].handle == 9);
    Ok(())
}

/// The answer for a packet of IPv6 to port 22 from an address of these four parts, and else zeros.
fn decides6(rt: &impl Abort, rules: &RuleSet, protocol: u8, parts: [u16; 4], answer: u32) {
    let [[a, b], [c, d]] = [parts[0].to_be_bytes(), parts[1].to_be_bytes()];
    let [[e, f], [g, h]] = [parts[2].to_be_bytes(), parts[3].to_be_bytes()];
    let mut key = [0; 37];
    let source = [protocol, a, b, c, d, e, f, 0, 0, 0, 0, 0, 0, 0, 0, g, h];
    key[..17].copy_from_slice(&source);
    key[36] = 22;
    assert!(rt; rules.layout().key_len() == 37);
    assert!(rt; plain_verdict(rules, &key, 0) == answer);
}

#[test]
fn packets_of_ip6_are_decided(rt: HostRuntime) -> Result<(), Fail> {
    let asked = Asked {
        family: Family::Ip6,
        ..HANDLES
    };
    let rules = rules_at(&rt, rt.alloc(), (HOST, 0), asked, b"in=eth0,state=new")?;
    decides6(&rt, &rules, 6, [0xFE80, 0, 0, 1], 6);
    decides6(&rt, &rules, 6, [0xFEBF, 0xFFFF, 0, 1], 6);
    decides6(&rt, &rules, 6, [0xFEC0, 0, 0, 1], 13);
    decides6(&rt, &rules, 58, [0x2001, 0xDB8, 0, 1], 13);
    decides6(&rt, &rules, 58, [0x2001, 0xDB8, 0, 2], 11);
    decides6(&rt, &rules, 58, [0x2001, 0xDB8, 1, 0], 13);
    decides6(&rt, &rules, 58, [0x2001, 0xDB8, 1, 7], 13);
    decides6(&rt, &rules, 58, [0x2001, 0xDB8, 2, 0], 13);
    decides6(&rt, &rules, 58, [0x2001, 0xDB8, 2, 1], 11);
    Ok(())
}
