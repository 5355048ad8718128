//! Lists of Cisco IOS as `show running-config` writes them, read and asked for packets.

use cisco_reader::{Answers, CiscoFault, read_list};
use field_defs::ip4_layout;
use list_chains::rules_of_chains;
use rule_set::{RuleSet, plain_verdict};
use std::alloc::Global;
use std::process::Abort;
use std::test::Fail;

/// The configuration of an edge router.
const EDGE: &str = "! an edge router's configuration, as show running-config writes it\n\
    hostname edge\n\
    !\n\
    ip access-list extended OUTSIDE-IN\n \
    remark spoofed sources\n \
    3 deny   ip 10.0.0.0 0.255.255.255 any\n \
    6 deny   ip 172.16.0.0 0.15.255.255 any log\n \
    10 permit tcp any host 192.0.2.10 eq www 443\n \
    20 permit tcp any 192.0.2.0 0.0.0.255 range 6000 6063\n \
    30 permit udp any eq domain 192.0.2.0 0.0.0.255 gt 1023\n \
    40 permit tcp 198.51.100.0 0.0.0.6 any neq telnet\n \
    permit icmp any any\n \
    permit gre host 203.0.113.1 host 192.0.2.1\n \
    permit 50 any 192.0.2.0 0.0.0.255\n \
    deny   tcp any any lt 1024\n \
    permit udp any host 192.0.2.53 eq domain log-input\n\
    !\n\
    access-list 101 permit tcp 10.1.0.0 0.0.255.255 any eq 22\n\
    access-list 101 remark the rest is refused\n\
    access-list 101 deny   udp any any eq ntp\n\
    access-list 101 permit ip 10.0.0.0 0.255.255.255 any\n\
    !\n\
    ipv6 access-list WEB6\n \
    sequence 10 permit tcp any 2001:db8:5::/48 eq 443\n \
    permit icmp any any\n \
    deny ipv6 any any log\n\
    !\n\
    ip access-list extended WITH-STATE\n \
    permit tcp any any established\n \
    permit ip host 10.0.0.1 any\n\
    !\n\
    interface GigabitEthernet0/0\n \
    ip access-group OUTSIDE-IN in\n";

/// A configuration whose list A names groups, of which two stand after it.
const GROUPED: &str = "object-group network SERVERS\n \
    description servers of the branch\n \
    host 192.0.2.10\n \
    range 192.0.2.20 192.0.2.27\n \
    198.51.100.0 255.255.255.240\n\
    !\n\
    ip access-list extended A\n \
    permit tcp object-group OFFICES object-group SERVERS eq 443\n \
    deny   ip any any log\n\
    object-group network OFFICES\n \
    10.1.0.0 /16\n \
    group-object PARTNERS\n\
    object-group network PARTNERS\n \
    203.0.113.64/26\n";

/// A configuration whose list A names groups of services.
const SERVED: &str = "object-group service MANAGE\n \
    tcp source gt 1023 22\n \
    tcp-udp eq domain\n \
    group-object WEB\n \
    esp\n\
    object-group service WEB\n \
    description pages\n \
    tcp www\n \
    udp neq 443\n\
    ip access-list extended A\n \
    permit object-group MANAGE any host 192.0.2.10 log\n \
    permit object-group WEB any any\n \
    deny   tcp any any\n";

/// The rules of a list of a configuration.
fn rules_of(
    rt: &impl Abort,
    alloc: Global,
    text: &str,
    name: &[u8],
    answers: Answers,
) -> Result<RuleSet, Fail> {
    let chain = read_list(alloc, text.as_bytes(), name, answers)
        .ok()
        .expect(rt, "a lawful list");
    let chains = vec![in alloc; chain]?;
    assert!(rt; chains.len() == 1);
    let rules = rules_of_chains(alloc, ip4_layout(), &chains, 0, 0);
    Ok(rules.ok().expect(rt, "a chain that ends"))
}

/// A packet: its protocol, the bytes of its source and destination, both ports, and the answer.
#[derive(Clone, Copy)]
struct Packet(u8, [u8; 4], [u8; 4], u16, u16, u32);

/// A server behind the router.
const SERVER: [u8; 4] = [192, 0, 2, 10];

/// Packets that come in from outside, each with the line that decides it.
const OUTSIDE: [Packet; 13] = [
    Packet(6, [10, 1, 2, 3], SERVER, 9, 443, 6),
    Packet(6, [172, 31, 0, 1], SERVER, 9, 443, 7),
    Packet(6, [8, 8, 8, 8], SERVER, 9, 443, 8),
    Packet(6, [8, 8, 8, 8], SERVER, 9, 81, 15),
    Packet(6, [8, 8, 8, 8], SERVER, 9, 6063, 9),
    Packet(17, [8, 8, 8, 8], SERVER, 53, 1024, 10),
    Packet(17, [8, 8, 8, 8], SERVER, 53, 1023, 0),
    Packet(6, [198, 51, 100, 6], SERVER, 9, 22, 11),
    Packet(6, [198, 51, 100, 7], SERVER, 9, 22, 15),
    Packet(6, [198, 51, 100, 4], SERVER, 9, 23, 15),
    Packet(1, [8, 8, 8, 8], SERVER, 0, 0, 12),
    Packet(47, [203, 0, 113, 1], [192, 0, 2, 1], 0, 0, 13),
    Packet(50, [8, 8, 8, 8], SERVER, 0, 0, 14),
];

/// Packets of the list 101, each with the verdict: none is said of the last one.
const NUMBERED: [Packet; 3] = [
    Packet(6, [10, 1, 2, 3], [8, 8, 8, 8], 9, 22, 1),
    Packet(17, [10, 1, 2, 3], [8, 8, 8, 8], 9, 123, 2),
    Packet(6, [11, 1, 2, 3], [8, 8, 8, 8], 9, 22, 0),
];

/// Packets at the ends of what groups hold, each with the line that decides it.
const OF_GROUPS: [Packet; 7] = [
    Packet(6, [10, 1, 2, 3], SERVER, 9, 443, 8),
    Packet(6, [10, 2, 0, 0], SERVER, 9, 443, 9),
    Packet(6, [203, 0, 113, 127], [192, 0, 2, 27], 9, 443, 8),
    Packet(6, [203, 0, 113, 128], [192, 0, 2, 27], 9, 443, 9),
    Packet(6, [10, 1, 255, 255], [198, 51, 100, 15], 9, 443, 8),
    Packet(6, [10, 1, 255, 255], [198, 51, 100, 16], 9, 443, 9),
    Packet(6, [192, 0, 2, 10], [10, 1, 2, 3], 9, 443, 9),
];

/// Packets of services, each with the line that decides it: none decides the last one.
const OF_SERVICES: [Packet; 11] = [
    Packet(6, [10, 1, 2, 3], SERVER, 1024, 22, 11),
    Packet(6, [10, 1, 2, 3], SERVER, 1023, 22, 13),
    Packet(6, [10, 1, 2, 3], SERVER, 9, 53, 11),
    Packet(17, [10, 1, 2, 3], SERVER, 9, 53, 11),
    Packet(6, [10, 1, 2, 3], [192, 0, 2, 11], 9, 53, 13),
    Packet(6, [10, 1, 2, 3], SERVER, 9, 80, 11),
    Packet(6, [10, 1, 2, 3], [192, 0, 2, 11], 9, 80, 12),
    Packet(17, [10, 1, 2, 3], SERVER, 9, 442, 11),
    Packet(17, [10, 1, 2, 3], [192, 0, 2, 11], 9, 444, 12),
    Packet(50, [10, 1, 2, 3], SERVER, 0, 0, 11),
    Packet(17, [10, 1, 2, 3], SERVER, 9, 443, 0),
];

/// Whether the rules give each packet its answer.
fn decide(rt: &impl Abort, rules: &RuleSet, packets: &[Packet]) {
    for packet in packets {
        let Packet(protocol, [a, b, c, d], [e, f, g, h], from, to, answer) = *packet;
        let [i, j] = from.to_be_bytes();
        let [k, l] = to.to_be_bytes();
        let key = [protocol, a, b, c, d, e, f, g, h, i, j, k, l];
        assert!(rt; rules.layout().key_len() == 13);
        assert!(rt; plain_verdict(rules, &key, 0) == answer);
    }
}

#[test]
fn lists_of_a_router_decide_as_their_lines_say(rt: HostRuntime) -> Result<(), Fail> {
    let named = rules_of(&rt, rt.alloc(), EDGE, b"OUTSIDE-IN", Answers::Line)?;
    decide(&rt, &named, &OUTSIDE);
    let numbered = rules_of(&rt, rt.alloc(), EDGE, b"101", Answers::Verdict)?;
    decide(&rt, &numbered, &NUMBERED);
    let grouped = rules_of(&rt, rt.alloc(), GROUPED, b"A", Answers::Line)?;
    decide(&rt, &grouped, &OF_GROUPS);
    let served = rules_of(&rt, rt.alloc(), SERVED, b"A", Answers::Line)?;
    decide(&rt, &served, &OF_SERVICES);
    Ok(())
}

/// Configurations, and the line for which each is refused when the list A is asked for: 0 if it is
/// read.
const LISTS: [(&str, u32); 24] = [
    ("ip access-list extended A\n permit tcp any any eq 80\n", 0),
    (
        "ip access-list extended A\n permit tcp any any established\n",
        2,
    ),
    (
        "ip access-list extended A\n permit tcp any any\n deny ip 10.0.0.0 any\n",
        3,
    ),
    (
        "ip access-list extended A\n 10 permit tcp any any\n 10 deny ip any any\n",
        3,
    ),
    (
        "ip access-list extended A\n permit ip any any\n no permit ip any any\n",
        3,
    ),
    ("ip access-list standard A\n permit 10.0.0.1\n", 1),
    ("ip access-list extended B\n permit ip any any\nend\n", 3),
    ("interface Gi0/0\n permit ip any any\n", 2),
    (
        "ip access-list extended A\n \
        permit ip object-group N any\n",
        2,
    ),
    (
        "object-group network N\n \
        host 10.0.0.1\n\
        ip access-list extended A\n \
        permit ip any object-group N\n",
        0,
    ),
    (
        "object-group network N\n \
        host 10.0.0.300\n\
        ip access-list extended A\n \
        permit ip any object-group N\n",
        2,
    ),
    (
        "object-group network N\n \
        host 10.0.0.300\n\
        ip access-list extended A\n \
        permit ip any any\n",
        0,
    ),
    (
        "object-group network N\n \
        group-object N\n\
        ip access-list extended A\n \
        permit ip any object-group N\n",
        2,
    ),
    (
        "object-group network N\n \
        description none\n\
        ip access-list extended A\n \
        permit ip any object-group N\n",
        4,
    ),
    (
        "object-group network N\n \
        host 10.0.0.1\n \
        no host 10.0.0.1\n\
        ip access-list extended A\n \
        permit ip any any\n",
        3,
    ),
    (
        "object-group service N\n \
        tcp\n\
        ip access-list extended A\n \
        permit ip object-group N any\n",
        4,
    ),
    (
        "object-group network\n\
        ip access-list extended A\n \
        permit ip any any\n",
        1,
    ),
    (
        "object-group service N\n \
        icmp\n\
        ip access-list extended A\n \
        permit object-group N any any log\n",
        0,
    ),
    (
        "object-group service N\n \
        icmp echo\n\
        ip access-list extended A\n \
        permit object-group N any any\n",
        2,
    ),
    (
        "object-group service N\n \
        tcp 80\n\
        ip access-list extended A\n \
        permit object-group N any any eq 80\n",
        4,
    ),
    (
        "object-group service N\n \
        tcp eq 80 443\n\
        ip access-list extended A\n \
        permit object-group N any any\n",
        2,
    ),
    (
        "object-group service N\n \
        esp 80\n\
        ip access-list extended A\n \
        permit object-group N any any\n",
        2,
    ),
    (
        "object-group service N\n \
        group-object N\n\
        ip access-list extended A\n \
        permit object-group N any any\n",
        2,
    ),
    (
        "object-group network N\n \
        any\n\
        ip access-list extended A\n \
        permit object-group N any any\n",
        4,
    ),
];

/// The line for which a configuration is refused, and 0 if its list A is read.
fn refused_line(alloc: Global, text: &str) -> u32 {
    match read_list(alloc, text.as_bytes(), b"A", Answers::Line) {
        Ok(_) => 0,
        Err(CiscoFault::Line(fault)) => fault.line,
        Err(CiscoFault::OutOfMemory) => u32::MAX,
    }
}

#[test]
fn a_configuration_is_refused_for_its_first_faulty_line(rt: HostRuntime) {
    for (text, line) in &LISTS {
        assert!(rt; refused_line(rt.alloc(), text) == *line);
    }
}
