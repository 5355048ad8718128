//! Rulesets with named sets, with maps, and with several things together, as `nft -j list ruleset`
//! prints them.

use crate::rulesets::{HANDLES, decides, rules_at};
use nft_reader::{RuleKind, read_ruleset};
use std::test::Fail;

/// Sets, and things that are compared together, as nftables v1.0.6 prints them.
const SETS: &str =
    "{\"nftables\": [{\"metainfo\": {\"version\": \"1.0.6\", \"release_name\": \"Lester \
    Gooch #5\", \"json_schema_version\": 1}}, \
    {\"table\": {\"family\": \"inet\", \"name\": \"filter\", \"handle\": 1}}, \
    {\"set\": {\"family\": \"inet\", \"name\": \"blocked\", \"table\": \"filter\", \
    \"type\": \"ipv4_addr\", \"handle\": 3, \"flags\": [\"interval\"], \"elem\": \
    [{\"elem\": {\"val\": {\"prefix\": {\"addr\": \"10.0.0.0\", \"len\": 8}}, \"comment\": \
    \"inside\"}}, {\"range\": [\"192.0.2.1\", \"192.0.2.9\"]}]}}, \
    {\"set\": {\"family\": \"inet\", \"name\": \"pairs\", \"table\": \"filter\", \"type\": \
    [\"ipv4_addr\", \"inet_service\"], \"handle\": 4, \"flags\": [\"interval\"], \"elem\": \
    [{\"concat\": [\"198.51.100.1\", 22]}, {\"concat\": [{\"prefix\": {\"addr\": \
    \"203.0.113.0\", \"len\": 24}}, {\"range\": [80, 90]}]}]}}, \
    {\"set\": {\"family\": \"inet\", \"name\": \"ports\", \"table\": \"filter\", \"type\": \
    \"inet_service\", \"handle\": 5, \"elem\": [53, 123]}}, \
    {\"set\": {\"family\": \"inet\", \"name\": \"seen\", \"table\": \"filter\", \"type\": \
    \"ipv4_addr\", \"handle\": 6, \"size\": 100}}, \
    {\"chain\": {\"family\": \"inet\", \"table\": \"filter\", \"name\": \"input\", \
    \"handle\": 1, \"type\": \"filter\", \"hook\": \"input\", \"prio\": 0, \"policy\": \
    \"drop\"}}, \
    {\"chain\": {\"family\": \"inet\", \"table\": \"filter\", \"name\": \"other\", \
    \"handle\": 2}}, \
    {\"rule\": {\"family\": \"inet\", \"table\": \"filter\", \"chain\": \"input\", \
    \"handle\": 7, \"expr\": [{\"match\": {\"op\": \"==\", \"left\": {\"payload\": \
    {\"protocol\": \"ip\", \"field\": \"saddr\"}}, \"right\": \"@blocked\"}}, {\"drop\": \
    null}]}}, \
    {\"rule\": {\"family\": \"inet\", \"table\": \"filter\", \"chain\": \"input\", \
    \"handle\": 8, \"expr\": [{\"match\": {\"op\": \"==\", \"left\": {\"concat\": \
    [{\"payload\": {\"protocol\": \"ip\", \"field\": \"saddr\"}}, {\"payload\": \
    {\"protocol\": \"tcp\", \"field\": \"dport\"}}]}, \"right\": \"@pairs\"}}, {\"accept\": \
    null}]}}, \
    {\"rule\": {\"family\": \"inet\", \"table\": \"filter\", \"chain\": \"input\", \
    \"handle\": 10, \"expr\": [{\"match\": {\"op\": \"==\", \"left\": {\"concat\": \
    [{\"payload\": {\"protocol\": \"ip\", \"field\": \"saddr\"}}, {\"payload\": \
    {\"protocol\": \"ip\", \"field\": \"daddr\"}}, {\"meta\": {\"key\": \"l4proto\"}}]}, \
    \"right\": {\"set\": [{\"concat\": [{\"prefix\": {\"addr\": \"198.51.100.0\", \"len\": \
    24}}, \"192.0.2.77\", \"udp\"]}, {\"concat\": [\"198.51.100.9\", \"192.0.2.78\", \
    \"gre\"]}]}}}, {\"accept\": null}]}}, \
    {\"rule\": {\"family\": \"inet\", \"table\": \"filter\", \"chain\": \"input\", \
    \"handle\": 11, \"expr\": [{\"match\": {\"op\": \"!=\", \"left\": {\"payload\": \
    {\"protocol\": \"udp\", \"field\": \"dport\"}}, \"right\": \"@ports\"}}, {\"reject\": \
    {\"type\": \"icmpx\", \"expr\": \"port-unreachable\"}}]}}, \
    {\"rule\": {\"family\": \"inet\", \"table\": \"filter\", \"chain\": \"other\", \
    \"handle\": 12, \"expr\": [{\"set\": {\"op\": \"add\", \"elem\": {\"payload\": \
    {\"protocol\": \"ip\", \"field\": \"saddr\"}}, \"set\": \"@seen\"}}]}}, \
    {\"rule\": {\"family\": \"inet\", \"table\": \"filter\", \"chain\": \"other\", \
    \"handle\": 13, \"expr\": [{\"match\": {\"op\": \"==\", \"left\": {\"payload\": \
    {\"protocol\": \"ip\", \"field\": \"saddr\"}}, \"right\": \"@seen\"}}, {\"accept\": \
    null}]}}]}";

/// Maps to verdicts, as nftables v1.0.6 prints them.
const MAPS: &str =
    "{\"nftables\": [{\"metainfo\": {\"version\": \"1.0.6\", \"release_name\": \"Lester \
    Gooch #5\", \"json_schema_version\": 1}}, \
    {\"table\": {\"family\": \"inet\", \"name\": \"filter\", \"handle\": 1}}, \
    {\"set\": {\"family\": \"inet\", \"name\": \"seen\", \"table\": \"filter\", \"type\": \
    \"ipv4_addr\", \"handle\": 3, \"size\": 100}}, \
    {\"map\": {\"family\": \"inet\", \"name\": \"verdicts\", \"table\": \"filter\", \
    \"type\": \"inet_service\", \"handle\": 4, \"map\": \"verdict\", \"elem\": [[25, \
    {\"drop\": null}], [53, {\"accept\": null}], [80, {\"jump\": {\"target\": \
    \"web\"}}]]}}, \
    {\"chain\": {\"family\": \"inet\", \"table\": \"filter\", \"name\": \"web\", \
    \"handle\": 1}}, \
    {\"chain\": {\"family\": \"inet\", \"table\": \"filter\", \"name\": \"input\", \
    \"handle\": 2, \"type\": \"filter\", \"hook\": \"input\", \"prio\": 0, \"policy\": \
    \"drop\"}}, \
    {\"rule\": {\"family\": \"inet\", \"table\": \"filter\", \"chain\": \"web\", \
    \"handle\": 5, \"expr\": [{\"match\": {\"op\": \"==\", \"left\": {\"payload\": \
    {\"protocol\": \"ip\", \"field\": \"saddr\"}}, \"right\": {\"prefix\": {\"addr\": \
    \"203.0.113.0\", \"len\": 24}}}}, {\"drop\": null}]}}, \
    {\"rule\": {\"family\": \"inet\", \"table\": \"filter\", \"chain\": \"input\", \
    \"handle\": 6, \"expr\": [{\"set\": {\"op\": \"add\", \"elem\": {\"payload\": \
    {\"protocol\": \"ip\", \"field\": \"saddr\"}}, \"set\": \"@seen\"}}]}}, \
    {\"rule\": {\"family\": \"inet\", \"table\": \"filter\", \"chain\": \"input\", \
    \"handle\": 7, \"expr\": [{\"vmap\": {\"key\": {\"payload\": {\"protocol\": \"tcp\", \
    \"field\": \"dport\"}}, \"data\": \"@verdicts\"}}]}}, \
    {\"rule\": {\"family\": \"inet\", \"table\": \"filter\", \"chain\": \"input\", \
    \"handle\": 9, \"expr\": [{\"vmap\": {\"key\": {\"concat\": [{\"payload\": \
    {\"protocol\": \"ip\", \"field\": \"saddr\"}}, {\"payload\": {\"protocol\": \"udp\", \
    \"field\": \"dport\"}}]}, \"data\": {\"set\": [[{\"concat\": [\"198.51.100.1\", 53]}, \
    {\"accept\": null}], [{\"concat\": [{\"prefix\": {\"addr\": \"203.0.113.0\", \"len\": \
    24}}, {\"range\": [67, 68]}]}, {\"goto\": {\"target\": \"web\"}}]]}}}]}}, \
    {\"rule\": {\"family\": \"inet\", \"table\": \"filter\", \"chain\": \"input\", \
    \"handle\": 11, \"expr\": [{\"vmap\": {\"key\": {\"payload\": {\"protocol\": \"udp\", \
    \"field\": \"dport\"}}, \"data\": {\"set\": [[53, {\"accept\": null}], [{\"range\": \
    [67, 68]}, {\"continue\": null}], [\"*\", {\"return\": null}]]}}}]}}, \
    {\"rule\": {\"family\": \"inet\", \"table\": \"filter\", \"chain\": \"input\", \
    \"handle\": 13, \"expr\": [{\"match\": {\"op\": \"==\", \"left\": {\"meta\": {\"key\": \
    \"l4proto\"}}, \"right\": {\"set\": [\"tcp\", \"udp\"]}}}, {\"accept\": null}]}}]}";

#[test]
fn named_sets_have_what_is_listed(rt: HostRuntime) -> Result<(), Fail> {
    let rules = rules_at(&rt, rt.alloc(), (SETS, 0), HANDLES, b"")?;
    let server = [192, 0, 2, 77];
    decides(&rt, &rules, 6, [[10, 1, 2, 3], server], 22, 7);
    decides(&rt, &rules, 17, [[192, 0, 2, 9], server], 53, 7);
    decides(&rt, &rules, 6, [[192, 0, 2, 10], server], 22, 1);
    decides(&rt, &rules, 17, [[192, 0, 2, 10], server], 123, 1);
    decides(&rt, &rules, 17, [[192, 0, 2, 10], server], 124, 11);
    Ok(())
}

#[test]
fn elements_are_compared_part_by_part(rt: HostRuntime) -> Result<(), Fail> {
    let rules = rules_at(&rt, rt.alloc(), (SETS, 0), HANDLES, b"")?;
    let server = [192, 0, 2, 77];
    decides(&rt, &rules, 6, [[198, 51, 100, 1], server], 22, 8);
    decides(&rt, &rules, 6, [[198, 51, 100, 1], server], 80, 1);
    decides(&rt, &rules, 6, [[203, 0, 113, 9], server], 90, 8);
    decides(&rt, &rules, 6, [[203, 0, 113, 9], server], 22, 1);
    decides(&rt, &rules, 17, [[198, 51, 100, 9], server], 22, 10);
    decides(&rt, &rules, 17, [[198, 51, 101, 9], server], 22, 11);
    decides(&rt, &rules, 47, [[198, 51, 100, 9], server], 0, 1);
    decides(&rt, &rules, 47, [[198, 51, 100, 9], [192, 0, 2, 78]], 0, 10);
    Ok(())
}

#[test]
fn a_set_that_packets_change_isnt_known(rt: HostRuntime) -> Result<(), Fail> {
    let saved = read_ruleset(rt.alloc(), SETS.as_bytes(), HANDLES, b"", b"input")
        .ok()
        .expect(&rt, "a lawful ruleset");
    assert!(rt; saved.len() == 2);
    let faults = saved[1].faults();
    assert!(rt; faults.len() == 1);
    assert!(rt; faults[0].handle == 13);
    assert!(rt; matches!(faults[0].kind, RuleKind::ChangingSet));
    Ok(())
}

#[test]
fn maps_decide_by_their_elements(rt: HostRuntime) -> Result<(), Fail> {
    let rules = rules_at(&rt, rt.alloc(), (MAPS, 1), HANDLES, b"")?;
    let server = [192, 0, 2, 77];
    let other = [192, 0, 2, 1];
    decides(&rt, &rules, 6, [other, server], 25, 7);
    decides(&rt, &rules, 6, [[203, 0, 113, 5], server], 80, 5);
    decides(&rt, &rules, 6, [other, server], 80, 13);
    decides(&rt, &rules, 17, [[198, 51, 100, 1], server], 53, 9);
    decides(&rt, &rules, 17, [[203, 0, 113, 5], server], 67, 5);
    decides(&rt, &rules, 17, [other, server], 53, 11);
    decides(&rt, &rules, 17, [other, server], 67, 13);
    decides(&rt, &rules, 17, [other, server], 99, 2);
    decides(&rt, &rules, 1, [other, server], 0, 2);
    Ok(())
}
