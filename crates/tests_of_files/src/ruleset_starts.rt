//! Base chains of rulesets beside each other, as `nft -j list ruleset` prints them.

use crate::rulesets::HANDLES;
use nft_reader::{NftChain, StartFault, read_ruleset, start_of, stopping_chains};
use std::alloc::Global;
use std::process::Abort;
use std::test::Fail;

/// A host that forwards. Its chain raw leads to a chain that may drop, its chain nat doesn't, and
/// its chain input drops packets that none of the others sees.
const ROUTER: &str = "{\"nftables\": [{\"metainfo\": {\"version\": \"1.0.6\"}}, \
    {\"table\": {\"family\": \"inet\", \"name\": \"f\", \"handle\": 1}}, \
    {\"chain\": {\"family\": \"inet\", \"table\": \"f\", \"name\": \"input\", \"handle\": 1, \
    \"type\": \"filter\", \"hook\": \"input\", \"prio\": 0, \"policy\": \"drop\"}}, \
    {\"chain\": {\"family\": \"inet\", \"table\": \"f\", \"name\": \"output\", \"handle\": 2, \
    \"type\": \"filter\", \"hook\": \"output\", \"prio\": 0, \"policy\": \"drop\"}}, \
    {\"chain\": {\"family\": \"inet\", \"table\": \"f\", \"name\": \"raw\", \"handle\": 3, \
    \"type\": \"filter\", \"hook\": \"prerouting\", \"prio\": -300, \"policy\": \"accept\"}}, \
    {\"chain\": {\"family\": \"inet\", \"table\": \"f\", \"name\": \"nat\", \"handle\": 4, \
    \"type\": \"nat\", \"hook\": \"postrouting\", \"prio\": 100, \"policy\": \"accept\"}}, \
    {\"chain\": {\"family\": \"inet\", \"table\": \"f\", \"name\": \"bad\", \"handle\": 5}}, \
    {\"rule\": {\"family\": \"inet\", \"table\": \"f\", \"chain\": \"raw\", \"handle\": 8, \
    \"expr\": [{\"jump\": {\"target\": \"bad\"}}]}}, \
    {\"rule\": {\"family\": \"inet\", \"table\": \"f\", \"chain\": \"nat\", \"handle\": 9, \
    \"expr\": [{\"masquerade\": null}]}}, \
    {\"rule\": {\"family\": \"inet\", \"table\": \"f\", \"chain\": \"bad\", \"handle\": 10, \
    \"expr\": [{\"match\": {\"op\": \"in\", \"left\": {\"ct\": {\"key\": \"state\"}}, \
    \"right\": \"invalid\"}}, {\"drop\": null}]}}]}";

/// The chains, under what is assumed, where the chain of a name is asked for, and its place.
fn asked(
    rt: &impl Abort,
    alloc: Global,
    assumed: &[u8],
    name: &[u8],
) -> Result<(Vec<NftChain>, Result<usize, StartFault>), Fail> {
    let chains = read_ruleset(alloc, ROUTER.as_bytes(), HANDLES, assumed, name)
        .ok()
        .expect(rt, "a lawful ruleset");
    let stopping = stopping_chains(alloc, &chains)?;
    let place = start_of(&chains, &stopping, assumed, name);
    Ok((chains, place))
}

#[test]
fn another_base_chain_may_drop(rt: HostRuntime) -> Result<(), Fail> {
    let (_, place) = asked(&rt, rt.alloc(), b"", b"input")?;
    assert!(rt; matches!(place, Err(StartFault::Beside(8))));
    Ok(())
}

#[test]
fn others_dont_see_the_packets_or_let_them_go(rt: HostRuntime) -> Result<(), Fail> {
    let (chains, place) = asked(&rt, rt.alloc(), b"out=eth0", b"output")?;
    assert!(rt; matches!(place, Ok(1)));
    assert!(rt; chains.len() == 5);
    assert!(rt; chains[2].base().is_some_and(|base| base.priority.below));
    Ok(())
}

#[test]
fn packets_have_no_such_interface(rt: HostRuntime) -> Result<(), Fail> {
    let (_, place) = asked(&rt, rt.alloc(), b"in=eth0", b"output")?;
    assert!(rt; matches!(place, Err(StartFault::OtherInterface)));
    let (_, place) = asked(&rt, rt.alloc(), b"", b"nat")?;
    assert!(rt; matches!(place, Err(StartFault::NatStart)));
    Ok(())
}
