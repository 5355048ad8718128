//! A ruleset of nft in, its chains and the one that packets come to out.

ghost use Rattle.std.specs.Prelude.{◌≡◌, ◌<◌, length, map, IfErr, IfOk, Ok};
ghost use Rattle.nft_reader.specs.Ruleset.{chains_of};
ghost use Rattle.list_tool.specs.Listing.{at_object, base_chain, faults_alone, or_unread_object};
ghost use Rattle.list_tool.specs.Listing.{rule_answers, ruleset_way, start_place};
ghost use Rattle.list_tool.specs.Printed.{Refuses};
ghost use Rattle.list_tool.specs.Requests.{way_view};

use crate::listing::{Start, Way, start_with};
use crate::status::{ListFault, ListKind, ListPlace, Refusal};
use iptables_reader::Answers;
use nft_reader::{
    Asked, NftChain, NftFault, RuleFault, StartFault, chains_alone, read_ruleset, start_of,
    stopping_chains,
};
use std::alloc::{AllocError, Global};

/// The chains of a ruleset, and the base chain of a name.
pub(crate) fn ruleset_way(
    alloc: Global,
    bytes: &[u8],
    asked: Asked,
    assumed: &[u8],
    name: &[u8],
) -> Result<Way, Refusal>
    ensures way { IfOk result (λ way. ruleset_way asked assumed.now name.now bytes.now
        ≡ Ok (way_view way)) }
    ensures within { IfOk result (λ way. way.start.place < length way.chains.items) }
    ensures refused { IfErr result
        (Refuses (ruleset_way asked assumed.now name.now bytes.now)) }
{
    let saved = ruleset_chains(alloc, bytes, asked, assumed, name)?;
    let stopping = stopping_chains(alloc, &saved)?;
    let start = match base_chain(&saved, &stopping, assumed, name) {
        Ok(start) => start,
        Err(fault) => return Err(Refusal::Fault(fault)),
    };
    let faults = faults_alone(alloc, &saved)?;
    let chains = chains_alone(alloc, saved)?;
    Ok(Way {
        chains,
        faults,
        start,
    })
}

/// The chains of a ruleset.
fn ruleset_chains(
    alloc: Global,
    bytes: &[u8],
    asked: Asked,
    assumed: &[u8],
    name: &[u8],
) -> Result<Vec<NftChain>, Refusal>
    ensures chains { IfOk result
        (λ chains. chains_of asked assumed.now name.now bytes.now ≡ Ok chains.items) }
    ensures refused { IfErr result
        (Refuses (or_unread_object (chains_of asked assumed.now name.now bytes.now))) }
{
    match read_ruleset(alloc, bytes, asked, assumed, name) {
        Ok(chains) => Ok(chains),
        Err(NftFault::Object(fault)) => {
            let kind = ListKind::Object(fault.kind);
            Err(Refusal::Fault(at_object(fault.object, kind)))
        }
        Err(NftFault::OutOfMemory) => Err(Refusal::OutOfMemory),
    }
}

/// What the answers of rules are.
pub(crate) fn rule_answers(answers: Answers) -> nft_reader::Answers
    ensures { result ≡ rule_answers answers }
{
    match answers {
        Answers::Line => nft_reader::Answers::Handle,
        Answers::Verdict => nft_reader::Answers::Verdict,
    }
}

/// What can't be said in the object of a number. That of the whole ruleset is 0.
fn at_object(number: usize, kind: ListKind) -> ListFault
    ensures { result ≡ at_object number kind }
{
    ListFault {
        place: ListPlace::Object(number),
        kind,
    }
}

/// Where a base chain is that can't be asked: what may drop beside it has a handle.
fn start_place(fault: StartFault) -> ListPlace
    ensures { result ≡ start_place fault }
{
    match fault {
        StartFault::Beside(handle) => ListPlace::Handle(handle),
        _ => ListPlace::Object(0),
    }
}

/// The base chain of a name, which no other table has too, and beside which none may drop. It takes
/// no memory.
fn base_chain(
    saved: &[NftChain],
    stopping: &[bool],
    assumed: &[u8],
    name: &[u8],
) -> Result<Start, ListFault>
    ensures start { result ≡ base_chain stopping.now assumed.now name.now saved.now }
    ensures within { IfOk result (λ start. start.place < length saved.now) }
{
    match start_of(saved, stopping, assumed, name) {
        Ok(place) => start_with(ListPlace::Object(0), place, saved[place].policy()),
        Err(fault) => Err(ListFault {
            place: start_place(fault),
            kind: ListKind::BaseChain(fault),
        }),
    }
}

/// The faults of the rules of each chain. It takes the memory of a copy.
fn faults_alone(alloc: Global, saved: &[NftChain]) -> Result<Vec<Vec<RuleFault>>, AllocError>
    ensures { IfOk result (λ all.
        map (λ faults. faults.items) all.items ≡ faults_alone saved.now) }
{
    let mut faults = Vec::new(alloc);
    for chain in saved {
        faults.push(copied(alloc, chain.faults())?)?;
    }
    Ok(faults)
}

/// A copy of faults.
fn copied(alloc: Global, faults: &[RuleFault]) -> Result<Vec<RuleFault>, AllocError>
    ensures { IfOk result (λ copy. copy.items ≡ faults.now) }
{
    let mut copy = Vec::new(alloc);
    copy.extend_from_slice(faults)?;
    Ok(copy)
}
