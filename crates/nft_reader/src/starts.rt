//! The base chain that is asked for, and others on the way of its packets.

ghost use Rattle.std.specs.Prelude.{◌≡◌, ◌<◌, ◌≤◌, length, IfOk, IfSome};
ghost use Rattle.nft_reader.specs.Starts as starts;

use crate::assumed::interface_of;
use crate::chain::{Lead, NftChain};
use crate::compared::Way;
use crate::fault::StartFault;
use crate::hooks::Base;
use std::alloc::{AllocError, Global};

/// How many rules lead from a base chain to another chain at most: the kernel takes no longer ways.
const MAX_LEADS: usize = 16;

/// Whether a rule leads to a marked chain.
fn leads_to_marked(marks: &[bool], lead: Lead) -> bool
    ensures { result ≡ starts.leads_to_marked marks.now lead }
{
    match marks.get(lead.place) {
        Some(mark) => *mark,
        None => false,
    }
}

/// The first rule that leads to a marked chain.
fn led_place(marks: &[bool], leads: &[Lead]) -> Option<usize>
    ensures place { result ≡ starts.led_place marks.now leads.now }
    ensures within { IfSome result (λ place. place < length leads.now) }
{
    for place in 0..leads.len() {
        if leads_to_marked(marks, leads[place]) {
            return Some(place);
        }
    }
    None
}

/// Its handle.
fn led_handle(marks: &[bool], leads: &[Lead]) -> Option<u32>
    ensures { result ≡ starts.led_handle marks.now leads.now }
{
    let place = led_place(marks, leads)?;
    Some(leads[place].handle)
}

/// The handle of a rule of a chain that may drop, or that leads to a marked chain.
fn stop_of(marks: &[bool], chain: &NftChain) -> Option<u32>
    ensures { result ≡ starts.stop_of marks.now chain.now }
{
    match chain.stops() {
        Some(handle) => Some(handle),
        None => led_handle(marks, chain.leads()),
    }
}

/// The chains with such a rule.
fn spread(alloc: Global, chains: &[NftChain], marks: &[bool]) -> Result<Vec<bool>, AllocError>
    ensures { IfOk result (λ more. more.items ≡ starts.spread chains.now marks.now) }
{
    let mut more = Vec::new(alloc);
    for chain in chains {
        more.push(stop_of(marks, chain).is_some())?;
    }
    Ok(more)
}

/// Which chains may drop packets of other base chains: one of their rules may, or leads to such a
/// chain, by at most 16 rules.
///
/// It takes a byte of memory for each chain, twice.
pub fn stopping_chains(alloc: Global, chains: &[NftChain]) -> Result<Vec<bool>, AllocError>
    ensures { IfOk result (λ marks. marks.items ≡ starts.stopping_chains chains.now) }
{
    let mut marks = spread(alloc, chains, &[])?;
    for _ in 0..MAX_LEADS {
        marks = spread(alloc, chains, &marks)?;
    }
    Ok(marks)
}

/// The place of the first base chain of a name from a place on.
fn start_from(chains: &[NftChain], name: &[u8], from: usize) -> Option<usize>
    requires { from ≤ length chains.now }
    ensures place { result ≡ starts.start_from name.now from chains.now }
    ensures within { IfSome result (λ place. place < length chains.now) }
{
    for place in from..chains.len() {
        if chains[place].is_start(name) {
            return Some(place);
        }
    }
    None
}

/// The place of the one base chain of a name, whatever its table.
fn only_start(chains: &[NftChain], name: &[u8]) -> Result<usize, StartFault>
    ensures start { result ≡ starts.only_start name.now chains.now }
    ensures within { IfOk result (λ place. place < length chains.now) }
{
    match start_from(chains, name, 0) {
        None => Err(StartFault::NoStart),
        Some(place) => match start_from(chains, name, place + 1) {
            Some(_) => Err(StartFault::ManyStarts),
            None => Ok(place),
        },
    }
}

/// Whether an interface is assumed that packets of a base chain don't have.
fn lacks_way(assumed: &[u8], base: Base, way: Way) -> bool
    ensures { result ≡ starts.lacks_way assumed.now base way }
{
    interface_of(assumed, way).is_some() && !base.hook.has_way(way)
}

/// Why a base chain can't be asked.
fn unasked(assumed: &[u8], base: Base) -> Option<StartFault>
    ensures { result ≡ starts.unasked assumed.now base }
{
    if base.kind.is_nat() {
        return Some(StartFault::NatStart);
    }
    if lacks_way(assumed, base, Way::In) || lacks_way(assumed, base, Way::Out) {
        return Some(StartFault::OtherInterface);
    }
    None
}

/// Whether a base chain is on the way of packets of another one.
fn is_beside(asked: Base, base: Option<Base>) -> bool
    ensures { result ≡ starts.is_beside asked base }
{
    match base {
        Some(base) => asked.hook.shares_a_way(base.hook),
        None => false,
    }
}

/// What drops in a base chain: its policy, or else a rule that may.
fn dropped_by(marks: &[bool], chain: &NftChain, base: Base) -> Option<u32>
    ensures { result ≡ starts.dropped_by marks.now chain.now base }
{
    if base.drops {
        return Some(chain.handle());
    }
    stop_of(marks, chain)
}

/// The same of a chain, if it is a base chain.
fn drop_of(marks: &[bool], chain: &NftChain) -> Option<u32>
    ensures { result ≡ starts.drop_of marks.now chain.now }
{
    dropped_by(marks, chain, chain.base()?)
}

/// Whether a chain is another base chain on the way that may drop.
fn drops_beside(marks: &[bool], asked: &NftChain, base: Base, chain: &NftChain) -> bool
    ensures { result ≡ starts.drops_beside marks.now asked.now base chain.now }
{
    !chain.is_same(asked) && is_beside(base, chain.base()) && drop_of(marks, chain).is_some()
}

/// The first one.
fn place_beside(marks: &[bool], asked: &NftChain, base: Base, chains: &[NftChain]) -> Option<usize>
    ensures place { result ≡ starts.place_beside marks.now asked.now base chains.now }
    ensures within { IfSome result (λ place. place < length chains.now) }
{
    for place in 0..chains.len() {
        if drops_beside(marks, asked, base, &chains[place]) {
            return Some(place);
        }
    }
    None
}

/// What drops there.
fn handle_beside(marks: &[bool], asked: &NftChain, base: Base, chains: &[NftChain]) -> Option<u32>
    ensures { result ≡ starts.handle_beside marks.now asked.now base chains.now }
{
    let place = place_beside(marks, asked, base, chains)?;
    drop_of(marks, &chains[place])
}

/// The place of the one base chain of a name, whatever its table. It is refused where another base
/// chain may drop its packets, before it or after it.
///
/// `stopping` are the chains that may drop, by [`stopping_chains`], and `assumed` is what was
/// assumed of packets where the ruleset was read. It takes no memory.
pub fn start_of(
    chains: &[NftChain],
    stopping: &[bool],
    assumed: &[u8],
    name: &[u8],
) -> Result<usize, StartFault>
    ensures start { result
        ≡ starts.start_with stopping.now assumed.now name.now chains.now }
    ensures within { IfOk result (λ place. place < length chains.now) }
{
    let place = only_start(chains, name)?;
    let asked = &chains[place];
    let Some(base) = asked.base() else {
        return Err(StartFault::NoStart);
    };
    if let Some(fault) = unasked(assumed, base) {
        return Err(fault);
    }
    match handle_beside(stopping, asked, base, chains) {
        Some(handle) => Err(StartFault::Beside(handle)),
        None => Ok(place),
    }
}
