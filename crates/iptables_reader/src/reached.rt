//! The lines that packets of a chain may come to: of those the first that no rule file says.

ghost use Rattle.std.specs.Prelude.{◌≡◌, length, map, IfOk, None};
ghost use Rattle.std.specs.List.{list_all};
ghost use Rattle.list_chains.specs.Chains.{at_or};
ghost use Rattle.iptables_reader.specs.Reached.{chain_unsaid, earlier, is_said, line_led_to};
ghost use Rattle.iptables_reader.specs.Reached.{unsaid_from, unsaid_within};

use crate::chain::{SavedChain, place_of};
use crate::fault::LineFault;
use list_chains::led_to;
use std::alloc::{AllocError, Global};

/// The first line that no rule file says, of the chain of a name and those that jumps lead to from
/// it. It takes the memory of two marks a chain.
pub(crate) fn unsaid_from(
    alloc: Global,
    chains: &[SavedChain],
    name: &[u8],
) -> Result<Option<LineFault>, AllocError>
    ensures { IfOk result (λ line. line ≡ unsaid_from name.now chains.now) }
{
    if are_said(chains) {
        return Ok(None);
    }
    match place_of(chains, name, false) {
        Some(place) => {
            let lines = unsaid_lines(alloc, chains)?;
            Ok(line_at(&lines, place))
        }
        None => Ok(None),
    }
}

/// Whether no chain has a line that no rule file says.
fn are_said(chains: &[SavedChain]) -> bool
    ensures { result ≡ list_all is_said chains.now }
{
    chains.iter().all(|chain| is_said(chain))
}

/// Whether a chain has no such line.
fn is_said(chain: &SavedChain) -> bool
    ensures { result ≡ is_said chain.now }
{
    chain.unsaid().is_none()
}

/// For each chain the first line that no rule file says, of itself and those that jumps lead to.
fn unsaid_lines(alloc: Global, chains: &[SavedChain]) -> Result<Vec<Option<LineFault>>, AllocError>
    ensures { IfOk result (λ lines. lines.items ≡ unsaid_within (length chains.now) chains.now) }
{
    let mut lines = Vec::new(alloc);
    for _ in 0..chains.len() {
        lines = with_led_to(alloc, chains, &lines)?;
    }
    Ok(lines)
}

/// The same where jumps lead through one chain more.
fn with_led_to(
    alloc: Global,
    chains: &[SavedChain],
    lines: &[Option<LineFault>],
) -> Result<Vec<Option<LineFault>>, AllocError>
    ensures { IfOk result (λ more. more.items ≡ map (chain_unsaid lines.now) chains.now) }
{
    let mut more = Vec::new(alloc);
    for chain in chains {
        more.push(chain_unsaid(lines, chain))?;
    }
    Ok(more)
}

/// The earliest line of a chain and of those that its rules lead to.
fn chain_unsaid(lines: &[Option<LineFault>], chain: &SavedChain) -> Option<LineFault>
    ensures { result ≡ chain_unsaid lines.now chain.now }
{
    let mut line = chain.unsaid();
    let rules = chain.rules();
    for place in 0..rules.len() {
        line = earlier(line, line_led_to(lines, led_to(rules[place].target())));
    }
    line
}

/// The line of the chain that is led to.
fn line_led_to(lines: &[Option<LineFault>], led: Option<usize>) -> Option<LineFault>
    ensures { result ≡ line_led_to lines.now led }
{
    match led {
        Some(place) => line_at(lines, place),
        None => None,
    }
}

/// The line of the chain of a place.
fn line_at(lines: &[Option<LineFault>], place: usize) -> Option<LineFault>
    ensures { result ≡ at_or lines.now place None }
{
    if place < lines.len() {
        lines[place]
    } else {
        None
    }
}

/// The earlier of two lines, or the one that is there.
fn earlier(one: Option<LineFault>, other: Option<LineFault>) -> Option<LineFault>
    ensures { result ≡ earlier one other }
{
    match (one, other) {
        (Some(first), Some(second)) => {
            if first.line <= second.line {
                one
            } else {
                other
            }
        }
        (Some(_), None) => one,
        (None, _) => other,
    }
}
