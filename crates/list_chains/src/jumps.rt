//! Whether jumps come to an end, and the rule at which they don't.

ghost use Rattle.std.specs.Prelude.{◌≡◌, ◌<◌, [], length, map, false, true, IfOk};
ghost use Rattle.std.specs.List.{list_all};
ghost use Rattle.list_chains.specs.Chains.{at_or};
ghost use Rattle.list_chains.specs.Jumps.{bad_chain, bad_rule, ending, leads_well, led_to, shallow, way};

use crate::chain::{Chain, ChainRule, Target};
use crate::fault::{ChainsFault, RulePlace};
use std::alloc::{AllocError, Global};

/// For each chain whether jumps from it come to an end. It takes the memory of two marks a chain.
pub fn ending(alloc: Global, chains: &[Chain]) -> Result<Vec<bool>, AllocError>
    ensures { IfOk result (λ marks. marks.items ≡ ending chains.now) }
{
    shallow(alloc, chains, chains.len())
}

/// For each chain whether jumps from it lead through at most so many chains, itself counted, and
/// all of them are there. It takes the memory of two marks a chain.
///
/// A turn that marks no chain more is the last one: each turn after it would mark the same. So
/// there are hardly more turns than chains on the longest way.
pub(crate) fn shallow(
    alloc: Global,
    chains: &[Chain],
    depth: usize,
) -> Result<Vec<bool>, AllocError>
    ensures { IfOk result (λ marks. marks.items ≡ shallow depth chains.now) }
{
    let mut marks = Vec::new(alloc);
    for _ in 0..depth {
        let more = marked(alloc, chains, &marks)?;
        if are_same(&marks, &more) {
            return Ok(more);
        }
        marks = more;
    }
    Ok(marks)
}

/// Whether the marks of two turns are the same.
fn are_same(ones: &[bool], others: &[bool]) -> bool
    ensures { result ≡ true → ones.now ≡ others.now }
{
    ones == others
}

/// The chains from which each jump leads to a marked one, marked.
fn marked(alloc: Global, chains: &[Chain], marks: &[bool]) -> Result<Vec<bool>, AllocError>
    ensures { IfOk result (λ more. more.items ≡ map (list_all (leads_well marks.now)) chains.now) }
{
    let mut more = Vec::new(alloc);
    for chain in chains {
        more.push(all_lead_well(chain.rules(), marks))?;
    }
    Ok(more)
}

/// Whether each of some rules leads to no chain, or to a marked one.
fn all_lead_well(rules: &[ChainRule], marks: &[bool]) -> bool
    ensures { result ≡ list_all (leads_well marks.now) rules.now }
{
    rules.iter().all(|rule| leads_well(marks, rule))
}

/// Whether a rule leads to no chain, or to a marked one.
fn leads_well(marks: &[bool], rule: &ChainRule) -> bool
    ensures { result ≡ leads_well marks.now rule.now }
{
    match led_to(rule.target()) {
        Some(place) => is_marked(marks, place),
        None => true,
    }
}

/// The place of the chain that a target leads to. It takes no memory.
pub fn led_to(target: Target) -> Option<usize>
    ensures { result ≡ led_to target }
{
    match target {
        Target::Decide | Target::Return => None,
        Target::Jump(place) | Target::Go(place) => Some(place),
    }
}

/// Whether the chain of a place is there, and marked.
pub fn is_marked(marks: &[bool], place: usize) -> bool
    ensures { result ≡ at_or marks.now place false }
{
    place < marks.len() && marks[place]
}

/// The place of the first rule that leads to a chain without a mark, and the number of the rules if
/// there is none.
fn bad_rule(rules: &[ChainRule], marks: &[bool]) -> usize
    ensures { result ≡ bad_rule marks.now rules.now }
{
    for place in 0..rules.len() {
        if !leads_well(marks, &rules[place]) {
            return place;
        }
    }
    rules.len()
}

/// That place, and the chain that its rule leads to.
fn bad_step(rules: &[ChainRule], marks: &[bool]) -> (usize, Option<usize>)
    ensures rule { result.0 ≡ bad_rule marks.now rules.now }
    ensures chain { result.1 ≡ bad_chain marks.now rules.now }
{
    let place = bad_rule(rules, marks);
    match rules.get(place) {
        Some(rule) => (place, led_to(rule.target())),
        None => (place, None),
    }
}

/// The rules of a chain.
fn rules_of(chains: &[Chain], chain: usize) -> &[ChainRule]
    requires { chain < length chains.now }
    ensures { result.now ≡ at_or chains.now chain [] }
{
    chains[chain].rules()
}

/// The rule that the way from a chain comes to, by first rules that lead to chains without a mark.
pub fn way(chains: &[Chain], marks: &[bool], start: usize) -> ChainsFault
    requires { start < length chains.now }
    ensures { result ≡ way (length chains.now) chains.now marks.now start }
{
    let mut chain = start;
    for _ in 0..chains.len() {
        let (rule, next) = bad_step(rules_of(chains, chain), marks);
        match next {
            None => return ChainsFault::Loop(RulePlace { chain, rule }),
            Some(next) => {
                if next >= chains.len() {
                    return ChainsFault::NoChain(RulePlace { chain, rule });
                }
                chain = next;
            }
        }
    }
    let (rule, _) = bad_step(rules_of(chains, chain), marks);
    ChainsFault::Loop(RulePlace { chain, rule })
}
