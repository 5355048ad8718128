//! Chains with a mark before the spans of each box: so the steps of `list_chains` carry it along.

ghost use Rattle.std.specs.Prelude.{◌≡◌, map, IfOk};
ghost use Rattle.chain_conditions.specs.Conditions.{conditions_of};
ghost use Rattle.chain_conditions.specs.Marked.{mark_of, marked, marked_rule};

use crate::conditional::{ConditionalBox, ConditionalChain, ConditionalRule};
use list_chains::{Chain, ChainRule, Span, SpanBox};
use std::alloc::{AllocError, Global};

/// The mark of a box: what two marks have in common is that of the conditions of both.
fn mark_of(condition: Option<u32>) -> Span
    ensures { result ≡ mark_of (conditions_of condition) }
{
    match condition {
        None => Span { low: 0, high: 255 },
        Some(_) => Span { low: 0, high: 0 },
    }
}

/// A box with its mark.
fn marked_box(alloc: Global, it: &ConditionalBox) -> Result<SpanBox, AllocError>
    ensures { IfOk result (λ spans. spans ≡ marked it.now) }
{
    let mut spans = Vec::new(alloc);
    spans.push(mark_of(it.condition()))?;
    spans.extend_from_slice(it.inside().spans())?;
    SpanBox::of(alloc, &spans)
}

/// Boxes with their marks.
fn marked_boxes(alloc: Global, boxes: &[ConditionalBox]) -> Result<Vec<SpanBox>, AllocError>
    ensures { IfOk result (λ all. all.items ≡ map marked boxes.now) }
{
    let mut all = Vec::new(alloc);
    for it in boxes {
        all.push(marked_box(alloc, it)?)?;
    }
    Ok(all)
}

/// A rule over boxes with marks.
fn marked_rule(alloc: Global, rule: &ConditionalRule) -> Result<ChainRule, AllocError>
    ensures { IfOk result (λ it. it ≡ marked_rule rule.now) }
{
    let inside = marked_box(alloc, rule.inside())?;
    let but = marked_boxes(alloc, rule.but())?;
    Ok(ChainRule::new(rule.userdata(), inside, but, rule.target()))
}

/// A chain over boxes with marks.
fn marked_chain(alloc: Global, chain: &ConditionalChain) -> Result<Chain, AllocError>
    ensures { IfOk result (λ it. it ≡ map marked_rule chain.now) }
{
    let mut rules = Vec::new(alloc);
    for rule in chain.rules() {
        rules.push(marked_rule(alloc, rule)?)?;
    }
    Ok(Chain::new(rules))
}

/// Chains over boxes with marks. They take the memory of a copy.
pub(crate) fn marked_chains(
    alloc: Global,
    chains: &[ConditionalChain],
) -> Result<Vec<Chain>, AllocError>
    ensures { IfOk result (λ all. all.items ≡ map (map marked_rule) chains.now) }
{
    let mut all = Vec::new(alloc);
    for chain in chains {
        all.push(marked_chain(alloc, chain)?)?;
    }
    Ok(all)
}
