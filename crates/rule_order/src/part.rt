//! The longest part of the rules that are left, under a cap on its words.

ghost use Rattle.std.specs.Prelude.{◌<◌, ◌≤◌, length, IfOk, IfSome};
ghost use Rattle.table_sizes.specs.Sizes.{max_words};
ghost use Rattle.rule_order.specs.Cut.{AreFirst, AreLeft, IsFirst};

use rule_set::RuleSet;
use std::alloc::{AllocError, Global};
use trie_merge::{Levels, MergeFault};

/// How often what may be the longest part is halved: a list is up to 32 steps long.
const HALVINGS: usize = 5;

/// The first so many places of those that are left, ascending: at least one of them, and at most
/// all.
fn first_places(alloc: Global, left: &[u32], len: usize) -> Result<Vec<u32>, AllocError>
    requires { 0 < length left.now }
    ensures { IfOk result (λ places. AreFirst left.now places.items) }
{
    let (first, _) = left.split_at(len.max(1).min(left.len()));
    let mut places = Vec::from_slice(alloc, first)?;
    places.sort_unstable();
    Ok(places)
}

/// The merged states of the first so many rules of those that are left, if their words are within
/// the cap.
fn first_part(
    alloc: Global,
    rules: &RuleSet,
    left: &[u32],
    len: usize,
    cap: u64,
) -> Result<Option<Levels>, AllocError>
    requires left { AreLeft rules.now left.now }
    requires some { 0 < length left.now }
    requires cap { cap ≤ max_words }
    ensures { IfOk result (λ found. IfSome found (IsFirst rules.now left.now cap)) }
{
    let group = first_places(alloc, left, len)?;
    match Levels::build(alloc, rules, group.as_slice(), cap) {
        Ok(levels) => Ok(Some(levels)),
        Err(MergeFault::OverCap) => Ok(None),
        Err(MergeFault::OutOfMemory) => Err(AllocError),
    }
}

/// What is known of the longest part within a cap: so many steps fit, and so many don't.
#[derive(Drop)]
struct Longest {
    part: Option<Levels>,
    fits: usize,
    over: usize,
}

impl Longest {
    ghost use Rattle.std.specs.Prelude.{◌<◌, ◌≤◌, length, IfSome, OnOk};
    ghost use Rattle.table_sizes.specs.Sizes.{max_words};
    ghost use Rattle.rule_order.specs.Cut.{AreLeft, IsFirst};

    /// Tries the number of steps in the middle.
    fn halve(
        &mut self,
        alloc: Global,
        rules: &RuleSet,
        left: &[u32],
        step: usize,
        cap: u64,
    ) -> Result<(), AllocError>
        requires left { AreLeft rules.now left.now }
        requires some { 0 < length left.now }
        requires cap { cap ≤ max_words }
        requires part { IfSome self.old.part (IsFirst rules.now left.now cap) }
        ensures { OnOk result (IfSome self.new.part (IsFirst rules.now left.now cap)) }
    {
        let middle = self.fits.midpoint(self.over);
        if middle == self.fits {
            return Ok(());
        }
        match first_part(alloc, rules, left, middle.saturating_mul(step), cap)? {
            Some(part) => {
                self.part = Some(part);
                self.fits = middle;
            }
            None => self.over = middle,
        }
        Ok(())
    }
}

/// The merged states of the longest part of the rules that are left whose words are within the cap:
/// of all of them, or of so many steps, or none if one step has more words.
pub(crate) fn longest_part(
    alloc: Global,
    rules: &RuleSet,
    left: &[u32],
    step: usize,
    cap: u64,
) -> Result<Option<Levels>, AllocError>
    requires left { AreLeft rules.now left.now }
    requires some { 0 < length left.now }
    requires cap { cap ≤ max_words }
    ensures { IfOk result (λ found. IfSome found (IsFirst rules.now left.now cap)) }
{
    let all = first_part(alloc, rules, left, left.len(), cap)?;
    if all.is_some() {
        return Ok(all);
    }
    let mut longest = Longest {
        part: None,
        fits: 0,
        over: left.len().div_ceil(step.max(1)),
    };
    for _ in 0..HALVINGS {
        longest.halve(alloc, rules, left, step, cap)?;
    }
    Ok(longest.part)
}
