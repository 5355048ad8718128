//! The caps that are tried, and which cut is taken.

ghost use Rattle.std.specs.Prelude.{◌≤◌, IfOk, IfSome};
ghost use Rattle.table_sizes.specs.Sizes.{max_words};
ghost use Rattle.rule_order.specs.Cut.{HoldAll, IsOrder};

use crate::cut::{Cut, cut_once, cut_under};
use crate::order::order_rules;
use rule_set::RuleSet;
use std::alloc::{AllocError, Global};
use table_sizes::MAX_WORDS;
use trie_merge::Levels;

/// How many words a rule one trie of all rules may have, to be taken without a look at others: it
/// takes less time than two tries of half as many.
const WORDS_OF_ONE: u64 = 600;

/// How many words a rule several tries may have, if any have so few. librte_acl takes about as
/// many.
const WORDS_OF_SEVERAL: u64 = 450;

/// What tables of few rules may have in any case, in one trie and in several.
const LEAST_OF_ONE: u64 = 131_072;

const LEAST_OF_SEVERAL: u64 = 65_536;

/// How many caps are tried at most: from the least first one, 8,192, to the greatest.
const CAPS: usize = 14;

/// The greatest number of words for so many rules.
fn words_for(rules: usize, each: u64, least: u64) -> u64
    ensures { result ≤ max_words }
{
    (rules as u64)
        .saturating_mul(each)
        .max(least)
        .min(MAX_WORDS as u64)
}

/// The cut of least cost so far.
#[derive(Drop)]
struct Search {
    best: Option<Cut>,
    /// How many words a cut may have to be better than the first.
    most: u64,
}

impl Search {
    ghost use Rattle.std.specs.Prelude.{◌≤◌, IfSome, OnOk};
    ghost use Rattle.table_sizes.specs.Sizes.{max_words};
    ghost use Rattle.rule_set.specs.Rule.{RuleSetView};
    ghost use Rattle.rule_order.specs.Cut.{HoldAll, IsOrder};

    /// Whether the cut is better than the best so far.
    fn is_better(&self, cut: &Cut) -> bool {
        match &self.best {
            Some(best) => cut.total <= self.most && cut.cost() < best.cost(),
            None => true,
        }
    }

    /// Looks at a cut under the next cap.
    fn look_at(&mut self, cut: Cut)
        ensures { (set : RuleSetView) → HoldAll set cut.levels.items →
            IfSome self.old.best (λ best. HoldAll set best.levels.items) →
            IfSome self.new.best (λ best. HoldAll set best.levels.items) }
    {
        if self.is_better(&cut) {
            self.best = Some(cut);
        }
    }

    /// Whether further caps can't give a better cut than this one.
    fn is_last(&self, cut: &Cut) -> bool {
        cut.levels.len() <= 1 || cut.total > self.most
    }

    /// Looks at the cut under the cap, and says whether to go on.
    fn try_cap(
        &mut self,
        alloc: Global,
        rules: &RuleSet,
        order: &[u32],
        cap: u64,
    ) -> Result<bool, AllocError>
        requires order { IsOrder rules.now order.now }
        requires cap { cap ≤ max_words }
        requires best { IfSome self.old.best (λ best. HoldAll rules.now best.levels.items) }
        ensures { OnOk result (IfSome self.new.best
            (λ best. HoldAll rules.now best.levels.items)) }
    {
        match cut_under(alloc, rules, order, cap)? {
            Some(cut) => {
                let goes_on = !self.is_last(&cut);
                self.look_at(cut);
                Ok(goes_on)
            }
            None => Ok(true),
        }
    }
}

/// The cut of least cost under some caps.
fn best_cut(alloc: Global, rules: &RuleSet, order: &[u32]) -> Result<Option<Cut>, AllocError>
    requires { IsOrder rules.now order.now }
    ensures { IfOk result (λ found. IfSome found (λ cut. HoldAll rules.now cut.levels.items)) }
{
    let most = words_for(order.len(), WORDS_OF_SEVERAL, LEAST_OF_SEVERAL);
    let mut search = Search { best: None, most };
    let mut cap = most / 8;
    for _ in 0..CAPS {
        if !search.try_cap(alloc, rules, order, cap)? {
            break;
        }
        cap = cap.saturating_mul(2).min(MAX_WORDS as u64);
    }
    Ok(search.best)
}

/// The merged states of at most eight groups that hold each rule of the set once, with their words
/// and one row within [`table_sizes::MAX_WORDS`], or none if no such groups were found.
///
/// It takes memory for the merged states of two cuts at a time, and the only fault is want of it.
/// A table of them decides as all rules do, whatever the groups are.
///
/// Source: DPDK's `lib/acl`, `acl_bld.c`, orders rules by how wild they are before it builds tries;
/// order, caps and costs are ours.
pub fn order_and_cut(alloc: Global, rules: &RuleSet) -> Result<Option<Vec<Levels>>, AllocError>
    ensures { IfOk result (λ found. IfSome found (λ levels. HoldAll rules.now levels.items)) }
{
    let places = order_rules(alloc, rules)?;
    let order = places.as_slice();
    let cap = words_for(order.len(), WORDS_OF_ONE, LEAST_OF_ONE);
    let found = match cut_once(alloc, rules, order, cap)? {
        Some(cut) => Some(cut),
        None => best_cut(alloc, rules, order)?,
    };
    match found {
        Some(cut) => Ok(Some(cut.levels)),
        None => Ok(None),
    }
}
