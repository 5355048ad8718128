//! What a handle of a context leads to, and the calls on it.

ghost use Rattle.std.specs.Prelude.{◌≡◌, ℕ, ◌<◌, ◌≤◌, ◌⊎◌, [], ◌∷◌, ◌==◌, length, IfOk, IfSome};
ghost use Rattle.std.specs.Prelude.{true, false, Some, None, Err, MatchResult};
ghost use Rattle.rule_set.specs.Rule.{RuleSetView};
ghost use Rattle.covered_rules.specs.Covered.{uncovered_set};
ghost use Rattle.rule_split.specs.Split.{total_of};
ghost use Rattle.table_fill.specs.Serves.{Serves};
ghost use Rattle.flat_table.specs.Table.{TableView};
ghost use Rattle.table_sizes.specs.Sizes.{max_keys};
ghost use Rattle.flat_table.specs.Batch.{batch_verdicts, batch_transitions};
ghost use Rattle.acl_context.specs.Context.{built_of};
ghost use Rattle.acl_context.specs.Batch.{DecidesAs, verdicts_by_rules};
ghost use Rattle.acl_c.specs.Codes.{ok, no_memory, not_built, bad_budget, too_large, too_many_keys};
ghost use Rattle.acl_c.specs.Shared.{without_lanes};
ghost use Rattle.acl_c.specs.Calls.{is_budget, with_table, without_rules, without_all, words_in, is_among};
ghost use Rattle.acl_c.specs.Calls.{context_code, code_of, told_of, AddsStored, AddsGiven};
ghost use Rattle.acl_c.specs.Calls.{Builds, BuildsSmall};
ghost use Rattle.acl_c.specs.Keys.{ClassifiesKeys};
ghost use Rattle.acl_c.specs.Marks.{Marks};

use crate::batch::{ask, walk_keys};
use crate::codes::{
    BAD_BUDGET, BAD_LENGTH, FULL, NO_MEMORY, NOT_BUILT, OK, TOO_LARGE, TOO_MANY_KEYS, rule_code,
};
use crate::keys::{Key, classify_keys};
use crate::marks::mark;
use crate::rules::{Place, Tag, Value, are_whole, rules_from};
use crate::shared::Shared;
use acl_context::{AclContext, AddFault, BuildFault, Scratch};
use rule_set::StoredRule;
use std::alloc::{AllocError, Global};
use std::marker::Brand;
use std::sync::ledger::Blank;
use table_sizes::{MAX_KEYS, MAX_WORDS};

/// A context, and the rows of its walks by lanes.
#[derive(Drop)]
pub struct Context {
    pub acl: AclContext,
    pub lanes: Scratch,
}

impl Context {
    /// The context on the heap, with room for no keys by lanes.
    pub(crate) fn boxed(alloc: Global, acl: AclContext) -> Result<Box<Context>, AllocError>
        ensures { IfOk result (λ held. held.value ≡ record { acl = acl; lanes = [] }) }
    {
        let lanes = Scratch::new(alloc, 0)?;
        Ok(Box::new(alloc, Context { acl, lanes })?)
    }

    /// How many words the table has, and 0 where there is none.
    pub(crate) fn words(&self) -> u64
        ensures { result ≡ words_in self.now.acl.table }
    {
        match self.acl.table() {
            Some(table) => table.total_words(),
            None => 0,
        }
    }

    /// A copy of the table for a handle of its own, or the code of why there is none.
    pub(crate) fn copy_table(&self, alloc: Global) -> Result<Box<Shared, Global>, u32>
        ensures none { self.now.acl.table ≡ None → result ≡ Err not_built }
        ensures some { (table : TableView) → self.now.acl.table ≡ Some table →
            MatchResult result (λ copy. copy.value ≡ without_lanes table)
            (λ code. code ≡ no_memory) }
    {
        let table = match self.acl.table() {
            Some(table) => table,
            None => return Err(NOT_BUILT),
        };
        match Shared::copied(alloc, table) {
            Ok(copy) => Ok(copy),
            Err(AllocError) => Err(NO_MEMORY),
        }
    }

    /// Makes the table of the uncovered rules under a budget, or by 0 a small one, and tells its
    /// words, or those that it would need.
    pub(crate) fn build(&mut self, budget: u64, words: &mut u64) -> u32
        ensures given { 0 < budget →
            Builds budget self.old (Some self.new) words.old words.new result }
        ensures small { budget ≡ 0 →
            BuildsSmall self.old (Some self.new) words.old words.new result }
    {
        if budget == 0 {
            self.build_small(words)
        } else {
            self.build_within(budget, words)
        }
    }

    /// Makes a small table of the uncovered rules, and tells its words, or those that it would
    /// need.
    fn build_small(&mut self, words: &mut u64) -> u32
        ensures { BuildsSmall self.old (Some self.new) words.old words.new result }
    {
        match self.acl.build_small() {
            Ok(()) => {
                *words = self.words();
                OK
            }
            Err(BuildFault::TooLarge { words: more, .. }) => {
                *words = more;
                TOO_LARGE
            }
            Err(BuildFault::OutOfMemory) => NO_MEMORY,
        }
    }

    /// Makes the table of the uncovered rules under this budget, and tells its words, or those that
    /// it would need.
    fn build_within(&mut self, budget: u64, words: &mut u64) -> u32
        ensures built { result ≡ ok →
            self.new ≡ with_table self.old (built_of (uncovered_set self.old.acl.set) budget) }
        ensures serves { result ≡ ok → Serves (uncovered_set self.old.acl.set)
            (built_of (uncovered_set self.old.acl.set) budget) }
        ensures decides { result ≡ ok →
            DecidesAs (uncovered_set self.old.acl.set) self.old.acl.set }
        ensures fits { result ≡ ok → total_of (uncovered_set self.old.acl.set) budget ≤ budget }
        ensures words { result ≡ ok →
            words.new ≡ total_of (uncovered_set self.old.acl.set) budget }
        ensures large { result ≡ too_large →
            (words.new ≡ total_of (uncovered_set self.old.acl.set) budget)
            × (budget < words.new) }
        ensures other { is_among (ok ∷ too_large ∷ []) result ≡ false → words.new ≡ words.old }
        ensures kept { (result == ok) ≡ false → self.new ≡ self.old }
        ensures answer { is_budget budget ≡ true →
            is_among (ok ∷ no_memory ∷ too_large ∷ []) result ≡ true }
        ensures bad { is_budget budget ≡ false → result ≡ bad_budget }
    {
        if budget == 0 || budget > MAX_WORDS as u64 {
            return BAD_BUDGET;
        }
        match self.acl.build_uncovered(budget) {
            Ok(()) => {
                *words = self.words();
                OK
            }
            Err(BuildFault::TooLarge { words: needed, .. }) => {
                *words = needed;
                TOO_LARGE
            }
            Err(BuildFault::OutOfMemory) => NO_MEMORY,
        }
    }

    /// Removes all rules. The table stays.
    pub(crate) fn reset_rules(&mut self)
        ensures { self.new ≡ without_rules self.old }
    {
        self.acl.reset_rules();
    }

    /// Removes all rules and the table.
    pub(crate) fn reset(&mut self)
        ensures { self.new ≡ without_all self.old }
    {
        self.acl.reset();
    }

    /// Makes room for so many keys of a walk by lanes, in place of the room that was there.
    pub(crate) fn reserve(&mut self, alloc: Global, keys: u32) -> u32
        ensures many { max_keys < keys → result ≡ too_many_keys }
        ensures few { keys ≤ max_keys → (result ≡ ok) ⊎ (result ≡ no_memory) }
        ensures room { result ≡ ok → length self.new.lanes ≡ keys }
        ensures acl { self.new.acl ≡ self.old.acl }
        ensures kept { (result == ok) ≡ false → self.new ≡ self.old }
    {
        if keys as usize > MAX_KEYS {
            return TOO_MANY_KEYS;
        }
        match Scratch::new(alloc, keys as usize) {
            Ok(lanes) => {
                self.lanes = lanes;
                OK
            }
            Err(AllocError) => NO_MEMORY,
        }
    }

    /// Writes the verdicts of the keys of a batch, and tells the transitions.
    #[tactic(auto, using(crate::proofs::Lengths::fits))]
    pub(crate) fn classify(
        &mut self,
        keys: &[u8],
        categories: u32,
        walk: u32,
        verdicts: &mut [u32],
        transitions: &mut u64,
    ) -> u32
        ensures code { result ≡ context_code self.old (length keys.now) categories walk
            (length verdicts.old) }
        ensures verdicts { result ≡ ok → IfSome self.old.acl.table
            (λ table. verdicts.new ≡ batch_verdicts table categories keys.now) }
        ensures transitions { result ≡ ok → IfSome self.old.acl.table
            (λ table. transitions.new ≡ batch_transitions table keys.now) }
        ensures served { (set : RuleSetView) → result ≡ ok → IfSome self.old.acl.table
            (λ table. Serves set table →
            verdicts.new ≡ verdicts_by_rules set categories keys.now) }
        ensures kept { (result == ok) ≡ false →
            (verdicts.new ≡ verdicts.old) × (transitions.new ≡ transitions.old) }
        ensures acl { self.new.acl ≡ self.old.acl }
        ensures len { length self.new.lanes ≡ length self.old.lanes }
    {
        let key_len = match self.acl.table() {
            Some(table) => table.key_len(),
            None => return NOT_BUILT,
        };
        let room = self.lanes.room();
        let asked = match ask(key_len, room, keys.len(), categories, walk, verdicts.len()) {
            Ok(asked) => asked,
            Err(code) => return code,
        };
        let lanes = &mut self.lanes;
        *transitions = walk_keys::<Brand>(Blank::new(1), &self.acl, lanes, keys, asked, verdicts);
        OK
    }

    /// Writes the verdicts of keys that stand apart, and tells the transitions.
    pub(crate) fn classify_keys(
        &mut self,
        keys: &[Key],
        categories: u32,
        walk: u32,
        verdicts: &mut [u32],
        transitions: &mut u64,
    ) -> u32
        ensures is { ClassifiesKeys self.old.acl.table (length self.old.lanes) keys.now categories
            walk verdicts.old verdicts.new transitions.old transitions.new result }
        ensures acl { self.new.acl ≡ self.old.acl }
        ensures len { length self.new.lanes ≡ length self.old.lanes }
    {
        let lanes = &mut self.lanes;
        match self.acl.table() {
            Some(table) => {
                classify_keys(table, lanes, keys, categories, walk, verdicts, transitions)
            }
            None => NOT_BUILT,
        }
    }

    /// Marks the categories of keys that no rule of the table wins.
    pub(crate) fn mark(&self, keys: &[u8], categories: u32, marks: &mut [u8]) -> u32
        ensures { Marks self.now.acl.table keys.now categories marks.old marks.new result }
    {
        match self.acl.table() {
            Some(table) => mark(table, keys, categories, marks),
            None => NOT_BUILT,
        }
    }

    /// Adds stored rules, all or none, or tells the first that is refused.
    #[tactic(auto, using(crate::proofs::Adding::adds_stored))]
    fn add_stored(&mut self, given: &[StoredRule], told: &mut Place) -> u32
        ensures { AddsStored given.now self.old self.new told.old told.new result }
    {
        let answer = self.acl.add_stored(given);
        tell(answer, told)
    }

    /// Adds rules, all or none, or tells the first that is refused.
    #[tactic(auto, using(crate::proofs::Lengths::whole_product))]
    pub(crate) fn add(
        &mut self,
        alloc: Global,
        tags: &[Tag],
        values: &[Value],
        told: &mut Place,
    ) -> u32
        ensures { AddsGiven tags.now values.now self.old self.new told.old told.new result }
    {
        let defs = self.acl.rules().layout().fields();
        if !are_whole(defs, tags, values) {
            return BAD_LENGTH;
        }
        match rules_from(alloc, defs, tags, values) {
            Ok(given) => self.add_stored(&given, told),
            Err(AllocError) => NO_MEMORY,
        }
    }
}

/// The code of an answer to rules that are given. Where one is refused, its place and that of the
/// field are told.
fn tell(answer: Result<(), AddFault>, told: &mut Place) -> u32
    ensures code { result ≡ code_of answer }
    ensures told { told.new ≡ told_of told.old answer }
{
    match answer {
        Ok(()) => OK,
        Err(AddFault::Full) => FULL,
        Err(AddFault::RuleRefused(rule, fault)) => {
            let (code, field) = rule_code(fault);
            *told = Place { rule, field };
            code
        }
        Err(AddFault::OutOfMemory) => NO_MEMORY,
    }
}
