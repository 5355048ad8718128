//! Rules of one layout, and the table of the last build.

ghost use Rattle.std.specs.Prelude.{◌≡◌, ◌↔◌, ℕ, ◌+◌, ◌<◌, ◌≤◌, [], drop, length, map};
ghost use Rattle.std.specs.Prelude.{Some, None, Ok, Err, IfOk, IfSome, IsErr, IsSome, OnOk, OnErr};
ghost use Rattle.std.specs.Prelude.{option_copied};
ghost use Rattle.field_defs.specs.Layout.{key_len_of, max_fields};
ghost use Rattle.rule_set.specs.Rule.{RuleSetView};
ghost use Rattle.table_sizes.specs.Sizes.{max_rules as most_rules, max_words};
ghost use Rattle.rule_split.specs.Split.{total_of};
ghost use Rattle.flat_table.specs.Batch.{KeysFit, batch_verdicts, batch_transitions};
ghost use Rattle.flat_table.specs.Batch.{keys_of_len, most_of_batch};
ghost use Rattle.flat_table.specs.Table.{words_of};
ghost use Rattle.table_fill.specs.Serves.{Serves};
ghost use Rattle.covered_rules.specs.Covered.{uncovered_set};
ghost use Rattle.acl_context.specs.Context.{built_of, rule_view, with_rules, HoldsAll};
ghost use Rattle.acl_context.specs.Add.{Adds};
ghost use Rattle.acl_context.specs.Batch.{DecidesAs, verdicts_by_rules};

use crate::add::{AddFault, Given, check_all, push_all};
use crate::build::{
    BuildFault, make_small_uncovered, make_table, make_uncovered, uncovered_decide,
};
use batch_walk::classify_by;
use field_defs::Layout;
use flat_table::{Steps, Table, Walk};
use flow_core::Scratch;
use rule_set::{Categories, Rule, RuleSet, StoredRule};
use std::alloc::{AllocError, Global};
use std::marker::Model;
use std::sync::ledger::Ledger;
use thiserror::Error;

/// No build succeeded since the context was made or reset.
#[derive(Clone, Copy, Debug, PartialEq, Eq, Error)]
#[error("no table was built")]
pub struct NotBuilt;

/// Rules of one layout, and the table that was made of those that were held at the last build that
/// succeeded.
///
/// Contracts see the rules, how many there may be, and the table. A call that is refused leaves all
/// three as they were. Source: DPDK Programmer's Guide, "Packet Classification and Access Control";
/// the calls are those on a `rte_acl_ctx` of `rte_acl.h`.
pub struct AclContext {
    /// What takes the memory of rules and tables.
    alloc: Global,
    rules: RuleSet,
    max_rules: u32,
    /// None where no build succeeded since the context was made or reset.
    table: Option<Table>,
}

/// It is written out so that letting go is one call, here and in the crates above.
impl Drop for AclContext {
    fn drop(self) {
        let AclContext {
            alloc: _,
            rules: _,
            max_rules: _,
            table: _,
        } = self;
    }
}

impl Model for AclContext {
    ghost use Rattle.acl_context.specs.Context.{ContextView, IsContext};

    ghost Value = { ContextView };

    ghost view = { λ c. record { set = c.rules; max_rules = c.max_rules; table = c.table } };

    ghost invariant = { λ c. IsContext
        (record { set = c.rules; max_rules = c.max_rules; table = c.table }) };
}

impl AclContext {
    /// A context without rules and without a table. It takes no memory.
    ///
    /// It may hold up to `max_rules` rules, which is at most 262,144.
    pub fn create(alloc: Global, layout: Layout, max_rules: u32) -> Self
        requires { max_rules ≤ most_rules }
        ensures { result ≡ record {
          set = record { layout = layout; rules = [] };
          max_rules = max_rules;
          table = None;
        } }
    {
        AclContext::holding(alloc, RuleSet::new(alloc, layout), max_rules)
    }

    /// A context that holds the rules of the set, as they stand, and no table.
    ///
    /// It takes the set itself: no rule is checked or copied again. It may hold up to `max_rules`
    /// rules, which is at most 262,144 and no less than the set has. It refuses nothing and takes
    /// no memory.
    pub fn holding(alloc: Global, set: RuleSet, max_rules: u32) -> Self
        requires few { length set.rules ≤ max_rules }
        requires limit { max_rules ≤ most_rules }
        ensures { result ≡ record { set = set; max_rules = max_rules; table = None } }
    {
        AclContext {
            alloc,
            rules: set,
            max_rules,
            table: None,
        }
    }

    /// Adds the rules after those that are held, all or none. The table stays.
    ///
    /// `Full` comes first, then the first rule that [`rule_set::check_rule`] refuses. They take
    /// memory only where neither comes.
    pub fn add_rules<const N: usize>(&mut self, rules: &[Rule<N>]) -> Result<(), AddFault>
        requires { N ≤ max_fields }
        ensures { Adds (map rule_view rules.now) self.old self.new result }
    {
        self.add(rules)
    }

    /// The same of rules that are stored.
    pub fn add_stored(&mut self, rules: &[StoredRule]) -> Result<(), AddFault>
        ensures { Adds rules.now self.old self.new result }
    {
        self.add(rules)
    }

    /// Makes the table of the rules that are held, and puts it in the place of the one before.
    ///
    /// The budget is from 1 to [`table_sizes::MAX_WORDS`] words. `TooLarge` comes exactly where
    /// [`rule_split::plan`] ends above the budget, unless memory ran out before. After a refusal
    /// the table of the build before is still there. It takes memory for the merged states, which
    /// it gives back, and for the table.
    pub fn build(&mut self, budget: u64) -> Result<(), BuildFault>
        requires some { 0 < budget }
        requires budget { budget ≤ max_words }
        ensures table { OnOk result
            (self.new ≡ record self.old { table = Some (built_of self.old.set budget) }) }
        // The new table answers for each key and category as the rules that are held.
        ensures serves { OnOk result (Serves self.old.set (built_of self.old.set budget)) }
        ensures fits { OnOk result (total_of self.old.set budget ≤ budget) }
        // The words of the new table are the total at which the split ends.
        ensures words { OnOk result
            (words_of (built_of self.old.set budget) ≡ total_of self.old.set budget) }
        ensures too_large { (words most : ℕ) → result ≡ Err (BuildFault.TooLarge words most) →
            (words ≡ total_of self.old.set budget) × (most ≡ budget) × (budget < words) }
        ensures err { OnErr result (self.new ≡ self.old) }
    {
        match make_table(self.alloc, &self.rules, budget) {
            Ok(table) => {
                self.table = Some(table);
                Ok(())
            }
            Err(fault) => Err(fault),
        }
    }

    /// Makes the table of the rules that no wide rule before them covers, in place of that of all.
    ///
    /// Its verdicts are those of all rules that are held, and most often it has fewer words. A rule
    /// is covered if one of greater rank has its categories and lets through all that it does.
    /// Budget, faults and memory are those of [`AclContext::build`], with the uncovered rules for
    /// all, and it takes memory for copies of these rules, which it gives back.
    pub fn build_uncovered(&mut self, budget: u64) -> Result<(), BuildFault>
        requires some { 0 < budget }
        requires budget { budget ≤ max_words }
        ensures table { OnOk result (self.new ≡ record self.old {
          table = Some (built_of (uncovered_set self.old.set) budget);
        }) }
        // The new table answers for each key and category as the uncovered rules do.
        ensures serves { OnOk result (Serves (uncovered_set self.old.set)
            (built_of (uncovered_set self.old.set) budget)) }
        // And these decide as all rules that are held.
        ensures decides { DecidesAs (uncovered_set self.old.set) self.old.set }
        ensures fits { OnOk result (total_of (uncovered_set self.old.set) budget ≤ budget) }
        ensures words { OnOk result (words_of (built_of (uncovered_set self.old.set) budget)
            ≡ total_of (uncovered_set self.old.set) budget) }
        ensures too_large { (words most : ℕ) → result ≡ Err (BuildFault.TooLarge words most) →
            (words ≡ total_of (uncovered_set self.old.set) budget) × (most ≡ budget)
            × (budget < words) }
        ensures err { OnErr result (self.new ≡ self.old) }
    {
        uncovered_decide(&self.rules);
        self.table = Some(make_uncovered(self.alloc, &self.rules, budget)?);
        Ok(())
    }

    /// Makes a table with few words of the rules that no wide rule before them covers.
    ///
    /// Its verdicts are those of all rules that are held. No budget is given: groups of rules are
    /// looked for that need few words and little time ([`rule_order::order_and_cut`]). `TooLarge`
    /// comes only where none are found, and [`AclContext::build_uncovered`] refuses the greatest
    /// budget. Other faults and memory are those of that call.
    pub fn build_small(&mut self) -> Result<(), BuildFault>
        ensures built { OnOk result (IsSome self.new.table) }
        // The new table answers for each key and category as the uncovered rules do.
        ensures table { OnOk result
            (IfSome self.new.table (HoldsAll (uncovered_set self.old.set))) }
        // And these decide as all rules that are held.
        ensures decides { DecidesAs (uncovered_set self.old.set) self.old.set }
        ensures others { OnOk result (self.new ≡ record self.old { table = self.new.table }) }
        ensures too_large { (words most : ℕ) → result ≡ Err (BuildFault.TooLarge words most) →
            (words ≡ total_of (uncovered_set self.old.set) max_words) × (most ≡ max_words)
            × (max_words < words) }
        ensures err { OnErr result (self.new ≡ self.old) }
    {
        uncovered_decide(&self.rules);
        self.table = Some(make_small_uncovered(self.alloc, &self.rules)?);
        Ok(())
    }

    /// Writes the verdicts of the keys of a batch by the table, and says how many transitions their
    /// walks took.
    ///
    /// `keys` has the bytes of at most 65,536 keys of the layout, one after the other, and `out`
    /// has room for the verdicts of each: the categories from 0 on of the first key, then those of
    /// the second. A verdict is the userdata of the winner, or 0 where no rule wins. Both walks
    /// give the same answer. [`Walk::Lanes`] is of eight lanes and needs a row of the scratch for
    /// each key; it leaves all other rows as they are. [`Walk::Scalar`] leaves the whole scratch as
    /// it is. On `NotBuilt` nothing is written and no transition counted. It takes no memory.
    pub fn classify<L: Ledger>(
        &self,
        keys: &[u8],
        cats: Categories,
        walk: Walk,
        scratch: &mut Scratch,
        out: &mut [u32],
        steps: &mut Steps<L>,
    ) -> Result<u64, NotBuilt>
        requires fits { KeysFit (key_len_of self.now.set.layout) keys.now cats.count
            (length out.old) }
        requires room { walk ≡ Walk.Lanes →
            keys_of_len (key_len_of self.now.set.layout) keys.now ≤ length scratch.old }
        ensures not_built { IsErr result ↔ (self.now.table ≡ None) }
        ensures idle { OnErr result ((out.new ≡ out.old) × (scratch.new ≡ scratch.old)
            × (steps.new ≡ steps.old)) }
        ensures verdicts { IfSome self.now.table
            (λ table. out.new ≡ batch_verdicts table cats.count keys.now) }
        ensures taken { IfSome self.now.table
            (λ table. result ≡ Ok (batch_transitions table keys.now)) }
        ensures bound { IfSome self.now.table (λ table. IfOk result
            (λ taken. taken ≤ most_of_batch table keys.now)) }
        ensures steps { IfSome self.now.table
            (λ table. steps.new ≡ steps.old + batch_transitions table keys.now) }
        // They are those of the rules, where the table answers as some rules do.
        ensures served { (set : RuleSetView) → IfSome self.now.table (λ table. Serves set table →
            out.new ≡ verdicts_by_rules set cats.count keys.now) }
        ensures scalar { walk ≡ Walk.Scalar → scratch.new ≡ scratch.old }
        ensures others { drop (keys_of_len (key_len_of self.now.set.layout) keys.now) scratch.new
            ≡ drop (keys_of_len (key_len_of self.now.set.layout) keys.now) scratch.old }
        ensures len { length scratch.new ≡ length scratch.old }
    {
        match &self.table {
            Some(table) => Ok(classify_by(walk, table, keys, cats, scratch, out, steps)),
            None => Err(NotBuilt),
        }
    }

    /// Removes all rules. The table stays, and with it the verdicts. It takes no memory.
    pub fn reset_rules(&mut self)
        ensures { self.new ≡ with_rules self.old [] }
    {
        self.rules = self.rules.new_of_same_layout(self.alloc);
    }

    /// Removes all rules and the table. It takes no memory.
    pub fn reset(&mut self)
        ensures { self.new ≡ record (with_rules self.old []) { table = None } }
    {
        self.reset_rules();
        self.table = None;
    }

    /// The rules, in the order in which they were added.
    pub fn rules(&self) -> &RuleSet
        ensures { result.now ≡ self.now.set }
    {
        &self.rules
    }

    /// The table of the last build that succeeded since the context was made or reset, if there is
    /// one. Its keys are those of the layout.
    pub fn table(&self) -> Option<&Table>
        ensures table { option_copied result ≡ self.now.table }
        ensures keys { IfSome result (λ table.
            table.now.key_len ≡ key_len_of self.now.set.layout) }
    {
        self.table.as_ref()
    }

    /// How many rules may still be added.
    fn room(&self) -> usize
        ensures { length self.now.set.rules + result ≡ self.now.max_rules }
    {
        self.max_rules as usize - self.rules.len()
    }

    /// Adds rules in any form.
    fn add<R: Given>(&mut self, rules: &[R]) -> Result<(), AddFault>
        ensures { Adds (map R.view rules.now) self.old self.new result }
    {
        if rules.len() > self.room() {
            return Err(AddFault::Full);
        }
        check_all(self.rules.layout(), rules)?;
        match push_all(self.alloc, &mut self.rules, rules) {
            Ok(()) => Ok(()),
            Err(AllocError) => Err(AddFault::OutOfMemory),
        }
    }
}
