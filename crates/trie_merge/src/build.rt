//! From the rules of a group to its merged states.
//!
//! [`Levels::build`] takes four steps:
//!
//! 1. `keep` finds the places of the key that are kept.
//! 2. `start` makes the state before the first byte.
//! 3. `merge_places` merges the states of each place, `merge_place` after `merge_place`, and once
//!    looks ahead by `probe_places`.
//! 4. `finish` reads the rows, and adds their words.
//!
//! What a call asks for, and what it gives, is one record each: of `specs/Places.antt` for a place,
//! of `specs/Gathered.antt` for all of them.

ghost use Rattle.std.specs.Prelude.{◌≡◌, ℕ, ◌<◌, ◌≤◌, ◌^◌, ◌+◌, []};
ghost use Rattle.std.specs.Prelude.{map, length, min, All, OnOk, IfOk};
ghost use Rattle.node_expand.specs.declared.edge.Edge.TheVariants.{Free};
ghost use Rattle.table_sizes.specs.Sizes.{max_words};
ghost use Rattle.group_states.specs.Entry.{entry_of};
ghost use Rattle.group_states.specs.Kept.{kept_places, kept_bits};
ghost use Rattle.group_states.specs.Laws.{IsGrouped};
ghost use Rattle.group_states.specs.Levels.{IsGroup, levels_of};
ghost use Rattle.group_states.specs.Row.{rows_of};
ghost use Rattle.trie_merge.specs.Gathered.{CanMergeGroup, GathersGroup, IsBegun};
ghost use Rattle.trie_merge.specs.Probed.{IsProbed};
ghost use Rattle.trie_merge.specs.Started.{numbers_in, AreJoined, IsStarted, AreRows};
ghost use Rattle.trie_merge.specs.declared.order.Keyed.{Keyed};

use crate::column::Column;
use crate::entry::entry_of;
use crate::found::Found;
use crate::kept::Kept;
use crate::levels::{Level, Levels};
use crate::merge::{Budget, MergeFault, Merged, Reached};
use crate::names::{name_rows, names_of};
use crate::order::{Keyed, order_rules};
use crate::place::merge_place;
use crate::probe::probe_places;
use node_expand::Edge;
use rule_set::RuleSet;
use state_parts::{Parts, Target};
use std::alloc::{AllocError, Global};
use table_sizes::ROW_LEN;

/// From how many states of one place on a group is probed.
const PROBED_FROM: usize = 300_000;

/// How many states of each place are merged at most when a group is probed. With fewer of them a
/// group above its cap isn't told from one below it.
const PROBED_STATES: usize = 131_072;

/// The entries of the rules before the first byte.
fn start_entries(alloc: Global, order: &[Keyed]) -> Result<Vec<u32>, AllocError>
    requires { All (λ (keyed : Keyed). keyed.number < 2 ^ 30) order.now }
    ensures { IfOk result (λ entries. entries.items
        ≡ map (λ number. entry_of number Free) (numbers_in order.now)) }
{
    let mut entries = Vec::with_capacity(alloc, order.len())?;
    for keyed in order {
        entries.push(entry_of(keyed.number, Edge::Free))?;
    }
    Ok(entries)
}

/// Joins the entries of the rules before the first byte, and gives their number.
fn join_entries(alloc: Global, order: &[Keyed], target: &mut Target) -> Result<u32, AllocError>
    requires some { 0 < length order.now }
    requires few { All (λ (keyed : Keyed). keyed.number < 2 ^ 30) order.now }
    requires none { target.old ≡ Target.Parts [] }
    ensures { IfOk result (λ number. AreJoined (numbers_in order.now) target.new number) }
{
    let entries = start_entries(alloc, order)?;
    match target {
        Target::Parts(parts) => {
            let number = parts.join_all(entries.as_slice())?;
            Ok(number)
        }
        Target::Rows(_) => unreachable!(),
    }
}

/// The one state before the first byte.
fn start_states(alloc: Global, order: &[Keyed]) -> Result<Reached, AllocError>
    requires some { 0 < length order.now }
    requires few { All (λ (keyed : Keyed). keyed.number < 2 ^ 30) order.now }
    ensures { IfOk result
        (λ reached. IsStarted (numbers_in order.now) reached.target reached.found.keys) }
{
    let mut reached = Reached {
        target: Target::Parts(Parts::with_room(alloc, 2 * order.len())?),
        found: Found::new(alloc),
    };
    let number = join_entries(alloc, order, &mut reached.target)?;
    reached.found.put(number)?;
    Ok(reached)
}

/// What the kept places come to: the runs of their states, the rows at the end and the words of the
/// states.
#[derive(Drop)]
struct Gathered {
    levels: Vec<Level>,
    reached: Reached,
    words: u64,
    /// What the next place has of each rule, where that was looked up already.
    ahead: Option<Column>,
    /// Whether the group was probed.
    is_probed: bool,
}

impl Gathered {
    ghost use Rattle.std.specs.Prelude.{◌≡◌, OnOk};
    ghost use Rattle.trie_merge.specs.Gathered.{TakesIn};
    ghost use Rattle.trie_merge.specs.Merged.{ArePieces};

    /// Goes on to what the states of one more place come to.
    fn push(&mut self, merged: Merged) -> Result<(), AllocError>
        requires { ArePieces merged }
        ensures { OnOk result (TakesIn merged self.old self.new) }
    {
        self.reached = merged.reached;
        self.words = merged.words;
        self.levels.push(Level::new(merged.pieces))?;
        Ok(())
    }

    /// The runs of the states of the places.
    fn into_levels(self) -> Vec<Level>
        ensures { result.items ≡ self.levels.items }
    {
        self.levels
    }
}

/// Probes the states that are found before the kept place of that number, where they are very many
/// and none were probed before. Says whether any are probed now.
fn probe_once(
    alloc: Global,
    rules: &RuleSet,
    group: &[u32],
    cap: u64,
    places: &[usize],
    from: usize,
    gathered: &Gathered,
) -> Result<bool, MergeFault>
    requires can { CanMergeGroup rules.now group.now cap places.now }
    requires probed { from + 2 < length places.now → IsProbed rules.now group.now cap places.now
        from gathered.now.reached.target gathered.now.reached.found.keys gathered.now.words }
    ensures over { (result ≡ Err MergeFault.OverCap) → cap < (levels_of rules.now group.now).words }
{
    let found = gathered.reached.found.len();
    if gathered.is_probed || found < PROBED_FROM || from >= places.len().saturating_sub(2) {
        return Ok(gathered.is_probed);
    }
    let budget = Budget {
        cap,
        before: gathered.words,
        states: PROBED_STATES,
    };
    match probe_places(alloc, rules, group, places, from, budget, &gathered.reached) {
        Ok(()) => Ok(true),
        Err(fault) => Err(fault),
    }
}

/// Merges the states of the places, one place after the other.
fn merge_places(
    alloc: Global,
    rules: &RuleSet,
    group: &[u32],
    cap: u64,
    places: &[usize],
    gathered: &mut Gathered,
) -> Result<(), MergeFault>
    requires can { CanMergeGroup rules.now group.now cap places.now }
    requires begun { IsBegun group.now gathered.old }
    ensures merged { OnOk result (GathersGroup rules.now group.now cap gathered.new) }
    ensures over { (result ≡ Err MergeFault.OverCap) → cap < (levels_of rules.now group.now).words }
{
    for j in 0..places.len() {
        let budget = Budget {
            cap,
            before: gathered.words,
            states: gathered.reached.found.len(),
        };
        let ahead = &mut gathered.ahead;
        let merged = match merge_place(alloc, rules, places, j, budget, &gathered.reached, ahead) {
            Ok(merged) => merged,
            Err(fault) => return Err(fault),
        };
        gathered.push(merged)?;
        gathered.is_probed = match probe_once(alloc, rules, group, cap, places, j + 1, gathered) {
            Ok(is_probed) => is_probed,
            Err(fault) => return Err(fault),
        };
    }
    Ok(())
}

/// Merges the states of the places, from the one before the first byte on.
fn merge_group(
    alloc: Global,
    rules: &RuleSet,
    group: &[u32],
    cap: u64,
    places: &[usize],
) -> Result<Gathered, MergeFault>
    requires { CanMergeGroup rules.now group.now cap places.now }
    ensures merged { IfOk result (GathersGroup rules.now group.now cap) }
    ensures over { (result ≡ Err MergeFault.OverCap) → cap < (levels_of rules.now group.now).words }
{
    let reached = start(alloc, rules, group, places)?;
    let mut gathered = Gathered {
        levels: Vec::new(alloc),
        reached,
        words: 0,
        ahead: None,
        is_probed: false,
    };
    match merge_places(alloc, rules, group, cap, places, &mut gathered) {
        Ok(()) => Ok(gathered),
        Err(fault) => Err(fault),
    }
}

impl Levels {
    ghost use Rattle.std.specs.Prelude.{◌≡◌, ◌<◌, ◌≤◌, IfOk};
    ghost use Rattle.table_sizes.specs.Sizes.{max_words};
    ghost use Rattle.group_states.specs.Levels.{IsGroup, levels_of};

    /// The merged states of the group.
    ///
    /// The group has places of rules of the set, ascending, and at least one; the cap is at most
    /// [`table_sizes::MAX_WORDS`]. `OverCap` comes exactly where the words exceed the cap, unless
    /// memory ran out before that was known. It takes memory for the parts of two or three places,
    /// for the runs and for the rows, and gives it back after a refusal. Source: DPDK Programmer's
    /// Guide, "Packet Classification and Access Control", and `lib/acl`, `acl_bld.c`.
    pub fn build(
        alloc: Global,
        rules: &RuleSet,
        group: &[u32],
        cap: u64,
    ) -> Result<Self, MergeFault>
        requires group { IsGroup rules.now group.now }
        requires cap { cap ≤ max_words }
        ensures levels { IfOk result (λ levels. levels ≡ levels_of rules.now group.now) }
        ensures within { IfOk result (λ levels. levels.words ≤ cap) }
        ensures over { (result ≡ Err MergeFault.OverCap)
            → cap < (levels_of rules.now group.now).words }
    {
        let kept = keep(alloc, rules, group)?;
        let places = kept.places.as_slice();
        let gathered = match merge_group(alloc, rules, group, cap, places) {
            Ok(gathered) => gathered,
            Err(fault) => return Err(fault),
        };
        let levels = finish(alloc, rules, group, kept.bits, gathered)?;
        Ok(levels)
    }
}

/// The kept places of the group.
fn keep(alloc: Global, rules: &RuleSet, group: &[u32]) -> Result<Kept, AllocError>
    requires { IsGroup rules.now group.now }
    ensures group { IsGrouped rules.now group.now }
    ensures places { IfOk result (λ kept. kept.places.items ≡ kept_places rules.now group.now) }
    ensures bits { IfOk result (λ kept. kept.bits ≡ kept_bits rules.now group.now) }
{
    let _rules = rules.all();
    let _fields = rules.layout().fields();
    Kept::new(alloc, rules, group)
}

/// The state before the first byte.
fn start(
    alloc: Global,
    rules: &RuleSet,
    group: &[u32],
    places: &[usize],
) -> Result<Reached, AllocError>
    requires { IsGrouped rules.now group.now }
    ensures { IfOk result
        (λ reached. IsStarted group.now reached.target reached.found.keys) }
{
    let _rules = rules.all();
    let order = order_rules(alloc, rules, group, places)?;
    start_states(alloc, order.as_slice())
}

/// The merged states, once all places are merged.
fn finish(
    alloc: Global,
    rules: &RuleSet,
    group: &[u32],
    kept: u128,
    gathered: Gathered,
) -> Result<Levels, AllocError>
    requires group { IsGrouped rules.now group.now }
    requires kept { kept ≡ kept_bits rules.now group.now }
    requires merged { GathersGroup rules.now group.now max_words gathered }
    ensures { IfOk result (λ levels. levels ≡ levels_of rules.now group.now) }
{
    let rows = finish_rows(alloc, rules, group, &gathered.reached)?;
    let members = Vec::from_slice(alloc, group)?;
    let words = gathered.words + (ROW_LEN * rows.len()) as u64;
    Ok(Levels {
        kept,
        group: members,
        levels: gathered.into_levels(),
        rows,
        words,
    })
}

/// The rows that are found at the end.
fn finish_rows(
    alloc: Global,
    rules: &RuleSet,
    group: &[u32],
    reached: &Reached,
) -> Result<Vec<[u32; ROW_LEN]>, AllocError>
    requires group { IsGrouped rules.now group.now }
    requires rows { AreRows rules.now group.now reached.now.target reached.now.found.keys }
    ensures { IfOk result (λ rows. rows.items ≡ rows_of rules.now group.now) }
{
    rule_set::laws::ranks_order_rules();
    rule_set::laws::the_best_has_the_greatest_rank();
    let rows = reached.rows();
    let names = names_of(alloc, rules, rows.ranked())?;
    name_rows(alloc, rows, names.as_slice(), reached.found.as_slice())
}

/// How many words the merged states of the group take, or the cap plus 1 where that is less.
///
/// The group and the cap are as for [`Levels::build`]. It takes memory, and gives it back before it
/// returns.
pub fn count_capped(
    alloc: Global,
    rules: &RuleSet,
    group: &[u32],
    cap: u64,
) -> Result<u64, AllocError>
    requires group { IsGroup rules.now group.now }
    requires cap { cap ≤ max_words }
    ensures { IfOk result (λ words. words ≡ min (levels_of rules.now group.now).words (cap + 1)) }
{
    match Levels::build(alloc, rules, group, cap) {
        Ok(levels) => Ok(levels.words()),
        Err(MergeFault::OverCap) => Ok(cap + 1),
        Err(MergeFault::OutOfMemory) => Err(AllocError),
    }
}
