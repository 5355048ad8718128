//! The table of a workload, and what it says of the keys.

ghost use Rattle.std.specs.Prelude.{◌≡◌, ◌+◌, ◌*◌, ◌/◌, ◌≤◌, Some, length, IfOk, IfErr, IfSome};
ghost use Rattle.std.specs.Prelude.{IsSome, OnOk, OnErr};
ghost use Rattle.field_defs.specs.Layout.{ip4_fields};
ghost use Rattle.rule_split.specs.Split.{total_of};
ghost use Rattle.table_sizes.specs.Sizes.{max_keys};
ghost use Rattle.flat_table.specs.Batch.{batch_transitions};
ghost use Rattle.table_fill.specs.Serves.{Serves};
ghost use Rattle.acl_context.specs.Batch.{verdicts_by_rules};
ghost use Rattle.acl_context.specs.Context.{built_of};
ghost use Rattle.workload_gen.specs.declared.packet.TheConstants.{KEY_LEN};
ghost use Rattle.workload_gen.specs.declared.workload.TheConstants.{MAX_WORKLOAD_RULES};
ghost use Rattle.bench_command.specs.Bench.{IsRefused, bench_budget};
ghost use Rattle.bench_command.specs.Tally.{tally_of};

use crate::tally::Tally;
use acl_context::{AclContext, AddFault, BuildFault, NotBuilt, Scratch, Walk};
use command_ending::Status;
use field_defs::{Family, ip4_layout};
use flat_table::Steps;
use rule_set::{Categories, RuleSet};
use std::alloc::{AllocError, Global};
use std::sync::ledger::Ledger;
use workload_gen::{KEY_LEN, MAX_WORKLOAD_RULES};

/// How many words of 64 bits the table may have: 128 MiB of them.
const BENCH_BUDGET: u64 = 16_777_216;

/// A context with the rules and their table. It takes memory for both.
///
/// `TooLarge`: the table needs more words than 16,777,216.
pub fn built_context(alloc: Global, rules: &RuleSet) -> Result<AclContext, Status>
    requires layout { rules.now.layout ≡ ip4_fields }
    requires few { length rules.now.rules ≤ MAX_WORKLOAD_RULES }
    ensures context { IfOk result (λ context. context ≡ record {
      set = rules.now;
      max_rules = MAX_WORKLOAD_RULES;
      table = Some (built_of rules.now bench_budget);
    }) }
    ensures serves { OnOk result (Serves rules.now (built_of rules.now bench_budget)) }
    ensures fits { OnOk result (total_of rules.now bench_budget ≤ bench_budget) }
    ensures refused { IfErr result (λ status. IsRefused rules.now status) }
{
    let mut context = AclContext::create(alloc, ip4_layout(), MAX_WORKLOAD_RULES);
    match context.add_stored(rules.all()) {
        Ok(()) => {}
        Err(AddFault::OutOfMemory) => return Err(Status::OutOfMemory),
        Err(AddFault::Full) => unreachable!(),
        Err(AddFault::RuleRefused(..)) => unreachable!(),
    }
    match context.build(BENCH_BUDGET) {
        Ok(()) => Ok(context),
        Err(BuildFault::TooLarge { words, budget }) => Err(Status::TooLarge {
            family: Family::Ip4,
            words,
            budget,
        }),
        Err(BuildFault::OutOfMemory) => Err(Status::OutOfMemory),
    }
}

/// What the table says of the keys in all of the categories. It takes memory for the verdicts,
/// before the first step.
///
/// `keys` has the bytes of at most 65,536 keys, one after the other.
pub fn table_tally<L: Ledger>(
    alloc: Global,
    context: &AclContext,
    keys: &[u8],
    cats: Categories,
    steps: &mut Steps<L>,
) -> Result<Tally, AllocError>
    requires layout { context.now.set.layout ≡ ip4_fields }
    requires built { IsSome context.now.table }
    requires serves { IfSome context.now.table (λ table. Serves context.now.set table) }
    requires whole { length keys.now ≡ length keys.now / KEY_LEN * KEY_LEN }
    requires few { length keys.now / KEY_LEN ≤ max_keys }
    ensures tally { IfOk result (λ tally.
        tally ≡ tally_of (verdicts_by_rules context.now.set cats.count keys.now)) }
    ensures steps { OnOk result (IfSome context.now.table
        (λ table. steps.new ≡ steps.old + batch_transitions table keys.now)) }
    ensures idle { OnErr result (steps.new ≡ steps.old) }
{
    let mut verdicts = vec![in alloc; 0; keys.len() / KEY_LEN * cats.count()]?;
    // Each key is walked for itself, which needs no row.
    let mut scratch = Scratch::new(alloc, 0)?;
    Ok(classify(context, keys, cats, &mut scratch, &mut verdicts, steps))
}

/// Classifies the keys, and gives what their verdicts come to.
fn classify<L: Ledger>(
    context: &AclContext,
    keys: &[u8],
    cats: Categories,
    scratch: &mut Scratch,
    verdicts: &mut [u32],
    steps: &mut Steps<L>,
) -> Tally
    requires layout { context.now.set.layout ≡ ip4_fields }
    requires built { IsSome context.now.table }
    requires serves { IfSome context.now.table (λ table. Serves context.now.set table) }
    requires whole { length keys.now ≡ length keys.now / KEY_LEN * KEY_LEN }
    requires few { length keys.now / KEY_LEN ≤ max_keys }
    requires room { length verdicts.old ≡ length keys.now / KEY_LEN * cats.count }
    ensures tally { result ≡ tally_of (verdicts_by_rules context.now.set cats.count keys.now) }
    ensures steps { IfSome context.now.table
        (λ table. steps.new ≡ steps.old + batch_transitions table keys.now) }
{
    match context.classify(keys, cats, Walk::Scalar, scratch, verdicts, steps) {
        Ok(_) => tally_of(verdicts),
        Err(NotBuilt) => unreachable!(),
    }
}

/// What verdicts come to, of which there are at most those of 65,536 keys in 16 categories.
fn tally_of(verdicts: &[u32]) -> Tally
    requires { length verdicts.now ≤ max_keys * 16 }
    ensures { result ≡ tally_of verdicts.now }
{
    let mut tally = Tally::default();
    for verdict in verdicts {
        tally.add(*verdict);
    }
    tally
}
