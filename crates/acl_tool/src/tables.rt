//! The rules of both families in their contexts, and the tables that are made of them.

ghost use Rattle.std.specs.Prelude.{◌≡◌, ◌<◌, ◌≤◌, ◌⊎◌, Ok, None, Some, IsSome, IfOk, IfErr, OnOk};
ghost use Rattle.std.specs.Prelude.{OnErr, length};
ghost use Rattle.field_defs.specs.Layout.{ip4_fields, ip6_fields};
ghost use Rattle.table_sizes.specs.Sizes.{max_rules, max_words};
ghost use Rattle.table_fill.specs.Serves.{Serves};
ghost use Rattle.acl_context.specs.Context.{built_of};
ghost use Rattle.capture_report.specs.Classifier.{lists_of};
ghost use Rattle.acl_tool.specs.Built.{IsBuilt, IsTooLarge, Refuses, BuildsTable};
ghost use Rattle.acl_tool.specs.Held.{lists_held};

use acl_context::{AclContext, BuildFault};
use classbench_reader::RuleFile;
use command_ending::Status;
use field_defs::Family;
use flat_table::Table;
use rule_set::RuleSet;
use std::alloc::Global;

/// A context for each family, each with the table of its rules.
#[derive(Drop)]
pub struct Contexts {
    pub ip4: AclContext,
    pub ip6: AclContext,
}

/// The tables of the rules of both families, of which each may have `budget` words, from 1 to
/// 67,108,864. It takes the memory of the tables, and of what they are made by; the rules stay
/// where they are.
///
/// `TooLarge`: the first family whose table has more words, even where the rules are split.
pub fn build_tables(alloc: Global, rules: RuleFile, budget: u64) -> Result<Contexts, Status>
    requires ip4 { rules.ip4.layout ≡ ip4_fields }
    requires ip6 { rules.ip6.layout ≡ ip6_fields }
    requires some { 0 < budget }
    requires budget { budget ≤ max_words }
    ensures built { IfOk result
        (λ contexts. IsBuilt budget (lists_of rules) contexts.ip4.table contexts.ip6.table) }
    ensures refused { IfErr result (λ status. Refuses budget (lists_of rules) status) }
    ensures few { OnOk result
        ((length rules.ip4.rules ≤ max_rules) × (length rules.ip6.rules ≤ max_rules)) }
{
    let RuleFile { ip4, ip6 } = rules;
    let mut contexts = Contexts {
        ip4: hold(alloc, ip4),
        ip6: hold(alloc, ip6),
    };
    build_both(&mut contexts, budget)?;
    Ok(contexts)
}

/// Makes the tables of the rules of both families.
fn build_both(contexts: &mut Contexts, budget: u64) -> Result<(), Status>
    requires ip4 { contexts.old.ip4.set.layout ≡ ip4_fields }
    requires ip6 { contexts.old.ip6.set.layout ≡ ip6_fields }
    requires some { 0 < budget }
    requires budget { budget ≤ max_words }
    ensures built { OnOk result (IsBuilt budget (lists_held contexts.old) contexts.new.ip4.table
        contexts.new.ip6.table) }
    ensures refused { IfErr result (λ status. Refuses budget (lists_held contexts.old) status) }
{
    build(&mut contexts.ip4, Family::Ip4, budget)?;
    build(&mut contexts.ip6, Family::Ip6, budget)?;
    Ok(())
}

/// A context that holds the rules themselves, and has no table. It takes no memory.
fn hold(alloc: Global, rules: RuleSet) -> AclContext
    ensures set { result.set ≡ rules }
    ensures few { length rules.rules ≤ max_rules }
{
    let count = rules.all().len() as u32;
    AclContext::holding(alloc, rules, count)
}

/// Makes the table of the rules of a family.
fn build(context: &mut AclContext, family: Family, budget: u64) -> Result<(), Status>
    requires some { 0 < budget }
    requires budget { budget ≤ max_words }
    ensures ok { OnOk result (BuildsTable context.old.set budget context.new.table) }
    ensures err { IfErr result (λ status. (status ≡ Status.OutOfMemory)
        ⊎ IsTooLarge family context.old.set budget status) }
{
    match context.build(budget) {
        Ok(()) => Ok(()),
        Err(BuildFault::TooLarge { words, budget }) => Err(Status::TooLarge {
            family,
            words,
            budget,
        }),
        Err(BuildFault::OutOfMemory) => Err(Status::OutOfMemory),
    }
}

/// The table of a context that has one.
pub fn table_of(context: &AclContext) -> &Table
    requires { IsSome context.now.table }
    ensures { context.now.table ≡ Some result.now }
{
    match context.table() {
        Some(table) => table,
        None => unreachable!(),
    }
}
