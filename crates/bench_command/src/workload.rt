//! The measuring of a workload: its keys, its table, and what rules and table say of the keys.

ghost use Rattle.std.specs.Prelude.{◌≡◌, ◌+◌, ◌≤◌, Some, IfOk, IfErr, OnOk, OnErr};
ghost use Rattle.std.specs.List.{concat};
ghost use Rattle.rule_set.specs.Limits.{max_categories};
ghost use Rattle.rule_split.specs.Split.{total_of};
ghost use Rattle.bench_command.specs.Bench.{IsRefused, bench_budget, measured_of, set_drawn};
ghost use Rattle.bench_command.specs.Bench.{keys_drawn, table_drawn, tally_drawn};
ghost use Rattle.bench_command.specs.Bench.{most_drawn, transitions_drawn};
ghost use Rattle.table_fill.specs.Serves.{Serves};
ghost use Rattle.workload_gen.specs.Workload.{workload_of};
ghost use Rattle.command_words.specs.CommandLine.{numbers_in};

use crate::keys::{Drawn, draw_keys};
use crate::lines::Measured;
use crate::table::{built_context, table_tally};
use acl_context::AclContext;
use command_ending::Status;
use command_words::BenchNumbers;
use flat_table::Steps;
use rule_set::{Categories, MAX_CATEGORIES};
use std::alloc::{AllocError, Global};
use std::sync::ledger::Ledger;
use workload_gen::{Workload, make_rules};

/// Draws the rules, makes their table, draws the keys and classifies each by both. It takes all the
/// memory that `bench` needs.
pub fn measure<L: Ledger>(
    alloc: Global,
    numbers: BenchNumbers,
    steps: &mut Steps<L>,
) -> Result<Measured, Status>
    ensures measured { IfOk result (λ measured. measured ≡ measured_of (numbers_in numbers)) }
    ensures fits { OnOk result
        (total_of (set_drawn (numbers_in numbers)) bench_budget ≤ bench_budget) }
    ensures steps { OnOk result (steps.new ≡ steps.old + transitions_drawn (numbers_in numbers)) }
    ensures bound { OnOk result (steps.new ≤ steps.old + most_drawn (numbers_in numbers)) }
    ensures refused { IfErr result (λ status. IsRefused (set_drawn (numbers_in numbers)) status) }
    ensures idle { OnErr result (steps.new ≡ steps.old) }
{
    let mut workload = make_rules(alloc, numbers.seed, numbers.rules)?;
    measure_workload(alloc, numbers, &mut workload, steps)
}

/// Makes the table of the rules that were drawn for these numbers, draws the keys and classifies
/// each by both.
fn measure_workload<L: Ledger>(
    alloc: Global,
    numbers: BenchNumbers,
    workload: &mut Workload,
    steps: &mut Steps<L>,
) -> Result<Measured, Status>
    requires { workload.old ≡ workload_of numbers.seed numbers.rules }
    ensures measured { IfOk result (λ measured. measured ≡ measured_of (numbers_in numbers)) }
    ensures fits { OnOk result
        (total_of (set_drawn (numbers_in numbers)) bench_budget ≤ bench_budget) }
    ensures steps { OnOk result (steps.new ≡ steps.old + transitions_drawn (numbers_in numbers)) }
    ensures refused { IfErr result (λ status. IsRefused (set_drawn (numbers_in numbers)) status) }
    ensures idle { OnErr result (steps.new ≡ steps.old) }
{
    let cats = all_categories();
    let context = built_context(alloc, workload.rules())?;
    let drawn = draw_keys(alloc, workload, numbers.packets, cats)?;
    let measured = measure_keys(alloc, numbers, &context, &drawn, cats, steps)?;
    Ok(measured)
}

/// Classifies the keys that were drawn for these numbers by the table of the context.
fn measure_keys<L: Ledger>(
    alloc: Global,
    numbers: BenchNumbers,
    context: &AclContext,
    drawn: &Drawn,
    cats: Categories,
    steps: &mut Steps<L>,
) -> Result<Measured, AllocError>
    requires set { context.now.set ≡ set_drawn (numbers_in numbers) }
    requires table { context.now.table ≡ Some (table_drawn (numbers_in numbers)) }
    requires serves { Serves (set_drawn (numbers_in numbers)) (table_drawn (numbers_in numbers)) }
    requires keys { drawn.now.keys.items ≡ concat (keys_drawn (numbers_in numbers)) }
    requires plain { drawn.now.plain ≡ tally_drawn (numbers_in numbers) }
    requires all { cats.count ≡ max_categories }
    ensures measured { IfOk result (λ measured. measured ≡ measured_of (numbers_in numbers)) }
    ensures steps { OnOk result (steps.new ≡ steps.old + transitions_drawn (numbers_in numbers)) }
    ensures idle { OnErr result (steps.new ≡ steps.old) }
{
    let table = table_tally(alloc, context, &drawn.keys, cats, steps)?;
    let Some(built) = context.table() else {
        unreachable!()
    };
    Ok(Measured {
        rules: numbers.rules,
        packets: numbers.packets,
        plain: drawn.plain,
        table,
        tries: built.tries(),
        words: built.total_words(),
    })
}

/// All categories.
fn all_categories() -> Categories
    ensures { result.count ≡ max_categories }
{
    match Categories::new(MAX_CATEGORIES as u32) {
        Some(cats) => cats,
        None => unreachable!(),
    }
}
