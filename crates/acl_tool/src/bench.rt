//! A workload of a seed, classified by the plain filter and by a table.

ghost use Rattle.std.specs.Prelude.{Ok};
ghost use Rattle.acl_outside.specs.Desk.{DeskView};
ghost use Rattle.bench_command.specs.Bench.{bench_text};
ghost use Rattle.command_words.specs.Command.{Bench};
ghost use Rattle.command_words.specs.CommandLine.{numbers_in};
ghost use Rattle.acl_tool.specs.CommandEffects.{Answers};
ghost use Rattle.command_ending.specs.StepEffects.{outside, PutsLast};

use acl_outside::{Failed, Sink, put_all};
use acl_report::LINE_ROOM;
use bench_command::{Measured, bench_lines, measure};
use command_ending::Status;
use command_words::BenchNumbers;
use flat_table::Steps;
use std::alloc::Global;
use std::sync::ledger::Ledger;

/// Classifies the workload that the numbers ask for, and puts its four lines.
///
/// It takes all memory before the first byte is put. `TooLarge`: the table of the rules needs more
/// words than 16,777,216, and nothing was put. `WriteFault`: a first part of the lines was put.
pub fn bench<O: Sink, L: Ledger>(
    alloc: Global,
    numbers: BenchNumbers,
    out: &mut O,
    steps: &mut Steps<L>,
) -> Status
    ensures { (desk : DeskView) → Answers (Ok (Bench (numbers_in numbers)))
        (outside desk (O.view out.old) steps.old) (outside desk (O.view out.new) steps.new) result }
{
    match measure(alloc, numbers, steps) {
        Ok(measured) => put_lines(&measured, out),
        Err(status) => status,
    }
}

/// Puts the four lines.
fn put_lines<O: Sink>(measured: &Measured, out: &mut O) -> Status
    ensures { PutsLast (bench_text measured.now) (O.view out.old) (O.view out.new) result }
{
    let mut text = [0; LINE_ROOM];
    let len = bench_lines(measured, &mut text);
    match put_all(out, &text[..len]) {
        Ok(()) => Status::Done,
        Err(Failed) => Status::WriteFault,
    }
}
