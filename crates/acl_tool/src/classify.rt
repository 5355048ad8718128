//! `classify`: the report of a capture, by the tables of a rule file.

ghost use Rattle.std.specs.Prelude.{◌≡◌, ℕ, List, Ok};
ghost use Rattle.field_defs.specs.Layout.{ip4_fields, ip6_fields};
ghost use Rattle.acl_outside.specs.Desk.{DeskView};
ghost use Rattle.command_words.specs.Command.{Classify};
ghost use Rattle.command_words.specs.CommandLine.{options_of};
ghost use Rattle.command_ending.specs.declared.status.Status.TheVariants.{RulesRefused};
ghost use Rattle.command_ending.specs.StepEffects.{Takes, outside};
ghost use Rattle.capture_report.specs.Classifier.{lists_of};
ghost use Rattle.acl_tool.specs.CommandEffects.{Answers};
ghost use Rattle.acl_tool.specs.RuleTables.{rules_in};

use crate::rule_file::{Listing, read_rule_file};
use crate::tables::{build_tables, table_of};
use acl_outside::{Desk, Sink};
use capture_report::{PrintOptions, print_packets};
use classbench_reader::RuleFile;
use command_ending::Status;
use command_words::Options;
use flat_table::Steps;
use std::alloc::Global;
use std::sync::ledger::Ledger;

/// Prints the report of a capture by the tables of the rules of a file.
pub fn classify<D: Desk, O: Sink, L: Ledger>(
    alloc: Global,
    rules: &str,
    capture: &str,
    options: &Options,
    desk: &mut D,
    out: &mut O,
    steps: &mut Steps<L>,
) -> Status
    ensures { Answers (Ok (Classify rules.now capture.now (options_of options.now)))
        (outside (D.view desk.old) (O.view out.old) steps.old)
        (outside (D.view desk.new) (O.view out.new) steps.new) result }
{
    match read_rule_file(alloc, rules, Listing::First, desk) {
        Ok(rules) => answer_by_rules(alloc, rules, capture, options, desk, out, steps),
        Err(status) => status,
    }
}

/// Prints the report of a capture by the tables of rules, whose file was read last.
fn answer_by_rules<D: Desk, O: Sink, L: Ledger>(
    alloc: Global,
    rules: RuleFile,
    capture: &str,
    options: &Options,
    desk: &mut D,
    out: &mut O,
    steps: &mut Steps<L>,
) -> Status
    requires ip4 { rules.ip4.layout ≡ ip4_fields }
    requires ip6 { rules.ip6.layout ≡ ip6_fields }
    ensures { (name : List ℕ) (before : DeskView) →
        Takes (rules_in RulesRefused name) lists_of before (D.view desk.old) (Ok rules) →
        Answers (Ok (Classify name capture.now (options_of options.now)))
        (outside before (O.view out.old) steps.old)
        (outside (D.view desk.new) (O.view out.new) steps.new) result }
{
    let contexts = match build_tables(alloc, rules, options.max_words.words()) {
        Ok(contexts) => contexts,
        Err(status) => return status,
    };
    let printed = PrintOptions {
        cats: options.categories,
        walk: options.walk,
        stats: options.stats,
        marks: options.marks,
    };
    let (ip4, ip6) = (table_of(&contexts.ip4), table_of(&contexts.ip6));
    print_packets(alloc, ip4, ip6, capture, &printed, desk, out, steps)
}
