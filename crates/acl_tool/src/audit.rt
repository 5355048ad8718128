//! `audit`: which rules of a file ever win, and at which least key.

ghost use Rattle.std.specs.Prelude.{◌≡◌, ℕ, ◌<◌, ◌≤◌, Ok, IfOk, IfErr, OnOk};
ghost use Rattle.field_defs.specs.Layout.{ip4_fields, ip6_fields};
ghost use Rattle.table_sizes.specs.Sizes.{max_words};
ghost use Rattle.acl_audit.specs.Least.{least_keys};
ghost use Rattle.command_words.specs.Command as asked;
ghost use Rattle.command_ending.specs.StepEffects.{outside};
ghost use Rattle.capture_report.specs.Classifier.{lists_of};
ghost use Rattle.acl_tool.specs.Texts.{Refuses, Tells};
ghost use Rattle.acl_tool.specs.AuditMerged.{audit_of, audit_refused, merged_within};
ghost use Rattle.acl_tool.specs.CommandEffects.{Answers};

use crate::rule_file::{Listing, read_rule_file};
use crate::text::put_text;
use acl_audit::{Audit, AuditFault, live_rules};
use acl_outside::{Desk, Sink};
use audit_report::audit_text;
use classbench_reader::RuleFile;
use command_ending::Status;
use command_words::Budget;
use field_defs::Family;
use rule_set::{Categories, RuleSet};
use std::alloc::Global;

/// Tells of each rule of a file in which categories it ever wins, and at which least key.
///
/// The lines are whole in memory before the first byte is put. `TooLarge`: the rules of a family,
/// merged in one group, need more words than `max_words`, and nothing was put. `WriteFault`: a
/// first part of the lines was put.
pub fn audit<D: Desk, O: Sink>(
    alloc: Global,
    rules: &str,
    categories: Categories,
    max_words: Budget,
    desk: &mut D,
    out: &mut O,
) -> Status
    ensures { (steps : ℕ) → Answers (Ok (asked.Audit rules.now categories.count max_words.words))
        (outside (D.view desk.old) (O.view out.old) steps)
        (outside (D.view desk.new) (O.view out.new) steps) result }
{
    let rules = match read_rule_file(alloc, rules, Listing::First, desk) {
        Ok(rules) => rules,
        Err(status) => return status,
    };
    match audit_lines(alloc, &rules, categories, max_words.words()) {
        Ok(text) => put_text(&text, out),
        Err(status) => status,
    }
}

/// The lines of the audit of the rules of both families. It takes all memory that `audit` needs.
fn audit_lines(
    alloc: Global,
    rules: &RuleFile,
    categories: Categories,
    budget: u64,
) -> Result<Vec<u8>, Status>
    requires some { 0 < budget }
    requires budget { budget ≤ max_words }
    requires ip4 { rules.now.ip4.layout ≡ ip4_fields }
    requires ip6 { rules.now.ip6.layout ≡ ip6_fields }
    ensures { Tells (audit_of categories.count budget (lists_of rules.now)) result }
{
    let ip4 = match live_within(alloc, Family::Ip4, &rules.ip4, budget) {
        Ok(ip4) => ip4,
        Err(status) => return Err(status),
    };
    let ip6 = match live_within(alloc, Family::Ip6, &rules.ip6, budget) {
        Ok(ip6) => ip6,
        Err(status) => return Err(status),
    };
    let text = audit_text(alloc, &rules.ip4, &ip4, &rules.ip6, &ip6, categories)?;
    Ok(text)
}

/// The audit of the rules of a family.
fn live_within(alloc: Global, family: Family, rules: &RuleSet, budget: u64) -> Result<Audit, Status>
    requires some { 0 < budget }
    requires budget { budget ≤ max_words }
    ensures keys { IfOk result (λ audit. audit ≡ least_keys rules.now) }
    ensures fits { OnOk result (merged_within budget family rules.now ≡ Ok rules.now) }
    ensures refused { IfErr result (Refuses (merged_within budget family rules.now)) }
{
    match live_rules(alloc, rules, budget) {
        Ok(audit) => Ok(audit),
        Err(fault) => Err(audit_refused(family, fault)),
    }
}

/// The status of an audit that is refused.
fn audit_refused(family: Family, fault: AuditFault) -> Status
    ensures { result ≡ audit_refused family fault }
{
    match fault {
        AuditFault::TooLarge { words, budget } => Status::TooLarge {
            family,
            words,
            budget,
        },
        AuditFault::OutOfMemory => Status::OutOfMemory,
    }
}
