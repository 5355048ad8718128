//! `compare`: whether two rule files decide alike, and the least key at which they don't.

ghost use Rattle.std.specs.Prelude.{◌≡◌, ℕ, ◌<◌, ◌≤◌, List, Ok, IfSome, IfOk, IfErr, OnOk};
ghost use Rattle.field_defs.specs.Layout.{ip4_fields, ip6_fields};
ghost use Rattle.table_sizes.specs.Sizes.{max_words};
ghost use Rattle.acl_audit.specs.Compared.{told_difference};
ghost use Rattle.acl_audit.specs.Difference.{difference};
ghost use Rattle.acl_audit.specs.Laws.{AreUnlikeAt};
ghost use Rattle.acl_outside.specs.Desk.{DeskView};
ghost use Rattle.command_words.specs.Command.{Compare};
ghost use Rattle.command_ending.specs.declared.status.Status.TheVariants.{RulesRefused};
ghost use Rattle.command_ending.specs.StepEffects.{Takes, outside};
ghost use Rattle.capture_report.specs.Classifier.{lists_of};
ghost use Rattle.acl_tool.specs.Texts.{Refuses, Tells};
ghost use Rattle.audit_report.specs.Compare.{compared_text};
ghost use Rattle.acl_tool.specs.CompareLines.{compare_of, compare_refused, compared_within};
ghost use Rattle.acl_tool.specs.RuleTables.{rules_in};
ghost use Rattle.acl_tool.specs.CommandEffects.{Answers};

use crate::rule_file::{Listing, read_rule_file};
use crate::text::put_text;
use acl_audit::{CompareFault, Compared, compare_rules};
use acl_outside::{Desk, Sink};
use audit_report::push_difference;
use classbench_reader::RuleFile;
use command_ending::Status;
use command_words::Budget;
use field_defs::Family;
use rule_set::RuleSet;
use std::alloc::Global;

/// Tells of two rule files whether they decide every packet alike, and else the least key at which
/// they don't.
///
/// The lines are whole in memory before the first byte is put. `SecondRulesRefused`: the second
/// file isn't a rule file, where the first one is. `TooManyTogether`: both have more than 262,144
/// rules of a family together. `TooLarge`: the rules of both, merged, need more words than
/// `max_words`. `WriteFault`: a first part of the lines was put.
pub fn compare<D: Desk, O: Sink>(
    alloc: Global,
    rules: &str,
    second: &str,
    max_words: Budget,
    desk: &mut D,
    out: &mut O,
) -> Status
    ensures { (steps : ℕ) → Answers (Ok (Compare rules.now second.now max_words.words))
        (outside (D.view desk.old) (O.view out.old) steps)
        (outside (D.view desk.new) (O.view out.new) steps) result }
{
    match read_rule_file(alloc, rules, Listing::First, desk) {
        Ok(one) => compare_with(alloc, &one, second, max_words, desk, out),
        Err(status) => status,
    }
}

/// Compares the rules of the first file, which were read last, with those of the second.
fn compare_with<D: Desk, O: Sink>(
    alloc: Global,
    one: &RuleFile,
    second: &str,
    max_words: Budget,
    desk: &mut D,
    out: &mut O,
) -> Status
    requires ip4 { one.now.ip4.layout ≡ ip4_fields }
    requires ip6 { one.now.ip6.layout ≡ ip6_fields }
    ensures { (rules : List ℕ) (before : DeskView) (steps : ℕ) →
        Takes (rules_in RulesRefused rules) lists_of before (D.view desk.old) (Ok one.now) →
        Answers (Ok (Compare rules second.now max_words.words))
        (outside before (O.view out.old) steps)
        (outside (D.view desk.new) (O.view out.new) steps) result }
{
    let two = match read_rule_file(alloc, second, Listing::Second, desk) {
        Ok(two) => two,
        Err(status) => return status,
    };
    match compare_lines(alloc, one, &two, max_words.words()) {
        Ok(text) => put_text(&text, out),
        Err(status) => status,
    }
}

/// The lines of both families. It takes all memory that `compare` needs besides the rules.
fn compare_lines(
    alloc: Global,
    one: &RuleFile,
    two: &RuleFile,
    budget: u64,
) -> Result<Vec<u8>, Status>
    requires some { 0 < budget }
    requires budget { budget ≤ max_words }
    requires one_ip4 { one.now.ip4.layout ≡ ip4_fields }
    requires one_ip6 { one.now.ip6.layout ≡ ip6_fields }
    requires two_ip4 { two.now.ip4.layout ≡ ip4_fields }
    requires two_ip6 { two.now.ip6.layout ≡ ip6_fields }
    ensures { Tells (compare_of budget (lists_of one.now) (lists_of two.now)) result }
{
    let ip4 = match compared_within(alloc, Family::Ip4, &one.ip4, &two.ip4, budget) {
        Ok(ip4) => ip4,
        Err(status) => return Err(status),
    };
    let ip6 = match compared_within(alloc, Family::Ip6, &one.ip6, &two.ip6, budget) {
        Ok(ip6) => ip6,
        Err(status) => return Err(status),
    };
    let mut text = Vec::new(alloc);
    push_difference(&mut text, Family::Ip4, &one.ip4, &two.ip4, &ip4)?;
    push_difference(&mut text, Family::Ip6, &one.ip6, &two.ip6, &ip6)?;
    Ok(text)
}

/// What the comparison of the rules of a family tells.
fn compared_within(
    alloc: Global,
    family: Family,
    one: &RuleSet,
    two: &RuleSet,
    budget: u64,
) -> Result<Compared, Status>
    requires some { 0 < budget }
    requires budget { budget ≤ max_words }
    requires layouts { one.now.layout ≡ two.now.layout }
    ensures told { IfOk result
        (λ compared. told_difference compared ≡ difference one.now two.now) }
    ensures unlike { IfOk result
        (λ compared. IfSome (told_difference compared) (AreUnlikeAt one.now two.now)) }
    ensures within { OnOk result (compared_within budget family one.now two.now
        ≡ Ok (compared_text family one.now two.now)) }
    ensures refused { IfErr result (Refuses (compared_within budget family one.now two.now)) }
{
    match compare_rules(alloc, one, two, budget) {
        Ok(compared) => Ok(compared),
        Err(fault) => Err(compare_refused(family, fault)),
    }
}

/// The status of a comparison that is refused.
fn compare_refused(family: Family, fault: CompareFault) -> Status
    ensures { result ≡ compare_refused family fault }
{
    match fault {
        CompareFault::TooManyRules => Status::TooManyTogether,
        CompareFault::TooLarge { words, budget } => Status::TooLarge {
            family,
            words,
            budget,
        },
        CompareFault::OutOfMemory => Status::OutOfMemory,
    }
}
