//! The rules of a file.

ghost use Rattle.std.specs.Prelude.{◌≡◌, ◌≢◌, ◌⊎◌, false, Ok, Err, IfOk, IfErr};
ghost use Rattle.acl_tool.specs.Listings.{refused_as, rules_refused};
ghost use Rattle.field_defs.specs.Layout.{ip4_fields, ip6_fields};
ghost use Rattle.command_ending.specs.Endings.{is_reported, is_usage};
ghost use Rattle.acl_tool.specs.RuleTables.{rules_in, rules_of_bytes};
ghost use Rattle.capture_report.specs.Classifier.{lists_of};
ghost use Rattle.command_ending.specs.StepEffects.{Takes};

use acl_outside::Desk;
use classbench_reader::{LineFault, MAX_RULE_FILE, RuleFile, RulesFault, read_rules};
use command_ending::{Status, read_file};
use std::alloc::Global;

/// Which of a command's rule files one is.
#[derive(Clone, Copy)]
pub enum Listing {
    First,
    Second,
}

impl Listing {
    /// The status of a file of rules that isn't one.
    fn refused(self, fault: LineFault) -> Status
        ensures { result ≡ refused_as self fault }
    {
        match self {
            Listing::First => Status::RulesRefused(fault),
            Listing::Second => Status::SecondRulesRefused(fault),
        }
    }
}

/// The rules of the named file. It takes the memory of the file and of the rules.
///
/// The file is read as far as one byte more than a rule file may have. A file that isn't there or
/// can't be read is a read fault.
pub fn read_rule_file<D: Desk>(
    alloc: Global,
    name: &str,
    listing: Listing,
    desk: &mut D,
) -> Result<RuleFile, Status>
    ensures taken { Takes (rules_in (refused_as listing) name.now) lists_of
        (D.view desk.old) (D.view desk.new) result }
    ensures ip4 { IfOk result (λ rules. rules.ip4.layout ≡ ip4_fields) }
    ensures ip6 { IfOk result (λ rules. rules.ip6.layout ≡ ip6_fields) }
{
    match read_file(alloc, name, MAX_RULE_FILE + 1, desk) {
        Ok(bytes) => rules_of(alloc, &bytes, listing),
        Err(status) => Err(status),
    }
}

/// The rules of a file, or the status of its fault.
fn rules_of(alloc: Global, bytes: &[u8], listing: Listing) -> Result<RuleFile, Status>
    ensures rules { IfOk result
        (λ rules. rules_of_bytes (refused_as listing) bytes.now ≡ Ok (lists_of rules)) }
    ensures fault { IfErr result
        (λ status. (rules_of_bytes (refused_as listing) bytes.now ≡ Err status)
        ⊎ (status ≡ Status.OutOfMemory)) }
    ensures unread { IfErr result (λ status. status ≢ Status.ReadFault) }
    ensures unreported { IfErr result (λ status. is_reported status ≡ false) }
    ensures lawful { IfErr result (λ status. is_usage status ≡ false) }
    ensures ip4 { IfOk result (λ rules. rules.ip4.layout ≡ ip4_fields) }
    ensures ip6 { IfOk result (λ rules. rules.ip6.layout ≡ ip6_fields) }
{
    match read_rules(alloc, bytes) {
        Ok(rules) => Ok(rules),
        Err(fault) => Err(rules_refused(listing, fault)),
    }
}

/// The status of rules that weren't read.
fn rules_refused(listing: Listing, fault: RulesFault) -> Status
    ensures said { result ≡ rules_refused listing fault }
    ensures unread { result ≢ Status.ReadFault }
    ensures unreported { is_reported result ≡ false }
    ensures lawful { is_usage result ≡ false }
{
    match fault {
        RulesFault::Line(fault) => listing.refused(fault),
        RulesFault::OutOfMemory => Status::OutOfMemory,
    }
}
