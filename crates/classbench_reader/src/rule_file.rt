//! A rule file in, its rules by family out, or its first faulty line.

ghost use Rattle.std.specs.Prelude.{◌≡◌, ◌<◌, ◌≤◌, ◌⊎◌, [], ◌∷◌, ◌++◌, length, nat_lt, None};
ghost use Rattle.std.specs.Prelude.{IfOk, IfErr, OnOk, Ok, Err};
ghost use Rattle.field_defs.specs.Layout.{ip4_fields, ip6_fields};
ghost use Rattle.classbench_reader.specs.Limits.{max_rule_file};
ghost use Rattle.classbench_reader.specs.RuleFile.{rule_file_of};
ghost use Rattle.rule_set.specs.Fault.{rule_fault};
ghost use Rattle.table_sizes.specs.Sizes.{max_rules};
ghost use Rattle.classbench_reader.specs.Files.{Adds, HasRoom, HoldsRules, ReadsLine, RefusesLine};
ghost use Rattle.classbench_reader.specs.Lawful.{IsLawfulLine};
ghost use Rattle.classbench_reader.specs.declared.rules_fault.LineFault.{LineFault};

use crate::line::{RuleLine, is_skipped};
use crate::rules_fault::{LineFault, LineKind, RulesFault};
use field_defs::{Family, ip4_layout, ip6_layout};
use rule_set::RuleSet;
use std::alloc::{AllocError, Global};
use table_sizes::MAX_RULES;
use text_scan::split_line;

/// How many bytes a rule file may have.
pub const MAX_RULE_FILE: usize = 16_777_216;

/// The rules of a file, by family, each set in the order of the lines.
#[derive(Drop)]
pub struct RuleFile {
    /// The IPv4 rules, for the layout of IPv4 packets.
    pub ip4: RuleSet,
    /// The IPv6 rules, for the layout of IPv6 packets.
    pub ip6: RuleSet,
}

impl RuleFile {
    /// No rules.
    fn new(alloc: Global) -> RuleFile
        ensures ip4 { result.ip4 ≡ record { layout = ip4_fields; rules = [] } }
        ensures ip6 { result.ip6 ≡ record { layout = ip6_fields; rules = [] } }
    {
        RuleFile {
            ip4: RuleSet::new(alloc, ip4_layout()),
            ip6: RuleSet::new(alloc, ip6_layout()),
        }
    }

    /// Adds what a line says as the rule of the ordinal, from 1, if it isn't one too many.
    fn add_line(
        &mut self,
        alloc: Global,
        line: &[u8],
        number: u32,
        ordinal: u32,
    ) -> Result<(), RulesFault>
        requires room { ordinal ≤ max_rules → HasRoom self.old }
        ensures ok { OnOk result (ReadsLine ordinal line.now self.old self.new) }
        ensures err { IfErr result (RefusesLine number ordinal line.now) }
    {
        if ordinal as usize > MAX_RULES {
            return Err(line_fault(number, LineKind::TooManyRules));
        }
        match RuleLine::read(line, ordinal) {
            Ok(rule_line) => {
                self.add(alloc, &rule_line)?;
                Ok(())
            }
            Err(kind) => Err(line_fault(number, kind)),
        }
    }

    /// Adds the rule of a line after the others of its family.
    fn add(&mut self, alloc: Global, line: &RuleLine) -> Result<(), AllocError>
        requires room { HasRoom self.old }
        requires lawful { IsLawfulLine line.now }
        ensures { OnOk result (Adds line.now self.old self.new) }
    {
        match line.family() {
            Family::Ip4 => self.ip4.push_lawful(line.rule(alloc)),
            Family::Ip6 => self.ip6.push_lawful(line.rule(alloc)),
        }
    }
}

/// The rules of a file, or its first faulty line.
///
/// `bytes` holds the whole file, at most [`MAX_RULE_FILE`] bytes. Lines end at LF or CR LF, and the
/// last one may lack it. Blank lines, and lines whose first byte after spaces and tabs is `#`, are
/// skipped. Each other line is a rule:
///
/// ```text @source/bits destination/bits low:high low:high protocol/mask [flags/mask] [pri=n]
/// [cat=n] [data=n] ```
///
/// Addresses are both IPv4 (RFC 791) or both IPv6 (RFC 4291, section 2.2). Numbers are decimal or,
/// after `0x`, hexadecimal. Flags are ignored in matching. Without attributes the n-th rule of the
/// file has the priority 536,870,911 - n, all sixteen categories, and the userdata n.
///
/// `Line` comes exactly where the file is too long (line 0) or some line is faulty (the first one,
/// with its first fault from left to right), as long as memory lasts. The sets take memory for
/// their rules, and nothing else does.
pub fn read_rules(alloc: Global, bytes: &[u8]) -> Result<RuleFile, RulesFault>
    ensures rules { IfOk result (HoldsRules bytes.now) }
    ensures line { (fault : LineFault) → result ≡ Err (RulesFault.Line fault)
        → rule_file_of bytes.now ≡ Err fault }
    ensures refused { (fault : LineFault) → rule_file_of bytes.now ≡ Err fault
        → (result ≡ Err (RulesFault.Line fault)) ⊎ (result ≡ Err RulesFault.OutOfMemory) }
    // A file that is too long is refused as such, whatever memory there is.
    ensures too_long { max_rule_file < length bytes.now
        → result ≡ Err (RulesFault.Line (record { line = 0; kind = LineKind.FileTooLong })) }
{
    if is_too_long(bytes) {
        return Err(line_fault(0, LineKind::FileTooLong));
    }
    let mut file = RuleFile::new(alloc);
    let mut left = bytes;
    let mut number = 0;
    let mut ordinal = 1;
    while let Some((line, rest)) = split_line(left) {
        number += 1;
        if !is_skipped(line) {
            file.add_line(alloc, line, number, ordinal)?;
            ordinal += 1;
        }
        left = rest;
    }
    Ok(file)
}

/// Whether the file has more bytes than a rule file may have.
fn is_too_long(bytes: &[u8]) -> bool
    ensures { result ≡ nat_lt max_rule_file (length bytes.now) }
{
    bytes.len() > MAX_RULE_FILE
}

/// The fault of a line.
fn line_fault(line: u32, kind: LineKind) -> RulesFault
    ensures { result ≡ RulesFault.Line (record { line = line; kind = kind }) }
{
    RulesFault::Line(LineFault { line, kind })
}
