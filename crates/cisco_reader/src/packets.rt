//! A configuration of IOS → the rules of one of its lists.

ghost use Rattle.std.specs.Prelude.{◌≡◌, ◌⊎◌, IfOk, Ok, Err};
ghost use Rattle.cisco_reader.specs.Groups.{groups_of};
ghost use Rattle.cisco_reader.specs.Lists.{entries_of};
ghost use Rattle.cisco_reader.specs.Packets.{list_of};
ghost use Rattle.cisco_reader.specs.Read.{Gives};
ghost use Rattle.cisco_reader.specs.declared.fault.LineFault.{LineFault};

use crate::boxes::all_rules;
use crate::fault::{CiscoFault, LineKind, line_fault};
use crate::groups::{Group, Groups};
use crate::lines::{Line, Lines};
use crate::list::{List, Placed};
use list_chains::{Chain, ChainRule};
use std::alloc::Global;

/// How many bytes a configuration may have.
pub const MAX_LIST: usize = 16_777_216;

/// What the answer of a rule is.
#[derive(Clone, Copy)]
pub enum Answers {
    /// The number of its line, from 1.
    Line,
    /// 1 where it permits, and 2 where it denies.
    Verdict,
}

/// The groups of a configuration's lines, or the first fault of them. It takes memory for their
/// lines.
fn read_groups<'a>(alloc: Global, lines: &[Line<'a>]) -> Result<Vec<Group<'a>>, CiscoFault>
    ensures { Gives (groups_of lines.now) (λ groups. groups.items) result }
{
    let mut groups = Groups::new(alloc);
    for line in lines {
        groups.add_line(line)?;
    }
    Ok(groups.into_groups())
}

/// The entries of the list of a name in the lines of a configuration that has these groups, or its
/// first faulty line. It takes memory for the entries.
fn read_entries(
    alloc: Global,
    groups: &[Group],
    lines: &Lines,
    asked: &[u8],
) -> Result<Vec<Placed>, CiscoFault>
    ensures { Gives (entries_of groups.now asked.now lines.now) (λ entries. entries.items) result }
{
    let mut list = List::new(alloc, groups);
    for line in &lines.outside {
        list.add_line(asked, line)?;
    }
    list.ended(lines.count)
}

/// The rules of the list of a name, or why it isn't read.
fn list_rules(
    alloc: Global,
    bytes: &[u8],
    name: &[u8],
    answers: Answers,
) -> Result<Vec<ChainRule>, CiscoFault>
    ensures { Gives (list_of answers name.now bytes.now) (λ rules. rules.items) result }
{
    if bytes.len() > MAX_LIST {
        return Err(line_fault(0, LineKind::FileTooLong));
    }
    let lines = Lines::of(alloc, bytes)?;
    let groups = read_groups(alloc, &lines.outside)?;
    let entries = read_entries(alloc, &groups, &lines, name)?;
    all_rules(alloc, &groups, answers, &entries)
}

/// The rules of the extended list of a name in a configuration of IOS, or its first faulty line.
///
/// `bytes` holds the whole configuration as `show running-config` writes it, at most
/// [`MAX_LIST`] bytes. Lines end at LF or CR LF, and the last one may lack it. The
/// list is numbered (`access-list 101 permit ..`) or named (`ip access-list extended NAME`), and
/// its entries are ordered by their sequence numbers. A packet that none of them catches is denied:
/// no rule says so, and its answer is 0.
///
/// Each entry is read from left to right: `permit` or `deny`, a protocol or a group of services,
/// the source with its ports, the destination with its ports, and `log` or `log-input` with at most
/// one word. Whatever else stands in an entry of the list is a fault. A line that is no entry has
/// to begin a part of a configuration that is known here, or to belong to one.
///
/// Groups (`object-group network NAME`, `object-group service NAME`) may stand anywhere in the
/// file. Members are read where an entry needs them. Of networks they are `any`, a host, a range,
/// and a network with its mask or the length of its prefix. Of services they are protocols, with
/// ports of the source after `source` and ports of the destination. Both may be other groups.
///
/// A banner (`banner KIND`, a mark, and text up to where the mark stands again) says nothing, and
/// so does a macro (`macro name NAME`, up to `@`). A line in one of them that begins as one of a
/// list is a fault, and so is one without an end.
///
/// `Line` comes exactly where the file is too long (line 0), some line is faulty, or the list isn't
/// begun or has no entries (the last line), as long as memory lasts. Of faulty lines the first one
/// is told: of such texts, else of heads of groups, else of all lines, else of members and sizes of
/// groups, entry by entry. It takes memory for the lines, the entries and the rules.
pub fn read_list(
    alloc: Global,
    bytes: &[u8],
    name: &[u8],
    answers: Answers,
) -> Result<Chain, CiscoFault>
    ensures chain { IfOk result (λ chain. list_of answers name.now bytes.now ≡ Ok chain) }
    ensures line { (fault : LineFault) → result ≡ Err (CiscoFault.Line fault)
        → list_of answers name.now bytes.now ≡ Err fault }
    ensures refused { (fault : LineFault) → list_of answers name.now bytes.now ≡ Err fault
        → (result ≡ Err (CiscoFault.Line fault)) ⊎ (result ≡ Err CiscoFault.OutOfMemory) }
{
    match list_rules(alloc, bytes, name, answers) {
        Ok(rules) => Ok(Chain::new(rules)),
        Err(fault) => Err(fault),
    }
}
