//! How a run ends, and what is refused in a list.

ghost use Rattle.std.specs.Prelude.{◌≡◌};
ghost use Rattle.list_tool.specs.Message.{code_of};

use command_words::UsageFault;
use iptables_reader::LineKind;
use nft_reader::{ObjectKind, RuleKind, StartFault};
use std::alloc::AllocError;

/// The first thing of a list that can't be said in a rule file, and where it stands.
#[derive(Clone, Copy)]
pub struct ListFault {
    pub place: ListPlace,
    pub kind: ListKind,
}

/// Where something stands in a list.
#[derive(Clone, Copy)]
pub enum ListPlace {
    /// In the line of this number, from 1. What stands in no line has the number 0.
    Line(u32),
    /// In the object of a ruleset of this number, from 1. What stands in none has the number 0.
    Object(usize),
    /// In the rule of a ruleset that has this handle.
    Handle(u32),
}

/// What can't be said in a rule file.
#[derive(Clone, Copy)]
pub enum ListKind {
    /// The line of a saved list isn't read.
    Line(LineKind),
    /// The line of a configuration isn't read.
    CiscoLine(cisco_reader::LineKind),
    /// The object of a ruleset isn't read.
    Object(ObjectKind),
    /// No rule file says the rule of a ruleset.
    Rule(RuleKind),
    /// The ruleset has no chain of the name that packets come to by themselves, or several, or one
    /// that can't be asked.
    BaseChain(StartFault),
    /// The list has no chain of the name. It stands in no line.
    NoChain,
    /// Packets come to the chain from other chains alone. It stands in no line.
    NoPolicy,
    /// The rule leads to a chain that isn't there.
    NoTarget,
    /// The rule lies on a loop.
    Loop,
    /// There would be more rules than a rule file may have. It stands in no line.
    TooManyRules,
    /// The chains lead to more ways than are followed. It stands in no line.
    TooManySteps,
    /// Jumps lead through more chains than are followed. It stands in no line.
    TooDeep,
    /// The packets of the rule have addresses that no prefix says.
    NoPrefix,
    /// The rule file would have more bytes than one may have. It stands in no line.
    TextTooLong,
}

/// Why there is no text of a list.
#[derive(Clone, Copy)]
pub(crate) enum Refusal {
    /// Something in the list can't be said.
    Fault(ListFault),
    /// There isn't enough memory.
    OutOfMemory,
}

impl From<AllocError> for Refusal {
    ghost use Rattle.std.specs.Prelude.{◌≡◌};
    ghost use Rattle.list_tool.specs.declared.status.Refusal.TheVariants.{OutOfMemory};

    ghost from_gives = { λ _ refusal. refusal ≡ OutOfMemory };

    fn from(_: AllocError) -> Refusal {
        Refusal::OutOfMemory
    }
}

/// How a run ended. Each status has an exit code of its own.
#[derive(Clone, Copy)]
pub enum ListStatus {
    /// The rule file was printed.
    Done,
    /// The words of the command line ask for nothing that is known.
    Usage(UsageFault),
    /// The list can't be said in a rule file. Nothing was printed.
    Refused(ListFault),
    /// The list can't be read, or isn't there. Nothing was printed.
    ReadFault,
    /// The output can't be written. A first part of the rule file was.
    WriteFault,
    /// There isn't enough memory. Nothing was printed.
    OutOfMemory,
}

impl ListStatus {
    /// The exit code of the program: that of `aclc` where it means the same.
    pub fn code(&self) -> u8
        ensures { result ≡ code_of self.now }
    {
        match self {
            ListStatus::Done => 0,
            ListStatus::Usage(_) => 2,
            ListStatus::Refused(_) => 3,
            ListStatus::ReadFault => 7,
            ListStatus::WriteFault => 8,
            ListStatus::OutOfMemory => 9,
        }
    }
}
