//! Why a list isn't read.

use std::alloc::AllocError;

/// Why a list isn't read.
#[derive(Clone, Copy)]
pub enum IptablesFault {
    /// The file is too long, this is its first faulty line, or no line is faulty, and this is the
    /// first that no rule file says of those that packets may come to.
    Line(LineFault),
    /// There isn't enough memory.
    OutOfMemory,
}

impl From<AllocError> for IptablesFault {
    ghost use Rattle.std.specs.Prelude.{◌≡◌};
    ghost use Rattle.iptables_reader.specs.declared.fault.IptablesFault.TheVariants.{OutOfMemory};

    ghost from_gives = { λ _ fault. fault ≡ OutOfMemory };

    fn from(_: AllocError) -> IptablesFault {
        IptablesFault::OutOfMemory
    }
}

/// A faulty line of a file, by its number from 1, and its fault. A file that is too long, and an
/// assumption, have the line 0, and a file that ends too early its last line.
#[derive(Clone, Copy)]
pub struct LineFault {
    pub line: u32,
    pub kind: LineKind,
}

/// The kinds of faults. Of a line the first one from left to right is told.
#[derive(Clone, Copy)]
pub enum LineKind {
    /// The file has more than 16,777,216 bytes.
    FileTooLong,
    /// The line stands in no table, and begins none.
    NoTable,
    /// The line begins a table that isn't known.
    OtherTable,
    /// The table came before.
    SecondTable,
    /// The file ends before the COMMIT of a table.
    NoCommit,
    /// The file has no table `filter`.
    NoFilter,
    /// By this line another table than `filter` may drop packets of the chain, or the list lacks
    /// tables, which may.
    MayDrop,
    /// An interface is assumed that packets of the chain lack: `in` of OUTPUT, or `out` of INPUT.
    LacksInterface,
    /// The line declares no chain: it isn't `:`, a name, a policy and counters, or the name is that
    /// of a target.
    BadChain,
    /// The chain was declared before.
    ChainTwice,
    /// A chain is declared after the first rule.
    LateChain,
    /// The policy isn't ACCEPT or DROP for the chains that packets come to, and `-` for others.
    BadPolicy,
    /// The line doesn't begin with `-A`, after counters or without.
    BadStart,
    /// The chain of the rule isn't declared.
    NoChain,
    /// The line ends where a word is missing, or within quotes.
    MissingWord,
    /// The word is no option that a rule can say here.
    UnknownOption,
    /// The option came before.
    OptionTwice,
    /// The option can't be negated, or two `!` follow each other.
    BadNegation,
    /// The match isn't known here, or its protocol doesn't stand before it.
    BadMatch,
    /// The word is no address of the family, with a prefix length or without.
    BadAddress,
    /// The word is no protocol.
    BadProtocol,
    /// The word isn't a port, or two around `:` with the lower first; or of a list, there are more
    /// than 15.
    BadPorts,
    /// Ports are compared, and TCP, UDP or SCTP doesn't stand before; or an answer stands without
    /// REJECT before it.
    NeedsProtocol,
    /// A comment has a quote that neither begins nor ends it.
    BadQuotes,
    /// The target is none that decides, returns, or is a chain that was declared.
    BadTarget,
    /// The answer of REJECT isn't one of the family, or it is a reset without TCP.
    BadAnswer,
    /// The word is no name of an interface, or such an option stands in a chain whose packets have
    /// none.
    BadInterface,
    /// The word is no list of states of a connection.
    BadState,
    /// No rule file says the rule: it matches an interface, of which nothing is assumed.
    NeedsInterface,
    /// No rule file says the rule: it matches the state of a connection, of which nothing is
    /// assumed.
    NeedsState,
    /// No rule file says the rule: it matches local addresses, of which nothing is assumed.
    NeedsLocal,
    /// No rule file says the rule: it matches something else, as a rate or flags of TCP.
    CantSay,
}

/// Why a line isn't read.
#[derive(Clone, Copy)]
pub(crate) enum Stop {
    /// It is faulty.
    Faulty(LineKind),
    /// There isn't enough memory.
    OutOfMemory,
}

impl From<AllocError> for Stop {
    ghost use Rattle.std.specs.Prelude.{◌≡◌};
    ghost use Rattle.iptables_reader.specs.declared.fault.Stop.TheVariants.{OutOfMemory};

    ghost from_gives = { λ _ stop. stop ≡ OutOfMemory };

    fn from(_: AllocError) -> Stop {
        Stop::OutOfMemory
    }
}
