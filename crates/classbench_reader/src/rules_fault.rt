//! Why a rule file is refused.

use std::alloc::AllocError;

/// Why a rule file isn't read.
#[derive(Clone, Copy, Debug, PartialEq, Eq)]
pub enum RulesFault {
    /// The file is too long, or this is its first faulty line.
    Line(LineFault),
    /// There is no memory for one more rule.
    OutOfMemory,
}

impl From<AllocError> for RulesFault {
    ghost use Rattle.std.specs.Prelude.{◌≡◌};
    ghost use Rattle.classbench_reader.specs.declared.rules_fault.RulesFault.TheVariants.{OutOfMemory};

    ghost from_gives = { λ _ fault. fault ≡ OutOfMemory };

    fn from(_: AllocError) -> RulesFault {
        RulesFault::OutOfMemory
    }
}

/// The first faulty line of a rule file, by its number from 1, and its fault. Line 0 stands for the
/// whole file.
#[derive(Clone, Copy, Debug, PartialEq, Eq)]
pub struct LineFault {
    pub line: u32,
    pub kind: LineKind,
}

/// The kinds of faults, in the order in which they are met: of a line the first one from left to
/// right is told.
#[derive(Clone, Copy, Debug, PartialEq, Eq)]
pub enum LineKind {
    /// The file has more than 16,777,216 bytes.
    FileTooLong,
    /// The line isn't skipped, and 262,144 rules stand before it. It is told before all later
    /// kinds.
    TooManyRules,
    /// The first byte that is no blank isn't `@`.
    BadStart,
    /// The text before the first `/` of the source or of the destination is no address.
    BadAddress,
    /// What follows the address isn't `/` and a prefix length of its family.
    BadPrefix,
    /// One of source and destination is an IPv4 address, and the other an IPv6 address.
    MixedFamilies,
    /// The ports of the source or of the destination aren't two numbers of at most 65535 around
    /// `:`.
    BadPorts,
    /// The first port of a range is above the second.
    EmptyRange,
    /// The protocol isn't a number of at most 255, `/`, and another one.
    BadProtocol,
    /// A word with `/` and without `=` follows the protocol, and it isn't two numbers of at most
    /// 65535 around `/`.
    BadFlags,
    /// A word with `=` isn't `pri=`, `cat=` or `data=` and a number in its bounds, or its name came
    /// before.
    BadAttribute,
    /// A word without `=` stands among the attributes.
    TailLeft,
    /// The category mask has none of its low 16 bits set.
    NoCategory,
    /// The priority is above 536,870,911.
    PriorityRange,
}
