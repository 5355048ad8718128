//! Why a list isn't read.

ghost use Rattle.std.specs.Prelude.{◌≡◌};

use std::alloc::{AllocError, AllocFailed};

/// Why a list isn't read.
#[derive(Clone, Copy)]
pub enum CiscoFault {
    /// The file is too long, the list isn't in it, or this is its first faulty line.
    Line(LineFault),
    /// There isn't enough memory.
    OutOfMemory,
}

impl From<AllocError> for CiscoFault {
    ghost use Rattle.std.specs.Prelude.{◌≡◌};
    ghost use Rattle.cisco_reader.specs.declared.fault.CiscoFault.TheVariants.{OutOfMemory};

    ghost from_gives = { λ _ fault. fault ≡ OutOfMemory };

    fn from(_: AllocError) -> CiscoFault {
        CiscoFault::OutOfMemory
    }
}

impl<T: Drop> From<AllocFailed<T>> for CiscoFault {
    ghost use Rattle.std.specs.Prelude.{◌≡◌};
    ghost use Rattle.cisco_reader.specs.declared.fault.CiscoFault.TheVariants.{OutOfMemory};

    ghost from_gives = { λ _ fault. fault ≡ OutOfMemory };

    fn from(_: AllocFailed<T>) -> CiscoFault {
        CiscoFault::OutOfMemory
    }
}

/// The first faulty line of a file, by its number from 1, and its fault. A file that is too long
/// has the line 0, and one without the list its last line.
#[derive(Clone, Copy)]
pub struct LineFault {
    pub line: u32,
    pub kind: LineKind,
}

/// The kinds of faults. Of a line the first one from left to right is told.
#[derive(Clone, Copy)]
pub enum LineKind {
    /// The file has more than 16,777,216 bytes.
    FileTooLong,
    /// The list that is asked for isn't begun.
    NoList,
    /// The list that is asked for has no entry that permits or denies.
    NoEntries,
    /// The list that is asked for is begun, and isn't an extended list of IPv4.
    NotExtended,
    /// The line has `access-list`, and begins no list and is no entry of one.
    BadList,
    /// The line takes out a list, an entry, a group or a member, which a configuration doesn't when
    /// it is written.
    TakenOut,
    /// The entry stands outside of a list.
    StrayEntry,
    /// The line is no entry of the list in which it stands, and begins no other part.
    NoEntry,
    /// The line begins no part of a configuration that is known here.
    UnknownLine,
    /// The line stands in a banner or a macro and looks like one of a list, or begins one that
    /// doesn't end.
    BadText,
    /// The line follows a whole entry, and may be the end of it.
    Wrapped,
    /// The sequence number is 0 or above 4,294,967,294.
    BadSequence,
    /// The sequence number is that of an entry before.
    SequenceTwice,
    /// An entry before has no sequence number, and stands after a remark that may have one.
    LooseEntry,
    /// The line ends where a word is missing.
    MissingWord,
    /// Ports are compared beside a group of services, which has its own.
    Group,
    /// The line has `object-group`, and not exactly a kind that is known here and a name after it.
    BadGroup,
    /// The group was begun before with another kind.
    KindTwice,
    /// The group that is named isn't in the file.
    NoGroup,
    /// The group that is named is of a kind that doesn't fit at this place.
    OtherKind,
    /// The group that is named has no members.
    EmptyGroup,
    /// The group that the line names lies within itself, or in more than 100 others.
    GroupLoop,
    /// A group of the entry holds more than 65,536 members, or the members make more combinations.
    LargeGroup,
    /// The mask of a group's member is none of a network, or leaves out bits of the address.
    BadNetworkMask,
    /// The word is no protocol that is known here.
    BadProtocol,
    /// The protocol is 0, which means all protocols to some devices.
    ZeroProtocol,
    /// The word is no IPv4 address.
    BadAddress,
    /// The wildcard mask is none, or has more than 8 gaps.
    BadMask,
    /// The word is no port that is known here, or a range has its higher port first.
    BadPort,
    /// More than 10 ports stand after `eq` or `neq`.
    ManyPorts,
    /// Ports are compared, and the protocol isn't TCP, UDP or SCTP.
    NeedsProtocol,
    /// The entry compares what a rule can't: flags, fragments, marks, times or states.
    Compares,
    /// The entry or the group's member compares a type of ICMP.
    IcmpType,
    /// The word isn't known at this place.
    UnknownWord,
}

/// The fault of a line.
pub(crate) fn line_fault(line: u32, kind: LineKind) -> CiscoFault
    ensures { result ≡ CiscoFault.Line (record { line = line; kind = kind }) }
{
    CiscoFault::Line(LineFault { line, kind })
}

/// Why a line isn't read.
#[derive(Clone, Copy)]
pub(crate) enum Stop {
    /// It is faulty.
    Faulty(LineKind),
    /// There isn't enough memory.
    OutOfMemory,
}

impl Stop {
    ghost use Rattle.std.specs.Prelude.{◌≡◌};
    ghost use Rattle.cisco_reader.specs.Read.{fault_of};

    /// Why a list isn't read whose line isn't.
    pub(crate) fn at(self, line: u32) -> CiscoFault
        ensures { result ≡ fault_of line self }
    {
        match self {
            Stop::Faulty(kind) => line_fault(line, kind),
            Stop::OutOfMemory => CiscoFault::OutOfMemory,
        }
    }
}

impl<T: Drop> From<AllocFailed<T>> for Stop {
    ghost use Rattle.std.specs.Prelude.{◌≡◌};
    ghost use Rattle.cisco_reader.specs.declared.fault.Stop.TheVariants.{OutOfMemory};

    ghost from_gives = { λ _ stop. stop ≡ OutOfMemory };

    fn from(_: AllocFailed<T>) -> Stop {
        Stop::OutOfMemory
    }
}

impl From<LineKind> for Stop {
    ghost use Rattle.std.specs.Prelude.{◌≡◌};
    ghost use Rattle.cisco_reader.specs.declared.fault.Stop.TheVariants.{Faulty};

    ghost from_gives = { λ kind stop. stop ≡ Faulty kind };

    fn from(kind: LineKind) -> Stop {
        Stop::Faulty(kind)
    }
}
