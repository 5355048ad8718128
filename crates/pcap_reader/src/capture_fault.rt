//! Why a capture is refused.

use std::alloc::AllocError;
use std::fmt;
use thiserror::Error;

/// Why a capture is refused. A number is that of the record, from 1.
///
/// The first four are faults of the file header, and the first that holds is told. The bytes that
/// are left are those after the file header and all records before. The last seven are faults of a
/// pcapng capture alone, whose number is one more than that of the records before.
#[derive(Clone, Copy, Debug, PartialEq, Eq, Error)]
pub enum CaptureFault {
    /// The file has fewer than 24 bytes.
    HeaderCut,
    /// The first four bytes are neither magic in neither order.
    Magic,
    /// The version isn't 2.4.
    Version,
    /// The low 16 bits of the network number are none of the six link types.
    LinkType,
    /// Fewer than 16 bytes are left and at least one, or fewer captured bytes than a lawful
    /// captured length says.
    RecordCut(u64),
    /// The record header is whole, and its captured length is above 262,144.
    RecordTooLong(u64),
    /// At least one byte is left after 1,000,000,000 records, or in a pcapng capture after
    /// 2,000,000,000 blocks.
    TooManyRecords,
    /// The desk couldn't read, and its count of read faults rose.
    ReadFault,
    /// Fewer bytes are left than the block has, and at least one.
    PngCut(u64),
    /// The length of a block isn't a multiple of 4, has no room for what the block has to have, or
    /// stands at its end as another number.
    PngLength(u64),
    /// A section has its byte-order magic in neither order.
    PngOrder(u64),
    /// The major version of a section isn't 1.
    PngVersion(u64),
    /// The section has no interface of the packet's number.
    PngInterface(u64),
    /// The link type of the packet's interface is none of the six.
    PngLink(u64),
    /// The section has an interface after 1,024.
    PngTooMany(u64),
}

impl CaptureFault {
    /// The number of the record that it is told of.
    fn record(self) -> Option<u64> {
        match self {
            CaptureFault::RecordCut(record)
            | CaptureFault::RecordTooLong(record)
            | CaptureFault::PngCut(record)
            | CaptureFault::PngLength(record)
            | CaptureFault::PngOrder(record)
            | CaptureFault::PngVersion(record)
            | CaptureFault::PngInterface(record)
            | CaptureFault::PngLink(record)
            | CaptureFault::PngTooMany(record) => Some(record),
            _ => None,
        }
    }

    /// What is wrong.
    fn words(self) -> &'static str {
        match self {
            CaptureFault::HeaderCut => "header cut",
            CaptureFault::Magic => "magic",
            CaptureFault::Version => "version",
            CaptureFault::LinkType => "link type",
            CaptureFault::RecordCut(_) => "cut",
            CaptureFault::RecordTooLong(_) => "too long",
            CaptureFault::TooManyRecords => "too many",
            CaptureFault::ReadFault => "read fault",
            CaptureFault::PngCut(_) => "block cut",
            CaptureFault::PngLength(_) => "block length",
            CaptureFault::PngOrder(_) => "byte order",
            CaptureFault::PngVersion(_) => "section version",
            CaptureFault::PngInterface(_) => "no interface",
            CaptureFault::PngLink(_) => "interface link type",
            CaptureFault::PngTooMany(_) => "too many interfaces",
        }
    }
}

/// What is wrong, after the record that it is told of: `record 3: cut`.
impl fmt::Display for CaptureFault {
    fn fmt<W: fmt::Write>(&self, f: &mut fmt::Formatter<W>) -> fmt::Result {
        let words = self.words();
        match self.record() {
            Some(record) => write!(f, "record {record}: {words}"),
            None => f.write_str(words),
        }
    }
}

/// Why a capture isn't begun.
#[derive(Clone, Copy, Debug, PartialEq, Eq, Error)]
pub enum BeginFault {
    /// The file header has a fault, or can't be read.
    #[error(transparent)]
    Capture(CaptureFault),
    /// Memory ran out, before anything was read.
    #[error("out of memory")]
    OutOfMemory,
}

impl From<AllocError> for BeginFault {
    ghost use Rattle.std.specs.Prelude.{◌≡◌};
    ghost use Rattle.pcap_reader.specs.declared.capture_fault.BeginFault.TheVariants.{OutOfMemory};

    ghost from_gives = { λ _ fault. fault ≡ OutOfMemory };

    fn from(_: AllocError) -> BeginFault {
        BeginFault::OutOfMemory
    }
}
