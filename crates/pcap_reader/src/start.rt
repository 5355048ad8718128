//! What a file header says of the records after it.

ghost use Rattle.std.specs.Prelude.{◌≡◌, length};
ghost use Rattle.pcap_reader.specs.Start.{is_magic, order_of, link_of, or_fault, start_in};

use crate::capture_fault::CaptureFault;
use crate::header::{FileHeader, RecordHeader, file_header, record_header};
use crate::link::Link;
use byteorder::{BigEndian, LittleEndian};

/// How many bytes a file header has.
pub const FILE_HEADER: usize = 24;
/// How many bytes a record header has.
pub const RECORD_HEADER: usize = 16;
/// The magic of a file whose times are in microseconds.
const MICROSECONDS: u32 = 0xA1B2_C3D4;
/// The magic of a file whose times are in nanoseconds.
const NANOSECONDS: u32 = 0xA1B2_3C4D;
/// The major version of the format 2.4.
const MAJOR: u16 = 2;
/// The minor version of the format 2.4.
const MINOR: u16 = 4;
/// The bits of the network number that are the link type.
const LINK_TYPE: u32 = 0xFFFF;

/// The order of the numbers of a capture, which is that of its magic.
#[derive(Clone, Copy)]
pub enum Order {
    /// The most significant byte stands first.
    Big,
    /// The least significant byte stands first.
    Little,
}

impl Order {
    ghost use Rattle.std.specs.Prelude.{◌≡◌};
    ghost use Rattle.pcap_reader.specs.Headers.{file_header_of, record_header_of};

    /// The numbers of a file header in this order.
    pub fn file_header(self, bytes: &[u8; FILE_HEADER]) -> FileHeader
        ensures { result ≡ file_header_of self bytes.now }
    {
        match self {
            Order::Big => file_header::<BigEndian>(bytes),
            Order::Little => file_header::<LittleEndian>(bytes),
        }
    }

    /// The lengths of a record header in this order.
    #[inline]
    pub fn record_header(self, bytes: &[u8; RECORD_HEADER]) -> RecordHeader
        ensures { result ≡ record_header_of self bytes.now }
    {
        match self {
            Order::Big => record_header::<BigEndian>(bytes),
            Order::Little => record_header::<LittleEndian>(bytes),
        }
    }
}

/// What a file header says of the records after it.
#[derive(Clone, Copy)]
pub struct Start {
    pub order: Order,
    pub link: Link,
}

/// What a whole file header says, or its first fault.
pub fn read_start(header: &[u8; FILE_HEADER]) -> Result<Start, CaptureFault>
    ensures { result ≡ start_in header.now }
{
    let order = read_order(header)?;
    let header = order.file_header(header);
    if header.major != MAJOR || header.minor != MINOR {
        return Err(CaptureFault::Version);
    }
    let link = read_link(header.network)?;
    Ok(Start { order, link })
}

/// The order in which the first four bytes are a magic.
fn read_order(header: &[u8; FILE_HEADER]) -> Result<Order, CaptureFault>
    ensures { result ≡ or_fault CaptureFault.Magic (order_of header.now) }
{
    if is_magic(Order::Big.file_header(header).magic) {
        return Ok(Order::Big);
    }
    if is_magic(Order::Little.file_header(header).magic) {
        return Ok(Order::Little);
    }
    Err(CaptureFault::Magic)
}

/// Whether a number is the magic of a capture.
fn is_magic(number: u32) -> bool
    ensures { result ≡ is_magic number }
{
    number == MICROSECONDS || number == NANOSECONDS
}

/// The link type in the low 16 bits of the network number.
fn read_link(network: u32) -> Result<Link, CaptureFault>
    ensures { result ≡ or_fault CaptureFault.LinkType (link_of network) }
{
    match Link::of_number(network & LINK_TYPE) {
        Some(link) => Ok(link),
        None => Err(CaptureFault::LinkType),
    }
}
