//! The headers of a capture, number by number, in the byte order that the caller names.

ghost use Rattle.std.specs.Prelude.{◌≡◌};
ghost use Rattle.pcap_reader.specs.HeaderReads.{file_header_by, record_header_by};

use byte_numbers::{u16_at, u32_at};
use byteorder::ByteOrder;

/// The numbers of a file header that are read. All others are ignored.
#[derive(Clone, Copy)]
pub struct FileHeader {
    pub magic: u32,
    pub major: u16,
    pub minor: u16,
    /// The link type in its low 16 bits.
    pub network: u32,
}

/// The lengths of a record header, in bytes. The time of the record is ignored.
#[derive(Clone, Copy)]
pub struct RecordHeader {
    /// How many bytes were captured, which stand after the header.
    pub captured: u32,
    /// How many bytes the packet had. It may be below `captured` in a file that lies.
    pub original: u32,
}

/// The numbers of a file header of 24 bytes, in the order `B`.
///
/// It refuses nothing and takes no memory. Source: libpcap savefile format, file header.
pub fn file_header<B: ByteOrder>(bytes: &[u8; 24]) -> FileHeader
    ensures { result ≡ file_header_by B.number_of bytes.now }
{
    FileHeader {
        magic: u32_at::<B>(bytes, 0),
        major: u16_at::<B>(bytes, 4),
        minor: u16_at::<B>(bytes, 6),
        network: u32_at::<B>(bytes, 20),
    }
}

/// The lengths of a record header of 16 bytes, in the order `B`.
///
/// It refuses nothing and takes no memory. Source: libpcap savefile format, per-packet header.
#[inline]
pub fn record_header<B: ByteOrder>(bytes: &[u8; 16]) -> RecordHeader
    ensures { result ≡ record_header_by B.number_of bytes.now }
{
    RecordHeader {
        captured: u32_at::<B>(bytes, 8),
        original: u32_at::<B>(bytes, 12),
    }
}
