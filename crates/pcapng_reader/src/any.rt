//! A capture of either format that is read record by record.

ghost use Rattle.std.specs.Prelude.{◌≡◌, IsTrue, false, vec_len};
ghost use Rattle.std.specs.Borrow.{sem};
ghost use Rattle.pcap_reader.specs.Capture.{max_captured};
ghost use Rattle.pcap_reader.specs.ReaderStates.{has_failed};
ghost use Rattle.pcapng_reader.specs.Capture.{begun_blocks, section_bytes};
ghost use Rattle.pcapng_reader.specs.Formats.{BeginsFormat};
ghost use Rattle.pcapng_reader.specs.SavefileLending.{GoesOnSavefile};
ghost use Rattle.pcapng_reader.specs.Reader.{Begins, count_of, progress_of};

use crate::blocks::SECTION_BYTES;
use crate::packets::BlockCapture;
use crate::reader::Reader;
use acl_outside::{Desk, Failed};
use pcap_reader::fill::fill;
use pcap_reader::{BeginFault, Capture, CaptureFault, Link, MAX_CAPTURED};
use std::alloc::Global;
use std::marker::Model;

/// A capture of either format that is read record by record from the opened file of a desk.
///
/// It holds one buffer of 262,144 bytes, into which each record is read, and room for the 1,024
/// interfaces of a section. The desk is lent to each call, and must have the same file opened.
#[derive(Drop)]
pub struct AnyCapture {
    format: Format,
}

/// The reader of the format.
#[derive(Drop)]
enum Format {
    /// That of a savefile of libpcap.
    Savefile(Capture),
    /// That of a pcapng file.
    Blocks(BlockCapture),
}

impl Model for AnyCapture {
    ghost use Rattle.pcapng_reader.specs.Capture.{AnyState};
    ghost use Rattle.pcapng_reader.specs.Formats.{state_of};

    ghost Value = { AnyState };

    ghost view = { λ capture. state_of capture.format };
}

impl AnyCapture {
    ghost use Rattle.pcapng_reader.specs.Lending.{GoesOn};

    /// Begins to read the opened file as a capture of either format, as its first four bytes say:
    /// takes the memory, and reads those bytes and the file header of a savefile.
    ///
    /// A file has to be opened, and is read from where it stands. [`BeginFault::OutOfMemory`] comes
    /// before anything is read. No other call takes memory. A pcapng file has no file header, so
    /// that all its faults are those of [`next`](AnyCapture::next). Sources: libpcap savefile
    /// format, file header; draft-ietf-opsawg-pcapng, section 4.1.
    pub fn begin<D: Desk>(alloc: Global, desk: &mut D) -> Result<AnyCapture, BeginFault>
        requires { IsTrue (D.view desk.old).reading }
        ensures { Begins (D.view desk.old) (D.view desk.new) result }
    {
        let mut buffer = Vec::new(alloc);
        buffer.resize(MAX_CAPTURED, 0)?;
        let reader = Reader::new(alloc)?;
        match begin_format(desk, reader, buffer) {
            Ok(format) => Ok(AnyCapture { format }),
            Err(fault) => Err(BeginFault::Capture(fault)),
        }
    }

    /// The link type and the captured bytes of the next record, or `None` at the end of the file.
    ///
    /// The file has to be opened still, and no earlier call may have failed. The bytes are read
    /// into the buffer, and no byte is asked for beyond the record or its block. Blocks of a pcapng
    /// file that aren't sections, interfaces or enhanced packets are passed over. After `None` it
    /// answers `None` again, and asks for nothing. A fault that isn't [`CaptureFault::ReadFault`]
    /// is that of the capture, whose numbers count records from 1. It takes no memory. Sources:
    /// libpcap savefile format, per-packet header; draft-ietf-opsawg-pcapng, sections 3 and 4.
    #[inline]
    pub fn next<D: Desk>(&mut self, desk: &mut D) -> Result<Option<(Link, &[u8])>, CaptureFault>
        requires reading { IsTrue (D.view desk.old).reading }
        requires unfailed { has_failed (progress_of self.old) ≡ false }
        ensures* next { sem 𝓛 (GoesOn self.entry (D.view desk.old) (D.view desk.new) result) }
    {
        match &mut self.format {
            Format::Savefile(capture) => next_of_savefile(capture, desk),
            Format::Blocks(capture) => capture.next(desk),
        }
    }

    /// Whether the next record is whole in these bytes, which come next in the file. Of a pcapng
    /// file each block before it has to be whole too. It reads nothing, and no clause says anything
    /// of the answer.
    pub fn has_next_in(&self, bytes: &[u8]) -> bool {
        match &self.format {
            Format::Savefile(capture) => capture.has_next_in(bytes),
            Format::Blocks(capture) => capture.has_next_in(bytes),
        }
    }

    /// How many records were given.
    pub fn count(&self) -> u64
        ensures { result ≡ count_of self.now }
    {
        match &self.format {
            Format::Savefile(capture) => capture.count(),
            Format::Blocks(capture) => capture.count(),
        }
    }

    /// Whether an earlier call answered a fault.
    pub fn failed(&self) -> bool
        ensures { result ≡ has_failed (progress_of self.now) }
    {
        match &self.format {
            Format::Savefile(capture) => capture.failed(),
            Format::Blocks(capture) => capture.failed(),
        }
    }
}

/// The next record of a savefile, with its link type.
#[inline]
fn next_of_savefile<'a, D: Desk>(
    capture: &'a mut Capture,
    desk: &mut D,
) -> Result<Option<(Link, &'a [u8])>, CaptureFault>
    requires reading { IsTrue (D.view desk.old).reading }
    requires unfailed { has_failed capture.old.progress ≡ false }
    ensures* next { sem 𝓛 (GoesOnSavefile capture.entry (D.view desk.old) (D.view desk.new)
        result) }
{
    let link = capture.link();
    match capture.next(desk) {
        Ok(Some(bytes)) => Ok(Some((link, bytes))),
        Ok(None) => Ok(None),
        Err(fault) => Err(fault),
    }
}

/// What the first bytes of the opened file say: a reader of blocks, or of a savefile with the
/// buffer.
fn begin_format<D: Desk>(
    desk: &mut D,
    reader: Reader,
    buffer: Vec<u8>,
) -> Result<Format, CaptureFault>
    requires reading { IsTrue (D.view desk.old).reading }
    requires reader { reader ≡ begun_blocks section_bytes }
    requires room { vec_len buffer ≡ max_captured }
    ensures { BeginsFormat (D.view desk.old) (D.view desk.new) result }
{
    let mut first = [0; SECTION_BYTES.len()];
    match fill(desk, &mut first) {
        Ok(4) => {}
        Ok(_) => return Err(CaptureFault::HeaderCut),
        Err(Failed) => return Err(CaptureFault::ReadFault),
    }
    if first == SECTION_BYTES {
        return Ok(Format::Blocks(BlockCapture::new(reader, buffer)));
    }
    match Capture::begin_in(buffer, desk, &first) {
        Ok(capture) => Ok(Format::Savefile(capture)),
        Err(fault) => Err(fault),
    }
}
