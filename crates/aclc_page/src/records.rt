//! The call for the records of a capture.

ghost use Rattle.std.specs.Prelude.{◌≡◌, length, IfOk, IsTrue};
ghost use Rattle.acl_outside.specs.Memory.{left_in, shown_desk};
ghost use Rattle.header_extract.specs.Class.{settled};
ghost use Rattle.header_extract.specs.Link.{frame_class};
ghost use Rattle.pcap_reader.specs.declared.state.Progress.TheVariants as progress;
ghost use Rattle.pcapng_reader.specs.Capture.{records_from, whole_records};
ghost use Rattle.pcapng_reader.specs.Reader.{progress_of};
ghost use Rattle.aclc_page.specs.Rows.{ListsRecords, WritesRows, class_number, packet_row, row_len};
ghost use Rattle.aclc_page.specs.Taking.{TakesRow};

use crate::desk::{PageDesk, file_of};
use crate::printing::NO_MEMORY;
use acl_outside::{Desk, Failed};
use header_extract::{Class, KeyBuf, extract};
use pcap_reader::{BeginFault, Link};
use pcapng_reader::AnyCapture;
use std::alloc::{AllocError, Global};
use table_sizes::IP6_KEY_LEN;

/// How many bytes tell of a record: its class, and room for the key of its packet.
const ROW: usize = 1 + IP6_KEY_LEN;

/// The number of a class.
fn class_number(class: Class) -> u8
    ensures { result ≡ class_number class }
{
    match class {
        Class::Ip4 => 4,
        Class::Ip6 => 6,
        Class::Other => 0,
        Class::Short => 1,
    }
}

/// Writes the row of a frame.
fn write_row(link: Link, frame: &[u8], row: &mut [u8])
    requires { length row.old ≡ row_len }
    ensures { row.new ≡ packet_row (settled (frame_class link frame.now)) }
{
    let mut key = KeyBuf {
        bytes: [0; IP6_KEY_LEN],
    };
    let class = extract(link, frame, &mut key);
    row[0] = class_number(class);
    row[1..].copy_from_slice(&key.bytes);
}

/// Writes the row of the next record, and says whether there is one.
fn take_row<D: Desk>(capture: &mut AnyCapture, desk: &mut D, row: &mut [u8]) -> bool
    requires reading { IsTrue (D.view desk.old).reading }
    requires state { progress_of capture.old ≡ progress.Reading }
    requires room { length row.old ≡ row_len }
    ensures { TakesRow capture.old capture.new (D.view desk.old) (D.view desk.new)
        row.old row.new result }
{
    match capture.next(desk) {
        Ok(Some((link, frame))) => {
            write_row(link, frame, row);
            true
        }
        Ok(None) => false,
        Err(_fault) => false,
    }
}

/// Writes the rows of the records, as many as have room, and says how many.
fn write_rows(capture: &mut AnyCapture, desk: &mut PageDesk, rows: &mut [u8]) -> usize
    requires reading { IsTrue (shown_desk desk.old).reading }
    requires state { progress_of capture.old ≡ progress.Reading }
    ensures { WritesRows (records_from capture.old (left_in desk.old.hand)).records
        rows.old rows.new result }
{
    let mut count = 0usize;
    'rows: while rows.len() - count * ROW >= ROW {
        desk.never_failed();
        let at = count * ROW;
        let is_record = take_row(capture, desk, &mut rows[at..at + ROW]);
        desk.never_failed();
        if !is_record {
            return count;
        }
        count += 1;
    }
    count
}

/// A desk that has the capture, opened at its beginning.
fn opened(alloc: Global, capture: &[u8]) -> Result<PageDesk, AllocError>
    ensures left { IfOk result (λ desk. left_in desk.hand ≡ capture.now) }
    ensures reading { IfOk result (λ desk. IsTrue (shown_desk desk).reading) }
{
    let mut files = Vec::new(alloc);
    files.push(file_of(alloc, "capture", capture)?)?;
    let mut desk = PageDesk::new(alloc, files)?;
    match desk.open_file("capture") {
        Ok(()) => Ok(desk),
        Err(Failed) => unreachable!(),
    }
}

/// Writes the rows of the capture.
fn list_rows(alloc: Global, capture: &[u8], rows: &mut [u8]) -> Result<usize, AllocError>
    ensures rows { IfOk result (λ count. WritesRows (whole_records capture.now)
        rows.old rows.new count) }
    ensures size { length rows.new ≡ length rows.old }
{
    let mut desk = opened(alloc, capture)?;
    desk.never_failed();
    match AnyCapture::begin(alloc, &mut desk) {
        Ok(mut capture) => Ok(write_rows(&mut capture, &mut desk, rows)),
        Err(BeginFault::Capture(_fault)) => {
            desk.never_failed();
            Ok(0)
        }
        Err(BeginFault::OutOfMemory) => Err(AllocError),
    }
}

/// Writes a row for each record of a capture in turn, as many as have room, and counts them.
///
/// A row has 38 bytes:
///
///     | class: 1 | key: 37 |
///
/// The class is 4 or 6 for an IPv4 or an IPv6 packet, 0 for another frame, and 1 for a short one.
/// The key has 13 or 37 bytes, and all after it are 0. Records after the first fault of the capture
/// have no row. The code is 0, and 9 where there is no memory; then no row is counted.
#[unsafe(no_mangle)]
pub extern "C" fn page_records(
    alloc: Global,
    capture: &[u8],
    rows: &mut [u8],
    count: &mut u64,
) -> u32
    ensures { ListsRecords capture.now rows.old rows.new count.new result }
{
    *count = 0;
    match list_rows(alloc, capture, rows) {
        Ok(listed) => {
            *count = listed as u64;
            0
        }
        Err(AllocError) => NO_MEMORY,
    }
}
