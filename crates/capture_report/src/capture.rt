//! The report of a named capture, from the tables of both families.

ghost use Rattle.std.specs.Prelude.{◌≡◌};
ghost use Rattle.table_sizes.specs.Groups.{ip4_key_len, ip6_key_len};
ghost use Rattle.command_ending.specs.StepEffects.{outside};
ghost use Rattle.capture_report.specs.CaptureOutcome.{refusal};
ghost use Rattle.capture_report.specs.PrintsCapture.{PrintsCapture};

use crate::conductor::print_records;
use crate::form::{FormByTables, PrintOptions};
use crate::room::Room;
use acl_outside::{Desk, Failed, Sink};
use command_ending::Status;
use flat_table::{Steps, Table};
use pcap_reader::{BeginFault, CaptureFault};
use pcapng_reader::AnyCapture;
use std::alloc::{AllocError, Global};
use std::sync::ledger::Ledger;

/// Prints what the tables of both families answer for the packets of the named capture: a line for
/// each record, and after a whole capture the line of the counts and, where they are asked for,
/// those of the tables and of the transitions. The capture is a savefile of libpcap or a pcapng
/// file, as its first bytes say.
///
/// The keys of the tables have 13 and 37 bytes. At most 64 records are read ahead of their lines,
/// and their keys are walked a batch at a time; `steps` rises by the transitions. All memory is
/// taken before the first byte is put. `CaptureRefused`, `ReadFault`: the lines of the records
/// before the fault were put. `WriteFault`: a first part of the text was put. `OutOfMemory`:
/// nothing was put.
pub fn print_packets<D: Desk, O: Sink, L: Ledger>(
    alloc: Global,
    ip4: &Table,
    ip6: &Table,
    capture: &str,
    options: &PrintOptions,
    desk: &mut D,
    out: &mut O,
    steps: &mut Steps<L>,
) -> Status
    requires ip4 { ip4.now.key_len ≡ ip4_key_len }
    requires ip6 { ip6.now.key_len ≡ ip6_key_len }
    ensures { PrintsCapture (record { ip4 = ip4.now; ip6 = ip6.now }) options.now capture.now
        (outside (D.view desk.old) (O.view out.old) steps.old)
        (outside (D.view desk.new) (O.view out.new) steps.new) result }
{
    let form = FormByTables::new(ip4, ip6, *options);
    let mut room = match Room::new(alloc) {
        Ok(room) => room,
        Err(AllocError) => return Status::OutOfMemory,
    };
    match desk.open_file(capture) {
        Ok(()) => {}
        Err(Failed) => return Status::ReadFault,
    }
    match AnyCapture::begin(alloc, desk) {
        Ok(mut capture) => print_records(&form, &mut capture, &mut room, desk, out, steps),
        Err(BeginFault::Capture(fault)) => refused(fault),
        Err(BeginFault::OutOfMemory) => Status::OutOfMemory,
    }
}

/// The status of a fault of a capture.
pub fn refused(fault: CaptureFault) -> Status
    ensures { result ≡ refusal fault }
{
    match fault {
        CaptureFault::ReadFault => Status::ReadFault,
        fault => Status::CaptureRefused(fault),
    }
}
