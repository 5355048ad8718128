//! The loop over the batches of a capture: take records, walk their keys, put their lines.

ghost use Rattle.std.specs.Prelude.{◌≡◌, ◌+◌, ◌*◌, ◌≤◌, IsTrue, length};
ghost use Rattle.acl_outside.specs.Sink.{Puts};
ghost use Rattle.command_ending.specs.StepEffects.{PutsLast, outside};
ghost use Rattle.capture_report.specs.NextRecord.{IsBegun};
ghost use Rattle.capture_report.specs.Report.{counted_all, lines_of_packets};
ghost use Rattle.capture_report.specs.Report.{transitions_of_packets};
ghost use Rattle.capture_report.specs.CaptureOutcome.{last_text};
ghost use Rattle.capture_report.specs.Batch.{AreNext, max_transitions};
ghost use Rattle.capture_report.specs.Taken.{max_batch};
ghost use Rattle.capture_report.specs.Streams.{Streams};

use crate::batch::{BatchEnd, take_batch};
use crate::capture::refused;
use crate::form::FormByTables;
use crate::lines::{write_last, write_lines};
use crate::room::Room;
use crate::verdicts::walk_keys;
use acl_outside::{Desk, Failed, Sink, put_all};
use acl_report::Counts;
use command_ending::Status;
use field_defs::Family;
use flat_table::Steps;
use pcapng_reader::AnyCapture;
use std::sync::ledger::Ledger;

/// Prints the lines of the records, from the first one on, and what comes after them.
pub fn print_records<D: Desk, O: Sink, L: Ledger>(
    form: &FormByTables<'_>,
    capture: &mut AnyCapture,
    room: &mut Room,
    desk: &mut D,
    out: &mut O,
    steps: &mut Steps<L>,
) -> Status
    requires reading { IsTrue (D.view desk.old).reading }
    requires begun { IsBegun capture.old }
    ensures { Streams form.now capture.old
        (outside (D.view desk.old) (O.view out.old) steps.old)
        (outside (D.view desk.new) (O.view out.new) steps.new) result }
{
    let mut counts = Counts::default();
    let mut transitions = 0;
    'batches: loop {
        let end = take_batch(capture, desk, &mut room.packets);
        match put_lines(form, room, &mut counts, &mut transitions, out, steps) {
            Ok(()) => {}
            Err(Failed) => return Status::WriteFault,
        }
        match end {
            BatchEnd::More => {}
            BatchEnd::End => return print_last(form, &counts, transitions, room, out),
            BatchEnd::Fault(fault) => return refused(fault),
        }
    }
}

/// Walks the keys of the packets of the batch, puts their lines to the sink, and counts the packets
/// and, in `transitions`, the transitions. It takes no memory.
///
/// `Failed`: the sink's count rose, and a first part of the lines was put.
fn put_lines<O: Sink, L: Ledger>(
    form: &FormByTables<'_>,
    room: &mut Room,
    counts: &mut Counts,
    transitions: &mut u64,
    out: &mut O,
    steps: &mut Steps<L>,
) -> Result<(), Failed>
    requires next { AreNext counts.old room.old }
    requires batch { length room.old ≤ max_batch }
    requires transitions { transitions.old ≤ counts.old.packets * (2 * max_transitions) }
    ensures puts { Puts (lines_of_packets form.now (counts.old.packets + 1) room.old)
        (O.view out.old) (O.view out.new) result }
    ensures counts { counts.new ≡ counted_all room.old counts.old }
    ensures transitions { transitions.new
        ≡ transitions.old + transitions_of_packets form.now.tables room.old }
    ensures bound { transitions.new ≤ counts.new.packets * (2 * max_transitions) }
    ensures steps { steps.new ≡ steps.old + transitions_of_packets form.now.tables room.old }
{
    let batch = room.packets.as_slice();
    let (keys, rows) = (&mut room.keys, &mut room.scratch);
    let all = batch.len();
    let (to, marks) = (&mut room.ip4.verdicts, &mut room.ip4.dashes);
    let ip4 = walk_keys(form, Family::Ip4, batch, all, keys, rows, to, marks, steps);
    // A packet of one family is none of the other.
    let rest = all - ip4.packets;
    let (to, marks) = (&mut room.ip6.verdicts, &mut room.ip6.dashes);
    let ip6 = walk_keys(form, Family::Ip6, batch, rest, keys, rows, to, marks, steps);
    *transitions += ip4.transitions + ip6.transitions;
    let (ip4, ip6) = (room.ip4.first(ip4.verdicts), room.ip6.first(ip6.verdicts));
    let len = write_lines(form, batch, ip4, ip6, counts, &mut room.lines);
    put_all(out, &room.lines[..len])
}

/// Prints the lines after those of a whole capture.
fn print_last<O: Sink>(
    form: &FormByTables<'_>,
    counts: &Counts,
    transitions: u64,
    room: &mut Room,
    out: &mut O,
) -> Status
    ensures { PutsLast (last_text form.now counts.now transitions) (O.view out.old)
        (O.view out.new) result }
{
    let len = write_last(form, counts, transitions, &mut room.lines);
    match put_all(out, &room.lines[..len]) {
        Ok(()) => Status::Done,
        Err(Failed) => Status::WriteFault,
    }
}
