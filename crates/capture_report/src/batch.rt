//! Records of a capture, at most 64 at a time, as their packets.

ghost use Rattle.std.specs.Prelude.{◌<◌, IsTrue, length};
ghost use Rattle.capture_report.specs.NextRecord.{MayGoOn};
ghost use Rattle.capture_report.specs.Taken.{TakesBatch, TakesRecord, max_batch};

use crate::packets::Packets;
use acl_outside::Desk;
use pcap_reader::CaptureFault;
use pcapng_reader::AnyCapture;

/// How many records are taken at most before their lines are put.
pub const MAX_BATCH: usize = 64;

/// Why no more records are taken into a batch.
#[derive(Clone, Copy)]
pub enum BatchEnd {
    /// The capture may have more: there are as many as a batch may have, or the next one may have
    /// to be waited for.
    More,
    /// The capture has no more records.
    End,
    /// The capture has a fault after its records, or can't be read.
    Fault(CaptureFault),
}

/// Takes the next records of a capture, and says why there aren't more. It takes no memory.
///
/// The packets that were there before are dropped. After the first record none is read that may
/// have to be waited for, so that the lines of those before it can be put first.
pub fn take_batch<D: Desk>(
    capture: &mut AnyCapture,
    desk: &mut D,
    packets: &mut Packets,
) -> BatchEnd
    requires reading { IsTrue (D.view desk.old).reading }
    requires state { MayGoOn capture.old }
    ensures batch { TakesBatch capture.old capture.new packets.new
        (D.view desk.old) (D.view desk.new) result }
{
    packets.clear();
    while packets.len() < MAX_BATCH {
        match take_record(capture, desk, packets) {
            Some(end) => return end,
            None => {}
        }
        if may_wait(capture, desk) {
            return BatchEnd::More;
        }
    }
    BatchEnd::More
}

/// Whether the next record may have to be waited for: reading more may, and the record isn't whole
/// in what is at hand.
#[inline]
fn may_wait<D: Desk>(capture: &AnyCapture, desk: &D) -> bool {
    match desk.at_hand() {
        Some(bytes) => !capture.has_next_in(bytes),
        None => false,
    }
}

/// Takes the next record after the others, or says why there is none.
fn take_record<D: Desk>(
    capture: &mut AnyCapture,
    desk: &mut D,
    packets: &mut Packets,
) -> Option<BatchEnd>
    requires reading { IsTrue (D.view desk.old).reading }
    requires state { MayGoOn capture.old }
    requires room { length packets.old < max_batch }
    ensures takes { TakesRecord capture.old capture.new packets.old packets.new
        (D.view desk.old) (D.view desk.new) result }
{
    match capture.next(desk) {
        Ok(Some((link, frame))) => {
            packets.add(link, frame);
            None
        }
        Ok(None) => Some(BatchEnd::End),
        Err(fault) => Some(BatchEnd::Fault(fault)),
    }
}
