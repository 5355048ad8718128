//! The memory of a batch: its packets, their keys, rows, answers and lines.

ghost use Rattle.std.specs.Prelude.{◌≡◌, ◌≤◌, IfOk, take, vec_len};
ghost use Rattle.capture_report.specs.Rooms.{HasAnswers};

use crate::batch::MAX_BATCH;
use crate::lines::FamilyAnswers;
use crate::packets::Packets;
use crate::verdicts::{BATCH_KEYS, BATCH_VERDICTS};
use acl_report::LINE_ROOM;
use flow_core::Scratch;
use std::alloc::{AllocError, Global};
use std::marker::Model;

/// How many bytes the lines of a batch have at most.
const BATCH_LINES: usize = MAX_BATCH * LINE_ROOM;

/// Room for what is answered for the packets of a family, one packet after the other.
#[derive(Drop)]
pub struct Answers {
    /// The verdicts, so many of each packet as there are categories.
    pub verdicts: Vec<u32>,
    /// Beside each whether a dash is shown for it, where marks are asked for.
    pub dashes: Vec<bool>,
}

impl Answers {
    /// Room for the answers for a batch, whose memory it takes.
    fn new(alloc: Global) -> Result<Self, AllocError>
        ensures { IfOk result HasAnswers }
    {
        Ok(Answers {
            verdicts: vec![in alloc; 0; BATCH_VERDICTS]?,
            dashes: vec![in alloc; false; BATCH_VERDICTS]?,
        })
    }

    /// The first of them, so many verdicts and marks.
    #[inline]
    pub fn first(&self, count: usize) -> FamilyAnswers<'_>
        requires verdicts { count ≤ vec_len self.now.verdicts }
        requires dashes { count ≤ vec_len self.now.dashes }
        ensures verdicts { result.verdicts.now ≡ take count self.now.verdicts.items }
        ensures dashes { result.dashes.now ≡ take count self.now.dashes.items }
    {
        FamilyAnswers {
            verdicts: &self.verdicts[..count],
            dashes: &self.dashes[..count],
        }
    }
}

/// Room for a batch. Contracts see its packets.
pub struct Room {
    /// The packets of the batch.
    pub packets: Packets,
    /// The keys of the packets of one family, one after the other.
    pub keys: Vec<u8>,
    /// A row for each of these keys.
    pub scratch: Scratch,
    /// What is answered for the IPv4 packets.
    pub ip4: Answers,
    /// What is answered for the IPv6 packets.
    pub ip6: Answers,
    /// The lines of the batch.
    pub lines: Vec<u8>,
}

impl Model for Room {
    ghost use Rattle.std.specs.Prelude.{List};
    ghost use Rattle.header_extract.specs.Class.{FrameClass};
    ghost use Rattle.capture_report.specs.Rooms.{HasRoom};

    ghost Value = { List FrameClass };

    ghost view = { λ room. room.packets };

    ghost invariant = { λ room. HasRoom room.keys room.scratch room.ip4 room.ip6
        room.lines };
}

/// It is written out so that letting go is one call, and not the steps of its six parts at each
/// place where one ends.
impl Drop for Room {
    fn drop(self) {
        let Room {
            packets: _,
            keys: _,
            scratch: _,
            ip4: _,
            ip6: _,
            lines: _,
        } = self;
    }
}

impl Room {
    /// Room for a batch. It takes all the memory that printing a capture needs, but for the buffer
    /// of its reader.
    pub fn new(alloc: Global) -> Result<Self, AllocError> {
        Ok(Room {
            packets: Packets::new(alloc)?,
            keys: vec![in alloc; 0; BATCH_KEYS]?,
            scratch: Scratch::new(alloc, MAX_BATCH)?,
            ip4: Answers::new(alloc)?,
            ip6: Answers::new(alloc)?,
            lines: vec![in alloc; 0; BATCH_LINES]?,
        })
    }
}
