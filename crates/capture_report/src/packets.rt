//! The packets of a batch.

ghost use Rattle.std.specs.Prelude.{◌≡◌, ◌<◌, ◌++◌, ◌∷◌, [], length};
ghost use Rattle.header_extract.specs.Class.{settled};
ghost use Rattle.header_extract.specs.Link.{frame_class};
ghost use Rattle.capture_report.specs.Packet.{IsPacket};
ghost use Rattle.capture_report.specs.Taken.{max_batch};

use crate::batch::MAX_BATCH;
use crate::packet::Packet;
use pcap_reader::Link;
use std::alloc::{AllocError, Global};
use std::marker::Model;

/// The packets of a batch, at most 64. Contracts see them as a list.
///
/// A packet is read into its place, and its room is used again for a later batch.
#[derive(Drop)]
pub struct Packets {
    /// Room for as many packets as a batch may have.
    slots: Vec<Packet>,
    /// How many of them are packets of the batch.
    len: usize,
}

impl Model for Packets {
    ghost use Rattle.std.specs.Prelude.{◌≡◌, ◌≤◌, List, take, vec_len};
    ghost use Rattle.header_extract.specs.Class.{FrameClass};
    ghost use Rattle.capture_report.specs.Taken.{max_batch};

    ghost Value = { List FrameClass };

    ghost view = { λ packets. take packets.len packets.slots.items };

    ghost invariant = { λ packets. (vec_len packets.slots ≡ max_batch)
        × (packets.len ≤ max_batch) };
}

impl Packets {
    /// No packets yet. It takes the memory for all that a batch may have.
    pub fn new(alloc: Global) -> Result<Self, AllocError> {
        let mut slots = Vec::with_capacity(alloc, MAX_BATCH)?;
        for _ in 0..MAX_BATCH {
            slots.push(Packet::new())?;
        }
        Ok(Packets { slots, len: 0 })
    }

    /// Drops all packets.
    pub fn clear(&mut self)
        ensures { self.new ≡ [] }
    {
        self.len = 0;
    }

    /// How many packets there are.
    pub fn len(&self) -> usize
        ensures { result ≡ length self.now }
    {
        self.len
    }

    /// The packets, in order.
    pub fn as_slice(&self) -> &[Packet]
        ensures { result.now ≡ self.now }
    {
        &self.slots[..self.len]
    }

    /// Puts the packet of a frame after the others, of which there are fewer than 64. It takes no
    /// memory.
    #[inline]
    pub fn add(&mut self, link: Link, frame: &[u8])
        requires { length self.old < max_batch }
        ensures packets { self.new ≡ self.old ++ settled (frame_class link frame.now) ∷ [] }
        ensures key { IsPacket (settled (frame_class link frame.now)) }
    {
        self.slots[self.len].read(link, frame);
        self.len += 1;
    }
}
