//! A pcapng capture that is read packet by packet.

ghost use Rattle.std.specs.Prelude.{◌≡◌, ◌+◌, ◌≤◌, IfOk, IfSome, IsTrue, false, length, vec_len};
ghost use Rattle.pcap_reader.specs.Capture.{max_captured};
ghost use Rattle.pcap_reader.specs.ReaderStates.{has_failed};
ghost use Rattle.pcapng_reader.specs.Capture.{Blocks};
ghost use Rattle.pcapng_reader.specs.Packets.{Finds, answer_in};
ghost use Rattle.pcapng_reader.specs.Reader.{TakesNext};

use crate::blocks::{BlockRead, PacketPlace, read_block};
use crate::kind::Kind;
use crate::reader::{Reader, whole_front};
use acl_outside::Desk;
use pcap_reader::{CaptureFault, Link, Progress};
use std::marker::Model;

/// A pcapng capture that is read packet by packet.
#[derive(Drop)]
pub struct BlockCapture {
    reader: Reader,
    /// Room for a block, or for the captured bytes of a packet.
    buffer: Vec<u8>,
}

impl Model for BlockCapture {
    ghost use Rattle.std.specs.Prelude.{◌≡◌, vec_len};
    ghost use Rattle.pcap_reader.specs.Capture.{max_captured};
    ghost use Rattle.pcapng_reader.specs.Packets.{BlocksView};

    ghost Value = { BlocksView };

    ghost view = { λ capture. record { state = capture.reader; room = capture.buffer.items } };

    ghost invariant = { λ capture. vec_len capture.buffer ≡ max_captured };
}

impl BlockCapture {
    ghost use Rattle.std.specs.Borrow.{sem};
    ghost use Rattle.pcapng_reader.specs.BlockLending.{GoesOnBlocks};

    /// A capture of which the type of the first block was read, with a buffer of 262,144 bytes.
    pub fn new(reader: Reader, buffer: Vec<u8>) -> BlockCapture
        requires { vec_len buffer ≡ max_captured }
        ensures { result.state ≡ reader }
    {
        BlockCapture { reader, buffer }
    }

    /// The next packet, as [`AnyCapture::next`](crate::AnyCapture::next) has it.
    #[inline]
    pub fn next<D: Desk>(&mut self, desk: &mut D) -> Result<Option<(Link, &[u8])>, CaptureFault>
        requires reading { IsTrue (D.view desk.old).reading }
        requires unfailed { has_failed self.old.state.progress ≡ false }
        ensures* next { sem 𝓛 (GoesOnBlocks self.entry (D.view desk.old) (D.view desk.new) result) }
    {
        match self.advance(desk) {
            Ok(Some(place)) => {
                let end = place.at + place.len;
                Ok(Some((place.link, &self.buffer[place.at..end])))
            }
            Ok(None) => Ok(None),
            Err(fault) => Err(fault),
        }
    }

    /// Reads the next packet into the buffer, and says where its captured bytes stand there.
    #[inline]
    fn advance<D: Desk>(&mut self, desk: &mut D) -> Result<Option<PacketPlace>, CaptureFault>
        requires reading { IsTrue (D.view desk.old).reading }
        requires unfailed { has_failed self.old.state.progress ≡ false }
        ensures takes { TakesNext (Blocks self.old.state) (Blocks self.new.state)
            (D.view desk.old) (D.view desk.new) (answer_in self.new.room result) }
        ensures within { IfOk result (λ place. IfSome place (λ p.
            p.at + p.len ≤ length self.new.room)) }
    {
        let reader = &mut self.reader;
        let buffer = &mut self.buffer;
        take_packet(desk, reader, buffer)
    }

    /// Whether a packet that is whole in these bytes comes next, or after whole blocks without one.
    pub fn has_next_in(&self, bytes: &[u8]) -> bool {
        let mut order = self.reader.order;
        let mut left = bytes;
        while let Some(front) = whole_front(order, left) {
            if let Kind::Packet = front.kind {
                return true;
            }
            order = front.order;
            left = &left[front.total as usize..];
        }
        false
    }

    /// How many records were given.
    pub fn count(&self) -> u64
        ensures { result ≡ self.now.state.count }
    {
        self.reader.count
    }

    /// Whether an earlier call answered a fault.
    pub fn failed(&self) -> bool
        ensures { result ≡ has_failed self.now.state.progress }
    {
        self.reader.progress == Progress::Failed
    }
}

/// Takes the next packet, and says where in `buffer` its captured bytes stand, or `None` at the end
/// of the file, after which it asks for nothing.
#[inline]
fn take_packet<D: Desk>(
    desk: &mut D,
    reader: &mut Reader,
    buffer: &mut [u8],
) -> Result<Option<PacketPlace>, CaptureFault>
    requires reading { IsTrue (D.view desk.old).reading }
    requires room { length buffer.old ≡ max_captured }
    ensures takes { TakesNext (Blocks reader.old) (Blocks reader.new)
        (D.view desk.old) (D.view desk.new) (answer_in buffer.new result) }
    ensures within { IfOk result (λ place. IfSome place (λ p.
        p.at + p.len ≤ length buffer.new)) }
{
    if reader.has_ended() {
        return Ok(None);
    }
    match read_packet(desk, reader, buffer) {
        Ok(Some(place)) => Ok(Some(place)),
        Ok(None) => {
            reader.progress = Progress::Ended;
            Ok(None)
        }
        Err(fault) => {
            reader.progress = Progress::Failed;
            Err(fault)
        }
    }
}

/// Reads blocks up to the next packet, and says where in `buffer` its captured bytes stand, or
/// `None` at the end of the file.
#[inline]
fn read_packet<D: Desk>(
    desk: &mut D,
    reader: &mut Reader,
    buffer: &mut [u8],
) -> Result<Option<PacketPlace>, CaptureFault>
    requires reading { IsTrue (D.view desk.old).reading }
    requires room { length buffer.old ≡ max_captured }
    ensures packet { Finds reader.old reader.new (D.view desk.old) (D.view desk.new)
        (answer_in buffer.new result) }
    ensures within { IfOk result (λ place. IfSome place (λ p.
        p.at + p.len ≤ length buffer.new)) }
{
    'passing: loop {
        match read_block(desk, reader, buffer) {
            Ok(BlockRead::Given(place)) => return Ok(Some(place)),
            Ok(BlockRead::Passed) => {}
            Ok(BlockRead::End) => return Ok(None),
            Err(fault) => return Err(fault),
        }
    }
}
