//! Reading the blocks from the opened file of a desk.
//!
//! A block is read in two parts: its front, which has twelve bytes, and its rest. Most blocks are
//! whole packets in the section's order. These go the fast way:
//!
//!     read_block → read_rest → read_within → read_short
//!
//! All others leave it, by a call that is never inlined:
//!
//!     | from | by | when |
//!     | `read_block` | `read_slow` | its type was read before, or no block more may be read |
//!     | `read_rest` | `read_any` | it is no packet, its front is refused, or it is long |
//!     | `read_any` | `read_long` | it has no room in the buffer |
//!     | `read_short` | `settle` | it isn't a whole packet that ends in its length |
//!
//! What a call promises is one record of `specs/BlockReading.antt`: `AnswersBlock`, or once the
//! front was read `AnswersRest`.

ghost use Rattle.std.specs.Prelude.{[], ◌≡◌, ◌+◌, ◌≤◌, List, ℕ, Ok, IsTrue, false, true};
ghost use Rattle.std.specs.Prelude.{length, take};
ghost use Rattle.acl_outside.specs.Desk.{DeskView};
ghost use Rattle.pcap_reader.specs.Capture.{max_captured};
ghost use Rattle.pcapng_reader.specs.Block.{front_len, front_of, is_last};
ghost use Rattle.pcapng_reader.specs.Capture.{section_bytes};
ghost use Rattle.pcapng_reader.specs.BlockReading.{AnswersBlock, AnswersRest, HasRest, ReadsPart};
ghost use Rattle.pcapng_reader.specs.BlockReading.{read_of};

use crate::front::Front;
use crate::long::read_long;
use crate::number::u32_in;
use crate::reader::Reader;
use crate::said::Said;
use acl_outside::{Desk, Failed};
use pcap_reader::fill::fill;
use pcap_reader::{CaptureFault, Link, Order};

/// How many bytes a block has at least: its type, and its length twice.
pub const FRONT_LEN: usize = 12;
/// The type of a section block.
pub const SECTION_BYTES: [u8; 4] = [0x0A, 0x0D, 0x0D, 0x0A];
/// Where the captured bytes of an enhanced packet begin.
pub const CAPTURED_AT: usize = 28;

/// Where the captured bytes of a packet stand in the buffer, its link type, and how many they are.
#[derive(Clone, Copy)]
pub struct PacketPlace {
    pub at: usize,
    pub link: Link,
    pub len: usize,
}

/// What was read.
#[derive(Clone, Copy)]
pub enum BlockRead {
    /// No byte was left.
    End,
    /// A block without a record.
    Passed,
    /// A packet.
    Given(PacketPlace),
}

/// Reads the next block, and says where in `buffer` the captured bytes of its packet stand, if it
/// has one.
#[inline]
pub fn read_block<D: Desk>(
    desk: &mut D,
    reader: &mut Reader,
    buffer: &mut [u8],
) -> Result<BlockRead, CaptureFault>
    requires reading { IsTrue (D.view desk.old).reading }
    requires room { length buffer.old ≡ max_captured }
    ensures { AnswersBlock reader.old reader.new buffer.new (D.view desk.old)
        (D.view desk.new) result }
{
    if reader.takes_slow_way() {
        return read_slow_in_parts(desk, reader, buffer);
    }
    match read_new_front(desk, reader, &mut buffer[..FRONT_LEN]) {
        Ok(FRONT_LEN) => {}
        Ok(0) => return Ok(BlockRead::End),
        Ok(_) => return Err(CaptureFault::PngCut(reader.count + 1)),
        Err(Failed) => return Err(CaptureFault::ReadFault),
    }
    // Each order has a call of its own, in which what depends on it is settled.
    match reader.order {
        Order::Big => read_rest(desk, reader, Order::Big, buffer),
        Order::Little => read_rest(desk, reader, Order::Little, buffer),
    }
}

/// The answer of [`read_slow`], made of its parts anew.
#[inline(always)]
fn read_slow_in_parts<D: Desk>(
    desk: &mut D,
    reader: &mut Reader,
    buffer: &mut [u8],
) -> Result<BlockRead, CaptureFault>
    requires reading { IsTrue (D.view desk.old).reading }
    requires room { length buffer.old ≡ max_captured }
    ensures { AnswersBlock reader.old reader.new buffer.new (D.view desk.old)
        (D.view desk.new) result }
{
    in_parts(read_slow(desk, reader, buffer))
}

/// Reads the next block, whatever was read before it.
#[inline(never)]
fn read_slow<D: Desk>(
    desk: &mut D,
    reader: &mut Reader,
    buffer: &mut [u8],
) -> Result<BlockRead, CaptureFault>
    requires reading { IsTrue (D.view desk.old).reading }
    requires room { length buffer.old ≡ max_captured }
    ensures { AnswersBlock reader.old reader.new buffer.new (D.view desk.old)
        (D.view desk.new) result }
{
    if reader.is_last() {
        return read_end(desk, reader);
    }
    let number = reader.count + 1;
    match read_front(desk, reader, &mut buffer[..FRONT_LEN]) {
        Ok(FRONT_LEN) => {}
        Ok(0) => return Ok(BlockRead::End),
        Ok(_) => return Err(CaptureFault::PngCut(number)),
        Err(Failed) => return Err(CaptureFault::ReadFault),
    }
    read_any(desk, reader, buffer)
}

/// Reads the rest of a block of a section in this order, of which `buffer` has the first twelve
/// bytes.
#[inline(always)]
fn read_rest<D: Desk>(
    desk: &mut D,
    reader: &mut Reader,
    order: Order,
    buffer: &mut [u8],
) -> Result<BlockRead, CaptureFault>
    requires reading { IsTrue (D.view desk.old).reading }
    requires few { is_last reader.old ≡ false }
    requires order { order ≡ reader.old.order }
    requires room { length buffer.old ≡ max_captured }
    ensures { AnswersRest reader.old reader.new buffer.old buffer.new (D.view desk.old)
        (D.view desk.new) result }
{
    // Most blocks are packets, whose kind is settled where they are read.
    match reader.packet_front(order, &buffer[..FRONT_LEN]) {
        Some(front) => read_within(desk, reader, &front, buffer),
        None => read_any_in_parts(desk, reader, buffer),
    }
}

/// The answer of [`read_any`], made of its parts anew.
#[inline(always)]
fn read_any_in_parts<D: Desk>(
    desk: &mut D,
    reader: &mut Reader,
    buffer: &mut [u8],
) -> Result<BlockRead, CaptureFault>
    requires reading { IsTrue (D.view desk.old).reading }
    requires few { is_last reader.old ≡ false }
    requires room { length buffer.old ≡ max_captured }
    ensures { AnswersRest reader.old reader.new buffer.old buffer.new (D.view desk.old)
        (D.view desk.new) result }
{
    in_parts(read_any(desk, reader, buffer))
}

/// Reads the rest of a block of any kind, of which `buffer` has the first twelve bytes.
#[inline(never)]
fn read_any<D: Desk>(
    desk: &mut D,
    reader: &mut Reader,
    buffer: &mut [u8],
) -> Result<BlockRead, CaptureFault>
    requires reading { IsTrue (D.view desk.old).reading }
    requires few { is_last reader.old ≡ false }
    requires room { length buffer.old ≡ max_captured }
    ensures { AnswersRest reader.old reader.new buffer.old buffer.new (D.view desk.old)
        (D.view desk.new) result }
{
    let front = match reader.front(&buffer[..FRONT_LEN]) {
        Ok(front) => front,
        Err(fault) => return Err(fault),
    };
    if front.total as usize > buffer.len() {
        return read_long(desk, reader, &front, buffer);
    }
    read_within(desk, reader, &front, buffer)
}

/// Reads the rest of a block that has room in `buffer`, which has its first twelve bytes.
#[inline(always)]
fn read_within<D: Desk>(
    desk: &mut D,
    reader: &mut Reader,
    front: &Front,
    buffer: &mut [u8],
) -> Result<BlockRead, CaptureFault>
    requires reading { IsTrue (D.view desk.old).reading }
    requires few { is_last reader.old ≡ false }
    requires front { front_of reader.old (take front_len buffer.old) ≡ Ok front.now }
    requires room { length buffer.old ≡ max_captured }
    requires fits { front.now.total ≤ max_captured }
    ensures { AnswersRest reader.old reader.new buffer.old buffer.new (D.view desk.old)
        (D.view desk.new) result }
{
    read_short(desk, reader, front, &mut buffer[..front.total as usize])
}

/// Reads the first bytes of a block, of which the type may have been read before, and says how many
/// they are: all that `into` has room for, or fewer where the file ends before.
fn read_front<D: Desk>(desk: &mut D, reader: &Reader, into: &mut [u8]) -> Result<usize, Failed>
    requires reading { IsTrue (D.view desk.old).reading }
    requires room { length into.old ≡ front_len }
    ensures { ReadsPart reader.now into.new (D.view desk.old) (D.view desk.new) result }
{
    if reader.type_read {
        return read_front_after_type(desk, reader, into);
    }
    fill(desk, into)
}

/// The same where no byte of the block was read before.
#[inline(always)]
fn read_new_front<D: Desk>(desk: &mut D, reader: &Reader, into: &mut [u8]) -> Result<usize, Failed>
    requires reading { IsTrue (D.view desk.old).reading }
    requires room { length into.old ≡ front_len }
    requires first { reader.now.first ≡ [] }
    ensures { ReadsPart reader.now into.new (D.view desk.old) (D.view desk.new) result }
{
    fill(desk, into)
}

/// The same where the type was read before.
#[inline(never)]
fn read_front_after_type<D: Desk>(
    desk: &mut D,
    reader: &Reader,
    into: &mut [u8],
) -> Result<usize, Failed>
    requires reading { IsTrue (D.view desk.old).reading }
    requires room { length into.old ≡ front_len }
    requires first { reader.now.first ≡ section_bytes }
    ensures { ReadsPart reader.now into.new (D.view desk.old) (D.view desk.new) result }
{
    into[..SECTION_BYTES.len()].copy_from_slice(&SECTION_BYTES);
    match fill(desk, &mut into[SECTION_BYTES.len()..]) {
        Ok(len) => Ok(SECTION_BYTES.len() + len),
        Err(Failed) => Err(Failed),
    }
}

/// Reads the rest of a block that has room in the buffer, of which `block` has the first twelve
/// bytes.
#[inline(always)]
fn read_short<D: Desk>(
    desk: &mut D,
    reader: &mut Reader,
    front: &Front,
    block: &mut [u8],
) -> Result<BlockRead, CaptureFault>
    requires reading { IsTrue (D.view desk.old).reading }
    requires few { is_last reader.old ≡ false }
    requires front { front_of reader.old (take front_len block.old) ≡ Ok front.now }
    requires total { length block.old ≡ front.now.total }
    requires fits { front.now.total ≤ max_captured }
    ensures { AnswersRest reader.old reader.new block.old block.new (D.view desk.old)
        (D.view desk.new) result }
{
    let count = match fill(desk, &mut block[FRONT_LEN..]) {
        Ok(count) => count,
        Err(Failed) => return Err(CaptureFault::ReadFault),
    };
    // Most blocks are whole packets, of which nothing is refused.
    match reader.packet_at(front, block, count) {
        Some(place) => {
            reader.count_packet();
            Ok(BlockRead::Given(place))
        }
        None => settle_in_parts(reader, *front, block, count),
    }
}

/// The answer of [`settle`], made of its parts anew.
#[inline(always)]
fn settle_in_parts(
    reader: &mut Reader,
    front: Front,
    block: &[u8],
    count: usize,
) -> Result<BlockRead, CaptureFault>
    requires few { is_last reader.old ≡ false }
    requires front { front_of reader.old (take front_len block.now) ≡ Ok front }
    requires total { length block.now ≡ front.total }
    requires within { front_len + count ≤ length block.now }
    ensures { (before after : DeskView) → HasRest reader.old block.now count before after
        → AnswersBlock reader.old reader.new block.now before after result }
{
    in_parts(settle(reader, front, block, count))
}

/// The same answer, made of its parts anew. A packet that is read at once then meets none in
/// memory. Its argument is asked for beside it in a function of its own, so that the room for it is
/// zeroed where it is asked for, and not at each packet.
#[inline(always)]
fn in_parts(answer: Result<BlockRead, CaptureFault>) -> Result<BlockRead, CaptureFault>
    ensures { result ≡ answer }
{
    match answer {
        Ok(BlockRead::Given(place)) => Ok(BlockRead::Given(PacketPlace {
            link: place.link,
            at: place.at,
            len: place.len,
        })),
        Ok(BlockRead::Passed) => Ok(BlockRead::Passed),
        Ok(BlockRead::End) => Ok(BlockRead::End),
        Err(fault) => Err(fault),
    }
}

/// What a block comes to that has room in the buffer, of which so many bytes were read after its
/// first twelve: all that it has, or fewer where the file ended.
#[inline(never)]
fn settle(
    reader: &mut Reader,
    front: Front,
    block: &[u8],
    count: usize,
) -> Result<BlockRead, CaptureFault>
    requires few { is_last reader.old ≡ false }
    requires front { front_of reader.old (take front_len block.now) ≡ Ok front }
    requires total { length block.now ≡ front.total }
    requires within { front_len + count ≤ length block.now }
    ensures { (before after : DeskView) → HasRest reader.old block.now count before after
        → AnswersBlock reader.old reader.new block.now before after result }
{
    let number = reader.count + 1;
    let len = FRONT_LEN + count;
    if len < front.kind.least_len() as usize - 4 {
        return Err(CaptureFault::PngCut(number));
    }
    let said = match reader.said(&front, block) {
        Ok(said) => said,
        Err(fault) => return Err(fault),
    };
    if len < block.len() {
        return Err(CaptureFault::PngCut(number));
    }
    if u32_in(front.order, block, block.len() - 4) != front.total {
        return Err(CaptureFault::PngLength(number));
    }
    reader.learn(&front, said);
    Ok(read_of(said, CAPTURED_AT))
}

/// Reads no block after the last that a capture may have: the end of the file, else a fault.
#[inline(never)]
fn read_end<D: Desk>(desk: &mut D, reader: &Reader) -> Result<BlockRead, CaptureFault>
    requires reading { IsTrue (D.view desk.old).reading }
    requires last { is_last reader.now ≡ true }
    ensures { (buffer : List ℕ)
        → AnswersBlock reader.now reader.now buffer (D.view desk.old) (D.view desk.new) result }
{
    if reader.type_read {
        return Err(CaptureFault::TooManyRecords);
    }
    let mut byte = [0; 1];
    match fill(desk, &mut byte) {
        Ok(0) => Ok(BlockRead::End),
        Ok(_) => Err(CaptureFault::TooManyRecords),
        Err(Failed) => Err(CaptureFault::ReadFault),
    }
}

/// What was read of a block that says so, whose captured bytes stand from this place on.
#[inline]
pub fn read_of(said: Said, at: usize) -> BlockRead
    ensures { result ≡ read_of said at }
{
    match said {
        Said::Packet(link, captured) => {
            let len = captured as usize;
            BlockRead::Given(PacketPlace { link, at, len })
        }
        Said::Section | Said::Interface(_) | Said::Other => BlockRead::Passed,
    }
}
