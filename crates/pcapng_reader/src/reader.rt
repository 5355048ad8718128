//! What a reader of blocks knows, and what a block says to it.

ghost use Rattle.std.specs.Prelude.{[], ◌≡◌, ◌+◌, ◌-◌, ◌%◌, ◌≤◌, IfOk, IfSome, Ok, false, length};
ghost use Rattle.pcapng_reader.specs.Block.{front_len, front_of, is_last, is_no_len, least_len};
ghost use Rattle.pcapng_reader.specs.Block.{magic_order, order_in, said_by};
ghost use Rattle.pcapng_reader.specs.Block.{interface_said, packet_said, section_said, state_said};
ghost use Rattle.pcap_reader.specs.Capture.{max_captured};
ghost use Rattle.pcap_reader.specs.ReaderStates.{has_ended};
ghost use Rattle.pcapng_reader.specs.Capture.{begun_blocks, section_bytes};
ghost use Rattle.pcapng_reader.specs.BlockReading.{HasRoom, IsPacketAt};

use crate::blocks::{CAPTURED_AT, FRONT_LEN, PacketPlace};
use crate::front::Front;
use crate::interfaces::Interfaces;
use crate::kind::Kind;
use crate::number::{u16_in, u32_in};
use crate::said::Said;
use pcap_reader::{CaptureFault, Link, MAX_CAPTURED, MAX_RECORDS, Order, Progress};
use std::alloc::{AllocError, Global};
use std::marker::Model;

/// How many blocks a capture may have.
const MAX_BLOCKS: u64 = 2_000_000_000;
/// The byte-order magic of a section.
const BYTE_ORDER_MAGIC: u32 = 0x1A2B_3C4D;
/// The major version of a section.
const MAJOR: u16 = 1;
/// The greatest captured length of a packet.
const MOST_CAPTURED: u32 = MAX_CAPTURED as u32;

/// What a reader of blocks knows of its section, and how far it came.
#[derive(Drop)]
pub struct Reader {
    /// The order of the section's numbers.
    pub order: Order,
    /// The interfaces of the section.
    pub interfaces: Interfaces,
    /// Whether the type of the next block was read before, which is that of a section.
    pub type_read: bool,
    /// How many records were given.
    pub count: u64,
    /// How many blocks were read.
    pub blocks: u64,
    /// Whether more records are to come.
    pub progress: Progress,
}

impl Model for Reader {
    ghost use Rattle.std.specs.Prelude.{[], if◌then◌else◌};
    ghost use Rattle.pcapng_reader.specs.Block.{BlockState};
    ghost use Rattle.pcapng_reader.specs.Capture.{section_bytes};

    ghost Value = { BlockState };

    ghost view = { λ reader. record {
      order = reader.order;
      interfaces = reader.interfaces;
      first = if reader.type_read then section_bytes else [];
      count = reader.count;
      blocks = reader.blocks;
      progress = reader.progress;
    } };
}

impl Reader {
    /// A reader that has read the type of the first block. It takes the memory for the interfaces.
    pub fn new(alloc: Global) -> Result<Self, AllocError>
        ensures { IfOk result (λ reader. reader ≡ begun_blocks section_bytes) }
    {
        Ok(Reader {
            order: Order::Big,
            interfaces: Interfaces::new(alloc)?,
            type_read: true,
            count: 0,
            blocks: 0,
            progress: Progress::Reading,
        })
    }

    /// Whether all records were given.
    #[inline]
    pub fn has_ended(&self) -> bool
        ensures { result ≡ has_ended self.now.progress }
    {
        self.progress == Progress::Ended
    }

    /// Whether as many records were given or blocks read as a capture may have.
    #[inline]
    pub fn is_last(&self) -> bool
        ensures { result ≡ is_last self.now }
    {
        self.count >= MAX_RECORDS || self.blocks >= MAX_BLOCKS
    }

    /// Whether the next block isn't read from its front on in the fast way: its type was read
    /// before, or no block more may be read.
    #[inline(always)]
    pub fn takes_slow_way(&self) -> bool
        ensures few { result ≡ false → is_last self.now ≡ false }
        ensures first { result ≡ false → self.now.first ≡ [] }
    {
        self.is_last() || self.type_read
    }

    /// What the first twelve bytes of the next block say, or why it is refused.
    #[inline]
    pub fn front(&self, bytes: &[u8]) -> Result<Front, CaptureFault>
        requires few { is_last self.now ≡ false }
        requires there { front_len ≤ length bytes.now }
        ensures { result ≡ front_of self.now bytes.now }
    {
        let kind = Kind::of(u32_in(self.order, bytes, 0));
        let order = match self.order_in(kind, bytes) {
            Some(order) => order,
            None => return Err(CaptureFault::PngOrder(self.count + 1)),
        };
        let total = u32_in(order, bytes, 4);
        if is_no_len(kind, total) {
            return Err(CaptureFault::PngLength(self.count + 1));
        }
        Ok(Front { kind, order, total })
    }

    /// What the first twelve bytes of the next block say in the section's order, where it is a
    /// packet that has room in 262,144 bytes. `None`: it is another block, or its front is refused.
    #[inline(always)]
    pub fn packet_front(&self, order: Order, bytes: &[u8]) -> Option<Front>
        requires few { is_last self.now ≡ false }
        requires order { order ≡ self.now.order }
        requires there { front_len ≤ length bytes.now }
        ensures front { IfSome result (λ front. front_of self.now bytes.now ≡ Ok front) }
        ensures room { IfSome result (λ front. front.total ≤ max_captured) }
    {
        match Kind::of(u32_in(order, bytes, 0)) {
            Kind::Packet => {}
            Kind::Section | Kind::Interface | Kind::Other => return None,
        }
        let total = u32_in(order, bytes, 4);
        if is_no_len(Kind::Packet, total) {
            return None;
        }
        if total > MOST_CAPTURED {
            return None;
        }
        let kind = Kind::Packet;
        Some(Front { kind, order, total })
    }

    /// The order of a block's numbers, which a section's byte-order magic says of itself.
    #[inline]
    fn order_in(&self, kind: Kind, bytes: &[u8]) -> Option<Order>
        requires { front_len ≤ length bytes.now }
        ensures { result ≡ order_in self.now kind bytes.now }
    {
        match kind {
            Kind::Section => magic_order(bytes),
            Kind::Interface | Kind::Packet | Kind::Other => Some(self.order),
        }
    }

    /// What the block says whose first bytes these are, or why it is refused. They are at least
    /// those up to its last four where it is as short as a block of its kind may be.
    #[inline(always)]
    pub fn said(&self, front: &Front, bytes: &[u8]) -> Result<Said, CaptureFault>
        requires few { is_last self.now ≡ false }
        requires there { least_len front.now.kind - 4 ≤ length bytes.now }
        ensures said { result ≡ said_by front.now.kind self.now front.now bytes.now }
        ensures room { IfOk result (λ said. HasRoom self.now front.now said) }
    {
        match front.kind {
            Kind::Packet => self.packet_said(front, bytes),
            Kind::Section => self.section_said(front, bytes),
            Kind::Interface => self.interface_said(front, bytes),
            Kind::Other => Ok(Said::Other),
        }
    }

    /// What a section says.
    #[inline(never)]
    fn section_said(&self, front: &Front, bytes: &[u8]) -> Result<Said, CaptureFault>
        requires few { is_last self.now ≡ false }
        requires there { least_len Kind.Section - 4 ≤ length bytes.now }
        ensures said { result ≡ section_said self.now front.now bytes.now }
        ensures room { IfOk result (λ said. HasRoom self.now front.now said) }
    {
        if u16_in(front.order, bytes, 12) != MAJOR {
            return Err(CaptureFault::PngVersion(self.count + 1));
        }
        Ok(Said::Section)
    }

    /// What an interface says.
    #[inline(never)]
    fn interface_said(&self, front: &Front, bytes: &[u8]) -> Result<Said, CaptureFault>
        requires few { is_last self.now ≡ false }
        requires there { least_len Kind.Interface - 4 ≤ length bytes.now }
        ensures said { result ≡ interface_said self.now front.now bytes.now }
        ensures room { IfOk result (λ said. HasRoom self.now front.now said) }
    {
        if self.interfaces.is_full() {
            return Err(CaptureFault::PngTooMany(self.count + 1));
        }
        let number = u16_in(front.order, bytes, 8);
        Ok(Said::Interface(Link::of_number(number as u32)))
    }

    /// What a packet says.
    #[inline(always)]
    fn packet_said(&self, front: &Front, bytes: &[u8]) -> Result<Said, CaptureFault>
        requires few { is_last self.now ≡ false }
        requires there { least_len Kind.Packet - 4 ≤ length bytes.now }
        ensures said { result ≡ packet_said self.now front.now bytes.now }
        ensures room { IfOk result (λ said. HasRoom self.now front.now said) }
    {
        let number = self.count + 1;
        let link = match self.interfaces.get(u32_in(front.order, bytes, 8)) {
            Some(Some(link)) => link,
            Some(None) => return Err(CaptureFault::PngLink(number)),
            None => return Err(CaptureFault::PngInterface(number)),
        };
        let captured = u32_in(front.order, bytes, 20);
        if captured > MOST_CAPTURED {
            return Err(CaptureFault::RecordTooLong(number));
        }
        if front.total < (captured + 3) / 4 * 4 + Kind::Packet.least_len() {
            return Err(CaptureFault::PngLength(number));
        }
        Ok(Said::Packet(link, captured))
    }

    /// Where a packet stands whose block was read in full and isn't refused. `None`: that isn't so,
    /// or only looks so. Of the block so many bytes were read after its front.
    #[inline(always)]
    pub fn packet_at(&self, front: &Front, block: &[u8], count: usize) -> Option<PacketPlace>
        requires there { least_len front.now.kind ≤ length block.now }
        requires multiple { front.now.total % 4 ≡ 0 }
        requires total { length block.now ≡ front.now.total }
        requires fits { front.now.total ≤ max_captured }
        requires within { front_len + count ≤ length block.now }
        ensures { IfSome result (λ place. (front.now.kind ≡ Kind.Packet)
            × IsPacketAt self.now front.now block.now (front_len + count) place) }
    {
        match front.kind {
            Kind::Packet => self.whole_packet(front, block, count),
            Kind::Section | Kind::Interface | Kind::Other => None,
        }
    }

    /// The same, where the block is that of a packet.
    #[inline(always)]
    fn whole_packet(&self, front: &Front, block: &[u8], count: usize) -> Option<PacketPlace>
        requires there { least_len Kind.Packet ≤ length block.now }
        requires multiple { front.now.total % 4 ≡ 0 }
        requires total { length block.now ≡ front.now.total }
        requires fits { front.now.total ≤ max_captured }
        requires within { front_len + count ≤ length block.now }
        ensures { IfSome result (IsPacketAt self.now front.now block.now (front_len + count)) }
    {
        if count != block.len() - FRONT_LEN {
            return None;
        }
        let link = match self.interfaces.get(u32_in(front.order, block, 8)) {
            Some(Some(link)) => link,
            Some(None) | None => return None,
        };
        // As the length is a multiple of 4, there is room for the padding too.
        let captured = u32_in(front.order, block, 20) as usize;
        if captured > block.len() - 32 {
            return None;
        }
        if u32_in(front.order, block, block.len() - 4) != front.total {
            return None;
        }
        Some(PacketPlace {
            link,
            at: CAPTURED_AT,
            len: captured,
        })
    }

    /// Counts a packet's block.
    #[inline(always)]
    pub fn count_packet(&mut self)
        requires { is_last self.old ≡ false }
        ensures { self.new ≡ record self.old {
          first = [];
          count = self.old.count + 1;
          blocks = self.old.blocks + 1;
        } }
    {
        self.type_read = false;
        self.count += 1;
        self.blocks += 1;
    }

    /// Knows what a block said.
    #[inline(always)]
    pub fn learn(&mut self, front: &Front, said: Said)
        requires few { is_last self.old ≡ false }
        requires room { HasRoom self.old front.now said }
        ensures { self.new ≡ state_said self.old front.now said }
    {
        self.type_read = false;
        self.blocks += 1;
        match said {
            Said::Packet(_, _) => self.count += 1,
            Said::Section => {
                self.order = front.order;
                self.interfaces.clear();
            }
            Said::Interface(link) => self.interfaces.add(link),
            Said::Other => {}
        }
    }
}

/// What the front of the first block says, after a section of this order, where the block is whole
/// in these bytes. `None`: it isn't, or its front is refused.
pub fn whole_front(order: Order, bytes: &[u8]) -> Option<Front>
    ensures some { IfSome result (λ front. front_len ≤ front.total) }
    ensures whole { IfSome result (λ front. front.total ≤ length bytes.now) }
{
    if bytes.len() < FRONT_LEN {
        return None;
    }
    let kind = Kind::of(u32_in(order, bytes, 0));
    let order = match kind {
        Kind::Section => magic_order(bytes)?,
        Kind::Interface | Kind::Packet | Kind::Other => order,
    };
    let total = u32_in(order, bytes, 4);
    if is_no_len(kind, total) || total as usize > bytes.len() {
        return None;
    }
    Some(Front { kind, order, total })
}

/// The order in which a section's byte-order magic stands.
#[inline(never)]
fn magic_order(bytes: &[u8]) -> Option<Order>
    requires { front_len ≤ length bytes.now }
    ensures { result ≡ magic_order bytes.now }
{
    if u32_in(Order::Big, bytes, 8) == BYTE_ORDER_MAGIC {
        return Some(Order::Big);
    }
    if u32_in(Order::Little, bytes, 8) == BYTE_ORDER_MAGIC {
        return Some(Order::Little);
    }
    None
}

/// Whether no block of this kind has this length.
#[inline]
fn is_no_len(kind: Kind, total: u32) -> bool
    ensures { result ≡ is_no_len kind total }
{
    total % 4 != 0 || total < kind.least_len()
}
