//! The packet of a record.

ghost use Rattle.std.specs.Prelude.{◌≡◌, ◌+◌, ◌<◌, ◌≤◌, ◌++◌, All, length, take};
ghost use Rattle.table_sizes.specs.Groups.{ip6_key_len};
ghost use Rattle.header_extract.specs.Class.{settled};
ghost use Rattle.header_extract.specs.Link.{frame_class};
ghost use Rattle.capture_report.specs.Packet.{IsPacket};

use crate::lines::put_at;
use header_extract::{Class, KeyBuf, extract};
use pcap_reader::Link;
use std::marker::Model;
use table_sizes::{IP4_KEY_LEN, IP6_KEY_LEN};

/// The class of a record's frame, and the key of the packet in it. Contracts see the bytes of the
/// key, which are none where the frame has no packet.
#[derive(Drop)]
pub struct Packet {
    class: Class,
    /// The key stands in front.
    room: KeyBuf,
}

impl Model for Packet {
    ghost use Rattle.std.specs.Prelude.{take};
    ghost use Rattle.header_extract.specs.Class.{FrameClass};
    ghost use Rattle.header_extract.specs.Extracted.{key_len};

    ghost Value = { FrameClass };

    ghost view = { λ packet. record {
      class = packet.class;
      key = take (key_len packet.class) packet.room.bytes;
    } };
}

impl Packet {
    /// No packet yet: room for the packet of a frame. It takes no memory.
    pub fn new() -> Packet {
        Packet {
            class: Class::Other,
            room: KeyBuf {
                bytes: [0; IP6_KEY_LEN],
            },
        }
    }

    /// Makes it the packet of a frame by its link type. It refuses nothing and takes no memory.
    #[inline]
    pub fn read(&mut self, link: Link, frame: &[u8])
        ensures packet { self.new ≡ settled (frame_class link frame.now) }
        ensures key { IsPacket self.new }
    {
        self.class = extract(link, frame, &mut self.room);
        are_bytes(&self.room.bytes);
    }

    /// The class of the frame.
    pub fn class(&self) -> Class
        ensures { result ≡ self.now.class }
    {
        self.class
    }

    /// Writes the key of the packet, of 13 bytes for IPv4 and 37 for IPv6, at the place `at`, and
    /// gives the place after it.
    #[inline(always)]
    pub fn put_key(&self, into: &mut [u8], at: usize) -> usize
        requires room { at + ip6_key_len ≤ length into.old }
        ensures end { result ≤ at + ip6_key_len }
        ensures key { take result into.new ≡ take at into.old ++ self.now.key }
        ensures len { length into.new ≡ length into.old }
    {
        // Bytes of its own can't be those of the other keys, so that no test asks whether they are.
        let mut bytes = [0; IP6_KEY_LEN];
        bytes.copy_from_slice(&self.room.bytes);
        match self.class {
            Class::Ip4 => put_at(into, at, &bytes[..IP4_KEY_LEN]),
            Class::Ip6 => put_at(into, at, &bytes),
            Class::Other | Class::Short => at,
        }
    }
}

/// Each element of a slice of bytes is below 256, which definitions of keys want to be told. It
/// does nothing when it is run.
#[inline(always)]
fn are_bytes(bytes: &[u8])
    ensures { All (λ byte. byte < 256) bytes.now }
{
    let _ = bytes;
}
