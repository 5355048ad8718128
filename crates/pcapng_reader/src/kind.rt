//! What a block is for.

ghost use Rattle.std.specs.Prelude.{◌≡◌};
ghost use Rattle.pcapng_reader.specs.Block.{head_len, kind_of, least_len};

/// The type of a section block, which is the same in either byte order.
const SECTION: u32 = 0x0A0D_0D0A;
/// The type of an interface description block.
const INTERFACE: u32 = 1;
/// The type of an enhanced packet block.
const PACKET: u32 = 6;

/// What a block is for, by its type.
///
/// Source: draft-ietf-opsawg-pcapng, section 4.
#[derive(Clone, Copy)]
pub enum Kind {
    /// It begins a section, and names the order of its numbers.
    Section,
    /// It describes an interface.
    Interface,
    /// It has a captured packet.
    Packet,
    /// Any other block, which is passed over.
    Other,
}

impl Kind {
    /// What a block of this type is for.
    #[inline]
    pub fn of(number: u32) -> Kind
        ensures { result ≡ kind_of number }
    {
        match number {
            SECTION => Kind::Section,
            INTERFACE => Kind::Interface,
            PACKET => Kind::Packet,
            _ => Kind::Other,
        }
    }

    /// How many bytes of such a block say what it is: at least those of its type and its length.
    pub fn head_len(self) -> usize
        ensures { result ≡ head_len self }
    {
        match self {
            Kind::Section => 24,
            Kind::Interface => 16,
            Kind::Packet => 28,
            Kind::Other => 12,
        }
    }

    /// How many bytes such a block has at least.
    #[inline]
    pub fn least_len(self) -> u32
        ensures { result ≡ least_len self }
    {
        match self {
            Kind::Section => 28,
            Kind::Interface => 20,
            Kind::Packet => 32,
            Kind::Other => 12,
        }
    }
}
