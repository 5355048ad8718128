//! The interfaces of a section.

ghost use Rattle.std.specs.Prelude.{◌≡◌, ◌<◌, ◌++◌, ◌∷◌, [], length, nat_lt, not, slice_get};
ghost use Rattle.pcapng_reader.specs.Block.{max_interfaces};

use pcap_reader::Link;
use std::alloc::{AllocError, Global};
use std::marker::Model;

/// How many interfaces a section may have.
pub const MAX_INTERFACES: usize = 1_024;

/// The link types of the interfaces of a section, at most 1,024, and none where the link type isn't
/// read. Contracts see them as a list.
#[derive(Drop)]
pub struct Interfaces {
    /// Room for as many interfaces as a section may have.
    slots: Vec<Option<Link>>,
    /// How many of them are interfaces of the section.
    len: usize,
}

impl Model for Interfaces {
    ghost use Rattle.std.specs.Prelude.{◌≡◌, ◌≤◌, List, Option, take, vec_len};
    ghost use Rattle.pcap_reader.specs.declared.link.Link.{Link};
    ghost use Rattle.pcapng_reader.specs.Block.{max_interfaces};

    ghost Value = { List (Option Link) };

    ghost view = { λ interfaces. take interfaces.len interfaces.slots.items };

    ghost invariant = { λ interfaces. (vec_len interfaces.slots ≡ max_interfaces)
        × (interfaces.len ≤ max_interfaces) };
}

impl Interfaces {
    ghost use Rattle.std.specs.Prelude.{IfOk};

    /// No interfaces yet. It takes the memory for all that a section may have.
    pub fn new(alloc: Global) -> Result<Self, AllocError>
        ensures { IfOk result (λ interfaces. interfaces ≡ []) }
    {
        Ok(Interfaces {
            slots: vec![in alloc; None; MAX_INTERFACES]?,
            len: 0,
        })
    }

    /// Drops all interfaces.
    pub fn clear(&mut self)
        ensures { self.new ≡ [] }
    {
        self.len = 0;
    }

    /// Whether there are as many as a section may have.
    pub fn is_full(&self) -> bool
        ensures { result ≡ not (nat_lt (length self.now) max_interfaces) }
    {
        !(self.len < MAX_INTERFACES)
    }

    /// Puts an interface after the others, of which there are fewer than 1,024. It takes no memory.
    pub fn add(&mut self, link: Option<Link>)
        requires { length self.old < max_interfaces }
        ensures { self.new ≡ self.old ++ link ∷ [] }
    {
        self.slots[self.len] = link;
        self.len += 1;
    }

    /// The interface of a number, which counts from 0, or `None` where there is none.
    #[inline]
    pub fn get(&self, number: u32) -> Option<Option<Link>>
        ensures { result ≡ slice_get self.now number }
    {
        self.slots[..self.len].get(number as usize).copied()
    }
}
