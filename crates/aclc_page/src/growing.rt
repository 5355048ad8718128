//! What is printed, in memory that grows.

use acl_outside::{Failed, Sink};
use std::alloc::{AllocError, Global};
use std::marker::Model;

/// A sink that keeps all that is put. It tells what was written.
///
/// A put takes memory, and fails exactly if there is none. At 2^64 - 1 the count of faults stands
/// still.
#[derive(Drop)]
pub(crate) struct GrowingSink {
    bytes: Vec<u8>,
    /// How many puts found no memory.
    faults: u64,
    /// What the last of them met.
    lack: Result<(), AllocError>,
}

impl Model for GrowingSink {
    ghost use Rattle.std.specs.Prelude.{◌≡◌, IsOk};
    ghost use Rattle.aclc_page.specs.Grown.{GrownView};

    ghost Value = { GrownView };

    ghost view = { λ sink. record { text = sink.bytes.items; faults = sink.faults } };

    ghost invariant = { λ sink. IsOk sink.lack → sink.faults ≡ 0 };
}

impl GrowingSink {
    ghost use Rattle.std.specs.Prelude.{◌≡◌, OnOk};
    ghost use Rattle.aclc_page.specs.Grown.{nothing_put};

    /// A sink to which nothing was put. It takes no memory.
    pub(crate) fn new(alloc: Global) -> GrowingSink
        ensures { result ≡ nothing_put }
    {
        GrowingSink {
            bytes: Vec::new(alloc),
            faults: 0,
            lack: Ok(()),
        }
    }

    /// What was put.
    pub(crate) fn bytes(&self) -> &[u8]
        ensures { result.now ≡ self.now.text }
    {
        &self.bytes
    }

    /// Whether all that was put is there: else a put found no memory.
    pub(crate) fn whole(&self) -> Result<(), AllocError>
        ensures { OnOk result (self.now.faults ≡ 0) }
    {
        match self.lack {
            Ok(()) => Ok(()),
            Err(lack) => Err(lack),
        }
    }
}

impl Sink for GrowingSink {
    ghost use Rattle.acl_outside.specs.Sink.{PutsPrefix};
    ghost use Rattle.aclc_page.specs.Grown.{shown_grown};

    ghost view = { shown_grown };

    fn put(&mut self, piece: &[u8]) -> Result<usize, Failed>
        ensures { PutsPrefix piece.now (shown_grown self.old) (shown_grown self.new) result }
    {
        match self.bytes.extend_from_slice(piece) {
            Ok(()) => Ok(piece.len()),
            Err(lack) => {
                self.lack = Err(lack);
                self.faults = self.faults.saturating_add(1);
                Err(Failed)
            }
        }
    }
}
