//! Names with places, found by their names.

use indexmap::IndexMap;
use std::alloc::{AllocError, Global};
use std::marker::Model;

/// Names, each with a place. Contracts see the list of them, in the order in which they came.
#[derive(Drop)]
pub(crate) struct Places {
    alloc: Global,
    kept: IndexMap<Vec<u8>, usize>,
}

impl Model for Places {
    ghost use Rattle.std.specs.Prelude.{List, ℕ, map};

    ghost Value = { List (List ℕ × ℕ) };

    ghost view = { λ places. map (λ entry. (entry.0.items, entry.1)) places.kept.entries };
}

impl Places {
    ghost use Rattle.std.specs.Prelude.{◌≡◌, ◌++◌, [], ◌∷◌, None, OnErr, OnOk};
    ghost use Rattle.std.specs.Map.{lookup};
    ghost use Rattle.std.specs.Str.{bytes_eq};
    ghost use Rattle.iptables_reader.specs.Places.{with_place};

    /// No names.
    pub(crate) fn new(alloc: Global) -> Places
        ensures { result ≡ [] }
    {
        Places {
            alloc,
            kept: IndexMap::new(alloc),
        }
    }

    /// The place of a name. It takes no memory.
    pub(crate) fn find(&self, name: &[u8]) -> Option<usize>
        ensures { result ≡ lookup (bytes_eq name.now) self.now }
    {
        self.kept.get(name).copied()
    }

    /// A name and its place, unless the name is there. It takes memory for the name.
    pub(crate) fn add(&mut self, name: &[u8], place: usize) -> Result<(), AllocError>
        ensures added { OnOk result (self.new ≡ with_place name.now place self.old) }
        ensures err { OnErr result (self.new ≡ self.old) }
    {
        if self.find(name).is_some() {
            return Ok(());
        }
        self.insert(name, place)
    }

    /// A name that isn't there, and its place.
    fn insert(&mut self, name: &[u8], place: usize) -> Result<(), AllocError>
        requires { lookup (bytes_eq name.now) self.old ≡ None }
        ensures added { OnOk result (self.new ≡ self.old ++ (name.now, place) ∷ []) }
        ensures err { OnErr result (self.new ≡ self.old) }
    {
        let mut key = Vec::new(self.alloc);
        key.extend_from_slice(name)?;
        self.kept.insert(key, place)?;
        Ok(())
    }
}
