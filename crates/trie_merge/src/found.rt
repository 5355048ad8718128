//! Numbers in the order in which they are found.

use std::alloc::{AllocError, Global};
use std::marker::Model;

/// Numbers of states or rows, in the order in which they are found. Contracts see the list of them.
#[derive(Drop)]
pub(crate) struct Found {
    keys: Vec<u32>,
    /// For each number the place after its own in the list, and 0 where it isn't found.
    places: Vec<u32>,
}

impl Model for Found {
    ghost use Rattle.trie_merge.specs.FoundNumbers.{FoundView, ArePlaces};

    ghost Value = { FoundView };

    ghost view = { λ f. record { keys = f.keys.items } };

    ghost invariant = { λ f. ArePlaces f.keys.items f.places.items };
}

impl Found {
    ghost use Rattle.std.specs.Prelude.{◌≡◌, ◌<◌, ◌+◌, ◌^◌, ◌++◌, ◌∷◌, [], length, nat_eq};
    ghost use Rattle.std.specs.Prelude.{OnOk, IfOk};
    ghost use Rattle.std.specs.List.{position_or_len};
    ghost use Rattle.trie_merge.specs.FoundNumbers.{place_after};
    ghost use Rattle.trie_merge.specs.Numbers.{numbers_with};

    /// No numbers.
    pub(crate) fn new(alloc: Global) -> Self
        ensures { result.keys ≡ [] }
    {
        Found {
            keys: Vec::new(alloc),
            places: Vec::new(alloc),
        }
    }

    /// No numbers, with room for so many. It takes the memory of that room.
    pub(crate) fn with_room(alloc: Global, count: usize) -> Result<Self, AllocError>
        ensures { IfOk result (λ found. found.keys ≡ []) }
    {
        let keys = Vec::with_capacity(alloc, count)?;
        let places = Vec::with_capacity(alloc, count)?;
        Ok(Found { keys, places })
    }

    /// How many numbers are found.
    pub(crate) fn len(&self) -> usize
        ensures len { result ≡ length self.now.keys }
    {
        self.keys.len()
    }

    /// The numbers.
    pub(crate) fn as_slice(&self) -> &[u32]
        ensures keys { result.now ≡ self.now.keys }
    {
        self.keys.as_slice()
    }

    /// The place after that of the number, and 0 where it isn't found.
    #[inline]
    fn place_after(&self, number: u32) -> u32
        ensures { result ≡ place_after self.now.keys number }
    {
        match self.places.get(number as usize) {
            Some(place) => *place,
            None => 0,
        }
    }

    /// Puts a number that isn't found after the others, and gives its place.
    #[inline(never)]
    pub(crate) fn put(&mut self, number: u32) -> Result<u32, AllocError>
        requires new { place_after self.old.keys number ≡ 0 }
        requires room { length self.old.keys + 1 < 2 ^ 32 }
        ensures found { OnOk result (self.new.keys ≡ self.old.keys ++ number ∷ []) }
        ensures place { IfOk result
            (λ place. place ≡ position_or_len (nat_eq number) self.new.keys) }
    {
        let at = number as usize;
        if self.places.len() <= at {
            self.places.resize(at + 1, 0)?;
        }
        let place = self.keys.len() as u32;
        self.keys.push(number)?;
        self.places[at] = place + 1;
        Ok(place)
    }

    /// Finds the number, if it wasn't found before, and gives its place. It takes memory where the
    /// number is new.
    pub(crate) fn find(&mut self, number: u32) -> Result<u32, AllocError>
        requires some { 0 < number }
        requires room { length self.old.keys + 1 < 2 ^ 32 }
        ensures found { OnOk result (self.new.keys ≡ numbers_with self.old.keys number) }
        ensures place { IfOk result
            (λ place. place ≡ position_or_len (nat_eq number) self.new.keys) }
    {
        let after = self.place_after(number);
        if after > 0 {
            return Ok(after - 1);
        }
        self.put(number)
    }
}
