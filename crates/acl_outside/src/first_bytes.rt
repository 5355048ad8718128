//! What a writer held when its sink was made. Only clauses read it, and it takes no memory.

ghost use Rattle.std.specs.Prelude.{◌≡◌, ℕ, List, Option};
ghost use Rattle.std.specs.Borrow.{ftrue};

use std::marker::{Model, PhantomData};

/// The bytes that a writer held, or nothing if its contents can't be known.
#[derive(Drop)]
pub(crate) struct FirstBytes {
    marker: PhantomData<u8>,
    pub ghost bytes: { Option (List ℕ) },
}

impl Model for FirstBytes {
    ghost also_owns = { λ _. ftrue };
}

impl FirstBytes {
    pub(crate) fn new() -> FirstBytes
        ghost held: { Option (List ℕ) }
        ensures { result.bytes ≡ held }
    {
        FirstBytes {
            marker: PhantomData,
        }
    }
}
