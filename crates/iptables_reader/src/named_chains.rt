//! Chains in the order in which they are declared, found by their names.

use crate::answers::Asked;
use crate::chain::{SavedChain, place_from};
use crate::places::Places;
use crate::reading::Reading;
use std::alloc::{AllocError, Global};
use std::marker::Model;

/// Chains, of which each is found by its name without a look at the others. Contracts see the list
/// of them.
#[derive(Drop)]
pub(crate) struct NamedChains {
    chains: Vec<SavedChain>,
    /// The place of the first chain of each name.
    places: Places,
}

impl Model for NamedChains {
    ghost use Rattle.std.specs.Prelude.{List};
    ghost use Rattle.iptables_reader.specs.Chains.{ListedChain};
    ghost use Rattle.iptables_reader.specs.Places.{ArePlaces};

    ghost Value = { List ListedChain };

    ghost view = { λ named. named.chains.items };

    ghost invariant = { λ named. ArePlaces named.places named.chains.items };
}

impl NamedChains {
    ghost use Rattle.std.specs.Prelude.{◌≡◌, ◌<◌, ◌++◌, [], ◌∷◌, length, slice_set};
    ghost use Rattle.std.specs.Prelude.{slice_index_or, IfSome, None, OnOk};
    ghost use Rattle.iptables_reader.specs.Chains.{place_of};
    ghost use Rattle.iptables_reader.specs.Table.{no_chain, with_said};

    /// No chains.
    pub(crate) fn new(alloc: Global) -> NamedChains
        ensures { result ≡ [] }
    {
        NamedChains {
            chains: Vec::new(alloc),
            places: Places::new(alloc),
        }
    }

    /// The chains, in order.
    pub(crate) fn into_chains(self) -> Vec<SavedChain>
        ensures { result.items ≡ self }
    {
        self.chains
    }

    /// The place of the chain of a name. Where it is meant that rules lead to it, it has no policy.
    pub(crate) fn place_of(&self, name: &[u8], led: bool) -> Option<usize>
        ensures place { result ≡ place_of led name.now self.now }
        ensures within { IfSome result (λ place. place < length self.now) }
    {
        match self.places.find(name) {
            // A chain that rules lead to may come after the first one of the name.
            Some(first) => place_from(self.chains.as_slice(), name, led, first),
            None => None,
        }
    }

    /// The name of the chain at a place.
    pub(crate) fn name(&self, place: usize) -> &[u8]
        requires { place < length self.now }
        ensures { result.now ≡ (slice_index_or self.now place no_chain).name }
    {
        self.chains[place].name()
    }

    /// Puts a chain without rules after the others. It takes memory for the chain, and for its name
    /// once more.
    pub(crate) fn push(
        &mut self,
        alloc: Global,
        name: &[u8],
        policy: Option<u32>,
    ) -> Result<(), AllocError>
        ensures { OnOk result (self.new ≡ self.old
            ++ record { name = name.now; policy = policy; rules = []; unsaid = None } ∷ []) }
    {
        let mut kept = Vec::new(alloc);
        kept.extend_from_slice(name)?;
        // There is room for the chain before its name is put down, so that none has a place alone.
        self.chains.reserve(1)?;
        self.places.add(name, self.chains.len())?;
        self.chains.push(SavedChain::new(alloc, kept, policy))?;
        Ok(())
    }

    /// A line of the chain at a place.
    pub(crate) fn add_line(
        &mut self,
        alloc: Global,
        asked: Asked,
        number: u32,
        place: usize,
        reading: &Reading,
    ) -> Result<(), AllocError>
        requires { place < length self.old }
        ensures { OnOk result (self.new ≡ slice_set self.old place
            (with_said asked number reading.now reading.now.act
            (slice_index_or self.old place no_chain))) }
    {
        self.chains[place].add_line(alloc, asked, number, reading)
    }
}
