//! Why chains aren't turned into rules.

ghost use Rattle.std.specs.Prelude.{◌≡◌};

use std::alloc::AllocError;

/// A rule, by the place of its chain and its own place there.
#[derive(Clone, Copy)]
pub struct RulePlace {
    pub chain: usize,
    pub rule: usize,
}

/// Which limit the turning of chains meets.
#[derive(Clone, Copy)]
pub enum LimitFault {
    /// There would be more rules than a set may have, 262,144.
    TooManyRules,
    /// The chains lead to more ways than are followed: 16,777,216 steps don't end.
    TooManySteps,
    /// Jumps lead through more chains than are followed, 1,024.
    TooDeep,
}

/// Why chains aren't turned into rules.
#[derive(Clone, Copy)]
pub enum ChainsFault {
    /// The rule leads to a chain that isn't there.
    NoChain(RulePlace),
    /// The rule lies on a loop: it and some others lead from its chain back to it.
    Loop(RulePlace),
    /// There would be too many rules or steps, or jumps lead through too many chains.
    Limit(LimitFault),
    /// There isn't enough memory.
    OutOfMemory,
}

impl From<AllocError> for ChainsFault {
    ghost use Rattle.list_chains.specs.declared.fault.ChainsFault.TheVariants.{OutOfMemory};

    ghost from_gives = { λ _ fault. fault ≡ OutOfMemory };

    fn from(_: AllocError) -> ChainsFault {
        ChainsFault::OutOfMemory
    }
}
