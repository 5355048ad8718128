//! Where a byte leads from a state.

/// What a byte leads to.
#[derive(Clone, Copy, Debug, PartialEq, Eq)]
pub enum Succ {
    /// No rule can match any more.
    Dead,
    /// The state of that number at the next kept place.
    State(u32),
    /// At the last kept place the row of that number.
    Row(u32),
}

impl Succ {
    ghost use Rattle.std.specs.Prelude.{◌≡◌};
    ghost use Rattle.group_states.specs.Levels.{same_succ};

    /// Whether the two are one.
    pub fn is_same(self, other: Succ) -> bool
        ensures { result ≡ same_succ self other }
    {
        match (self, other) {
            (Succ::Dead, Succ::Dead) => true,
            (Succ::State(one), Succ::State(other)) => one == other,
            (Succ::Row(one), Succ::Row(other)) => one == other,
            _ => false,
        }
    }
}

/// A run of bytes that lead to one successor. It begins after the run before it, and the first at
/// byte 0.
#[derive(Clone, Copy, Debug, PartialEq, Eq)]
pub struct Run {
    /// The last byte of the run.
    pub last: u8,
    /// What its bytes lead to.
    pub to: Succ,
}
