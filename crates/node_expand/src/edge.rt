//! How what is left of a field is bounded.

/// The bytes of a field that aren't read yet spell a number, the most significant byte first. An
/// edge says how it is bounded.
///
/// An end is inner where it isn't the outermost number: a lower end above 0, an upper end below the
/// greatest number of that many bytes. What a bitmask leaves is no interval, and its edge is
/// `Free`, as is that of a field with no byte left.
#[derive(Clone, Copy, Debug, PartialEq, Eq)]
pub enum Edge {
    /// Neither end is inner.
    Free,
    /// The lower end alone is inner.
    Low,
    /// The upper end alone is inner.
    High,
    /// Both ends are inner.
    Both,
}

impl Edge {
    ghost use Rattle.std.specs.Prelude.{◌≡◌, ◌-◌, ◌^◌, if◌then◌else◌};
    ghost use Rattle.node_expand.specs.Edges.{edge_with, has_low, has_high};

    /// The edge with these ends inner.
    #[inline]
    pub(crate) fn new(low: bool, high: bool) -> Self
        ensures { result ≡ edge_with low high }
    {
        match (low, high) {
            (false, false) => Edge::Free,
            (true, false) => Edge::Low,
            (false, true) => Edge::High,
            (true, true) => Edge::Both,
        }
    }

    /// `low` where the lower end is inner, and else 0.
    #[inline]
    pub(crate) fn low_end(self, low: u64) -> u64
        ensures { result ≡ (if has_low self then low else 0) }
    {
        match self {
            Edge::Low | Edge::Both => low,
            Edge::Free | Edge::High => 0,
        }
    }

    /// `high` where the upper end is inner, and else the greatest number of all.
    #[inline]
    pub(crate) fn high_end(self, high: u64) -> u64
        ensures { result ≡ (if has_high self then high else 2 ^ 64 - 1) }
    {
        match self {
            Edge::High | Edge::Both => high,
            Edge::Free | Edge::Low => u64::MAX,
        }
    }
}
