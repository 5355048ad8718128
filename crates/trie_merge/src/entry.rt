//! One rule of a state as one number.

ghost use Rattle.std.specs.Prelude.{◌≡◌, ◌^◌, ◌<◌, ◌%◌, ◌==◌};
ghost use Rattle.group_states.specs.Entry.{edge_count, edge_code, edge_coded, entry_of, number_in};
ghost use Rattle.group_states.specs.Entry.{edge_in};

use node_expand::Edge;

/// How many edges there are.
const EDGE_COUNT: u32 = 4;

/// A rule's place in the set and an edge as one number.
pub(crate) fn entry_of(number: u32, edge: Edge) -> u32
    requires { number < 2 ^ 30 }
    ensures { result ≡ entry_of number edge }
{
    number * EDGE_COUNT + edge_code(edge)
}

/// The rule's place in the set.
pub(crate) fn number_in(entry: u32) -> u32
    ensures { result ≡ number_in entry }
{
    entry / EDGE_COUNT
}

/// The edge.
pub(crate) fn edge_in(entry: u32) -> Edge
    ensures { result ≡ edge_in entry }
{
    match entry % EDGE_COUNT {
        0 => Edge::Free,
        1 => Edge::Low,
        2 => Edge::High,
        _ => Edge::Both,
    }
}

/// Whether the edge is free, whose number is 0.
pub(crate) fn is_free(entry: u32) -> bool
    ensures { result ≡ (entry % edge_count == 0) }
{
    entry % EDGE_COUNT == 0
}

/// The edge as a number.
fn edge_code(edge: Edge) -> u32
    ensures code { result ≡ edge_code edge }
    ensures bound { result < 4 }
{
    match edge {
        Edge::Free => 0,
        Edge::Low => 1,
        Edge::High => 2,
        Edge::Both => 3,
    }
}
