//! Laws of rests and edges, over their definitions alone. They run no code.

ghost use Rattle.node_expand.specs.Laws.{RestsHoldCompletions, RestsGoStepByStep, EdgesSayRests};
ghost use Rattle.node_expand.specs.Laws.{EdgesAreOneWhereRestsAre};
ghost use Rattle.node_expand.specs.Laws.{RestsAreCompared, CutsAreChanges, UncutBytesAnswerAlike};
ghost use Rattle.node_expand.specs.Laws.{WildValuesStayFree, FreeEdgesStayFree};
ghost use Rattle.node_expand.specs.Laws.{ValuesAreTheirRanges};

/// The rest of a field after some bytes is what completes them to a number that matches.
#[tactic(auto, using(crate::proofs::Completions::rests_hold_completions))]
pub fn rests_hold_completions()
    ensures { RestsHoldCompletions }
{}

/// The rest after one more byte is the step of the rest.
#[tactic(auto, using(crate::proofs::Steps::rests_step))]
pub fn rests_go_step_by_step()
    ensures { RestsGoStepByStep }
{}

/// Where an edge is the form of a rest, the edge and the rule's value give that rest, and the rest
/// gives the edge.
#[tactic(auto, using(crate::proofs::EdgeRests::edges_say_rests))]
pub fn edges_say_rests()
    ensures { EdgesSayRests }
{}

/// A byte is a cut exactly where the answer changes.
#[tactic(auto, using(crate::proofs::Changes::cuts_are_changes))]
pub fn cuts_are_changes()
    ensures { CutsAreChanges }
{}

/// Two edges that stand before a place are one exactly where their rests are.
#[tactic(auto, using(crate::proofs::EdgeRests::edges_are_one))]
pub fn edges_are_one_where_rests_are()
    ensures { EdgesAreOneWhereRestsAre }
{}

/// Two rests are one exactly where the comparison says so.
#[tactic(auto, using(crate::proofs::Compared::rests_compared))]
pub fn rests_are_compared()
    ensures { RestsAreCompared }
{}

/// Bytes with no cut between them have one answer.
#[tactic(auto, using(crate::proofs::Changes::uncut_alike))]
pub fn uncut_bytes_answer_alike()
    ensures { UncutBytesAnswerAlike }
{}

/// The edge of a wild value is free after any bytes.
#[tactic(auto, using(crate::proofs::Free::wild_stays_free))]
pub fn wild_values_stay_free()
    ensures { WildValuesStayFree }
{}

/// A free edge of a mask or a range is free after every byte.
#[tactic(auto, using(crate::proofs::Free::free_stays_free))]
pub fn free_edges_stay_free()
    ensures { FreeEdgesStayFree }
{}

/// A value and its range have the same rests, edges, steps and cuts.
#[tactic(auto, using(crate::proofs::AsRange::as_its_range))]
pub fn values_are_their_ranges()
    ensures { ValuesAreTheirRanges }
{}
