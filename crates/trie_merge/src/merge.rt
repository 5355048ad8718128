//! The states of one kept place, one after the other: their runs, their words, and the states or
//! rows that they lead to.
//!
//!     merge_states → merge_all → add_state → merge_state
//!                                          → price_all → price → price_ahead
//!
//! A state's words are known once it is merged. What it leads to is merged at the next place, and
//! until then it has a price: how many words it takes at least. So a merge ends as soon as it can't
//! stay within the cap.
//!
//! What a call asks for, and what it gives, is one record each: of `specs/Merged.antt`, or of
//! `specs/Priced.antt` for prices.

ghost use Rattle.std.specs.Prelude.{◌≡◌, ℕ, ◌<◌, ◌+◌, ◌≤◌, length, false, Some, OnOk, IfOk};
ghost use Rattle.table_sizes.specs.Sizes.{cost_of};
ghost use Rattle.trie_merge.specs.Merged.{AddsState, AreMerged, AreOver, CanAdd, CanMergeAll};
ghost use Rattle.trie_merge.specs.Merged.{IsFirst, MergesState, target_of};
ghost use Rattle.trie_merge.specs.Priced.{AreNumbers, ArePriced, CanPrice, IsNumber, IsPriced};
ghost use Rattle.trie_merge.specs.Cuts.{CanAsk, CutsFor};

use crate::column::Column;
use crate::cuts::{Cuts, fill_cuts, words_of};
use crate::follow::lead_parts;
use crate::found::Found;
use crate::number::join_runs;
use group_states::Run;
use state_parts::{PartPieces, Parts, Piece, Rows, Target};
use std::alloc::{AllocError, Global};
use table_sizes::{ROW_LEN, node_len};

/// For how many parts, and for how many numbers of states, there is room from the start at most. A
/// place mostly has about as many as the one before it.
pub(crate) const FIRST_ROOM: usize = 65_536;

/// The words of a state with so many runs.
fn cost_of(count: usize) -> u64
    ensures cost { result ≡ cost_of count }
    ensures bound { (0 < result) × (result ≤ 256) }
{
    node_len(count) as u64
}

/// The runs of the states of one place, and where those of each state end.
#[derive(Drop)]
pub(crate) struct Pieces {
    pub(crate) runs: Vec<Run>,
    pub(crate) ends: Vec<usize>,
}

/// Why there are no merged states.
#[derive(Clone, Copy, Debug)]
pub enum MergeFault {
    /// The words exceed the cap.
    OverCap,
    /// There is no memory for the states.
    OutOfMemory,
}

/// Where memory runs out there are no merged states.
impl From<AllocError> for MergeFault {
    ghost use Rattle.trie_merge.specs.declared.merge.MergeFault.TheVariants.{OutOfMemory};

    ghost from_gives = { λ _ fault. fault ≡ OutOfMemory };

    fn from(_: AllocError) -> MergeFault {
        MergeFault::OutOfMemory
    }
}

/// A kept place.
#[derive(Drop)]
pub(crate) struct Place {
    /// What it has of each rule.
    pub(crate) column: Column,
    /// Whether it is the last one.
    pub(crate) is_last: bool,
    /// The kept place after it, where that isn't the last one: there a state's words are known
    /// when it is found.
    pub(crate) next: Option<Column>,
}

/// How many words there may be, how many there are before the states of a place, and how many of
/// these states are merged at most.
#[derive(Clone, Copy)]
pub(crate) struct Budget {
    pub(crate) cap: u64,
    pub(crate) before: u64,
    pub(crate) states: usize,
}

/// What the bytes of a place lead to, and the numbers of what its states lead to.
pub(crate) struct Reached {
    pub(crate) target: Target,
    pub(crate) found: Found,
}

/// It is written out so that letting go is one call, and not the steps of its two sets at each
/// place where one ends.
impl Drop for Reached {
    fn drop(self) {
        let Reached {
            target: _,
            found: _,
        } = self;
    }
}

impl Reached {
    ghost use Rattle.std.specs.Prelude.{◌≡◌, ℕ, List};
    ghost use Rattle.state_parts.specs.RowsView.{RowsView};

    /// The parts of the next place. The place isn't the last one.
    pub(crate) fn parts(&self) -> &Parts
        requires { (pairs : List (ℕ × ℕ)) × (self.now.target ≡ Target.Parts pairs) }
        ensures { self.now.target ≡ Target.Parts result.now }
    {
        match &self.target {
            Target::Parts(parts) => parts,
            Target::Rows(_) => unreachable!(),
        }
    }

    /// The rows after the last place, which the place is.
    pub(crate) fn rows(&self) -> &Rows
        requires { (rows : RowsView) × (self.now.target ≡ Target.Rows rows) }
        ensures { self.now.target ≡ Target.Rows result.now }
    {
        match &self.target {
            Target::Rows(rows) => rows,
            Target::Parts(_) => unreachable!(),
        }
    }
}

/// What the states of one place come to.
#[derive(Drop)]
pub(crate) struct Merged {
    /// Their runs.
    pub(crate) pieces: Pieces,
    /// The states that they lead to, or at the last place the rows, in the order in which they are
    /// found.
    pub(crate) reached: Reached,
    /// The words before them and their own.
    pub(crate) words: u64,
}

/// What is known of a place: where its parts lead, what tells the words of what its states lead to,
/// and room for the pieces of a part.
#[derive(Drop)]
struct Work {
    steps: PartPieces,
    cuts: Vec<Cuts>,
    buffer: Vec<Piece>,
}

/// What the states of one place come to so far.
#[derive(Drop)]
struct Progress {
    work: Work,
    merged: Merged,
    /// The price of what they lead to.
    least: u64,
}

impl Progress {
    ghost use Rattle.trie_merge.specs.Merged.{IsFirst};

    /// Before the first of so many states, which are made of so many parts.
    fn new(
        alloc: Global,
        target: Target,
        before: u64,
        states: usize,
        parts: usize,
    ) -> Result<Self, AllocError>
        ensures { IfOk result (IsFirst target before) }
    {
        let found = Found::with_room(alloc, states.min(FIRST_ROOM))?;
        Ok(Progress {
            work: Work {
                steps: PartPieces::with_room(alloc, parts)?,
                cuts: Vec::with_capacity(alloc, parts.min(FIRST_ROOM))?,
                buffer: Vec::new(alloc),
            },
            merged: Merged {
                pieces: Pieces {
                    runs: Vec::new(alloc),
                    ends: Vec::new(alloc),
                },
                reached: Reached { target, found },
                words: before,
            },
            least: 0,
        })
    }
}

/// Merges what one state leads to into the others, and counts the state's words.
fn merge_state(
    place: &Place,
    parts: &Parts,
    state: u32,
    progress: &mut Progress,
) -> Result<(), AllocError>
    requires { CanAdd place.now parts.now state progress.old }
    ensures { OnOk result (MergesState place.now parts.now state progress.old progress.new) }
{
    let work = &mut progress.work;
    let merged = &mut progress.merged;
    let reached = &mut merged.reached;
    let pieces = &mut merged.pieces;
    let until = state as usize;
    lead_parts(
        &place.column,
        parts,
        &mut work.steps,
        &mut reached.target,
        until,
        &mut work.buffer,
    )?;
    let start = pieces.runs.len();
    let its = work.steps.pieces(until - 1);
    join_runs(place.is_last, its, &mut reached.found, &mut pieces.runs)?;
    let end = pieces.runs.len();
    pieces.ends.push(end)?;
    merged.words += cost_of(end - start);
    Ok(())
}

/// The price of a number, where the place after it is given: the bytes at which its part changes
/// what it leads to there tell the words of its state.
pub(crate) fn price_ahead(
    next: &Column,
    target: &Target,
    cuts: &mut Vec<Cuts>,
    number: u32,
) -> Result<u64, AllocError>
    requires ask { CanAsk (Some next.now) target.now }
    requires cuts { CutsFor (Some next.now) target.now cuts.old.items }
    requires number { IsNumber target.now number }
    ensures { IfOk result (IsPriced (Some next.now) false target.now number cuts.new.items) }
{
    match target {
        Target::Parts(parts) => {
            fill_cuts(next, parts, cuts, number as usize)?;
            Ok(words_of(cuts[number as usize - 1]))
        }
        Target::Rows(_) => Ok(1),
    }
}

/// The price of a number that is found: how many words its state or row takes at least.
fn price(
    place: &Place,
    target: &Target,
    cuts: &mut Vec<Cuts>,
    number: u32,
) -> Result<u64, AllocError>
    requires can { CanPrice place.now target.now cuts.old.items }
    requires number { IsNumber target.now number }
    ensures { IfOk result
        (IsPriced place.now.next place.now.is_last target.now number cuts.new.items) }
{
    if place.is_last {
        return Ok(ROW_LEN as u64);
    }
    match &place.next {
        Some(next) => price_ahead(next, target, cuts, number),
        None => Ok(1),
    }
}

/// The price of all numbers that weren't seen before: those after the first `seen` ones.
fn price_all(
    place: &Place,
    target: &Target,
    cuts: &mut Vec<Cuts>,
    found: &[u32],
    seen: usize,
) -> Result<u64, AllocError>
    requires can { CanPrice place.now target.now cuts.old.items }
    requires numbers { AreNumbers target.now found.now }
    requires seen { seen ≤ length found.now }
    requires few { length found.now ≤ seen + 256 }
    ensures { IfOk result (ArePriced place.now target.now found.now seen cuts.new.items) }
{
    let mut words = 0;
    for k in seen..found.len() {
        let its = price(place, target, cuts, found[k])?;
        words += its;
    }
    Ok(words)
}

/// Adds one more state: merges it, and counts the price of what it finds anew.
fn add_state(
    place: &Place,
    parts: &Parts,
    state: u32,
    progress: &mut Progress,
) -> Result<(), AllocError>
    requires { CanAdd place.now parts.now state progress.old }
    ensures { OnOk result (AddsState place.now parts.now state progress.old progress.new) }
{
    let seen = progress.merged.reached.found.len();
    merge_state(place, parts, state, progress)?;
    let reached = &progress.merged.reached;
    let cuts = &mut progress.work.cuts;
    let more = price_all(place, &reached.target, cuts, reached.found.as_slice(), seen)?;
    progress.least += more;
    Ok(())
}

/// Merges the states of one place, one after the other.
///
/// It ends as soon as the words so far, and what is found takes at least, exceed the cap.
fn merge_all(
    place: &Place,
    budget: Budget,
    parts: &Parts,
    states: &[u32],
    progress: &mut Progress,
) -> Result<(), MergeFault>
    requires can { CanMergeAll place.now budget parts.now states.now
        (target_of progress.old.merged) }
    requires first { IsFirst (target_of progress.old.merged) budget.before progress.old }
    ensures merged { OnOk result (AreMerged place.now budget parts.now states.now
        (target_of progress.old.merged) progress.new.merged) }
    ensures over { (result ≡ Err MergeFault.OverCap) →
        AreOver place.now budget parts.now states.now (target_of progress.old.merged) }
{
    rule_set::laws::ranks_order_rules();
    rule_set::laws::the_best_has_the_greatest_rank();
    for state in states {
        add_state(place, parts, *state, progress)?;
        if progress.merged.words + progress.least > budget.cap {
            return Err(MergeFault::OverCap);
        }
    }
    Ok(())
}

/// Merges the states of one place.
pub(crate) fn merge_states(
    alloc: Global,
    place: &Place,
    budget: Budget,
    parts: &Parts,
    states: &[u32],
    target: Target,
) -> Result<Merged, MergeFault>
    requires { CanMergeAll place.now budget parts.now states.now target }
    ensures merged { IfOk result (AreMerged place.now budget parts.now states.now target) }
    ensures over { (result ≡ Err MergeFault.OverCap) →
        AreOver place.now budget parts.now states.now target }
{
    let mut progress = Progress::new(alloc, target, budget.before, states.len(), parts.len())?;
    match merge_all(place, budget, parts, states, &mut progress) {
        Ok(()) => Ok(progress.merged),
        Err(fault) => Err(fault),
    }
}
