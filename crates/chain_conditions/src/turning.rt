//! Chains with conditions in, one rule set in categories out.

ghost use Rattle.std.specs.Prelude.{◌≡◌, ◌<◌, ◌≤◌, ◌+◌, ◌-◌, ◌⊎◌, [], ◌∷◌, ◌++◌, length, pos, All};
ghost use Rattle.std.specs.Prelude.{IfOk, MatchResult, None, OnOk, Ok, Err};
ghost use Rattle.std.specs.List.{AllZip};
ghost use Rattle.table_sizes.specs.Sizes.{max_rules};
ghost use Rattle.field_defs.specs.Lawful.{IsLayout};
ghost use Rattle.rule_set.specs.Lawful.{IsLawfulValue};
ghost use Rattle.list_chains.specs.declared.fault.ChainsFault.{ChainsFault};
ghost use Rattle.list_chains.specs.declared.fault.RulePlace.{RulePlace};
ghost use Rattle.list_chains.specs.Loops.{IsOnLoop};
ghost use Rattle.list_chains.specs.Made.{first_tasks};
ghost use Rattle.list_chains.specs.Spans.{IsFieldSpan, whole_box};
ghost use Rattle.chain_conditions.specs.Kinds.{IsMask, masks_of};
ghost use Rattle.chain_conditions.specs.Marked.{is_sure_box, mark_def, marked_chains};
ghost use Rattle.chain_conditions.specs.Marked.{unmarked_spans};
ghost use Rattle.chain_conditions.specs.Made.{box_mask, last_sure, tagged};
ghost use Rattle.chain_conditions.specs.Turned.{AnswersUnderConditions, IsTurning, Turns, Writes};
ghost use Rattle.chain_conditions.specs.Turned.{IsTurned, left_made, turned, turned_under};

use crate::conditional::ConditionalChain;
use crate::kind::{AnswerKind, mask_of};
use crate::marked::marked_chains;
use field_defs::Layout;
use list_chains::{
    Chain, ChainsFault, LimitFault, MAX_STEPS, Row, Span, SpanBox, Tasks, Turn, answer_of,
    box_rows, ending, is_decided, is_marked, is_shallow, put_entry, put_leaving, put_steps, way,
};
use rule_set::{ALL_CATEGORIES, RuleSet, RuleTag, StoredRule};
use std::alloc::{AllocError, Global};
use table_sizes::MAX_RULES;

/// The rules so far, the last box that was written without conditions, and what is left to do.
#[derive(Drop)]
pub(crate) struct Turning {
    set: RuleSet,
    last: Option<SpanBox>,
    tasks: Tasks,
}

/// The rules of a chain that packets come to, some of them under conditions, as one set for a
/// layout.
///
/// `start` is the place of the chain, and `policy` the answer for packets that fall off its end or
/// return. `kinds` has the kind of each answer at the place of its number. Rules without conditions
/// are in all categories, and others in that of their answer's kind, 0 to 2: wherever an answer of
/// a kind is possible, the winner of the kind's category is of that kind. The winner of category 3
/// is the answer if no condition holds.
///
/// Priorities, faults and limits are those of `rules_of_chains`. It takes the memory of a copy of
/// the chains more than that does.
pub fn rules_under_conditions(
    alloc: Global,
    layout: Layout,
    chains: &[ConditionalChain],
    start: usize,
    policy: u32,
    kinds: &[AnswerKind],
) -> Result<RuleSet, ChainsFault>
    requires { start < length chains.now }
    ensures rules { IfOk result
        (AnswersUnderConditions layout chains.now start policy kinds.now) }
    ensures fault { (fault : ChainsFault) → result ≡ Err fault
        → (fault ≡ ChainsFault.OutOfMemory)
        ⊎ (turned_under layout chains.now start policy kinds.now ≡ Err fault) }
    ensures refused { (fault : ChainsFault)
        → turned_under layout chains.now start policy kinds.now ≡ Err fault
        → (result ≡ Err fault) ⊎ (result ≡ Err ChainsFault.OutOfMemory) }
    ensures on_loop { (at : RulePlace) → result ≡ Err (ChainsFault.Loop at)
        → IsOnLoop (marked_chains chains.now) at }
{
    let marked = marked_chains(alloc, chains)?;
    rules_of_marked(alloc, layout, &marked, start, policy, kinds)
}

/// The rules of a chain over boxes with marks.
fn rules_of_marked(
    alloc: Global,
    layout: Layout,
    chains: &[Chain],
    start: usize,
    policy: u32,
    kinds: &[AnswerKind],
) -> Result<RuleSet, ChainsFault>
    requires { start < length chains.now }
    ensures rules { IfOk result (IsTurned layout (masks_of kinds.now) chains.now start policy) }
    ensures fault { (fault : ChainsFault) → result ≡ Err fault
        → (fault ≡ ChainsFault.OutOfMemory)
        ⊎ (turned layout (masks_of kinds.now) chains.now start policy ≡ Err fault) }
    ensures refused { (fault : ChainsFault)
        → turned layout (masks_of kinds.now) chains.now start policy ≡ Err fault
        → (result ≡ Err fault) ⊎ (result ≡ Err ChainsFault.OutOfMemory) }
    ensures on_loop { (at : RulePlace) → result ≡ Err (ChainsFault.Loop at)
        → IsOnLoop chains.now at }
{
    let marks = ending(alloc, chains)?;
    if !is_marked(&marks, start) {
        return Err(way(chains, &marks, start));
    }
    let near = is_shallow(alloc, chains, start)?;
    if !near {
        return Err(ChainsFault::Limit(LimitFault::TooDeep));
    }
    let turning = first_turning(alloc, layout, chains.len(), start)?;
    match all_turns(alloc, turning, chains, policy, kinds)? {
        Ok(set) => Ok(set),
        Err(fault) => Err(ChainsFault::Limit(fault)),
    }
}

/// The box of all keys, with the mark of no condition.
fn marked_whole(alloc: Global, layout: &Layout) -> Result<SpanBox, AllocError>
    ensures is { IfOk result (λ it. it ≡ whole_box (mark_def ∷ layout.now)) }
    ensures fits { IfOk result (AllZip IsFieldSpan (mark_def ∷ layout.now)) }
{
    let whole = SpanBox::whole(alloc, layout)?;
    let mut spans = Vec::new(alloc);
    spans.push(Span { low: 0, high: 255 })?;
    spans.extend_from_slice(whole.spans())?;
    SpanBox::of(alloc, &spans)
}

/// What is left to do at first: all keys come to a chain.
fn first_turning(
    alloc: Global,
    layout: Layout,
    depth: usize,
    start: usize,
) -> Result<Turning, AllocError>
    ensures { IfOk result (λ turning. IsTurning turning × (turning.set.layout ≡ layout)
        × (turning.set.rules ≡ []) × (turning.last ≡ None)
        × (turning.tasks ≡ first_tasks depth start (whole_box (mark_def ∷ layout)))) }
{
    let mut tasks = Tasks::new(alloc);
    let whole = marked_whole(alloc, &layout)?;
    put_leaving(alloc, &[], marked_whole(alloc, &layout)?, &mut tasks)?;
    put_entry(depth, start, whole, Vec::new(alloc), &mut tasks)?;
    Ok(Turning {
        set: RuleSet::new(alloc, layout),
        last: None,
        tasks,
    })
}

/// The set that is made in all steps, or the limit that they meet.
fn all_turns(
    alloc: Global,
    turning: Turning,
    chains: &[Chain],
    policy: u32,
    kinds: &[AnswerKind],
) -> Result<Result<RuleSet, LimitFault>, AllocError>
    requires { IsTurning turning }
    ensures { IfOk result (λ made. MatchResult made
        (λ set. (set.layout ≡ turning.set.layout)
        × (left_made (masks_of kinds.now) chains.now policy MAX_STEPS turning ≡ Ok set.rules))
        (λ fault. left_made (masks_of kinds.now) chains.now policy MAX_STEPS turning ≡ Err fault)) }
{
    let mut turning = turning;
    let mut left = MAX_STEPS;
    while left > 0 {
        left -= 1;
        match one_turn(alloc, &mut turning, chains, policy, kinds)? {
            Turn::More => {}
            Turn::Done => return Ok(Ok(turning.set)),
            Turn::Full => return Ok(Err(LimitFault::TooManyRules)),
        }
    }
    Ok(Err(LimitFault::TooManySteps))
}

/// One step.
fn one_turn(
    alloc: Global,
    turning: &mut Turning,
    chains: &[Chain],
    policy: u32,
    kinds: &[AnswerKind],
) -> Result<Turn, AllocError>
    requires { IsTurning turning.old }
    ensures { IfOk result
        (Turns (masks_of kinds.now) chains.now policy turning.old turning.new) }
{
    let Some(task) = turning.tasks.pop() else {
        return Ok(Turn::Done);
    };
    if is_decided(&turning.last, &task.within) {
        return Ok(Turn::More);
    }
    match answer_of(task.act) {
        Some(userdata) => {
            let mask = mask_in(kinds, userdata, &task.within);
            write(alloc, turning, mask, userdata, task.within)
        }
        None => {
            put_steps(alloc, chains, policy, task, &mut turning.tasks)?;
            Ok(Turn::More)
        }
    }
}

/// Whether nothing is asked for a box.
fn is_sure(within: &SpanBox) -> bool
    ensures { result ≡ is_sure_box within.now }
{
    match within.spans() {
        [mark, ..] => mark.high > 0,
        [] => false,
    }
}

/// The spans after the mark.
fn unmarked(within: &SpanBox) -> &[Span]
    ensures { result.now ≡ unmarked_spans within.now }
{
    match within.spans() {
        [_, spans @ ..] => spans,
        none => none,
    }
}

/// The categories of the rules of a box.
fn mask_in(kinds: &[AnswerKind], userdata: u32, within: &SpanBox) -> u32
    ensures is { result ≡ box_mask (masks_of kinds.now) userdata within.now }
    ensures lawful { IsMask result }
{
    if is_sure(within) {
        ALL_CATEGORIES
    } else {
        mask_of(kinds, userdata)
    }
}

/// Keeps a box as the last one, if nothing is asked for it.
///
/// A box under a condition leaves its packets to others, and so what lies within it is still asked.
fn keep_sure(last: &mut Option<SpanBox>, within: SpanBox)
    ensures { last.new ≡ last_sure last.old within }
{
    if is_sure(&within) {
        *last = Some(within);
    }
}

/// Writes the rules of a box if there is room for all of them.
fn write(
    alloc: Global,
    turning: &mut Turning,
    mask: u32,
    userdata: u32,
    within: SpanBox,
) -> Result<Turn, AllocError>
    requires kept { IsTurning turning.old }
    requires mask { IsMask mask }
    requires spans { AllZip IsFieldSpan (mark_def ∷ turning.old.set.layout) within }
    ensures { IfOk result (Writes mask userdata within turning.old turning.new) }
{
    let room = MAX_RULES - turning.set.len();
    let spans = unmarked(&within);
    let Some(rows) = box_rows(alloc, turning.set.layout().fields(), spans, room)? else {
        return Ok(Turn::Full);
    };
    put_rows(alloc, &mut turning.set, mask, userdata, &rows)?;
    keep_sure(&mut turning.last, within);
    Ok(Turn::More)
}

/// Puts rules of an answer after the others of a set, each of the priority of the room before it.
fn put_rows(
    alloc: Global,
    set: &mut RuleSet,
    mask: u32,
    userdata: u32,
    rows: &[Row],
) -> Result<(), AllocError>
    requires mask { IsMask mask }
    requires room { length set.old.rules + length rows.now ≤ max_rules }
    requires layout { IsLayout set.old.layout }
    requires lawful { All (AllZip IsLawfulValue set.old.layout) rows.now }
    ensures layout { OnOk result (set.new.layout ≡ set.old.layout) }
    ensures rules { OnOk result (set.new.rules ≡ set.old.rules
        ++ tagged (max_rules - length set.old.rules) mask userdata rows.now) }
{
    for row in rows {
        let rule = StoredRule::new(alloc, tag_after(set.len(), mask, userdata), row.values())?;
        set.push_lawful(rule)?;
    }
    Ok(())
}

/// The tag of a rule after so many others.
fn tag_after(rules: usize, mask: u32, userdata: u32) -> RuleTag
    requires { rules ≤ max_rules }
    ensures { result ≡ record {
      category_mask = mask;
      priority = pos (max_rules - rules);
      userdata = userdata;
    } }
{
    RuleTag {
        category_mask: mask,
        priority: (MAX_RULES - rules) as i32,
        userdata,
    }
}
