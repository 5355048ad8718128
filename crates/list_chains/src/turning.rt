//! Chains in, one rule set that answers as they do out.

ghost use Rattle.std.specs.Prelude.{◌≡◌, ◌<◌, ◌≤◌, ◌+◌, ◌-◌, ◌⊎◌, [], ◌++◌, length, pos, false, All, None};
ghost use Rattle.std.specs.Prelude.{IfOk, MatchOption, MatchResult, OnOk, Ok, Err};
ghost use Rattle.std.specs.List.{AllZip};
ghost use Rattle.table_sizes.specs.Sizes.{max_rules};
ghost use Rattle.field_defs.specs.Lawful.{IsLayout};
ghost use Rattle.rule_set.specs.Lawful.{IsLawfulValue};
ghost use Rattle.list_chains.specs.declared.fault.ChainsFault.{ChainsFault};
ghost use Rattle.list_chains.specs.declared.fault.RulePlace.{RulePlace};
ghost use Rattle.list_chains.specs.Chains.{at_or};
ghost use Rattle.list_chains.specs.Jumps.{shallow};
ghost use Rattle.list_chains.specs.Loops.{IsOnLoop};
ghost use Rattle.list_chains.specs.Made.{is_decided, first_tasks};
ghost use Rattle.list_chains.specs.Ranked.{answered, every_category, ranked};
ghost use Rattle.list_chains.specs.Spans.{IsFieldSpan, whole_box};
ghost use Rattle.list_chains.specs.StepLaws.{IsNoAnswer};
ghost use Rattle.list_chains.specs.Turned.{AnswersAsChains, IsTurning, Turns, Writes, left_made};
ghost use Rattle.list_chains.specs.Turned.{max_depth, turned};

use crate::chain::Chain;
use crate::fault::{ChainsFault, LimitFault};
use crate::jumps::{ending, is_marked, shallow, way};
use crate::span::SpanBox;
use crate::steps::{put_entry, put_leaving, put_steps};
use crate::task::{Act, Tasks};
use crate::values::{Row, box_rows};
use field_defs::Layout;
use rule_set::{ALL_CATEGORIES, RuleSet, RuleTag, StoredRule};
use std::alloc::{AllocError, Global};
use table_sizes::MAX_RULES;

/// The most steps that are made, the last of which finds nothing left to do.
pub const MAX_STEPS: u32 = 16_777_216;

/// The most chains that jumps lead through, that of the first rule counted.
pub const MAX_DEPTH: usize = 1024;

/// The rules so far, the last box that was written, and what is left to do.
#[derive(Drop)]
pub(crate) struct Turning {
    set: RuleSet,
    last: Option<SpanBox>,
    tasks: Tasks,
}

/// What a step comes to.
#[derive(Clone, Copy)]
pub enum Turn {
    /// There may be more to do.
    More,
    /// Nothing is left to do.
    Done,
    /// There is no room for the rules of a box.
    Full,
}

/// The rules of a chain that packets come to, as one set for a layout.
///
/// `start` is the place of the chain, and `policy` the answer for packets that fall off its end or
/// return. The winner of each key, in each category, has the answer of the chains as its userdata.
/// The first rule has the priority 262,144, and each other one less than the rule before it.
///
/// `NoChain` and `Loop` come exactly where a jump leads to a chain that isn't there, or jumps lead
/// through more chains than there are: the rule is on the way from `start` along first such rules,
/// and that of `Loop` lies on a loop.
/// `Limit` comes exactly where jumps from `start` lead through more than [`MAX_DEPTH`] chains, or
/// there are too many steps or rules. `OutOfMemory` may come in the place of an answer. It takes
/// memory in proportion to the rules and to what is left to do. For each of those chains that is a
/// place in each before it.
pub fn rules_of_chains(
    alloc: Global,
    layout: Layout,
    chains: &[Chain],
    start: usize,
    policy: u32,
) -> Result<RuleSet, ChainsFault>
    requires { start < length chains.now }
    ensures rules { IfOk result (AnswersAsChains layout chains.now start policy) }
    ensures fault { (fault : ChainsFault) → result ≡ Err fault
        → (fault ≡ ChainsFault.OutOfMemory) ⊎ (turned layout chains.now start policy ≡ Err fault) }
    ensures refused { (fault : ChainsFault) → turned layout chains.now start policy ≡ Err fault
        → (result ≡ Err fault) ⊎ (result ≡ Err ChainsFault.OutOfMemory) }
    ensures on_loop { (at : RulePlace) → result ≡ Err (ChainsFault.Loop at)
        → IsOnLoop chains.now at }
{
    let marks = ending(alloc, chains)?;
    if !is_marked(&marks, start) {
        return Err(way(chains, &marks, start));
    }
    let near = is_shallow(alloc, chains, start)?;
    if !near {
        return Err(ChainsFault::Limit(LimitFault::TooDeep));
    }
    let turning = first_turning(alloc, layout, chains.len(), start)?;
    match all_turns(alloc, turning, chains, policy)? {
        Ok(set) => Ok(set),
        Err(fault) => Err(ChainsFault::Limit(fault)),
    }
}

/// Whether jumps from a chain lead through no more chains than are followed.
pub fn is_shallow(alloc: Global, chains: &[Chain], start: usize) -> Result<bool, AllocError>
    ensures { IfOk result (λ is. is ≡ at_or (shallow max_depth chains.now) start false) }
{
    let marks = shallow(alloc, chains, MAX_DEPTH)?;
    Ok(is_marked(&marks, start))
}

/// What is left to do at first: all keys come to a chain.
fn first_turning(
    alloc: Global,
    layout: Layout,
    depth: usize,
    start: usize,
) -> Result<Turning, AllocError>
    ensures { IfOk result (λ turning. IsTurning turning × (turning.set.layout ≡ layout)
        × (turning.set.rules ≡ []) × (turning.last ≡ None)
        × (turning.tasks ≡ first_tasks depth start (whole_box layout))) }
{
    let mut tasks = Tasks::new(alloc);
    let whole = SpanBox::whole(alloc, &layout)?;
    put_leaving(alloc, &[], SpanBox::whole(alloc, &layout)?, &mut tasks)?;
    put_entry(depth, start, whole, Vec::new(alloc), &mut tasks)?;
    Ok(Turning {
        set: RuleSet::new(alloc, layout),
        last: None,
        tasks,
    })
}

/// The set that is made in all steps, or the limit that they meet.
fn all_turns(
    alloc: Global,
    turning: Turning,
    chains: &[Chain],
    policy: u32,
) -> Result<Result<RuleSet, LimitFault>, AllocError>
    requires { IsTurning turning }
    ensures { IfOk result (λ made. MatchResult made
        (λ set. (set.layout ≡ turning.set.layout)
        × (left_made chains.now policy MAX_STEPS turning ≡ Ok set.rules))
        (λ fault. left_made chains.now policy MAX_STEPS turning ≡ Err fault)) }
{
    let mut turning = turning;
    let mut left = MAX_STEPS;
    while left > 0 {
        left -= 1;
        match one_turn(alloc, &mut turning, chains, policy)? {
            Turn::More => {}
            Turn::Done => return Ok(Ok(turning.set)),
            Turn::Full => return Ok(Err(LimitFault::TooManyRules)),
        }
    }
    Ok(Err(LimitFault::TooManySteps))
}

/// One step.
fn one_turn(
    alloc: Global,
    turning: &mut Turning,
    chains: &[Chain],
    policy: u32,
) -> Result<Turn, AllocError>
    requires { IsTurning turning.old }
    ensures { IfOk result (Turns chains.now policy turning.old turning.new) }
{
    let Some(task) = turning.tasks.pop() else {
        return Ok(Turn::Done);
    };
    if is_decided(&turning.last, &task.within) {
        return Ok(Turn::More);
    }
    match answer_of(task.act) {
        Some(userdata) => write(alloc, turning, userdata, task.within),
        None => {
            put_steps(alloc, chains, policy, task, &mut turning.tasks)?;
            Ok(Turn::More)
        }
    }
}

/// The answer of an act, if it is one.
pub fn answer_of(act: Act) -> Option<u32>
    ensures { MatchOption result (IsNoAnswer act) (λ userdata. act ≡ Act.Answer userdata) }
{
    match act {
        Act::Answer(userdata) => Some(userdata),
        Act::Follow(_) | Act::Leave => None,
    }
}

/// Whether a box lies within the last that was written.
pub fn is_decided(last: &Option<SpanBox>, within: &SpanBox) -> bool
    ensures { result ≡ is_decided last.now within.now }
{
    match last {
        Some(last) => within.is_inside(last),
        None => false,
    }
}

/// Writes the rules of a box if there is room for all of them.
fn write(
    alloc: Global,
    turning: &mut Turning,
    userdata: u32,
    within: SpanBox,
) -> Result<Turn, AllocError>
    requires kept { IsTurning turning.old }
    requires spans { AllZip IsFieldSpan turning.old.set.layout within }
    ensures { IfOk result (Writes userdata within turning.old turning.new) }
{
    let room = MAX_RULES - turning.set.len();
    let Some(rows) = box_rows(alloc, turning.set.layout().fields(), within.spans(), room)? else {
        return Ok(Turn::Full);
    };
    put_rows(alloc, &mut turning.set, userdata, &rows)?;
    turning.last = Some(within);
    Ok(Turn::More)
}

/// Puts rules of an answer after the others of a set, each of the priority of the room before it.
fn put_rows(alloc: Global, set: &mut RuleSet, userdata: u32, rows: &[Row]) -> Result<(), AllocError>
    requires room { length set.old.rules + length rows.now ≤ max_rules }
    requires layout { IsLayout set.old.layout }
    requires lawful { All (AllZip IsLawfulValue set.old.layout) rows.now }
    ensures layout { OnOk result (set.new.layout ≡ set.old.layout) }
    ensures rules { OnOk result (set.new.rules ≡ set.old.rules
        ++ ranked (max_rules - length set.old.rules) (answered userdata rows.now)) }
{
    for row in rows {
        let rule = StoredRule::new(alloc, tag_after(set.len(), userdata), row.values())?;
        set.push_lawful(rule)?;
    }
    Ok(())
}

/// The tag of a rule after so many others.
fn tag_after(rules: usize, userdata: u32) -> RuleTag
    requires { rules ≤ max_rules }
    ensures { result ≡ record {
      category_mask = every_category;
      priority = pos (max_rules - rules);
      userdata = userdata;
    } }
{
    RuleTag {
        category_mask: ALL_CATEGORIES,
        priority: (MAX_RULES - rules) as i32,
        userdata,
    }
}
