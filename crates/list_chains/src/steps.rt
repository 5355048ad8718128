//! One step of the turning: what a task leaves to do.

ghost use Rattle.std.specs.Prelude.{◌≡◌, ◌+◌, ◌^◌, ◌<◌, [], ◌∷◌, IfOk, IfSome, OnOk, MatchOption};
ghost use Rattle.list_chains.specs.Spans.{box_meet};
ghost use Rattle.list_chains.specs.Flat.{met_before, shared};
ghost use Rattle.list_chains.specs.Tasks.{enter, frame_rules, leave_tasks, met_tasks, next_frame};
ghost use Rattle.list_chains.specs.Tasks.{parts_tasks, rule_tasks, target_tasks, task_tasks};

use crate::chain::{Chain, ChainRule, Target};
use crate::span::SpanBox;
use crate::task::{Act, Frame, Task, Tasks};
use std::alloc::{AllocError, Global};

/// Puts what a task leaves to do before the other tasks. An answer leaves nothing.
pub fn put_steps(
    alloc: Global,
    chains: &[Chain],
    policy: u32,
    task: Task,
    tasks: &mut Tasks,
) -> Result<(), AllocError>
    ensures { OnOk result (tasks.new
        ≡ task_tasks chains.now policy task.act task.within task.frames.items tasks.old) }
{
    match task.act {
        Act::Follow(frame) => put_rule(alloc, chains, frame, task.within, &task.frames, tasks),
        Act::Leave => put_leave(alloc, policy, task.within, &task.frames, tasks),
        Act::Answer(_) => Ok(()),
    }
}

/// The rule of a frame, if its chain has one there.
fn rule_of(chains: &[Chain], frame: Frame) -> Option<&ChainRule>
    ensures place { IfSome result (λ _. frame.rule + 1 < 2 ^ 64) }
    ensures rule { MatchOption result (frame_rules chains.now frame ≡ [])
        (λ rule. frame_rules chains.now frame
        ≡ rule.now ∷ frame_rules chains.now (next_frame frame)) }
{
    if frame.chain >= chains.len() {
        return None;
    }
    let rules = chains[frame.chain].rules();
    if frame.rule >= rules.len() {
        return None;
    }
    Some(&rules[frame.rule])
}

/// The packets of a box come to the rule of a frame, if there is one.
fn put_rule(
    alloc: Global,
    chains: &[Chain],
    frame: Frame,
    within: SpanBox,
    frames: &[Frame],
    tasks: &mut Tasks,
) -> Result<(), AllocError>
    ensures { OnOk result (tasks.new ≡ rule_tasks (frame_rules chains.now frame) (next_frame frame)
        frames.now within tasks.old) }
{
    let Some(rule) = rule_of(chains, frame) else {
        return Ok(());
    };
    let next = Frame {
        depth: frame.depth,
        chain: frame.chain,
        rule: frame.rule + 1,
    };
    let met = within.meet(alloc, rule.inside())?;
    tasks.push(Task {
        act: Act::Follow(next),
        within,
        frames: copied(alloc, frames)?,
    })?;
    match met {
        Some(met) => put_met(alloc, rule, next, frames, met, tasks),
        None => Ok(()),
    }
}

/// A rule catches the packets of a box, but for what it leaves out.
fn put_met(
    alloc: Global,
    rule: &ChainRule,
    next: Frame,
    frames: &[Frame],
    met: SpanBox,
    tasks: &mut Tasks,
) -> Result<(), AllocError>
    ensures { OnOk result (tasks.new
        ≡ parts_tasks (next ∷ frames.now) (shared box_meet met rule.now.but)
        (target_tasks rule.now.userdata rule.now.target next frames.now met tasks.old)) }
{
    let parts = shared(alloc, &met, rule.but())?;
    put_target(alloc, rule, next, frames, met, tasks)?;
    put_parts(alloc, next, frames, parts.as_slice(), tasks)
}

/// What a box has in common with each of some others, where that is a box.
fn shared(alloc: Global, met: &SpanBox, boxes: &[SpanBox]) -> Result<Vec<SpanBox>, AllocError>
    ensures { IfOk result (λ parts. parts.items ≡ shared box_meet met.now boxes.now) }
{
    let mut parts = Vec::new(alloc);
    for other in boxes {
        if let Some(part) = met.meet(alloc, other)? {
            parts.push(part)?;
        }
    }
    Ok(parts)
}

/// What a rule does with the packets that it catches.
fn put_target(
    alloc: Global,
    rule: &ChainRule,
    next: Frame,
    frames: &[Frame],
    met: SpanBox,
    tasks: &mut Tasks,
) -> Result<(), AllocError>
    ensures { OnOk result (tasks.new
        ≡ target_tasks rule.now.userdata rule.now.target next frames.now met tasks.old) }
{
    match rule.target() {
        Target::Decide => tasks.push(Task {
            act: Act::Answer(rule.userdata()),
            within: met,
            frames: Vec::new(alloc),
        }),
        Target::Return => put_leaving(alloc, frames, met, tasks),
        Target::Jump(place) => {
            let after = after(alloc, next, frames)?;
            put_entry(next.depth, place, met, after, tasks)
        }
        Target::Go(place) => {
            let same = SpanBox::of(alloc, met.spans())?;
            put_leaving(alloc, frames, same, tasks)?;
            put_entry(next.depth, place, met, copied(alloc, frames)?, tasks)
        }
    }
}

/// The packets of a box leave their chain.
pub fn put_leaving(
    alloc: Global,
    frames: &[Frame],
    within: SpanBox,
    tasks: &mut Tasks,
) -> Result<(), AllocError>
    ensures { OnOk result (tasks.new
        ≡ record { act = Act.Leave; within = within; frames = frames.now } ∷ tasks.old) }
{
    tasks.push(Task {
        act: Act::Leave,
        within,
        frames: copied(alloc, frames)?,
    })
}

/// The packets of a box come to a chain, if jumps may lead through one more.
pub fn put_entry(
    depth: usize,
    place: usize,
    met: SpanBox,
    frames: Vec<Frame>,
    tasks: &mut Tasks,
) -> Result<(), AllocError>
    ensures { OnOk result (tasks.new ≡ enter depth place met frames.items tasks.old) }
{
    if depth == 0 {
        return Ok(());
    }
    let first = Frame {
        depth: depth - 1,
        chain: place,
        rule: 0,
    };
    tasks.push(Task {
        act: Act::Follow(first),
        within: met,
        frames,
    })
}

/// What a rule leaves out goes on after it.
fn put_parts(
    alloc: Global,
    next: Frame,
    frames: &[Frame],
    parts: &[SpanBox],
    tasks: &mut Tasks,
) -> Result<(), AllocError>
    ensures { OnOk result (tasks.new ≡ parts_tasks (next ∷ frames.now) parts.now tasks.old) }
{
    for part in parts {
        let within = SpanBox::of(alloc, part.spans())?;
        tasks.push(Task {
            act: Act::Leave,
            within,
            frames: after(alloc, next, frames)?,
        })?;
    }
    Ok(())
}

/// The packets of a box leave their chain: to the rule after the last jump, or to the policy.
fn put_leave(
    alloc: Global,
    policy: u32,
    within: SpanBox,
    frames: &[Frame],
    tasks: &mut Tasks,
) -> Result<(), AllocError>
    ensures { OnOk result (tasks.new ≡ leave_tasks policy frames.now within tasks.old) }
{
    match frames {
        [] => tasks.push(Task {
            act: Act::Answer(policy),
            within,
            frames: Vec::new(alloc),
        }),
        [frame, rest @ ..] => {
            let same = SpanBox::of(alloc, within.spans())?;
            put_leaving(alloc, rest, same, tasks)?;
            tasks.push(Task {
                act: Act::Follow(*frame),
                within,
                frames: copied(alloc, rest)?,
            })
        }
    }
}

/// A copy of some frames.
fn copied(alloc: Global, frames: &[Frame]) -> Result<Vec<Frame>, AllocError>
    ensures { IfOk result (λ copy. copy.items ≡ frames.now) }
{
    let mut copy = Vec::new(alloc);
    copy.extend_from_slice(frames)?;
    Ok(copy)
}

/// A frame, and then some others.
fn after(alloc: Global, next: Frame, frames: &[Frame]) -> Result<Vec<Frame>, AllocError>
    ensures { IfOk result (λ all. all.items ≡ next ∷ frames.now) }
{
    let mut all = Vec::new(alloc);
    all.push(next)?;
    all.extend_from_slice(frames)?;
    Ok(all)
}
