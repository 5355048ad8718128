//! What is left to do while chains are turned into rules.

ghost use Rattle.std.specs.Prelude.{◌≡◌, IfOk, OnOk, MatchOption};

use crate::span::SpanBox;
use std::alloc::{AllocError, Global};
use std::marker::Model;

/// A rule of a chain by the places of both, and through how many chains jumps may lead from there.
#[derive(Clone, Copy)]
pub struct Frame {
    pub depth: usize,
    pub chain: usize,
    pub rule: usize,
}

/// What is done with the packets of a box.
#[derive(Clone, Copy)]
pub enum Act {
    /// They come to a rule.
    Follow(Frame),
    /// They leave their chain.
    Leave,
    /// They have this answer.
    Answer(u32),
}

/// An act, the box of its packets, and the rules after the jumps that led to them, the last one
/// first.
#[derive(Drop)]
pub struct Task {
    pub act: Act,
    pub within: SpanBox,
    pub frames: Vec<Frame>,
}

/// Tasks, of which the next one is the last that was put there.
#[derive(Drop)]
pub struct Tasks {
    kept: Vec<Task>,
}

impl Model for Tasks {
    ghost use Rattle.std.specs.Prelude.{List, map, reverse};
    ghost use Rattle.list_chains.specs.Tasks.{TaskView, task_of};

    ghost Value = { List TaskView };

    ghost view = { λ tasks. map task_of (reverse tasks.kept.items) };
}

impl Tasks {
    ghost use Rattle.std.specs.Prelude.{◌≡◌, [], ◌∷◌, OnOk, MatchOption};
    ghost use Rattle.list_chains.specs.Tasks.{task_of};

    /// No tasks.
    pub fn new(alloc: Global) -> Tasks
        ensures { result ≡ [] }
    {
        Tasks {
            kept: Vec::new(alloc),
        }
    }

    /// Puts a task before the others.
    pub fn push(&mut self, task: Task) -> Result<(), AllocError>
        ensures { OnOk result (self.new ≡ task_of task ∷ self.old) }
    {
        self.kept.push(task)?;
        Ok(())
    }

    /// The next task, which is taken away.
    pub fn pop(&mut self) -> Option<Task>
        ensures { MatchOption result ((self.old ≡ []) × (self.new ≡ []))
            (λ task. self.old ≡ task_of task ∷ self.new) }
    {
        self.kept.pop()
    }
}
