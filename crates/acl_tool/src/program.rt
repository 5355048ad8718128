//! The commands as a program.

ghost use Rattle.std.specs.Prelude.{◌≡◌, ◌<◌};

use crate::tool::run;
use acl_outside::{Desk, Sink};
use flat_table::Steps;
use program_edge::Program;
use std::alloc::Global;
use std::sync::ledger::{Blank, Ledger};

/// The program `aclc`, with the counter of the transitions that its runs take.
#[derive(Drop)]
pub struct Aclc<L: Ledger> {
    /// It exists in proofs alone.
    steps: Steps<L>,
}

impl<L: Ledger> Aclc<L> {
    /// The program before its first run, whose counter stands at 0. It takes no memory.
    pub fn new(blank: Blank) -> Self
        requires name { blank.name ≡ L.name }
        requires parts { blank.parts ≡ L.parts }
        requires some { 0 < blank.parts }
        ensures { result.steps ≡ 0 }
    {
        Aclc {
            steps: Steps::new(blank),
        }
    }
}

impl<L: Ledger> Program for Aclc<L> {
    ghost use Rattle.acl_tool.specs.RunsAnew.{IsRunOfAclc};

    ghost promise = { λ old new. IsRunOfAclc old.steps new.steps };

    fn run<D: Desk, O: Sink, E: Sink>(
        &mut self,
        alloc: Global,
        words: &[String],
        desk: &mut D,
        out: &mut O,
        err: &mut E,
    ) -> u8 {
        run(alloc, words, desk, out, err, &mut self.steps).code()
    }
}
