//! What the edge knows of a program.

ghost use Rattle.std.specs.Prelude.{ℕ, List, map, string_bytes};
ghost use Rattle.program_edge.specs.Edge.{World};

use acl_outside::{Desk, Sink};
use std::alloc::Global;

/// Does what the words of a command line ask for.
pub trait Program {
    /// What a run promises: of the program before and after it, of the words after its name, of
    /// the files and streams before and after it, and of the exit code.
    ghost promise: { Self → Self → List (List ℕ) → World → World → ℕ → Type 0 };

    /// Runs the words after the program's name, and gives the exit code. What is printed goes to
    /// `out`, and the line that names the cause of a failure to `err`.
    fn run<D: Desk, O: Sink, E: Sink>(
        &mut self,
        alloc: Global,
        words: &[String],
        desk: &mut D,
        out: &mut O,
        err: &mut E,
    ) -> u8
        ensures { promise self.old self.new (map string_bytes words.now)
            (record { desk = D.view desk.old; out = O.view out.old; err = E.view err.old })
            (record { desk = D.view desk.new; out = O.view out.new; err = E.view err.new })
            result };
}
