//! The words of a command line, and the files and streams of the system, for a program.

ghost use Rattle.std.specs.Prelude.{◌≡◌, ℕ, List, Some, None, drop, map, pos, string_bytes, IfSome};
ghost use Rattle.std.specs.Process.{exit_status};
ghost use Rattle.program_edge.specs.Edge.{LeavesWriters, RunsOver};

use crate::program::Program;
use acl_outside::{Desk, HeldStreams, Sink, StdDesk, StdSink};
use std::alloc::Global;
use std::io::Write;
use std::os::fd::AsRawFd;
use std::process::ExitCode;
use std::rt::Files;

/// The exit code if the words can't be had from the system, as when one isn't UTF-8. No program
/// answers it.
const NO_WORDS: u8 = 1;

/// Runs these words, of which the first is the program's name, over standard output and standard
/// error. The exit code is 1 if there are no words.
///
/// Streams that are closed are held meanwhile. It takes the memory of the program.
pub fn run_words<P: Program>(
    program: &mut P,
    rt: &HostRuntime,
    words: Option<Vec<String>>,
) -> ExitCode
    // Of what the streams held before and hold after, the system says nothing.
    ensures ran { IfSome words (λ all. RunsOver
        (P.promise program.old program.new (map string_bytes (drop 1 all.items)))
        None None None None (exit_status result)) }
    ensures no_words { words ≡ None → exit_status result ≡ 1 }
{
    let held = HeldStreams::new(rt);
    let (code, _, _) = run_over_streams(
        &held,
        program,
        rt,
        rt.alloc(),
        words,
        rt.stdout(),
        rt.stderr(),
    );
    code
}

/// Runs the words over standard output and standard error, while closed streams are held.
fn run_over_streams<P: Program, R: Files, O: Write + AsRawFd + Drop, E: Write + AsRawFd + Drop>(
    _held: &HeldStreams,
    program: &mut P,
    rt: &R,
    alloc: Global,
    words: Option<Vec<String>>,
    out: O,
    err: E,
) -> (ExitCode, O, E)
    requires out { O.raw_fd out ≡ Some (pos 1) }
    requires err { E.raw_fd err ≡ Some (pos 2) }
    ensures ran { IfSome words (λ all. RunsOver
        (P.promise program.old program.new (map string_bytes (drop 1 all.items)))
        (O.contents out) (O.contents result.1) (E.contents err) (E.contents result.2)
        (exit_status result.0)) }
    ensures no_words { words ≡ None → exit_status result.0 ≡ 1 }
{
    run_over(program, rt, alloc, words, out, err)
}

/// Runs these words, of which the first is the program's name, over the files that `rt` opens and
/// two writers, and gives the writers back: the first has what was printed, and the second the line
/// that names the cause of a failure. The exit code is 1 if there are no words. It takes the memory
/// of the program.
pub fn run_over<P: Program, R: Files, O: Write + Drop, E: Write + Drop>(
    program: &mut P,
    rt: &R,
    alloc: Global,
    words: Option<Vec<String>>,
    out: O,
    err: E,
) -> (ExitCode, O, E)
    // All that the program promises holds, from a new desk and new sinks over the two writers on,
    // and each writer holds what its sink wrote.
    ensures ran { IfSome words (λ all. RunsOver
        (P.promise program.old program.new (map string_bytes (drop 1 all.items)))
        (O.contents out) (O.contents result.1) (E.contents err) (E.contents result.2)
        (exit_status result.0)) }
    ensures no_words { words ≡ None → exit_status result.0 ≡ 1 }
    ensures unwritten { words ≡ None → LeavesWriters (O.contents out) (O.contents result.1)
        (E.contents err) (E.contents result.2) }
    ensures unchanged { words ≡ None → program.new ≡ program.old }
{
    let mut desk = StdDesk::new(rt);
    let mut out = StdSink::new(out);
    let mut err = StdSink::new(err);
    let code = exit_code(program, alloc, words, &mut desk, &mut out, &mut err);
    (code, out.into_writer(), err.into_writer())
}

/// Runs the words after the first, which is the program's name, over any files and streams, and
/// gives the exit code, which is 1 if there are no words.
pub fn exit_code<P: Program, D: Desk, O: Sink, E: Sink>(
    program: &mut P,
    alloc: Global,
    words: Option<Vec<String>>,
    desk: &mut D,
    out: &mut O,
    err: &mut E,
) -> ExitCode
    // All that the program promises holds.
    ensures ran { IfSome words (λ all. P.promise program.old program.new
        (map string_bytes (drop 1 all.items))
        (record { desk = D.view desk.old; out = O.view out.old; err = E.view err.old })
        (record { desk = D.view desk.new; out = O.view out.new; err = E.view err.new })
        (exit_status result)) }
    ensures no_words { words ≡ None → exit_status result ≡ 1 }
    // Nothing is asked, printed or counted if there are no words.
    ensures desk { words ≡ None → D.view desk.new ≡ D.view desk.old }
    ensures out { words ≡ None → O.view out.new ≡ O.view out.old }
    ensures err { words ≡ None → E.view err.new ≡ E.view err.old }
    ensures unchanged { words ≡ None → program.new ≡ program.old }
{
    match words {
        Some(all) => ExitCode::from(program.run(alloc, after_name(&all), desk, out, err)),
        None => ExitCode::from(NO_WORDS),
    }
}

/// The words after the first, which is the program's name.
fn after_name(all: &[String]) -> &[String]
    ensures { result.now ≡ drop 1 all.now }
{
    match all {
        [] => &[],
        [_, words @ ..] => words,
    }
}
