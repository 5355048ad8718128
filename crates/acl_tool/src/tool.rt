//! The top call: words, files and sinks in, a status out.

ghost use Rattle.std.specs.Prelude.{Ok, map, string_bytes};
ghost use Rattle.command_words.specs.Command.{command};
ghost use Rattle.command_words.specs.CommandLine.{request_of};
ghost use Rattle.command_ending.specs.Message.{message};
ghost use Rattle.acl_tool.specs.CommandEffects.{Answers, Runs};
ghost use Rattle.command_ending.specs.StepEffects.{PutsLine, outside};

use crate::audit::audit;
use crate::bench::bench;
use crate::build::build;
use crate::classify::classify;
use crate::compare::compare;
use crate::replay::replay;
use crate::session::session;
use acl_outside::{Desk, Sink, put_all};
use acl_report::LINE_ROOM;
use command_ending::{Status, message_line};
use command_words::{Request, read_words};
use flat_table::Steps;
use std::alloc::Global;
use std::sync::ledger::Ledger;

/// Runs the command that the words are, and tells how it ended.
///
/// The words are those after the program's name. `classify RULES CAPTURE` and its options read the
/// two files through `desk`, make a table of the rules of each family, and put a line for each
/// record of the capture and the lines after them to `out`, with at most 64 records read ahead of
/// their lines. `steps` rises by the transitions that the tables take. Where the status isn't
/// `Done` a line that names its cause goes to `err`, whose failure changes nothing. All memory is
/// taken before the first byte is put.
///
/// `build RULES IMAGE` and its option read the rule file, make a table of the rules of each family,
/// and save both in the image, which is created once it is whole in memory. It puts nothing to
/// `out`. `replay IMAGE CAPTURE` and its options print by the tables of an image what `classify`
/// prints by those of the rules.
///
/// `bench SEED RULES PACKETS` asks for no file: it draws rules and packets from a seed, classifies
/// the packets by the plain filter and by a table, and puts four lines of numbers.
///
/// `audit RULES` and its options read the rule file, and put for each rule a line for each category
/// in which it ever wins, with the least key at which it does, or a line that it never wins.
/// `compare RULES RULES2` and its option read two rule files, and put a line for each family: that
/// both decide every packet alike, or the least key and category at which they don't.
///
/// `session SCRIPT` reads a script of calls over a layout of its own, and puts the reply to each of
/// its lines.
pub fn run<D: Desk, O: Sink, E: Sink, L: Ledger>(
    alloc: Global,
    words: &[String],
    desk: &mut D,
    out: &mut O,
    err: &mut E,
    steps: &mut Steps<L>,
) -> Status
    ensures { Runs (map string_bytes words.now)
        (outside (D.view desk.old) (O.view out.old) steps.old)
        (outside (D.view desk.new) (O.view out.new) steps.new)
        (E.view err.old) (E.view err.new) result }
{
    let status = answer(alloc, words, desk, out, steps);
    put_message(&status, err);
    status
}

/// The command without its message.
fn answer<D: Desk, O: Sink, L: Ledger>(
    alloc: Global,
    words: &[String],
    desk: &mut D,
    out: &mut O,
    steps: &mut Steps<L>,
) -> Status
    ensures { Answers (command (map string_bytes words.now))
        (outside (D.view desk.old) (O.view out.old) steps.old)
        (outside (D.view desk.new) (O.view out.new) steps.new) result }
{
    match read_words(words) {
        Ok(request) => answer_request(alloc, request, desk, out, steps),
        Err(fault) => Status::Usage(fault),
    }
}

/// Does what was asked for.
fn answer_request<D: Desk, O: Sink, L: Ledger>(
    alloc: Global,
    request: Request<'_>,
    desk: &mut D,
    out: &mut O,
    steps: &mut Steps<L>,
) -> Status
    ensures { Answers (Ok (request_of request.entry)) (outside (D.view desk.old) (O.view out.old)
        steps.old) (outside (D.view desk.new) (O.view out.new) steps.new) result }
{
    match request {
        Request::Classify {
            rules,
            capture,
            options,
        } => classify(alloc, rules, capture, &options, desk, out, steps),
        Request::Build {
            rules,
            image,
            max_words,
        } => build(alloc, rules, image, max_words, desk),
        Request::Replay {
            image,
            capture,
            options,
        } => replay(alloc, image, capture, &options, desk, out, steps),
        Request::Bench(numbers) => bench(alloc, numbers, out, steps),
        Request::Audit {
            rules,
            categories,
            max_words,
        } => audit(alloc, rules, categories, max_words, desk, out),
        Request::Compare {
            rules,
            second,
            max_words,
        } => compare(alloc, rules, second, max_words, desk, out),
        Request::Session { script } => session(alloc, script, desk, out),
    }
}

/// Puts the line of a status to standard error. A failure there leaves the status as it is.
fn put_message<E: Sink>(status: &Status, err: &mut E)
    ensures { PutsLine (message status.now) (E.view err.old) (E.view err.new) }
{
    let mut line = [0u8; LINE_ROOM];
    let len = message_line(status, &mut line);
    let _ = put_all(err, &line[..len]);
}
