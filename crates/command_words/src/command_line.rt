//! The words of a command line: a command, the names of its files, and its options.

ghost use Rattle.std.specs.Prelude.{◌≡◌, ◌≤◌, Ok, Err, IfOk, IfErr, map, string_bytes};
ghost use Rattle.command_words.specs.Options.{for_audit, for_build, for_classify, for_replay};
ghost use Rattle.command_words.specs.Options.{for_compare, for_session, none_given};
ghost use Rattle.command_words.specs.Command.{asked_by, build_request, classify_request, command, named_of};
ghost use Rattle.command_words.specs.Command.{audit_request, compare_request, options_from, replay_request};
ghost use Rattle.command_words.specs.Command.{Bench, command_of, other_command, session_request};
ghost use Rattle.command_words.specs.Command.{single_of};
ghost use Rattle.command_words.specs.BenchWords.{numbers_of};
ghost use Rattle.command_words.specs.CommandLine.{named_in, options_of, request_of, single_in};

use crate::allowed::Allowed;
use crate::bench_numbers::BenchNumbers;
use crate::bench_words::read_numbers;
use crate::budget::Budget;
use crate::options::{Given, Options};
use crate::usage_fault::{UsageFault, UsageKind};
use rule_set::Categories;

/// A command, with the names of its files and its options.
#[derive(Clone, Copy)]
pub enum Request<'a> {
    /// Reads a rule file and a capture, and prints a report.
    Classify {
        rules: &'a str,
        capture: &'a str,
        options: Options,
    },
    /// Makes the tables of a rule file, and saves them as an image.
    Build {
        rules: &'a str,
        image: &'a str,
        max_words: Budget,
    },
    /// Reads an image and a capture, and prints a report by the tables of the image.
    Replay {
        image: &'a str,
        capture: &'a str,
        options: Options,
    },
    /// Classifies the packets of a seed by the plain filter and by a table.
    Bench(BenchNumbers),
    /// Reads a rule file, and tells which of its rules ever win.
    Audit {
        rules: &'a str,
        categories: Categories,
        max_words: Budget,
    },
    /// Reads two rule files, and tells whether they decide alike.
    Compare {
        rules: &'a str,
        second: &'a str,
        max_words: Budget,
    },
    /// Reads a script, and answers its lines.
    Session {
        script: &'a str,
    },
}

/// The number of the first word that is an option, after one name and after two.
const AFTER_ONE_NAME: u32 = 3;

const AFTER_TWO_NAMES: u32 = 4;

/// The name of a file, and the options after it.
#[derive(Clone, Copy)]
pub struct OneName<'a> {
    name: &'a str,
    options: Options,
}

/// The names of two files, and the options after them.
#[derive(Clone, Copy)]
pub struct TwoNames<'a> {
    first: &'a str,
    second: &'a str,
    options: Options,
}

/// The command that the words are, or their first fault. It takes no memory.
pub fn read_words(words: &[String]) -> Result<Request<'_>, UsageFault>
    ensures request { IfOk result
        (λ request. command (map string_bytes words.now) ≡ Ok (request_of request)) }
    ensures fault { IfErr result (λ fault. command (map string_bytes words.now) ≡ Err fault) }
{
    match words {
        [] => Err(fault_at(1, UsageKind::MissingCommand)),
        [verb, words @ ..] => read_command(verb.as_str(), words),
    }
}

/// The command of a verb and of the words after it.
fn read_command<'a>(verb: &str, words: &'a [String]) -> Result<Request<'a>, UsageFault>
    ensures request { IfOk result (λ request.
        command_of verb.now (map string_bytes words.now) ≡ Ok (request_of request)) }
    ensures fault { IfErr result (λ fault.
        command_of verb.now (map string_bytes words.now) ≡ Err fault) }
{
    match verb {
        "classify" => read_classify(words),
        "build" => read_build(words),
        "replay" => read_replay(words),
        _ => read_other(verb, words),
    }
}

/// The command of a verb that names no table, and of the words after it.
fn read_other<'a>(verb: &str, words: &'a [String]) -> Result<Request<'a>, UsageFault>
    ensures request { IfOk result (λ request.
        other_command verb.now (map string_bytes words.now)
        ≡ Ok (request_of request)) }
    ensures fault { IfErr result (λ fault.
        other_command verb.now (map string_bytes words.now) ≡ Err fault) }
{
    match verb {
        "bench" => read_bench(words),
        "audit" => read_audit(words),
        "compare" => read_compare(words),
        "session" => read_session(words),
        _ => Err(fault_at(1, UsageKind::UnknownCommand)),
    }
}

/// The words after `classify`.
fn read_classify(words: &[String]) -> Result<Request<'_>, UsageFault>
    ensures request { IfOk result (λ request.
        asked_by classify_request (named_of for_classify (map string_bytes words.now))
        ≡ Ok (request_of request)) }
    ensures fault { IfErr result (λ fault.
        asked_by classify_request (named_of for_classify (map string_bytes words.now))
        ≡ Err fault) }
{
    let names = read_names(words, Allowed::for_classify())?;
    Ok(Request::Classify {
        rules: names.first,
        capture: names.second,
        options: names.options,
    })
}

/// The words after `build`.
fn read_build(words: &[String]) -> Result<Request<'_>, UsageFault>
    ensures request { IfOk result (λ request.
        asked_by build_request (named_of for_build (map string_bytes words.now))
        ≡ Ok (request_of request)) }
    ensures fault { IfErr result (λ fault.
        asked_by build_request (named_of for_build (map string_bytes words.now)) ≡ Err fault) }
{
    let names = read_names(words, Allowed::for_build())?;
    Ok(Request::Build {
        rules: names.first,
        image: names.second,
        max_words: names.options.max_words,
    })
}

/// The words after `replay`.
fn read_replay(words: &[String]) -> Result<Request<'_>, UsageFault>
    ensures request { IfOk result (λ request.
        asked_by replay_request (named_of for_replay (map string_bytes words.now))
        ≡ Ok (request_of request)) }
    ensures fault { IfErr result (λ fault.
        asked_by replay_request (named_of for_replay (map string_bytes words.now)) ≡ Err fault) }
{
    let names = read_names(words, Allowed::for_replay())?;
    Ok(Request::Replay {
        image: names.first,
        capture: names.second,
        options: names.options,
    })
}

/// The words after `bench`.
fn read_bench(words: &[String]) -> Result<Request<'_>, UsageFault>
    ensures request { IfOk result (λ request.
        asked_by Bench (numbers_of (map string_bytes words.now)) ≡ Ok (request_of request)) }
    ensures fault { IfErr result (λ fault.
        asked_by Bench (numbers_of (map string_bytes words.now)) ≡ Err fault) }
{
    let numbers = read_numbers(words)?;
    Ok(Request::Bench(numbers))
}

/// The words after `audit`.
fn read_audit(words: &[String]) -> Result<Request<'_>, UsageFault>
    ensures request { IfOk result (λ request.
        asked_by audit_request (single_of for_audit (map string_bytes words.now))
        ≡ Ok (request_of request)) }
    ensures fault { IfErr result (λ fault.
        asked_by audit_request (single_of for_audit (map string_bytes words.now)) ≡ Err fault) }
{
    let one = read_name(words, Allowed::for_audit())?;
    Ok(Request::Audit {
        rules: one.name,
        categories: one.options.categories,
        max_words: one.options.max_words,
    })
}

/// The words after `compare`.
fn read_compare(words: &[String]) -> Result<Request<'_>, UsageFault>
    ensures request { IfOk result (λ request.
        asked_by compare_request (named_of for_compare (map string_bytes words.now))
        ≡ Ok (request_of request)) }
    ensures fault { IfErr result (λ fault.
        asked_by compare_request (named_of for_compare (map string_bytes words.now)) ≡ Err fault) }
{
    let names = read_names(words, Allowed::for_compare())?;
    Ok(Request::Compare {
        rules: names.first,
        second: names.second,
        max_words: names.options.max_words,
    })
}

/// The words after `session`.
fn read_session(words: &[String]) -> Result<Request<'_>, UsageFault>
    ensures request { IfOk result (λ request.
        asked_by session_request (single_of for_session (map string_bytes words.now))
        ≡ Ok (request_of request)) }
    ensures fault { IfErr result (λ fault.
        asked_by session_request (single_of for_session (map string_bytes words.now)) ≡ Err fault) }
{
    let one = read_name(words, Allowed::for_session())?;
    Ok(Request::Session { script: one.name })
}

/// The name of a file, and the options after it, of which the command allows these.
fn read_name(words: &[String], allowed: Allowed) -> Result<OneName<'_>, UsageFault>
    ensures name { IfOk result
        (λ one. single_of allowed (map string_bytes words.now) ≡ Ok (single_in one)) }
    ensures fault { IfErr result
        (λ fault. single_of allowed (map string_bytes words.now) ≡ Err fault) }
{
    match words {
        [] => Err(fault_at(2, UsageKind::MissingName)),
        [name, words @ ..] => {
            let options = read_options(words, allowed, AFTER_ONE_NAME)?;
            Ok(OneName {
                name: name.as_str(),
                options,
            })
        }
    }
}

/// The names of two files, and the options after them, of which the command allows these.
fn read_names(words: &[String], allowed: Allowed) -> Result<TwoNames<'_>, UsageFault>
    ensures names { IfOk result
        (λ names. named_of allowed (map string_bytes words.now) ≡ Ok (named_in names)) }
    ensures fault { IfErr result
        (λ fault. named_of allowed (map string_bytes words.now) ≡ Err fault) }
{
    match words {
        [] => Err(fault_at(2, UsageKind::MissingName)),
        [_] => Err(fault_at(3, UsageKind::MissingName)),
        [first, second, words @ ..] => {
            let options = read_options(words, allowed, AFTER_TWO_NAMES)?;
            Ok(TwoNames {
                first: first.as_str(),
                second: second.as_str(),
                options,
            })
        }
    }
}

/// The options of the words after the names of files, of which the first has the number. The
/// command allows these.
fn read_options(words: &[String], allowed: Allowed, first: u32) -> Result<Options, UsageFault>
    requires { first ≤ 4 }
    ensures options { IfOk result
        (λ options. options_from allowed first none_given (map string_bytes words.now)
        ≡ Ok (options_of options)) }
    ensures fault { IfErr result
        (λ fault. options_from allowed first none_given (map string_bytes words.now)
        ≡ Err fault) }
{
    let mut given = Given::new();
    let mut number = first;
    for word in words {
        match given.add(allowed, word.as_bytes()) {
            Ok(()) => number += 1,
            Err(kind) => return Err(fault_at(number, kind)),
        }
    }
    Ok(given.settled())
}

fn fault_at(word: u32, kind: UsageKind) -> UsageFault
    ensures { result ≡ record { word = word; kind = kind } }
{
    UsageFault { word, kind }
}
