//! The words of a command line: a form, the names of a file and of a chain or list, and options.

ghost use Rattle.std.specs.Prelude.{◌≡◌, ◌+◌, ◌≤◌, Ok, Err, None, IfErr, IfOk, map, string_bytes};
ghost use Rattle.list_tool.specs.Words.{answers_named, command, form_named, given_len, none_given};
ghost use Rattle.list_tool.specs.Words.{options_from, settled, with_answers, with_assumed, with_form};
ghost use Rattle.list_tool.specs.Words.{with_option, with_other};
ghost use Rattle.list_tool.specs.Requests.{given_of, options_of, request_of};

use command_words::{UsageFault, UsageKind};
use iptables_reader::Answers;
use list_packets::is_assumption;

/// The program whose list it is.
#[derive(Clone, Copy)]
pub enum Form {
    /// What iptables-save prints.
    Iptables,
    /// What ip6tables-save prints.
    Ip6tables,
    /// A configuration of Cisco IOS.
    Cisco,
    /// What `nft -j list ruleset` prints, for IPv4 packets.
    Nft,
    /// The same for IPv6 packets.
    Nft6,
}

/// What is asked for: the rule file of a chain of a list.
#[derive(Clone, Copy)]
pub(crate) struct Request<'a> {
    pub(crate) form: Form,
    pub(crate) file: &'a str,
    pub(crate) chain: &'a str,
    pub(crate) options: Options<'a>,
}

/// What is asked for besides the names.
#[derive(Clone, Copy)]
pub(crate) struct Options<'a> {
    /// What the userdata of a rule is.
    pub(crate) answers: Answers,
    /// What is assumed of packets beside their bytes.
    pub(crate) assumed: &'a [u8],
}

/// The options that were given so far.
#[derive(Clone, Copy)]
pub(crate) struct Given<'a> {
    answers: Option<Answers>,
    assumed: Option<&'a [u8]>,
}

/// The number of the first word that is an option.
const AFTER_NAMES: u32 = 4;

/// What the words ask for, or their first fault. It takes no memory.
pub(crate) fn read_words(words: &[String]) -> Result<Request<'_>, UsageFault>
    ensures request { IfOk result
        (λ request. command (map string_bytes words.now) ≡ Ok (request_of request)) }
    ensures fault { IfErr result (λ fault. command (map string_bytes words.now) ≡ Err fault) }
{
    match words {
        [] => Err(fault_at(1, UsageKind::MissingCommand)),
        [verb, words @ ..] => match form_named(verb.as_str()) {
            Some(form) => read_names(form, words),
            None => Err(fault_at(1, UsageKind::UnknownCommand)),
        },
    }
}

/// The form that a word names.
fn form_named(word: &str) -> Option<Form>
    ensures { result ≡ form_named word.now }
{
    match word {
        "iptables" => Some(Form::Iptables),
        "ip6tables" => Some(Form::Ip6tables),
        "cisco" => Some(Form::Cisco),
        "nft" => Some(Form::Nft),
        "nft6" => Some(Form::Nft6),
        _ => None,
    }
}

/// The words after a form: the names of a file and of a chain, and options.
fn read_names(form: Form, words: &[String]) -> Result<Request<'_>, UsageFault>
    ensures request { IfOk result
        (λ request. with_form form (map string_bytes words.now) ≡ Ok (request_of request)) }
    ensures fault { IfErr result
        (λ fault. with_form form (map string_bytes words.now) ≡ Err fault) }
{
    match words {
        [] => Err(fault_at(2, UsageKind::MissingName)),
        [_] => Err(fault_at(3, UsageKind::MissingName)),
        [file, chain, words @ ..] => {
            let options = read_options(words)?;
            Ok(Request {
                form,
                file: file.as_str(),
                chain: chain.as_str(),
                options,
            })
        }
    }
}

/// The options of the words after the names.
fn read_options(words: &[String]) -> Result<Options<'_>, UsageFault>
    ensures options { IfOk result (λ options.
        options_from 4 none_given (map string_bytes words.now) ≡ Ok (options_of options)) }
    ensures fault { IfErr result
        (λ fault. options_from 4 none_given (map string_bytes words.now) ≡ Err fault) }
{
    let mut given = Given {
        answers: None,
        assumed: None,
    };
    let mut number = AFTER_NAMES;
    for word in words {
        match with_option(given, word.as_bytes()) {
            Ok(more) => {
                given = more;
                number += 1;
            }
            Err(kind) => return Err(fault_at(number, kind)),
        }
    }
    Ok(settled(given))
}

/// The options with one word more.
fn with_option<'a>(given: Given<'a>, word: &'a [u8]) -> Result<Given<'a>, UsageKind>
    ensures said { IfOk result
        (λ more. with_option (given_of given.entry) word.now ≡ Ok (given_of more)) }
    ensures fault { IfErr result (λ kind. with_option (given_of given.entry) word.now ≡ Err kind) }
    ensures more { IfOk result
        (λ more. given_len (given_of more) ≡ given_len (given_of given.entry) + 1) }
{
    match word.strip_prefix(b"data=") {
        Some(value) => with_answers(given, value),
        None => with_other(given, word),
    }
}

/// The options with a word more that isn't `data=`.
fn with_other<'a>(given: Given<'a>, word: &'a [u8]) -> Result<Given<'a>, UsageKind>
    ensures said { IfOk result
        (λ more. with_other (given_of given.entry) word.now ≡ Ok (given_of more)) }
    ensures fault { IfErr result (λ kind. with_other (given_of given.entry) word.now ≡ Err kind) }
    ensures more { IfOk result
        (λ more. given_len (given_of more) ≡ given_len (given_of given.entry) + 1) }
{
    match word.strip_prefix(b"assume=") {
        Some(value) => with_assumed(given, value),
        None => Err(UsageKind::UnknownOption),
    }
}

/// The options with a value of `data=` more.
fn with_answers<'a>(given: Given<'a>, value: &[u8]) -> Result<Given<'a>, UsageKind>
    ensures said { IfOk result
        (λ more. with_answers (given_of given.entry) value.now ≡ Ok (given_of more)) }
    ensures fault { IfErr result
        (λ kind. with_answers (given_of given.entry) value.now ≡ Err kind) }
    ensures more { IfOk result
        (λ more. given_len (given_of more) ≡ given_len (given_of given.entry) + 1) }
{
    match (given.answers, answers_named(value)) {
        (Some(_), _) => Err(UsageKind::RepeatedOption),
        (None, None) => Err(UsageKind::BadValue),
        (None, Some(answers)) => Ok(Given {
            answers: Some(answers),
            assumed: given.assumed,
        }),
    }
}

/// The options with a value of `assume=` more.
fn with_assumed<'a>(given: Given<'a>, value: &'a [u8]) -> Result<Given<'a>, UsageKind>
    ensures said { IfOk result
        (λ more. with_assumed (given_of given.entry) value.now ≡ Ok (given_of more)) }
    ensures fault { IfErr result
        (λ kind. with_assumed (given_of given.entry) value.now ≡ Err kind) }
    ensures more { IfOk result
        (λ more. given_len (given_of more) ≡ given_len (given_of given.entry) + 1) }
{
    match given.assumed {
        Some(_) => Err(UsageKind::RepeatedOption),
        None if !is_assumption(value) => Err(UsageKind::BadValue),
        None => Ok(Given {
            answers: given.answers,
            assumed: Some(value),
        }),
    }
}

/// What the userdata of rules is, by its name.
fn answers_named(word: &[u8]) -> Option<Answers>
    ensures { result ≡ answers_named word.now }
{
    if word == b"line".as_slice() {
        Some(Answers::Line)
    } else if word == b"verdict".as_slice() {
        Some(Answers::Verdict)
    } else {
        None
    }
}

/// The options, of which those that weren't given have their usual values.
fn settled(given: Given<'_>) -> Options<'_>
    ensures { options_of result ≡ settled (given_of given.entry) }
{
    Options {
        answers: match given.answers {
            Some(answers) => answers,
            None => Answers::Line,
        },
        assumed: match given.assumed {
            Some(text) => text,
            None => b"",
        },
    }
}

fn fault_at(word: u32, kind: UsageKind) -> UsageFault
    ensures { result ≡ record { word = word; kind = kind } }
{
    UsageFault { word, kind }
}
