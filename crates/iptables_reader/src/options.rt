//! The words that name options, matches and verdicts.

ghost use Rattle.std.specs.Prelude.{◌≡◌};
ghost use Rattle.iptables_reader.specs.Options as options;

use list_packets::{End, meaning_of};

/// An option that says something of packets, or what is done with them.
#[derive(Clone, Copy)]
pub(crate) enum RuleOption {
    /// `-s` or `-d`
    Network(End),
    /// `--src-range` or `--dst-range`
    Range(End),
    /// `--src-type` or `--dst-type`
    Type(End),
    /// `--sport` or `--dport`
    Ports(End),
    /// `--sports` or `--dports`, and `--ports` for any of the two
    List(Option<End>),
    /// `-i` or `-o`: the interface by which packets come, or leave
    Interface(End),
    /// `-p`
    Protocol,
    /// `--ctstate` or `--state`, and whether it knows states whose addresses are changed
    States(bool),
    /// `--icmp-type`
    Message,
    /// `-m`
    Match,
    /// `-j`
    Jump,
    /// `-g`
    Go,
    /// `--reject-with`
    Answer,
}

/// An option by its name: what its value says, or None where it decides nothing; the bit of what
/// comes once, or 0; and whether `!` may stand before it.
pub(crate) type Row = (Option<RuleOption>, u32, bool);

/// The bits of the options of any rule. A match has two others, for each time that it is named.
pub(crate) const ANY_OPTIONS: u32 = 511;

/// The options of any rule.
const ANY_ROWS: [Row; 11] = [
    (Some(RuleOption::Network(End::Source)), 1, true),
    (Some(RuleOption::Network(End::Destination)), 2, true),
    (Some(RuleOption::Protocol), 4, true),
    (Some(RuleOption::Interface(End::Source)), 8, true),
    (Some(RuleOption::Interface(End::Destination)), 16, true),
    (Some(RuleOption::Ports(End::Source)), 32, true),
    (Some(RuleOption::Ports(End::Destination)), 64, true),
    (Some(RuleOption::Match), 0, false),
    (Some(RuleOption::Jump), 128, false),
    (Some(RuleOption::Go), 128, false),
    (Some(RuleOption::Answer), 256, false),
];

/// What `-m` names.
#[derive(Clone, Copy)]
pub(crate) enum Match {
    /// The protocol of a number, whose options on ports may stand without it.
    Protocol(u64),
    /// The protocol of a number, whose option on types of messages comes after it.
    Messages(u64),
    /// `comment`
    Comment,
    /// `multiport`
    Ports,
    /// `iprange`
    Range,
    /// `conntrack`
    Connection,
    /// `state`
    State,
    /// `addrtype`
    Type,
}

/// The matches.
const MATCHES: [Match; 11] = [
    Match::Protocol(6),
    Match::Protocol(17),
    Match::Protocol(132),
    Match::Messages(1),
    Match::Messages(58),
    Match::Comment,
    Match::Ports,
    Match::Range,
    Match::Connection,
    Match::State,
    Match::Type,
];

/// The options of `multiport`.
const PORTS_ROWS: [Row; 3] = [
    (Some(RuleOption::List(Some(End::Source))), 512, true),
    (Some(RuleOption::List(Some(End::Destination))), 512, true),
    (Some(RuleOption::List(None)), 512, true),
];

/// Those of `iprange`.
const RANGE_ROWS: [Row; 2] = [
    (Some(RuleOption::Range(End::Source)), 512, true),
    (Some(RuleOption::Range(End::Destination)), 1024, true),
];

/// Those of `addrtype`.
const TYPE_ROWS: [Row; 2] = [
    (Some(RuleOption::Type(End::Source)), 512, true),
    (Some(RuleOption::Type(End::Destination)), 1024, true),
];

/// What a rule decides, or that it returns.
#[derive(Clone, Copy)]
pub(crate) enum Verdict {
    Accept,
    Drop,
    Reject,
    Return,
}

/// The verdicts.
const VERDICTS: [Verdict; 4] = [
    Verdict::Accept,
    Verdict::Drop,
    Verdict::Reject,
    Verdict::Return,
];

/// The option that a word names in any rule.
pub(crate) fn any_option(word: &[u8]) -> Option<Row>
    ensures { result ≡ options.any_option word.now }
{
    let names = b"-s -d -p -i -o --sport --dport -m -j -g --reject-with";
    meaning_of(names.as_slice(), &ANY_ROWS, word)
}

/// The match that a word names.
pub(crate) fn match_named(word: &[u8]) -> Option<Match>
    ensures { result ≡ options.match_named word.now }
{
    let names = b"tcp udp sctp icmp icmp6 comment multiport iprange conntrack state addrtype";
    meaning_of(names.as_slice(), &MATCHES, word)
}

/// The option of a match that a word names. That of `icmp6` stands in a table, as it has no type
/// for all messages.
pub(crate) fn own_option(kind: Match, word: &[u8]) -> Option<Row>
    ensures { result ≡ options.own_option kind word.now }
{
    match kind {
        Match::Protocol(_) => None,
        Match::Messages(number) => message_option(number, word),
        Match::Comment => only_option(b"--comment".as_slice(), (None, 512, false), word),
        Match::Ports => meaning_of(b"--sports --dports --ports".as_slice(), &PORTS_ROWS, word),
        Match::Range => meaning_of(b"--src-range --dst-range".as_slice(), &RANGE_ROWS, word),
        Match::Connection => only_option(
            b"--ctstate".as_slice(),
            (Some(RuleOption::States(true)), 512, true),
            word,
        ),
        Match::State => only_option(
            b"--state".as_slice(),
            (Some(RuleOption::States(false)), 512, true),
            word,
        ),
        Match::Type => meaning_of(b"--src-type --dst-type".as_slice(), &TYPE_ROWS, word),
    }
}

/// The option of messages, where there is a type for all.
fn message_option(number: u64, word: &[u8]) -> Option<Row>
    ensures { result ≡ options.message_option number word.now }
{
    if number == 1 {
        let row = (Some(RuleOption::Message), 512, true);
        return only_option(b"--icmp-type".as_slice(), row, word);
    }
    None
}

/// An option, if the word is its name.
fn only_option(name: &[u8], row: Row, word: &[u8]) -> Option<Row>
    ensures { result ≡ options.only_option name.now row word.now }
{
    if word == name { Some(row) } else { None }
}

/// The verdict that a target names.
pub(crate) fn verdict_named(word: &[u8]) -> Option<Verdict>
    ensures { result ≡ options.verdict_named word.now }
{
    meaning_of(b"ACCEPT DROP REJECT RETURN".as_slice(), &VERDICTS, word)
}
