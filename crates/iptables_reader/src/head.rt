//! The beginning of a rule's line: counters, `-A`, and the name of its chain.

ghost use Rattle.std.specs.Prelude.{◌≡◌, ◌<◌, length, IfOk, MatchResult, Ok};
ghost use Rattle.text_scan.specs.Parts.{words_of};
ghost use Rattle.iptables_reader.specs.Reading.{after_counters, head_of};
ghost use Rattle.iptables_reader.specs.Stops.{Refuses};

use crate::fault::{LineKind, Stop};
use crate::named_chains::NamedChains;
use crate::values::is_counters;
use crate::words::is;
use text_scan::next_word;

/// The place of a rule's chain, and the text after its name.
pub(crate) fn head<'a>(chains: &NamedChains, line: &'a [u8]) -> Result<(usize, &'a [u8]), Stop>
    ensures head { MatchResult result
        (λ read. head_of chains.now (words_of line.now)
        ≡ Ok (record { chain = read.0; words = words_of read.1.now }))
        (Refuses (head_of chains.now (words_of line.now))) }
    ensures within { IfOk result (λ read. read.0 < length chains.now) }
{
    let Some((word, rest)) = next_word(after_counters(line)) else {
        return Err(Stop::Faulty(LineKind::BadStart));
    };
    if !is(word, b"-A") {
        return Err(Stop::Faulty(LineKind::BadStart));
    }
    let Some((name, rest)) = next_word(rest) else {
        return Err(Stop::Faulty(LineKind::MissingWord));
    };
    match chains.place_of(name, false) {
        Some(place) => Ok((place, rest)),
        None => Err(Stop::Faulty(LineKind::NoChain)),
    }
}

/// The text after the counters that a rule may begin with.
fn after_counters(line: &[u8]) -> &[u8]
    ensures { words_of result.now ≡ after_counters (words_of line.now) }
{
    match next_word(line) {
        Some((word, rest)) => { if is_counters(word) { rest } else { line } }
        None => line,
    }
}
