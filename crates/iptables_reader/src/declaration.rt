//! Lines that declare chains, and their policies.

ghost use Rattle.std.specs.Prelude.{◌≡◌, MatchResult, Ok};
ghost use Rattle.text_scan.specs.Parts.{words_of};
ghost use Rattle.iptables_reader.specs.Options.{is_target};
ghost use Rattle.iptables_reader.specs.Stops.{Refuses};
ghost use Rattle.iptables_reader.specs.Table as spec;

use crate::answers::{Asked, answer_of};
use crate::fault::{LineKind, Stop};
use crate::options::{Verdict, verdict_named};
use crate::saved_tables::{SavedTable, is_base};
use crate::tables::{owner_in, targets};
use crate::values::is_counters;
use crate::words::{Words, is};

/// The name of the chain that a text declares, and the word of its policy.
pub(crate) fn declaration(text: &[u8]) -> Result<(&[u8], &[u8]), Stop>
    ensures { MatchResult result
        (λ said. spec.declaration_of (words_of text.now)
        ≡ Ok (record { name = said.0.now; word = said.1.now }))
        (Refuses (spec.declaration_of (words_of text.now))) }
{
    let mut words = Words::of(text);
    let said = (words.next(), words.next(), words.next(), words.next());
    let (Some(name), Some(word), Some(counters), None) = said else {
        return Err(Stop::Faulty(LineKind::BadChain));
    };
    if !is_counters(counters) || is_target(name) {
        return Err(Stop::Faulty(LineKind::BadChain));
    }
    Ok((name, word))
}

/// The answer of the policy of a table's chain, which chains that rules lead to don't have.
pub(crate) fn policy(
    asked: Asked,
    number: u32,
    table: SavedTable,
    name: &[u8],
    word: &[u8],
) -> Result<Option<u32>, Stop>
    ensures { MatchResult result
        (λ policy. spec.policy_of asked number table name.now word.now ≡ Ok policy)
        (Refuses (spec.policy_of asked number table name.now word.now)) }
{
    if is_base(table, name) {
        let verdict = policy_named(word).ok_or(Stop::Faulty(LineKind::BadPolicy))?;
        return Ok(Some(answer_of(asked.answers, number, verdict)));
    }
    if !is(word, b"-") {
        return Err(Stop::Faulty(LineKind::BadPolicy));
    }
    Ok(None)
}

/// Whether a word names a target, as no chain is named.
fn is_target(word: &[u8]) -> bool
    ensures { result ≡ is_target word.now }
{
    verdict_named(word).is_some() || owner_in(targets(), word).is_some()
}

/// The verdict of a policy.
fn policy_named(word: &[u8]) -> Option<Verdict>
    ensures { result ≡ spec.policy_named word.now }
{
    if is(word, b"ACCEPT") {
        Some(Verdict::Accept)
    } else if is(word, b"DROP") {
        Some(Verdict::Drop)
    } else {
        None
    }
}
