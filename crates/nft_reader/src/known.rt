//! What is asked of a ruleset, and what is known where a rule is read.

ghost use Rattle.std.specs.Prelude.{◌≡◌, option_map};
ghost use Rattle.json.specs.Value.{value_view as view};
ghost use Rattle.nft_reader.specs.Known as told;
ghost use Rattle.nft_reader.specs.Shapes.{text_seen};

use crate::chain::{NftChain, Owner, place_of};
use crate::fault::{RuleKind, Stop};
use crate::hooks::Base;
use crate::sets::{NamedSet, at_name};
use crate::shapes::{len_of, text_in};
use crate::values::elements_of;
use field_defs::Family;
use json::Value;
use list_chains::Target;
use list_packets::Caught;
use std::alloc::Global;

/// What the answer of a rule is.
#[derive(Clone, Copy)]
pub enum Answers {
    /// Its handle, and of a policy that of its chain.
    Handle,
    /// 1 where it accepts, 2 where it drops, and 3 where it rejects.
    Verdict,
}

/// What is asked of a ruleset.
#[derive(Clone, Copy)]
pub struct Asked {
    /// The family of its packets.
    pub family: Family,
    /// What the answers of its rules are.
    pub answers: Answers,
}

/// What becomes of packets: the answer of their rule, and where they go.
#[derive(Clone, Copy)]
pub(crate) struct Outcome {
    pub(crate) answer: u32,
    pub(crate) target: Target,
}

/// What becomes of some packets of a rule.
#[derive(Drop)]
pub(crate) struct Branch {
    pub(crate) caught: Caught,
    pub(crate) does: Outcome,
}

/// What is known where objects are read: what is asked and assumed, the base chain that packets
/// come to, if there is one, and the sets of the ruleset.
#[derive(Drop)]
pub(crate) struct Setting<'k, 's, 'a> {
    pub(crate) alloc: Global,
    pub(crate) asked: Asked,
    pub(crate) assumed: &'k [u8],
    pub(crate) begin: Option<Base>,
    pub(crate) sets: &'k [NamedSet<'s, 'a>],
}

/// What is known where a rule is read: the setting, the chains before the rule, its own chain and
/// its handle, and whether all packets that it catches so far are of protocols whose ports keys
/// have.
#[derive(Drop)]
pub(crate) struct Known<'k, 's, 'a> {
    pub(crate) alloc: Global,
    pub(crate) asked: Asked,
    pub(crate) assumed: &'k [u8],
    pub(crate) begin: Option<Base>,
    pub(crate) sets: &'k [NamedSet<'s, 'a>],
    pub(crate) chains: &'k [NftChain],
    pub(crate) owner: &'k Owner<'k>,
    pub(crate) handle: u32,
    pub(crate) ported: bool,
}

/// The number of a verdict that a chain may have as its policy.
pub(crate) fn policy_named(name: &str) -> Option<u32>
    ensures { result ≡ told.policy_named name.now }
{
    match name {
        "accept" => Some(1),
        "drop" => Some(2),
        _ => None,
    }
}

/// The number of a verdict.
fn verdict_named(name: &str) -> Option<u32>
    ensures { result ≡ told.verdict_named name.now }
{
    match name {
        "return" => Some(0),
        _ => policy_named(name),
    }
}

/// The answer of a verdict of a rule or a policy with a handle.
pub(crate) fn answer_of(answers: Answers, handle: u32, verdict: u32) -> u32
    ensures { result ≡ told.answer_of answers handle verdict }
{
    match answers {
        Answers::Handle => handle,
        Answers::Verdict => verdict,
    }
}

/// The chain that a jump names.
fn target_of<'a>(said: &Value<'a>) -> Option<&'a str>
    ensures { option_map text_seen result ≡ told.target_of (view said.now) }
{
    if len_of(said) != 1 {
        return None;
    }
    text_in("target", said)
}

impl<'k, 's, 'a> Known<'k, 's, 'a> {
    ghost use Rattle.std.specs.Prelude.{◌≡◌};
    ghost use Rattle.json.specs.Value.{value_view as view};
    ghost use Rattle.nft_reader.specs.Known as told;
    ghost use Rattle.nft_reader.specs.Known.{known_of};
    ghost use Rattle.nft_reader.specs.Shapes.{elements_seen};
    ghost use Rattle.nft_reader.specs.Stops.{Gives};

    /// What becomes of packets by a verdict.
    pub(crate) fn decision(&self, verdict: u32) -> Outcome
        ensures { result ≡ told.decision (known_of self.now) verdict }
    {
        let target = match verdict {
            0 => Target::Return,
            _ => Target::Decide,
        };
        Outcome {
            answer: answer_of(self.asked.answers, self.handle, verdict),
            target,
        }
    }

    /// The place of that chain, or none.
    pub(crate) fn led_to(&self, said: &Value<'_>) -> Option<usize>
        ensures { result ≡ told.led_to (known_of self.now) (view said.now) }
    {
        place_of(self.chains, self.owner, target_of(said)?, true)
    }

    /// The place of the chain of the same table that a jump names.
    fn led_place(&self, said: &Value<'_>) -> Result<usize, Stop<RuleKind>>
        ensures { Gives result (told.led_place (known_of self.now) (view said.now)) }
    {
        let name = target_of(said).ok_or(RuleKind::BadStatement)?;
        Ok(place_of(self.chains, self.owner, name, true).ok_or(RuleKind::NoTarget)?)
    }

    /// What becomes of packets by a statement, unless they go on to the next rule.
    pub(crate) fn outcome_of(
        &self,
        name: &str,
        said: &Value<'_>,
    ) -> Result<Option<Outcome>, Stop<RuleKind>>
        ensures { Gives result (told.outcome_of (known_of self.now) name.now (view said.now)) }
    {
        let target = match name {
            "jump" => Target::Jump(self.led_place(said)?),
            "goto" => Target::Go(self.led_place(said)?),
            "continue" => return Ok(None),
            _ => {
                let verdict = verdict_named(name).ok_or(RuleKind::UnknownStatement)?;
                return Ok(Some(self.decision(verdict)));
            }
        };
        Ok(Some(Outcome {
            answer: self.handle,
            target,
        }))
    }

    /// The elements of the set of a name in the table of the rule, which have verdicts or not.
    fn named_elements(&self, verdicts: bool, name: &[u8]) -> Result<&'s [Value<'a>], RuleKind>
        ensures { elements_seen result ≡ told.named_elements (known_of self.now) verdicts name.now }
    {
        for set in self.sets {
            if set.is_wanted(verdicts, self.owner, name) {
                return set.elements;
            }
        }
        Err(RuleKind::NoSet)
    }

    /// The elements that a value has, or those of the set that it names.
    pub(crate) fn elements<'v>(
        &self,
        verdicts: bool,
        value: &'v Value<'a>,
    ) -> Result<&'v [Value<'a>], RuleKind>
    where
        's: 'v,
        ensures { elements_seen result
            ≡ told.known_elements (known_of self.now) verdicts (view value.now) }
    {
        match value.as_str().and_then(|text| at_name(text.as_bytes())) {
            Some(name) => self.named_elements(verdicts, name),
            None => elements_of(value).ok_or(RuleKind::CantSay),
        }
    }
}
