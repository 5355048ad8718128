//! What is asked of a list, and what its rules answer and do.

ghost use Rattle.std.specs.Prelude.{◌≡◌};
ghost use Rattle.iptables_reader.specs.Table as table;

use crate::options::Verdict;
use crate::reading::Act;
use field_defs::Family;
use list_chains::Target;

/// What the answer of a rule is.
#[derive(Clone, Copy)]
pub enum Answers {
    /// The number of its line, from 1.
    Line,
    /// 1 where it accepts, 2 where it drops, and 3 where it rejects.
    Verdict,
}

/// What is asked of a list.
#[derive(Clone, Copy)]
pub struct Asked {
    /// The family of its packets: iptables or ip6tables.
    pub family: Family,
    /// What the answers of its rules are.
    pub answers: Answers,
}

/// What a rule answers for the packets that it decides.
pub(crate) fn act_answer(answers: Answers, number: u32, act: Act) -> u32
    ensures { result ≡ table.act_answer answers number act }
{
    match act {
        Act::Decide(verdict) => answer_of(answers, number, verdict),
        Act::Jump(_) | Act::Go(_) | Act::Pass => number,
    }
}

/// What a rule does with the packets that it catches.
pub(crate) fn act_target(act: Act) -> Target
    ensures { result ≡ table.act_target act }
{
    match act {
        Act::Decide(Verdict::Return) => Target::Return,
        Act::Decide(Verdict::Accept | Verdict::Drop | Verdict::Reject) | Act::Pass => {
            Target::Decide
        }
        Act::Jump(place) => Target::Jump(place),
        Act::Go(place) => Target::Go(place),
    }
}

/// The answer of a verdict on a line.
pub(crate) fn answer_of(answers: Answers, number: u32, verdict: Verdict) -> u32
    ensures { result ≡ table.answer_of answers number verdict }
{
    match answers {
        Answers::Line => number,
        Answers::Verdict => verdict_answer(verdict),
    }
}

/// The number of a verdict.
fn verdict_answer(verdict: Verdict) -> u32
    ensures { result ≡ table.verdict_answer verdict }
{
    match verdict {
        Verdict::Accept => 1,
        Verdict::Drop => 2,
        Verdict::Reject => 3,
        Verdict::Return => 0,
    }
}
