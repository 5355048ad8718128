//! Laws of workloads, over their definitions alone. They run no code.

ghost use Rattle.workload_gen.specs.Laws.{AimedPacketsMatch, KeysComeOneByOne};

/// To draw one more key is to go on where the keys before it ended.
pub fn keys_come_one_by_one()
    ensures { KeysComeOneByOne }
{}

/// A packet that is aimed at a rule matches it.
#[tactic(auto, using(crate::proofs::Aimed::aimed_packets_match))]
pub fn aimed_packets_match()
    ensures { AimedPacketsMatch }
{}
