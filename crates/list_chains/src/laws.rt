//! Laws over the definitions of chains, lists and rules. Their functions do nothing when they are
//! run, and take no memory.

ghost use Rattle.std.specs.Prelude.{List};
ghost use Rattle.list_chains.specs.DepthLaws.{DepthsAnswerAlike, ManyBoxesAreOneRule};
ghost use Rattle.list_chains.specs.DepthLaws.{OthersAreTheOthers};
ghost use Rattle.list_chains.specs.FlatLaws.{TheFlatListAnswers};
ghost use Rattle.list_chains.specs.Laws.{TheRulesAnswerAsTheChains};
ghost use Rattle.list_chains.specs.StepLaws.{StepsWriteTheSame};
ghost use Rattle.list_chains.specs.declared.span.Span.{Span};

/// The first entry of the flat list that a packet is in answers as the chains do.
#[tactic(auto, using(crate::proofs::Flattened::flat_list_answers))]
pub fn the_flat_list_answers()
    ensures { TheFlatListAnswers (List Span) }
{}

/// What a task leaves to do makes the same list as the task.
#[tactic(auto, using(crate::proofs::SameSteps::steps_write_the_same))]
pub fn steps_write_the_same()
    ensures { StepsWriteTheSame }
{}

/// Of the rules that are made of a chain, the winner of each key has the answer of the chains as
/// its userdata.
#[tactic(auto, using(crate::proofs::MadeRules::rules_answer_as_the_chains))]
pub fn the_rules_answer_as_the_chains()
    ensures { TheRulesAnswerAsTheChains }
{}

/// Where jumps come to an end within so many chains, one more changes no answer.
#[tactic(auto, using(crate::proofs::Depths::depths_answer_alike))]
pub fn depths_answer_alike()
    ensures { DepthsAnswerAlike (List Span) }
{}

/// Rules for some boxes answer as one rule for the packets that are in any of them.
#[tactic(auto, using(crate::proofs::Depths::many_boxes_are_one_rule))]
pub fn many_boxes_are_one_rule()
    ensures { ManyBoxesAreOneRule (List Span) }
{}

/// The spans beside a span have the numbers that it doesn't have, and no others.
#[tactic(auto, using(crate::proofs::Depths::others_are_the_others))]
pub fn others_are_the_others()
    ensures { OthersAreTheOthers }
{}
