//! Laws over the definitions of chains with conditions, and of the rules that are made of them.
//! Their functions do nothing when they are run, and take no memory.

ghost use Rattle.std.specs.Prelude.{List};
ghost use Rattle.list_chains.specs.declared.span.Span.{Span};
ghost use Rattle.chain_conditions.specs.Anew.{AlwaysBoundsOracles};
ghost use Rattle.chain_conditions.specs.Categories.{CategoryThreeIsSure, EachKindIsBounded};
ghost use Rattle.chain_conditions.specs.Categories.{OneKindIsCertain, OtherKindsNeverCome};
ghost use Rattle.chain_conditions.specs.Categories.{SureChainsAnswerAlike};
ghost use Rattle.chain_conditions.specs.Laws.{ClassesAreBounds, ClearListsAreExact};
ghost use Rattle.chain_conditions.specs.Laws.{EachAnswerIsReached, OneClassIsCertain};
ghost use Rattle.chain_conditions.specs.Laws.{TheListIsOneForEveryOracle};

/// One flat list serves every oracle.
#[tactic(auto, using(crate::proofs::Conditions::one_list_for_every_oracle))]
pub fn the_list_is_one_for_every_oracle()
    ensures { TheListIsOneForEveryOracle (List Span) }
{}

/// Where an oracle's answer passes a test, so does that of the test's category.
#[tactic(auto, using(crate::proofs::Conditions::classes_are_bounds))]
pub fn classes_are_bounds()
    ensures { ClassesAreBounds (List Span) }
{}

/// Where the category of a test and that of its contrary agree, every oracle does.
#[tactic(auto, using(crate::proofs::Conditions::one_class_is_certain))]
pub fn one_class_is_certain()
    ensures { OneClassIsCertain (List Span) }
{}

/// The answers that are listed are those that oracles give.
#[tactic(auto, using(crate::proofs::Conditions::each_answer_is_reached))]
pub fn each_answer_is_reached()
    ensures { EachAnswerIsReached (List Span) }
{}

/// An answer of any one oracle is among those where each question is asked anew.
#[tactic(auto, using(crate::proofs::Oracles::always_bounds_oracles))]
pub fn always_bounds_oracles()
    ensures { AlwaysBoundsOracles (List Span) }
{}

/// Where no entry asks all that an unsure one before it asks, every category's answer is possible.
#[tactic(auto, using(crate::proofs::Clear::clear_lists_are_exact))]
pub fn clear_lists_are_exact()
    ensures { ClearListsAreExact (List Span) }
{}

/// Where some oracle's answer is of a kind, so is that of the winner of the kind's category.
#[tactic(auto, using(crate::proofs::Categories::each_kind_is_bounded))]
pub fn each_kind_is_bounded()
    ensures { EachKindIsBounded }
{}

/// Where the winner of a kind's category is of another kind, no answer is of that one, even if each
/// question is asked anew.
#[tactic(auto, using(crate::proofs::Categories::other_kinds_never_come))]
pub fn other_kinds_never_come()
    ensures { OtherKindsNeverCome }
{}

/// Where the winners of the three kinds' categories are of one kind, so is every oracle's answer.
#[tactic(auto, using(crate::proofs::Categories::one_kind_is_certain))]
pub fn one_kind_is_certain()
    ensures { OneKindIsCertain }
{}

/// The winner of category 3 is the answer if no condition holds.
#[tactic(auto, using(crate::proofs::Categories::category_three_is_sure))]
pub fn category_three_is_sure()
    ensures { CategoryThreeIsSure }
{}

/// Without conditions each category has the verdict of the chains.
#[tactic(auto, using(crate::proofs::Categories::sure_chains_answer_alike))]
pub fn sure_chains_answer_alike()
    ensures { SureChainsAnswerAlike }
{}
