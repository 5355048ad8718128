//! Laws of least keys and of differences, over the definitions alone. They run no code.

ghost use Rattle.acl_audit.specs.Laws.{TheLeastIsTheFirstOfAllKeys, DifferencesTellUnlikeSets};
ghost use Rattle.acl_audit.specs.Laws.{HalvesHaveTheVerdictsOfBoth};

/// The least key that passes a test is the first of all keys that does.
#[tactic(auto, using(crate::proofs::Least::least_is_first))]
pub fn the_least_is_the_first_of_all_keys()
    ensures { TheLeastIsTheFirstOfAllKeys }
{}

/// There is no difference exactly where two sets have equal verdicts for every key in each
/// category, and at a difference the verdicts are unlike.
#[tactic(auto, using(crate::proofs::Differing::differences_tell))]
pub fn differences_tell_unlike_sets()
    ensures { DifferencesTellUnlikeSets }
{}

/// The verdicts of a half are those of the first set in its categories below 8, and of the second
/// in those from 8 on.
#[tactic(auto, using(crate::proofs::Halving::halves_have_verdicts))]
pub fn halves_have_the_verdicts_of_both()
    ensures { HalvesHaveTheVerdictsOfBoth }
{}
