//! Laws of rules, winners and groups of rules, over their definitions alone. They run no code.

ghost use Rattle.rule_set.specs.Laws.{FaultlessRulesAreLawful, TheBestWinsOverAllOthers};
ghost use Rattle.rule_set.specs.Laws.{TheWinnerIsAmongAllPlaces, TestsMayBeMadeInTurn};
ghost use Rattle.rule_set.specs.Laws.{RanksOrderRules, TheBestHasTheGreatestRank};
ghost use Rattle.rule_set.specs.GroupLaws.{TheGroupsWinnersDecide};

/// A rule has no fault exactly where its tag is lawful and there is a lawful value for each field.
#[tactic(auto, using(crate::proofs::Lawful::faultless_rules))]
pub fn faultless_rules_are_lawful()
    ensures { FaultlessRulesAreLawful }
{}

/// The best of some rules has a greater priority than each other that passes, or the same priority
/// and an earlier place.
#[tactic(auto, using(crate::proofs::Among::best_wins))]
pub fn the_best_wins_over_all_others()
    ensures { TheBestWinsOverAllOthers }
{}

/// The winner of a rule set is the winner among all of its places.
#[tactic(auto, using(crate::proofs::Among::winner_is_among_all))]
pub fn the_winner_is_among_all_places()
    ensures { TheWinnerIsAmongAllPlaces }
{}

/// Which of two tests is made first doesn't matter for the best of the rules that pass both.
#[tactic(auto, using(crate::proofs::Among::tests_in_turn))]
pub fn tests_may_be_made_in_turn()
    ensures { TestsMayBeMadeInTurn }
{}

/// Ranks are from 1 to the number of rules, all different, and in the order in which rules come
/// below one another.
#[tactic(auto, using(crate::proofs::RankOrder::ranks_order))]
pub fn ranks_order_rules()
    ensures { RanksOrderRules }
{}

/// The best of some rules is the one of greatest rank among those that pass.
pub fn the_best_has_the_greatest_rank()
    ensures { TheBestHasTheGreatestRank }
{}

/// The winner of all rules is the winner of greatest rank among those of the groups that the rules
/// are parted into, and there is none exactly where no group has one.
#[tactic(auto, using(crate::proofs::Deciding::groups_decide))]
pub fn the_groups_winners_decide()
    ensures { TheGroupsWinnersDecide }
{}
