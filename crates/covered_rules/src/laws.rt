//! Laws of rules that are covered and of those that aren't, over their definitions alone. They run
//! no code.

ghost use Rattle.covered_rules.specs.Laws.{CoveredRulesApplyWithTheirCover, UncoveredPlacesRise};
ghost use Rattle.covered_rules.specs.Laws.{TheWinnerIsUncovered, UncoveredRulesDecideAlike};

/// A rule that another one covers applies only where that one does.
#[tactic(auto, using(crate::proofs::Covering::cover_applies))]
pub fn covered_rules_apply_with_their_cover()
    ensures { CoveredRulesApplyWithTheirCover }
{}

/// The places of uncovered rules rise, each has a rule, and there are some if there is a rule.
#[tactic(auto, using(crate::proofs::Staying::places_rise))]
pub fn uncovered_places_rise()
    ensures { UncoveredPlacesRise }
{}

/// The winner of all rules is the winner among those that no rule covers.
pub fn the_winner_is_uncovered()
    ensures { TheWinnerIsUncovered }
{
    rule_set::laws::ranks_order_rules();
    rule_set::laws::the_best_wins_over_all_others();
    rule_set::laws::the_best_has_the_greatest_rank();
    rule_set::laws::the_winner_is_among_all_places();
}

/// The set of the uncovered rules decides as the whole set does: the winner of the one is the rule
/// that is the winner of the other, and the verdict is the same.
pub fn uncovered_rules_decide_alike()
    ensures { UncoveredRulesDecideAlike }
{
    rule_set::laws::the_winner_is_among_all_places();
    the_winner_is_uncovered();
}
