//! Laws of the split, over its definitions alone. They run no code.

ghost use Rattle.rule_split.specs.Laws.{GroupsHoldEachRuleOnce, TheTotalIsOfAllWords};
ghost use Rattle.rule_split.specs.Laws.{TheWinnerHasTheGreatestRank};

/// The groups of a set together hold each rule once, and there are at most eight.
pub fn groups_hold_each_rule_once()
    ensures { GroupsHoldEachRuleOnce }
{}

/// A total within the budget is the words of all groups and of one row.
pub fn the_total_is_of_all_words()
    ensures { TheTotalIsOfAllWords }
{}

/// The winner of all rules is the group's winner of greatest rank.
pub fn the_winner_has_the_greatest_rank()
    ensures { TheWinnerHasTheGreatestRank }
{}
