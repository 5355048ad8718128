//! Laws of states, rows and runs, over their definitions alone. They run no code.

ghost use Rattle.group_states.specs.Laws.{WholeKeysAreLiveWhereTheyMatch, StatesGoByteByByte};
ghost use Rattle.group_states.specs.Laws.{NextStatesAreReached, IdleBytesLeadToOneState};
ghost use Rattle.group_states.specs.Laws.{StatesOfEachPlaceLeadOn};
ghost use Rattle.group_states.specs.Laws.{RunsLeadToTheRowOfTheMatchingRules};

/// After a whole key a rule's rest is live exactly where the rule matches the key.
pub fn whole_keys_are_live_where_they_match()
    ensures { WholeKeysAreLiveWhereTheyMatch }
{}

/// The state after one more byte is the step of the state.
pub fn states_go_byte_by_byte()
    ensures { StatesGoByteByByte }
{}

/// The states of the next kept place are what those of a kept place reach, in order and without
/// repeats.
pub fn next_states_are_reached()
    ensures { NextStatesAreReached }
{}

/// The states of each next place are what those of the place before it lead to by all bytes, in
/// order and without repeats, also where the places aren't kept.
pub fn states_of_each_place_lead_on()
    ensures { StatesOfEachPlaceLeadOn }
{}

/// Inside an idle input group every byte leads a state to one next state.
pub fn idle_bytes_lead_to_one_state()
    ensures { IdleBytesLeadToOneState }
{}

/// For every key the runs lead to the row of the group's rules that match it, or to nothing where
/// none does.
pub fn runs_lead_to_the_row_of_the_matching_rules()
    ensures { RunsLeadToTheRowOfTheMatchingRules }
{}
