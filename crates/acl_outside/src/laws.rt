//! Laws of desks that tell their files, over the definitions alone. They run no code.

ghost use Rattle.acl_outside.specs.Laws.{DesksBeginTogether, OpeningsHoldTogether};
ghost use Rattle.acl_outside.specs.Laws.{ReadsHoldTogether, CreationsHoldTogether};
ghost use Rattle.acl_outside.specs.Laws.{WritesHoldTogether, FinishesHoldTogether};
ghost use Rattle.acl_outside.specs.Laws.{ReadingsHoldTogether};

/// What was heard of the opened file, and what is left to read of it, are together the file, and
/// the name that is told is that of the file that was opened last. A desk over memory begins so,
/// and each call of any desk that tells its files keeps it so, also where the call fails.
pub fn heard_and_left_are_the_file()
    ensures begins { DesksBeginTogether }
    ensures opening { OpeningsHoldTogether }
    ensures reading { ReadsHoldTogether }
    ensures creation { CreationsHoldTogether }
    ensures writing { WritesHoldTogether }
    ensures finish { FinishesHoldTogether }
    ensures up_to { ReadingsHoldTogether }
{}
