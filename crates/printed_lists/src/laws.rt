//! A law over the definition of lists. Its function does nothing when it is run, and takes no
//! memory.

ghost use Rattle.printed_lists.specs.Laws.{PrintedListsAreFiles};

/// The text of a list is a rule file of the list's rules and no others, in their order, whatever
/// comments stand between them, if it is within the limits of rule files.
pub fn printed_lists_are_files()
    ensures { PrintedListsAreFiles }
{}
