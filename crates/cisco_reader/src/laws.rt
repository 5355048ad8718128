//! A law over the definitions of an entry's words and of a member's. Its function does nothing when
//! it is run, and takes no memory.

ghost use Rattle.cisco_reader.specs.Joined.{ReadMembersAreParts, ReadServicesAreParts, ReadWordsAreParts};

/// The words of an entry that is read are whole parts, one after the other, and each stands for
/// what the entry says. So are the words of a member that is read, of networks and of services. So
/// nothing in a line of the list or of a group that it needs is passed over.
pub fn read_words_are_parts()
    ensures entries { ReadWordsAreParts }
    ensures members { ReadMembersAreParts }
    ensures services { ReadServicesAreParts }
{}
