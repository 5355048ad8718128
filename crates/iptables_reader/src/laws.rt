//! Laws over the definitions of a rule's words, and of lines without a part. Their functions do
//! nothing when they are run, and take no memory.

ghost use Rattle.iptables_reader.specs.Joined.{ReadWordsAreOptions};
ghost use Rattle.iptables_reader.specs.NoPart.{UnsaidLinesHaveNoPart};

/// The words of a rule that is read are whole options, one after the other: a name and its value,
/// perhaps after `!`, or a name and as many words as its option has. So nothing in a line is passed
/// over.
#[tactic(auto, using(crate::proofs::JoinedWords::read_words_are_options))]
pub fn read_words_are_options()
    ensures { ReadWordsAreOptions }
{}

/// Where packets come to no line that no rule file says, whatever stands in chains with such lines
/// changes no answer.
#[tactic(auto, using(crate::proofs::Reaching::unsaid_lines_have_no_part))]
pub fn unsaid_lines_have_no_part()
    ensures { UnsaidLinesHaveNoPart }
{}
