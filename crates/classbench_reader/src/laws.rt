//! Laws over the definitions of lines and files. Their functions do nothing when they are run, and
//! take no memory.

ghost use Rattle.std.specs.Prelude.{◌≡◌, [], ◌∷◌, ◌++◌, Ok};
ghost use Rattle.text_scan.specs.Parts.{line_feed};
ghost use Rattle.classbench_reader.specs.Accepted.{AcceptedRulesAreLawful};
ghost use Rattle.classbench_reader.specs.Joined.{JoinedPartsAreRead, ReadLinesAreJoinedParts};
ghost use Rattle.classbench_reader.specs.Lawful.{IsLawfulLine};
ghost use Rattle.classbench_reader.specs.Line.{family_of_line, rule_line_of, rule_of};
ghost use Rattle.classbench_reader.specs.Print.{line_text, rule_alone};
ghost use Rattle.classbench_reader.specs.RuleFile.{rule_file_of};

use crate::line::RuleLine;

/// The text of a lawful line, read as the rule of any ordinal, says the line.
pub fn printed_lines_read_back(line: RuleLine, ordinal: u32)
    requires { IsLawfulLine line }
    ensures { rule_line_of ordinal (line_text line) ≡ Ok line }
{}

/// The text of a lawful line, ended by LF, is a rule file of that one rule.
pub fn printed_lines_are_files(line: RuleLine)
    requires { IsLawfulLine line }
    ensures { rule_file_of (line_text line ++ line_feed ∷ [])
        ≡ Ok (rule_alone (family_of_line line) (rule_of line)) }
{}

/// A line is its parts, joined: blanks, `@`, a source, a gap, and so on to the last attribute,
/// where each gap is blanks alone and each number is in any spelling. Such a line is read as what
/// its parts say.
pub fn joined_parts_are_read()
    ensures { JoinedPartsAreRead }
{}

/// The other way round: a line that is read is its parts, joined, which say what was read. So
/// nothing else is read, and nothing in a line is passed over.
pub fn read_lines_are_joined_parts()
    ensures { ReadLinesAreJoinedParts }
{}

/// The rules of an accepted file are lawful: those of each family are a rule set of its layout, and
/// each userdata is a number of 32 bits.
pub fn accepted_rules_are_lawful()
    ensures { AcceptedRulesAreLawful }
{}
