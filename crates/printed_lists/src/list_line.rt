//! Lines of a list in, their text out.

ghost use Rattle.std.specs.Prelude.{◌≡◌, [], ◌∷◌, ◌++◌, All, OnOk, codes, map};
ghost use Rattle.text_scan.specs.Parts.{line_feed};
ghost use Rattle.classbench_reader.specs.Print.{IsPrintable, rule_text};
ghost use Rattle.printed_lists.specs.Laws.{ReadsBack};
ghost use Rattle.printed_lists.specs.Listed.{FitsLineTag, FitsTag, IsPrintableLine};
ghost use Rattle.printed_lists.specs.Listed.{comment_byte, comment_text, line_view, line_views};
ghost use Rattle.printed_lists.specs.Listed.{list_text, numbered, written_line};

use crate::laws::printed_lists_are_files;
use classbench_reader::print_rule;
use field_defs::Family;
use itoa::Buffer;
use rule_set::StoredRule;
use std::alloc::{AllocError, Global};

/// What stands in a comment for a byte that ends a line.
const END_IN_COMMENT: u8 = b'?';

/// A line of a list.
#[derive(Clone, Copy)]
pub enum ListLine<'a> {
    /// A comment with a text, as the line that a rule was made of.
    Comment(&'a [u8]),
    /// A comment with a text and a number after it, as what a rule was made of is called.
    Numbered(&'a [u8], u32),
    /// A rule.
    Rule(&'a StoredRule),
}

/// Writes the lines of a list after a text, each ended by LF.
///
/// A comment is `# ` and its text, in which LF and CR become `?` and each other byte stays. A
/// number after it is written in decimal. A rule has the line of [`print_rule`]: all are of one
/// family, and a line can say each of them. What is written is a rule file of these rules, if they
/// are at most 262,144 and it has at most 16,777,216 bytes.
///
/// It takes the memory of the text, and of one line more meanwhile. If that isn't there, some of
/// the lines may have been written.
pub fn put_list(
    alloc: Global,
    text: &mut Vec<u8>,
    family: Family,
    lines: &[ListLine],
) -> Result<(), AllocError>
    requires { All (IsPrintableLine family) (line_views lines.now) }
    ensures text { OnOk result
        (text.new.items ≡ text.old.items ++ list_text family (line_views lines.now)) }
    ensures reads_back { OnOk result (ReadsBack family (line_views lines.now)) }
{
    for line in lines {
        put_line(alloc, text, family, line)?;
    }
    printed_lists_are_files();
    Ok(())
}

/// Writes a line after a text.
fn put_line(
    alloc: Global,
    text: &mut Vec<u8>,
    family: Family,
    line: &ListLine,
) -> Result<(), AllocError>
    requires { IsPrintableLine family (line_view line.now) }
    ensures text { OnOk result
        (text.new.items ≡ text.old.items ++ written_line family (line_view line.now)) }
    ensures fits { FitsLineTag (line_view line.now) }
{
    match line {
        ListLine::Comment(comment) => put_comment(text, comment),
        ListLine::Numbered(comment, number) => put_numbered(text, comment, *number),
        ListLine::Rule(rule) => {
            fits_tag(rule);
            put_rule(alloc, text, family, rule)
        }
    }
}

/// Writes a comment after a text.
fn put_comment(text: &mut Vec<u8>, comment: &[u8]) -> Result<(), AllocError>
    ensures { OnOk result (text.new.items ≡ text.old.items ++ comment_text comment.now) }
{
    begin_comment(text)?;
    put_bytes(text, comment)?;
    end_line(text)
}

/// Writes a comment with a number after a text.
fn put_numbered(text: &mut Vec<u8>, comment: &[u8], number: u32) -> Result<(), AllocError>
    ensures { OnOk result
        (text.new.items ≡ text.old.items ++ comment_text (numbered comment.now number)) }
{
    let mut digits = Buffer::new();
    begin_comment(text)?;
    put_bytes(text, comment)?;
    put_bytes(text, digits.format(number).as_bytes())?;
    end_line(text)
}

/// Begins a comment after a text.
fn begin_comment(text: &mut Vec<u8>) -> Result<(), AllocError>
    ensures { OnOk result (text.new.items ≡ text.old.items ++ codes "# ") }
{
    text.extend_from_slice(b"# ")
}

/// Ends a line after a text.
fn end_line(text: &mut Vec<u8>) -> Result<(), AllocError>
    ensures { OnOk result (text.new.items ≡ text.old.items ++ line_feed ∷ []) }
{
    text.extend_from_slice(b"\n")
}

/// Writes the bytes of a comment after a text.
fn put_bytes(text: &mut Vec<u8>, comment: &[u8]) -> Result<(), AllocError>
    ensures { OnOk result (text.new.items ≡ text.old.items ++ map comment_byte comment.now) }
{
    for byte in comment {
        text.push(comment_byte(*byte))?;
    }
    Ok(())
}

/// What stands in a comment for a byte.
fn comment_byte(byte: u8) -> u8
    ensures { result ≡ comment_byte byte }
{
    if byte == b'\n' || byte == b'\r' {
        END_IN_COMMENT
    } else {
        byte
    }
}

/// Reads the tag of a rule: its categories and its userdata are numbers of 32 bits.
fn fits_tag(rule: &StoredRule)
    ensures { FitsTag rule.now }
{
    let _tag = rule.tag();
}

/// Writes a rule after a text.
fn put_rule(
    alloc: Global,
    text: &mut Vec<u8>,
    family: Family,
    rule: &StoredRule,
) -> Result<(), AllocError>
    requires { IsPrintable family rule.now }
    ensures { OnOk result (text.new.items ≡ text.old.items ++ rule_text family rule.now) }
{
    let line = print_rule(alloc, family, rule)?;
    text.extend_from_slice(line.as_slice())
}
