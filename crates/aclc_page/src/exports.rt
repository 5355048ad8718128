//! The calls of commands.

ghost use Rattle.std.specs.Prelude.{◌∷◌, []};
ghost use Rattle.aclc_page.specs.Words.{audit_words, classify_words, compare_words, session_words};
ghost use Rattle.aclc_page.specs.Words.{rules_file, capture_file, second_file, script_file};
ghost use Rattle.aclc_page.specs.Ran.{Answers, room};

use crate::commands::{audit, classify, compare, session};
use crate::printing::hand_over;
use std::alloc::Global;

/// What a command is asked for beside its files. A command that has no such option ignores it.
#[repr(C)]
#[derive(Clone, Copy)]
pub struct Asked {
    /// How many words the table of each family may have.
    pub max_words: u64,
    /// How many categories are shown.
    pub categories: u32,
    /// Whether the sizes of the tables are printed: not if it is 0.
    pub stats: u32,
    /// Whether a dash marks where no rule matches: not if it is 0.
    pub marks: u32,
}

/// How many bytes a command printed, and how many its message has. Where that is more than there
/// was room for, the rest is lost, and the command may be asked again with room for all.
#[repr(C)]
#[derive(Clone, Copy)]
pub struct Lens {
    pub out: u64,
    pub err: u64,
}

/// What `aclc classify rules capture` prints, of these bytes.
///
/// The code is that of `aclc`, and 9 where there is no memory. `out` takes the first bytes of what
/// is printed and `err` those of the message.
#[unsafe(no_mangle)]
pub extern "C" fn page_classify(
    alloc: Global,
    rules: &[u8],
    capture: &[u8],
    asked: &Asked,
    out: &mut [u8],
    err: &mut [u8],
    lens: &mut Lens,
) -> u32
    ensures { Answers (classify_words asked.now)
        (rules_file rules.now ∷ capture_file capture.now ∷ [])
        (room out.old err.old) (room out.new err.new) lens.new result }
{
    hand_over(classify(alloc, rules, capture, asked), out, err, lens)
}

/// What `aclc audit rules` prints, of these bytes, likewise.
#[unsafe(no_mangle)]
pub extern "C" fn page_audit(
    alloc: Global,
    rules: &[u8],
    asked: &Asked,
    out: &mut [u8],
    err: &mut [u8],
    lens: &mut Lens,
) -> u32
    ensures { Answers (audit_words asked.now) (rules_file rules.now ∷ [])
        (room out.old err.old) (room out.new err.new) lens.new result }
{
    hand_over(audit(alloc, rules, asked), out, err, lens)
}

/// What `aclc compare rules second` prints, of these bytes, likewise.
#[unsafe(no_mangle)]
pub extern "C" fn page_compare(
    alloc: Global,
    rules: &[u8],
    second: &[u8],
    asked: &Asked,
    out: &mut [u8],
    err: &mut [u8],
    lens: &mut Lens,
) -> u32
    ensures { Answers (compare_words asked.now) (rules_file rules.now ∷ second_file second.now ∷ [])
        (room out.old err.old) (room out.new err.new) lens.new result }
{
    hand_over(compare(alloc, rules, second, asked), out, err, lens)
}

/// What `aclc session script` prints, of these bytes, likewise.
#[unsafe(no_mangle)]
pub extern "C" fn page_session(
    alloc: Global,
    script: &[u8],
    out: &mut [u8],
    err: &mut [u8],
    lens: &mut Lens,
) -> u32
    ensures { Answers session_words (script_file script.now ∷ [])
        (room out.old err.old) (room out.new err.new) lens.new result }
{
    hand_over(session(alloc, script), out, err, lens)
}
