//! The lines of a comparison: for each family whether both lists decide alike, or where they don't.

ghost use Rattle.std.specs.Prelude.{◌≡◌, ◌++◌, IfSome, OnOk};
ghost use Rattle.acl_report.specs.Tables.{family_word};
ghost use Rattle.acl_audit.specs.Compared.{told_difference};
ghost use Rattle.acl_audit.specs.Difference.{difference};
ghost use Rattle.acl_audit.specs.Laws.{AreUnlikeAt};
ghost use Rattle.audit_report.specs.Compare.{difference_text, place_text, verdicts_text};

use crate::text::{push_key, push_number, push_piece};
use acl_audit::Compared;
use field_defs::Family;
use rule_set::{RuleSet, plain_verdict};
use std::alloc::AllocError;

/// Puts the name of a family after the text.
fn push_family(text: &mut Vec<u8>, family: Family) -> Result<(), AllocError>
    ensures { OnOk result (text.new.items ≡ text.old.items ++ family_word family) }
{
    match family {
        Family::Ip4 => push_piece(text, b"ip4"),
        Family::Ip6 => push_piece(text, b"ip6"),
    }
}

/// Puts the category and the key after the text at which two sets decide unlike.
fn push_place(text: &mut Vec<u8>, category: u32, key: &[u8]) -> Result<(), AllocError>
    ensures { OnOk result (text.new.items ≡ text.old.items ++ place_text category key.now) }
{
    push_piece(text, b" differ category ")?;
    push_number(text, u64::from(category))?;
    push_piece(text, b" key ")?;
    push_key(text, key)?;
    Ok(())
}

/// Puts both verdicts after the text, and the end of the line.
fn push_verdicts(text: &mut Vec<u8>, first: u32, second: u32) -> Result<(), AllocError>
    ensures { OnOk result (text.new.items ≡ text.old.items ++ verdicts_text first second) }
{
    push_piece(text, b" one ")?;
    push_number(text, u64::from(first))?;
    push_piece(text, b" two ")?;
    push_number(text, u64::from(second))?;
    push_piece(text, b"\n")
}

/// Puts the line of a family after the text: that both sets decide alike, or the least key and the
/// category at which they don't, with both verdicts.
///
/// `compared` is what the comparison of the two sets told. It takes the memory of the line.
pub fn push_difference(
    text: &mut Vec<u8>,
    family: Family,
    one: &RuleSet,
    two: &RuleSet,
    compared: &Compared,
) -> Result<(), AllocError>
    requires layouts { one.now.layout ≡ two.now.layout }
    requires told { told_difference compared.now ≡ difference one.now two.now }
    requires unlike { IfSome (told_difference compared.now) (AreUnlikeAt one.now two.now) }
    ensures { OnOk result (text.new.items ≡ text.old.items
        ++ difference_text family one.now two.now (difference one.now two.now)) }
{
    push_family(text, family)?;
    match compared {
        Compared::Same => push_piece(text, b" same\n"),
        Compared::Differ { key, category } => {
            let key = key.as_slice();
            let first = plain_verdict(one, key, *category);
            let second = plain_verdict(two, key, *category);
            push_place(text, *category, key)?;
            push_verdicts(text, first, second)?;
            Ok(())
        }
    }
}
