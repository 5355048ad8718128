//! The lines of a rule: one for each category in which it ever wins, or a line that it never does.

ghost use Rattle.std.specs.Prelude.{◌≡◌, ◌<◌, ◌≤◌, ◌++◌, length, OnOk, IfOk};
ghost use Rattle.std.specs.Option.{option_map};
ghost use Rattle.field_defs.specs.declared.field.Family.{Family};
ghost use Rattle.table_sizes.specs.Sizes.{max_rules, row_len};
ghost use Rattle.acl_audit.specs.Least.{least_key, least_keys};
ghost use Rattle.audit_report.specs.Audit.{family_front, rule_front, category_text, wins_text};
ghost use Rattle.audit_report.specs.Audit.{is_live, is_some, never_text, rule_text};

use crate::text::{push_key, push_number, push_piece};
use acl_audit::Audit;
use field_defs::Family;
use rule_set::RuleSet;
use std::alloc::AllocError;

/// A rule of a family, by its place from 0 on, and its userdata.
#[derive(Clone, Copy)]
pub(crate) struct Listed {
    pub(crate) family: Family,
    pub(crate) place: usize,
    pub(crate) userdata: u32,
    ghost few: { place < max_rules },
}

/// Puts the front of a line after the text, which names the family of its rule.
fn push_family(text: &mut Vec<u8>, family: Family) -> Result<(), AllocError>
    ensures { OnOk result (text.new.items ≡ text.old.items ++ family_front family) }
{
    match family {
        Family::Ip4 => push_piece(text, b"ip4 rule "),
        Family::Ip6 => push_piece(text, b"ip6 rule "),
    }
}

/// Puts the front of a line after the text, which names its rule.
fn push_front(text: &mut Vec<u8>, rule: Listed) -> Result<(), AllocError>
    ensures { OnOk result (text.new.items
        ≡ text.old.items ++ rule_front rule.family rule.place rule.userdata) }
{
    push_family(text, rule.family)?;
    push_number(text, rule.place as u64 + 1)?;
    push_piece(text, b" data ")?;
    push_number(text, u64::from(rule.userdata))
}

/// Puts the line after the text that tells the least key at which the rule wins in the category,
/// if there is one, and gives whether there is.
fn push_category(
    text: &mut Vec<u8>,
    rule: Listed,
    category: usize,
    key: Option<&[u8]>,
) -> Result<bool, AllocError>
    ensures text { OnOk result (text.new.items ≡ text.old.items
        ++ category_text rule.family rule.place rule.userdata category
        (option_map (λ found. found.now) key.entry)) }
    ensures wins { IfOk result (λ won. won ≡ is_some (option_map (λ found. found.now) key.entry)) }
{
    let Some(key) = key else {
        return Ok(false);
    };
    push_front(text, rule)?;
    push_piece(text, b" wins ")?;
    push_number(text, category as u64)?;
    push_piece(text, b" key ")?;
    push_key(text, key)?;
    push_piece(text, b"\n")?;
    Ok(true)
}

/// Puts a line after the text for each category in which the rule wins, below so many, and gives
/// whether there is one.
fn push_wins(
    text: &mut Vec<u8>,
    rule: Listed,
    rules: &RuleSet,
    audit: &Audit,
    categories: usize,
) -> Result<bool, AllocError>
    requires audit { audit.now ≡ least_keys rules.now }
    requires rule { rule.place < length rules.now.rules }
    requires categories { categories ≤ row_len }
    ensures text { OnOk result (text.new.items ≡ text.old.items
        ++ wins_text rule.family rule.place rule.userdata categories
        (least_key rules.now rule.place)) }
    ensures live { IfOk result
        (λ live. live ≡ is_live categories (least_key rules.now rule.place)) }
{
    let mut live = false;
    for category in 0..categories {
        let key = audit.key_of(rule.place, category as u32);
        let wins = push_category(text, rule, category, key)?;
        live |= wins;
    }
    Ok(live)
}

/// Puts the line after the text that the rule never wins, unless it is live.
fn push_never(text: &mut Vec<u8>, rule: Listed, live: bool) -> Result<(), AllocError>
    ensures { OnOk result (text.new.items
        ≡ text.old.items ++ never_text rule.family rule.place rule.userdata live) }
{
    if live {
        return Ok(());
    }
    push_front(text, rule)?;
    push_piece(text, b" never\n")
}

/// Puts the lines of the rule after the text, and gives whether it ever wins in one of so many
/// categories.
pub(crate) fn push_rule(
    text: &mut Vec<u8>,
    rule: Listed,
    rules: &RuleSet,
    audit: &Audit,
    categories: usize,
) -> Result<bool, AllocError>
    requires audit { audit.now ≡ least_keys rules.now }
    requires rule { rule.place < length rules.now.rules }
    requires categories { categories ≤ row_len }
    ensures text { OnOk result (text.new.items ≡ text.old.items
        ++ rule_text rule.family rule.place rule.userdata categories
        (least_key rules.now rule.place)) }
    ensures live { IfOk result
        (λ live. live ≡ is_live categories (least_key rules.now rule.place)) }
{
    let live = push_wins(text, rule, rules, audit, categories)?;
    push_never(text, rule, live)?;
    Ok(live)
}
