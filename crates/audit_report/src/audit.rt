//! The lines of an audit.

ghost use Rattle.std.specs.Prelude.{◌≡◌, ◌<◌, ◌≤◌, ◌++◌, length, Some, OnOk, IfOk};
ghost use Rattle.rule_set.specs.Winner.{userdata_at};
ghost use Rattle.table_sizes.specs.Sizes.{row_len};
ghost use Rattle.acl_audit.specs.Least.{least_keys};
ghost use Rattle.audit_report.specs.Audit.{audit_text, live_count, rules_text, totals_text};

use crate::rule::{Listed, push_rule};
use crate::text::{push_number, push_piece};
use acl_audit::Audit;
use field_defs::Family;
use rule_set::{Categories, RuleSet};
use std::alloc::{AllocError, Global};

/// The rule at a place of the set.
fn listed(family: Family, rules: &RuleSet, place: usize) -> Listed
    requires { place < length rules.now.rules }
    ensures family { result.family ≡ family }
    ensures place { result.place ≡ place }
    ensures userdata { result.userdata ≡ userdata_at rules.now.rules (Some place) }
{
    let _few = rules.all();
    Listed {
        family,
        place,
        userdata: rules.at(place).tag().userdata,
    }
}

/// Puts the lines of the rules of a family after the text, and gives how many of them ever win in
/// one of so many categories.
fn push_rules(
    text: &mut Vec<u8>,
    family: Family,
    rules: &RuleSet,
    audit: &Audit,
    categories: usize,
) -> Result<usize, AllocError>
    requires audit { audit.now ≡ least_keys rules.now }
    requires categories { categories ≤ row_len }
    ensures text { OnOk result
        (text.new.items ≡ text.old.items ++ rules_text family categories rules.now) }
    ensures live { IfOk result (λ live. live ≡ live_count categories rules.now) }
    ensures few { IfOk result (λ live. live ≤ length rules.now.rules) }
{
    let mut live = 0usize;
    for place in 0..rules.len() {
        let rule = listed(family, rules, place);
        let wins = push_rule(text, rule, rules, audit, categories)?;
        live += usize::from(wins);
    }
    Ok(live)
}

/// Puts the last line after the text: how many rules there are, how many ever win, and how many
/// don't.
fn push_totals(text: &mut Vec<u8>, rules: usize, live: usize) -> Result<(), AllocError>
    requires { live ≤ rules }
    ensures { OnOk result (text.new.items ≡ text.old.items ++ totals_text rules live) }
{
    push_piece(text, b"rules ")?;
    push_number(text, rules as u64)?;
    push_piece(text, b" live ")?;
    push_number(text, live as u64)?;
    push_piece(text, b" never ")?;
    push_number(text, (rules - live) as u64)?;
    push_piece(text, b"\n")
}

/// The lines of an audit: for each rule of `ip4`, and then of `ip6`, a line for each category below
/// the number in which it wins, with the least key at which it does, or a line that it never wins,
/// and last how many rules win somewhere.
///
/// `one` and `two` are the audits of the two sets. It takes the memory of the text.
pub fn audit_text(
    alloc: Global,
    ip4: &RuleSet,
    one: &Audit,
    ip6: &RuleSet,
    two: &Audit,
    categories: Categories,
) -> Result<Vec<u8>, AllocError>
    requires ip4 { one.now ≡ least_keys ip4.now }
    requires ip6 { two.now ≡ least_keys ip6.now }
    ensures { IfOk result
        (λ text. text.items ≡ audit_text categories.count ip4.now ip6.now) }
{
    let shown = categories.count();
    let (_few, _too) = (ip4.all(), ip6.all());
    let mut text = Vec::new(alloc);
    let first = push_rules(&mut text, Family::Ip4, ip4, one, shown)?;
    let second = push_rules(&mut text, Family::Ip6, ip6, two, shown)?;
    push_totals(&mut text, ip4.len() + ip6.len(), first + second)?;
    Ok(text)
}
