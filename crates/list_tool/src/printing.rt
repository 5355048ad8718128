//! Rules and what they were made of in, the text of a rule file out.

ghost use Rattle.std.specs.Prelude.{◌≡◌, ◌++◌, length, map, nat_lt, IfErr, IfOk, OnOk};
ghost use Rattle.std.specs.Option.{option_map};
ghost use Rattle.text_scan.specs.Parts.{lines_of};
ghost use Rattle.classbench_reader.specs.Limits.{max_rule_file};
ghost use Rattle.classbench_reader.specs.Print.{fields_of, has_prefixes, is_one_prefix};
ghost use Rattle.classbench_reader.specs.RuleFile.{rule_file_of};
ghost use Rattle.printed_lists.specs.Listed.{Comment, line_view, line_views, lists_of};
ghost use Rattle.list_tool.specs.Listing.{family_of, rules_for};
ghost use Rattle.list_tool.specs.Texts.{IsTextOf, IsTextOfRules, ListedFor};
ghost use Rattle.list_tool.specs.Printed.{Refuses, after_comment, comment_of};
ghost use Rattle.list_tool.specs.Printed.{commented, first_odd, line_text};
ghost use Rattle.list_tool.specs.Printed.{number_at, number_before, number_text, text_of};
ghost use Rattle.list_tool.specs.Printed.{text_of_rules};
ghost use Rattle.list_tool.specs.Premises.{premises};
ghost use Rattle.list_tool.specs.Requests.{request_of};

use crate::listing::{at_no_place, family_of, listed_rules, rule_place};
use crate::premises::premises;
use crate::status::{ListFault, ListKind, Refusal};
use crate::words::{Form, Request};
use classbench_reader::MAX_RULE_FILE;
use field_defs::{Family, FieldValue};
use iptables_reader::Answers;
use printed_lists::{ListLine, put_list};
use rule_set::{RuleSet, StoredRule};
use std::alloc::{AllocError, Global};
use text_scan::split_line;

/// The text of the rule file that is asked for.
///
/// It takes memory in proportion to the list and the rules.
pub(crate) fn rule_file_text(
    alloc: Global,
    bytes: &[u8],
    request: &Request,
) -> Result<Vec<u8>, Refusal>
    ensures { IsTextOf (request_of request.now) bytes.now result }
{
    match rules_for(alloc, bytes, request, Answers::Line) {
        Ok(by_line) => text_with(alloc, bytes, request, &by_line),
        Err(refusal) => Err(refusal),
    }
}

/// The same, where the rules with the lines as their userdata are given.
fn text_with(
    alloc: Global,
    bytes: &[u8],
    request: &Request,
    by_line: &RuleSet,
) -> Result<Vec<u8>, Refusal>
    requires { ListedFor (request_of request.now) bytes.now Answers.Line by_line.now }
    ensures { IsTextOf (request_of request.now) bytes.now result }
{
    match request.options.answers {
        Answers::Line => text_of_rules(alloc, request, bytes, by_line, by_line),
        Answers::Verdict => text_with_verdicts(alloc, bytes, request, by_line),
    }
}

/// The same with verdicts as userdata, which are asked for.
fn text_with_verdicts(
    alloc: Global,
    bytes: &[u8],
    request: &Request,
    by_line: &RuleSet,
) -> Result<Vec<u8>, Refusal>
    requires listed { ListedFor (request_of request.now) bytes.now Answers.Line by_line.now }
    requires verdicts { request.now.options.answers ≡ Answers.Verdict }
    ensures { IsTextOf (request_of request.now) bytes.now result }
{
    match rules_for(alloc, bytes, request, Answers::Verdict) {
        Ok(rules) => text_of_rules(alloc, request, bytes, by_line, &rules),
        Err(refusal) => Err(refusal),
    }
}

/// The rules that a request asks for, with such answers.
fn rules_for(
    alloc: Global,
    bytes: &[u8],
    request: &Request,
    answers: Answers,
) -> Result<RuleSet, Refusal>
    ensures listed { IfOk result (ListedFor (request_of request.now) bytes.now answers) }
    ensures refused { IfErr result
        (Refuses (rules_for (request_of request.now) bytes.now answers)) }
{
    listed_rules(alloc, bytes, request, answers)
}

/// The text of some rules, by the lines of the list and the numbers of the rules.
fn text_of_rules(
    alloc: Global,
    request: &Request,
    bytes: &[u8],
    by_line: &RuleSet,
    set: &RuleSet,
) -> Result<Vec<u8>, Refusal>
    requires { set.now.layout ≡ fields_of (family_of request.now.form) }
    ensures { IsTextOfRules (premises (request_of request.now) bytes.now) request.now.form bytes.now
        by_line.now.rules set.now.rules result }
{
    let form = request.form;
    let family = family_of(form);
    let numbered = by_line.all();
    let rules = set.all();
    if let Some(number) = first_odd(family, numbered, rules) {
        return Err(Refusal::Fault(ListFault {
            place: rule_place(form, number),
            kind: ListKind::NoPrefix,
        }));
    }
    let texts = lines_of(alloc, bytes)?;
    let head = premises(alloc, request, bytes)?;
    let lines = commented(alloc, form, &head, &texts, numbered, rules)?;
    let mut text = Vec::new(alloc);
    put_list(alloc, &mut text, family, &lines)?;
    if is_too_long(&text) {
        return Err(Refusal::Fault(at_no_place(form, ListKind::TextTooLong)));
    }
    Ok(text)
}

/// Whether a text has more bytes than a rule file may have.
fn is_too_long(text: &[u8]) -> bool
    ensures { result ≡ nat_lt max_rule_file (length text.now) }
{
    text.len() > MAX_RULE_FILE
}

/// The number of the first rule whose addresses no prefix says, if there is one.
fn first_odd(family: Family, by_line: &[StoredRule], rules: &[StoredRule]) -> Option<u32>
    ensures { result ≡ first_odd family by_line.now 0 rules.now }
{
    for place in 0..rules.len() {
        if !has_prefixes(family, rules[place].fields()) {
            return Some(number_at(by_line, place));
        }
    }
    None
}

/// Whether each address of a rule has one prefix.
fn has_prefixes(family: Family, values: &[FieldValue]) -> bool
    ensures { result ≡ has_prefixes family values.now }
{
    match (family, values) {
        (Family::Ip4, _) => true,
        (Family::Ip6, [_, source_high, source_low, high, low, ..]) => {
            is_one_prefix(source_high, source_low) && is_one_prefix(high, low)
        }
        (Family::Ip6, _) => false,
    }
}

/// Whether the prefix of an IPv6 address goes on in the low half only after the whole high half.
fn is_one_prefix(high: &FieldValue, low: &FieldValue) -> bool
    ensures { result ≡ is_one_prefix high.now low.now }
{
    match (high, low) {
        (
            FieldValue::Mask {
                bits: high_bits,
                ..
            },
            FieldValue::Mask { bits: low_bits, .. },
        ) => { *low_bits == 0 || *high_bits == 64 }
        _ => false,
    }
}

/// The number of the rule at a place, and 0 where there is none.
fn number_at(by_line: &[StoredRule], place: usize) -> u32
    ensures { result ≡ number_at by_line.now place }
{
    match by_line.get(place) {
        Some(rule) => rule.tag().userdata,
        None => 0,
    }
}

/// The number of the rule before a place.
fn number_before(by_line: &[StoredRule], place: usize) -> u32
    ensures { result ≡ number_before by_line.now place }
{
    if place == 0 {
        0
    } else {
        number_at(by_line, place - 1)
    }
}

/// The text of the line of a number, from 1. 0 is that of the rule for what no line decides.
fn line_text<'a>(texts: &[&'a [u8]], number: u32) -> &'a [u8]
    ensures { result.now ≡ line_text (map (λ text. text.now) texts.now) number }
{
    if number == 0 {
        return b"what no line decides";
    }
    match texts.get(number as usize - 1) {
        Some(text) => text,
        None => b"",
    }
}

/// The lines of a list. It takes the memory of a slice for each.
fn lines_of<'a>(alloc: Global, bytes: &'a [u8]) -> Result<Vec<&'a [u8]>, AllocError>
    ensures { IfOk result (λ lines. map (λ line. line.now) lines.items ≡ lines_of bytes.now) }
{
    let mut lines = Vec::new(alloc);
    let mut left = bytes;
    while let Some((line, rest)) = split_line(left) {
        lines.push(line)?;
        left = rest;
    }
    Ok(lines)
}

/// The lines of a rule file: those of its head, and each rule, after what is said of its number
/// where that is another than the number before.
fn commented<'a>(
    alloc: Global,
    form: Form,
    head: &[&'a [u8]],
    texts: &[&'a [u8]],
    by_line: &[StoredRule],
    rules: &'a [StoredRule],
) -> Result<Vec<ListLine<'a>>, AllocError>
    ensures { IfOk result (λ lines. line_views lines.items
        ≡ map (λ text. Comment text) (map (λ text. text.now) head.now)
        ++ commented form (map (λ text. text.now) texts.now) by_line.now 0 rules.now) }
{
    let mut lines = headed(alloc, head)?;
    for place in 0..rules.len() {
        let number = number_at(by_line, place);
        let comment = comment_of(form, texts, number_before(by_line, place), number);
        put_rule(&mut lines, comment, &rules[place])?;
    }
    Ok(lines)
}

/// The comments above the rules.
fn headed<'a>(alloc: Global, head: &[&'a [u8]]) -> Result<Vec<ListLine<'a>>, AllocError>
    ensures { IfOk result
        (λ lines. line_views lines.items
        ≡ map (λ text. Comment text) (map (λ text. text.now) head.now)) }
{
    let mut lines = Vec::new(alloc);
    for text in head {
        lines.push(ListLine::Comment(*text))?;
    }
    Ok(lines)
}

/// What is said of a rule's number, where that is another than the number before.
fn comment_of<'a>(form: Form, texts: &[&'a [u8]], before: u32, number: u32) -> Option<ListLine<'a>>
    ensures { option_map line_view result
        ≡ comment_of form (map (λ text. text.now) texts.now) before number }
{
    if number == before {
        None
    } else {
        Some(number_line(form, texts, number))
    }
}

/// What is said of the rules of a number: the text of its line, or that it is the handle.
fn number_line<'a>(form: Form, texts: &[&'a [u8]], number: u32) -> ListLine<'a>
    ensures { line_view result
        ≡ Comment (number_text form (map (λ text. text.now) texts.now) number) }
{
    match form {
        Form::Iptables | Form::Ip6tables | Form::Cisco => {
            ListLine::Comment(line_text(texts, number))
        }
        Form::Nft | Form::Nft6 => ListLine::Numbered(b"handle ", number),
    }
}

/// Puts a rule after the other lines, and its comment before it, if it has one.
fn put_rule<'a>(
    lines: &mut Vec<ListLine<'a>>,
    comment: Option<ListLine<'a>>,
    rule: &'a StoredRule,
) -> Result<(), AllocError>
    ensures { OnOk result (line_views lines.new.items ≡ line_views lines.old.items
        ++ after_comment (option_map line_view comment.entry) rule.now) }
{
    match comment {
        Some(line) => {
            lines.push(line)?;
            lines.push(ListLine::Rule(rule))?;
            Ok(())
        }
        None => {
            lines.push(ListLine::Rule(rule))?;
            Ok(())
        }
    }
}
