//! Named sets and maps of a ruleset.

ghost use Rattle.std.specs.Prelude.{◌≡◌, ◌++◌, ◌≤◌, codes, map, IfOk, OnOk, option_map};
ghost use Rattle.std.specs.List.{flat_map, list_all};
ghost use Rattle.std.specs.Option.{option_to_list};
ghost use Rattle.json.specs.Find.{as_str, get};
ghost use Rattle.json.specs.Value.{value_view as view};
ghost use Rattle.nft_reader.specs.Sets as sets;
ghost use Rattle.nft_reader.specs.Shapes as shapes;
ghost use Rattle.nft_reader.specs.Shapes.{all_seen, elements_seen, text_in, text_seen};

use crate::chain::Owner;
use crate::fault::RuleKind;
use crate::shapes::{items_in, items_of, len_of, listed_values, only, present, said_by, text_in};
use json::Value;
use std::alloc::{AllocError, Global};
use std::marker::Model;

/// The name of a set that a rule changes: its family, its table, and its name there. Contracts see
/// a record of these.
#[derive(Drop)]
struct Change<'a> {
    family: &'a str,
    table: &'a str,
    name: &'a [u8],
}

impl<'a> Model for Change<'a> {
    ghost use Rattle.nft_reader.specs.Chains.{Names};

    ghost Value = { Names };

    ghost view = { λ change. record {
      family = change.family.now;
      table = change.table.now;
      name = change.name.now;
    } };
}

impl<'a> Change<'a> {
    ghost use Rattle.std.specs.Prelude.{◌≡◌};
    ghost use Rattle.nft_reader.specs.Chains.{is_same};

    /// Whether it is that of a set.
    fn is_of(&self, owner: &Owner<'_>) -> bool
        ensures { result ≡ is_same self.now owner.now }
    {
        self.family == owner.family
            && self.table == owner.table
            && self.name == owner.name.as_bytes()
    }
}

/// A set or a map: its name, whether its elements have verdicts, and these elements, or why they
/// aren't known.
#[derive(Drop)]
pub(crate) struct NamedSet<'v, 'a> {
    owner: Owner<'v>,
    verdicts: bool,
    pub(crate) elements: Result<&'v [Value<'a>], RuleKind>,
}

impl<'v, 'a> NamedSet<'v, 'a> {
    ghost use Rattle.std.specs.Prelude.{◌≡◌};
    ghost use Rattle.nft_reader.specs.Sets.{is_wanted, set_of};

    /// Whether it has this name in the table of a chain, and verdicts where they are asked for.
    pub(crate) fn is_wanted(&self, verdicts: bool, owner: &Owner<'_>, name: &[u8]) -> bool
        ensures { result
            ≡ is_wanted verdicts (record (owner.now) { name = name.now }) (set_of self.now) }
    {
        self.verdicts == verdicts
            && self.owner.family == owner.family
            && self.owner.table == owner.table
            && self.owner.name.as_bytes() == name
    }
}

/// The name after `@`.
pub(crate) fn at_name(text: &[u8]) -> Option<&[u8]>
    ensures { option_map text_seen result ≡ sets.at_name text.now }
{
    text.strip_prefix(b"@")
}

/// The set that a statement changes.
fn changed_by<'a>(statement: &Value<'a>) -> Option<&'a [u8]>
    ensures { option_map text_seen result ≡ sets.changed_by (view statement.now) }
{
    at_name(text_in("set", said_by("set", statement)?)?.as_bytes())
}

/// Whether a member is this text.
pub(crate) fn is_text_in(key: &str, text: &str, said: &Value<'_>) -> bool
    ensures { result ≡ sets.is_text text.now (text_in key.now (view said.now)) }
{
    match text_in(key, said) {
        Some(other) => other == text,
        None => false,
    }
}

/// Puts the set that a statement of a rule of a table changes after others, if it does.
fn put_change<'a>(
    changes: &mut Vec<Change<'a>>,
    family: &'a str,
    table: &'a str,
    statement: &Value<'a>,
) -> Result<(), AllocError>
    ensures { OnOk result (changes.new.items ≡ changes.old.items
        ++ sets.change_of family.now table.now (view statement.now)) }
{
    if let Some(name) = changed_by(statement) {
        changes.push(Change {
            family,
            table,
            name,
        })?;
    }
    Ok(())
}

/// Puts those that each of some statements changes.
fn put_each_change<'a>(
    changes: &mut Vec<Change<'a>>,
    family: &'a str,
    table: &'a str,
    statements: &[Value<'a>],
) -> Result<(), AllocError>
    ensures { OnOk result (changes.new.items ≡ changes.old.items ++ flat_map
        (λ statement. sets.change_of family.now table.now (view statement)) statements.now) }
{
    for statement in statements {
        put_change(changes, family, table, statement)?;
    }
    Ok(())
}

/// Puts those that some statements change.
fn put_changes<'a>(
    changes: &mut Vec<Change<'a>>,
    family: &'a str,
    table: &'a str,
    statements: &[Value<'a>],
) -> Result<(), AllocError>
    ensures { OnOk result (changes.new.items ≡ changes.old.items
        ++ flat_map (sets.change_of family.now table.now) (map view statements.now)) }
{
    put_each_change(changes, family, table, statements)?;
    Ok(())
}

/// Puts those that an object changes, if it is a rule.
fn put_rule_changes<'a>(changes: &mut Vec<Change<'a>>, object: &Value<'a>) -> Result<(), AllocError>
    ensures { OnOk result (changes.new.items
        ≡ changes.old.items ++ sets.changes_in (view object.now)) }
{
    let Some(said) = said_by("rule", object) else {
        return Ok(());
    };
    let Some(family) = text_in("family", said) else {
        return Ok(());
    };
    let Some(table) = text_in("table", said) else {
        return Ok(());
    };
    let Some(statements) = items_in("expr", said) else {
        return Ok(());
    };
    put_changes(changes, family, table, statements)
}

/// The sets that objects change.
fn object_changes<'a>(alloc: Global, objects: &[Value<'a>]) -> Result<Vec<Change<'a>>, AllocError>
    ensures { IfOk result (λ changes. changes.items
        ≡ flat_map (λ object. sets.changes_in (view object)) objects.now) }
{
    let mut changes = Vec::new(alloc);
    for object in objects {
        put_rule_changes(&mut changes, object)?;
    }
    Ok(changes)
}

/// The sets that the rules of a ruleset change.
fn changes_of<'a>(alloc: Global, objects: &[Value<'a>]) -> Result<Vec<Change<'a>>, AllocError>
    ensures { IfOk result (λ changes. changes.items ≡ sets.changes_of (map view objects.now)) }
{
    let changes = object_changes(alloc, objects)?;
    Ok(changes)
}

/// Whether packets change a set.
fn is_changed(changes: &[Change<'_>], owner: &Owner<'_>) -> bool
    ensures { result ≡ sets.is_changed changes.now owner.now }
{
    changes.iter().any(|change| change.is_of(owner))
}

/// Whether a flag is one by which the elements of a set stay.
fn is_kept_flag(flag: &Value<'_>) -> bool
    ensures { result ≡ sets.is_kept_flag (as_str (view flag.now)) }
{
    match flag.as_str() {
        Some(flag) => matches!(flag, "interval" | "constant"),
        None => false,
    }
}

/// Whether all of some flags are such.
fn are_kept_flags(flags: &[Value<'_>]) -> bool
    ensures { result ≡ list_all (λ flag. sets.is_kept_flag (as_str (view flag))) flags.now }
{
    flags.iter().all(|flag| is_kept_flag(flag))
}

/// Whether the flags of a set, if it has some, are such.
fn has_kept_flags(said: &Value<'_>) -> bool
    ensures { result ≡ sets.are_kept_flags (get (codes "flags") (view said.now)) }
{
    match said.get("flags") {
        Some(flags) => are_kept_flags(listed_values(flags)),
        None => true,
    }
}

/// Whether elements end by time, or are of a set that packets may change.
fn is_timed(said: &Value<'_>) -> bool
    ensures { result ≡ sets.is_timed (view said.now) }
{
    said.get("timeout").is_some() || said.get("gc-interval").is_some() || !has_kept_flags(said)
}

/// How many members say nothing of packets, or are read.
fn known_members(said: &Value<'_>) -> usize
    ensures members { result ≡ sets.known_members (view said.now) }
    ensures bound { result ≤ 10 }
{
    present("type", said)
        + present("handle", said)
        + present("flags", said)
        + present("elem", said)
        + present("map", said)
        + present("size", said)
        + present("policy", said)
        + present("auto-merge", said)
        + present("comment", said)
        + present("stmt", said)
}

/// Whether a statement that each element of a set has is a counter.
fn is_counter(statement: &Value<'_>) -> bool
    ensures { result ≡ sets.is_counter (view statement.now) }
{
    said_by("counter", statement).is_some()
}

/// Whether all of some statements are.
fn are_counters(statements: &[Value<'_>]) -> bool
    ensures { result ≡ list_all (λ statement. sets.is_counter (view statement)) statements.now }
{
    statements.iter().all(|statement| is_counter(statement))
}

/// Whether the statements of a set, if it has some, say nothing of packets.
fn has_quiet_statements(said: &Value<'_>) -> bool
    ensures { result ≡ sets.are_quiet (get (codes "stmt") (view said.now)) }
{
    let Some(value) = said.get("stmt") else {
        return true;
    };
    match items_of(value) {
        Some(statements) => are_counters(statements),
        None => false,
    }
}

/// Whether it has members that are known alone.
fn has_set_members(said: &Value<'_>) -> bool
    ensures { result ≡ sets.has_set_members (view said.now) }
{
    len_of(said) == 3 + known_members(said) && has_quiet_statements(said)
}

/// The elements that are listed. An empty set lists none.
fn listed_elements<'v, 'a>(said: &'v Value<'a>) -> Option<&'v [Value<'a>]>
    ensures { option_map all_seen result ≡ sets.listed_elements (view said.now) }
{
    match said.get("elem") {
        Some(value) => items_of(value),
        None => Some(&std::slice::from_ref(said)[..0]),
    }
}

/// The elements of a set, of which packets change some, or why they aren't known.
fn set_elements<'v, 'a>(
    changes: &[Change<'_>],
    owner: &Owner<'_>,
    said: &'v Value<'a>,
) -> Result<&'v [Value<'a>], RuleKind>
    ensures { elements_seen result
        ≡ sets.set_elements changes.now owner.now (view said.now) }
{
    if is_timed(said) || is_changed(changes, owner) {
        return Err(RuleKind::ChangingSet);
    }
    if !has_set_members(said) {
        return Err(RuleKind::OtherSet);
    }
    listed_elements(said).ok_or(RuleKind::OtherSet)
}

/// Whether the elements of an object of a name have verdicts, if it is a set or a map to verdicts.
fn verdicts_in(name: &str, said: &Value<'_>) -> Option<bool>
    ensures { result ≡ sets.verdicts_in name.now (view said.now) }
{
    match name {
        "set" => Some(false),
        "map" => (text_in("map", said)? == "verdict").then_some(true),
        _ => None,
    }
}

/// The family, the table, and the name under a key.
pub(crate) fn owner_in<'a>(key: &str, said: &Value<'a>) -> Option<Owner<'a>>
    ensures { result ≡ sets.owner_in key.now (view said.now) }
{
    let family = text_in("family", said)?;
    let table = text_in("table", said)?;
    let name = text_in(key, said)?;
    Some(Owner {
        family,
        table,
        name,
    })
}

/// The set of an object that has one.
fn set_object<'v, 'a>(changes: &[Change<'_>], object: &'v Value<'a>) -> Option<NamedSet<'v, 'a>>
    ensures { option_map sets.set_of result ≡ sets.set_object changes.now (view object.now) }
{
    let (name, said) = only(object)?;
    let verdicts = verdicts_in(name, said)?;
    let owner = owner_in("name", said)?;
    let elements = set_elements(changes, &owner, said);
    Some(NamedSet {
        owner,
        verdicts,
        elements,
    })
}

/// Puts the set of an object that has one after others.
fn put_set<'v, 'a>(
    found: &mut Vec<NamedSet<'v, 'a>>,
    changes: &[Change<'_>],
    object: &'v Value<'a>,
) -> Result<(), AllocError>
    ensures { OnOk result (map sets.set_of found.new.items ≡ map sets.set_of found.old.items
        ++ option_to_list (sets.set_object changes.now (view object.now))) }
{
    if let Some(set) = set_object(changes, object) {
        found.push(set)?;
    }
    Ok(())
}

/// The sets and maps of objects, of which packets change some.
fn sets_in<'v, 'a>(
    alloc: Global,
    changes: &[Change<'_>],
    objects: &'v [Value<'a>],
) -> Result<Vec<NamedSet<'v, 'a>>, AllocError>
    ensures { IfOk result (λ found. map sets.set_of found.items
        ≡ sets.sets_in changes.now (map view objects.now)) }
{
    let mut found = Vec::new(alloc);
    for object in objects {
        put_set(&mut found, changes, object)?;
    }
    Ok(found)
}

/// The sets and maps of a ruleset. It takes memory in proportion to their number, and to that of
/// the statements that change some.
pub(crate) fn sets_of<'v, 'a>(
    alloc: Global,
    objects: &'v [Value<'a>],
) -> Result<Vec<NamedSet<'v, 'a>>, AllocError>
    ensures { IfOk result (λ found. map sets.set_of found.items
        ≡ sets.sets_of (map view objects.now)) }
{
    let changes = changes_of(alloc, objects)?;
    sets_in(alloc, &changes, objects)
}
