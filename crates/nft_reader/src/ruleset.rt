//! A ruleset, object by object: its chains for the packets of a family.

ghost use Rattle.std.specs.Prelude.{◌≡◌, codes, length, map, nat_lt, IfErr, IfOk, Ok, option_map};
ghost use Rattle.std.specs.List.{list_all};
ghost use Rattle.json.specs.Find.{as_str, get};
ghost use Rattle.json.specs.Value.{value_view as view};
ghost use Rattle.nft_reader.specs.Ruleset as listed;
ghost use Rattle.nft_reader.specs.Sets.{is_text};
ghost use Rattle.nft_reader.specs.Shapes.{all_seen, text_in as listed_text, text_seen};
ghost use Rattle.nft_reader.specs.Stops.{IsToldOf};

use crate::chain::{NftChain, Owner, place_of};
use crate::compared::own_name;
use crate::fault::{NftFault, ObjectFault, ObjectKind, Stop};
use crate::hooks::{Base, base_of};
use crate::known::{Answers, Asked, Known, Setting, answer_of, policy_named};
use crate::sets::{owner_in, sets_of};
use crate::shapes::{
    items_in, items_of, len_of, listed_values, number_in, only, present, said_by, text_in,
};
use field_defs::Family;
use json::{Error, Scratch, Value};
use std::alloc::{AllocError, Global};

/// How many bytes a ruleset may have.
pub const MAX_RULESET: usize = 16_777_216;

/// The greatest handle.
const MAX_HANDLE: u64 = 4_294_967_295;

/// What a rule says: its chain, its handle and its statements.
#[derive(Drop)]
struct RuleParts<'v, 'a> {
    owner: Owner<'v>,
    handle: u32,
    statements: &'v [Value<'a>],
}

/// Whether a rule has five members, or a comment beside them.
fn has_rule_members(said: &Value<'_>) -> bool
    ensures { result ≡ listed.has_rule_members (view said.now) }
{
    len_of(said) == 5 || (len_of(said) == 6 && text_in("comment", said).is_some())
}

/// The handle of a chain or a rule.
fn handle_in(said: &Value<'_>) -> Option<u32>
    ensures { result ≡ listed.handle_in (view said.now) }
{
    Some(number_in("handle", said, MAX_HANDLE)? as u32)
}

/// The parts of a rule.
fn rule_parts<'v, 'a>(said: &'v Value<'a>) -> Option<RuleParts<'v, 'a>>
    ensures { option_map listed.parts_seen result ≡ listed.rule_parts (view said.now) }
{
    if !has_rule_members(said) {
        return None;
    }
    let owner = owner_in("chain", said)?;
    let handle = handle_in(said)?;
    let statements = items_in("expr", said)?;
    Some(RuleParts {
        owner,
        handle,
        statements,
    })
}

/// Whether a chain has a type, a hook and a priority.
fn has_hook(said: &Value<'_>) -> bool
    ensures { result ≡ listed.has_hook (view said.now) }
{
    text_in("type", said).is_some() && text_in("hook", said).is_some() && said.get("prio").is_some()
}

/// The policy of a chain that packets come to by themselves.
fn base_policy(answers: Answers, handle: u32, said: &Value<'_>) -> Result<Option<u32>, ObjectKind>
    ensures { result ≡ listed.base_policy answers handle (view said.now) }
{
    if !has_hook(said) {
        return Err(ObjectKind::BadChain);
    }
    match text_in("policy", said).and_then(policy_named) {
        Some(verdict) => Ok(Some(answer_of(answers, handle, verdict))),
        None => Err(ObjectKind::BadPolicy),
    }
}

/// The policy of a chain, which has eight members if packets come to it by themselves, and may name
/// devices, and else four. Both may have a comment.
fn policy_of(answers: Answers, handle: u32, said: &Value<'_>) -> Result<Option<u32>, ObjectKind>
    ensures { result ≡ listed.policy_of answers handle (view said.now) }
{
    let comments = present("comment", said);
    if len_of(said) == 4 + comments {
        return Ok(None);
    }
    if len_of(said) == 8 + comments + present("dev", said) {
        return base_policy(answers, handle, said);
    }
    Err(ObjectKind::BadChain)
}

/// Whether a text is a flag that tells of a table's process, and not that the table is dormant.
fn is_awake_flag(text: Option<&str>) -> bool
    ensures { result ≡ listed.is_awake_flag (option_map text_seen text.entry) }
{
    match text {
        Some(text) => matches!(text, "owner" | "persist"),
        None => false,
    }
}

/// Whether all of some flags are such.
fn are_awake_flags(flags: &[Value<'_>]) -> bool
    ensures { result ≡ list_all (λ flag. listed.is_awake_flag (as_str (view flag))) flags.now }
{
    flags.iter().all(|flag| is_awake_flag(flag.as_str()))
}

/// Whether the flags of a table, if it has some, are such.
fn has_awake_flags(said: &Value<'_>) -> bool
    ensures { result ≡ listed.are_awake_flags (get (codes "flags") (view said.now)) }
{
    match said.get("flags") {
        Some(flags) => are_awake_flags(listed_values(flags)),
        None => true,
    }
}

/// Whether packets come to a table, which isn't dormant as far as its flags and its name tell.
fn is_awake(said: &Value<'_>) -> bool
    ensures { result ≡ listed.is_awake (view said.now) }
{
    if is_awake_flag(text_in("name", said)) {
        said.get("flags").is_none()
    } else {
        has_awake_flags(said)
    }
}

/// What a base chain of a table of the family is, which has a policy. Others are nothing.
fn base_in(family: &str, policy: Option<u32>, said: &Value<'_>) -> Result<Option<Base>, ObjectKind>
    ensures { result ≡ listed.base_in family.now policy (view said.now) }
{
    match policy {
        None => Ok(None),
        Some(_) => match base_of(family, said) {
            Some(base) => Ok(Some(base)),
            None => Err(ObjectKind::BadHook),
        },
    }
}

/// Whether packets of a family come to the network's tables of one of a name.
fn is_network_of(family: Family, name: &str) -> bool
    ensures { result ≡ listed.is_network_of family name.now }
{
    name == "inet" || name == own_name(family)
}

/// Whether packets of a family come to tables of one of a name.
fn is_read(family: Family, name: &str) -> bool
    ensures { result ≡ listed.is_read family name.now }
{
    is_network_of(family, name) || name == "netdev"
}

/// Whether an object has the name.
fn is_named(name: &[u8], said: &Value<'_>) -> bool
    ensures { result ≡ is_text name.now (listed_text (codes "name") (view said.now)) }
{
    match text_in("name", said) {
        Some(other) => other.as_bytes() == name,
        None => false,
    }
}

/// What a chain of the network is, if it is a base chain of the name.
fn begin_said(family: Family, name: &[u8], said: &Value<'_>) -> Option<Base>
    ensures { result ≡ listed.begin_said family name.now (view said.now) }
{
    let of = text_in("family", said)?;
    if !(is_network_of(family, of) && is_named(name, said)) {
        return None;
    }
    base_of(of, said)
}

/// The same of an object.
fn begin_in(family: Family, name: &[u8], object: &Value<'_>) -> Option<Base>
    ensures { result ≡ listed.begin_in family name.now (view object.now) }
{
    begin_said(family, name, said_by("chain", object)?)
}

/// The first base chain of the name among objects.
fn begin_of(family: Family, name: &[u8], objects: &[Value<'_>]) -> Option<Base>
    ensures { result ≡ listed.begin_of family name.now (map view objects.now) }
{
    let mut begin = None;
    for object in objects {
        if begin.is_none() {
            begin = begin_in(family, name, object);
        }
    }
    begin
}

/// Whether a name is that of a family of tables.
fn is_family(name: &str) -> bool
    ensures { result ≡ listed.is_family name.now }
{
    matches!(name, "ip" | "ip6" | "inet" | "arp" | "bridge" | "netdev")
}

/// The family of an object.
fn family_in<'a>(said: &Value<'a>) -> Option<&'a str>
    ensures { option_map text_seen result ≡ listed.family_in (view said.now) }
{
    let name = text_in("family", said)?;
    is_family(name).then_some(name)
}

/// Whether objects of tables of a name are such that statements of rules seldom name.
fn is_rare(name: &str) -> bool
    ensures { result ≡ listed.is_rare name.now }
{
    matches!(
        name,
        "secmark" | "synproxy" | "ct helper" | "ct timeout" | "ct expectation" | "flowtable"
    )
}

/// Whether objects of tables of a name say nothing of packets by themselves.
fn is_silent(name: &str) -> bool
    ensures { result ≡ listed.is_silent name.now }
{
    matches!(name, "set" | "map" | "counter" | "quota" | "limit") || is_rare(name)
}

/// Whether objects of a name have a family.
fn has_family(name: &str) -> bool
    ensures { result ≡ listed.has_family name.now }
{
    matches!(name, "rule" | "chain" | "table") || is_silent(name)
}

impl<'k, 's, 'a> Setting<'k, 's, 'a> {
    ghost use Rattle.std.specs.Prelude.{◌≡◌, ◌<◌, [], length, map, IfErr, IfOk, Ok, OnOk};
    ghost use Rattle.json.specs.Value.{value_view as view};
    ghost use Rattle.nft_reader.specs.Known.{setting_of};
    ghost use Rattle.nft_reader.specs.Ruleset as listed;
    ghost use Rattle.nft_reader.specs.Stops.{IsToldOf, Leaves, folded};

    /// Puts a rule after the others of its chain, which has the place.
    fn put_rule(
        &self,
        chains: &mut Vec<NftChain>,
        parts: RuleParts<'_, 'a>,
        place: usize,
    ) -> Result<(), AllocError>
        requires { place < length chains.old.items }
        ensures { OnOk result (chains.new.items ≡ listed.with_rule_at (setting_of self.now)
            (listed.parts_seen parts.entry) chains.old.items place) }
    {
        let known = Known {
            alloc: self.alloc,
            asked: self.asked,
            assumed: self.assumed,
            begin: self.begin,
            sets: self.sets,
            chains,
            owner: &parts.owner,
            handle: parts.handle,
            ported: false,
        };
        let said = known.read(parts.statements)?;
        let effects = known.effects(parts.statements)?;
        let handle = parts.handle;
        chains[place].add_rule(self.alloc, self.asked.family, handle, &said, &effects)
    }

    /// A rule, whose chain stands before it.
    fn add_rule(&self, chains: &mut Vec<NftChain>, said: &Value<'a>) -> Result<(), Stop<ObjectKind>>
        ensures { Leaves result chains.new.items
            (listed.with_rule (setting_of self.now) chains.old.items (view said.now)) }
    {
        let parts = rule_parts(said).ok_or(ObjectKind::BadRule)?;
        let place = place_of(chains, &parts.owner, parts.owner.name, false).ok_or(
            ObjectKind::NoChain,
        )?;
        self.put_rule(chains, parts, place)?;
        Ok(())
    }

    /// A chain, which didn't stand before. It has no rules yet.
    fn add_chain(
        &self,
        chains: &mut Vec<NftChain>,
        said: &Value<'a>,
    ) -> Result<(), Stop<ObjectKind>>
        ensures { Leaves result chains.new.items
            (listed.with_chain (setting_of self.now) chains.old.items (view said.now)) }
    {
        let owner = owner_in("name", said).ok_or(ObjectKind::BadChain)?;
        let handle = handle_in(said).ok_or(ObjectKind::BadChain)?;
        let policy = policy_of(self.asked.answers, handle, said)?;
        let base = base_in(owner.family, policy, said)?;
        if place_of(chains, &owner, owner.name, false).is_some() {
            return Err(Stop::Told(ObjectKind::ChainTwice));
        }
        let chain = NftChain::new(self.alloc, &owner, handle, base, policy)?;
        chains.push(chain)?;
        Ok(())
    }

    /// An object of a family. Chains and rules of families that aren't read have no part.
    fn add_part(
        &self,
        chains: &mut Vec<NftChain>,
        name: &str,
        said: &Value<'a>,
        family: &str,
    ) -> Result<(), Stop<ObjectKind>>
        ensures { Leaves result chains.new.items
            (listed.with_part (setting_of self.now) chains.old.items name.now (view said.now)
            family.now) }
    {
        if name == "table" {
            if !is_awake(said) {
                return Err(Stop::Told(ObjectKind::BadTable));
            }
            return Ok(());
        }
        if !is_read(self.asked.family, family) {
            return Ok(());
        }
        match name {
            "rule" => self.add_rule(chains, said),
            "chain" => self.add_chain(chains, said),
            _ => Ok(()),
        }
    }

    /// An object, which has one member.
    fn add_object(
        &self,
        chains: &mut Vec<NftChain>,
        object: &Value<'a>,
    ) -> Result<(), Stop<ObjectKind>>
        ensures { Leaves result chains.new.items
            (listed.with_object (setting_of self.now) chains.old.items (view object.now)) }
    {
        let (name, said) = only(object).ok_or(ObjectKind::UnknownObject)?;
        if has_family(name) {
            let family = family_in(said).ok_or(ObjectKind::NoFamily)?;
            return self.add_part(chains, name, said, family);
        }
        match name {
            "metainfo" => Ok(()),
            _ => Err(Stop::Told(ObjectKind::UnknownObject)),
        }
    }

    /// The chains of objects, or the first faulty one.
    fn read(&self, objects: &[Value<'a>]) -> Result<Vec<NftChain>, NftFault>
        ensures chains { IfOk result (λ chains.
            listed.objects_read (setting_of self.now) (map view objects.now) ≡ Ok chains.items) }
        ensures fault { IfErr result
            (IsToldOf (listed.objects_read (setting_of self.now) (map view objects.now))) }
    {
        let mut chains = Vec::new(self.alloc);
        let mut object = 0;
        for value in objects {
            object += 1;
            match self.add_object(&mut chains, value) {
                Ok(()) => {}
                Err(stop) => return Err(fault_of(object, stop)),
            }
        }
        Ok(chains)
    }
}

/// Why a ruleset isn't read whose object isn't.
fn fault_of(object: usize, stop: Stop<ObjectKind>) -> NftFault
    ensures { result ≡ listed.fault_of object stop }
{
    match stop {
        Stop::Told(kind) => NftFault::Object(ObjectFault { object, kind }),
        Stop::OutOfMemory => NftFault::OutOfMemory,
    }
}

/// A fault of the whole file.
fn whole_fault(kind: ObjectKind) -> NftFault
    ensures { result ≡ NftFault.Object (listed.whole_fault kind) }
{
    NftFault::Object(ObjectFault { object: 0, kind })
}

/// The objects of a ruleset.
fn objects_of<'v, 'a>(value: &'v Value<'a>) -> Option<&'v [Value<'a>]>
    ensures { option_map all_seen result ≡ listed.objects_of (view value.now) }
{
    items_of(said_by("nftables", value)?)
}

/// The chains of a value.
fn read_value(
    alloc: Global,
    asked: Asked,
    assumed: &[u8],
    name: &[u8],
    value: &Value<'_>,
) -> Result<Vec<NftChain>, NftFault>
    ensures chains { IfOk result (λ chains. listed.chains_of_value name.now
        (listed.question asked assumed.now) (view value.now) ≡ Ok chains.items) }
    ensures fault { IfErr result (IsToldOf (listed.chains_of_value name.now
        (listed.question asked assumed.now) (view value.now))) }
{
    let Some(objects) = objects_of(value) else {
        return Err(whole_fault(ObjectKind::NoList));
    };
    let sets = sets_of(alloc, objects)?;
    let setting = Setting {
        alloc,
        asked,
        assumed,
        begin: begin_of(asked.family, name, objects),
        sets: sets.as_slice(),
    };
    setting.read(objects)
}

/// The chains of a ruleset for the packets of a family, or a faulty object.
///
/// `bytes` holds the whole file, at most [`MAX_RULESET`] bytes: an object with the one member
/// `nftables`, the list of the ruleset's objects. Chains and rules are read of inet, and for IPv4
/// of ip, for IPv6 of ip6; those of other families have no part. Each rule stands after its chain,
/// and after the chains that it leads to.
///
/// A rule that no rule file says leads to no chain, so that `list_chains` refuses each chain whose
/// packets may come to it; the chain's faults have its cause.
///
/// `assumed` says what is assumed of packets beside their bytes, as `in=eth0,state=new`. `name` is
/// that of the base chain to which the packets come: it tells which interfaces they have, and
/// whether the state of their connections is known.
///
/// It takes memory in proportion to the file.
pub fn read_ruleset(
    alloc: Global,
    bytes: &[u8],
    asked: Asked,
    assumed: &[u8],
    name: &[u8],
) -> Result<Vec<NftChain>, NftFault>
    ensures chains { IfOk result
        (λ chains. listed.chains_of asked assumed.now name.now bytes.now ≡ Ok chains.items) }
    ensures fault { IfErr result
        (IsToldOf (listed.chains_of asked assumed.now name.now bytes.now)) }
{
    if is_too_long(bytes) {
        return Err(whole_fault(ObjectKind::FileTooLong));
    }
    read_text(alloc, bytes, asked, assumed, name)
}

/// Whether a ruleset has more bytes than it may have.
fn is_too_long(bytes: &[u8]) -> bool
    ensures { result ≡ nat_lt listed.max_ruleset (length bytes.now) }
{
    bytes.len() > MAX_RULESET
}

/// The chains of a text of JSON.
fn read_text(
    alloc: Global,
    bytes: &[u8],
    asked: Asked,
    assumed: &[u8],
    name: &[u8],
) -> Result<Vec<NftChain>, NftFault>
    ensures chains { IfOk result (λ chains. listed.chains_of_text name.now
        (listed.question asked assumed.now) bytes.now ≡ Ok chains.items) }
    ensures fault { IfErr result (IsToldOf (listed.chains_of_text name.now
        (listed.question asked assumed.now) bytes.now)) }
{
    let mut scratch = Scratch::new(alloc);
    match Value::from_slice(alloc, bytes, &mut scratch) {
        Ok(value) => read_value(alloc, asked, assumed, name, &value),
        Err(Error::OutOfMemory) => Err(NftFault::OutOfMemory),
        Err(Error::Invalid) => Err(whole_fault(ObjectKind::NotJson)),
        Err(Error::TooLong | Error::DuplicateKey) => unreachable!(),
    }
}
