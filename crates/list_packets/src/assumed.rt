//! What is assumed of packets: their interfaces, the state of their connections, local addresses.
//!
//! The text is `in=eth0,out=eth1,state=new,local=10.0.0.1`, with any of these. `local` may come
//! several times. 127.0.0.0/8 and ::1 are local wherever an address is.

ghost use Rattle.std.specs.Prelude.{◌≡◌, ◌++◌, ◌∷◌, MatchOption, OnOk};
ghost use Rattle.std.specs.Option.{option_to_list};
ghost use Rattle.text_scan.specs.Parts.{parts_of};
ghost use Rattle.list_packets.specs.Assumed.{assumed_state, assumed_state_table, has_beginning, is_interface};
ghost use Rattle.list_packets.specs.Assumed.{is_name, knows_local, local_said};
ghost use Rattle.list_packets.specs.Assumed.{locals_in, loopback, meets_interface, value_in};
ghost use Rattle.list_packets.specs.Assumed.{are_assumptions, assumes_interface, assumes_state};
ghost use Rattle.list_packets.specs.Assumed.{has_repetition, is_assumed, is_assumption};
ghost use Rattle.list_packets.specs.Assumed.{is_repeated, state_named, value_said};
ghost use Rattle.list_packets.specs.Values.{comma};

use crate::names::number_in;
use crate::values::{AddressSpans, address_alone, ip4_spans, ip6_spans};
use field_defs::Family;
use std::alloc::AllocError;
use text_scan::split_once;

/// How many bytes the name of an interface has at most.
const MAX_NAME: usize = 15;

/// The value of a part, if it has the key.
fn value_said<'a>(part: &'a [u8], key: &[u8]) -> Option<&'a [u8]>
    ensures { MatchOption result
        (value_said key.now part.now ≡ None)
        (λ value. value_said key.now part.now ≡ Some value.now) }
{
    match split_once(part, b'=') {
        Some((named, value)) => {
            if named == key {
                return Some(value);
            }
            None
        }
        None => None,
    }
}

/// The value of the first part of an assumption that has the key. It takes no memory.
pub fn value_in<'a>(assumed: &'a [u8], key: &[u8]) -> Option<&'a [u8]>
    ensures { MatchOption result
        (value_in key.now (parts_of comma assumed.now) ≡ None)
        (λ value. value_in key.now (parts_of comma assumed.now) ≡ Some value.now) }
{
    let mut left = assumed;
    while let Some((part, rest)) = split_once(left, b',') {
        match value_said(part, key) {
            Some(value) => return Some(value),
            None => left = rest,
        }
    }
    value_said(left, key)
}

/// The states that can be assumed.
#[tactic(auto, unfolding(crate::specs::Assumed::assumed_state_table))]
fn assumed_states() -> &'static [u8]
    ensures { result.now ≡ assumed_state_table }
{
    b"invalid=1 new=2 established=3 related=4 untracked=5".as_slice()
}

/// The number of a state of connections, by its name in an assumption: `invalid`, `new`,
/// `established`, `related` or `untracked`. It takes no memory.
///
/// Source: iptables-extensions(8), "conntrack".
pub fn state_named(name: &[u8]) -> Option<u64>
    ensures { result ≡ state_named name.now }
{
    number_in(assumed_states(), name)
}

/// The number of the state that is assumed. It takes no memory.
pub fn assumed_state(assumed: &[u8]) -> Option<u64>
    ensures { result ≡ assumed_state assumed.now }
{
    match value_in(assumed, b"state") {
        Some(value) => state_named(value),
        None => None,
    }
}

/// Whether local addresses are assumed. It takes no memory.
pub fn knows_local(assumed: &[u8]) -> bool
    ensures { result ≡ knows_local assumed.now }
{
    value_in(assumed, b"local").is_some()
}

/// The addresses that are local in any machine.
fn loopback(family: Family) -> AddressSpans
    ensures { result ≡ loopback family }
{
    match family {
        Family::Ip4 => ip4_spans(0x7F00_0000, 8),
        Family::Ip6 => ip6_spans(1, 128),
    }
}

/// The address of a part, if it is a local one of the family.
fn local_said(family: Family, part: &[u8]) -> Option<AddressSpans>
    ensures { result ≡ local_said family part.now }
{
    match value_said(part, b"local") {
        Some(text) => address_alone(family, text),
        None => None,
    }
}

/// Puts the local address of a part, if it has one.
fn put_local(into: &mut Vec<AddressSpans>, family: Family, part: &[u8]) -> Result<(), AllocError>
    ensures { OnOk result
        (into.new.items ≡ into.old.items ++ option_to_list (local_said family part.now)) }
{
    match local_said(family, part) {
        Some(spans) => {
            into.push(spans)?;
            Ok(())
        }
        None => Ok(()),
    }
}

/// Puts the local addresses of the family.
pub(crate) fn put_locals(
    into: &mut Vec<AddressSpans>,
    family: Family,
    assumed: &[u8],
) -> Result<(), AllocError>
    ensures { OnOk result (into.new.items
        ≡ into.old.items ++ loopback family ∷ locals_in family (parts_of comma assumed.now)) }
{
    into.push(loopback(family))?;
    let mut left = assumed;
    while let Some((part, rest)) = split_once(left, b',') {
        put_local(into, family, part)?;
        left = rest;
    }
    put_local(into, family, left)
}

/// Whether a word names interfaces: one, or with the wildcard byte at its end all that begin so.
/// It takes no memory.
///
/// Source: iptables(8), "PARAMETERS", where the wildcard is `+`.
pub fn is_interface(wildcard: u8, word: &[u8]) -> bool
    ensures { result ≡ is_interface wildcard word.now }
{
    match split_once(word, wildcard) {
        Some((beginning, after)) => after.is_empty() && is_name(beginning),
        None => is_name(word),
    }
}

/// Whether a text may stand in the name of an interface.
fn is_name(text: &[u8]) -> bool
    ensures { result ≡ is_name text.now }
{
    text.len() <= MAX_NAME && !text.contains(&b'/') && !text.contains(&b'"')
}

/// Whether the interface of a name is one of those that a word names. It takes no memory.
pub fn meets_interface(wildcard: u8, word: &[u8], name: &[u8]) -> bool
    ensures { result ≡ meets_interface wildcard word.now name.now }
{
    match split_once(word, wildcard) {
        Some((beginning, _)) => has_beginning(name, beginning),
        None => word == name,
    }
}

/// Whether a name begins so.
fn has_beginning(name: &[u8], beginning: &[u8]) -> bool
    ensures { result ≡ has_beginning name.now beginning.now }
{
    beginning.len() <= name.len() && &name[..beginning.len()] == beginning
}

/// Whether a text says what is assumed of packets. It does if it is empty, or if each part is one
/// of `in=NAME`, `out=NAME`, `state=new` (or `established`, `related`, `invalid`, `untracked`) and
/// `local=ADDRESS`, where `local` alone may come more than once. It takes no memory.
pub fn is_assumption(text: &[u8]) -> bool
    ensures { result ≡ is_assumption text.now }
{
    text.is_empty() || are_assumptions(text) && !has_repetition(text)
}

/// Whether each part assumes something.
fn are_assumptions(text: &[u8]) -> bool
    ensures { result ≡ are_assumptions (parts_of comma text.now) }
{
    let mut left = text;
    while let Some((part, rest)) = split_once(left, b',') {
        if !is_assumed(part) {
            return false;
        }
        left = rest;
    }
    is_assumed(left)
}

/// Whether a part assumes something.
fn is_assumed(part: &[u8]) -> bool
    ensures { result ≡ is_assumed part.now }
{
    assumes_interface(part, b"in")
        || assumes_interface(part, b"out")
        || assumes_state(part)
        || local_said(Family::Ip4, part).is_some()
        || local_said(Family::Ip6, part).is_some()
}

/// Whether a part assumes an interface under a key.
fn assumes_interface(part: &[u8], key: &[u8]) -> bool
    ensures { result ≡ assumes_interface key.now part.now }
{
    match value_said(part, key) {
        Some(name) => !name.is_empty(),
        None => false,
    }
}

/// Whether a part assumes a state.
fn assumes_state(part: &[u8]) -> bool
    ensures { result ≡ assumes_state part.now }
{
    match value_said(part, b"state") {
        Some(value) => state_named(value).is_some(),
        None => false,
    }
}

/// Whether a key comes more than once that may come once.
fn has_repetition(text: &[u8]) -> bool
    ensures { result ≡ has_repetition text.now }
{
    is_repeated(text, b"in") || is_repeated(text, b"out") || is_repeated(text, b"state")
}

/// Whether a key comes more than once.
fn is_repeated(text: &[u8], key: &[u8]) -> bool
    ensures { result ≡ is_repeated key.now (parts_of comma text.now) }
{
    let mut left = text;
    while let Some((part, rest)) = split_once(left, b',') {
        if value_said(part, key).is_some() {
            return value_in(rest, key).is_some();
        }
        left = rest;
    }
    false
}
