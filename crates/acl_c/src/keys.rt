//! Keys that stand apart, each behind a pointer of its own, and their verdicts by a table.
//!
//! They are packed into room on the stack, some at a time where they are many, and then walked as a
//! batch is. Room is filled with zeros first, so few keys get little of it.

ghost use Rattle.std.specs.Prelude.{◌≡◌, ◌+◌, ◌*◌, ◌<◌, ◌≤◌, true, length, Some, All};
ghost use Rattle.table_sizes.specs.Groups.{max_key_len};
ghost use Rattle.table_sizes.specs.Sizes.{max_tries, max_keys};
ghost use Rattle.acl_c.specs.Keys.{packed, are_of_len, each_verdicts, each_transitions};
ghost use Rattle.acl_c.specs.Keys.{ClassifiesKeys};

use crate::batch::{Asked, ask, walk_table};
use crate::codes::{BAD_LENGTH, OK, TOO_MANY_KEYS};
use acl_context::{Scratch, Walk};
use flat_table::Table;
use std::marker::Brand;
use std::sync::ledger::Blank;
use table_sizes::{MAX_KEYS, MAX_TRIES};

/// `struct aclc_key`: the bytes of a key.
#[repr(C)]
#[derive(Clone, Copy)]
pub struct Key<'a> {
    pub bytes: &'a [u8],
}

/// How many bytes are packed at a time: sixteen keys of the greatest length.
const ROOM: usize = 8_080;

/// Whether each key has so many bytes.
fn are_of_len(key_len: usize, keys: &[Key]) -> bool
    ensures { result ≡ are_of_len key_len keys.now }
{
    keys.iter().all(|key| key.bytes.len() == key_len)
}

/// How many keys of so many bytes are packed at a time: sixteen or a multiple, as many as a walk
/// takes in step.
fn at_once(key_len: usize) -> usize
    requires some { 0 < key_len }
    requires bound { key_len ≤ max_key_len }
    ensures some { 0 < result }
    ensures fits { result * key_len ≤ ROOM }
{
    ROOM / (16 * key_len) * 16
}

/// Writes the bytes of the keys, one key after the other.
fn pack(key_len: usize, keys: &[Key], into: &mut [u8])
    requires lens { are_of_len key_len keys.now ≡ true }
    requires room { length into.old ≡ length keys.now * key_len }
    ensures is { into.new ≡ packed keys.now }
    ensures bytes { All (λ byte. byte < 256) (packed keys.now) }
{
    for place in 0..keys.len() {
        let bytes = keys[place].bytes;
        into[place * key_len..(place + 1) * key_len].copy_from_slice(bytes);
    }
}

/// Where the keys end that are packed next, so many at most, after those that are done.
fn end_of(done: usize, most: usize, all: usize) -> usize
    requires left { done < all }
    requires some { 0 < most }
    ensures more { done < result }
    ensures few { result ≤ done + most }
    ensures within { result ≤ all }
{
    if all - done < most {
        return all;
    }
    done + most
}

/// Writes the verdicts of keys that are packed at once, and says how many transitions they took.
fn walk_some(
    table: &Table,
    lanes: &mut Scratch,
    keys: &[Key],
    asked: Asked,
    room: &mut [u8],
    verdicts: &mut [u32],
) -> u64
    requires lens { are_of_len table.now.key_len keys.now ≡ true }
    requires few { length keys.now * table.now.key_len ≤ length room.old }
    requires most { length keys.now ≤ max_keys }
    requires room { length verdicts.old ≡ length keys.now * asked.cats.count }
    requires lanes { asked.walk ≡ Walk.Lanes → length keys.now ≤ length lanes.old }
    ensures verdicts { verdicts.new ≡ each_verdicts table.now asked.cats.count keys.now }
    ensures taken { result ≡ each_transitions table.now keys.now }
    ensures bound { result ≤ length keys.now * (max_tries * max_key_len) }
    ensures bytes { All (λ byte. byte < 256) (packed keys.now) }
    ensures len { length lanes.new ≡ length lanes.old }
{
    let key_len = table.key_len();
    let tries = table.tries();
    prove!(tries <= MAX_TRIES);
    let bytes = &mut room[..keys.len() * key_len];
    pack(key_len, keys, bytes);
    walk_table::<Brand>(Blank::new(1), table, lanes, bytes, asked, verdicts)
}

/// Writes the verdicts of keys whose bytes are at most so many, and says how many transitions they
/// took.
fn walk_once<const BYTES: usize>(
    table: &Table,
    lanes: &mut Scratch,
    keys: &[Key],
    asked: Asked,
    verdicts: &mut [u32],
) -> u64
    requires lens { are_of_len table.now.key_len keys.now ≡ true }
    requires room_is_less { BYTES ≤ ROOM }
    requires bytes { length keys.now * table.now.key_len ≤ BYTES }
    requires few { length keys.now ≤ max_keys }
    requires room { length verdicts.old ≡ length keys.now * asked.cats.count }
    requires lanes { asked.walk ≡ Walk.Lanes → length keys.now ≤ length lanes.old }
    ensures verdicts { verdicts.new ≡ each_verdicts table.now asked.cats.count keys.now }
    ensures taken { result ≡ each_transitions table.now keys.now }
    ensures bytes { All (λ byte. byte < 256) (packed keys.now) }
    ensures len { length lanes.new ≡ length lanes.old }
{
    let mut room = [0; BYTES];
    walk_some(table, lanes, keys, asked, &mut room, verdicts)
}

/// Writes the verdicts of the keys, and says how many transitions they took.
fn walk_apart(
    table: &Table,
    lanes: &mut Scratch,
    keys: &[Key],
    asked: Asked,
    verdicts: &mut [u32],
) -> u64
    requires lens { are_of_len table.now.key_len keys.now ≡ true }
    requires few { length keys.now ≤ max_keys }
    requires room { length verdicts.old ≡ length keys.now * asked.cats.count }
    requires lanes { asked.walk ≡ Walk.Lanes → length keys.now ≤ length lanes.old }
    ensures verdicts { verdicts.new ≡ each_verdicts table.now asked.cats.count keys.now }
    ensures taken { result ≡ each_transitions table.now keys.now }
    ensures bytes { All (λ byte. byte < 256) (packed keys.now) }
    ensures len { length lanes.new ≡ length lanes.old }
{
    let count = asked.cats.count();
    let most = at_once(table.key_len());
    let mut room = [0; ROOM];
    let mut taken = 0;
    let mut done = 0;
    while done < keys.len() {
        let end = end_of(done, most, keys.len());
        let piece = &mut verdicts[done * count..end * count];
        taken += walk_some(table, lanes, &keys[done..end], asked, &mut room, piece);
        done = end;
    }
    taken
}

/// The same, with room for at most a few times the bytes of the keys.
fn walk_fitting(
    table: &Table,
    lanes: &mut Scratch,
    keys: &[Key],
    asked: Asked,
    verdicts: &mut [u32],
) -> u64
    requires lens { are_of_len table.now.key_len keys.now ≡ true }
    requires few { length keys.now ≤ max_keys }
    requires room { length verdicts.old ≡ length keys.now * asked.cats.count }
    requires lanes { asked.walk ≡ Walk.Lanes → length keys.now ≤ length lanes.old }
    ensures verdicts { verdicts.new ≡ each_verdicts table.now asked.cats.count keys.now }
    ensures taken { result ≡ each_transitions table.now keys.now }
    ensures bytes { All (λ byte. byte < 256) (packed keys.now) }
    ensures len { length lanes.new ≡ length lanes.old }
{
    let bytes = keys.len() * table.key_len();
    if bytes <= 64 {
        return walk_once::<64>(table, lanes, keys, asked, verdicts);
    }
    if bytes <= 256 {
        return walk_once::<256>(table, lanes, keys, asked, verdicts);
    }
    if bytes <= 1_024 {
        return walk_once::<1_024>(table, lanes, keys, asked, verdicts);
    }
    walk_apart(table, lanes, keys, asked, verdicts)
}

/// Writes the verdicts of keys that stand apart, and tells the transitions, or tells why not.
pub(crate) fn classify_keys(
    table: &Table,
    lanes: &mut Scratch,
    keys: &[Key],
    categories: u32,
    walk: u32,
    verdicts: &mut [u32],
    transitions: &mut u64,
) -> u32
    ensures is { ClassifiesKeys (Some table.now) (length lanes.old) keys.now categories walk
        verdicts.old verdicts.new transitions.old transitions.new result }
    ensures len { length lanes.new ≡ length lanes.old }
{
    if keys.len() > MAX_KEYS {
        return TOO_MANY_KEYS;
    }
    let key_len = table.key_len();
    if !are_of_len(key_len, keys) {
        return BAD_LENGTH;
    }
    let bytes = keys.len() * key_len;
    let asked = match ask(
        key_len,
        lanes.room(),
        bytes,
        categories,
        walk,
        verdicts.len(),
    ) {
        Ok(asked) => asked,
        Err(code) => return code,
    };
    *transitions = walk_fitting(table, lanes, keys, asked, verdicts);
    OK
}
