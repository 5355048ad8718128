//! Keys as C gives them, and their verdicts by a table.

ghost use Rattle.std.specs.Prelude.{◌≡◌, ◌/◌, ◌<◌, ◌≤◌, ◌==◌, length, Some, IfSome, IfOk, IfErr, false};
ghost use Rattle.field_defs.specs.Layout.{key_len_of};
ghost use Rattle.rule_set.specs.Rule.{RuleSetView};
ghost use Rattle.flat_table.specs.Batch.{KeysFit, keys_of_len, batch_verdicts, batch_transitions};
ghost use Rattle.table_fill.specs.Serves.{Serves};
ghost use Rattle.acl_context.specs.Batch.{verdicts_by_rules};
ghost use Rattle.acl_c.specs.Codes.{ok};
ghost use Rattle.acl_c.specs.Batch.{walk_of, lengths_code, batch_code};

use crate::codes::{BAD_CATEGORIES, BAD_LENGTH, BAD_WALK, NO_LANES, OK, TOO_MANY_KEYS};
use acl_context::{AclContext, NotBuilt, Scratch, Walk};
use batch_walk::classify_by;
use flat_table::{Steps, Table};
use rule_set::Categories;
use std::sync::ledger::{Blank, Ledger};
use table_sizes::MAX_KEYS;

/// The walk of the number.
fn walk_of(number: u32) -> Option<Walk>
    ensures { result ≡ walk_of number }
{
    if number == 0 {
        return Some(Walk::Scalar);
    }
    if number == 1 {
        return Some(Walk::Lanes);
    }
    None
}

/// The code of what is wrong with the lengths of a batch: of its keys in bytes, and of the room for
/// its verdicts, of which there are `count` for each key.
fn lengths_code(key_len: usize, keys: usize, count: usize, room: usize) -> u32
    requires key { 0 < key_len }
    requires some { 0 < count }
    ensures { result ≡ lengths_code key_len keys count room }
{
    if keys % key_len != 0 {
        return BAD_LENGTH;
    }
    if keys / key_len > MAX_KEYS {
        return TOO_MANY_KEYS;
    }
    if room % count == 0 && room / count == keys / key_len {
        return OK;
    }
    BAD_LENGTH
}

/// What is asked of a batch, whose lengths fit.
#[derive(Clone, Copy)]
pub(crate) struct Asked {
    pub cats: Categories,
    pub walk: Walk,
}

/// What is asked of a batch, or the code of what is wrong with it.
pub(crate) fn ask(
    key_len: usize,
    lanes: usize,
    keys: usize,
    categories: u32,
    walk: u32,
    room: usize,
) -> Result<Asked, u32>
    requires { 0 < key_len }
    ensures code { IfErr result
        (λ code. code ≡ batch_code key_len lanes keys categories walk room) }
    ensures faulty { IfErr result (λ code. (code == ok) ≡ false) }
    ensures count { IfOk result (λ asked. asked.cats.count ≡ categories) }
    ensures walk { IfOk result (λ asked. walk_of walk ≡ Some asked.walk) }
    ensures lengths { IfOk result (λ _. lengths_code key_len keys categories room ≡ ok) }
    ensures lanes { IfOk result (λ asked. asked.walk ≡ Walk.Lanes → keys / key_len ≤ lanes) }
    ensures fine { IfOk result
        (λ _. batch_code key_len lanes keys categories walk room ≡ ok) }
{
    let cats = match Categories::new(categories) {
        Some(cats) => cats,
        None => return Err(BAD_CATEGORIES),
    };
    let walk = match walk_of(walk) {
        Some(walk) => walk,
        None => return Err(BAD_WALK),
    };
    let code = lengths_code(key_len, keys, cats.count(), room);
    if code != OK {
        return Err(code);
    }
    if walk == Walk::Lanes && lanes < keys / key_len {
        return Err(NO_LANES);
    }
    Ok(Asked { cats, walk })
}

/// Walks the keys by the table of the context, with a counter that nobody sees.
pub(crate) fn walk_keys<L: Ledger>(
    blank: Blank,
    acl: &AclContext,
    lanes: &mut Scratch,
    keys: &[u8],
    asked: Asked,
    verdicts: &mut [u32],
) -> u64
    requires name { blank.name ≡ L.name }
    requires parts { blank.parts ≡ L.parts }
    requires some { 0 < blank.parts }
    requires fits { KeysFit (key_len_of acl.now.set.layout) keys.now asked.cats.count
        (length verdicts.old) }
    requires room { asked.walk ≡ Walk.Lanes →
        keys_of_len (key_len_of acl.now.set.layout) keys.now ≤ length lanes.old }
    ensures verdicts { IfSome acl.now.table
        (λ table. verdicts.new ≡ batch_verdicts table asked.cats.count keys.now) }
    ensures taken { IfSome acl.now.table
        (λ table. result ≡ batch_transitions table keys.now) }
    ensures served { (set : RuleSetView) → IfSome acl.now.table (λ table. Serves set table →
        verdicts.new ≡ verdicts_by_rules set asked.cats.count keys.now) }
    ensures len { length lanes.new ≡ length lanes.old }
{
    let mut steps = Steps::<L>::new(blank);
    match acl.classify(keys, asked.cats, asked.walk, lanes, verdicts, &mut steps) {
        Ok(taken) => taken,
        Err(NotBuilt) => 0,
    }
}

/// Walks the keys by the table, with a counter that nobody sees.
pub(crate) fn walk_table<L: Ledger>(
    blank: Blank,
    table: &Table,
    lanes: &mut Scratch,
    keys: &[u8],
    asked: Asked,
    verdicts: &mut [u32],
) -> u64
    requires name { blank.name ≡ L.name }
    requires parts { blank.parts ≡ L.parts }
    requires some { 0 < blank.parts }
    requires fits { KeysFit table.now.key_len keys.now asked.cats.count (length verdicts.old) }
    requires room { asked.walk ≡ Walk.Lanes →
        keys_of_len table.now.key_len keys.now ≤ length lanes.old }
    ensures verdicts { verdicts.new ≡ batch_verdicts table.now asked.cats.count keys.now }
    ensures taken { result ≡ batch_transitions table.now keys.now }
    ensures served { (set : RuleSetView) → Serves set table.now →
        verdicts.new ≡ verdicts_by_rules set asked.cats.count keys.now }
    ensures len { length lanes.new ≡ length lanes.old }
{
    let mut steps = Steps::<L>::new(blank);
    classify_by(
        asked.walk, table, keys, asked.cats, lanes, verdicts, &mut steps,
    )
}
