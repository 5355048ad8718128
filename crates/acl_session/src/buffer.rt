//! The verdicts on a buffer, by the table of the context.

ghost use Rattle.std.specs.Prelude.{◌≡◌, ◌≤◌, ◌<◌, ◌++◌, length, nat_lt, is_some, IsTrue};
ghost use Rattle.std.specs.Prelude.{IfOk, IfSome, OnOk};
ghost use Rattle.std.specs.Option.{option_map};
ghost use Rattle.field_defs.specs.Layout.{buffer_len_of, key_len_of, key_of};
ghost use Rattle.acl_session.specs.Hex.{are_bytes_in_hex, bytes_in_hex};
ghost use Rattle.acl_session.specs.State.{Held};
ghost use Rattle.acl_session.specs.Session.{classified_text, verdicts_on};
ghost use Rattle.acl_session.specs.Mirrors.{Holds, SaysOf};

use crate::hex::bytes_in_hex;
use crate::reply::push_verdicts;
use crate::text::push_piece;
use acl_context::{AclContext, NotBuilt, Scratch, Walk};
use field_defs::Layout;
use flat_table::Steps;
use rule_set::Categories;
use std::alloc::{AllocError, Global};
use std::marker::Brand;
use std::sync::ledger::{Blank, Ledger};

/// Puts the reply on the buffer that the digits spell after the others: the verdicts of the last
/// build, or why there are none. It takes the memory of the buffer and its key.
pub(crate) fn classify(
    alloc: Global,
    context: &AclContext,
    cats: Categories,
    digits: &[u8],
    replies: &mut Vec<u8>,
) -> Result<(), AllocError>
    requires { IsTrue (are_bytes_in_hex digits.now) }
    ensures { OnOk result ((held : Held) → Holds held context.now → replies.new.items
        ≡ replies.old.items ++ classified_text held cats.count (bytes_in_hex digits.now)) }
{
    let buffer = bytes_in_hex(alloc, digits)?;
    push_reply(alloc, context, cats, &buffer, replies)
}

/// The same of the bytes of the buffer.
fn push_reply(
    alloc: Global,
    context: &AclContext,
    cats: Categories,
    buffer: &[u8],
    replies: &mut Vec<u8>,
) -> Result<(), AllocError>
    ensures { OnOk result ((held : Held) → Holds held context.now → replies.new.items
        ≡ replies.old.items ++ classified_text held cats.count buffer.now) }
{
    if is_short(context.rules().layout(), buffer) {
        return push_piece(replies, b"refused short buffer\n");
    }
    match verdicts_on(alloc, context, cats, buffer)? {
        Some(verdicts) => push_verdicts(replies, &verdicts),
        None => push_piece(replies, b"refused not built\n"),
    }
}

/// Whether the fields reach further than the buffer.
fn is_short(layout: &Layout, buffer: &[u8]) -> bool
    ensures { result ≡ nat_lt (length buffer.now) (buffer_len_of layout.now) }
{
    buffer.len() < layout.buffer_len()
}

/// The verdicts on a buffer that the fields reach no further than. None where no table was built.
fn verdicts_on(
    alloc: Global,
    context: &AclContext,
    cats: Categories,
    buffer: &[u8],
) -> Result<Option<Vec<u32>>, AllocError>
    requires { buffer_len_of context.now.set.layout ≤ length buffer.now }
    ensures said { IfOk result (λ found. (held : Held) → Holds held context.now →
        option_map (λ v. v.items) found
        ≡ option_map (λ rules. verdicts_on held.layout rules cats.count buffer.now) held.built) }
    ensures some { IfOk result (λ found. IfSome found (λ v. 0 < length v.items)) }
{
    let mut key = vec![in alloc; 0u8; context.rules().layout().key_len()]?;
    let mut verdicts = vec![in alloc; 0u32; cats.count()]?;
    // A key that is walked for itself needs no row.
    let mut scratch = Scratch::new(alloc, 0)?;
    if write_verdicts(context, cats, buffer, &mut key, &mut scratch, &mut verdicts) {
        Ok(Some(verdicts))
    } else {
        Ok(None)
    }
}

/// Writes the key of the buffer and the verdicts on it, and says whether there was a table.
fn write_verdicts(
    context: &AclContext,
    cats: Categories,
    buffer: &[u8],
    key: &mut [u8],
    scratch: &mut Scratch,
    verdicts: &mut [u32],
) -> bool
    requires reached { buffer_len_of context.now.set.layout ≤ length buffer.now }
    requires key { length key.old ≡ key_len_of context.now.set.layout }
    requires room { length verdicts.old ≡ cats.count }
    ensures built { result ≡ is_some context.now.table }
    ensures served { SaysOf context.now.set.layout context.now.table cats.count
        (key_of context.now.set.layout buffer.now) verdicts.new }
    ensures len { length verdicts.new ≡ cats.count }
{
    context.rules().layout().gather(buffer, key);
    classify_key::<Brand>(Blank::new(1), context, cats, key, scratch, verdicts)
}

/// Writes the verdicts on a key, and says whether there was a table. Its transitions are counted by
/// a counter that nobody sees.
fn classify_key<L: Ledger>(
    blank: Blank,
    context: &AclContext,
    cats: Categories,
    key: &[u8],
    scratch: &mut Scratch,
    verdicts: &mut [u32],
) -> bool
    requires name { blank.name ≡ L.name }
    requires parts { blank.parts ≡ L.parts }
    requires some { 0 < blank.parts }
    requires key { length key.now ≡ key_len_of context.now.set.layout }
    requires room { length verdicts.old ≡ cats.count }
    ensures built { result ≡ is_some context.now.table }
    ensures served { SaysOf context.now.set.layout context.now.table cats.count key.now
        verdicts.new }
    ensures len { length verdicts.new ≡ cats.count }
{
    let mut steps = Steps::<L>::new(blank);
    let _lawful = context.rules().layout().fields();
    match context.classify(key, cats, Walk::Scalar, scratch, verdicts, &mut steps) {
        Ok(_) => true,
        Err(NotBuilt) => false,
    }
}
