//! The calls of `aclc.h` on tables.

ghost use Rattle.std.specs.Prelude.{◌≡◌, ◌⊎◌, Some, None, IsSome};
ghost use Rattle.flat_table.specs.Table.{TableView, words_of};
ghost use Rattle.acl_c.specs.declared.context.Context.{Context};
ghost use Rattle.acl_c.specs.Codes.{ok, no_memory, empty_handle, taken_handle, not_built};
ghost use Rattle.acl_c.specs.Shared.{SharedView, without_lanes, IfShared};
ghost use Rattle.acl_c.specs.Shared.{MakesRoom, ClassifiesShared};
ghost use Rattle.acl_c.specs.Marks.{Marks};

use crate::codes::{EMPTY, NO_MEMORY, OK, TAKEN};
use crate::handle::Handle;
use crate::marks::mark;
use crate::table_handle::TableHandle;
use std::alloc::{AllocError, Global};

/// Fills a handle of a table with a copy of the context's table.
#[unsafe(no_mangle)]
pub extern "C" fn aclc_proved_table_copy(
    alloc: Global,
    context: &mut Handle,
    table: &mut TableHandle,
) -> u32
    ensures empty { context.old.slot.inside ≡ None → (result ≡ empty_handle)
        × (context.new.slot.inside ≡ None)
        × (table.new.slot.inside ≡ table.old.slot.inside) }
    ensures taken { (old : Context) → context.old.slot.inside ≡ Some old →
        IsSome table.old.slot.inside → (result ≡ taken_handle)
        × (context.new.slot.inside ≡ Some old)
        × (table.new.slot.inside ≡ table.old.slot.inside) }
    ensures not_built { (old : Context) → context.old.slot.inside ≡ Some old →
        table.old.slot.inside ≡ None → old.acl.table ≡ None → (result ≡ not_built)
        × (context.new.slot.inside ≡ Some old) × (table.new.slot.inside ≡ None) }
    ensures held { (old : Context) (built : TableView) → context.old.slot.inside ≡ Some old →
        table.old.slot.inside ≡ None → old.acl.table ≡ Some built →
        (context.new.slot.inside ≡ Some old)
        × (((result ≡ ok) × (table.new.slot.inside ≡ Some (without_lanes built)))
        ⊎ ((result ≡ no_memory) × (table.new.slot.inside ≡ None))) }
{
    if !context.is_held() {
        return EMPTY;
    }
    if table.is_held() {
        return TAKEN;
    }
    let held = context.take(alloc);
    let copy = held.copy_table(alloc);
    context.put(held);
    match copy {
        Ok(copy) => {
            table.put(copy);
            OK
        }
        Err(code) => code,
    }
}

/// Fills another handle with the same table.
#[unsafe(no_mangle)]
pub extern "C" fn aclc_proved_table_share(
    alloc: Global,
    table: &mut TableHandle,
    other: &mut TableHandle,
) -> u32
    ensures empty { table.old.slot.inside ≡ None → (result ≡ empty_handle)
        × (table.new.slot.inside ≡ None)
        × (other.new.slot.inside ≡ other.old.slot.inside) }
    ensures taken { (old : SharedView) → table.old.slot.inside ≡ Some old →
        IsSome other.old.slot.inside → (result ≡ taken_handle)
        × (table.new.slot.inside ≡ Some old)
        × (other.new.slot.inside ≡ other.old.slot.inside) }
    ensures held { (old : SharedView) → table.old.slot.inside ≡ Some old →
        other.old.slot.inside ≡ None → (table.new.slot.inside ≡ Some old)
        × (((result ≡ ok) × (other.new.slot.inside ≡ Some (without_lanes old.table)))
        ⊎ ((result ≡ no_memory) × (other.new.slot.inside ≡ None))) }
{
    if !table.is_held() {
        return EMPTY;
    }
    if other.is_held() {
        return TAKEN;
    }
    let held = table.take(alloc);
    let another = held.another(alloc);
    table.put(held);
    match another {
        Ok(another) => {
            other.put(another);
            OK
        }
        Err(AllocError) => NO_MEMORY,
    }
}

/// Makes room for so many keys of a walk by lanes, in place of the room that was there.
#[unsafe(no_mangle)]
pub extern "C" fn aclc_proved_table_lanes(alloc: Global, table: &mut TableHandle, keys: u32) -> u32
    ensures empty { table.old.slot.inside ≡ None →
        (result ≡ empty_handle) × (table.new.slot.inside ≡ None) }
    ensures held { (old : SharedView) → table.old.slot.inside ≡ Some old →
        IfShared table.new.slot.inside (λ new. MakesRoom keys old new result) }
{
    if !table.is_held() {
        return EMPTY;
    }
    let mut held = table.take(alloc);
    let code = held.reserve(alloc, keys);
    table.put(held);
    code
}

/// Writes the verdicts of keys by the table.
#[unsafe(no_mangle)]
pub extern "C" fn aclc_proved_table_classify(
    alloc: Global,
    table: &mut TableHandle,
    keys: &[u8],
    categories: u32,
    walk: u32,
    verdicts: &mut [u32],
    transitions: &mut u64,
) -> u32
    ensures empty { table.old.slot.inside ≡ None → (result ≡ empty_handle)
        × (table.new.slot.inside ≡ None) × (verdicts.new ≡ verdicts.old)
        × (transitions.new ≡ transitions.old) }
    ensures held { (old : SharedView) → table.old.slot.inside ≡ Some old →
        IfShared table.new.slot.inside (λ new. ClassifiesShared keys.now categories walk old new
        verdicts.old verdicts.new transitions.old transitions.new result) }
{
    if !table.is_held() {
        return EMPTY;
    }
    let mut held = table.take(alloc);
    let code = held.classify(keys, categories, walk, verdicts, transitions);
    table.put(held);
    code
}

/// Marks the categories of keys that no rule of the table wins.
#[unsafe(no_mangle)]
pub extern "C" fn aclc_proved_table_marks(
    alloc: Global,
    table: &mut TableHandle,
    keys: &[u8],
    categories: u32,
    marks: &mut [u8],
) -> u32
    ensures empty { table.old.slot.inside ≡ None → (result ≡ empty_handle)
        × (table.new.slot.inside ≡ None) × (marks.new ≡ marks.old) }
    ensures held { (old : SharedView) → table.old.slot.inside ≡ Some old →
        (table.new.slot.inside ≡ Some old)
        × Marks (Some old.table) keys.now categories marks.old marks.new result }
{
    if !table.is_held() {
        return EMPTY;
    }
    let held = table.take(alloc);
    let code = mark(held.table(), keys, categories, marks);
    table.put(held);
    code
}

/// Tells of how many rules the table was made, how many bytes a key has, and how many words the
/// table has.
#[unsafe(no_mangle)]
pub extern "C" fn aclc_proved_table_sizes(
    alloc: Global,
    table: &mut TableHandle,
    rules: &mut usize,
    key_len: &mut usize,
    words: &mut u64,
) -> u32
    ensures empty { table.old.slot.inside ≡ None → (result ≡ empty_handle)
        × (table.new.slot.inside ≡ None) × (rules.new ≡ rules.old)
        × (key_len.new ≡ key_len.old) × (words.new ≡ words.old) }
    ensures held { (old : SharedView) → table.old.slot.inside ≡ Some old →
        (result ≡ ok) × (table.new.slot.inside ≡ Some old)
        × (rules.new ≡ old.table.rules) × (key_len.new ≡ old.table.key_len)
        × (words.new ≡ words_of old.table) }
{
    if !table.is_held() {
        return EMPTY;
    }
    let held = table.take(alloc);
    *rules = held.table().rules() as usize;
    *key_len = held.table().key_len();
    *words = held.table().total_words();
    table.put(held);
    OK
}

/// Frees the handle's part, and the table where no other handle has it. The handle is empty then.
/// An empty handle stays empty.
#[unsafe(no_mangle)]
pub extern "C" fn aclc_proved_table_free(alloc: Global, table: &mut TableHandle)
    ensures { table.new.slot.inside ≡ None }
{
    if table.is_held() {
        drop(table.take(alloc));
    }
}
