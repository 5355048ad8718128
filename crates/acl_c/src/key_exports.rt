//! The calls of `aclc.h` that classify keys which stand apart.

ghost use Rattle.std.specs.Prelude.{◌≡◌, Some, None, length};
ghost use Rattle.acl_c.specs.declared.context.Context.{Context};
ghost use Rattle.acl_c.specs.Codes.{empty_handle};
ghost use Rattle.acl_c.specs.Calls.{IfHeld};
ghost use Rattle.acl_c.specs.Shared.{SharedView, IfShared};
ghost use Rattle.acl_c.specs.Keys.{ClassifiesKeys};

use crate::codes::EMPTY;
use crate::handle::Handle;
use crate::keys::Key;
use crate::table_handle::TableHandle;
use std::alloc::Global;

/// Writes the verdicts of keys that stand apart by the table of the last build.
#[unsafe(no_mangle)]
pub extern "C" fn aclc_proved_classify_keys(
    alloc: Global,
    context: &mut Handle,
    keys: &[Key],
    categories: u32,
    walk: u32,
    verdicts: &mut [u32],
    transitions: &mut u64,
) -> u32
    ensures empty { context.old.slot.inside ≡ None → (result ≡ empty_handle)
        × (context.new.slot.inside ≡ None) × (verdicts.new ≡ verdicts.old)
        × (transitions.new ≡ transitions.old) }
    ensures held { (old : Context) → context.old.slot.inside ≡ Some old →
        IfHeld context.new.slot.inside (λ new. (new.acl ≡ old.acl)
        × (length new.lanes ≡ length old.lanes)
        × ClassifiesKeys old.acl.table (length old.lanes) keys.now categories walk
        verdicts.old verdicts.new transitions.old transitions.new result) }
{
    if !context.is_held() {
        return EMPTY;
    }
    let mut held = context.take(alloc);
    let code = held.classify_keys(keys, categories, walk, verdicts, transitions);
    context.put(held);
    code
}

/// Writes the verdicts of keys that stand apart by the table.
#[unsafe(no_mangle)]
pub extern "C" fn aclc_proved_table_classify_keys(
    alloc: Global,
    table: &mut TableHandle,
    keys: &[Key],
    categories: u32,
    walk: u32,
    verdicts: &mut [u32],
    transitions: &mut u64,
) -> u32
    ensures empty { table.old.slot.inside ≡ None → (result ≡ empty_handle)
        × (table.new.slot.inside ≡ None) × (verdicts.new ≡ verdicts.old)
        × (transitions.new ≡ transitions.old) }
    ensures held { (old : SharedView) → table.old.slot.inside ≡ Some old →
        IfShared table.new.slot.inside (λ new. (new.table ≡ old.table)
        × (length new.lanes ≡ length old.lanes)
        × ClassifiesKeys (Some old.table) (length old.lanes) keys.now categories walk
        verdicts.old verdicts.new transitions.old transitions.new result) }
{
    if !table.is_held() {
        return EMPTY;
    }
    let mut held = table.take(alloc);
    let code = held.classify_keys(keys, categories, walk, verdicts, transitions);
    table.put(held);
    code
}
