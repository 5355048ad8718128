//! The calls of `aclc.h`.

ghost use Rattle.std.specs.Prelude.{◌≡◌, ℕ, ◌<◌, ◌≤◌, ◌⊎◌, Some, None, IsSome, map, length};
ghost use Rattle.field_defs.specs.Layout.{key_len_of};
ghost use Rattle.table_sizes.specs.Sizes.{max_rules as most_rules};
ghost use Rattle.acl_c.specs.declared.context.Context.{Context};
ghost use Rattle.acl_c.specs.Codes.{ok, no_memory, empty_handle, taken_handle, bad_limit};
ghost use Rattle.acl_c.specs.Given.{def_of, fields_fault};
ghost use Rattle.acl_c.specs.Calls.{new_context, without_rules, without_all, words_in, Builds};
ghost use Rattle.acl_c.specs.Calls.{IfHeld, place_of, AddsGiven, Classifies, Reserves};
ghost use Rattle.acl_c.specs.Calls.{BuildsSmall};
ghost use Rattle.acl_c.specs.Marks.{Marks};
ghost use Rattle.acl_c.specs.Texts.{error_text};

use crate::codes::{EMPTY, OK, TAKEN};
use crate::create::create;
use crate::given::Field;
use crate::handle::Handle;
use crate::rules::{Place, Tag, Value};
use crate::texts::{Text, error_text};
use std::alloc::Global;

/// The version of the library: 65,536 times the major number, and the minor number.
#[unsafe(no_mangle)]
pub extern "C" fn aclc_version() -> u32
    ensures { result ≡ 65537 }
{
    65_537
}

/// Tells the text of an answer, and for a number that is none a text that says so.
#[unsafe(no_mangle)]
pub extern "C" fn aclc_proved_error_text(code: u32, text: &mut Text)
    ensures { text.new.bytes.now ≡ error_text code }
{
    text.bytes = error_text(code);
}

/// Makes a context without rules and without a table.
#[unsafe(no_mangle)]
pub extern "C" fn aclc_proved_create(
    alloc: Global,
    context: &mut Handle,
    fields: &[Field],
    max_rules: u32,
    place: &mut u32,
) -> u32
    ensures taken { IsSome context.old.slot.inside → (result ≡ taken_handle)
        × (context.new.slot.inside ≡ context.old.slot.inside) × (place.new ≡ place.old) }
    ensures limit { context.old.slot.inside ≡ None → most_rules < max_rules →
        (result ≡ bad_limit) × (context.new.slot.inside ≡ None) × (place.new ≡ place.old) }
    ensures fault { (code at : ℕ) → context.old.slot.inside ≡ None → max_rules ≤ most_rules →
        fields_fault fields.now ≡ Some (code, at) →
        (result ≡ code) × (context.new.slot.inside ≡ None) × (place.new ≡ at) }
    ensures lawful { context.old.slot.inside ≡ None → max_rules ≤ most_rules →
        fields_fault fields.now ≡ None → (place.new ≡ place.old)
        × (((result ≡ ok)
        × (context.new.slot.inside ≡ Some (new_context (map def_of fields.now) max_rules)))
        ⊎ ((result ≡ no_memory) × (context.new.slot.inside ≡ None))) }
{
    if context.is_held() {
        return TAKEN;
    }
    match create(alloc, fields, max_rules, place) {
        Ok(held) => {
            context.put(held);
            OK
        }
        Err(code) => code,
    }
}

/// Makes the table of the rules that the context holds, in place of the one before: under a budget,
/// or by 0 a small one.
#[unsafe(no_mangle)]
pub extern "C" fn aclc_proved_build(
    alloc: Global,
    context: &mut Handle,
    budget: u64,
    words: &mut u64,
) -> u32
    ensures empty { context.old.slot.inside ≡ None → (result ≡ empty_handle)
        × (context.new.slot.inside ≡ None) × (words.new ≡ words.old) }
    ensures held { (old : Context) → context.old.slot.inside ≡ Some old → 0 < budget →
        Builds budget old context.new.slot.inside words.old words.new result }
    ensures small { (old : Context) → context.old.slot.inside ≡ Some old → budget ≡ 0 →
        BuildsSmall old context.new.slot.inside words.old words.new result }
{
    if !context.is_held() {
        return EMPTY;
    }
    let mut held = context.take(alloc);
    let code = held.build(budget, words);
    context.put(held);
    code
}

/// Adds rules after those that the context holds, all or none. The table stays.
#[unsafe(no_mangle)]
pub extern "C" fn aclc_proved_add_rules(
    alloc: Global,
    context: &mut Handle,
    rules: &[Tag],
    values: &[Value],
    rule: &mut u32,
    field: &mut u32,
) -> u32
    ensures empty { context.old.slot.inside ≡ None → (result ≡ empty_handle)
        × (context.new.slot.inside ≡ None) × (rule.new ≡ rule.old) × (field.new ≡ field.old) }
    ensures held { (old : Context) → context.old.slot.inside ≡ Some old →
        IfHeld context.new.slot.inside (λ new. AddsGiven rules.now values.now old new
        (place_of rule.old field.old) (place_of rule.new field.new) result) }
{
    if !context.is_held() {
        return EMPTY;
    }
    let mut told = Place {
        rule: *rule,
        field: *field,
    };
    let mut held = context.take(alloc);
    let code = held.add(alloc, rules, values, &mut told);
    context.put(held);
    *rule = told.rule;
    *field = told.field;
    code
}

/// Makes room for so many keys of a walk by lanes, in place of the room that was there.
#[unsafe(no_mangle)]
pub extern "C" fn aclc_proved_lanes(alloc: Global, context: &mut Handle, keys: u32) -> u32
    ensures empty { context.old.slot.inside ≡ None →
        (result ≡ empty_handle) × (context.new.slot.inside ≡ None) }
    ensures held { (old : Context) → context.old.slot.inside ≡ Some old →
        IfHeld context.new.slot.inside (λ new. Reserves keys old new result) }
{
    if !context.is_held() {
        return EMPTY;
    }
    let mut held = context.take(alloc);
    let code = held.reserve(alloc, keys);
    context.put(held);
    code
}

/// Writes the verdicts of keys by the table of the last build.
#[unsafe(no_mangle)]
pub extern "C" fn aclc_proved_classify(
    alloc: Global,
    context: &mut Handle,
    keys: &[u8],
    categories: u32,
    walk: u32,
    verdicts: &mut [u32],
    transitions: &mut u64,
) -> u32
    ensures empty { context.old.slot.inside ≡ None → (result ≡ empty_handle)
        × (context.new.slot.inside ≡ None) × (verdicts.new ≡ verdicts.old)
        × (transitions.new ≡ transitions.old) }
    ensures held { (old : Context) → context.old.slot.inside ≡ Some old →
        IfHeld context.new.slot.inside (λ new. Classifies keys.now categories walk old new
        verdicts.old verdicts.new transitions.old transitions.new result) }
{
    if !context.is_held() {
        return EMPTY;
    }
    let mut held = context.take(alloc);
    let code = held.classify(keys, categories, walk, verdicts, transitions);
    context.put(held);
    code
}

/// Marks the categories of keys that no rule of the table of the last build wins.
#[unsafe(no_mangle)]
pub extern "C" fn aclc_proved_marks(
    alloc: Global,
    context: &mut Handle,
    keys: &[u8],
    categories: u32,
    marks: &mut [u8],
) -> u32
    ensures empty { context.old.slot.inside ≡ None → (result ≡ empty_handle)
        × (context.new.slot.inside ≡ None) × (marks.new ≡ marks.old) }
    ensures held { (old : Context) → context.old.slot.inside ≡ Some old →
        (context.new.slot.inside ≡ Some old)
        × Marks old.acl.table keys.now categories marks.old marks.new result }
{
    if !context.is_held() {
        return EMPTY;
    }
    let held = context.take(alloc);
    let code = held.mark(keys, categories, marks);
    context.put(held);
    code
}

/// Tells how many rules the context holds, how many bytes a key has, and how many words the table
/// has.
#[unsafe(no_mangle)]
pub extern "C" fn aclc_proved_sizes(
    alloc: Global,
    context: &mut Handle,
    rules: &mut usize,
    key_len: &mut usize,
    words: &mut u64,
) -> u32
    ensures empty { context.old.slot.inside ≡ None → (result ≡ empty_handle)
        × (context.new.slot.inside ≡ None) × (rules.new ≡ rules.old)
        × (key_len.new ≡ key_len.old) × (words.new ≡ words.old) }
    ensures held { (old : Context) → context.old.slot.inside ≡ Some old →
        (result ≡ ok) × (context.new.slot.inside ≡ Some old)
        × (rules.new ≡ length old.acl.set.rules)
        × (key_len.new ≡ key_len_of old.acl.set.layout)
        × (words.new ≡ words_in old.acl.table) }
{
    if !context.is_held() {
        return EMPTY;
    }
    let held = context.take(alloc);
    *rules = held.acl.rules().len();
    *key_len = held.acl.rules().layout().key_len();
    *words = held.words();
    context.put(held);
    OK
}

/// Removes all rules. The table stays.
#[unsafe(no_mangle)]
pub extern "C" fn aclc_proved_reset_rules(alloc: Global, context: &mut Handle) -> u32
    ensures empty { context.old.slot.inside ≡ None →
        (result ≡ empty_handle) × (context.new.slot.inside ≡ None) }
    ensures held { (old : Context) → context.old.slot.inside ≡ Some old →
        (result ≡ ok) × (context.new.slot.inside ≡ Some (without_rules old)) }
{
    if !context.is_held() {
        return EMPTY;
    }
    let mut held = context.take(alloc);
    held.reset_rules();
    context.put(held);
    OK
}

/// Removes all rules and the table.
#[unsafe(no_mangle)]
pub extern "C" fn aclc_proved_reset(alloc: Global, context: &mut Handle) -> u32
    ensures empty { context.old.slot.inside ≡ None →
        (result ≡ empty_handle) × (context.new.slot.inside ≡ None) }
    ensures held { (old : Context) → context.old.slot.inside ≡ Some old →
        (result ≡ ok) × (context.new.slot.inside ≡ Some (without_all old)) }
{
    if !context.is_held() {
        return EMPTY;
    }
    let mut held = context.take(alloc);
    held.reset();
    context.put(held);
    OK
}

/// Frees the context. The handle is empty then. An empty handle stays empty.
#[unsafe(no_mangle)]
pub extern "C" fn aclc_proved_free(alloc: Global, context: &mut Handle)
    ensures { context.new.slot.inside ≡ None }
{
    if context.is_held() {
        drop(context.take(alloc));
    }
}
