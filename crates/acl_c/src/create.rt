//! Contexts of field definitions that C gives.

ghost use Rattle.std.specs.Prelude.{◌≡◌, ℕ, ◌<◌, ◌≤◌, Some, None, IfOk, IfErr, Err, map};
ghost use Rattle.table_sizes.specs.Sizes.{max_rules as most_rules};
ghost use Rattle.acl_c.specs.Codes.{no_memory, bad_limit};
ghost use Rattle.acl_c.specs.Given.{def_of, fields_fault};
ghost use Rattle.acl_c.specs.Calls.{new_context};

use crate::codes::{BAD_LIMIT, NO_MEMORY};
use crate::context::Context;
use crate::given::{Field, layout_of};
use acl_context::AclContext;
use std::alloc::{AllocError, Global};
use table_sizes::MAX_RULES;

/// A context without rules and without a table, on the heap, or the code of why there is none.
///
/// `place` is written where the definitions are no layout, and else stays.
pub(crate) fn create(
    alloc: Global,
    fields: &[Field],
    max_rules: u32,
    place: &mut u32,
) -> Result<Box<Context>, u32>
    ensures made { IfOk result
        (λ held. held.value ≡ new_context (map def_of fields.now) max_rules) }
    ensures limit { most_rules < max_rules →
        (result ≡ Err bad_limit) × (place.new ≡ place.old) }
    ensures fault { (code at : ℕ) → max_rules ≤ most_rules →
        fields_fault fields.now ≡ Some (code, at) → (result ≡ Err code) × (place.new ≡ at) }
    ensures lawful { max_rules ≤ most_rules → fields_fault fields.now ≡ None →
        IfErr result (λ code. code ≡ no_memory) × (place.new ≡ place.old) }
{
    if max_rules as usize > MAX_RULES {
        return Err(BAD_LIMIT);
    }
    let layout = match layout_of(fields) {
        Ok(layout) => layout,
        Err((code, at)) => {
            *place = at;
            return Err(code);
        }
    };
    match Context::boxed(alloc, AclContext::create(alloc, layout, max_rules)) {
        Ok(held) => Ok(held),
        Err(AllocError) => Err(NO_MEMORY),
    }
}
