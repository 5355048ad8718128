//! The places of rules, one after the other.

ghost use Rattle.std.specs.Prelude.{◌≡◌, ◌+◌, ◌≤◌, IfOk};
ghost use Rattle.std.specs.List.{range_with_len};
ghost use Rattle.table_sizes.specs.Sizes.{max_rules};

use std::alloc::{AllocError, Global};

/// So many numbers, from the first one on.
pub(crate) fn numbers(alloc: Global, first: usize, len: usize) -> Result<Vec<u32>, AllocError>
    requires { first + len ≤ max_rules }
    ensures { IfOk result (λ numbers. numbers.items ≡ range_with_len first len) }
{
    let mut numbers = Vec::with_capacity(alloc, len)?;
    for place in 0..len {
        numbers.push((first + place) as u32)?;
    }
    Ok(numbers)
}
