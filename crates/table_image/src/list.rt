//! Lists that grow while an image is read or written.

ghost use Rattle.std.specs.Prelude.{◌≡◌, ◌+◌, ◌^◌, ◌<◌, ◌++◌, ◌∷◌, [], length, replicate, OnOk};

use std::alloc::AllocError;

/// Puts the value after the others.
#[inline]
pub(crate) fn push<T: Drop>(list: &mut Vec<T>, value: T) -> Result<(), AllocError>
    ensures { OnOk result (list.new.items ≡ list.old.items ++ value ∷ []) }
{
    list.push(value)?;
    Ok(())
}

/// Puts so many copies of the value after the others.
#[inline]
pub(crate) fn push_copies<T: Copy + Drop>(
    list: &mut Vec<T>,
    count: usize,
    value: T,
) -> Result<(), AllocError>
    requires { length list.old.items + count < 2 ^ 64 }
    ensures { OnOk result (list.new.items ≡ list.old.items ++ replicate count value) }
{
    list.resize(list.len() + count, value)
}
