//! The calls that a desk or a sink over memory fails at.

ghost use Rattle.std.specs.Prelude.{◌≡◌};
ghost use Rattle.acl_outside.specs.Memory.{is_listed};

/// Whether the call of this number is one of those that fail.
pub(crate) fn is_listed(failing: &[u64], number: u64) -> bool
    ensures { result ≡ is_listed failing.now number }
{
    failing.contains(&number)
}
