//! Which call a line asks for: its first word.

ghost use Rattle.std.specs.Prelude.{◌≡◌};
ghost use Rattle.acl_session.specs.Command.{kind_named, verb_named};

use field_defs::FieldKind;

/// A call that a line asks for. Source: DPDK Programmer's Guide, "Packet Classification and Access
/// Control".
#[derive(Clone, Copy)]
pub(crate) enum Verb {
    /// Collects the definition of a field.
    Field,
    /// Makes a context of the collected definitions.
    Context,
    /// Adds a rule.
    Rule,
    /// Makes the table.
    Build,
    /// Removes all rules.
    ResetRules,
    /// Removes all rules and the table.
    Reset,
    /// Classifies a buffer.
    Classify,
}

/// The call of a name, which is the first word of a line. None where it is no name of a call.
pub(crate) fn verb_named(name: &[u8]) -> Option<Verb>
    ensures { result ≡ verb_named name.now }
{
    if name == b"field".as_slice() {
        Some(Verb::Field)
    } else if name == b"context".as_slice() {
        Some(Verb::Context)
    } else if name == b"rule".as_slice() {
        Some(Verb::Rule)
    } else if name == b"build".as_slice() {
        Some(Verb::Build)
    } else if name == b"reset-rules".as_slice() {
        Some(Verb::ResetRules)
    } else if name == b"reset".as_slice() {
        Some(Verb::Reset)
    } else if name == b"classify".as_slice() {
        Some(Verb::Classify)
    } else {
        None
    }
}

/// The kind of a field that a name stands for.
pub(crate) fn kind_named(name: &[u8]) -> Option<FieldKind>
    ensures { result ≡ kind_named name.now }
{
    if name == b"mask".as_slice() {
        Some(FieldKind::Mask)
    } else if name == b"range".as_slice() {
        Some(FieldKind::Range)
    } else if name == b"bits".as_slice() {
        Some(FieldKind::Bitmask)
    } else {
        None
    }
}
