//! The lines of refusals and verdicts.

ghost use Rattle.std.specs.Prelude.{◌≡◌, ◌<◌, ◌∷◌, ◌++◌, length, OnOk};
ghost use Rattle.acl_session.specs.Replies.{carried_text, fault_text, layout_fault_carries};
ghost use Rattle.acl_session.specs.Replies.{layout_fault_number, layout_fault_text};
ghost use Rattle.acl_session.specs.Replies.{rule_fault_carries, rule_fault_number, rule_fault_text};
ghost use Rattle.acl_session.specs.Replies.{spaced, too_large_text, verdicts_text};

use crate::text::{push_number, push_piece};
use field_defs::LayoutFault;
use rule_set::RuleFault;
use std::alloc::AllocError;

/// Puts the line of a table that would be too large after the text: `refused words W budget B`. It
/// takes the memory of the line, and want of it is the only error.
pub(crate) fn push_too_large(text: &mut Vec<u8>, words: u64, budget: u64) -> Result<(), AllocError>
    ensures { OnOk result (text.new.items ≡ text.old.items ++ too_large_text words budget) }
{
    push_piece(text, b"refused words ")?;
    push_number(text, words)?;
    push_piece(text, b" budget ")?;
    push_number(text, budget)?;
    push_piece(text, b"\n")
}

/// Puts the line of a layout that is refused after the text: `refused layout`, the number of the
/// fault, and the place that it carries, if it carries one. It takes the memory of the line, and
/// want of it is the only error.
pub(crate) fn push_layout_fault(text: &mut Vec<u8>, fault: LayoutFault) -> Result<(), AllocError>
    ensures { OnOk result (text.new.items ≡ text.old.items ++ layout_fault_text fault) }
{
    let carried = layout_fault_carries(fault);
    push_fault(
        text,
        b"refused layout ",
        layout_fault_number(fault),
        carried,
    )
}

/// Puts the line of a rule that is refused after the text: `refused rule`, the number of the fault,
/// and the place that it carries, if it carries one. It takes the memory of the line, and want of
/// it is the only error.
pub(crate) fn push_rule_fault(text: &mut Vec<u8>, fault: RuleFault) -> Result<(), AllocError>
    ensures { OnOk result (text.new.items ≡ text.old.items ++ rule_fault_text fault) }
{
    push_fault(
        text,
        b"refused rule ",
        rule_fault_number(fault),
        rule_fault_carries(fault),
    )
}

/// Puts a line after the text that tells a fault by its number, and the number that it carries.
fn push_fault(
    text: &mut Vec<u8>,
    subject: &[u8],
    number: u64,
    carried: Option<u8>,
) -> Result<(), AllocError>
    ensures { OnOk result
        (text.new.items ≡ text.old.items ++ fault_text subject.now number carried) }
{
    push_piece(text, subject)?;
    push_number(text, number)?;
    push_carried(text, carried)?;
    push_piece(text, b"\n")
}

/// Puts the number that a fault carries after the text, if it carries one.
fn push_carried(text: &mut Vec<u8>, carried: Option<u8>) -> Result<(), AllocError>
    ensures { OnOk result (text.new.items ≡ text.old.items ++ carried_text carried) }
{
    match carried {
        Some(number) => {
            push_piece(text, b" ")?;
            push_number(text, u64::from(number))
        }
        None => Ok(()),
    }
}

/// The number of a fault of a layout.
fn layout_fault_number(fault: LayoutFault) -> u64
    ensures { result ≡ layout_fault_number fault }
{
    match fault {
        LayoutFault::NoFields => 1,
        LayoutFault::FieldIndex(..) => 2,
        LayoutFault::BadSize(..) => 3,
        LayoutFault::FirstNotOneByte => 4,
        LayoutFault::InputOrder(..) => 5,
        LayoutFault::GroupSize(..) => 6,
        LayoutFault::GroupOffsets(..) => 7,
        LayoutFault::OffsetTooLarge(..) => 8,
    }
}

/// The place or the group that a fault of a layout carries.
fn layout_fault_carries(fault: LayoutFault) -> Option<u8>
    ensures { result ≡ layout_fault_carries fault }
{
    match fault {
        LayoutFault::NoFields | LayoutFault::FirstNotOneByte => None,
        LayoutFault::FieldIndex(number)
        | LayoutFault::BadSize(number)
        | LayoutFault::InputOrder(number)
        | LayoutFault::GroupSize(number)
        | LayoutFault::GroupOffsets(number)
        | LayoutFault::OffsetTooLarge(number) => Some(number),
    }
}

/// The number of a fault of a rule.
fn rule_fault_number(fault: RuleFault) -> u64
    ensures { result ≡ rule_fault_number fault }
{
    match fault {
        RuleFault::FieldCount => 1,
        RuleFault::FieldKind(..) => 2,
        RuleFault::NoCategory => 3,
        RuleFault::PriorityRange => 4,
        RuleFault::FieldTooWide(..) => 6,
        RuleFault::MaskTooLong(..) => 7,
        RuleFault::EmptyRange(..) => 8,
    }
}

/// The place that a fault of a rule carries.
fn rule_fault_carries(fault: RuleFault) -> Option<u8>
    ensures { result ≡ rule_fault_carries fault }
{
    match fault {
        RuleFault::FieldCount | RuleFault::NoCategory | RuleFault::PriorityRange => None,
        RuleFault::FieldKind(place)
        | RuleFault::FieldTooWide(place)
        | RuleFault::MaskTooLong(place)
        | RuleFault::EmptyRange(place) => Some(place),
    }
}

/// Puts the verdicts after the text, of which there is at least one, separated by single spaces,
/// and the end of the line. It takes the memory of the line, and want of it is the only error.
pub(crate) fn push_verdicts(text: &mut Vec<u8>, verdicts: &[u32]) -> Result<(), AllocError>
    requires { 0 < length verdicts.now }
    ensures { OnOk result (text.new.items ≡ text.old.items ++ verdicts_text verdicts.now) }
{
    match verdicts {
        [first, others @ ..] => push_line(text, *first, others),
        [] => unreachable!(),
    }
}

/// The same of the first verdict and the others.
fn push_line(text: &mut Vec<u8>, first: u32, others: &[u32]) -> Result<(), AllocError>
    ensures { OnOk result (text.new.items ≡ text.old.items ++ verdicts_text (first ∷ others.now)) }
{
    push_number(text, u64::from(first))?;
    push_spaced(text, others)?;
    push_piece(text, b"\n")
}

/// Puts numbers after the text, each after a space.
fn push_spaced(text: &mut Vec<u8>, numbers: &[u32]) -> Result<(), AllocError>
    ensures { OnOk result
        (text.new.items ≡ text.old.items ++ spaced numbers.now) }
{
    for place in 0..numbers.len() {
        push_piece(text, b" ")?;
        push_number(text, u64::from(numbers[place]))?;
    }
    Ok(())
}
