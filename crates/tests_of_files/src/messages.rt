//! What each fault of layouts, rules and captures says.

use field_defs::LayoutFault;
use pcap_reader::{BeginFault, CaptureFault};
use rule_set::{PushFault, RuleFault};
use std::test::Fail;

#[test]
fn a_layout_says_what_is_wrong_with_its_fields(rt: HostRuntime) -> Result<(), Fail> {
    let cases = [
        (LayoutFault::NoFields, "there is no field"),
        (
            LayoutFault::FieldIndex(1),
            "field 1: the field index isn't the place of the field",
        ),
        (
            LayoutFault::BadSize(2),
            "field 2: the size isn't 1, 2, 4 or 8",
        ),
        (
            LayoutFault::FirstNotOneByte,
            "the first field isn't one byte long",
        ),
        (
            LayoutFault::InputOrder(3),
            "field 3: the input index can't follow the one before",
        ),
        (
            LayoutFault::GroupSize(4),
            "group 4: the fields don't fill it",
        ),
        (
            LayoutFault::GroupOffsets(5),
            "field 5: the field doesn't lie after the one before in its group",
        ),
        (
            LayoutFault::OffsetTooLarge(63),
            "field 63: the offset is too large",
        ),
    ];
    for (fault, words) in cases {
        assert!(rt; format!(in rt.alloc(); "{fault}")?.as_str() == words);
    }
    Ok(())
}

#[test]
fn a_rule_says_what_is_wrong_with_it(rt: HostRuntime) -> Result<(), Fail> {
    let cases = [
        (
            RuleFault::FieldCount,
            "the rule has another number of values than the layout has fields",
        ),
        (
            RuleFault::FieldKind(1),
            "field 1: the value is of another kind",
        ),
        (RuleFault::NoCategory, "the rule has no category"),
        (RuleFault::PriorityRange, "the priority is out of range"),
        (
            RuleFault::FieldTooWide(2),
            "field 2: the value is wider than the field",
        ),
        (
            RuleFault::MaskTooLong(3),
            "field 3: the mask is longer than the field",
        ),
        (RuleFault::EmptyRange(63), "field 63: the range is empty"),
    ];
    for (fault, words) in cases {
        assert!(rt; format!(in rt.alloc(); "{fault}")?.as_str() == words);
    }
    let pushed = [
        PushFault::Rule(RuleFault::FieldKind(1)),
        PushFault::OutOfMemory,
    ];
    let text = format!(in rt.alloc(); "{}; {}", pushed[0], pushed[1])?;
    assert!(rt; text.as_str() == "field 1: the value is of another kind; out of memory");
    Ok(())
}

#[test]
fn a_capture_says_why_it_is_refused(rt: HostRuntime) -> Result<(), Fail> {
    let cases = [
        (CaptureFault::HeaderCut, "header cut"),
        (CaptureFault::Magic, "magic"),
        (CaptureFault::Version, "version"),
        (CaptureFault::LinkType, "link type"),
        (CaptureFault::RecordCut(1), "record 1: cut"),
        (
            CaptureFault::RecordTooLong(1_000_000_000),
            "record 1000000000: too long",
        ),
        (CaptureFault::TooManyRecords, "too many"),
        (CaptureFault::ReadFault, "read fault"),
        (CaptureFault::PngCut(2), "record 2: block cut"),
        (CaptureFault::PngLength(3), "record 3: block length"),
        (CaptureFault::PngOrder(1), "record 1: byte order"),
        (CaptureFault::PngVersion(1), "record 1: section version"),
        (CaptureFault::PngInterface(4), "record 4: no interface"),
        (CaptureFault::PngLink(1), "record 1: interface link type"),
        (CaptureFault::PngTooMany(1), "record 1: too many interfaces"),
    ];
    for (fault, words) in cases {
        let text = format!(in rt.alloc(); "{}", BeginFault::Capture(fault))?;
        assert!(rt; text.as_str() == words);
    }
    let text = format!(in rt.alloc(); "{}", BeginFault::OutOfMemory)?;
    assert!(rt; text.as_str() == "out of memory");
    Ok(())
}
